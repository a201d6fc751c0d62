//! Ints, and the words of a select's cases.

ghost use Rattle.std.specs.Prelude.{◌≡◌, ◌≤◌, ◌++◌, ◌∷◌, [], IfOk, IfSome, Some, None, if◌then◌else◌};
ghost use Rattle.std.specs.List.{list_all};
ghost use Rattle.std.specs.Str.{chars};
ghost use Rattle.soy_base.specs.Limits.{largest};
ghost use Rattle.soy_parser.specs.Heads.{digits_value, written_int};
ghost use Rattle.soy_tree.specs.Formed.{is_case_word, is_word_character};

use soy_base::{OutOfMemory, Row, Text, first, is_empty};
use std::alloc::Global;

const LARGEST_INT: u64 = 9007199254740991;

/// The int that a text writes, if it writes one.
#[tactic(auto, using(crate::proofs::Ints::digits_bounded))]
pub(crate) fn written_int(text: &str) -> Option<u64>
    ensures value { result ≡ written_int (chars text.now) }
    ensures bound { IfSome result (λ n. n ≤ largest) }
{
    match first(text) {
        Some(('0', rest)) => { if is_empty(rest) { Some(0) } else { None } }
        Some((_, _)) => digits_value(text),
        None => None,
    }
}

/// The number that decimal digits write, if it isn't over the largest int.
#[tactic(auto, using(crate::proofs::Ints::digits_too_large))]
fn digits_value(digits: &str) -> Option<u64>
    ensures { result ≡ digits_value 0 (chars digits.now) }
{
    let mut value = 0u64;
    for c in digits.chars() {
        if !c.is_ascii_digit() {
            return None;
        }
        value = 10 * value + (c as u32 - '0' as u32) as u64;
        if value > LARGEST_INT {
            return None;
        }
    }
    Some(value)
}

/// Whether a text is a word of a select's case.
#[tactic(auto, using(crate::proofs::Literals::chars_other, crate::proofs::Cases::case_word_by_parts))]
pub(crate) fn is_case_word(word: &Text) -> bool
    ensures { result ≡ is_case_word word.now }
{
    !word.is_empty() && has_word_characters(word.text()) && !word.is("other")
}

/// Whether a word of a select's case may have all characters of the text.
fn has_word_characters(text: &str) -> bool
    ensures { result ≡ list_all is_word_character (chars text.now) }
{
    text.chars().all(is_word_character)
}

fn is_word_character(c: char) -> bool
    ensures { result ≡ is_word_character c }
{
    c.is_ascii_alphabetic() || c.is_ascii_digit() || c == '_' || c == '-'
}

/// The ints and one more.
pub(crate) fn with_int(values: Row<i64>, value: i64) -> Result<Row<i64>, OutOfMemory>
    ensures { IfOk result (λ more. more ≡ values ++ (value ∷ [])) }
{
    let mut values = values;
    values.push(value)?;
    Ok(values)
}

/// The words and one more.
pub(crate) fn with_word(
    alloc: Global,
    words: Row<Text>,
    word: &Text,
) -> Result<Row<Text>, OutOfMemory>
    ensures { IfOk result (λ more. more ≡ words ++ (word.now ∷ [])) }
{
    let word = word.copy(alloc)?;
    let mut words = words;
    words.push(word)?;
    Ok(words)
}
