//! The words of a select, up to the braces of their arms.

ghost use Rattle.std.specs.Prelude.{◌≡◌};
ghost use Rattle.std.specs.Str.{chars};
ghost use Rattle.soy_tree.specs.Formed.{is_word_character};
ghost use Rattle.icu_text.specs.Words.{view_word, word_at, word_end_read, word_from, word_read};

use crate::scan::after_space;
use soy_base::{first, split_while};

/// A word with the brace of its arm, or the end of a select, with what follows it.
#[derive(Clone, Copy)]
pub enum Word<'a> {
    Arm(&'a str, &'a str),
    /// The text from the brace that ends the select, and what follows that brace.
    End(&'a str, &'a str),
    /// No select goes on as this does.
    Stuck(&'a str),
}

/// Whether a word may have the character.
fn is_word_character(c: char) -> bool
    ensures { result ≡ is_word_character c }
{
    c.is_ascii_alphabetic() || c.is_ascii_digit() || c == '_' || c == '-'
}

/// A word of a select, or its end.
pub fn read_word(text: &str) -> Word<'_>
    ensures { view_word result ≡ word_read (chars text.now) }
{
    word_at(after_space(text))
}

fn word_at(text: &str) -> Word<'_>
    ensures { view_word result ≡ word_at (chars text.now) }
{
    match first(text) {
        None => Word::Stuck(text),
        Some((c, after)) => {
            if c == '}' {
                return Word::End(text, after);
            }
            word_from(c, text)
        }
    }
}

/// A word, if one may begin with the first character of a text.
fn word_from(c: char, text: &str) -> Word<'_>
    ensures { view_word result ≡ word_from c (chars text.now) }
{
    if !is_word_character(c) {
        return Word::Stuck(text);
    }
    let (word, rest) = split_while(text, is_word_character);
    word_end(word, after_space(rest))
}

/// The brace of an arm.
fn word_end<'a>(word: &'a str, text: &'a str) -> Word<'a>
    ensures { view_word result ≡ word_end_read (chars word.now) (chars text.now) }
{
    match first(text) {
        None => Word::Stuck(text),
        Some((c, after)) => {
            if c == '{' {
                return Word::Arm(word, after);
            }
            Word::Stuck(text)
        }
    }
}
