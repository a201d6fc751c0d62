//! Words of ASCII characters, and digits.

ghost use Rattle.std.specs.Prelude.{◌≡◌, [], true, bytes_eq, string_bytes, IfOk, OnOk};
ghost use Rattle.std.specs.Fmt.{decimal, signed_decimal};
ghost use Rattle.std.specs.Str.{chars};
ghost use Rattle.soy_base.specs.Appends.{Appends};
ghost use Rattle.msg_extract.specs.Canonical.Ascii.{is_ascii};

use soy_base::{OutOfMemory, Text, push_text};
use std::alloc::Global;

/// A string without characters. Takes no memory.
#[tactic(auto, using(crate::proofs::Texts::AsciiTexts::no_characters))]
pub fn empty(alloc: Global) -> String
    ensures { chars (string_bytes result) ≡ [] }
{
    String::new(alloc)
}

/// The digits of a number.
pub fn decimal(alloc: Global, number: u64) -> Result<Text, OutOfMemory>
    ensures { IfOk result (λ t. t ≡ decimal number) }
{
    Ok(Text::new(number.to_string(alloc)?))
}

/// The digits of a number, with `-` before those of one below 0.
pub fn signed_decimal(alloc: Global, number: i64) -> Result<Text, OutOfMemory>
    ensures { IfOk result (λ t. t ≡ signed_decimal number) }
{
    Ok(Text::new(number.to_string(alloc)?))
}

/// Adds a word of ASCII characters.
#[tactic(auto, using(crate::proofs::Texts::AsciiTexts::chars_ascii))]
pub fn push_ascii(out: &mut String, word: &str) -> Result<(), OutOfMemory>
    requires { is_ascii word.now ≡ true }
    ensures { OnOk result (Appends out.old out.new word.now) }
{
    push_text(out, word)
}

/// Whether a text is a word of ASCII characters.
#[tactic(auto, using(crate::proofs::Texts::AsciiTexts::chars_ascii, crate::proofs::Texts::AsciiTexts::same_swapped))]
pub fn is_word(text: &Text, word: &str) -> bool
    requires { is_ascii word.now ≡ true }
    ensures text_first { result ≡ bytes_eq text.now word.now }
    ensures word_first { result ≡ bytes_eq word.now text.now }
{
    text.is(word)
}
