//! Words of ASCII characters, and digits, added at the end of a string.

ghost use Rattle.std.specs.Prelude.{◌≡◌, [], true, IfOk, OnOk};
ghost use Rattle.std.specs.Fmt.{decimal, signed_decimal};
ghost use Rattle.std.specs.Str.{chars};
ghost use Rattle.std.specs.String.{string_bytes};
ghost use Rattle.soy_base.specs.Appends.{Appends};
ghost use Rattle.soy_format.specs.Ascii.{is_ascii};

use soy_base::{OutOfMemory, Text, push_text};
use std::alloc::Global;

/// Adds a word of ASCII characters.
#[tactic(auto, using(crate::proofs::AsciiTexts::chars_ascii))]
pub(crate) fn push_ascii(out: &mut String, word: &str) -> Result<(), OutOfMemory>
    requires { is_ascii word.now ≡ true }
    ensures { OnOk result (Appends out.old out.new word.now) }
{
    push_text(out, word)
}

/// A string without characters. Takes no memory.
#[tactic(auto, using(crate::proofs::AsciiTexts::no_characters))]
pub(crate) fn empty(alloc: Global) -> String
    ensures { chars (string_bytes result) ≡ [] }
{
    String::new(alloc)
}

/// The digits of a number.
fn decimal(alloc: Global, number: u64) -> Result<Text, OutOfMemory>
    ensures { IfOk result (λ t. t ≡ decimal number) }
{
    Ok(Text::new(number.to_string(alloc)?))
}

/// The digits of a number, with `-` before those of one below 0.
fn signed_decimal(alloc: Global, number: i64) -> Result<Text, OutOfMemory>
    ensures { IfOk result (λ t. t ≡ signed_decimal number) }
{
    Ok(Text::new(number.to_string(alloc)?))
}

/// Adds the digits of a number.
pub(crate) fn push_decimal(alloc: Global, out: &mut String, number: u64) -> Result<(), OutOfMemory>
    ensures { OnOk result (Appends out.old out.new (decimal number)) }
{
    let digits = decimal(alloc, number)?;
    push_text(out, digits.text())
}

/// Adds the digits of a number, with `-` before those of one below 0.
pub(crate) fn push_signed_decimal(
    alloc: Global,
    out: &mut String,
    number: i64,
) -> Result<(), OutOfMemory>
    ensures { OnOk result (Appends out.old out.new (signed_decimal number)) }
{
    let digits = signed_decimal(alloc, number)?;
    push_text(out, digits.text())
}
