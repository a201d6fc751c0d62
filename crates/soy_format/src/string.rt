//! String literals.

ghost use Rattle.std.specs.Prelude.{OnOk};
ghost use Rattle.std.specs.Str.{chars};
ghost use Rattle.soy_base.specs.Appends.{Appends};
ghost use Rattle.soy_format.specs.FormattedString.{formatted_string, string_character, string_characters};

use crate::ascii::push_ascii;
use soy_base::{OutOfMemory, Text, push_char};

/// Adds a character of a string.
fn push_string_character(out: &mut String, c: char) -> Result<(), OutOfMemory>
    ensures { OnOk result (Appends out.old out.new (string_character c)) }
{
    match c {
        '\\' => push_ascii(out, "\\\\"),
        '\'' => push_ascii(out, "\\'"),
        '\n' => push_ascii(out, "\\n"),
        '\r' => push_ascii(out, "\\r"),
        '\t' => push_ascii(out, "\\t"),
        '\u{8}' => push_ascii(out, "\\b"),
        '\u{c}' => push_ascii(out, "\\f"),
        '\0' => push_ascii(out, "\\u0000"),
        _ => push_char(out, c),
    }
}

/// Adds the characters of a string.
fn push_string_characters(out: &mut String, text: &str) -> Result<(), OutOfMemory>
    ensures { OnOk result (Appends out.old out.new (string_characters (chars text.now))) }
{
    for c in text.chars() {
        push_string_character(out, c)?;
    }
    Ok(())
}

/// Adds a string in single quotes.
#[tactic(auto, using(crate::proofs::Pushes::append_assoc))]
pub(crate) fn push_string(out: &mut String, text: &Text) -> Result<(), OutOfMemory>
    ensures { OnOk result (Appends out.old out.new (formatted_string text.now)) }
{
    push_char(out, '\'')?;
    push_string_characters(out, text.text())?;
    push_char(out, '\'')
}
