//! Texts of a body, and the line that a body is written on.

ghost use Rattle.std.specs.Prelude.{◌≡◌, false, ◌==◌, [], ◌∷◌, ◌++◌, OnOk, encode_utf8};
ghost use Rattle.std.specs.Str.{chars};
ghost use Rattle.std.specs.String.{string_bytes};
ghost use Rattle.soy_base.specs.Appends.{Appends};
ghost use Rattle.soy_base.specs.Characters.{line_feed, slash};
ghost use Rattle.soy_format.specs.FormattedText.{body_line, comment_break, edge_character, formatted_text};
ghost use Rattle.soy_format.specs.FormattedText.{text_character, text_characters};

use crate::ascii::push_ascii;
use soy_base::{OutOfMemory, Text, first, push_char, push_text};

/// Adds a character of a text.
fn push_text_character(out: &mut String, c: char) -> Result<(), OutOfMemory>
    ensures { OnOk result (Appends out.old out.new (text_character c)) }
{
    match c {
        '{' => push_ascii(out, "{lb}"),
        '}' => push_ascii(out, "{rb}"),
        '\n' => push_ascii(out, "{\\n}"),
        '\r' => push_ascii(out, "{\\r}"),
        '\t' => push_ascii(out, "{\\t}"),
        _ => push_char(out, c),
    }
}

/// Adds what keeps a character from beginning a comment with the `/` before it.
fn push_comment_break(out: &mut String, after_slash: bool, c: char) -> Result<(), OutOfMemory>
    ensures { OnOk result (Appends out.old out.new (comment_break after_slash c)) }
{
    if after_slash && (c == '/' || c == '*') {
        return push_ascii(out, "{nil}");
    }
    Ok(())
}

/// Adds the characters of a text.
fn push_characters(out: &mut String, text: &str) -> Result<(), OutOfMemory>
    ensures { OnOk result (Appends out.old out.new (text_characters false (chars text.now))) }
{
    let mut after_slash = false;
    for c in text.chars() {
        push_comment_break(out, after_slash, c)?;
        push_text_character(out, c)?;
        after_slash = c == '/';
    }
    Ok(())
}

/// Adds a text of a body.
#[tactic(auto, using(crate::proofs::TextLines::some_text))]
pub(crate) fn push_formatted_text(out: &mut String, text: &Text) -> Result<(), OutOfMemory>
    ensures { OnOk result (Appends out.old out.new (formatted_text text.now)) }
{
    if text.is_empty() {
        return push_ascii(out, "{nil}");
    }
    push_characters(out, text.text())
}

/// Adds a character that is the first or last one of a line.
fn push_edge(out: &mut String, c: char) -> Result<(), OutOfMemory>
    ensures { OnOk result (Appends out.old out.new (edge_character c)) }
{
    if c == ' ' {
        return push_ascii(out, "{sp}");
    }
    push_char(out, c)
}

/// Adds a line of one character.
#[tactic(auto, using(crate::proofs::Pushes::append_assoc))]
fn push_only(out: &mut String, only: char) -> Result<(), OutOfMemory>
    ensures { OnOk result (Appends out.old out.new (edge_character only ++ line_feed ∷ [])) }
{
    push_edge(out, only)?;
    push_char(out, '\n')
}

/// Adds a line by its first character, what stands between, and its last character.
#[tactic(auto, using(crate::proofs::Pushes::three_pushed))]
fn push_ends(out: &mut String, start: char, inner: &str, end: char) -> Result<(), OutOfMemory>
    ensures { OnOk result (Appends out.old out.new
        (edge_character start ++ (chars inner.now ++ (edge_character end ++ line_feed ∷ [])))) }
{
    push_edge(out, start)?;
    push_text(out, inner)?;
    push_only(out, end)
}

/// Adds a line by what stands before its last character, and that one.
fn push_line(out: &mut String, before: &str, last: char) -> Result<(), OutOfMemory>
    ensures { OnOk result (Appends out.old out.new (body_line (chars (before.now ++ encode_utf8 last)))) }
{
    match first(before) {
        None => push_only(out, last),
        Some((start, inner)) => push_ends(out, start, inner, last),
    }
}

/// Adds the line of a body, unless it is empty.
pub(crate) fn push_body_line(out: &mut String, line: String) -> Result<(), OutOfMemory>
    ensures { OnOk result (Appends out.old out.new (body_line (chars (string_bytes line)))) }
{
    let mut before = line;
    match before.pop() {
        None => Ok(()),
        Some(last) => push_line(out, before.as_str(), last),
    }
}
