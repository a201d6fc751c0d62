//! Strings of commands: from a first quote to the last one, with the escapes undone.

ghost use Rattle.std.specs.Prelude.{◌≡◌, ◌∷◌, IfOk, Some, None, if◌then◌else◌, option_map};
ghost use Rattle.std.specs.Char.{digit_value, is_ascii_hexdigit};
ghost use Rattle.std.specs.Str.{chars};
ghost use Rattle.std.specs.String.{string_bytes};
ghost use Rattle.soy_base.specs.Characters.{single_quote};
ghost use Rattle.soy_lexer.specs.CommandSegment.{quoted_segment};
ghost use Rattle.soy_lexer.specs.ReadsSegment.{ReadsSegment};
ghost use Rattle.soy_lexer.specs.StringSteps.{IsNextItem, ReadsEscape, value_and_rest};
ghost use Rattle.soy_lexer.specs.Strings.{escaped, numbered, quoted, quoted_escape, quoted_number};

use crate::begins::begins;
use crate::source_segment::{FirstSegment, SourceSegment};
use crate::token::TokenKind;
use soy_base::{OutOfMemory, Refusal, Text, before, first, push_char};
use std::alloc::Global;

/// The next item of a string.
pub(crate) enum NextItem<'a> {
    /// A character that the string has, as itself or as an escape.
    Character(char, &'a str),
    /// Its last quote.
    End(&'a str),
    /// The end of the text, or no escape.
    Broken,
}

/// A string; the second text is the first without its first quote.
pub(crate) fn string_segment<'a>(
    alloc: Global,
    text: &'a str,
    inner: &'a str,
) -> Result<FirstSegment<'a>, Refusal<usize>>
    requires { chars text.now ≡ single_quote ∷ chars inner.now }
    ensures { ReadsSegment (quoted_segment (quoted (chars inner.now))) result }
{
    match characters(alloc, inner)? {
        Some((value, rest)) => {
            let source_text = before(text, rest);
            let segment = SourceSegment::CommandToken(
                TokenKind::Str,
                source_text,
                Text::new(value),
            );
            begins(segment, source_text, rest)
        }
        None => Err(Refusal::Because(0)),
    }
}

/// The characters of a string after its first quote, and what follows the string.
fn characters<'a>(alloc: Global, text: &'a str) -> Result<Option<(String, &'a str)>, OutOfMemory>
    ensures { IfOk result (λ found.
        option_map (λ parts. (chars (string_bytes parts.0), chars parts.1.now)) found
        ≡ value_and_rest (quoted (chars text.now))) }
{
    let mut value = String::new(alloc);
    let mut left = text;
    loop {
        match next_item(left) {
            NextItem::Character(c, rest) => {
                push_char(&mut value, c)?;
                left = rest;
            }
            NextItem::End(rest) => return Ok(Some((value, rest))),
            NextItem::Broken => return Ok(None),
        }
    }
}

/// The next item of a string from there on.
fn next_item(text: &str) -> NextItem<'_>
    ensures { IsNextItem (chars text.now) result }
{
    match first(text) {
        Some(('\'', rest)) => NextItem::End(rest),
        Some(('\\', rest)) => match escape(rest) {
            Some((c, rest)) => NextItem::Character(c, rest),
            None => NextItem::Broken,
        },
        Some((c, rest)) => NextItem::Character(c, rest),
        None => NextItem::Broken,
    }
}

/// The character that an escape stands for, from after its backslash on, and what follows it.
fn escape(text: &str) -> Option<(char, &str)>
    ensures { ReadsEscape (chars text.now) (quoted_escape (chars text.now)) result }
{
    let (c, rest) = first(text)?;
    if c == 'u' {
        number(rest)
    } else {
        Some((escaped(c)?, rest))
    }
}

/// The character for which one stands after a backslash.
fn escaped(c: char) -> Option<char>
    ensures { result ≡ escaped c }
{
    match c {
        '\\' | '\'' | '"' => Some(c),
        'n' => Some('\n'),
        'r' => Some('\r'),
        't' => Some('\t'),
        'b' => Some('\u{8}'),
        'f' => Some('\u{c}'),
        _ => None,
    }
}

/// The character that the four digits after `\u` write, and what follows them.
fn number(text: &str) -> Option<(char, &str)>
    ensures { ReadsEscape (chars text.now) (quoted_number (chars text.now)) result }
{
    let (a, rest) = first(text)?;
    let (b, rest) = first(rest)?;
    let (c, rest) = first(rest)?;
    let (d, rest) = first(rest)?;
    Some((numbered(a, b, c, d)?, rest))
}

/// The character that four hexadecimal digits write.
fn numbered(a: char, b: char, c: char, d: char) -> Option<char>
    ensures { result ≡ numbered a b c d }
{
    let (a, b) = (hexadecimal(a)?, hexadecimal(b)?);
    let (c, d) = (hexadecimal(c)?, hexadecimal(d)?);
    char::from_u32(((a * 16 + b) * 16 + c) * 16 + d)
}

/// The value of a hexadecimal digit.
fn hexadecimal(c: char) -> Option<u32>
    ensures { result ≡ (if is_ascii_hexdigit c then Some (digit_value c) else None) }
{
    c.to_digit(16)
}
