//! Whole texts by a table.
ghost use Rattle.std.specs.Prelude.{◌≡◌, ℕ, ◌≤◌, ◌-◌, List, ◌++◌, length, OnOk, OnErr, IfOk, encode_utf8_all};
ghost use Rattle.std.specs.Str.{chars, IsUtf8};
ghost use Rattle.std.specs.String.{string_bytes};
ghost use Rattle.esc_table.specs.EscapedText.{escaped_character, escaped_text};

use crate::characters::{push_char, push_text};
use crate::memory::OutOfMemory;
use crate::table::Table;
use std::alloc::{AllocError, Global};

/// Appends the text to `out`, each character that has a row as the row's text and each other one as itself. Out of
/// memory, `out` is unchanged.
///
/// `out` grows in the memory that it keeps itself; the first argument says that the call allocates.
pub fn escape_into<const N: usize>(
    _alloc: Global,
    table: &Table<N>,
    text: &str,
    out: &mut String,
) -> Result<(), OutOfMemory>
    requires { N ≤ 256 }
    ensures ok { OnOk result
        (chars (string_bytes out.new) ≡ chars (string_bytes out.old) ++ escaped_text table.now (chars text.now)) }
    ensures bytes { OnOk result
        (string_bytes out.new ≡ string_bytes out.old ++ encode_utf8_all (escaped_text table.now (chars text.now))) }
    ensures err { OnErr result (string_bytes out.new ≡ string_bytes out.old) }
{
    let old_len = out.len();
    match push_escaped(table, text, out) {
        Ok(()) => Ok(()),
        Err(_) => {
            out.truncate(old_len);
            Err(OutOfMemory)
        }
    }
}

// Pushes as `escape_into` appends; out of memory, a part may have been pushed.
//
// What stands before a character that may have a row is pushed as one piece.
fn push_escaped<const N: usize>(
    table: &Table<N>,
    text: &str,
    out: &mut String,
) -> Result<(), AllocError>
    requires { N ≤ 256 }
    ensures ok { OnOk result
        (chars (string_bytes out.new) ≡ chars (string_bytes out.old) ++ escaped_text table.now (chars text.now)) }
    ensures grown { (more : List ℕ) × (chars (string_bytes out.new) ≡ chars (string_bytes out.old) ++ more) }
{
    let mut rest = text;
    while !rest.is_empty() {
        let (plain, others) = table.plain_run(rest);
        push_text(out, plain)?;
        rest = push_first(table, others, out)?;
    }
    Ok(())
}

// Pushes what stands for the first character of a text, and gives what follows it.
fn push_first<'a, const N: usize>(
    table: &Table<N>,
    text: &'a str,
    out: &mut String,
) -> Result<&'a str, AllocError>
    requires { N ≤ 256 }
    ensures ok { IfOk result (λ rest.
        chars (string_bytes out.new) ++ escaped_text table.now (chars rest.now)
        ≡ chars (string_bytes out.old) ++ escaped_text table.now (chars text.now)) }
    ensures utf8 { IfOk result (λ rest. IsUtf8 rest.now) }
    ensures shorter { IfOk result (λ rest. length rest.now ≤ length text.now - 1) }
    ensures grown { (more : List ℕ) × (chars (string_bytes out.new) ≡ chars (string_bytes out.old) ++ more) }
{
    let mut characters = text.chars();
    match characters.next() {
        Some(c) => {
            push_escaped_character(table, c, out)?;
            Ok(characters.as_str())
        }
        None => Ok(text),
    }
}

// Pushes what stands for a character.
fn push_escaped_character<const N: usize>(
    table: &Table<N>,
    c: char,
    out: &mut String,
) -> Result<(), AllocError>
    requires { N ≤ 256 }
    ensures ok { OnOk result
        (chars (string_bytes out.new) ≡ chars (string_bytes out.old) ++ escaped_character table.now c) }
    ensures err { OnErr result (string_bytes out.new ≡ string_bytes out.old) }
{
    match table.find(c) {
        Some(row) => push_text(out, row),
        None => push_char(out, c),
    }
}
