//! Texts that are appended to another, escaped by a table.
ghost use Rattle.std.specs.Prelude.{◌≤◌, IsTrue, OnOk, not};
ghost use Rattle.std.specs.Char.{is_ascii_alphanumeric};
ghost use Rattle.std.specs.List.{list_all};
ghost use Rattle.std.specs.Str.{chars};
ghost use Rattle.soy_base.specs.Appends.{Appends};
ghost use Rattle.esc_table.specs.EscapedText.{escaped_text};

use crate::alphanumeric::is_alphanumeric;
use esc_table::{Table, escape_into};
use soy_base::{OutOfMemory, push_text};
use std::alloc::Global;

/// Appends the text, escaped by the table's rows, none of which is for a letter or a digit.
pub(crate) fn push_escaped<const N: usize>(
    alloc: Global,
    out: &mut String,
    table: &Table<N>,
    text: &str,
) -> Result<(), OutOfMemory>
    requires size { N ≤ 256 }
    requires alphanumerics_stay { IsTrue (list_all (λ row. not (is_ascii_alphanumeric row.0)) table.now) }
    ensures { OnOk result (Appends out.old out.new (escaped_text table.now (chars text.now))) }
{
    if is_alphanumeric(text) {
        return push_text(out, text);
    }
    match escape_into(alloc, table, text, out) {
        Ok(()) => Ok(()),
        Err(_) => Err(OutOfMemory),
    }
}
