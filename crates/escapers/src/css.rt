//! Texts as strings and values of a style.
ghost use Rattle.std.specs.Prelude.{◌≡◌, OnOk};
ghost use Rattle.std.specs.List.{list_all};
ghost use Rattle.std.specs.Str.{chars};
ghost use Rattle.soy_base.specs.Appends.{Appends};
ghost use Rattle.esc_table.specs.EscapedText.{escaped_text};
ghost use Rattle.escapers.specs.CssRows.{css_rows};
ghost use Rattle.escapers.specs.CssValue.{css_value, is_css_value, is_value_character};

use crate::alphanumeric::is_alphanumeric;
use crate::push::push_escaped;
use esc_table::{Table, rows};
use soy_base::{OutOfMemory, push_text};
use std::alloc::Global;

/// Appends the text as a part of a string.
pub(crate) fn push_css_string(
    alloc: Global,
    out: &mut String,
    text: &str,
) -> Result<(), OutOfMemory>
    ensures { OnOk result (Appends out.old out.new (escaped_text css_rows (chars text.now))) }
{
    push_escaped(alloc, out, &css_table(), text)
}

/// Appends the text as a whole value, or instead of it a name that no style knows.
pub(crate) fn push_css_value(out: &mut String, text: &str) -> Result<(), OutOfMemory>
    ensures { OnOk result (Appends out.old out.new (css_value (chars text.now))) }
{
    if is_css_value(text) {
        push_text(out, text)
    } else {
        push_text(out, "zSoyz")
    }
}

/// Whether the text passes as a value of a style: it isn't empty, and has letters, digits and `.%#_-` of ASCII alone.
pub fn is_css_value(text: &str) -> bool
    ensures { result ≡ is_css_value (chars text.now) }
{
    !text.is_empty() && has_value_characters(text)
}

/// Whether a value may have all characters of the text.
fn has_value_characters(text: &str) -> bool
    ensures { result ≡ list_all is_value_character (chars text.now) }
{
    if is_alphanumeric(text) {
        return true;
    }
    text.chars().all(is_value_character)
}

fn is_value_character(c: char) -> bool
    ensures { result ≡ is_value_character c }
{
    c.is_ascii_alphanumeric() || matches!(c, '.' | '%' | '#' | '_' | '-')
}

const NO: bool = false;

const ROW: bool = true;

/// The lead bytes of the rows, sixteen in a line.
static LEAD_BYTES: [bool; 256] = [
    ROW, ROW, ROW, ROW, ROW, ROW, ROW, ROW, ROW, ROW, ROW, ROW, ROW, ROW, ROW, ROW, //
    ROW, ROW, ROW, ROW, ROW, ROW, ROW, ROW, ROW, ROW, ROW, ROW, ROW, ROW, ROW, ROW, //
    NO, NO, ROW, NO, NO, NO, ROW, ROW, ROW, ROW, ROW, NO, NO, NO, NO, ROW, //
    NO, NO, NO, NO, NO, NO, NO, NO, NO, NO, ROW, ROW, ROW, ROW, ROW, NO, //
    ROW, NO, NO, NO, NO, NO, NO, NO, NO, NO, NO, NO, NO, NO, NO, NO, //
    NO, NO, NO, NO, NO, NO, NO, NO, NO, NO, NO, NO, ROW, NO, NO, NO, //
    NO, NO, NO, NO, NO, NO, NO, NO, NO, NO, NO, NO, NO, NO, NO, NO, //
    NO, NO, NO, NO, NO, NO, NO, NO, NO, NO, NO, ROW, NO, ROW, NO, ROW, //
    NO, NO, NO, NO, NO, NO, NO, NO, NO, NO, NO, NO, NO, NO, NO, NO, //
    NO, NO, NO, NO, NO, NO, NO, NO, NO, NO, NO, NO, NO, NO, NO, NO, //
    NO, NO, NO, NO, NO, NO, NO, NO, NO, NO, NO, NO, NO, NO, NO, NO, //
    NO, NO, NO, NO, NO, NO, NO, NO, NO, NO, NO, NO, NO, NO, NO, NO, //
    NO, NO, ROW, NO, NO, NO, NO, NO, NO, NO, NO, NO, NO, NO, NO, NO, //
    NO, NO, NO, NO, NO, NO, NO, NO, NO, NO, NO, NO, NO, NO, NO, NO, //
    NO, NO, ROW, NO, NO, NO, NO, NO, NO, NO, NO, NO, NO, NO, NO, NO, //
    NO, NO, NO, NO, NO, NO, NO, NO, NO, NO, NO, NO, NO, NO, NO, NO, //
];

/// The table of strings.
pub(crate) fn css_table() -> Table<53>
    ensures { result ≡ css_rows }
{
    Table::new(
        rows! {
            '\0' => "\\fffd ",
            '\u{1}' => "\\1 ",
            '\u{2}' => "\\2 ",
            '\u{3}' => "\\3 ",
            '\u{4}' => "\\4 ",
            '\u{5}' => "\\5 ",
            '\u{6}' => "\\6 ",
            '\u{7}' => "\\7 ",
            '\u{8}' => "\\8 ",
            '\t' => "\\9 ",
            '\n' => "\\a ",
            '\u{b}' => "\\b ",
            '\u{c}' => "\\c ",
            '\r' => "\\d ",
            '\u{e}' => "\\e ",
            '\u{f}' => "\\f ",
            '\u{10}' => "\\10 ",
            '\u{11}' => "\\11 ",
            '\u{12}' => "\\12 ",
            '\u{13}' => "\\13 ",
            '\u{14}' => "\\14 ",
            '\u{15}' => "\\15 ",
            '\u{16}' => "\\16 ",
            '\u{17}' => "\\17 ",
            '\u{18}' => "\\18 ",
            '\u{19}' => "\\19 ",
            '\u{1a}' => "\\1a ",
            '\u{1b}' => "\\1b ",
            '\u{1c}' => "\\1c ",
            '\u{1d}' => "\\1d ",
            '\u{1e}' => "\\1e ",
            '\u{1f}' => "\\1f ",
            '"' => "\\22 ",
            '&' => "\\26 ",
            '\'' => "\\27 ",
            '(' => "\\28 ",
            ')' => "\\29 ",
            '*' => "\\2a ",
            '/' => "\\2f ",
            ':' => "\\3a ",
            ';' => "\\3b ",
            '<' => "\\3c ",
            '=' => "\\3d ",
            '>' => "\\3e ",
            '@' => "\\40 ",
            '\\' => "\\5c ",
            '{' => "\\7b ",
            '}' => "\\7d ",
            '\u{7f}' => "\\7f ",
            '\u{85}' => "\\85 ",
            '\u{a0}' => "\\a0 ",
            '\u{2028}' => "\\2028 ",
            '\u{2029}' => "\\2029 ",
        },
        &LEAD_BYTES,
    )
}
