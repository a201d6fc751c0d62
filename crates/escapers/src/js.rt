//! Texts as string literals and values of a script.
ghost use Rattle.std.specs.Prelude.{◌≡◌, OnOk};
ghost use Rattle.std.specs.Str.{chars};
ghost use Rattle.soy_base.specs.Appends.{Appends};
ghost use Rattle.esc_table.specs.EscapedText.{escaped_text};
ghost use Rattle.escapers.specs.JsRows.{js_rows};
ghost use Rattle.escapers.specs.JsValue.{js_literal, js_value, js_word};

use crate::push::push_escaped;
use esc_table::{Table, rows};
use soy_base::{OutOfMemory, ValueClass, push_text};
use std::alloc::Global;

/// Appends the text as a part of a string literal.
pub(crate) fn push_js_string(alloc: Global, out: &mut String, text: &str) -> Result<(), OutOfMemory>
    ensures { OnOk result (Appends out.old out.new (escaped_text js_rows (chars text.now))) }
{
    push_escaped(alloc, out, &js_table(), text)
}

/// Appends the text as a whole value.
pub(crate) fn push_js_value(
    alloc: Global,
    out: &mut String,
    class: ValueClass,
    text: &str,
) -> Result<(), OutOfMemory>
    ensures { OnOk result (Appends out.old out.new (js_value class (chars text.now))) }
{
    match class {
        ValueClass::Text => push_js_literal(alloc, out, text),
        ValueClass::Int
        | ValueClass::Bool
        | ValueClass::Null
        | ValueClass::Html
        | ValueClass::Attributes => push_js_word(out, text),
    }
}

/// Appends a string literal with this text.
fn push_js_literal(alloc: Global, out: &mut String, text: &str) -> Result<(), OutOfMemory>
    ensures { OnOk result (Appends out.old out.new (js_literal (chars text.now))) }
{
    push_text(out, "'")?;
    push_js_string(alloc, out, text)?;
    push_text(out, "'")
}

/// Appends the text between two spaces.
fn push_js_word(out: &mut String, text: &str) -> Result<(), OutOfMemory>
    ensures { OnOk result (Appends out.old out.new (js_word (chars text.now))) }
{
    push_text(out, " ")?;
    push_text(out, text)?;
    push_text(out, " ")
}

const NO: bool = false;

const ROW: bool = true;

/// The lead bytes of the rows, sixteen in a line.
static LEAD_BYTES: [bool; 256] = [
    ROW, NO, NO, NO, NO, NO, NO, NO, ROW, ROW, ROW, ROW, ROW, ROW, NO, NO, //
    NO, NO, NO, NO, NO, NO, NO, NO, NO, NO, NO, NO, NO, NO, NO, NO, //
    NO, NO, ROW, NO, NO, NO, ROW, ROW, NO, NO, NO, NO, NO, NO, NO, ROW, //
    NO, NO, NO, NO, NO, NO, NO, NO, NO, NO, NO, NO, ROW, ROW, ROW, NO, //
    NO, NO, NO, NO, NO, NO, NO, NO, NO, NO, NO, NO, NO, NO, NO, NO, //
    NO, NO, NO, NO, NO, NO, NO, NO, NO, NO, NO, NO, ROW, NO, NO, NO, //
    ROW, NO, NO, NO, NO, NO, NO, NO, NO, NO, NO, NO, NO, NO, NO, NO, //
    NO, NO, NO, NO, NO, NO, NO, NO, NO, NO, NO, NO, NO, NO, NO, NO, //
    NO, NO, NO, NO, NO, NO, NO, NO, NO, NO, NO, NO, NO, NO, NO, NO, //
    NO, NO, NO, NO, NO, NO, NO, NO, NO, NO, NO, NO, NO, NO, NO, NO, //
    NO, NO, NO, NO, NO, NO, NO, NO, NO, NO, NO, NO, NO, NO, NO, NO, //
    NO, NO, NO, NO, NO, NO, NO, NO, NO, NO, NO, NO, NO, NO, NO, NO, //
    NO, NO, ROW, NO, NO, NO, NO, NO, NO, NO, NO, NO, NO, NO, NO, NO, //
    NO, NO, NO, NO, NO, NO, NO, NO, NO, NO, NO, NO, NO, NO, NO, NO, //
    NO, NO, ROW, NO, NO, NO, NO, NO, NO, NO, NO, NO, NO, NO, NO, NO, //
    NO, NO, NO, NO, NO, NO, NO, NO, NO, NO, NO, NO, NO, NO, NO, NO, //
];

/// The table of string literals.
pub(crate) fn js_table() -> Table<19>
    ensures { result ≡ js_rows }
{
    Table::new(
        rows! {
            '\0' => "\\x00",
            '\u{8}' => "\\x08",
            '\t' => "\\t",
            '\n' => "\\n",
            '\u{b}' => "\\x0b",
            '\u{c}' => "\\f",
            '\r' => "\\r",
            '"' => "\\x22",
            '&' => "\\x26",
            '\'' => "\\x27",
            '/' => "\\/",
            '<' => "\\x3c",
            '=' => "\\x3d",
            '>' => "\\x3e",
            '\\' => "\\\\",
            '`' => "\\x60",
            '\u{85}' => "\\x85",
            '\u{2028}' => "\\u2028",
            '\u{2029}' => "\\u2029",
        },
        &LEAD_BYTES,
    )
}
