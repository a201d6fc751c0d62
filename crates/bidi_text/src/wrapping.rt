//! The wrapped text.
ghost use Rattle.std.specs.Prelude.{◌≡◌, IfOk, OnOk, encode_utf8_all};
ghost use Rattle.std.specs.Str.{chars};
ghost use Rattle.std.specs.String.{string_bytes};
ghost use Rattle.soy_base.specs.Appends.{Appends};
ghost use Rattle.esc_table.specs.EscapedText.{escaped_text};
ghost use Rattle.esc_table.specs.HtmlRows.{html_rows};
ghost use Rattle.bidi_text.specs.Wrap.{direction_word, wrapped_text};

use crate::cleaning::clean;
use crate::words::estimate;
use esc_table::{escape_into, html};
use soy_base::{Dir, OutOfMemory, push_text};
use std::alloc::Global;

/// The HTML form of a value in text: a `span` with the value's estimated direction around the cleaned text, which is
/// escaped by the rows of HTML.
///
/// The attribute `dir` is there also where the value has the direction of its context (WHATWG HTML, the `dir`
/// attribute).
pub fn wrap(alloc: Global, text: &str, context: Dir) -> Result<String, OutOfMemory>
    ensures characters { IfOk result (λ wrapped. chars (string_bytes wrapped) ≡ wrapped_text (chars text.now) context) }
    ensures bytes { IfOk result (λ wrapped.
        string_bytes wrapped ≡ encode_utf8_all (wrapped_text (chars text.now) context)) }
{
    let cleaned = clean(alloc, text)?;
    let mut wrapped = String::new(alloc);
    push_text(&mut wrapped, "<span dir=\"")?;
    push_text(&mut wrapped, direction_word(estimate(text, context)))?;
    push_text(&mut wrapped, "\">")?;
    push_escaped(alloc, &mut wrapped, cleaned.as_str())?;
    push_text(&mut wrapped, "</span>")?;
    Ok(wrapped)
}

/// The word for a direction in the attribute `dir`.
fn direction_word(direction: Dir) -> &'static str
    ensures { chars result.now ≡ direction_word direction }
{
    match direction {
        Dir::Ltr => "ltr",
        Dir::Rtl => "rtl",
    }
}

/// Appends a text, escaped by the rows of HTML.
fn push_escaped(alloc: Global, out: &mut String, text: &str) -> Result<(), OutOfMemory>
    ensures { OnOk result (Appends out.old out.new (escaped_text html_rows (chars text.now))) }
{
    match escape_into(alloc, &html(), text, out) {
        Ok(()) => Ok(()),
        Err(_) => Err(OutOfMemory),
    }
}
