//! Whole texts by an escaper.
ghost use Rattle.std.specs.Prelude.{◌≡◌, ◌≢◌, Some, IfOk, OnOk, IsSomeAnd, option_map, encode_utf8_all};
ghost use Rattle.std.specs.Str.{chars};
ghost use Rattle.std.specs.String.{string_bytes};
ghost use Rattle.soy_base.specs.Appends.{Appends};
ghost use Rattle.escapers.specs.Esc.{esc};
ghost use Rattle.escapers.specs.EscaperFor.{IsEscaperOf};

use crate::css::{push_css_string, push_css_value};
use crate::escaper::Escaper;
use crate::js::{push_js_string, push_js_value};
use crate::push::push_escaped;
use crate::uri::{push_uri_component, push_uri_normal, push_uri_start};
use esc_table::html;
use soy_base::{Dir, OutOfMemory, ValueClass, push_text};
use std::alloc::Global;

/// The escaped form of a value's text, by an escaper that gives a text of its own.
///
/// The direction of the context changes nothing here: `Wrap` alone goes by it.
pub fn escape(
    alloc: Global,
    how: Escaper,
    class: ValueClass,
    text: &str,
    _context: Dir,
) -> Result<String, OutOfMemory>
    requires not_wrapped { how ≢ Escaper.Wrap }
    requires not_as_is { how ≢ Escaper.AsIs }
    requires of_class { IsEscaperOf how class }
    ensures escaped { IfOk result (λ out. esc how class (chars text.now) ≡ Some (chars (string_bytes out))) }
    ensures bytes { IfOk result (λ out.
        option_map encode_utf8_all (esc how class (chars text.now)) ≡ Some (string_bytes out)) }
{
    let mut out = String::new(alloc);
    push(alloc, &mut out, how, class, text)?;
    Ok(out)
}

/// Appends the escaped form of a value's text.
fn push(
    alloc: Global,
    out: &mut String,
    how: Escaper,
    class: ValueClass,
    text: &str,
) -> Result<(), OutOfMemory>
    requires not_wrapped { how ≢ Escaper.Wrap }
    requires not_as_is { how ≢ Escaper.AsIs }
    ensures { OnOk result (IsSomeAnd (esc how class (chars text.now)) (Appends out.old out.new)) }
{
    match how {
        Escaper::Html => push_escaped(alloc, out, &html(), text),
        Escaper::UriStart => push_uri_start(out, text),
        Escaper::UriNormal => push_uri_normal(out, text),
        Escaper::UriComponent => push_uri_component(out, text),
        Escaper::JsString => push_js_string(alloc, out, text),
        Escaper::JsValue => push_js_value(alloc, out, class, text),
        Escaper::CssString => push_css_string(alloc, out, text),
        Escaper::CssValue => push_css_value(out, text),
        Escaper::Plain => push_text(out, text),
        Escaper::Wrap | Escaper::AsIs => unreachable!(),
    }
}
