//! What goes with a fault, as text.

ghost use Rattle.std.specs.Prelude.{◌≡◌, ◌++◌, OnOk};
ghost use Rattle.std.specs.String.{string_bytes};
ghost use Rattle.soyc_c.specs.DetailText.{detail_text, place_word, placing_word, two_lines};

use soy_base::{OutOfMemory, Place, Placing, push_text};
use soy_front::Detail;

/// Adds the names, the types or the words of the places.
pub(crate) fn push_detail(text: &mut String, detail: &Detail) -> Result<(), OutOfMemory>
    ensures { OnOk result (string_bytes text.new ≡ string_bytes text.old ++ detail_text detail.now) }
{
    match detail {
        Detail::None => Ok(()),
        Detail::Names(left, right) => push_lines(text, left.text(), right.text()),
        Detail::Placings(first, second) => {
            push_lines(text, placing_word(*first), placing_word(*second))
        }
    }
}

/// Adds one line or two.
fn push_lines(text: &mut String, first: &str, second: &str) -> Result<(), OutOfMemory>
    ensures { OnOk result (string_bytes text.new ≡ string_bytes text.old ++ two_lines first.now second.now) }
{
    push_text(text, first)?;
    if second.is_empty() {
        return Ok(());
    }
    push_text(text, "\n")?;
    push_text(text, second)
}

/// The word of a place, or of the refusal of a value that may not stand there.
fn placing_word(placing: Placing) -> &'static str
    ensures { result.now ≡ placing_word placing }
{
    match placing {
        Placing::Takes(place) => place_word(place),
        Placing::Refuses(code) => code.word(),
    }
}

/// The word of a place.
fn place_word(place: Place) -> &'static str
    ensures { result.now ≡ place_word place }
{
    match place {
        Place::Text => "Text",
        Place::Rcdata => "Rcdata",
        Place::Tag => "Tag",
        Place::Attr => "Attr",
        Place::UriStart => "UriStart",
        Place::UriPath => "UriPath",
        Place::UriQuery => "UriQuery",
        Place::UriFragment => "UriFragment",
        Place::JsValue => "JsValue",
        Place::JsSingle => "JsSingle",
        Place::JsDouble => "JsDouble",
        Place::CssValue => "CssValue",
        Place::CssString => "CssString",
        Place::Plain => "Plain",
    }
}
