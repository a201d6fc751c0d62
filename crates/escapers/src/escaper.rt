//! The escapers, and the table of places and classes.
ghost use Rattle.std.specs.Prelude.{◌≡◌};
ghost use Rattle.escapers.specs.EscaperFor.{escaper_of, text_escaper, html_escaper, attributes_escaper};

use soy_base::{Place, ValueClass};

/// What is made of a printed value, so that it stays one value at its place.
#[derive(Clone, Copy, Debug, PartialEq, Eq)]
pub enum Escaper {
    /// Text between tags, escaped as HTML within marks of its direction.
    Wrap,
    /// Text that HTML reads, as a title's or a quoted attribute's value.
    Html,
    /// The start of a URI, whose scheme is tested.
    UriStart,
    /// A part of a URI that may have parts itself, as a path.
    UriNormal,
    /// One part of a URI's query or fragment.
    UriComponent,
    /// A part of a string literal of a script.
    JsString,
    /// A whole value of a script.
    JsValue,
    /// A part of a string of a style.
    CssString,
    /// A whole value of a style, which is tested.
    CssValue,
    /// The text itself, where nothing reads it as markup.
    Plain,
    /// Markup, which was escaped when it was made.
    AsIs,
}

/// The escaper of a place for a class of value, and `None` where the place takes no such value.
pub fn escaper_for(place: Place, class: ValueClass) -> Option<Escaper>
    ensures { result ≡ escaper_of place class }
{
    match class {
        ValueClass::Text | ValueClass::Int | ValueClass::Bool | ValueClass::Null => {
            for_text(place)
        }
        ValueClass::Html => for_html(place),
        ValueClass::Attributes => for_attributes(place),
    }
}

/// The row of a place for a value that isn't markup.
fn for_text(place: Place) -> Option<Escaper>
    ensures { result ≡ text_escaper place }
{
    match place {
        Place::Text => Some(Escaper::Wrap),
        Place::Rcdata | Place::Attr => Some(Escaper::Html),
        Place::Tag => None,
        Place::UriStart => Some(Escaper::UriStart),
        Place::UriPath => Some(Escaper::UriNormal),
        Place::UriQuery | Place::UriFragment => Some(Escaper::UriComponent),
        Place::JsValue => Some(Escaper::JsValue),
        Place::JsSingle | Place::JsDouble => Some(Escaper::JsString),
        Place::CssValue => Some(Escaper::CssValue),
        Place::CssString => Some(Escaper::CssString),
        Place::Plain => Some(Escaper::Plain),
    }
}

/// The row of a place for a block of HTML.
fn for_html(place: Place) -> Option<Escaper>
    ensures { result ≡ html_escaper place }
{
    match place {
        Place::Text => Some(Escaper::AsIs),
        _ => None,
    }
}

/// The row of a place for a block of attributes.
fn for_attributes(place: Place) -> Option<Escaper>
    ensures { result ≡ attributes_escaper place }
{
    match place {
        Place::Tag => Some(Escaper::AsIs),
        _ => None,
    }
}
