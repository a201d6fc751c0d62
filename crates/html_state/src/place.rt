//! What happens to a value, and what it leaves behind.

ghost use Rattle.std.specs.Prelude.{◌≡◌};
ghost use Rattle.script_state.specs.CssAfterValue.{css_after_value};
ghost use Rattle.html_state.specs.AfterValue.{part_after_value, row_after_value, value_after_value};
ghost use Rattle.html_state.specs.StatePlacing.{element_placing, quoted_placing, refuses_start, row_placing, tag_name};
ghost use Rattle.html_state.specs.StatePlacing.{tag_row_placing, uri_placing};

use crate::row::{AttributeValue, Element, HtmlRow, Tag, TagRow, UriName, UriPart};
use crate::text::is_among;
use soy_base::{Code, Place, Placing};

const NO_START_OF_SRC: [&[u8]; 3] = [b"script", b"iframe", b"embed"];

const NO_START_OF_DATA: [&[u8]; 1] = [b"object"];

const NO_START_OF_HREF: [&[u8]; 2] = [b"link", b"base"];

/// Whether a tag of this name refuses a value at the start of a URI.
fn refuses_start(attribute: UriName, name: &[char]) -> bool
    ensures { result ≡ refuses_start attribute name.now }
{
    match attribute {
        UriName::Src => is_among(name, &NO_START_OF_SRC),
        UriName::Data => is_among(name, &NO_START_OF_DATA),
        UriName::Href => is_among(name, &NO_START_OF_HREF),
        UriName::Other => false,
    }
}

fn uri_placing(attribute: UriName, name: &[char], part: &UriPart) -> Placing
    ensures { result ≡ uri_placing attribute name.now part.now }
{
    match part {
        UriPart::Start => {
            if refuses_start(attribute, name) {
                Placing::Refuses(Code::UriStart)
            } else {
                Placing::Takes(Place::UriStart)
            }
        }
        UriPart::Path => Placing::Takes(Place::UriPath),
        UriPart::Query => Placing::Takes(Place::UriQuery),
        UriPart::Fragment => Placing::Takes(Place::UriFragment),
        _ => Placing::Refuses(Code::UriStart),
    }
}

fn quoted_placing(name: &[char], value: &AttributeValue) -> Placing
    ensures { result ≡ quoted_placing name.now value.now }
{
    match value {
        AttributeValue::Uri(attribute, part) => uri_placing(*attribute, name, part),
        AttributeValue::Style(state) => state.placing(),
        AttributeValue::Plain => Placing::Takes(Place::Attr),
        _ => Placing::Refuses(Code::Place),
    }
}

/// The name of a tag, empty where it has none.
fn tag_name(tag: &Tag) -> &[char]
    ensures { result.now ≡ tag_name tag.now }
{
    match tag {
        Tag::Named(_, name) => name.characters(),
        Tag::Block => &[],
    }
}

fn tag_row_placing(tag: &Tag, row: &TagRow) -> Placing
    ensures { result ≡ tag_row_placing tag.now row.now }
{
    match row {
        TagRow::BeforeName => Placing::Takes(Place::Tag),
        TagRow::Quoted(_, value) => quoted_placing(tag_name(tag), value),
        TagRow::AfterPrinted | TagRow::AttributeName(_) => Placing::Refuses(Code::InName),
        _ => Placing::Refuses(Code::Place),
    }
}

fn element_placing(element: &Element) -> Placing
    ensures { result ≡ element_placing element.now }
{
    match element {
        Element::Title | Element::Textarea => Placing::Takes(Place::Rcdata),
        Element::Style(state) => state.placing(),
        Element::Script(state) => state.placing(),
        _ => Placing::Refuses(Code::Place),
    }
}

/// What happens to a value in this row.
pub(crate) fn row_placing(row: &HtmlRow) -> Placing
    ensures { result ≡ row_placing row.now }
{
    match row {
        HtmlRow::Data => Placing::Takes(Place::Text),
        HtmlRow::TagOpen | HtmlRow::EndTagOpen | HtmlRow::TagName(_, _) => Placing::Refuses(
            Code::InName,
        ),
        HtmlRow::InTag(tag, inner) => tag_row_placing(tag, inner),
        HtmlRow::Within(element) => element_placing(element),
        HtmlRow::Plain => Placing::Takes(Place::Plain),
        _ => Placing::Refuses(Code::Place),
    }
}

/// A value stands in an attribute's value.
fn mark_value(value: &mut AttributeValue)
    ensures { value.new ≡ value_after_value value.old }
{
    match value {
        AttributeValue::Uri(_, part) => {
            if let UriPart::Start = part {
                *part = UriPart::AfterStart;
            }
        }
        AttributeValue::Style(state) => state.value(),
        _ => {}
    }
}

/// A value stands in this row.
pub(crate) fn mark_row(row: &mut HtmlRow)
    ensures { row.new ≡ row_after_value row.old }
{
    match row {
        HtmlRow::InTag(_, TagRow::Quoted(_, value)) => mark_value(value),
        HtmlRow::InTag(_, inner) => {
            if let TagRow::BeforeName = inner {
                *inner = TagRow::AfterPrinted;
            }
        }
        HtmlRow::Within(Element::Style(state)) => state.value(),
        _ => {}
    }
}
