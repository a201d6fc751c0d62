//! The names of HTML that decide how a page is read.

ghost use Rattle.std.specs.Prelude.{◌≡◌, ◌≤◌, length, codes};
ghost use Rattle.soy_base.specs.Among.{is_among};
ghost use Rattle.html_state.specs.AttributeNamed.{attribute_named, no_print_names, uri_names};
ghost use Rattle.html_state.specs.ElementNamed.{element_name, element_named};
ghost use Rattle.html_state.specs.RowNext.{is_refused};
ghost use Rattle.html_state.specs.Texts.{is_prefix};

use crate::name::Name;
use crate::row::{Attribute, Element, TagKind, UriName};
use crate::text::{is_among, is_text};
use script_state::{CssState, JsState};

const URI_NAMES: [&[u8]; 9] = [
    b"action",
    b"formaction",
    b"cite",
    b"poster",
    b"background",
    b"longdesc",
    b"manifest",
    b"codebase",
    b"xlink:href",
];

const NO_PRINT_NAMES: [&[u8]; 5] = [b"dir", b"srcset", b"srcdoc", b"imagesrcset", b"ping"];

const REFUSED_NAMES: [&[u8]; 3] = [b"svg", b"math", b"plaintext"];

/// The element that a start tag of this name begins, if its text isn't data.
pub(crate) fn element_named(name: &Name) -> Option<Element>
    ensures { result ≡ element_named name.now }
{
    let name = name.characters();
    if is_text(name, b"title") {
        Some(Element::Title)
    } else if is_text(name, b"textarea") {
        Some(Element::Textarea)
    } else if is_text(name, b"style") {
        Some(Element::Style(CssState::Code))
    } else if is_text(name, b"xmp") {
        Some(Element::Xmp)
    } else if is_text(name, b"iframe") {
        Some(Element::Iframe)
    } else if is_text(name, b"noembed") {
        Some(Element::Noembed)
    } else if is_text(name, b"noframes") {
        Some(Element::Noframes)
    } else if is_text(name, b"noscript") {
        Some(Element::Noscript)
    } else if is_text(name, b"script") {
        Some(Element::Script(JsState::Code))
    } else {
        None
    }
}

impl Element {
    /// The element's name, in lower case.
    pub fn name(&self) -> &'static [u8]
        ensures is { result.now ≡ element_name self.now }
        ensures short { length result.now ≤ 8 }
    {
        match self {
            Element::Title => b"title",
            Element::Textarea => b"textarea",
            Element::Style(_) => b"style",
            Element::Xmp => b"xmp",
            Element::Iframe => b"iframe",
            Element::Noembed => b"noembed",
            Element::Noframes => b"noframes",
            Element::Noscript => b"noscript",
            Element::Script(_) => b"script",
        }
    }
}

/// Whether a tag of this name is refused.
pub(crate) fn is_refused(kind: TagKind, name: &Name) -> bool
    ensures { result ≡ is_refused kind name.now }
{
    match kind {
        TagKind::Start => is_among(name.characters(), &REFUSED_NAMES),
        TagKind::End => false,
    }
}

fn is_uri_name(name: &[char]) -> bool
    ensures { result ≡ is_among uri_names name.now }
{
    is_among(name, &URI_NAMES)
}

fn is_no_print_name(name: &[char]) -> bool
    ensures { result ≡ is_among no_print_names name.now }
{
    is_among(name, &NO_PRINT_NAMES)
}

fn is_event_name(name: &[char]) -> bool
    ensures { result ≡ is_prefix (codes "on") name.now }
{
    matches!(name, ['o', 'n', ..])
}

/// The kind of an attribute of this name.
pub(crate) fn attribute_named(name: &Name) -> Attribute
    ensures { result ≡ attribute_named name.now }
{
    let name = name.characters();
    if is_text(name, b"src") {
        Attribute::Uri(UriName::Src)
    } else if is_text(name, b"data") {
        Attribute::Uri(UriName::Data)
    } else if is_text(name, b"href") {
        Attribute::Uri(UriName::Href)
    } else if is_uri_name(name) {
        Attribute::Uri(UriName::Other)
    } else if is_event_name(name) {
        Attribute::Event
    } else if is_no_print_name(name) {
        Attribute::NoPrint
    } else if is_text(name, b"style") {
        Attribute::Style
    } else {
        Attribute::Plain
    }
}
