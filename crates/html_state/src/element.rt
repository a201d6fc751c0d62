//! The text of an element that isn't data, and what may end it.

ghost use Rattle.std.specs.Prelude.{◌≡◌, ◌==◌, ◌&&◌, Ok, Err, OnOk, OnErr, IfErr, ◌≤◌, length, take, get_or, nat_lt};
ghost use Rattle.std.specs.Prelude.{if◌then◌else◌};
ghost use Rattle.std.specs.Char.{to_ascii_lowercase};
ghost use Rattle.html_state.specs.AfterAll.{after_all};
ghost use Rattle.html_state.specs.ElementNamed.{element_name};
ghost use Rattle.html_state.specs.ElementNext.{element_next, end_tag, is_script, may_end_element};
ghost use Rattle.html_state.specs.RowNext.{begun_end, end_tag_next, given_up, goes_on_begun, in_tag, within_next};
ghost use Rattle.html_state.specs.TagRowNext.{past_name};
ghost use Rattle.soy_base.specs.declared.code.Code.TheVariants as code;
ghost use Rattle.html_state.specs.declared.row.Tag.TheVariants as tag;
ghost use Rattle.html_state.specs.declared.row.TagKind.TheVariants as kind;

use crate::name::Name;
use crate::row::{Begun, Element, HtmlRow, Tag, TagKind};
use crate::tag::past_tag_name;
use crate::text::ends_name;
use script_state::{CssState, JsState};
use soy_base::Code;

/// One more character of the element's text.
pub(crate) fn step_element(element: &mut Element, c: char) -> Result<(), Code>
    ensures ok { OnOk result (element_next element.old c ≡ Ok element.new) }
    ensures err { IfErr result (λ code. element_next element.old c ≡ Err code) }
    ensures unchanged { OnErr result (element.new ≡ element.old) }
{
    match element {
        Element::Script(state) => match state.step(c) {
            Ok(()) => Ok(()),
            Err(_) => Err(Code::Script),
        },
        Element::Style(state) => match state.step(c) {
            Ok(()) => Ok(()),
            Err(_) => Err(Code::Script),
        },
        _ => Ok(()),
    }
}

/// Whether the element's text may end here.
fn may_end_element(element: &Element) -> bool
    ensures { result ≡ may_end_element element.now }
{
    match element {
        Element::Script(state) => matches!(*state, JsState::Code | JsState::Line),
        Element::Style(state) => matches!(*state, CssState::Code | CssState::Ready),
        _ => true,
    }
}

fn is_script(element: &Element) -> bool
    ensures { result ≡ is_script element.now }
{
    matches!(element, Element::Script(_))
}

/// `</` and the element's name.
fn end_tag(element: &Element) -> &'static [u8]
    ensures is { result.now ≡ end_tag element.now }
    ensures short { length result.now ≤ 10 }
{
    match element {
        Element::Title => b"</title",
        Element::Textarea => b"</textarea",
        Element::Style(_) => b"</style",
        Element::Xmp => b"</xmp",
        Element::Iframe => b"</iframe",
        Element::Noembed => b"</noembed",
        Element::Noframes => b"</noframes",
        Element::Noscript => b"</noscript",
        Element::Script(_) => b"</script",
    }
}

/// So many characters of `</` and the element's name.
fn end_tag_prefix(element: &Element, count: u8) -> &'static [u8]
    ensures { result.now ≡ take count (end_tag element.now) }
{
    let whole = end_tag(element);
    let count = count as usize;
    if count < whole.len() {
        &whole[..count]
    } else {
        whole
    }
}

/// Whether a character goes on with the end tag.
fn goes_on(element: &Element, count: u8, c: char) -> bool
    ensures { result ≡ (nat_lt count (length (end_tag element.now))
        && to_ascii_lowercase c == get_or (end_tag element.now) count 0) }
{
    let whole = end_tag(element);
    let count = count as usize;
    count < whole.len() && c.to_ascii_lowercase() as u32 == whole[count] as u32
}

fn is_whole(element: &Element, count: u8) -> bool
    ensures { result ≡ (count == length (end_tag element.now)) }
{
    count as usize == end_tag(element).len()
}

/// The element after several characters of its text.
fn element_after(element: &Element, characters: &[u8]) -> Result<Element, Code>
    ensures { result ≡ after_all element_next element.now characters.now }
{
    let mut now = *element;
    for c in characters {
        step_element(&mut now, *c as char)?;
    }
    Ok(now)
}

/// The row after one more character of the element's text, or of what may end it.
pub(crate) fn within_next(element: &Element, c: char) -> Result<HtmlRow, Code>
    ensures { result ≡ within_next element.now c }
{
    if c == '<' {
        return Ok(HtmlRow::BegunEndTag(*element, Begun::EndTag(1)));
    }
    let mut now = *element;
    step_element(&mut now, c)?;
    Ok(HtmlRow::Within(now))
}

/// The row after characters that began no end tag, and the one that shows it.
fn given_up(element: &Element, characters: &[u8], c: char) -> Result<HtmlRow, Code>
    ensures { result ≡ given_up element.now characters.now c }
{
    let now = element_after(element, characters)?;
    within_next(&now, c)
}

/// The row past the name of the element's end tag.
fn ended(element: &Element, c: char) -> HtmlRow
    ensures { result ≡ in_tag (tag.Named kind.End (element_name element.now)) (past_name c) }
{
    past_tag_name(Tag::Named(TagKind::End, Name::of_text(element.name())), c)
}

/// The row past the name of the element's end tag, or the fault that its text may not end.
fn end_element(element: &Element, c: char) -> Result<HtmlRow, Code>
    ensures { result ≡ (if may_end_element element.now
        then Ok (in_tag (tag.Named kind.End (element_name element.now)) (past_name c)) else Err code.Script) }
{
    if may_end_element(element) {
        Ok(ended(element, c))
    } else {
        Err(Code::Script)
    }
}

/// The row after a character that doesn't go on with what was begun.
pub(crate) fn begun_end(element: &Element, begun: Begun, c: char) -> Result<HtmlRow, Code>
    requires { goes_on_begun element.now begun c ≡ None }
    ensures { result ≡ end_tag_next element.now begun c }
{
    match begun {
        Begun::EndTag(count) => {
            if is_whole(element, count) && ends_name(c) {
                end_element(element, c)
            } else {
                given_up(element, end_tag_prefix(element, count), c)
            }
        }
        Begun::Bang => given_up(element, b"<!", c),
        Begun::BangDash if c == '-' => Err(Code::Script),
        Begun::BangDash => given_up(element, b"<!-", c),
    }
}

/// What is begun after a character that goes on with it.
pub(crate) fn goes_on_begun(element: &Element, begun: Begun, c: char) -> Option<Begun>
    ensures { result ≡ goes_on_begun element.now begun c }
{
    match begun {
        Begun::EndTag(count) => {
            if goes_on(element, count, c) {
                Some(Begun::EndTag(count + 1))
            } else if is_script(element) && (count == 1 && c == '!') {
                Some(Begun::Bang)
            } else {
                None
            }
        }
        Begun::Bang => {
            if c == '-' {
                Some(Begun::BangDash)
            } else {
                None
            }
        }
        Begun::BangDash => None,
    }
}
