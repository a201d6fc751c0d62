//! Pulls of a page up to its end, whose bytes are compared with a text.

ghost use Rattle.std.specs.Prelude.{◌≡◌, ◌<◌, IfSome};
ghost use Rattle.soy_tree.specs.ViewValues.{view_value};
ghost use Rattle.render_core.specs.Rest.{Fits};

use crate::pages::{Page, Row, page_of_row};
use render_core::Rendering;
use soy_base::{Refusal, Steps};
use std::alloc::Global;
use std::marker::Brand;
use std::sync::ledger::{Blank, Ledger};

/// How a page ends: whole, or before the call at an offset of its file that nests too deep.
#[derive(Clone, Copy, Debug, PartialEq, Eq)]
pub(crate) enum End {
    Whole,
    TooDeep(u64),
}

/// What a pull answered.
#[derive(Clone, Copy, Debug, PartialEq, Eq)]
pub(crate) enum Pulled {
    Gave(usize),
    Ends(End),
    Refused,
}

/// How a page ended that is the text, and how many pulls were refused memory.
#[derive(Clone, Copy, Debug, PartialEq, Eq)]
pub(crate) struct Course {
    pub(crate) end: End,
    pub(crate) refused: usize,
}

/// Room for so many bytes.
pub(crate) fn room_of(alloc: Global, size: usize) -> Option<Vec<u8>> {
    let mut room = Vec::new(alloc);
    room.resize(size, 0).ok()?;
    Some(room)
}

/// One pull.
pub(crate) fn pull_next<L: Ledger>(
    page: &Page,
    rendering: &mut Rendering,
    room: &mut [u8],
    steps: &mut Steps<L>,
) -> Pulled
    requires { Fits page.now.compiled.program (view_value page.now.input) rendering.old }
    ensures { Fits page.now.compiled.program (view_value page.now.input) rendering.new }
{
    match rendering.pull(&page.compiled.program, &page.input, room, steps) {
        Ok(0) => Pulled::Ends(End::Whole),
        Ok(n) => Pulled::Gave(n),
        Err(Refusal::Because(call)) => Pulled::Ends(End::TooDeep(call.at)),
        Err(Refusal::OutOfMemory) => Pulled::Refused,
    }
}

/// What is left of a text past so many bytes, if they are the first of a room.
fn text_past<'a>(text: &'a [u8], room: &[u8], n: usize) -> Option<&'a [u8]> {
    if room.get(..n)? == text.get(..n)? {
        text.get(n..)
    } else {
        None
    }
}

/// How a rendering ends that gives this text, in pulls into a room; none where it gives another. A pull that is refused
/// memory is followed by another.
fn course_of<L: Ledger>(
    page: &Page,
    rendering: Rendering,
    room: &mut [u8],
    text: &[u8],
    steps: &mut Steps<L>,
) -> Option<Course>
    requires { Fits page.now.compiled.program (view_value page.now.input) rendering }
{
    let mut rendering = rendering;
    let mut rest = text;
    let mut refused = 0usize;
    for _ in 0..=text.len() {
        match pull_next(page, &mut rendering, room, steps) {
            Pulled::Gave(n) => rest = text_past(rest, room, n)?,
            Pulled::Ends(end) if rest.is_empty() => return Some(Course { end, refused }),
            Pulled::Ends(_) => return None,
            Pulled::Refused => refused = refused.saturating_add(1),
        }
    }
    None
}

/// A rendering of a page; one that is refused memory is begun anew.
fn begun(alloc: Global, page: &Page) -> Option<Rendering>
    ensures { IfSome result (λ r. Fits page.now.compiled.program (view_value page.now.input) r) }
{
    match Rendering::begin(alloc, &page.compiled.program, &page.input, page.template) {
        Ok(rendering) => Some(rendering),
        Err(_) => {
            Rendering::begin(alloc, &page.compiled.program, &page.input, page.template).ok()
        }
    }
}

/// How a page ends that is this text, in pulls of so many bytes.
fn course_from<L: Ledger>(
    alloc: Global,
    page: &Page,
    room: &mut [u8],
    text: &[u8],
    blank: Blank,
) -> Option<Course>
    requires name { blank.name ≡ L.name }
    requires parts { blank.parts ≡ L.parts }
    requires some { 0 < blank.parts }
{
    let mut steps = Steps::<L>::new(blank);
    course_of(page, begun(alloc, page)?, room, text, &mut steps)
}

/// How a page ends that is this text, in pulls into a room; none where it is another.
pub(crate) fn course_in(
    alloc: Global,
    page: &Page,
    room: &mut [u8],
    text: &[u8],
) -> Option<Course> {
    course_from::<Brand>(alloc, page, room, text, Blank::new(1))
}

/// How the page of a row ends that is the row's text, in pulls of so many bytes.
pub(crate) fn course_of_row(alloc: Global, row: &Row, size: usize) -> Option<Course> {
    let page = page_of_row(alloc, row)?;
    let mut room = room_of(alloc, size)?;
    course_in(alloc, &page, room.as_mut_slice(), row.text.as_bytes())
}

/// Whether the page of a row is its text, with this end and without a refusal, in pulls of 1, 3 and 4,096 bytes.
pub(crate) fn ends_so(alloc: Global, row: &Row, end: End) -> bool {
    let wanted = Course { end, refused: 0 };
    for size in [1, 3, 4096] {
        if course_of_row(alloc, row, size) != Some(wanted) {
            return false;
        }
    }
    true
}
