//! A page as it is seen: it is gathered whole, and its lines are written in visual order.

ghost use Rattle.std.specs.Prelude.{◌+◌, ◌≤◌, take, ◌≡◌, ◌<◌, ◌++◌, IfOk, OnOk, encode_utf8_all, length};
ghost use Rattle.std.specs.String.{string_bytes};
ghost use Rattle.soy_front.specs.ViewSources.{view_contents};
ghost use Rattle.soy_top.specs.Accepts.{Accepts};
ghost use Rattle.soy_top.specs.Answer.{page_answer, run_text, seen_page};
ghost use Rattle.soy_top.specs.SeenText.{line_text, lines_text, seen_text};
ghost use Rattle.soy_top.specs.ShownPage.{IsGathered, IsPageText};
ghost use Rattle.soy_top.specs.Runs.ViewOutput.{page_run};
ghost use Rattle.soy_top.specs.Words.{command_words};

use crate::ending::Ending;
use crate::line::too_long_line;
use crate::output::Output;
use crate::page::{DeepCall, Page, pull_room};
use bidi_preview::preview;
use render_core::Rendering;
use soy_base::{Dir, OutOfMemory, Refusal, Steps, Text, TooDeep};
use std::alloc::Global;
use std::marker::Brand;
use std::str;
use std::sync::ledger::{Blank, Ledger};

/// The most bytes of a page that is shown.
const SHOWN_LIMIT: usize = 1_048_576;

/// What was gathered of a page: that it is too long to be shown, all its bytes, or the call that it stops at.
#[derive(Drop)]
pub(crate) enum Gathered {
    TooLong,
    Whole(Vec<u8>),
    AtCall(TooDeep),
}

/// What is shown of a page in a context of a direction: its lines, nothing where it stops at a call, or that it is too
/// long.
pub(crate) fn show<'a>(alloc: Global, page: Page<'a>, context: Dir) -> Result<Output<'a>, Ending>
    requires { IsPageText (run_text (page_run page)) }
    ensures { Accepts (page_answer (seen_page (command_words page.entry.names.now)
        (view_contents page.entry.sources.now) context) (page_run page.entry)) result }
{
    match gather(alloc, &page)? {
        Gathered::TooLong => Err(Ending::Refused(too_long_line(alloc)?)),
        Gathered::Whole(bytes) => Ok(Output::Text(seen_text(alloc, bytes.as_slice(), context)?)),
        Gathered::AtCall(call) => Ok(Output::AtCall(DeepCall {
            call,
            names: page.names,
            sources: page.sources,
        })),
    }
}

/// Gathers a page, unless it is too long.
fn gather(alloc: Global, page: &Page<'_>) -> Result<Gathered, OutOfMemory>
    ensures { IfOk result (λ gathered. IsGathered (page_run page.now) gathered) }
{
    let mut room = pull_room(alloc)?;
    gather_pulls::<Brand>(alloc, page, room.as_mut_slice(), Blank::new(1))
}

/// Gathers what pulls into a room give, up to the end of a page, or until it is too long.
fn gather_pulls<L: Ledger>(
    alloc: Global,
    page: &Page<'_>,
    room: &mut [u8],
    blank: Blank,
) -> Result<Gathered, OutOfMemory>
    requires name { blank.name ≡ L.name }
    requires parts { blank.parts ≡ L.parts }
    requires some { 0 < blank.parts }
    requires room { 0 < length room.old }
    ensures { IfOk result (λ gathered. IsGathered (page_run page.now) gathered) }
{
    let mut steps = Steps::<L>::new(blank);
    let Ok(mut rendering) = Rendering::begin(alloc, &page.program, &page.input, page.template)
    else {
        return Err(OutOfMemory);
    };
    let mut bytes = Vec::new(alloc);
    loop {
        match rendering.pull(&page.program, &page.input, room, &mut steps) {
            Ok(0) => return Ok(Gathered::Whole(bytes)),
            Ok(n) => {
                if SHOWN_LIMIT - bytes.len() < n {
                    return Ok(Gathered::TooLong);
                }
                push_given(&mut bytes, room, n)?;
            }
            Err(Refusal::Because(call)) => return Ok(Gathered::AtCall(call)),
            Err(Refusal::OutOfMemory) => return Err(OutOfMemory),
        }
    }
}

/// Adds what a pull gave at the beginning of a room, if the page isn't too long with it.
fn push_given(bytes: &mut Vec<u8>, room: &[u8], count: usize) -> Result<(), OutOfMemory>
    requires within { count ≤ length room.now }
    requires few { length bytes.old.items + count ≤ 1048576 }
    ensures bytes { OnOk result (bytes.new.items ≡ bytes.old.items ++ take count room.now) }
    ensures few { OnOk result (length bytes.new.items ≤ 1048576) }
{
    bytes.extend_from_slice(&room[..count])?;
    Ok(())
}

/// The lines of a page as they are seen, by its bytes. All pages are UTF-8; what isn't, which can't come, is answered
/// as out of memory.
fn seen_text(alloc: Global, page: &[u8], context: Dir) -> Result<String, OutOfMemory>
    requires { IsPageText page.now }
    ensures { IfOk result (λ text. string_bytes text ≡ seen_text context page.now) }
{
    let Ok(page) = str::from_utf8(page) else {
        return Err(OutOfMemory);
    };
    let lines = preview(alloc, page, context)?;
    lines_text(alloc, lines.items())
}

/// Lines as one text.
fn lines_text(alloc: Global, lines: &[Text]) -> Result<String, OutOfMemory>
    ensures { IfOk result (λ text. string_bytes text ≡ lines_text lines.now) }
{
    let mut text = String::new(alloc);
    for line in lines {
        push_line(&mut text, line)?;
    }
    Ok(text)
}

/// Adds a line with its line feed.
fn push_line(text: &mut String, line: &Text) -> Result<(), OutOfMemory>
    ensures { OnOk result (string_bytes text.new ≡ string_bytes text.old ++ line_text line.now) }
{
    text.push_str(line.text())?;
    text.push('\n')?;
    Ok(())
}
