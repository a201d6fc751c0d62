//! Opens and pulls pages.

ghost use Rattle.std.specs.Prelude.{◌≡◌, ℕ, List, Option, IfOk};
ghost use Rattle.soy_front.specs.Compiled.{AreCompiled};
ghost use Rattle.soy_page.specs.Opens.{OpensPage};
ghost use Rattle.soy_page.specs.declared.templates.Templates.{Templates};
ghost use Rattle.soy_top.specs.Answer.{entry_of};
ghost use Rattle.soyc_c.specs.Giving.{PullsInto};
ghost use Rattle.soyc_c.specs.Opening.{OpensOf, asked_page, entry_page, entry_reply, named_page, named_reply};
ghost use Rattle.soyc_c.specs.Opening.{open_reply};
ghost use Rattle.soyc_c.specs.SlotCalls.{HoldsPage};
ghost use Rattle.soyc_c.specs.SlotReply.{Answers};
ghost use Rattle.soyc_c.specs.TemplateFiles.{file_contents};
ghost use Rattle.soyc_c.specs.declared.held.Held.TheVariants as the_held;

use crate::compiled::DATA_LIMIT;
use crate::held::Held;
use crate::said::{data_fault, data_too_large, deep_call, no_entry};
use crate::unfilled::{MALFORMED, Unfilled};
use soy_base::{OutOfMemory, Refusal};
use soy_page::{Page, PageFault, Shared};
use std::alloc::Global;
use std::str;

/// The page of the template of a name under data, or why there is none.
fn opened(alloc: Global, shared: &Shared, name: &[u8], json: &[u8]) -> Result<Page, Unfilled>
    ensures { OpensOf shared.now (λ of. open_reply of name.now json.now)
        (λ of. asked_page shared.now of name.now json.now) result }
{
    match str::from_utf8(name) {
        Ok(name) => opened_text(alloc, shared, name, json),
        Err(_) => Err(Unfilled::Status(MALFORMED)),
    }
}

/// The same, where the name is UTF-8.
fn opened_text(alloc: Global, shared: &Shared, name: &str, json: &[u8]) -> Result<Page, Unfilled>
    ensures { OpensOf shared.now (λ of. named_reply of name.now json.now)
        (λ of. named_page shared.now of name.now json.now) result }
{
    if json.len() > DATA_LIMIT {
        Err(data_too_large(alloc))
    } else {
        opened_named(alloc, shared, name, json)
    }
}

/// The same, where the data are within their limit.
fn opened_named(alloc: Global, shared: &Shared, name: &str, json: &[u8]) -> Result<Page, Unfilled>
    ensures { OpensOf shared.now (λ of. entry_reply name.now json.now (entry_of of name.now))
        (λ of. entry_page shared.now of name.now json.now) result }
{
    match shared.share() {
        Ok(templates) => answered(alloc, name, Page::open(alloc, templates, name, json)),
        Err(_) => Err(Unfilled::Memory),
    }
}

/// A page, or why there is none of the name, with its line.
fn answered(
    alloc: Global,
    name: &str,
    page: Result<Page, Refusal<PageFault>>,
) -> Result<Page, Unfilled>
    ensures { (t : Templates) (json : List ℕ) → OpensPage t name.now json page →
        OpensOf t (λ of. entry_reply name.now json (entry_of of name.now))
        (λ of. entry_page t of name.now json) result }
{
    match page {
        Ok(page) => Ok(page),
        Err(Refusal::Because(PageFault::Entry)) => Err(no_entry(alloc, name)),
        Err(Refusal::Because(PageFault::Data(fault))) => Err(data_fault(alloc, fault)),
        Err(Refusal::OutOfMemory) => Err(Unfilled::Memory),
    }
}

/// A page in a box, or why there is none.
pub(crate) fn opened_box(
    alloc: Global,
    shared: &Shared,
    name: &[u8],
    json: &[u8],
) -> Result<Box<Held>, Unfilled>
    ensures ok { (content : Option (List ℕ)) (are : AreCompiled (file_contents shared.now) content shared.now.compiled)
        → IfOk result (λ b. HoldsPage shared.now (asked_page shared.now are.of name.now json.now) b.value) }
    ensures answers { (content : Option (List ℕ))
        (are : AreCompiled (file_contents shared.now) content shared.now.compiled)
        → Answers (open_reply are.of name.now json.now) result }
{
    match opened(alloc, shared, name, json) {
        Ok(page) => match held_page(alloc, page) {
            Ok(held) => Ok(held),
            Err(_) => Err(Unfilled::Memory),
        },
        Err(unfilled) => Err(unfilled),
    }
}

/// A page in a box.
fn held_page(alloc: Global, page: Page) -> Result<Box<Held>, OutOfMemory>
    ensures { IfOk result (λ b. b.value ≡ the_held.Page page) }
{
    Ok(Box::new(alloc, Held::Page(page))?)
}

/// Pulls a page.
pub(crate) fn pulled(alloc: Global, page: &mut Page, room: &mut [u8]) -> Result<usize, Unfilled>
    ensures { PullsInto page.old room.old room.new result page.new }
{
    match page.pull(room) {
        Ok(count) => Ok(count),
        Err(Refusal::Because(call)) => Err(deep_call(alloc, page.templates(), call)),
        Err(Refusal::OutOfMemory) => Err(Unfilled::Memory),
    }
}
