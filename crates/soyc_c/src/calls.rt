//! What C calls to keep templates and pages.

ghost use Rattle.std.specs.Prelude.{◌≡◌, None, Some, IfOk, IfErr, IfSome};
ghost use Rattle.soy_page.specs.WereCompiled.{WereCompiled};
ghost use Rattle.soyc_c.specs.SlotCalls.{AreKnown, ClosesSlot, CompilesEmpty, CompilesSlot, FreesSlot, IsGiven};
ghost use Rattle.soyc_c.specs.SlotCalls.{OnPage, OpensEmpty, OpensSlot, OpensWith, PullsHeld, PullsSlot, SaysCount};
ghost use Rattle.soyc_c.specs.SlotReply.{bare, unfilled_reply};
ghost use Rattle.soy_top.specs.MarkupKept.{MarkupIsKept};
ghost use Rattle.soy_top.specs.OrderKept.{OrderIsKept};
ghost use Rattle.soyc_c.specs.declared.held.Held.TheVariants as the_held;

use crate::compiled::compiled_box;
use crate::held::Held;
use crate::opened::{opened_box, pulled};
use crate::parts::FileParts;
use crate::report::{Report, no_report};
use crate::slot::Slot;
use crate::unfilled::{DONE, EMPTY, FULL, Unfilled, refuse};
use soy_page::Shared;
use std::alloc::Global;

/// Compiles files, which are parts of `bytes`, under the first of `bundles` or under none, and fills an empty slot with
/// the templates; or says why there are none.
#[unsafe(no_mangle)]
pub extern "C" fn soyc_compile(
    alloc: Global,
    bytes: &[u8],
    files: &[FileParts],
    bundles: &[FileParts],
    templates: &mut Slot,
    err: &mut [u8],
    fault: &mut Report,
) -> u32
    ensures { CompilesSlot templates.old.value bytes.now files.now bundles.now result templates.new.value
        err.old err.new fault.new }
{
    match templates.exchange(alloc, None) {
        Some(held) => {
            templates.exchange(alloc, Some(held));
            refuse(Unfilled::Status(FULL), err, fault)
        }
        None => compile_empty(alloc, bytes, files, bundles, templates, err, fault),
    }
}

/// The same, where the slot is empty.
fn compile_empty(
    alloc: Global,
    bytes: &[u8],
    files: &[FileParts],
    bundles: &[FileParts],
    templates: &mut Slot,
    err: &mut [u8],
    fault: &mut Report,
) -> u32
    requires { templates.old.value ≡ None }
    ensures { CompilesEmpty bytes.now files.now bundles.now result templates.new.value err.old err.new fault.new }
{
    let made = compiled_box(alloc, bytes, files, bundles);
    fill_slot(alloc, templates, made, err, fault)
}

/// Fills an empty slot with what was made, or says why it wasn't.
fn fill_slot(
    alloc: Global,
    slot: &mut Slot,
    made: Result<Box<Held>, Unfilled>,
    err: &mut [u8],
    fault: &mut Report,
) -> u32
    requires { slot.old.value ≡ None }
    ensures ok { IfOk made (λ b. IsGiven (bare 0) result err.old err.new fault.new × (slot.new.value ≡ Some b.value)) }
    ensures err { IfErr made (λ u. IsGiven (unfilled_reply u) result err.old err.new fault.new
        × (slot.new.value ≡ None)) }
{
    match made {
        Ok(held) => {
            slot.exchange(alloc, Some(held));
            *fault = no_report();
            DONE
        }
        Err(unfilled) => refuse(unfilled, err, fault),
    }
}

/// Fills an empty slot with a page of the templates in another: that of the name of a template with data of JSON; or
/// says why there is none.
#[unsafe(no_mangle)]
pub extern "C" fn soyc_open(
    alloc: Global,
    templates: &mut Slot,
    name: &[u8],
    json: &[u8],
    page: &mut Slot,
    err: &mut [u8],
    fault: &mut Report,
) -> u32
    ensures opens { OpensSlot templates.old.value name.now json.now page.old.value result page.new.value
        err.old err.new fault.new }
    ensures same { templates.new.value ≡ templates.old.value }

    // The page that is asked for, if there is one, keeps its markup and its visual order, whatever its values hold.
    ensures same_markup { OnPage MarkupIsKept templates.old.value name.now json.now }
    ensures same_visual_order { OnPage OrderIsKept templates.old.value name.now json.now }
{
    open_slot(alloc, templates, name, json, page, err, fault)
}

/// Fills it, or says why not.
fn open_slot(
    alloc: Global,
    templates: &mut Slot,
    name: &[u8],
    json: &[u8],
    page: &mut Slot,
    err: &mut [u8],
    fault: &mut Report,
) -> u32
    ensures opens { OpensSlot templates.old.value name.now json.now page.old.value result page.new.value
        err.old err.new fault.new }
    ensures same { templates.new.value ≡ templates.old.value }
    ensures known { IfSome templates.old.value AreKnown }
{
    match templates.exchange(alloc, None) {
        Some(kept) => {
            let status = open_with(alloc, kept.as_ref(), name, json, page, err, fault);
            templates.exchange(alloc, Some(kept));
            status
        }
        None => refuse(Unfilled::Status(EMPTY), err, fault),
    }
}

/// The same with what a slot holds.
fn open_with(
    alloc: Global,
    held: &Held,
    name: &[u8],
    json: &[u8],
    page: &mut Slot,
    err: &mut [u8],
    fault: &mut Report,
) -> u32
    ensures opens { OpensWith held.now name.now json.now page.old.value result page.new.value
        err.old err.new fault.new }
    ensures known { AreKnown held.now }
{
    match held {
        Held::Templates(shared) => {
            // (by this call contracts know that they were compiled)
            shared.templates();
            open_shared(alloc, shared, name, json, page, err, fault)
        }
        Held::Page(_) => refuse(Unfilled::Status(EMPTY), err, fault),
    }
}

/// The same with templates.
fn open_shared(
    alloc: Global,
    shared: &Shared,
    name: &[u8],
    json: &[u8],
    page: &mut Slot,
    err: &mut [u8],
    fault: &mut Report,
) -> u32
    requires { WereCompiled shared.now }
    ensures { OpensWith (the_held.Templates shared.now) name.now json.now page.old.value result page.new.value
        err.old err.new fault.new }
{
    match page.exchange(alloc, None) {
        Some(held) => {
            page.exchange(alloc, Some(held));
            refuse(Unfilled::Status(FULL), err, fault)
        }
        None => open_empty(alloc, shared, name, json, page, err, fault),
    }
}

/// The same, where the page's slot is empty.
fn open_empty(
    alloc: Global,
    shared: &Shared,
    name: &[u8],
    json: &[u8],
    page: &mut Slot,
    err: &mut [u8],
    fault: &mut Report,
) -> u32
    requires known { WereCompiled shared.now }
    requires empty { page.old.value ≡ None }
    ensures { OpensEmpty shared.now name.now json.now result page.new.value err.old err.new fault.new }
{
    let made = opened_box(alloc, shared, name, json);
    fill_slot(alloc, page, made, err, fault)
}

/// Gives the next bytes of an open page to the beginning of a room, and says how many.
#[unsafe(no_mangle)]
pub extern "C" fn soyc_pull(
    alloc: Global,
    page: &mut Slot,
    room: &mut [u8],
    given: &mut usize,
    err: &mut [u8],
    fault: &mut Report,
) -> u32
    ensures { PullsSlot page.old.value room.old room.new given.new result page.new.value err.old err.new fault.new }
{
    match page.exchange(alloc, None) {
        Some(mut held) => {
            let answer = pull_held(alloc, held.as_mut(), room);
            page.exchange(alloc, Some(held));
            say_count(answer, given, err, fault)
        }
        None => say_count(Err(Unfilled::Status(EMPTY)), given, err, fault),
    }
}

/// Pulls what a slot holds, if it is a page.
fn pull_held(alloc: Global, held: &mut Held, room: &mut [u8]) -> Result<usize, Unfilled>
    ensures { PullsHeld held.old room.old room.new result held.new }
{
    match held {
        Held::Page(page) => pulled(alloc, page, room),
        Held::Templates(_) => Err(Unfilled::Status(EMPTY)),
    }
}

/// Says how many bytes a pull gave, or why it gave none.
fn say_count(
    answer: Result<usize, Unfilled>,
    given: &mut usize,
    err: &mut [u8],
    fault: &mut Report,
) -> u32
    ensures { SaysCount answer result given.new err.old err.new fault.new }
{
    match answer {
        Ok(count) => {
            *given = count;
            *fault = no_report();
            DONE
        }
        Err(unfilled) => {
            *given = 0;
            refuse(unfilled, err, fault)
        }
    }
}

/// Closes a page, whether or not it has ended.
#[unsafe(no_mangle)]
pub extern "C" fn soyc_close(alloc: Global, page: &mut Slot) -> u32
    ensures { ClosesSlot page.old.value result page.new.value }
{
    match page.exchange(alloc, None) {
        Some(held) => close_held(alloc, page, held),
        None => EMPTY,
    }
}

/// Lets a page go that a slot held, or puts templates back.
fn close_held(alloc: Global, page: &mut Slot, held: Box<Held>) -> u32
    requires { page.old.value ≡ None }
    ensures { ClosesSlot (Some held.value) result page.new.value }
{
    match held.as_ref() {
        Held::Page(_) => DONE,
        Held::Templates(_) => {
            page.exchange(alloc, Some(held));
            EMPTY
        }
    }
}

/// Frees templates; those that open pages share stay until the last of these is closed.
#[unsafe(no_mangle)]
pub extern "C" fn soyc_free(alloc: Global, templates: &mut Slot) -> u32
    ensures { FreesSlot templates.old.value result templates.new.value }
{
    match templates.exchange(alloc, None) {
        Some(held) => free_held(alloc, templates, held),
        None => EMPTY,
    }
}

/// Lets templates go that a slot held, or puts a page back.
fn free_held(alloc: Global, templates: &mut Slot, held: Box<Held>) -> u32
    requires { templates.old.value ≡ None }
    ensures { FreesSlot (Some held.value) result templates.new.value }
{
    match held.as_ref() {
        Held::Templates(_) => DONE,
        Held::Page(_) => {
            templates.exchange(alloc, Some(held));
            EMPTY
        }
    }
}
