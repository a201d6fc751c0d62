//! What each call answers of row `text-print`, with ample memory.

ghost use Rattle.std.specs.Prelude.{◌≡◌, ◌<◌};

use crate::pages::{Page, page_with};
use crate::pulling::{End, Pulled, pull_next, room_of};
use render_core::Rendering;
use soy_base::Steps;
use std::alloc::Global;
use std::marker::Brand;
use std::sync::ledger::{Blank, Ledger};

/// The size of a room, what a pull into it answers, the bytes that are then pending, and whether it is then done.
const PULLS: &[(usize, Pulled, u128, bool)] = &[
    (2, Pulled::Gave(2), 1, false),
    // A room without bytes, in a piece, between two, and at the end.
    (0, Pulled::Ends(End::Whole), 1, false),
    // Bytes of one piece alone.
    (5, Pulled::Gave(1), 0, false),
    (0, Pulled::Ends(End::Whole), 0, false),
    // The value, 32 bytes.
    (17, Pulled::Gave(17), 15, false),
    (2, Pulled::Gave(2), 13, false),
    (100, Pulled::Gave(13), 0, false),
    // Not done with the last bytes.
    (4, Pulled::Gave(4), 0, false),
    (0, Pulled::Ends(End::Whole), 0, false),
    (1, Pulled::Ends(End::Whole), 0, true),
    (0, Pulled::Ends(End::Whole), 0, true),
    (9, Pulled::Ends(End::Whole), 0, true),
];

/// The number of the first pull that isn't answered so, or of all.
fn answered<L: Ledger>(alloc: Global, page: &Page, blank: Blank) -> Option<usize>
    requires name { blank.name ≡ L.name }
    requires parts { blank.parts ≡ L.parts }
    requires some { 0 < blank.parts }
{
    let mut steps = Steps::<L>::new(blank);
    let program = &page.compiled.program;
    let mut rendering = Rendering::begin(alloc, program, &page.input, page.template).ok()?;
    if rendering.pending() != 0 || rendering.is_done() {
        return None;
    }
    for (number, (size, wanted, pending, done)) in PULLS.iter().enumerate() {
        let mut room = room_of(alloc, *size)?;
        if pull_next(page, &mut rendering, room.as_mut_slice(), &mut steps) != *wanted {
            return Some(number);
        }
        if rendering.pending() != *pending || rendering.is_done() != *done {
            return Some(number);
        }
    }
    Some(PULLS.len())
}

fn all_answered(alloc: Global) -> Option<usize> {
    let page = page_with(
        alloc,
        "{@param x: string}",
        "<b>{$x}</b>",
        b"{\"x\":\"<i>\"}",
    )?;
    answered::<Brand>(alloc, &page, Blank::new(1))
}

#[test]
fn pulls_are_answered(rt: HostRuntime) {
    assert_eq!(rt; all_answered(rt.alloc()), Some(PULLS.len()));
}
