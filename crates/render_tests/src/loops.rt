//! A page of 10^12 bytes, of which the first MiB is pulled.

ghost use Rattle.std.specs.Prelude.{◌≡◌, ◌<◌};

use crate::pages::{Page, page_with};
use crate::pulling::{Pulled, pull_next, room_of};
use render_core::Rendering;
use soy_base::Steps;
use std::alloc::Global;
use std::marker::Brand;
use std::sync::ledger::{Blank, Ledger};

const MIB: usize = 1_048_576;

/// Four loops inside one another, over a list of 1,000 ints.
fn four_loops(alloc: Global) -> Option<Page> {
    let mut json = Vec::new(alloc);
    json.extend_from_slice(b"{\"l\":[0").ok()?;
    for _ in 1..1000 {
        json.extend_from_slice(b",0").ok()?;
    }
    json.extend_from_slice(b"]}").ok()?;
    let body = "{for $a in $l}{for $b in $l}{for $c in $l}{for $d in $l}x{/for}{/for}{/for}{/for}";
    page_with(alloc, "{@param l: list<int>}", body, json.as_slice())
}

/// Some where so many pulls of a byte each give `x`, and the rendering isn't done.
fn letters<L: Ledger>(alloc: Global, page: &Page, pulls: usize, blank: Blank) -> Option<()>
    requires name { blank.name ≡ L.name }
    requires parts { blank.parts ≡ L.parts }
    requires some { 0 < blank.parts }
{
    let mut steps = Steps::<L>::new(blank);
    let mut room = room_of(alloc, 1)?;
    let program = &page.compiled.program;
    let mut rendering = Rendering::begin(alloc, program, &page.input, page.template).ok()?;
    for _ in 0..pulls {
        let pulled = pull_next(page, &mut rendering, room.as_mut_slice(), &mut steps);
        if pulled != Pulled::Gave(1) || room.as_slice() != b"x".as_slice() || rendering.is_done() {
            return None;
        }
    }
    Some(())
}

fn first_letters(alloc: Global) -> Option<()> {
    let page = four_loops(alloc)?;
    letters::<Brand>(alloc, &page, MIB, Blank::new(1))
}

#[test]
fn four_loops_by_pulls(rt: HostRuntime) {
    assert!(rt; first_letters(rt.alloc()).is_some());
}
