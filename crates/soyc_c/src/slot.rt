//! Slots of a caller's, each for one thing that is kept between two calls.

ghost use Rattle.std.specs.Prelude.{◌≡◌, None, Some, Option, option_map};
ghost use Rattle.std.specs.Coded.{coded_option};
ghost use Rattle.std.specs.contracts.impls.GlobalAllocator.TheImpl.{ghosts};
ghost use Rattle.soyc_c.specs.SlotOwns.{held_at};
ghost use Rattle.soyc_c.specs.declared.held.Held as the_held;
ghost use Rattle.soyc_c.specs.contracts.held.Held.{the_row};

use crate::held::Held;
use crate::loose::Loose;
use std::alloc::Global;
use std::marker::Model;
use std::mem;
use std::ptr::null_mut;

/// A slot for one thing: its address, or null where the slot is empty, as where all its bytes are 0. (`Global` takes
/// no bytes.)
#[repr(C)]
pub struct Slot {
    at: *mut u8,
    alloc: Global,
    pub ghost value: { Option the_held.Held } by { coded_option the_row.coded },
}

impl Model for Slot {
    ghost also_owns = { λ p. held_at (ghosts.dealloc_token p.alloc) the_row p.at p.value };
}

impl Slot {
    /// An empty one.
    fn empty(alloc: Global) -> Slot
        ensures { result.value ≡ None }
    {
        Slot {
            at: null_mut(),
            alloc,
        }
    }

    /// One that holds what was in a box.
    fn holding(held: Loose<Held, Global>) -> Slot
        ensures { result.value ≡ Some held.value }
    {
        let Loose { at, alloc } = held;
        Slot {
            at: at as *mut u8,
            alloc,
        }
    }

    /// What it holds, if it isn't empty.
    fn into_loose(self) -> Option<Loose<Held, Global>>
        ensures { option_map (λ l. l.value) result ≡ self.value }
    {
        let Slot { at, alloc } = self;
        if at == null_mut() {
            None
        } else {
            Some(Loose {
                at: at as *mut Held,
                alloc,
            })
        }
    }

    /// One that holds what a box holds, or nothing.
    fn of(alloc: Global, held: Option<Box<Held>>) -> Slot
        ensures { result.value ≡ option_map (λ b. b.value) held }
    {
        match held {
            Some(held) => Slot::holding(Loose::of(held)),
            None => Slot::empty(alloc),
        }
    }

    /// The box of what it holds, if it isn't empty.
    fn into_box(self) -> Option<Box<Held>>
        ensures { option_map (λ b. b.value) result ≡ self.value }
    {
        match self.into_loose() {
            Some(loose) => Some(loose.into_box()),
            None => None,
        }
    }

    /// Puts something or nothing into it, and gives what it held.
    pub(crate) fn exchange(&mut self, alloc: Global, held: Option<Box<Held>>) -> Option<Box<Held>>
        ensures before { option_map (λ b. b.value) result ≡ self.old.value }
        ensures after { self.new.value ≡ option_map (λ b. b.value) held }
    {
        mem::replace(self, Slot::of(alloc, held)).into_box()
    }
}
