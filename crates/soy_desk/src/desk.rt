//! Desks.

ghost use Rattle.std.specs.Prelude.{◌≡◌, ◌<◌, IfErr, IfOk, Ok, Err, option_map};
ghost use Rattle.soy_desk.specs.DeskRun.{Close, Open, Publish, Pull, StepsTo};
ghost use Rattle.soy_desk.specs.DeskAnswers.{desk_answer};
ghost use Rattle.soy_desk.specs.DeskState.{desk_with, entry_named};

use crate::fault::{DeskFault, Full, Unknown, Unopened};
use crate::slot::{Slot, begin_last, give_up, index_of, pull_at};
use soy_base::{OutOfMemory, Refusal, Steps, TooDeep};
use soy_tree::Value;
use std::alloc::Global;
use std::marker::Model;
use std::rc::Rc;
use std::sync::ledger::Ledger;
use template_ir::Program;

/// How many renderings may be open at once.
const ROOM: usize = 64;

/// Renderings that are open side by side, and the program of those that are opened next. Contracts see it as a state of
/// the machine of desks.
#[derive(Drop)]
pub struct Desk {
    alloc: Global,
    slots: Vec<Slot>,
    /// The index of the slot that was pulled last, where the next search begins: a page is often pulled more than once.
    last: usize,
    opened: u64,
    published: Rc<Program>,
}

impl Model for Desk {
    ghost use Rattle.std.specs.Prelude.{◌≤◌, length};
    ghost use Rattle.std.specs.Coded.{codes};
    ghost use Rattle.std.specs.List.{All};
    ghost use Rattle.soy_tree.specs.contracts.expr.Expr as expr;
    ghost use Rattle.soy_tree.specs.contracts.soy_type.SoyType as soy_type;
    ghost use Rattle.soy_tree.specs.contracts.value.Value as value;
    ghost use Rattle.soy_desk.specs.Codes.{coded_outcome};
    ghost use Rattle.soy_desk.specs.DeskState.{DeskState};

    ghost Value = { DeskState };

    ghost coded = { Prim.hlevel (
      codes,
      soy_type.the_row.coded,
      expr.the_row.coded,
      value.the_row.coded,
      coded_outcome,
    ) };

    ghost use Rattle.soy_desk.specs.Ascends.{Ascends};
    ghost use Rattle.soy_desk.specs.ViewSlots.{SlotFits, view_slots};

    ghost view = { λ d. record {
      entries = view_slots d.slots.items;
      opened = d.opened;
      published = d.published.value;
    } };

    ghost invariant = { λ d. All SlotFits d.slots.items × (length d.slots.items ≤ 64)
        × Ascends 0 (view_slots d.slots.items) d.opened };
}

impl Desk {
    /// A desk with room for 64 renderings, on which none is open.
    pub fn new(alloc: Global, program: Rc<Program>) -> Result<Desk, OutOfMemory>
        ensures { IfOk result (λ d. d ≡ desk_with program.value) }
    {
        let slots = Vec::with_capacity(alloc, ROOM)?;
        Ok(Desk {
            alloc,
            slots,
            last: 0,
            opened: 0,
            published: program,
        })
    }

    /// The program of the renderings that are opened next. Takes no memory.
    pub fn published(&self) -> &Program
        ensures { result.now ≡ self.now.published }
    {
        self.published.as_ref()
    }

    /// How many openings there were. Takes no memory.
    pub fn opened(&self) -> u64
        ensures { result ≡ self.now.opened }
    {
        self.opened
    }

    /// Publishes a program; those renderings that are open keep theirs. Takes no memory.
    pub fn publish(&mut self, program: Rc<Program>)
        ensures { StepsTo self.old (Publish program.value) self.new }
    {
        self.published = program;
    }

    /// Opens a rendering of a template of the published program, by its number, and answers its name: the number of
    /// openings before it. Where it is refused, the input is handed back.
    pub fn open(&mut self, input: Value, template: usize) -> Result<u64, Unopened>
        requires { self.old.opened < u64.MAX }
        ensures opened { IfOk result (λ name. StepsTo self.old (Open input template (Ok name)) self.new) }
        ensures refused { IfErr result (λ e. StepsTo self.old (Open input template (Err e.cause)) self.new) }
        ensures input_back { IfErr result (λ e. e.input ≡ input) }
    {
        if self.slots.len() >= ROOM {
            return Err(Unopened {
                cause: Refusal::Because(Full),
                input,
            });
        }
        let name = self.opened;
        match begin_last(
            &mut self.slots,
            self.alloc,
            name,
            &self.published,
            input,
            template,
        ) {
            Ok(()) => {
                self.opened += 1;
                Ok(name)
            }
            Err(input) => Err(Unopened {
                cause: Refusal::OutOfMemory,
                input,
            }),
        }
    }

    /// Gives the next bytes of the rendering of a name to the beginning of the room, as its own pull does.
    pub fn pull<L: Ledger>(
        &mut self,
        name: u64,
        room: &mut [u8],
        steps: &mut Steps<L>,
    ) -> Result<usize, Refusal<DeskFault>>
        ensures { StepsTo self.old (Pull name (record {
          room = room.old;
          room_after = room.new;
          steps = steps.old;
          steps_after = steps.new;
          answer = result;
        })) self.new }
    {
        let Some(at) = index_of(self.slots.as_slice(), name, self.last) else {
            return Err(Refusal::Because(DeskFault::Unknown));
        };
        self.last = at;
        on_desk(pull_at(&mut self.slots, at, room, steps))
    }

    /// Whether the rendering of a name is done, where one is open. Takes no memory.
    pub fn is_done(&self, name: u64) -> Option<bool>
        ensures { result ≡ option_map (λ e. e.done) (entry_named name self.now.entries) }
    {
        let at = index_of(self.slots.as_slice(), name, self.last)?;
        Some(self.slots[at].rendering.is_done())
    }

    /// Closes the rendering of a name, which makes room for another. Takes no memory.
    pub fn close(&mut self, name: u64) -> Result<(), Unknown>
        ensures { StepsTo self.old (Close name result) self.new }
    {
        match index_of(self.slots.as_slice(), name, self.last) {
            Some(at) => {
                give_up(self.slots.remove(at));
                Ok(())
            }
            None => Err(Unknown),
        }
    }
}

/// What a desk answers for a rendering's answer.
fn on_desk(answer: Result<usize, Refusal<TooDeep>>) -> Result<usize, Refusal<DeskFault>>
    ensures { result ≡ desk_answer answer }
{
    match answer {
        Ok(n) => Ok(n),
        Err(Refusal::Because(call)) => Err(Refusal::Because(DeskFault::TooDeep(call))),
        Err(Refusal::OutOfMemory) => Err(Refusal::OutOfMemory),
    }
}
