//! Slots, each of a rendering that is open.

ghost use Rattle.std.specs.Prelude.{◌≡◌, ◌<◌, ◌∷◌, ◌++◌, ℕ, [], IfErr, IfOk, MatchOption, None, OnErr, OnOk};
ghost use Rattle.std.specs.Prelude.{slice_index_or, slice_set, vec_len};
ghost use Rattle.std.specs.List.{All};
ghost use Rattle.soy_desk.specs.Ascends.{Ascends};
ghost use Rattle.soy_desk.specs.DeskState.{entry_named, first_entry};
ghost use Rattle.soy_desk.specs.ViewSlots.{PullsSlot, SlotFits, StandsAt, view_slot, view_slots};
ghost use Rattle.soy_desk.specs.declared.slot.Slot as code_slot;

use render_core::Rendering;
use soy_base::{Refusal, Steps, TooDeep};
use soy_tree::Value;
use std::alloc::Global;
use std::rc::Rc;
use std::sync::ledger::Ledger;
use template_ir::Program;

/// A rendering that is open, with its name and the program and the input of its opening.
#[derive(Drop)]
pub(crate) struct Slot {
    pub(crate) name: u64,
    pub(crate) program: Rc<Program>,
    pub(crate) input: Value,
    pub(crate) rendering: Rendering,
}

impl Slot {
    /// A slot of a rendering that begins; the input is handed back where memory runs out.
    #[tactic(auto, using(crate::proofs::Slots::begun_slot))]
    fn begin(
        alloc: Global,
        name: u64,
        program: Rc<Program>,
        input: Value,
        template: usize,
    ) -> Result<Slot, Value>
        ensures slot { IfOk result (λ s. view_slot s ≡ first_entry name program.value input template) }
        ensures fits { IfOk result (λ s. SlotFits s) }
        ensures refused { IfErr result (λ i. i ≡ input) }
    {
        match Rendering::begin(alloc, program.as_ref(), &input, template) {
            Ok(rendering) => Ok(Slot {
                name,
                program,
                input,
                rendering,
            }),
            Err(_) => Err(input),
        }
    }

    /// Its input.
    fn into_input(self) -> Value
        ensures { result ≡ self.input }
    {
        self.input
    }

    /// A pull of its rendering.
    pub(crate) fn pull<L: Ledger>(
        &mut self,
        room: &mut [u8],
        steps: &mut Steps<L>,
    ) -> Result<usize, Refusal<TooDeep>>
        requires { SlotFits self.old }
        ensures fits { SlotFits self.new }
        ensures pulls { PullsSlot self.old (record {
          room = room.old;
          room_after = room.new;
          steps = steps.old;
          steps_after = steps.new;
          answer = result;
        }) self.new }
    {
        let program = self.program.as_ref();
        self.rendering.pull(program, &self.input, room, steps)
    }
}

/// Adds the slot of a rendering that begins; the input is handed back where memory runs out.
pub(crate) fn begin_last(
    slots: &mut Vec<Slot>,
    alloc: Global,
    name: u64,
    program: &Rc<Program>,
    input: Value,
    template: usize,
) -> Result<(), Value>
    requires { All SlotFits slots.old.items }
    ensures entries { OnOk result (view_slots slots.new.items
        ≡ view_slots slots.old.items ++ first_entry name program.now.value input template ∷ []) }
    ensures fits { All SlotFits slots.new.items }
    ensures unchanged { OnErr result (slots.new.items ≡ slots.old.items) }
    ensures input_back { IfErr result (λ i. i ≡ input) }
{
    let Ok(program) = program.clone() else {
        return Err(input);
    };
    match Slot::begin(alloc, name, program, input, template) {
        Ok(slot) => put_last(slots, slot),
        Err(input) => Err(input),
    }
}

/// Adds a slot, or hands its input back.
#[tactic(auto, using(crate::proofs::Slots::view_push))]
fn put_last(slots: &mut Vec<Slot>, slot: Slot) -> Result<(), Value>
    requires all { All SlotFits slots.old.items }
    requires slot { SlotFits slot }
    ensures entries { OnOk result (view_slots slots.new.items ≡ view_slots slots.old.items ++ view_slot slot ∷ []) }
    ensures fits { All SlotFits slots.new.items }
    ensures unchanged { OnErr result (slots.new.items ≡ slots.old.items) }
    ensures input_back { IfErr result (λ i. i ≡ slot.input) }
{
    match slots.push(slot) {
        Ok(()) => Ok(()),
        Err(failed) => Err(failed.value.into_input()),
    }
}

/// The index of the slot of a name, where the names ascend; the guess is tried first.
pub(crate) fn index_of(slots: &[Slot], name: u64, guess: usize) -> Option<usize>
    requires { (high : ℕ) × Ascends 0 (view_slots slots.now) high }
    ensures { MatchOption result (entry_named name (view_slots slots.now) ≡ None) (StandsAt slots.now name) }
{
    if guess < slots.len() {
        let slot = &slots[guess];
        if slot.name == name {
            return Some(guess);
        }
    }
    slots.binary_search_by_key(&name, |slot| slot.name).ok()
}

/// A pull of the rendering in a slot.
pub(crate) fn pull_at<L: Ledger>(
    slots: &mut Vec<Slot>,
    at: usize,
    room: &mut [u8],
    steps: &mut Steps<L>,
) -> Result<usize, Refusal<TooDeep>>
    requires within { at < vec_len slots.old }
    requires fits { All SlotFits slots.old.items }
    ensures fits { All SlotFits slots.new.items }
    ensures pulls { (old new : code_slot.Slot) × (old ≡ slice_index_or slots.old.items at old)
        × (slots.new.items ≡ slice_set slots.old.items at new)
        × PullsSlot old (record {
          room = room.old;
          room_after = room.new;
          steps = steps.old;
          steps_after = steps.new;
          answer = result;
        }) new }
{
    let slot = &mut slots[at];
    slot.pull(room, steps)
}

/// Lets go of a slot, with its input and its share of the program.
pub(crate) fn give_up(_slot: Slot) {}
