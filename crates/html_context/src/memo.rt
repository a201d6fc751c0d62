//! What the bodies of loops did from lists of states.

ghost use Rattle.std.specs.Prelude.{◌≡◌, ◌++◌, [], Ok, IfOk, IfSome, IsTrue, OnOk};
ghost use Rattle.soy_meaning.specs.Walks.PageMachine.{page_machine};
ghost use Rattle.soy_meaning.specs.Walks.Walk.{walk, walked};
ghost use Rattle.html_context.specs.Kept.{AllKept, IsKept};
ghost use Rattle.html_context.specs.RowPlans.{plan_at};

use crate::table::Row;
use html_state::State;
use soy_base::{OutOfMemory, Place};
use std::alloc::Global;
use std::collections::HashMap;

/// What a body did once: the number of its row, the states before, those after, and the places of its holes.
#[derive(Drop)]
pub(crate) struct Kept {
    pub body: usize,
    pub before: Vec<State>,
    pub after: Vec<State>,
    pub places: Vec<Place>,
}

/// What bodies did. It is found by numbers: those of the states among the ones that the same body met before, which are
/// few, where the lists of them are many.
#[derive(Drop)]
pub(crate) struct Memo {
    met: HashMap<usize, Vec<State>>,
    numbers: HashMap<Vec<usize>, usize>,
    pub kept: Vec<Kept>,
}

/// Nothing was done by the bodies of these rows.
pub(crate) fn new_memo(alloc: Global, rows: &[Row]) -> Memo
    ensures { AllKept rows.now result }
{
    let _ = rows;
    Memo {
        met: HashMap::new(alloc),
        numbers: HashMap::new(alloc),
        kept: Vec::new(alloc),
    }
}

/// The number of a state among those that were met, to which it is added where it is new.
fn number_of(met: &mut Vec<State>, state: &State) -> Result<usize, OutOfMemory> {
    let count = met.len();
    for (number, other) in met.iter().enumerate() {
        if other == state {
            return Ok(number);
        }
    }
    met.push(*state)?;
    Ok(count)
}

/// A body, and the numbers of states among those that it met.
fn numbers_of(
    alloc: Global,
    body: usize,
    met: &mut Vec<State>,
    states: &[State],
) -> Result<Vec<usize>, OutOfMemory> {
    let mut numbers = Vec::new(alloc);
    numbers.push(body)?;
    for state in states {
        numbers.push(number_of(met, state)?)?;
    }
    Ok(numbers)
}

/// By which numbers it is found what a body did from these states.
pub(crate) fn key_of(
    alloc: Global,
    memo: &mut Memo,
    body: usize,
    before: &[State],
) -> Result<Vec<usize>, OutOfMemory>
    ensures { OnOk result (memo.new.kept ≡ memo.old.kept) }
{
    let met = memo.met.entry(body)?.or_insert(Vec::new(alloc));
    numbers_of(alloc, body, met, before)
}

/// Whether two lists have the same states.
#[tactic(auto, using(crate::proofs::SameLists::same_lists))]
fn are_same(one: &[State], other: &[State]) -> bool
    ensures { IsTrue result → one.now ≡ other.now }
{
    one == other
}

/// What a body did from these states, if that is kept under their key.
pub(crate) fn kept_from<'k>(
    rows: &[Row],
    memo: &'k Memo,
    key: &[usize],
    body: usize,
    before: &[State],
) -> Option<&'k Kept>
    requires { AllKept rows.now memo.now }
    ensures { IfSome result (λ k. walk page_machine (plan_at rows.now body) (walked before.now [])
        ≡ Ok (walked k.now.after.items k.now.places.items)) }
{
    let _ = rows;
    let number = memo.numbers.get(key)?;
    let kept = memo.kept.get(*number)?;
    if kept.body == body && are_same(&kept.before, before) {
        return Some(kept);
    }
    None
}

/// How many lists of states are kept before the walk gives up, as if memory ran out: they take some 150 MB, and what
/// was done from them some 3 seconds. Only the search for the first fault of nested loops comes to so many.
const MOST_KEPT: usize = 50_000;

/// Keeps what a body did, under the key of the states before.
pub(crate) fn keep(
    rows: &[Row],
    memo: &mut Memo,
    key: Vec<usize>,
    kept: Kept,
) -> Result<(), OutOfMemory>
    requires all { AllKept rows.now memo.old }
    requires one { IsKept rows.now kept }
    ensures { OnOk result (AllKept rows.now memo.new) }
{
    let _ = rows;
    let number = memo.kept.len();
    if MOST_KEPT <= number {
        return Err(OutOfMemory);
    }
    memo.kept.push(kept)?;
    memo.numbers.insert(key, number)?;
    Ok(())
}

/// Adds places at the end.
pub(crate) fn add_places(places: &mut Vec<Place>, more: &[Place]) -> Result<(), OutOfMemory>
    ensures { OnOk result (places.new.items ≡ places.old.items ++ more.now) }
{
    places.extend_from_slice(more)?;
    Ok(())
}
