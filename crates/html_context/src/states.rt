//! Lists of states without repeats, in the order in which the states came.

ghost use Rattle.std.specs.Prelude.{◌≡◌, IfOk, IsTrue, OnOk};
ghost use Rattle.soy_meaning.specs.Walks.PageMachine.{page_machine};
ghost use Rattle.soy_meaning.specs.Walks.States.{has_state, joined_states, with_state};
ghost use Rattle.soy_meaning.specs.Walks.Walk.{all_may_end};
ghost use Rattle.html_context.specs.Covers.{Within};

use html_state::State;
use soy_base::{Kind, OutOfMemory};
use std::alloc::Global;

/// Whether a state is in the list.
fn has_state(states: &[State], state: &State) -> bool
    ensures { result ≡ has_state page_machine state.now states.now }
{
    for other in states {
        if state == other {
            return true;
        }
    }
    false
}

/// Adds a state, unless it is there.
pub(crate) fn add(states: &mut Vec<State>, state: State) -> Result<(), OutOfMemory>
    ensures { OnOk result (states.new.items ≡ with_state page_machine states.old.items state) }
{
    if !has_state(states, &state) {
        states.push(state)?;
    }
    Ok(())
}

/// Adds the states that aren't there, in their order.
pub(crate) fn join(states: &mut Vec<State>, more: &[State]) -> Result<(), OutOfMemory>
    ensures { OnOk result (states.new.items ≡ joined_states page_machine states.old.items more.now) }
{
    for state in more {
        add(states, *state)?;
    }
    Ok(())
}

/// The same states.
pub(crate) fn copied(alloc: Global, states: &[State]) -> Result<Vec<State>, OutOfMemory>
    ensures { IfOk result (λ v. v.items ≡ states.now) }
{
    Ok(Vec::from_slice(alloc, states)?)
}

/// Whether each of some states is in the list.
#[tactic(auto, using(crate::proofs::Covering::within_none, crate::proofs::Covering::within_step))]
pub(crate) fn has_all(states: &[State], some: &[State]) -> bool
    ensures { IsTrue result → Within some.now states.now }
{
    for state in some {
        if !has_state(states, state) {
            return false;
        }
    }
    true
}

/// Whether a text of a kind may end in each of the states.
pub(crate) fn all_may_end(kind: Kind, states: &[State]) -> bool
    ensures { result ≡ all_may_end page_machine kind states.now }
{
    for state in states {
        if !state.may_end(kind) {
            return false;
        }
    }
    true
}
