//! Static texts.

ghost use Rattle.std.specs.Prelude.{◌≡◌, ◌∷◌, []};
ghost use Rattle.std.specs.Str.{chars};
ghost use Rattle.html_state.specs.Next.{next, text_end};
ghost use Rattle.soy_meaning.specs.Walks.PageMachine.{page_machine};
ghost use Rattle.soy_meaning.specs.Paths.PlanOfParts.{text_plan};
ghost use Rattle.soy_meaning.specs.Walks.Walk.{met_at, moved_states, states_after_text, walk, walked};
ghost use Rattle.html_context.specs.Walks.{Gives, Walks, items_of, view_site};

use crate::fault::{Site, Stop, stop};
use crate::states::{add, copied};
use html_state::State;
use soy_base::{Place, Text};
use std::alloc::Global;

/// The state after the characters of a static text and its end.
fn alone(at: Site, text: &str, state: State) -> Result<State, Stop>
    ensures { Gives (λ s. s ∷ [])
        (met_at (view_site at) (states_after_text page_machine (chars text.now) (state ∷ []))) result }
{
    let mut now = state;
    for c in text.chars() {
        if let Err(code) = now.step(c) {
            return Err(stop(at, code));
        }
    }
    match now.end_text() {
        Ok(()) => Ok(now),
        Err(code) => Err(stop(at, code)),
    }
}

/// The states after a character.
fn stepped(alloc: Global, at: Site, c: char, states: &[State]) -> Result<Vec<State>, Stop>
    ensures { Gives items_of (met_at (view_site at) (moved_states page_machine (λ s. next s c) [] states.now)) result }
{
    let mut after = Vec::new(alloc);
    for state in states {
        let mut now = *state;
        match now.step(c) {
            Ok(()) => add(&mut after, now)?,
            Err(code) => return Err(stop(at, code)),
        }
    }
    Ok(after)
}

/// The states after the end of a text.
fn ended(alloc: Global, at: Site, states: &[State]) -> Result<Vec<State>, Stop>
    ensures { Gives items_of (met_at (view_site at) (moved_states page_machine text_end [] states.now)) result }
{
    let mut after = Vec::new(alloc);
    for state in states {
        match state.end_text() {
            Ok(()) => add(&mut after, *state)?,
            Err(code) => return Err(stop(at, code)),
        }
    }
    Ok(after)
}

/// The states after the characters of a static text and its end.
fn together(alloc: Global, at: Site, text: &str, states: Vec<State>) -> Result<Vec<State>, Stop>
    ensures { Gives items_of
        (met_at (view_site at) (states_after_text page_machine (chars text.now) states.items)) result }
{
    let mut now = states;
    for c in text.chars() {
        now = stepped(alloc, at, c, &now)?;
    }
    ended(alloc, at, &now)
}

/// The states after the characters of a static text and its end. One state, as most texts have, is read alone.
fn after_text(alloc: Global, at: Site, text: &str, states: Vec<State>) -> Result<Vec<State>, Stop>
    ensures { Gives items_of
        (met_at (view_site at) (states_after_text page_machine (chars text.now) states.items)) result }
{
    if let [state] = states.as_slice() {
        let after = alone(at, text, *state)?;
        return Ok(copied(alloc, &[after])?);
    }
    together(alloc, at, text, states)
}

/// The states after a text, which gives nothing where it is empty. The places stay.
#[tactic(auto, using(crate::proofs::TextSteps::empty_walk, crate::proofs::TextSteps::some_walk))]
pub(crate) fn text(
    alloc: Global,
    at: Site,
    text: &Text,
    states: Vec<State>,
    places: &[Place],
) -> Result<Vec<State>, Stop>
    ensures { Walks (walk page_machine (text_plan (view_site at) text.now) (walked states.items places.now))
        places.now result }
{
    let _ = places;
    if text.is_empty() {
        return Ok(states);
    }
    after_text(alloc, at, text.text(), states)
}
