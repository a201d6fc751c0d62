//! Holes: their places, and the states after them.

ghost use Rattle.std.specs.Prelude.{◌≡◌, ◌++◌, ◌∷◌, [], IfOk, IsTrue, OnOk};
ghost use Rattle.std.specs.List.{All, list_all};
ghost use Rattle.html_state.specs.StatePlacing.{placing};
ghost use Rattle.html_state.specs.TakesClass.{takes_class};
ghost use Rattle.soy_base.specs.declared.place.Placing.TheVariants.{Takes};
ghost use Rattle.soy_meaning.specs.Walks.PageMachine.{page_machine};
ghost use Rattle.soy_meaning.specs.Paths.Plan.{Hole};
ghost use Rattle.soy_meaning.specs.Walks.Walk.{other_placing, place_of_hole, states_after_value, taken_place, walk};
ghost use Rattle.soy_meaning.specs.Walks.Walk.{walked};
ghost use Rattle.soy_meaning.specs.Walks.Walk.{within_limit};
ghost use Rattle.html_context.specs.TakenClass.{taken_class};
ghost use Rattle.html_context.specs.Walks.{Gives, Walks, view_site};

use crate::fault::{FirstFault, Site, Stop, stop};
use crate::states::add;
use html_state::State;
use soy_base::{Code, OutOfMemory, Place, Placing, Refusal, ValueClass};
use std::alloc::Global;

/// The first placing that isn't this one.
fn other_placing(placing: Placing, states: &[State]) -> Option<Placing>
    ensures { result ≡ other_placing page_machine placing states.now }
{
    for state in states {
        let other = state.placing();
        if other != placing {
            return Some(other);
        }
    }
    None
}

/// Whether a place takes a value of a class.
fn takes(place: Place, class: ValueClass) -> bool
    ensures { result ≡ takes_class (Takes place) class }
{
    match class {
        ValueClass::Html => matches!(place, Place::Text),
        ValueClass::Attributes => matches!(place, Place::Tag),
        _ => !matches!(place, Place::Tag),
    }
}

/// Whether a place takes values of each class.
fn takes_all(place: Place, classes: &[ValueClass]) -> bool
    ensures { result ≡ list_all (takes_class (Takes place)) classes.now }
{
    for class in classes {
        if !takes(place, *class) {
            return false;
        }
    }
    true
}

/// The place that a placing gives to a hole of these classes.
fn taken_place(at: Site, classes: &[ValueClass], placing: Placing) -> Result<Place, Stop>
    ensures { Gives (λ place. place) (taken_place (view_site at) classes.now placing) result }
{
    match placing {
        Placing::Refuses(code) => Err(stop(at, code)),
        Placing::Takes(place) => {
            if takes_all(place, classes) {
                Ok(place)
            } else {
                Err(stop(at, Code::Place))
            }
        }
    }
}

/// The one place of a hole.
fn place_of_hole(at: Site, classes: &[ValueClass], states: &[State]) -> Result<Place, Stop>
    ensures { Gives (λ place. place) (place_of_hole page_machine (view_site at) classes.now states.now) result }
{
    let Some((first, others)) = states.split_first() else {
        return Ok(Place::Plain);
    };
    let placing = first.placing();
    if let Some(other) = other_placing(placing, others) {
        return Err(Refusal::Because(FirstFault {
            code: Code::Mixed,
            at,
            placings: Some((placing, other)),
        }));
    }
    taken_place(at, classes, placing)
}

/// A class that a place takes.
fn taken_class(place: Place) -> ValueClass
    ensures { result ≡ taken_class place }
{
    match place {
        Place::Tag => ValueClass::Attributes,
        _ => ValueClass::Text,
    }
}

/// The states after a value of a class that each of them takes.
fn after_value(
    alloc: Global,
    class: ValueClass,
    states: &[State],
) -> Result<Vec<State>, OutOfMemory>
    requires { All (λ s. IsTrue (takes_class (placing s) class)) states.now }
    ensures { IfOk result (λ v. v.items ≡ states_after_value page_machine states.now) }
{
    let mut after = Vec::new(alloc);
    for state in states {
        let mut now = *state;
        now.value(class);
        add(&mut after, now)?;
    }
    Ok(after)
}

/// Adds a place.
fn keep(places: &mut Vec<Place>, place: Place) -> Result<(), OutOfMemory>
    ensures { OnOk result (places.new.items ≡ places.old.items ++ place ∷ []) }
{
    Ok(places.push(place)?)
}

/// The states after a hole of these classes, and its place.
pub(crate) fn hole(
    alloc: Global,
    at: Site,
    classes: &[ValueClass],
    states: &[State],
    places: &mut Vec<Place>,
) -> Result<Vec<State>, Stop>
    ensures { Walks (walk page_machine (Hole (view_site at) classes.now) (walked states.now places.old.items))
        places.new.items result }
{
    let place = place_of_hole(at, classes, states)?;
    keep(places, place)?;
    Ok(after_value(alloc, taken_class(place), states)?)
}

/// No more than 16 states may meet.
pub(crate) fn within_limit(
    at: Site,
    states: Vec<State>,
    places: &[Place],
) -> Result<Vec<State>, Stop>
    ensures { Walks (within_limit page_machine (view_site at) (walked states.items places.now)) places.now result }
{
    if 16 < states.len() {
        return Err(stop(at, Code::States));
    }
    Ok(states)
}
