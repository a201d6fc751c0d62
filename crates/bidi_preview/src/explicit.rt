//! Explicit levels (UAX #9, 3.3.2, X1 to X9).
ghost use Rattle.std.specs.Prelude.{◌≡◌, ◌+◌, ◌<◌, ◌∷◌, ◌≤◌, List, IfOk, OnOk, drop, length, map, slice_index_or};
ghost use Rattle.std.specs.Prelude.{false};
ghost use Rattle.std.specs.List.{list_any};
ghost use Rattle.bidi_class.specs.declared.class.Class.{Class};
ghost use Rattle.bidi_class.specs.Class.{bidi_class};
ghost use Rattle.bidi_order.specs.Explicit.{explicit_characters};
ghost use Rattle.bidi_preview.specs.ExplicitSteps.{DirectedFrom, directed_by, directed_classes, is_first_strong};
ghost use Rattle.bidi_preview.specs.ExplicitSteps.{sides_before};

use crate::kept::Kept;
use crate::status::Status;
use bidi_class::{Class, class_of};
use soy_base::{OutOfMemory, Stack};
use std::alloc::Global;

/// The classes of a line.
pub(crate) fn read_classes(alloc: Global, line: &[char]) -> Result<Vec<Class>, OutOfMemory>
    ensures { IfOk result (λ classes. classes.items ≡ map bidi_class line.now) }
{
    let mut classes = Vec::with_capacity(alloc, line.len())?;
    for c in line {
        classes.push(class_of(*c))?;
    }
    Ok(classes)
}

/// The classes of a line, with RLI or LRI for each FSI (X5c). Where there is no FSI, nothing is looked for.
#[tactic(auto, using(crate::proofs::Directions::nothing_directed))]
pub(crate) fn directed(alloc: Global, mut classes: Vec<Class>) -> Result<Vec<Class>, OutOfMemory>
    ensures { IfOk result (λ directed. directed.items ≡ directed_classes classes.items) }
{
    if !has_first_strong(&classes) {
        return Ok(classes);
    }
    direct_isolates(alloc, &mut classes)?;
    Ok(classes)
}

/// Whether one of the classes is FSI.
fn has_first_strong(classes: &[Class]) -> bool
    ensures { result ≡ list_any is_first_strong classes.now }
{
    classes.iter().any(|class| is_first_strong(*class))
}

fn is_first_strong(class: Class) -> bool
    ensures { result ≡ is_first_strong class }
{
    matches!(class, Class::FSI)
}

/// X5c: the FSIs of a line, which is read from its end on. For each number of isolates that may be open the direction
/// of the first strong character behind their ends is known.
#[tactic(auto, using(crate::proofs::Directions::directed_start, crate::proofs::Directions::directed_end))]
fn direct_isolates(alloc: Global, classes: &mut [Class]) -> Result<(), OutOfMemory>
    ensures { OnOk result (classes.new ≡ directed_classes classes.old) }
{
    let mut sides = Stack::empty(alloc);
    let mut index = classes.len();
    while index > 0 {
        index -= 1;
        direct_at(index, classes, &mut sides)?;
    }
    Ok(())
}

/// X5c: the character at an index, where those behind it were read.
#[tactic(auto, using(crate::proofs::Directions::directed_more))]
fn direct_at(
    index: usize,
    classes: &mut [Class],
    sides: &mut Stack<bool>,
) -> Result<(), OutOfMemory>
    requires { index < length classes.old }
    ensures { OnOk result ((initial : List Class) → DirectedFrom initial (index + 1) sides.old classes.old
        → DirectedFrom initial index sides.new classes.new) }
{
    let class = classes[index];
    classes[index] = directed_class(class, is_right_to_left(sides));
    read_side(sides, class)
}

/// The direction that counts where no isolate is open.
fn is_right_to_left(sides: &Stack<bool>) -> bool
    ensures { result ≡ slice_index_or sides.now 0 false }
{
    match sides.top() {
        Some(side) => *side,
        None => false,
    }
}

/// X5c: an FSI as the RLI or LRI that it acts as.
fn directed_class(class: Class, right_to_left: bool) -> Class
    ensures { result ≡ directed_by class right_to_left }
{
    match class {
        Class::FSI => if right_to_left {
            Class::RLI
        } else {
            Class::LRI
        },
        _ => class,
    }
}

/// The directions after one more character, in front of those that were read.
fn read_side(sides: &mut Stack<bool>, class: Class) -> Result<(), OutOfMemory>
    ensures { OnOk result (sides.new ≡ sides_before class sides.old) }
{
    match class {
        Class::LRI | Class::RLI | Class::FSI => {
            sides.pop();
        }
        Class::PDI => sides.push(false)?,
        Class::L => set_top(sides, false)?,
        Class::R | Class::AL => set_top(sides, true)?,
        _ => {}
    }
    Ok(())
}

/// Sets the direction that counts where no isolate is open.
fn set_top(sides: &mut Stack<bool>, side: bool) -> Result<(), OutOfMemory>
    ensures { OnOk result (sides.new ≡ side ∷ drop 1 sides.old) }
{
    sides.pop();
    sides.push(side)
}

/// X1 to X9: each character that is kept, at its level, and `None` for one that is removed.
#[tactic(auto, using(crate::proofs::Tops::act_at, crate::proofs::Tops::directed_at, crate::proofs::Tops::explicit_more))]
pub(crate) fn read_explicit(
    alloc: Global,
    base: u8,
    line: &[char],
    classes: &[Class],
) -> Result<Vec<Option<Kept>>, OutOfMemory>
    requires base { base ≤ 125 }
    requires classes { classes.now ≡ directed_classes (map bidi_class line.now) }
    requires long { length classes.now ≡ length line.now }
    ensures { IfOk result (λ kept. kept.items ≡ explicit_characters base line.now) }
{
    let mut status = Status::new(alloc, base);
    let mut kept = Vec::with_capacity(alloc, line.len())?;
    for index in 0..line.len() {
        let k = status.read(line[index], classes[index])?;
        kept.push(k)?;
    }
    Ok(kept)
}
