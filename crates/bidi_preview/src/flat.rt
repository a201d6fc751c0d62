//! Flat lines: no character in them is removed, and none begins or ends an isolate, an embedding or an override. So a
//! flat line is one sequence, at the level of its base.
ghost use Rattle.std.specs.Prelude.{◌≡◌, ◌≤◌, Some, IfOk, OnOk, length, map};
ghost use Rattle.std.specs.List.{list_all};
ghost use Rattle.bidi_class.specs.Brackets.{bracket};
ghost use Rattle.bidi_class.specs.Class.{bidi_class};
ghost use Rattle.bidi_order.specs.Resolve.{implicit, resolve};
ghost use Rattle.bidi_order.specs.Sequences.{resolved_levels_from, side_class};
ghost use Rattle.bidi_preview.specs.FlatSteps.{is_flat};
ghost use Rattle.bidi_preview.specs.NeutralSteps.{characters_of};

use crate::neutral::implicit;
use crate::resolve::{resolve_classes, side_class};
use bidi_class::{Bracket, Class, bracket_of};
use soy_base::OutOfMemory;
use std::alloc::Global;

/// Whether the classes are those of a flat line.
pub(crate) fn are_flat(classes: &[Class]) -> bool
    ensures { result ≡ list_all is_flat classes.now }
{
    classes.iter().all(|class| is_flat(*class))
}

fn is_flat(class: Class) -> bool
    ensures { result ≡ is_flat class }
{
    match class {
        Class::LRE
        | Class::RLE
        | Class::LRO
        | Class::RLO
        | Class::PDF
        | Class::LRI
        | Class::RLI
        | Class::FSI
        | Class::PDI
        | Class::BN => false,
        _ => true,
    }
}

/// The levels of a flat line before L1, by its classes and brackets.
pub(crate) fn flat_levels(
    alloc: Global,
    base: u8,
    line: &[char],
    classes: &[Class],
) -> Result<Vec<Option<u8>>, OutOfMemory>
    requires base { base ≤ 1 }
    requires classes { classes.now ≡ map bidi_class line.now }
    ensures long { IfOk result (λ levels. length levels.items ≡ length line.now) }
    ensures levels { IfOk result (λ levels. levels.items ≡ map Some (resolve base (side_class base) (side_class base)
        (characters_of (map bidi_class line.now) (map bracket line.now)))) }
{
    let brackets = read_brackets(alloc, line)?;
    let mut resolved = Vec::from_slice(alloc, classes)?;
    let side = side_class(base);
    resolve_classes(alloc, base, side, side, &brackets, &mut resolved)?;
    implicit_levels(alloc, base, &resolved)
}

/// For each character the bracket that it is, if it is one.
fn read_brackets(alloc: Global, line: &[char]) -> Result<Vec<Option<Bracket>>, OutOfMemory>
    ensures { IfOk result (λ brackets. brackets.items ≡ map bracket line.now) }
{
    let mut brackets = Vec::with_capacity(alloc, line.len())?;
    for c in line {
        brackets.push(bracket_of(*c))?;
    }
    Ok(brackets)
}

/// I1, I2: the levels of a sequence of resolved classes.
fn implicit_levels(
    alloc: Global,
    level: u8,
    classes: &[Class],
) -> Result<Vec<Option<u8>>, OutOfMemory>
    requires { level ≤ 125 }
    ensures { IfOk result (λ levels. levels.items ≡ map Some (map (implicit level) classes.now)) }
{
    let mut levels = Vec::with_capacity(alloc, classes.len())?;
    for class in classes {
        levels.push(Some(implicit(level, *class)))?;
    }
    Ok(levels)
}
