//! The classes of one sequence, resolved (UAX #9, W1 to N2).
ghost use Rattle.std.specs.Prelude.{◌≡◌, [], OnOk, length, map};
ghost use Rattle.bidi_order.specs.Resolve.{bracket_pairs_from, implicit, is_nonspacing, n0, pairs_in_order, resolve};
ghost use Rattle.bidi_order.specs.Resolve.{weak_types};
ghost use Rattle.bidi_order.specs.Sequences.{side_class};
ghost use Rattle.bidi_text.specs.Estimate.{is_right_to_left};
ghost use Rattle.bidi_preview.specs.NeutralSteps.{characters_of, counting_brackets};

use crate::brackets::{has_bracket, resolve_brackets};
use crate::neutral::resolve_neutrals;
use crate::weak::resolve_weak;
use bidi_class::{Bracket, Class};
use soy_base::OutOfMemory;
use std::alloc::Global;

/// Resolves the classes of a sequence in place, by its level, its sos and eos, and its brackets.
#[tactic(auto, using(crate::proofs::Resolved::resolved_by))]
fn resolve_sequence(
    alloc: Global,
    level: u8,
    sos: Class,
    eos: Class,
    brackets: &[Option<Bracket>],
    classes: &mut [Class],
) -> Result<(), OutOfMemory>
    requires { length brackets.now ≡ length classes.old }
    ensures { OnOk result (map (implicit level) classes.new
        ≡ resolve level sos eos (characters_of classes.old brackets.now)) }
{
    let own = level % 2 == 1;
    resolve_paired(alloc, own, sos, brackets, classes)?;
    resolve_neutrals(own, is_right_to_left(sos), is_right_to_left(eos), classes);
    Ok(())
}

/// Resolves the classes of a sequence in their list, which stays as long.
pub(crate) fn resolve_classes(
    alloc: Global,
    level: u8,
    sos: Class,
    eos: Class,
    brackets: &[Option<Bracket>],
    classes: &mut Vec<Class>,
) -> Result<(), OutOfMemory>
    requires { length brackets.now ≡ length classes.old.items }
    ensures levels { OnOk result (map (implicit level) classes.new.items
        ≡ resolve level sos eos (characters_of classes.old.items brackets.now)) }
    ensures long { OnOk result (length classes.new.items ≡ length classes.old.items) }
{
    resolve_sequence(alloc, level, sos, eos, brackets, classes)
}

/// W1 to N0. Where no character is a bracket, no pair is looked for.
#[tactic(auto, using(crate::proofs::WithoutBrackets::no_brackets))]
fn resolve_paired(
    alloc: Global,
    own: bool,
    sos: Class,
    brackets: &[Option<Bracket>],
    classes: &mut [Class],
) -> Result<(), OutOfMemory>
    requires { length brackets.now ≡ length classes.old }
    ensures classes { OnOk result (classes.new ≡ n0 own (is_right_to_left sos) (map is_nonspacing classes.old)
        (pairs_in_order (bracket_pairs_from 0 [] (counting_brackets (weak_types sos classes.old) brackets.now)))
        (weak_types sos classes.old)) }
    ensures long { OnOk result (length (weak_types sos classes.old) ≡ length classes.old) }
{
    if !has_bracket(brackets) {
        resolve_weak(sos, classes);
        return Ok(());
    }
    let given = Vec::from_slice(alloc, classes)?;
    resolve_weak(sos, classes);
    resolve_brackets(alloc, own, is_right_to_left(sos), &given, brackets, classes)
}

/// The class of the side of a level.
pub(crate) fn side_class(level: u8) -> Class
    ensures { result ≡ side_class level }
{
    if level % 2 == 1 { Class::R } else { Class::L }
}

fn is_right_to_left(class: Class) -> bool
    ensures { result ≡ is_right_to_left class }
{
    match class {
        Class::R | Class::AL => true,
        _ => false,
    }
}
