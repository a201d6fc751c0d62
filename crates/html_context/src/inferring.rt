//! The places of typed trees.

ghost use Rattle.std.specs.Prelude.{◌≡◌, ◌<◌, ◌^◌, IfOk, length};
ghost use Rattle.soy_meaning.specs.Walks.AcceptedTrees.{AcceptedTrees, walk_trees};
ghost use Rattle.soy_meaning.specs.Paths.PlanOfNodes.{trees_plan};
ghost use Rattle.soy_tree.specs.ViewTrees.{view_trees};
ghost use Rattle.html_context.specs.ChosenTranslation.{chosen_translation};
ghost use Rattle.html_context.specs.Infers.{Decides, Infers, place_fault};
ghost use Rattle.html_context.specs.PlacesOfHoles.{PlacesOfHoles};
ghost use Rattle.html_context.specs.Walks.{view_fault};

use crate::compiling::compiled;
use crate::fault::{FirstFault, PlaceFault};
use crate::walker::walk_table;
use soy_base::{Fault, Places, Refusal, Seq};
use soy_rules::Typed;
use soy_tree::{Bundle, Tree};
use std::alloc::Global;

/// A fault with its placings.
fn place_fault(fault: FirstFault) -> PlaceFault
    ensures { result ≡ place_fault (view_fault fault) }
{
    let (first, second) = match fault.placings {
        Some((first, second)) => (Some(first), Some(second)),
        None => (None, None),
    };
    PlaceFault {
        fault: Fault {
            code: fault.code,
            file: fault.at.file,
            at: fault.at.at,
        },
        first,
        second,
    }
}

/// The place of each hole of trees.
#[tactic(auto, using(crate::proofs::Inferred::inferred))]
pub(crate) fn infer_trees(
    alloc: Global,
    trees: &[Tree],
    bundle: &Bundle,
) -> Result<Places, Refusal<PlaceFault>>
    requires { length trees.now < 2 ^ 32 }
    ensures { Infers (walk_trees (chosen_translation bundle.now.messages) (view_trees trees.now)) result }
{
    let table = compiled(alloc, trees, bundle)?;
    match walk_table(alloc, &table) {
        Ok(places) => Ok(Places {
            prints: Seq::new(places),
        }),
        Err(Refusal::Because(fault)) => Err(Refusal::Because(place_fault(fault))),
        Err(Refusal::OutOfMemory) => Err(Refusal::OutOfMemory),
    }
}

/// The place of each hole of typed trees under a bundle, in the order in which the walk over all their paths first
/// meets it, or the first fault of that walk: its code, file and offset in bytes, and for 12 both placings. It is `Ok`
/// exactly where what is demanded of all paths holds.
#[tactic(auto, using(crate::proofs::Verdicts::decided, crate::proofs::Verdicts::placed))]
pub fn infer(alloc: Global, typed: &Typed, bundle: &Bundle) -> Result<Places, Refusal<PlaceFault>>
    ensures walk { Infers (walk_trees (chosen_translation bundle.now.messages) (view_trees typed.now)) result }
    ensures places { IfOk result (λ places.
        PlacesOfHoles (trees_plan (chosen_translation bundle.now.messages) (view_trees typed.now)) places.prints) }
    ensures accepted { Decides (AcceptedTrees (chosen_translation bundle.now.messages) (view_trees typed.now)) result }
{
    infer_trees(alloc, typed.trees(), bundle)
}
