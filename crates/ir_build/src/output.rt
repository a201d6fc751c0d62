//! The ops that are made.

ghost use Rattle.std.specs.Prelude.{◌≡◌, ◌+◌, IfOk, OnOk};
ghost use Rattle.template_ir.specs.StandFor.{place_of};
ghost use Rattle.template_ir.specs.ViewOps.{view_ops};
ghost use Rattle.ir_build.specs.Laid.{laid_block, view_output, with_hole, with_ops};

use soy_base::{OutOfMemory, Place};
use template_ir::{Block, Op};

/// The ops so far, and how many holes came so far.
#[derive(Drop)]
pub(crate) struct Output {
    pub ops: Vec<Op>,
    pub holes: usize,
}

impl Output {
    /// The place of the next hole, which has come then.
    pub fn take_place(&mut self, places: &[Place]) -> Result<Place, OutOfMemory>
        ensures place { IfOk result (λ p. p ≡ place_of places.now self.old.holes) }
        ensures made { OnOk result (view_output self.new ≡ with_hole (view_output self.old)) }
    {
        let place = place_of(places, self.holes);
        self.holes = next(self.holes)?;
        Ok(place)
    }

    /// The block of ops, which are put at the end.
    #[tactic(auto, using(crate::proofs::OpLists::map_append, crate::proofs::OpLists::length_map))]
    pub fn lay(&mut self, own: Vec<Op>) -> Result<Block, OutOfMemory>
        ensures block { IfOk result (λ b. b ≡ laid_block (view_output self.old) (view_ops own.items)) }
        ensures made { OnOk result (view_output self.new ≡ with_ops (view_output self.old) (view_ops own.items)) }
    {
        let mut own = own;
        let first = self.ops.len();
        self.ops.append(&mut own)?;
        Ok(Block {
            first,
            end: self.ops.len(),
        })
    }
}

/// The place of the hole of a number; past all holes it is Text.
fn place_of(places: &[Place], hole: usize) -> Place
    ensures { result ≡ place_of places.now hole }
{
    match places.get(hole) {
        Some(place) => *place,
        None => Place::Text,
    }
}

/// The next number. One past those of `usize` would take more holes than there is memory for.
fn next(number: usize) -> Result<usize, OutOfMemory>
    ensures { IfOk result (λ n. n ≡ number + 1) }
{
    if number == usize::MAX {
        return Err(OutOfMemory);
    }
    Ok(number + 1)
}
