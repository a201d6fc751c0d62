//! Commands that choose a block.

ghost use Rattle.std.specs.Prelude.{◌≡◌, ◌<◌, ◌-ℤ◌, IfOk, Some, pos, slice_get};
ghost use Rattle.soy_tree.specs.ViewValues.{view_value};
ghost use Rattle.template_ir.specs.declared.op.Op.TheVariants as op;
ghost use Rattle.render_core.specs.Frames.{MachineFits};
ghost use Rattle.render_core.specs.Stepping.{Stepped};
ghost use Rattle.render_core.specs.declared.frame.Frame.TheVariants as frame;

use crate::choosing::{branch_taken, int_value, plural_block, select_taken, switch_taken};
use crate::frame::Ahead;
use crate::scene::Scene;
use crate::stack::{Machine, Step};
use soy_base::{OutOfMemory, Steps};
use soy_tree::Expr;
use std::sync::ledger::Ledger;
use template_ir::{Block, Branch, Choice, PluralOp, SelectOp};

impl Machine {
    /// An if.
    #[inline(never)]
    pub(crate) fn step_if<L: Ledger>(
        &mut self,
        scene: &Scene,
        ahead: Ahead,
        branches: &[Branch],
        other: Option<Block>,
        steps: &mut Steps<L>,
    ) -> Result<Step, OutOfMemory>
        requires top { self.old.top ≡ frame.Ops ahead }
        requires fits { MachineFits self.old }
        requires op { slice_get scene.now.program.now.ops ahead.at ≡ Some (op.If branches.now other) }
        requires low { ahead.at < ahead.end }
        ensures { Stepped scene.now.program.now (view_value scene.now.input.now) self.old self.new steps.old steps.new
            result }
    {
        let point = self.point(scene, ahead.env);
        let block = match branch_taken(point, branches, other, steps) {
            Ok(block) => block,
            Err(_) => return Err(OutOfMemory),
        };
        match self.enter_block(ahead, block, 0) {
            Ok(()) => Ok(Step::Silent),
            Err(_) => Err(OutOfMemory),
        }
    }

    /// A switch.
    #[inline(never)]
    pub(crate) fn step_switch<L: Ledger>(
        &mut self,
        scene: &Scene,
        ahead: Ahead,
        subject: &Expr,
        choices: &[Choice],
        other: Option<Block>,
        steps: &mut Steps<L>,
    ) -> Result<Step, OutOfMemory>
        requires top { self.old.top ≡ frame.Ops ahead }
        requires fits { MachineFits self.old }
        requires op { slice_get scene.now.program.now.ops ahead.at ≡ Some (op.Switch subject.now choices.now other) }
        requires low { ahead.at < ahead.end }
        ensures { Stepped scene.now.program.now (view_value scene.now.input.now) self.old self.new steps.old steps.new
            result }
    {
        let point = self.point(scene, ahead.env);
        let block = match switch_taken(point, subject, choices, other, steps) {
            Ok(block) => block,
            Err(_) => return Err(OutOfMemory),
        };
        match self.enter_block(ahead, block, 0) {
            Ok(()) => Ok(Step::Silent),
            Err(_) => Err(OutOfMemory),
        }
    }

    /// A plural.
    #[inline(never)]
    pub(crate) fn step_plural<L: Ledger>(
        &mut self,
        scene: &Scene,
        ahead: Ahead,
        plural: &PluralOp,
        steps: &mut Steps<L>,
    ) -> Result<Step, OutOfMemory>
        requires top { self.old.top ≡ frame.Ops ahead }
        requires fits { MachineFits self.old }
        requires op { slice_get scene.now.program.now.ops ahead.at ≡ Some (op.Plural plural.now) }
        requires low { ahead.at < ahead.end }
        ensures { Stepped scene.now.program.now (view_value scene.now.input.now) self.old self.new steps.old steps.new
            result }
    {
        let point = self.point(scene, ahead.env);
        let number = match int_value(point, &plural.number, steps) {
            Ok(number) => number,
            Err(_) => return Err(OutOfMemory),
        };
        let rest = match without_offset(number, plural.offset) {
            Ok(rest) => rest,
            Err(_) => return Err(OutOfMemory),
        };
        let block = plural_block(scene.program, plural, number, rest);
        match self.enter_block(ahead, block, rest) {
            Ok(()) => Ok(Step::Silent),
            Err(_) => Err(OutOfMemory),
        }
    }

    /// A select.
    #[inline(never)]
    pub(crate) fn step_select<L: Ledger>(
        &mut self,
        scene: &Scene,
        ahead: Ahead,
        select: &SelectOp,
        steps: &mut Steps<L>,
    ) -> Result<Step, OutOfMemory>
        requires top { self.old.top ≡ frame.Ops ahead }
        requires fits { MachineFits self.old }
        requires op { slice_get scene.now.program.now.ops ahead.at ≡ Some (op.Select select.now) }
        requires low { ahead.at < ahead.end }
        ensures { Stepped scene.now.program.now (view_value scene.now.input.now) self.old self.new steps.old steps.new
            result }
    {
        let point = self.point(scene, ahead.env);
        let block = match select_taken(point, select, steps) {
            Ok(block) => block,
            Err(_) => return Err(OutOfMemory),
        };
        match self.enter_block(ahead, block, 0) {
            Ok(()) => Ok(Step::Silent),
            Err(_) => Err(OutOfMemory),
        }
    }
}

/// The number without the offset. One that no i64 holds, as no sound program has, is taken for running out of memory.
fn without_offset(number: i64, offset: u64) -> Result<i64, OutOfMemory>
    ensures { IfOk result (λ rest. rest ≡ number -ℤ pos offset) }
{
    let Ok(offset) = i64::try_from(offset) else {
        return Err(OutOfMemory);
    };
    match number.checked_sub(offset) {
        Some(rest) => Ok(rest),
        None => Err(OutOfMemory),
    }
}
