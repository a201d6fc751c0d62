//! Steps of the machine, and the run up to the next piece.

ghost use Rattle.std.specs.Prelude.{◌≡◌, ◌<◌, None, Some, length, option_map, slice_get};
ghost use Rattle.soy_tree.specs.ViewValues.{view_value};
ghost use Rattle.render_core.specs.Calling.{callee_of};
ghost use Rattle.render_core.specs.Frames.{MachineFits, call_place};
ghost use Rattle.render_core.specs.Rest.{LeftOf};
ghost use Rattle.render_core.specs.Stepping.{Advanced, OpBefore, Spares, SteppedInto, output};
ghost use Rattle.render_core.specs.declared.frame.Frame.TheVariants as frame;

use crate::begun::Begun;
use crate::frame::{Ahead, Frame};
use crate::scene::Scene;
use crate::stack::{Machine, Step};
use soy_base::{Kind, OutOfMemory, Place, Refusal, Steps, TooDeep};
use std::sync::ledger::Ledger;
use template_ir::{Callee, Op, ProgramParts};

impl Machine {
    /// Steps up to the next piece that isn't empty, or to the end. Mostly the next op gives it at once.
    #[inline(always)]
    pub(crate) fn advance<L: Ledger>(
        &mut self,
        scene: &Scene,
        room: &mut [u8],
        piece: &mut Option<Begun>,
        steps: &mut Steps<L>,
    ) -> Result<Option<usize>, Refusal<TooDeep>>
        requires fits { MachineFits self.old }
        requires some { 0 < length room.old }
        requires none { piece.old ≡ None }
        ensures { Advanced scene.now.program.now (view_value scene.now.input.now) self.old self.new steps.old steps.new
            (output room.old room.new piece.new) result }
    {
        match self.give_ready(scene, room, steps) {
            Some(n) => Ok(Some(n)),
            None => self.advance_by_steps(scene, room, piece, steps),
        }
    }

    /// The same by steps.
    #[inline(never)]
    fn advance_by_steps<L: Ledger>(
        &mut self,
        scene: &Scene,
        room: &mut [u8],
        piece: &mut Option<Begun>,
        steps: &mut Steps<L>,
    ) -> Result<Option<usize>, Refusal<TooDeep>>
        requires fits { MachineFits self.old }
        requires some { 0 < length room.old }
        requires none { piece.old ≡ None }
        ensures { Advanced scene.now.program.now (view_value scene.now.input.now) self.old self.new steps.old steps.new
            (output room.old room.new piece.new) result }
    {
        loop {
            match self.step(scene, room, piece, steps) {
                Ok(Step::Silent) => {}
                Ok(Step::Gives(n)) => {
                    if n > 0 {
                        return Ok(Some(n));
                    }
                }
                Ok(Step::Done) => return Ok(None),
                Ok(Step::TooDeep(call)) => return Err(Refusal::Because(call)),
                Err(_) => return Err(Refusal::OutOfMemory),
            }
        }
    }

    /// One step, which may give bytes into the room. Static texts and prints, as most ops are, are looked for first.
    #[inline(always)]
    fn step<L: Ledger>(
        &mut self,
        scene: &Scene,
        room: &mut [u8],
        piece: &mut Option<Begun>,
        steps: &mut Steps<L>,
    ) -> Result<Step, OutOfMemory>
        requires fits { MachineFits self.old }
        requires none { piece.old ≡ None }
        ensures stepped { SteppedInto scene.now.program.now (view_value scene.now.input.now) self.old self.new steps.old
            steps.new (output room.old room.new piece.new) result }
        ensures spares { Spares (output room.old room.new piece.new) result }
    {
        if let Frame::Ops(ahead) = self.top {
            if let Some(op) = op_before(scene.program, ahead) {
                match op {
                    Op::Static(text) => return self.step_static(scene, ahead, text, room, piece),
                    Op::Print(expr, place) => {
                        return self.step_print(scene, ahead, expr, *place, room, piece, steps);
                    }
                    _ => {}
                }
            }
        }
        self.step_frame(scene, room, piece, steps)
    }

    /// A step of any frame.
    #[inline(never)]
    #[tactic(auto, using(crate::proofs::Gives::quiet_step))]
    fn step_frame<L: Ledger>(
        &mut self,
        scene: &Scene,
        room: &mut [u8],
        piece: &mut Option<Begun>,
        steps: &mut Steps<L>,
    ) -> Result<Step, OutOfMemory>
        requires fits { MachineFits self.old }
        requires none { piece.old ≡ None }
        ensures stepped { SteppedInto scene.now.program.now (view_value scene.now.input.now) self.old self.new steps.old
            steps.new (output room.old room.new piece.new) result }
        ensures spares { Spares (output room.old room.new piece.new) result }
    {
        match self.top {
            Frame::Ops(ahead) => match op_before(scene.program, ahead) {
                Some(op) => self.step_op(scene, ahead, op, room, piece, steps),
                None => Ok(self.leave(scene, ahead.mark)),
            },
            Frame::Turns(round) => self.step_turn(scene, round),
            Frame::Gather(ahead, purpose) => self.step_gathered(scene, ahead, purpose),
            Frame::Show(ahead, at) => {
                let place = call_place(scene.program, ahead.at);
                self.step_show(scene, ahead, at, place, room, piece)
            }
            Frame::Call(ahead, handing) => match callee_at(scene.program, ahead.at) {
                Some(callee) => {
                    self.step_handing(scene, ahead, handing, callee, room, piece, steps)
                }
                None => Ok(self.leave(scene, ahead.mark)),
            },
        }
    }

    /// One op.
    #[inline(never)]
    #[tactic(auto, using(crate::proofs::Gives::quiet_step))]
    fn step_op<L: Ledger>(
        &mut self,
        scene: &Scene,
        ahead: Ahead,
        op: &Op,
        room: &mut [u8],
        piece: &mut Option<Begun>,
        steps: &mut Steps<L>,
    ) -> Result<Step, OutOfMemory>
        requires top { self.old.top ≡ frame.Ops ahead }
        requires fits { MachineFits self.old }
        requires op { slice_get scene.now.program.now.ops ahead.at ≡ Some op.now }
        requires low { ahead.at < ahead.end }
        requires none { piece.old ≡ None }
        ensures stepped { SteppedInto scene.now.program.now (view_value scene.now.input.now) self.old self.new steps.old
            steps.new (output room.old room.new piece.new) result }
        ensures spares { Spares (output room.old room.new piece.new) result }
    {
        match op {
            Op::Static(text) => self.step_static(scene, ahead, text, room, piece),
            Op::Print(expr, place) => {
                self.step_print(scene, ahead, expr, *place, room, piece, steps)
            }
            Op::Number(place) => self.step_number(scene, ahead, *place, room, piece),
            Op::If(branches, other) => {
                self.step_if(scene, ahead, branches.items(), *other, steps)
            }
            Op::Switch(subject, choices, other) => {
                self.step_switch(scene, ahead, subject, choices.items(), *other, steps)
            }
            Op::For(_, _, list, _) => self.step_for(scene, ahead, list, steps, op),
            Op::Let(name, expr) => self.step_let(scene, ahead, expr, steps, name),
            Op::LetBlock(name, kind, block) => match kind {
                Kind::Text => self.step_let_text(scene, ahead, *block, name),
                Kind::Html => self.step_let_block(scene, ahead, *kind, *block, name),
                Kind::Attributes => self.step_let_block(scene, ahead, *kind, *block, name),
            },
            Op::Call(callee) => Ok(self.step_call(scene, ahead, callee)),
            Op::Plural(plural) => self.step_plural(scene, ahead, plural.get(), steps),
            Op::Select(select) => self.step_select(scene, ahead, select.get(), steps),
        }
    }
}

/// A piece, if bytes of it are left.
pub(crate) fn left_of(begun: Begun) -> Option<Begun>
    ensures { LeftOf begun result }
{
    if begun.left() > 0 {
        Some(begun)
    } else {
        drop(begun);
        None
    }
}

/// The next op of a block.
#[inline(always)]
pub(crate) fn op_before(program: &ProgramParts, ahead: Ahead) -> Option<&Op>
    ensures { OpBefore program.now ahead (option_map (λ o. o.now) result) }
{
    if ahead.at < ahead.end {
        program.op(ahead.at)
    } else {
        None
    }
}

/// The call at a position.
fn callee_at(program: &ProgramParts, at: usize) -> Option<&Callee>
    ensures { option_map (λ c. c.now) result ≡ callee_of (slice_get program.now.ops at) }
{
    match program.op(at) {
        Some(Op::Call(callee)) => Some(callee.get()),
        _ => None,
    }
}

/// The place of the call at a position.
fn call_place(program: &ProgramParts, at: usize) -> Place
    ensures { result ≡ call_place (slice_get program.now.ops at) }
{
    match program.op(at) {
        Some(Op::Call(callee)) => callee.get().place,
        _ => Place::Plain,
    }
}
