//! The stack of frames, and what all its steps do.

ghost use Rattle.std.specs.Prelude.{◌≡◌, ◌<◌, ◌∷◌, ℕ, [], false, OnOk, OnErr, None, Ok, Some, length, slice_get};
ghost use Rattle.soy_tree.specs.Values as values;
ghost use Rattle.soy_tree.specs.ViewValues.{view_value};
ghost use Rattle.soy_pieces.specs.Outcome.{RunEnds, WholeRun};
ghost use Rattle.template_ir.specs.Run.{arm_gives, one_step};
ghost use Rattle.template_ir.specs.declared.op.Op.TheVariants as op;
ghost use Rattle.template_ir.specs.declared.program.ProgramParts as code_parts;
ghost use Rattle.render_core.specs.Frames.{IsPlainFrame, MachineFits, child_at, frame_gives, mark_of, means_before};
ghost use Rattle.render_core.specs.Frames.{past, past_with};
ghost use Rattle.render_core.specs.Stepping.{GaveForm, GoesIn, IsSame, Output, Spares, Stepped, SteppedInto, output};
ghost use Rattle.render_core.specs.Forms.{form_at};
ghost use Rattle.render_core.specs.Shows.{IsAtHand, print_text};
ghost use Rattle.render_core.specs.Texts.{is_none};
ghost use Rattle.render_core.specs.Variables.{cells_of, env_at};
ghost use Rattle.render_core.specs.declared.frame.Frame.TheVariants as frame;
ghost use Rattle.render_core.specs.declared.stack.Step.TheVariants as step;

use crate::begun::{Begun, escaped_whole, give_fixed, give_form};
use crate::frame::{Ahead, Frame};
use crate::parts::Point;
use crate::scene::Scene;
use crate::showing::Print;
use crate::texts::Texts;
use crate::variable_stack::VariableStack;
use soy_base::{OutOfMemory, Place, Stack, Text, TooDeep, ValueClass};
use template_ir::Block;

/// The frame that is run, those below it, the texts that are being gathered, and the variables of all frames.
#[derive(Drop)]
pub(crate) struct Machine {
    pub(crate) top: Frame,
    pub(crate) below: Stack<Frame>,
    pub(crate) texts: Texts,
    pub(crate) bound: VariableStack,
}

/// What one step gives.
#[derive(Drop)]
pub(crate) enum Step {
    Silent,
    /// So many bytes of a piece.
    Gives(usize),
    Done,
    TooDeep(TooDeep),
}

impl Machine {
    /// Where the expressions of a frame are valued.
    pub(crate) fn point<'p, 'i, 'b>(
        &'b self,
        scene: &Scene<'p, 'i>,
        env: usize,
    ) -> Point<'p, 'i, 'b>
        ensures program { result.scene.program.now ≡ scene.now.program.now }
        ensures input { result.scene.input.now ≡ scene.now.input.now }
        ensures bound { result.bound.now ≡ self.now.bound }
        ensures env { result.env ≡ env }
    {
        Point {
            scene: *scene,
            bound: &self.bound,
            env,
        }
    }

    /// How many variables there are.
    pub(crate) fn mark(&self) -> usize
        ensures { result ≡ length self.now.bound }
    {
        self.bound.len()
    }

    /// Goes into a frame, with another to come after it.
    pub(crate) fn enter(&mut self, next: Frame, child: Frame) -> Result<(), OutOfMemory>
        ensures top { OnOk result (self.new.top ≡ child) }
        ensures below { OnOk result (self.new.below ≡ next ∷ self.old.below) }
        ensures texts { self.new.texts ≡ self.old.texts }
        ensures bound { self.new.bound ≡ self.old.bound }
        ensures top_stays { OnErr result (self.new.top ≡ self.old.top) }
        ensures below_stays { OnErr result (self.new.below ≡ self.old.below) }
    {
        self.below.push(next)?;
        self.top = child;
        Ok(())
    }

    /// Goes into a block that the op at a place names, if there is one, and past the op.
    #[tactic(auto, using(crate::proofs::Moves::into_none, crate::proofs::Moves::into_block))]
    pub(crate) fn enter_block(
        &mut self,
        ahead: Ahead,
        block: Option<Block>,
        number: i64,
    ) -> Result<(), OutOfMemory>
        requires top { self.old.top ≡ frame.Ops ahead }
        requires fits { MachineFits self.old }
        requires low { ahead.at < ahead.end }
        ensures goes { OnOk result ((p : code_parts.ProgramParts) (input : values.Value) →
            GoesIn p input self.old self.new ahead (arm_gives (means_before p ahead.left ahead.at) block number
            (env_at (cells_of p input self.old.bound) ahead.env))) }
        ensures stays { OnErr result (IsSame self.old self.new) }
    {
        let next = Frame::Ops(past(ahead));
        let Some(block) = block else {
            self.top = next;
            return Ok(());
        };
        let child = child_ahead(ahead, block, number, self.mark());
        match self.enter(next, Frame::Ops(child)) {
            Ok(()) => Ok(()),
            Err(_) => Err(OutOfMemory),
        }
    }

    /// Goes into a block, or what else a text is gathered from, whose text is for the frame that comes after it.
    pub(crate) fn gather(
        &mut self,
        scene: &Scene,
        next: Frame,
        child: Frame,
    ) -> Result<(), OutOfMemory>
        ensures top { OnOk result (self.new.top ≡ child) }
        ensures below { OnOk result (self.new.below ≡ next ∷ self.old.below) }
        ensures texts { OnOk result (self.new.texts ≡ [] ∷ self.old.texts) }
        ensures bound { OnOk result (self.new.bound ≡ self.old.bound) }
        ensures stays { OnErr result (IsSame self.old self.new) }
    {
        if self.texts.begin(scene.alloc).is_err() {
            return Err(OutOfMemory);
        }
        match self.enter(next, child) {
            Ok(()) => Ok(()),
            Err(_) => {
                self.texts.end();
                Err(OutOfMemory)
            }
        }
    }

    /// Gives a value, and goes on with another frame.
    #[inline(never)]
    pub(crate) fn give_value(
        &mut self,
        scene: &Scene,
        next: Frame,
        place: Place,
        print: Print,
        class: ValueClass,
        room: &mut [u8],
        piece: &mut Option<Begun>,
    ) -> Result<Step, OutOfMemory>
        requires at_hand { IsAtHand
            (cells_of scene.now.program.now (view_value scene.now.input.now) self.old.bound) print }
        requires none { piece.old ≡ None }
        ensures gave { GaveForm scene.now.program.now (view_value scene.now.input.now) self.old self.new next
            (form_at place class (print_text
            (cells_of scene.now.program.now (view_value scene.now.input.now) self.old.bound) print.entry)
            scene.now.program.now.dir) (output room.old room.new piece.new) result }
        ensures spares { Spares (output room.old room.new piece.new) result }
    {
        if self.texts.is_empty() {
            match give_form(self.point(scene, 0), place, print, class, room, piece) {
                Ok(n) => {
                    self.top = next;
                    Ok(Step::Gives(n))
                }
                Err(_) => Err(OutOfMemory),
            }
        } else {
            let form = match escaped_whole(self.point(scene, 0), place, &print, class) {
                Ok(form) => form,
                Err(_) => {
                    drop(print);
                    return Err(OutOfMemory);
                }
            };
            drop(print);
            self.gather_more(next, &form)
        }
    }

    /// Goes past the op at hand.
    #[inline(always)]
    pub(crate) fn pass(&mut self, ahead: Ahead)
        requires top { self.old.top ≡ frame.Ops ahead }
        requires low { ahead.at < ahead.end }
        ensures top { self.new.top ≡ frame.Ops (past ahead) }
        ensures below { self.new.below ≡ self.old.below }
        ensures texts { self.new.texts ≡ self.old.texts }
        ensures bound { self.new.bound ≡ self.old.bound }
    {
        if let Frame::Ops(now) = &mut self.top {
            now.at = ahead.at + 1;
        }
    }

    /// Adds to the innermost text, and goes on with another frame.
    #[inline(never)]
    fn gather_more(&mut self, next: Frame, more: &Text) -> Result<Step, OutOfMemory>
        requires { is_none self.old.texts ≡ false }
        ensures gave { (p : code_parts.ProgramParts) (input : values.Value) (out : Output) →
            GaveForm p input self.old self.new next more.now out result }
        ensures silent { OnOk result (result ≡ Ok step.Silent) }
    {
        match self.texts.append(more) {
            Ok(()) => {
                self.top = next;
                Ok(Step::Silent)
            }
            Err(_) => Err(OutOfMemory),
        }
    }

    /// Gives the static text of the op at a place, and goes past it.
    #[inline(always)]
    pub(crate) fn step_static(
        &mut self,
        scene: &Scene,
        ahead: Ahead,
        text: &Text,
        room: &mut [u8],
        piece: &mut Option<Begun>,
    ) -> Result<Step, OutOfMemory>
        requires top { self.old.top ≡ frame.Ops ahead }
        requires fits { MachineFits self.old }
        requires op { slice_get scene.now.program.now.ops ahead.at ≡ Some (op.Static text.now) }
        requires low { ahead.at < ahead.end }
        requires none { piece.old ≡ None }
        ensures stepped { (n : ℕ) → SteppedInto scene.now.program.now (view_value scene.now.input.now) self.old self.new
            n n (output room.old room.new piece.new) result }
        ensures spares { Spares (output room.old room.new piece.new) result }
    {
        if text.is_empty() {
            self.pass(ahead);
            return Ok(Step::Silent);
        }
        self.give_static(ahead, text, room, piece)
    }

    /// Gives the static text of the op at a place, and goes past it.
    #[inline(always)]
    fn give_static(
        &mut self,
        ahead: Ahead,
        text: &Text,
        room: &mut [u8],
        piece: &mut Option<Begun>,
    ) -> Result<Step, OutOfMemory>
        requires top { self.old.top ≡ frame.Ops ahead }
        requires low { ahead.at < ahead.end }
        requires none { piece.old ≡ None }
        ensures gave { (p : code_parts.ProgramParts) (input : values.Value)
            → slice_get p.ops ahead.at ≡ Some (op.Static text.now)
            → GaveForm p input self.old self.new (frame.Ops (past ahead)) text.now
            (output room.old room.new piece.new) result }
        ensures spares { Spares (output room.old room.new piece.new) result }
    {
        if self.texts.is_empty() {
            let n = give_fixed(ahead.at, text, room, piece);
            self.pass(ahead);
            Ok(Step::Gives(n))
        } else {
            self.gather_static(ahead, text)
        }
    }

    /// Adds a static text to the innermost text, and goes past its op.
    #[inline(never)]
    fn gather_static(&mut self, ahead: Ahead, text: &Text) -> Result<Step, OutOfMemory>
        requires low { ahead.at < ahead.end }
        requires some { is_none self.old.texts ≡ false }
        ensures gave { (p : code_parts.ProgramParts) (input : values.Value) (out : Output) →
            GaveForm p input self.old self.new (frame.Ops (past ahead)) text.now out result }
        ensures silent { OnOk result (result ≡ Ok step.Silent) }
    {
        self.gather_more(Frame::Ops(past(ahead)), text)
    }

    /// Leaves the frame on top, which gives nothing more.
    #[inline(never)]
    pub(crate) fn leave(&mut self, scene: &Scene, mark: usize) -> Step
        requires mark { mark_of self.old.top ≡ mark }
        requires fits { MachineFits self.old }
        requires plain { IsPlainFrame self.old.top }
        requires none { frame_gives scene.now.program.now (view_value scene.now.input.now) self.old.bound
            self.old.top ≡ RunEnds (one_step 0) WholeRun }
        ensures { (n : ℕ) → Stepped scene.now.program.now (view_value scene.now.input.now) self.old self.new n n
            (Ok result) }
    {
        match self.below.pop() {
            None => Step::Done,
            Some(frame) => {
                self.bound.truncate(mark);
                self.top = frame;
                Step::Silent
            }
        }
    }
}

/// The same with other variables.
pub(crate) fn past_with(ahead: Ahead, env: usize) -> Ahead
    requires { ahead.at < ahead.end }
    ensures { result ≡ past_with ahead env }
{
    Ahead {
        at: ahead.at + 1,
        env,
        ..ahead
    }
}

/// A block that the next op names, over so many variables.
pub(crate) fn child_ahead(ahead: Ahead, block: Block, number: i64, mark: usize) -> Ahead
    ensures { result ≡ child_at ahead block number mark }
{
    Ahead {
        at: block.first,
        end: block.end.min(ahead.at),
        env: ahead.env,
        left: ahead.left,
        number,
        mark,
    }
}

/// What is left of a block past the next op.
pub(crate) fn past(ahead: Ahead) -> Ahead
    requires { ahead.at < ahead.end }
    ensures { result ≡ past ahead }
{
    Ahead {
        at: ahead.at + 1,
        ..ahead
    }
}
