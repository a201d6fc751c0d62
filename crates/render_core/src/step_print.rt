//! Prints.

ghost use Rattle.std.specs.Prelude.{◌≡◌, ◌<◌, ◌∷◌, ℕ, IfOk, None, OnOk, OnErr, Some, length, slice_get};
ghost use Rattle.soy_rules.specs.Val.{Binding};
ghost use Rattle.soy_tree.specs.ViewValues.{view_value};
ghost use Rattle.soy_pieces.specs.Giving.{BoundBlock};
ghost use Rattle.template_ir.specs.Run.{print_gives};
ghost use Rattle.template_ir.specs.declared.op.Op.TheVariants as op;
ghost use Rattle.render_core.specs.Forms.{form_at};
ghost use Rattle.render_core.specs.Frames.{MachineFits, call_place, past, text_bound};
ghost use Rattle.render_core.specs.Shows.{IsAtHand, IsShownAtHand, Shows, kept_child, print_text};
ghost use Rattle.render_core.specs.Stepping.{Does, GaveForm, IsSame, Spares, SteppedInto, output};
ghost use Rattle.render_core.specs.Variables.{cells_of};
ghost use Rattle.render_core.specs.declared.frame.Frame.TheVariants as frame;

use crate::begun::{Begun, give_form};
use crate::fields::field_part;
use crate::frame::{Ahead, Frame};
use crate::held::{Held, Kept};
use crate::parts::variable_at;
use crate::scene::Scene;
use crate::showing::{Print, Shown, how_printed, shown_field, text_of};
use crate::stack::{Machine, Step, past};
use crate::variable_stack::VariableStack;
use soy_base::{OutOfMemory, Place, Steps, Text, ValueClass};
use soy_expr::{Made, Shallow};
use soy_tree::Expr;
use std::sync::ledger::Ledger;

impl Machine {
    /// A print.
    #[inline(never)]
    pub(crate) fn step_print<L: Ledger>(
        &mut self,
        scene: &Scene,
        ahead: Ahead,
        expr: &Expr,
        place: Place,
        room: &mut [u8],
        piece: &mut Option<Begun>,
        steps: &mut Steps<L>,
    ) -> Result<Step, OutOfMemory>
        requires top { self.old.top ≡ frame.Ops ahead }
        requires fits { MachineFits self.old }
        requires op { slice_get scene.now.program.now.ops ahead.at ≡ Some (op.Print expr.now place) }
        requires low { ahead.at < ahead.end }
        requires none { piece.old ≡ None }
        ensures stepped { SteppedInto scene.now.program.now (view_value scene.now.input.now) self.old self.new steps.old
            steps.new (output room.old room.new piece.new) result }
        ensures spares { Spares (output room.old room.new piece.new) result }
    {
        let point = self.point(scene, ahead.env);
        let Some(field) = field_part(point, expr) else {
            return self.print_any(scene, ahead, expr, place, room, piece, steps);
        };
        let shown = match shown_field(point, field, steps) {
            Ok(shown) => shown,
            Err(_) => return Err(OutOfMemory),
        };
        self.print_shown(scene, ahead, place, shown, room, piece)
    }

    /// The print of any expression.
    #[inline(never)]
    fn print_any<L: Ledger>(
        &mut self,
        scene: &Scene,
        ahead: Ahead,
        expr: &Expr,
        place: Place,
        room: &mut [u8],
        piece: &mut Option<Begun>,
        steps: &mut Steps<L>,
    ) -> Result<Step, OutOfMemory>
        requires top { self.old.top ≡ frame.Ops ahead }
        requires fits { MachineFits self.old }
        requires op { slice_get scene.now.program.now.ops ahead.at ≡ Some (op.Print expr.now place) }
        requires low { ahead.at < ahead.end }
        requires none { piece.old ≡ None }
        ensures stepped { SteppedInto scene.now.program.now (view_value scene.now.input.now) self.old self.new steps.old
            steps.new (output room.old room.new piece.new) result }
        ensures spares { Spares (output room.old room.new piece.new) result }
    {
        let shown = match how_printed(self.point(scene, ahead.env), expr, steps) {
            Ok(shown) => shown,
            Err(_) => return Err(OutOfMemory),
        };
        self.print_shown(scene, ahead, place, shown, room, piece)
    }

    /// The print of a value or a block.
    #[inline(always)]
    fn print_shown(
        &mut self,
        scene: &Scene,
        ahead: Ahead,
        place: Place,
        shown: Shown,
        room: &mut [u8],
        piece: &mut Option<Begun>,
    ) -> Result<Step, OutOfMemory>
        requires top { self.old.top ≡ frame.Ops ahead }
        requires fits { MachineFits self.old }
        requires low { ahead.at < ahead.end }
        requires at_hand { IsShownAtHand
            (cells_of scene.now.program.now (view_value scene.now.input.now) self.old.bound) shown }
        requires none { piece.old ≡ None }
        ensures does { (b : Binding BoundBlock) → Shows scene.now.program.now
            (cells_of scene.now.program.now (view_value scene.now.input.now) self.old.bound)
            (length self.old.bound) b shown.entry →
            Does scene.now.program.now (view_value scene.now.input.now) self.old self.new ahead
            (print_gives scene.now.program.now.dir place b) (output room.old room.new piece.new) result }
        ensures spares { Spares (output room.old room.new piece.new) result }
    {
        match shown {
            Shown::Value(print, class) => {
                self.print_value(scene, ahead, place, print, class, room, piece)
            }
            Shown::Block(kept) => match self.enter_kept(ahead, kept) {
                Ok(()) => Ok(Step::Silent),
                Err(_) => Err(OutOfMemory),
            },
        }
    }

    /// Gives a value, and goes past the op at hand.
    #[inline(always)]
    fn print_value(
        &mut self,
        scene: &Scene,
        ahead: Ahead,
        place: Place,
        print: Print,
        class: ValueClass,
        room: &mut [u8],
        piece: &mut Option<Begun>,
    ) -> Result<Step, OutOfMemory>
        requires top { self.old.top ≡ frame.Ops ahead }
        requires low { ahead.at < ahead.end }
        requires at_hand { IsAtHand
            (cells_of scene.now.program.now (view_value scene.now.input.now) self.old.bound) print }
        requires none { piece.old ≡ None }
        ensures gave { GaveForm scene.now.program.now (view_value scene.now.input.now) self.old self.new
            (frame.Ops (past ahead)) (form_at place class (print_text
            (cells_of scene.now.program.now (view_value scene.now.input.now) self.old.bound) print.entry)
            scene.now.program.now.dir) (output room.old room.new piece.new) result }
        ensures spares { Spares (output room.old room.new piece.new) result }
    {
        if self.texts.is_empty() {
            match give_form(self.point(scene, 0), place, print, class, room, piece) {
                Ok(n) => {
                    self.pass(ahead);
                    Ok(Step::Gives(n))
                }
                Err(_) => Err(OutOfMemory),
            }
        } else {
            let next = Frame::Ops(past(ahead));
            self.give_value(scene, next, place, print, class, room, piece)
        }
    }

    /// Goes into a block that is printed, and past its print.
    #[inline(never)]
    fn enter_kept(&mut self, ahead: Ahead, kept: Kept) -> Result<(), OutOfMemory>
        requires { ahead.at < ahead.end }
        ensures top { OnOk result (self.new.top ≡ frame.Ops (kept_child kept (length self.old.bound))) }
        ensures below { OnOk result (self.new.below ≡ frame.Ops (past ahead) ∷ self.old.below) }
        ensures texts { OnOk result (self.new.texts ≡ self.old.texts) }
        ensures bound { OnOk result (self.new.bound ≡ self.old.bound) }
        ensures stays { OnErr result (IsSame self.old self.new) }
    {
        let child = Ahead {
            at: kept.block.first,
            end: kept.block.end,
            env: kept.env,
            left: kept.left,
            number: 0,
            mark: self.mark(),
        };
        match self.enter(Frame::Ops(past(ahead)), Frame::Ops(child)) {
            Ok(()) => Ok(()),
            Err(_) => Err(OutOfMemory),
        }
    }

    /// `#`.
    #[inline(never)]
    pub(crate) fn step_number(
        &mut self,
        scene: &Scene,
        ahead: Ahead,
        place: Place,
        room: &mut [u8],
        piece: &mut Option<Begun>,
    ) -> Result<Step, OutOfMemory>
        requires top { self.old.top ≡ frame.Ops ahead }
        requires fits { MachineFits self.old }
        requires op { slice_get scene.now.program.now.ops ahead.at ≡ Some (op.Number place) }
        requires low { ahead.at < ahead.end }
        requires none { piece.old ≡ None }
        ensures stepped { (n : ℕ) → SteppedInto scene.now.program.now (view_value scene.now.input.now) self.old self.new
            n n (output room.old room.new piece.new) result }
        ensures spares { Spares (output room.old room.new piece.new) result }
    {
        let (text, class) = match text_of(scene.alloc, Shallow::Int(ahead.number)) {
            Ok(text) => text,
            Err(_) => return Err(OutOfMemory),
        };
        let shown = Shown::Value(Print::Made(text), class);
        self.print_shown(scene, ahead, place, shown, room, piece)
    }

    /// The print of a text that was gathered.
    #[inline(never)]
    pub(crate) fn step_show(
        &mut self,
        scene: &Scene,
        ahead: Ahead,
        at: usize,
        place: Place,
        room: &mut [u8],
        piece: &mut Option<Begun>,
    ) -> Result<Step, OutOfMemory>
        requires top { self.old.top ≡ frame.Show ahead at }
        requires fits { MachineFits self.old }
        requires low { ahead.at < ahead.end }
        requires place { place ≡ call_place (slice_get scene.now.program.now.ops ahead.at) }
        requires none { piece.old ≡ None }
        ensures stepped { (n : ℕ) → SteppedInto scene.now.program.now (view_value scene.now.input.now) self.old self.new
            n n (output room.old room.new piece.new) result }
        ensures spares { Spares (output room.old room.new piece.new) result }
    {
        let text = match text_at(scene, &self.bound, at) {
            Ok(text) => text,
            Err(_) => return Err(OutOfMemory),
        };
        self.give_value(
            scene,
            Frame::Ops(past(ahead)),
            place,
            Print::Made(text),
            ValueClass::Text,
            room,
            piece,
        )
    }
}

/// The text that the variable at a place is bound to.
fn text_at(scene: &Scene, bound: &VariableStack, at: usize) -> Result<Text, OutOfMemory>
    ensures { IfOk result (λ t. t ≡ text_bound (slice_get bound.now at)) }
{
    match variable_at(bound, at) {
        Some(variable) => match &variable.to {
            Held::Made(Made::Str(text)) => text.copy(scene.alloc),
            Held::Made(_) => Ok(Text::empty(scene.alloc)),
            Held::Root => Ok(Text::empty(scene.alloc)),
            Held::Item(_, _) => Ok(Text::empty(scene.alloc)),
            Held::Part(_) => Ok(Text::empty(scene.alloc)),
            Held::Block(_) => Ok(Text::empty(scene.alloc)),
        },
        None => Ok(Text::empty(scene.alloc)),
    }
}
