//! Calls.

ghost use Rattle.std.specs.Prelude.{◌≡◌, ◌<◌, ◌∷◌, ℕ, [], None, Ok, OnErr, OnOk, Some, length, option_map};
ghost use Rattle.std.specs.Prelude.{slice_get};
ghost use Rattle.soy_base.specs.declared.kind.Kind.TheVariants as kind;
ghost use Rattle.soy_tree.specs.ViewValues.{view_value};
ghost use Rattle.soy_tree.specs.Values.{NullValue};
ghost use Rattle.template_ir.specs.Run.{value_at};
ghost use Rattle.template_ir.specs.declared.op.HandedBy.TheVariants as by;
ghost use Rattle.template_ir.specs.declared.op.Op.TheVariants as op;
ghost use Rattle.render_core.specs.Calling.{called_child, callee_of, Hands, Opens, OpensRoutine};
ghost use Rattle.render_core.specs.Frames.{MachineFits, past};
ghost use Rattle.render_core.specs.Linked.{Adds};
ghost use Rattle.render_core.specs.Stepping.{GaveForm, IsBlockKind, IsSame, Spares, Stepped, SteppedInto};
ghost use Rattle.render_core.specs.Stepping.{handed_bound, handed_past, output};
ghost use Rattle.render_core.specs.declared.frame.Frame.TheVariants as frame;

use crate::begun::Begun;
use crate::binding::held;
use crate::frame::{Ahead, Frame, Handing, Purpose};
use crate::held::{Held, Naming};
use crate::scene::Scene;
use crate::showing::{Print, text_of};
use crate::stack::{Machine, Step, past};
use crate::step_let::{handed_on, kept};
use crate::valuing::{Found, value_of, variable};
use soy_base::{Boxed, Kind, OutOfMemory, Place, Steps, TooDeep};
use soy_expr::Shallow;
use soy_tree::Expr;
use std::sync::ledger::Ledger;
use template_ir::{Block, Callee, Handed, HandedBy, Routine};

impl Machine {
    /// A call: its parameters are handed one after the other, and then it is opened.
    pub(crate) fn step_call(&mut self, scene: &Scene, ahead: Ahead, callee: &Boxed<Callee>) -> Step
        requires top { self.old.top ≡ frame.Ops ahead }
        requires fits { MachineFits self.old }
        requires op { slice_get scene.now.program.now.ops ahead.at ≡ Some (op.Call callee.now) }
        requires low { ahead.at < ahead.end }
        ensures { (n : ℕ) → Stepped scene.now.program.now (view_value scene.now.input.now) self.old self.new n n
            (Ok result) }
    {
        let handing = Handing {
            next: 0,
            inner: 0,
            mark: self.mark(),
        };
        self.top = Frame::Call(ahead, handing);
        Step::Silent
    }

    /// The next parameter of a call, or its opening.
    #[inline(never)]
    #[tactic(auto, using(crate::proofs::Gives::quiet_step))]
    pub(crate) fn step_handing<L: Ledger>(
        &mut self,
        scene: &Scene,
        ahead: Ahead,
        handing: Handing,
        callee: &Callee,
        room: &mut [u8],
        piece: &mut Option<Begun>,
        steps: &mut Steps<L>,
    ) -> Result<Step, OutOfMemory>
        requires top { self.old.top ≡ frame.Call ahead handing }
        requires fits { MachineFits self.old }
        requires op { callee_of (slice_get scene.now.program.now.ops ahead.at) ≡ Some callee.now }
        requires none { piece.old ≡ None }
        ensures stepped { SteppedInto scene.now.program.now (view_value scene.now.input.now) self.old self.new steps.old
            steps.new (output room.old room.new piece.new) result }
        ensures spares { Spares (output room.old room.new piece.new) result }
    {
        match handed_at(callee, handing.next) {
            Some(handed) => self.hand(scene, ahead, handing, handed, steps),
            None => self.open(scene, ahead, handing, callee, room, piece),
        }
    }

    /// Hands a parameter.
    fn hand<L: Ledger>(
        &mut self,
        scene: &Scene,
        ahead: Ahead,
        handing: Handing,
        handed: &Handed,
        steps: &mut Steps<L>,
    ) -> Result<Step, OutOfMemory>
        requires { Hands scene.now.program.now self.old ahead handing handed.now }
        ensures { Stepped scene.now.program.now (view_value scene.now.input.now) self.old self.new steps.old steps.new
            result }
    {
        match &handed.by {
            HandedBy::Plain(expr) => self.hand_value(scene, ahead, handing, handed, expr, steps),
            HandedBy::Block(kind, block) => {
                self.hand_block(scene, ahead, handing, handed, *kind, *block)
            }
            HandedBy::Same => self.hand_same(scene, ahead, handing, handed),
        }
    }

    /// Hands the value of an expression.
    fn hand_value<L: Ledger>(
        &mut self,
        scene: &Scene,
        ahead: Ahead,
        handing: Handing,
        handed: &Handed,
        expr: &Expr,
        steps: &mut Steps<L>,
    ) -> Result<Step, OutOfMemory>
        requires hands { Hands scene.now.program.now self.old ahead handing handed.now }
        requires by { handed.now.by ≡ by.Plain expr.now }
        ensures { Stepped scene.now.program.now (view_value scene.now.input.now) self.old self.new steps.old steps.new
            result }
    {
        let found = match value_of(self.point(scene, ahead.env), expr, steps) {
            Ok(found) => found,
            Err(_) => return Err(OutOfMemory),
        };
        match self.hand_held(scene, ahead, handing, held(found)) {
            Ok(()) => Ok(Step::Silent),
            Err(_) => Err(OutOfMemory),
        }
    }

    /// Hands what the same name means to the caller.
    fn hand_same(
        &mut self,
        scene: &Scene,
        ahead: Ahead,
        handing: Handing,
        handed: &Handed,
    ) -> Result<Step, OutOfMemory>
        requires hands { Hands scene.now.program.now self.old ahead handing handed.now }
        requires by { handed.now.by ≡ by.Same }
        ensures { (n : ℕ) → Stepped scene.now.program.now (view_value scene.now.input.now) self.old self.new n n
            result }
    {
        let found = match variable(self.point(scene, ahead.env), &handed.name) {
            Ok(found) => found,
            Err(_) => return Err(OutOfMemory),
        };
        match self.hand_held(scene, ahead, handing, held(found)) {
            Ok(()) => Ok(Step::Silent),
            Err(_) => Err(OutOfMemory),
        }
    }

    /// Hands a block, or goes into one whose text is handed.
    fn hand_block(
        &mut self,
        scene: &Scene,
        ahead: Ahead,
        handing: Handing,
        handed: &Handed,
        kind: Kind,
        block: Block,
    ) -> Result<Step, OutOfMemory>
        requires hands { Hands scene.now.program.now self.old ahead handing handed.now }
        requires by { handed.now.by ≡ by.Block kind block }
        ensures { (n : ℕ) → Stepped scene.now.program.now (view_value scene.now.input.now) self.old self.new n n
            result }
    {
        match kind {
            Kind::Text => self.hand_text(scene, ahead, handing, handed, block),
            Kind::Html => self.hand_kept(scene, ahead, handing, handed, kind, block),
            Kind::Attributes => self.hand_kept(scene, ahead, handing, handed, kind, block),
        }
    }

    /// Goes into a block whose text is handed.
    fn hand_text(
        &mut self,
        scene: &Scene,
        ahead: Ahead,
        handing: Handing,
        handed: &Handed,
        block: Block,
    ) -> Result<Step, OutOfMemory>
        requires hands { Hands scene.now.program.now self.old ahead handing handed.now }
        requires by { handed.now.by ≡ by.Block kind.Text block }
        ensures { (n : ℕ) → Stepped scene.now.program.now (view_value scene.now.input.now) self.old self.new n n
            result }
    {
        match self.gather_block(scene, ahead, Purpose::Hand(handing), block) {
            Ok(()) => Ok(Step::Silent),
            Err(_) => Err(OutOfMemory),
        }
    }

    /// Hands a block that isn't of kind text.
    fn hand_kept(
        &mut self,
        scene: &Scene,
        ahead: Ahead,
        handing: Handing,
        handed: &Handed,
        kind: Kind,
        block: Block,
    ) -> Result<Step, OutOfMemory>
        requires hands { Hands scene.now.program.now self.old ahead handing handed.now }
        requires by { handed.now.by ≡ by.Block kind block }
        requires kind { IsBlockKind kind }
        ensures { (n : ℕ) → Stepped scene.now.program.now (view_value scene.now.input.now) self.old self.new n n
            result }
    {
        match self.hand_held(scene, ahead, handing, Held::Block(kept(ahead, kind, block))) {
            Ok(()) => Ok(Step::Silent),
            Err(_) => Err(OutOfMemory),
        }
    }

    /// Binds a parameter of the callee, and goes on to the next.
    fn hand_held(
        &mut self,
        scene: &Scene,
        ahead: Ahead,
        handing: Handing,
        to: Held,
    ) -> Result<(), OutOfMemory>
        ensures top { OnOk result (self.new.top
            ≡ frame.Call ahead (handed_past handing (length self.old.bound))) }
        ensures below { OnOk result (self.new.below ≡ self.old.below) }
        ensures texts { OnOk result (self.new.texts ≡ self.old.texts) }
        ensures bound { OnOk result (Adds scene.now.program.now (handed_bound ahead handing to) self.old.bound
            self.new.bound) }
        ensures stays { OnErr result (IsSame self.old self.new) }
    {
        let mark = self.mark();
        let name = Naming::Handed(ahead.at, handing.next);
        match handed_on(handing, mark) {
            Some(next) => match self.bound.bind(scene, name, to, handing.inner) {
                Ok(_) => {
                    self.top = Frame::Call(ahead, next);
                    Ok(())
                }
                Err(_) => Err(OutOfMemory),
            },
            None => {
                drop(to);
                Err(OutOfMemory)
            }
        }
    }

    /// Opens a call whose parameters are handed.
    fn open(
        &mut self,
        scene: &Scene,
        ahead: Ahead,
        handing: Handing,
        callee: &Callee,
        room: &mut [u8],
        piece: &mut Option<Begun>,
    ) -> Result<Step, OutOfMemory>
        requires opens { Opens scene.now.program.now self.old ahead handing callee.now }
        requires none { piece.old ≡ None }
        ensures stepped { (n : ℕ) → SteppedInto scene.now.program.now (view_value scene.now.input.now) self.old self.new
            n n (output room.old room.new piece.new) result }
        ensures spares { Spares (output room.old room.new piece.new) result }
    {
        match scene.program.template(callee.template) {
            Some(routine) => self.open_there(scene, ahead, handing, callee, routine),
            None => self.open_none(scene, ahead, handing, callee, room, piece),
        }
    }

    /// A call of a template that there isn't prints null.
    fn open_none(
        &mut self,
        scene: &Scene,
        ahead: Ahead,
        handing: Handing,
        callee: &Callee,
        room: &mut [u8],
        piece: &mut Option<Begun>,
    ) -> Result<Step, OutOfMemory>
        requires opens { Opens scene.now.program.now self.old ahead handing callee.now }
        requires lacks { slice_get scene.now.program.now.templates callee.now.template ≡ None }
        requires none { piece.old ≡ None }
        ensures stepped { (n : ℕ) → SteppedInto scene.now.program.now (view_value scene.now.input.now) self.old self.new
            n n (output room.old room.new piece.new) result }
        ensures spares { Spares (output room.old room.new piece.new) result }
    {
        self.give_null(scene, ahead, callee.place, room, piece)
    }

    /// Gives null, and goes past the op.
    fn give_null(
        &mut self,
        scene: &Scene,
        ahead: Ahead,
        place: Place,
        room: &mut [u8],
        piece: &mut Option<Begun>,
    ) -> Result<Step, OutOfMemory>
        requires low { ahead.at < ahead.end }
        requires none { piece.old ≡ None }
        ensures gave { GaveForm scene.now.program.now (view_value scene.now.input.now) self.old self.new
            (frame.Ops (past ahead)) (value_at scene.now.program.now.dir place NullValue)
            (output room.old room.new piece.new) result }
        ensures spares { Spares (output room.old room.new piece.new) result }
    {
        let (text, class) = match text_of(scene.alloc, Shallow::Null) {
            Ok(shown) => shown,
            Err(_) => return Err(OutOfMemory),
        };
        self.give_value(
            scene,
            Frame::Ops(past(ahead)),
            place,
            Print::Made(text),
            class,
            room,
            piece,
        )
    }

    /// Opens a call of a template that there is.
    fn open_there(
        &mut self,
        scene: &Scene,
        ahead: Ahead,
        handing: Handing,
        callee: &Callee,
        routine: &Routine,
    ) -> Result<Step, OutOfMemory>
        requires opens { Opens scene.now.program.now self.old ahead handing callee.now }
        requires routine { slice_get scene.now.program.now.templates callee.now.template ≡ Some routine.now }
        ensures { (n : ℕ) → Stepped scene.now.program.now (view_value scene.now.input.now) self.old self.new n n
            result }
    {
        if ahead.left == 0 {
            return Ok(Step::TooDeep(TooDeep {
                file: callee.file,
                at: callee.at,
            }));
        }
        match routine.kind {
            Kind::Text => self.open_text(scene, ahead, handing, callee, routine),
            Kind::Html => self.open_block(scene, ahead, handing, callee, routine),
            Kind::Attributes => self.open_block(scene, ahead, handing, callee, routine),
        }
    }

    /// Opens a call of kind text, whose text is printed.
    fn open_text(
        &mut self,
        scene: &Scene,
        ahead: Ahead,
        handing: Handing,
        callee: &Callee,
        routine: &Routine,
    ) -> Result<Step, OutOfMemory>
        requires opens { OpensRoutine scene.now.program.now self.old ahead handing callee.now routine.now }
        requires kind { routine.now.kind ≡ kind.Text }
        ensures { (n : ℕ) → Stepped scene.now.program.now (view_value scene.now.input.now) self.old self.new n n
            result }
    {
        let child = Frame::Ops(called_child(ahead, handing, routine.body));
        match self.gather(scene, Frame::Gather(ahead, Purpose::Show), child) {
            Ok(()) => Ok(Step::Silent),
            Err(_) => Err(OutOfMemory),
        }
    }

    /// Opens a call of another kind.
    fn open_block(
        &mut self,
        scene: &Scene,
        ahead: Ahead,
        handing: Handing,
        callee: &Callee,
        routine: &Routine,
    ) -> Result<Step, OutOfMemory>
        requires opens { OpensRoutine scene.now.program.now self.old ahead handing callee.now routine.now }
        requires kind { IsBlockKind routine.now.kind }
        ensures { (n : ℕ) → Stepped scene.now.program.now (view_value scene.now.input.now) self.old self.new n n
            result }
    {
        let child = Frame::Ops(called_child(ahead, handing, routine.body));
        let next = Frame::Ops(past(ahead));
        match self.enter(next, child) {
            Ok(()) => Ok(Step::Silent),
            Err(_) => Err(OutOfMemory),
        }
    }
}

/// The body of a callee, with the variables that were handed to it.
fn called_child(ahead: Ahead, handing: Handing, body: Block) -> Ahead
    requires { 0 < ahead.left }
    ensures { result ≡ called_child ahead handing body }
{
    Ahead {
        at: body.first,
        end: body.end,
        env: handing.inner,
        left: ahead.left - 1,
        number: 0,
        mark: handing.mark,
    }
}

/// What a call hands by its number.
fn handed_at(callee: &Callee, number: usize) -> Option<&Handed>
    ensures { option_map (λ h. h.now) result ≡ slice_get callee.now.given number }
{
    callee.given.items().get(number)
}
