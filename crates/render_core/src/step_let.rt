//! Lets, and texts that are gathered.

ghost use Rattle.std.specs.Prelude.{◌≡◌, ◌<◌, ◌∷◌, ℕ, [], IfSome, OnOk, OnErr, Some, length, pos, slice_get};
ghost use Rattle.soy_base.specs.declared.kind.Kind.TheVariants as kind;
ghost use Rattle.soy_tree.specs.ViewValues.{view_value};
ghost use Rattle.template_ir.specs.declared.op.Op.TheVariants as op;
ghost use Rattle.render_core.specs.Frames.{MachineFits, child_at};
ghost use Rattle.render_core.specs.Linked.{Adds};
ghost use Rattle.render_core.specs.Stepping.{Binds, IsBlockKind, IsSame, Stepped, handed_past, kept_of, text_next};
ghost use Rattle.render_core.specs.Stepping.{text_var};
ghost use Rattle.render_core.specs.Texts.{past_innermost};
ghost use Rattle.render_core.specs.declared.frame.Frame.TheVariants as frame;
ghost use Rattle.render_core.specs.declared.held.Naming.TheVariants as naming;

use crate::binding::held;
use crate::frame::{Ahead, Frame, Handing, Purpose};
use crate::held::{Held, Kept, Naming};
use crate::scene::Scene;
use crate::stack::{Machine, Step, child_ahead, past_with};
use crate::valuing::value_of;
use soy_base::{Kind, OutOfMemory, Steps, Text};
use soy_expr::Made;
use soy_tree::Expr;
use std::sync::ledger::Ledger;
use template_ir::Block;

impl Machine {
    /// A let.
    #[inline(never)]
    pub(crate) fn step_let<L: Ledger>(
        &mut self,
        scene: &Scene,
        ahead: Ahead,
        expr: &Expr,
        steps: &mut Steps<L>,
        name: &Text,
    ) -> Result<Step, OutOfMemory>
        requires top { self.old.top ≡ frame.Ops ahead }
        requires fits { MachineFits self.old }
        requires op { slice_get scene.now.program.now.ops ahead.at ≡ Some (op.Let name.now expr.now) }
        requires low { ahead.at < ahead.end }
        ensures { Stepped scene.now.program.now (view_value scene.now.input.now) self.old self.new steps.old steps.new
            result }
    {
        let found = match value_of(self.point(scene, ahead.env), expr, steps) {
            Ok(found) => found,
            Err(_) => return Err(OutOfMemory),
        };
        match self.bind_here(scene, ahead, held(found)) {
            Ok(()) => Ok(Step::Silent),
            Err(_) => Err(OutOfMemory),
        }
    }

    /// A let of a block that isn't of kind text.
    #[inline(never)]
    pub(crate) fn step_let_block(
        &mut self,
        scene: &Scene,
        ahead: Ahead,
        kind: Kind,
        block: Block,
        name: &Text,
    ) -> Result<Step, OutOfMemory>
        requires top { self.old.top ≡ frame.Ops ahead }
        requires fits { MachineFits self.old }
        requires op { slice_get scene.now.program.now.ops ahead.at ≡ Some (op.LetBlock name.now kind block) }
        requires low { ahead.at < ahead.end }
        requires kind { IsBlockKind kind }
        ensures { (n : ℕ) → Stepped scene.now.program.now (view_value scene.now.input.now) self.old self.new n n
            result }
    {
        match self.bind_here(scene, ahead, Held::Block(kept(ahead, kind, block))) {
            Ok(()) => Ok(Step::Silent),
            Err(_) => Err(OutOfMemory),
        }
    }

    /// Binds the variable of the op, and goes past it.
    #[tactic(auto, using(crate::proofs::Gives::bind_does))]
    fn bind_here(&mut self, scene: &Scene, ahead: Ahead, to: Held) -> Result<(), OutOfMemory>
        requires top { self.old.top ≡ frame.Ops ahead }
        requires fits { MachineFits self.old }
        requires low { ahead.at < ahead.end }
        ensures binds { OnOk result (Binds scene.now.program.now (view_value scene.now.input.now) self.old self.new ahead
            (naming.Op ahead.at) to) }
        ensures stays { OnErr result (IsSame self.old self.new) }
    {
        match self.bound.bind(scene, Naming::Op(ahead.at), to, ahead.env) {
            Ok(env) => {
                self.top = Frame::Ops(past_with(ahead, env));
                Ok(())
            }
            Err(_) => Err(OutOfMemory),
        }
    }

    /// A let of a block of kind text.
    #[inline(never)]
    pub(crate) fn step_let_text(
        &mut self,
        scene: &Scene,
        ahead: Ahead,
        block: Block,
        name: &Text,
    ) -> Result<Step, OutOfMemory>
        requires top { self.old.top ≡ frame.Ops ahead }
        requires fits { MachineFits self.old }
        requires op { slice_get scene.now.program.now.ops ahead.at ≡ Some (op.LetBlock name.now kind.Text block) }
        requires low { ahead.at < ahead.end }
        ensures { (n : ℕ) → Stepped scene.now.program.now (view_value scene.now.input.now) self.old self.new n n
            result }
    {
        match self.gather_block(scene, ahead, Purpose::Bind, block) {
            Ok(()) => Ok(Step::Silent),
            Err(_) => Err(OutOfMemory),
        }
    }

    /// Goes into a block that the op names, whose text is gathered.
    pub(crate) fn gather_block(
        &mut self,
        scene: &Scene,
        ahead: Ahead,
        purpose: Purpose,
        block: Block,
    ) -> Result<(), OutOfMemory>
        ensures top { OnOk result (self.new.top
            ≡ frame.Ops (child_at ahead block (pos 0) (length self.old.bound))) }
        ensures below { OnOk result (self.new.below ≡ frame.Gather ahead purpose ∷ self.old.below) }
        ensures texts { OnOk result (self.new.texts ≡ [] ∷ self.old.texts) }
        ensures bound { OnOk result (self.new.bound ≡ self.old.bound) }
        ensures stays { OnErr result (IsSame self.old self.new) }
    {
        let child = child_ahead(ahead, block, 0, self.mark());
        self.gather(scene, Frame::Gather(ahead, purpose), Frame::Ops(child))
    }

    /// The end of a text that was gathered: it is bound, and what it is for comes next.
    #[inline(never)]
    pub(crate) fn step_gathered(
        &mut self,
        scene: &Scene,
        ahead: Ahead,
        purpose: Purpose,
    ) -> Result<Step, OutOfMemory>
        requires top { self.old.top ≡ frame.Gather ahead purpose }
        requires fits { MachineFits self.old }
        ensures { (n : ℕ) → Stepped scene.now.program.now (view_value scene.now.input.now) self.old self.new n n
            result }
    {
        let text = match self.texts.copy_top(scene.alloc) {
            Ok(text) => text,
            Err(_) => return Err(OutOfMemory),
        };
        match self.end_text(scene, ahead, purpose, text) {
            Ok(()) => Ok(Step::Silent),
            Err(_) => Err(OutOfMemory),
        }
    }

    /// Binds a text that was gathered, and goes on with what it is for.
    fn end_text(
        &mut self,
        scene: &Scene,
        ahead: Ahead,
        purpose: Purpose,
        text: Text,
    ) -> Result<(), OutOfMemory>
        requires { ahead.at < ahead.end }
        ensures top { OnOk result (self.new.top ≡ text_next ahead purpose (length self.old.bound)) }
        ensures below { OnOk result (self.new.below ≡ self.old.below) }
        ensures texts { OnOk result (self.new.texts ≡ past_innermost self.old.texts) }
        ensures bound { OnOk result (Adds scene.now.program.now (text_var ahead purpose text) self.old.bound self.new.bound) }
        ensures stays { OnErr result (IsSame self.old self.new) }
    {
        let mark = self.mark();
        let text = Held::Made(Made::Str(text));
        match purpose {
            Purpose::Bind => match self
                .bound
                .bind(scene, Naming::Op(ahead.at), text, ahead.env)
            {
                Ok(env) => {
                    self.top = Frame::Ops(past_with(ahead, env));
                    self.texts.end();
                    Ok(())
                }
                Err(_) => Err(OutOfMemory),
            },
            Purpose::Show => match self.bound.bind(scene, Naming::Hidden, text, 0) {
                Ok(_) => {
                    self.top = Frame::Show(ahead, mark);
                    self.texts.end();
                    Ok(())
                }
                Err(_) => Err(OutOfMemory),
            },
            Purpose::Hand(handing) => {
                let name = Naming::Handed(ahead.at, handing.next);
                match handed_on(handing, mark) {
                    Some(next) => match self.bound.bind(scene, name, text, handing.inner) {
                        Ok(_) => {
                            self.top = Frame::Call(ahead, next);
                            self.texts.end();
                            Ok(())
                        }
                        Err(_) => Err(OutOfMemory),
                    },
                    None => {
                        drop(text);
                        Err(OutOfMemory)
                    }
                }
            }
        }
    }
}

/// A block that the op names, as what a variable is bound to.
pub(crate) fn kept(ahead: Ahead, kind: Kind, block: Block) -> Kept
    ensures { result ≡ kept_of ahead kind block }
{
    Kept {
        kind,
        block: Block {
            first: block.first,
            end: block.end.min(ahead.at),
        },
        env: ahead.env,
        left: ahead.left,
    }
}

/// How far a call has handed its parameters past one more, over so many variables; none where no usize counts them.
pub(crate) fn handed_on(handing: Handing, mark: usize) -> Option<Handing>
    ensures { IfSome result (λ h. h ≡ handed_past handing mark) }
{
    let next = handing.next.checked_add(1)?;
    let inner = mark.checked_add(1)?;
    Some(Handing {
        next,
        inner,
        ..handing
    })
}
