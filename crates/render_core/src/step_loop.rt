//! Loops.

ghost use Rattle.std.specs.Prelude.{◌≡◌, ◌<◌, ◌+◌, ℕ, [], ◌∷◌, IfOk, OnOk, OnErr, Some, length, option_map};
ghost use Rattle.std.specs.Prelude.{slice_get, take};
ghost use Rattle.soy_tree.specs.ViewValues.{view_value};
ghost use Rattle.render_core.specs.Frames.{MachineFits, past};
ghost use Rattle.render_core.specs.Linked.{Adds};
ghost use Rattle.render_core.specs.Rounds.{AddsTurn, IsLoopOver, LoopAt, first_round, index_bound, list_bound};
ghost use Rattle.render_core.specs.Rounds.{turn_child, turn_env, turned};
ghost use Rattle.render_core.specs.Stepping.{IsSame, Stepped};
ghost use Rattle.render_core.specs.declared.frame.Frame.TheVariants as frame;

use crate::binding::held;
use crate::frame::{Ahead, Frame, Round};
use crate::held::{Held, Naming};
use crate::scene::Scene;
use crate::stack::{Machine, Step, past};
use crate::valuing::{Found, has_item, value_of};
use crate::variable_stack::VariableStack;
use soy_base::{Boxed, OutOfMemory, Steps, Text};
use soy_expr::Made;
use soy_tree::Expr;
use std::sync::ledger::Ledger;
use template_ir::{Block, Op, ProgramParts};

impl Machine {
    /// A loop: its list is bound, and its turns come next.
    #[inline(never)]
    pub(crate) fn step_for<L: Ledger>(
        &mut self,
        scene: &Scene,
        ahead: Ahead,
        list: &Expr,
        steps: &mut Steps<L>,
        op: &Op,
    ) -> Result<Step, OutOfMemory>
        requires top { self.old.top ≡ frame.Ops ahead }
        requires fits { MachineFits self.old }
        requires op { slice_get scene.now.program.now.ops ahead.at ≡ Some op.now }
        requires list { IsLoopOver list.now op.now }
        requires low { ahead.at < ahead.end }
        ensures { Stepped scene.now.program.now (view_value scene.now.input.now) self.old self.new steps.old steps.new
            result }
    {
        let found = match value_of(self.point(scene, ahead.env), list, steps) {
            Ok(found) => found,
            Err(_) => return Err(OutOfMemory),
        };
        match self.begin_loop(scene, ahead, found) {
            Ok(()) => Ok(Step::Silent),
            Err(_) => Err(OutOfMemory),
        }
    }

    /// Binds the list of a loop, and goes to its turns.
    #[tactic(auto, using(crate::proofs::Adds::adds_whole))]
    fn begin_loop(&mut self, scene: &Scene, ahead: Ahead, found: Found) -> Result<(), OutOfMemory>
        requires { ahead.at < ahead.end }
        ensures top { OnOk result (self.new.top ≡ frame.Turns (first_round ahead (length self.old.bound))) }
        ensures below { OnOk result (self.new.below ≡ frame.Ops (past ahead) ∷ self.old.below) }
        ensures texts { OnOk result (self.new.texts ≡ self.old.texts) }
        ensures bound { OnOk result (Adds scene.now.program.now (list_bound found) self.old.bound self.new.bound) }
        ensures stays { OnErr result (IsSame self.old self.new) }
    {
        let mark = self.mark();
        match self.bound.bind(scene, Naming::Hidden, held(found), 0) {
            Ok(_) => {
                let round = Round {
                    op: ahead.at,
                    list: mark,
                    next: 0,
                    env: ahead.env,
                    left: ahead.left,
                    mark,
                };
                match self.enter(Frame::Ops(past(ahead)), Frame::Turns(round)) {
                    Ok(()) => Ok(()),
                    Err(_) => {
                        self.bound.truncate(mark);
                        Err(OutOfMemory)
                    }
                }
            }
            Err(_) => Err(OutOfMemory),
        }
    }

    /// A turn of a loop, or its end.
    #[inline(never)]
    pub(crate) fn step_turn(&mut self, scene: &Scene, round: Round) -> Result<Step, OutOfMemory>
        requires top { self.old.top ≡ frame.Turns round }
        requires fits { MachineFits self.old }
        ensures { (n : ℕ) → Stepped scene.now.program.now (view_value scene.now.input.now) self.old self.new n n
            result }
    {
        if has_item(self.point(scene, round.env), round.list, round.next) {
            match loop_at(scene.program, round.op) {
                Some((index, body)) => match self.turn(scene, round, index.is_some(), *body) {
                    Ok(()) => Ok(Step::Silent),
                    Err(_) => Err(OutOfMemory),
                },
                None => Ok(self.leave(scene, round.mark)),
            }
        } else {
            Ok(self.leave(scene, round.mark))
        }
    }

    /// Goes into the body of a loop with its next item. A turn that no usize counts, as of no list, is taken for
    /// running out of memory.
    fn turn(
        &mut self,
        scene: &Scene,
        round: Round,
        has_index: bool,
        body: Block,
    ) -> Result<(), OutOfMemory>
        ensures top { OnOk result (self.new.top ≡ frame.Ops (turn_child round body
            (turn_env has_index (length self.old.bound)) (length self.old.bound))) }
        ensures below { OnOk result (self.new.below ≡ frame.Turns (turned round) ∷ self.old.below) }
        ensures texts { OnOk result (self.new.texts ≡ self.old.texts) }
        ensures bound { OnOk result (AddsTurn scene.now.program.now round has_index self.old.bound self.new.bound) }
        ensures stays { OnErr result (IsSame self.old self.new) }
    {
        let Some(next) = round.next.checked_add(1) else {
            return Err(OutOfMemory);
        };
        let mark = self.mark();
        match bind_turn(scene, &mut self.bound, round, has_index) {
            Ok(env) => {
                let child = turn_ahead(round, body, env, mark);
                let rest = Round { next, ..round };
                match self.enter(Frame::Turns(rest), Frame::Ops(child)) {
                    Ok(()) => Ok(()),
                    Err(_) => {
                        self.bound.truncate(mark);
                        Err(OutOfMemory)
                    }
                }
            }
            Err(_) => {
                self.bound.truncate(mark);
                Err(OutOfMemory)
            }
        }
    }
}

/// The body of a loop in a turn.
fn turn_ahead(round: Round, body: Block, env: usize, mark: usize) -> Ahead
    ensures { result ≡ turn_child round body env mark }
{
    Ahead {
        at: body.first,
        end: body.end.min(round.op),
        env,
        left: round.left,
        number: 0,
        mark,
    }
}

/// The loop at a place: the variable of its index, and its body.
fn loop_at(program: &ProgramParts, at: usize) -> Option<(&Option<Boxed<Text>>, &Block)>
    ensures { LoopAt (option_map (λ t. (t.0.now, t.1.now)) result) (slice_get program.now.ops at) }
{
    match program.op(at) {
        Some(op) => loop_of(op),
        None => None,
    }
}

/// The same of an op.
fn loop_of(op: &Op) -> Option<(&Option<Boxed<Text>>, &Block)>
    ensures { LoopAt (option_map (λ t. (t.0.now, t.1.now)) result) (Some op.now) }
{
    match op {
        Op::For(_, index, _, body) => Some((index, body)),
        Op::Static(_) => None,
        Op::Print(_, _) => None,
        Op::Number(_) => None,
        Op::If(_, _) => None,
        Op::Switch(_, _, _) => None,
        Op::Let(_, _) => None,
        Op::LetBlock(_, _, _) => None,
        Op::Call(_) => None,
        Op::Plural(_) => None,
        Op::Select(_) => None,
    }
}

/// Binds the variables of a turn; the number of the variables is given.
#[tactic(auto, using(crate::proofs::Adds::adds_whole, crate::proofs::Turns::turn_indexed, crate::proofs::Turns::turn_unindexed, crate::proofs::Turns::env_indexed, crate::proofs::Turns::env_unindexed))]
fn bind_turn(
    scene: &Scene,
    bound: &mut VariableStack,
    round: Round,
    has_index: bool,
) -> Result<usize, OutOfMemory>
    ensures bound { OnOk result (AddsTurn scene.now.program.now round has_index bound.old bound.new) }
    ensures env { IfOk result (λ n. n ≡ turn_env has_index (length bound.old)) }
    ensures old { OnErr result (take (length bound.old) bound.new ≡ bound.old) }
{
    let item = Held::Item(round.list, round.next);
    match bound.bind(scene, Naming::Op(round.op), item, round.env) {
        Ok(env) => {
            if has_index {
                bind_index(scene, bound, round, env)
            } else {
                Ok(env)
            }
        }
        Err(_) => Err(OutOfMemory),
    }
}

/// Binds the index of a turn. One that no i64 holds, as of no list, is taken for running out of memory.
fn bind_index(
    scene: &Scene,
    bound: &mut VariableStack,
    round: Round,
    env: usize,
) -> Result<usize, OutOfMemory>
    ensures bound { OnOk result (Adds scene.now.program.now (index_bound round env) bound.old bound.new) }
    ensures env { IfOk result (λ n. n ≡ length bound.old + 1) }
    ensures unchanged { OnErr result (bound.new ≡ bound.old) }
{
    let Ok(index) = i64::try_from(round.next) else {
        return Err(OutOfMemory);
    };
    let index = Held::Made(Made::Int(index));
    bound.bind(scene, Naming::Index(round.op), index, env)
}
