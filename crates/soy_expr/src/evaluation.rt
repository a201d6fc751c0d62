//! The value of an expression.

ghost use Rattle.std.specs.Prelude.{◌≡◌};
ghost use Rattle.soy_rules.specs.Cost.{cost};
ghost use Rattle.soy_rules.specs.Val.{Known, member_value, operand, val};
ghost use Rattle.soy_tree.specs.ViewExpressions.{view_expr};
ghost use Rattle.soy_expr.specs.Evaluates.{AnswersAtCost, Evaluates, EvaluatesRight, is_settled};
ghost use Rattle.soy_expr.specs.ViewEvaluated.{view_evaluated};

use crate::access::{item, member};
use crate::operators::{combined, negated};
use crate::{Evaluated, Made, Variables};
use soy_base::{OutOfMemory, Steps, Text};
use soy_tree::{BinaryOp, Expr, ExprNode};
use std::alloc::Global;
use std::sync::ledger::Ledger;

/// The value of an expression, with the path to the part that a reference names. Each node that is valued is a step.
///
/// Variables, their fields and numbers, which most expressions are, don't pay for the frame of all the others.
#[cycle(evaluating)]
pub fn evaluate<'a, V: Variables, L: Ledger>(
    alloc: Global,
    expr: &Expr,
    variables: &'a V,
    steps: &mut Steps<L>,
) -> Result<Evaluated<'a, V::Path>, OutOfMemory>
    ensures { Evaluates (V.Names variables.now) (V.env variables.now) (view_expr expr.now) steps.old steps.new result }
{
    match expr.node.get() {
        ExprNode::Int(number) => {
            steps.count();
            Ok(Evaluated::Made(Made::Int(*number)))
        }
        ExprNode::Var(name) => {
            steps.count();
            variables.find(name)
        }
        ExprNode::Member(of, name, _) => {
            steps.count();
            evaluate_member(alloc, of, name, variables, steps)
        }
        _ => evaluate_any(alloc, expr, variables, steps),
    }
}

/// The value of a field, but for the step of its own node.
#[cycle(evaluating)]
#[inline(never)]
fn evaluate_member<'a, V: Variables, L: Ledger>(
    alloc: Global,
    of: &Expr,
    name: &Text,
    variables: &'a V,
    steps: &mut Steps<L>,
) -> Result<Evaluated<'a, V::Path>, OutOfMemory>
    ensures { AnswersAtCost (V.Names variables.now)
        (Known (member_value name.now (operand (val (view_expr of.now) (V.env variables.now)))))
        (cost (view_expr of.now) (V.env variables.now)) steps.old steps.new result }
{
    let of = evaluate(alloc, of, variables, steps)?;
    member(variables, of, name)
}

/// The value of any expression.
#[cycle(evaluating)]
#[inline(never)]
fn evaluate_any<'a, V: Variables, L: Ledger>(
    alloc: Global,
    expr: &Expr,
    variables: &'a V,
    steps: &mut Steps<L>,
) -> Result<Evaluated<'a, V::Path>, OutOfMemory>
    ensures { Evaluates (V.Names variables.now) (V.env variables.now) (view_expr expr.now) steps.old steps.new result }
{
    steps.count();
    match expr.node.get() {
        ExprNode::Null => Ok(Evaluated::Made(Made::Null)),
        ExprNode::Bool(is) => Ok(Evaluated::Made(Made::Bool(*is))),
        ExprNode::Int(number) => Ok(Evaluated::Made(Made::Int(*number))),
        ExprNode::Str(text) => Ok(Evaluated::Made(Made::Str(text.copy(alloc)?))),
        ExprNode::Var(name) => variables.find(name),
        ExprNode::Member(of, name, _) => { evaluate_member(alloc, of, name, variables, steps) }
        ExprNode::Index(of, index, _) => {
            let of = evaluate(alloc, of, variables, steps)?;
            let index = evaluate(alloc, index, variables, steps)?;
            item(variables, of, index.shallow())
        }
        ExprNode::Neg(of) => {
            let of = evaluate(alloc, of, variables, steps)?;
            Ok(Evaluated::Made(negated(of.shallow())))
        }
        ExprNode::Not(of) => {
            let of = evaluate(alloc, of, variables, steps)?;
            Ok(Evaluated::Made(Made::Bool(!of.is_truthy())))
        }
        ExprNode::Binary(op, left, right) => {
            let left = evaluate(alloc, left, variables, steps)?;
            evaluate_right(alloc, *op, left, right, variables, steps)
        }
        ExprNode::Coalesce(left, right) => {
            let left = evaluate(alloc, left, variables, steps)?;
            if left.is_null() {
                evaluate(alloc, right, variables, steps)
            } else {
                Ok(left)
            }
        }
        ExprNode::Cond(when, left, right) => {
            let when = evaluate(alloc, when, variables, steps)?;
            if when.is_truthy() {
                evaluate(alloc, left, variables, steps)
            } else {
                evaluate(alloc, right, variables, steps)
            }
        }
    }
}

/// The value of an operator by that of its left operand; `and` and `or` value the right one only where it is needed.
#[cycle(evaluating)]
#[tactic(auto, using(crate::proofs::Shallows::unsettled_cost))]
fn evaluate_right<'a, V: Variables, L: Ledger>(
    alloc: Global,
    op: BinaryOp,
    left: Evaluated<'a, V::Path>,
    right: &Expr,
    variables: &'a V,
    steps: &mut Steps<L>,
) -> Result<Evaluated<'a, V::Path>, OutOfMemory>
    ensures { EvaluatesRight (V.Names variables.now) (V.env variables.now) op (view_evaluated left.entry)
        (view_expr right.now) steps.old steps.new result }
{
    if is_settled(op, left.is_truthy()) {
        return Ok(Evaluated::Made(Made::Bool(left.is_truthy())));
    }
    let right = evaluate(alloc, right, variables, steps)?;
    Ok(Evaluated::Made(combined(alloc, op, &left, &right)?))
}

/// Whether the truth of the left operand settles that of the operator.
fn is_settled(op: BinaryOp, left: bool) -> bool
    ensures { result ≡ is_settled op left }
{
    match op {
        BinaryOp::And => !left,
        BinaryOp::Or => left,
        _ => false,
    }
}
