//! The values of expressions, blocks included.

ghost use Rattle.std.specs.Prelude.{◌≡◌, IfOk, length};
ghost use Rattle.soy_rules.specs.Cost.{cost};
ghost use Rattle.soy_rules.specs.Val.{binding, is_null, val};
ghost use Rattle.soy_tree.specs.Expressions.{Coalesce, Conditional};
ghost use Rattle.soy_tree.specs.ViewExpressions.{view_expr};
ghost use Rattle.soy_tree.specs.Values.{ListValue};
ghost use Rattle.soy_tree.specs.ViewValues.{view_items, view_value};
ghost use Rattle.render_core.specs.Finds.{Finds, FoundWithin, HasItem, IsPlain, binding_at, found_means};
ghost use Rattle.render_core.specs.Finds.{lowered_to};
ghost use Rattle.render_core.specs.Seen.{cells_seen, env_seen, input_seen, program_seen};
ghost use Rattle.render_core.specs.Variables.{cell_at, cells_of, env_at};

use crate::held::{Held, Kept, Path};
use crate::parts::{
    Point, copied, copied_path, item_at, part_at, part_of, place_of, root_of, variable_at, whole,
};
use crate::truth::is_truthy;
use soy_base::{OutOfMemory, Steps, Text};
use soy_expr::{Evaluated, Made, evaluate};
use soy_tree::{Expr, ExprNode, Value};
use std::sync::ledger::Ledger;

/// What an expression is valued to.
#[derive(Drop)]
pub(crate) enum Found {
    Made(Made),
    Part(Path),
    Block(Kept),
}

/// The value of an expression, or which block it is. Each node that is valued is a step.
#[cycle(valuing)]
pub(crate) fn value_of<L: Ledger>(
    point: Point,
    expr: &Expr,
    steps: &mut Steps<L>,
) -> Result<Found, OutOfMemory>
    ensures { Finds (program_seen point.entry)
        (cells_seen point.entry)
        (length point.entry.bound.now) (val (view_expr expr.now) (env_seen point.entry))
        (cost (view_expr expr.now) (env_seen point.entry))
        steps.old steps.new result }
{
    match expr.node.get() {
        ExprNode::Var(name) => {
            steps.count();
            variable(point, name)
        }
        ExprNode::Coalesce(left, right) => value_or(point, left, right, steps),
        ExprNode::Cond(when, left, right) => { chosen_value(point, when, left, right, steps) }
        ExprNode::Null => plain_value(point, expr, steps),
        ExprNode::Bool(_) => plain_value(point, expr, steps),
        ExprNode::Int(_) => plain_value(point, expr, steps),
        ExprNode::Str(_) => plain_value(point, expr, steps),
        ExprNode::Member(_, _, _) => plain_value(point, expr, steps),
        ExprNode::Index(_, _, _) => plain_value(point, expr, steps),
        ExprNode::Neg(_) => plain_value(point, expr, steps),
        ExprNode::Not(_) => plain_value(point, expr, steps),
        ExprNode::Binary(_, _, _) => plain_value(point, expr, steps),
    }
}

/// The value of an expression, or that of another where it is null.
#[cycle(valuing)]
#[inline(never)]
fn value_or<L: Ledger>(
    point: Point,
    left: &Expr,
    right: &Expr,
    steps: &mut Steps<L>,
) -> Result<Found, OutOfMemory>
    ensures { Finds (program_seen point.entry)
        (cells_seen point.entry) (length point.entry.bound.now)
        (val (Coalesce (view_expr left.now) (view_expr right.now) left.now.span) (env_seen point.entry))
        (cost (Coalesce (view_expr left.now) (view_expr right.now) left.now.span) (env_seen point.entry))
        steps.old steps.new result }
{
    steps.count();
    let first = value_of(point, left, steps)?;
    if is_null(point, &first) {
        drop(first);
        value_of(point, right, steps)
    } else {
        Ok(first)
    }
}

/// The value of an expression where a condition is truthy, and else that of another.
#[cycle(valuing)]
#[inline(never)]
fn chosen_value<L: Ledger>(
    point: Point,
    when: &Expr,
    left: &Expr,
    right: &Expr,
    steps: &mut Steps<L>,
) -> Result<Found, OutOfMemory>
    ensures { Finds (program_seen point.entry)
        (cells_seen point.entry) (length point.entry.bound.now)
        (val (Conditional (view_expr when.now) (view_expr left.now) (view_expr right.now) when.now.span)
        (env_seen point.entry))
        (cost (Conditional (view_expr when.now) (view_expr left.now) (view_expr right.now) when.now.span)
        (env_seen point.entry))
        steps.old steps.new result }
{
    steps.count();
    if is_truthy(point, when, steps)? {
        value_of(point, left, steps)
    } else {
        value_of(point, right, steps)
    }
}

/// The value of an expression that is no block.
#[inline(never)]
#[tactic(auto, using(crate::proofs::Finds::plain_value, crate::proofs::Finds::plain_block, crate::proofs::Finds::same_cost))]
fn plain_value<L: Ledger>(
    point: Point,
    expr: &Expr,
    steps: &mut Steps<L>,
) -> Result<Found, OutOfMemory>
    requires { IsPlain (view_expr expr.now) }
    ensures { Finds (program_seen point.entry)
        (cells_seen point.entry)
        (length point.entry.bound.now) (val (view_expr expr.now) (env_seen point.entry))
        (cost (view_expr expr.now) (env_seen point.entry))
        steps.old steps.new result }
{
    match evaluate(point.scene.alloc, expr, &point, steps) {
        Ok(Evaluated::Made(made)) => Ok(Found::Made(made)),
        Ok(Evaluated::Part(_, path)) => Ok(Found::Part(path)),
        Ok(Evaluated::Block) => Ok(Found::Made(Made::Null)),
        Err(_) => Err(OutOfMemory),
    }
}

/// What the first variable of a name is bound to, or null.
pub(crate) fn variable(point: Point, name: &Text) -> Result<Found, OutOfMemory>
    ensures means { IfOk result (λ f. found_means (program_seen point.entry)
        (cells_seen point.entry) f
        ≡ binding name.now (env_seen point.entry)) }
    ensures within { IfOk result (λ f. FoundWithin (length point.entry.bound.now) f) }
{
    match place_of(point, name) {
        Some(at) => bound_at(point, at),
        None => Ok(Found::Made(Made::Null)),
    }
}

/// What the variable at a place is bound to. What is bound to it needn't be led through this variable, so that no
/// chain of variables grows that name one another.
#[tactic(auto, using(crate::proofs::Finds::found_root, crate::proofs::Finds::found_item, crate::proofs::Finds::found_child, crate::proofs::Finds::found_path, crate::proofs::Finds::found_followed))]
fn bound_at(point: Point, at: usize) -> Result<Found, OutOfMemory>
    ensures means { IfOk result (λ f. found_means (program_seen point.entry)
        (cells_seen point.entry) f
        ≡ binding_at (program_seen point.entry) (input_seen point.entry) point.entry.bound.now at) }
    ensures within { IfOk result (λ f. FoundWithin (length point.entry.bound.now) f) }
{
    match variable_at(point.bound, at) {
        Some(variable) => match &variable.to {
            Held::Made(made) => Ok(Found::Made(copied(point, made)?)),
            Held::Block(kept) => Ok(Found::Block(lowered(*kept, at))),
            Held::Root => Ok(Found::Part(whole(at))),
            Held::Item(of, number) => {
                if *of < at {
                    Ok(Found::Part(Path::Child(*of, *number)))
                } else {
                    Ok(Found::Part(whole(at)))
                }
            }
            Held::Part(path) => {
                if root_of(path) < at {
                    Ok(Found::Part(copied_path(point, path)?))
                } else {
                    Ok(Found::Part(whole(at)))
                }
            }
        },
        None => Ok(Found::Made(Made::Null)),
    }
}

/// A block of a variable at a place, which sees only the variables below it.
pub(crate) fn lowered(kept: Kept, at: usize) -> Kept
    ensures { result ≡ lowered_to at kept }
{
    if kept.env > at {
        Kept { env: 0, ..kept }
    } else {
        kept
    }
}

fn is_null(point: Point, found: &Found) -> bool
    ensures { result ≡ is_null (found_means (program_seen point.entry)
        (cells_seen point.entry) found.now) }
{
    match found {
        Found::Made(Made::Null) => true,
        Found::Part(path) => match part_of(point, path) {
            Some(Value::Null) => true,
            Some(_) => false,
            None => true,
        },
        Found::Made(_) => false,
        Found::Block(_) => false,
    }
}

/// Whether the list that the variable at a place is bound to has an item of a number.
#[tactic(auto, using(crate::proofs::Values::no_items_after))]
pub(crate) fn has_item(point: Point, list: usize, number: usize) -> bool
    ensures { HasItem number (cell_at (cells_seen point.entry) list).part result }
{
    match part_at(point, list) {
        Some(value) => has_nth(value, number),
        None => false,
    }
}

/// Whether a value is a list with an item of a number.
#[tactic(auto, using(crate::proofs::Values::no_items_after))]
fn has_nth(value: &Value, number: usize) -> bool
    ensures { HasItem number (view_value value.now) result }
{
    match value {
        Value::Null => false,
        Value::Bool(_) => false,
        Value::Int(_) => false,
        Value::Str(_) => false,
        Value::List(items) => has_nth_item(items.items(), number),
        Value::Map(_) => false,
        Value::Fields(_) => false,
    }
}

#[tactic(auto, using(crate::proofs::Values::has_some, crate::proofs::Values::has_none))]
fn has_nth_item(items: &[Value], number: usize) -> bool
    ensures { HasItem number (ListValue (view_items items.now)) result }
{
    match item_at(items, number) {
        Some(_) => true,
        None => false,
    }
}
