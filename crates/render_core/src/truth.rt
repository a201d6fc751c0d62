//! Whether a value is truthy.

ghost use Rattle.std.specs.Prelude.{◌≡◌};
ghost use Rattle.soy_rules.specs.Cost.{cost};
ghost use Rattle.soy_rules.specs.Val.{binding, is_truthy, member_value, operand, truth, val};
ghost use Rattle.soy_expr.specs.ViewEvaluated.{view_made};
ghost use Rattle.soy_tree.specs.ViewExpressions.{view_expr};
ghost use Rattle.soy_tree.specs.ViewValues.{view_value};
ghost use Rattle.render_core.specs.Finds.{Takes, binding_at, part_value};
ghost use Rattle.render_core.specs.Seen.{env_seen, input_seen, program_seen};

use crate::fields::field_of;
use crate::held::Held;
use crate::ints::is_truthy_comparison;
use crate::names::variable_of;
use crate::parts::{Point, child_of, part_at, place_of, variable_at};
use soy_base::{OutOfMemory, Steps, Text};
use soy_expr::{Made, evaluate};
use soy_tree::{Expr, ExprNode, Value};
use std::sync::ledger::Ledger;

/// Whether an expression is truthy. Each node that is valued is a step.
pub(crate) fn is_truthy<L: Ledger>(
    point: Point,
    expr: &Expr,
    steps: &mut Steps<L>,
) -> Result<bool, OutOfMemory>
    ensures { Takes (
      is_truthy (val (view_expr expr.now) (env_seen point.entry)),
      cost (view_expr expr.now) (env_seen point.entry),
    )
        steps.old steps.new result }
{
    match expr.node.get() {
        ExprNode::Var(name) => {
            steps.count();
            Ok(is_truthy_variable(point, name))
        }
        ExprNode::Member(of, field, _) => match variable_of(of) {
            Some(variable) => {
                steps.count();
                steps.count();
                Ok(is_truthy_field(point, variable, field))
            }
            None => is_truthy_value(point, expr, steps),
        },
        ExprNode::Binary(op, left, right) => {
            match is_truthy_comparison(point, *op, left, right, steps) {
                Some(is) => Ok(is),
                None => is_truthy_value(point, expr, steps),
            }
        }
        _ => is_truthy_value(point, expr, steps),
    }
}

/// Whether the value of any expression is truthy.
#[inline(never)]
#[tactic(auto, using(crate::proofs::Finds::same_truth, crate::proofs::Finds::same_cost))]
fn is_truthy_value<L: Ledger>(
    point: Point,
    expr: &Expr,
    steps: &mut Steps<L>,
) -> Result<bool, OutOfMemory>
    ensures { Takes (
      is_truthy (val (view_expr expr.now) (env_seen point.entry)),
      cost (view_expr expr.now) (env_seen point.entry),
    )
        steps.old steps.new result }
{
    match evaluate(point.scene.alloc, expr, &point, steps) {
        Ok(value) => {
            let is = value.is_truthy();
            drop(value);
            Ok(is)
        }
        Err(_) => Err(OutOfMemory),
    }
}

/// Whether a variable is truthy.
fn is_truthy_variable(point: Point, name: &Text) -> bool
    ensures { result ≡ is_truthy (binding name.now (env_seen point.entry)) }
{
    match place_of(point, name) {
        Some(at) => is_truthy_at(point, at),
        None => false,
    }
}

/// Whether what the variable at a place is bound to is truthy.
#[tactic(auto, using(crate::proofs::Finds::bound_root, crate::proofs::Finds::bound_item, crate::proofs::Finds::bound_path))]
fn is_truthy_at(point: Point, at: usize) -> bool
    ensures { result ≡ is_truthy
        (binding_at (program_seen point.entry) (input_seen point.entry) point.entry.bound.now at) }
{
    match variable_at(point.bound, at) {
        Some(variable) => match &variable.to {
            Held::Made(made) => is_truthy_made(made),
            Held::Block(_) => true,
            Held::Root => is_truthy_part(part_at(point, at)),
            Held::Item(_, _) => is_truthy_part(part_at(point, at)),
            Held::Part(_) => is_truthy_part(part_at(point, at)),
        },
        None => false,
    }
}

/// Whether a field of a variable is truthy.
#[tactic(auto, using(crate::proofs::Finds::field_there))]
fn is_truthy_field(point: Point, variable: &Text, field: &Text) -> bool
    ensures { result ≡ truth (member_value field.now (operand (binding variable.now (env_seen point.entry)))) }
{
    let Some(at) = place_of(point, variable) else {
        return false;
    };
    let whole = part_at(point, at);
    match field_of(whole, field) {
        Some(number) => is_truthy_part(child_of(whole, number)),
        None => false,
    }
}

/// Whether a part of the data is truthy.
fn is_truthy_part(part: Option<&Value>) -> bool
    ensures { result ≡ truth (part_value part.entry) }
{
    match part {
        Some(Value::Null) => false,
        Some(Value::Bool(is)) => *is,
        Some(Value::Int(number)) => *number != 0,
        Some(Value::Str(text)) => !text.is_empty(),
        Some(Value::List(_)) => true,
        Some(Value::Map(_)) => true,
        Some(Value::Fields(_)) => true,
        None => false,
    }
}

/// Whether a value that was made is truthy.
fn is_truthy_made(made: &Made) -> bool
    ensures { result ≡ truth (view_made made.now) }
{
    match made {
        Made::Null => false,
        Made::Bool(is) => *is,
        Made::Int(number) => *number != 0,
        Made::Str(text) => !text.is_empty(),
    }
}
