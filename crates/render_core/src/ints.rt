//! Ints that are found where they stand, without a value being made.

ghost use Rattle.std.specs.Prelude.{◌≡◌, IfSome, Some, true};
ghost use Rattle.soy_rules.specs.Cost.{cost};
ghost use Rattle.soy_rules.specs.Val.{binary_value, binding, member_value, operand, truth, val};
ghost use Rattle.soy_tree.specs.Values.{IntValue};
ghost use Rattle.soy_tree.specs.ViewExpressions.{view_expr};
ghost use Rattle.render_core.specs.Finds.{binding_at, part_value};
ghost use Rattle.render_core.specs.Ints.{Compares, HasInt, is_comparison, literal_int};
ghost use Rattle.render_core.specs.Seen.{env_seen, input_seen, program_seen};

use crate::fields::field_of;
use crate::held::Held;
use crate::names::variable_of;
use crate::parts::{Point, child_of, part_at, place_of, variable_at};
use soy_base::{Steps, Text};
use soy_expr::Made;
use soy_tree::{BinaryOp, Expr, ExprNode, Value};
use std::sync::ledger::Ledger;

/// Whether an operator that compares with a literal int is truthy. None where it is another operator, or the other
/// operand is no int that is a variable or a field of one; then no step is counted.
#[tactic(auto, using(crate::proofs::Comparisons::compares))]
pub(crate) fn is_truthy_comparison<L: Ledger>(
    point: Point,
    op: BinaryOp,
    left: &Expr,
    right: &Expr,
    steps: &mut Steps<L>,
) -> Option<bool>
    ensures { Compares op (view_expr left.now) (view_expr right.now) (env_seen point.entry) steps.old steps.new
        result }
{
    if !is_comparison(op) {
        return None;
    }
    let number = literal_int(right)?;
    let int = int_at_hand(point, left, steps)?;
    steps.count();
    steps.count();
    Some(holds(op, int, number))
}

/// The int that a variable or a field of one is. None where an expression is another, or no int; then no step is
/// counted.
pub(crate) fn int_at_hand<L: Ledger>(point: Point, expr: &Expr, steps: &mut Steps<L>) -> Option<i64>
    ensures { HasInt (view_expr expr.now) (env_seen point.entry) steps.old steps.new result }
{
    match expr.node.get() {
        ExprNode::Var(name) => {
            let int = int_of_variable(point, name)?;
            steps.count();
            Some(int)
        }
        ExprNode::Member(of, field, _) => {
            let int = int_of_field(point, variable_of(of)?, field)?;
            steps.count();
            steps.count();
            Some(int)
        }
        _ => None,
    }
}

/// The int that a variable is, if it is one.
fn int_of_variable(point: Point, name: &Text) -> Option<i64>
    ensures { IfSome result (λ n. operand (binding name.now (env_seen point.entry)) ≡ IntValue n) }
{
    match place_of(point, name) {
        Some(at) => int_bound(point, at),
        None => None,
    }
}

/// The int that the variable at a place is bound to, if it is bound to one.
#[tactic(auto, using(crate::proofs::Finds::bound_root, crate::proofs::Finds::bound_item, crate::proofs::Finds::bound_path))]
fn int_bound(point: Point, at: usize) -> Option<i64>
    ensures { IfSome result (λ n. operand
        (binding_at (program_seen point.entry) (input_seen point.entry) point.entry.bound.now at) ≡ IntValue n) }
{
    match variable_at(point.bound, at) {
        Some(variable) => match &variable.to {
            Held::Made(Made::Int(number)) => Some(*number),
            Held::Made(_) => None,
            Held::Block(_) => None,
            Held::Root => int_of_part(part_at(point, at)),
            Held::Item(_, _) => int_of_part(part_at(point, at)),
            Held::Part(_) => int_of_part(part_at(point, at)),
        },
        None => None,
    }
}

/// The int that a field of a variable is, if it is one.
#[tactic(auto, using(crate::proofs::Finds::field_there))]
fn int_of_field(point: Point, variable: &Text, field: &Text) -> Option<i64>
    ensures { IfSome result (λ n. member_value field.now (operand (binding variable.now (env_seen point.entry)))
        ≡ IntValue n) }
{
    let at = place_of(point, variable)?;
    let whole = part_at(point, at);
    match field_of(whole, field) {
        Some(number) => int_of_part(child_of(whole, number)),
        None => None,
    }
}

/// The int that a part of the data is, if it is one.
fn int_of_part(part: Option<&Value>) -> Option<i64>
    ensures { IfSome result (λ n. part_value part.entry ≡ IntValue n) }
{
    match part {
        Some(Value::Int(number)) => Some(*number),
        _ => None,
    }
}

/// The int that a literal is.
fn literal_int(expr: &Expr) -> Option<i64>
    ensures { IfSome result (λ n. literal_int (view_expr expr.now) ≡ Some n) }
{
    match expr.node.get() {
        ExprNode::Int(number) => Some(*number),
        _ => None,
    }
}

/// Whether an operator compares its operands.
fn is_comparison(op: BinaryOp) -> bool
    ensures { result ≡ is_comparison op }
{
    match op {
        BinaryOp::Lt => true,
        BinaryOp::Gt => true,
        BinaryOp::Le => true,
        BinaryOp::Ge => true,
        BinaryOp::Eq => true,
        BinaryOp::Ne => true,
        _ => false,
    }
}

/// Whether a comparison of two ints holds.
fn holds(op: BinaryOp, left: i64, right: i64) -> bool
    requires { is_comparison op ≡ true }
    ensures { result ≡ truth (binary_value op (IntValue left) (IntValue right)) }
{
    match op {
        BinaryOp::Lt => left < right,
        BinaryOp::Gt => right < left,
        BinaryOp::Le => left <= right,
        BinaryOp::Ge => right <= left,
        BinaryOp::Eq => left == right,
        BinaryOp::Ne => left != right,
        _ => false,
    }
}
