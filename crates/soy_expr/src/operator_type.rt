//! The types of operators.

ghost use Rattle.std.specs.Prelude.{◌≡◌, ◌&&◌, ◌||◌};
ghost use Rattle.soy_rules.specs.Members.{is_simple};
ghost use Rattle.soy_rules.specs.TypeOf.{are_texts, binary_type, choice_type, fitting, is_divisor, is_int};
ghost use Rattle.soy_rules.specs.TypeOf.{is_null_literal, is_string, sum_type};
ghost use Rattle.soy_tree.specs.ViewExpressions.{view_expr};
ghost use Rattle.soy_tree.specs.ViewTypes.{view_type};
ghost use Rattle.soy_expr.specs.Rules.{coalesce_type, minus_type};
ghost use Rattle.soy_expr.specs.ViewTypeFault.{Types};

use crate::TypeFault;
use crate::joining::joined;
use crate::member_kind::{has_block, is_int, is_simple, is_string};
use crate::type_fault::{both_mistyped, mistyped};
use soy_base::{Refusal, Span};
use soy_rules::narrow;
use soy_tree::{BinaryOp, Expr, ExprNode, SoyType};
use std::alloc::Global;

/// The type of `-`.
pub(crate) fn minus_type(
    alloc: Global,
    span: Span,
    of: &SoyType,
) -> Result<SoyType, Refusal<TypeFault>>
    ensures { Types view_type (minus_type span (view_type of.now)) result }
{
    if is_int(of) {
        Ok(SoyType::Int)
    } else {
        Err(mistyped(alloc, span, of))
    }
}

/// The type of an operator of two operands, by them and by their types.
pub(crate) fn binary_type(
    alloc: Global,
    op: BinaryOp,
    operands: (&Expr, &Expr),
    span: Span,
    left: &SoyType,
    right: &SoyType,
) -> Result<SoyType, Refusal<TypeFault>>
    ensures { Types view_type (binary_type op (view_expr operands.entry.0.now) (view_expr operands.entry.1.now) span
        (view_type left.now) (view_type right.now)) result }
{
    match op {
        BinaryOp::Mul => fitting(
            alloc,
            are_ints(left, right),
            SoyType::Int,
            span,
            left,
            right,
        ),
        BinaryOp::Rem => {
            let fits = is_int(left) && is_divisor(operands.1);
            fitting(alloc, fits, SoyType::Int, span, left, right)
        }
        BinaryOp::Add => sum_type(alloc, span, left, right),
        BinaryOp::Sub => fitting(
            alloc,
            are_ints(left, right),
            SoyType::Int,
            span,
            left,
            right,
        ),
        BinaryOp::Lt => fitting(
            alloc,
            are_ordered(left, right),
            SoyType::Bool,
            span,
            left,
            right,
        ),
        BinaryOp::Gt => fitting(
            alloc,
            are_ordered(left, right),
            SoyType::Bool,
            span,
            left,
            right,
        ),
        BinaryOp::Le => fitting(
            alloc,
            are_ordered(left, right),
            SoyType::Bool,
            span,
            left,
            right,
        ),
        BinaryOp::Ge => fitting(
            alloc,
            are_ordered(left, right),
            SoyType::Bool,
            span,
            left,
            right,
        ),
        BinaryOp::Eq => {
            let fits = are_compared(operands.0, operands.1, left, right);
            fitting(alloc, fits, SoyType::Bool, span, left, right)
        }
        BinaryOp::Ne => {
            let fits = are_compared(operands.0, operands.1, left, right);
            fitting(alloc, fits, SoyType::Bool, span, left, right)
        }
        BinaryOp::And => Ok(SoyType::Bool),
        BinaryOp::Or => Ok(SoyType::Bool),
    }
}

/// The type, if the operands' types fit.
fn fitting(
    alloc: Global,
    fits: bool,
    of: SoyType,
    span: Span,
    left: &SoyType,
    right: &SoyType,
) -> Result<SoyType, Refusal<TypeFault>>
    ensures { Types view_type (fitting fits (view_type of) span (view_type left.now) (view_type right.now)) result }
{
    if fits {
        Ok(of)
    } else {
        Err(both_mistyped(alloc, span, left, right))
    }
}

fn sum_type(
    alloc: Global,
    span: Span,
    left: &SoyType,
    right: &SoyType,
) -> Result<SoyType, Refusal<TypeFault>>
    ensures { Types view_type (sum_type span (view_type left.now) (view_type right.now)) result }
{
    if are_ints(left, right) {
        return Ok(SoyType::Int);
    }
    fitting(
        alloc,
        are_texts(left, right),
        SoyType::Str,
        span,
        left,
        right,
    )
}

fn are_ints(left: &SoyType, right: &SoyType) -> bool
    ensures { result ≡ (is_int (view_type left.now) && is_int (view_type right.now)) }
{
    is_int(left) && is_int(right)
}

/// Whether one side is exactly string, and the other made of null, bool, int and string alone.
fn are_texts(left: &SoyType, right: &SoyType) -> bool
    ensures { result ≡ are_texts (view_type left.now) (view_type right.now) }
{
    is_string(left) && is_simple(right) || is_string(right) && is_simple(left)
}

/// Whether both are int, or both string.
fn are_ordered(left: &SoyType, right: &SoyType) -> bool
    ensures { result ≡ (is_int (view_type left.now) && is_int (view_type right.now)
        || is_string (view_type left.now) && is_string (view_type right.now)) }
{
    is_int(left) && is_int(right) || is_string(left) && is_string(right)
}

/// Whether both are made of null, bool, int and string alone, or one operand is the literal null.
fn are_compared(left: &Expr, right: &Expr, of_left: &SoyType, of_right: &SoyType) -> bool
    ensures { result ≡ (is_simple (view_type of_left.now) && is_simple (view_type of_right.now)
        || is_null_literal (view_expr left.now) || is_null_literal (view_expr right.now)) }
{
    is_simple(of_left) && is_simple(of_right) || is_null_literal(left) || is_null_literal(right)
}

fn is_null_literal(expr: &Expr) -> bool
    ensures { result ≡ is_null_literal (view_expr expr.now) }
{
    match expr.node.get() {
        ExprNode::Null => true,
        _ => false,
    }
}

/// Whether the expression is an int literal other than 0.
fn is_divisor(expr: &Expr) -> bool
    ensures { result ≡ is_divisor (view_expr expr.now) }
{
    match expr.node.get() {
        ExprNode::Int(number) => *number != 0,
        _ => false,
    }
}

/// The type of `?:`.
pub(crate) fn coalesce_type(
    alloc: Global,
    span: Span,
    left: &SoyType,
    right: &SoyType,
) -> Result<SoyType, Refusal<TypeFault>>
    ensures { Types view_type (coalesce_type span (view_type left.now) (view_type right.now)) result }
{
    if has_block(left) || has_block(right) {
        return Err(both_mistyped(alloc, span, left, right));
    }
    let some = narrow(alloc, left)?;
    Ok(joined(alloc, &some, right)?)
}

/// The type of `c ? a : b`.
pub(crate) fn choice_type(
    alloc: Global,
    span: Span,
    when: &SoyType,
    left: &SoyType,
    right: &SoyType,
) -> Result<SoyType, Refusal<TypeFault>>
    ensures { Types view_type
        (choice_type span (view_type when.now) (view_type left.now) (view_type right.now)) result }
{
    if has_block(when) {
        return Err(mistyped(alloc, span, when));
    }
    if has_block(left) || has_block(right) {
        return Err(both_mistyped(alloc, span, left, right));
    }
    Ok(joined(alloc, left, right)?)
}
