//! Expressions, with parentheses by the levels of their operators.

ghost use Rattle.std.specs.Prelude.{◌≡◌, ◌++◌, OnOk};
ghost use Rattle.soy_base.specs.Appends.{Appends};
ghost use Rattle.soy_tree.specs.ViewExpressions.{view_expr, view_exprs};
ghost use Rattle.soy_format.specs.FormattedExpression.{begins_with_variable, bool_text, bracket_text, dot_text};
ghost use Rattle.soy_format.specs.FormattedExpression.{formatted_expr, formatted_values, in_parentheses, minus_text};
ghost use Rattle.soy_format.specs.FormattedExpression.{op_text, variable_text};
ghost use Rattle.soy_format.specs.Levels.{level_of, level_of_op};

use crate::ascii::{push_ascii, push_signed_decimal};
use crate::string::push_string;
use soy_base::{OutOfMemory, Text, push_text};
use soy_tree::{BinaryOp, Expr, ExprNode};
use std::alloc::Global;

/// The level of an operator of two operands.
fn level_of_op(op: BinaryOp) -> u8
    ensures { result ≡ level_of_op op }
{
    match op {
        BinaryOp::Mul | BinaryOp::Rem => 3,
        BinaryOp::Add | BinaryOp::Sub => 4,
        BinaryOp::Lt | BinaryOp::Gt | BinaryOp::Le | BinaryOp::Ge => 5,
        BinaryOp::Eq | BinaryOp::Ne => 6,
        BinaryOp::And => 7,
        BinaryOp::Or => 8,
    }
}

/// The level of an expression.
fn level_of(of: &Expr) -> u8
    ensures { result ≡ level_of (view_expr of.now) }
{
    match of.node.get() {
        ExprNode::Null => 0,
        ExprNode::Bool(_) => 0,
        ExprNode::Int(_) => 0,
        ExprNode::Str(_) => 0,
        ExprNode::Var(_) => 0,
        ExprNode::Member(_, _, _) => 1,
        ExprNode::Index(_, _, _) => 1,
        ExprNode::Neg(_) => 2,
        ExprNode::Not(_) => 2,
        ExprNode::Binary(op, _, _) => level_of_op(*op),
        ExprNode::Coalesce(_, _) => 9,
        ExprNode::Cond(_, _, _) => 9,
    }
}

/// Whether an expression as it is written begins with a variable, so with `$`.
#[cycle(beginning)]
pub(crate) fn begins_with_variable(of: &Expr) -> bool
    ensures { result ≡ begins_with_variable (view_expr of.now) }
{
    match of.node.get() {
        ExprNode::Null => false,
        ExprNode::Bool(_) => false,
        ExprNode::Int(_) => false,
        ExprNode::Str(_) => false,
        ExprNode::Var(_) => true,
        ExprNode::Member(base, _, _) => level_of(base) <= 1 && begins_with_variable(base),
        ExprNode::Index(base, _, _) => level_of(base) <= 1 && begins_with_variable(base),
        ExprNode::Neg(_) => false,
        ExprNode::Not(_) => false,
        ExprNode::Binary(op, left, _) => {
            level_of(left) <= level_of_op(*op) && begins_with_variable(left)
        }
        ExprNode::Coalesce(left, _) => { level_of(left) < 9 && begins_with_variable(left) }
        ExprNode::Cond(when, _, _) => { level_of(when) < 9 && begins_with_variable(when) }
    }
}

/// Adds an operator of two operands, with a space on each side.
fn push_op(out: &mut String, op: BinaryOp) -> Result<(), OutOfMemory>
    ensures { OnOk result (Appends out.old out.new (op_text op)) }
{
    match op {
        BinaryOp::Mul => push_ascii(out, " * "),
        BinaryOp::Rem => push_ascii(out, " % "),
        BinaryOp::Add => push_ascii(out, " + "),
        BinaryOp::Sub => push_ascii(out, " - "),
        BinaryOp::Lt => push_ascii(out, " < "),
        BinaryOp::Gt => push_ascii(out, " > "),
        BinaryOp::Le => push_ascii(out, " <= "),
        BinaryOp::Ge => push_ascii(out, " >= "),
        BinaryOp::Eq => push_ascii(out, " == "),
        BinaryOp::Ne => push_ascii(out, " != "),
        BinaryOp::And => push_ascii(out, " and "),
        BinaryOp::Or => push_ascii(out, " or "),
    }
}

/// Adds a truth value.
fn push_bool(out: &mut String, is: bool) -> Result<(), OutOfMemory>
    ensures { OnOk result (Appends out.old out.new (bool_text is)) }
{
    if is {
        return push_ascii(out, "true");
    }
    push_ascii(out, "false")
}

/// Adds a variable.
#[tactic(auto, using(crate::proofs::Pushes::append_assoc))]
pub(crate) fn push_variable(out: &mut String, name: &Text) -> Result<(), OutOfMemory>
    ensures { OnOk result (Appends out.old out.new (variable_text name.now)) }
{
    push_ascii(out, "$")?;
    push_text(out, name.text())
}

/// Adds the start of an access by a name.
fn push_dot(out: &mut String, takes_null: bool) -> Result<(), OutOfMemory>
    ensures { OnOk result (Appends out.old out.new (dot_text takes_null)) }
{
    if takes_null {
        return push_ascii(out, "?.");
    }
    push_ascii(out, ".")
}

/// Adds the start of an access by an expression.
fn push_bracket(out: &mut String, takes_null: bool) -> Result<(), OutOfMemory>
    ensures { OnOk result (Appends out.old out.new (bracket_text takes_null)) }
{
    if takes_null {
        return push_ascii(out, "?[");
    }
    push_ascii(out, "[")
}

/// Adds the `-` before an operand.
fn push_minus(out: &mut String, of: &Expr) -> Result<(), OutOfMemory>
    ensures { OnOk result (Appends out.old out.new (minus_text (view_expr of.now))) }
{
    match of.node.get() {
        ExprNode::Null => push_ascii(out, "-"),
        ExprNode::Bool(_) => push_ascii(out, "-"),
        ExprNode::Int(_) => push_ascii(out, "-"),
        ExprNode::Str(_) => push_ascii(out, "-"),
        ExprNode::Var(_) => push_ascii(out, "-"),
        ExprNode::Member(_, _, _) => push_ascii(out, "-"),
        ExprNode::Index(_, _, _) => push_ascii(out, "-"),
        ExprNode::Neg(_) => push_ascii(out, "- "),
        ExprNode::Not(_) => push_ascii(out, "-"),
        ExprNode::Binary(_, _, _) => push_ascii(out, "-"),
        ExprNode::Coalesce(_, _) => push_ascii(out, "-"),
        ExprNode::Cond(_, _, _) => push_ascii(out, "-"),
    }
}

/// Adds an expression.
#[cycle(pushing_exprs)]
#[tactic(auto, using(crate::proofs::Pushes::three_pushed, crate::proofs::Pushes::four_pushed, crate::proofs::Pushes::five_pushed, crate::proofs::Pushes::append_assoc))]
pub(crate) fn push_expr(alloc: Global, out: &mut String, of: &Expr) -> Result<(), OutOfMemory>
    ensures { OnOk result (Appends out.old out.new (formatted_expr (view_expr of.now))) }
{
    match of.node.get() {
        ExprNode::Null => push_ascii(out, "null"),
        ExprNode::Bool(is) => push_bool(out, *is),
        ExprNode::Int(number) => push_signed_decimal(alloc, out, *number),
        ExprNode::Str(text) => push_string(out, text),
        ExprNode::Var(name) => push_variable(out, name),
        ExprNode::Member(base, name, takes_null) => {
            push_operand(alloc, out, base, level_of(base) > 1)?;
            push_dot(out, *takes_null)?;
            push_text(out, name.text())
        }
        ExprNode::Index(base, index, takes_null) => {
            push_operand(alloc, out, base, level_of(base) > 1)?;
            push_bracket(out, *takes_null)?;
            push_operand(alloc, out, index, false)?;
            push_ascii(out, "]")
        }
        ExprNode::Neg(operand) => {
            push_minus(out, operand)?;
            push_operand(alloc, out, operand, level_of(operand) > 2)
        }
        ExprNode::Not(operand) => {
            push_ascii(out, "not ")?;
            push_operand(alloc, out, operand, level_of(operand) > 2)
        }
        ExprNode::Binary(op, left, right) => {
            push_operand(alloc, out, left, level_of(left) > level_of_op(*op))?;
            push_op(out, *op)?;
            push_operand(alloc, out, right, level_of(right) >= level_of_op(*op))
        }
        ExprNode::Coalesce(left, right) => {
            push_operand(alloc, out, left, level_of(left) >= 9)?;
            push_ascii(out, " ?: ")?;
            push_operand(alloc, out, right, false)
        }
        ExprNode::Cond(when, left, right) => {
            push_operand(alloc, out, when, level_of(when) >= 9)?;
            push_ascii(out, " ? ")?;
            push_operand(alloc, out, left, false)?;
            push_ascii(out, " : ")?;
            push_operand(alloc, out, right, false)
        }
    }
}

/// Adds an operand, in parentheses where it has to be.
#[cycle(pushing_exprs)]
#[tactic(auto, using(crate::proofs::Pushes::three_pushed))]
fn push_operand(
    alloc: Global,
    out: &mut String,
    of: &Expr,
    is_in_parentheses: bool,
) -> Result<(), OutOfMemory>
    ensures { OnOk result (Appends out.old out.new
        (in_parentheses is_in_parentheses (formatted_expr (view_expr of.now)))) }
{
    if !is_in_parentheses {
        return push_expr(alloc, out, of);
    }
    push_ascii(out, "(")?;
    push_expr(alloc, out, of)?;
    push_ascii(out, ")")
}

/// Adds expressions with `, ` between them.
#[tactic(auto, using(crate::proofs::Pushes::append_assoc))]
pub(crate) fn push_values(
    alloc: Global,
    out: &mut String,
    values: &[Expr],
) -> Result<(), OutOfMemory>
    ensures { OnOk result (Appends out.old out.new (formatted_values (view_exprs values.now))) }
{
    let [first, rest @ ..] = values else {
        return Ok(());
    };
    push_expr(alloc, out, first)?;
    for value in rest {
        push_ascii(out, ", ")?;
        push_expr(alloc, out, value)?;
    }
    Ok(())
}
