//! Operators of values.

ghost use Rattle.std.specs.Prelude.{◌≡◌, ◌++◌, IfOk, OnOk};
ghost use Rattle.std.specs.Fmt.{signed_decimal};
ghost use Rattle.soy_base.specs.Appends.{Appends};
ghost use Rattle.soy_rules.specs.Val.{binary_value, negated, operand, sum_or_text, value_text};
ghost use Rattle.soy_expr.specs.ViewEvaluated.{view_evaluated, view_made};
ghost use Rattle.soy_expr.specs.ViewShallow.{view_shallow};

use crate::arithmetic::{difference, negation, product, remainder, sum};
use crate::ascii::push_ascii;
use crate::comparison::{is_less, is_same};
use crate::{Evaluated, Made, Shallow};
use soy_base::{OutOfMemory, Text, push_text};
use soy_tree::BinaryOp;
use std::alloc::Global;

/// The value of an operator of two operands.
fn binary(alloc: Global, op: BinaryOp, left: Shallow, right: Shallow) -> Result<Made, OutOfMemory>
    ensures { IfOk result (λ m. view_made m
        ≡ binary_value op (view_shallow left.entry) (view_shallow right.entry)) }
{
    match op {
        BinaryOp::Mul => Ok(product_of(left, right)),
        BinaryOp::Rem => Ok(remainder_of(left, right)),
        BinaryOp::Add => sum_of(alloc, left, right),
        BinaryOp::Sub => Ok(difference_of(left, right)),
        BinaryOp::Lt => Ok(Made::Bool(is_less(left, right))),
        BinaryOp::Gt => Ok(Made::Bool(is_less(right, left))),
        BinaryOp::Le => Ok(Made::Bool(!is_less(right, left))),
        BinaryOp::Ge => Ok(Made::Bool(!is_less(left, right))),
        BinaryOp::Eq => Ok(Made::Bool(is_same(left, right))),
        BinaryOp::Ne => Ok(Made::Bool(!is_same(left, right))),
        BinaryOp::And => Ok(Made::Bool(left.is_true() && right.is_true())),
        BinaryOp::Or => Ok(Made::Bool(left.is_true() || right.is_true())),
    }
}

/// The value of an operator of what two operands were evaluated to.
#[tactic(auto, using(crate::proofs::Shallows::shallow_binary))]
pub(crate) fn combined<P>(
    alloc: Global,
    op: BinaryOp,
    left: &Evaluated<'_, P>,
    right: &Evaluated<'_, P>,
) -> Result<Made, OutOfMemory>
    ensures { IfOk result (λ m. view_made m
        ≡ binary_value op (operand (view_evaluated left.now)) (operand (view_evaluated right.now))) }
{
    binary(alloc, op, left.shallow(), right.shallow())
}

/// The int with the other sign.
pub(crate) fn negated(operand: Shallow) -> Made
    ensures { view_made result ≡ negated (view_shallow operand.entry) }
{
    match operand {
        Shallow::Int(number) => Made::Int(negation(number)),
        _ => Made::Null,
    }
}

fn product_of(left: Shallow, right: Shallow) -> Made
    ensures { view_made result ≡ binary_value BinaryOp.Mul (view_shallow left.entry) (view_shallow right.entry) }
{
    match (left, right) {
        (Shallow::Int(left), Shallow::Int(right)) => Made::Int(product(left, right)),
        _ => Made::Null,
    }
}

fn remainder_of(left: Shallow, right: Shallow) -> Made
    ensures { view_made result ≡ binary_value BinaryOp.Rem (view_shallow left.entry) (view_shallow right.entry) }
{
    match (left, right) {
        (Shallow::Int(left), Shallow::Int(right)) => Made::Int(remainder(left, right)),
        _ => Made::Null,
    }
}

fn difference_of(left: Shallow, right: Shallow) -> Made
    ensures { view_made result ≡ binary_value BinaryOp.Sub (view_shallow left.entry) (view_shallow right.entry) }
{
    match (left, right) {
        (Shallow::Int(left), Shallow::Int(right)) => Made::Int(difference(left, right)),
        _ => Made::Null,
    }
}

/// The sum of two ints, and else the texts joined.
fn sum_of(alloc: Global, left: Shallow, right: Shallow) -> Result<Made, OutOfMemory>
    ensures { IfOk result (λ m. view_made m ≡ sum_or_text (view_shallow left.entry) (view_shallow right.entry)) }
{
    match (left, right) {
        (Shallow::Int(left), Shallow::Int(right)) => Ok(Made::Int(sum(left, right))),
        _ => Ok(Made::Str(joined_text(alloc, left, right)?)),
    }
}

/// The texts of two operands, joined.
fn joined_text(alloc: Global, left: Shallow, right: Shallow) -> Result<Text, OutOfMemory>
    ensures { IfOk result (λ t. t ≡ value_text (view_shallow left.entry) ++ value_text (view_shallow right.entry)) }
{
    let mut joined = String::new(alloc);
    push_operand(alloc, &mut joined, left)?;
    push_operand(alloc, &mut joined, right)?;
    Ok(Text::new(joined))
}

/// Adds the text of an operand.
fn push_operand(alloc: Global, out: &mut String, operand: Shallow) -> Result<(), OutOfMemory>
    ensures { OnOk result (Appends out.old out.new (value_text (view_shallow operand.entry))) }
{
    match operand {
        Shallow::Null => push_ascii(out, "null"),
        Shallow::Bool(true) => push_ascii(out, "true"),
        Shallow::Bool(false) => push_ascii(out, "false"),
        Shallow::Int(number) => push_int(alloc, out, number),
        Shallow::Str(text) => push_text(out, text.text()),
        Shallow::Compound => Ok(()),
    }
}

/// Adds the digits of an int, with `-` before those of one below 0.
fn push_int(alloc: Global, out: &mut String, number: i64) -> Result<(), OutOfMemory>
    ensures { OnOk result (Appends out.old out.new (signed_decimal number)) }
{
    let digits = int_text(alloc, number)?;
    push_text(out, digits.text())
}

fn int_text(alloc: Global, number: i64) -> Result<Text, OutOfMemory>
    ensures { IfOk result (λ t. t ≡ signed_decimal number) }
{
    Ok(Text::new(number.to_string(alloc)?))
}
