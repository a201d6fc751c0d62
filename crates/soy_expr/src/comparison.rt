//! Comparisons of two operands.

ghost use Rattle.std.specs.Prelude.{◌≡◌};
ghost use Rattle.std.specs.Str.{chars};
ghost use Rattle.soy_rules.specs.Val.{is_less, is_same_value, is_text_before};
ghost use Rattle.soy_expr.specs.ViewShallow.{view_shallow};

use crate::Shallow;
use soy_base::first;

/// Whether two operands are of one type and equal.
pub fn is_same(left: Shallow, right: Shallow) -> bool
    ensures { result ≡ is_same_value (view_shallow left.entry) (view_shallow right.entry) }
{
    match (left, right) {
        (Shallow::Null, Shallow::Null) => true,
        (Shallow::Bool(left), Shallow::Bool(right)) => left == right,
        (Shallow::Int(left), Shallow::Int(right)) => left == right,
        (Shallow::Str(left), Shallow::Str(right)) => left.is(right.text()),
        _ => false,
    }
}

/// Whether the first is less than the second.
pub(crate) fn is_less(left: Shallow, right: Shallow) -> bool
    ensures { result ≡ is_less (view_shallow left.entry) (view_shallow right.entry) }
{
    match (left, right) {
        (Shallow::Int(left), Shallow::Int(right)) => left < right,
        (Shallow::Str(left), Shallow::Str(right)) => is_text_before(left.text(), right.text()),
        _ => false,
    }
}

/// Whether a text stands before another, compared by code points.
#[tactic(auto, using(crate::proofs::TextOrder::before_nothing))]
fn is_text_before(left: &str, right: &str) -> bool
    ensures { result ≡ is_text_before (chars left.now) (chars right.now) }
{
    let mut left_rest = left;
    let mut right_rest = right;
    while let Some((d, right_after)) = first(right_rest) {
        let Some((c, left_after)) = first(left_rest) else {
            return true;
        };
        if c != d {
            return c < d;
        }
        left_rest = left_after;
        right_rest = right_after;
    }
    false
}
