//! Ints: the result beyond the range is the nearest end.

ghost use Rattle.std.specs.Prelude.{◌≡◌, ◌+ℤ◌, ◌-ℤ◌, ◌*ℤ◌, neg_ℤ, int_rem};
ghost use Rattle.soy_tree.specs.Ints.{nearest};

const LARGEST: i64 = 9_007_199_254_740_991;

/// The number, or the nearest end of the range.
#[tactic(auto)]
fn nearest(number: i64) -> i64
    ensures { result ≡ nearest number }
{
    if number > LARGEST {
        LARGEST
    } else if number < -LARGEST {
        -LARGEST
    } else {
        number
    }
}

#[tactic(auto, using(crate::proofs::Nearest::nearest_saturated))]
pub(crate) fn sum(left: i64, right: i64) -> i64
    ensures { result ≡ nearest (left +ℤ right) }
{
    nearest(left.saturating_add(right))
}

#[tactic(auto, using(crate::proofs::Nearest::nearest_saturated))]
pub(crate) fn difference(left: i64, right: i64) -> i64
    ensures { result ≡ nearest (left -ℤ right) }
{
    nearest(left.saturating_sub(right))
}

#[tactic(auto, using(crate::proofs::Nearest::nearest_saturated))]
pub(crate) fn product(left: i64, right: i64) -> i64
    ensures { result ≡ nearest (left *ℤ right) }
{
    nearest(left.saturating_mul(right))
}

/// The remainder with the sign of the left. (A divisor that a rule lets through isn't 0; by 0 it is the left.)
#[tactic(auto, using(crate::proofs::Nearest::int_rem_zero))]
pub(crate) fn remainder(left: i64, right: i64) -> i64
    ensures { result ≡ nearest (int_rem left right) }
{
    if right == 0 {
        return nearest(left);
    }
    nearest(left.wrapping_rem(right))
}

#[tactic(auto, using(crate::proofs::Nearest::nearest_saturated, crate::proofs::Nearest::zero_minus))]
pub(crate) fn negation(number: i64) -> i64
    ensures { result ≡ nearest (neg_ℤ number) }
{
    nearest(0_i64.saturating_sub(number))
}
