//! References by number.

ghost use Rattle.std.specs.Prelude.{◌≡◌, ◌≤◌};
ghost use Rattle.html_state.specs.References.{are_digits, begins_number, begins_numeric, beyond, digit_value};
ghost use Rattle.html_state.specs.References.{is_number, is_numeric, is_some_allowed, may_go_on, meet, value_from};

/// Above each number of Unicode.
const BEYOND: u32 = 0x110000;

fn digit_value(digit: u8) -> u32
    ensures is { result ≡ digit_value digit }
    ensures small { result ≤ 16 }
{
    match digit {
        b'0'..=b'9' => digit as u32 - 48,
        b'A'..=b'F' => digit as u32 - 55,
        b'a'..=b'f' => digit as u32 - 87,
        _ => 16,
    }
}

/// The number of these digits.
fn value_of(base: u32, digits: &[u8]) -> u32
    requires { base ≤ 16 }
    ensures is { result ≡ value_from base 0 digits.now }
    ensures small { result ≤ beyond }
{
    let mut value: u32 = 0;
    for digit in digits {
        value = (value * base + digit_value(*digit)).min(BEYOND);
    }
    value
}

fn meet(low: u32, high: u32, from: u32, to: u32) -> bool
    ensures { result ≡ meet low high from to }
{
    low <= to && from <= high
}

/// Whether a number from `low` to `high` is that of a reference.
fn is_some_allowed(low: u32, high: u32) -> bool
    ensures { result ≡ is_some_allowed low high }
{
    meet(low, high, 9, 10)
        || meet(low, high, 13, 13)
        || meet(low, high, 32, 126)
        || meet(low, high, 160, 0xd7ff)
        || meet(low, high, 0xe000, 0x10ffff)
}

/// Whether a number that begins with this one and has at most so many more digits is that of a reference.
#[tactic(auto, using(crate::proofs::GoesOn::goes_on, crate::proofs::GoesOn::goes_on_none))]
fn may_go_on(base: u32, more: usize, value: u32) -> bool
    requires low { value ≤ beyond }
    requires base { base ≤ 16 }
    requires some { 1 ≤ base }
    ensures { result ≡ may_go_on base more value value }
{
    let mut low = value;
    let mut high = value;
    for turn in 0..more {
        if is_some_allowed(low, high) {
            return true;
        }
        low = (low * base).min(BEYOND);
        high = (high * base + (base - 1)).min(BEYOND);
    }
    is_some_allowed(low, high)
}

fn are_digits(base: u32, digits: &[u8]) -> bool
    ensures { result ≡ are_digits base digits.now }
{
    digits.iter().all(|digit| digit_value(*digit) < base)
}

fn begins_number(base: u32, most: usize, digits: &[u8]) -> bool
    requires base { base ≤ 16 }
    requires some { 1 ≤ base }
    ensures { result ≡ begins_number base most digits.now }
{
    if digits.is_empty() {
        return true;
    }
    are_digits(base, digits)
        && digits.len() <= most
        && may_go_on(base, most - digits.len(), value_of(base, digits))
}

fn is_number(base: u32, most: usize, digits: &[u8]) -> bool
    requires { base ≤ 16 }
    ensures { result ≡ is_number base most digits.now }
{
    if digits.is_empty() {
        return false;
    }
    let value = value_of(base, digits);
    are_digits(base, digits) && digits.len() <= most && is_some_allowed(value, value)
}

/// Whether some reference by number begins with `&#` and these characters.
pub(crate) fn begins_numeric(characters: &[u8]) -> bool
    ensures { result ≡ begins_numeric characters.now }
{
    match characters {
        [] => true,
        [b'x' | b'X', digits @ ..] => begins_number(16, 6, digits),
        _ => begins_number(10, 7, characters),
    }
}

/// Whether `&#`, these characters and `;` are a reference.
pub(crate) fn is_numeric(characters: &[u8]) -> bool
    ensures { result ≡ is_numeric characters.now }
{
    match characters {
        [] => false,
        [b'x' | b'X', digits @ ..] => is_number(16, 6, digits),
        _ => is_number(10, 7, characters),
    }
}
