//! References to characters by number.
ghost use Rattle.std.specs.Prelude.{◌≡◌, ◌≤◌, IsTrue};
ghost use Rattle.bidi_order.specs.DecodedReferences.{numeric_character, reference_number};
ghost use Rattle.html_state.specs.References.{are_digits, beyond, digit_value, is_number, is_numeric};
ghost use Rattle.html_state.specs.References.{is_some_allowed, meet, value_from};

/// Above each number of Unicode.
const BEYOND: u32 = 0x110000;

fn digit_value(digit: char) -> u32
    ensures is { result ≡ digit_value digit }
    ensures small { result ≤ 16 }
{
    match digit {
        '0'..='9' => digit as u32 - 48,
        'A'..='F' => digit as u32 - 55,
        'a'..='f' => digit as u32 - 87,
        _ => 16,
    }
}

/// The number of these digits.
fn value_of(base: u32, digits: &[char]) -> u32
    requires { base ≤ 16 }
    ensures is { result ≡ value_from base 0 digits.now }
    ensures small { result ≤ beyond }
{
    let mut value: u32 = 0;
    for digit in digits {
        value = (value * base + digit_value(*digit)).min(BEYOND);
    }
    value
}

fn meet(low: u32, high: u32, from: u32, to: u32) -> bool
    ensures { result ≡ meet low high from to }
{
    low <= to && from <= high
}

/// Whether a number from `low` to `high` is that of a reference.
fn is_some_allowed(low: u32, high: u32) -> bool
    ensures { result ≡ is_some_allowed low high }
{
    meet(low, high, 9, 10)
        || meet(low, high, 13, 13)
        || meet(low, high, 32, 126)
        || meet(low, high, 160, 0xd7ff)
        || meet(low, high, 0xe000, 0x10ffff)
}

fn are_digits(base: u32, digits: &[char]) -> bool
    ensures { result ≡ are_digits base digits.now }
{
    digits.iter().all(|digit| digit_value(*digit) < base)
}

fn is_number(base: u32, most: usize, digits: &[char]) -> bool
    requires { base ≤ 16 }
    ensures { result ≡ is_number base most digits.now }
{
    if digits.is_empty() {
        return false;
    }
    let value = value_of(base, digits);
    are_digits(base, digits) && digits.len() <= most && is_some_allowed(value, value)
}

/// Whether `&#`, these characters and `;` are a reference.
fn is_numeric(characters: &[char]) -> bool
    ensures { result ≡ is_numeric characters.now }
{
    match characters {
        [] => false,
        ['x' | 'X', digits @ ..] => is_number(16, 6, digits),
        _ => is_number(10, 7, characters),
    }
}

/// The number that these characters write, after `&#`.
fn reference_number(characters: &[char]) -> u32
    ensures { result ≡ reference_number characters.now }
{
    match characters {
        [] => 0,
        ['x' | 'X', digits @ ..] => value_of(16, digits),
        _ => value_of(10, characters),
    }
}

/// The character that `&#`, these characters and `;` stand for, if they are a reference.
pub(crate) fn numeric_character(characters: &[char]) -> Option<char>
    ensures { result ≡ numeric_character characters.now }
{
    if is_numeric(characters) {
        char::from_u32(reference_number(characters))
    } else {
        None
    }
}
