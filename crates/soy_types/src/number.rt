//! The values of numbers of JSON.

ghost use Rattle.std.specs.Prelude.{◌≡◌, ◌<◌, ◌==◌, IsTrue, false, length, option_map, slice_index, true};
ghost use Rattle.fast_float.specs.Text.{scan};
ghost use Rattle.serde_json.specs.Data.{unsigned};
ghost use Rattle.serde_json.specs.Find.{as_i64};
ghost use Rattle.serde_json.specs.Read.{float_of, number_from, number_of};
ghost use Rattle.soy_types.specs.ShortInt.{int_after, short_int};

use crate::reading::LARGEST_INT;
use fast_float::Numeral;

/// The integer of 64 bits that a number is: None where the number has no value, `Some(None)` where it is no such
/// integer.
#[inline(always)]
pub(crate) fn int_of(text: &str) -> Option<Option<i64>>
    ensures { result ≡ option_map as_i64 (number_of text.now) }
{
    let bytes = text.as_bytes();
    if has_minus(bytes) {
        negative_int(&bytes[1..])
    } else {
        positive_int(bytes)
    }
}

/// Whether the first byte is a minus.
fn has_minus(bytes: &[u8]) -> bool
    ensures value { result ≡ (slice_index bytes.now 0 == 45) }
    ensures len { IsTrue result → 0 < length bytes.now }
{
    !bytes.is_empty() && bytes[0] == b'-'
}

/// What `int_of` answers of a text without a minus.
fn positive_int(text: &[u8]) -> Option<Option<i64>>
    ensures { result ≡ option_map as_i64 (number_from false (scan text.now)) }
{
    match short_int(text) {
        Some(number) => Some(Some(number)),
        None => positive_number(text),
    }
}

/// The int of a text of digits alone, as most numbers are, if none on the way is over the largest.
fn short_int(text: &[u8]) -> Option<i64>
    ensures { result ≡ short_int text.now }
{
    if text.is_empty() {
        return None;
    }
    let mut value = 0u64;
    for digit in text {
        if !digit.is_ascii_digit() {
            return None;
        }
        value = 10 * value + (*digit - b'0') as u64;
        if value > LARGEST_INT as u64 {
            return None;
        }
    }
    Some(value as i64)
}

/// What `int_of` answers of a text without a minus, by its numeral.
#[inline(never)]
fn positive_number(text: &[u8]) -> Option<Option<i64>>
    ensures { result ≡ option_map as_i64 (number_from false (scan text.now)) }
{
    let numeral = Numeral::scan(text);
    match numeral.to_u64() {
        Some(number) => Some(signed(number)),
        None => float_int(false, &numeral),
    }
}

/// What `int_of` answers of what follows a minus, by its numeral. `-0` is a float.
#[inline(never)]
fn negative_int(text: &[u8]) -> Option<Option<i64>>
    ensures { result ≡ option_map as_i64 (number_from true (scan text.now)) }
{
    let numeral = Numeral::scan(text);
    if let Some(number) = numeral.to_i64(true) {
        if number < 0 {
            return Some(Some(number));
        }
    }
    float_int(true, &numeral)
}

/// What `int_of` answers of a numeral that is read as a float: it is no integer, and has no value where it is too
/// large.
fn float_int(negative: bool, numeral: &Numeral<'_>) -> Option<Option<i64>>
    ensures { result ≡ option_map as_i64 (float_of negative numeral.now) }
{
    if numeral.to_float::<f64>(negative).is_finite() {
        Some(None)
    } else {
        None
    }
}

/// The integer of 64 bits with a sign, if there is one.
fn signed(number: u64) -> Option<i64>
    ensures { result ≡ as_i64 (unsigned number) }
{
    if number <= i64::MAX as u64 {
        Some(number as i64)
    } else {
        None
    }
}
