//! A number of a pattern.

ghost use Rattle.std.specs.Prelude.{◌≡◌, ◌-◌, nat_le, true, false, MatchOption};
ghost use Rattle.std.specs.Char.{is_ascii_digit};
ghost use Rattle.soy_base.specs.Limits.{largest};
ghost use Rattle.std.specs.Str.{chars};
ghost use Rattle.icu_text.specs.Keys.{digits_read, number_read, view_digits};
ghost use Rattle.icu_text.specs.PatternSteps.{more_digits, signed};

use soy_base::first;
use std::marker::Model;

/// A number with what follows its digits, or the text from where no digit stands or one makes the number too large.
#[derive(Drop)]
pub enum Digits<'a> {
    Number(Number, &'a str),
    Stuck(&'a str),
}

/// The largest number of a pattern.
const LARGEST: u64 = 9007199254740991;

/// A number within the range of ints, which contracts see as that number.
#[derive(Drop)]
pub struct Number {
    value: u64,
}

impl Model for Number {
    ghost use Rattle.std.specs.Prelude.{ℕ, ◌≤◌};
    ghost use Rattle.soy_base.specs.Limits.{largest};

    ghost Value = { ℕ };

    ghost view = { λ n. n.value };

    ghost invariant = { λ n. n.value ≤ largest };
}

impl Number {
    /// The number that a digit writes.
    pub fn of_digit(c: char) -> Number
        requires { is_ascii_digit c ≡ true }
        ensures { result ≡ c - 48 }
    {
        Number {
            value: c as u64 - 48,
        }
    }

    /// The number that a further digit makes, if it isn't over the largest.
    pub fn with_digit(self, c: char) -> Option<Number>
        requires { is_ascii_digit c ≡ true }
        ensures { MatchOption result (nat_le (more_digits self c) largest ≡ false)
            (λ n. (nat_le (more_digits self c) largest ≡ true) × (n ≡ more_digits self c)) }
    {
        let value = self.value * 10 + (c as u64 - 48);
        if value <= LARGEST {
            Some(Number { value })
        } else {
            None
        }
    }

    /// The number.
    pub fn value(self) -> u64
        ensures { result ≡ self }
    {
        self.value
    }

    /// The number, negative where it says so.
    pub fn signed(self, negative: bool) -> i64
        ensures { result ≡ signed negative self }
    {
        if negative {
            -(self.value as i64)
        } else {
            self.value as i64
        }
    }
}

/// The number that the digits write that a text begins with.
pub fn read_number(text: &str) -> Digits<'_>
    ensures { view_digits result ≡ number_read (chars text.now) }
{
    match first(text) {
        None => Digits::Stuck(text),
        Some((c, after)) => {
            if !c.is_ascii_digit() {
                return Digits::Stuck(text);
            }
            read_digits(Number::of_digit(c), after)
        }
    }
}

/// The number that further digits make.
fn read_digits(number: Number, text: &str) -> Digits<'_>
    ensures { view_digits result ≡ digits_read number (chars text.now) }
{
    let mut number = number;
    let mut rest = text;
    while let Some((c, after)) = first(rest) {
        if !c.is_ascii_digit() {
            return Digits::Number(number, rest);
        }
        match number.with_digit(c) {
            Some(more) => number = more,
            None => return Digits::Stuck(rest),
        }
        rest = after;
    }
    Digits::Number(number, rest)
}
