//! The keys of a plural, up to the braces of their arms, and its offset.

ghost use Rattle.std.specs.Prelude.{◌≡◌, codes};
ghost use Rattle.std.specs.Str.{chars};
ghost use Rattle.icu_text.specs.Heads.{view_letters};
ghost use Rattle.icu_text.specs.Keys.{after_f_read, arm_read, exact_key_read, exact_read, first_after_o_read};
ghost use Rattle.icu_text.specs.Keys.{first_key_at, first_key_read, key_after_o_read, key_at, key_end_read, key_read};
ghost use Rattle.icu_text.specs.Keys.{keyword_at, keyword_read, view_digits, view_first_key, view_key};

use crate::number::{Digits, read_number};
use crate::scan::{Letters, after_letters, after_space};
use crate::state::ArmKey;
use plural_rules::Category;
use soy_base::first;

/// A key with the brace of its arm, or the end of a plural, with what follows it.
#[derive(Clone, Copy)]
pub enum Key<'a> {
    Arm(ArmKey, &'a str),
    /// The text from the brace that ends the plural, and what follows that brace.
    End(&'a str, &'a str),
    /// No plural goes on as this does.
    Stuck(&'a str),
}

/// What follows the comma of a plural.
#[derive(Clone, Copy)]
pub enum FirstKey<'a> {
    /// What follows `offset:`.
    Offset(&'a str),
    Key(Key<'a>),
}

/// The first key of a plural, or its offset.
pub fn read_first_key(text: &str) -> FirstKey<'_>
    ensures { view_first_key result ≡ first_key_read (chars text.now) }
{
    first_key_at(after_space(text))
}

fn first_key_at(text: &str) -> FirstKey<'_>
    ensures { view_first_key result ≡ first_key_at (chars text.now) }
{
    match first(text) {
        None => FirstKey::Key(Key::Stuck(text)),
        Some((c, after)) => {
            if c == 'o' {
                return first_after_o(after);
            }
            FirstKey::Key(key_at(text))
        }
    }
}

/// What follows the `o` of the first key or of an offset.
fn first_after_o(text: &str) -> FirstKey<'_>
    ensures { view_first_key result ≡ first_after_o_read (chars text.now) }
{
    match first(text) {
        None => FirstKey::Key(Key::Stuck(text)),
        Some((c, after)) => {
            if c == 'f' {
                return after_f(after_letters(b"fset:", after));
            }
            FirstKey::Key(key_after_o(text))
        }
    }
}

fn after_f(letters: Letters<'_>) -> FirstKey<'_>
    ensures { view_first_key result ≡ after_f_read (view_letters letters.entry) }
{
    match letters {
        Letters::Read(rest) => FirstKey::Offset(rest),
        Letters::Stuck(rest) => FirstKey::Key(Key::Stuck(rest)),
    }
}

/// A key of a plural, or its end.
pub fn read_key(text: &str) -> Key<'_>
    ensures { view_key result ≡ key_read (chars text.now) }
{
    key_at(after_space(text))
}

fn key_at(text: &str) -> Key<'_>
    ensures { view_key result ≡ key_at (chars text.now) }
{
    match first(text) {
        None => Key::Stuck(text),
        Some((c, after)) => {
            if c == '=' {
                return exact_key(after_space(after));
            }
            if c == '}' {
                return Key::End(text, after);
            }
            if c == 'o' {
                return key_after_o(after);
            }
            keyword_at(text, c, after)
        }
    }
}

/// A keyword that doesn't begin with `o`, by its first letter.
fn keyword_at<'a>(text: &'a str, c: char, after: &'a str) -> Key<'a>
    ensures { view_key result ≡ keyword_at (chars text.now) c (chars after.now) }
{
    match c {
        'z' => keyword(Category::Zero, after_letters(b"ero", after)),
        't' => keyword(Category::Two, after_letters(b"wo", after)),
        'f' => keyword(Category::Few, after_letters(b"ew", after)),
        'm' => keyword(Category::Many, after_letters(b"any", after)),
        _ => Key::Stuck(text),
    }
}

/// What follows the `o` of a key.
fn key_after_o(text: &str) -> Key<'_>
    ensures { view_key result ≡ key_after_o_read (chars text.now) }
{
    match first(text) {
        None => Key::Stuck(text),
        Some((c, after)) => {
            if c == 'n' {
                return keyword(Category::One, after_letters(b"e", after));
            }
            if c == 't' {
                return keyword(Category::Other, after_letters(b"her", after));
            }
            Key::Stuck(text)
        }
    }
}

/// What follows a keyword, if it was read.
fn keyword(category: Category, letters: Letters<'_>) -> Key<'_>
    ensures { view_key result ≡ keyword_read category (view_letters letters.entry) }
{
    match letters {
        Letters::Read(rest) => key_end(ArmKey::Named(category), rest),
        Letters::Stuck(rest) => Key::Stuck(rest),
    }
}

/// The number of a key.
fn exact_key(text: &str) -> Key<'_>
    ensures { view_key result ≡ exact_read (chars text.now) }
{
    match first(text) {
        None => Key::Stuck(text),
        Some((c, after)) => {
            if c == '-' {
                return number_key(true, read_number(after));
            }
            number_key(false, read_number(text))
        }
    }
}

/// What follows the digits of a key, if they were read.
fn number_key(negative: bool, digits: Digits<'_>) -> Key<'_>
    ensures { view_key result ≡ exact_key_read negative (view_digits digits.entry) }
{
    match digits {
        Digits::Number(number, rest) => key_end(ArmKey::Exact(number.signed(negative)), rest),
        Digits::Stuck(rest) => Key::Stuck(rest),
    }
}

/// What follows a key.
fn key_end(key: ArmKey, text: &str) -> Key<'_>
    ensures { view_key result ≡ key_end_read key (chars text.now) }
{
    arm_at(key, after_space(text))
}

/// The brace of an arm.
fn arm_at(key: ArmKey, text: &str) -> Key<'_>
    ensures { view_key result ≡ arm_read key (chars text.now) }
{
    match first(text) {
        None => Key::Stuck(text),
        Some((c, after)) => {
            if c == '{' {
                return Key::Arm(key, after);
            }
            Key::Stuck(text)
        }
    }
}
