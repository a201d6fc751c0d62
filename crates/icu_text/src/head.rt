//! What follows a brace that opens an argument: its name, and the word of a plural or select after it.

ghost use Rattle.std.specs.Prelude.{◌≡◌, codes};
ghost use Rattle.std.specs.Str.{chars};
ghost use Rattle.icu_text.specs.Heads.{choice_read, comma_read, head_read, kind_end_read, kind_read, name_end_read};
ghost use Rattle.icu_text.specs.Heads.{name_read, select_read, select_word_read, view_head, view_letters};

use crate::scan::{Letters, after_letters, after_space};
use crate::state::ChoiceKind;
use soy_base::{begins_name, first, split_name};

/// The beginning of an argument, with what follows it.
#[derive(Clone, Copy)]
pub enum Head<'a> {
    /// A name and the brace after it.
    Placeholder(&'a str, &'a str),
    /// A name and the word of a kind of choice, up to the comma after it.
    Choice(ChoiceKind, &'a str, &'a str),
    /// No argument goes on as this does.
    Stuck(&'a str),
}

/// What follows a brace.
pub fn read_head(text: &str) -> Head<'_>
    ensures { view_head result ≡ head_read (chars text.now) }
{
    read_name(after_space(text))
}

/// A name, and what follows it.
fn read_name(text: &str) -> Head<'_>
    ensures { view_head result ≡ name_read (chars text.now) }
{
    match first(text) {
        None => Head::Stuck(text),
        Some((c, _)) => {
            if !begins_name(c) {
                return Head::Stuck(text);
            }
            let (name, rest) = split_name(text);
            read_name_end(name, after_space(rest))
        }
    }
}

/// What follows a name.
fn read_name_end<'a>(name: &'a str, text: &'a str) -> Head<'a>
    ensures { view_head result ≡ name_end_read (chars name.now) (chars text.now) }
{
    match first(text) {
        None => Head::Stuck(text),
        Some((c, after)) => {
            if c == '}' {
                return Head::Placeholder(name, after);
            }
            if c == ',' {
                return read_choice(name, after_space(after));
            }
            Head::Stuck(text)
        }
    }
}

/// The word of a kind of choice.
fn read_choice<'a>(name: &'a str, text: &'a str) -> Head<'a>
    ensures { view_head result ≡ choice_read (chars name.now) (chars text.now) }
{
    match first(text) {
        None => Head::Stuck(text),
        Some((c, after)) => {
            if c == 'p' {
                return read_kind(ChoiceKind::Plural, name, after_letters(b"lural", after));
            }
            if c == 's' {
                return read_select_word(name, after_letters(b"elect", after));
            }
            Head::Stuck(text)
        }
    }
}

/// What follows the word of a kind of choice, if it was read.
fn read_kind<'a>(kind: ChoiceKind, name: &'a str, letters: Letters<'a>) -> Head<'a>
    ensures { view_head result ≡ kind_read kind (chars name.now) (view_letters letters.entry) }
{
    match letters {
        Letters::Read(rest) => read_kind_end(kind, name, rest),
        Letters::Stuck(rest) => Head::Stuck(rest),
    }
}

/// What follows `select`, if it was read.
fn read_select_word<'a>(name: &'a str, letters: Letters<'a>) -> Head<'a>
    ensures { view_head result ≡ select_word_read (chars name.now) (view_letters letters.entry) }
{
    match letters {
        Letters::Read(rest) => read_select(name, rest),
        Letters::Stuck(rest) => Head::Stuck(rest),
    }
}

/// What follows `select`, which may go on as `selectordinal`.
fn read_select<'a>(name: &'a str, text: &'a str) -> Head<'a>
    ensures { view_head result ≡ select_read (chars name.now) (chars text.now) }
{
    match first(text) {
        None => Head::Stuck(text),
        Some((c, after)) => {
            if c == 'o' {
                return read_kind(ChoiceKind::Ordinal, name, after_letters(b"rdinal", after));
            }
            read_kind_end(ChoiceKind::Select, name, text)
        }
    }
}

/// What follows the word of a kind of choice.
fn read_kind_end<'a>(kind: ChoiceKind, name: &'a str, text: &'a str) -> Head<'a>
    ensures { view_head result ≡ kind_end_read kind (chars name.now) (chars text.now) }
{
    read_comma(kind, name, after_space(text))
}

/// The comma after the word of a kind of choice.
fn read_comma<'a>(kind: ChoiceKind, name: &'a str, text: &'a str) -> Head<'a>
    ensures { view_head result ≡ comma_read kind (chars name.now) (chars text.now) }
{
    match first(text) {
        None => Head::Stuck(text),
        Some((c, after)) => {
            if c == ',' {
                return Head::Choice(kind, name, after);
            }
            Head::Stuck(text)
        }
    }
}
