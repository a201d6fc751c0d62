//! The characters of a text that stand for themselves.

ghost use Rattle.std.specs.Prelude.{◌≡◌, ◌==◌, not};
ghost use Rattle.std.specs.Str.{chars, IsUtf8};
ghost use Rattle.soy_base.specs.Characters.{single_quote};
ghost use Rattle.soy_base.specs.Cuts.{after_while, prefix_while};
ghost use Rattle.soy_rules.specs.IcuText.{AtTop, InPlural, InSelect, is_plain, is_quotable};
ghost use Rattle.icu_text.specs.PatternSteps.{pattern_mode};

use crate::state::Frame;
use soy_base::{Stack, split_while};

/// Whether an apostrophe quotes where the character follows it.
pub fn is_quotable(frames: &Stack<Frame>, c: char) -> bool
    ensures { result ≡ is_quotable (pattern_mode frames.now) c }
{
    match frames.top() {
        None => c == '{' || c == '}',
        Some(Frame::Plural(_, _)) => c == '{' || c == '}' || c == '#',
        Some(Frame::Select(_, _)) => c == '{' || c == '}',
    }
}

/// Whether quoted text goes on with the character.
pub fn is_quoted(c: char) -> bool
    ensures { result ≡ not (c == single_quote) }
{
    c != '\''
}

fn is_plain_at_top(c: char) -> bool
    ensures { result ≡ is_plain AtTop c }
{
    !(c == '\'' || c == '{')
}

fn is_plain_in_plural(c: char) -> bool
    ensures { result ≡ is_plain InPlural c }
{
    !(c == '\'' || c == '{' || c == '}' || c == '#')
}

fn is_plain_in_select(c: char) -> bool
    ensures { result ≡ is_plain InSelect c }
{
    !(c == '\'' || c == '{' || c == '}')
}

/// The characters that stand for themselves which a text begins with, and what follows them.
pub fn split_plain<'a>(frames: &Stack<Frame>, text: &'a str) -> (&'a str, &'a str)
    ensures prefix { chars result.0.now ≡ prefix_while (is_plain (pattern_mode frames.now)) (chars text.now) }
    ensures rest { chars result.1.now ≡ after_while (is_plain (pattern_mode frames.now)) (chars text.now) }
    ensures utf8 { IsUtf8 result.1.now }
{
    match frames.top() {
        None => split_while(text, is_plain_at_top),
        Some(Frame::Plural(_, _)) => split_while(text, is_plain_in_plural),
        Some(Frame::Select(_, _)) => split_while(text, is_plain_in_select),
    }
}
