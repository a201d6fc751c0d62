//! The segments of commands.

ghost use Rattle.std.specs.Prelude.{◌≡◌, ℕ, List, [], ◌∷◌, ◌++◌, IsTrue, nat_le, is_some, unwrap_or, option_map};
ghost use Rattle.std.specs.Prelude.{MatchOption, codes, true};
ghost use Rattle.std.specs.Char.{is_ascii_digit};
ghost use Rattle.std.specs.Str.{chars};
ghost use Rattle.soy_base.specs.Names.{begins_name};
ghost use Rattle.soy_base.specs.Characters.{slash, dollar_sign, double_quote};
ghost use Rattle.soy_base.specs.WhiteSpace.{is_template_space};
ghost use Rattle.soy_lexer.specs.ClosingName.{closing_name};
ghost use Rattle.soy_lexer.specs.CommandSegment.{command_segment, fixed_segment, int_segment, name_prefix};
ghost use Rattle.soy_lexer.specs.CommandSegment.{name_segment, number_after, one_of, opened_segment, symbol_segment};
ghost use Rattle.soy_lexer.specs.CommandSegment.{symbols_of_one, symbols_of_two, value_segment};
ghost use Rattle.soy_base.specs.Limits.{largest};
ghost use Rattle.soy_base.specs.Cuts.{cut};
ghost use Rattle.soy_lexer.specs.Found.Found.{Begins, Fails};
ghost use Rattle.soy_lexer.specs.Segment.Segment.{CommandToken};
ghost use Rattle.soy_lexer.specs.ReadsSegment.{ReadsSegment};
ghost use Rattle.soy_lexer.specs.declared.token.TokenKind.TheVariants as kind;

use crate::begins::begins;
use crate::source_segment::{FirstSegment, SourceSegment};
use crate::string::string_segment;
use crate::token::TokenKind;
use soy_base::{
    Refusal, before, begins_name, cut_at, first, is_template_space, split_digits, split_name,
    text_of,
};
use std::alloc::Global;

/// The greatest int that is a token.
const LARGEST_INT: u64 = 9007199254740991;

/// The segment with which a text in a command begins, directly after its `{`, where it closes; otherwise it is one that
/// may stand further on too.
pub(crate) fn closing_segment<'a>(
    alloc: Global,
    text: &'a str,
) -> Option<Result<FirstSegment<'a>, Refusal<usize>>>
    ensures { MatchOption result (opened_segment (chars text.now) ≡ command_segment (chars text.now))
        (ReadsSegment (opened_segment (chars text.now))) }
{
    match closing_name(text) {
        Some((name, rest)) => {
            let source_text = before(text, rest);
            Some(command_token(alloc, TokenKind::BeginClose, source_text, name, rest))
        }
        None => None,
    }
}

/// The name after a slash, and what follows it.
fn closing_name(text: &str) -> Option<(&str, &str)>
    ensures { option_map (λ name. (chars name.0.now, chars name.1.now)) result ≡ closing_name (chars text.now) }
{
    match first(text)? {
        ('/', named) => name_prefix(named),
        _ => None,
    }
}

/// The segment with which a text in a command begins.
pub(crate) fn command_segment<'a>(
    alloc: Global,
    text: &'a str,
) -> Result<FirstSegment<'a>, Refusal<usize>>
    ensures { ReadsSegment (command_segment (chars text.now)) result }
{
    match first(text) {
        Some((c, rest)) => segment_by_first(alloc, text, c, rest),
        None => Err(Refusal::Because(0)),
    }
}

/// The segment with which a text in a command begins, by its first character `c`.
fn segment_by_first<'a>(
    alloc: Global,
    text: &'a str,
    c: char,
    rest: &'a str,
) -> Result<FirstSegment<'a>, Refusal<usize>>
    requires { chars text.now ≡ c ∷ chars rest.now }
    ensures { ReadsSegment (command_segment (chars text.now)) result }
{
    if is_template_space(c) {
        let segment = SourceSegment::Skipped(before(text, rest));
        Ok(FirstSegment { segment, rest })
    } else if begins_name(c) {
        word_segment(alloc, text)
    } else if c.is_ascii_digit() {
        int_segment(alloc, text, c, rest)
    } else {
        match c {
            '}' => command_token_to(alloc, TokenKind::End, text, rest),
            '/' => slash_segment(alloc, text, rest),
            '$' => variable_segment(alloc, text, rest),
            '\'' => string_segment(alloc, text, rest),
            '"' => attribute_segment(alloc, text, rest),
            _ => symbol_segment(alloc, text, c, rest),
        }
    }
}

/// A token in which no U+0000 can stand.
fn command_token<'a>(
    alloc: Global,
    kind: TokenKind,
    source_text: &'a str,
    value: &str,
    rest: &'a str,
) -> Result<FirstSegment<'a>, Refusal<usize>>
    ensures { ReadsSegment
        (Begins (CommandToken kind (chars source_text.now) (chars value.now)) (chars rest.now)) result }
{
    let value = text_of(alloc, value)?;
    let segment = SourceSegment::CommandToken(kind, source_text, value);
    Ok(FirstSegment { segment, rest })
}

/// A token that goes up to the rest of its text, and whose text is its source text.
fn command_token_to<'a>(
    alloc: Global,
    kind: TokenKind,
    text: &'a str,
    rest: &'a str,
) -> Result<FirstSegment<'a>, Refusal<usize>>
    requires { (prefix : List ℕ) × (chars text.now ≡ prefix ++ chars rest.now) }
    ensures { (prefix : List ℕ) × (chars text.now ≡ prefix ++ chars rest.now)
        × ReadsSegment (Begins (CommandToken kind prefix prefix) (chars rest.now)) result }
{
    let source_text = before(text, rest);
    command_token(alloc, kind, source_text, source_text, rest)
}

/// The name at the start of a text, and what follows it.
fn name_prefix(text: &str) -> Option<(&str, &str)>
    ensures { option_map (λ name. (chars name.0.now, chars name.1.now)) result ≡ name_prefix (chars text.now) }
{
    let (c, _) = first(text)?;
    if begins_name(c) {
        Some(split_name(text))
    } else {
        None
    }
}

/// A name.
fn word_segment<'a>(alloc: Global, text: &'a str) -> Result<FirstSegment<'a>, Refusal<usize>>
    ensures { ReadsSegment (unwrap_or (name_segment kind.Word [] (chars text.now)) (Fails 0)) result }
{
    match name_prefix(text) {
        Some((name, rest)) => command_token(alloc, TokenKind::Word, name, name, rest),
        None => Err(Refusal::Because(0)),
    }
}

/// A variable; the second text is the first without its `$`.
fn variable_segment<'a>(
    alloc: Global,
    text: &'a str,
    named: &'a str,
) -> Result<FirstSegment<'a>, Refusal<usize>>
    requires { chars text.now ≡ dollar_sign ∷ chars named.now }
    ensures { ReadsSegment
        (unwrap_or (name_segment kind.Variable (dollar_sign ∷ []) (chars named.now)) (Fails 0)) result }
{
    match name_prefix(named) {
        Some((name, rest)) => {
            let source_text = before(text, rest);
            command_token(alloc, TokenKind::Variable, source_text, name, rest)
        }
        None => Err(Refusal::Because(0)),
    }
}

/// An int; `c` is the first digit, and the second text follows it.
fn int_segment<'a>(
    alloc: Global,
    text: &'a str,
    c: char,
    rest: &'a str,
) -> Result<FirstSegment<'a>, Refusal<usize>>
    requires text { chars text.now ≡ c ∷ chars rest.now }
    requires digit { IsTrue (is_ascii_digit c) }
    ensures { ReadsSegment (unwrap_or (int_segment (chars text.now)) (Fails 0)) result }
{
    if c == '0' {
        return command_token_to(alloc, TokenKind::Int, text, rest);
    }
    let (digits, rest) = split_digits(text);
    if is_within_limit(digits) {
        command_token(alloc, TokenKind::Int, digits, digits, rest)
    } else {
        Err(Refusal::Because(0))
    }
}

/// Whether the number that digits write is at most the greatest int, however many they are.
fn is_within_limit(digits: &str) -> bool
    ensures { result ≡ nat_le (number_after 0 (chars digits.now)) largest }
{
    let mut number = 0u64;
    for digit in digits.chars() {
        number = 10 * number + (digit as u64).saturating_sub(48);
        if number > LARGEST_INT {
            return false;
        }
    }
    true
}

/// A value in double quotes; the second text is the first without its quote.
fn attribute_segment<'a>(
    alloc: Global,
    text: &'a str,
    inner: &'a str,
) -> Result<FirstSegment<'a>, Refusal<usize>>
    requires { chars text.now ≡ double_quote ∷ chars inner.now }
    ensures { ReadsSegment (value_segment (cut (double_quote ∷ []) (chars inner.now))) result }
{
    match cut_at(inner, '"') {
        Some((value, rest)) => {
            let source_text = before(text, rest);
            let value = text_of(alloc, value)?;
            begins(
                SourceSegment::CommandToken(TokenKind::Attribute, source_text, value),
                source_text,
                rest,
            )
        }
        None => Err(Refusal::Because(0)),
    }
}

/// The `/}` of a command; the second text is the first without its slash.
fn slash_segment<'a>(
    alloc: Global,
    text: &'a str,
    after: &'a str,
) -> Result<FirstSegment<'a>, Refusal<usize>>
    requires { chars text.now ≡ slash ∷ chars after.now }
    ensures { ReadsSegment (unwrap_or (fixed_segment kind.SlashEnd (codes "/}") (chars text.now)) (Fails 0)) result }
{
    match first(after) {
        Some(('}', rest)) => command_token_to(alloc, TokenKind::SlashEnd, text, rest),
        _ => Err(Refusal::Because(0)),
    }
}

/// A symbol, the longest that begins with `c`.
fn symbol_segment<'a>(
    alloc: Global,
    text: &'a str,
    c: char,
    after: &'a str,
) -> Result<FirstSegment<'a>, Refusal<usize>>
    requires { chars text.now ≡ c ∷ chars after.now }
    ensures { ReadsSegment (unwrap_or (symbol_segment (chars text.now)) (Fails 0)) result }
{
    match after_symbol_of_two(c, after) {
        Some(rest) => command_token_to(alloc, TokenKind::Symbol, text, rest),
        None if is_symbol_of_one(c) => command_token_to(alloc, TokenKind::Symbol, text, after),
        None => Err(Refusal::Because(0)),
    }
}

/// What follows a symbol of two characters, if these are the first one and the one after it.
fn after_symbol_of_two(c: char, after: &str) -> Option<&str>
    ensures { MatchOption result (one_of symbols_of_two (c ∷ chars after.now) ≡ None)
        (λ rest. (d : ℕ) × (chars after.now ≡ d ∷ chars rest.now)
        × (is_some (one_of symbols_of_two (c ∷ d ∷ [])) ≡ true)) }
{
    let (d, rest) = first(after)?;
    if is_symbol_of_two(c, d) {
        Some(rest)
    } else {
        None
    }
}

/// Whether these two characters are a symbol.
fn is_symbol_of_two(c: char, d: char) -> bool
    ensures { result ≡ is_some (one_of symbols_of_two (c ∷ d ∷ [])) }
{
    match c {
        '?' => matches!(d, '.' | '[' | ':' | '?'),
        '=' | '!' | '<' | '>' => d == '=',
        '\\' => matches!(d, 'n' | 'r' | 't'),
        _ => false,
    }
}

/// Whether this character alone is a symbol.
fn is_symbol_of_one(c: char) -> bool
    ensures { result ≡ is_some (one_of symbols_of_one (c ∷ [])) }
{
    matches!(
        c,
        '.' | '['
            | ']'
            | '('
            | ')'
            | ','
            | ':'
            | '?'
            | '='
            | '<'
            | '>'
            | '+'
            | '-'
            | '*'
            | '%'
            | '|'
            | '@'
    )
}
