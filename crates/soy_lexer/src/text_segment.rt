//! The segments of text outside of commands.

ghost use Rattle.std.specs.Prelude.{◌≡◌, ◌∷◌, ◌++◌, true, codes, unwrap_or};
ghost use Rattle.std.specs.Str.{chars};
ghost use Rattle.soy_base.specs.Characters.{left_brace};
ghost use Rattle.soy_base.specs.Cuts.{cut};
ghost use Rattle.soy_lexer.specs.ReadsSegment.{ReadsSegment};
ghost use Rattle.soy_lexer.specs.ReadsSegmentIf.{ReadsSegmentIf};
ghost use Rattle.soy_lexer.specs.TextSegment.{block_comment, closed_comment, closed_literal, line_comment};
ghost use Rattle.soy_lexer.specs.TextSegment.{literal_segment};
ghost use Rattle.soy_lexer.specs.TextSegment.{may_begin, plain_segment, text_segment};

use crate::begins::begins;
use crate::source_segment::{FirstSegment, SourceSegment};
use crate::token::TokenKind;
use soy_base::{Refusal, after_prefix, before, cut, first, split_line, text_of};
use std::alloc::Global;

/// The segment with which text begins that white space or the file's start comes before, or not.
pub(crate) fn text_segment<'a>(
    alloc: Global,
    white: bool,
    text: &'a str,
) -> Result<FirstSegment<'a>, Refusal<usize>>
    ensures { ReadsSegment (text_segment white (chars text.now)) result }
{
    match first(text) {
        Some(('/', rest)) => slash_segment(white, text, rest),
        Some(('{', rest)) => brace_segment(alloc, text, rest),
        Some(('}' | '\0', _)) | None => Err(Refusal::Because(0)),
        Some((c, rest)) => Ok(FirstSegment {
            segment: SourceSegment::TextCharacter(c),
            rest,
        }),
    }
}

/// A comment, or the slash with which the text begins.
fn slash_segment<'a>(
    white: bool,
    text: &'a str,
    rest: &'a str,
) -> Result<FirstSegment<'a>, Refusal<usize>>
    requires { chars text.now ≡ codes "/" ++ chars rest.now }
    ensures { ReadsSegment (text_segment white (chars text.now)) result }
{
    if let Some(comment) = block_comment(text) {
        return comment;
    }
    if white && let Some(comment) = line_comment(text) {
        return comment;
    }
    Ok(FirstSegment {
        segment: SourceSegment::TextCharacter('/'),
        rest,
    })
}

/// A literal, or the `{` with which the text begins.
fn brace_segment<'a>(
    alloc: Global,
    text: &'a str,
    rest: &'a str,
) -> Result<FirstSegment<'a>, Refusal<usize>>
    requires { chars text.now ≡ left_brace ∷ chars rest.now }
    ensures { ReadsSegment (unwrap_or (literal_segment (chars text.now)) (plain_segment (chars text.now))) result }
{
    match literal_segment(text) {
        Some(literal) => literal,
        None => begin_segment(alloc, text, rest),
    }
}

/// A comment that begins with `/*`, if the text begins with one.
fn block_comment<'a>(text: &'a str) -> Option<Result<FirstSegment<'a>, Refusal<usize>>>
    ensures { ReadsSegmentIf (block_comment (chars text.now)) result }
{
    let inner = after_prefix(text, "/*")?;
    Some(closed_comment(text, inner))
}

/// The comment whose `/*` stands before the second text.
fn closed_comment<'a>(text: &'a str, inner: &'a str) -> Result<FirstSegment<'a>, Refusal<usize>>
    requires { chars text.now ≡ codes "/*" ++ chars inner.now }
    ensures { ReadsSegment (closed_comment (cut (codes "*/") (chars inner.now))) result }
{
    match cut(inner, "*/") {
        Some((_, rest)) => {
            let comment = before(text, rest);
            begins(SourceSegment::Skipped(comment), comment, rest)
        }
        None => Err(Refusal::Because(0)),
    }
}

/// A comment that begins with `//`, if the text begins with one.
fn line_comment<'a>(text: &'a str) -> Option<Result<FirstSegment<'a>, Refusal<usize>>>
    ensures { ReadsSegmentIf (line_comment true (chars text.now)) result }
{
    let (_, rest) = split_line(after_prefix(text, "//")?);
    let comment = before(text, rest);
    Some(begins(SourceSegment::Skipped(comment), comment, rest))
}

/// A literal, if the text begins with one.
fn literal_segment<'a>(text: &'a str) -> Option<Result<FirstSegment<'a>, Refusal<usize>>>
    ensures { ReadsSegmentIf (literal_segment (chars text.now)) result }
{
    let inner = after_prefix(text, "{literal}")?;
    Some(closed_literal(text, inner))
}

/// The literal whose `{literal}` stands before the second text.
fn closed_literal<'a>(text: &'a str, inner: &'a str) -> Result<FirstSegment<'a>, Refusal<usize>>
    requires { chars text.now ≡ codes "{literal}" ++ chars inner.now }
    ensures { ReadsSegment (closed_literal (cut (codes "{/literal}") (chars inner.now))) result }
{
    match cut(inner, "{/literal}") {
        Some((literal, rest)) => begins(SourceSegment::Literal(literal), before(text, rest), rest),
        None => Err(Refusal::Because(0)),
    }
}

/// Whether a `{` before this text begins a command.
fn may_begin(text: &str) -> bool
    ensures { result ≡ may_begin (chars text.now) }
{
    match first(text) {
        Some((' ' | '\t' | '\n' | '\r' | '{', _)) => false,
        _ => true,
    }
}

/// The `{` of a command, if the rest may follow it.
fn begin_segment<'a>(
    alloc: Global,
    text: &'a str,
    rest: &'a str,
) -> Result<FirstSegment<'a>, Refusal<usize>>
    requires { chars text.now ≡ left_brace ∷ chars rest.now }
    ensures { ReadsSegment (plain_segment (chars text.now)) result }
{
    if !may_begin(rest) {
        return Err(Refusal::Because(0));
    }
    let brace = before(text, rest);
    let segment = SourceSegment::CommandToken(TokenKind::Begin, brace, text_of(alloc, brace)?);
    Ok(FirstSegment { segment, rest })
}
