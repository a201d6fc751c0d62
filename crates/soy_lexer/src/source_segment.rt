//! The segments of a text as they are read.

use crate::token::TokenKind;
use soy_base::Text;

/// A segment of a text, with the characters of its source.
#[derive(Debug, Drop)]
pub(crate) enum SourceSegment<'a> {
    /// A character of a text run.
    TextCharacter(char),
    /// A comment, or white space in a command.
    Skipped(&'a str),
    /// The characters between `{literal}` and `{/literal}`.
    Literal(&'a str),
    /// A token of a command: its kind, its source text, and its text.
    CommandToken(TokenKind, &'a str, Text),
}

/// The segment with which a text begins, and the rest of the text.
#[derive(Debug, Drop)]
pub(crate) struct FirstSegment<'a> {
    pub(crate) segment: SourceSegment<'a>,
    pub(crate) rest: &'a str,
}
