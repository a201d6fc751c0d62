//! The tokens of a file.

use soy_base::{Span, Text};

/// What a token is.
#[derive(Clone, Copy, Debug, PartialEq, Eq)]
pub enum TokenKind {
    /// A text run whose lines are joined, or a literal.
    Text,
    /// The `{` of a command.
    Begin,
    /// The `/` directly after a `{`, with the name that follows it.
    BeginClose,
    /// A name.
    Word,
    /// A `$` and a name.
    Variable,
    /// A whole number in decimal digits.
    Int,
    /// A string in single quotes.
    Str,
    /// A value in double quotes.
    Attribute,
    /// One of the symbols of expressions, types and character commands.
    Symbol,
    /// The `}` of a command.
    End,
    /// The `/}` of a command.
    SlashEnd,
}

/// A token: its kind, its span in the file, and its text.
///
/// The text is that of the joined run or the literal, the name without its `$` or `/`, the digits,
/// the string without its quotes and with its escapes undone, the value without its quotes, and
/// otherwise its source text.
#[derive(Debug, Drop)]
pub struct Token {
    pub kind: TokenKind,
    pub span: Span,
    pub text: Text,
}
