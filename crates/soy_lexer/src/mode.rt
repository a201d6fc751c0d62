//! The mode of the lexer: whether the rest of a text stands outside of commands or in one.

ghost use Rattle.std.specs.Prelude.{◌≡◌};
ghost use Rattle.soy_lexer.specs.ModeAfter.{mode_after, mode_after_skipped, mode_after_token};
ghost use Rattle.soy_lexer.specs.ReadsSegment.{view_segment};

use crate::source_segment::SourceSegment;
use crate::token::TokenKind;
use soy_base::is_template_space;

/// The mode in which the rest of a text is read.
#[derive(Clone, Copy, Debug, PartialEq, Eq)]
pub(crate) enum Mode {
    /// In text, with white space or the file's start directly before it or not.
    Outside(bool),
    /// In a command, directly after its `{`.
    Opened,
    /// In a command, further on.
    Inside,
}

impl Mode {
    /// The mode after a segment.
    pub(crate) fn after(self, segment: &SourceSegment) -> Mode
        ensures { result ≡ mode_after self (view_segment segment.now) }
    {
        match segment {
            SourceSegment::TextCharacter(c) => Mode::Outside(is_template_space(*c)),
            SourceSegment::Skipped(_) => self.after_skipped(),
            SourceSegment::Literal(_) => Mode::Outside(false),
            SourceSegment::CommandToken(kind, _, _) => Mode::after_token(*kind),
        }
    }

    /// The mode after a comment, or after white space in a command.
    fn after_skipped(self) -> Mode
        ensures { result ≡ mode_after_skipped self }
    {
        match self {
            Mode::Outside(_) => Mode::Outside(false),
            Mode::Opened | Mode::Inside => Mode::Inside,
        }
    }

    /// The mode after a token of a command.
    fn after_token(kind: TokenKind) -> Mode
        ensures { result ≡ mode_after_token kind }
    {
        match kind {
            TokenKind::Begin => Mode::Opened,
            TokenKind::End | TokenKind::SlashEnd => Mode::Outside(false),
            _ => Mode::Inside,
        }
    }
}
