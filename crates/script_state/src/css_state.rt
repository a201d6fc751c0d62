//! The states of a style, and how a character and a printed value lead from one to the next.

ghost use Rattle.std.specs.Prelude.{◌≡◌, OnOk, OnErr};
ghost use Rattle.script_state.specs.CssNext.{css_next, css_code_next};
ghost use Rattle.script_state.specs.CssPlacing.{css_placing};
ghost use Rattle.script_state.specs.CssAfterValue.{css_after_value};

use crate::fault::Bad;
use crate::rows::{move_to, next_after_star, next_in_comment, next_in_string};
use soy_base::{Code, Place, Placing};

/// The state of a style at a point, by the characters and values before it. CSS Syntax Level 3,
/// "Tokenization".
#[derive(Clone, Copy, Debug, PartialEq, Eq)]
pub enum CssState {
    /// Outside comments and strings, where no value may begin.
    Code,
    /// Outside comments and strings, where a value may begin.
    Ready,
    /// After a slash.
    Slash,
    /// In a comment.
    Comment,
    /// In a comment, after a star.
    CommentStar,
    /// Outside comments and strings, after a backslash.
    CodeEscape,
    /// In a string in single quotes.
    Single,
    /// In a string in double quotes.
    Double,
    /// In a string in single quotes, after a backslash.
    SingleEscape,
    /// In a string in double quotes, after a backslash.
    DoubleEscape,
    /// Directly after a printed value.
    AfterValue,
}

impl CssState {
    /// The state in which a style begins.
    pub fn start() -> CssState
        ensures { result ≡ CssState.Code }
    {
        CssState::Code
    }

    /// Reads one character of the style. `Bad` says that the style can't be followed past it: at a
    /// line break in a string, or where a printed value goes on in other text.
    pub fn step(&mut self, c: char) -> Result<(), Bad>
        ensures ok { OnOk result (css_next self.old c ≡ Some self.new) }
        ensures bad { OnErr result (css_next self.old c ≡ None) }
        ensures unchanged { OnErr result (self.new ≡ self.old) }
    {
        move_to(self, self.next(c))
    }

    /// A printed value stands here: it leads from `Ready` to `AfterValue` and leaves each other
    /// state.
    pub fn value(&mut self)
        ensures { self.new ≡ css_after_value self.old }
    {
        if *self == CssState::Ready {
            *self = CssState::AfterValue;
        }
    }

    /// What happens to a printed value here.
    pub fn placing(&self) -> Placing
        ensures { result ≡ css_placing self.now }
    {
        match self {
            CssState::Ready => Placing::Takes(Place::CssValue),
            CssState::Single | CssState::Double => Placing::Takes(Place::CssString),
            _ => Placing::Refuses(Code::Place),
        }
    }

    /// The state after one character, or None where it is a fault.
    fn next(self, c: char) -> Option<CssState>
        ensures { result ≡ css_next self c }
    {
        use CssState::*;
        match self {
            Code | Ready => Some(next_in_code(c)),
            Slash => Some(if c == '*' { Comment } else { next_in_code(c) }),
            Comment => Some(next_in_comment(Comment, CommentStar, c)),
            CommentStar => Some(next_after_star(Comment, CommentStar, Code, c)),
            CodeEscape => Some(Code),
            Single => next_in_string('\'', Single, SingleEscape, Code, c),
            Double => next_in_string('"', Double, DoubleEscape, Code, c),
            SingleEscape => Some(Single),
            DoubleEscape => Some(Double),
            AfterValue => next_after_value(c),
        }
    }
}

/// The rows of code, whether a value may begin there or not.
fn next_in_code(c: char) -> CssState
    ensures { result ≡ css_code_next c }
{
    match c {
        '\t' | '\n' | '\u{c}' | '\r' | ' ' | ':' | ',' | '(' => CssState::Ready,
        '/' => CssState::Slash,
        '\\' => CssState::CodeEscape,
        '\'' => CssState::Single,
        '"' => CssState::Double,
        _ => CssState::Code,
    }
}

/// The row after a printed value, which what follows must end.
fn next_after_value(c: char) -> Option<CssState>
    ensures { result ≡ css_next CssState.AfterValue c }
{
    match c {
        '\t' | '\n' | '\u{c}' | '\r' | ' ' | ',' => Some(CssState::Ready),
        ';' | ')' | '!' | '}' => Some(CssState::Code),
        _ => None,
    }
}
