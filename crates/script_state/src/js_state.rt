//! The states of a script, and how a character leads from one to the next.

ghost use Rattle.std.specs.Prelude.{◌≡◌, OnOk, OnErr};
ghost use Rattle.script_state.specs.JsNext.{js_next};
ghost use Rattle.script_state.specs.JsPlacing.{js_placing};

use crate::fault::Bad;
use crate::rows::{move_to, next_after_star, next_in_comment, next_in_string};
use soy_base::{Code, Place, Placing};

/// The state of a script at a point, by the characters before it. ECMAScript, "Comments" and
/// "String Literals".
#[derive(Clone, Copy, Debug, PartialEq, Eq)]
pub enum JsState {
    /// Outside comments and string literals.
    Code,
    /// After a slash that begins a comment or a fault.
    Slash,
    /// In a comment that ends at a line terminator.
    Line,
    /// In a comment that ends at a star and a slash.
    Block,
    /// In such a comment, after a star.
    BlockStar,
    /// In a string literal in single quotes.
    Single,
    /// In a string literal in double quotes.
    Double,
    /// In a string literal in single quotes, after a backslash.
    SingleEscape,
    /// In a string literal in double quotes, after a backslash.
    DoubleEscape,
}

impl JsState {
    /// The state in which a script begins.
    pub fn start() -> JsState
        ensures { result ≡ JsState.Code }
    {
        JsState::Code
    }

    /// Reads one character of the script. `Bad` says that the script can't be followed past it: at
    /// a backtick, a slash that begins no comment, or a line break in a string literal.
    pub fn step(&mut self, c: char) -> Result<(), Bad>
        ensures ok { OnOk result (js_next self.old c ≡ Some self.new) }
        ensures bad { OnErr result (js_next self.old c ≡ None) }
        ensures unchanged { OnErr result (self.new ≡ self.old) }
    {
        move_to(self, self.next(c))
    }

    /// A printed value stands here: it leaves the state.
    pub fn value(&mut self)
        ensures { self.new ≡ self.old }
    {}

    /// What happens to a printed value here.
    pub fn placing(&self) -> Placing
        ensures { result ≡ js_placing self.now }
    {
        match self {
            JsState::Code => Placing::Takes(Place::JsValue),
            JsState::Single => Placing::Takes(Place::JsSingle),
            JsState::Double => Placing::Takes(Place::JsDouble),
            _ => Placing::Refuses(Code::Place),
        }
    }

    /// The state after one character, or None where it is a fault.
    fn next(self, c: char) -> Option<JsState>
        ensures { result ≡ js_next self c }
    {
        use JsState::*;
        match self {
            Code => next_in_code(c),
            Slash => next_after_slash(c),
            Line => Some(next_in_line(c)),
            Block => Some(next_in_comment(Block, BlockStar, c)),
            BlockStar => Some(next_after_star(Block, BlockStar, Code, c)),
            Single => next_in_string('\'', Single, SingleEscape, Code, c),
            Double => next_in_string('"', Double, DoubleEscape, Code, c),
            SingleEscape => Some(Single),
            DoubleEscape => Some(Double),
        }
    }
}

/// The row of code outside comments and string literals.
fn next_in_code(c: char) -> Option<JsState>
    ensures { result ≡ js_next JsState.Code c }
{
    match c {
        '/' => Some(JsState::Slash),
        '\'' => Some(JsState::Single),
        '"' => Some(JsState::Double),
        '`' => None,
        _ => Some(JsState::Code),
    }
}

/// The row after a slash of code.
fn next_after_slash(c: char) -> Option<JsState>
    ensures { result ≡ js_next JsState.Slash c }
{
    match c {
        '/' => Some(JsState::Line),
        '*' => Some(JsState::Block),
        _ => None,
    }
}

/// The row of a comment that a line terminator ends.
fn next_in_line(c: char) -> JsState
    ensures { Some result ≡ js_next JsState.Line c }
{
    match c {
        '\n' | '\r' | '\u{2028}' | '\u{2029}' => JsState::Code,
        _ => JsState::Line,
    }
}
