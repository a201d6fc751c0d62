//! The rows that the tables of script and style have alike, and what a step makes of a row.

ghost use Rattle.std.specs.Prelude.{◌≡◌, OnOk, OnErr, Some, None};
ghost use Rattle.script_state.specs.CommentNext.{comment_next, comment_star_next};
ghost use Rattle.script_state.specs.StringNext.{string_next};

use crate::fault::Bad;

/// Moves a state to the next one, or leaves it unchanged where there is none.
pub(crate) fn move_to<S: Copy>(state: &mut S, next: Option<S>) -> Result<(), Bad>
    ensures ok { OnOk result (next ≡ Some state.new) }
    ensures bad { OnErr result (next ≡ None) }
    ensures unchanged { OnErr result (state.new ≡ state.old) }
{
    match next {
        Some(next) => {
            *state = next;
            Ok(())
        }
        None => Err(Bad),
    }
}

/// The state after a character `c` of a string literal in which no escape is open, or None at a line
/// break. `quote` ends the literal; the states are those within it, after its backslash and after
/// its end. ECMAScript, "String Literals"; CSS Syntax Level 3, "Consume a string token".
pub(crate) fn next_in_string<S: Copy>(
    quote: char,
    within: S,
    escape: S,
    after: S,
    c: char,
) -> Option<S>
    ensures { result ≡ string_next quote within escape after c }
{
    if c == '\\' {
        Some(escape)
    } else if c == quote {
        Some(after)
    } else if matches!(c, '\n' | '\r') {
        None
    } else {
        Some(within)
    }
}

/// The state after a character `c` of a comment between `/*` and `*/` that follows no star. The
/// states are those within the comment and after a star in it.
pub(crate) fn next_in_comment<S: Copy>(within: S, star: S, c: char) -> S
    ensures { result ≡ comment_next within star c }
{
    if c == '*' { star } else { within }
}

/// The state after a character `c` that follows a star of such a comment; `after` is the state after
/// its end.
pub(crate) fn next_after_star<S: Copy>(within: S, star: S, after: S, c: char) -> S
    ensures { result ≡ comment_star_next within star after c }
{
    if c == '/' {
        after
    } else {
        next_in_comment(within, star, c)
    }
}
