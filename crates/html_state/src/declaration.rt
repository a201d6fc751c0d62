//! Comments and declarations.

ghost use Rattle.std.specs.Prelude.{◌≡◌, Some, None, if◌then◌else◌};
ghost use Rattle.html_state.specs.DeclarationNext.{declaration_next};

use crate::row::DeclarationRow;

/// One more character. The answer says whether it ends the comment or declaration.
pub(crate) fn step_declaration(row: &mut DeclarationRow, c: char) -> bool
    ensures { declaration_next row.old c ≡ (if result then None else Some row.new) }
{
    use DeclarationRow::*;
    let next = match (*row, c) {
        (BogusComment | Doctype | CommentStart | StartDash | CommentEnd | EndBang, '>') =>
            return true,
        (Doctype, _) => Doctype,
        (CommentStart, '-') => StartDash,
        (StartDash | EndDash | CommentEnd, '-') => CommentEnd,
        (Comment | EndBang, '-') => EndDash,
        (CommentEnd, '!') => EndBang,
        (BogusComment, _) => BogusComment,
        _ => Comment,
    };
    *row = next;
    false
}
