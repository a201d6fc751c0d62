//! The lines of a page as they are seen.
ghost use Rattle.std.specs.Prelude.{◌≡◌, ◌++◌, [], ◌∷◌, IfOk};
ghost use Rattle.std.specs.Str.{chars};
ghost use Rattle.bidi_order.specs.MarkupTokens.{tokens_of};
ghost use Rattle.bidi_preview.specs.AutoDirections.{auto_directions};
ghost use Rattle.bidi_preview.specs.OneText.{IsOneText};
ghost use Rattle.bidi_preview.specs.Seen.{seen};
ghost use Rattle.soy_base.specs.Piece.Piece.{Static};

use crate::direction::Directions;
use crate::lines::Lines;
use crate::reading::{Given, PageReader};
use soy_base::{Dir, OutOfMemory, Seq, Text};
use std::alloc::Global;

/// Each line of a page as it is seen, or that memory ran out.
///
/// The page, as one static text, has no fault.
pub fn preview(alloc: Global, page: &str, context: Dir) -> Result<Seq<Text>, OutOfMemory>
    requires { IsOneText (chars page.now) }
    ensures { IfOk result (λ texts. texts ≡ seen (chars page.now) context) }
{
    show_page(alloc, page, context)
}

/// Each line of any page as it is seen, up to its first fault.
///
/// The page is read twice: first for the directions that go by content, then for its lines.
pub fn show_page(alloc: Global, page: &str, context: Dir) -> Result<Seq<Text>, OutOfMemory>
    ensures { IfOk result (λ texts. texts ≡ seen (chars page.now) context) }
{
    let directions = find_directions(alloc, page)?;
    read_lines(alloc, page, context, directions)
}

/// The directions of the elements that go by their content, in the order of their start tags.
fn find_directions(alloc: Global, page: &str) -> Result<Vec<bool>, OutOfMemory>
    ensures { IfOk result (λ found. found.items ≡ auto_directions [] (tokens_of (Static (chars page.now) ∷ []))) }
{
    let mut reader = PageReader::new(alloc);
    let mut given = Given::new(alloc);
    let mut directions = Directions::new(alloc);
    for c in page.chars() {
        let more = reader.read(alloc, c, &mut given)?;
        if !more {
            return directions.done(alloc);
        }
        directions.read(alloc, &mut given)?;
    }
    directions.done(alloc)
}

/// The texts of the lines, by the directions of the elements that go by their content.
fn read_lines(
    alloc: Global,
    page: &str,
    context: Dir,
    directions: Vec<bool>,
) -> Result<Seq<Text>, OutOfMemory>
    requires { directions.items ≡ auto_directions [] (tokens_of (Static (chars page.now) ∷ [])) }
    ensures { IfOk result (λ texts. texts ≡ seen (chars page.now) context) }
{
    let mut reader = PageReader::new(alloc);
    let mut given = Given::new(alloc);
    let mut lines = Lines::new(alloc, context, directions);
    for c in page.chars() {
        let more = reader.read(alloc, c, &mut given)?;
        if !more {
            return lines.done(alloc);
        }
        lines.read(alloc, &mut given)?;
    }
    lines.done(alloc)
}
