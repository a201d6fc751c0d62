//! The levels of a line (UAX #9, X1 to L1).
ghost use Rattle.std.specs.Prelude.{◌≡◌, ◌≤◌, true, IfOk, length, map};
ghost use Rattle.std.specs.List.{list_all};
ghost use Rattle.bidi_class.specs.Class.{bidi_class};
ghost use Rattle.bidi_order.specs.Levels.{line_levels};
ghost use Rattle.bidi_order.specs.Lines.{direction_level};
ghost use Rattle.bidi_order.specs.Reset.{reset_kind, reset_levels};
ghost use Rattle.bidi_preview.specs.FlatSteps.{is_flat};

use crate::explicit::{directed, read_classes, read_explicit};
use crate::flat::{are_flat, flat_levels};
use crate::plain::{are_plain, plain_levels};
use crate::reset::reset_levels;
use crate::sequence::resolve_line;
use bidi_class::Class;
use soy_base::{Dir, OutOfMemory, Seq};
use std::alloc::Global;

/// The level of each character of a line, and `None` for one that X9 removes, or that memory ran out.
///
/// The time is linear in the line: 63 brackets at most are open at a time, and each sequence is read once.
#[tactic(auto, using(crate::proofs::PlainLines::plain_is))]
pub fn levels(alloc: Global, base: Dir, line: &[char]) -> Result<Seq<Option<u8>>, OutOfMemory>
    ensures { IfOk result (λ levels. levels ≡ line_levels (direction_level base) line.now) }
{
    let base = base_level(base);
    let classes = read_classes(alloc, line)?;
    if are_plain(base == 1, &classes) {
        return Ok(Seq::new(plain_levels(alloc, base, &classes)?));
    }
    if are_flat(&classes) {
        return one_sequence(alloc, base, line, &classes);
    }
    turned_levels(alloc, base, line, classes)
}

/// The levels of a flat line, by its classes.
fn one_sequence(
    alloc: Global,
    base: u8,
    line: &[char],
    classes: &[Class],
) -> Result<Seq<Option<u8>>, OutOfMemory>
    requires base { base ≤ 1 }
    requires classes { classes.now ≡ map bidi_class line.now }
    requires flat { list_all is_flat classes.now ≡ true }
    ensures { IfOk result (λ levels. levels ≡ line_levels base line.now) }
{
    let levels = flat_levels(alloc, base, line, classes)?;
    Ok(Seq::new(reset_line(base, classes, levels)))
}

/// The levels of any line of these classes.
#[tactic(auto, using(crate::proofs::LineLevels::classes_long, crate::proofs::LineLevels::explicit_is, crate::proofs::LineLevels::levels_by, crate::proofs::LineLevels::line_long))]
fn turned_levels(
    alloc: Global,
    base: u8,
    line: &[char],
    classes: Vec<Class>,
) -> Result<Seq<Option<u8>>, OutOfMemory>
    requires base { base ≤ 1 }
    requires classes { classes.items ≡ map bidi_class line.now }
    ensures { IfOk result (λ levels. levels ≡ line_levels base line.now) }
{
    let classes = directed(alloc, classes)?;
    let kept = read_explicit(alloc, base, line, &classes)?;
    let levels = resolve_line(alloc, base, &kept)?;
    Ok(Seq::new(reset_line(base, &classes, levels)))
}

/// The levels after L1.
fn reset_line(base: u8, classes: &[Class], mut levels: Vec<Option<u8>>) -> Vec<Option<u8>>
    requires { length classes.now ≡ length levels.items }
    ensures { result.items ≡ reset_levels base (map reset_kind classes.now) levels.items }
{
    reset_levels(base, classes, &mut levels);
    levels
}

/// The level of a direction.
fn base_level(base: Dir) -> u8
    ensures value { result ≡ direction_level base }
    ensures bound { result ≤ 1 }
{
    match base {
        Dir::Ltr => 0,
        Dir::Rtl => 1,
    }
}
