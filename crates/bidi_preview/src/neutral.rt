//! Neutrals and isolate controls (UAX #9, N1 and N2), and implicit levels (I1 and I2).
ghost use Rattle.std.specs.Prelude.{◌≡◌, ◌+◌, ◌<◌, ◌≤◌, Bool, length};
ghost use Rattle.bidi_order.specs.Resolve.{between, implicit, n1};
ghost use Rattle.bidi_preview.specs.NeutralSteps.{filled, neutrals_so_far};

use crate::brackets::{class_direction, strong_class};
use bidi_class::Class;

/// N1, N2: each run of neutrals takes the direction on both sides, or the level's own.
#[tactic(auto, using(crate::proofs::NeutralRuns::neutrals_end, crate::proofs::NeutralRuns::filled_length))]
pub(crate) fn resolve_neutrals(own: bool, sos: bool, eos: bool, classes: &mut [Class])
    ensures { classes.new ≡ n1 own sos eos classes.old }
{
    let mut before = sos;
    let mut start = 0;
    for index in 0..classes.len() {
        (start, before) = read_class(own, before, start, index, classes);
    }
    let end = classes.len();
    fill(between(own, before, eos), start, end, classes);
}

/// Reads the class at an index. Where it has a direction, the neutrals since the last one are set. Says where the
/// neutrals now begin, and the direction before them.
#[tactic(auto, using(crate::proofs::NeutralRuns::filled_length, crate::proofs::NeutralRuns::neutrals_none, crate::proofs::NeutralRuns::neutrals_some))]
fn read_class(
    own: bool,
    before: bool,
    start: usize,
    index: usize,
    classes: &mut [Class],
) -> (usize, bool)
    requires order { start ≤ index }
    requires within { index < length classes.old }
    ensures order { result.0 ≤ index + 1 }
    ensures list { (eos : Bool) → neutrals_so_far own eos result.1 result.0 (index + 1) classes.new
        ≡ neutrals_so_far own eos before start index classes.old }
{
    match class_direction(classes[index]) {
        Some(direction) => {
            fill(between(own, before, direction), start, index, classes);
            (index + 1, direction)
        }
        None => (start, before),
    }
}

/// The class of neutrals between two directions.
fn between(own: bool, before: bool, after: bool) -> Class
    ensures { result ≡ between own before after }
{
    if before == after {
        strong_class(before)
    } else {
        strong_class(own)
    }
}

/// Sets the classes from one index up to another.
#[tactic(auto, using(crate::proofs::NeutralRuns::filled_set, crate::proofs::NeutralRuns::filled_none))]
fn fill(class: Class, start: usize, end: usize, classes: &mut [Class])
    requires order { start ≤ end }
    requires within { end ≤ length classes.old }
    ensures { classes.new ≡ filled class start end classes.old }
{
    for index in start..end {
        classes[index] = class;
    }
}

/// I1, I2: the level of a character.
pub(crate) fn implicit(level: u8, class: Class) -> u8
    requires { level ≤ 125 }
    ensures { result ≡ implicit level class }
{
    let odd = level % 2 == 1;
    match class {
        Class::L => if odd { level + 1 } else { level },
        Class::R => if odd { level } else { level + 1 },
        _ => if odd { level + 1 } else { level + 2 },
    }
}
