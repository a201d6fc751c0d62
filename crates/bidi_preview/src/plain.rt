//! Plain lines: each class in them gives the level of the base, whatever stands around it.
ghost use Rattle.std.specs.Prelude.{◌≡◌, IfOk, map};
ghost use Rattle.std.specs.List.{list_all};
ghost use Rattle.bidi_preview.specs.PlainSteps.{is_plain, plain_level};

use bidi_class::Class;
use soy_base::OutOfMemory;
use std::alloc::Global;

/// Whether the classes are those of a plain line.
pub(crate) fn are_plain(right_to_left: bool, classes: &[Class]) -> bool
    ensures { result ≡ list_all (is_plain right_to_left) classes.now }
{
    classes.iter().all(|class| is_plain(right_to_left, *class))
}

fn is_plain(right_to_left: bool, class: Class) -> bool
    ensures { result ≡ is_plain right_to_left class }
{
    match class {
        Class::L | Class::EN => !right_to_left,
        Class::R | Class::AL => right_to_left,
        Class::ES
        | Class::ET
        | Class::CS
        | Class::NSM
        | Class::BN
        | Class::B
        | Class::S
        | Class::WS
        | Class::ON => true,
        _ => false,
    }
}

/// The levels of a plain line.
pub(crate) fn plain_levels(
    alloc: Global,
    base: u8,
    classes: &[Class],
) -> Result<Vec<Option<u8>>, OutOfMemory>
    ensures { IfOk result (λ levels. levels.items ≡ map (plain_level base) classes.now) }
{
    let mut levels = Vec::with_capacity(alloc, classes.len())?;
    for class in classes {
        levels.push(plain_level(base, *class))?;
    }
    Ok(levels)
}

fn plain_level(base: u8, class: Class) -> Option<u8>
    ensures { result ≡ plain_level base class }
{
    match class {
        Class::BN => None,
        _ => Some(base),
    }
}
