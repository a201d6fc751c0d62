//! The isolate controls that are in no pair.
ghost use Rattle.std.specs.Prelude.{◌≡◌, IfOk};
ghost use Rattle.std.specs.List.Sorted.{IsStrictlyIncreasing};
ghost use Rattle.std.specs.Str.{chars};
ghost use Rattle.bidi_text.specs.Clean.{dropped_bytes};

use crate::dropped::Marks;
use bidi_class::{Class, class_of};
use soy_base::{OutOfMemory, Seq};
use std::alloc::Global;

/// Finds the isolate controls of a text that are in no pair (UAX #9, BD9), or is out of memory.
///
/// The time is linear in the text, and the memory in the number of controls.
pub fn marks(alloc: Global, text: &str) -> Result<Marks, OutOfMemory>
    ensures offsets { IfOk result (λ found. found.places ≡ dropped_bytes (chars text.now)) }
    ensures ascending { IfOk result (λ found. IsStrictlyIncreasing found.places) }
{
    // First the PDIs that match nothing, then the initiators that are still open. No PDI that matches nothing can
    // follow an open initiator, so the offsets ascend.
    let mut offsets = Vec::new(alloc);
    let mut closings = 0;
    for (offset, c) in text.char_indices() {
        match class_of(c) {
            Class::LRI | Class::RLI | Class::FSI => offsets.push(offset as u64)?,
            Class::PDI if closings < offsets.len() => {
                offsets.pop();
            }
            Class::PDI => {
                offsets.push(offset as u64)?;
                closings += 1;
            }
            _ => {}
        }
    }
    Ok(Marks {
        places: Seq::new(offsets),
    })
}
