//! Lists of what isn't known yet.
ghost use Rattle.std.specs.Prelude.{◌≡◌, None, IfOk, replicate};

use soy_base::OutOfMemory;
use std::alloc::Global;

/// So many items that aren't known.
#[tactic(auto, using(crate::proofs::UnknownLists::absent_more))]
pub(crate) fn unknown<T: Drop>(alloc: Global, count: usize) -> Result<Vec<Option<T>>, OutOfMemory>
    ensures { IfOk result (λ absent. absent.items ≡ replicate count None) }
{
    let mut absent = Vec::with_capacity(alloc, count)?;
    for index in 0..count {
        absent.push(None)?;
    }
    Ok(absent)
}
