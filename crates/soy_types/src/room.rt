//! Lists that get their room at once.

ghost use Rattle.std.specs.Prelude.{◌≡◌, [], ◌∷◌, ◌++◌, IfOk, OnOk};

use soy_base::OutOfMemory;
use std::alloc::Global;

/// A list without items that has room for so many.
pub(crate) fn with_room<T>(alloc: Global, count: usize) -> Result<Vec<T>, OutOfMemory>
    ensures { IfOk result (λ list. list.items ≡ []) }
{
    Ok(Vec::with_capacity(alloc, count)?)
}

/// Puts an item at the end.
pub(crate) fn put<T: Drop>(list: &mut Vec<T>, item: T) -> Result<(), OutOfMemory>
    ensures ok { OnOk result (list.new.items ≡ list.old.items ++ item ∷ []) }
{
    list.push(item)?;
    Ok(())
}
