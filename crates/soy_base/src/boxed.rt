//! A box that contracts see as what it holds.
ghost use Rattle.std.specs.Prelude.{◌≡◌, IfOk};

use crate::OutOfMemory;
use std::alloc::Global;
use std::marker::Model;

/// A `Box` that contracts see as its item: not its address, nor its allocator. A tree holds its branches so.
#[derive(Debug, Drop)]
pub struct Boxed<T> {
    item: Box<T>,
}

impl<T> Model for Boxed<T> {
    ghost Value = { T };

    ghost coded = { T.code };

    ghost view = { λ b. b.item.value };
}

impl<T> Boxed<T> {
    /// The item.
    pub fn get(&self) -> &T
        ensures { result.now ≡ self.now }
    {
        &self.item
    }
}

impl<T: Drop> Boxed<T> {
    /// The item, boxed.
    pub fn new(alloc: Global, item: T) -> Result<Boxed<T>, OutOfMemory>
        ensures { IfOk result (λ b. b ≡ item) }
    {
        Ok(Boxed {
            item: Box::new(alloc, item)?,
        })
    }
}
