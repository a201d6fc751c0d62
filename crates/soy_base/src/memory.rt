//! Running out of memory, and refusals that may be that.
ghost use Rattle.std.specs.Prelude.{◌≡◌};

use std::alloc::{AllocError, AllocFailed};

/// Memory ran out. It is the one answer that no contract rules out.
#[derive(Clone, Copy, Debug, PartialEq, Eq)]
pub struct OutOfMemory;

impl From<AllocError> for OutOfMemory {
    fn from(_: AllocError) -> OutOfMemory {
        OutOfMemory
    }
}

impl<T: Drop> From<AllocFailed<T>> for OutOfMemory {
    fn from(_: AllocFailed<T>) -> OutOfMemory {
        OutOfMemory
    }
}

/// The answer of a call that can be refused for a reason and for memory.
#[derive(Clone, Copy, Debug, PartialEq, Eq)]
pub enum Refusal<F> {
    Because(F),
    OutOfMemory,
}

impl<F> From<OutOfMemory> for Refusal<F> {
    ghost use Rattle.soy_base.specs.declared.memory.Refusal.TheVariants as refusal;

    ghost from_gives = { λ _ r. r ≡ refusal.OutOfMemory };

    fn from(_: OutOfMemory) -> Refusal<F> {
        Refusal::OutOfMemory
    }
}
