//! Running out of memory.
use std::alloc::AllocError;

/// Out of memory. This crate depends on no other of the workspace, so the answer is a type of its own.
#[derive(Clone, Copy, Debug, PartialEq, Eq)]
pub struct OutOfMemory;

impl From<AllocError> for OutOfMemory {
    fn from(_error: AllocError) -> OutOfMemory {
        OutOfMemory
    }
}
