//! What is wrong in a file, and where.

use crate::Code;

/// What is wrong, and where: the number of the file in the order in which the files were given,
/// and the offset in it, in bytes, both from 0.
#[derive(Clone, Copy, Debug, PartialEq, Eq)]
pub struct Fault {
    pub code: Code,
    pub file: u32,
    pub at: u64,
}

/// A part of a file, in bytes: from `start` up to but not with `end`.
#[derive(Clone, Copy, Debug, PartialEq, Eq)]
pub struct Span {
    pub start: u64,
    pub end: u64,
}

/// A call that nests too deep: the file and the offset of its `{call` command.
#[derive(Clone, Copy, Debug, PartialEq, Eq)]
pub struct TooDeep {
    pub file: u32,
    pub at: u64,
}
