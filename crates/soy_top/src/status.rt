//! How a run ended.

/// How a run ended. The program's exit status is the number of the variant.
#[derive(Clone, Copy, Debug, PartialEq, Eq)]
pub enum Status {
    /// The whole answer was written.
    Done,
    /// Memory ran out.
    Memory,
    /// The words are no command.
    Usage,
    /// A file could not be read.
    Read,
    /// A sink failed.
    Write,
    /// The input was refused.
    Refused,
    /// Calls nest too deep.
    TooDeep,
}
