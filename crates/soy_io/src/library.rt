//! A library of named files.
ghost use Rattle.std.specs.Prelude.{◌≡◌, ℕ, ◌≤◌, List, Option, IfErr};
ghost use Rattle.soy_io.specs.FileOf.{Files};
ghost use Rattle.soy_io.specs.Fetches.{Fetches};
ghost use Rattle.soy_io.specs.FetchRose.{FetchRose};

use std::alloc::AllocError;
use thiserror::Error;

/// Named files that can be fetched. A name is seen as the list of its UTF-8 bytes.
pub trait Library {
    // The files that it holds, or `None` where they aren't known.
    ghost held: { Self → Option Files };

    // How many times it has failed.
    ghost faults: { Self → ℕ };

    /// Appends the bytes of the file with this name to `into`, if they are at most `limit`.
    ///
    /// `Whole` says that the file was appended; after any other answer `into` is unchanged. Where
    /// the files are known, `TooLarge` comes only for a file longer than `limit`, and `Missing` only
    /// where no file has the name; where they aren't known, `Missing` never comes. `Failed` comes
    /// only where the library failed in this call, and `OutOfMemory` where memory was refused.
    fn fetch(&mut self, name: &str, into: &mut Vec<u8>, limit: usize) -> Result<Fetch, FetchFault>
        ensures held { held self.new ≡ held self.old }
        ensures answer { Fetches (held self.old) name.now limit into.old.items into.new.items result }
        ensures later { faults self.old ≤ faults self.new }
        ensures failed { IfErr result (λ fault. FetchRose fault (faults self.old) (faults self.new)) };
}

/// What became of a fetch that didn't fail.
#[derive(Clone, Copy, Debug, PartialEq, Eq)]
pub enum Fetch {
    /// The whole file was appended.
    Whole,
    /// The file is longer than the limit.
    TooLarge,
    /// There is no file of this name.
    Missing,
}

/// Why a file wasn't fetched.
#[derive(Clone, Copy, Debug, Drop, PartialEq, Eq, Error)]
pub enum FetchFault {
    /// The library failed, and counted it.
    #[error("the library failed")]
    Failed,
    /// Memory was refused.
    #[error("out of memory")]
    OutOfMemory,
}

impl From<AllocError> for FetchFault {
    ghost use Rattle.soy_io.specs.declared.library.FetchFault.TheVariants as fetch_fault;
    ghost use Rattle.std.specs.Prelude.{◌≡◌};

    ghost from_gives = { λ _ fault. fault ≡ fetch_fault.OutOfMemory };

    fn from(_refused: AllocError) -> FetchFault {
        FetchFault::OutOfMemory
    }
}
