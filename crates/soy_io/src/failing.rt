//! A library and a sink in memory that fail at chosen calls.
ghost use Rattle.std.specs.Prelude.{◌≡◌, ◌≤◌, ◌<◌, ◌↔◌, [], Some, Err, IfOk, IfErr, IsTrue, MatchBool, length, min};
ghost use Rattle.std.specs.Bool.{OnTrue};
ghost use Rattle.soy_io.specs.CallsMade.{fails_next, next_made};
ghost use Rattle.soy_io.specs.FetchRose.{FetchRose};
ghost use Rattle.soy_io.specs.Fetches.{Fetches};
ghost use Rattle.soy_io.specs.PutRose.{PutRose};
ghost use Rattle.soy_io.specs.Puts.{Puts};
ghost use Rattle.soy_io.specs.Rose.{Rose};

use crate::files::{NamedFile, fetch_from};
use crate::library::{Fetch, FetchFault, Library};
use crate::sink::{PutFault, Sink};
use std::alloc::Global;
use std::marker::Model;

/// Counts the calls of a library or a sink, and says which of them fail.
#[derive(Debug, Drop)]
struct FailingCalls {
    fails: Vec<u64>,
    calls: u64,
    faults: u64,
}

impl Model for FailingCalls {
    ghost use Rattle.soy_io.specs.CallsMade.{CallsMade};

    ghost Value = { CallsMade };

    ghost view = { λ made. record { fails = made.fails.items; calls = made.calls; faults = made.faults } };
}

impl FailingCalls {
    /// No call was made yet, and the n-th, from 1, fails where n is in `fails`.
    fn new(fails: Vec<u64>) -> FailingCalls
        ensures { result ≡ record { fails = fails.items; calls = 0; faults = 0 } }
    {
        FailingCalls {
            fails,
            calls: 0,
            faults: 0,
        }
    }

    /// Counts a call, and says whether it is one of those that fail.
    fn fails_now(&mut self) -> bool
        ensures fails { result ≡ fails_next self.old }
        ensures counted { self.new ≡ next_made self.old }
        ensures failed { OnTrue result (Rose self.old.faults self.new.faults) }
        ensures later { self.old.faults ≤ self.new.faults }
    {
        self.calls = self.calls.saturating_add(1);
        let fails = self.fails.contains(&self.calls);
        if fails {
            self.faults = self.faults.saturating_add(1);
        }
        fails
    }
}

/// A library of files in memory that fails at chosen calls. Contracts know its files.
#[derive(Debug, Drop)]
pub struct MemoryLibrary {
    files: Vec<NamedFile>,
    made: FailingCalls,
}

impl Model for MemoryLibrary {
    ghost use Rattle.soy_io.specs.Memory.{FailingFiles};

    ghost Value = { FailingFiles };

    ghost view = { λ library. record { files = library.files.items; made = library.made } };
}

impl MemoryLibrary {
    /// The library of these files, whose n-th fetch, counted from 1, fails where n is in `fails`;
    /// of two files of one name the first is held.
    pub fn new(files: Vec<NamedFile>, fails: Vec<u64>) -> MemoryLibrary
        ensures { result
            ≡ record { files = files.items; made = record { fails = fails.items; calls = 0; faults = 0 } } }
    {
        MemoryLibrary {
            files,
            made: FailingCalls::new(fails),
        }
    }
}

impl Library for MemoryLibrary {
    ghost use Rattle.std.specs.Prelude.{Some};

    ghost held = { λ library. Some library.files };

    ghost faults = { λ library. library.made.faults };

    fn fetch(&mut self, name: &str, into: &mut Vec<u8>, limit: usize) -> Result<Fetch, FetchFault>
        ensures held { self.new.files ≡ self.old.files }
        ensures answer { Fetches (Some self.old.files) name.now limit into.old.items into.new.items result }
        ensures later { self.old.made.faults ≤ self.new.made.faults }
        ensures failed { IfErr result (λ fault. FetchRose fault self.old.made.faults self.new.made.faults) }

        // It fails at the chosen calls, and at no others.
        ensures fails { (result ≡ Err FetchFault.Failed) ↔ IsTrue (fails_next self.old.made) }
        ensures counted { self.new.made ≡ next_made self.old.made }
    {
        if self.made.fails_now() {
            return Err(FetchFault::Failed);
        }
        fetch_from(&self.files, name, into, limit)
    }
}

/// A sink in memory that fails at chosen calls, and takes at most so many bytes of a piece. Contracts
/// know the bytes that it has taken.
#[derive(Debug, Drop)]
pub struct MemorySink {
    taken: Vec<u8>,
    most: usize,
    made: FailingCalls,
}

impl Model for MemorySink {
    ghost use Rattle.std.specs.Prelude.{◌<◌};
    ghost use Rattle.soy_io.specs.Memory.{FailingBytes};

    ghost Value = { FailingBytes };

    ghost view = { λ sink. record { taken = sink.taken.items; most = sink.most; made = sink.made } };

    ghost invariant = { λ sink. 0 < sink.most };
}

impl MemorySink {
    /// A sink that has taken nothing, takes at most `most` bytes in one put, and whose n-th put,
    /// counted from 1, fails where n is in `fails`.
    pub fn new(alloc: Global, most: usize, fails: Vec<u64>) -> MemorySink
        requires { 0 < most }
        ensures { result
            ≡ record { taken = []; most = most; made = record { fails = fails.items; calls = 0; faults = 0 } } }
    {
        MemorySink {
            taken: Vec::new(alloc),
            most,
            made: FailingCalls::new(fails),
        }
    }

    /// The bytes that it has taken.
    pub fn taken(&self) -> &[u8]
        ensures { result.now ≡ self.now.taken }
    {
        self.taken.as_slice()
    }
}

impl Sink for MemorySink {
    ghost use Rattle.std.specs.Prelude.{Some};

    ghost taken = { λ sink. Some sink.taken };

    ghost faults = { λ sink. sink.made.faults };

    fn put(&mut self, piece: &[u8]) -> Result<usize, PutFault>
        ensures taken { Puts (Some self.old.taken) (Some self.new.taken) piece.now result }
        ensures later { self.old.made.faults ≤ self.new.made.faults }
        ensures failed { IfErr result (λ fault. PutRose fault self.old.made.faults self.new.made.faults) }

        // It fails at the chosen calls, and at no others, and takes as many bytes as it may.
        ensures fails { (result ≡ Err PutFault.Failed) ↔ IsTrue (fails_next self.old.made) }
        ensures counted { self.new.made ≡ next_made self.old.made }
        ensures count { IfOk result (λ count. count ≡ min self.old.most (length piece.now)) }
        ensures same_most { self.new.most ≡ self.old.most }
    {
        if self.made.fails_now() {
            return Err(PutFault::Failed);
        }
        let count = piece.len().min(self.most);
        self.taken.extend_from_slice(&piece[..count])?;
        Ok(count)
    }
}
