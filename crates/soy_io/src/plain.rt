//! A library and a sink in memory that never fail.
ghost use Rattle.std.specs.Prelude.{◌≡◌, [], Some, IfErr, IfOk, length};
ghost use Rattle.soy_io.specs.Fetches.{Fetches};
ghost use Rattle.soy_io.specs.Puts.{Puts};

use crate::files::{NamedFile, fetch_from};
use crate::library::{Fetch, FetchFault, Library};
use crate::sink::{PutFault, Sink};
use std::alloc::Global;
use std::marker::Model;

/// A library of files in memory, which contracts see as its files. It never fails.
#[derive(Debug, Drop)]
pub struct PlainLibrary {
    files: Vec<NamedFile>,
}

impl Model for PlainLibrary {
    ghost use Rattle.soy_io.specs.FileOf.{Files};

    ghost Value = { Files };

    ghost view = { λ library. library.files.items };
}

impl PlainLibrary {
    /// The library of these files; of two files of one name the first is held.
    pub fn new(files: Vec<NamedFile>) -> PlainLibrary
        ensures { result ≡ files.items }
    {
        PlainLibrary { files }
    }
}

impl Library for PlainLibrary {
    ghost use Rattle.std.specs.Prelude.{Some};

    ghost held = { λ library. Some library };

    ghost faults = { λ _. 0 };

    fn fetch(&mut self, name: &str, into: &mut Vec<u8>, limit: usize) -> Result<Fetch, FetchFault>
        ensures same { self.new ≡ self.old }
        ensures answer { Fetches (Some self.old) name.now limit into.old.items into.new.items result }
        ensures memory_only { IfErr result (λ fault. fault ≡ FetchFault.OutOfMemory) }
    {
        fetch_from(&self.files, name, into, limit)
    }
}

/// A sink in memory, which contracts see as the bytes that it has taken. It takes each piece whole, and
/// never fails.
#[derive(Debug, Drop)]
pub struct PlainSink {
    taken: Vec<u8>,
}

impl Model for PlainSink {
    ghost use Rattle.std.specs.Prelude.{ℕ, List};

    ghost Value = { List ℕ };

    ghost view = { λ sink. sink.taken.items };
}

impl PlainSink {
    /// A sink that has taken nothing.
    pub fn new(alloc: Global) -> PlainSink
        ensures { result ≡ [] }
    {
        PlainSink {
            taken: Vec::new(alloc),
        }
    }

    /// The bytes that it has taken.
    pub fn taken(&self) -> &[u8]
        ensures { result.now ≡ self.now }
    {
        self.taken.as_slice()
    }
}

impl Sink for PlainSink {
    ghost use Rattle.std.specs.Prelude.{Some};

    ghost taken = { λ sink. Some sink };

    ghost faults = { λ _. 0 };

    fn put(&mut self, piece: &[u8]) -> Result<usize, PutFault>
        ensures taken { Puts (Some self.old) (Some self.new) piece.now result }
        ensures whole { IfOk result (λ count. count ≡ length piece.now) }
        ensures memory_only { IfErr result (λ fault. fault ≡ PutFault.OutOfMemory) }
    {
        self.taken.extend_from_slice(piece)?;
        Ok(piece.len())
    }
}
