//! The files of the libraries in memory.
ghost use Rattle.std.specs.Prelude.{◌≡◌, ℕ, List, Some, IfErr, option_map};
ghost use Rattle.soy_io.specs.FileOf.{file_of};
ghost use Rattle.soy_io.specs.Fetches.{Fetches};

use crate::library::{Fetch, FetchFault};
use std::marker::Model;

/// A file of a library in memory.
#[derive(Debug, Drop)]
pub struct NamedFile {
    /// The name by which it is fetched.
    pub name: String,
    /// Its bytes.
    pub bytes: Vec<u8>,
}

impl Model for NamedFile {
    ghost use Rattle.std.specs.Prelude.{ℕ, List};
    ghost use Rattle.std.specs.String.{string_bytes};

    ghost Value = { List ℕ × List ℕ };

    ghost view = { λ file. (string_bytes file.name, file.bytes.items) };
}

/// The bytes of the file with this name, of two files of one name those of the first.
fn file_named<'a>(files: &'a [NamedFile], name: &str) -> Option<&'a [u8]>
    ensures { option_map (λ bytes. bytes.now) result ≡ file_of files.now name.now }
{
    for file in files {
        if file.name.as_str() == name {
            return Some(file.bytes.as_slice());
        }
    }
    None
}

/// The fetch of a library that holds these files and has no faults of its own.
pub(crate) fn fetch_from(
    files: &[NamedFile],
    name: &str,
    into: &mut Vec<u8>,
    limit: usize,
) -> Result<Fetch, FetchFault>
    ensures answer { Fetches (Some files.now) name.now limit into.old.items into.new.items result }
    ensures memory_only { IfErr result (λ fault. fault ≡ FetchFault.OutOfMemory) }
{
    match file_named(files, name) {
        None => Ok(Fetch::Missing),
        Some(bytes) if bytes.len() > limit => Ok(Fetch::TooLarge),
        Some(bytes) => {
            into.extend_from_slice(bytes)?;
            Ok(Fetch::Whole)
        }
    }
}
