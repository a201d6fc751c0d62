//! Fetches the files that are wanted.

ghost use Rattle.std.specs.Prelude.{◌≡◌, ◌≤◌, [], IfOk, OnOk};
ghost use Rattle.soy_top.specs.Fetched.{FetchedContents, FetchesAll, FetchesFile, next_fetched, view_fetched};
ghost use Rattle.soy_top.specs.FilesWanted.{known_files};
ghost use Rattle.soy_top.specs.View.{view_file, view_files};

use crate::ending::Ending;
use crate::line::{read_line, too_large_line};
use crate::wanted::FileWanted;
use soy_base::{OutOfMemory, Seq, Text};
use soy_front::Source;
use soy_io::{Fetch, FetchFault, Library};
use std::alloc::Global;

/// What was fetched so far: the contents of the files within their limits, and the name of the first
/// file over its own.
#[derive(Drop)]
struct Fetched<'a> {
    contents: Vec<Source>,
    too_large: Option<&'a str>,
}

impl<'a> Fetched<'a> {
    /// Adds the bytes of a file, or that it is over its limit.
    fn add(
        &mut self,
        alloc: Global,
        name: &'a str,
        bytes: Option<Vec<u8>>,
    ) -> Result<(), OutOfMemory>
        ensures { OnOk result (view_fetched self.new ≡ next_fetched (view_fetched self.old) name.now bytes) }
    {
        match bytes {
            Some(bytes) => self.contents.push(source(alloc, name, bytes)?)?,
            None => self.too_large = self.too_large.or(Some(name)),
        }
        Ok(())
    }

    /// The contents, where each file is within its limit.
    fn contents(self, alloc: Global) -> Result<Vec<Source>, Ending>
        ensures { FetchedContents (view_fetched self.entry) result }
    {
        match self.too_large {
            Some(name) => Err(Ending::Refused(too_large_line(alloc, name)?)),
            None => Ok(self.contents),
        }
    }
}

/// A file of this name and these bytes.
fn source(alloc: Global, name: &str, bytes: Vec<u8>) -> Result<Source, OutOfMemory>
    ensures { IfOk result (λ source. source.bytes ≡ bytes.items) }
{
    Ok(Source {
        name: Text::new(String::from_str(alloc, name)?),
        bytes: Seq::new(bytes),
    })
}

/// The bytes of a file, if they are within its limit.
fn fetch<L: Library>(
    alloc: Global,
    files: &mut L,
    file: &FileWanted<'_>,
) -> Result<Option<Vec<u8>>, Ending>
    ensures held { L.held files.new ≡ L.held files.old }
    ensures later { L.faults files.old ≤ L.faults files.new }
    ensures fetched { FetchesFile (L.held files.old) (view_file file.now)
        (L.faults files.old, L.faults files.new) result }
{
    let mut bytes = Vec::new(alloc);
    match files.fetch(file.name, &mut bytes, file.limit) {
        Ok(Fetch::Whole) => Ok(Some(bytes)),
        Ok(Fetch::TooLarge) => Ok(None),
        Ok(Fetch::Missing) => Err(Ending::Read(read_line(alloc, file.name)?)),
        Err(FetchFault::Failed) => Err(Ending::Read(read_line(alloc, file.name)?)),
        Err(FetchFault::OutOfMemory) => Err(Ending::Memory),
    }
}

/// The contents of the files that are wanted, in their order.
pub(crate) fn fetch_all<L: Library>(
    alloc: Global,
    files: &mut L,
    wanted: &[FileWanted<'_>],
) -> Result<Vec<Source>, Ending>
    ensures held { L.held files.new ≡ L.held files.old }
    ensures later { L.faults files.old ≤ L.faults files.new }
    ensures untouched { view_files wanted.now ≡ [] → files.new ≡ files.old }
    ensures fetched { FetchesAll (known_files (L.held files.old) (view_files wanted.now)) (view_files wanted.now)
        (L.faults files.old, L.faults files.new) result }
{
    let mut fetched = Fetched {
        contents: Vec::new(alloc),
        too_large: None,
    };
    for file in wanted {
        let bytes = fetch(alloc, files, file)?;
        fetched.add(alloc, file.name, bytes)?;
    }
    fetched.contents(alloc)
}
