//! The words and the files of a call, read from parts of its bytes.

ghost use Rattle.std.specs.Prelude.{◌≡◌, ℕ, List, None, Some, IfOk, IfErr, option_map};
ghost use Rattle.std.specs.String.{string_bytes};
ghost use Rattle.soy_front.specs.ViewSources.{view_contents};
ghost use Rattle.soy_top.specs.Words.{command_words};
ghost use Rattle.soyc_c.specs.Call.{file_at, files_at, text_at, words_at};
ghost use Rattle.soyc_c.specs.CompileCall.{contents_at, names_at};
ghost use Rattle.soyc_c.specs.Parts.{part_bytes};
ghost use Rattle.soyc_c.specs.Stops.{StopsAt};

use soy_base::{Seq, Text};
use soy_front::Source;
use soy_io::NamedFile;
use std::alloc::{AllocError, AllocFailed, Global};
use std::str;

/// A part of the bytes of a call: from `begin` up to `end`, without the byte at `end`.
#[repr(C)]
#[derive(Clone, Copy)]
pub struct Part {
    /// The offset of its first byte.
    pub begin: usize,
    /// The offset after its last byte.
    pub end: usize,
}

/// The parts of a file.
#[repr(C)]
#[derive(Clone, Copy)]
pub struct FileParts {
    /// Its name, as the words name it.
    pub name: Part,
    /// Its content.
    pub content: Part,
}

/// Why a call has no words and files.
#[derive(Clone, Copy)]
pub(crate) enum Stop {
    /// A part isn't within the bytes, or a word or a name isn't UTF-8.
    Malformed,
    /// Memory ran out.
    Memory,
}

impl From<AllocError> for Stop {
    ghost use Rattle.soyc_c.specs.declared.parts.Stop.TheVariants as stop;
    ghost use Rattle.std.specs.Prelude.{◌≡◌};

    ghost from_gives = { λ _ s. s ≡ stop.Memory };

    fn from(_refused: AllocError) -> Stop {
        Stop::Memory
    }
}

impl<T: Drop> From<AllocFailed<T>> for Stop {
    ghost use Rattle.soyc_c.specs.declared.parts.Stop.TheVariants as stop;
    ghost use Rattle.std.specs.Prelude.{◌≡◌};

    ghost from_gives = { λ _ s. s ≡ stop.Memory };

    fn from(_refused: AllocFailed<T>) -> Stop {
        Stop::Memory
    }
}

/// The bytes of a part, if it is one of these bytes.
pub(crate) fn part_of(bytes: &[u8], part: Part) -> Option<&[u8]>
    ensures { option_map (λ found. found.now) result ≡ part_bytes bytes.now part }
{
    bytes.get(part.begin..part.end)
}

/// The text of a part, if it is a part and UTF-8.
pub(crate) fn text_of(bytes: &[u8], part: Part) -> Option<&str>
    ensures { option_map (λ text. text.now) result ≡ text_at bytes.now part }
{
    match part_of(bytes, part) {
        Some(found) => match str::from_utf8(found) {
            Ok(text) => Some(text),
            Err(_) => None,
        },
        None => None,
    }
}

/// A string of the text of a part.
fn string_of(alloc: Global, bytes: &[u8], part: Part) -> Result<String, Stop>
    ensures ok { IfOk result (λ text. text_at bytes.now part ≡ Some (string_bytes text)) }
    ensures err { IfErr result (λ stop. StopsAt stop (text_at bytes.now part)) }
{
    match text_of(bytes, part) {
        Some(text) => Ok(String::from_str(alloc, text)?),
        None => Err(Stop::Malformed),
    }
}

/// A list of the bytes of a part.
fn content_of(alloc: Global, bytes: &[u8], part: Part) -> Result<Vec<u8>, Stop>
    ensures ok { IfOk result (λ content. part_bytes bytes.now part ≡ Some content.items) }
    ensures err { IfErr result (λ stop. StopsAt stop (part_bytes bytes.now part)) }
{
    match part_of(bytes, part) {
        Some(found) => Ok(Vec::from_slice(alloc, found)?),
        None => Err(Stop::Malformed),
    }
}

/// A file of its parts.
fn file_of(alloc: Global, bytes: &[u8], file: FileParts) -> Result<NamedFile, Stop>
    ensures ok { IfOk result (λ found. file_at bytes.now file ≡ Some found) }
    ensures err { IfErr result (λ stop. StopsAt stop (file_at bytes.now file)) }
{
    let name = string_of(alloc, bytes, file.name)?;
    let bytes = content_of(alloc, bytes, file.content)?;
    Ok(NamedFile { name, bytes })
}

/// The words of a call.
pub(crate) fn words_of(alloc: Global, bytes: &[u8], parts: &[Part]) -> Result<Vec<String>, Stop>
    ensures ok { IfOk result (λ words. words_at bytes.now parts.now ≡ Some (command_words words.items)) }
    ensures err { IfErr result (λ stop. StopsAt stop (words_at bytes.now parts.now)) }
{
    let mut words = Vec::new(alloc);
    for part in parts {
        words.push(string_of(alloc, bytes, *part)?)?;
    }
    Ok(words)
}

/// The files of a call.
pub(crate) fn files_of(
    alloc: Global,
    bytes: &[u8],
    parts: &[FileParts],
) -> Result<Vec<NamedFile>, Stop>
    ensures ok { IfOk result (λ files. files_at bytes.now parts.now ≡ Some files.items) }
    ensures err { IfErr result (λ stop. StopsAt stop (files_at bytes.now parts.now)) }
{
    let mut files = Vec::new(alloc);
    for file in parts {
        files.push(file_of(alloc, bytes, *file)?)?;
    }
    Ok(files)
}

/// The names of the files of a call.
pub(crate) fn names_of(
    alloc: Global,
    bytes: &[u8],
    files: &[FileParts],
) -> Result<Vec<String>, Stop>
    ensures ok { IfOk result (λ names. names_at bytes.now files.now ≡ Some (command_words names.items)) }
    ensures err { IfErr result (λ stop. StopsAt stop (names_at bytes.now files.now)) }
{
    let mut names = Vec::new(alloc);
    for file in files {
        names.push(string_of(alloc, bytes, file.name)?)?;
    }
    Ok(names)
}

/// A file without a name of a part's bytes.
fn source_of(alloc: Global, bytes: &[u8], part: Part) -> Result<Source, Stop>
    ensures ok { IfOk result (λ source. part_bytes bytes.now part ≡ Some source.bytes) }
    ensures err { IfErr result (λ stop. StopsAt stop (part_bytes bytes.now part)) }
{
    let content = content_of(alloc, bytes, part)?;
    Ok(Source {
        name: Text::new(String::new(alloc)),
        bytes: Seq::new(content),
    })
}

/// The files of a call, without their names.
pub(crate) fn sources_of(
    alloc: Global,
    bytes: &[u8],
    files: &[FileParts],
) -> Result<Vec<Source>, Stop>
    ensures ok { IfOk result (λ sources. contents_at bytes.now files.now ≡ Some (view_contents sources.items)) }
    ensures err { IfErr result (λ stop. StopsAt stop (contents_at bytes.now files.now)) }
{
    let mut sources = Vec::new(alloc);
    for file in files {
        sources.push(source_of(alloc, bytes, file.content)?)?;
    }
    Ok(sources)
}
