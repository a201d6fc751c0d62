//! Rows of words and files, and runs in memory that answer them.

use soy_io::{NamedFile, PlainLibrary, PlainSink};
use soy_top::{Status, run};
use std::alloc::Global;

/// A row: its name, the words with one space between two of them, the files with their texts, the status, and what the
/// output and standard error take.
pub(crate) type Row = (
    &'static str,
    &'static str,
    &'static [(&'static str, &'static str)],
    Status,
    &'static str,
    &'static str,
);

/// How a run ended: the status, and what the output and standard error took.
#[derive(Drop)]
pub(crate) struct Ended {
    pub(crate) status: Status,
    pub(crate) out: Vec<u8>,
    pub(crate) err: Vec<u8>,
}

impl Ended {
    /// Whether it is this status, with these texts on the output and on standard error.
    pub(crate) fn is(&self, status: Status, out: &[u8], err: &[u8]) -> bool {
        self.status == status && self.out.as_slice() == out && self.err.as_slice() == err
    }
}

/// The words of a line, with one space between two of them, and none in an empty line.
pub(crate) fn split_words(alloc: Global, line: &str) -> Option<Vec<String>> {
    let mut words = Vec::new(alloc);
    if line.is_empty() {
        return Some(words);
    }
    for word in line.split(' ') {
        words.push(String::from_str(alloc, word).ok()?).ok()?;
    }
    Some(words)
}

/// A file in memory.
fn named(alloc: Global, name: &str, bytes: &[u8]) -> Option<NamedFile> {
    let name = String::from_str(alloc, name).ok()?;
    let bytes = Vec::from_slice(alloc, bytes).ok()?;
    Some(NamedFile { name, bytes })
}

/// Files of these names and texts.
pub(crate) fn files_of(alloc: Global, files: &[(&str, &str)]) -> Option<Vec<NamedFile>> {
    let mut held = Vec::new(alloc);
    for (name, text) in files {
        held.push(named(alloc, name, text.as_bytes())?).ok()?;
    }
    Some(held)
}

/// The files t.soy and d.json of these bytes.
pub(crate) fn two_files(alloc: Global, file: &[u8], json: &[u8]) -> Option<Vec<NamedFile>> {
    let mut held = Vec::new(alloc);
    held.push(named(alloc, "t.soy", file)?).ok()?;
    held.push(named(alloc, "d.json", json)?).ok()?;
    Some(held)
}

/// A run that ended so, by what its sinks took.
pub(crate) fn taken_by(alloc: Global, status: Status, out: &[u8], err: &[u8]) -> Option<Ended> {
    let out = Vec::from_slice(alloc, out).ok()?;
    let err = Vec::from_slice(alloc, err).ok()?;
    Some(Ended { status, out, err })
}

/// A run over a library and sinks that never fail.
pub(crate) fn run_words(alloc: Global, words: &[String], files: Vec<NamedFile>) -> Option<Ended> {
    let mut files = PlainLibrary::new(files);
    let mut out = PlainSink::new(alloc);
    let mut err = PlainSink::new(alloc);
    let status = run(alloc, words, &mut files, &mut out, &mut err);
    taken_by(alloc, status, out.taken(), err.taken())
}

/// A run of a line of words over a library and sinks that never fail.
pub(crate) fn run_line(alloc: Global, line: &str, files: Vec<NamedFile>) -> Option<Ended> {
    let words = split_words(alloc, line)?;
    run_words(alloc, words.as_slice(), files)
}

/// Whether a row is answered as it says; not so where memory ran out.
pub(crate) fn is_answered(alloc: Global, row: &Row) -> bool {
    let (_, line, files, status, out, err) = *row;
    let Some(files) = files_of(alloc, files) else {
        return false;
    };
    match run_line(alloc, line, files) {
        Some(ended) => ended.is(status, out.as_bytes(), err.as_bytes()),
        None => false,
    }
}
