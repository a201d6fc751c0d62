//! Libraries and sinks that fail, or that are refused memory.
ghost use Rattle.std.specs.Prelude.{◌<◌, None};

use crate::running::{Ended, Row, files_of, split_words, taken_by};
use crate::shop::SHOP;
use soy_io::{
    Fetch, FetchFault, Library, MemoryLibrary, MemorySink, NamedFile, PlainLibrary, PlainSink,
    PutFault, Sink,
};
use soy_top::{Status, run};
use std::alloc::Global;

const FILE: &str = "{namespace t}\n{template m}\n{@param x: string}\n<b>{$x}</b>\n{/template}\n";

const JSON: &str = "{\"x\":\"<i>\"}";

const FILES: &[(&str, &str)] = &[
    ("t.soy", FILE),
    ("d.json", JSON),
    ("b.json", "{\"dir\":\"ltr\",\"messages\":{}}"),
];

const LETTERS: &[(&str, &str)] = &[
    (
        "t.soy",
        "{namespace t}\n\
         {template m}\n\
         \n\
         aaaaaaaaaaaaaaaaaaaaaaaaaaaaaaaaaaaaaaaaaaaaaaaaaa\
         aaaaaaaaaaaaaaaaaaaaaaaaaaaaaaaaaaaaaaaaaaaaaaaaaa\n\
         {/template}\n",
    ),
    ("d.json", "{}"),
];

/// A second value at the start of a URI.
const REFUSED: &[(&str, &str)] = &[
    (
        "t.soy",
        "{namespace t}\n\
         {template m}\n\
         {@param a: string}{@param b: string}\n\
         <a href=\"{$a}{$b}\">L</a>\n\
         {/template}\n",
    ),
    ("d.json", "{}"),
];

const PAGE: &[u8] = b"<b><span dir=\"ltr\">&lt;i&gt;</span></b>";

/// A list of one call.
pub(crate) fn only(alloc: Global, call: u64) -> Option<Vec<u64>> {
    let mut calls = Vec::new(alloc);
    calls.push(call).ok()?;
    Some(calls)
}

const RENDER: &str = "render t.m d.json - t.soy";

/// A run with an output that takes so many bytes a put and fails at one put.
fn with_failing_out(alloc: Global, files: Vec<NamedFile>, most: usize, put: u64) -> Option<Ended>
    requires { 0 < most }
{
    let words = split_words(alloc, RENDER)?;
    let mut files = PlainLibrary::new(files);
    let mut out = MemorySink::new(alloc, most, only(alloc, put)?);
    let mut err = PlainSink::new(alloc);
    let status = run(alloc, words.as_slice(), &mut files, &mut out, &mut err);
    taken_by(alloc, status, out.taken(), err.taken())
}

/// How a run over texts ended whose output fails at one put: the status and how many bytes of the page were taken.
fn failing(
    alloc: Global,
    files: &[(&str, &str)],
    most: usize,
    put: u64,
    page: &[u8],
) -> Option<(Status, usize)>
    requires { 0 < most }
{
    let ended = with_failing_out(alloc, files_of(alloc, files)?, most, put)?;
    taken_of(&ended, page)
}

/// The status, and how many bytes of the page were taken; none where other bytes were.
fn taken_of(ended: &Ended, page: &[u8]) -> Option<(Status, usize)> {
    let count = ended.out.len();
    if page.get(..count)? == ended.out.as_slice() && ended.err.is_empty() {
        Some((ended.status, count))
    } else {
        None
    }
}

#[test]
fn failing_puts(rt: HostRuntime) {
    // How many bytes a put takes, the put that fails, the status and how many bytes were taken.
    for (most, put, status, count) in [
        (3, 1, Status::Write, 0),
        (3, 2, Status::Write, 3),
        (3, 7, Status::Write, 18),
        (3, 12, Status::Write, 33),
        (3, 13, Status::Write, 35),
        (3, 14, Status::Write, 38),
        (3, 15, Status::Done, 39),
        (1, 39, Status::Write, 38),
        (2, 5, Status::Write, 7),
    ] {
        let found = failing(rt.alloc(), FILES, most, put, PAGE);
        assert_eq!(rt; found, Some((status, count)), "put {put} of {most}");
    }
}

#[test]
fn failing_out(rt: HostRuntime) {
    let page = b"aaaaaaaaaaaaaaaaaaaaaaaaaaaaaa";
    let found = failing(rt.alloc(), LETTERS, 3, 10, page);
    assert_eq!(rt; found, Some((Status::Write, 27)));
}

/// Four loops inside one another, over a list of 1,000 ints.
pub(crate) fn four_loops(alloc: Global) -> Option<Vec<NamedFile>> {
    let file = "{namespace t}\n{template m}\n{@param l: list<int>}\n\
        {for $a in $l}{for $b in $l}{for $c in $l}{for $d in $l}x{/for}{/for}{/for}{/for}\n{/template}\n";
    let mut json = String::from_str(alloc, "{\"l\":[0").ok()?;
    for _ in 1..1000 {
        json.push_str(",0").ok()?;
    }
    json.push_str("]}").ok()?;
    files_of(alloc, &[("t.soy", file), ("d.json", json.as_str())])
}

fn failing_loops(alloc: Global) -> Option<(Status, usize)> {
    let ended = with_failing_out(alloc, four_loops(alloc)?, 4096, 10)?;
    taken_of(&ended, b"xxxxxxxxx")
}

#[test]
fn loops_failing_put(rt: HostRuntime) {
    assert_eq!(rt; failing_loops(rt.alloc()), Some((Status::Write, 9)));
}

/// Lets each put of a row's page fail in turn until none does, and says how many there are; none where a run ends
/// otherwise than with Write and a prefix of the page.
fn puts_that_fail(alloc: Global, row: &Row) -> Option<u64> {
    let (_, line, files, _, page, _) = *row;
    let words = split_words(alloc, line)?;
    for put in 1..10_000 {
        let mut files = PlainLibrary::new(files_of(alloc, files)?);
        let mut out = MemorySink::new(alloc, 4096, only(alloc, put)?);
        let mut err = PlainSink::new(alloc);
        let status = run(alloc, words.as_slice(), &mut files, &mut out, &mut err);
        let ended = taken_by(alloc, status, out.taken(), err.taken())?;
        match taken_of(&ended, page.as_bytes())? {
            (Status::Write, _) => {}
            (Status::Done, count) if count == page.len() => return Some(put - 1),
            _ => return None,
        }
    }
    None
}

#[test]
fn each_put_of_the_shop(rt: HostRuntime) {
    for row in SHOP {
        let count = puts_that_fail(rt.alloc(), row);
        assert!(rt; count.unwrap_or(0) > 0, "row {}", row.0);
    }
}

/// A run that says a refusal on a standard error that fails at its first put.
fn with_failing_err(alloc: Global) -> Option<Ended> {
    let words = split_words(alloc, RENDER)?;
    let mut files = PlainLibrary::new(files_of(alloc, REFUSED)?);
    let mut out = PlainSink::new(alloc);
    let mut err = MemorySink::new(alloc, 9, only(alloc, 1)?);
    let status = run(alloc, words.as_slice(), &mut files, &mut out, &mut err);
    taken_by(alloc, status, out.taken(), err.taken())
}

/// A run in which one fetch fails.
fn with_failing_fetch(alloc: Global, fetch: u64) -> Option<Ended> {
    let words = split_words(alloc, "render t.m d.json b.json t.soy")?;
    let mut files = MemoryLibrary::new(files_of(alloc, FILES)?, only(alloc, fetch)?);
    let mut out = PlainSink::new(alloc);
    let mut err = PlainSink::new(alloc);
    let status = run(alloc, words.as_slice(), &mut files, &mut out, &mut err);
    taken_by(alloc, status, out.taken(), err.taken())
}

/// Whether a run ended so with this text on standard error, and the output took nothing.
fn has_said(ended: Option<Ended>, status: Status, text: &str) -> bool {
    match ended {
        Some(ended) => ended.is(status, b"", text.as_bytes()),
        None => false,
    }
}

#[test]
fn failing_err(rt: HostRuntime) {
    assert!(rt; has_said(with_failing_err(rt.alloc()), Status::Write, ""));
}

#[test]
fn failing_fetches(rt: HostRuntime) {
    for (fetch, text) in [
        (1, "d.json: read fault\n"),
        (2, "b.json: read fault\n"),
        (3, "t.soy: read fault\n"),
    ] {
        let ended = with_failing_fetch(rt.alloc(), fetch);
        assert!(rt; has_said(ended, Status::Read, text), "fetch {fetch}");
    }
}

/// A sink that is refused memory after so many puts, takes at most so many bytes of a piece, and counts
/// the bytes that it took.
#[derive(Drop)]
struct ScarceSink {
    left: u64,
    most: usize,
    count: usize,
}

impl ScarceSink {
    fn new(left: u64, most: usize) -> ScarceSink {
        ScarceSink {
            left,
            most,
            count: 0,
        }
    }
}

impl Sink for ScarceSink {
    ghost taken = { λ _. None };

    ghost faults = { λ _. 0 };

    fn put(&mut self, piece: &[u8]) -> Result<usize, PutFault> {
        if self.left == 0 {
            return Err(PutFault::OutOfMemory);
        }
        self.left -= 1;
        let count = piece.len().min(self.most.max(1));
        self.count = self.count.saturating_add(count);
        Ok(count)
    }
}

/// A library that has the same file under each name, and is refused memory after so many fetches.
#[derive(Drop)]
struct ScarceLibrary {
    left: u64,
}

impl Library for ScarceLibrary {
    ghost held = { λ _. None };

    ghost faults = { λ _. 0 };

    fn fetch(&mut self, _: &str, into: &mut Vec<u8>, _: usize) -> Result<Fetch, FetchFault> {
        if self.left == 0 {
            return Err(FetchFault::OutOfMemory);
        }
        self.left -= 1;
        into.extend_from_slice(JSON.as_bytes())?;
        Ok(Fetch::Whole)
    }
}

/// The status with an output that is refused memory after so many puts, and how many bytes it took.
fn with_scarce_out(alloc: Global, left: u64) -> Option<(Status, usize)> {
    let words = split_words(alloc, RENDER)?;
    let mut files = PlainLibrary::new(files_of(alloc, FILES)?);
    let mut out = ScarceSink::new(left, 4096);
    let mut err = PlainSink::new(alloc);
    let status = run(alloc, words.as_slice(), &mut files, &mut out, &mut err);
    Some((status, out.count))
}

/// The status with a standard error that is refused memory after so many puts of at most four bytes,
/// and how many bytes it took of a line of fifteen.
fn with_scarce_err(alloc: Global, left: u64) -> Option<(Status, usize)> {
    let words = split_words(alloc, "render t.zz d.json - t.soy")?;
    let mut files = PlainLibrary::new(files_of(alloc, FILES)?);
    let mut out = PlainSink::new(alloc);
    let mut err = ScarceSink::new(left, 4);
    let status = run(alloc, words.as_slice(), &mut files, &mut out, &mut err);
    Some((status, err.count))
}

/// A run with a library that is refused memory after so many fetches.
fn with_scarce_files(alloc: Global, left: u64) -> Option<Ended> {
    let words = split_words(alloc, RENDER)?;
    let mut files = ScarceLibrary { left };
    let mut out = PlainSink::new(alloc);
    let mut err = PlainSink::new(alloc);
    let status = run(alloc, words.as_slice(), &mut files, &mut out, &mut err);
    taken_by(alloc, status, out.taken(), err.taken())
}

#[test]
fn sinks_that_are_refused_memory(rt: HostRuntime) {
    // How many puts come before the refusal, the status, and how many bytes were taken.
    for (left, status, count) in [
        (0, Status::Memory, 0),
        (1, Status::Memory, 3),
        (2, Status::Memory, 35),
        (3, Status::Done, 39),
    ] {
        let ended = with_scarce_out(rt.alloc(), left);
        assert_eq!(rt; ended, Some((status, count)), "output, {left} puts");
    }
    for (left, status, count) in [
        (0, Status::Memory, 0),
        (1, Status::Memory, 4),
        (2, Status::Memory, 8),
        (3, Status::Memory, 12),
        (4, Status::Refused, 15),
    ] {
        let ended = with_scarce_err(rt.alloc(), left);
        assert_eq!(rt; ended, Some((status, count)), "standard error, {left} puts");
    }
}

#[test]
fn a_library_that_is_refused_memory(rt: HostRuntime) {
    for (left, status, text) in [
        (0, Status::Memory, ""),
        (1, Status::Memory, ""),
        (2, Status::Refused, "t.soy:1:2: 4 Syntax\n"),
    ] {
        let ended = with_scarce_files(rt.alloc(), left);
        assert!(rt; has_said(ended, status, text), "{left} fetches");
    }
}
