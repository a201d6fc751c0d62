//! Rows of limits: of the bytes of files and data, and of the number of files.

use crate::running::{run_line, run_words, split_words, two_files};
use soy_top::Status;
use std::alloc::Global;

/// A file with line breaks after it, of 1,048,577 bytes, and of one fewer without its first.
fn longest_file(alloc: Global) -> Option<Vec<u8>> {
    let mut file = Vec::from_slice(alloc, b" {namespace t}\n{template m}\na\n{/template}\n").ok()?;
    file.resize(1_048_577, b'\n').ok()?;
    Some(file)
}

/// `{}` with spaces before it, of 4,194,305 bytes, and of one fewer without its first.
fn longest_data(alloc: Global) -> Option<Vec<u8>> {
    let mut json = Vec::new(alloc);
    json.resize(4_194_303, b' ').ok()?;
    json.extend_from_slice(b"{}").ok()?;
    Some(json)
}

/// The name of a row, how many first bytes of the file and of the data are left out, the status, and what the output
/// and standard error take.
type LimitRow = (
    &'static str,
    usize,
    usize,
    Status,
    &'static str,
    &'static str,
);

const LIMITS: &[LimitRow] = &[
    ("both at the limit", 1, 1, Status::Done, "a", ""),
    (
        "too-large",
        0,
        1,
        Status::Refused,
        "",
        "t.soy:1:1: 2 TooLarge\n",
    ),
    (
        "data too large",
        1,
        0,
        Status::Refused,
        "",
        "d.json:1:1: 2 TooLarge\n",
    ),
    (
        "both too large",
        0,
        0,
        Status::Refused,
        "",
        "d.json:1:1: 2 TooLarge\n",
    ),
];

/// Whether the file and the data without so many first bytes are answered so.
fn is_limited(alloc: Global, file: &[u8], json: &[u8], row: &LimitRow) -> Option<bool> {
    let (_, file_out, json_out, status, out, err) = *row;
    let files = two_files(alloc, file.get(file_out..)?, json.get(json_out..)?)?;
    let ended = run_line(alloc, "render t.m d.json - t.soy", files)?;
    Some(ended.is(status, out.as_bytes(), err.as_bytes()))
}

#[test]
fn rows_of_limits(rt: HostRuntime) {
    let (Some(file), Some(json)) = (longest_file(rt.alloc()), longest_data(rt.alloc())) else {
        assert!(rt; false, "memory");
        return;
    };
    for row in LIMITS {
        let is_limited = is_limited(rt.alloc(), file.as_slice(), json.as_slice(), row);
        assert_eq!(rt;
            is_limited,
            Some(true),
            "{} and {} bytes left out",
            row.0,
            row.1
        );
    }
}

/// A render with so many `[` as data.
fn is_deep_refused(alloc: Global, count: usize) -> Option<bool> {
    let mut json = Vec::new(alloc);
    json.resize(count, b'[').ok()?;
    let file = b"{namespace t}\n{template m}\na\n{/template}\n";
    let files = two_files(alloc, file, json.as_slice())?;
    let ended = run_line(alloc, "render t.m d.json - t.soy", files)?;
    Some(ended.is(Status::Refused, b"", b"d.json:: 27 Data\n"))
}

#[test]
fn deep_data(rt: HostRuntime) {
    assert_eq!(rt; is_deep_refused(rt.alloc(), 4_194_304), Some(true));
}

/// The status of a command with so many files, none of which is there.
fn status_with_files(alloc: Global, command: &str, count: usize) -> Option<Status> {
    let mut words = split_words(alloc, command)?;
    for _ in 0..count {
        words.push(String::from_str(alloc, "t.soy").ok()?).ok()?;
    }
    let ended = run_words(alloc, words.as_slice(), Vec::new(alloc))?;
    Some(ended.status)
}

#[test]
fn rows_of_file_counts(rt: HostRuntime) {
    let counts = [
        (0, Status::Usage),
        (1, Status::Read),
        (64, Status::Read),
        (65, Status::Usage),
    ];
    for command in [
        "render t.m d.json b.json",
        "check -",
        "extract",
        "play s - -",
        "preview t.m d.json -",
    ] {
        for (count, status) in counts {
            let ended = status_with_files(rt.alloc(), command, count);
            assert_eq!(rt; ended, Some(status), "{command} with {count}");
        }
    }
}
