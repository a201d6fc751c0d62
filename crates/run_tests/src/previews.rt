//! Rows of `preview`: pages with their lines as they are seen, pages that stop at a call, and pages at the limit of
//! what is shown.

use crate::directions::nested;
use crate::faults::{four_loops, only};
use crate::running::{
    Ended, Row, files_of, is_answered, run_line, split_words, taken_by, two_files,
};
use soy_io::{MemorySink, PlainLibrary};
use soy_top::{Status, run};
use std::alloc::Global;

const PREVIEW: &str = "preview t.m d.json - t.soy";

const WITH_BUNDLE: &str = "preview t.m d.json b.json t.soy";

/// A template that calls itself without end, behind a letter.
const WITHOUT_END: &str = "{namespace t}\n{template m}\n\na{call m /}\n{/template}\n";

const ROWS: &[Row] = &[
    (
        "preview-rtl",
        PREVIEW,
        &[
            (
                "t.soy",
                "{namespace t}\n{template m}\n{@param x: string}\n{$x} (5)\n{/template}\n",
            ),
            ("d.json", "{\"x\":\"\u{5D0}\u{5D1}\"}"),
        ],
        Status::Done,
        "\u{5D1}\u{5D0} (5)\n",
        "",
    ),
    (
        "preview-rtl-context",
        WITH_BUNDLE,
        &[
            (
                "t.soy",
                "{namespace t}\n{template m}\n{@param x: string}\na {$x}\n{/template}\n",
            ),
            ("d.json", "{\"x\":\"b\"}"),
            ("b.json", "{\"dir\":\"rtl\",\"messages\":{}}"),
        ],
        Status::Done,
        "b a\n",
        "",
    ),
    (
        "a bundle from left to right",
        WITH_BUNDLE,
        &[
            (
                "t.soy",
                "{namespace t}\n{template m}\n{@param x: string}\na {$x}\n{/template}\n",
            ),
            ("d.json", "{\"x\":\"b\"}"),
            ("b.json", "{\"dir\":\"ltr\",\"messages\":{}}"),
        ],
        Status::Done,
        "a b\n",
        "",
    ),
    (
        "preview-override",
        PREVIEW,
        &[
            (
                "t.soy",
                "{namespace t}\n{template m}\n{@param x: string}\n<bdo dir=\"rtl\">a{$x}b</bdo>\n{/template}\n",
            ),
            ("d.json", "{\"x\":\"c\"}"),
        ],
        Status::Done,
        "bca\n",
        "",
    ),
    (
        "two blocks, and white space between them",
        PREVIEW,
        &[
            (
                "t.soy",
                "{namespace t}\n{template m}\n<p>a</p> <p dir=\"rtl\">b &lt;</p><br>&nbsp;<br>\n{/template}\n",
            ),
            ("d.json", "{}"),
        ],
        Status::Done,
        "a\n< b\n\u{A0}\n",
        "",
    ),
    (
        "an empty page",
        PREVIEW,
        &[
            ("t.soy", "{namespace t}\n{template m}\n{/template}\n"),
            ("d.json", "{}"),
        ],
        Status::Done,
        "",
        "",
    ),
    (
        "a page that stops at a call",
        PREVIEW,
        &[("t.soy", WITHOUT_END), ("d.json", "{}")],
        Status::TooDeep,
        "",
        "t.soy:4:2: 31 TooDeep\n",
    ),
];

#[test]
fn rows_of_preview(rt: HostRuntime) {
    for row in ROWS {
        assert!(rt; is_answered(rt.alloc(), row), "row {}", row.0);
    }
}

/// Whether the lines of a value in 61 spans from right to left are these.
fn is_nested_shown(alloc: Global, json: &str, lines: &str) -> Option<bool> {
    let file = nested(alloc, 61)?;
    let files = two_files(alloc, file.as_bytes(), json.as_bytes())?;
    let ended = run_line(alloc, PREVIEW, files)?;
    Some(ended.is(Status::Done, lines.as_bytes(), b""))
}

#[test]
fn rows_of_nested_spans(rt: HostRuntime) {
    for (name, json, lines) in [
        ("preview-nested-ltr", "{\"x\":\"c\"}", "acb\n"),
        (
            "preview-nested-rtl",
            "{\"x\":\"\u{5D0}\u{5D1}\"}",
            "a\u{5D1}\u{5D0}b\n",
        ),
    ] {
        let is_shown = is_nested_shown(rt.alloc(), json, lines);
        assert_eq!(rt; is_shown, Some(true), "row {name}");
    }
}

fn is_loops_too_long(alloc: Global) -> Option<bool> {
    let ended = run_line(alloc, PREVIEW, four_loops(alloc)?)?;
    Some(ended.is(Status::Refused, b"", b"preview: 33 TooLong\n"))
}

#[test]
fn preview_too_long(rt: HostRuntime) {
    assert_eq!(rt; is_loops_too_long(rt.alloc()), Some(true));
}

/// How many bytes a page has beside those of the one value that it prints: its span's.
const SPAN: usize = 23;

/// A preview of a page of so many bytes, which is a value of letters in its span, and behind that the rest of a body.
fn of_letters(alloc: Global, size: usize, behind: &str) -> Option<Ended> {
    let mut file = String::from_str(
        alloc,
        "{namespace t}\n{template m}\n{@param x: string}\n{$x}",
    )
    .ok()?;
    file.push_str(behind).ok()?;
    file.push_str("\n{/template}\n").ok()?;
    let mut json = Vec::from_slice(alloc, b"{\"x\":\"").ok()?;
    push_letters(&mut json, size)?;
    json.extend_from_slice(b"\"}").ok()?;
    let files = two_files(alloc, file.as_bytes(), json.as_slice())?;
    run_line(alloc, PREVIEW, files)
}

/// Adds the letters of a value whose page has so many bytes.
fn push_letters(out: &mut Vec<u8>, size: usize) -> Option<()> {
    for _ in SPAN..size {
        out.push(b'a').ok()?;
    }
    Some(())
}

/// Whether a page of so many bytes is shown as one line of its letters.
fn is_line_of_letters(alloc: Global, size: usize) -> Option<bool> {
    let mut line = Vec::new(alloc);
    push_letters(&mut line, size)?;
    line.push(b'\n').ok()?;
    Some(of_letters(alloc, size, "")?.is(Status::Done, line.as_slice(), b""))
}

/// Whether a page of so many bytes with a call behind it that nests too deep is refused so.
fn is_ended_so(alloc: Global, size: usize, status: Status, line: &str) -> Option<bool> {
    let ended = of_letters(alloc, size, "{call m data=\"all\" /}")?;
    Some(ended.is(status, b"", line.as_bytes()))
}

#[test]
fn rows_of_the_limit(rt: HostRuntime) {
    assert_eq!(rt; is_line_of_letters(rt.alloc(), 1_048_576), Some(true));
    let ended = of_letters(rt.alloc(), 1_048_577, "");
    let is_refused = match ended {
        Some(ended) => ended.is(Status::Refused, b"", b"preview: 33 TooLong\n"),
        None => false,
    };
    assert!(rt; is_refused);
    // The page of a hundred and one calls: at 10,381 bytes each it is below the limit, and at 10,382 above it.
    for (size, status, line) in [
        (10_381, Status::TooDeep, "t.soy:4:5: 31 TooDeep\n"),
        (10_382, Status::Refused, "preview: 33 TooLong\n"),
    ] {
        let is_ended_so = is_ended_so(rt.alloc(), size, status, line);
        assert_eq!(rt; is_ended_so, Some(true), "{size} bytes in each call");
    }
}

/// A preview of a page that stops at a call, with an output that fails at its first put, and a standard error that
/// fails at this one.
fn with_failing_sinks(alloc: Global, err_put: u64) -> Option<Ended> {
    let words = split_words(alloc, PREVIEW)?;
    let held = files_of(alloc, &[("t.soy", WITHOUT_END), ("d.json", "{}")])?;
    let mut files = PlainLibrary::new(held);
    let mut out = MemorySink::new(alloc, 4096, only(alloc, 1)?);
    let mut err = MemorySink::new(alloc, 4096, only(alloc, err_put)?);
    let status = run(alloc, words.as_slice(), &mut files, &mut out, &mut err);
    taken_by(alloc, status, out.taken(), err.taken())
}

/// Nothing is put where a page stops at a call, so an output that fails isn't met.
#[test]
fn an_output_that_is_not_needed(rt: HostRuntime) {
    for (err_put, status, line) in [
        (2, Status::TooDeep, "t.soy:4:2: 31 TooDeep\n"),
        (1, Status::Write, ""),
    ] {
        let is_so = match with_failing_sinks(rt.alloc(), err_put) {
            Some(ended) => ended.is(status, b"", line.as_bytes()),
            None => false,
        };
        assert!(rt; is_so, "standard error fails at put {err_put}");
    }
}
