//! Rows of the directions of values, and of values in many spans.

use crate::running::{Row, is_answered, run_line, two_files};
use soy_top::Status;
use std::alloc::Global;

const WITH_BUNDLE: &str = "render t.m d.json b.json t.soy";

const PRINT: &str = "{namespace t}\n{template m}\n{@param x: string}\n{$x}\n{/template}\n";

/// Values with their directions.
const DIRECTIONS: &[Row] = &[
    (
        "rtl-print",
        "render t.m d.json - t.soy",
        &[
            (
                "t.soy",
                "{namespace t}\n{template m}\n{@param x: string}\n{$x} (5)\n{/template}\n",
            ),
            ("d.json", "{\"x\":\"אב\"}"),
        ],
        Status::Done,
        "<span dir=\"rtl\">אב</span> (5)",
        "",
    ),
    (
        "isolate-controls",
        "render t.m d.json - t.soy",
        &[
            ("t.soy", PRINT),
            ("d.json", "{\"x\":\"a\\t\\u2067b\\u2069\\u2069\"}"),
        ],
        Status::Done,
        "<span dir=\"ltr\">a \u{2067}b\u{2069}</span>",
        "",
    ),
    (
        "estimate-mostly-rtl",
        WITH_BUNDLE,
        &[
            ("t.soy", PRINT),
            ("b.json", "{\"dir\":\"ltr\",\"messages\":{}}"),
            ("d.json", "{\"x\":\"א b\"}"),
        ],
        Status::Done,
        "<span dir=\"rtl\">א b</span>",
        "",
    ),
    (
        "estimate-mostly-ltr",
        WITH_BUNDLE,
        &[
            ("t.soy", PRINT),
            ("b.json", "{\"dir\":\"rtl\",\"messages\":{}}"),
            ("d.json", "{\"x\":\"א b c\"}"),
        ],
        Status::Done,
        "<span dir=\"ltr\">א b c</span>",
        "",
    ),
    (
        "estimate-url",
        WITH_BUNDLE,
        &[
            ("t.soy", PRINT),
            ("b.json", "{\"dir\":\"rtl\",\"messages\":{}}"),
            ("d.json", "{\"x\":\"http://x\"}"),
        ],
        Status::Done,
        "<span dir=\"ltr\">http://x</span>",
        "",
    ),
    (
        "estimate-digits",
        WITH_BUNDLE,
        &[
            ("t.soy", PRINT),
            ("b.json", "{\"dir\":\"rtl\",\"messages\":{}}"),
            ("d.json", "{\"x\":\"1 2\"}"),
        ],
        Status::Done,
        "<span dir=\"ltr\">1 2</span>",
        "",
    ),
    (
        "estimate-no-word",
        WITH_BUNDLE,
        &[
            ("t.soy", PRINT),
            ("b.json", "{\"dir\":\"rtl\",\"messages\":{}}"),
            ("d.json", "{\"x\":\"!\"}"),
        ],
        Status::Done,
        "<span dir=\"rtl\">!</span>",
        "",
    ),
    (
        "estimate-unescaped",
        WITH_BUNDLE,
        &[
            ("t.soy", PRINT),
            ("b.json", "{\"dir\":\"rtl\",\"messages\":{}}"),
            ("d.json", "{\"x\":\"<\"}"),
        ],
        Status::Done,
        "<span dir=\"rtl\">&lt;</span>",
        "",
    ),
    (
        "override-order",
        "render t.m d.json - t.soy",
        &[
            (
                "t.soy",
                "{namespace t}\n{template m}\n{@param x: string}\n<bdo dir=\"rtl\">a{$x}b</bdo>\n{/template}\n",
            ),
            ("d.json", "{\"x\":\"c\"}"),
        ],
        Status::Done,
        "<bdo dir=\"rtl\">a<span dir=\"ltr\">c</span>b</bdo>",
        "",
    ),
    (
        "auto-direction",
        "render t.m d.json - t.soy",
        &[
            (
                "t.soy",
                "{namespace t}\n{template m}\n{@param x: string}\n<p dir=\"auto\">{$x} שלום</p>\n{/template}\n",
            ),
            ("d.json", "{\"x\":\"abc\"}"),
        ],
        Status::Done,
        "<p dir=\"auto\"><span dir=\"ltr\">abc</span> שלום</p>",
        "",
    ),
];

#[test]
fn rows_of_directions(rt: HostRuntime) {
    for row in DIRECTIONS {
        assert!(rt; is_answered(rt.alloc(), row), "row {}", row.0);
    }
}

/// A template whose value stands in so many spans, between an `a` and a `b`.
pub(crate) fn nested(alloc: Global, count: usize) -> Option<String> {
    let mut file = String::from_str(
        alloc,
        "{namespace t}\n{template m}\n{@param x: string}\n",
    ).ok()?;
    push_repeated(&mut file, OPEN, count)?;
    file.push_str("a{$x}b").ok()?;
    push_repeated(&mut file, CLOSE, count)?;
    file.push_str("\n{/template}\n").ok()?;
    Some(file)
}

/// The page of that.
fn nested_page(alloc: Global, count: usize, value: &str) -> Option<String> {
    let mut page = String::new(alloc);
    push_repeated(&mut page, OPEN, count)?;
    page.push_str("a").ok()?;
    page.push_str(value).ok()?;
    page.push_str("b").ok()?;
    push_repeated(&mut page, CLOSE, count)?;
    Some(page)
}

fn push_repeated(out: &mut String, text: &str, count: usize) -> Option<()> {
    for _ in 0..count {
        out.push_str(text).ok()?;
    }
    Some(())
}

/// Whether the page of so many spans with these data has this value.
fn is_nested(alloc: Global, count: usize, json: &str, value: &str) -> Option<bool> {
    let (file, page) = (nested(alloc, count)?, nested_page(alloc, count, value)?);
    let files = two_files(alloc, file.as_bytes(), json.as_bytes())?;
    let ended = run_line(alloc, "render t.m d.json - t.soy", files)?;
    Some(ended.is(Status::Done, page.as_bytes(), b""))
}

const OPEN: &str = "<span dir=\"rtl\">";

const CLOSE: &str = "</span>";

/// The name of a row, how many spans, the data, and the value with its span.
const NESTS: &[(&str, usize, &str, &str)] = &[
    (
        "nested-in-limit, c",
        61,
        "{\"x\":\"c\"}",
        "<span dir=\"ltr\">c</span>",
    ),
    (
        "nested-in-limit, אב",
        61,
        "{\"x\":\"אב\"}",
        "<span dir=\"rtl\">אב</span>",
    ),
    (
        "nested-past-limit, c",
        63,
        "{\"x\":\"c\"}",
        "<span dir=\"ltr\">c</span>",
    ),
    (
        "nested-past-limit, אב",
        63,
        "{\"x\":\"אב\"}",
        "<span dir=\"rtl\">אב</span>",
    ),
];

#[test]
fn rows_of_nested_spans(rt: HostRuntime) {
    for (name, count, json, value) in NESTS {
        let is_nested = is_nested(rt.alloc(), *count, json, value);
        assert_eq!(rt; is_nested, Some(true), "row {name}");
    }
}
