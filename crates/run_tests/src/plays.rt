//! Rows of `play`: scripts with the lines that they give, or with their first refusal.

use crate::running::{Ended, Row, files_of, is_answered, run_line};
use soy_io::NamedFile;
use soy_top::Status;
use std::alloc::Global;

const PAGE: &str = "{namespace t}\n{template m}\n{@param x: string}\n<b>{$x}</b>\n{/template}\n";

const GREETING: &str =
    "{namespace t}\n{template m}\n{@param who: string}\n{msg desc=\"d\"}love {$who}{/msg}\n\
     {/template}\n";

const BUNDLE: &str = "{\"dir\":\"ltr\",\"messages\":{\"29b104d2ffbb3f3d\":\"l''amour {WHO}\"}}";

const WITHOUT_END: &str = "{namespace t}\n{template m}\n\na{call .m /}\n{/template}\n";

const SCRIPTS: &[Row] = &[
    (
        "play-two",
        "play s - - t.soy",
        &[
            ("t.soy", PAGE),
            (
                "s",
                "open t.m {\"x\":\"<\"}\nopen t.m {\"x\":\"k\"}\npull 0 3\npull 1 2\npull 0 9\nclose 1\npull 1 1\n",
            ),
        ],
        Status::Done,
        "opened 0\nopened 1\n0 3c623e\n1 3c62\n0 3c7370616e20646972\nclosed 1\nunknown 1\n",
        "",
    ),
    (
        "play-publish",
        "play s - b.json t.soy",
        &[
            ("t.soy", GREETING),
            ("b.json", BUNDLE),
            (
                "s",
                "open t.m {\"who\":\"Ann\"}\npublish 2\nopen t.m {\"who\":\"Ann\"}\npull 0 9\npull 1 9\n",
            ),
        ],
        Status::Done,
        "opened 0\npublished 2\nopened 1\n0 6c6f766520\n1 6c27616d6f757220\n",
        "",
    ),
    (
        "a publish between an opening and its pulls",
        "play s - b.json t.soy",
        &[
            ("t.soy", GREETING),
            ("b.json", BUNDLE),
            (
                "s",
                "open t.m {\"who\":\"Ann\"}\npull 0 2\npublish 2\npull 0 9\npublish 1\nopen t.m {\"who\":\"B\"}\npull 1 5\n",
            ),
        ],
        Status::Done,
        "opened 0\n0 6c6f\npublished 2\n0 766520\npublished 1\nopened 1\n1 6c6f766520\n",
        "",
    ),
    (
        "a pull after the end",
        "play s - - t.soy",
        &[
            ("t.soy", PAGE),
            (
                "s",
                "open t.m {\"x\":\"\"}\npull 0 99\npull 0 99\npull 0 99\npull 0 99\npull 0 99\n",
            ),
        ],
        Status::Done,
        "opened 0\n0 3c623e\n0 3c7370616e206469723d226c7472223e3c2f7370616e3e\n0 3c2f623e\n0 \n0 \n",
        "",
    ),
    (
        "a close twice, and a last line without its line feed",
        "play s - - t.soy",
        &[
            ("t.soy", PAGE),
            (
                "s",
                "open t.m {\"x\":\"\"}\nclose 0\nclose 0\nopen t.m {\"x\":\"\"}",
            ),
        ],
        Status::Done,
        "opened 0\nclosed 0\nunknown 0\nopened 1\n",
        "",
    ),
    (
        "the largest name, and the largest count",
        "play s - - t.soy",
        &[
            ("t.soy", PAGE),
            ("s", "close 18446744073709551615\npull 0 4096\n"),
        ],
        Status::Done,
        "unknown 18446744073709551615\nunknown 0\n",
        "",
    ),
];

const REFUSED: &[Row] = &[
    (
        "play-bad-step",
        "play s - - t.soy",
        &[("t.soy", PAGE), ("s", "pull 0 0")],
        Status::Refused,
        "",
        "s:1:1: 32 Step\n",
    ),
    (
        "an empty script",
        "play s - - t.soy",
        &[("t.soy", PAGE), ("s", "")],
        Status::Refused,
        "",
        "s:1:1: 32 Step\n",
    ),
    (
        "an empty line",
        "play s - - t.soy",
        &[("t.soy", PAGE), ("s", "close 0\n\nclose 1\n")],
        Status::Refused,
        "",
        "s:2:1: 32 Step\n",
    ),
    (
        "an open with empty data",
        "play s - - t.soy",
        &[("t.soy", PAGE), ("s", "close 0\nopen t.m ")],
        Status::Refused,
        "",
        "s:2:1: 27 Data\n",
    ),
    (
        "an open without data",
        "play s - - t.soy",
        &[("t.soy", PAGE), ("s", "close 0\nopen t.m")],
        Status::Refused,
        "",
        "s:2:1: 32 Step\n",
    ),
    (
        "two spaces",
        "play s - - t.soy",
        &[("t.soy", PAGE), ("s", "open  t.m {\"x\":\"\"}\n")],
        Status::Refused,
        "",
        "s:1:1: 32 Step\n",
    ),
    (
        "data of another type",
        "play s - - t.soy",
        &[("t.soy", PAGE), ("s", "open t.m {\"x\":1}")],
        Status::Refused,
        "",
        "s:1:1: 28 DataType\n",
    ),
    (
        "an unknown template before its data",
        "play s - - t.soy",
        &[("t.soy", PAGE), ("s", "open t.n {\"x\":1}\npull 0 0")],
        Status::Refused,
        "",
        "s:1:1: 29 Entry\n",
    ),
    (
        "a name past the largest",
        "play s - - t.soy",
        &[("t.soy", PAGE), ("s", "close 18446744073709551616\n")],
        Status::Refused,
        "",
        "s:1:1: 32 Step\n",
    ),
    (
        "a name with a leading zero",
        "play s - - t.soy",
        &[("t.soy", PAGE), ("s", "close 01\n")],
        Status::Refused,
        "",
        "s:1:1: 32 Step\n",
    ),
    (
        "a count past the largest",
        "play s - - t.soy",
        &[("t.soy", PAGE), ("s", "pull 0 4097\n")],
        Status::Refused,
        "",
        "s:1:1: 32 Step\n",
    ),
    (
        "a third bundle",
        "play s - - t.soy",
        &[("t.soy", PAGE), ("s", "publish 3\n")],
        Status::Refused,
        "",
        "s:1:1: 32 Step\n",
    ),
    (
        "a carriage return",
        "play s - - t.soy",
        &[("t.soy", PAGE), ("s", "close 0\r\n")],
        Status::Refused,
        "",
        "s:1:1: 32 Step\n",
    ),
    (
        "the second bundle before the script",
        "play s - b.json t.soy",
        &[("t.soy", PAGE), ("b.json", "{}"), ("s", "")],
        Status::Refused,
        "",
        "b.json:/dir: 21 Bundle\n",
    ),
];

#[test]
fn rows_of_scripts(rt: HostRuntime) {
    for row in SCRIPTS {
        assert!(rt; is_answered(rt.alloc(), row), "row {}", row.0);
    }
}

#[test]
fn rows_of_refused_scripts(rt: HostRuntime) {
    for row in REFUSED {
        assert!(rt; is_answered(rt.alloc(), row), "row {}", row.0);
    }
}

/// A run of a script of these bytes on a file.
fn run_script(alloc: Global, file: &str, script: &[u8]) -> Option<Ended> {
    let mut files = files_of(alloc, &[("t.soy", file)])?;
    let name = String::from_str(alloc, "s").ok()?;
    let bytes = Vec::from_slice(alloc, script).ok()?;
    files.push(NamedFile { name, bytes }).ok()?;
    run_line(alloc, "play s - - t.soy", files)
}

/// A text that is repeated.
fn repeated(alloc: Global, text: &str, times: u32) -> Option<String> {
    let mut all = String::new(alloc);
    for _ in 0..times {
        all.push_str(text).ok()?;
    }
    Some(all)
}

#[test]
fn a_script_of_bytes(rt: HostRuntime) {
    let is_refused = match run_script(rt.alloc(), PAGE, b"close 0\nclose \xff\n") {
        Some(ended) => ended.is(Status::Refused, b"", b"s:2:7: 1 NotUtf8\n"),
        None => false,
    };
    assert!(rt; is_refused);
}

/// A script of 65 openings (row play-full).
fn is_full(alloc: Global) -> Option<bool> {
    let script = repeated(alloc, "open t.m {\"who\":\"Ann\"}\n", 65)?;
    let mut lines = String::new(alloc);
    for name in 0..64u64 {
        lines
            .push_str(format!(in alloc; "opened {name}\n").ok()?.as_str())
            .ok()?;
    }
    lines.push_str("full\n").ok()?;
    let ended = run_script(alloc, GREETING, script.as_bytes())?;
    Some(ended.is(Status::Done, lines.as_bytes(), b""))
}

#[test]
fn sixty_five_openings(rt: HostRuntime) {
    assert!(rt; is_full(rt.alloc()) == Some(true));
}

/// A page without end, which is pulled past its last piece: 101 times `a`, and then twice too deep.
fn is_deep(alloc: Global) -> Option<bool> {
    let mut script = repeated(alloc, "pull 0 9\n", 103)?;
    script.push_str("close 0\n").ok()?;
    let mut all = String::from_str(alloc, "open t.m {}\n").ok()?;
    all.push_str(script.as_str()).ok()?;
    let mut lines = String::from_str(alloc, "opened 0\n").ok()?;
    lines
        .push_str(repeated(alloc, "0 61\n", 101)?.as_str())
        .ok()?;
    lines.push_str("toodeep 0\ntoodeep 0\nclosed 0\n").ok()?;
    let ended = run_script(alloc, WITHOUT_END, all.as_bytes())?;
    Some(ended.is(Status::Done, lines.as_bytes(), b""))
}

#[test]
fn too_deep_twice(rt: HostRuntime) {
    assert!(rt; is_deep(rt.alloc()) == Some(true));
}
