//! Rows of files that are refused by their own text, alone and among the files of each command.

use crate::running::{Row, is_answered, run_line, two_files};
use soy_top::Status;
use std::alloc::Global;

const OPEN: &str = "{namespace t}\n{template m}\n";

const WHOLE: &str = "{namespace t}\n{template m}\n{call m /}\n{/template}\n";

/// Files with their faults.
const SOURCES: &[Row] = &[
    (
        "lone-brace",
        "render t.m d.json - t.soy",
        &[
            (
                "t.soy",
                "{namespace t}\n{template m}\n\na { b\n{/template}\n",
            ),
            ("d.json", "{}"),
        ],
        Status::Refused,
        "",
        "t.soy:4:3: 3 Lex\n",
    ),
    (
        "unknown-type",
        "render t.m d.json - t.soy",
        &[
            (
                "t.soy",
                "{namespace t}\n{template m}\n{@param x: strng}\n\n{/template}\n",
            ),
            ("d.json", "{}"),
        ],
        Status::Refused,
        "",
        "t.soy:3:12: 8 Type\n",
    ),
    (
        "too-nested",
        "render t.m d.json - t.soy",
        &[
            (
                "t.soy",
                "{namespace t}\n\
                 {template m}\n\
                 \n\
                 {((((((((((((((((((((((((((((((((((((((((((((((((((((((((((((((((1))))))))))))))))))))))))))))))))))\
                 ))))))))))))))))))))))))))))))}\n\
                 {/template}\n",
            ),
            ("d.json", "{}"),
        ],
        Status::Refused,
        "",
        "t.soy:4:65: 5 Nesting\n",
    ),
    (
        "unclosed-if",
        "render t.m d.json - t.soy",
        &[
            (
                "t.soy",
                "{namespace t}\n{template m}\n{@param x: string}\n{if $x}\n{/template}\n",
            ),
            ("d.json", "{\"x\":\"\"}"),
        ],
        Status::Refused,
        "",
        "t.soy:5:2: 4 Syntax\n",
    ),
    (
        "operand-missing",
        "render t.m d.json - t.soy",
        &[
            (
                "t.soy",
                "{namespace t}\n{template m}\n{@param x: string}\n{$x +}\n{/template}\n",
            ),
            ("d.json", "{\"x\":\"\"}"),
        ],
        Status::Refused,
        "",
        "t.soy:4:6: 4 Syntax\n",
    ),
    (
        "text-before-case",
        "render t.m d.json - t.soy",
        &[
            (
                "t.soy",
                "{namespace t}\n{template m}\n{@param x: string}\n{switch $x}a{case 'a'}{/switch}\n{/template}\n",
            ),
            ("d.json", "{\"x\":\"\"}"),
        ],
        Status::Refused,
        "",
        "t.soy:4:12: 4 Syntax\n",
    ),
    (
        "open-tag-in-message",
        "render t.m d.json - t.soy",
        &[
            (
                "t.soy",
                "{namespace t}\n{template m}\n\n{msg desc=\"d\"}<a{/msg}\n{/template}\n",
            ),
            ("d.json", "{}"),
        ],
        Status::Refused,
        "",
        "t.soy:4:18: 4 Syntax\n",
    ),
];

#[test]
fn rows_of_sources(rt: HostRuntime) {
    for row in SOURCES {
        assert!(rt; is_answered(rt.alloc(), row), "row {}", row.0);
    }
}

/// Each command with a file that is refused, and with two files.
const COMMANDS: &[Row] = &[
    (
        "check",
        "check - t.soy",
        &[("t.soy", OPEN)],
        Status::Refused,
        "",
        "t.soy:2:13: 4 Syntax\n",
    ),
    (
        "extract",
        "extract t.soy",
        &[("t.soy", OPEN)],
        Status::Refused,
        "",
        "t.soy:2:13: 4 Syntax\n",
    ),
    (
        "play",
        "play d.json - - t.soy",
        &[("t.soy", OPEN), ("d.json", "")],
        Status::Refused,
        "",
        "t.soy:2:13: 4 Syntax\n",
    ),
    (
        "play with two bundles",
        "play d.json d.json d.json t.soy",
        &[("t.soy", OPEN), ("d.json", "")],
        Status::Refused,
        "",
        "t.soy:2:13: 4 Syntax\n",
    ),
    (
        "preview",
        "preview t.m d.json d.json t.soy",
        &[("t.soy", OPEN), ("d.json", "")],
        Status::Refused,
        "",
        "t.soy:2:13: 4 Syntax\n",
    ),
    (
        "format",
        "format t.soy",
        &[("t.soy", OPEN)],
        Status::Refused,
        "",
        "t.soy:2:13: 4 Syntax\n",
    ),
    (
        "the first of two",
        "extract t.soy u.soy",
        &[("t.soy", OPEN), ("u.soy", "}")],
        Status::Refused,
        "",
        "t.soy:2:13: 4 Syntax\n",
    ),
    (
        "the second of two",
        "check - t.soy u.soy",
        &[("t.soy", WHOLE), ("u.soy", "}")],
        Status::Refused,
        "",
        "u.soy:1:1: 3 Lex\n",
    ),
    (
        "a file twice",
        "render t.m d.json - t.soy t.soy",
        &[("t.soy", OPEN), ("d.json", "")],
        Status::Refused,
        "",
        "t.soy:2:13: 4 Syntax\n",
    ),
];

#[test]
fn rows_of_commands(rt: HostRuntime) {
    for row in COMMANDS {
        assert!(rt; is_answered(rt.alloc(), row), "row {}", row.0);
    }
}

/// A file or data with bytes that are no UTF-8, and the line that refuses them.
const BYTES: &[(&str, &[u8], &[u8], &str)] = &[
    (
        "not-utf8",
        b"{namespace t}\n{template m}\n\n\xff\n{/template}\n",
        b"{}",
        "t.soy:4:1: 1 NotUtf8\n",
    ),
    (
        "a file cut within a character",
        b"{namespace t}\n{template m}\na\n{/template}\n\xc3",
        b"{}",
        "t.soy:5:1: 1 NotUtf8\n",
    ),
    (
        "data with a byte 255",
        PRINT,
        b"{\"x\":\"\xff\"}",
        "d.json:: 27 Data\n",
    ),
    (
        "data cut within a character",
        PRINT,
        b"{\"x\":\"a\"}\xc3",
        "d.json:: 27 Data\n",
    ),
];

const PRINT: &[u8] = b"{namespace t}\n{template m}\n{@param x: string}\n{$x}\n{/template}\n";

#[test]
fn rows_of_bytes(rt: HostRuntime) {
    for (name, file, json, line) in BYTES {
        assert!(rt; is_refused(rt.alloc(), file, json, line), "row {name}");
    }
}

/// Whether a render of a file with data is refused by this line, and the output took nothing.
fn is_refused(alloc: Global, file: &[u8], json: &[u8], line: &str) -> bool {
    let Some(files) = two_files(alloc, file, json) else {
        return false;
    };
    match run_line(alloc, "render t.m d.json - t.soy", files) {
        Some(ended) => ended.is(Status::Refused, b"", line.as_bytes()),
        None => false,
    }
}
