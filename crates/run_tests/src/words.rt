//! Rows of words, and of files that are missing.

use crate::running::{Row, is_answered};
use soy_top::Status;

const FILE: &str = "{namespace t}\n{template m}\n{@param x: string}\n<b>{$x}</b>\n{/template}\n";

const TEXT: &str = "{namespace t}\n{template m kind=\"text\"}\na\n{/template}\n";

const JSON: &str = "{\"x\":\"<i>\"}";

const USAGE: &str = "usage: soyc render TEMPLATE DATA BUNDLE FILE..\n\
     soyc check BUNDLE FILE..\n\
     soyc extract FILE..\n\
     soyc gen NUMBER\n\
     soyc play SCRIPT BUNDLE BUNDLE FILE..\n\
     soyc preview TEMPLATE DATA BUNDLE FILE..\n\
     soyc format FILE\n";

const FILES: &[(&str, &str)] = &[("t.soy", FILE), ("d.json", JSON)];

/// Words, with the same two files unless a row has others.
const WORDS: &[Row] = &[
    ("no-words", "", FILES, Status::Usage, "", USAGE),
    (
        "a command that isn't one",
        "paint t.soy",
        FILES,
        Status::Usage,
        "",
        USAGE,
    ),
    (
        "a command in capitals",
        "Render t.m d.json - t.soy",
        FILES,
        Status::Usage,
        "",
        USAGE,
    ),
    ("help", "--help", FILES, Status::Usage, "", USAGE),
    ("version", "--version", FILES, Status::Usage, "", USAGE),
    ("render alone", "render", FILES, Status::Usage, "", USAGE),
    (
        "render without files",
        "render t.m d.json -",
        FILES,
        Status::Usage,
        "",
        USAGE,
    ),
    (
        "check without a bundle",
        "check",
        FILES,
        Status::Usage,
        "",
        USAGE,
    ),
    (
        "gen without a number",
        "gen",
        FILES,
        Status::Usage,
        "",
        USAGE,
    ),
    ("gen with two", "gen 7 8", FILES, Status::Usage, "", USAGE),
    (
        "gen over the limit",
        "gen 4294967296",
        FILES,
        Status::Usage,
        "",
        USAGE,
    ),
    (
        "gen of eleven digits",
        "gen 00000000007",
        FILES,
        Status::Usage,
        "",
        USAGE,
    ),
    ("gen with a sign", "gen +7", FILES, Status::Usage, "", USAGE),
    (
        "gen with a letter",
        "gen 7a",
        FILES,
        Status::Usage,
        "",
        USAGE,
    ),
    (
        "gen with an empty word",
        "gen ",
        FILES,
        Status::Usage,
        "",
        USAGE,
    ),
    ("format alone", "format", FILES, Status::Usage, "", USAGE),
    (
        "format of two",
        "format t.soy t.soy",
        FILES,
        Status::Usage,
        "",
        USAGE,
    ),
    (
        "format of one",
        "format t.soy",
        FILES,
        Status::Done,
        "{namespace t}\n\n{template m}\n{@param x: string}\n<b>{$x}</b>\n{/template}\n",
        "",
    ),
    (
        "extract of one",
        "extract t.soy",
        FILES,
        Status::Done,
        "{\"messages\":[]}\n",
        "",
    ),
    (
        "play of one",
        "play d.json - - t.soy",
        FILES,
        Status::Refused,
        "",
        "d.json:1:1: 32 Step\n",
    ),
    (
        "preview of one",
        "preview t.m d.json - t.soy",
        FILES,
        Status::Done,
        "<i>\n",
        "",
    ),
    (
        "preview of a template of the second file",
        "preview u.m d.json - t.soy u.soy",
        &[
            ("t.soy", TEXT),
            ("u.soy", "{namespace u}\n{template m}\na\n{/template}\n"),
            ("d.json", "{}"),
        ],
        Status::Done,
        "a\n",
        "",
    ),
    (
        "preview of a template of kind text",
        "preview t.m d.json - t.soy",
        &[("t.soy", TEXT), ("d.json", "{}")],
        Status::Refused,
        "",
        "t.m: 29 Entry\n",
    ),
    (
        "preview of a template of kind attributes",
        "preview t.m d.json - t.soy",
        &[
            (
                "t.soy",
                "{namespace t}\n{template m kind=\"attributes\"}\na=\"b\"\n{/template}\n",
            ),
            ("d.json", "{}"),
        ],
        Status::Refused,
        "",
        "t.m: 29 Entry\n",
    ),
    (
        "preview of a private template",
        "preview t.m d.json - t.soy",
        &[
            (
                "t.soy",
                "{namespace t}\n{template m visibility=\"private\"}\na\n{/template}\n",
            ),
            ("d.json", "{}"),
        ],
        Status::Refused,
        "",
        "t.m: 29 Entry\n",
    ),
    (
        "preview of a file with a fault, and of no template",
        "preview t.zz d.json - t.soy",
        &[
            ("t.soy", "{namespace t}\n{template m}\n\n<b\n{/template}\n"),
            ("d.json", "{}"),
        ],
        Status::Refused,
        "",
        "t.soy:5:1: 13 EndState\n",
    ),
    (
        "preview of a template of kind text with data that are no JSON",
        "preview t.m d.json - t.soy",
        &[("t.soy", TEXT), ("d.json", "{")],
        Status::Refused,
        "",
        "t.m: 29 Entry\n",
    ),
    (
        "preview with data that are no JSON",
        "preview t.m d.json - t.soy",
        &[("t.soy", FILE), ("d.json", "{")],
        Status::Refused,
        "",
        "d.json:: 27 Data\n",
    ),
    (
        "preview with data of another type",
        "preview t.m d.json - t.soy",
        &[("t.soy", FILE), ("d.json", "{\"x\":1}")],
        Status::Refused,
        "",
        "d.json:/x: 28 DataType\n",
    ),
    (
        "a bundle that is there",
        "render t.m d.json d.json t.soy",
        FILES,
        Status::Refused,
        "",
        "d.json:/dir: 21 Bundle\n",
    ),
    (
        "missing-file",
        "render t.m d.json - x.soy",
        FILES,
        Status::Read,
        "",
        "x.soy: read fault\n",
    ),
    (
        "missing data",
        "render t.m x.json - t.soy",
        FILES,
        Status::Read,
        "",
        "x.json: read fault\n",
    ),
    (
        "both missing",
        "render t.m x.json - x.soy",
        FILES,
        Status::Read,
        "",
        "x.json: read fault\n",
    ),
    (
        "a missing bundle before a missing file",
        "render t.m d.json b.json x.soy",
        FILES,
        Status::Read,
        "",
        "b.json: read fault\n",
    ),
    (
        "a missing bundle of check",
        "check b.json t.soy",
        FILES,
        Status::Read,
        "",
        "b.json: read fault\n",
    ),
    (
        "a missing file of extract",
        "extract t.soy x.soy",
        FILES,
        Status::Read,
        "",
        "x.soy: read fault\n",
    ),
    (
        "a missing script",
        "play s - - t.soy",
        FILES,
        Status::Read,
        "",
        "s: read fault\n",
    ),
    (
        "a missing second bundle",
        "play d.json - b.json t.soy",
        FILES,
        Status::Read,
        "",
        "b.json: read fault\n",
    ),
    (
        "missing data of preview",
        "preview t.m x.json - t.soy",
        FILES,
        Status::Read,
        "",
        "x.json: read fault\n",
    ),
    (
        "a missing file of format",
        "format x.soy",
        FILES,
        Status::Read,
        "",
        "x.soy: read fault\n",
    ),
    (
        "unknown-entry",
        "render t.zz d.json - t.soy",
        FILES,
        Status::Refused,
        "",
        "t.zz: 29 Entry\n",
    ),
    (
        "an entry without its namespace",
        "render m d.json - t.soy",
        FILES,
        Status::Refused,
        "",
        "m: 29 Entry\n",
    ),
    (
        "an entry with more",
        "render t.m.x d.json - t.soy",
        FILES,
        Status::Refused,
        "",
        "t.m.x: 29 Entry\n",
    ),
    (
        "an entry with less",
        "render t. d.json - t.soy",
        FILES,
        Status::Refused,
        "",
        "t.: 29 Entry\n",
    ),
    (
        "an empty entry",
        "render  d.json - t.soy",
        FILES,
        Status::Refused,
        "",
        ": 29 Entry\n",
    ),
    ("check-ok", "check - t.soy", FILES, Status::Done, "ok\n", ""),
    (
        "the file before the entry",
        "render t.zz d.json - t.soy",
        &[
            ("t.soy", "{namespace t}\n{template m}\n\n<b\n{/template}\n"),
            ("d.json", "{}"),
        ],
        Status::Refused,
        "",
        "t.soy:5:1: 13 EndState\n",
    ),
    (
        "the entry before the data",
        "render t.zz d.json - t.soy",
        &[("t.soy", FILE), ("d.json", "{")],
        Status::Refused,
        "",
        "t.zz: 29 Entry\n",
    ),
    (
        "an entry that is private",
        "render t.m d.json - t.soy",
        &[
            (
                "t.soy",
                "{namespace t}\n{template m visibility=\"private\"}\na\n{/template}\n",
            ),
            ("d.json", "{}"),
        ],
        Status::Refused,
        "",
        "t.m: 29 Entry\n",
    ),
    (
        "data as a second file",
        "render t.m d.json - t.soy d.json",
        &[("t.soy", FILE), ("d.json", "{namespace u}\n")],
        Status::Refused,
        "",
        "d.json:: 27 Data\n",
    ),
];

#[test]
fn rows_of_words(rt: HostRuntime) {
    for row in WORDS {
        assert!(rt; is_answered(rt.alloc(), row), "row {}", row.0);
    }
}
