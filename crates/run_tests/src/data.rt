//! Rows of data.

use crate::running::{Row, is_answered};
use soy_top::Status;

const FILE: &str = "{namespace t}\n{template m}\n{@param x: string}\n<b>{$x}</b>\n{/template}\n";

const DEEP: &str = "{namespace t}\n\
     {template m}\n\
     {@param r: [a: list<int>, b: map<string, string>]}{@param? u: int|string}\n\
     {$r.a[1]}{$r.b['k']}{$u ?: 'none'}\n\
     {/template}\n";

/// Data, with the page that they give or their fault.
const DATA: &[Row] = &[
    (
        "data-type",
        "render t.m d.json - t.soy",
        &[("t.soy", FILE), ("d.json", "{\"x\":5}")],
        Status::Refused,
        "",
        "d.json:/x: 28 DataType\n",
    ),
    (
        "data-syntax",
        "render t.m d.json - t.soy",
        &[("t.soy", FILE), ("d.json", "{")],
        Status::Refused,
        "",
        "d.json:: 27 Data\n",
    ),
    (
        "html rows",
        "render t.m d.json - t.soy",
        &[("t.soy", FILE), ("d.json", "{\"x\":\"&<>\\\"'\\u0000\"}")],
        Status::Done,
        "<b><span dir=\"ltr\">&amp;&lt;&gt;&quot;&#39;�</span></b>",
        "",
    ),
    (
        "separators",
        "render t.m d.json - t.soy",
        &[
            ("t.soy", FILE),
            (
                "d.json",
                "{\"x\":\"a\\tb\\nc\\u000bd\\re\\u001cf\\u001dg\\u001eh\\u001fi\\u000cj\"}",
            ),
        ],
        Status::Done,
        "<b><span dir=\"ltr\">a b c d e f g h i\u{c}j</span></b>",
        "",
    ),
    (
        "other members",
        "render t.m d.json - t.soy",
        &[
            ("t.soy", FILE),
            ("d.json", "{\"y\":5,\"x\":\"a\",\"z\":[null,{\"x\":1}]}"),
        ],
        Status::Done,
        "<b><span dir=\"ltr\">a</span></b>",
        "",
    ),
    (
        "a greatest character",
        "render t.m d.json - t.soy",
        &[("t.soy", FILE), ("d.json", "{\"x\":\"\\u007f\"}")],
        Status::Done,
        "<b><span dir=\"ltr\">\u{7f}</span></b>",
        "",
    ),
    (
        "no data",
        "render t.m d.json - t.soy",
        &[("t.soy", FILE), ("d.json", "")],
        Status::Refused,
        "",
        "d.json:: 27 Data\n",
    ),
    (
        "data in an array",
        "render t.m d.json - t.soy",
        &[("t.soy", FILE), ("d.json", "[\"x\"]")],
        Status::Refused,
        "",
        "d.json:/x: 28 DataType\n",
    ),
    (
        "a string for the data",
        "render t.m d.json - t.soy",
        &[("t.soy", FILE), ("d.json", "\"x\"")],
        Status::Refused,
        "",
        "d.json:/x: 28 DataType\n",
    ),
    (
        "no member",
        "render t.m d.json - t.soy",
        &[("t.soy", FILE), ("d.json", "{\"y\":\"a\"}")],
        Status::Refused,
        "",
        "d.json:/x: 28 DataType\n",
    ),
    (
        "null for a member",
        "render t.m d.json - t.soy",
        &[("t.soy", FILE), ("d.json", "{\"x\":null}")],
        Status::Refused,
        "",
        "d.json:/x: 28 DataType\n",
    ),
    (
        "a list for a member",
        "render t.m d.json - t.soy",
        &[("t.soy", FILE), ("d.json", "{\"x\":[\"a\"]}")],
        Status::Refused,
        "",
        "d.json:/x: 28 DataType\n",
    ),
    (
        "a member beyond ASCII",
        "render t.m d.json - t.soy",
        &[("t.soy", FILE), ("d.json", "{\"x\":\"é\"}")],
        Status::Done,
        "<b><span dir=\"ltr\">é</span></b>",
        "",
    ),
    (
        "a member at 128",
        "render t.m d.json - t.soy",
        &[("t.soy", FILE), ("d.json", "{\"x\":\"\\u0080\"}")],
        Status::Done,
        "<b><span dir=\"ltr\">\u{80}</span></b>",
        "",
    ),
    (
        "more after the data",
        "render t.m d.json - t.soy",
        &[("t.soy", FILE), ("d.json", "{\"x\":\"a\"} 1")],
        Status::Refused,
        "",
        "d.json:: 27 Data\n",
    ),
    (
        "an array without parameters",
        "render t.m d.json - t.soy",
        &[
            ("t.soy", "{namespace t}\n{template m}\nx\n{/template}\n"),
            ("d.json", "[]"),
        ],
        Status::Done,
        "x",
        "",
    ),
    (
        "members of a record, a list and a map",
        "render t.m d.json - t.soy",
        &[
            ("t.soy", DEEP),
            (
                "d.json",
                "{\"r\":{\"b\":{\"k\":\"v\"},\"a\":[1,2]},\"u\":3}",
            ),
        ],
        Status::Done,
        "<span dir=\"ltr\">2</span><span dir=\"ltr\">v</span><span dir=\"ltr\">3</span>",
        "",
    ),
    (
        "members that are missing",
        "render t.m d.json - t.soy",
        &[("t.soy", DEEP), ("d.json", "{\"r\":{\"b\":{},\"a\":[]}}")],
        Status::Done,
        "<span dir=\"ltr\">null</span><span dir=\"ltr\">null</span><span dir=\"ltr\">none</span>",
        "",
    ),
    (
        "a field that is missing",
        "render t.m d.json - t.soy",
        &[("t.soy", DEEP), ("d.json", "{\"r\":{\"a\":[]}}")],
        Status::Refused,
        "",
        "d.json:/r/b: 28 DataType\n",
    ),
    (
        "an item of another type",
        "render t.m d.json - t.soy",
        &[
            ("t.soy", DEEP),
            ("d.json", "{\"r\":{\"a\":[1,\"x\"],\"b\":{}}}"),
        ],
        Status::Refused,
        "",
        "d.json:/r/a/1: 28 DataType\n",
    ),
    (
        "an entry of another type",
        "render t.m d.json - t.soy",
        &[
            ("t.soy", DEEP),
            ("d.json", "{\"r\":{\"a\":[],\"b\":{\"z\":1,\"a/b~c\":2}}}"),
        ],
        Status::Refused,
        "",
        "d.json:/r/b/a~1b~0c: 28 DataType\n",
    ),
    (
        "no member of a union",
        "render t.m d.json - t.soy",
        &[
            ("t.soy", DEEP),
            ("d.json", "{\"r\":{\"a\":[],\"b\":{}},\"u\":[]}"),
        ],
        Status::Refused,
        "",
        "d.json:/u: 28 DataType\n",
    ),
    (
        "the last of two members of one name",
        "render t.m d.json - t.soy",
        &[("t.soy", FILE), ("d.json", "{\"x\":\"a\",\"x\":\"b\"}")],
        Status::Done,
        "<b><span dir=\"ltr\">b</span></b>",
        "",
    ),
    (
        "a number with a fraction",
        "render t.m d.json - t.soy",
        &[
            (
                "t.soy",
                "{namespace t}\n{template m}\n{@param n: int}\n{$n}\n{/template}\n",
            ),
            ("d.json", "{\"n\":1.0}"),
        ],
        Status::Refused,
        "",
        "d.json:/n: 28 DataType\n",
    ),
    (
        "a number past the largest int",
        "render t.m d.json - t.soy",
        &[
            (
                "t.soy",
                "{namespace t}\n{template m}\n{@param n: int}\n{$n}\n{/template}\n",
            ),
            ("d.json", "{\"n\":9007199254740992}"),
        ],
        Status::Refused,
        "",
        "d.json:/n: 28 DataType\n",
    ),
    (
        "a refused file before the data",
        "render t.m d.json - t.soy",
        &[
            ("t.soy", "{namespace t}\n{template m}\n\n<b\n{/template}\n"),
            ("d.json", "["),
        ],
        Status::Refused,
        "",
        "t.soy:5:1: 13 EndState\n",
    ),
];

#[test]
fn rows_of_data(rt: HostRuntime) {
    for row in DATA {
        assert!(rt; is_answered(rt.alloc(), row), "row {}", row.0);
    }
}
