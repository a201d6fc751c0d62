//! Rows of control flow, blocks and calls.

use crate::running::{Row, is_answered};
use soy_top::Status;

const TWO: &str = "render t.m d.json - t.soy u.soy";

const TO_SECOND: &str = "{namespace t}\n\
     {template m}\n\
     {@param x: string}\n\
     <p>{call u.n}{param y: $x /}{/call}</p>\n\
     {/template}\n";

const SECOND: &str = "{namespace u}\n{template n}\n{@param y: string}\n<b>{$y}</b>\n{/template}\n";

/// Control flow, blocks, and calls within one file.
const FLOW: &[Row] = &[
    (
        "switch-case",
        "render t.m d.json - t.soy",
        &[
            (
                "t.soy",
                "{namespace t}\n\
                 {template m}\n\
                 {@param n: int}\n\
                 {switch $n}{case 1, 2}a{default}b{/switch}\n\
                 {/template}\n",
            ),
            ("d.json", "{\"n\":2}"),
        ],
        Status::Done,
        "a",
        "",
    ),
    (
        "block-twice",
        "render t.m d.json - t.soy",
        &[
            (
                "t.soy",
                "{namespace t}\n\
                 {template m}\n\
                 {@param x: string}\n\
                 {let $b kind=\"html\"}<i>{$x}</i>{/let}{$b}{$b}\n\
                 {/template}\n",
            ),
            ("d.json", "{\"x\":\"q\"}"),
        ],
        Status::Done,
        "<i><span dir=\"ltr\">q</span></i><i><span dir=\"ltr\">q</span></i>",
        "",
    ),
    (
        "loop-index",
        "render t.m d.json - t.soy",
        &[
            (
                "t.soy",
                "{namespace t}\n\
                 {template m}\n\
                 {@param l: list<int>}\n\
                 {for $x, $i in $l}{if $i}, {/if}{$x}{/for}\n\
                 {/template}\n",
            ),
            ("d.json", "{\"l\":[5,6]}"),
        ],
        Status::Done,
        "<span dir=\"ltr\">5</span>, <span dir=\"ltr\">6</span>",
        "",
    ),
    (
        "attributes-block",
        "render t.m d.json - t.soy",
        &[
            (
                "t.soy",
                "{namespace t}\n\
                 {template m}\n\
                 {@param k: string}\n\
                 {let $at kind=\"attributes\"}class=\"{$k}\" disabled{/let}<input {$at}>\n\
                 {/template}\n",
            ),
            ("d.json", "{\"k\":\"a\\\"b\"}"),
        ],
        Status::Done,
        "<input class=\"a&quot;b\" disabled>",
        "",
    ),
    (
        "self-call",
        "render t.m d.json - t.soy",
        &[
            (
                "t.soy",
                "{namespace t}\n{template m}\n\n{call m /}\n{/template}\n",
            ),
            ("d.json", "{}"),
        ],
        Status::TooDeep,
        "",
        "t.soy:4:1: 31 TooDeep\n",
    ),
    (
        "calls-to-limit",
        "render t.m d.json - t.soy",
        &[
            (
                "t.soy",
                "{namespace t}\n\
                 {template m}\n\
                 {@param n: int}\n\
                 {if $n > 0}a{call m}{param n: $n - 1 /}{/call}{/if}\n\
                 {/template}\n",
            ),
            ("d.json", "{\"n\":100}"),
        ],
        Status::Done,
        "aaaaaaaaaaaaaaaaaaaaaaaaaaaaaaaaaaaaaaaaaaaaaaaaaaaaaaaaaaaaaaaaaaaaaaaaaaaaaaaaaaaaaaaaaaaaaaaaaaaa",
        "",
    ),
    (
        "calls-past-limit",
        "render t.m d.json - t.soy",
        &[
            (
                "t.soy",
                "{namespace t}\n\
                 {template m}\n\
                 {@param n: int}\n\
                 {if $n > 0}a{call m}{param n: $n - 1 /}{/call}{/if}\n\
                 {/template}\n",
            ),
            ("d.json", "{\"n\":101}"),
        ],
        Status::TooDeep,
        "aaaaaaaaaaaaaaaaaaaaaaaaaaaaaaaaaaaaaaaaaaaaaaaaaaaaaaaaaaaaaaaaaaaaaaaaaaaaaaaaaaaaaaaaaaaaaaaaaaaa\
         a",
        "t.soy:4:13: 31 TooDeep\n",
    ),
    (
        "branches of an if",
        "render t.m d.json - t.soy",
        &[
            (
                "t.soy",
                "{namespace t}\n\
                 {template m}\n\
                 {@param n: int}\n\
                 {if $n > 5}a{elseif $n > 2}b{else}c{/if}{if $n}d{/if}\n\
                 {/template}\n",
            ),
            ("d.json", "{\"n\":3}"),
        ],
        Status::Done,
        "bd",
        "",
    ),
    (
        "a case of null",
        "render t.m d.json - t.soy",
        &[
            (
                "t.soy",
                "{namespace t}\n\
                 {template m}\n\
                 {@param? s: string}\n\
                 {switch $s}{case null}a{case 'x'}b{default}c{/switch}\n\
                 {/template}\n",
            ),
            ("d.json", "{}"),
        ],
        Status::Done,
        "a",
        "",
    ),
    (
        "a loop over no items",
        "render t.m d.json - t.soy",
        &[
            (
                "t.soy",
                "{namespace t}\n{template m}\n{@param l: list<int>}\na{for $x in $l}{$x}{/for}b\n{/template}\n",
            ),
            ("d.json", "{\"l\":[]}"),
        ],
        Status::Done,
        "ab",
        "",
    ),
    (
        "loops in a loop",
        "render t.m d.json - t.soy",
        &[
            (
                "t.soy",
                "{namespace t}\n\
                 {template m}\n\
                 {@param l: list<list<int>>}\n\
                 {for $x in $l}<p>{for $y in $x}{$y} {/for}</p>{/for}\n\
                 {/template}\n",
            ),
            ("d.json", "{\"l\":[[1,2],[],[3]]}"),
        ],
        Status::Done,
        "<p><span dir=\"ltr\">1</span> <span dir=\"ltr\">2</span> </p><p></p><p><span dir=\"ltr\">3</span> \
         </p>",
        "",
    ),
    (
        "a block of text in an attribute",
        "render t.m d.json - t.soy",
        &[
            (
                "t.soy",
                "{namespace t}\n\
                 {template m}\n\
                 {@param x: string}\n\
                 {let $b kind=\"text\"}<{$x}>{/let}<p title=\"{$b}\">{$b}</p>\n\
                 {/template}\n",
            ),
            ("d.json", "{\"x\":\"a&b\"}"),
        ],
        Status::Done,
        "<p title=\"&lt;a&amp;b&gt;\"><span dir=\"ltr\">&lt;a&amp;b&gt;</span></p>",
        "",
    ),
];

#[test]
fn rows_of_control_flow(rt: HostRuntime) {
    for row in FLOW {
        assert!(rt; is_answered(rt.alloc(), row), "row {}", row.0);
    }
}

/// Calls between files and kinds.
const CALLS: &[Row] = &[
    (
        "a call into the second file",
        TWO,
        &[
            ("t.soy", TO_SECOND),
            ("u.soy", SECOND),
            ("d.json", "{\"x\":\"q\"}"),
        ],
        Status::Done,
        "<p><b><span dir=\"ltr\">q</span></b></p>",
        "",
    ),
    (
        "a call into the first file",
        "render t.m d.json - u.soy t.soy",
        &[
            ("t.soy", TO_SECOND),
            ("u.soy", SECOND),
            ("d.json", "{\"x\":\"q\"}"),
        ],
        Status::Done,
        "<p><b><span dir=\"ltr\">q</span></b></p>",
        "",
    ),
    (
        "an entry in the second file",
        "render u.n d.json - t.soy u.soy",
        &[
            ("t.soy", TO_SECOND),
            ("u.soy", SECOND),
            ("d.json", "{\"y\":\"r\"}"),
        ],
        Status::Done,
        "<b><span dir=\"ltr\">r</span></b>",
        "",
    ),
    (
        "all data handed on",
        TWO,
        &[
            (
                "t.soy",
                "{namespace t}\n{template m}\n{@param y: string}\n{call u.n data=\"all\" /}\n{/template}\n",
            ),
            ("u.soy", SECOND),
            ("d.json", "{\"y\":\"s\"}"),
        ],
        Status::Done,
        "<b><span dir=\"ltr\">s</span></b>",
        "",
    ),
    (
        "a param before the data handed on",
        TWO,
        &[
            (
                "t.soy",
                "{namespace t}\n\
                 {template m}\n\
                 {@param y: string}\n\
                 {call u.n data=\"all\"}{param y: $y + 2 /}{/call}\n\
                 {/template}\n",
            ),
            ("u.soy", SECOND),
            ("d.json", "{\"y\":\"s\"}"),
        ],
        Status::Done,
        "<b><span dir=\"ltr\">s2</span></b>",
        "",
    ),
    (
        "a param that is left out",
        TWO,
        &[
            (
                "t.soy",
                "{namespace t}\n{template m}\n\n{call u.n /}\n{/template}\n",
            ),
            (
                "u.soy",
                "{namespace u}\n{template n}\n{@param? y: string}\n{$y ?: 'none'}\n{/template}\n",
            ),
            ("d.json", "{}"),
        ],
        Status::Done,
        "<span dir=\"ltr\">none</span>",
        "",
    ),
    (
        "a block as a param",
        TWO,
        &[
            (
                "t.soy",
                "{namespace t}\n\
                 {template m}\n\
                 {@param x: string}\n\
                 {call u.n}{param h kind=\"html\"}<i>{$x}</i>{/param}{/call}\n\
                 {/template}\n",
            ),
            (
                "u.soy",
                "{namespace u}\n{template n}\n{@param h: html}\n<p>{$h}{$h}</p>\n{/template}\n",
            ),
            ("d.json", "{\"x\":\"k\"}"),
        ],
        Status::Done,
        "<p><i><span dir=\"ltr\">k</span></i><i><span dir=\"ltr\">k</span></i></p>",
        "",
    ),
    (
        "a call of kind text in an attribute",
        TWO,
        &[
            (
                "t.soy",
                "{namespace t}\n\
                 {template m}\n\
                 {@param x: string}\n\
                 <p title=\"{call u.n}{param y: $x /}{/call}\">\n\
                 {/template}\n",
            ),
            (
                "u.soy",
                "{namespace u}\n{template n kind=\"text\"}\n{@param y: string}\n\"{$y}\"\n{/template}\n",
            ),
            ("d.json", "{\"x\":\"<\"}"),
        ],
        Status::Done,
        "<p title=\"&quot;&lt;&quot;\">",
        "",
    ),
    (
        "a call of kind attributes in a tag",
        TWO,
        &[
            (
                "t.soy",
                "{namespace t}\n{template m}\n{@param x: string}\n<p {call u.n}{param y: $x /}{/call}>\n{/template}\n",
            ),
            (
                "u.soy",
                "{namespace u}\n{template n kind=\"attributes\"}\n{@param y: string}\nid=\"{$y}\"\n{/template}\n",
            ),
            ("d.json", "{\"x\":\"\\\"\"}"),
        ],
        Status::Done,
        "<p id=\"&quot;\">",
        "",
    ),
    (
        "an entry of kind text",
        "render t.m d.json - t.soy",
        &[
            (
                "t.soy",
                "{namespace t}\n{template m kind=\"text\"}\n{@param x: string}\n<{$x}>\n{/template}\n",
            ),
            ("d.json", "{\"x\":\"a&b\"}"),
        ],
        Status::Done,
        "<a&b>",
        "",
    ),
    (
        "a private callee of its own file",
        "render t.m d.json - t.soy",
        &[
            (
                "t.soy",
                "{namespace t}\n\
                 {template m}\n\
                 {call n /}\n\
                 {/template}\n\
                 {template n visibility=\"private\"}\n\
                 a\n\
                 {/template}\n",
            ),
            ("d.json", "{}"),
        ],
        Status::Done,
        "a",
        "",
    ),
    (
        "two files that call one another",
        TWO,
        &[
            (
                "t.soy",
                "{namespace t}\n{template m}\n\na{call u.n /}\n{/template}\n",
            ),
            (
                "u.soy",
                "{namespace u}\n{template n}\n\nb{call t.m /}\n{/template}\n",
            ),
            ("d.json", "{}"),
        ],
        Status::TooDeep,
        "abababababababababababababababababababababababababababababababababababababababababababababababababab\
         a",
        "t.soy:4:2: 31 TooDeep\n",
    ),
    (
        "the same from the second file",
        "render u.n d.json - t.soy u.soy",
        &[
            (
                "t.soy",
                "{namespace t}\n{template m}\n\na{call u.n /}\n{/template}\n",
            ),
            (
                "u.soy",
                "{namespace u}\n{template n}\n\nb{call t.m /}\n{/template}\n",
            ),
            ("d.json", "{}"),
        ],
        Status::TooDeep,
        "babababababababababababababababababababababababababababababababababababababababababababababababababa\
         b",
        "u.soy:4:2: 31 TooDeep\n",
    ),
    (
        "two files of one namespace",
        TWO,
        &[
            (
                "t.soy",
                "{namespace t}\n{template m}\n\n{call n /}\n{/template}\n",
            ),
            ("u.soy", "{namespace t}\n{template n}\n\na\n{/template}\n"),
            ("d.json", "{}"),
        ],
        Status::Done,
        "a",
        "",
    ),
    (
        "a template of both files",
        TWO,
        &[
            ("t.soy", "{namespace t}\n{template m}\n\na\n{/template}\n"),
            ("u.soy", "{namespace t}\n{template m}\n\nb\n{/template}\n"),
            ("d.json", "{}"),
        ],
        Status::Refused,
        "",
        "u.soy:2:1: 6 Twice\n",
    ),
];

#[test]
fn rows_of_calls(rt: HostRuntime) {
    for row in CALLS {
        assert!(rt; is_answered(rt.alloc(), row), "row {}", row.0);
    }
}
