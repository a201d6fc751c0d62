//! Rows of paths and places: attributes, URIs, scripts and styles.

use crate::running::{Row, is_answered};
use soy_top::Status;

/// Attributes, URIs and text.
const ATTRIBUTES: &[Row] = &[
    (
        "uri-scheme",
        "render t.m d.json - t.soy",
        &[
            (
                "t.soy",
                "{namespace t}\n{template m}\n{@param u: string}\n<a href=\"{$u}\">L</a>\n{/template}\n",
            ),
            ("d.json", "{\"u\":\"javascript:alert(1)\"}"),
        ],
        Status::Done,
        "<a href=\"about:invalid#zSoyz\">L</a>",
        "",
    ),
    (
        "uri-query",
        "render t.m d.json - t.soy",
        &[
            (
                "t.soy",
                "{namespace t}\n{template m}\n{@param q: string}\n<a href=\"/s?q={$q}&p=1\">L</a>\n{/template}\n",
            ),
            ("d.json", "{\"q\":\"a&b c\"}"),
        ],
        Status::Done,
        "<a href=\"/s?q=a%26b%20c&p=1\">L</a>",
        "",
    ),
    (
        "second-uri-value",
        "render t.m d.json - t.soy",
        &[
            (
                "t.soy",
                "{namespace t}\n\
                 {template m}\n\
                 {@param a: string}{@param b: string}\n\
                 <a href=\"{$a}{$b}\">L</a>\n\
                 {/template}\n",
            ),
            ("d.json", "{\"a\":\"x\",\"b\":\"y\"}"),
        ],
        Status::Refused,
        "",
        "t.soy:4:14: 19 UriStart\n",
    ),
    (
        "optional-attribute, d true",
        "render t.m d.json - t.soy",
        &[
            (
                "t.soy",
                "{namespace t}\n{template m}\n{@param d: bool}\n<input {if $d}disabled{/if}>\n{/template}\n",
            ),
            ("d.json", "{\"d\":true}"),
        ],
        Status::Done,
        "<input disabled>",
        "",
    ),
    (
        "optional-attribute, d false",
        "render t.m d.json - t.soy",
        &[
            (
                "t.soy",
                "{namespace t}\n{template m}\n{@param d: bool}\n<input {if $d}disabled{/if}>\n{/template}\n",
            ),
            ("d.json", "{\"d\":false}"),
        ],
        Status::Done,
        "<input >",
        "",
    ),
    (
        "mixed-places",
        "render t.m d.json - t.soy",
        &[
            (
                "t.soy",
                "{namespace t}\n\
                 {template m}\n\
                 {@param x: string}{@param y: string}\n\
                 <a {if $x}href=\"{/if}{$y}\">L</a>\n\
                 {/template}\n",
            ),
            ("d.json", "{\"x\":\"\",\"y\":\"\"}"),
        ],
        Status::Refused,
        "",
        "t.soy:4:22: 12 Mixed\n",
    ),
    (
        "plain-attribute",
        "render t.m d.json - t.soy",
        &[
            (
                "t.soy",
                "{namespace t}\n{template m}\n{@param x: string}\n<p title=\"{$x}\">y</p>\n{/template}\n",
            ),
            ("d.json", "{\"x\":\"a\\\"b\"}"),
        ],
        Status::Done,
        "<p title=\"a&quot;b\">y</p>",
        "",
    ),
    (
        "title-text",
        "render t.m d.json - t.soy",
        &[
            (
                "t.soy",
                "{namespace t}\n{template m}\n{@param x: string}\n<title>{$x}</title>\n{/template}\n",
            ),
            ("d.json", "{\"x\":\"<b>\"}"),
        ],
        Status::Done,
        "<title>&lt;b&gt;</title>",
        "",
    ),
    (
        "ampersand",
        "render t.m d.json - t.soy",
        &[
            (
                "t.soy",
                "{namespace t}\n{template m}\n{@param x: string}\nA&{$x}\n{/template}\n",
            ),
            ("d.json", "{\"x\":\"\"}"),
        ],
        Status::Refused,
        "",
        "t.soy:4:1: 16 Ampersand\n",
    ),
    (
        "unknown-reference",
        "render t.m d.json - t.soy",
        &[
            (
                "t.soy",
                "{namespace t}\n{template m}\n\nA&foo;\n{/template}\n",
            ),
            ("d.json", "{}"),
        ],
        Status::Refused,
        "",
        "t.soy:4:1: 17 Reference\n",
    ),
    (
        "open-tag-at-end",
        "render t.m d.json - t.soy",
        &[
            ("t.soy", "{namespace t}\n{template m}\n\n<b\n{/template}\n"),
            ("d.json", "{}"),
        ],
        Status::Refused,
        "",
        "t.soy:5:1: 13 EndState\n",
    ),
    (
        "seventeen-states",
        "render t.m d.json - t.soy",
        &[
            (
                "t.soy",
                "{namespace t}\n\
                 {template m}\n\
                 {@param n: int}\n\
                 {switch $n}{case 1}<a{case 2}<b{case 3}<c{case 4}<d{case 5}<e{case 6}<f{case 7}<g{case 8}<h{case 9}\
                 <i{case 10}<j{case 11}<k{case 12}<l{case 13}<m{case 14}<n{case 15}<o{case 16}<p{/switch}\n\
                 {/template}\n",
            ),
            ("d.json", "{\"n\":1}"),
        ],
        Status::Refused,
        "",
        "t.soy:4:1: 15 States\n",
    ),
    (
        "sixteen-states",
        "render t.m d.json - t.soy",
        &[
            (
                "t.soy",
                "{namespace t}\n\
                 {template m}\n\
                 {@param n: int}\n\
                 {switch $n}{case 1}<a{case 2}<b{case 3}<c{case 4}<d{case 5}<e{case 6}<f{case 7}<g{case 8}<h{case 9}\
                 <i{case 10}<j{case 11}<k{case 12}<l{case 13}<m{case 14}<n{case 15}<o{/switch}\n\
                 {/template}\n",
            ),
            ("d.json", "{\"n\":1}"),
        ],
        Status::Refused,
        "",
        "t.soy:5:1: 13 EndState\n",
    ),
    (
        "a URI in parts",
        "render t.m d.json - t.soy",
        &[
            (
                "t.soy",
                "{namespace t}\n\
                 {template m}\n\
                 {@param a: string}{@param b: string}\n\
                 <a href=\"/x/{$a}#{$b}\">\n\
                 {/template}\n",
            ),
            ("d.json", "{\"a\":\"q r\",\"b\":\"é&\"}"),
        ],
        Status::Done,
        "<a href=\"/x/q%20r#%C3%A9%26\">",
        "",
    ),
    (
        "a scheme that passes",
        "render t.m d.json - t.soy",
        &[
            (
                "t.soy",
                "{namespace t}\n{template m}\n{@param u: string}\n<a href=\"{$u}\">\n{/template}\n",
            ),
            ("d.json", "{\"u\":\"HTTPS://a.example/?q=1&r\"}"),
        ],
        Status::Done,
        "<a href=\"HTTPS://a.example/?q=1&amp;r\">",
        "",
    ),
    (
        "a value in a textarea",
        "render t.m d.json - t.soy",
        &[
            (
                "t.soy",
                "{namespace t}\n{template m}\n{@param x: string}\n<textarea>{$x}</textarea>\n{/template}\n",
            ),
            ("d.json", "{\"x\":\"</textarea>\"}"),
        ],
        Status::Done,
        "<textarea>&lt;/textarea&gt;</textarea>",
        "",
    ),
    (
        "a comment of HTML",
        "render t.m d.json - t.soy",
        &[
            (
                "t.soy",
                "{namespace t}\n{template m}\n\n<!-- a & b -->c\n{/template}\n",
            ),
            ("d.json", "{}"),
        ],
        Status::Done,
        "<!-- a & b -->c",
        "",
    ),
    (
        "a print in a comment of HTML",
        "render t.m d.json - t.soy",
        &[
            (
                "t.soy",
                "{namespace t}\n{template m}\n{@param x: string}\n<!-- {$x} -->\n{/template}\n",
            ),
            ("d.json", "{}"),
        ],
        Status::Refused,
        "",
        "t.soy:4:6: 11 Place\n",
    ),
    (
        "a print in the name of an attribute",
        "render t.m d.json - t.soy",
        &[
            (
                "t.soy",
                "{namespace t}\n{template m}\n{@param x: string}\n<p a{$x}=\"b\">\n{/template}\n",
            ),
            ("d.json", "{}"),
        ],
        Status::Refused,
        "",
        "t.soy:4:5: 14 InName\n",
    ),
    (
        "a list of srcset",
        "render t.m d.json - t.soy",
        &[
            (
                "t.soy",
                "{namespace t}\n{template m}\n{@param x: string}\n<img srcset=\"{$x}\">\n{/template}\n",
            ),
            ("d.json", "{}"),
        ],
        Status::Refused,
        "",
        "t.soy:4:14: 11 Place\n",
    ),
];

#[test]
fn rows_of_attributes(rt: HostRuntime) {
    for row in ATTRIBUTES {
        assert!(rt; is_answered(rt.alloc(), row), "row {}", row.0);
    }
}

/// Scripts and styles.
const SCRIPTS: &[Row] = &[
    (
        "script-string",
        "render t.m d.json - t.soy",
        &[
            (
                "t.soy",
                "{namespace t}\n{template m}\n{@param x: string}\n<script>var s=\"{$x}\";</script>\n{/template}\n",
            ),
            ("d.json", "{\"x\":\"</script>\"}"),
        ],
        Status::Done,
        "<script>var s=\"\\x3c\\/script\\x3e\";</script>",
        "",
    ),
    (
        "script-int",
        "render t.m d.json - t.soy",
        &[
            (
                "t.soy",
                "{namespace t}\n{template m}\n{@param n: int}\n<script>f({$n});</script>\n{/template}\n",
            ),
            ("d.json", "{\"n\":-3}"),
        ],
        Status::Done,
        "<script>f( -3 );</script>",
        "",
    ),
    (
        "script-string-value",
        "render t.m d.json - t.soy",
        &[
            (
                "t.soy",
                "{namespace t}\n{template m}\n{@param s: string}\n<script>f({$s});</script>\n{/template}\n",
            ),
            ("d.json", "{\"s\":\"it's\"}"),
        ],
        Status::Done,
        "<script>f('it\\x27s');</script>",
        "",
    ),
    (
        "script-division",
        "render t.m d.json - t.soy",
        &[
            (
                "t.soy",
                "{namespace t}\n{template m}\n\n<script>a / b</script>\n{/template}\n",
            ),
            ("d.json", "{}"),
        ],
        Status::Refused,
        "",
        "t.soy:4:1: 18 Script\n",
    ),
    (
        "css-value, red",
        "render t.m d.json - t.soy",
        &[
            (
                "t.soy",
                "{namespace t}\n{template m}\n{@param c: string}\n<p style=\"color: {$c}\">x</p>\n{/template}\n",
            ),
            ("d.json", "{\"c\":\"red\"}"),
        ],
        Status::Done,
        "<p style=\"color: red\">x</p>",
        "",
    ),
    (
        "css-value, red;x",
        "render t.m d.json - t.soy",
        &[
            (
                "t.soy",
                "{namespace t}\n{template m}\n{@param c: string}\n<p style=\"color: {$c}\">x</p>\n{/template}\n",
            ),
            ("d.json", "{\"c\":\"red;x\"}"),
        ],
        Status::Done,
        "<p style=\"color: zSoyz\">x</p>",
        "",
    ),
    (
        "css-string",
        "render t.m d.json - t.soy",
        &[
            (
                "t.soy",
                "{namespace t}\n{template m}\n{@param f: string}\n<p style=\"font: '{$f}'\">x</p>\n{/template}\n",
            ),
            ("d.json", "{\"f\":\"a\\\"b\"}"),
        ],
        Status::Done,
        "<p style=\"font: 'a\\22 b'\">x</p>",
        "",
    ),
    (
        "an event attribute",
        "render t.m d.json - t.soy",
        &[
            (
                "t.soy",
                "{namespace t}\n{template m}\n{@param x: string}\n<p onclick=\"f({$x})\">\n{/template}\n",
            ),
            ("d.json", "{}"),
        ],
        Status::Refused,
        "",
        "t.soy:4:15: 11 Place\n",
    ),
    (
        "a script's string of one quote",
        "render t.m d.json - t.soy",
        &[
            (
                "t.soy",
                "{namespace t}\n{template m}\n{@param x: string}\n<script>f('{$x}')</script>\n{/template}\n",
            ),
            ("d.json", "{\"x\":\"a\\n'\"}"),
        ],
        Status::Done,
        "<script>f('a\\n\\x27')</script>",
        "",
    ),
    (
        "a bool and null in a script",
        "render t.m d.json - t.soy",
        &[
            (
                "t.soy",
                "{namespace t}\n\
                 {template m}\n\
                 {@param b: bool}{@param? s: string}\n\
                 <script>f({$b},{$s})</script>\n\
                 {/template}\n",
            ),
            ("d.json", "{\"b\":true}"),
        ],
        Status::Done,
        "<script>f( true , null )</script>",
        "",
    ),
    (
        "a value in a style element",
        "render t.m d.json - t.soy",
        &[
            (
                "t.soy",
                "{namespace t}\n\
                 {template m}\n\
                 {@param c: string}\n\
                 <style>p {lb} color: {$c}; {rb}</style>\n\
                 {/template}\n",
            ),
            ("d.json", "{\"c\":\"#fff\"}"),
        ],
        Status::Done,
        "<style>p { color: #fff; }</style>",
        "",
    ),
];

#[test]
fn rows_of_scripts(rt: HostRuntime) {
    for row in SCRIPTS {
        assert!(rt; is_answered(rt.alloc(), row), "row {}", row.0);
    }
}

/// What each command says of the paths of pages.
const PATHS: &[Row] = &[
    (
        "second-uri-value by check",
        "check - t.soy",
        &[(
            "t.soy",
            "{namespace t}\n\
                 {template m}\n\
                 {@param a: string}{@param b: string}\n\
                 <a href=\"{$a}{$b}\">L</a>\n\
                 {/template}\n",
        )],
        Status::Refused,
        "",
        "t.soy:4:14: 19 UriStart\n",
    ),
    (
        "optional-attribute by check",
        "check - t.soy",
        &[(
            "t.soy",
            "{namespace t}\n{template m}\n{@param d: bool}\n<input {if $d}disabled{/if}>\n{/template}\n",
        )],
        Status::Done,
        "ok\n",
        "",
    ),
    (
        "mixed-places by check",
        "check - t.soy",
        &[(
            "t.soy",
            "{namespace t}\n\
                 {template m}\n\
                 {@param x: bool}{@param y: string}\n\
                 <a {if $x}href=\"{/if}{$y}\">L</a>\n\
                 {/template}\n",
        )],
        Status::Refused,
        "",
        "t.soy:4:22: 12 Mixed\n",
    ),
    (
        "open-tag-at-end by check",
        "check - t.soy",
        &[("t.soy", "{namespace t}\n{template m}\n\n<b\n{/template}\n")],
        Status::Refused,
        "",
        "t.soy:5:1: 13 EndState\n",
    ),
    (
        "a tag of a printed name",
        "check - t.soy",
        &[(
            "t.soy",
            "{namespace t}\n{template m}\n{@param x: string}\na<h{$x}>b</h1>\n{/template}\n",
        )],
        Status::Refused,
        "",
        "t.soy:4:4: 14 InName\n",
    ),
    (
        "an attribute without quotes",
        "check - t.soy",
        &[(
            "t.soy",
            "{namespace t}\n{template m}\n{@param x: string}\n<a title={$x}>a</a>\n{/template}\n",
        )],
        Status::Refused,
        "",
        "t.soy:4:10: 11 Place\n",
    ),
    (
        "ampersand by check",
        "check - t.soy",
        &[(
            "t.soy",
            "{namespace t}\n{template m}\n{@param x: string}\nA&{$x}\n{/template}\n",
        )],
        Status::Refused,
        "",
        "t.soy:4:1: 16 Ampersand\n",
    ),
    (
        "unknown-reference by check",
        "check - t.soy",
        &[(
            "t.soy",
            "{namespace t}\n{template m}\n\nA&foo;\n{/template}\n",
        )],
        Status::Refused,
        "",
        "t.soy:4:1: 17 Reference\n",
    ),
    (
        "script-division by check",
        "check - t.soy",
        &[(
            "t.soy",
            "{namespace t}\n{template m}\n\n<script>a / b</script>\n{/template}\n",
        )],
        Status::Refused,
        "",
        "t.soy:4:1: 18 Script\n",
    ),
    (
        "a demand before the paths",
        "check - t.soy",
        &[(
            "t.soy",
            "{namespace t}\n{template m}\n<b{$x}\n{/template}\n",
        )],
        Status::Refused,
        "",
        "t.soy:3:4: 7 Unknown\n",
    ),
    (
        "a preview",
        "preview t.m d.json - t.soy",
        &[
            ("t.soy", "{namespace t}\n{template m}\n\n<b\n{/template}\n"),
            ("d.json", "{}"),
        ],
        Status::Refused,
        "",
        "t.soy:5:1: 13 EndState\n",
    ),
    (
        "a format of an open tag",
        "format t.soy",
        &[("t.soy", "{namespace t}\n{template m}\n\n<b\n{/template}\n")],
        Status::Done,
        "{namespace t}\n\n{template m}\n<b\n{/template}\n",
        "",
    ),
    (
        "an extract of an open tag",
        "extract t.soy",
        &[("t.soy", "{namespace t}\n{template m}\n\n<b\n{/template}\n")],
        Status::Done,
        "{\"messages\":[]}\n",
        "",
    ),
];

#[test]
fn rows_of_paths(rt: HostRuntime) {
    for row in PATHS {
        assert!(rt; is_answered(rt.alloc(), row), "row {}", row.0);
    }
}
