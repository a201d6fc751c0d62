//! Rows of what is printed in text, and of expressions.

use crate::running::{Row, is_answered};
use soy_top::Status;

/// Prints in text.
const PRINTS: &[Row] = &[
    (
        "text-print",
        "render t.m d.json - t.soy",
        &[
            (
                "t.soy",
                "{namespace t}\n{template m}\n{@param x: string}\n<b>{$x}</b>\n{/template}\n",
            ),
            ("d.json", "{\"x\":\"<i>\"}"),
        ],
        Status::Done,
        "<b><span dir=\"ltr\">&lt;i&gt;</span></b>",
        "",
    ),
    (
        "text-print-empty",
        "render t.m d.json - t.soy",
        &[
            (
                "t.soy",
                "{namespace t}\n{template m}\n{@param x: string}\n<b>{$x}</b>\n{/template}\n",
            ),
            ("d.json", "{\"x\":\"\"}"),
        ],
        Status::Done,
        "<b><span dir=\"ltr\"></span></b>",
        "",
    ),
    (
        "largest-int",
        "render t.m d.json - t.soy",
        &[
            (
                "t.soy",
                "{namespace t}\n{template m}\n{@param n: int}\n{$n + 1} {null}\n{/template}\n",
            ),
            ("d.json", "{\"n\":9007199254740991}"),
        ],
        Status::Done,
        "<span dir=\"ltr\">9007199254740991</span> <span dir=\"ltr\">null</span>",
        "",
    ),
    (
        "negative-remainder",
        "render t.m d.json - t.soy",
        &[
            (
                "t.soy",
                "{namespace t}\n{template m}\n\n{-7 % 3}\n{/template}\n",
            ),
            ("d.json", "{}"),
        ],
        Status::Done,
        "<span dir=\"ltr\">-1</span>",
        "",
    ),
    (
        "optional-parameter",
        "render t.m d.json - t.soy",
        &[
            (
                "t.soy",
                "{namespace t}\n{template m}\n{@param? s: string}\n{$s ?: 'none'}\n{/template}\n",
            ),
            ("d.json", "{}"),
        ],
        Status::Done,
        "<span dir=\"ltr\">none</span>",
        "",
    ),
    (
        "joined-lines",
        "render t.m d.json - t.soy",
        &[
            (
                "t.soy",
                "{namespace t}\n{template m}\n\nHello // greet\nworld{sp}\n<b>!</b>\n{/template}\n",
            ),
            ("d.json", "{}"),
        ],
        Status::Done,
        "Hello world <b>!</b>",
        "",
    ),
];

#[test]
fn rows_of_prints(rt: HostRuntime) {
    for row in PRINTS {
        assert!(rt; is_answered(rt.alloc(), row), "row {}", row.0);
    }
}

/// Expressions with their values.
const EXPRESSIONS: &[Row] = &[
    (
        "products before sums",
        "render t.m d.json - t.soy",
        &[
            (
                "t.soy",
                "{namespace t}\n{template m}\n\n{2 + 3 * -4}\n{/template}\n",
            ),
            ("d.json", "{}"),
        ],
        Status::Done,
        "<span dir=\"ltr\">-10</span>",
        "",
    ),
    (
        "a smallest int",
        "render t.m d.json - t.soy",
        &[
            (
                "t.soy",
                "{namespace t}\n{template m}\n{@param n: int}\n{$n - 1} {-$n}\n{/template}\n",
            ),
            ("d.json", "{\"n\":-9007199254740991}"),
        ],
        Status::Done,
        "<span dir=\"ltr\">-9007199254740991</span> <span dir=\"ltr\">9007199254740991</span>",
        "",
    ),
    (
        "a product past the largest int",
        "render t.m d.json - t.soy",
        &[
            (
                "t.soy",
                "{namespace t}\n{template m}\n{@param n: int}\n{$n * $n}\n{/template}\n",
            ),
            ("d.json", "{\"n\":9007199254740991}"),
        ],
        Status::Done,
        "<span dir=\"ltr\">9007199254740991</span>",
        "",
    ),
    (
        "texts that are joined",
        "render t.m d.json - t.soy",
        &[
            (
                "t.soy",
                "{namespace t}\n\
                 {template m}\n\
                 {@param n: int}{@param b: bool}\n\
                 {'a' + $n}{$b + 'z'}{null + ''}\n\
                 {/template}\n",
            ),
            ("d.json", "{\"n\":-7,\"b\":true}"),
        ],
        Status::Done,
        "<span dir=\"ltr\">a-7</span><span dir=\"ltr\">truez</span><span dir=\"ltr\">null</span>",
        "",
    ),
    (
        "texts in order",
        "render t.m d.json - t.soy",
        &[
            (
                "t.soy",
                "{namespace t}\n{template m}\n{@param s: string}\n{$s < 'b'}{$s >= 'a'}\n{/template}\n",
            ),
            ("d.json", "{\"s\":\"aa\"}"),
        ],
        Status::Done,
        "<span dir=\"ltr\">true</span><span dir=\"ltr\">true</span>",
        "",
    ),
    (
        "equal values",
        "render t.m d.json - t.soy",
        &[
            (
                "t.soy",
                "{namespace t}\n\
                 {template m}\n\
                 {@param n: int}{@param? s: string}\n\
                 {$n == 1}{$n == '1'}{$s != null}\n\
                 {/template}\n",
            ),
            ("d.json", "{\"n\":1}"),
        ],
        Status::Done,
        "<span dir=\"ltr\">true</span><span dir=\"ltr\">false</span><span dir=\"ltr\">false</span>",
        "",
    ),
    (
        "what is true",
        "render t.m d.json - t.soy",
        &[
            (
                "t.soy",
                "{namespace t}\n\
                 {template m}\n\
                 {@param s: string}{@param n: int}{@param l: list<int>}\n\
                 {not $s}{not $n}{not $l}{$s or 'x'}{$l and 0}\n\
                 {/template}\n",
            ),
            ("d.json", "{\"s\":\"\",\"n\":0,\"l\":[]}"),
        ],
        Status::Done,
        "<span dir=\"ltr\">true</span><span dir=\"ltr\">true</span><span dir=\"ltr\">false</span>\
         <span dir=\"ltr\">true</span><span dir=\"ltr\">false</span>",
        "",
    ),
    (
        "a condition",
        "render t.m d.json - t.soy",
        &[
            (
                "t.soy",
                "{namespace t}\n{template m}\n{@param n: int}\n{$n > 2 ? 'many' : 'few'}\n{/template}\n",
            ),
            ("d.json", "{\"n\":3}"),
        ],
        Status::Done,
        "<span dir=\"ltr\">many</span>",
        "",
    ),
    (
        "accesses that null ends",
        "render t.m d.json - t.soy",
        &[
            (
                "t.soy",
                "{namespace t}\n{template m}\n{@param? r: [a: list<int>]}\n{$r?.a?[0] ?: 7}\n{/template}\n",
            ),
            ("d.json", "{}"),
        ],
        Status::Done,
        "<span dir=\"ltr\">7</span>",
        "",
    ),
    (
        "an index past the end",
        "render t.m d.json - t.soy",
        &[
            (
                "t.soy",
                "{namespace t}\n{template m}\n{@param l: list<int>}\n{$l[2]}{$l[-1]}\n{/template}\n",
            ),
            ("d.json", "{\"l\":[1,2]}"),
        ],
        Status::Done,
        "<span dir=\"ltr\">null</span><span dir=\"ltr\">null</span>",
        "",
    ),
    (
        "a key that is computed",
        "render t.m d.json - t.soy",
        &[
            (
                "t.soy",
                "{namespace t}\n\
                 {template m}\n\
                 {@param m: map<string, int>}{@param k: string}\n\
                 {$m[$k + '2']}\n\
                 {/template}\n",
            ),
            ("d.json", "{\"m\":{\"a2\":5},\"k\":\"a\"}"),
        ],
        Status::Done,
        "<span dir=\"ltr\">5</span>",
        "",
    ),
    (
        "a let",
        "render t.m d.json - t.soy",
        &[
            (
                "t.soy",
                "{namespace t}\n{template m}\n{@param n: int}\n{let $d: $n * 2 /}{$d}{$d + 1}\n{/template}\n",
            ),
            ("d.json", "{\"n\":2}"),
        ],
        Status::Done,
        "<span dir=\"ltr\">4</span><span dir=\"ltr\">5</span>",
        "",
    ),
    (
        "characters of commands",
        "render t.m d.json - t.soy",
        &[
            (
                "t.soy",
                "{namespace t}\n{template m}\n\na{nbsp}b{lb}c{rb}{nil}{sp}{\\n}{\\t}d\n{/template}\n",
            ),
            ("d.json", "{}"),
        ],
        Status::Done,
        "a\u{a0}b{c} \n\td",
        "",
    ),
    (
        "a literal",
        "render t.m d.json - t.soy",
        &[
            (
                "t.soy",
                "{namespace t}\n{template m}\n\n{literal}{$x} // {/literal}\n{/template}\n",
            ),
            ("d.json", "{}"),
        ],
        Status::Done,
        "{$x} // ",
        "",
    ),
];

#[test]
fn rows_of_expressions(rt: HostRuntime) {
    for row in EXPRESSIONS {
        assert!(rt; is_answered(rt.alloc(), row), "row {}", row.0);
    }
}
