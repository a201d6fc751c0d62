//! Rows of files whose trees don't meet what is demanded of them together.

use crate::running::{Row, is_answered};
use soy_top::Status;

const UNKNOWN: &str = "{namespace t}\n{template m}\n{$y}\n{/template}\n";

/// Files with the first demand that they don't meet.
const CHECKS: &[Row] = &[
    (
        "a template twice",
        "check - t.soy",
        &[(
            "t.soy",
            "{namespace t}\n{template m}\na\n{/template}\n{template m}\nb\n{/template}\n",
        )],
        Status::Refused,
        "",
        "t.soy:5:1: 6 Twice\n",
    ),
    (
        "a parameter twice",
        "check - t.soy",
        &[(
            "t.soy",
            "{namespace t}\n{template m}\n{@param x: string}\n{@param x: int}\n{$x}\n{/template}\n",
        )],
        Status::Refused,
        "",
        "t.soy:4:1: 6 Twice\n",
    ),
    (
        "a field twice",
        "check - t.soy",
        &[(
            "t.soy",
            "{namespace t}\n{template m}\n{@param x: [a: int, a: int]}\na\n{/template}\n",
        )],
        Status::Refused,
        "",
        "t.soy:3:1: 6 Twice\n",
    ),
    (
        "a param of a call twice",
        "check - t.soy",
        &[(
            "t.soy",
            "{namespace t}\n\
                 {template m}\n\
                 {@param x: string}\n\
                 {call m}{param x: 'a' /}{param x: 'b' /}{/call}\n\
                 {/template}\n",
        )],
        Status::Refused,
        "",
        "t.soy:4:25: 6 Twice\n",
    ),
    (
        "a variable that is visible",
        "check - t.soy",
        &[(
            "t.soy",
            "{namespace t}\n{template m}\n{@param x: string}\n{let $x: 1 /}\n{/template}\n",
        )],
        Status::Refused,
        "",
        "t.soy:4:1: 6 Twice\n",
    ),
    (
        "an unknown variable",
        "check - t.soy",
        &[("t.soy", "{namespace t}\n{template m}\né{$y}\n{/template}\n")],
        Status::Refused,
        "",
        "t.soy:3:3: 7 Unknown\n",
    ),
    (
        "an unknown template",
        "check - t.soy",
        &[(
            "t.soy",
            "{namespace t}\n{template m}\n{call n /}\n{/template}\n",
        )],
        Status::Refused,
        "",
        "t.soy:3:1: 7 Unknown\n",
    ),
    (
        "an unknown field",
        "check - t.soy",
        &[(
            "t.soy",
            "{namespace t}\n{template m}\n{@param x: [a: int]}\n{$x.b}\n{/template}\n",
        )],
        Status::Refused,
        "",
        "t.soy:4:2: 7 Unknown\n",
    ),
    (
        "a private template of another namespace",
        "check - t.soy u.soy",
        &[
            (
                "t.soy",
                "{namespace t}\n{template m}\n{call u.m /}\n{/template}\n",
            ),
            (
                "u.soy",
                "{namespace u}\n{template m visibility=\"private\"}\na\n{/template}\n",
            ),
        ],
        Status::Refused,
        "",
        "t.soy:3:1: 7 Unknown\n",
    ),
    (
        "an operand of another type",
        "check - t.soy",
        &[(
            "t.soy",
            "{namespace t}\n{template m}\n{@param x: string}\n{1 + ($x * 2)}\n{/template}\n",
        )],
        Status::Refused,
        "",
        "t.soy:4:7: 8 Type\n",
    ),
    (
        "a plural of a string",
        "check - t.soy",
        &[(
            "t.soy",
            "{namespace t}\n\
                 {template m}\n\
                 {@param x: string}\n\
                 {msg desc=\"d\"}{plural $x}{default}a{/plural}{/msg}\n\
                 {/template}\n",
        )],
        Status::Refused,
        "",
        "t.soy:4:23: 8 Type\n",
    ),
    (
        "a list of html",
        "check - t.soy",
        &[(
            "t.soy",
            "{namespace t}\n{template m}\n{@param x: list<html>}\na\n{/template}\n",
        )],
        Status::Refused,
        "",
        "t.soy:3:1: 8 Type\n",
    ),
    (
        "a param that there isn't",
        "check - t.soy",
        &[(
            "t.soy",
            "{namespace t}\n\
                 {template m}\n\
                 {call n}{param y: 1 /}{/call}\n\
                 {/template}\n\
                 {template n}\n\
                 a\n\
                 {/template}\n",
        )],
        Status::Refused,
        "",
        "t.soy:3:9: 9 Argument\n",
    ),
    (
        "a param left out",
        "check - t.soy",
        &[(
            "t.soy",
            "{namespace t}\n\
                 {template m}\n\
                 {call n /}\n\
                 {/template}\n\
                 {template n}\n\
                 {@param x: string}\n\
                 {$x}\n\
                 {/template}\n",
        )],
        Status::Refused,
        "",
        "t.soy:3:1: 9 Argument\n",
    ),
    (
        "a list that is printed",
        "check - t.soy",
        &[(
            "t.soy",
            "{namespace t}\n{template m}\n{@param x: list<int>}\na{$x}\n{/template}\n",
        )],
        Status::Refused,
        "",
        "t.soy:4:2: 20 Kind\n",
    ),
    (
        "all in order",
        "check - t.soy",
        &[(
            "t.soy",
            "{namespace t}\n\
                 {template m}\n\
                 {call n}{param x: 1 /}{/call}{let $y kind=\"html\"}b{/let}{$y}\n\
                 {/template}\n\
                 {template n}\n\
                 {@param x: int|null}\n\
                 {if $x}{$x + 1}{/if}\n\
                 {/template}\n",
        )],
        Status::Done,
        "ok\n",
        "",
    ),
    (
        "declarations before bodies",
        "check - t.soy u.soy",
        &[
            ("t.soy", UNKNOWN),
            (
                "u.soy",
                "{namespace u}\n{template m}\n{@param x: string}\n{@param x: string}\n{$x}\n{/template}\n",
            ),
        ],
        Status::Refused,
        "",
        "u.soy:4:1: 6 Twice\n",
    ),
    (
        "the first body of two",
        "check - u.soy t.soy",
        &[
            ("t.soy", UNKNOWN),
            ("u.soy", "{namespace u}\n{template m}\n{$z}\n{/template}\n"),
        ],
        Status::Refused,
        "",
        "u.soy:3:2: 7 Unknown\n",
    ),
    (
        "its own fault before that of an earlier body",
        "check - t.soy u.soy",
        &[("t.soy", UNKNOWN), ("u.soy", "}")],
        Status::Refused,
        "",
        "u.soy:1:1: 3 Lex\n",
    ),
    (
        "a file twice",
        "check - t.soy t.soy",
        &[("t.soy", "{namespace t}\n{template m}\na\n{/template}\n")],
        Status::Refused,
        "",
        "t.soy:2:1: 6 Twice\n",
    ),
    (
        "render",
        "render t.m d.json - t.soy",
        &[("t.soy", UNKNOWN), ("d.json", "{}")],
        Status::Refused,
        "",
        "t.soy:3:2: 7 Unknown\n",
    ),
    (
        "render without that template",
        "render t.zz d.json - t.soy",
        &[("t.soy", UNKNOWN), ("d.json", "{}")],
        Status::Refused,
        "",
        "t.soy:3:2: 7 Unknown\n",
    ),
    (
        "render without data",
        "render t.m d.json - t.soy",
        &[("t.soy", UNKNOWN), ("d.json", "{")],
        Status::Refused,
        "",
        "t.soy:3:2: 7 Unknown\n",
    ),
    (
        "extract",
        "extract t.soy",
        &[("t.soy", UNKNOWN)],
        Status::Refused,
        "",
        "t.soy:3:2: 7 Unknown\n",
    ),
    (
        "play",
        "play d.json - - t.soy",
        &[("t.soy", UNKNOWN), ("d.json", "")],
        Status::Refused,
        "",
        "t.soy:3:2: 7 Unknown\n",
    ),
    (
        "preview",
        "preview t.m d.json d.json t.soy",
        &[("t.soy", UNKNOWN), ("d.json", "")],
        Status::Refused,
        "",
        "t.soy:3:2: 7 Unknown\n",
    ),
    (
        "format",
        "format t.soy",
        &[("t.soy", UNKNOWN)],
        Status::Done,
        "{namespace t}\n\n{template m}\n{$y}\n{/template}\n",
        "",
    ),
];

#[test]
fn rows_of_checks(rt: HostRuntime) {
    for row in CHECKS {
        assert!(rt; is_answered(rt.alloc(), row), "row {}", row.0);
    }
}
