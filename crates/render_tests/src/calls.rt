//! Rows of prints, blocks and calls, with how they end.

use crate::pages::Row;
use crate::pulling::{End, ends_so};

/// So many letters `a`.
const HUNDRED: &str = "aaaaaaaaaaaaaaaaaaaaaaaaaaaaaaaaaaaaaaaaaaaaaaaaaa\
    aaaaaaaaaaaaaaaaaaaaaaaaaaaaaaaaaaaaaaaaaaaaaaaaaa";

const HUNDRED_ONE: &str = "aaaaaaaaaaaaaaaaaaaaaaaaaaaaaaaaaaaaaaaaaaaaaaaaaaa\
    aaaaaaaaaaaaaaaaaaaaaaaaaaaaaaaaaaaaaaaaaaaaaaaaaa";

/// Pages, and how they end: at an offset, which is that of their call.
const ROWS: &[(Row, End)] = &[
    (
        Row {
            name: "text-print",
            params: "{@param x: string}",
            body: "<b>{$x}</b>",
            others: "",
            json: "{\"x\":\"<i>\"}",
            bundle: "",
            text: "<b><span dir=\"ltr\">&lt;i&gt;</span></b>",
        },
        End::Whole,
    ),
    (
        Row {
            name: "block-twice",
            params: "{@param x: string}",
            body: "{let $b kind=\"html\"}<i>{$x}</i>{/let}{$b}{$b}",
            others: "",
            json: "{\"x\":\"q\"}",
            bundle: "",
            text: "<i><span dir=\"ltr\">q</span></i><i><span dir=\"ltr\">q</span></i>",
        },
        End::Whole,
    ),
    (
        Row {
            name: "self-call",
            params: "",
            body: "{call m /}",
            others: "",
            json: "{}",
            bundle: "",
            text: "",
        },
        End::TooDeep(28),
    ),
    (
        Row {
            name: "calls-to-limit",
            params: "{@param n: int}",
            body: "{if $n > 0}a{call m}{param n: $n - 1 /}{/call}{/if}",
            others: "",
            json: "{\"n\":100}",
            bundle: "",
            text: HUNDRED,
        },
        End::Whole,
    ),
    (
        Row {
            name: "calls-past-limit",
            params: "{@param n: int}",
            body: "{if $n > 0}a{call m}{param n: $n - 1 /}{/call}{/if}",
            others: "",
            json: "{\"n\":101}",
            bundle: "",
            text: HUNDRED_ONE,
        },
        End::TooDeep(55),
    ),
];

#[test]
fn rows_of_calls(rt: HostRuntime) {
    for (row, end) in ROWS {
        assert!(rt; ends_so(rt.alloc(), row, *end), "row {}", row.name);
    }
}
