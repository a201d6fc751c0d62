//! Rows of `format`: files with their canonical source, or with the first fault that they have by themselves.

use crate::running::{Row, is_answered, run_line, two_files};
use soy_top::Status;

const FORMATTED: &str =
    "{namespace t}\n\n{template m}\n{@param x: string}\n{if $x}<b>{$x}</b>{/if}\n{/template}\n";

const ROWS: &[Row] = &[
    (
        "format-file, the first file",
        "format t.soy",
        &[(
            "t.soy",
            "{namespace t}\n{template .m}\n{@param x:string}\n  {if $x}<b>{print ($x)}</b>{/if} // end\n{/template}\n",
        )],
        Status::Done,
        FORMATTED,
        "",
    ),
    (
        "format-file, the second file",
        "format t.soy",
        &[("t.soy", FORMATTED)],
        Status::Done,
        FORMATTED,
        "",
    ),
    (
        "format-literal",
        "format t.soy",
        &[(
            "t.soy",
            "{namespace t}\n{template m}\n\n{literal}{ // }{/literal}\n{/template}\n",
        )],
        Status::Done,
        "{namespace t}\n\n{template m}\n{lb} /{nil}/ {rb}\n{/template}\n",
        "",
    ),
    (
        "format-parentheses",
        "format t.soy",
        &[(
            "t.soy",
            "{namespace t}\n{template m}\n\n{($a ?: $b) ? 1 : -(-2)}\n{/template}\n",
        )],
        Status::Done,
        "{namespace t}\n\n{template m}\n{print ($a ?: $b) ? 1 : - -2}\n{/template}\n",
        "",
    ),
    (
        "format-spaces",
        "format t.soy",
        &[(
            "t.soy",
            "{namespace t}\n{template m}\n\n{sp}a{sp}\n{/template}\n",
        )],
        Status::Done,
        "{namespace t}\n\n{template m}\n{sp}a{sp}\n{/template}\n",
        "",
    ),
    (
        "a file without templates",
        "format t.soy",
        &[("t.soy", "/* a */{namespace  a . b}")],
        Status::Done,
        "{namespace a.b}\n",
        "",
    ),
    (
        "a message, a call and a switch",
        "format t.soy",
        &[(
            "t.soy",
            "{namespace t}{template m kind=\"text\"}{msg meaning=\"\" desc=\"שלום\"}a{/msg}{call .n data=\"all\"/}\n\
             {switch $x}\n{case 1,2}a{/switch}{/template}",
        )],
        Status::Done,
        "{namespace t}\n\n{template m kind=\"text\"}\n{msg desc=\"שלום\"}a{/msg}{call n data=\"all\" /}\
         {switch $x}{case 1, 2}a{/switch}\n{/template}\n",
        "",
    ),
    (
        "what is demanded of trees and of paths isn't asked",
        "format t.soy",
        &[("t.soy", "{namespace t}{template m}{$y}<b{/template}")],
        Status::Done,
        "{namespace t}\n\n{template m}\n{$y}<b\n{/template}\n",
        "",
    ),
    (
        "3",
        "format t.soy",
        &[("t.soy", "{namespace t}\n{template m}\n }{/template}\n")],
        Status::Refused,
        "",
        "t.soy:3:2: 3 Lex\n",
    ),
    (
        "4",
        "format t.soy",
        &[("t.soy", "{namespace t}\n{template m}\n{$x +}{/template}\n")],
        Status::Refused,
        "",
        "t.soy:3:6: 4 Syntax\n",
    ),
    (
        "8 of a type name",
        "format t.soy",
        &[(
            "t.soy",
            "{namespace t}{template m}{@param x:lisp}{/template}",
        )],
        Status::Refused,
        "",
        "t.soy:1:36: 8 Type\n",
    ),
];

#[test]
fn rows_of_format(rt: HostRuntime) {
    for row in ROWS {
        assert!(rt; is_answered(rt.alloc(), row), "row {}", row.0);
    }
}

#[test]
fn a_format_of_bytes(rt: HostRuntime) {
    let alloc = rt.alloc();
    let ended = match two_files(alloc, b"{namespace t}\n\xff", b"") {
        Some(files) => run_line(alloc, "format t.soy", files),
        None => None,
    };
    let is_refused = match ended {
        Some(ended) => ended.is(Status::Refused, b"", b"t.soy:2:1: 1 NotUtf8\n"),
        None => false,
    };
    assert!(rt; is_refused);
}
