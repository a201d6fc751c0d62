//! Tokens of commands, by the forms of the language: which tokens a text in a command has, and where no token begins.

use crate::texts::answer;
use std::alloc::{AllocError, Global};
use std::process::Abort;
use std::test::Fail;

/// A text in a command with its tokens, or the first offset where none begins.
type Row = (&'static str, &'static str);

const NAMES: &[Row] = &[
    ("if $a", "Word@0-2[if] Variable@3-5[a]"),
    ("_", "Word@0-1[_]"),
    ("Az09_.b", "Word@0-5[Az09_] Symbol@5-6[.] Word@6-7[b]"),
    ("aé", "Lex in 3 at 1"),
    ("a\0", "Lex in 3 at 1"),
    ("$name.b", "Variable@0-5[name] Symbol@5-6[.] Word@6-7[b]"),
    ("$_1+", "Variable@0-3[_1] Symbol@3-4[+]"),
    ("}/", "End@0-1[}] Text@1-2[/]"),
    ("/} {", "SlashEnd@0-2[/}] Text@2-3[ ] Begin@3-4[{]"),
];

const INTS: &[Row] = &[
    ("0", "Int@0-1[0]"),
    ("07", "Int@0-1[0] Int@1-2[7]"),
    ("7a", "Int@0-1[7] Word@1-2[a]"),
    ("10.5", "Int@0-2[10] Symbol@2-3[.] Int@3-4[5]"),
    ("12\0", "Lex in 3 at 2"),
    (
        "9007199254740991}",
        "Int@0-16[9007199254740991] End@16-17[}]",
    ),
];

const SYMBOLS: &[Row] = &[
    (".a", "Symbol@0-1[.] Word@1-2[a]"),
    ("?.a", "Symbol@0-2[?.] Word@2-3[a]"),
    ("[0", "Symbol@0-1[[] Int@1-2[0]"),
    ("?[0", "Symbol@0-2[?[] Int@2-3[0]"),
    ("]]", "Symbol@0-1[]] Symbol@1-2[]]"),
    ("((", "Symbol@0-1[(] Symbol@1-2[(]"),
    (")", "Symbol@0-1[)]"),
    (",", "Symbol@0-1[,]"),
    ("::", "Symbol@0-1[:] Symbol@1-2[:]"),
    ("?:x", "Symbol@0-2[?:] Word@2-3[x]"),
    ("??", "Symbol@0-2[??]"),
    ("???", "Symbol@0-2[??] Symbol@2-3[?]"),
    ("?", "Symbol@0-1[?]"),
    ("? :", "Symbol@0-1[?] Symbol@2-3[:]"),
    ("?\0", "Lex in 3 at 1"),
    ("=a", "Symbol@0-1[=] Word@1-2[a]"),
    ("===", "Symbol@0-2[==] Symbol@2-3[=]"),
    ("!=", "Symbol@0-2[!=]"),
    ("<", "Symbol@0-1[<]"),
    ("<=", "Symbol@0-2[<=]"),
    ("<>", "Symbol@0-1[<] Symbol@1-2[>]"),
    (">é", "Lex in 3 at 1"),
    (">=", "Symbol@0-2[>=]"),
    ("+", "Symbol@0-1[+]"),
    ("-1", "Symbol@0-1[-] Int@1-2[1]"),
    ("*", "Symbol@0-1[*]"),
    ("%", "Symbol@0-1[%]"),
    ("|x", "Symbol@0-1[|] Word@1-2[x]"),
    ("@param", "Symbol@0-1[@] Word@1-6[param]"),
    ("\\nn", "Symbol@0-2[\\n] Word@2-3[n]"),
    ("\\r", "Symbol@0-2[\\r]"),
    ("\\t}", "Symbol@0-2[\\t] End@2-3[}]"),
];

const STRINGS: &[Row] = &[
    ("'' ''", "Str@0-2[] Str@3-5[]"),
    ("'a'b", "Str@0-3[a] Word@3-4[b]"),
    ("'\"}/*'", "Str@0-6[\"}/*]"),
    ("'a\nb'", "Str@0-5[a\nb]"),
    ("'é€😀'e", "Str@0-11[é€😀] Word@11-12[e]"),
    ("'\\\\'", "Str@0-4[\\]"),
    ("'\\''", "Str@0-4[']"),
    ("'\\\"'", "Str@0-4[\"]"),
    ("'\\n\\r\\t'", "Str@0-8[\n\r\t]"),
    ("'\\b\\f'", "Str@0-6[\u{8}\u{c}]"),
    ("'\\u0041'", "Str@0-8[A]"),
    ("'\\u20aC1'", "Str@0-9[€1]"),
    ("'\\ud7ff'", "Str@0-8[\u{d7ff}]"),
    ("'\\uE000'", "Str@0-8[\u{e000}]"),
    ("'\\uffff'", "Str@0-8[\u{ffff}]"),
    // An escape may write a U+0000, which then stands nowhere.
    ("'\\u0000'", "Str@0-8[\0]"),
    ("'a' \0", "Lex in 3 at 4"),
];

const VALUES: &[Row] = &[
    ("\"\"", "Attribute@0-2[]"),
    ("\"a'b}\"c", "Attribute@0-6[a'b}] Word@6-7[c]"),
    ("\"\\\"", "Attribute@0-3[\\]"),
    ("\"é\r\n\"", "Attribute@0-6[é\r\n]"),
    ("\"a\"\0", "Lex in 3 at 3"),
];

const WHITE_SPACE: &[Row] = &[
    (" a", "Word@1-2[a]"),
    ("\t\t", ""),
    ("\n", ""),
    ("\r\n", ""),
    ("a\u{a0}", "Lex in 3 at 1"),
];

/// After the brace of a command.
const OPENED: &[Row] = &[
    ("/if}", "BeginClose@0-3[if] End@3-4[}]"),
    ("/_9/}", "BeginClose@0-3[_9] SlashEnd@3-5[/}]"),
    ("/}", "SlashEnd@0-2[/}]"),
    ("}", "End@0-1[}]"),
    ("if", "Word@0-2[if]"),
    ("$a", "Variable@0-2[a]"),
    ("\\n}", "Symbol@0-2[\\n] End@2-3[}]"),
];

/// A text in a command, and the offset in it where no token begins.
const FAULTS: &[(&str, u64)] = &[
    ("#", 0),
    ("é", 0),
    ("{", 0),
    ("&", 0),
    ("`a`", 0),
    ("\u{a0}", 0),
    ("\u{b}", 0),
    ("$", 0),
    ("$1", 0),
    ("$ a", 0),
    ("$é", 0),
    ("!", 0),
    ("! =", 0),
    ("\\", 0),
    ("\\x", 0),
    ("\\N", 0),
    ("/", 0),
    ("/ }", 0),
    ("//", 0),
    ("9007199254740992", 0),
    ("9999999999999999", 0),
    ("10000000000000000", 0),
    ("1844674407370955161600000000000000000000", 0),
    ("'", 0),
    ("'a", 0),
    ("'a\\", 0),
    ("'a\\'", 0),
    ("'\\x'", 0),
    ("'\\0'", 0),
    ("'\\é'", 0),
    ("'\\U0041'", 0),
    ("'\\u'", 0),
    ("'\\u12'", 0),
    ("'\\u12", 0),
    ("'\\u123g'", 0),
    ("'\\u+123'", 0),
    ("'\\ud800'", 0),
    ("'\\uDFFF'", 0),
    ("\"", 0),
    ("\"a'", 0),
    ("\0", 0),
    // A U+0000 in a string or value that has its end, by bytes.
    ("'\0'", 1),
    ("'é\0\0'", 3),
    ("'\\n\0'", 3),
    ("\"\0\"", 1),
    ("\"a€\0\"", 5),
    // And in one that is refused itself.
    ("'\0", 0),
    ("'\0\\x'", 0),
    ("\"\0", 0),
];

/// The same after the brace of a command.
const OPENED_FAULTS: &[(&str, u64)] = &[
    ("/ if}", 0),
    ("/", 0),
    ("/1}", 0),
    ("/é}", 0),
    ("/\0}", 0),
    ("//", 0),
    ("\0", 0),
];

/// Whether a text behind another one is refused at this offset in it.
fn is_refused(alloc: Global, before: &str, text: &str, offset: u64) -> Result<bool, AllocError> {
    let found = answer(alloc, before, text)?;
    let wanted = format!(in alloc; "Lex in 3 at {offset}")?;
    Ok(found.as_str() == wanted.as_str())
}

fn check(rt: &impl Abort, alloc: Global, before: &str, rows: &[Row]) -> Result<(), Fail> {
    for (text, expected) in rows {
        let shown = answer(alloc, before, text)?;
        assert_eq!(rt; shown.as_str(), *expected, "of {text:?}");
    }
    Ok(())
}

#[test]
fn commands_have_their_tokens(rt: HostRuntime) -> Result<(), Fail> {
    for rows in [NAMES, INTS, SYMBOLS, STRINGS, VALUES, WHITE_SPACE] {
        check(&rt, rt.alloc(), "{_ ", rows)?;
    }
    check(&rt, rt.alloc(), "{", OPENED)
}

#[test]
fn other_texts_begin_no_token(rt: HostRuntime) -> Result<(), Fail> {
    for (text, offset) in FAULTS {
        assert!(rt;
            is_refused(rt.alloc(), "{_ ", text, *offset)?,
            "at {text:?}"
        );
    }
    for (text, offset) in OPENED_FAULTS {
        assert!(rt;
            is_refused(rt.alloc(), "{", text, *offset)?,
            "opened, at {text:?}"
        );
    }
    Ok(())
}
