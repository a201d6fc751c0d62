//! Whole texts: their tokens, or the first offset where none begins.

use soy_base::Refusal;
use soy_lexer::{Token, lex};
use std::alloc::{AllocError, Global};
use std::process::Abort;
use std::test::Fail;

/// Adds each token from an offset on, as its kind, its span behind that offset and its text.
fn show(alloc: Global, tokens: &[Token], from: u64, shown: &mut String) -> Result<(), AllocError> {
    for token in tokens {
        let Some(start) = token.span.start.checked_sub(from) else {
            continue;
        };
        if !shown.as_str().is_empty() {
            shown.push(' ')?;
        }
        let kind = token.kind;
        let end = token.span.end.saturating_sub(from);
        let text = token.text.text();
        let one = format!(in alloc; "{kind:?}@{start}-{end}[{text}]")?;
        shown.push_str(one.as_str())?;
    }
    Ok(())
}

/// The tokens of a text behind another one, or its fault; offsets are those in the text.
pub(crate) fn answer(alloc: Global, before: &str, text: &str) -> Result<String, AllocError> {
    let from = before.len() as u64;
    let whole = format!(in alloc; "{before}{text}")?;
    match lex(alloc, whole.as_str(), 3) {
        Ok(tokens) => {
            let mut shown = String::new(alloc);
            show(alloc, tokens.as_slice(), from, &mut shown)?;
            Ok(shown)
        }
        Err(Refusal::Because(fault)) => {
            let code = fault.code;
            let file = fault.file;
            let at = fault.at.saturating_sub(from);
            format!(in alloc; "{code:?} in {file} at {at}")
        }
        Err(Refusal::OutOfMemory) => String::from_str(alloc, "out of memory"),
    }
}

fn check(rt: &impl Abort, alloc: Global, rows: &[(&str, &str)]) -> Result<(), Fail> {
    for (text, expected) in rows {
        let shown = answer(alloc, "", text)?;
        assert_eq!(rt; shown.as_str(), *expected, "of {text:?}");
    }
    Ok(())
}

/// Whole files.
const FILES: &[(&str, &str)] = &[
    (
        "{namespace t}\n{template m}\n\nHello // greet\nworld{sp}\n<b>!</b>\n{/template}\n",
        "Begin@0-1[{] Word@1-10[namespace] Word@11-12[t] End@12-13[}] \
         Begin@14-15[{] Word@15-23[template] Word@24-25[m] End@25-26[}] \
         Text@28-48[Hello world] Begin@48-49[{] Word@49-51[sp] End@51-52[}] Text@53-61[<b>!</b>] \
         Begin@62-63[{] BeginClose@63-72[template] End@72-73[}]",
    ),
    (
        "{namespace t}\n{template m}\n\na { b\n{/template}\n",
        "Lex in 3 at 30",
    ),
    ("", ""),
];

const CHARACTER_COMMANDS: &[(&str, &str)] = &[
    ("{sp}", "Begin@0-1[{] Word@1-3[sp] End@3-4[}]"),
    ("{nil}", "Begin@0-1[{] Word@1-4[nil] End@4-5[}]"),
    ("{\\n}", "Begin@0-1[{] Symbol@1-3[\\n] End@3-4[}]"),
    ("{\\r}", "Begin@0-1[{] Symbol@1-3[\\r] End@3-4[}]"),
    ("{\\t}", "Begin@0-1[{] Symbol@1-3[\\t] End@3-4[}]"),
    ("{lb}", "Begin@0-1[{] Word@1-3[lb] End@3-4[}]"),
    ("{rb}", "Begin@0-1[{] Word@1-3[rb] End@3-4[}]"),
    ("{nbsp}", "Begin@0-1[{] Word@1-5[nbsp] End@5-6[}]"),
];

const JOINED: &[(&str, &str)] = &[
    // White space on both sides of a line break goes, and lines that are then empty.
    ("a \n\t b", "Text@0-6[a b]"),
    ("a\n\n \nb", "Text@0-6[a b]"),
    ("\n a", "Text@2-3[a]"),
    ("a \n", "Text@0-1[a]"),
    ("a\nb\nc", "Text@0-5[a b c]"),
    // A line breaks at LF, CR LF or CR.
    ("a\r\nb", "Text@0-4[a b]"),
    ("a\rb", "Text@0-3[a b]"),
    ("a\r\r\nb", "Text@0-5[a b]"),
    // Nothing is put beside an angle.
    ("a\n<b>", "Text@0-5[a<b>]"),
    ("<b>\na", "Text@0-5[<b>a]"),
    ("a<\nb", "Text@0-4[a<b]"),
    ("a>\nb", "Text@0-4[a>b]"),
    ("a\n>b", "Text@0-4[a>b]"),
    ("a \n <", "Text@0-5[a<]"),
    ("<\n>", "Text@0-3[<>]"),
    ("<a\nb<", "Text@0-5[<a b<]"),
    ("<\n \na\nb", "Text@0-7[<a b]"),
    // Other white space stays.
    (" a  b ", "Text@0-6[ a  b ]"),
    (" a\nb ", "Text@0-5[ a b ]"),
    ("  ", "Text@0-2[  ]"),
    (" \n ", ""),
    ("\n", ""),
    ("\r", ""),
    // Nothing is put beside a command.
    (
        "a{sp}\n b",
        "Text@0-1[a] Begin@1-2[{] Word@2-4[sp] End@4-5[}] Text@7-8[b]",
    ),
    (
        "a\n {sp}",
        "Text@0-1[a] Begin@3-4[{] Word@4-6[sp] End@6-7[}]",
    ),
    (
        "a {sp} b",
        "Text@0-2[a ] Begin@2-3[{] Word@3-5[sp] End@5-6[}] Text@6-8[ b]",
    ),
    ("\n{sp}\n", "Begin@1-2[{] Word@2-4[sp] End@4-5[}]"),
    (" {sp}", "Text@0-1[ ] Begin@1-2[{] Word@2-4[sp] End@4-5[}]"),
    // Places are bytes; white space is of four characters only.
    ("é\n€", "Text@0-6[é €]"),
    ("\u{a0}\n\u{a0}", "Text@0-5[\u{a0} \u{a0}]"),
    ("a\u{c}\nb", "Text@0-4[a\u{c} b]"),
    ("𝄞{sp}", "Text@0-4[𝄞] Begin@4-5[{] Word@5-7[sp] End@7-8[}]"),
];

const COMMENTS: &[(&str, &str)] = &[
    ("a // c\nb", "Text@0-8[a b]"),
    ("a //c\r\nb", "Text@0-8[a b]"),
    ("a\n//c\nb", "Text@0-7[a b]"),
    ("// c\na", "Text@5-6[a]"),
    ("a // c", "Text@0-2[a ]"),
    ("< // c\nb", "Text@0-8[<b]"),
    ("a // /* c\nb", "Text@0-11[a b]"),
    // Only white space or the file's start comes before `//`.
    ("a//b", "Text@0-4[a//b]"),
    ("http://x", "Text@0-8[http://x]"),
    (
        "{nil}//c",
        "Begin@0-1[{] Word@1-4[nil] End@4-5[}] Text@5-8[//c]",
    ),
    ("/**///x", "Text@4-7[//x]"),
    ("a /**/ // c", "Text@0-7[a  ]"),
    // A comment is taken out of its line, with the line breaks in it.
    ("a /* b */ c", "Text@0-11[a  c]"),
    ("a/* b\n */c", "Text@0-10[ac]"),
    ("a/**/", "Text@0-1[a]"),
    ("/**/", ""),
    ("a /**/\n/**/ b", "Text@0-13[a b]"),
    ("a\n/**/\nb", "Text@0-8[a b]"),
    ("<\n/**/b", "Text@0-7[<b]"),
    // `/*` needs an end of its own.
    ("/*/", "Lex in 3 at 0"),
    ("/*/*/", ""),
    ("a /* b", "Lex in 3 at 2"),
    ("é/* *", "Lex in 3 at 2"),
    // A command has no comments.
    ("{a /* b}", "Lex in 3 at 3"),
    ("a / b", "Text@0-5[a / b]"),
];

const LITERALS: &[(&str, &str)] = &[
    ("{literal}{/literal}", "Text@0-19[]"),
    ("{literal} a\n b {/literal}", "Text@9-25[ a\n b ]"),
    (
        "a \n{literal}b{/literal}\n c",
        "Text@0-1[a] Text@12-23[b] Text@25-26[c]",
    ),
    (
        "a{literal}{/literal}b",
        "Text@0-1[a] Text@1-20[] Text@20-21[b]",
    ),
    ("{literal}{a}{b}{/literal}", "Text@9-25[{a}{b}]"),
    ("{literal}// /* */{/literal}", "Text@9-27[// /* */]"),
    ("{literal}é{/literal}", "Text@9-21[é]"),
    ("{literal}{literal}{/literal}", "Text@9-28[{literal}]"),
    (
        "{literal}a{/literal}{/literal}",
        "Text@9-20[a] Begin@20-21[{] BeginClose@21-29[literal] End@29-30[}]",
    ),
    ("{literal}", "Lex in 3 at 0"),
    ("a{literal}{/literal", "Lex in 3 at 1"),
    ("{literal }", "Begin@0-1[{] Word@1-8[literal] End@9-10[}]"),
    ("{Literal}", "Begin@0-1[{] Word@1-8[Literal] End@8-9[}]"),
];

const FAULTS: &[(&str, &str)] = &[
    ("a { b", "Lex in 3 at 2"),
    ("{{a}", "Lex in 3 at 0"),
    ("a{\n", "Lex in 3 at 1"),
    ("{\tb}", "Lex in 3 at 0"),
    ("{\rb}", "Lex in 3 at 0"),
    ("a}b", "Lex in 3 at 1"),
    ("}", "Lex in 3 at 0"),
    ("{a}}", "Lex in 3 at 3"),
    ("é}", "Lex in 3 at 2"),
    ("a } b { c", "Lex in 3 at 2"),
    // U+0000, in each kind of segment.
    ("\0", "Lex in 3 at 0"),
    ("a\0b", "Lex in 3 at 1"),
    (" //a\0\n", "Lex in 3 at 4"),
    ("/*\0*/", "Lex in 3 at 2"),
    ("a/*é\0*/", "Lex in 3 at 5"),
    ("{literal}a\0{/literal}", "Lex in 3 at 10"),
    ("{a\0}", "Lex in 3 at 2"),
    ("{'a\0'}", "Lex in 3 at 3"),
    ("{\"\0\"}", "Lex in 3 at 2"),
    // It is refused after what stands around it.
    ("/*\0", "Lex in 3 at 0"),
    ("{literal}\0", "Lex in 3 at 0"),
    ("{'\0", "Lex in 3 at 1"),
    ("{\"\0", "Lex in 3 at 1"),
];

/// The text's end cuts these off.
const CUT_OFF: &[(&str, &str)] = &[
    ("a{", "Text@0-1[a] Begin@1-2[{]"),
    ("{if", "Begin@0-1[{] Word@1-3[if]"),
    ("{if $x ", "Begin@0-1[{] Word@1-3[if] Variable@4-6[x]"),
    ("{/if", "Begin@0-1[{] BeginClose@1-4[if]"),
    ("{/", "Lex in 3 at 1"),
    ("a /", "Text@0-3[a /]"),
    ("a //", "Text@0-2[a ]"),
];

#[test]
fn files_have_their_tokens(rt: HostRuntime) -> Result<(), Fail> {
    check(&rt, rt.alloc(), FILES)
}

#[test]
fn character_commands_are_commands(rt: HostRuntime) -> Result<(), Fail> {
    check(&rt, rt.alloc(), CHARACTER_COMMANDS)
}

#[test]
fn lines_are_joined(rt: HostRuntime) -> Result<(), Fail> {
    check(&rt, rt.alloc(), JOINED)
}

#[test]
fn comments_go(rt: HostRuntime) -> Result<(), Fail> {
    check(&rt, rt.alloc(), COMMENTS)
}

#[test]
fn literals_stay(rt: HostRuntime) -> Result<(), Fail> {
    check(&rt, rt.alloc(), LITERALS)
}

#[test]
fn faults_have_their_offsets(rt: HostRuntime) -> Result<(), Fail> {
    check(&rt, rt.alloc(), FAULTS)
}

#[test]
fn the_end_cuts_commands_off(rt: HostRuntime) -> Result<(), Fail> {
    check(&rt, rt.alloc(), CUT_OFF)
}

fn repeated(alloc: Global, segment: &str, count: u32) -> Result<String, AllocError> {
    let mut text = String::new(alloc);
    for _ in 0..count {
        text.push_str(segment)?;
    }
    Ok(text)
}

#[test]
fn the_limit_is_in_bytes(rt: HostRuntime) -> Result<(), Fail> {
    let alloc = rt.alloc();
    let most = repeated(alloc, "é", 524_288)?;
    match lex(alloc, most.as_str(), 0) {
        Ok(tokens) => assert_eq!(rt; tokens.len(), 1),
        Err(_) => assert!(rt; false, "within the limit"),
    }
    let closed = repeated(alloc, "}", 1_048_576)?;
    assert_eq!(rt;
        answer(alloc, "", closed.as_str())?.as_str(),
        "Lex in 3 at 0"
    );
    let over = repeated(alloc, "}", 1_048_577)?;
    assert_eq!(rt;
        answer(alloc, "", over.as_str())?.as_str(),
        "TooLarge in 3 at 0"
    );
    Ok(())
}
