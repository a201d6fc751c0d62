//! Rows of patterns with the parts that they mean, and of texts that are none with the length of their longest prefix
//! that begins one.

use icu_text::parse_message;
use plural_rules::Category;
use soy_base::{OutOfMemory, Refusal, push_text};
use soy_tree::{ExactArm, MsgPart, NamedArm, SelectArm};
use std::alloc::Global;

/// The category as it is written.
fn written(category: Category) -> &'static str {
    match category {
        Category::Zero => "zero",
        Category::One => "one",
        Category::Two => "two",
        Category::Few => "few",
        Category::Many => "many",
        Category::Other => "other",
    }
}

fn write_number(
    alloc: Global,
    out: &mut String,
    prefix: &str,
    number: i64,
) -> Result<(), OutOfMemory> {
    let text = format!(in alloc; "{prefix}{number}")?;
    push_text(out, text.as_str())
}

fn write_offset(alloc: Global, out: &mut String, offset: u64) -> Result<(), OutOfMemory> {
    let text = format!(in alloc; " {offset}")?;
    push_text(out, text.as_str())
}

/// Writes parts: text in brackets, arms in parentheses.
#[cycle(writing)]
fn write_parts(alloc: Global, out: &mut String, parts: &[MsgPart]) -> Result<(), OutOfMemory> {
    for part in parts {
        write_part(alloc, out, part)?;
    }
    Ok(())
}

#[cycle(writing)]
fn write_part(alloc: Global, out: &mut String, part: &MsgPart) -> Result<(), OutOfMemory> {
    match part {
        MsgPart::Text(text) => {
            push_text(out, "[")?;
            push_text(out, text.text())?;
            push_text(out, "]")
        }
        MsgPart::Placeholder(name) => {
            push_text(out, "{")?;
            push_text(out, name.text())?;
            push_text(out, "}")
        }
        MsgPart::Number => push_text(out, "#"),
        MsgPart::Plural(plural) => {
            push_text(out, "{")?;
            push_text(out, plural.name.text())?;
            push_text(
                out,
                if plural.ordinal {
                    " ordinal"
                } else {
                    " plural"
                },
            )?;
            write_offset(alloc, out, plural.offset)?;
            write_exact(alloc, out, plural.exact.items())?;
            write_named(alloc, out, plural.named.items())?;
            push_text(out, "}")
        }
        MsgPart::Select(select) => {
            push_text(out, "{")?;
            push_text(out, select.name.text())?;
            push_text(out, " select")?;
            write_select(alloc, out, select.arms.items())?;
            push_text(out, "}")
        }
    }
}

#[cycle(writing)]
fn write_exact(alloc: Global, out: &mut String, arms: &[ExactArm]) -> Result<(), OutOfMemory> {
    for arm in arms {
        write_number(alloc, out, " =", arm.is)?;
        push_text(out, "(")?;
        write_parts(alloc, out, arm.parts.items())?;
        push_text(out, ")")?;
    }
    Ok(())
}

#[cycle(writing)]
fn write_named(alloc: Global, out: &mut String, arms: &[NamedArm]) -> Result<(), OutOfMemory> {
    for arm in arms {
        push_text(out, " ")?;
        push_text(out, written(arm.category))?;
        push_text(out, "(")?;
        write_parts(alloc, out, arm.parts.items())?;
        push_text(out, ")")?;
    }
    Ok(())
}

#[cycle(writing)]
fn write_select(alloc: Global, out: &mut String, arms: &[SelectArm]) -> Result<(), OutOfMemory> {
    for arm in arms {
        push_text(out, " ")?;
        push_text(out, arm.is.text())?;
        push_text(out, "(")?;
        write_parts(alloc, out, arm.parts.items())?;
        push_text(out, ")")?;
    }
    Ok(())
}

/// The parts of a text as they are written here.
fn read(alloc: Global, text: &str) -> Result<String, Refusal<u64>> {
    let parts = parse_message(alloc, text)?;
    let mut out = String::new(alloc);
    write_parts(alloc, &mut out, parts.items())?;
    Ok(out)
}

/// A pattern and its parts.
const PATTERNS: &[(&str, &str)] = &[
    ("", ""),
    ("l''amour {WHO}", "[l'amour ]{WHO}"),
    ("it's", "[it's]"),
    ("'{x}'", "[{x}]"),
    ("'{''}'", "[{'}]"),
    ("a } b", "[a } b]"),
    ("{N, plural, other {# '#'}}", "{N plural 0 other(#[ #])}"),
    (
        "{N, plural, other {{S, select, other {#}}}}",
        "{N plural 0 other({S select other([#])})}",
    ),
    ("'", "[']"),
    ("''", "[']"),
    ("'''", "['']"),
    ("'{", "[{]"),
    ("'{a''b", "[{a'b]"),
    ("'}a'b", "[}ab]"),
    ("'a'", "['a']"),
    ("'#'", "['#']"),
    ("#", "[#]"),
    ("'{'{A}'}'", "[{]{A}[}]"),
    ("{A}{B}", "{A}{B}"),
    (
        "{START_LINK}{NAME_1}{END_LINK} {NAME_2}",
        "{START_LINK}{NAME_1}{END_LINK}[ ]{NAME_2}",
    ),
    ("{ \t\r\n_a1\t}", "{_a1}"),
    (
        "{N, plural, zero {Z} one {O} two {T} few {F} many {M} other {X #}}",
        "{N plural 0 zero([Z]) one([O]) two([T]) few([F]) many([M]) other([X ]#)}",
    ),
    (
        "{N, plural, offset:1 =1 {only} one {and # more} other {all}}",
        "{N plural 1 =1([only]) one([and ]#[ more]) other([all])}",
    ),
    (
        "{N, selectordinal, one {#st} other {#th}}",
        "{N ordinal 0 one(#[st]) other(#[th])}",
    ),
    (
        "{N, plural, offset:1 =1 {only} other {{N} in all}}",
        "{N plural 1 =1([only]) other({N}[ in all])}",
    ),
    (
        "{COUNT, plural, =0 {No comments} =1 {One comment} other {{COUNT} comments}}",
        "{COUNT plural 0 =0([No comments]) =1([One comment]) other({COUNT}[ comments])}",
    ),
    ("{WHO, plural, other {x}}", "{WHO plural 0 other([x])}"),
    (
        "{N,plural,=1{a}=01{b}=0{c}=-0{d}other{e}other{f}}",
        "{N plural 0 =1([a]) =0([c]) other([e])}",
    ),
    (
        "{N,plural,other{c}=-2{b}=1{a}}",
        "{N plural 0 =-2([b]) =1([a]) other([c])}",
    ),
    (
        "{\nN , plural , offset: 007 =\t-3 { x }other{}\r}",
        "{N plural 7 =-3([ x ]) other()}",
    ),
    ("{N,plural,offset:1other{}}", "{N plural 1 other()}"),
    (
        "{N,plural,offset:9007199254740991=9007199254740991{}other{}}",
        "{N plural 9007199254740991 =9007199254740991() other()}",
    ),
    ("{N,plural,other{'}'#'{'}}", "{N plural 0 other([}]#[{])}"),
    ("{N,plural,other{'a' #}}", "{N plural 0 other(['a' ]#)}"),
    (
        "{S,select,a-1{x}other{y}a-1{z}_{}other{w}}",
        "{S select a-1([x]) other([y]) _()}",
    ),
    ("{S,select,other{'#' }}", "{S select other(['#' ])}"),
    (
        "{S , select , one {a} other {b}} }",
        "{S select one([a]) other([b])}[ }]",
    ),
    (
        "{S,select,other{{N,plural,other{#{T,select,other{#}}}}}}",
        "{S select other({N plural 0 other(#{T select other([#])})})}",
    ),
    (
        "\u{e9}{A}\u{20ac}\u{1f600}",
        "[\u{e9}]{A}[\u{20ac}\u{1f600}]",
    ),
];

#[test]
fn patterns_have_their_parts(rt: HostRuntime) {
    for (text, parts) in PATTERNS {
        match read(rt.alloc(), text) {
            Ok(out) => assert_eq!(rt; out.as_str(), *parts, "{text}"),
            Err(_) => assert!(rt; false, "{text}"),
        }
    }
}

/// A text that is no pattern, and the length in bytes of its longest prefix that begins one.
const FAULTS: &[(&str, u64)] = &[
    ("{WHO", 4),
    ("{", 1),
    ("{}", 1),
    ("{1}", 1),
    ("{ A B}", 4),
    ("{N!", 2),
    ("{N,}", 3),
    ("{N,plural", 9),
    ("{N,plural}", 9),
    ("{N,plurals", 9),
    ("{N,p lural", 4),
    ("{N,plural,}", 10),
    ("{N,plural,=1{a}}", 15),
    ("{N,plural,one{a}}", 16),
    ("{N,plural,other{a}", 18),
    ("{N,plural,other{'}", 18),
    ("{S,select,other{'#'}}", 21),
    ("{N,plural,other a}", 16),
    ("{N,plural,ot her{}}", 12),
    ("{N,plural,some{}}", 10),
    ("{N,plural,offset :1 other{}}", 16),
    ("{N,plural,offset:1 offset:2 other{}}", 20),
    ("{N,plural,one{}offset:1 other{}}", 16),
    ("{N,plural,offset:-1 other{}}", 17),
    ("{N,plural,offset:9007199254740992 other{}}", 32),
    ("{N,plural,=9007199254740992{}", 26),
    ("{N,plural,=90071992547409910{}", 27),
    ("{N,plural,= - 3{}", 13),
    ("{N,plural,=+3{}", 11),
    ("{N,plural,={}", 11),
    ("{N,plural,=1 2{}", 13),
    ("{N,select,a{x}}", 14),
    ("{N,select,offset:1 other{}}", 16),
    ("{N,select,=1{}", 10),
    ("{N,select ordinal,", 10),
    ("{N,selectors", 11),
    ("{N,selectordinal,x", 17),
    ("{N;plural", 2),
    ("{\u{e9}}", 1),
    ("\u{e9}\u{20ac}{", 6),
    ("\u{e9}{N\u{e9}", 4),
    ("{N,select,\u{e9}{}", 10),
    ("'{' {", 5),
    ("{N\u{c}}", 2),
];

#[test]
fn other_texts_are_refused_where_no_pattern_goes_on(rt: HostRuntime) {
    for (text, offset) in FAULTS {
        match read(rt.alloc(), text) {
            Ok(_) => assert!(rt; false, "{text}"),
            Err(Refusal::Because(at)) => assert_eq!(rt; at, *offset, "{text}"),
            Err(Refusal::OutOfMemory) => assert!(rt; false, "{text}"),
        }
    }
}

/// So many selects, each in the arm of the one before.
fn nested(alloc: Global, count: u32) -> Result<String, OutOfMemory> {
    let mut text = String::new(alloc);
    for _ in 0..count {
        push_text(&mut text, "{N,select,other{")?;
    }
    for _ in 0..count {
        push_text(&mut text, "}}")?;
    }
    Ok(text)
}

#[test]
fn patterns_nest_64_deep(rt: HostRuntime) {
    let (Ok(most), Ok(more)) = (nested(rt.alloc(), 64), nested(rt.alloc(), 65)) else {
        assert!(rt; false);
        return;
    };
    assert!(rt; read(rt.alloc(), most.as_str()).is_ok());
    match read(rt.alloc(), more.as_str()) {
        Err(Refusal::Because(at)) => assert_eq!(rt; at, 64 * 16),
        _ => assert!(rt; false),
    }
}
