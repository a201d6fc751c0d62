//! Tests of what no clause says.
ghost use Rattle.std.specs.Prelude.{◌≡◌, ◌<◌};

use soy_base::{
    Boxed, Code, OutOfMemory, PathStep, Row, Seq, Stack, Steps, Text, after_prefix, byte_len, cut,
    cut_at, first, first_part, is_dotted_name, is_name, is_template_space, line_of, push_char,
    push_text, split_digits, split_line, split_name,
};
use std::alloc::Global;
use std::marker::Brand;
use std::sync::ledger::{Blank, Ledger};

#[test]
fn codes_have_their_numbers_and_words(rt: HostRuntime) {
    let codes = [
        (Code::NotUtf8, 1, "NotUtf8"),
        (Code::Mistyped, 8, "Type"),
        (Code::Argument, 9, "Argument"),
        (Code::Place, 11, "Place"),
        (Code::NotJson, 27, "Data"),
        (Code::Entry, 29, "Entry"),
        (Code::TooLong, 33, "TooLong"),
    ];
    for (code, number, word) in codes {
        assert_eq!(rt; code.number(), number);
        assert_eq!(rt; code.word(), word, "at {number}");
    }
}

#[test]
fn lines_end_at_each_break(rt: HostRuntime) {
    let text = "a\r\né b\n\rc\r\r\nd".as_bytes();
    // The offset in bytes, the line and the column.
    let offsets = [
        (0, 1, 1),
        (1, 1, 2),
        (2, 1, 3),
        (3, 2, 1),
        (5, 2, 2),
        (7, 2, 4),
        (8, 3, 1),
        (9, 4, 1),
        (10, 4, 2),
        (11, 5, 1),
        (12, 5, 2),
        (13, 6, 1),
        (14, 6, 2),
    ];
    for (at, line, column) in offsets {
        assert!(rt; at <= text.len() as u64);
        let position = line_of(text, at);
        assert_eq!(rt; position.line, line, "line at {at}");
        assert_eq!(rt; position.column, column, "column at {at}");
    }
}

fn text_of(alloc: Global, text: &str) -> Result<Text, OutOfMemory> {
    Ok(Text::new(String::from_str(alloc, text)?))
}

/// "été", seventeen letters and "!", each once, in a text that begins as a copy, and the empty text beside it. The
/// letters are more than a text keeps inline.
fn appended(alloc: Global) -> Result<(Text, Text), OutOfMemory> {
    let mut text = text_of(alloc, "été")?.copy(alloc)?;
    text.append(&text_of(alloc, "abcdefghijklmnopq")?)?;
    text.append(&text_of(alloc, "!")?)?;
    Ok((text, Text::empty(alloc)))
}

#[test]
fn texts_are_made_with_ample_memory(rt: HostRuntime) {
    let Ok((text, empty)) = appended(rt.alloc()) else {
        assert!(rt; false);
        return;
    };
    assert_eq!(rt; text.text(), "étéabcdefghijklmnopq!");
    assert!(rt; text.is("étéabcdefghijklmnopq!") && !text.is("été") && !text.is_empty());
    assert!(rt; empty.is("") && empty.is_empty() && text != empty);
}

fn pushed(alloc: Global) -> Result<String, OutOfMemory> {
    let mut out = String::from_str(alloc, "a")?;
    push_text(&mut out, "été")?;
    push_char(&mut out, '€')?;
    Ok(out)
}

fn listed(alloc: Global) -> Result<(Stack<u8>, Seq<u8>), OutOfMemory> {
    let mut stack = Stack::empty(alloc);
    let mut row = Row::empty(alloc);
    for item in [1, 2, 3] {
        stack.push(item)?;
        row.push(item)?;
    }
    Ok((stack, row.done()))
}

#[test]
fn lists_and_strings_grow_with_ample_memory(rt: HostRuntime) {
    let out = pushed(rt.alloc());
    assert!(rt; out.is_ok());
    if let Ok(out) = out {
        assert_eq!(rt; out.as_str(), "aété€");
    }
    let lists = listed(rt.alloc());
    assert!(rt; lists.is_ok());
    if let Ok((mut stack, row)) = lists {
        assert_eq!(rt; row.items(), [1, 2, 3].as_slice());
        assert_eq!(rt; stack.items(), [1, 2, 3].as_slice());
        assert_eq!(rt; stack.pop(), Some(3));
        assert_eq!(rt; stack.top(), Some(&2));
        assert_eq!(rt; stack.len(), 2);
    }
    let boxed = Boxed::new(rt.alloc(), 7);
    assert!(rt; boxed.is_ok());
    if let Ok(boxed) = boxed {
        assert_eq!(rt; *boxed.get(), 7);
    }
    assert!(rt; PathStep::Index(1) != PathStep::Key(Text::empty(rt.alloc())));
}

fn counted<L: Ledger>(blank: Blank) -> u8
    requires name { blank.name ≡ L.name }
    requires parts { blank.parts ≡ L.parts }
    requires some { 0 < blank.parts }
{
    let mut steps = Steps::<L>::new(blank);
    steps.count();
    1
}

#[test]
fn steps_are_counted_for_a_blank(rt: HostRuntime) {
    assert_eq!(rt; counted::<Brand>(Blank::new(1)), 1);
}

/// A text, whether it is a name, and whether it is a dotted name.
const NAMES: &[(&str, bool, bool)] = &[
    ("a", true, true),
    ("_a9Z", true, true),
    ("a.b_1", false, true),
    ("9a", false, false),
    ("", false, false),
    (".a", false, false),
    ("a.", false, false),
    ("é", false, false),
    ("a-b", false, false),
];

#[test]
fn names_and_other_texts(rt: HostRuntime) {
    for (text, name, dotted) in NAMES {
        assert_eq!(rt; is_name(text), *name, "{text}");
        assert_eq!(rt; is_dotted_name(text), *dotted, "{text}");
    }
    assert!(rt; is_template_space('\t') && !is_template_space('\u{c}'));
}

#[test]
fn texts_are_cut_at_characters(rt: HostRuntime) {
    assert_eq!(rt; cut("é*/b*/", "*/"), Some(("é", "b*/")));
    assert_eq!(rt; cut_at("é.b.c", '.'), Some(("é", "b.c")));
    assert_eq!(rt; cut_at("é", '.'), None);
    assert_eq!(rt; first_part("é.b", '.'), ("é", Some("b")));
    assert_eq!(rt; after_prefix("été", "ét"), Some("é"));
    assert_eq!(rt; first("été"), Some(('é', "té")));
    assert_eq!(rt; split_digits("12é"), ("12", "é"));
    assert_eq!(rt; split_name("_1é"), ("_1", "é"));
    assert_eq!(rt; split_line("é\rb"), ("é", "\rb"));
    assert_eq!(rt; byte_len("été"), 5);
}
