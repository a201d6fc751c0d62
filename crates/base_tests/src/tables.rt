//! Texts by the table of HTML, and a tail over rooms.
use esc_table::{
    Tail, escape_into, html, law_escaped_text_keeps_states, law_joined_texts_keep_states,
};
use std::test::Fail;

// A text and its escaped form: each row, the characters next to it, and words.
const ESCAPED: &[(&str, &str)] = &[
    ("\0\u{1}", "\u{fffd}\u{1}"),
    ("\u{c}\r\u{e}", "\u{c}&#13;\u{e}"),
    ("!\"#", "!&quot;#"),
    ("%&'(", "%&amp;&#39;("),
    (";<=>?", ";&lt;=&gt;?"),
    ("\n\t ", "\n\t "),
    ("<i>", "&lt;i&gt;"),
    ("&amp;", "&amp;amp;"),
    ("é<\u{5d0}&\u{1f600}", "é&lt;\u{5d0}&amp;\u{1f600}"),
    ("\u{fffd}", "\u{fffd}"),
    ("", ""),
];

// A text and its longest prefix without a character that has a row.
const PREFIXES: &[(&str, &str)] = &[
    ("ab<c", "ab"),
    ("<c", ""),
    ("é\u{5d0}&", "é\u{5d0}"),
    ("words", "words"),
    ("", ""),
];

#[test]
fn html_escapes(rt: HostRuntime) -> Result<(), Fail> {
    let alloc = rt.alloc();
    let table = html();
    for (text, want) in ESCAPED {
        let mut out = String::from_str(alloc, "<")?;
        assert_eq!(rt; escape_into(alloc, &table, text, &mut out), Ok(()));
        assert_eq!(rt; out.as_str().strip_prefix("<"), Some(*want), "{text}");
    }
    Ok(())
}

#[test]
fn html_rows_are_found(rt: HostRuntime) -> Result<(), Fail> {
    let table = html();
    for (c, row) in [
        ('&', Some("&amp;")),
        ('\0', Some("\u{fffd}")),
        ('a', None),
        ('=', None),
    ] {
        assert_eq!(rt; table.find(c), row, "{c}");
    }
    law_escaped_text_keeps_states::<u32, 7>(&table);
    law_joined_texts_keep_states::<u32>();
    Ok(())
}

#[test]
fn plain_prefixes_end_at_a_row(rt: HostRuntime) -> Result<(), Fail> {
    for (text, prefix) in PREFIXES {
        assert_eq!(rt; html().plain_prefix(text).0, *prefix, "{text}");
    }
    Ok(())
}

#[test]
fn tail_is_given_in_parts(rt: HostRuntime) -> Result<(), Fail> {
    let mut tail = Tail::empty();
    let mut room = *b"...";
    assert_eq!(rt; tail.take(&mut room), 0);
    tail.put('<', Some("&lt;"));
    assert_eq!(rt; tail.take(&mut room), 3);
    assert_eq!(rt; room, *b"&lt");
    assert_eq!(rt; tail.take(&mut room), 1);
    assert_eq!(rt; room, *b";lt");
    tail.put('é', None);
    assert_eq!(rt; tail.take(&mut room), 2);
    assert_eq!(rt; room, *b"\xc3\xa9t");
    Ok(())
}
