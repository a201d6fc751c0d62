//! Escaped forms given into rooms of many sizes.
ghost use Rattle.value_cursor.specs.BytesLeft.{CursorFits};

use escapers::{Escaper, escaper_for};
use soy_base::{Dir, Place, ValueClass};
use std::alloc::Global;
use std::test::Fail;
use value_cursor::{Cursor, give_whole};

// Texts that have every row of the escaper, the characters next to it and characters of two to four bytes, and their
// forms.
const HTML: &[(&str, &str)] = &[
    (
        "\0\u{1}\u{c}\r\u{e}!\"#%&'(;<=>?",
        "\u{fffd}\u{1}\u{c}&#13;\u{e}!&quot;#%&amp;&#39;(;&lt;=&gt;?",
    ),
    (
        "\u{e9}<\u{5d0}\u{20ac}\u{1f600}",
        "\u{e9}&lt;\u{5d0}\u{20ac}\u{1f600}",
    ),
    ("", ""),
];

const JS_STRING: &[(&str, &str)] = &[
    (
        "\0\u{1}\u{7}\u{8}\t\n\u{b}\u{c}\r\u{e}!\"#%&'(./0",
        "\\x00\u{1}\u{7}\\x08\\t\\n\\x0b\\f\\r\u{e}!\\x22#%\\x26\\x27(.\\/0",
    ),
    (
        ";<=>?[\\]_`a\u{84}\u{85}\u{86}\u{2027}\u{2028}\u{2029}\u{202a}\u{1f600}",
        ";\\x3c\\x3d\\x3e?[\\\\]_\\x60a\u{84}\\x85\u{86}\u{2027}\\u2028\\u2029\u{202a}\u{1f600}",
    ),
];

const CSS_STRING: &[(&str, &str)] = &[
    (
        "\0\u{1}\u{2}\u{3}\u{4}\u{5}\u{6}\u{7}\u{8}\t\n\u{b}\u{c}\r\u{e}\u{f}",
        "\\fffd \\1 \\2 \\3 \\4 \\5 \\6 \\7 \\8 \\9 \\a \\b \\c \\d \\e \\f ",
    ),
    (
        "\u{10}\u{11}\u{12}\u{13}\u{14}\u{15}\u{16}\u{17}\u{18}\u{19}\u{1a}\u{1b}\u{1c}\u{1d}\u{1e}\u{1f} ",
        "\\10 \\11 \\12 \\13 \\14 \\15 \\16 \\17 \\18 \\19 \\1a \\1b \\1c \\1d \\1e \\1f  ",
    ),
    (
        " !\"#%&'()*+./09:;<=>?@A[\\]z{|}~\u{7f}\u{80}",
        " !\\22 #%\\26 \\27 \\28 \\29 \\2a +.\\2f 09\\3a \\3b \\3c \\3d \\3e ?\\40 A[\\5c ]z\\7b |\\7d ~\\7f \u{80}",
    ),
    (
        "\u{84}\u{85}\u{86}\u{9f}\u{a0}\u{a1}\u{2027}\u{2028}\u{2029}\u{202a}\u{1f600}",
        "\u{84}\\85 \u{86}\u{9f}\\a0 \u{a1}\u{2027}\\2028 \\2029 \u{202a}\u{1f600}",
    ),
];

const URI_COMPONENT: &[(&str, &str)] = &[
    (
        "a&b c,-./09:@AZ[^_`az{}~\u{7f}%",
        "a%26b%20c%2C-.%2F09%3A%40AZ%5B%5E_%60az%7B%7D~%7F%25",
    ),
    (
        "\0\u{1f} !\u{7ff}\u{800}\u{ffff}\u{10000}\u{10ffff}",
        "%00%1F%20%21%DF%BF%E0%A0%80%EF%BF%BF%F0%90%80%80%F4%8F%BF%BF",
    ),
];

const URI_NORMAL: &[(&str, &str)] = &[
    (
        "/a b?c&d:#[]@!$*+,;=%-._~ !\"'()",
        "/a%20b?c&amp;d:#[]@!$*+,;=%-._~%20!%22%27%28%29",
    ),
    (
        "<>\\^`{|}\u{7f}\0\u{e9}\u{1f600}",
        "%3C%3E%5C%5E%60%7B%7C%7D%7F%00%C3%A9%F0%9F%98%80",
    ),
];

const URI_START: &[(&str, &str)] = &[
    ("javascript:alert(1)", "about:invalid#zSoyz"),
    ("HTTP://a/?b&c", "HTTP://a/?b&amp;c"),
    ("mailto:a@b", "mailto:a@b"),
    ("a/b:c", "a/b:c"),
    ("\u{e9}:", "about:invalid#zSoyz"),
    ("", ""),
];

const CSS_VALUE: &[(&str, &str)] = &[
    ("-moz_x1.5%#", "-moz_x1.5%#"),
    ("red;x", "zSoyz"),
    ("\u{e9}", "zSoyz"),
    ("", "zSoyz"),
];

const JS_TEXT: &[(&str, &str)] = &[("it's", "'it\\x27s'"), ("", "''")];

const JS_WORD: &[(&str, &str)] = &[("-3", " -3 "), ("true", " true "), ("null", " null ")];

const PLAIN: &[(&str, &str)] = &[(
    "<a&\0\u{5d0}\u{20ac}\u{1f600}>",
    "<a&\0\u{5d0}\u{20ac}\u{1f600}>",
)];

const WRAPPED: &[(&str, &str)] = &[
    ("<i>", "<span dir=\"ltr\">&lt;i&gt;</span>"),
    ("", "<span dir=\"ltr\"></span>"),
    (
        "\u{5d0}\u{5d1} \u{1f600}",
        "<span dir=\"rtl\">\u{5d0}\u{5d1} \u{1f600}</span>",
    ),
    // The separators next to other controls, and PDIs without an initiator.
    (
        "\u{8}\t\n\u{b}\u{c}\r\u{e}\u{1b}\u{1c}\u{1d}\u{1e}\u{1f} \u{84}\u{85}\u{86}\u{2028}\u{2029}",
        "<span dir=\"ltr\">\u{8}   \u{c} \u{e}\u{1b}     \u{84} \u{86}\u{2028} </span>",
    ),
    (
        "\u{2069}a\u{2069}<\u{202a}\u{200f}",
        "<span dir=\"ltr\">a&lt;\u{202a}\u{200f}</span>",
    ),
    // A pair and a PDI behind it, and initiators that nothing closes.
    (
        "a\t\u{2067}b\u{2069}\u{2069}",
        "<span dir=\"ltr\">a \u{2067}b\u{2069}</span>",
    ),
    (
        "\u{2069}a\u{2066}&\u{2068}b",
        "<span dir=\"ltr\">a&amp;b</span>",
    ),
    (
        "\u{2067}\u{2066}\u{2068}\u{2069}",
        "<span dir=\"ltr\">\u{2068}\u{2069}</span>",
    ),
];

// The tables, each with a place and a class of value that it holds for.
const ESCAPED: &[(Place, ValueClass, &[(&str, &str)])] = &[
    (Place::Text, ValueClass::Text, WRAPPED),
    (Place::Attr, ValueClass::Text, HTML),
    (Place::JsSingle, ValueClass::Text, JS_STRING),
    (Place::CssString, ValueClass::Text, CSS_STRING),
    (Place::CssValue, ValueClass::Text, CSS_VALUE),
    (Place::UriQuery, ValueClass::Text, URI_COMPONENT),
    (Place::UriPath, ValueClass::Text, URI_NORMAL),
    (Place::UriStart, ValueClass::Text, URI_START),
    (Place::JsValue, ValueClass::Text, JS_TEXT),
    (Place::JsValue, ValueClass::Int, JS_WORD),
    (Place::Plain, ValueClass::Text, PLAIN),
];

// Texts that are given at once where the room is ample, with their places and forms.
const AT_ONCE: &[(Place, ValueClass, &str, &str)] = &[
    (
        Place::Text,
        ValueClass::Text,
        "<i> a&b",
        "<span dir=\"ltr\">&lt;i&gt; a&amp;b</span>",
    ),
    (
        Place::Text,
        ValueClass::Text,
        "\u{5d0}\u{5d1} \u{1f600}",
        "<span dir=\"rtl\">\u{5d0}\u{5d1} \u{1f600}</span>",
    ),
    (
        Place::Text,
        ValueClass::Int,
        "42",
        "<span dir=\"ltr\">42</span>",
    ),
    (
        Place::Attr,
        ValueClass::Text,
        "\0\r!\"#%&'(;<=>?\u{e9}\u{5d0}\u{1f600}",
        "\u{fffd}&#13;!&quot;#%&amp;&#39;(;&lt;=&gt;?\u{e9}\u{5d0}\u{1f600}",
    ),
    (Place::Rcdata, ValueClass::Text, "", ""),
    (
        Place::JsSingle,
        ValueClass::Text,
        "\0\t\n./0<\\`\u{5d0}",
        "\\x00\\t\\n.\\/0\\x3c\\\\\\x60\u{5d0}",
    ),
    (Place::JsValue, ValueClass::Text, "it's", "'it\\x27s'"),
    (Place::JsValue, ValueClass::Int, "-3", " -3 "),
    (
        Place::CssString,
        ValueClass::Text,
        "\0\t\"a",
        "\\fffd \\9 \\22 a",
    ),
    (Place::CssValue, ValueClass::Text, "red", "red"),
    (Place::CssValue, ValueClass::Text, "red;x", "zSoyz"),
    (
        Place::UriStart,
        ValueClass::Text,
        "HTTP://a/?b&c",
        "HTTP://a/?b&amp;c",
    ),
    (
        Place::UriStart,
        ValueClass::Text,
        "javascript:alert(1)",
        "about:invalid#zSoyz",
    ),
    (
        Place::UriPath,
        ValueClass::Text,
        "/a b?c&d",
        "/a%20b?c&amp;d",
    ),
    (Place::UriQuery, ValueClass::Text, "a&b c", "a%26b%20c"),
    (Place::Plain, ValueClass::Text, "<a&\u{5d0}>", "<a&\u{5d0}>"),
];

const SIZES: &[usize] = &[1, 2, 3, 7, 4096];

// Whether a cursor gives just these bytes, room by room, and says before each how many are left.
fn gives_just(cursor: &mut Cursor, text: &str, want: &[u8], room: &mut [u8]) -> bool
    requires { CursorFits cursor.old text.now }
{
    if cursor.left() != want.len() as u128 {
        return false;
    }
    let count = cursor.fill(text, room);
    if count == 0 || count > want.len() {
        return want.is_empty();
    }
    let (first, others) = want.split_at(count);
    room.starts_with(first) && gives_just(cursor, text, others, room)
}

// Whether the form of a value is given as wanted into rooms of so many bytes.
fn gives(
    alloc: Global,
    place: Place,
    class: ValueClass,
    text: &str,
    want: &str,
    size: usize,
) -> Result<bool, Fail> {
    let mut room = [0; 4096];
    let Some(how) = escaper_for(place, class) else {
        return Ok(false);
    };
    if size > 4096 {
        return Ok(false);
    }
    match how {
        Escaper::AsIs => Ok(false),
        _ => {
            let mut cursor = Cursor::begin(alloc, how, class, text, Dir::Ltr)?;
            Ok(gives_just(&mut cursor, text, want.as_bytes(), &mut room[..size]))
        }
    }
}

#[test]
fn forms_in_rooms(rt: HostRuntime) -> Result<(), Fail> {
    for (place, class, rows) in ESCAPED {
        for (text, want) in *rows {
            for size in SIZES {
                let same = gives(rt.alloc(), *place, *class, text, want, *size)?;
                assert!(rt; same, "{text:?} into rooms of {size}");
            }
        }
    }
    Ok(())
}

// The wrapped value `<i>`, piece by piece; what stands in a room behind the bytes that it is given stays.
#[test]
fn cursor_in_pieces(rt: HostRuntime) -> Result<(), Fail> {
    let mut first = [b'.'; 17];
    let mut second = [b'.'; 2];
    let mut third = [b'.'; 100];
    let mut cursor = Cursor::begin(rt.alloc(), Escaper::Wrap, ValueClass::Text, "<i>", Dir::Ltr)?;
    assert_eq!(rt; cursor.left(), 32);
    assert_eq!(rt; cursor.fill("<i>", &mut first), 17);
    assert_eq!(rt; first.as_slice(), b"<span dir=\"ltr\">&".as_slice());
    assert_eq!(rt; cursor.fill("<i>", &mut second), 2);
    assert_eq!(rt; second.as_slice(), b"lt".as_slice());
    assert_eq!(rt; cursor.left(), 13);
    assert_eq!(rt; cursor.fill("<i>", &mut third), 13);
    assert!(rt; third.as_slice().starts_with(b";i&gt;</span>...".as_slice()));
    assert_eq!(rt; cursor.left(), 0);
    assert_eq!(rt; cursor.fill("<i>", &mut third), 0);
    Ok(())
}

// Whether a room of so many bytes has the form of a value as wanted and is unchanged behind it, or is unchanged.
fn is_whole(place: Place, class: ValueClass, text: &str, want: Option<&str>, size: usize) -> bool {
    let mut room = [7; 4096];
    let Some(how) = escaper_for(place, class) else {
        return false;
    };
    if size > 4096 {
        return false;
    }
    let form = match give_whole(how, class, text, Dir::Ltr, &mut room[..size]) {
        Some(count) => match want {
            Some(form) if form.len() == count => form,
            _ => return false,
        },
        None => match want {
            Some(_) => return false,
            None => "",
        },
    };
    room.starts_with(form.as_bytes()) && room.iter().skip(form.len()).all(|byte| *byte == 7)
}

#[test]
fn forms_at_once(rt: HostRuntime) -> Result<(), Fail> {
    for (place, class, text, want) in AT_ONCE {
        let ample = 6 * text.len().min(600) + 32;
        let whole = is_whole(*place, *class, *text, Some(*want), ample);
        assert!(rt; whole, "{text:?} into a room of {ample}");
        let none = is_whole(*place, *class, *text, None, ample - 1);
        assert!(rt; none, "{text:?} into a room of one byte less");
    }
    Ok(())
}

#[test]
fn forms_at_once_or_none(rt: HostRuntime) -> Result<(), Fail> {
    for (place, class, rows) in ESCAPED {
        for (text, want) in *rows {
            let whole = is_whole(*place, *class, *text, Some(*want), 4096);
            let none = is_whole(*place, *class, *text, None, 4096);
            assert!(rt; whole || none, "{text:?} into a room of 4096");
        }
    }
    Ok(())
}
