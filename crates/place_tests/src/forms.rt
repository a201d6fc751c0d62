//! The table of places and classes, each row of each escaper, and texts made piece by piece.
ghost use Rattle.std.specs.Prelude.{IsTrue};
ghost use Rattle.escapers.specs.Esc.{is_by_characters};

use esc_table::Tail;
use escapers::{Escaper, escape, escaped_char_len, escaper_for, plain_prefix, put_char};
use soy_base::{Dir, Place, ValueClass};
use std::alloc::{AllocError, Global};
use std::test::Fail;

// A place, and its escapers for HTML, for attributes and for what isn't markup.
const PLACES: &[(Place, Option<Escaper>, Option<Escaper>, Option<Escaper>)] = &[
    (Place::Text, Some(Escaper::AsIs), None, Some(Escaper::Wrap)),
    (Place::Rcdata, None, None, Some(Escaper::Html)),
    (Place::Tag, None, Some(Escaper::AsIs), None),
    (Place::Attr, None, None, Some(Escaper::Html)),
    (Place::UriStart, None, None, Some(Escaper::UriStart)),
    (Place::UriPath, None, None, Some(Escaper::UriNormal)),
    (Place::UriQuery, None, None, Some(Escaper::UriComponent)),
    (Place::UriFragment, None, None, Some(Escaper::UriComponent)),
    (Place::JsValue, None, None, Some(Escaper::JsValue)),
    (Place::JsSingle, None, None, Some(Escaper::JsString)),
    (Place::JsDouble, None, None, Some(Escaper::JsString)),
    (Place::CssValue, None, None, Some(Escaper::CssValue)),
    (Place::CssString, None, None, Some(Escaper::CssString)),
    (Place::Plain, None, None, Some(Escaper::Plain)),
];

// Texts and their escaped forms. Each table has every row of the escaper, and the characters next to it.
const HTML: &[(&str, &str)] = &[
    ("\0\u{1}", "\u{fffd}\u{1}"),
    ("\u{c}\r\u{e}", "\u{c}&#13;\u{e}"),
    ("!\"#", "!&quot;#"),
    ("%&'(", "%&amp;&#39;("),
    (";<=>?", ";&lt;=&gt;?"),
    ("</title>", "&lt;/title&gt;"),
    ("&lt;", "&amp;lt;"),
    ("\u{5d0}\u{fffd}", "\u{5d0}\u{fffd}"),
    ("", ""),
];

const JS_STRING: &[(&str, &str)] = &[
    ("\0\u{1}", "\\x00\u{1}"),
    (
        "\u{7}\u{8}\t\n\u{b}\u{c}\r\u{e}",
        "\u{7}\\x08\\t\\n\\x0b\\f\\r\u{e}",
    ),
    ("!\"#", "!\\x22#"),
    ("%&'(", "%\\x26\\x27("),
    ("./0", ".\\/0"),
    (";<=>?", ";\\x3c\\x3d\\x3e?"),
    ("[\\]", "[\\\\]"),
    ("_`a", "_\\x60a"),
    ("\u{84}\u{85}\u{86}", "\u{84}\\x85\u{86}"),
    (
        "\u{2027}\u{2028}\u{2029}\u{202a}",
        "\u{2027}\\u2028\\u2029\u{202a}",
    ),
    ("</script>", "\\x3c\\/script\\x3e"),
    ("\\x27", "\\\\x27"),
    ("", ""),
];

const CSS_STRING: &[(&str, &str)] = &[
    (
        "\0\u{1}\u{2}\u{3}\u{4}\u{5}\u{6}\u{7}",
        "\\fffd \\1 \\2 \\3 \\4 \\5 \\6 \\7 ",
    ),
    (
        "\u{8}\t\n\u{b}\u{c}\r\u{e}\u{f}",
        "\\8 \\9 \\a \\b \\c \\d \\e \\f ",
    ),
    (
        "\u{10}\u{11}\u{12}\u{13}\u{14}\u{15}\u{16}\u{17}",
        "\\10 \\11 \\12 \\13 \\14 \\15 \\16 \\17 ",
    ),
    (
        "\u{18}\u{19}\u{1a}\u{1b}\u{1c}\u{1d}\u{1e}\u{1f}",
        "\\18 \\19 \\1a \\1b \\1c \\1d \\1e \\1f ",
    ),
    (" !\"#", " !\\22 #"),
    ("%&'()*+", "%\\26 \\27 \\28 \\29 \\2a +"),
    ("./0", ".\\2f 0"),
    ("9:;<=>?", "9\\3a \\3b \\3c \\3d \\3e ?"),
    ("?@A", "?\\40 A"),
    ("[\\]", "[\\5c ]"),
    ("z{|}~", "z\\7b |\\7d ~"),
    ("~\u{7f}\u{80}", "~\\7f \u{80}"),
    ("\u{84}\u{85}\u{86}", "\u{84}\\85 \u{86}"),
    ("\u{9f}\u{a0}\u{a1}", "\u{9f}\\a0 \u{a1}"),
    (
        "\u{2027}\u{2028}\u{2029}\u{202a}",
        "\u{2027}\\2028 \\2029 \u{202a}",
    ),
    ("a\"b", "a\\22 b"),
    ("", ""),
];

const CSS_VALUE: &[(&str, &str)] = &[
    ("red", "red"),
    ("AZaz09", "AZaz09"),
    ("-moz_x", "-moz_x"),
    ("#0f0", "#0f0"),
    ("1.5%", "1.5%"),
    ("red;x", "zSoyz"),
    ("", "zSoyz"),
    ("\"", "zSoyz"),
    ("$", "zSoyz"),
    ("&", "zSoyz"),
    ("+", "zSoyz"),
    (",", "zSoyz"),
    ("/", "zSoyz"),
    (":", "zSoyz"),
    ("@", "zSoyz"),
    ("[", "zSoyz"),
    ("^", "zSoyz"),
    ("`", "zSoyz"),
    ("{", "zSoyz"),
    ("a b", "zSoyz"),
    ("\u{e9}", "zSoyz"),
    ("a\0", "zSoyz"),
];

const URI_COMPONENT: &[(&str, &str)] = &[
    ("a&b c", "a%26b%20c"),
    ("AZ", "AZ"),
    ("az", "az"),
    ("09", "09"),
    (",-./", "%2C-.%2F"),
    ("/0", "%2F0"),
    ("9:", "9%3A"),
    ("@A", "%40A"),
    ("Z[", "Z%5B"),
    ("^_`a", "%5E_%60a"),
    ("z{", "z%7B"),
    ("}~\u{7f}", "%7D~%7F"),
    ("\0\u{1f} !", "%00%1F%20%21"),
    ("%41", "%2541"),
    ("\u{80}\u{e9}", "%C2%80%C3%A9"),
    ("\u{7ff}\u{800}", "%DF%BF%E0%A0%80"),
    ("\u{ffff}\u{10000}", "%EF%BF%BF%F0%90%80%80"),
    ("\u{10ffff}", "%F4%8F%BF%BF"),
    ("", ""),
];

const URI_NORMAL: &[(&str, &str)] = &[
    ("/a b?c&d", "/a%20b?c&amp;d"),
    ("AZaz09-._~", "AZaz09-._~"),
    (":/?#[]@!$*+,;=%", ":/?#[]@!$*+,;=%"),
    (" !\"", "%20!%22"),
    ("#$%&'()*+,-./0", "#$%&amp;%27%28%29*+,-./0"),
    ("9:;<=>?@A", "9:;%3C=%3E?@A"),
    ("Z[\\]^_`a", "Z[%5C]%5E_%60a"),
    ("z{|}~\u{7f}", "z%7B%7C%7D~%7F"),
    ("&", "&amp;"),
    ("&&a&", "&amp;&amp;a&amp;"),
    ("\0\r\n\u{e9}", "%00%0D%0A%C3%A9"),
    ("%26", "%26"),
    ("", ""),
];

const URI_START: &[(&str, &str)] = &[
    ("javascript:alert(1)", "about:invalid#zSoyz"),
    ("http://a/?b&c", "http://a/?b&amp;c"),
    ("HTTPS:x y", "HTTPS:x%20y"),
    ("mailTo:a@b", "mailTo:a@b"),
    ("ftp:", "ftp:"),
    ("ftp", "ftp"),
    ("htt:x", "about:invalid#zSoyz"),
    ("httpx:", "about:invalid#zSoyz"),
    ("ftps:x", "about:invalid#zSoyz"),
    (" http:x", "about:invalid#zSoyz"),
    ("http\u{17f}:x", "about:invalid#zSoyz"),
    (":", "about:invalid#zSoyz"),
    ("a/b:c", "a/b:c"),
    ("?:", "?:"),
    ("#:", "#:"),
    ("&:", "&amp;:"),
    ("a\u{e9}b", "a%C3%A9b"),
    ("\u{e9}:", "about:invalid#zSoyz"),
    ("\\:", "about:invalid#zSoyz"),
    ("", ""),
];

const JS_TEXT: &[(&str, &str)] = &[("it's", "'it\\x27s'"), ("", "''")];

const JS_WORD: &[(&str, &str)] = &[("-3", " -3 ")];

const PLAIN: &[(&str, &str)] = &[("<a&\0\u{5d0}>", "<a&\0\u{5d0}>"), ("", "")];

// The tables, each with a place and a class of value that it holds for.
const ESCAPED: &[(Place, ValueClass, &[(&str, &str)])] = &[
    (Place::Attr, ValueClass::Text, HTML),
    (Place::JsSingle, ValueClass::Text, JS_STRING),
    (Place::CssString, ValueClass::Text, CSS_STRING),
    (Place::CssValue, ValueClass::Text, CSS_VALUE),
    (Place::UriQuery, ValueClass::Text, URI_COMPONENT),
    (Place::UriPath, ValueClass::Text, URI_NORMAL),
    (Place::UriStart, ValueClass::Text, URI_START),
    (Place::JsValue, ValueClass::Text, JS_TEXT),
    (Place::JsValue, ValueClass::Int, JS_WORD),
    (Place::Plain, ValueClass::Text, PLAIN),
];

#[test]
fn escapers_of_places(rt: HostRuntime) {
    for (place, html, attributes, text) in PLACES {
        assert_eq!(rt; escaper_for(*place, ValueClass::Html), *html);
        assert_eq!(rt; escaper_for(*place, ValueClass::Attributes), *attributes);
        assert_eq!(rt; escaper_for(*place, ValueClass::Text), *text);
        assert_eq!(rt; escaper_for(*place, ValueClass::Int), *text);
        assert_eq!(rt; escaper_for(*place, ValueClass::Bool), *text);
        assert_eq!(rt; escaper_for(*place, ValueClass::Null), *text);
    }
}

// Whether a value is escaped at a place as wanted; false where the place makes no text of its own.
fn gives(alloc: Global, place: Place, class: ValueClass, text: &str, want: &str) -> bool {
    let Some(how) = escaper_for(place, class) else {
        return false;
    };
    match how {
        Escaper::Wrap | Escaper::AsIs => false,
        _ => match escape(alloc, how, class, text, Dir::Ltr) {
            Ok(out) => out.as_str() == want,
            Err(_) => false,
        },
    }
}

#[test]
fn whole_texts(rt: HostRuntime) {
    for (place, class, rows) in ESCAPED {
        for (text, want) in *rows {
            assert!(rt; gives(rt.alloc(), *place, *class, text, want), "{text:?}");
        }
    }
}

// The escaped form of a text of at most 64 characters, made of plain prefixes and of single characters.
fn pieces(alloc: Global, how: Escaper, text: &str) -> Result<Vec<u8>, AllocError>
    requires { IsTrue (is_by_characters how) }
{
    let mut out = Vec::new(alloc);
    let mut rest = text;
    for _ in 0..64u32 {
        let (plain, others) = plain_prefix(how, rest);
        out.extend_from_slice(plain.as_bytes())?;
        let mut characters = others.chars();
        if let Some(c) = characters.next() {
            let mut tail = Tail::empty();
            put_char(how, c, &mut tail);
            let mut room = [0; 16];
            let len = tail.take(&mut room);
            if len == escaped_char_len(how, c) {
                out.extend_from_slice(&room[..len])?;
            }
        }
        rest = characters.as_str();
    }
    Ok(out)
}

// Whether each text of a table is made so.
fn are_made(alloc: Global, how: Escaper, rows: &[(&str, &str)]) -> bool
    requires { IsTrue (is_by_characters how) }
{
    for (text, want) in rows {
        match pieces(alloc, how, text) {
            Ok(out) => {
                if out.as_slice() != want.as_bytes() {
                    return false;
                }
            }
            Err(_) => return false,
        }
    }
    true
}

#[test]
fn texts_in_pieces(rt: HostRuntime) -> Result<(), Fail> {
    let alloc = rt.alloc();
    assert!(rt; are_made(alloc, Escaper::Html, HTML));
    assert!(rt; are_made(alloc, Escaper::UriNormal, URI_NORMAL));
    assert!(rt; are_made(alloc, Escaper::UriComponent, URI_COMPONENT));
    assert!(rt; are_made(alloc, Escaper::JsString, JS_STRING));
    assert!(rt; are_made(alloc, Escaper::CssString, CSS_STRING));
    assert!(rt; are_made(alloc, Escaper::Plain, PLAIN));
    Ok(())
}

// A text and its longest prefix that stands for itself in a string of a script.
const JS_PREFIXES: &[(&str, &str)] = &[
    ("\u{201c}it's", "\u{201c}it"),
    ("\u{2027}\u{2028}", "\u{2027}"),
    ("\u{84}\u{86}\u{85}", "\u{84}\u{86}"),
    ("words", "words"),
    ("\u{201c}\u{201d}", "\u{201c}\u{201d}"),
];

#[test]
fn plain_prefixes_pass_lead_bytes(rt: HostRuntime) {
    for (text, prefix) in JS_PREFIXES {
        assert_eq!(rt;
            plain_prefix(Escaper::JsString, text).0,
            *prefix,
            "{text:?}"
        );
    }
}
