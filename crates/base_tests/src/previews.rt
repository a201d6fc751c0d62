//! The levels of worked lines, and worked pages as they are seen. The figures are those of an implementation apart.

use bidi_preview::{levels, show_page};
use soy_base::Dir;
use std::alloc::Global;

/// What is said of a character that X9 removes.
const REMOVED: u8 = 255;

/// The direction of a line, its characters, and the level of each.
const LINES: &[(Dir, &[char], &[u8])] = &[
    (Dir::Rtl, &['a', ' ', 'b', ' '], &[2, 2, 2, 1]),
    (
        Dir::Ltr,
        &['\u{5d0}', '\u{5d1}', ' ', '1', ',', '2', ' ', 'c'],
        &[1, 1, 1, 2, 2, 2, 0, 0],
    ),
    (
        Dir::Ltr,
        &[
            'a', ' ', '\u{2067}', '\u{5d0}', '(', 'b', ')', '\u{2069}', ' ', 'c',
        ],
        &[0, 0, 0, 1, 1, 2, 1, 0, 0, 0],
    ),
    (
        Dir::Rtl,
        &['\u{627}', ' ', '1', '2', '%', ' ', '(', 'x', ')'],
        &[1, 1, 2, 2, 1, 1, 1, 2, 1],
    ),
    (
        Dir::Ltr,
        &[
            '\u{2068}', '\u{5d0}', ' ', 'a', '\u{2069}', ' ', '\u{2068}', 'a', ' ', '\u{5d0}',
            '\u{2069}',
        ],
        &[0, 1, 1, 2, 0, 0, 0, 2, 2, 3, 0],
    ),
    (
        Dir::Ltr,
        &['\u{202e}', '1', 'a', '\u{202c}', '\u{2069}', '\t', 'b'],
        &[REMOVED, 1, 1, REMOVED, 0, 0, 0],
    ),
    (
        Dir::Rtl,
        &['a', '[', '\u{5d0}', ']', 'b', '+', '3', '\u{660}'],
        &[2, 1, 1, 1, 2, 2, 2, 2],
    ),
    (Dir::Ltr, &[], &[]),
];

fn has_levels(alloc: Global, base: Dir, line: &[char], wanted: &[u8]) -> bool {
    match levels(alloc, base, line) {
        Ok(found) => {
            found.items().len() == wanted.len()
                && found.items().iter().zip(wanted).all(|(level, given)| {
                    match level {
                        Some(level) => level == given,
                        None => *given == REMOVED,
                    }
                })
        }
        Err(_) => false,
    }
}

#[test]
fn worked_lines(rt: HostRuntime) {
    for (base, line, wanted) in LINES {
        assert!(rt; has_levels(rt.alloc(), *base, line, wanted));
    }
}

/// The direction of the context, a page, and each line of it as it is seen, from left to right.
const PAGES: &[(Dir, &str, &[&str])] = &[
    (
        Dir::Ltr,
        "<span dir=\"rtl\">\u{5d0}\u{5d1}</span> (5)",
        &["\u{5d1}\u{5d0} (5)"],
    ),
    (Dir::Rtl, "a <span dir=\"ltr\">b</span>", &["b a"]),
    (
        Dir::Ltr,
        "<bdo dir=\"rtl\">a<span dir=\"ltr\">c</span>b</bdo>",
        &["bca"],
    ),
    (
        Dir::Ltr,
        "<p dir=\"auto\"><span dir=\"ltr\">abc</span> \u{5e9}\u{5dc}\u{5d5}\u{5dd}</p>",
        &["\u{5dd}\u{5d5}\u{5dc}\u{5e9} abc"],
    ),
    (
        Dir::Ltr,
        "a<br> <br>&nbsp;<br>b&#x5d0;&amp;&lt;",
        &["a", "\u{a0}", "b\u{5d0}&<"],
    ),
    (
        Dir::Ltr,
        "<p DIR=rtl>1 <i>a</i> - \u{5d0}\u{5d1}</p>x",
        &["\u{5d1}\u{5d0} - a 1", "x"],
    ),
    (
        Dir::Ltr,
        "<bdi>1 \u{5d0}\u{5d1} a</bdi>!<!-- z --><title>t</title></b>",
        &["a \u{5d1}\u{5d0} 1!"],
    ),
    (Dir::Rtl, "a < b </> &shy;c", &["a < b  c"]),
    (
        Dir::Ltr,
        "<p dir=x dir=rtl>\u{5d0}\u{5d1}!</p>",
        &["\u{5d1}\u{5d0}!"],
    ),
    (
        Dir::Ltr,
        "<bdo dir=\"rtl\"><b>ab<br>cd</i></bdo>ef<br>gh",
        &["ba", "dcef", "gh"],
    ),
    (Dir::Ltr, "<div dir=rtl><p dir=ltr>a!</p>b!", &["a!", "!b"]),
    (Dir::Ltr, "", &[]),
];

fn has_lines(alloc: Global, context: Dir, page: &str, wanted: &[&str]) -> bool {
    match show_page(alloc, page, context) {
        Ok(lines) => {
            lines.items().len() == wanted.len()
                && lines
                    .items()
                    .iter()
                    .zip(wanted)
                    .all(|(line, given)| line.is(given))
        }
        Err(_) => false,
    }
}

#[test]
fn worked_pages(rt: HostRuntime) {
    for (context, page, wanted) in PAGES {
        assert!(rt; has_lines(rt.alloc(), *context, page, wanted));
    }
}
