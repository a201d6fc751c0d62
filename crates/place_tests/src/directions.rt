//! Estimates, offsets and wrapped texts of worked rows.
use bidi_text::{estimate, law_cleaned, marks, wrap};
use soy_base::Dir::{self, Ltr, Rtl};
use soy_base::OutOfMemory;

// A text, the direction of its context, and the estimate.
const ESTIMATES: &[(&str, Dir, Dir)] = &[
    // A word from right to left and one from left to right: 5 is more than 4.
    ("\u{5d0} b", Ltr, Rtl),
    // One of three: 5 is not more than 6.
    ("\u{5d0} b c", Rtl, Ltr),
    // Two of five: 10 is not more than 10.
    ("\u{5d0} \u{5d1} c d e", Rtl, Ltr),
    // An address is weak, also with a letter from right to left in it.
    ("http://x", Rtl, Ltr),
    ("https://\u{5d0}", Rtl, Ltr),
    // One that doesn't begin so is none: its first letter counts.
    ("\u{5d0}http://x", Ltr, Rtl),
    // Numbers are weak.
    ("1 2", Rtl, Ltr),
    // No word decides.
    ("!", Rtl, Rtl),
    ("!", Ltr, Ltr),
    ("<", Rtl, Rtl),
    ("", Rtl, Rtl),
    // A no-break space parts words, and U+001F does not.
    ("\u{5d0}\u{a0}b\u{a0}c", Rtl, Ltr),
    ("\u{5d0}\u{1f}b\u{1f}c", Ltr, Rtl),
];

#[test]
fn estimates(rt: HostRuntime) {
    for (text, context, want) in ESTIMATES {
        assert_eq!(rt; estimate(text, *context), *want, "at {text:?}");
    }
}

// A text and the byte offsets of its dropped controls.
const OFFSETS: &[(&str, &[u64])] = &[
    ("", &[]),
    ("a\t\u{2067}b\u{2069}\u{2069}", &[9]),
    ("\u{2069}a\u{2066}", &[0, 4]),
    ("\u{2067}\u{2066}\u{2068}\u{2069}", &[0, 3]),
    ("\u{2066}\u{2069}\u{2069}\u{2067}", &[6, 9]),
    // Embeddings and their end are no isolate controls.
    ("\u{202a}\u{2066}\u{202c}\u{2069}", &[]),
    ("\u{5d0}\u{2068}", &[2]),
];

#[test]
fn offsets(rt: HostRuntime) -> Result<(), OutOfMemory> {
    for (text, want) in OFFSETS {
        let found = marks(rt.alloc(), text)?;
        assert_eq!(rt; found.places.items(), *want, "at {text:?}");
    }
    law_cleaned();
    Ok(())
}

// A text, the direction of its context, and the wrapped text.
const WRAPPED: &[(&str, Dir, &str)] = &[
    (
        "\u{5d0}\u{5d1}",
        Ltr,
        "<span dir=\"rtl\">\u{5d0}\u{5d1}</span>",
    ),
    (
        "a\t\u{2067}b\u{2069}\u{2069}",
        Ltr,
        "<span dir=\"ltr\">a \u{2067}b\u{2069}</span>",
    ),
    ("<", Rtl, "<span dir=\"rtl\">&lt;</span>"),
    ("", Ltr, "<span dir=\"ltr\"></span>"),
    (
        "\u{2066}a\n\u{1f}\"&'\0",
        Rtl,
        "<span dir=\"ltr\">a  &quot;&amp;&#39;\u{fffd}</span>",
    ),
];

#[test]
fn wrapped_texts(rt: HostRuntime) -> Result<(), OutOfMemory> {
    for (text, context, want) in WRAPPED {
        let wrapped = wrap(rt.alloc(), text, *context)?;
        assert_eq!(rt; wrapped.as_str(), *want, "at {text:?}");
    }
    Ok(())
}
