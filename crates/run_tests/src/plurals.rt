//! Rules of CLDR 41 (plurals.xml, ordinals.xml) in bundles: the categories of the numbers 0 to 200 and of a million.
//! The wanted ones are those of Babel 2.10 for the locales; ICU has the same, but for `many` of he, which CLDR has no
//! more.

use crate::running::{files_of, run_line};
use soy_top::Status;
use std::alloc::Global;

/// A row: the locale, the member of the bundle, its rules, and the category of each number by its letter.
type Row = (
    &'static str,
    &'static str,
    &'static [(&'static str, &'static str)],
    &'static str,
);

const FILE: &str = "{namespace t}\n\
     {template m}\n\
     {@param l: list<int>}\n\
     {for $n in $l}{msg desc=\"d\"}{plural $n}{case 1}one{default}some{/plural}{/msg}{/for}\n\
     {/template}\n";

/// What a bundle ends with: the translation of the file's message by the plural rules.
const BY_PLURAL: &str =
    "\"messages\":{\"6b79bacfb46050fb\":\"{N, plural, zero {z} one {o} two {t} few {f} many {m} other {x}}\"}}";

/// The same by the ordinal rules.
const BY_ORDINAL: &str =
    "\"messages\":{\"6b79bacfb46050fb\":\"{N, selectordinal, zero {z} one {o} two {t} few {f} many {m} other {x}}\"}}";

/// Arabic's rules are with their samples, which are passed over.
const CATEGORIES: &[Row] = &[
    (
        "ar",
        "plural",
        &[
            ("zero", "n = 0 @integer 0 @decimal 0.0, 0.00, 0.000, 0.0000"),
            ("one", "n = 1 @integer 1 @decimal 1.0, 1.00, 1.000, 1.0000"),
            ("two", "n = 2 @integer 2 @decimal 2.0, 2.00, 2.000, 2.0000"),
            (
                "few",
                "n % 100 = 3..10 @integer 3~10, 103~110, 1003, … @decimal 3.0, 4.0, 5.0, 6.0, 7.0, 8.0, 9.0, 10.0, \
                 103.0, 1003.0, …",
            ),
            (
                "many",
                "n % 100 = 11..99 @integer 11~26, 111, 1011, … @decimal 11.0, 12.0, 13.0, 14.0, 15.0, 16.0, 17.0, \
                 18.0, 111.0, 1011.0, …",
            ),
            (
                "other",
                "@integer 100~102, 200~202, 300~302, 400~402, 500~502, 600, 1000, 10000, 100000, 1000000, … \
                 @decimal 0.1~0.9, 1.1~1.7, 10.1, 100.0, 1000.0, 10000.0, 100000.0, 1000000.0, …",
            ),
        ],
        "zotffffffffmmmmmmmmmmmmmmmmmmmmmmmmmmmmmmmmmmmmmmmmmmmmmmmmmmmmmmmmmmmmmmmmmmmmmmmmmmmmmmmmmmmmmmmmmx\
         xxffffffffmmmmmmmmmmmmmmmmmmmmmmmmmmmmmmmmmmmmmmmmmmmmmmmmmmmmmmmmmmmmmmmmmmmmmmmmmmmmmmmmmmmmmmmmmxx",
    ),
    (
        "cs",
        "plural",
        &[
            ("one", "i = 1 and v = 0"),
            ("few", "i = 2..4 and v = 0"),
            ("many", "v != 0"),
        ],
        "xofffxxxxxxxxxxxxxxxxxxxxxxxxxxxxxxxxxxxxxxxxxxxxxxxxxxxxxxxxxxxxxxxxxxxxxxxxxxxxxxxxxxxxxxxxxxxxxxxx\
         xxxxxxxxxxxxxxxxxxxxxxxxxxxxxxxxxxxxxxxxxxxxxxxxxxxxxxxxxxxxxxxxxxxxxxxxxxxxxxxxxxxxxxxxxxxxxxxxxxxxx",
    ),
    (
        "cy",
        "plural",
        &[
            ("zero", "n = 0"),
            ("one", "n = 1"),
            ("two", "n = 2"),
            ("few", "n = 3"),
            ("many", "n = 6"),
        ],
        "zotfxxmxxxxxxxxxxxxxxxxxxxxxxxxxxxxxxxxxxxxxxxxxxxxxxxxxxxxxxxxxxxxxxxxxxxxxxxxxxxxxxxxxxxxxxxxxxxxxx\
         xxxxxxxxxxxxxxxxxxxxxxxxxxxxxxxxxxxxxxxxxxxxxxxxxxxxxxxxxxxxxxxxxxxxxxxxxxxxxxxxxxxxxxxxxxxxxxxxxxxxx",
    ),
    (
        "en",
        "plural",
        &[("one", "i = 1 and v = 0")],
        "xoxxxxxxxxxxxxxxxxxxxxxxxxxxxxxxxxxxxxxxxxxxxxxxxxxxxxxxxxxxxxxxxxxxxxxxxxxxxxxxxxxxxxxxxxxxxxxxxxxxx\
         xxxxxxxxxxxxxxxxxxxxxxxxxxxxxxxxxxxxxxxxxxxxxxxxxxxxxxxxxxxxxxxxxxxxxxxxxxxxxxxxxxxxxxxxxxxxxxxxxxxxx",
    ),
    (
        "fr",
        "plural",
        &[
            ("one", "i = 0,1"),
            (
                "many",
                "e = 0 and i != 0 and i % 1000000 = 0 and v = 0 or e != 0..5",
            ),
        ],
        "ooxxxxxxxxxxxxxxxxxxxxxxxxxxxxxxxxxxxxxxxxxxxxxxxxxxxxxxxxxxxxxxxxxxxxxxxxxxxxxxxxxxxxxxxxxxxxxxxxxxx\
         xxxxxxxxxxxxxxxxxxxxxxxxxxxxxxxxxxxxxxxxxxxxxxxxxxxxxxxxxxxxxxxxxxxxxxxxxxxxxxxxxxxxxxxxxxxxxxxxxxxxm",
    ),
    (
        "ga",
        "plural",
        &[
            ("one", "n = 1"),
            ("two", "n = 2"),
            ("few", "n = 3..6"),
            ("many", "n = 7..10"),
        ],
        "xotffffmmmmxxxxxxxxxxxxxxxxxxxxxxxxxxxxxxxxxxxxxxxxxxxxxxxxxxxxxxxxxxxxxxxxxxxxxxxxxxxxxxxxxxxxxxxxxx\
         xxxxxxxxxxxxxxxxxxxxxxxxxxxxxxxxxxxxxxxxxxxxxxxxxxxxxxxxxxxxxxxxxxxxxxxxxxxxxxxxxxxxxxxxxxxxxxxxxxxxx",
    ),
    (
        "he",
        "plural",
        &[
            ("one", "i = 1 and v = 0"),
            ("two", "i = 2 and v = 0"),
            ("many", "v = 0 and n != 0..10 and n % 10 = 0"),
        ],
        "xotxxxxxxxxxxxxxxxxxmxxxxxxxxxmxxxxxxxxxmxxxxxxxxxmxxxxxxxxxmxxxxxxxxxmxxxxxxxxxmxxxxxxxxxmxxxxxxxxxm\
         xxxxxxxxxmxxxxxxxxxmxxxxxxxxxmxxxxxxxxxmxxxxxxxxxmxxxxxxxxxmxxxxxxxxxmxxxxxxxxxmxxxxxxxxxmxxxxxxxxxmm",
    ),
    (
        "lt",
        "plural",
        &[
            ("one", "n % 10 = 1 and n % 100 != 11..19"),
            ("few", "n % 10 = 2..9 and n % 100 != 11..19"),
            ("many", "f != 0"),
        ],
        "xoffffffffxxxxxxxxxxxoffffffffxoffffffffxoffffffffxoffffffffxoffffffffxoffffffffxoffffffffxoffffffffx\
         offffffffxxxxxxxxxxxoffffffffxoffffffffxoffffffffxoffffffffxoffffffffxoffffffffxoffffffffxoffffffffxx",
    ),
    (
        "lv",
        "plural",
        &[
            (
                "zero",
                "n % 10 = 0 or n % 100 = 11..19 or v = 2 and f % 100 = 11..19",
            ),
            (
                "one",
                "n % 10 = 1 and n % 100 != 11 or v = 2 and f % 10 = 1 and f % 100 != 11 or v != 2 and f % 10 = 1",
            ),
        ],
        "zoxxxxxxxxzzzzzzzzzzzoxxxxxxxxzoxxxxxxxxzoxxxxxxxxzoxxxxxxxxzoxxxxxxxxzoxxxxxxxxzoxxxxxxxxzoxxxxxxxxz\
         oxxxxxxxxzzzzzzzzzzzoxxxxxxxxzoxxxxxxxxzoxxxxxxxxzoxxxxxxxxzoxxxxxxxxzoxxxxxxxxzoxxxxxxxxzoxxxxxxxxzz",
    ),
    (
        "pl",
        "plural",
        &[
            ("one", "i = 1 and v = 0"),
            ("few", "v = 0 and i % 10 = 2..4 and i % 100 != 12..14"),
            (
                "many",
                "v = 0 and i != 1 and i % 10 = 0..1 or v = 0 and i % 10 = 5..9 or v = 0 and i % 100 = 12..14",
            ),
        ],
        "mofffmmmmmmmmmmmmmmmmmfffmmmmmmmfffmmmmmmmfffmmmmmmmfffmmmmmmmfffmmmmmmmfffmmmmmmmfffmmmmmmmfffmmmmmm\
         mfffmmmmmmmmmmmmmmmmmfffmmmmmmmfffmmmmmmmfffmmmmmmmfffmmmmmmmfffmmmmmmmfffmmmmmmmfffmmmmmmmfffmmmmmmm",
    ),
    (
        "ru",
        "plural",
        &[
            ("one", "v = 0 and i % 10 = 1 and i % 100 != 11"),
            ("few", "v = 0 and i % 10 = 2..4 and i % 100 != 12..14"),
            (
                "many",
                "v = 0 and i % 10 = 0 or v = 0 and i % 10 = 5..9 or v = 0 and i % 100 = 11..14",
            ),
        ],
        "mofffmmmmmmmmmmmmmmmmofffmmmmmmofffmmmmmmofffmmmmmmofffmmmmmmofffmmmmmmofffmmmmmmofffmmmmmmofffmmmmmm\
         offfmmmmmmmmmmmmmmmmofffmmmmmmofffmmmmmmofffmmmmmmofffmmmmmmofffmmmmmmofffmmmmmmofffmmmmmmofffmmmmmmm",
    ),
    (
        "sl",
        "plural",
        &[
            ("one", "v = 0 and i % 100 = 1"),
            ("two", "v = 0 and i % 100 = 2"),
            ("few", "v = 0 and i % 100 = 3..4 or v != 0"),
        ],
        "xotffxxxxxxxxxxxxxxxxxxxxxxxxxxxxxxxxxxxxxxxxxxxxxxxxxxxxxxxxxxxxxxxxxxxxxxxxxxxxxxxxxxxxxxxxxxxxxxxx\
         otffxxxxxxxxxxxxxxxxxxxxxxxxxxxxxxxxxxxxxxxxxxxxxxxxxxxxxxxxxxxxxxxxxxxxxxxxxxxxxxxxxxxxxxxxxxxxxxxxx",
    ),
    (
        "cy",
        "ordinal",
        &[
            ("zero", "n = 0,7,8,9"),
            ("one", "n = 1"),
            ("two", "n = 2"),
            ("few", "n = 3,4"),
            ("many", "n = 5,6"),
        ],
        "zotffmmzzzxxxxxxxxxxxxxxxxxxxxxxxxxxxxxxxxxxxxxxxxxxxxxxxxxxxxxxxxxxxxxxxxxxxxxxxxxxxxxxxxxxxxxxxxxxx\
         xxxxxxxxxxxxxxxxxxxxxxxxxxxxxxxxxxxxxxxxxxxxxxxxxxxxxxxxxxxxxxxxxxxxxxxxxxxxxxxxxxxxxxxxxxxxxxxxxxxxx",
    ),
    (
        "en",
        "ordinal",
        &[
            ("one", "n % 10 = 1 and n % 100 != 11"),
            ("two", "n % 10 = 2 and n % 100 != 12"),
            ("few", "n % 10 = 3 and n % 100 != 13"),
        ],
        "xotfxxxxxxxxxxxxxxxxxotfxxxxxxxotfxxxxxxxotfxxxxxxxotfxxxxxxxotfxxxxxxxotfxxxxxxxotfxxxxxxxotfxxxxxxx\
         otfxxxxxxxxxxxxxxxxxotfxxxxxxxotfxxxxxxxotfxxxxxxxotfxxxxxxxotfxxxxxxxotfxxxxxxxotfxxxxxxxotfxxxxxxxx",
    ),
    (
        "fr",
        "ordinal",
        &[("one", "n = 1")],
        "xoxxxxxxxxxxxxxxxxxxxxxxxxxxxxxxxxxxxxxxxxxxxxxxxxxxxxxxxxxxxxxxxxxxxxxxxxxxxxxxxxxxxxxxxxxxxxxxxxxxx\
         xxxxxxxxxxxxxxxxxxxxxxxxxxxxxxxxxxxxxxxxxxxxxxxxxxxxxxxxxxxxxxxxxxxxxxxxxxxxxxxxxxxxxxxxxxxxxxxxxxxxx",
    ),
];

/// A bundle of the rules of a row.
fn bundle_of(alloc: Global, row: &Row) -> Option<String> {
    let (locale, member, rules, _) = *row;
    let head = format!(in alloc; "{{\"dir\":\"ltr\",\"locale\":\"{locale}\",\"{member}\":");
    let mut text = head.ok()?;
    let mut before = "{";
    for (keyword, rule) in rules {
        let entry = format!(in alloc; "{before}\"{keyword}\":\"{rule}\"").ok()?;
        text.push_str(entry.as_str()).ok()?;
        before = ",";
    }
    text.push_str("},").ok()?;
    let messages = if member == "plural" {
        BY_PLURAL
    } else {
        BY_ORDINAL
    };
    text.push_str(messages).ok()?;
    Some(text)
}

/// The data: the numbers 0 to 200 and a million.
fn numbers(alloc: Global) -> Option<String> {
    let mut text = String::from_str(alloc, "{\"l\":[").ok()?;
    for number in 0..201 {
        let item = format!(in alloc; "{number},").ok()?;
        text.push_str(item.as_str()).ok()?;
    }
    text.push_str("1000000]}").ok()?;
    Some(text)
}

/// Whether the numbers have the categories of a row; not so where memory ran out.
fn has_categories(alloc: Global, row: &Row) -> Option<bool> {
    let bundle = bundle_of(alloc, row)?;
    let numbers = numbers(alloc)?;
    let files = [
        ("t.soy", FILE),
        ("b.json", bundle.as_str()),
        ("d.json", numbers.as_str()),
    ];
    let files = files_of(alloc, &files)?;
    let ended = run_line(alloc, "render t.m d.json b.json t.soy", files)?;
    Some(ended.is(Status::Done, row.3.as_bytes(), b""))
}

#[test]
fn categories_of_cldr(rt: HostRuntime) {
    for row in CATEGORIES {
        let holds = has_categories(rt.alloc(), row);
        assert_eq!(rt; holds, Some(true), "{} of {}", row.1, row.0);
    }
}
