//! Rows of messages, bundles and the catalogue.

use crate::running::{Row, is_answered};
use soy_top::Status;

const WITH_BUNDLE: &str = "render t.m d.json b.json t.soy";

const PLURAL: &str = "{namespace t}\n\
     {template m}\n\
     {@param n: int}\n\
     {msg desc=\"d\"}{plural $n}{case 1}one{default}some{/plural}{/msg}\n\
     {/template}\n";

const RULES: &str =
    "{\"dir\":\"rtl\",\"plural\":{\"zero\":\"n = 0\",\"one\":\"n = 1\",\"two\":\"n = 2\",\
     \"few\":\"n % 100 = 3..10\",\"many\":\"n % 100 = 11..99\"},\"messages\":{\"6b79bacfb46050fb\":\"{N, \
     plural, zero {Z} one {O} two {T} few {F} many {M} other {X #}}\"}}";

const LOVE: &str =
    "{namespace t}\n{template m}\n{@param who: string}\n{msg desc=\"d\"}love {$who}{/msg}\n{/template}\n";

const SELECT: &str = "{namespace t}\n\
     {template m}\n\
     {@param g: string}{@param who: string}\n\
     {msg desc=\"d\"}{select $g}{case 'f'}<b>{$who}</b> and her{default}{$who} and them{/select}{/msg}\n\
     {/template}\n";

const HI: &str = "{namespace t}\n\
     {template m}\n\
     {@param who: string}\n\
     {msg desc=\"a\"}Hi{/msg}{msg desc=\"b\" meaning=\"m\"}Hi{fallbackmsg desc=\"c\"}<b>{$who}</b>\
     {/msg}\n\
     {/template}\n";

const ID: &str =
    "{namespace t}\n{template m}\n{msg desc=\"d\"}2a5290ee6e6277a8{/msg}\n{/template}\n";

const SAME_ID: &str =
    "{namespace u}\n{template m}\né{msg desc=\"d\"}c9449a9fb8361d34{/msg}\n{/template}\n";

/// Messages in the source language and in translations.
const MESSAGES: &[Row] = &[
    (
        "source-plural, n 1",
        "render t.m d.json - t.soy",
        &[
            (
                "t.soy",
                "{namespace t}\n\
                 {template m}\n\
                 {@param n: int}\n\
                 {msg desc=\"d\"}{plural $n offset=\"1\"}{case 1}only{default}{$n} in all{/plural}{/msg}\n\
                 {/template}\n",
            ),
            ("d.json", "{\"n\":1}"),
        ],
        Status::Done,
        "only",
        "",
    ),
    (
        "source-plural, n 3",
        "render t.m d.json - t.soy",
        &[
            (
                "t.soy",
                "{namespace t}\n\
                 {template m}\n\
                 {@param n: int}\n\
                 {msg desc=\"d\"}{plural $n offset=\"1\"}{case 1}only{default}{$n} in all{/plural}{/msg}\n\
                 {/template}\n",
            ),
            ("d.json", "{\"n\":3}"),
        ],
        Status::Done,
        "<span dir=\"ltr\">3</span> in all",
        "",
    ),
    (
        "plural-translation, n 0",
        WITH_BUNDLE,
        &[
            ("t.soy", PLURAL),
            ("b.json", RULES),
            ("d.json", "{\"n\":0}"),
        ],
        Status::Done,
        "Z",
        "",
    ),
    (
        "plural-translation, n 1",
        WITH_BUNDLE,
        &[
            ("t.soy", PLURAL),
            ("b.json", RULES),
            ("d.json", "{\"n\":1}"),
        ],
        Status::Done,
        "O",
        "",
    ),
    (
        "plural-translation, n 2",
        WITH_BUNDLE,
        &[
            ("t.soy", PLURAL),
            ("b.json", RULES),
            ("d.json", "{\"n\":2}"),
        ],
        Status::Done,
        "T",
        "",
    ),
    (
        "plural-translation, n 3",
        WITH_BUNDLE,
        &[
            ("t.soy", PLURAL),
            ("b.json", RULES),
            ("d.json", "{\"n\":3}"),
        ],
        Status::Done,
        "F",
        "",
    ),
    (
        "plural-translation, n 11",
        WITH_BUNDLE,
        &[
            ("t.soy", PLURAL),
            ("b.json", RULES),
            ("d.json", "{\"n\":11}"),
        ],
        Status::Done,
        "M",
        "",
    ),
    (
        "plural-translation, n 100",
        WITH_BUNDLE,
        &[
            ("t.soy", PLURAL),
            ("b.json", RULES),
            ("d.json", "{\"n\":100}"),
        ],
        Status::Done,
        "X <span dir=\"ltr\">100</span>",
        "",
    ),
    (
        "plural-translation, with offset, n 1",
        WITH_BUNDLE,
        &[
            ("t.soy", PLURAL),
            (
                "b.json",
                "{\"dir\":\"rtl\",\"plural\":{\"zero\":\"n = 0\",\"one\":\"n = 1\",\"two\":\"n = 2\",\
                 \"few\":\"n % 100 = 3..10\",\"many\":\"n % 100 = 11..99\"},\"messages\":{\"6b79bacfb46050fb\":\"{N, \
                 plural, offset:1 =1 {only} one {and # more} other {all}}\"}}",
            ),
            ("d.json", "{\"n\":1}"),
        ],
        Status::Done,
        "only",
        "",
    ),
    (
        "plural-translation, with offset, n 2",
        WITH_BUNDLE,
        &[
            ("t.soy", PLURAL),
            (
                "b.json",
                "{\"dir\":\"rtl\",\"plural\":{\"zero\":\"n = 0\",\"one\":\"n = 1\",\"two\":\"n = 2\",\
                 \"few\":\"n % 100 = 3..10\",\"many\":\"n % 100 = 11..99\"},\"messages\":{\"6b79bacfb46050fb\":\"{N, \
                 plural, offset:1 =1 {only} one {and # more} other {all}}\"}}",
            ),
            ("d.json", "{\"n\":2}"),
        ],
        Status::Done,
        "and <span dir=\"ltr\">1</span> more",
        "",
    ),
    (
        "ordinal-translation, n 21",
        WITH_BUNDLE,
        &[
            ("t.soy", PLURAL),
            (
                "b.json",
                "{\"dir\":\"ltr\",\"ordinal\":{\"one\":\"n % 10 = 1 and n % 100 != 11\"},\"messages\":\
                 {\"6b79bacfb46050fb\":\"{N, selectordinal, one {#st} other {#th}}\"}}",
            ),
            ("d.json", "{\"n\":21}"),
        ],
        Status::Done,
        "<span dir=\"ltr\">21</span>st",
        "",
    ),
    (
        "ordinal-translation, n 11",
        WITH_BUNDLE,
        &[
            ("t.soy", PLURAL),
            (
                "b.json",
                "{\"dir\":\"ltr\",\"ordinal\":{\"one\":\"n % 10 = 1 and n % 100 != 11\"},\"messages\":\
                 {\"6b79bacfb46050fb\":\"{N, selectordinal, one {#st} other {#th}}\"}}",
            ),
            ("d.json", "{\"n\":11}"),
        ],
        Status::Done,
        "<span dir=\"ltr\">11</span>th",
        "",
    ),
    (
        "fallback-translation, translated",
        WITH_BUNDLE,
        &[
            (
                "t.soy",
                "{namespace t}\n\
                 {template m}\n\
                 \n\
                 {msg desc=\"new\"}Hi{fallbackmsg desc=\"old\"}Hello{/msg}\n\
                 {/template}\n",
            ),
            (
                "b.json",
                "{\"dir\":\"ltr\",\"messages\":{\"90b626dbb1e994c9\":\"Salut\"}}",
            ),
            ("d.json", "{}"),
        ],
        Status::Done,
        "Salut",
        "",
    ),
    (
        "fallback-translation, no messages",
        WITH_BUNDLE,
        &[
            (
                "t.soy",
                "{namespace t}\n\
                 {template m}\n\
                 \n\
                 {msg desc=\"new\"}Hi{fallbackmsg desc=\"old\"}Hello{/msg}\n\
                 {/template}\n",
            ),
            ("b.json", "{\"dir\":\"ltr\",\"messages\":{}}"),
            ("d.json", "{}"),
        ],
        Status::Done,
        "Hi",
        "",
    ),
    (
        "message-translation, 24",
        WITH_BUNDLE,
        &[
            ("t.soy", LOVE),
            (
                "b.json",
                "{\"dir\":\"ltr\",\"messages\":{\"29b104d2ffbb3f3d\":\"{WHOM}\"}}",
            ),
            ("d.json", "{\"who\":\"Ann\"}"),
        ],
        Status::Refused,
        "",
        "b.json:/messages/29b104d2ffbb3f3d: 24 Placeholder\n",
    ),
    (
        "message-translation, 25",
        WITH_BUNDLE,
        &[
            ("t.soy", LOVE),
            (
                "b.json",
                "{\"dir\":\"ltr\",\"messages\":{\"29b104d2ffbb3f3d\":\"{WHO, plural, other {x}}\"}}",
            ),
            ("d.json", "{\"who\":\"Ann\"}"),
        ],
        Status::Refused,
        "",
        "b.json:/messages/29b104d2ffbb3f3d: 25 Selector\n",
    ),
    (
        "message-translation, 22",
        WITH_BUNDLE,
        &[
            ("t.soy", LOVE),
            (
                "b.json",
                "{\"dir\":\"ltr\",\"messages\":{\"29b104d2ffbb3f3d\":\"{WHO\"}}",
            ),
            ("d.json", "{\"who\":\"Ann\"}"),
        ],
        Status::Refused,
        "",
        "b.json:/messages/29b104d2ffbb3f3d: 22 Icu\n",
    ),
    (
        "message-translation, accepted",
        WITH_BUNDLE,
        &[
            ("t.soy", LOVE),
            (
                "b.json",
                "{\"dir\":\"ltr\",\"messages\":{\"29b104d2ffbb3f3d\":\"l''amour {WHO}\"}}",
            ),
            ("d.json", "{\"who\":\"Ann\"}"),
        ],
        Status::Done,
        "l'amour <span dir=\"ltr\">Ann</span>",
        "",
    ),
    (
        "ampersand-in-translation",
        WITH_BUNDLE,
        &[
            (
                "t.soy",
                "{namespace t}\n{template m}\n\n<p title=\"{msg desc=\"d\"}a{/msg}\">x</p>\n{/template}\n",
            ),
            (
                "b.json",
                "{\"dir\":\"ltr\",\"messages\":{\"022a6979e6dab7aa\":\"a&b\"}}",
            ),
            ("d.json", "{}"),
        ],
        Status::Refused,
        "",
        "t.soy:4:11: 16 Ampersand\n",
    ),
    (
        "a select of the source",
        "render t.m d.json - t.soy",
        &[
            ("t.soy", SELECT),
            ("d.json", "{\"g\":\"f\",\"who\":\"Ann\"}"),
        ],
        Status::Done,
        "<b><span dir=\"ltr\">Ann</span></b> and her",
        "",
    ),
    (
        "a select of the source, default",
        "render t.m d.json - t.soy",
        &[
            ("t.soy", SELECT),
            ("d.json", "{\"g\":\"x\",\"who\":\"Bo\"}"),
        ],
        Status::Done,
        "<span dir=\"ltr\">Bo</span> and them",
        "",
    ),
    (
        "messages of two files in a bundle",
        "render t.m d.json b.json t.soy u.soy",
        &[
            (
                "t.soy",
                "{namespace t}\n\
                 {template m}\n\
                 {@param who: string}\n\
                 {msg desc=\"d\"}love {$who}{/msg}{call u.n /}\n\
                 {/template}\n",
            ),
            (
                "u.soy",
                "{namespace u}\n{template n}\n\n{msg desc=\"d\"}Hi{/msg}\n{/template}\n",
            ),
            (
                "b.json",
                "{\"dir\":\"rtl\",\"messages\":{\"29b104d2ffbb3f3d\":\"{WHO}!\",\"ceec7297960080e6\":\"שלום\"}}",
            ),
            ("d.json", "{\"who\":\"Ann\"}"),
        ],
        Status::Done,
        "<span dir=\"ltr\">Ann</span>!שלום",
        "",
    ),
    (
        "a translation that drops a placeholder",
        WITH_BUNDLE,
        &[
            ("t.soy", LOVE),
            (
                "b.json",
                "{\"dir\":\"ltr\",\"messages\":{\"29b104d2ffbb3f3d\":\"you\"}}",
            ),
            ("d.json", "{\"who\":\"Ann\"}"),
        ],
        Status::Done,
        "you",
        "",
    ),
    (
        "a translation that repeats a placeholder",
        WITH_BUNDLE,
        &[
            ("t.soy", LOVE),
            (
                "b.json",
                "{\"dir\":\"ltr\",\"messages\":{\"29b104d2ffbb3f3d\":\"{WHO}{WHO}\"}}",
            ),
            ("d.json", "{\"who\":\"A\"}"),
        ],
        Status::Done,
        "<span dir=\"ltr\">A</span><span dir=\"ltr\">A</span>",
        "",
    ),
    (
        "a translation of another message",
        WITH_BUNDLE,
        &[
            ("t.soy", LOVE),
            (
                "b.json",
                "{\"dir\":\"ltr\",\"messages\":{\"0000000000000000\":\"x\"}}",
            ),
            ("d.json", "{\"who\":\"A\"}"),
        ],
        Status::Done,
        "love <span dir=\"ltr\">A</span>",
        "",
    ),
];

#[test]
fn rows_of_messages(rt: HostRuntime) {
    for row in MESSAGES {
        assert!(rt; is_answered(rt.alloc(), row), "row {}", row.0);
    }
}

/// What is said of bundles.
const BUNDLES: &[Row] = &[
    (
        "bundle-faults, 21",
        WITH_BUNDLE,
        &[
            (
                "t.soy",
                "{namespace t}\n{template m}\n{@param x: string}\n<b>{$x}</b>\n{/template}\n",
            ),
            ("b.json", "[]"),
            ("d.json", "{\"x\":\"a\"}"),
        ],
        Status::Refused,
        "",
        "b.json:: 21 Bundle\n",
    ),
    (
        "bundle-faults, 23",
        WITH_BUNDLE,
        &[
            (
                "t.soy",
                "{namespace t}\n{template m}\n{@param x: string}\n<b>{$x}</b>\n{/template}\n",
            ),
            (
                "b.json",
                "{\"dir\":\"ltr\",\"plural\":{\"one\":\"n % 0 = 1\"},\"messages\":{}}",
            ),
            ("d.json", "{\"x\":\"a\"}"),
        ],
        Status::Refused,
        "",
        "b.json:/plural/one: 23 Rule\n",
    ),
    (
        "files and a bundle",
        "check b.json t.soy",
        &[
            (
                "t.soy",
                "{namespace t}\n{template m}\n{msg desc=\"\"}a{/msg}\n{/template}\n",
            ),
            ("b.json", "{\"dir\":\"rtl\",\"messages\":{}}"),
        ],
        Status::Done,
        "ok\n",
        "",
    ),
    (
        "a bundle before the paths",
        "check b.json t.soy",
        &[
            ("t.soy", "{namespace t}\n{template m}\n\n<b\n{/template}\n"),
            ("b.json", "{}"),
        ],
        Status::Refused,
        "",
        "b.json:/dir: 21 Bundle\n",
    ),
    (
        "a message of one id before the bundle",
        "check b.json t.soy",
        &[
            (
                "t.soy",
                "{namespace t}\n\
                 {template m}\n\
                 {msg desc=\"d\"}2a5290ee6e6277a8{/msg}\n\
                 {msg desc=\"d\"}c9449a9fb8361d34{/msg}\n\
                 {/template}\n",
            ),
            ("b.json", "[]"),
        ],
        Status::Refused,
        "",
        "t.soy:4:1: 26 IdClash\n",
    ),
    (
        "no JSON",
        "check b.json t.soy",
        &[("t.soy", "{namespace t}\n"), ("b.json", "x")],
        Status::Refused,
        "",
        "b.json:: 21 Bundle\n",
    ),
    (
        "a rule",
        "check b.json t.soy",
        &[
            ("t.soy", "{namespace t}\n"),
            (
                "b.json",
                "{\"dir\":\"ltr\",\"plural\":{\"one\":\"n is 1\"},\"messages\":{}}",
            ),
        ],
        Status::Refused,
        "",
        "b.json:/plural/one: 23 Rule\n",
    ),
    (
        "a key with a slash and a tilde",
        "check b.json t.soy",
        &[
            ("t.soy", "{namespace t}\n"),
            ("b.json", "{\"dir\":\"ltr\",\"messages\":{\"a/b~c\":1}}"),
        ],
        Status::Refused,
        "",
        "b.json:/messages/a~1b~0c: 21 Bundle\n",
    ),
    (
        "no pattern",
        "check b.json t.soy",
        &[
            ("t.soy", LOVE),
            (
                "b.json",
                "{\"dir\":\"ltr\",\"messages\":{\"29b104d2ffbb3f3d\":\"{WHO\"}}",
            ),
        ],
        Status::Refused,
        "",
        "b.json:/messages/29b104d2ffbb3f3d: 22 Icu\n",
    ),
    (
        "a render with a bundle",
        WITH_BUNDLE,
        &[
            ("t.soy", "{namespace t}\n{template m}\n\na\n{/template}\n"),
            ("d.json", "{}"),
            ("b.json", "{}"),
        ],
        Status::Refused,
        "",
        "b.json:/dir: 21 Bundle\n",
    ),
    (
        "a play by its second bundle",
        "play t.soy - b.json t.soy",
        &[
            ("t.soy", "{namespace t}\n{template m}\n\na\n{/template}\n"),
            ("b.json", "{}"),
        ],
        Status::Refused,
        "",
        "b.json:/dir: 21 Bundle\n",
    ),
];

#[test]
fn rows_of_bundles(rt: HostRuntime) {
    for row in BUNDLES {
        assert!(rt; is_answered(rt.alloc(), row), "row {}", row.0);
    }
}

/// The catalogue of messages. The two texts of one id were found by a search through some ten thousand million texts.
const CATALOGUES: &[Row] = &[
    (
        "source-plural, canonical text",
        "extract t.soy",
        &[(
            "t.soy",
            "{namespace t}\n\
                 {template m}\n\
                 {@param n: int}\n\
                 {msg desc=\"d\"}{plural $n offset=\"1\"}{case 1}only{default}{$n} in all{/plural}{/msg}\n\
                 {/template}\n",
        )],
        Status::Done,
        "{\"messages\":[{\"desc\":\"d\",\"id\":\"4e4dc2996d68020f\",\"meaning\":\"\",\"text\":\"{N, plural, \
         offset:1 =1 {only} other {{N} in all}}\"}]}\n",
        "",
    ),
    (
        "extract-message",
        "extract t.soy",
        &[("t.soy", LOVE)],
        Status::Done,
        "{\"messages\":[{\"desc\":\"d\",\"id\":\"29b104d2ffbb3f3d\",\"meaning\":\"\",\"text\":\"love \
         {WHO}\"}]}\n",
        "",
    ),
    (
        "placeholder-names",
        "extract t.soy",
        &[(
            "t.soy",
            "{namespace t}\n\
                 {template m}\n\
                 {@param a: [name: string]}{@param b: [name: string]}\n\
                 {msg desc=\"d\"}<a href=\"/x\">{$a.name}</a> {$b.name}{/msg}\n\
                 {/template}\n",
        )],
        Status::Done,
        "{\"messages\":[{\"desc\":\"d\",\"id\":\"a5660e2d9df65f91\",\"meaning\":\"\",\"text\":\"{START_LINK}\
         {NAME_1}{END_LINK} {NAME_2}\"}]}\n",
        "",
    ),
    (
        "two files, a message in both",
        "extract t.soy u.soy",
        &[
            ("t.soy", HI),
            (
                "u.soy",
                "{namespace u}\n\
                 {template m}\n\
                 {msg desc=\"d\"}Hi{/msg}{msg desc=\"é's\"}it's {lb}{/msg}\n\
                 {/template}\n",
            ),
        ],
        Status::Done,
        "{\"messages\":[{\"desc\":\"a\",\"id\":\"ceec7297960080e6\",\"meaning\":\"\",\"text\":\"Hi\"},\
         {\"desc\":\"b\",\"id\":\"5e8289cc33eca598\",\"meaning\":\"m\",\"text\":\"Hi\"},{\"desc\":\"c\",\
         \"id\":\"369093ee0155d76b\",\"meaning\":\"\",\"text\":\"{START_BOLD}{WHO}{END_BOLD}\"},\
         {\"desc\":\"é's\",\"id\":\"cfaaf4dfd6feefea\",\"meaning\":\"\",\"text\":\"it''s '{'\"}]}\n",
        "",
    ),
    (
        "two messages of one id",
        "extract t.soy u.soy",
        &[("t.soy", ID), ("u.soy", SAME_ID)],
        Status::Refused,
        "",
        "u.soy:3:2: 26 IdClash\n",
    ),
    (
        "the other one first",
        "extract u.soy t.soy",
        &[("t.soy", ID), ("u.soy", SAME_ID)],
        Status::Refused,
        "",
        "t.soy:3:1: 26 IdClash\n",
    ),
    (
        "a demand before that",
        "extract t.soy u.soy",
        &[
            ("t.soy", ID),
            (
                "u.soy",
                "{namespace u}\n{template m}\n{msg desc=\"d\"}c9449a9fb8361d34{/msg}{$y}\n{/template}\n",
            ),
        ],
        Status::Refused,
        "",
        "u.soy:3:38: 7 Unknown\n",
    ),
];

#[test]
fn rows_of_catalogues(rt: HostRuntime) {
    for row in CATALOGUES {
        assert!(rt; is_answered(rt.alloc(), row), "row {}", row.0);
    }
}
