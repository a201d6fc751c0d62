//! Classes and brackets at the ends of each range, written from outside.
use bidi_class::{Bracket, Class, bracket_of, class_of, is_initiator, law_pairs};

// The first and the last character of each range of the table, row by row, and of some runs of one category.
const ENDS: &[(Class, &str)] = &[
    (Class::B, "\u{a}\u{d}\u{1c}\u{1e}\u{85}\u{2029}"),
    (Class::S, "\u{9}\u{b}\u{1f}"),
    (
        Class::WS,
        "\u{c}\u{20}\u{1680}\u{2000}\u{200a}\u{2028}\u{205f}\u{3000}",
    ),
    (
        Class::CS,
        "\u{2c}\u{2e}\u{2f}\u{3a}\u{a0}\u{60c}\u{202f}\u{2044}",
    ),
    (Class::ES, "\u{2b}\u{2d}\u{207a}\u{207b}\u{2212}"),
    (
        Class::ET,
        "\u{23}\u{25}\u{a2}\u{a5}\u{b0}\u{b1}\u{66a}\u{2030}\u{2034}",
    ),
    (Class::ET, "\u{20a0}\u{20cf}\u{212e}\u{2213}"),
    (
        Class::EN,
        "\u{30}\u{39}\u{b2}\u{b3}\u{b9}\u{6f0}\u{6f9}\u{2070}\u{2074}",
    ),
    (Class::EN, "\u{2079}\u{2080}\u{2089}"),
    (
        Class::AN,
        "\u{600}\u{605}\u{660}\u{669}\u{66b}\u{66c}\u{6dd}",
    ),
    (Class::LRE, "\u{202a}"),
    (Class::RLE, "\u{202b}"),
    (Class::PDF, "\u{202c}"),
    (Class::LRO, "\u{202d}"),
    (Class::RLO, "\u{202e}"),
    (Class::LRI, "\u{2066}"),
    (Class::RLI, "\u{2067}"),
    (Class::FSI, "\u{2068}"),
    (Class::PDI, "\u{2069}"),
    (Class::L, "\u{200e}"),
    (Class::R, "\u{200f}"),
    (Class::AL, "\u{61c}"),
    (
        Class::BN,
        "\u{0}\u{8}\u{e}\u{1b}\u{7f}\u{84}\u{86}\u{9f}\u{ad}",
    ),
    (Class::BN, "\u{200b}\u{200d}\u{2060}\u{2064}\u{feff}"),
    (Class::ON, "\u{bc}\u{be}"),
    (
        Class::NSM,
        "\u{300}\u{36f}\u{483}\u{489}\u{591}\u{5bd}\u{64b}\u{65f}\u{20d0}",
    ),
    (Class::NSM, "\u{20f0}\u{1e8d0}\u{1e8d6}\u{1e944}\u{1e94a}"),
    (
        Class::R,
        "\u{590}\u{5ff}\u{7c0}\u{85f}\u{fb1d}\u{fb4f}\u{10800}\u{10cff}\u{10d40}",
    ),
    (
        Class::R,
        "\u{10ebf}\u{10f00}\u{10f2f}\u{10f70}\u{10fff}\u{1e800}\u{1ec6f}\u{1ecc0}\u{1ecff}",
    ),
    (Class::R, "\u{1ed50}\u{1edff}\u{1ef00}\u{1efff}"),
    (
        Class::AL,
        "\u{7bf}\u{860}\u{fb50}\u{fdcf}\u{fdf0}\u{fdff}\u{fe70}\u{10d00}\u{10d3f}",
    ),
    (
        Class::AL,
        "\u{10ec0}\u{10f30}\u{10f6f}\u{1ec70}\u{1ecbf}\u{1ed00}\u{1ed4f}\u{1ee00}\u{1eeff}",
    ),
    (Class::NSM, "\u{8ff}\u{10eff}"),
    (
        Class::L,
        "\u{41}\u{5a}\u{61}\u{7a}\u{aa}\u{c0}\u{d6}\u{903}\u{939}",
    ),
    (
        Class::L,
        "\u{4e00}\u{9fff}\u{1d400}\u{1d454}\u{20000}\u{2a6df}",
    ),
    (Class::NSM, "\u{900}"),
    (Class::ON, "\u{21}\u{22}\u{d7}\u{2010}\u{1f600}\u{10ffff}"),
];

// The character one past each of these ranges.
const PAST: &[(Class, &str)] = &[
    (
        Class::L,
        "\u{ba}\u{d8}\u{370}\u{48a}\u{1681}\u{2071}\u{212f}\u{a000}\u{11000}",
    ),
    (Class::R, "\u{5be}\u{1e8d7}\u{1e94b}"),
    (Class::AL, "\u{606}\u{60d}\u{61d}\u{66d}\u{6de}\u{6fa}"),
    (Class::NSM, "\u{901}\u{93a}\u{fe00}"),
    (
        Class::ON,
        "\u{26}\u{3b}\u{5b}\u{7b}\u{a1}\u{a6}\u{ab}\u{ae}\u{b4}",
    ),
    (
        Class::ON,
        "\u{bf}\u{2011}\u{2035}\u{2045}\u{2065}\u{206a}\u{207c}\u{208a}\u{20f1}",
    ),
    (
        Class::ON,
        "\u{2214}\u{3001}\u{fdd0}\u{ff00}\u{1d455}\u{1f000}\u{1f601}\u{2a6e0}",
    ),
];

#[test]
fn classes(rt: HostRuntime) {
    for (class, characters) in ENDS.iter().chain(PAST.iter()) {
        for c in characters.chars() {
            assert_eq!(rt; class_of(c), *class, "at U+{:04X}", c as u32);
        }
    }
}

#[test]
fn initiators(rt: HostRuntime) {
    for c in "\u{2066}\u{2067}\u{2068}".chars() {
        assert!(rt; is_initiator(c), "at U+{:04X}", c as u32);
    }
    for c in "a\u{200e}\u{202a}\u{202b}\u{2065}\u{2069}".chars() {
        assert!(rt; !is_initiator(c), "at U+{:04X}", c as u32);
    }
    law_pairs();
}

#[test]
fn brackets(rt: HostRuntime) {
    let pairs =
        "()[]{}\u{2045}\u{2046}\u{207d}\u{207e}\u{208d}\u{208e}\u{2768}\u{2769}\u{2774}\u{2775}\
        \u{27e6}\u{27e7}\u{27ee}\u{27ef}\u{3008}\u{3009}\u{3010}\u{3011}\u{3014}\u{3015}\u{301a}\u{301b}\
        \u{ff08}\u{ff09}\u{ff3b}\u{ff3d}\u{ff5b}\u{ff5d}";
    let mut characters = pairs.chars();
    while let (Some(opening), Some(closing)) = (characters.next(), characters.next()) {
        assert_eq!(rt; bracket_of(opening), Some(Bracket::Opens(closing)));
        assert_eq!(rt; bracket_of(closing), Some(Bracket::Closes(closing)));
    }
    assert_eq!(rt; bracket_of('\u{2329}'), Some(Bracket::Opens('\u{3009}')));
    assert_eq!(rt; bracket_of('\u{232a}'), Some(Bracket::Closes('\u{3009}')));
    for c in "<>\u{2767}\u{2776}\u{27e5}\u{27f0}\u{3007}\u{3012}\u{3013}\u{301c}\u{ff3c}\u{ff5e}\0\u{10ffff}".chars()
    {
        assert_eq!(rt; bracket_of(c), None, "at U+{:04X}", c as u32);
    }
}
