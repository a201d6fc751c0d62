//! The classes of the blocks in which code points decide, each named after what it has.
ghost use Rattle.std.specs.Prelude.{◌≡◌, ◌≤◌};
ghost use Rattle.bidi_class.specs.Class.{bidi_class};

use crate::category::{category_class, unless_mark};
use crate::class::Class;

/// The class of a character from U+0080 to U+058F: Latin, Greek, Cyrillic and Armenian.
#[tactic(auto, using(crate::proofs::BlockSteps::latin_classes))]
pub(crate) fn latin_class(c: char) -> Class
    requires low { 0x80 ≤ c }
    requires high { c ≤ 0x58F }
    ensures { result ≡ bidi_class c }
{
    match c {
        '\u{c0}'..='\u{58f}' => category_class(c),
        '\u{85}' => Class::B,
        '\u{80}'..='\u{9f}' | '\u{ad}' => Class::BN,
        '\u{a0}' => Class::CS,
        '\u{a2}'..='\u{a5}' | '\u{b0}' | '\u{b1}' => Class::ET,
        '\u{b2}' | '\u{b3}' | '\u{b9}' => Class::EN,
        '\u{bc}'..='\u{be}' => Class::ON,
        _ => category_class(c),
    }
}

/// The class of a character from U+0590 to U+08FF: Hebrew, Arabic and their neighbors.
#[tactic(auto, using(crate::proofs::BlockSteps::right_to_left_classes))]
pub(crate) fn right_to_left_class(c: char) -> Class
    requires low { 0x590 ≤ c }
    requires high { c ≤ 0x8FF }
    ensures { result ≡ bidi_class c }
{
    match c {
        '\u{590}'..='\u{5ff}' | '\u{7c0}'..='\u{85f}' => unless_mark(c, Class::R),
        '\u{600}'..='\u{605}' | '\u{660}'..='\u{669}' | '\u{66b}' | '\u{66c}' | '\u{6dd}' => {
            Class::AN
        }
        '\u{6f0}'..='\u{6f9}' => Class::EN,
        '\u{66a}' => Class::ET,
        '\u{60c}' => Class::CS,
        '\u{61c}' => Class::AL,
        _ => unless_mark(c, Class::AL),
    }
}

/// The class of a character from U+0900 to U+1FFF: scripts of India and of other regions, with one space.
#[tactic(auto, using(crate::proofs::BlockSteps::indic_classes))]
pub(crate) fn indic_class(c: char) -> Class
    requires low { 0x900 ≤ c }
    requires high { c ≤ 0x1FFF }
    ensures { result ≡ bidi_class c }
{
    match c {
        '\u{1680}' => Class::WS,
        _ => category_class(c),
    }
}

/// The class of a character from U+2000 to U+202F: spaces, marks of direction, embeddings and overrides.
#[tactic(auto, using(crate::proofs::BlockSteps::spaces_classes))]
pub(crate) fn space_class(c: char) -> Class
    requires low { 0x2000 ≤ c }
    requires high { c ≤ 0x202F }
    ensures { result ≡ bidi_class c }
{
    match c {
        '\u{2000}'..='\u{200a}' | '\u{2028}' => Class::WS,
        '\u{200b}'..='\u{200d}' => Class::BN,
        '\u{200e}' => Class::L,
        '\u{200f}' => Class::R,
        '\u{2029}' => Class::B,
        '\u{202a}' => Class::LRE,
        '\u{202b}' => Class::RLE,
        '\u{202c}' => Class::PDF,
        '\u{202d}' => Class::LRO,
        '\u{202e}' => Class::RLO,
        '\u{202f}' => Class::CS,
        _ => category_class(c),
    }
}

/// The class of a character from U+2030 to U+206F: punctuation and isolate controls.
#[tactic(auto, using(crate::proofs::BlockSteps::punctuation_classes))]
pub(crate) fn punctuation_class(c: char) -> Class
    requires low { 0x2030 ≤ c }
    requires high { c ≤ 0x206F }
    ensures { result ≡ bidi_class c }
{
    match c {
        '\u{2030}'..='\u{2034}' => Class::ET,
        '\u{2044}' => Class::CS,
        '\u{205f}' => Class::WS,
        '\u{2060}'..='\u{2064}' => Class::BN,
        '\u{2066}' => Class::LRI,
        '\u{2067}' => Class::RLI,
        '\u{2068}' => Class::FSI,
        '\u{2069}' => Class::PDI,
        _ => category_class(c),
    }
}

/// The class of a character from U+2070 to U+2213: superscripts, subscripts, currencies and operators.
#[tactic(auto, using(crate::proofs::BlockSteps::symbols_classes))]
pub(crate) fn symbol_class(c: char) -> Class
    requires low { 0x2070 ≤ c }
    requires high { c ≤ 0x2213 }
    ensures { result ≡ bidi_class c }
{
    match c {
        '\u{2070}' | '\u{2074}'..='\u{2079}' | '\u{2080}'..='\u{2089}' => Class::EN,
        '\u{207a}' | '\u{207b}' | '\u{2212}' => Class::ES,
        '\u{20a0}'..='\u{20cf}' | '\u{212e}' | '\u{2213}' => Class::ET,
        _ => category_class(c),
    }
}

/// The class of a character from U+2214 to U+FB1C: symbols and East Asian scripts, with one space.
#[tactic(auto, using(crate::proofs::BlockSteps::east_asian_classes))]
pub(crate) fn east_asian_class(c: char) -> Class
    requires low { 0x2214 ≤ c }
    requires high { c ≤ 0xFB1C }
    ensures { result ≡ bidi_class c }
{
    match c {
        '\u{3000}' => Class::WS,
        _ => category_class(c),
    }
}

/// The class of a character from U+FB1D to U+FEFF: presentation forms of Hebrew and Arabic.
#[tactic(auto, using(crate::proofs::BlockSteps::presentation_classes))]
pub(crate) fn presentation_class(c: char) -> Class
    requires low { 0xFB1D ≤ c }
    requires high { c ≤ 0xFEFF }
    ensures { result ≡ bidi_class c }
{
    match c {
        '\u{fb1d}'..='\u{fb4f}' => unless_mark(c, Class::R),
        '\u{fb50}'..='\u{fdcf}' | '\u{fdf0}'..='\u{fdff}' | '\u{fe70}'..='\u{fefe}' => {
            unless_mark(c, Class::AL)
        }
        '\u{feff}' => Class::BN,
        _ => category_class(c),
    }
}

/// The class of a character from U+10800 to U+10FFF: old right-to-left scripts.
#[tactic(auto, using(crate::proofs::BlockSteps::old_scripts_classes))]
pub(crate) fn old_script_class(c: char) -> Class
    requires low { 0x10800 ≤ c }
    requires high { c ≤ 0x10FFF }
    ensures { result ≡ bidi_class c }
{
    match c {
        '\u{10d00}'..='\u{10d3f}' | '\u{10ec0}'..='\u{10eff}' | '\u{10f30}'..='\u{10f6f}' => {
            unless_mark(c, Class::AL)
        }
        _ => unless_mark(c, Class::R),
    }
}

/// The class of a character from U+1E800 to U+1EFFF: younger right-to-left scripts and Arabic mathematical letters.
#[tactic(auto, using(crate::proofs::BlockSteps::new_scripts_classes))]
pub(crate) fn new_script_class(c: char) -> Class
    requires low { 0x1E800 ≤ c }
    requires high { c ≤ 0x1EFFF }
    ensures { result ≡ bidi_class c }
{
    match c {
        '\u{1ec70}'..='\u{1ecbf}' | '\u{1ed00}'..='\u{1ed4f}' | '\u{1ee00}'..='\u{1eeff}' => {
            unless_mark(c, Class::AL)
        }
        _ => unless_mark(c, Class::R),
    }
}
