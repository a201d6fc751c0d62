//! The classes, and the class of any character.
ghost use Rattle.std.specs.Prelude.{◌≡◌};
ghost use Rattle.bidi_class.specs.Class.{begins_isolate, bidi_class};

use crate::ascii::ascii_class;
use crate::blocks::{
    east_asian_class, indic_class, latin_class, new_script_class, old_script_class,
    presentation_class, punctuation_class, right_to_left_class, space_class, symbol_class,
};
use crate::category::category_class;

/// A bidirectional class, by its name in UAX #9, table 4.
#[derive(Clone, Copy, Debug, PartialEq, Eq)]
pub enum Class {
    L,
    R,
    AL,
    EN,
    ES,
    ET,
    AN,
    CS,
    NSM,
    BN,
    B,
    S,
    WS,
    ON,
    LRE,
    LRO,
    RLE,
    RLO,
    PDF,
    LRI,
    RLI,
    FSI,
    PDI,
}

/// The class of `c`: that of the first row of the table that covers it, and ON where none does.
#[tactic(auto, using(crate::proofs::BlockSteps::other_classes))]
pub fn class_of(c: char) -> Class
    ensures { result ≡ bidi_class c }
{
    match c {
        '\0'..='\u{7f}' => ascii_class(c),
        '\u{80}'..='\u{58f}' => latin_class(c),
        '\u{590}'..='\u{8ff}' => right_to_left_class(c),
        '\u{900}'..='\u{1fff}' => indic_class(c),
        '\u{2000}'..='\u{202f}' => space_class(c),
        '\u{2030}'..='\u{206f}' => punctuation_class(c),
        '\u{2070}'..='\u{2213}' => symbol_class(c),
        '\u{2214}'..='\u{fb1c}' => east_asian_class(c),
        '\u{fb1d}'..='\u{feff}' => presentation_class(c),
        '\u{10800}'..='\u{10fff}' => old_script_class(c),
        '\u{1e800}'..='\u{1efff}' => new_script_class(c),
        _ => category_class(c),
    }
}

/// Whether `c` opens an isolate: U+2066, U+2067 or U+2068, of the classes LRI, RLI and FSI.
pub fn is_initiator(c: char) -> bool
    ensures { result ≡ begins_isolate (bidi_class c) }
{
    matches!(class_of(c), Class::LRI | Class::RLI | Class::FSI)
}
