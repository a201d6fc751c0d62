//! The bidirectional class of a character, the bracket that it is, and the pairs of isolate controls of a text.
//!
//! `class_of` answers the first row that holds of a fixed table of classes, whose names are those of UAX #9; the table
//! goes by code points and, where no code point decides, by the character's general category. `is_initiator` is true of
//! the three characters that open an isolate. `bracket_of` answers which paired bracket a character is, by the closing
//! character of its pair. Each answers for every character, in a bounded number of steps and without memory.
//! `law_pairs` is about the definition of pairs, on which the crates above depend.
//!
//! Depends on the kit's `unicode`, for general categories.
#![tactic(auto)]

mod ascii;
mod blocks;
mod brackets;
mod category;
mod class;
mod laws;

pub use brackets::{Bracket, bracket_of};
pub use class::{Class, class_of, is_initiator};
pub use laws::law_pairs;
