//! The parts of a text of ICU messages, read piece by piece: a stack holds the plurals and selects that are open, so
//! that no text makes it recurse.
//!
//! `parse_message` gives the parts exactly where the text is a pattern by `IsPattern` of soy_rules, and is refused
//! elsewhere, with the length in bytes of the longest prefix of the text that begins a pattern. Depends on soy_base,
//! soy_tree, soy_rules and plural_rules.
#![tactic(auto)]

mod close;
mod head;
mod key;
mod laws;
mod number;
mod parse;
mod plain;
mod plural;
mod reader;
mod rows;
mod scan;
mod select;
mod state;
mod word;

pub use laws::law_one_pattern;
pub use parse::parse_message;
