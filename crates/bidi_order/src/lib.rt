//! Lines, levels and visual order of a page, as definitions, and laws over them.
//!
//! Nothing here runs: the definitions of specs/ are what the contracts of the crates above cite, and the law functions,
//! each a contract with an empty body, say what they come to. `lines` reads a page's pieces into lines, `line_levels`
//! is the levels of a line by UAX #9, `is_left_of` its visual order, and `is_within_limit` the depth up to which the
//! laws on values speak.
//!
//! Depends on `soy_base`, on `script_state` and `html_state` for the tokenizer's states, on `bidi_class` for the
//! classes of characters, on `bidi_text` for cleaned and wrapped texts, and, in proofs of worked lines, on the kit's
//! `ucd_category` and `ucd_table`.
#![tactic(auto)]

mod laws;
mod rows;

pub use laws::{law_delete_content, law_order, law_reset, law_same_line, law_turn_initiator};
pub use rows::{law_levels_rows, law_limit_rows, law_line_rows, law_order_rows};
