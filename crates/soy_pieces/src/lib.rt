//! What a template gives under data: its pieces, their costs and choices, and its end; and what a value becomes at a
//! place.
//!
//! Nothing here runs: the definitions of specs/ are what `answer` and the contracts of the crates above cite. The
//! law functions, each a contract with an empty body, say what they come to.
//! Depends on soy_base, soy_tree, soy_rules, plural_rules, html_state, escapers and bidi_text, and in proofs on
//! bidi_class.
#![tactic(auto)]

mod laws;

pub use laws::{law_outcomes, law_run_rows, law_value_texts};
