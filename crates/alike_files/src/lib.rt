//! Trees that are alike, as laws over definitions: they have the same ids and, but for positions, the same catalogue,
//! and their templates mean the same for all data and bundles.
//!
//! Nothing here runs. Trees are alike where they are equal without their spans, and each law goes by equations: what a
//! definition says of a tree without spans is what it says of the tree, without positions. So the proofs have one lemma
//! for each definition between a tree and a page.
//!
//! Depends on `soy_format` for trees without spans, on `soy_pieces` and `soy_meaning` for what a template gives, on
//! `msg_extract` for ids, and on the crates below these.
#![tactic(auto)]

mod laws;
mod rows;

pub use laws::{law_alike_ids, law_alike_meaning};
pub use rows::law_alike_rows;
