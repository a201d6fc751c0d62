//! The place of each hole of typed trees, by all paths at once.
//!
//! `infer` walks the templates of all files as soy_meaning's walk says: states that are carried together, at most 16,
//! through each static text, hole, arm, turn of a loop, message and translation. It gives the places of the holes in
//! the order in which the walk first meets them, or the first fault. A bundle brings the translations of messages.
//! Each template is first followed by sets of states, which covers it in linear time unless it has a fault; the first
//! fault is then found by the lists that the walk carries.
//! Depends on soy_base, soy_tree, soy_rules, soy_expr, html_state, msg_extract, soy_pieces and soy_meaning.
#![tactic(auto)]

mod builder;
mod classes;
mod compiling;
mod cover;
mod fault;
mod heads;
mod hole;
mod inferring;
mod memo;
mod parts;
mod scope;
mod source;
mod states;
mod table;
mod templates;
mod text;
mod walker;
mod writing;

pub use fault::PlaceFault;
pub use inferring::infer;
