//! Canonical source: how the tree of a file is written, so that files that say the same look the same.
//!
//! `format` answers exactly the text that specs/Formatted.antt gives for the tree, or that memory ran out. Comments and
//! layout aren't in a tree, so they aren't kept. `law_alike_trees` says that trees that differ in spans alone are
//! written alike. Depends on soy_base, soy_tree, soy_rules and soy_expr, which writes types.
#![tactic(auto)]

mod ascii;
mod attribute;
mod commands;
mod expression;
mod laws;
mod nodes;
mod string;
mod text;
mod tree;

pub use laws::law_alike_trees;
pub use tree::format;
