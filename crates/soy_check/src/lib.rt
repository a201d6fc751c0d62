//! What is demanded of the trees of all files.
//!
//! `check` gives the trees unchanged where every demand holds of them, and else the first failure: what is wrong, in
//! which file, at which offset, and the two names or types that differ. There are two passes over all files,
//! declarations and bodies.
//! Depends on soy_base, soy_tree, soy_rules, whose definitions it decides, soy_expr for the variables and the types of
//! expressions, and indexmap for names.
#![tactic(auto)]

mod around;
mod bodies;
mod calls;
mod checker;
mod commands;
mod declarations;
mod faults;
mod names;
mod names_given;
mod template;
mod templates;
mod type_faults;
mod variables;

pub use checker::{CheckFault, check};
