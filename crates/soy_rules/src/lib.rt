//! The rules of types, values and messages, over the trees of files.
//!
//! `accepts` says which type accepts which, and `narrow` takes null away from a type. `all_templates` lists the
//! templates of all files, with the names that `called_name` gives to calls. `Typed` holds trees of which
//! everything is true that the checker demands. In specs/ are the definitions that other crates cite.
//! Depends on soy_base, soy_tree and plural_rules.
#![tactic(auto)]

mod acceptance;
mod acceptance_by_names;
mod field_names;
mod laws;
mod names;
mod narrowing;
mod template;
mod templates;
mod typed;

pub use acceptance::accepts;
pub use acceptance_by_names::accepts_by_names;
pub use laws::{
    law_accepted_value, law_accepts_by_members, law_branch, law_cost, law_joined, law_narrow,
    law_placeholder_names, law_value_type,
};
pub use names::Names;
pub use narrowing::{narrow, union_of};
pub use template::Declared;
pub use templates::{Templates, all_templates, called_name};
pub use typed::Typed;
