//! The type and the value of an expression.
//!
//! `type_of` gives the type that the rules give, or refuses with their first fault. `eval` and `test` give the value
//! and the truth of an expression under an environment, and count the nodes that are valued. `evaluate`, which they are
//! made of, takes variables from whatever finds them by name, and answers a reference with the part of the value that
//! it names, uncopied. `VisibleVariables` are the variables that are visible, with their types, which `narrow_variables`
//! changes as a condition does and `restore` puts back. Depends on soy_base, soy_tree, soy_rules and indexmap.
#![tactic(auto)]

mod access;
mod access_type;
mod arithmetic;
mod ascii;
mod calls;
mod comparison;
mod declared_type;
mod env;
mod evaluated;
mod evaluation;
mod joining;
mod joining_by_text;
mod laws;
mod member_kind;
mod narrowing;
mod operator_type;
mod operators;
mod scope;
mod shallow;
mod type_fault;
mod type_key;
mod type_text;
mod typing;
mod variable_types;
mod variables;
mod visible_variables;

pub use calls::{eval, test};
pub use comparison::is_same;
pub use declared_type::{kind_type, param_type};
pub use env::{Binding, Bound, Env, Unnamed};
pub use evaluated::{Evaluated, Made};
pub use evaluation::evaluate;
pub use joining::joined;
pub use laws::law_forgotten;
pub use member_kind::{has_block, is_block, is_int, is_simple, is_string};
pub use narrowing::{Outside, narrow_variables, restore};
pub use scope::Scope;
pub use shallow::Shallow;
pub use type_fault::{TypeFault, both_mistyped};
pub use type_text::text_of;
pub use typing::{type_among, type_by, type_of};
pub use variable_types::VariableTypes;
pub use variables::Variables;
pub use visible_variables::VisibleVariables;
