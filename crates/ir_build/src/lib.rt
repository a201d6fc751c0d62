//! The compiler: from typed trees, the places of their holes and a bundle to a program.
//!
//! `build` makes the ops of each template in one pass over its nodes. Its clause is `Compiles` of template_ir: each
//! command is one op, a message is the ops of the text that the bundle chooses, and the blocks inside of a list of
//! nodes stand before the list's own ops. Depends on soy_base, plural_rules, soy_tree, soy_rules, soy_pieces,
//! soy_meaning, html_state, msg_extract and template_ir.
#![tactic(auto)]

mod bodies;
mod building;
mod calls;
mod commands;
mod known_names;
mod laws;
mod messages;
mod output;
mod parts;
mod placeholders;
mod scene;
mod source;
mod templates;

pub use building::{build, program_parts};
pub use laws::{law_fitting_program, law_fitting_translations};
