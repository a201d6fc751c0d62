//! A desk for a server of pages: up to 64 renderings that are open side by side and pulled in any order, while the
//! program for later ones is changed.
//!
//! A desk stands for a state of a plain machine (specs/DeskRun.antt), and each call is one step of it.
//! `law_many_renderings` says what that comes to, for every list of steps: what is given for a name is what its
//! rendering gives alone, and so the beginning of its own page.
//! Depends on soy_base, soy_tree, soy_rules, template_ir and render_core, and in the law on soy_pieces
//! and soy_meaning.
#![tactic(auto)]

mod desk;
mod fault;
mod laws;
mod slot;

pub use desk::Desk;
pub use fault::{DeskFault, Full, Unknown, Unopened};
pub use laws::{law_many_renderings, law_opening_is_meaning};
