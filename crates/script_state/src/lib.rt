//! Two machines that read a script and a style one character at a time, and say at each point
//! whether a printed value may stand there, and at which place.
//!
//! `step` moves a state exactly as the tables `js_next` and `css_next` say: it answers `Bad` exactly
//! where the table has no next state, and then leaves the state unchanged. `placing` is the table of
//! places, and `value` what a printed value does to the state. The laws say of every text what the
//! tables come to: where plain text, whole comments and whole string literals lead, and that a text
//! may be read in pieces.
//!
//! Each call is total and takes no memory. Depends on `soy_base` alone.
#![tactic(auto)]

mod css_state;
mod fault;
mod js_state;
mod laws;
mod rows;

pub use css_state::CssState;
pub use fault::Bad;
pub use js_state::JsState;
pub use laws::{
    law_plain_script, law_plain_style, law_script_comment, law_script_equality,
    law_script_in_pieces, law_script_literal, law_style_comment, law_style_equality,
    law_style_in_pieces, law_style_string, law_style_value,
};
