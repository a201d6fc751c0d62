//! The order in which the lines of a page are seen, computed: levels (UAX #9, X1 to L1), their order (L2), and pages.
//!
//! `levels` answers exactly bidi_order's `line_levels` of a line of characters, or that memory ran out, in a time that
//! is linear in the line: of a line in which nothing turns at once, by its classes; of one that is a single sequence by
//! the rules on it; else the explicit levels in one pass with a stack, isolates matched in one pass with a stack, and
//! each isolating run sequence read, resolved in place and written once. `preview` answers exactly `seen` of a page, or
//! that memory ran out: the page is read twice, for the directions that go by content and for its lines. Depends on
//! bidi_order for the definitions, on html_state for the tokenizer's states, on bidi_class for classes and brackets,
//! and on soy_base.
#![tactic(auto)]

mod absent;
mod brackets;
mod direction;
mod explicit;
mod flat;
mod kept;
mod laws;
mod line;
mod lines;
mod links;
mod names;
mod neutral;
mod number;
mod open_names;
mod opened;
mod order;
mod page;
mod plain;
mod reading;
mod reference;
mod reset;
mod resolve;
mod sequence;
mod shown;
mod status;
mod weak;

pub use laws::law_seen_order;
pub use line::levels;
pub use page::{preview, show_page};
