//! The direction of a value's text, the text cleaned of stray isolate controls, and the text wrapped for HTML.
//!
//! `estimate` counts words and answers `estimated_direction` of the text and the context's direction;
//! `ascii_direction` answers the same of a text of ASCII, whose words it doesn't count. `marks` answers
//! `dropped_bytes`: the byte offsets of the isolate controls that are in no pair. `wrap` answers `wrapped_text`: a
//! `span` with the estimated direction around the cleaned and escaped text. `marks` and `wrap` may also be out of
//! memory.
//!
//! Depends on `bidi_class` for the classes of characters and the pairs of isolate controls, on `esc_table` for the rows
//! of HTML, and on `soy_base`.
#![tactic(auto)]

mod cleaning;
mod controls;
mod dropped;
mod laws;
mod words;
mod wrapping;

pub use controls::marks;
pub use dropped::Marks;
pub use laws::law_cleaned;
pub use words::{ascii_direction, estimate};
pub use wrapping::wrap;
