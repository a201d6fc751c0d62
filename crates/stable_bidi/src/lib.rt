//! Values keep the visual order of a page, as laws over definitions.
//!
//! Nothing here runs. Two pages of one template whose data make the same choices differ only in what their values hold;
//! `law_same_order` says that in each of their lines what is seen stands in the same order. The other laws say why:
//! such pages have the same static texts and values at the same points (`law_run_pages`), their lines are one list but
//! for what values hold (`law_page_lines`), and such lines have the same order (`law_lines_order`). `law_page_rows` and
//! `law_page_line_rows` are worked pages, for every text of their value.
//!
//! Depends on `bidi_order` for lines and their order, on `soy_pieces` and `soy_meaning` for runs, on `html_state`,
//! `bidi_text` and `bidi_class` for states, spans and classes, and, in proofs, on the crates below these.
#![tactic(auto)]

mod laws;
mod rows;

pub use laws::{
    law_lines_order, law_page_lines, law_part_lines, law_run_pages, law_same_order,
    law_wrapped_tokens,
};
pub use rows::{law_page_line_rows, law_page_rows};
