//! The state of an HTML tokenizer at each character of a page, and what happens to a value that is printed there.
//!
//! A `State` is made for a kind of text (`State::start`) and read on a character at a time: `step` for a character of
//! static text, `value_step` for one of a value, `value` for the mark that a printed value leaves, `end_text` for the
//! end of a static text. `placing` says what happens to a value, `may_end` whether a text of a kind may end, `part`
//! the part of the markup that a state is in, `row` its row of the table, for whoever cuts a page into tags. Each call
//! is one equation with the tables of specs/. Two states are equal exactly where they keep the same row, with what the
//! row keeps, and the same reference. A state is copied and takes no memory.
//! Depends on soy_base and script_state.
#![tactic(auto)]

mod attribute;
mod declaration;
mod element;
mod laws;
mod markup;
mod name;
mod names;
mod number;
mod place;
mod prefix;
mod reference;
mod row;
mod state;
mod tag;
mod text;
mod uri;

pub use laws::{
    law_equal_states, law_equality, law_joined_pieces, law_joined_texts, law_kept_place,
    law_page_frame, law_page_place, law_page_step, law_page_text_end, law_page_value,
    law_plain_text, law_quoted_text,
};
pub use row::{Element, HtmlRow, Part, State, Tag, TagKind, TagRow};
