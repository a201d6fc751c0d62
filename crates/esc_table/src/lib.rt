//! Escapes text by a table: each character that has a row becomes the row's text, and each other character stands for
//! itself.
//!
//! A `Table` is seen by contracts as its rows, each a character and the list of the characters of its text. What
//! `escape_into` appends is exactly `escaped_text` of the rows and the text's characters, and out of memory its target
//! is unchanged. `html` is the table that makes a text safe in HTML; other crates make more with `Table::new`. `Tail`
//! holds the bytes of one character, and gives them into rooms of any size. `laws` says what escaped texts do to the
//! state of whatever reads them.
//!
//! Depends on no other crate of the workspace.
#![tactic(auto)]

mod characters;
mod escape;
mod html_table;
mod laws;
mod memory;
mod table;
mod tail;

pub use escape::escape_into;
pub use html_table::html;
pub use laws::{law_escaped_text_keeps_states, law_joined_texts_keep_states};
pub use memory::OutOfMemory;
pub use table::{Row, Table};
pub use tail::Tail;
