//! Tests of the crates of places and escapers: of script_state, html_state, escapers, bidi_text and value_cursor. They
//! stand apart from these, since a check of a crate's tests proves the crate anew. Nothing is handed out. Depends on
//! what they depend on, and on them.
#![tactic(auto)]

#[cfg(test)]
mod cursors;
#[cfg(test)]
mod directions;
#[cfg(test)]
mod forms;
#[cfg(test)]
mod pages;
#[cfg(test)]
mod scripts;
