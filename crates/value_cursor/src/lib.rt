//! Gives the escaped form of a value on demand: its bytes, into rooms of any size, without the form being held.
//!
//! `Cursor::begin` makes a cursor for a text, `left` says how many bytes it still has to give, and `fill` gives the
//! next of them to the beginning of a room. A cursor keeps offsets in the text, and is handed the text again at each
//! call. Its public contracts are over `bytes_left`: at first the whole escaped form (`esc` of `escapers`, or
//! `wrapped_text` of `bidi_text`), and after each `fill` what follows the bytes that it gave. Only `begin` may be out
//! of memory, and only for a wrapped text that has an isolate initiator. `give_whole` gives most forms at once where the
//! room is ample, without a cursor.
//!
//! Depends on `soy_base`, `esc_table`, `escapers`, `bidi_class` and `bidi_text`.
#![tactic(auto)]

mod ascii_forms;
mod cleaning;
mod cursor;
mod laws;
mod plain;
mod plan;
mod progress;
mod runs;
mod shares;
mod whole;

pub use cursor::Cursor;
pub use laws::law_rooms_joined;
pub use whole::give_whole;
