//! `soyc` as a library for C: one call that does all that the program does, over words and files in memory; and calls
//! that keep compiled templates and pages in slots of the caller's.
//!
//! `soyc_run` is given bytes, and which parts of them are the words of a command and the names and contents of its
//! files. What the program would write to its two streams comes into two rooms of the caller, as much of it as fits,
//! with both whole lengths, and the status is the program's exit status. Parts that can't be read have a status of
//! their own. `soyc_compile` fills a slot with templates and `soyc_open` another with a page of them, `soyc_pull` gives
//! the next bytes of a page, and `soyc_close` and `soyc_free` empty a slot. Depends on soy_top for `run` and for the
//! lines of faults, on soy_io for a library and sinks in memory, on soy_front for compiled files, and on soy_page for
//! pages.
#![tactic(auto)]

mod calls;
mod compiled;
mod detail_text;
mod exported;
mod held;
mod loose;
mod opened;
mod parts;
mod reply;
mod report;
mod room;
mod said;
mod slot;
mod text_parts;
mod unfilled;
