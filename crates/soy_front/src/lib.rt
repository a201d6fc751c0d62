//! Files as one: the trees of their texts, their catalogue, the bundle and the places of holes; or the first fault of
//! all, in the order in which a run says faults.
//!
//! `accept` is yes exactly where `Accepted` holds of the contents of the files and the bundle. Its parts are handed out
//! too, for commands that need less: `read_source` for one file by itself, `read_files` for the trees and the
//! catalogue of all, and `accept_language` for one bundle after another beside the same files. `compile` makes the
//! program of what is accepted. With a fault goes what checker and walk keep beside it (`Detail`).
//! Depends on soy_lexer, soy_parser, soy_check, msg_extract, msg_bundle, html_context, ir_build and the crates below
//! them.
#![tactic(auto)]

mod accepting;
mod compiling;
mod fault;
mod files;
mod laws;
mod source;
mod sources;

pub use accepting::{AcceptedFiles, Language, accept, accept_language};
pub use compiling::{Compiled, compile, compile_read, entry_number};
pub use fault::{Detail, Detailed, FrontFault, FrontRefusal};
pub use files::{ReadFiles, read_files};
pub use laws::{
    law_data_fits, law_detail, law_files, law_first_fault, law_front_answer, law_source_answer,
};
pub use source::Source;
pub use sources::read_source;
