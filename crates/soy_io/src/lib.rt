//! What a program reads from and writes to: a `Library` of named files and a `Sink` of bytes.
//!
//! Contracts see of a `Library` what it holds, and of a `Sink` what it has taken, each where it is known, and of both a
//! count of faults that never falls. A fetch or a put answers `Failed` only where that count rose, leaves what the
//! library holds, and appends or takes all that it says and nothing else. `put_all` puts a whole list of bytes, however
//! short each put is.
//!
//! `PlainLibrary` and `PlainSink` never fail; `MemoryLibrary` and `MemorySink` fail at chosen calls. What all four hold
//! or have taken is known. Depends on `thiserror` for the texts of faults.
#![tactic(auto)]

mod failing;
mod files;
mod laws;
mod library;
mod plain;
mod sink;

pub use failing::{MemoryLibrary, MemorySink};
pub use files::NamedFile;
pub use laws::law_taken_in_parts;
pub use library::{Fetch, FetchFault, Library};
pub use plain::{PlainLibrary, PlainSink};
pub use sink::{PutAll, PutFault, Sink, put_all};
