//! A large input for the whole product that a number decides, the same at each run.
//!
//! `make` gives the workload of a number: the text of one source file, data as JSON and the name of the template to
//! render. Each character of them is pinned; running out of memory is the one answer that is free. Depends on soy_base.
#![tactic(auto)]

mod data;
mod draws;
mod source;
mod workload;

pub use workload::{Workload, make};
