//! Templates that are kept.

use soy_front::{Compiled, Source};

/// Files that are compiled, with their names and their contents for the lines of faults.
#[derive(Drop)]
pub struct Templates {
    pub names: Vec<String>,
    pub sources: Vec<Source>,
    pub compiled: Compiled,
}
