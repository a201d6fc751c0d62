//! Files.

use soy_base::{Seq, Text};

/// A file: its name and its bytes.
#[derive(Drop)]
pub struct Source {
    pub name: Text,
    pub bytes: Seq<u8>,
}
