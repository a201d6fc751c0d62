//! The isolate controls that are dropped from a text.
use soy_base::Seq;

/// The isolate controls of a text that are in no pair, and so are no part of the cleaned text.
#[derive(Debug, Drop)]
pub struct Marks {
    /// The byte offsets at which they begin, ascending.
    pub places: Seq<u64>,
}
