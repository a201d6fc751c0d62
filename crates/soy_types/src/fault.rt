//! What data are refused with.

use soy_base::{Code, PathStep, Seq};

/// Why data are refused, and the path to the part that doesn't fit; data that are no JSON have none.
#[derive(Drop)]
pub struct DataFault {
    pub code: Code,
    pub path: Seq<PathStep>,
}
