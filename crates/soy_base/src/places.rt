//! The places of holes.

use crate::{Place, Seq};

/// The place of each hole of templates, in the order in which the walk first meets it: of each print and call, of each
/// `#` of a translation, and of the prints of each use of a placeholder there.
#[derive(Debug, Drop)]
pub struct Places {
    pub prints: Seq<Place>,
}
