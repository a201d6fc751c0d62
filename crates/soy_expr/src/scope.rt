//! The types of the variables that are visible.

use soy_base::Seq;
use soy_tree::Field;

/// The variables that are visible, with their types; of two of one name the first counts.
#[derive(Drop)]
pub struct Scope {
    pub vars: Seq<Field>,
}
