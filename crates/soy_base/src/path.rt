//! The way to a value inside data.

use crate::Text;

/// A step into a value: to a member of a record by its key, or to an item of a list by its index, from 0.
#[derive(Debug, PartialEq, Eq, Drop)]
pub enum PathStep {
    Key(Text),
    Index(u64),
}
