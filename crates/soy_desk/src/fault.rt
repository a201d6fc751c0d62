//! What is answered by a call of a desk that is refused.

use soy_base::{Refusal, TooDeep};
use soy_tree::Value;

/// 64 renderings are open.
#[derive(Clone, Copy, Debug, PartialEq, Eq)]
pub struct Full;

/// No rendering of the name is open.
#[derive(Clone, Copy, Debug, PartialEq, Eq)]
pub struct Unknown;

/// Why a pull gives nothing: no rendering of the name is open, or the page ends at a call that nests too deep.
#[derive(Clone, Copy, Debug, PartialEq, Eq)]
pub enum DeskFault {
    Unknown,
    TooDeep(TooDeep),
}

/// An opening that was refused, with the input that it was given.
#[derive(Drop)]
pub struct Unopened {
    pub cause: Refusal<Full>,
    pub input: Value,
}
