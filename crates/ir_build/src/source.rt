//! What the ops of a translation go by.

use msg_extract::{NamedMessage, NamedPlaceholders, Selector};
use soy_base::Place;
use std::alloc::Global;

/// What the ops of a translation go by: the message, its placeholders and its selectors, and the places of all holes.
#[derive(Drop)]
pub(crate) struct Source<'a> {
    pub alloc: Global,
    pub message: &'a NamedMessage<'a>,
    pub placeholders: &'a NamedPlaceholders<'a>,
    pub selectors: &'a [Selector],
    pub places: &'a [Place],
}
