//! What the walk of a translation goes by.

use crate::fault::Site;
use msg_extract::{NamedMessage, NamedPlaceholders};
use soy_expr::VisibleVariables;
use std::alloc::Global;

/// The site of a message, the variables that are visible there, the message and its placeholders.
#[derive(Drop)]
pub(crate) struct Source<'a> {
    pub alloc: Global,
    pub at: Site,
    pub vars: &'a VisibleVariables,
    pub message: &'a NamedMessage<'a>,
    pub placeholders: &'a NamedPlaceholders<'a>,
}
