//! What the ops of a template go by.

use msg_extract::Translations;
use soy_base::{Place, Text};
use soy_rules::Templates;
use soy_tree::Param;
use std::alloc::Global;

/// The file, the namespace and the parameters of a template, the templates of all files, the bundle that brings the
/// translations of messages, and the places of all holes.
#[derive(Drop)]
pub(crate) struct Scene<'a> {
    pub alloc: Global,
    pub file: u32,
    pub namespace: &'a Text,
    pub params: &'a [Param],
    pub declared: &'a Templates<'a>,
    pub bundle: &'a Translations<'a>,
    pub places: &'a [Place],
}
