//! What a rendering is pulled with.

use soy_tree::Value;
use std::alloc::Global;
use template_ir::ProgramParts;

/// What a rendering is lent at each call, and its allocator.
#[derive(Clone, Copy)]
pub(crate) struct Scene<'p, 'i> {
    pub(crate) alloc: Global,
    pub(crate) program: &'p ProgramParts,
    pub(crate) input: &'i Value,
}
