//! The trees of files.

ghost use Rattle.std.specs.Prelude.{◌≡◌, IfOk};

use crate::{Node, SoyType};
use soy_base::{Kind, OutOfMemory, Seq, Span, Text};
use std::alloc::Global;

/// A file: its namespace and its templates.
#[derive(Drop)]
pub struct Tree {
    pub namespace: Text,
    pub templates: Seq<Template>,
}

/// A template; its name has no leading dot.
#[derive(Drop)]
pub struct Template {
    pub name: Text,
    pub kind: Kind,
    pub private: bool,
    pub params: Seq<Param>,
    pub body: Seq<Node>,
    pub span: Span,
}

/// A parameter of a template; `of` is its type as written, and one that isn't required also takes null.
#[derive(Drop)]
pub struct Param {
    pub name: Text,
    pub of: SoyType,
    pub required: bool,
    pub span: Span,
}

impl Param {
    /// An equal parameter.
    pub fn copy(&self, alloc: Global) -> Result<Param, OutOfMemory>
        ensures { IfOk result (λ p. p ≡ self.now) }
    {
        Ok(Param {
            name: self.name.copy(alloc)?,
            of: self.of.copy(alloc)?,
            required: self.required,
            span: self.span,
        })
    }
}
