//! The types of the variables that parameters and blocks declare.

ghost use Rattle.std.specs.Prelude.{◌≡◌, IfOk};
ghost use Rattle.soy_rules.specs.Templates.{kind_type, param_type};
ghost use Rattle.soy_tree.specs.ViewTrees.{view_param};
ghost use Rattle.soy_tree.specs.ViewTypes.{view_type};

use crate::joined;
use soy_base::{Kind, OutOfMemory};
use soy_tree::{Param, SoyType};
use std::alloc::Global;

/// The type of a parameter; one that isn't required also takes null.
pub fn param_type(alloc: Global, param: &Param) -> Result<SoyType, OutOfMemory>
    ensures { IfOk result (λ t. view_type t ≡ param_type (view_param param.now)) }
{
    if param.required {
        param.of.copy(alloc)
    } else {
        joined(alloc, &param.of, &SoyType::Null)
    }
}

/// The type of the variable of a block of a kind.
pub fn kind_type(kind: Kind) -> SoyType
    ensures { view_type result ≡ kind_type kind }
{
    match kind {
        Kind::Html => SoyType::Html,
        Kind::Attributes => SoyType::Attributes,
        Kind::Text => SoyType::Str,
    }
}
