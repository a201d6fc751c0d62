//! The fault of an expression that has no type.

ghost use Rattle.std.specs.Prelude.{[]};
ghost use Rattle.soy_base.specs.declared.code.Code.TheVariants as code;
ghost use Rattle.soy_rules.specs.TypeText.{type_text};
ghost use Rattle.soy_tree.specs.ViewTypes.{view_type};
ghost use Rattle.soy_expr.specs.ViewTypeFault.{Keeps};

use crate::type_text::text_of;
use soy_base::{Code, Refusal, Span, Text};
use soy_tree::SoyType;
use std::alloc::Global;

/// What is wrong (7 or 8), at which offset, and the name or the types of both operands.
#[derive(Debug, Drop)]
pub struct TypeFault {
    pub code: Code,
    pub at: u64,
    pub left: Text,
    pub right: Text,
}

/// The refusal of a name that isn't there.
pub(crate) fn unknown(alloc: Global, span: Span, name: &Text) -> Refusal<TypeFault>
    ensures { Keeps (record { code = code.Unknown; at = span.start; left = name.now; right = [] }) result }
{
    match name.copy(alloc) {
        Ok(left) => Refusal::Because(TypeFault {
            code: Code::Unknown,
            at: span.start,
            left,
            right: Text::empty(alloc),
        }),
        Err(_) => Refusal::OutOfMemory,
    }
}

/// The refusal of a type rule that was asked of one type.
pub(crate) fn mistyped(alloc: Global, span: Span, left: &SoyType) -> Refusal<TypeFault>
    ensures { Keeps (record {
      code = code.Mistyped;
      at = span.start;
      left = type_text (view_type left.now);
      right = [];
    }) result }
{
    match text_of(alloc, left) {
        Ok(left) => Refusal::Because(TypeFault {
            code: Code::Mistyped,
            at: span.start,
            left,
            right: Text::empty(alloc),
        }),
        Err(_) => Refusal::OutOfMemory,
    }
}

/// The refusal of a type rule that was asked of two types: 8 at the start of `span`, in bytes, with the texts of `left`
/// and `right`; or that memory ran out.
pub fn both_mistyped(
    alloc: Global,
    span: Span,
    left: &SoyType,
    right: &SoyType,
) -> Refusal<TypeFault>
    ensures { Keeps (record {
      code = code.Mistyped;
      at = span.start;
      left = type_text (view_type left.now);
      right = type_text (view_type right.now);
    }) result }
{
    let Ok(left) = text_of(alloc, left) else {
        return Refusal::OutOfMemory;
    };
    match text_of(alloc, right) {
        Ok(right) => Refusal::Because(TypeFault {
            code: Code::Mistyped,
            at: span.start,
            left,
            right,
        }),
        Err(_) => Refusal::OutOfMemory,
    }
}
