//! Refusals of what fails a demand.

ghost use Rattle.std.specs.Prelude.{[], option_map};
ghost use Rattle.soy_rules.specs.Demands.{in_file};
ghost use Rattle.soy_rules.specs.TypeText.{type_text};
ghost use Rattle.soy_tree.specs.ViewTypes.{view_type};
ghost use Rattle.soy_expr.specs.ViewTypeFault.{Keeps};
ghost use Rattle.soy_check.specs.Answers.{KeepsFault, KeepsInFile, MaybeFault};

use crate::checker::CheckFault;
use soy_base::{Code, Fault, Refusal, Span, Text};
use soy_expr::{TypeFault, text_of};
use soy_tree::SoyType;
use std::alloc::Global;

/// The refusal that keeps a name.
pub(crate) fn misnamed(alloc: Global, code: Code, span: Span, name: &Text) -> Refusal<TypeFault>
    ensures { Keeps (record { code = code; at = span.start; left = name.now; right = [] }) result }
{
    match name.copy(alloc) {
        Ok(left) => Refusal::Because(TypeFault {
            code,
            at: span.start,
            left,
            right: Text::empty(alloc),
        }),
        Err(_) => Refusal::OutOfMemory,
    }
}

/// The refusal that keeps a type.
pub(crate) fn untyped(alloc: Global, code: Code, at: u64, of: &SoyType) -> Refusal<TypeFault>
    ensures { Keeps (record { code = code; at = at; left = type_text (view_type of.now); right = [] }) result }
{
    match text_of(alloc, of) {
        Ok(left) => Refusal::Because(TypeFault {
            code,
            at,
            left,
            right: Text::empty(alloc),
        }),
        Err(_) => Refusal::OutOfMemory,
    }
}

/// The refusal in a file.
pub(crate) fn refused_in(file: u32, refusal: Refusal<TypeFault>) -> Refusal<CheckFault>
    ensures { (wanted : MaybeFault) → KeepsFault wanted refusal
        → KeepsInFile (option_map (in_file file) wanted) result }
{
    match refusal {
        Refusal::OutOfMemory => Refusal::OutOfMemory,
        Refusal::Because(found) => Refusal::Because(CheckFault {
            fault: Fault {
                code: found.code,
                file,
                at: found.at,
            },
            left: found.left,
            right: found.right,
        }),
    }
}
