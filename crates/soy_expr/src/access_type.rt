//! The types of accesses.

ghost use Rattle.std.specs.Prelude.{◌≡◌, true, IfOk, if◌then◌else◌, option_map};
ghost use Rattle.soy_rules.specs.Members.{joined};
ghost use Rattle.soy_rules.specs.TypeOf.{field_type, fitting, index_type, member_type};
ghost use Rattle.soy_tree.specs.Types.{NullType};
ghost use Rattle.soy_tree.specs.ViewTypes.{view_fields, view_type};
ghost use Rattle.soy_expr.specs.Rules.{index_access, member_access};
ghost use Rattle.soy_expr.specs.ViewTypeFault.{Types};
ghost use Rattle.soy_expr.specs.ViewTyping.{view_typing};

use crate::TypeFault;
use crate::joining::joined;
use crate::member_kind::{has_null, is_int, is_string};
use crate::type_fault::{both_mistyped, mistyped, unknown};
use crate::typing::Typing;
use soy_base::{OutOfMemory, Refusal, Span, Text};
use soy_rules::narrow;
use soy_tree::{Field, SoyType};
use std::alloc::Global;

/// The type of `.x` or `?.x`.
pub(crate) fn member_type<'a>(
    alloc: Global,
    span: Span,
    of: Typing<'a>,
    name: &Text,
    takes_null: bool,
) -> Result<Typing<'a>, Refusal<TypeFault>>
    ensures { Types view_typing (member_access takes_null name.now span (view_typing of.entry)) result }
{
    if takes_null {
        return Ok(Typing::Made(member_or_null(alloc, span, of.get(), name)?));
    }
    match of {
        Typing::Declared(of) => Ok(Typing::Declared(field_of(alloc, span, of, of, name)?)),
        Typing::Made(of) => Ok(Typing::Made(field_of(alloc, span, &of, &of, name)?.copy(alloc)?)),
    }
}

/// The type of `?.x`.
#[tactic(auto, using(crate::proofs::Refusals::refused_first))]
fn member_or_null(
    alloc: Global,
    span: Span,
    of: &SoyType,
    name: &Text,
) -> Result<SoyType, Refusal<TypeFault>>
    ensures { Types view_type (member_access true name.now span (view_type of.now)) result }
{
    let accessed = narrow(alloc, of)?;
    let field = field_of(alloc, span, of, &accessed, name)?;
    Ok(with_null(alloc, field, has_null(of))?)
}

/// The type, with null where the access takes it.
fn with_null(alloc: Global, of: &SoyType, takes: bool) -> Result<SoyType, OutOfMemory>
    ensures { IfOk result (λ t. view_type t
        ≡ (if takes then joined (view_type of.now) NullType else view_type of.now)) }
{
    if takes {
        joined(alloc, of, &SoyType::Null)
    } else {
        of.copy(alloc)
    }
}

/// The type of the field of a name in a record type; a fault keeps the left type.
fn field_of<'a>(
    alloc: Global,
    span: Span,
    left: &SoyType,
    of: &'a SoyType,
    name: &Text,
) -> Result<&'a SoyType, Refusal<TypeFault>>
    ensures { Types (λ t. view_type t.now) (member_type name.now span (view_type left.now) (view_type of.now)) result }
{
    let SoyType::Fields(fields) = of else {
        return Err(mistyped(alloc, span, left));
    };
    match field_type(fields.items(), name) {
        Some(of) => Ok(of),
        None => Err(unknown(alloc, span, name)),
    }
}

fn field_type<'a>(fields: &'a [Field], name: &Text) -> Option<&'a SoyType>
    ensures { option_map (λ t. view_type t.now) result ≡ field_type name.now (view_fields fields.now) }
{
    for field in fields {
        if field.name.is(name.text()) {
            return Some(&field.of);
        }
    }
    None
}

/// The type of `[e]` or `?[e]`.
#[tactic(auto, using(crate::proofs::Refusals::refused_first))]
pub(crate) fn index_type(
    alloc: Global,
    span: Span,
    of: &SoyType,
    index: &SoyType,
    takes_null: bool,
) -> Result<SoyType, Refusal<TypeFault>>
    ensures { Types view_type (index_access takes_null span (view_type of.now) (view_type index.now)) result }
{
    if !takes_null {
        return item_type(alloc, span, of, of, index);
    }
    let accessed = narrow(alloc, of)?;
    let item = item_type(alloc, span, of, &accessed, index)?;
    Ok(with_null(alloc, &item, has_null(of))?)
}

/// The type of what an index finds in a list or map type; a fault keeps the left type.
fn item_type(
    alloc: Global,
    span: Span,
    left: &SoyType,
    of: &SoyType,
    index: &SoyType,
) -> Result<SoyType, Refusal<TypeFault>>
    ensures { Types view_type (index_type span (view_type left.now) (view_type of.now) (view_type index.now)) result }
{
    match of {
        SoyType::List(item) => item_or_null(alloc, span, item.get(), is_int(index), left, index),
        SoyType::Map(item) => item_or_null(alloc, span, item.get(), is_string(index), left, index),
        _ => Err(both_mistyped(alloc, span, left, index)),
    }
}

fn item_or_null(
    alloc: Global,
    span: Span,
    item: &SoyType,
    fits: bool,
    left: &SoyType,
    index: &SoyType,
) -> Result<SoyType, Refusal<TypeFault>>
    ensures { Types view_type (fitting fits (joined (view_type item.now) NullType) span
        (view_type left.now) (view_type index.now)) result }
{
    if !fits {
        return Err(both_mistyped(alloc, span, left, index));
    }
    Ok(joined(alloc, item, &SoyType::Null)?)
}
