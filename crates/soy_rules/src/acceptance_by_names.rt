//! Which type accepts which, of types that have many fields and members.

ghost use Rattle.std.specs.Prelude.{◌≡◌, IfOk, IfSome};
ghost use Rattle.std.specs.List.{list_all};
ghost use Rattle.soy_rules.specs.Members.{union_members};
ghost use Rattle.soy_rules.specs.Accepts.{accepts, accepts_fields, accepts_member, each_member, has_field};
ghost use Rattle.soy_rules.specs.Accepts.{some_accepts};
ghost use Rattle.soy_rules.specs.FieldNames.{field_names};
ghost use Rattle.soy_tree.specs.ViewTypes.{view_fields, view_members, view_type};

use crate::Names;
use crate::field_names::{first_field, names_of_many};
use soy_base::{OutOfMemory, Text};
use soy_tree::{Field, SoyType};
use std::alloc::Global;

/// Whether a type accepts another: as `accepts`, but without a walk over many fields or members for each of the
/// other's. Each field is found by its name, and members are looked for in the order in which they are given.
#[cycle(accepting_by_names)]
pub fn accepts_by_names(alloc: Global, to: &SoyType, from: &SoyType) -> Result<bool, OutOfMemory>
    ensures { IfOk result (λ is. is ≡ accepts (view_type to.now) (view_type from.now)) }
{
    let mut start = 0;
    accepts_next(alloc, to, &mut start, from)
}

/// The same; where the type is a union, the search for each member begins at this number.
#[cycle(accepting_by_names)]
#[tactic(auto, using(crate::proofs::Accepting::and_true))]
fn accepts_next(
    alloc: Global,
    to: &SoyType,
    start: &mut usize,
    from: &SoyType,
) -> Result<bool, OutOfMemory>
    ensures { IfOk result (λ is. is ≡ accepts (view_type to.now) (view_type from.now)) }
{
    match from {
        SoyType::Union(members) => accepts_all(alloc, to, start, members.items()),
        other => accepts_member(alloc, to, start, other),
    }
}

/// Whether a type accepts each of these types.
#[cycle(accepting_by_names)]
#[tactic(auto, using(crate::proofs::Accepting::all_append))]
fn accepts_all(
    alloc: Global,
    to: &SoyType,
    start: &mut usize,
    members: &[SoyType],
) -> Result<bool, OutOfMemory>
    ensures { IfOk result (λ is. is
        ≡ list_all (accepts_member (view_type to.now)) (union_members (view_members members.now))) }
{
    for member in members {
        if !accepts_next(alloc, to, start, member)? {
            return Ok(false);
        }
    }
    Ok(true)
}

/// Whether a type accepts this member.
#[cycle(accepting_by_names)]
fn accepts_member(
    alloc: Global,
    to: &SoyType,
    start: &mut usize,
    from: &SoyType,
) -> Result<bool, OutOfMemory>
    ensures { IfOk result (λ is. is ≡ accepts_member (view_type to.now) (view_type from.now)) }
{
    match (to, from) {
        (SoyType::Union(members), _) => some_accepts(alloc, members.items(), start, from),
        (SoyType::List(to), SoyType::List(from)) => accepts_by_names(alloc, to.get(), from.get()),
        (SoyType::Map(to), SoyType::Map(from)) => accepts_by_names(alloc, to.get(), from.get()),
        (SoyType::Fields(to), SoyType::Fields(from)) => {
            accepts_fields(alloc, to.items(), from.items())
        }
        (SoyType::Null, SoyType::Null) => Ok(true),
        (SoyType::Bool, SoyType::Bool) => Ok(true),
        (SoyType::Int, SoyType::Int) => Ok(true),
        (SoyType::Str, SoyType::Str) => Ok(true),
        (SoyType::Html, SoyType::Html) => Ok(true),
        (SoyType::Attributes, SoyType::Attributes) => Ok(true),
        _ => Ok(false),
    }
}

/// Whether one of the members accepts the other's. The search begins at a number, which is afterwards the next one
/// behind the member that accepted: of two unions in one order, each member is found at once.
#[cycle(accepting_by_names)]
fn some_accepts(
    alloc: Global,
    members: &[SoyType],
    start: &mut usize,
    from: &SoyType,
) -> Result<bool, OutOfMemory>
    ensures { IfOk result (λ is. is ≡ some_accepts (view_members members.now) (view_type from.now)) }
{
    let begin = (*start).min(members.len());
    let (before, behind) = members.split_at(begin);
    if one_accepts(alloc, behind, begin, start, from)? {
        return Ok(true);
    }
    one_accepts(alloc, before, 0, start, from)
}

/// Whether one of these members, which begin with this number, accepts the other's.
#[cycle(accepting_by_names)]
fn one_accepts(
    alloc: Global,
    members: &[SoyType],
    first: usize,
    start: &mut usize,
    from: &SoyType,
) -> Result<bool, OutOfMemory>
    ensures { IfOk result (λ is. is ≡ some_accepts (view_members members.now) (view_type from.now)) }
{
    for (number, member) in members.iter().enumerate() {
        let mut inner = 0;
        if accepts_member(alloc, member, &mut inner, from)? {
            *start = first.saturating_add(number).saturating_add(1);
            return Ok(true);
        }
    }
    Ok(false)
}

/// Whether a record of the first fields accepts one of the others.
#[cycle(accepting_by_names)]
fn accepts_fields(alloc: Global, to: &[Field], from: &[Field]) -> Result<bool, OutOfMemory>
    ensures { IfOk result (λ is. is ≡ accepts_fields (view_fields to.now) (view_fields from.now)) }
{
    let names = names_of_many(alloc, to.len(), from)?;
    has_fields(alloc, to, from, &names)
}

/// The same; the names of the other's fields may be noted.
#[cycle(accepting_by_names)]
fn has_fields(
    alloc: Global,
    to: &[Field],
    from: &[Field],
    names: &Option<Names<'_>>,
) -> Result<bool, OutOfMemory>
    requires { IfSome names.now (λ all. all ≡ field_names from.now) }
    ensures { IfOk result (λ is. is ≡ accepts_fields (view_fields to.now) (view_fields from.now)) }
{
    for field in to {
        if !has_field(alloc, &field.name, &field.of, from, names)? {
            return Ok(false);
        }
    }
    Ok(true)
}

/// Whether the first field of this name is there, and the type accepts its type.
#[cycle(accepting_by_names)]
fn has_field(
    alloc: Global,
    name: &Text,
    to: &SoyType,
    fields: &[Field],
    names: &Option<Names<'_>>,
) -> Result<bool, OutOfMemory>
    requires { IfSome names.now (λ all. all ≡ field_names fields.now) }
    ensures { IfOk result (λ is. is
        ≡ has_field name.now (each_member (accepts_member (view_type to.now))) (view_fields fields.now)) }
{
    let Some(number) = first_field(name, fields, names) else {
        return Ok(false);
    };
    match fields.get(number) {
        Some(field) => accepts_by_names(alloc, to, &field.of),
        None => Ok(false),
    }
}
