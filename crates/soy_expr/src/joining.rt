//! Types that are the same, and types that are joined.

ghost use Rattle.std.specs.Prelude.{◌≡◌, ◌++◌, IfOk, OnOk, map, option_map, slice_get};
ghost use Rattle.std.specs.List.{list_any};
ghost use Rattle.soy_rules.specs.Members.{are_same_fields, are_same_members, is_same_type, joined, members};
ghost use Rattle.soy_rules.specs.Members.{union_members, with_member, with_members};
ghost use Rattle.soy_tree.specs.ViewTypes.{view_fields, view_members, view_type};

use crate::joining_by_text::add_new_by_text;
use soy_base::OutOfMemory;
use soy_rules::union_of;
use soy_tree::{Field, SoyType};
use std::alloc::Global;

/// The left type joined with the right one.
pub fn joined(alloc: Global, left: &SoyType, right: &SoyType) -> Result<SoyType, OutOfMemory>
    ensures { IfOk result (λ t. view_type t ≡ joined (view_type left.now) (view_type right.now)) }
{
    let mut kept = Vec::new(alloc);
    add_members(alloc, &mut kept, left)?;
    add_others(alloc, &mut kept, right)?;
    Ok(union_of(kept))
}

/// To so few members, each is looked for in a walk over all that are there: that takes no longer than to write texts.
const FEW: usize = 32;

/// Adds the members of a type that aren't yet there, by their texts where they are many.
fn add_others(alloc: Global, kept: &mut Vec<SoyType>, of: &SoyType) -> Result<(), OutOfMemory>
    ensures { OnOk result (map view_type kept.new.items
        ≡ with_members (map view_type kept.old.items) (members (view_type of.now))) }
{
    if is_wide(of) {
        add_new_by_text(alloc, kept, of)
    } else {
        add_new_members(alloc, kept, of)
    }
}

/// Whether a type has many members.
fn is_wide(of: &SoyType) -> bool {
    match of {
        SoyType::Union(members) => members.items().len() > FEW,
        _ => false,
    }
}

/// Adds the members of a type.
#[cycle(adding)]
fn add_members(alloc: Global, kept: &mut Vec<SoyType>, of: &SoyType) -> Result<(), OutOfMemory>
    ensures { OnOk result (map view_type kept.new.items
        ≡ map view_type kept.old.items ++ members (view_type of.now)) }
{
    match of {
        SoyType::Union(members) => add_all_members(alloc, kept, members.items()),
        other => Ok(kept.push(other.copy(alloc)?)?),
    }
}

/// Adds the members of each type.
#[cycle(adding)]
#[tactic(auto, using(crate::proofs::TypeTexts::append_assoc))]
fn add_all_members(
    alloc: Global,
    kept: &mut Vec<SoyType>,
    types: &[SoyType],
) -> Result<(), OutOfMemory>
    ensures { OnOk result (map view_type kept.new.items
        ≡ map view_type kept.old.items ++ union_members (view_members types.now)) }
{
    for of in types {
        add_members(alloc, kept, of)?;
    }
    Ok(())
}

/// Adds the members of a type that aren't yet there.
#[cycle(adding_new)]
fn add_new_members(alloc: Global, kept: &mut Vec<SoyType>, of: &SoyType) -> Result<(), OutOfMemory>
    ensures { OnOk result (map view_type kept.new.items
        ≡ with_members (map view_type kept.old.items) (members (view_type of.now))) }
{
    match of {
        SoyType::Union(members) => add_all_new_members(alloc, kept, members.items()),
        other => add_new(alloc, kept, other),
    }
}

/// Adds the members of each type that aren't yet there.
#[cycle(adding_new)]
#[tactic(auto, using(crate::proofs::TypeSearch::with_step))]
fn add_all_new_members(
    alloc: Global,
    kept: &mut Vec<SoyType>,
    types: &[SoyType],
) -> Result<(), OutOfMemory>
    ensures { OnOk result (map view_type kept.new.items
        ≡ with_members (map view_type kept.old.items) (union_members (view_members types.now))) }
{
    for of in types {
        add_new_members(alloc, kept, of)?;
    }
    Ok(())
}

/// Adds a type that isn't yet there.
pub(crate) fn add_new(
    alloc: Global,
    kept: &mut Vec<SoyType>,
    of: &SoyType,
) -> Result<(), OutOfMemory>
    ensures { OnOk result (map view_type kept.new.items
        ≡ with_member (map view_type kept.old.items) (view_type of.now)) }
{
    if is_among(of, kept.as_slice()) {
        return Ok(());
    }
    kept.push(of.copy(alloc)?)?;
    Ok(())
}

/// Whether a type is the same as one of these.
fn is_among(of: &SoyType, types: &[SoyType]) -> bool
    ensures { result ≡ list_any (is_same_type (view_type of.now)) (map view_type types.now) }
{
    for other in types {
        if is_same(of, other) {
            return true;
        }
    }
    false
}

/// Whether two types are the same.
#[cycle(comparing)]
pub(crate) fn is_same(left: &SoyType, right: &SoyType) -> bool
    ensures { result ≡ is_same_type (view_type left.now) (view_type right.now) }
{
    match (left, right) {
        (SoyType::Null, SoyType::Null) => true,
        (SoyType::Bool, SoyType::Bool) => true,
        (SoyType::Int, SoyType::Int) => true,
        (SoyType::Str, SoyType::Str) => true,
        (SoyType::Html, SoyType::Html) => true,
        (SoyType::Attributes, SoyType::Attributes) => true,
        (SoyType::List(left), SoyType::List(right)) => is_same(left.get(), right.get()),
        (SoyType::Map(left), SoyType::Map(right)) => is_same(left.get(), right.get()),
        (SoyType::Fields(left), SoyType::Fields(right)) => {
            are_same_fields(left.items(), right.items())
        }
        (SoyType::Union(left), SoyType::Union(right)) => {
            are_same_members(left.items(), right.items())
        }
        _ => false,
    }
}

/// Whether two lists of members are the same.
#[cycle(comparing)]
#[tactic(auto, using(crate::proofs::SameLists::members_same, crate::proofs::SameLists::members_differ, crate::proofs::SameLists::members_short, crate::proofs::SameLists::members_end, crate::proofs::SameLists::members_longer))]
fn are_same_members(left: &[SoyType], right: &[SoyType]) -> bool
    ensures { result ≡ are_same_members (view_members left.now) (view_members right.now) }
{
    for (number, member) in left.iter().enumerate() {
        let Some(other) = member_at(right, number) else {
            return false;
        };
        if !is_same(member, other) {
            return false;
        }
    }
    match member_at(right, left.len()) {
        Some(_) => false,
        None => true,
    }
}

pub(crate) fn member_at(members: &[SoyType], number: usize) -> Option<&SoyType>
    ensures { option_map (λ t. t.now) result ≡ slice_get members.now number }
{
    members.get(number)
}

/// Whether two lists of fields are the same.
#[cycle(comparing)]
#[tactic(auto, using(crate::proofs::SameLists::fields_same, crate::proofs::SameLists::fields_differ, crate::proofs::SameLists::names_differ, crate::proofs::SameLists::fields_short, crate::proofs::SameLists::fields_end, crate::proofs::SameLists::fields_longer))]
fn are_same_fields(left: &[Field], right: &[Field]) -> bool
    ensures { result ≡ are_same_fields (view_fields left.now) (view_fields right.now) }
{
    for (number, field) in left.iter().enumerate() {
        let Some(other) = field_at(right, number) else {
            return false;
        };
        if !field.name.is(other.name.text()) {
            return false;
        }
        if !is_same(&field.of, &other.of) {
            return false;
        }
    }
    match field_at(right, left.len()) {
        Some(_) => false,
        None => true,
    }
}

fn field_at(fields: &[Field], number: usize) -> Option<&Field>
    ensures { option_map (λ f. f.now) result ≡ slice_get fields.now number }
{
    fields.get(number)
}
