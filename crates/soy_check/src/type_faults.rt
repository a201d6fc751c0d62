//! The demands on the type of a parameter.

ghost use Rattle.std.specs.Prelude.{◌≡◌, [], IfOk};
ghost use Rattle.soy_rules.specs.Declarations.{fields_fault, members_fault, misplaced, mixes_blocks, type_fault};
ghost use Rattle.soy_tree.specs.ViewTypes.{view_fields, view_members, view_type};
ghost use Rattle.soy_check.specs.Answers.{Finds};

use crate::faults::{misnamed, untyped};
use crate::names::Names;
use soy_base::{Code, OutOfMemory, Refusal, Span};
use soy_expr::{TypeFault, has_block, is_block};
use soy_rules::narrow;
use soy_tree::{Field, SoyType};
use std::alloc::Global;

/// The type of a parameter whose command begins at this offset; `alone` says that the type stands in no list, map or
/// record.
#[cycle(typing)]
#[tactic(auto, using(crate::proofs::Refusals::found_first, crate::proofs::Refusals::kept_fault))]
pub(crate) fn check_type(
    alloc: Global,
    of: &SoyType,
    at: u64,
    alone: bool,
) -> Result<(), Refusal<TypeFault>>
    ensures { Finds (type_fault (view_type of.now) at alone) result }
{
    match of {
        SoyType::Html => check_place(alloc, at, &SoyType::Html, !alone),
        SoyType::Attributes => check_place(alloc, at, &SoyType::Attributes, !alone),
        SoyType::List(item) => check_type(alloc, item.get(), at, false),
        SoyType::Map(item) => check_type(alloc, item.get(), at, false),
        SoyType::Fields(fields) => check_fields(alloc, fields.items(), at),
        SoyType::Union(members) => {
            check_members(alloc, members.items(), at, alone)?;
            check_place(alloc, at, of, mixes_blocks(alloc, of)?)
        }
        _ => Ok(()),
    }
}

/// The members of a union.
#[cycle(typing)]
#[tactic(auto, using(crate::proofs::Refusals::found_first, crate::proofs::Refusals::kept_fault))]
fn check_members(
    alloc: Global,
    members: &[SoyType],
    at: u64,
    alone: bool,
) -> Result<(), Refusal<TypeFault>>
    ensures { Finds (members_fault (view_members members.now) at alone) result }
{
    for member in members {
        check_type(alloc, member, at, alone)?;
    }
    Ok(())
}

/// The fields of a record.
#[cycle(typing)]
#[tactic(auto, using(crate::proofs::Refusals::found_first, crate::proofs::Refusals::kept_fault))]
fn check_fields(alloc: Global, fields: &[Field], at: u64) -> Result<(), Refusal<TypeFault>>
    ensures { Finds (fields_fault (view_fields fields.now) at []) result }
{
    let mut names = Names::new(alloc);
    for field in fields {
        if !names.insert(&field.name)? {
            let span = Span { start: at, end: at };
            return Err(misnamed(alloc, Code::Twice, span, &field.name));
        }
        check_type(alloc, &field.of, at, false)?;
    }
    Ok(())
}

/// Refuses a type that stands where html and attributes may not.
#[tactic(auto, using(crate::proofs::Refusals::kept_fault))]
fn check_place(alloc: Global, at: u64, of: &SoyType, fails: bool) -> Result<(), Refusal<TypeFault>>
    ensures { Finds (misplaced at (view_type of.now) fails) result }
{
    if fails {
        return Err(untyped(alloc, Code::Mistyped, at, of));
    }
    Ok(())
}

/// Whether html or attributes stands beside another member than null.
#[tactic(auto, using(crate::proofs::Types::mixed, crate::proofs::Types::unmixed))]
fn mixes_blocks(alloc: Global, of: &SoyType) -> Result<bool, OutOfMemory>
    ensures { IfOk result (λ mixes. mixes ≡ mixes_blocks (view_type of.now)) }
{
    if !has_block(of) {
        return Ok(false);
    }
    Ok(!is_block(&narrow(alloc, of)?))
}
