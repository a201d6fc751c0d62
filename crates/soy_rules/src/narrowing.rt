//! Types without null.

ghost use Rattle.std.specs.Prelude.{◌≡◌, ◌++◌, IfOk, OnOk, filter, map};
ghost use Rattle.soy_rules.specs.Members.{is_some_type, members, type_without_null, union_members, union_of};
ghost use Rattle.soy_tree.specs.ViewTypes.{view_members, view_type};

use soy_base::{OutOfMemory, Seq};
use soy_tree::SoyType;
use std::alloc::Global;

/// The type without null; of null alone it is the union of no members.
pub fn narrow(alloc: Global, of: &SoyType) -> Result<SoyType, OutOfMemory>
    ensures { IfOk result (λ t. view_type t ≡ type_without_null (view_type of.now)) }
{
    let mut kept = Vec::new(alloc);
    keep_some(alloc, &mut kept, of)?;
    Ok(union_of(kept))
}

/// Adds the members other than null.
#[cycle(keeping)]
fn keep_some(alloc: Global, kept: &mut Vec<SoyType>, of: &SoyType) -> Result<(), OutOfMemory>
    ensures { OnOk result (map view_type kept.new.items
        ≡ map view_type kept.old.items ++ filter is_some_type (members (view_type of.now))) }
{
    match of {
        SoyType::Null => Ok(()),
        SoyType::Union(members) => keep_all_some(alloc, kept, members.items()),
        other => Ok(kept.push(other.copy(alloc)?)?),
    }
}

/// Adds the members other than null of each type.
#[cycle(keeping)]
#[tactic(auto, using(crate::proofs::Members::kept_append, crate::proofs::Members::append_assoc))]
fn keep_all_some(
    alloc: Global,
    kept: &mut Vec<SoyType>,
    types: &[SoyType],
) -> Result<(), OutOfMemory>
    ensures { OnOk result (map view_type kept.new.items
        ≡ map view_type kept.old.items ++ filter is_some_type (union_members (view_members types.now))) }
{
    for of in types {
        keep_some(alloc, kept, of)?;
    }
    Ok(())
}

/// The union of these members; of one member it is that one.
pub fn union_of(members: Vec<SoyType>) -> SoyType
    ensures { view_type result ≡ union_of (map view_type members.items) }
{
    let mut members = members;
    if members.len() != 1 {
        return SoyType::Union(Seq::new(members));
    }
    match members.pop() {
        Some(member) => member,
        None => SoyType::Union(Seq::new(members)),
    }
}
