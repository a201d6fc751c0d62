//! Many types that are joined, each of which is looked for by its text.

ghost use Rattle.std.specs.Prelude.{◌≡◌, IfOk, OnOk, is_some, map};
ghost use Rattle.std.specs.Bool.{OnTrue};
ghost use Rattle.std.specs.List.{list_any};
ghost use Rattle.std.specs.Prelude.{true};
ghost use Rattle.soy_rules.specs.Members.{is_same_type, members, union_members, with_member, with_members};
ghost use Rattle.soy_tree.specs.ViewTypes.{view_members, view_type};
ghost use Rattle.soy_expr.specs.TypeNumbers.{AddsText, HasTexts, has_text};

use crate::joining::{add_new, is_same, member_at};
use crate::text_of;
use crate::type_key::TypeKey;
use soy_base::{OutOfMemory, Text};
use soy_tree::SoyType;
use std::alloc::Global;
use std::collections::HashMap;

/// Adds the members of a type that aren't yet there, each of which is looked for by its text.
pub(crate) fn add_new_by_text(
    alloc: Global,
    kept: &mut Vec<SoyType>,
    of: &SoyType,
) -> Result<(), OutOfMemory>
    ensures { OnOk result (map view_type kept.new.items
        ≡ with_members (map view_type kept.old.items) (members (view_type of.now))) }
{
    let mut numbers = numbers_of(alloc, kept.as_slice())?;
    add_members(alloc, kept, &mut numbers, of)
}

/// The number of each type by its text; of several of one text that of the first.
#[tactic(auto, using(crate::proofs::TypeNumbers::texts_next))]
fn numbers_of(alloc: Global, types: &[SoyType]) -> Result<HashMap<TypeKey, usize>, OutOfMemory>
    ensures { IfOk result (λ numbers. HasTexts numbers (map view_type types.now)) }
{
    let mut numbers = HashMap::new(alloc);
    for (number, of) in types.iter().enumerate() {
        number_of(&mut numbers, text_of(alloc, of)?, number)?;
    }
    Ok(numbers)
}

/// The number that a text has; one that has none gets this number.
#[tactic(auto, using(crate::proofs::TypeNumbers::adds_nothing, crate::proofs::TypeNumbers::adds_one))]
fn number_of(
    numbers: &mut HashMap<TypeKey, usize>,
    text: Text,
    number: usize,
) -> Result<Option<usize>, OutOfMemory>
    ensures found { IfOk result (λ found. is_some found ≡ has_text numbers.old text) }
    ensures added { OnOk result (AddsText text numbers.old numbers.new) }
{
    let key = TypeKey::new(text);
    if let Some(number) = numbers.get(&key) {
        return Ok(Some(*number));
    }
    numbers.insert(key, number)?;
    Ok(None)
}

/// Adds the members of a type that aren't yet there.
#[cycle(adding_by_text)]
fn add_members(
    alloc: Global,
    kept: &mut Vec<SoyType>,
    numbers: &mut HashMap<TypeKey, usize>,
    of: &SoyType,
) -> Result<(), OutOfMemory>
    requires { HasTexts numbers.old (map view_type kept.old.items) }
    ensures kept { OnOk result (map view_type kept.new.items
        ≡ with_members (map view_type kept.old.items) (members (view_type of.now))) }
    ensures texts { OnOk result (HasTexts numbers.new (map view_type kept.new.items)) }
{
    match of {
        SoyType::Union(members) => add_all_members(alloc, kept, numbers, members.items()),
        other => add_member(alloc, kept, numbers, other),
    }
}

/// Adds the members of each type that aren't yet there.
#[cycle(adding_by_text)]
#[tactic(auto, using(crate::proofs::TypeSearch::with_step))]
fn add_all_members(
    alloc: Global,
    kept: &mut Vec<SoyType>,
    numbers: &mut HashMap<TypeKey, usize>,
    types: &[SoyType],
) -> Result<(), OutOfMemory>
    requires { HasTexts numbers.old (map view_type kept.old.items) }
    ensures kept { OnOk result (map view_type kept.new.items
        ≡ with_members (map view_type kept.old.items) (union_members (view_members types.now))) }
    ensures texts { OnOk result (HasTexts numbers.new (map view_type kept.new.items)) }
{
    for of in types {
        add_members(alloc, kept, numbers, of)?;
    }
    Ok(())
}

/// Adds a type that isn't yet there. Two types that aren't the same may have one text: then there is a walk.
#[tactic(auto, using(crate::proofs::TypeNumbers::texts_with))]
fn add_member(
    alloc: Global,
    kept: &mut Vec<SoyType>,
    numbers: &mut HashMap<TypeKey, usize>,
    of: &SoyType,
) -> Result<(), OutOfMemory>
    requires { HasTexts numbers.old (map view_type kept.old.items) }
    ensures kept { OnOk result (map view_type kept.new.items
        ≡ with_member (map view_type kept.old.items) (view_type of.now)) }
    ensures texts { OnOk result (HasTexts numbers.new (map view_type kept.new.items)) }
{
    let found = number_of(numbers, text_of(alloc, of)?, kept.len())?;
    match found {
        None => {
            kept.push(of.copy(alloc)?)?;
            Ok(())
        }
        Some(number) => add_or_leave(alloc, kept, number, of),
    }
}

/// Adds a type that isn't yet there; it may stand at this number.
fn add_or_leave(
    alloc: Global,
    kept: &mut Vec<SoyType>,
    number: usize,
    of: &SoyType,
) -> Result<(), OutOfMemory>
    ensures { OnOk result (map view_type kept.new.items
        ≡ with_member (map view_type kept.old.items) (view_type of.now)) }
{
    if is_at(kept.as_slice(), number, of) {
        return Ok(());
    }
    add_new(alloc, kept, of)
}

/// Whether a type is the same as the one of this number.
fn is_at(types: &[SoyType], number: usize, of: &SoyType) -> bool
    ensures { OnTrue result (list_any (is_same_type (view_type of.now)) (map view_type types.now) ≡ true) }
{
    match member_at(types, number) {
        Some(other) => is_same(of, other),
        None => false,
    }
}
