//! Values at types, read of a reader's tokens without a tree between.
//!
//! Texts, ints, bools, lists and records are read token by token. What is read at another type is read as a tree
//! (`lending`), and so is a member that no field is for, since its numbers need values too.

ghost use Rattle.std.specs.Prelude.{◌≡◌, ◌<◌, ℕ, IfOk, OnOk, Some, length, true};
ghost use Rattle.json.specs.Json.{Json, value};
ghost use Rattle.soy_rules.specs.Members.{joined};
ghost use Rattle.soy_rules.specs.ShortLists.{EntriesShort};
ghost use Rattle.soy_tree.specs.Types.{BoolType, IntType, StringType};
ghost use Rattle.soy_tree.specs.Types as types;
ghost use Rattle.soy_tree.specs.ViewTrees.{view_params};
ghost use Rattle.soy_tree.specs.ViewTypes.{view_type};
ghost use Rattle.soy_tree.specs.ViewValues.{view_entries, view_value};
ghost use Rattle.soy_types.specs.Filling.{fields_at, type_taken};
ghost use Rattle.soy_types.specs.LentData.{has_values};
ghost use Rattle.soy_types.specs.Reads.{ReadsShort};
ghost use Rattle.soy_types.specs.TokenValues.{ReadsAt, ReadsDocument, ReadsField, ReadsItems, ReadsMembers};
ghost use Rattle.soy_types.specs.TokenValues.{ReadsObject, TakesMember};

use crate::lending::{MOST_WALKS, lent_number, lent_optional, lent_text, lent_value};
use crate::lent::{MAX_DEPTH, read_tree};
use crate::reading::MOST_ITEMS;
use crate::room::put;
use crate::shape::{Shape, blank_entries, fill, index_of, nulls_fit};
use crate::unread::Unread;
use json::{Reader, Token};
use soy_base::Seq;
use soy_tree::{Entry, Param, SoyType, Value};
use std::alloc::Global;

/// The values of parameters, read of the one JSON value that a reader has left.
pub(crate) fn read_document(
    alloc: Global,
    reader: &mut Reader<'_>,
    params: &[Param],
) -> Result<Value, Unread>
    ensures value { IfOk result (λ v. ReadsDocument (view_params params.now) reader.old (view_value v)) }
    ensures short { ReadsShort result }
{
    match next_object(alloc, reader, Shape::Params(params), MAX_DEPTH) {
        Ok(value) => match reader.next() {
            None => Ok(value),
            Some(_) => Err(Unread::Undecided),
        },
        Err(unread) => Err(unread),
    }
}

/// The value at a type of the JSON value that is next.
#[cycle(token_reading)]
fn next_value(
    alloc: Global,
    reader: &mut Reader<'_>,
    of: &SoyType,
    depth: usize,
) -> Result<Value, Unread>
    ensures value { IfOk result (λ v. ReadsAt depth (view_type of.now) reader.old reader.new (view_value v)) }
    ensures shorter { OnOk result (length reader.new < length reader.old) }
    ensures short { ReadsShort result }
{
    match of {
        SoyType::Str => next_string(alloc, reader),
        SoyType::Int => next_int(reader),
        SoyType::Bool => next_bool(reader),
        SoyType::List(of) => next_list(alloc, reader, of.get(), depth),
        SoyType::Fields(fields) if fields.items().len() <= MOST_WALKS => {
            next_object(alloc, reader, Shape::Record(fields.items()), depth)
        }
        _ => next_by_tree(alloc, reader, of, depth),
    }
}

/// A copy of the string that is next.
fn next_string(alloc: Global, reader: &mut Reader<'_>) -> Result<Value, Unread>
    ensures value { (depth : ℕ) → IfOk result (λ v. ReadsAt depth StringType reader.old reader.new (view_value v)) }
    ensures shorter { OnOk result (length reader.new < length reader.old) }
    ensures short { ReadsShort result }
{
    match reader.next() {
        Some(Token::String(text)) => lent_text(alloc, text),
        _ => Err(Unread::Undecided),
    }
}

/// The int that is next.
fn next_int(reader: &mut Reader<'_>) -> Result<Value, Unread>
    ensures value { (depth : ℕ) → IfOk result (λ v. ReadsAt depth IntType reader.old reader.new (view_value v)) }
    ensures shorter { OnOk result (length reader.new < length reader.old) }
    ensures short { ReadsShort result }
{
    match reader.next() {
        Some(Token::Number(text)) => lent_number(text),
        _ => Err(Unread::Undecided),
    }
}

/// The bool that is next.
fn next_bool(reader: &mut Reader<'_>) -> Result<Value, Unread>
    ensures value { (depth : ℕ) → IfOk result (λ v. ReadsAt depth BoolType reader.old reader.new (view_value v)) }
    ensures shorter { OnOk result (length reader.new < length reader.old) }
    ensures short { ReadsShort result }
{
    match reader.next() {
        Some(Token::Bool(value)) => Ok(Value::Bool(value)),
        _ => Err(Unread::Undecided),
    }
}

/// The value at a type of the JSON value that is next, which is read as a tree first.
fn next_by_tree(
    alloc: Global,
    reader: &mut Reader<'_>,
    of: &SoyType,
    depth: usize,
) -> Result<Value, Unread>
    ensures value { IfOk result (λ v. ReadsAt depth (view_type of.now) reader.old reader.new (view_value v)) }
    ensures shorter { OnOk result (length reader.new < length reader.old) }
    ensures short { ReadsShort result }
{
    match read_tree(alloc, reader, depth) {
        Ok(json) => lent_value(alloc, of, &json),
        Err(unread) => Err(unread),
    }
}

/// The value at a type that also takes null of the JSON value that is next, which is read as a tree first.
fn next_optional(
    alloc: Global,
    reader: &mut Reader<'_>,
    of: &SoyType,
    depth: usize,
) -> Result<Value, Unread>
    ensures value { IfOk result
        (λ v. ReadsAt depth (joined (view_type of.now) types.NullType) reader.old reader.new (view_value v)) }
    ensures shorter { OnOk result (length reader.new < length reader.old) }
    ensures short { ReadsShort result }
{
    match read_tree(alloc, reader, depth) {
        Ok(json) => lent_optional(alloc, of, &json),
        Err(unread) => Err(unread),
    }
}

/// Passes over the JSON value that is next, if each of its numbers has a value.
fn skip_value(alloc: Global, reader: &mut Reader<'_>, depth: usize) -> Result<(), Unread>
    ensures value { OnOk result ((j : Json) × (value depth reader.old ≡ Some (j, reader.new))
        × (has_values j ≡ true)) }
    ensures shorter { OnOk result (length reader.new < length reader.old) }
{
    read_tree(alloc, reader, depth)?;
    Ok(())
}

/// The list that is next.
#[cycle(token_reading)]
fn next_list(
    alloc: Global,
    reader: &mut Reader<'_>,
    of: &SoyType,
    depth: usize,
) -> Result<Value, Unread>
    ensures value { IfOk result
        (λ v. ReadsAt depth (types.ListType (view_type of.now)) reader.old reader.new (view_value v)) }
    ensures shorter { OnOk result (length reader.new < length reader.old) }
    ensures short { ReadsShort result }
{
    match reader.next() {
        Some(Token::BeginArray) if depth > 0 => next_items(alloc, reader, of, depth - 1),
        _ => Err(Unread::Undecided),
    }
}

/// The list of the items up to the bracket that closes it.
#[cycle(token_reading)]
#[inline(never)]
fn next_items(
    alloc: Global,
    reader: &mut Reader<'_>,
    of: &SoyType,
    depth: usize,
) -> Result<Value, Unread>
    ensures value { IfOk result (λ v. ReadsItems depth (view_type of.now) reader.old reader.new (view_value v)) }
    ensures shorter { OnOk result (length reader.new < length reader.old) }
    ensures short { ReadsShort result }
{
    let mut values = Vec::new(alloc);
    while !reader.take_end_array() {
        if values.len() == MOST_ITEMS {
            return Err(Unread::OutOfMemory);
        }
        match next_value(alloc, reader, of, depth) {
            Ok(value) => put(&mut values, value)?,
            Err(unread) => return Err(unread),
        }
    }
    Ok(Value::List(Seq::new(values)))
}

/// The record of the object that is next.
#[cycle(token_reading)]
fn next_object(
    alloc: Global,
    reader: &mut Reader<'_>,
    shape: Shape<'_>,
    depth: usize,
) -> Result<Value, Unread>
    ensures value { IfOk result (λ v. ReadsObject depth (fields_at shape.entry) reader.old reader.new (view_value v)) }
    ensures shorter { OnOk result (length reader.new < length reader.old) }
    ensures short { ReadsShort result }
{
    match reader.next() {
        Some(Token::BeginObject) if depth > 0 => next_members(alloc, reader, shape, depth - 1),
        _ => Err(Unread::Undecided),
    }
}

/// The record of the members up to the brace that closes it.
#[cycle(token_reading)]
#[inline(never)]
fn next_members(
    alloc: Global,
    reader: &mut Reader<'_>,
    shape: Shape<'_>,
    depth: usize,
) -> Result<Value, Unread>
    ensures value { IfOk result (λ v. ReadsMembers depth (fields_at shape.entry) reader.old reader.new (view_value v)) }
    ensures shorter { OnOk result (length reader.new < length reader.old) }
    ensures short { ReadsShort result }
{
    let mut entries = blank_entries(alloc, shape)?;
    let mut expected = 0;
    while let Some(key) = reader.next_key()? {
        expected = next_member(alloc, &mut entries, reader, shape, key, expected, depth)?;
    }
    if !nulls_fit(alloc, shape, entries.as_slice()) {
        return Err(Unread::Undecided);
    }
    Ok(Value::Fields(Seq::new(entries)))
}

/// Fills the entry of a key with the value that is next, and says which entry is expected then. That is a hint alone:
/// an entry is found by its name. A key that no entry has is passed over, with its value.
#[cycle(token_reading)]
fn next_member(
    alloc: Global,
    entries: &mut Vec<Entry>,
    reader: &mut Reader<'_>,
    shape: Shape<'_>,
    key: &str,
    expected: usize,
    depth: usize,
) -> Result<usize, Unread>
    ensures value { OnOk result
        (TakesMember depth (fields_at shape.entry) key.now reader.old reader.new entries.old.items entries.new.items) }
    ensures shorter { OnOk result (length reader.new < length reader.old) }
    ensures short { OnOk result (EntriesShort (view_entries entries.old.items)
        → EntriesShort (view_entries entries.new.items)) }
{
    let Some(index) = index_of(entries.as_slice(), key, expected) else {
        skip_value(alloc, reader, depth)?;
        return Ok(expected);
    };
    let value = next_field(alloc, reader, shape, index, depth)?;
    fill(entries, index, value);
    Ok(index.wrapping_add(1))
}

/// The value of a field.
#[cycle(token_reading)]
fn next_field(
    alloc: Global,
    reader: &mut Reader<'_>,
    shape: Shape<'_>,
    index: usize,
    depth: usize,
) -> Result<Value, Unread>
    ensures value { IfOk result
        (λ v. ReadsField depth index (fields_at shape.entry) reader.old reader.new (view_value v)) }
    ensures shorter { OnOk result (length reader.new < length reader.old) }
    ensures short { ReadsShort result }
{
    match shape.get(index) {
        Some(field) => next_taken(alloc, reader, field.of, field.required, depth),
        None => Err(Unread::Undecided),
    }
}

/// The value of a field of which the JSON value that is next is given.
#[cycle(token_reading)]
fn next_taken(
    alloc: Global,
    reader: &mut Reader<'_>,
    of: &SoyType,
    required: bool,
    depth: usize,
) -> Result<Value, Unread>
    ensures value { IfOk result
        (λ v. ReadsAt depth (type_taken required (view_type of.now)) reader.old reader.new (view_value v)) }
    ensures shorter { OnOk result (length reader.new < length reader.old) }
    ensures short { ReadsShort result }
{
    if required {
        next_value(alloc, reader, of, depth)
    } else {
        next_optional(alloc, reader, of, depth)
    }
}
