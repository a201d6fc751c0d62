//! Values at types.

ghost use Rattle.std.specs.Prelude.{◌≡◌, unwrap_or};
ghost use Rattle.serde_json.specs.Data.{null};
ghost use Rattle.serde_json.specs.Find.{get};
ghost use Rattle.serde_json.specs.View.{items_view, members_view, view};
ghost use Rattle.soy_tree.specs.Values as values;
ghost use Rattle.soy_tree.specs.ViewTypes.{view_fields, view_members, view_type};
ghost use Rattle.soy_tree.specs.ViewValues.{entries_of, items_of, view_entry, view_value};
ghost use Rattle.soy_types.specs.Paths.{all_read, onward};
ghost use Rattle.soy_types.specs.Read.{entry_results, field_results, first_read, int_read, item_results, value_at};
ghost use Rattle.soy_types.specs.Reads.{Reads, ReadsShort};

use crate::json_unfit::is_unfit;
use crate::path::{Path, at_index, at_key, unfit};
use crate::room::{put, with_room};
use serde_json::{Map, Value as Json};
use soy_base::{Refusal, Row, Seq, text_of};
use soy_tree::{Field, SoyType, Value};
use std::alloc::Global;

/// The greatest int.
pub(crate) const LARGEST_INT: i64 = 9007199254740991;

/// As many items as ints number from 0; memory has no room for more.
pub(crate) const MOST_ITEMS: usize = 9007199254740992;

/// The value of a JSON value at a type.
#[cycle(reading)]
pub(crate) fn read_value(alloc: Global, of: &SoyType, json: &Json) -> Result<Value, Refusal<Path>>
    ensures value { Reads view_value (value_at (view_type of.now) (view json.now)) result }
    ensures short { ReadsShort result }
{
    match (of, json) {
        (SoyType::Null, Json::Null) => Ok(Value::Null),
        (SoyType::Bool, Json::Bool(is)) => Ok(Value::Bool(*is)),
        (SoyType::Int, Json::Number(number)) => read_int(alloc, number.as_i64()),
        (SoyType::Str, Json::String(text)) => Ok(Value::Str(text_of(alloc, text.as_str())?)),
        (SoyType::List(of), Json::Array(items)) => read_items(alloc, of.get(), items.as_slice()),
        (SoyType::Map(of), Json::Object(members)) => read_entries(alloc, of.get(), members),
        (SoyType::Fields(fields), Json::Object(_)) => read_fields(alloc, fields.items(), json),
        (SoyType::Union(members), _) => read_first(alloc, members.items(), json),
        _ => Err(unfit(alloc)),
    }
}

/// An int, if there is one within the range.
fn read_int(alloc: Global, number: Option<i64>) -> Result<Value, Refusal<Path>>
    ensures value { Reads view_value (int_read number) result }
    ensures short { ReadsShort result }
{
    match number {
        Some(number) if (-LARGEST_INT..=LARGEST_INT).contains(&number) => Ok(Value::Int(number)),
        _ => Err(unfit(alloc)),
    }
}

/// A list of items of a type.
#[cycle(reading)]
fn read_items(alloc: Global, of: &SoyType, items: &[Json]) -> Result<Value, Refusal<Path>>
    ensures value { Reads view_value (onward (λ vs. values.ListValue (items_of vs))
        (all_read (item_results (value_at (view_type of.now)) 0 (items_view items.now)))) result }
    ensures short { ReadsShort result }
{
    if items.len() > MOST_ITEMS {
        return Err(Refusal::OutOfMemory);
    }
    let mut values = with_room(alloc, items.len())?;
    for (index, item) in items.iter().enumerate() {
        match at_index(index as u64, read_value(alloc, of, item)) {
            Ok(value) => put(&mut values, value)?,
            Err(refusal) => return Err(refusal),
        }
    }
    Ok(Value::List(Seq::new(values)))
}

/// A map with items of a type.
#[cycle(reading)]
fn read_entries(
    alloc: Global,
    of: &SoyType,
    members: &Map<String, Json>,
) -> Result<Value, Refusal<Path>>
    ensures value { Reads view_value (onward (λ es. values.MapValue (entries_of es))
        (all_read (entry_results (value_at (view_type of.now)) (members_view members.now.entries)))) result }
    ensures short { ReadsShort result }
{
    let mut entries = Row::empty(alloc);
    for (key, item) in members.iter() {
        match at_key(alloc, key.as_str(), read_value(alloc, of, item)) {
            Ok(entry) => entries.push(entry)?,
            Err(refusal) => return Err(refusal),
        }
    }
    Ok(Value::Map(entries.done()))
}

/// A record of these fields.
#[cycle(reading)]
fn read_fields(alloc: Global, fields: &[Field], json: &Json) -> Result<Value, Refusal<Path>>
    ensures value { Reads view_value (onward (λ es. values.RecordValue (entries_of es))
        (all_read (field_results (view_fields fields.now) (view json.now)))) result }
    ensures short { ReadsShort result }
{
    let mut entries = with_room(alloc, fields.len())?;
    for field in fields {
        let name = field.name.text();
        match at_key(alloc, name, read_member(alloc, &field.of, json, name)) {
            Ok(entry) => put(&mut entries, entry)?,
            Err(refusal) => return Err(refusal),
        }
    }
    Ok(Value::Fields(Seq::new(entries)))
}

/// The value of a member, which is null where it is missing.
#[cycle(reading)]
fn read_member(alloc: Global, of: &SoyType, json: &Json, name: &str) -> Result<Value, Refusal<Path>>
    ensures value { Reads view_value
        (value_at (view_type of.now) (unwrap_or (get name.now (view json.now)) null)) result }
    ensures short { ReadsShort result }
{
    match json.get(name) {
        Some(member) => read_value(alloc, of, member),
        None => read_value(alloc, of, &Json::Null),
    }
}

/// The value at the first type that fits.
#[cycle(reading)]
fn read_first(alloc: Global, types: &[SoyType], json: &Json) -> Result<Value, Refusal<Path>>
    ensures value { Reads view_value (first_read (view_members types.now) (view json.now)) result }
    ensures short { ReadsShort result }
{
    for of in types {
        if is_unfit(of, json) {
            continue;
        }
        match read_value(alloc, of, json) {
            Ok(value) => return Ok(value),
            Err(Refusal::Because(_)) => {}
            Err(Refusal::OutOfMemory) => return Err(Refusal::OutOfMemory),
        }
    }
    Err(unfit(alloc))
}
