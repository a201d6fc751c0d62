//! Values at types, read over lent texts and without paths.

ghost use Rattle.std.specs.Prelude.{◌≡◌, IfOk, Ok, OnOk, Result, is_some, true};
ghost use Rattle.std.specs.Str.{chars};
ghost use Rattle.json.specs.Value.{items_view, members_view, value_view};
ghost use Rattle.serde_json.specs.Data.{no_members};
ghost use Rattle.serde_json.specs.Find.{as_i64};
ghost use Rattle.serde_json.specs.Read.{number_of};
ghost use Rattle.soy_rules.specs.Members.{joined};
ghost use Rattle.soy_rules.specs.ShortLists.{HasShortLists};
ghost use Rattle.soy_base.specs.Path.{Path};
ghost use Rattle.soy_tree.specs.Types.{NullType};
ghost use Rattle.soy_tree.specs.Values as values;
ghost use Rattle.soy_tree.specs.ViewTypes.{view_fields, view_members, view_type};
ghost use Rattle.soy_tree.specs.ViewValues.{entries_of, items_of, view_entry, view_value};
ghost use Rattle.soy_types.specs.Filling.{type_taken};
ghost use Rattle.soy_types.specs.Fits.{Fits, Pushes};
ghost use Rattle.soy_types.specs.LentData.{data_items, data_members, data_of, number_or_zero};
ghost use Rattle.soy_types.specs.Paths.{all_read, onward};
ghost use Rattle.soy_types.specs.Read.{entry_results, field_results, first_read, int_read, item_results};
ghost use Rattle.soy_types.specs.Read.{member_or_null, under_key, value_at};
ghost use Rattle.soy_types.specs.Reads.{ReadsShort};

use crate::lent::{in_order, member_of};
use crate::lent_unfit::is_unfit;
use crate::number::int_of;
use crate::reading::{LARGEST_INT, MOST_ITEMS};
use crate::room::{put, with_room};
use crate::unread::Unread;
use json::Value as Lent;
use soy_base::{Seq, Text, text_of};
use soy_tree::{Entry, Field, SoyType, Value};
use std::alloc::Global;

/// An object of more members than this isn't searched for more fields than this, nor are more entries than this
/// searched for a key, since each search is a walk over them: the other way of reading has a map.
pub(crate) const MOST_WALKS: usize = 32;

/// Whether so many fields are too many to be looked for.
fn is_wide(fields: usize, json: &Lent<'_>) -> bool {
    match json {
        Lent::Object(members) => fields > MOST_WALKS && members.len() > MOST_WALKS,
        _ => false,
    }
}

/// The value of a field of which this is given; one that isn't required also takes null.
pub(crate) fn lent_given(
    alloc: Global,
    of: &SoyType,
    required: bool,
    json: &Lent<'_>,
) -> Result<Value, Unread>
    ensures value { Fits view_value
        (value_at (type_taken required (view_type of.now)) (data_of (value_view json.now))) result }
    ensures short { ReadsShort result }
{
    if required {
        lent_value(alloc, of, json)
    } else {
        lent_optional(alloc, of, json)
    }
}

/// The value at a type that also takes null.
pub(crate) fn lent_optional(alloc: Global, of: &SoyType, json: &Lent<'_>) -> Result<Value, Unread>
    ensures value { Fits view_value
        (value_at (joined (view_type of.now) NullType) (data_of (value_view json.now))) result }
    ensures short { ReadsShort result }
{
    match lent_value(alloc, of, json) {
        Ok(value) => Ok(value),
        Err(Unread::Unfit) if json.is_null() => Ok(Value::Null),
        Err(Unread::OutOfMemory) => Err(Unread::OutOfMemory),
        Err(_) => Err(Unread::Undecided),
    }
}

/// The value of a JSON value at a type.
#[cycle(lending)]
pub(crate) fn lent_value(alloc: Global, of: &SoyType, json: &Lent<'_>) -> Result<Value, Unread>
    ensures value { Fits view_value (value_at (view_type of.now) (data_of (value_view json.now))) result }
    ensures short { ReadsShort result }
{
    match (of, json) {
        (SoyType::Null, Lent::Null) => Ok(Value::Null),
        (SoyType::Bool, Lent::Bool(is)) => Ok(Value::Bool(*is)),
        (SoyType::Int, Lent::Number(text)) => lent_number(text),
        (SoyType::Str, Lent::String(text)) => lent_text(alloc, text),
        (SoyType::List(of), Lent::Array(items)) => lent_items(alloc, of.get(), items.as_slice()),
        (SoyType::Map(of), Lent::Object(members)) => lent_entries(alloc, of.get(), members),
        (SoyType::Fields(fields), Lent::Object(_)) => lent_fields(alloc, fields.items(), json),
        (SoyType::Union(members), _) => lent_first(alloc, members.items(), json),
        _ => Err(Unread::Unfit),
    }
}

/// The int of a number.
#[inline(always)]
pub(crate) fn lent_number(text: &str) -> Result<Value, Unread>
    ensures value { Fits view_value (int_read (as_i64 (number_or_zero text.now))) result }
    ensures has_value { OnOk result (is_some (number_of text.now) ≡ true) }
    ensures short { ReadsShort result }
{
    match int_of(text) {
        Some(number) => lent_int(number),
        None => Err(Unread::Undecided),
    }
}

/// An int, if there is one within the range.
#[inline(always)]
fn lent_int(number: Option<i64>) -> Result<Value, Unread>
    ensures value { Fits view_value (int_read number) result }
    ensures short { ReadsShort result }
{
    match number {
        Some(number) if (-LARGEST_INT..=LARGEST_INT).contains(&number) => Ok(Value::Int(number)),
        _ => Err(Unread::Unfit),
    }
}

/// A copy of a text.
pub(crate) fn lent_text(alloc: Global, text: &str) -> Result<Value, Unread>
    ensures value { Fits view_value (Ok (values.StringValue (chars text.now))) result }
    ensures short { ReadsShort result }
{
    Ok(Value::Str(text_of(alloc, text)?))
}

/// A list of items of a type.
#[cycle(lending)]
#[inline(never)]
fn lent_items(alloc: Global, of: &SoyType, items: &[Lent<'_>]) -> Result<Value, Unread>
    ensures value { Fits view_value (onward (λ vs. values.ListValue (items_of vs))
        (all_read (item_results (value_at (view_type of.now)) 0 (data_items (items_view items.now))))) result }
    ensures short { ReadsShort result }
{
    if items.len() > MOST_ITEMS {
        return Err(Unread::OutOfMemory);
    }
    let mut values = with_room(alloc, items.len())?;
    for item in items {
        match lent_value(alloc, of, item) {
            Ok(value) => put(&mut values, value)?,
            Err(unread) => return Err(unread),
        }
    }
    Ok(Value::List(Seq::new(values)))
}

/// A map with items of a type.
#[cycle(lending)]
#[inline(never)]
fn lent_entries<'v, 'a>(
    alloc: Global,
    of: &SoyType,
    members: &'v Vec<(&'a str, Lent<'a>)>,
) -> Result<Value, Unread>
    ensures value { Fits view_value (onward (λ es. values.MapValue (entries_of es))
        (all_read (entry_results (value_at (view_type of.now))
        (data_members (members_view members.now.items) no_members)))) result }
    ensures short { ReadsShort result }
{
    let found = in_order(alloc, members)?;
    let mut entries = with_room(alloc, found.len())?;
    for (key, item) in found.iter() {
        match lent_keyed(alloc, *key, lent_value(alloc, of, *item)) {
            Ok(entry) => put(&mut entries, entry)?,
            Err(unread) => return Err(unread),
        }
    }
    Ok(Value::Map(Seq::new(entries)))
}

/// An entry of what is read under a key.
fn lent_keyed(alloc: Global, key: &str, read: Result<Value, Unread>) -> Result<Entry, Unread>
    ensures value { (is : Result values.Value Path) → Fits view_value is read
        → Fits view_entry (under_key (chars key.now) is) result }
    ensures short { ReadsShort read → IfOk result (λ e. HasShortLists (view_entry e).1) }
{
    match read {
        Ok(value) => Ok(Entry {
            name: text_of(alloc, key)?,
            value,
        }),
        Err(unread) => Err(unread),
    }
}

/// A record of these fields.
#[cycle(lending)]
#[inline(never)]
fn lent_fields(alloc: Global, fields: &[Field], json: &Lent<'_>) -> Result<Value, Unread>
    ensures value { Fits view_value (onward (λ es. values.RecordValue (entries_of es))
        (all_read (field_results (view_fields fields.now) (data_of (value_view json.now))))) result }
    ensures short { ReadsShort result }
{
    if is_wide(fields.len(), json) {
        return Err(Unread::Undecided);
    }
    let mut entries = with_room(alloc, fields.len())?;
    for field in fields {
        match push_field(alloc, &mut entries, field, json) {
            Ok(()) => {}
            Err(unread) => return Err(unread),
        }
    }
    Ok(Value::Fields(Seq::new(entries)))
}

/// Puts the entry of a field at the end; a missing member is null.
#[cycle(lending)]
fn push_field(
    alloc: Global,
    entries: &mut Vec<Entry>,
    field: &Field,
    json: &Lent<'_>,
) -> Result<(), Unread>
    ensures { Pushes (under_key field.now.name (value_at (view_type field.now.of)
        (member_or_null field.now.name (data_of (value_view json.now))))) entries.old.items entries.new.items result }
{
    match member_of(json, &field.name) {
        Some(member) => push_entry(alloc, entries, &field.name, &field.of, member),
        None => push_entry(alloc, entries, &field.name, &field.of, &Lent::Null),
    }
}

/// Puts the entry of what is read at a type at the end. Texts and ints, as most are, go there at once.
#[cycle(lending)]
#[inline(never)]
fn push_entry(
    alloc: Global,
    entries: &mut Vec<Entry>,
    name: &Text,
    of: &SoyType,
    json: &Lent<'_>,
) -> Result<(), Unread>
    ensures { Pushes (under_key name.now (value_at (view_type of.now) (data_of (value_view json.now))))
        entries.old.items entries.new.items result }
{
    match (of, json) {
        (SoyType::Str, Lent::String(text)) => push_text(alloc, entries, name, text),
        (SoyType::Int, Lent::Number(text)) => push_number(alloc, entries, name, text),
        _ => push_other(alloc, entries, name, of, json),
    }
}

/// Puts the entry of what is read at a type at the end, whatever the type.
#[cycle(lending)]
#[inline(never)]
fn push_other(
    alloc: Global,
    entries: &mut Vec<Entry>,
    name: &Text,
    of: &SoyType,
    json: &Lent<'_>,
) -> Result<(), Unread>
    ensures { Pushes (under_key name.now (value_at (view_type of.now) (data_of (value_view json.now))))
        entries.old.items entries.new.items result }
{
    push_read(alloc, entries, name, lent_value(alloc, of, json))
}

/// Puts the entry of a text at the end.
#[inline(never)]
fn push_text(alloc: Global, entries: &mut Vec<Entry>, name: &Text, text: &str) -> Result<(), Unread>
    ensures { Pushes (under_key name.now (Ok (values.StringValue (chars text.now))))
        entries.old.items entries.new.items result }
{
    push_read(alloc, entries, name, lent_text(alloc, text))
}

/// Puts the entry of a number at the end.
#[inline(never)]
fn push_number(
    alloc: Global,
    entries: &mut Vec<Entry>,
    name: &Text,
    text: &str,
) -> Result<(), Unread>
    ensures { Pushes (under_key name.now (int_read (as_i64 (number_or_zero text.now))))
        entries.old.items entries.new.items result }
{
    push_read(alloc, entries, name, lent_number(text))
}

/// Puts the entry of what is read under a name at the end.
#[inline(always)]
fn push_read(
    alloc: Global,
    entries: &mut Vec<Entry>,
    name: &Text,
    read: Result<Value, Unread>,
) -> Result<(), Unread>
    ensures { (is : Result values.Value Path) → Fits view_value is read → ReadsShort read
        → Pushes (under_key name.now is) entries.old.items entries.new.items result }
{
    match read {
        Ok(value) => {
            let name = name.copy(alloc)?;
            put(entries, Entry { name, value })?;
            Ok(())
        }
        Err(unread) => Err(unread),
    }
}

/// The value at the first type that fits.
#[cycle(lending)]
#[inline(never)]
fn lent_first(alloc: Global, types: &[SoyType], json: &Lent<'_>) -> Result<Value, Unread>
    ensures value { Fits view_value (first_read (view_members types.now) (data_of (value_view json.now))) result }
    ensures short { ReadsShort result }
{
    for of in types {
        match lent_choice(alloc, of, json) {
            Ok(value) => return Ok(value),
            Err(Unread::Unfit) => {}
            Err(Unread::Undecided) => return Err(Unread::Undecided),
            Err(Unread::OutOfMemory) => return Err(Unread::OutOfMemory),
        }
    }
    Err(Unread::Unfit)
}

/// The value at a member of a union. What is known not to fit is passed over at once.
#[cycle(lending)]
fn lent_choice(alloc: Global, of: &SoyType, json: &Lent<'_>) -> Result<Value, Unread>
    ensures value { Fits view_value (value_at (view_type of.now) (data_of (value_view json.now))) result }
    ensures short { ReadsShort result }
{
    if is_unfit(of, json) {
        return Err(Unread::Unfit);
    }
    lent_value(alloc, of, json)
}
