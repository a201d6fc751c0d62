//! The fields that an object is read for, and entries for them.

ghost use Rattle.std.specs.Bool.{OnTrue};
ghost use Rattle.std.specs.Prelude.{◌≡◌, ◌<◌, ◌≤◌, IfOk, MatchOption, Ok, false, length, true};
ghost use Rattle.serde_json.specs.Data.{no_members, null};
ghost use Rattle.soy_rules.specs.ShortLists.{EntriesShort};
ghost use Rattle.soy_rules.specs.Val.{is_null_value};
ghost use Rattle.soy_tree.specs.Types as types;
ghost use Rattle.soy_tree.specs.Values.{NullValue};
ghost use Rattle.soy_tree.specs.ViewTypes.{view_type};
ghost use Rattle.soy_tree.specs.ViewValues.{view_entries, view_value};
ghost use Rattle.soy_types.specs.Filling.{AreEntries, FieldAt, IsEntryAt, IsFilled, MayBeNullAt, NullsFit};
ghost use Rattle.soy_types.specs.Filling.{are_distinct, fields_at, has_entry, type_taken};
ghost use Rattle.soy_types.specs.Read.{value_at};

use crate::lending::{MOST_WALKS, lent_given};
use crate::lent::is_named;
use crate::room::{put, with_room};
use crate::unread::Unread;
use json::Value as Lent;
use soy_base::{OutOfMemory, Text};
use soy_tree::{Entry, Field, Param, SoyType, Value};
use std::alloc::Global;

/// The fields of a record type, or the parameters of a template.
#[derive(Clone, Copy, Drop)]
pub(crate) enum Shape<'t> {
    Record(&'t [Field]),
    Params(&'t [Param]),
}

/// A field of a record type, or a parameter of a template, which need not be required.
#[derive(Clone, Copy, Drop)]
pub(crate) struct ShapeField<'t> {
    pub(crate) name: &'t Text,
    pub(crate) of: &'t SoyType,
    pub(crate) required: bool,
}

impl<'t> Shape<'t> {
    /// How many fields there are.
    fn len(self) -> usize {
        match self {
            Shape::Record(fields) => fields.len(),
            Shape::Params(params) => params.len(),
        }
    }

    /// A field.
    pub(crate) fn get(self, index: usize) -> Option<ShapeField<'t>>
        ensures { MatchOption result (length (fields_at self.entry) ≤ index)
            (λ f. FieldAt index f.name.now (type_taken f.required (view_type f.of.now)) (fields_at self.entry)) }
    {
        match self {
            Shape::Record(fields) => match fields.get(index) {
                Some(field) => Some(ShapeField {
                    name: &field.name,
                    of: &field.of,
                    required: true,
                }),
                None => None,
            },
            Shape::Params(params) => match params.get(index) {
                Some(param) => Some(ShapeField {
                    name: &param.name,
                    of: &param.of,
                    required: param.required,
                }),
                None => None,
            },
        }
    }

    /// Whether null is known to fit a field.
    fn takes_null(self, alloc: Global, index: usize) -> bool
        ensures { OnTrue result ((name : types.Name) × (t : types.SoyType) × FieldAt index name t (fields_at self.entry)
            × (value_at t null ≡ Ok NullValue)) }
    {
        match self.get(index) {
            Some(field) => fits_null(alloc, field.of, field.required),
            None => false,
        }
    }
}

/// Whether null is known to fit what a field of a type takes.
fn fits_null(alloc: Global, of: &SoyType, required: bool) -> bool
    ensures { OnTrue result (value_at (type_taken required (view_type of.now)) null ≡ Ok NullValue) }
{
    match lent_given(alloc, of, required, &Lent::Null) {
        Ok(Value::Null) => true,
        _ => false,
    }
}

/// An entry for each field, all null. A shape that has too many fields, or two of one name, has none.
pub(crate) fn blank_entries(alloc: Global, shape: Shape<'_>) -> Result<Vec<Entry>, Unread>
    ensures blank { IfOk result (λ es. AreEntries (fields_at shape.entry) no_members es.items) }
    ensures distinct { IfOk result (λ es. are_distinct es.items ≡ true) }
    ensures short { IfOk result (λ es. EntriesShort (view_entries es.items)) }
{
    if shape.len() > MOST_WALKS {
        return Err(Unread::Undecided);
    }
    let entries = named_entries(alloc, shape)?;
    if !are_distinct(entries.as_slice()) {
        return Err(Unread::Undecided);
    }
    Ok(entries)
}

/// An entry for each field, all null.
fn named_entries(alloc: Global, shape: Shape<'_>) -> Result<Vec<Entry>, OutOfMemory>
    ensures blank { IfOk result (λ es. AreEntries (fields_at shape.entry) no_members es.items) }
    ensures short { IfOk result (λ es. EntriesShort (view_entries es.items)) }
{
    let mut entries = with_room(alloc, shape.len())?;
    while let Some(field) = shape.get(entries.len()) {
        let name = field.name.copy(alloc)?;
        put(
            &mut entries,
            Entry {
                name,
                value: Value::Null,
            },
        )?;
    }
    Ok(entries)
}

/// Whether no two entries have one name.
fn are_distinct(entries: &[Entry]) -> bool
    ensures { result ≡ are_distinct entries.now }
{
    for (index, entry) in entries.iter().enumerate() {
        if has_entry(&entries[index + 1..], entry.name.text()) {
            return false;
        }
    }
    true
}

/// Whether one of these entries has the name of a key.
fn has_entry(entries: &[Entry], key: &str) -> bool
    ensures { result ≡ has_entry key.now entries.now }
{
    walked_index(entries, key).is_some()
}

/// The index of the entry of a key, which mostly is the one expected.
pub(crate) fn index_of(entries: &[Entry], key: &str, expected: usize) -> Option<usize>
    ensures { MatchOption result (has_entry key.now entries.now ≡ false) (λ i. IsEntryAt key.now i entries.now) }
{
    if is_entry_at(entries, key, expected) {
        return Some(expected);
    }
    walked_index(entries, key)
}

/// Whether an entry has the name of a key.
fn is_entry_at(entries: &[Entry], key: &str, index: usize) -> bool
    ensures { OnTrue result (IsEntryAt key.now index entries.now) }
{
    match entries.get(index) {
        Some(entry) => is_named(key, entry.name.text()),
        None => false,
    }
}

/// The index of the first entry of a key.
#[inline(never)]
fn walked_index(entries: &[Entry], key: &str) -> Option<usize>
    ensures { MatchOption result (has_entry key.now entries.now ≡ false) (λ i. IsEntryAt key.now i entries.now) }
{
    for (index, entry) in entries.iter().enumerate() {
        if is_named(key, entry.name.text()) {
            return Some(index);
        }
    }
    None
}

/// Gives an entry its value.
pub(crate) fn fill(entries: &mut Vec<Entry>, index: usize, value: Value)
    requires { index < length entries.old.items }
    ensures { IsFilled index value entries.old.items entries.new.items }
{
    entries[index].value = value;
}

/// Whether each entry that is null is known to be of a type that null fits.
pub(crate) fn nulls_fit(alloc: Global, shape: Shape<'_>, entries: &[Entry]) -> bool
    ensures { OnTrue result (NullsFit (fields_at shape.entry) entries.now) }
{
    for (index, entry) in entries.iter().enumerate() {
        if !may_be_null(alloc, shape, index, &entry.value) {
            return false;
        }
    }
    true
}

/// Whether a value isn't null, or is for a field that null is known to fit.
fn may_be_null(alloc: Global, shape: Shape<'_>, index: usize, value: &Value) -> bool
    ensures { OnTrue result (MayBeNullAt index (fields_at shape.entry) (view_value value.now)) }
{
    !is_null(value) || shape.takes_null(alloc, index)
}

/// Whether a value is null.
fn is_null(value: &Value) -> bool
    ensures { result ≡ is_null_value (view_value value.now) }
{
    match value {
        Value::Null => true,
        Value::Bool(_) => false,
        Value::Int(_) => false,
        Value::Str(_) => false,
        Value::List(_) => false,
        Value::Map(_) => false,
        Value::Fields(_) => false,
    }
}
