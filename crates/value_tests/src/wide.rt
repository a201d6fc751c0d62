//! Data of more than 32 members at as many fields, and types of as many fields and members, for which there are maps.

use soy_base::{OutOfMemory, Refusal, Seq, Span, Text, push_char, push_text};
use soy_expr::joined;
use soy_rules::accepts_by_names;
use soy_tree::{Field, Param, SoyType, Value};
use soy_types::{DataFault, read_data};
use std::alloc::Global;

const SPAN: Span = Span { start: 0, end: 0 };

/// The names of 33 fields.
const LETTERS: &str = "abcdefghijklmnopqrstuvwxyzABCDEFG";

fn name(alloc: Global, letter: char) -> Result<Text, OutOfMemory> {
    let mut text = String::new(alloc);
    push_char(&mut text, letter)?;
    Ok(Text::new(text))
}

fn param(alloc: Global, letter: char, of: SoyType) -> Result<Param, OutOfMemory> {
    Ok(Param {
        name: name(alloc, letter)?,
        of,
        required: true,
        span: SPAN,
    })
}

/// A parameter of type int for each name.
fn params(alloc: Global) -> Result<Vec<Param>, OutOfMemory> {
    let mut params = Vec::new(alloc);
    for letter in LETTERS.chars() {
        params.push(param(alloc, letter, SoyType::Int)?)?;
    }
    Ok(params)
}

fn field(alloc: Global, letter: char) -> Result<Field, OutOfMemory> {
    Ok(Field {
        name: name(alloc, letter)?,
        of: SoyType::Int,
    })
}

/// The record of an int for each name.
fn record(alloc: Global) -> Result<SoyType, OutOfMemory> {
    let mut fields = Vec::new(alloc);
    for letter in LETTERS.chars() {
        fields.push(field(alloc, letter)?)?;
    }
    Ok(SoyType::Fields(Seq::new(fields)))
}

/// An object with 1 under each name, and 0 under one that no field has.
fn push_object(json: &mut String) -> Result<(), OutOfMemory> {
    push_text(json, "{\"?\":0")?;
    for letter in LETTERS.chars() {
        push_text(json, ",\"")?;
        push_char(json, letter)?;
        push_text(json, "\":1")?;
    }
    push_char(json, '}')
}

/// The data of the parameters.
fn params_json(alloc: Global) -> Result<String, OutOfMemory> {
    let mut json = String::new(alloc);
    push_object(&mut json)?;
    Ok(json)
}

/// The data of a parameter `r` of the record.
fn record_json(alloc: Global) -> Result<String, OutOfMemory> {
    let mut json = String::from_str(alloc, "{\"r\":")?;
    push_object(&mut json)?;
    push_char(&mut json, '}')?;
    Ok(json)
}

fn read_params(alloc: Global) -> Result<Value, Refusal<DataFault>> {
    let json = params_json(alloc)?;
    let params = params(alloc)?;
    read_data(alloc, json.as_bytes(), params.as_slice())
}

fn read_record(alloc: Global) -> Result<Value, Refusal<DataFault>> {
    let json = record_json(alloc)?;
    let param = param(alloc, 'r', record(alloc)?)?;
    read_data(alloc, json.as_bytes(), &[param])
}

/// How many fields a record has.
fn field_count(value: &Value) -> usize {
    match value {
        Value::Fields(fields) => fields.items().len(),
        _ => 0,
    }
}

#[test]
fn parameters_of_33_names(rt: HostRuntime) {
    match read_params(rt.alloc()) {
        Ok(value) => assert_eq!(rt; field_count(&value), 33),
        Err(_) => assert!(rt; false),
    }
}

#[test]
fn a_record_of_33_fields(rt: HostRuntime) {
    let Ok(Value::Fields(fields)) = read_record(rt.alloc()) else {
        assert!(rt; false);
        return;
    };
    match fields.items().first() {
        Some(entry) => assert_eq!(rt; field_count(&entry.value), 33),
        None => assert!(rt; false),
    }
}

/// The union of a record with one of the names for each name.
fn records(alloc: Global) -> Result<SoyType, OutOfMemory> {
    let mut members = Vec::new(alloc);
    for letter in LETTERS.chars() {
        let mut fields = Vec::new(alloc);
        fields.push(field(alloc, letter)?)?;
        members.push(SoyType::Fields(Seq::new(fields)))?;
    }
    Ok(SoyType::Union(Seq::new(members)))
}

/// How many members a type has as it is written.
fn member_count(of: &SoyType) -> usize {
    match of {
        SoyType::Union(members) => members.items().len(),
        _ => 1,
    }
}

/// Whether wide types accept themselves, and not null.
fn are_accepted(alloc: Global) -> Result<bool, OutOfMemory> {
    let record = record(alloc)?;
    let records = records(alloc)?;
    Ok(
        accepts_by_names(alloc, &record, &record)?
            && accepts_by_names(alloc, &records, &records)?
            && !accepts_by_names(alloc, &records, &SoyType::Null)?,
    )
}

/// How many members a union of 33 records has, joined with itself.
fn joined_count(alloc: Global) -> Result<usize, OutOfMemory> {
    let records = records(alloc)?;
    Ok(member_count(&joined(alloc, &records, &records)?))
}

#[test]
fn types_of_33_names_are_accepted_and_joined(rt: HostRuntime) {
    let (Ok(are_accepted), Ok(count)) = (are_accepted(rt.alloc()), joined_count(rt.alloc())) else {
        assert!(rt; false);
        return;
    };
    assert!(rt; are_accepted && count == 33);
}
