//! The data of a page.

ghost use Rattle.std.specs.Prelude.{◌≡◌, IfOk, Ok, Result, option_map, unwrap_or};
ghost use Rattle.serde_json.specs.Data.{null};
ghost use Rattle.serde_json.specs.Find.{get};
ghost use Rattle.serde_json.specs.Read.{read};
ghost use Rattle.serde_json.specs.View.{view};
ghost use Rattle.soy_rules.specs.Templates.{param_type};
ghost use Rattle.soy_rules.specs.Members.{joined};
ghost use Rattle.soy_tree.specs.Values as values;
ghost use Rattle.soy_tree.specs.Types.{NullType};
ghost use Rattle.soy_tree.specs.ViewTrees.{view_param, view_params};
ghost use Rattle.soy_tree.specs.ViewTypes.{view_type};
ghost use Rattle.soy_tree.specs.ViewValues.{view_value};
ghost use Rattle.soy_base.specs.Path.{Path};
ghost use Rattle.soy_types.specs.Read.{value_at};
ghost use Rattle.soy_types.specs.ReadData.{data_at, json_of, refused, values_at, values_of_json};
ghost use Rattle.soy_types.specs.Reads.{Reads, ReadsData, ReadsShort};

use crate::DataFault;
use crate::path::{Path, at_key, steps_of, unfit};
use crate::reading::read_value;
use crate::room::{put, with_room};
use crate::token_reading::read_document;
use crate::unread::Unread;
use json::{Reader, Scratch};
use serde_json::Value as Json;
use soy_base::{Code, OutOfMemory, Refusal, Seq};
use soy_tree::{Param, SoyType, Value};
use std::alloc::Global;
use std::str;

/// The values of parameters, read of bytes of JSON as a record; or why there are none: 27 if the bytes aren't JSON, 28
/// and a path if a part doesn't fit, or out of memory.
pub fn read_data(alloc: Global, bytes: &[u8], params: &[Param]) -> Result<Value, Refusal<DataFault>>
    ensures value { ReadsData (data_at (view_params params.now) bytes.now) result }
    ensures short { ReadsShort result }
{
    match read_lent(alloc, bytes, params) {
        Ok(value) => Ok(value),
        Err(Unread::OutOfMemory) => Err(Refusal::OutOfMemory),
        Err(_) => read_exactly(alloc, bytes, params),
    }
}

/// The values of parameters, if they are read token by token: keys and texts are lent by the bytes or, where they have
/// escapes, by a scratch.
fn read_lent(alloc: Global, bytes: &[u8], params: &[Param]) -> Result<Value, Unread>
    ensures value { IfOk result (λ v. data_at (view_params params.now) bytes.now ≡ Ok (view_value v)) }
    ensures short { ReadsShort result }
{
    let Ok(text) = str::from_utf8(bytes) else {
        return Err(Unread::Undecided);
    };
    let mut scratch = Scratch::new(alloc);
    read_text(alloc, text, params, &mut scratch)
}

/// The values of parameters, if they are read over the texts that this one lends.
fn read_text<'a>(
    alloc: Global,
    text: &'a str,
    params: &[Param],
    scratch: &'a mut Scratch,
) -> Result<Value, Unread>
    ensures value { IfOk result
        (λ v. values_of_json (view_params params.now) (read text.now) ≡ Ok (view_value v)) }
    ensures short { ReadsShort result }
{
    let Ok(mut reader) = Reader::new(text, scratch) else {
        return Err(Unread::OutOfMemory);
    };
    read_document(alloc, &mut reader, params)
}

/// The values of parameters, or the path to the first part that doesn't fit.
fn read_exactly(alloc: Global, bytes: &[u8], params: &[Param]) -> Result<Value, Refusal<DataFault>>
    ensures value { ReadsData (data_at (view_params params.now) bytes.now) result }
    ensures short { ReadsShort result }
{
    match read_json(alloc, bytes)? {
        Some(json) => fault_of(alloc, read_params(alloc, params, &json)),
        None => Err(Refusal::Because(DataFault {
            code: Code::NotJson,
            path: Seq::new(Vec::new(alloc)),
        })),
    }
}

/// The JSON value of bytes, if they are UTF-8 and JSON.
fn read_json(alloc: Global, bytes: &[u8]) -> Result<Option<Json>, OutOfMemory>
    ensures { IfOk result (λ json. option_map view json ≡ json_of bytes.now) }
{
    let Ok(text) = str::from_utf8(bytes) else {
        return Ok(None);
    };
    match Json::from_str(alloc, text) {
        Ok(json) => Ok(Some(json)),
        Err(error) => {
            if error.is_memory() {
                return Err(OutOfMemory);
            }
            Ok(None)
        }
    }
}

/// The refusal of what doesn't fit.
fn fault_of(alloc: Global, read: Result<Value, Refusal<Path>>) -> Result<Value, Refusal<DataFault>>
    ensures value { (is : Result values.Value Path) → Reads view_value is read → ReadsData (refused is) result }
    ensures short { ReadsShort read → ReadsShort result }
{
    match read {
        Ok(value) => Ok(value),
        Err(Refusal::Because(path)) => Err(Refusal::Because(DataFault {
            code: Code::DataType,
            path: steps_of(alloc, path)?,
        })),
        Err(Refusal::OutOfMemory) => Err(Refusal::OutOfMemory),
    }
}

/// The values of parameters, as a record.
fn read_params(alloc: Global, params: &[Param], json: &Json) -> Result<Value, Refusal<Path>>
    ensures value { Reads view_value (values_at (view_params params.now) (view json.now)) result }
    ensures short { ReadsShort result }
{
    let mut entries = with_room(alloc, params.len())?;
    for param in params {
        let name = param.name.text();
        match at_key(alloc, name, read_param(alloc, param, json, name)) {
            Ok(entry) => put(&mut entries, entry)?,
            Err(refusal) => return Err(refusal),
        }
    }
    Ok(Value::Fields(Seq::new(entries)))
}

/// The value of a parameter, which is null where it is missing.
fn read_param(alloc: Global, param: &Param, json: &Json, name: &str) -> Result<Value, Refusal<Path>>
    ensures value { Reads view_value (value_at (param_type (view_param param.now))
        (unwrap_or (get name.now (view json.now)) null)) result }
    ensures short { ReadsShort result }
{
    match json.get(name) {
        Some(member) => read_given(alloc, param, member),
        None => read_given(alloc, param, &Json::Null),
    }
}

/// The value of a parameter of which this is given.
fn read_given(alloc: Global, param: &Param, json: &Json) -> Result<Value, Refusal<Path>>
    ensures value { Reads view_value (value_at (param_type (view_param param.now)) (view json.now)) result }
    ensures short { ReadsShort result }
{
    if param.required {
        read_value(alloc, &param.of, json)
    } else {
        read_optional(alloc, &param.of, json)
    }
}

/// The value at a type that also takes null.
fn read_optional(alloc: Global, of: &SoyType, json: &Json) -> Result<Value, Refusal<Path>>
    ensures value { Reads view_value (value_at (joined (view_type of.now) NullType) (view json.now)) result }
    ensures short { ReadsShort result }
{
    match read_value(alloc, of, json) {
        Ok(value) => Ok(value),
        Err(Refusal::Because(_)) if json.is_null() => Ok(Value::Null),
        Err(Refusal::Because(_)) => Err(unfit(alloc)),
        Err(Refusal::OutOfMemory) => Err(Refusal::OutOfMemory),
    }
}
