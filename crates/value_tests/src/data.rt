//! Tests of what is read: values, paths and codes, as texts.

use soy_base::{
    Boxed, Code, OutOfMemory, PathStep, Refusal, Seq, Span, Text, push_char, push_text,
};
use soy_tree::{Entry, Field, Param, SoyType, Value};
use soy_types::read_data;
use std::alloc::Global;

/// The types of the rows.
#[derive(Clone, Copy)]
enum Of {
    Null,
    Bool,
    Int,
    Str,
    Html,
    /// `list<int>`
    Ints,
    /// `list<int>|null`
    IntsOrNull,
    /// `null|list<int>`
    NullOrInts,
    /// `map<string, int>`
    Counts,
    /// `[y: int, x: int|null]`
    Record,
    /// `map<string, int>|[y: int]`
    MapOrRecord,
    /// `[y: int]|map<string, int>`
    RecordOrMap,
    /// `[y: int, x: int|null]|[y: string, z: bool]`
    Records,
    /// `[m: map<string, int>, l: list<int>]`
    MapAndList,
}

fn pair(alloc: Global, first: SoyType, second: SoyType) -> Result<SoyType, OutOfMemory> {
    let mut members = Vec::new(alloc);
    members.push(first)?;
    members.push(second)?;
    Ok(SoyType::Union(Seq::new(members)))
}

fn ints(alloc: Global) -> Result<SoyType, OutOfMemory> {
    Ok(SoyType::List(Boxed::new(alloc, SoyType::Int)?))
}

fn counts(alloc: Global) -> Result<SoyType, OutOfMemory> {
    Ok(SoyType::Map(Boxed::new(alloc, SoyType::Int)?))
}

fn text_of(alloc: Global, text: &str) -> Result<Text, OutOfMemory> {
    Ok(Text::new(String::from_str(alloc, text)?))
}

fn record(alloc: Global) -> Result<SoyType, OutOfMemory> {
    let of = pair(alloc, SoyType::Int, SoyType::Null)?;
    let y = text_of(alloc, "y")?;
    let x = text_of(alloc, "x")?;
    let mut fields = Vec::new(alloc);
    fields.push(Field {
        name: y,
        of: SoyType::Int,
    })?;
    fields.push(Field { name: x, of })?;
    Ok(SoyType::Fields(Seq::new(fields)))
}

fn one_field(alloc: Global) -> Result<SoyType, OutOfMemory> {
    let name = text_of(alloc, "y")?;
    let mut fields = Vec::new(alloc);
    fields.push(Field {
        name,
        of: SoyType::Int,
    })?;
    Ok(SoyType::Fields(Seq::new(fields)))
}

fn other_record(alloc: Global) -> Result<SoyType, OutOfMemory> {
    let y = text_of(alloc, "y")?;
    let z = text_of(alloc, "z")?;
    let mut fields = Vec::new(alloc);
    fields.push(Field {
        name: y,
        of: SoyType::Str,
    })?;
    fields.push(Field {
        name: z,
        of: SoyType::Bool,
    })?;
    Ok(SoyType::Fields(Seq::new(fields)))
}

fn map_and_list(alloc: Global) -> Result<SoyType, OutOfMemory> {
    let m = text_of(alloc, "m")?;
    let l = text_of(alloc, "l")?;
    let mut fields = Vec::new(alloc);
    fields.push(Field {
        name: m,
        of: counts(alloc)?,
    })?;
    fields.push(Field {
        name: l,
        of: ints(alloc)?,
    })?;
    Ok(SoyType::Fields(Seq::new(fields)))
}

fn type_of(alloc: Global, of: Of) -> Result<SoyType, OutOfMemory> {
    match of {
        Of::Null => Ok(SoyType::Null),
        Of::Bool => Ok(SoyType::Bool),
        Of::Int => Ok(SoyType::Int),
        Of::Str => Ok(SoyType::Str),
        Of::Html => Ok(SoyType::Html),
        Of::Ints => ints(alloc),
        Of::IntsOrNull => pair(alloc, ints(alloc)?, SoyType::Null),
        Of::NullOrInts => pair(alloc, SoyType::Null, ints(alloc)?),
        Of::Counts => counts(alloc),
        Of::Record => record(alloc),
        Of::MapOrRecord => pair(alloc, counts(alloc)?, one_field(alloc)?),
        Of::RecordOrMap => pair(alloc, one_field(alloc)?, counts(alloc)?),
        Of::Records => pair(alloc, record(alloc)?, other_record(alloc)?),
        Of::MapAndList => map_and_list(alloc),
    }
}

/// The one parameter `a`.
fn params(alloc: Global, of: Of, required: bool) -> Result<Vec<Param>, OutOfMemory> {
    let of = type_of(alloc, of)?;
    let name = text_of(alloc, "a")?;
    let span = Span { start: 0, end: 0 };
    let mut params = Vec::new(alloc);
    params.push(Param {
        name,
        of,
        required,
        span,
    })?;
    Ok(params)
}

#[cycle(showing)]
fn show(alloc: Global, out: &mut String, value: &Value) -> Result<(), OutOfMemory> {
    match value {
        Value::Null => push_text(out, "null"),
        Value::Bool(true) => push_text(out, "true"),
        Value::Bool(false) => push_text(out, "false"),
        Value::Int(number) => {
            let digits = number.to_string(alloc)?;
            push_text(out, digits.as_str())
        }
        Value::Str(text) => {
            push_char(out, '\'')?;
            push_text(out, text.text())?;
            push_char(out, '\'')
        }
        Value::List(items) => show_items(alloc, out, items.items()),
        Value::Map(entries) => {
            push_text(out, "map")?;
            show_entries(alloc, out, entries.items())
        }
        Value::Fields(entries) => show_entries(alloc, out, entries.items()),
    }
}

#[cycle(showing)]
fn show_items(alloc: Global, out: &mut String, items: &[Value]) -> Result<(), OutOfMemory> {
    push_char(out, '[')?;
    for item in items {
        show(alloc, out, item)?;
        push_char(out, ' ')?;
    }
    push_char(out, ']')
}

#[cycle(showing)]
fn show_entries(alloc: Global, out: &mut String, entries: &[Entry]) -> Result<(), OutOfMemory> {
    push_char(out, '{')?;
    for entry in entries {
        push_text(out, entry.name.text())?;
        push_char(out, '=')?;
        show(alloc, out, &entry.value)?;
        push_char(out, ' ')?;
    }
    push_char(out, '}')
}

fn show_step(alloc: Global, out: &mut String, step: &PathStep) -> Result<(), OutOfMemory> {
    push_char(out, '/')?;
    match step {
        PathStep::Key(key) => push_text(out, key.text()),
        PathStep::Index(index) => {
            let digits = index.to_string(alloc)?;
            push_text(out, digits.as_str())
        }
    }
}

/// What is answered, as a text.
fn shown(alloc: Global, bytes: &[u8], params: &[Param]) -> Result<String, OutOfMemory> {
    let mut out = String::new(alloc);
    match read_data(alloc, bytes, params) {
        Ok(value) => show(alloc, &mut out, &value)?,
        Err(Refusal::Because(fault)) => {
            push_text(&mut out, fault.code.word())?;
            for step in fault.path.items() {
                show_step(alloc, &mut out, step)?;
            }
        }
        Err(Refusal::OutOfMemory) => return Err(OutOfMemory),
    }
    Ok(out)
}

fn answer(alloc: Global, row: &(Of, bool, &str, &str)) -> Result<String, OutOfMemory> {
    let params = params(alloc, row.0, row.1)?;
    shown(alloc, row.2.as_bytes(), params.as_slice())
}

/// The type of `a`, whether it is required, the data, the answer.
const ROWS: &[(Of, bool, &str, &str)] = &[
    (Of::Null, true, "{\"a\":null}", "{a=null }"),
    (Of::Bool, true, "{\"a\":true}", "{a=true }"),
    (Of::Int, true, "{\"a\":-7}", "{a=-7 }"),
    (
        Of::Int,
        true,
        "{\"a\":9007199254740991}",
        "{a=9007199254740991 }",
    ),
    (
        Of::Int,
        true,
        "{\"a\":-9007199254740991}",
        "{a=-9007199254740991 }",
    ),
    (
        Of::Str,
        true,
        "{\"a\":\"\\ud83d\\ude00\\u0000é\"}",
        "{a='\u{1F600}\u{0}é' }",
    ),
    (Of::Ints, true, "{\"a\":[1,2]}", "{a=[1 2 ] }"),
    // numbers that are no ints
    (Of::Int, true, "{\"a\":9007199254740992}", "DataType/a"),
    (Of::Int, true, "{\"a\":-9007199254740992}", "DataType/a"),
    (Of::Int, true, "{\"a\":-0}", "DataType/a"),
    (Of::Int, true, "{\"a\":1.0}", "DataType/a"),
    (Of::Int, true, "{\"a\":1e2}", "DataType/a"),
    (Of::Int, true, "{\"a\":18446744073709551616}", "DataType/a"),
    (Of::Ints, true, "{\"a\":[1,-0]}", "DataType/a/1"),
    (Of::Ints, true, "{\"a\":[1,1e2]}", "DataType/a/1"),
    (
        Of::Ints,
        true,
        "{\"a\":[1,9007199254740992]}",
        "DataType/a/1",
    ),
    // numbers that no type names, which are read too
    (
        Of::Int,
        true,
        "{\"a\":1,\"b\":[-0.5,1e99,-18446744073709551616]}",
        "{a=1 }",
    ),
    (Of::Int, true, "{\"a\":1,\"b\":1e999}", "Data"),
    // other types
    (Of::Int, true, "{\"a\":\"1\"}", "DataType/a"),
    (Of::Html, true, "{\"a\":\"x\"}", "DataType/a"),
    (Of::Ints, true, "{\"a\":[1,null,\"x\"]}", "DataType/a/1"),
    (
        Of::Counts,
        true,
        "{\"a\":{\"z\":1,\"b\":null,\"é\":null}}",
        "DataType/a/b",
    ),
    (Of::Record, true, "{\"a\":[]}", "DataType/a"),
    // entries in the order of their keys' bytes; of two of one key the last
    (
        Of::Counts,
        true,
        "{\"a\":{\"z\":1,\"\":2,\"B\":3,\"b\":4}}",
        "{a=map{=2 B=3 b=4 z=1 } }",
    ),
    (
        Of::Counts,
        true,
        "{\"a\":{\"z\":1,\"z\":2}}",
        "{a=map{z=2 } }",
    ),
    // fields in the order of the type, null where one is missing
    (
        Of::Record,
        true,
        "{\"a\":{\"x\":1,\"y\":2,\"z\":3}}",
        "{a={y=2 x=1 } }",
    ),
    (Of::Record, true, "{\"a\":{\"y\":2}}", "{a={y=2 x=null } }"),
    (Of::Record, true, "{\"a\":{\"x\":2}}", "DataType/a/y"),
    // of two members of one name the last
    (Of::Int, true, "{\"a\":1,\"a\":2}", "{a=2 }"),
    (Of::Int, true, "{\"a\":null,\"a\":1}", "{a=1 }"),
    (Of::Int, true, "{\"a\":1,\"a\":null}", "DataType/a"),
    (
        Of::Record,
        true,
        "{\"a\":{\"y\":1,\"y\":2}}",
        "{a={y=2 x=null } }",
    ),
    // a map beside a list
    (
        Of::MapAndList,
        true,
        "{\"a\":{\"l\":[1],\"m\":{\"z\":1,\"b\":2}}}",
        "{a={m=map{b=2 z=1 } l=[1 ] } }",
    ),
    // the first member that fits, and the path to the union
    (Of::MapOrRecord, true, "{\"a\":{\"y\":1}}", "{a=map{y=1 } }"),
    (Of::RecordOrMap, true, "{\"a\":{\"y\":1}}", "{a={y=1 } }"),
    (Of::RecordOrMap, true, "{\"a\":{\"x\":1}}", "{a=map{x=1 } }"),
    (Of::Records, true, "{\"a\":{\"y\":1}}", "{a={y=1 x=null } }"),
    (
        Of::Records,
        true,
        "{\"a\":{\"z\":true,\"y\":\"s\"}}",
        "{a={y='s' z=true } }",
    ),
    (Of::Records, true, "{\"a\":{\"y\":\"s\"}}", "DataType/a"),
    (
        Of::Records,
        true,
        "{\"a\":{\"y\":1,\"x\":\"s\"}}",
        "DataType/a",
    ),
    (Of::Records, true, "{\"a\":[1]}", "DataType/a"),
    (Of::NullOrInts, true, "{\"a\":[1]}", "{a=[1 ] }"),
    (Of::NullOrInts, true, "{\"a\":[null]}", "DataType/a"),
    (Of::IntsOrNull, true, "{\"a\":[1,null]}", "DataType/a"),
    (Of::IntsOrNull, true, "{\"a\":null}", "{a=null }"),
    // a parameter that isn't required, and one that is missing
    (Of::Ints, false, "{\"a\":null}", "{a=null }"),
    (Of::Ints, false, "{}", "{a=null }"),
    (Of::Ints, false, "[]", "{a=null }"),
    (Of::Ints, false, "{\"a\":[null]}", "DataType/a"),
    (Of::Ints, true, "{}", "DataType/a"),
    (Of::Null, true, "1", "{a=null }"),
    // no JSON
    (Of::Null, true, "", "Data"),
    (Of::Null, true, "{\"a\":1,}", "Data"),
    (Of::Null, true, "{\"a\":null}x", "Data"),
    (Of::Str, true, "{\"a\":\"\\ud83d\"}", "Data"),
];

#[test]
fn data_are_read_at_the_types_of_parameters(rt: HostRuntime) {
    for row in ROWS {
        let Ok(text) = answer(rt.alloc(), row) else {
            assert!(rt; false);
            return;
        };
        assert_eq!(rt; text.as_str(), row.3);
    }
}

#[test]
fn bytes_that_are_no_utf8_are_no_json(rt: HostRuntime) {
    let Err(Refusal::Because(fault)) = read_data(rt.alloc(), b"\"\xff\"", &[]) else {
        assert!(rt; false);
        return;
    };
    assert_eq!(rt; fault.code, Code::NotJson);
    assert!(rt; fault.path.items().is_empty());
}

/// So many lists in one another.
fn nested(alloc: Global, depth: usize) -> Result<String, OutOfMemory> {
    let mut text = String::new(alloc);
    for _ in 0..depth {
        push_char(&mut text, '[')?;
    }
    for _ in 0..depth {
        push_char(&mut text, ']')?;
    }
    Ok(text)
}

/// Whether so many lists in one another are read, under a name that isn't asked for.
fn is_passed(alloc: Global, depth: usize) -> Result<bool, OutOfMemory> {
    let mut text = String::from_str(alloc, "{\"a\":1,\"b\":")?;
    push_text(&mut text, nested(alloc, depth)?.as_str())?;
    push_char(&mut text, '}')?;
    let params = params(alloc, Of::Int, true)?;
    Ok(read_data(alloc, text.as_bytes(), params.as_slice()).is_ok())
}

fn is_read(alloc: Global, depth: usize) -> Result<bool, OutOfMemory> {
    let text = nested(alloc, depth)?;
    Ok(read_data(alloc, text.as_bytes(), &[]).is_ok())
}

#[test]
fn data_nest_at_most_127_deep(rt: HostRuntime) {
    assert!(rt; matches!(is_read(rt.alloc(), 127), Ok(true)));
    assert!(rt; matches!(is_read(rt.alloc(), 128), Ok(false)));
    assert!(rt; matches!(is_passed(rt.alloc(), 126), Ok(true)));
    assert!(rt; matches!(is_passed(rt.alloc(), 127), Ok(false)));
}
