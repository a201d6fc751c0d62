//! Accesses to the parts of values.

ghost use Rattle.std.specs.Prelude.{◌≡◌, IfOk, option_map, slice_get, unwrap_or};
ghost use Rattle.soy_rules.specs.Has.{entry_value};
ghost use Rattle.soy_rules.specs.Val.{Known, index_value, member_value, operand};
ghost use Rattle.soy_tree.specs.Values.{IntValue, ListValue, MapValue, NullValue, RecordValue};
ghost use Rattle.soy_tree.specs.ViewValues.{view_entries, view_items, view_value};
ghost use Rattle.soy_expr.specs.Parts.{IsChild, found_value};
ghost use Rattle.soy_expr.specs.ViewEvaluated.{IsBinding, NamesPart, view_evaluated};
ghost use Rattle.soy_expr.specs.ViewShallow.{view_shallow};

use crate::{Evaluated, Made, Shallow, Variables};
use soy_base::{OutOfMemory, Text};
use soy_tree::{Entry, Value};

/// The field of a name, or null.
pub(crate) fn member<'a, V: Variables>(
    variables: &V,
    of: Evaluated<'a, V::Path>,
    name: &Text,
) -> Result<Evaluated<'a, V::Path>, OutOfMemory>
    requires { NamesPart (V.Names variables.now) of }
    ensures { IfOk result (IsBinding (V.Names variables.now)
        (Known (member_value name.now (operand (view_evaluated of.entry))))) }
{
    let Evaluated::Part(whole, path) = of else {
        return Ok(Evaluated::Made(Made::Null));
    };
    part(variables, whole, field(whole, name), path)
}

/// The item of a list or the entry of a map, or null where nothing is there.
pub(crate) fn item<'a, V: Variables>(
    variables: &V,
    of: Evaluated<'a, V::Path>,
    index: Shallow,
) -> Result<Evaluated<'a, V::Path>, OutOfMemory>
    requires { NamesPart (V.Names variables.now) of }
    ensures { IfOk result (IsBinding (V.Names variables.now)
        (Known (index_value (operand (view_evaluated of.entry)) (view_shallow index.entry)))) }
{
    let Evaluated::Part(whole, path) = of else {
        return Ok(Evaluated::Made(Made::Null));
    };
    part(variables, whole, item_or_entry(whole, index), path)
}

/// The part that was found in the one that a path names, or null.
fn part<'a, V: Variables>(
    variables: &V,
    whole: &Value,
    found: Option<(usize, &'a Value)>,
    path: V::Path,
) -> Result<Evaluated<'a, V::Path>, OutOfMemory>
    requires named { V.Names variables.now path (view_value whole.now) }
    requires child { IsChild (view_value whole.now) found }
    ensures { IfOk result (IsBinding (V.Names variables.now) (Known (found_value found.entry))) }
{
    match found {
        Some((number, value)) => Ok(Evaluated::Part(value, variables.inside(path, number)?)),
        None => Ok(Evaluated::Made(Made::Null)),
    }
}

/// The field of a name in a record.
fn field<'a>(whole: &'a Value, name: &Text) -> Option<(usize, &'a Value)>
    ensures value { found_value result ≡ member_value name.now (view_value whole.now) }
    ensures child { IsChild (view_value whole.now) result }
{
    match whole {
        Value::Null => None,
        Value::Bool(_) => None,
        Value::Int(_) => None,
        Value::Str(_) => None,
        Value::List(_) => None,
        Value::Map(_) => None,
        Value::Fields(entries) => first_entry(entries.items(), name),
    }
}

/// The item of a number in a list, or the entry of a key in a map.
fn item_or_entry<'a>(whole: &'a Value, index: Shallow) -> Option<(usize, &'a Value)>
    ensures value { found_value result ≡ index_value (view_value whole.now) (view_shallow index.entry) }
    ensures child { IsChild (view_value whole.now) result }
{
    match whole {
        Value::Null => None,
        Value::Bool(_) => None,
        Value::Int(_) => None,
        Value::Str(_) => None,
        Value::List(items) => item_at(items.items(), index),
        Value::Map(entries) => entry_at(entries.items(), index),
        Value::Fields(_) => None,
    }
}

fn item_at<'a>(items: &'a [Value], index: Shallow) -> Option<(usize, &'a Value)>
    ensures value { found_value result ≡ index_value (ListValue (view_items items.now)) (view_shallow index.entry) }
    ensures child { IsChild (ListValue (view_items items.now)) result }
{
    match index {
        Shallow::Null => None,
        Shallow::Bool(_) => None,
        Shallow::Int(number) => nth_item(items, number),
        Shallow::Str(_) => None,
        Shallow::Compound => None,
    }
}

fn entry_at<'a>(entries: &'a [Entry], index: Shallow) -> Option<(usize, &'a Value)>
    ensures value { found_value result ≡ index_value (MapValue (view_entries entries.now)) (view_shallow index.entry) }
    ensures child { IsChild (MapValue (view_entries entries.now)) result }
{
    match index {
        Shallow::Null => None,
        Shallow::Bool(_) => None,
        Shallow::Int(_) => None,
        Shallow::Str(key) => first_entry(entries, key),
        Shallow::Compound => None,
    }
}

#[tactic(auto, using(crate::proofs::PartRows::item_some, crate::proofs::PartRows::item_none))]
fn nth_item(items: &[Value], number: i64) -> Option<(usize, &Value)>
    ensures value { found_value result ≡ index_value (ListValue (view_items items.now)) (IntValue number) }
    ensures child { IsChild (ListValue (view_items items.now)) result }
{
    if number < 0 {
        return None;
    }
    let index = number as usize;
    match value_at(items, index) {
        Some(value) => Some((index, value)),
        None => None,
    }
}

fn value_at(items: &[Value], index: usize) -> Option<&Value>
    ensures { option_map (λ v. v.now) result ≡ slice_get items.now index }
{
    items.get(index)
}

/// The first entry of a name.
#[tactic(auto, using(crate::proofs::PartRows::entry_nth, crate::proofs::PartRows::entry_passed))]
fn first_entry<'a>(entries: &'a [Entry], name: &Text) -> Option<(usize, &'a Value)>
    ensures value { found_value result ≡ unwrap_or (entry_value name.now (view_entries entries.now)) NullValue }
    ensures map_child { IsChild (MapValue (view_entries entries.now)) result }
    ensures record_child { IsChild (RecordValue (view_entries entries.now)) result }
{
    for (number, entry) in entries.iter().enumerate() {
        if entry.name.is(name.text()) {
            return Some((number, &entry.value));
        }
    }
    None
}
