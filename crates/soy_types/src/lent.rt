//! JSON values whose texts are lent, not copied.

ghost use Rattle.std.specs.Prelude.{◌≡◌, ◌<◌, IfOk, OnOk, Some, encode_utf8_all, is_some, length, option_map, true};
ghost use Rattle.std.specs.Bool.{OnTrue};
ghost use Rattle.std.specs.Str.{bytes_eq};
ghost use Rattle.json.specs.Find.{get as get_named, get_member};
ghost use Rattle.json.specs.Json.{value};
ghost use Rattle.json.specs.Value.{items_view, members_view, value_view};
ghost use Rattle.serde_json.specs.Data.{no_members};
ghost use Rattle.serde_json.specs.Find.{get};
ghost use Rattle.serde_json.specs.Read.{number_of};
ghost use Rattle.soy_types.specs.LentData.{data_in_order, data_members, data_of, has_values};
ghost use Rattle.soy_types.specs.LentData.{items_have_values, members_have_values};

use crate::number::int_of;
use crate::unread::Unread;
use json::{Error, Reader, Value as Lent};
use soy_base::{OutOfMemory, Text};
use std::alloc::Global;
use std::collections::BTreeMap;

/// How deep arrays and objects may nest.
pub(crate) const MAX_DEPTH: usize = 127;

/// The JSON value that a reader has next, if each of its numbers has a value.
pub(crate) fn read_tree<'a>(
    alloc: Global,
    reader: &mut Reader<'a>,
    depth: usize,
) -> Result<Lent<'a>, Unread>
    ensures tree { IfOk result (λ json. value depth reader.old ≡ Some (value_view json, reader.new)) }
    ensures values { IfOk result (λ json. has_values (value_view json) ≡ true) }
    ensures shorter { OnOk result (length reader.new < length reader.old) }
{
    match Lent::read(alloc, reader, depth) {
        Ok(json) => with_values(json),
        Err(Error::OutOfMemory) => Err(Unread::OutOfMemory),
        Err(_) => Err(Unread::Undecided),
    }
}

/// A JSON value, if each of its numbers has a value.
fn with_values<'a>(json: Lent<'a>) -> Result<Lent<'a>, Unread>
    ensures same { IfOk result (λ kept. kept ≡ json.entry) }
    ensures values { IfOk result (λ kept. has_values (value_view kept) ≡ true) }
{
    if has_values(&json) {
        Ok(json)
    } else {
        Err(Unread::Undecided)
    }
}

/// Whether each number has a value.
#[cycle(values)]
fn has_values(json: &Lent<'_>) -> bool
    ensures { result ≡ has_values (value_view json.now) }
{
    match json {
        Lent::Number(text) => has_value(text),
        Lent::Array(items) => items_have_values(items),
        Lent::Object(members) => members_have_values(members),
        _ => true,
    }
}

/// Whether a number has a value.
#[inline(never)]
fn has_value(text: &str) -> bool
    ensures { result ≡ is_some (number_of text.now) }
{
    int_of(text).is_some()
}

/// Whether this is known to have no number, as most are.
fn is_plain(json: &Lent<'_>) -> bool
    ensures { OnTrue result (has_values (value_view json.now) ≡ true) }
{
    match json {
        Lent::String(_) => true,
        Lent::Bool(_) => true,
        Lent::Null => true,
        _ => false,
    }
}

/// Whether each number in items has a value.
#[cycle(values)]
fn items_have_values(items: &Vec<Lent<'_>>) -> bool
    ensures { result ≡ items_have_values (items_view items.now.items) }
{
    for item in items {
        if !is_plain(item) && !has_values(item) {
            return false;
        }
    }
    true
}

/// Whether each number in members has a value.
#[cycle(values)]
fn members_have_values(members: &Vec<(&str, Lent<'_>)>) -> bool
    ensures { result ≡ members_have_values (members_view members.now.items) }
{
    for member in members {
        if !is_plain(&member.1) && !has_values(&member.1) {
            return false;
        }
    }
    true
}

/// The last member of a name, where this is an object.
pub(crate) fn member_of<'v, 'a>(json: &'v Lent<'a>, name: &Text) -> Option<&'v Lent<'a>>
    ensures { option_map (λ v. data_of (value_view v.now)) result
        ≡ get (encode_utf8_all name.now) (data_of (value_view json.now)) }
{
    last_named(json, name.text())
}

/// The last member of a name, in bytes, where this is an object.
fn last_named<'v, 'a>(json: &'v Lent<'a>, name: &str) -> Option<&'v Lent<'a>>
    ensures { option_map (λ v. value_view v.now) result ≡ get_named name.now (value_view json.now) }
{
    if let Lent::Object(members) = json {
        last_of(members, name)
    } else {
        None
    }
}

/// The last of the members that have a name.
fn last_of<'v, 'a>(members: &'v Vec<(&'a str, Lent<'a>)>, name: &str) -> Option<&'v Lent<'a>>
    ensures { option_map (λ v. value_view v.now) result ≡ get_member name.now (members_view members.now.items) }
{
    let mut left = members.len();
    while left > 0 {
        left -= 1;
        let member = &members[left];
        if is_named(member.0, name) {
            return Some(&member.1);
        }
    }
    None
}

/// Whether a key is a name; most others have another length.
pub(crate) fn is_named(key: &str, name: &str) -> bool
    ensures { result ≡ bytes_eq key.now name.now }
{
    key.len() == name.len() && has_bytes(key, name)
}

/// Whether a key has the bytes of a name.
#[inline(never)]
fn has_bytes(key: &str, name: &str) -> bool
    ensures { result ≡ bytes_eq key.now name.now }
{
    key == name
}

/// The members of an object in the order of their keys, the last of one name.
pub(crate) fn in_order<'v, 'a>(
    alloc: Global,
    members: &'v Vec<(&'a str, Lent<'a>)>,
) -> Result<BTreeMap<&'a str, &'v Lent<'a>>, OutOfMemory>
    ensures { IfOk result (λ found. data_in_order found.entries
        ≡ data_members (members_view members.now.items) no_members) }
{
    let mut found = BTreeMap::new(alloc);
    for member in members {
        found.insert(member.0, &member.1)?;
    }
    Ok(found)
}
