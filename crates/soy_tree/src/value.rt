//! The values of expressions.

ghost use Rattle.std.specs.Prelude.{◌≡◌, IfOk};

use soy_base::{OutOfMemory, Seq, Text};
use std::alloc::Global;

/// A value that data or an expression has.
#[derive(Drop)]
#[cycle(values)]
pub enum Value {
    Null,
    Bool(bool),
    Int(i64),
    Str(Text),
    List(Seq<Value>),
    Map(Seq<Entry>),
    Fields(Seq<Entry>),
}

/// An entry of a map, or a field of a record; of two of one name the first counts.
#[derive(Drop)]
#[cycle(values)]
pub struct Entry {
    pub name: Text,
    pub value: Value,
}

impl Value {
    /// An equal value.
    #[cycle(copying_values)]
    pub fn copy(&self, alloc: Global) -> Result<Value, OutOfMemory>
        ensures { IfOk result (λ v. v ≡ self.now) }
    {
        Ok(match self {
            Value::Null => Value::Null,
            Value::Bool(is) => Value::Bool(*is),
            Value::Int(number) => Value::Int(*number),
            Value::Str(text) => Value::Str(text.copy(alloc)?),
            Value::List(items) => Value::List(copied_items(alloc, items.items())?),
            Value::Map(entries) => Value::Map(copied_entries(alloc, entries.items())?),
            Value::Fields(entries) => Value::Fields(copied_entries(alloc, entries.items())?),
        })
    }
}

/// Equal values.
#[cycle(copying_values)]
fn copied_items(alloc: Global, items: &[Value]) -> Result<Seq<Value>, OutOfMemory>
    ensures { IfOk result (λ vs. vs ≡ items.now) }
{
    let mut copied = Vec::new(alloc);
    for item in items {
        copied.push(item.copy(alloc)?)?;
    }
    Ok(Seq::new(copied))
}

/// Equal entries.
#[cycle(copying_values)]
fn copied_entries(alloc: Global, entries: &[Entry]) -> Result<Seq<Entry>, OutOfMemory>
    ensures { IfOk result (λ es. es ≡ entries.now) }
{
    let mut copied = Vec::new(alloc);
    for entry in entries {
        let name = entry.name.copy(alloc)?;
        let value = entry.value.copy(alloc)?;
        copied.push(Entry { name, value })?;
    }
    Ok(Seq::new(copied))
}
