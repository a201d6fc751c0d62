//! The fields of the data, where many are looked for.

ghost use Rattle.std.specs.Prelude.{◌≡◌, IfOk, IfSome, map};
ghost use Rattle.soy_tree.specs.Values as values;
ghost use Rattle.soy_tree.specs.ViewValues.{view_entries, view_value};
ghost use Rattle.render_core.specs.Begins.{FieldFound, FindsFields, entry_names};

use crate::fields::field_number;
use soy_base::{OutOfMemory, Text};
use soy_rules::Names;
use soy_tree::{Entry, Value};
use std::alloc::Global;

/// From so many names and so many entries on an index is made: a walk for each of fewer takes no longer.
const MANY: usize = 64;

/// How fields of the data are found by their names.
#[derive(Drop)]
pub(crate) enum FieldNames<'i> {
    /// By a walk over the entries for each.
    Walked(&'i Value),
    /// By the names of the entries, of each of which the number of the first is known.
    Indexed(Names<'i>),
}

impl<'i> FieldNames<'i> {
    /// How so many fields of the data are found.
    pub(crate) fn of(
        alloc: Global,
        input: &'i Value,
        count: usize,
    ) -> Result<FieldNames<'i>, OutOfMemory>
        ensures { IfOk result (λ f. FindsFields f (view_value input.now)) }
    {
        match many_entries(input, count) {
            Some(entries) => FieldNames::indexed(alloc, entries),
            None => Ok(FieldNames::Walked(input)),
        }
    }

    /// By an index of these entries.
    #[tactic(auto, using(crate::proofs::Firsts::first_there))]
    fn indexed(alloc: Global, entries: &'i [Entry]) -> Result<FieldNames<'i>, OutOfMemory>
        ensures { IfOk result (λ f. FindsFields f (values.RecordValue (view_entries entries.now))) }
    {
        let names = Names::new(alloc, entry_names(alloc, entries)?)?;
        Ok(FieldNames::Indexed(names))
    }

    /// The number of the first field of a name.
    pub(crate) fn find(&self, name: &Text) -> Option<usize>
        ensures { (input : values.Value) → FindsFields self.now input → FieldFound name.now input result }
    {
        match self {
            FieldNames::Walked(input) => field_number(*input, name),
            FieldNames::Indexed(names) => names.number(name),
        }
    }
}

/// The entries of the data, where they and the names that are looked for are many.
fn many_entries(input: &Value, count: usize) -> Option<&[Entry]>
    ensures { IfSome result (λ es. view_value input.now ≡ values.RecordValue (view_entries es.now)) }
{
    match input {
        Value::Fields(entries) => {
            if count >= MANY && entries.items().len() >= MANY {
                Some(entries.items())
            } else {
                None
            }
        }
        Value::Null => None,
        Value::Bool(_) => None,
        Value::Int(_) => None,
        Value::Str(_) => None,
        Value::List(_) => None,
        Value::Map(_) => None,
    }
}

/// The names of entries.
fn entry_names<'i>(alloc: Global, entries: &'i [Entry]) -> Result<Vec<&'i Text>, OutOfMemory>
    ensures { IfOk result (λ names. map (λ name. name.now) names.items ≡ entry_names entries.now) }
{
    let mut names = Vec::with_capacity(alloc, entries.len())?;
    for entry in entries {
        names.push(&entry.name)?;
    }
    Ok(names)
}
