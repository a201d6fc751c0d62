//! The names of fields, and the first field of a name.

ghost use Rattle.std.specs.Prelude.{◌≡◌, IfOk, IfSome, map};
ghost use Rattle.soy_rules.specs.FieldNames.{field_names};
ghost use Rattle.soy_rules.specs.FirstNames.{first_number};

use crate::Names;
use soy_base::{OutOfMemory, Text};
use soy_tree::Field;
use std::alloc::Global;

/// Among so many fields, or for so many names, a walk over the fields takes no longer than to note their names.
const FEW: usize = 32;

/// The names of fields of which so many are looked for, where a walk over the fields for each would take longer.
pub(crate) fn names_of_many<'a>(
    alloc: Global,
    searches: usize,
    fields: &'a [Field],
) -> Result<Option<Names<'a>>, OutOfMemory>
    ensures { IfOk result (λ names. IfSome names (λ all. all ≡ field_names fields.now)) }
{
    if searches <= FEW || fields.len() <= FEW {
        return Ok(None);
    }
    Ok(Some(Names::new(alloc, field_names(alloc, fields)?)?))
}

/// The names of fields.
fn field_names<'a>(alloc: Global, fields: &'a [Field]) -> Result<Vec<&'a Text>, OutOfMemory>
    ensures { IfOk result (λ names. map (λ name. name.now) names.items ≡ field_names fields.now) }
{
    let mut names = Vec::new(alloc);
    for field in fields {
        names.push(&field.name)?;
    }
    Ok(names)
}

/// The number of the first field of a name, found by the names of the fields, where they are noted.
pub(crate) fn first_field(name: &Text, fields: &[Field], names: &Option<Names<'_>>) -> Option<usize>
    requires { IfSome names.now (λ all. all ≡ field_names fields.now) }
    ensures { result ≡ first_number name.now (field_names fields.now) }
{
    match names {
        Some(names) => names.number(name),
        None => walked(name, fields),
    }
}

/// The number of the first field of a name.
fn walked(name: &Text, fields: &[Field]) -> Option<usize>
    ensures { result ≡ first_number name.now (field_names fields.now) }
{
    for (number, field) in fields.iter().enumerate() {
        if field.name.is(name.text()) {
            return Some(number);
        }
    }
    None
}
