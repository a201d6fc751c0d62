//! Types that a JSON value whose texts are lent doesn't fit, found without reading it.

ghost use Rattle.std.specs.Bool.{OnTrue};
ghost use Rattle.std.specs.Prelude.{◌≡◌, false, is_ok};
ghost use Rattle.json.specs.Value.{value_view};
ghost use Rattle.soy_tree.specs.ViewTypes.{view_fields, view_type};
ghost use Rattle.soy_types.specs.LentData.{data_of};
ghost use Rattle.soy_types.specs.Paths.{all_read};
ghost use Rattle.soy_types.specs.Read.{field_results, member_or_null, value_at};

use crate::lending::MOST_WALKS;
use crate::lent::member_of;
use json::Value as Lent;
use soy_tree::{Field, SoyType};

/// Whether the type is known not to fit: it takes other kinds of JSON values, or is a record one of whose fields does.
pub(crate) fn is_unfit(of: &SoyType, json: &Lent<'_>) -> bool
    ensures { OnTrue result (is_ok (value_at (view_type of.now) (data_of (value_view json.now))) ≡ false) }
{
    takes_other_kinds(of, json) || has_unfit_field(of, json)
}

/// Whether the type takes no JSON value of this one's kind.
fn takes_other_kinds(of: &SoyType, json: &Lent<'_>) -> bool
    ensures { OnTrue result (is_ok (value_at (view_type of.now) (data_of (value_view json.now))) ≡ false) }
{
    match (of, json) {
        (SoyType::Null, Lent::Null) => false,
        (SoyType::Bool, Lent::Bool(_)) => false,
        (SoyType::Int, Lent::Number(_)) => false,
        (SoyType::Str, Lent::String(_)) => false,
        (SoyType::List(_), Lent::Array(_)) => false,
        (SoyType::Map(_), Lent::Object(_)) => false,
        (SoyType::Fields(_), Lent::Object(_)) => false,
        (SoyType::Union(_), _) => false,
        _ => true,
    }
}

/// Whether the type is a record one of whose fields is known not to fit.
fn has_unfit_field(of: &SoyType, json: &Lent<'_>) -> bool
    ensures { OnTrue result (is_ok (value_at (view_type of.now) (data_of (value_view json.now))) ≡ false) }
{
    match of {
        SoyType::Fields(fields) => is_one_unfit(fields.items(), json),
        _ => false,
    }
}

/// Whether one of these fields, or of the first of many, is known not to fit.
fn is_one_unfit(fields: &[Field], json: &Lent<'_>) -> bool
    ensures { OnTrue result
        (is_ok (all_read (field_results (view_fields fields.now) (data_of (value_view json.now)))) ≡ false) }
{
    for (number, field) in fields.iter().enumerate() {
        if number == MOST_WALKS {
            return false;
        }
        if is_member_unfit(field, json) {
            return true;
        }
    }
    false
}

/// Whether a field takes other kinds than its member's; a missing one is null.
fn is_member_unfit(field: &Field, json: &Lent<'_>) -> bool
    ensures { OnTrue result (is_ok (value_at (view_type field.now.of)
        (member_or_null field.now.name (data_of (value_view json.now)))) ≡ false) }
{
    match member_of(json, &field.name) {
        Some(member) => takes_other_kinds(&field.of, member),
        None => takes_other_kinds(&field.of, &Lent::Null),
    }
}
