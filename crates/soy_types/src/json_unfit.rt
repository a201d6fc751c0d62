//! Types that a JSON value of `serde_json` doesn't fit, found without reading it.

ghost use Rattle.std.specs.Bool.{OnTrue};
ghost use Rattle.std.specs.Prelude.{◌≡◌, false, is_ok};
ghost use Rattle.serde_json.specs.View.{view};
ghost use Rattle.soy_tree.specs.ViewTypes.{view_fields, view_type};
ghost use Rattle.soy_types.specs.Paths.{all_read};
ghost use Rattle.soy_types.specs.Read.{field_results, member_or_null, value_at};

use serde_json::Value as Json;
use soy_tree::{Field, SoyType};

/// Whether the type is known not to fit: it takes other kinds of JSON values, or is a record one of whose fields does.
pub(crate) fn is_unfit(of: &SoyType, json: &Json) -> bool
    ensures { OnTrue result (is_ok (value_at (view_type of.now) (view json.now)) ≡ false) }
{
    takes_other_kinds(of, json) || has_unfit_field(of, json)
}

/// Whether the type takes no JSON value of this one's kind.
fn takes_other_kinds(of: &SoyType, json: &Json) -> bool
    ensures { OnTrue result (is_ok (value_at (view_type of.now) (view json.now)) ≡ false) }
{
    match (of, json) {
        (SoyType::Null, Json::Null) => false,
        (SoyType::Bool, Json::Bool(_)) => false,
        (SoyType::Int, Json::Number(_)) => false,
        (SoyType::Str, Json::String(_)) => false,
        (SoyType::List(_), Json::Array(_)) => false,
        (SoyType::Map(_), Json::Object(_)) => false,
        (SoyType::Fields(_), Json::Object(_)) => false,
        (SoyType::Union(_), _) => false,
        _ => true,
    }
}

/// Whether the type is a record one of whose fields is known not to fit.
fn has_unfit_field(of: &SoyType, json: &Json) -> bool
    ensures { OnTrue result (is_ok (value_at (view_type of.now) (view json.now)) ≡ false) }
{
    match of {
        SoyType::Fields(fields) => is_one_unfit(fields.items(), json),
        _ => false,
    }
}

/// Whether one of these fields is known not to fit.
fn is_one_unfit(fields: &[Field], json: &Json) -> bool
    ensures { OnTrue result
        (is_ok (all_read (field_results (view_fields fields.now) (view json.now))) ≡ false) }
{
    for field in fields {
        if is_member_unfit(field, json) {
            return true;
        }
    }
    false
}

/// Whether a field takes other kinds than its member's; a missing one is null.
fn is_member_unfit(field: &Field, json: &Json) -> bool
    ensures { OnTrue result (is_ok (value_at (view_type field.now.of)
        (member_or_null field.now.name (view json.now))) ≡ false) }
{
    match json.get(field.name.text()) {
        Some(member) => takes_other_kinds(&field.of, member),
        None => takes_other_kinds(&field.of, &Json::Null),
    }
}
