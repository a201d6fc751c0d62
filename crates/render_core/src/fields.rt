//! Fields of the data, by their names.

ghost use Rattle.std.specs.Prelude.{◌≡◌, IfSome, None};
ghost use Rattle.soy_rules.specs.Cost.{cost};
ghost use Rattle.soy_rules.specs.Val.{Known, binding, member_value, operand, val};
ghost use Rattle.soy_tree.specs.ViewExpressions.{view_expr};
ghost use Rattle.soy_tree.specs.ViewValues.{view_entries, view_value};
ghost use Rattle.render_core.specs.Begins.{EntryFound, FieldFound};
ghost use Rattle.render_core.specs.Finds.{IsField, IsFieldValue, IsFirstEntry, IsFirstField, part_value};
ghost use Rattle.render_core.specs.Seen.{cells_seen, env_seen};

use crate::names::variable_of;
use crate::parts::{Point, part_at, place_of};
use soy_base::Text;
use soy_tree::{Entry, Expr, ExprNode, Value};

/// A field of what a variable is bound to: the place of the variable, the number of the field, and its value.
#[derive(Clone, Copy)]
pub(crate) struct FieldPart<'i> {
    pub(crate) at: usize,
    pub(crate) number: usize,
    pub(crate) value: &'i Value,
}

/// The field of a variable that an expression is, as those of most prints are, if it is there.
#[inline(always)]
pub(crate) fn field_part<'i>(point: Point<'_, 'i, '_>, expr: &Expr) -> Option<FieldPart<'i>>
    ensures { IfSome result (λ f. IsField (cells_seen point.entry) (val (view_expr expr.now) (env_seen point.entry))
        (cost (view_expr expr.now) (env_seen point.entry)) f) }
{
    match expr.node.get() {
        ExprNode::Member(of, field, _) => match variable_of(of) {
            Some(variable) => field_of_variable(point, variable, field),
            None => None,
        },
        _ => None,
    }
}

/// The field of a name of what the first variable of another name is bound to.
#[inline(always)]
#[tactic(auto, using(crate::proofs::Finds::field_there))]
fn field_of_variable<'i>(
    point: Point<'_, 'i, '_>,
    variable: &Text,
    field: &Text,
) -> Option<FieldPart<'i>>
    ensures { IfSome result (λ f. IsFieldValue (cells_seen point.entry)
        (member_value field.now (operand (binding variable.now (env_seen point.entry)))) f) }
{
    let at = place_of(point, variable)?;
    let (number, value) = first_field(part_at(point, at)?, field)?;
    Some(FieldPart { at, number, value })
}

/// The number and the value of the first field of a name, if there is one.
#[inline(always)]
fn first_field<'i>(whole: &'i Value, name: &Text) -> Option<(usize, &'i Value)>
    ensures { IfSome result (λ f. IsFirstField name.now (view_value whole.now) f.0 (view_value f.1.now)) }
{
    match whole {
        Value::Null => None,
        Value::Bool(_) => None,
        Value::Int(_) => None,
        Value::Str(_) => None,
        Value::List(_) => None,
        Value::Map(_) => None,
        Value::Fields(entries) => first_entry(entries.items(), name),
    }
}

/// The number and the value of the first entry of a name, if there is one.
#[inline(always)]
#[tactic(auto, using(crate::proofs::Values::entry_first, soy_expr::proofs::PartRows::entry_passed))]
fn first_entry<'i>(entries: &'i [Entry], name: &Text) -> Option<(usize, &'i Value)>
    ensures some { IfSome result (λ f. IsFirstEntry name.now (view_entries entries.now) f.0 (view_value f.1.now)) }
    ensures none { result ≡ None → EntryFound name.now (view_entries entries.now) None }
{
    for (number, entry) in entries.iter().enumerate() {
        if entry.name.is(name.text()) {
            return Some((number, &entry.value));
        }
    }
    None
}

/// The number of the first field of a name in a part, if there is one.
pub(crate) fn field_of(part: Option<&Value>, name: &Text) -> Option<usize>
    ensures { FieldFound name.now (part_value part.entry) result }
{
    match part {
        Some(value) => field_number(value, name),
        None => None,
    }
}

/// The number of the first field of a name.
pub(crate) fn field_number(input: &Value, name: &Text) -> Option<usize>
    ensures { FieldFound name.now (view_value input.now) result }
{
    match input {
        Value::Null => None,
        Value::Bool(_) => None,
        Value::Int(_) => None,
        Value::Str(_) => None,
        Value::List(_) => None,
        Value::Map(_) => None,
        Value::Fields(entries) => entry_number(entries.items(), name),
    }
}

/// The number of the first entry of a name.
fn entry_number(entries: &[Entry], name: &Text) -> Option<usize>
    ensures { EntryFound name.now (view_entries entries.now) result }
{
    match first_entry(entries, name) {
        Some((number, _)) => Some(number),
        None => None,
    }
}
