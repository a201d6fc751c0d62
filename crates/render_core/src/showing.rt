//! How a value is printed.

ghost use Rattle.std.specs.Prelude.{◌≡◌, IfOk, length, true};
ghost use Rattle.std.specs.Fmt.{signed_decimal};
ghost use Rattle.soy_expr.specs.Ascii.{is_ascii};
ghost use Rattle.soy_expr.specs.ViewEvaluated.{view_made};
ghost use Rattle.soy_expr.specs.ViewShallow.{view_shallow};
ghost use Rattle.render_core.specs.Finds.{FoundWithin, IsFieldValue, binding_at, found_means, part_value};
ghost use Rattle.render_core.specs.Seen.{cells_seen, env_seen, input_seen, program_seen};
ghost use Rattle.render_core.specs.Shows.{IsShownAtHand, Prints, Shows, ShowsValue};
ghost use Rattle.soy_rules.specs.Cost.{cost};
ghost use Rattle.soy_rules.specs.Val.{Known, binding, val};
ghost use Rattle.soy_tree.specs.Values.{IntValue, NullValue};
ghost use Rattle.soy_tree.specs.ViewExpressions.{view_expr};
ghost use Rattle.soy_tree.specs.ViewValues.{view_value};
ghost use Rattle.render_core.specs.Variables.{cell_at, path_value};

use crate::fields::FieldPart;
use crate::held::{Held, Kept, Path};
use crate::parts::{Point, part_at, part_of, place_of, variable_at};
use crate::valuing::{Found, lowered, value_of};
use soy_base::{OutOfMemory, Steps, Text, ValueClass};
use soy_expr::{Made, Shallow};
use soy_tree::{Expr, ExprNode, Value};
use std::alloc::Global;
use std::sync::ledger::Ledger;

/// Where the text of a printed value stands.
#[derive(Drop)]
pub(crate) enum Source {
    /// A text that was made.
    Made(Text),
    /// A string of the data.
    Part(Path),
}

/// The text of a printed value, at hand.
#[derive(Drop)]
pub(crate) enum Print<'i> {
    /// A text that was made.
    Made(Text),
    /// A string of the data, and the path that names it.
    Part(Path, &'i str),
}

/// How something is printed: as a text that is escaped, or as a block.
#[derive(Drop)]
pub(crate) enum Shown<'i> {
    Value(Print<'i>, ValueClass),
    Block(Kept),
}

/// How the value of an expression is printed. Each node that is valued is a step.
#[tactic(auto, using(crate::proofs::Shows::prints_shown))]
pub(crate) fn how_printed<'i, L: Ledger>(
    point: Point<'_, 'i, '_>,
    expr: &Expr,
    steps: &mut Steps<L>,
) -> Result<Shown<'i>, OutOfMemory>
    ensures prints { Prints (program_seen point.entry) (cells_seen point.entry) (length point.entry.bound.now)
        (val (view_expr expr.now) (env_seen point.entry)) (cost (view_expr expr.now) (env_seen point.entry))
        steps.old steps.new result }
    ensures at_hand { IfOk result (λ s. IsShownAtHand (cells_seen point.entry) s) }
{
    match expr.node.get() {
        ExprNode::Var(name) => {
            steps.count();
            shown_variable(point, name)
        }
        _ => printed_value(point, expr, steps),
    }
}

/// How a field of a variable is printed, which is valued in two steps.
#[inline(always)]
#[tactic(auto, using(crate::proofs::Shows::prints_shown))]
pub(crate) fn shown_field<'i, L: Ledger>(
    point: Point<'_, 'i, '_>,
    field: FieldPart<'i>,
    steps: &mut Steps<L>,
) -> Result<Shown<'i>, OutOfMemory>
    requires { IsFieldValue (cells_seen point) (view_value field.value.now) field }
    ensures prints { Prints (program_seen point.entry) (cells_seen point.entry) (length point.entry.bound.now)
        (Known (view_value field.entry.value.now)) 2 steps.old steps.new result }
    ensures at_hand { IfOk result (λ s. IsShownAtHand (cells_seen point.entry) s) }
{
    steps.count();
    steps.count();
    shown_part(
        point,
        Some(field.value),
        Path::Child(field.at, field.number),
    )
}

/// How the value of any expression is printed.
#[inline(never)]
#[tactic(auto, using(crate::proofs::Shows::prints_shown))]
fn printed_value<'i, L: Ledger>(
    point: Point<'_, 'i, '_>,
    expr: &Expr,
    steps: &mut Steps<L>,
) -> Result<Shown<'i>, OutOfMemory>
    ensures prints { Prints (program_seen point.entry) (cells_seen point.entry) (length point.entry.bound.now)
        (val (view_expr expr.now) (env_seen point.entry)) (cost (view_expr expr.now) (env_seen point.entry))
        steps.old steps.new result }
    ensures at_hand { IfOk result (λ s. IsShownAtHand (cells_seen point.entry) s) }
{
    match value_of(point, expr, steps) {
        Ok(found) => how_shown(point, found),
        Err(_) => Err(OutOfMemory),
    }
}

/// How a variable is printed, which is found but once.
#[tactic(auto, using(crate::proofs::Shows::shows_same))]
fn shown_variable<'i>(point: Point<'_, 'i, '_>, name: &Text) -> Result<Shown<'i>, OutOfMemory>
    ensures shows { IfOk result (λ s. Shows (program_seen point.entry) (cells_seen point.entry)
        (length point.entry.bound.now) (binding name.now (env_seen point.entry)) s) }
    ensures at_hand { IfOk result (λ s. IsShownAtHand (cells_seen point.entry) s) }
{
    match place_of(point, name) {
        Some(at) => shown_at(point, at),
        None => shown_null(point),
    }
}

/// How what the variable at a place is bound to is printed.
#[tactic(auto, using(crate::proofs::Shows::shows_same, crate::proofs::Finds::bound_root, crate::proofs::Finds::bound_item, crate::proofs::Finds::bound_path))]
fn shown_at<'i>(point: Point<'_, 'i, '_>, at: usize) -> Result<Shown<'i>, OutOfMemory>
    ensures shows { IfOk result (λ s. Shows (program_seen point.entry) (cells_seen point.entry)
        (length point.entry.bound.now)
        (binding_at (program_seen point.entry) (input_seen point.entry) point.entry.bound.now at) s) }
    ensures at_hand { IfOk result (λ s. IsShownAtHand (cells_seen point.entry) s) }
{
    match variable_at(point.bound, at) {
        Some(variable) => match &variable.to {
            Held::Made(made) => shown_made(point, made),
            Held::Block(kept) => Ok(Shown::Block(lowered(*kept, at))),
            Held::Root => shown_whole(point, at),
            Held::Item(_, _) => shown_whole(point, at),
            Held::Part(_) => shown_whole(point, at),
        },
        None => shown_null(point),
    }
}

/// How the part of the data that the variable at a place is bound to is printed.
fn shown_whole<'i>(point: Point<'_, 'i, '_>, at: usize) -> Result<Shown<'i>, OutOfMemory>
    ensures shows { IfOk result (λ s. Shows (program_seen point.entry) (cells_seen point.entry)
        (length point.entry.bound.now) (Known (cell_at (cells_seen point.entry) at).part) s) }
    ensures at_hand { IfOk result (λ s. IsShownAtHand (cells_seen point.entry) s) }
{
    shown_part(point, part_at(point, at), Path::Whole(at))
}

/// How null is printed.
fn shown_null<'i>(point: Point<'_, 'i, '_>) -> Result<Shown<'i>, OutOfMemory>
    ensures shows { IfOk result (λ s. Shows (program_seen point.entry) (cells_seen point.entry)
        (length point.entry.bound.now) (Known NullValue) s) }
    ensures at_hand { IfOk result (λ s. IsShownAtHand (cells_seen point.entry) s) }
{
    shown_shallow(point, Shallow::Null)
}

/// How a value that was made is printed.
#[tactic(auto, using(crate::proofs::Shows::shows_same))]
fn shown_made<'i>(point: Point<'_, 'i, '_>, made: &Made) -> Result<Shown<'i>, OutOfMemory>
    ensures shows { IfOk result (λ s. Shows (program_seen point.entry) (cells_seen point.entry)
        (length point.entry.bound.now) (Known (view_made made.now)) s) }
    ensures at_hand { IfOk result (λ s. IsShownAtHand (cells_seen point.entry) s) }
{
    shown_shallow(point, shallow_of(made))
}

/// A value that was made, as text is made of it.
fn shallow_of(made: &Made) -> Shallow<'_>
    ensures { view_shallow result ≡ view_made made.now }
{
    match made {
        Made::Null => Shallow::Null,
        Made::Bool(is) => Shallow::Bool(*is),
        Made::Int(number) => Shallow::Int(*number),
        Made::Str(text) => Shallow::Str(text),
    }
}

/// How a value of which a text is made is printed.
#[inline(never)]
fn shown_shallow<'i>(point: Point<'_, 'i, '_>, value: Shallow) -> Result<Shown<'i>, OutOfMemory>
    ensures shows { IfOk result (λ s. Shows (program_seen point.entry) (cells_seen point.entry)
        (length point.entry.bound.now) (Known (view_shallow value.entry)) s) }
    ensures at_hand { IfOk result (λ s. IsShownAtHand (cells_seen point.entry) s) }
{
    let (text, class) = text_of(point.scene.alloc, value)?;
    Ok(Shown::Value(Print::Made(text), class))
}

/// How a value is printed.
pub(crate) fn how_shown<'i>(
    point: Point<'_, 'i, '_>,
    found: Found,
) -> Result<Shown<'i>, OutOfMemory>
    requires { FoundWithin (length point.bound.now) found }
    ensures shows { IfOk result (λ s. Shows (program_seen point.entry) (cells_seen point.entry)
        (length point.entry.bound.now) (found_means (program_seen point.entry) (cells_seen point.entry) found) s) }
    ensures at_hand { IfOk result (λ s. IsShownAtHand (cells_seen point.entry) s) }
{
    match found {
        Found::Block(kept) => Ok(Shown::Block(kept)),
        Found::Made(made) => {
            let (text, class) = made_text(point.scene.alloc, made)?;
            Ok(Shown::Value(Print::Made(text), class))
        }
        Found::Part(path) => shown_part(point, part_of(point, &path), path),
    }
}

/// How a part of the data is printed.
#[inline(always)]
#[tactic(auto, using(crate::proofs::Shows::shows_same, crate::proofs::Shows::shows_shallow))]
fn shown_part<'i>(
    point: Point<'_, 'i, '_>,
    part: Option<&'i Value>,
    path: Path,
) -> Result<Shown<'i>, OutOfMemory>
    requires { part_value part ≡ path_value (cells_seen point) path }
    ensures shows { IfOk result (λ s. Shows (program_seen point.entry) (cells_seen point.entry)
        (length point.entry.bound.now) (Known (path_value (cells_seen point.entry) path)) s) }
    ensures at_hand { IfOk result (λ s. IsShownAtHand (cells_seen point.entry) s) }
{
    match part {
        Some(Value::Str(text)) => Ok(Shown::Value(
            Print::Part(path, text.text()),
            ValueClass::Text,
        )),
        Some(value) => {
            drop(path);
            shown_shallow(point, Shallow::of_value(value))
        }
        None => {
            drop(path);
            shown_null(point)
        }
    }
}

/// The text and the class of a value that was made.
fn made_text(alloc: Global, made: Made) -> Result<(Text, ValueClass), OutOfMemory>
    ensures { IfOk result (λ r. ShowsValue (view_made made) r.0 r.1) }
{
    match made {
        Made::Null => text_of(alloc, Shallow::Null),
        Made::Bool(is) => text_of(alloc, Shallow::Bool(is)),
        Made::Int(number) => text_of(alloc, Shallow::Int(number)),
        Made::Str(text) => Ok((text, ValueClass::Text)),
    }
}

/// The text and the class of a value.
pub(crate) fn text_of(alloc: Global, value: Shallow) -> Result<(Text, ValueClass), OutOfMemory>
    ensures { IfOk result (λ r. ShowsValue (view_shallow value.entry) r.0 r.1) }
{
    match value {
        Shallow::Null => word(alloc, "null", ValueClass::Null),
        Shallow::Bool(true) => word(alloc, "true", ValueClass::Bool),
        Shallow::Bool(false) => word(alloc, "false", ValueClass::Bool),
        Shallow::Int(number) => int_text(alloc, number),
        Shallow::Str(text) => match text.copy(alloc) {
            Ok(text) => Ok((text, ValueClass::Text)),
            Err(_) => Err(OutOfMemory),
        },
        Shallow::Compound => Ok((Text::empty(alloc), ValueClass::Text)),
    }
}

fn int_text(alloc: Global, number: i64) -> Result<(Text, ValueClass), OutOfMemory>
    ensures { IfOk result (λ r. ShowsValue (IntValue number) r.0 r.1) }
{
    match digits(alloc, number) {
        Ok(text) => Ok((text, ValueClass::Int)),
        Err(_) => Err(OutOfMemory),
    }
}

fn digits(alloc: Global, number: i64) -> Result<Text, OutOfMemory>
    ensures { IfOk result (λ t. t ≡ signed_decimal number) }
{
    Ok(Text::new(number.to_string(alloc)?))
}

/// A word of ASCII characters, with the class of values that it stands for.
#[tactic(auto, using(soy_expr::proofs::AsciiTexts::chars_ascii))]
fn word(alloc: Global, text: &str, class: ValueClass) -> Result<(Text, ValueClass), OutOfMemory>
    requires { is_ascii text.now ≡ true }
    ensures { IfOk result (λ r. (r.0 ≡ text.now) × (r.1 ≡ class)) }
{
    match String::from_str(alloc, text) {
        Ok(word) => Ok((Text::new(word), class)),
        Err(_) => Err(OutOfMemory),
    }
}
