//! The parts of the data that variables are bound to.

ghost use Rattle.std.specs.Prelude.{◌≡◌, [], IfOk, option_map, slice_get, true};
ghost use Rattle.soy_rules.specs.Val.{Known, binding, item_value};
ghost use Rattle.soy_tree.specs.ViewValues.{view_entries, view_items, view_value};
ghost use Rattle.template_ir.specs.declared.program.ProgramParts as code_parts;
ghost use Rattle.soy_expr.specs.ForgottenBlocks.{forgotten};
ghost use Rattle.soy_expr.specs.Parts.{child, nth_entry_value};
ghost use Rattle.soy_expr.specs.ViewEvaluated.{IsBinding};
ghost use Rattle.render_core.specs.Begins.{IsRoot};
ghost use Rattle.render_core.specs.Finds.{binding_at, part_value, place_binding};
ghost use Rattle.render_core.specs.Keys.{fingerprint_of, fits_key, key_of};
ghost use Rattle.render_core.specs.Linked.{is_sought};
ghost use Rattle.render_core.specs.Seen.{cells_seen, env_seen, input_seen, program_seen};
ghost use Rattle.render_core.specs.Variables.{cell_at, cells_of, env_at, led, path_of, path_steps, path_value};

use crate::held::{Bound, Held, Path};
use crate::links::{Links, fingerprint_of, key_of, lowered};
use crate::names::is_named;
use crate::scene::Scene;
use crate::variable_stack::VariableStack;
use soy_base::{OutOfMemory, Text};
use soy_expr::{Evaluated, Made, Variables};
use soy_tree::{Entry, Value};
use template_ir::ProgramParts;

/// Where expressions are valued: what a pull is lent, all variables, and the number of those that are visible.
#[derive(Clone, Copy)]
pub(crate) struct Point<'p, 'i, 'b> {
    pub(crate) scene: Scene<'p, 'i>,
    pub(crate) bound: &'b VariableStack,
    pub(crate) env: usize,
}

impl Variables for Point<'_, '_, '_> {
    type Path = Path;

    ghost use Rattle.std.specs.Prelude.{◌≡◌};
    ghost use Rattle.soy_expr.specs.ForgottenBlocks.{forgotten_env};
    ghost use Rattle.render_core.specs.Seen.{cells_seen, env_seen};
    ghost use Rattle.render_core.specs.Variables.{path_value};

    ghost env = { λ at. forgotten_env (env_seen at) };

    ghost Names = { λ at path v.
        path_value (cells_seen at) path ≡ v };

    fn find(&self, name: &Text) -> Result<Evaluated<'_, Path>, OutOfMemory> {
        match place_of(*self, name) {
            Some(at) => evaluated(*self, at),
            None => Ok(Evaluated::Made(Made::Null)),
        }
    }

    fn inside(&self, path: Path, number: usize) -> Result<Path, OutOfMemory> {
        match path {
            Path::Whole(of) => Ok(Path::Child(of, number)),
            Path::Child(of, first) => {
                let steps = Vec::from_array(self.scene.alloc, [first, number])?;
                Ok(Path::Deep(of, steps))
            }
            Path::Deep(of, steps) => {
                let mut steps = steps;
                steps.push(number)?;
                Ok(Path::Deep(of, steps))
            }
        }
    }
}

/// What the variable at a place is evaluated to.
#[tactic(auto, using(crate::proofs::Finds::bound_root, crate::proofs::Finds::bound_item, crate::proofs::Finds::bound_path))]
fn evaluated<'i>(point: Point<'_, 'i, '_>, at: usize) -> Result<Evaluated<'i, Path>, OutOfMemory>
    ensures { IfOk result (IsBinding
        (λ path v. path_value (cells_seen point.entry) path
        ≡ v)
        (forgotten (binding_at (program_seen point.entry) (input_seen point.entry) point.entry.bound.now at))) }
{
    match variable_at(point.bound, at) {
        Some(variable) => match &variable.to {
            Held::Made(made) => Ok(Evaluated::Made(copied(point, made)?)),
            Held::Block(_) => Ok(Evaluated::Block),
            Held::Root => Ok(named(point, at)),
            Held::Item(_, _) => Ok(named(point, at)),
            Held::Part(_) => Ok(named(point, at)),
        },
        None => Ok(Evaluated::Made(Made::Null)),
    }
}

/// The part that the variable at a place is bound to, with the path that names it.
#[tactic(auto, using(crate::proofs::Finds::whole_value))]
fn named<'i>(point: Point<'_, 'i, '_>, at: usize) -> Evaluated<'i, Path>
    ensures { IsBinding
        (λ path v. path_value (cells_seen point.entry) path
        ≡ v)
        (Known (cell_at (cells_seen point.entry) at).part)
        result }
{
    match part_at(point, at) {
        Some(value) => Evaluated::Part(value, whole(at)),
        None => Evaluated::Made(Made::Null),
    }
}

pub(crate) fn variable_at(bound: &VariableStack, at: usize) -> Option<&Bound>
    ensures { option_map (λ b. b.now) result ≡ slice_get bound.now at }
{
    bound.at(at)
}

/// An equal value.
pub(crate) fn copied(point: Point, made: &Made) -> Result<Made, OutOfMemory>
    ensures { IfOk result (λ m. m ≡ made.now) }
{
    Ok(match made {
        Made::Null => Made::Null,
        Made::Bool(is) => Made::Bool(*is),
        Made::Int(number) => Made::Int(*number),
        Made::Str(text) => Made::Str(text.copy(point.scene.alloc)?),
    })
}

/// The path to all that the variable at a place is bound to.
pub(crate) fn whole(at: usize) -> Path
    ensures of { path_of result ≡ at }
    ensures steps { path_steps result ≡ [] }
{
    Path::Whole(at)
}

/// An equal path.
pub(crate) fn copied_path(point: Point, path: &Path) -> Result<Path, OutOfMemory>
    ensures of { IfOk result (λ p. path_of p ≡ path_of path.now) }
    ensures steps { IfOk result (λ p. path_steps p ≡ path_steps path.now) }
{
    match path {
        Path::Whole(of) => Ok(Path::Whole(*of)),
        Path::Child(of, number) => Ok(Path::Child(*of, *number)),
        Path::Deep(of, steps) => {
            let steps = Vec::from_slice(point.scene.alloc, steps.as_slice())?;
            Ok(Path::Deep(*of, steps))
        }
    }
}

/// The place of the first variable of a name, of those that are visible. The first of them, as the item of a loop
/// mostly is in its body, is looked at by itself.
#[inline(always)]
#[tactic(auto, using(crate::proofs::Finds::found_here, crate::proofs::Finds::found_next, crate::proofs::Finds::found_none, crate::proofs::Sought::few_fits))]
pub(crate) fn place_of(point: Point, name: &Text) -> Option<usize>
    ensures { place_binding (program_seen point.entry) (input_seen point.entry) point.entry.bound.now result
        ≡ binding name.now
        (env_seen point.entry) }
{
    let number = point.env;
    if number == 0 {
        return None;
    }
    let Some(variable) = variable_at(point.bound, number - 1) else {
        return None;
    };
    let Links::Few(_, own) = &variable.links else {
        return place_by_links(point, name, number, key_of(name));
    };
    let fingerprint = fingerprint_of(name);
    if is_sought(point.scene.program, variable, name, *own == fingerprint) {
        return Some(number - 1);
    }
    place_below(point, name, lowered(number, variable.below), fingerprint)
}

/// The place of the first variable of a name, of the variables of a number, by the fingerprint of the name.
#[inline(never)]
#[tactic(auto, using(crate::proofs::Finds::found_here, crate::proofs::Finds::found_next, crate::proofs::Finds::found_none, crate::proofs::Sought::few_fits))]
fn place_below(point: Point, name: &Text, from: usize, fingerprint: u32) -> Option<usize>
    requires { fingerprint ≡ fingerprint_of name.now }
    ensures { place_binding (program_seen point.entry) (input_seen point.entry) point.entry.bound.now result
        ≡ binding name.now (env_at (cells_seen point.entry) from) }
{
    let mut number = from;
    while number > 0 {
        let Some(variable) = variable_at(point.bound, number - 1) else {
            return None;
        };
        let Links::Few(_, own) = &variable.links else {
            return place_by_links(point, name, number, key_of(name));
        };
        if is_sought(point.scene.program, variable, name, *own == fingerprint) {
            return Some(number - 1);
        }
        number = lowered(number, variable.below);
    }
    None
}

/// The place of the first variable of a name, of the variables of a number, by the key of the name.
#[inline(never)]
#[tactic(auto, using(crate::proofs::Finds::found_here, crate::proofs::Finds::found_below, crate::proofs::Finds::found_none))]
fn place_by_links(point: Point, name: &Text, from: usize, key: u64) -> Option<usize>
    requires { key ≡ key_of name.now }
    ensures { place_binding (program_seen point.entry) (input_seen point.entry) point.entry.bound.now result
        ≡ binding name.now (env_at (cells_seen point.entry) from) }
{
    let mut number = from;
    while number > 0 {
        let Some(variable) = point.bound.linked_at(number - 1) else {
            return None;
        };
        let fits = variable.links.fits(name, key);
        if is_sought(point.scene.program, variable, name, fits) {
            return Some(number - 1);
        }
        number = lowered(number, variable.links.next(variable.below, key));
    }
    None
}

/// Whether a variable is that of a name; `fits` says whether its fingerprint or key is that of the name.
#[inline(always)]
#[tactic(auto, using(crate::proofs::Sought::sought_fits, crate::proofs::Sought::sought_other))]
fn is_sought(program: &ProgramParts, variable: &Bound, name: &Text, fits: bool) -> bool
    requires { fits ≡ fits_key variable.now.links name.now }
    ensures { result ≡ is_sought program.now variable.now name.now }
{
    fits && is_named(program, variable.name, name)
}

/// The part of the data that the variable at a place is bound to, if it is bound to one.
#[inline(always)]
pub(crate) fn part_at<'i>(point: Point<'_, 'i, '_>, at: usize) -> Option<&'i Value>
    ensures { part_value result ≡ (cell_at (cells_seen point.entry) at).part }
{
    bound_part(point.bound, point.scene.input, at)
}

/// The same under any program.
#[inline(never)]
fn bound_part<'i>(bound: &VariableStack, input: &'i Value, at: usize) -> Option<&'i Value>
    ensures { (p : code_parts.ProgramParts) → part_value result
        ≡ (cell_at (cells_of p (view_value input.now) bound.now) at).part }
{
    match variable_at(bound, at) {
        Some(variable) => match &variable.to {
            Held::Made(_) => None,
            Held::Root => Some(input),
            Held::Item(of, number) => {
                if *of < at {
                    if is_root(bound, *of) {
                        child(input, *number)
                    } else {
                        child_of(bound_part(bound, input, *of), *number)
                    }
                } else {
                    None
                }
            }
            Held::Part(path) => {
                let root = root_of(path);
                if root < at {
                    followed_from(bound_part(bound, input, root), path)
                } else {
                    None
                }
            }
            Held::Block(_) => None,
        },
        None => None,
    }
}

/// Whether the variable at a place is bound to all data.
#[inline(always)]
fn is_root(bound: &VariableStack, at: usize) -> bool
    ensures { result ≡ true → IsRoot bound.now at }
{
    match variable_at(bound, at) {
        Some(variable) => match &variable.to {
            Held::Made(_) => false,
            Held::Root => true,
            Held::Item(_, _) => false,
            Held::Part(_) => false,
            Held::Block(_) => false,
        },
        None => false,
    }
}

/// The part that a path names.
pub(crate) fn part_of<'i>(point: Point<'_, 'i, '_>, path: &Path) -> Option<&'i Value>
    ensures { part_value result ≡ path_value (cells_seen point.entry) path.now }
{
    followed_from(part_at(point, root_of(path)), path)
}

/// The item, entry or field of a number in a part, if there is one.
pub(crate) fn child_of(part: Option<&Value>, number: usize) -> Option<&Value>
    ensures { part_value result ≡ child number (part_value part.entry) }
{
    match part {
        Some(value) => child(value, number),
        None => None,
    }
}

/// The place of the variable from which a path leads.
pub(crate) fn root_of(path: &Path) -> usize
    ensures { result ≡ path_of path.now }
{
    match path {
        Path::Whole(of) => *of,
        Path::Child(of, _) => *of,
        Path::Deep(of, _) => *of,
    }
}

/// The part to which a path leads from the part of its variable, if there is one.
fn followed_from<'i>(part: Option<&'i Value>, path: &Path) -> Option<&'i Value>
    ensures { part_value result ≡ led (path_steps path.now) (part_value part.entry) }
{
    match path {
        Path::Whole(_) => part,
        Path::Child(_, number) => child_of(part, *number),
        Path::Deep(_, steps) => led_from(part, steps.as_slice()),
    }
}

/// The part to which numbers lead from another, if there is one.
#[tactic(auto, using(crate::proofs::Values::led_null))]
fn led_from<'i>(part: Option<&'i Value>, steps: &[usize]) -> Option<&'i Value>
    ensures { part_value result ≡ led steps.now (part_value part.entry) }
{
    match part {
        Some(value) => followed(value, steps),
        None => None,
    }
}

/// The part to which numbers lead.
#[tactic(auto, using(crate::proofs::Values::led_next, crate::proofs::Values::led_lost))]
fn followed<'a>(value: &'a Value, steps: &[usize]) -> Option<&'a Value>
    ensures { part_value result ≡ led steps.now (view_value value.now) }
{
    let mut part = value;
    for number in steps {
        part = child(part, *number)?;
    }
    Some(part)
}

/// The item, entry or field of a number.
fn child(value: &Value, number: usize) -> Option<&Value>
    ensures { part_value result ≡ child number (view_value value.now) }
{
    match value {
        Value::Null => None,
        Value::Bool(_) => None,
        Value::Int(_) => None,
        Value::Str(_) => None,
        Value::List(items) => item(items.items(), number),
        Value::Map(entries) => entry(entries.items(), number),
        Value::Fields(entries) => entry(entries.items(), number),
    }
}

#[tactic(auto, using(crate::proofs::Values::item_some_value, crate::proofs::Values::item_none_value))]
fn item(items: &[Value], number: usize) -> Option<&Value>
    ensures { part_value result ≡ item_value (view_items items.now) number }
{
    match item_at(items, number) {
        Some(value) => Some(value),
        None => None,
    }
}

pub(crate) fn item_at(items: &[Value], number: usize) -> Option<&Value>
    ensures { option_map (λ v. v.now) result ≡ slice_get items.now number }
{
    items.get(number)
}

#[tactic(auto, using(crate::proofs::Values::entry_some_value, crate::proofs::Values::entry_none_value))]
fn entry(entries: &[Entry], number: usize) -> Option<&Value>
    ensures { part_value result ≡ nth_entry_value (view_entries entries.now) number }
{
    match entry_at(entries, number) {
        Some(entry) => Some(&entry.value),
        None => None,
    }
}

fn entry_at(entries: &[Entry], number: usize) -> Option<&Entry>
    ensures { option_map (λ e. e.now) result ≡ slice_get entries.now number }
{
    entries.get(number)
}
