//! Ops that are given at once.

ghost use Rattle.std.specs.Prelude.{◌≡◌, ◌<◌, ℕ, [], IfSome, None, Some, encode_utf8_all};
ghost use Rattle.std.specs.Str.{chars};
ghost use Rattle.soy_expr.specs.ViewEvaluated.{view_made};
ghost use Rattle.soy_rules.specs.Val.{binding};
ghost use Rattle.soy_tree.specs.Values as values;
ghost use Rattle.soy_tree.specs.ViewExpressions.{view_expr};
ghost use Rattle.soy_tree.specs.ViewValues.{view_value};
ghost use Rattle.template_ir.specs.Run.{value_at};
ghost use Rattle.template_ir.specs.declared.op.Op.TheVariants as op;
ghost use Rattle.render_core.specs.Finds.{IsVariable, binding_at};
ghost use Rattle.render_core.specs.Forms.{form_at};
ghost use Rattle.render_core.specs.Frames.{MachineFits};
ghost use Rattle.render_core.specs.Pulls.{Gave};
ghost use Rattle.render_core.specs.Ready.{GivesBinding, GivesField, IsNext};
ghost use Rattle.render_core.specs.Seen.{cells_seen, input_seen, program_seen};
ghost use Rattle.render_core.specs.Stepping.{Gives, output};
ghost use Rattle.render_core.specs.Variables.{cell_at, cells_of, env_at};

use crate::begun::{copy_from, escaper_at};
use crate::fields::field_part;
use crate::frame::{Ahead, Frame};
use crate::held::Held;
use crate::machine::op_before;
use crate::names::variable_of;
use crate::parts::{Point, part_at, place_of, variable_at};
use crate::scene::Scene;
use crate::stack::Machine;
use crate::variable_stack::VariableStack;
use itoa::Buffer;
use soy_base::{Dir, Place, Steps, Text, ValueClass};
use soy_expr::Made;
use soy_tree::{Expr, ExprNode, Value};
use std::sync::ledger::Ledger;
use template_ir::Op;
use value_cursor::give_whole;

impl Machine {
    /// Gives the next op at once, if it is a static text that the room takes, or the print of a variable or its field
    /// that `give_whole` gives, as most are, and nothing is gathered; else nothing is done. So what else a step may
    /// need isn't set up for it.
    #[inline(always)]
    pub(crate) fn give_ready<L: Ledger>(
        &mut self,
        scene: &Scene,
        room: &mut [u8],
        steps: &mut Steps<L>,
    ) -> Option<usize>
        requires { MachineFits self.old }
        ensures some { IfSome result (λ n. 0 < n) }
        ensures gives { IfSome result (λ n. Gives scene.now.program.now (view_value scene.now.input.now) self.old
            self.new steps.old steps.new (output room.old room.new None) n) }
        ensures machine { result ≡ None → self.new ≡ self.old }
        ensures room { result ≡ None → room.new ≡ room.old }
        ensures steps { result ≡ None → steps.new ≡ steps.old }
    {
        if !self.texts.is_empty() {
            return None;
        }
        let Frame::Ops(ahead) = self.top else {
            return None;
        };
        let Some(op) = op_before(scene.program, ahead) else {
            return None;
        };
        match op {
            Op::Static(text) => self.static_ready(scene, ahead, text, room),
            Op::Print(expr, place) => self.print_ready(scene, ahead, expr, *place, room, steps),
            _ => None,
        }
    }

    /// The same of a static text.
    #[inline(always)]
    fn static_ready(
        &mut self,
        scene: &Scene,
        ahead: Ahead,
        text: &Text,
        room: &mut [u8],
    ) -> Option<usize>
        requires { IsNext scene.now.program.now self.old ahead (op.Static text.now) }
        ensures some { IfSome result (λ n. 0 < n) }
        ensures gives { (m : ℕ) → IfSome result (λ n. Gives scene.now.program.now (view_value scene.now.input.now)
            self.old self.new m m (output room.old room.new None) n) }
        ensures machine { result ≡ None → self.new ≡ self.old }
        ensures room { result ≡ None → room.new ≡ room.old }
    {
        let n = put_whole(text, room)?;
        self.pass(ahead);
        Some(n)
    }

    /// The same of a print.
    #[inline(always)]
    fn print_ready<L: Ledger>(
        &mut self,
        scene: &Scene,
        ahead: Ahead,
        expr: &Expr,
        place: Place,
        room: &mut [u8],
        steps: &mut Steps<L>,
    ) -> Option<usize>
        requires { IsNext scene.now.program.now self.old ahead (op.Print expr.now place) }
        ensures some { IfSome result (λ n. 0 < n) }
        ensures gives { IfSome result (λ n. Gives scene.now.program.now (view_value scene.now.input.now) self.old
            self.new steps.old steps.new (output room.old room.new None) n) }
        ensures machine { result ≡ None → self.new ≡ self.old }
        ensures room { result ≡ None → room.new ≡ room.old }
        ensures steps { result ≡ None → steps.new ≡ steps.old }
    {
        if let ExprNode::Member(_, _, _) = expr.node.get() {
            return self.field_ready(scene, ahead, expr, place, room, steps);
        }
        let Some(name) = variable_of(expr) else {
            return None;
        };
        self.variable_ready(scene, ahead, expr, name, place, room, steps)
    }

    /// The same of the print of a field.
    #[inline(always)]
    fn field_ready<L: Ledger>(
        &mut self,
        scene: &Scene,
        ahead: Ahead,
        expr: &Expr,
        place: Place,
        room: &mut [u8],
        steps: &mut Steps<L>,
    ) -> Option<usize>
        requires { IsNext scene.now.program.now self.old ahead (op.Print expr.now place) }
        ensures some { IfSome result (λ n. 0 < n) }
        ensures gives { IfSome result (λ n. Gives scene.now.program.now (view_value scene.now.input.now) self.old
            self.new steps.old steps.new (output room.old room.new None) n) }
        ensures machine { result ≡ None → self.new ≡ self.old }
        ensures room { result ≡ None → room.new ≡ room.old }
        ensures steps { result ≡ None → steps.new ≡ steps.old }
    {
        let n = put_field(scene, &self.bound, ahead.env, expr, place, room)?;
        steps.count();
        steps.count();
        self.pass(ahead);
        Some(n)
    }

    /// The same of the print of a variable.
    #[inline(always)]
    fn variable_ready<L: Ledger>(
        &mut self,
        scene: &Scene,
        ahead: Ahead,
        expr: &Expr,
        name: &Text,
        place: Place,
        room: &mut [u8],
        steps: &mut Steps<L>,
    ) -> Option<usize>
        requires next { IsNext scene.now.program.now self.old ahead (op.Print expr.now place) }
        requires variable { IsVariable (view_expr expr.now) (Some name.now) }
        ensures some { IfSome result (λ n. 0 < n) }
        ensures gives { IfSome result (λ n. Gives scene.now.program.now (view_value scene.now.input.now) self.old
            self.new steps.old steps.new (output room.old room.new None) n) }
        ensures machine { result ≡ None → self.new ≡ self.old }
        ensures room { result ≡ None → room.new ≡ room.old }
        ensures steps { result ≡ None → steps.new ≡ steps.old }
    {
        let n = put_variable(scene, &self.bound, ahead.env, name, place, room)?;
        steps.count();
        self.pass(ahead);
        Some(n)
    }
}

/// Puts the form of a field at the beginning of the room, if an expression is the field of a variable, and if
/// `give_whole` gives it; else nothing is done.
#[inline(never)]
fn put_field(
    scene: &Scene,
    bound: &VariableStack,
    env: usize,
    expr: &Expr,
    place: Place,
    room: &mut [u8],
) -> Option<usize>
    ensures some { IfSome result (λ n. 0 < n) }
    ensures gives { IfSome result (λ n. GivesField scene.now.program.now (view_value scene.now.input.now) bound.now env
        (view_expr expr.now) place room.old room.new n) }
    ensures unchanged { result ≡ None → room.new ≡ room.old }
{
    let point = Point {
        scene: *scene,
        bound,
        env,
    };
    let field = field_part(point, expr)?;
    put_value(place, field.value, scene.program.dir, room)
}

/// The same of the first variable of a name.
#[inline(never)]
fn put_variable(
    scene: &Scene,
    bound: &VariableStack,
    env: usize,
    name: &Text,
    place: Place,
    room: &mut [u8],
) -> Option<usize>
    ensures some { IfSome result (λ n. 0 < n) }
    ensures gives { IfSome result (λ n. GivesBinding scene.now.program.now.dir
        (binding name.now (env_at (cells_of scene.now.program.now (view_value scene.now.input.now) bound.now) env))
        place room.old room.new n) }
    ensures unchanged { result ≡ None → room.new ≡ room.old }
{
    let point = Point {
        scene: *scene,
        bound,
        env,
    };
    let at = place_of(point, name)?;
    put_bound(point, at, place, room)
}

/// The same of what the variable at a place is bound to.
#[inline(always)]
fn put_bound(point: Point, at: usize, place: Place, room: &mut [u8]) -> Option<usize>
    ensures some { IfSome result (λ n. 0 < n) }
    ensures gives { IfSome result (λ n. GivesBinding (program_seen point.entry).dir
        (binding_at (program_seen point.entry) (input_seen point.entry) point.entry.bound.now at)
        place room.old room.new n) }
    ensures unchanged { result ≡ None → room.new ≡ room.old }
{
    match variable_at(point.bound, at) {
        Some(variable) => match &variable.to {
            Held::Made(made) => put_made(place, made, point.scene.program.dir, room),
            Held::Root => None,
            Held::Item(_, _) => put_part(point, at, place, room),
            Held::Part(_) => put_part(point, at, place, room),
            Held::Block(_) => None,
        },
        None => None,
    }
}

/// The same of the part of the data that the variable at a place is bound to.
#[inline(always)]
fn put_part(point: Point, at: usize, place: Place, room: &mut [u8]) -> Option<usize>
    ensures some { IfSome result (λ n. 0 < n) }
    ensures gave { IfSome result (λ n. Gave (encode_utf8_all (value_at (program_seen point.entry).dir place
        (cell_at (cells_seen point.entry) at).part)) [] room.old room.new n) }
    ensures unchanged { result ≡ None → room.new ≡ room.old }
{
    let value = part_at(point, at)?;
    put_value(place, value, point.scene.program.dir, room)
}

/// The same of a value that was made.
#[inline(always)]
fn put_made(place: Place, made: &Made, dir: Dir, room: &mut [u8]) -> Option<usize>
    ensures some { IfSome result (λ n. 0 < n) }
    ensures gave { IfSome result (λ n. Gave (encode_utf8_all (value_at dir place (view_made made.now))) []
        room.old room.new n) }
    ensures unchanged { result ≡ None → room.new ≡ room.old }
{
    match made {
        Made::Null => None,
        Made::Bool(_) => None,
        Made::Int(number) => put_int(place, *number, dir, room),
        Made::Str(text) => put_form(place, ValueClass::Text, text.text(), dir, room),
    }
}

/// The same of a value, if it is a string or an int.
#[inline(always)]
fn put_value(place: Place, value: &Value, dir: Dir, room: &mut [u8]) -> Option<usize>
    ensures some { IfSome result (λ n. 0 < n) }
    ensures gave { IfSome result (λ n. Gave (encode_utf8_all (value_at dir place (view_value value.now))) []
        room.old room.new n) }
    ensures unchanged { result ≡ None → room.new ≡ room.old }
{
    match value {
        Value::Null => None,
        Value::Bool(_) => None,
        Value::Int(number) => put_int(place, *number, dir, room),
        Value::Str(text) => put_form(place, ValueClass::Text, text.text(), dir, room),
        Value::List(_) => None,
        Value::Map(_) => None,
        Value::Fields(_) => None,
    }
}

/// The same of an int.
#[inline(never)]
fn put_int(place: Place, number: i64, dir: Dir, room: &mut [u8]) -> Option<usize>
    ensures some { IfSome result (λ n. 0 < n) }
    ensures gave { IfSome result (λ n. Gave (encode_utf8_all (value_at dir place (values.IntValue number))) []
        room.old room.new n) }
    ensures unchanged { result ≡ None → room.new ≡ room.old }
{
    let mut buffer = Buffer::new();
    put_form(place, ValueClass::Int, buffer.format(number), dir, room)
}

/// Puts the form of a text at the beginning of the room, if it isn't empty and `give_whole` gives it.
#[inline(always)]
#[tactic(auto, using(crate::proofs::Wents::none_room))]
fn put_form(place: Place, class: ValueClass, text: &str, dir: Dir, room: &mut [u8]) -> Option<usize>
    ensures some { IfSome result (λ n. 0 < n) }
    ensures gave { IfSome result (λ n. Gave (encode_utf8_all (form_at place class (chars text.now) dir)) []
        room.old room.new n) }
    ensures unchanged { result ≡ None → room.new ≡ room.old }
{
    let how = escaper_at(place, class)?;
    let n = give_whole(how, class, text, dir, room)?;
    if n > 0 { Some(n) } else { None }
}

/// Puts a text at the beginning of the room, if it isn't empty and the room takes it whole.
#[inline(always)]
fn put_whole(text: &Text, room: &mut [u8]) -> Option<usize>
    ensures some { IfSome result (λ n. 0 < n) }
    ensures gave { IfSome result (λ n. Gave (encode_utf8_all text.now) [] room.old room.new n) }
    ensures unchanged { result ≡ None → room.new ≡ room.old }
{
    let bytes = text.text().as_bytes();
    if bytes.is_empty() || bytes.len() > room.len() {
        return None;
    }
    Some(copy_from(bytes, 0, room))
}
