//! The names of variables, which stand in the program.

ghost use Rattle.std.specs.Prelude.{◌≡◌, option_map, bytes_eq, slice_get};
ghost use Rattle.soy_tree.specs.ViewExpressions.{view_expr};
ghost use Rattle.render_core.specs.Finds.{IsVariable};
ghost use Rattle.render_core.specs.Keys.{fingerprint_of, key_of};
ghost use Rattle.render_core.specs.Variables.{handed_name, index_name, name_or_none, name_there, of_op, op_name};
ghost use Rattle.render_core.specs.Variables.{param_name};

use crate::held::Naming;
use crate::links::{fingerprint_of, key_of};
use soy_base::Text;
use soy_tree::{Expr, ExprNode};
use template_ir::{Op, ProgramParts};

/// The name of the variable that an expression is.
pub(crate) fn variable_of(expr: &Expr) -> Option<&Text>
    ensures { IsVariable (view_expr expr.now) (option_map (λ t. t.now) result) }
{
    match expr.node.get() {
        ExprNode::Var(name) => Some(name),
        _ => None,
    }
}

/// Whether a variable has this name.
#[inline(always)]
pub(crate) fn is_named(program: &ProgramParts, naming: Naming, name: &Text) -> bool
    ensures { result ≡ bytes_eq (name_or_none (name_there program.now naming)) name.now }
{
    match name_at(program, naming) {
        Some(own) => own.is(name.text()),
        None => name.is_empty(),
    }
}

/// The key of a variable's name.
pub(crate) fn name_key(program: &ProgramParts, naming: Naming) -> u64
    ensures { result ≡ key_of (name_or_none (name_there program.now naming)) }
{
    match name_at(program, naming) {
        Some(own) => key_of(own),
        None => 0,
    }
}

/// The fingerprint of a variable's name.
pub(crate) fn name_fingerprint(program: &ProgramParts, naming: Naming) -> u32
    ensures { result ≡ fingerprint_of (name_or_none (name_there program.now naming)) }
{
    match name_at(program, naming) {
        Some(own) => fingerprint_of(own),
        None => 0,
    }
}

/// The name that stands at a place, if there is one.
#[inline(always)]
fn name_at(program: &ProgramParts, naming: Naming) -> Option<&Text>
    ensures { option_map (λ t. t.now) result ≡ name_there program.now naming }
{
    match naming {
        Naming::Hidden => None,
        Naming::Op(at) => name_of_op(program, at),
        Naming::Index(at) => name_of_index(program, at),
        Naming::Handed(at, number) => name_of_handed(program, at, number),
        Naming::Param(template, number) => name_of_param(program, template, number),
    }
}

#[inline(always)]
fn name_of_op(program: &ProgramParts, at: usize) -> Option<&Text>
    ensures { option_map (λ t. t.now) result ≡ of_op op_name (slice_get program.now.ops at) }
{
    op_name(program.op(at)?)
}

fn name_of_index(program: &ProgramParts, at: usize) -> Option<&Text>
    ensures { option_map (λ t. t.now) result ≡ of_op index_name (slice_get program.now.ops at) }
{
    index_name(program.op(at)?)
}

fn name_of_handed(program: &ProgramParts, at: usize, number: usize) -> Option<&Text>
    ensures { option_map (λ t. t.now) result ≡ of_op (handed_name number) (slice_get program.now.ops at) }
{
    handed_name(program.op(at)?, number)
}

fn name_of_param(program: &ProgramParts, template: usize, number: usize) -> Option<&Text>
    ensures { option_map (λ t. t.now) result ≡ param_name number (slice_get program.now.templates template) }
{
    let routine = program.template(template)?;
    Some(&routine.params.items().get(number)?.name)
}

#[inline(always)]
fn op_name(op: &Op) -> Option<&Text>
    ensures { option_map (λ t. t.now) result ≡ op_name op.now }
{
    match op {
        Op::For(name, _, _, _) => Some(name.get()),
        Op::Let(name, _) => Some(name),
        Op::LetBlock(name, _, _) => Some(name),
        _ => None,
    }
}

fn index_name(op: &Op) -> Option<&Text>
    ensures { option_map (λ t. t.now) result ≡ index_name op.now }
{
    match op {
        Op::For(_, Some(index), _, _) => Some(index.get()),
        _ => None,
    }
}

fn handed_name(op: &Op, number: usize) -> Option<&Text>
    ensures { option_map (λ t. t.now) result ≡ handed_name number op.now }
{
    match op {
        Op::Call(callee) => Some(&callee.get().given.items().get(number)?.name),
        _ => None,
    }
}
