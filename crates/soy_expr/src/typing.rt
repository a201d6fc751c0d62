//! The type of an expression.

ghost use Rattle.std.specs.Prelude.{◌≡◌, IfOk, Ok};
ghost use Rattle.soy_tree.specs.Expressions.{Binary, Coalesce, Conditional, Index, Member, Minus};
ghost use Rattle.soy_rules.specs.Faults.{followed_by, found};
ghost use Rattle.soy_rules.specs.TypeOf.{type_of, variable_type};
ghost use Rattle.soy_tree.specs.Types.{BoolType};
ghost use Rattle.soy_tree.specs.ViewExpressions.{view_expr};
ghost use Rattle.soy_tree.specs.ViewTypes.{view_type};
ghost use Rattle.soy_expr.specs.ViewScope.{view_scope, view_vars};
ghost use Rattle.soy_expr.specs.ViewTypeFault.{Types};
ghost use Rattle.soy_expr.specs.ViewTyping.{view_typing};

use crate::access_type::{index_type, member_type};
use crate::operator_type::{binary_type, choice_type, coalesce_type, minus_type};
use crate::type_fault::unknown;
use crate::variable_types::Row;
use crate::{Scope, TypeFault, VariableTypes};
use soy_base::{OutOfMemory, Refusal, Span, Text};
use soy_tree::{BinaryOp, Expr, ExprNode, Field, SoyType};
use std::alloc::Global;

/// A type that stands in the scope, or one that a rule made.
#[derive(Drop)]
pub(crate) enum Typing<'a> {
    Declared(&'a SoyType),
    Made(SoyType),
}

impl<'a> Typing<'a> {
    /// The type.
    pub(crate) fn get(&self) -> &SoyType
        ensures { view_type result.now ≡ view_typing self.now }
    {
        match self {
            Typing::Declared(of) => of,
            Typing::Made(of) => of,
        }
    }

    /// The type, copied where it stands in the scope.
    fn owned(self, alloc: Global) -> Result<SoyType, OutOfMemory>
        ensures { IfOk result (λ t. view_type t ≡ view_typing self.entry) }
    {
        match self {
            Typing::Declared(of) => of.copy(alloc),
            Typing::Made(of) => Ok(of),
        }
    }
}

/// The type of an expression in a scope; where it has none, its first fault.
pub fn type_of(alloc: Global, expr: &Expr, scope: &Scope) -> Result<SoyType, Refusal<TypeFault>>
    ensures { Types view_type (type_of (view_expr expr.now) (view_scope scope.now)) result }
{
    type_among(alloc, expr, scope.vars.items())
}

/// The type of an expression among the variables that are visible, of which the first of a name counts; where it has
/// none, its first fault.
pub fn type_among(alloc: Global, expr: &Expr, vars: &[Field]) -> Result<SoyType, Refusal<TypeFault>>
    ensures { Types view_type (type_of (view_expr expr.now) (view_vars vars.now)) result }
{
    type_by(alloc, expr, &Row { vars })
}

/// The type of an expression, whose variables are found by their names; where it has none, its first fault.
pub fn type_by<V: VariableTypes>(
    alloc: Global,
    expr: &Expr,
    vars: &V,
) -> Result<SoyType, Refusal<TypeFault>>
    ensures { Types view_type (type_of (view_expr expr.now) (V.visible vars.now)) result }
{
    let typing = type_in(alloc, expr, vars)?;
    Ok(typing.owned(alloc)?)
}

/// The same, not copied where it stands in the scope.
#[cycle(typing)]
fn type_in<'a, V: VariableTypes>(
    alloc: Global,
    expr: &Expr,
    vars: &'a V,
) -> Result<Typing<'a>, Refusal<TypeFault>>
    ensures { Types view_typing (type_of (view_expr expr.now) (V.visible vars.now)) result }
{
    let span = expr.span;
    match expr.node.get() {
        ExprNode::Null => Ok(Typing::Made(SoyType::Null)),
        ExprNode::Bool(_) => Ok(Typing::Made(SoyType::Bool)),
        ExprNode::Int(_) => Ok(Typing::Made(SoyType::Int)),
        ExprNode::Str(_) => Ok(Typing::Made(SoyType::Str)),
        ExprNode::Var(name) => variable_typing(alloc, span, name, vars),
        ExprNode::Member(of, name, takes_null) => {
            member_typing(alloc, span, of, name, *takes_null, vars)
        }
        ExprNode::Index(of, index, takes_null) => {
            index_typing(alloc, span, of, index, *takes_null, vars)
        }
        ExprNode::Neg(of) => minus_typing(alloc, span, of, vars),
        ExprNode::Not(of) => not_typing(alloc, of, vars),
        ExprNode::Binary(op, left, right) => { binary_typing(alloc, *op, span, left, right, vars) }
        ExprNode::Coalesce(left, right) => { coalesce_typing(alloc, span, left, right, vars) }
        ExprNode::Cond(when, left, right) => { choice_typing(alloc, span, when, left, right, vars) }
    }
}

/// The type of an access to a field.
#[cycle(typing)]
#[tactic(auto, using(crate::proofs::Refusals::refused_first))]
fn member_typing<'a, V: VariableTypes>(
    alloc: Global,
    span: Span,
    of: &Expr,
    name: &Text,
    takes_null: bool,
    vars: &'a V,
) -> Result<Typing<'a>, Refusal<TypeFault>>
    ensures { Types view_typing
        (type_of (Member (view_expr of.now) name.now takes_null span) (V.visible vars.now)) result }
{
    let of = type_in(alloc, of, vars)?;
    member_type(alloc, span, of, name, takes_null)
}

/// The type of an access by an index.
#[cycle(typing)]
#[tactic(auto, using(crate::proofs::Refusals::refused_first))]
fn index_typing<'a, V: VariableTypes>(
    alloc: Global,
    span: Span,
    of: &Expr,
    index: &Expr,
    takes_null: bool,
    vars: &'a V,
) -> Result<Typing<'a>, Refusal<TypeFault>>
    ensures { Types view_typing
        (type_of (Index (view_expr of.now) (view_expr index.now) takes_null span)
        (V.visible vars.now)) result }
{
    let of = type_in(alloc, of, vars)?;
    let index = type_in(alloc, index, vars)?;
    Ok(Typing::Made(index_type(alloc, span, of.get(), index.get(), takes_null)?))
}

/// The type of `-` before an operand.
#[cycle(typing)]
#[tactic(auto, using(crate::proofs::Refusals::refused_first))]
fn minus_typing<'a, V: VariableTypes>(
    alloc: Global,
    span: Span,
    of: &Expr,
    vars: &'a V,
) -> Result<Typing<'a>, Refusal<TypeFault>>
    ensures { Types view_typing (type_of (Minus (view_expr of.now) span) (V.visible vars.now)) result }
{
    let of = type_in(alloc, of, vars)?;
    Ok(Typing::Made(minus_type(alloc, span, of.get())?))
}

/// The type of `not`.
#[cycle(typing)]
#[tactic(auto, using(crate::proofs::Refusals::refused_first))]
fn not_typing<'a, V: VariableTypes>(
    alloc: Global,
    of: &Expr,
    vars: &'a V,
) -> Result<Typing<'a>, Refusal<TypeFault>>
    ensures { Types view_typing
        (followed_by (type_of (view_expr of.now) (V.visible vars.now)) (λ t. Ok BoolType)) result }
{
    type_in(alloc, of, vars)?;
    Ok(Typing::Made(SoyType::Bool))
}

/// The type of an operator of two operands.
#[cycle(typing)]
#[tactic(auto, using(crate::proofs::Refusals::refused_first))]
fn binary_typing<'a, V: VariableTypes>(
    alloc: Global,
    op: BinaryOp,
    span: Span,
    left: &Expr,
    right: &Expr,
    vars: &'a V,
) -> Result<Typing<'a>, Refusal<TypeFault>>
    ensures { Types view_typing
        (type_of (Binary op (view_expr left.now) (view_expr right.now) span) (V.visible vars.now)) result }
{
    let of_left = type_in(alloc, left, vars)?;
    let of_right = type_in(alloc, right, vars)?;
    let of = binary_type(
        alloc,
        op,
        (left, right),
        span,
        of_left.get(),
        of_right.get(),
    )?;
    Ok(Typing::Made(of))
}

/// The type of `?:`.
#[cycle(typing)]
#[tactic(auto, using(crate::proofs::Refusals::refused_first))]
fn coalesce_typing<'a, V: VariableTypes>(
    alloc: Global,
    span: Span,
    left: &Expr,
    right: &Expr,
    vars: &'a V,
) -> Result<Typing<'a>, Refusal<TypeFault>>
    ensures { Types view_typing
        (type_of (Coalesce (view_expr left.now) (view_expr right.now) span) (V.visible vars.now)) result }
{
    let left = type_in(alloc, left, vars)?;
    let right = type_in(alloc, right, vars)?;
    Ok(Typing::Made(coalesce_type(alloc, span, left.get(), right.get())?))
}

/// The type of `c ? a : b`.
#[cycle(typing)]
#[tactic(auto, using(crate::proofs::Refusals::refused_first))]
fn choice_typing<'a, V: VariableTypes>(
    alloc: Global,
    span: Span,
    when: &Expr,
    left: &Expr,
    right: &Expr,
    vars: &'a V,
) -> Result<Typing<'a>, Refusal<TypeFault>>
    ensures { Types view_typing
        (type_of (Conditional (view_expr when.now) (view_expr left.now) (view_expr right.now) span)
        (V.visible vars.now)) result }
{
    let when = type_in(alloc, when, vars)?;
    let left = type_in(alloc, left, vars)?;
    let right = type_in(alloc, right, vars)?;
    Ok(Typing::Made(choice_type(alloc, span, when.get(), left.get(), right.get())?))
}

/// The type of a variable.
fn variable_typing<'a, V: VariableTypes>(
    alloc: Global,
    span: Span,
    name: &Text,
    vars: &'a V,
) -> Result<Typing<'a>, Refusal<TypeFault>>
    ensures { Types view_typing (found name.now span (variable_type name.now (V.visible vars.now))) result }
{
    match vars.type_of_variable(name) {
        Some(of) => Ok(Typing::Declared(of)),
        None => Err(unknown(alloc, span, name)),
    }
}
