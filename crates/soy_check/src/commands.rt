//! The demands of commands on their expressions.

ghost use Rattle.std.specs.Prelude.{◌≡◌};
ghost use Rattle.soy_rules.specs.Bodies.{accepted, each_passing, has_member, is_printed, passing, plain_argument};
ghost use Rattle.soy_rules.specs.Members.{members, union_members};
ghost use Rattle.soy_rules.specs.TypeOf.{Scope};
ghost use Rattle.soy_tree.specs.ViewExpressions.{view_expr, view_exprs};
ghost use Rattle.soy_tree.specs.ViewTrees.{view_param};
ghost use Rattle.soy_tree.specs.ViewTypes.{view_members, view_type};
ghost use Rattle.soy_expr.specs.ViewScope.{view_vars};
ghost use Rattle.soy_check.specs.Answers.{Passes};
ghost use Rattle.soy_check.specs.Rules.{is_taken, printed};

use crate::faults::untyped;
use soy_base::{Code, Refusal, Span};
use soy_expr::{
    TypeFault, VisibleVariables, both_mistyped, is_int, is_simple, is_string, param_type, type_by,
};
use soy_rules::accepts_by_names;
use soy_tree::{Expr, Param, SoyType};
use std::alloc::Global;

/// Which types a command takes: those made of null, bool, int and string alone, exactly int, or exactly string.
#[derive(Clone, Copy)]
pub(crate) enum Takes {
    Simple,
    Int,
    Str,
}

/// A printed expression, of a print at this span.
#[tactic(auto, using(crate::proofs::Refusals::refused_type, crate::proofs::Refusals::kept))]
pub(crate) fn check_print(
    alloc: Global,
    expr: &Expr,
    span: Span,
    vars: &VisibleVariables,
) -> Result<(), Refusal<TypeFault>>
    ensures { Passes (printed (view_expr expr.now) span (view_vars vars.now)) (view_vars vars.now) result }
{
    let of = type_by(alloc, expr, vars)?;
    if !is_printed(&of) {
        return Err(untyped(alloc, Code::Kind, span.start, &of));
    }
    Ok(())
}

/// Whether a type may be printed.
fn is_printed(of: &SoyType) -> bool
    ensures { result ≡ is_printed (view_type of.now) }
{
    match of {
        SoyType::Html => true,
        SoyType::Attributes => true,
        other => has_member(other) && is_simple(other),
    }
}

/// Whether a type has some member.
#[cycle(searching)]
fn has_member(of: &SoyType) -> bool
    ensures { result ≡ has_member (members (view_type of.now)) }
{
    match of {
        SoyType::Union(members) => some_has_member(members.items()),
        _ => true,
    }
}

/// Whether one of the types has some member.
#[cycle(searching)]
#[tactic(auto, using(crate::proofs::Types::member_append))]
fn some_has_member(types: &[SoyType]) -> bool
    ensures { result ≡ has_member (union_members (view_members types.now)) }
{
    for of in types {
        if has_member(of) {
            return true;
        }
    }
    false
}

/// An expression of which a command takes some types only.
#[tactic(auto, using(crate::proofs::Refusals::refused_type, crate::proofs::Refusals::kept, crate::proofs::Spans::span_of_view))]
pub(crate) fn check_expr(
    alloc: Global,
    takes: Takes,
    expr: &Expr,
    vars: &VisibleVariables,
) -> Result<(), Refusal<TypeFault>>
    ensures { Passes (passing (is_taken takes) (view_expr expr.now) (view_vars vars.now)) (view_vars vars.now) result }
{
    let of = type_by(alloc, expr, vars)?;
    if !is_taken(takes, &of) {
        return Err(untyped(alloc, Code::Mistyped, expr.span.start, &of));
    }
    Ok(())
}

fn is_taken(takes: Takes, of: &SoyType) -> bool
    ensures { result ≡ is_taken takes (view_type of.now) }
{
    match takes {
        Takes::Simple => is_simple(of),
        Takes::Int => is_int(of),
        Takes::Str => is_string(of),
    }
}

/// The values of a case.
#[tactic(auto, using(crate::proofs::Refusals::refused_first))]
pub(crate) fn check_values(
    alloc: Global,
    values: &[Expr],
    vars: &VisibleVariables,
) -> Result<(), Refusal<TypeFault>>
    ensures { Passes (each_passing (view_exprs values.now) (view_vars vars.now)) (view_vars vars.now) result }
{
    for value in values {
        check_expr(alloc, Takes::Simple, value, vars)?;
    }
    Ok(())
}

/// The expression of a param.
#[tactic(auto, using(crate::proofs::Refusals::refused_type, crate::proofs::Spans::span_of_view))]
pub(crate) fn check_plain(
    alloc: Global,
    expr: &Expr,
    param: &Param,
    vars: &VisibleVariables,
) -> Result<(), Refusal<TypeFault>>
    ensures { Passes (plain_argument (view_expr expr.now) (view_param param.now) (view_vars vars.now))
        (view_vars vars.now) result }
{
    let of = type_by(alloc, expr, vars)?;
    check_accepted(alloc, &param_type(alloc, param)?, expr.span, &of)
}

/// Refuses a type that another one doesn't accept, at this span.
#[tactic(auto, using(crate::proofs::Refusals::kept))]
pub(crate) fn check_accepted(
    alloc: Global,
    to: &SoyType,
    span: Span,
    given: &SoyType,
) -> Result<(), Refusal<TypeFault>>
    ensures { (scope : Scope) → Passes (accepted (view_type to.now) span (view_type given.now) scope) scope result }
{
    if !accepts_by_names(alloc, to, given)? {
        return Err(both_mistyped(alloc, span, to, given));
    }
    Ok(())
}
