//! What commands and parameters make visible.

ghost use Rattle.std.specs.Prelude.{◌≡◌, ◌∷◌, IfOk, OnOk, Ok, option_map};
ghost use Rattle.soy_rules.specs.Bodies.{new_variable, new_variables};
ghost use Rattle.soy_rules.specs.Faults.{followed_by};
ghost use Rattle.soy_rules.specs.Templates.{param_scope, param_type};
ghost use Rattle.soy_tree.specs.Types.{IntType};
ghost use Rattle.soy_tree.specs.ViewExpressions.{view_expr};
ghost use Rattle.soy_tree.specs.ViewTrees.{view_params};
ghost use Rattle.soy_tree.specs.ViewTypes.{view_type};
ghost use Rattle.soy_expr.specs.ViewScope.{view_vars};
ghost use Rattle.soy_expr.specs.Grows.{Grows};
ghost use Rattle.soy_expr.specs.Visible.{variable};
ghost use Rattle.soy_check.specs.Answers.{Passes};
ghost use Rattle.soy_check.specs.Rules.{item_type, let_scope, loop_start, with_pair};

use crate::faults::{misnamed, untyped};
use soy_base::{Boxed, Code, OutOfMemory, Refusal, Span, Text};
use soy_expr::{TypeFault, VisibleVariables, param_type, type_by};
use soy_tree::{Expr, Param, SoyType};
use std::alloc::Global;

/// The parameters of a template as variables.
pub(crate) fn param_variables(
    alloc: Global,
    params: &[Param],
) -> Result<VisibleVariables, OutOfMemory>
    ensures { IfOk result (λ vars. view_vars vars ≡ param_scope (view_params params.now)) }
{
    let mut vars = VisibleVariables::new(alloc);
    let mut left = params.len();
    while left > 0 {
        left -= 1;
        let param = &params[left];
        let of = param_type(alloc, param)?;
        vars.add(alloc, &param.name, of)?;
    }
    Ok(vars)
}

/// Refuses a variable that is already visible.
#[tactic(auto, using(crate::proofs::Refusals::kept))]
pub(crate) fn check_new(
    alloc: Global,
    name: &Text,
    span: Span,
    vars: &VisibleVariables,
) -> Result<(), Refusal<TypeFault>>
    ensures { Passes (new_variable name.now span (view_vars vars.now)) (view_vars vars.now) result }
{
    match vars.find(name) {
        Some(_) => Err(misnamed(alloc, Code::Twice, span, name)),
        None => Ok(()),
    }
}

/// Makes a variable visible.
pub(crate) fn declare(
    alloc: Global,
    name: &Text,
    of: SoyType,
    vars: &mut VisibleVariables,
) -> Result<(), OutOfMemory>
    ensures scope { OnOk result (vars.new ≡ variable name.now of ∷ vars.old) }
    ensures grown { OnOk result (Grows vars.old vars.new) }
{
    vars.add(alloc, name, of)?;
    Ok(())
}

/// The variable of a let, which is visible after it.
#[tactic(auto, using(crate::proofs::Refusals::refused_first, crate::proofs::Refusals::refused_type))]
pub(crate) fn check_let(
    alloc: Global,
    name: &Text,
    expr: &Expr,
    span: Span,
    vars: &mut VisibleVariables,
) -> Result<(), Refusal<TypeFault>>
    ensures passes { Passes (let_scope name.now (view_expr expr.now) span (view_vars vars.old))
        (view_vars vars.new) result }
    ensures grown { OnOk result (Grows vars.old vars.new) }
{
    check_new(alloc, name, span, vars)?;
    let of = type_by(alloc, expr, vars)?;
    Ok(declare(alloc, name, of, vars)?)
}

/// The variables of a loop, which are visible in its body.
pub(crate) fn enter_loop(
    alloc: Global,
    name: &Boxed<Text>,
    index: &Option<Boxed<Text>>,
    list: &Expr,
    span: Span,
    vars: &mut VisibleVariables,
) -> Result<(), Refusal<TypeFault>>
    ensures passes { Passes (loop_start name.now index.now (view_expr list.now) span (view_vars vars.old))
        (view_vars vars.new) result }
    ensures grown { OnOk result (Grows vars.old vars.new) }
{
    enter_items(alloc, name.get(), index, list, span, vars)
}

/// The same, by the variable of the items.
#[tactic(auto, using(crate::proofs::Refusals::refused_first, crate::proofs::Refusals::refused_type, crate::proofs::Spans::span_of_view, crate::proofs::Loops::scope_of_items, crate::proofs::Loops::no_items))]
fn enter_items(
    alloc: Global,
    name: &Text,
    index: &Option<Boxed<Text>>,
    list: &Expr,
    span: Span,
    vars: &mut VisibleVariables,
) -> Result<(), Refusal<TypeFault>>
    ensures passes { Passes (loop_start name.now index.now (view_expr list.now) span (view_vars vars.old))
        (view_vars vars.new) result }
    ensures grown { OnOk result (Grows vars.old vars.new) }
{
    check_new_pair(alloc, name, index, span, vars)?;
    let of = type_by(alloc, list, vars)?;
    let Some(item) = item_of(&of) else {
        return Err(untyped(alloc, Code::Mistyped, list.span.start, &of));
    };
    Ok(declare_pair(alloc, name, index, item.copy(alloc)?, vars)?)
}

/// The type of the items, if it is a list's.
fn item_of(of: &SoyType) -> Option<&SoyType>
    ensures { option_map (λ t. view_type t.now) result ≡ item_type (view_type of.now) }
{
    match of {
        SoyType::List(item) => Some(item.get()),
        _ => None,
    }
}

/// Makes the variables of a loop visible.
fn declare_pair(
    alloc: Global,
    name: &Text,
    index: &Option<Boxed<Text>>,
    item: SoyType,
    vars: &mut VisibleVariables,
) -> Result<(), OutOfMemory>
    ensures scope { OnOk result (view_vars vars.new
        ≡ with_pair name.now index.now (view_type item) (view_vars vars.old)) }
    ensures grown { OnOk result (Grows vars.old vars.new) }
{
    declare(alloc, name, item, vars)?;
    match index {
        Some(index) => {
            declare(alloc, index.get(), SoyType::Int, vars)?;
            Ok(())
        }
        None => Ok(()),
    }
}

/// Refuses variables of a loop that are already visible, or one name for both.
#[tactic(auto, using(crate::proofs::Refusals::refused_first, crate::proofs::Refusals::kept))]
fn check_new_pair(
    alloc: Global,
    name: &Text,
    index: &Option<Boxed<Text>>,
    span: Span,
    vars: &VisibleVariables,
) -> Result<(), Refusal<TypeFault>>
    ensures { Passes (new_variables name.now index.now span (view_vars vars.now)) (view_vars vars.now) result }
{
    check_new(alloc, name, span, vars)?;
    match index {
        Some(index) => check_new_index(alloc, name, index.get(), span, vars),
        None => Ok(()),
    }
}

/// Refuses an index that is already visible, or named as the loop's variable.
#[tactic(auto, using(crate::proofs::Refusals::refused_first, crate::proofs::Refusals::kept))]
fn check_new_index(
    alloc: Global,
    name: &Text,
    index: &Text,
    span: Span,
    vars: &VisibleVariables,
) -> Result<(), Refusal<TypeFault>>
    ensures { Passes (followed_by (new_variable index.now span ((name.now, IntType) ∷ view_vars vars.now))
        (λ inner. Ok (view_vars vars.now))) (view_vars vars.now) result }
{
    if name.is(index.text()) {
        return Err(misnamed(alloc, Code::Twice, span, index));
    }
    check_new(alloc, index, span, vars)
}
