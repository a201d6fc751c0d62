//! The demands on calls.

ghost use Rattle.std.specs.Prelude.{◌≡◌, ◌∷◌, false, true, OnOk, IfOk, option_map, slice_get};
ghost use Rattle.soy_rules.specs.Bodies.{callee_params, handed, hands_on, named_param, names_given, param_demand};
ghost use Rattle.soy_rules.specs.Bodies.{param_demands, unnamed_demand};
ghost use Rattle.soy_rules.specs.Templates.{param_type, template_of, visible};
ghost use Rattle.soy_rules.specs.TypeOf.{variable_type};
ghost use Rattle.soy_tree.specs.ViewNodes.{view_arguments};
ghost use Rattle.soy_tree.specs.ViewTrees.{view_param, view_params};
ghost use Rattle.soy_expr.specs.ViewScope.{view_vars};
ghost use Rattle.soy_check.specs.Answers.{Answers, Passes};
ghost use Rattle.soy_check.specs.Named.{required_in};
ghost use Rattle.soy_check.specs.ViewAround.{view_all, view_around, view_indexed};

use crate::around::Around;
use crate::commands::check_accepted;
use crate::faults::misnamed;
use crate::names::Names;
use crate::names_given::NamesGiven;
use crate::template::Indexed;
use soy_base::{Code, OutOfMemory, Refusal, Span, Text};
use soy_expr::{TypeFault, VisibleVariables, param_type};
use soy_rules::called_name;
use soy_tree::{Argument, Param};
use std::alloc::Global;

/// The template that a call means by a name.
#[tactic(auto, using(crate::proofs::Refusals::kept))]
pub(crate) fn callee_params<'a, 't>(
    alloc: Global,
    around: &Around<'_, 'a, 't>,
    name: &Text,
    span: Span,
) -> Result<&'a Indexed<'t>, Refusal<TypeFault>>
    ensures { Answers (λ d. view_params d.now.declared.template.now.params)
        (callee_params (view_around around.now) name.now span) result }
{
    let full = called_name(alloc, around.namespace, name)?;
    match visible_template(around, &full) {
        Some(declared) => Ok(declared),
        None => Err(misnamed(alloc, Code::Unknown, span, &full)),
    }
}

/// The template of a full name, where the namespace sees it.
fn visible_template<'a, 't>(around: &Around<'_, 'a, 't>, full: &Text) -> Option<&'a Indexed<'t>>
    ensures { option_map (λ d. view_indexed d.now) result
        ≡ visible around.now.namespace.now (template_of full.now (view_all around.now.declared.now)) }
{
    let found = template_of(around, full)?;
    let declared = &found.declared;
    if declared.template.private && !declared.namespace.is(around.namespace.text()) {
        return None;
    }
    Some(found)
}

/// The template of a full name.
fn template_of<'a, 't>(around: &Around<'_, 'a, 't>, full: &Text) -> Option<&'a Indexed<'t>>
    ensures { option_map (λ d. view_indexed d.now) result ≡ template_of full.now (view_all around.now.declared.now) }
{
    match around.names.position(full) {
        Some(at) => declared_at(around.declared, at),
        None => None,
    }
}

fn declared_at<'a, 't>(all: &'a [Indexed<'t>], at: usize) -> Option<&'a Indexed<'t>>
    ensures { option_map (λ d. d.now) result ≡ slice_get all.now at }
{
    all.get(at)
}

/// What the callee's parameters demand of a call. Where it hands nothing on, those alone demand something that are
/// required; the first of them that no param names is refused, so that no more are asked than there are params.
#[tactic(auto, using(crate::proofs::Demanding::required_alone))]
pub(crate) fn check_demands(
    alloc: Global,
    around: &Around,
    all: bool,
    given: &[Argument],
    span: Span,
    callee: &Indexed,
    vars: &VisibleVariables,
) -> Result<(), Refusal<TypeFault>>
    ensures { Passes (param_demands (view_around around.now) all (names_given (view_arguments given.now)) span
        (view_params callee.now.declared.template.now.params) (view_vars vars.now)) (view_vars vars.now) result }
{
    let names = NamesGiven::of(alloc, given)?;
    if all {
        check_each(
            alloc,
            around,
            &names,
            span,
            callee.declared.template.params.items(),
            vars,
        )
    } else {
        check_required(alloc, around, &names, span, callee, vars)
    }
}

/// What the callee's parameters demand of a call that hands parameters on.
#[tactic(auto, using(crate::proofs::Refusals::refused_first))]
fn check_each(
    alloc: Global,
    around: &Around,
    names: &NamesGiven,
    span: Span,
    params: &[Param],
    vars: &VisibleVariables,
) -> Result<(), Refusal<TypeFault>>
    ensures { Passes (param_demands (view_around around.now) true
        (names_given (view_arguments names.now.given.now)) span (view_params params.now) (view_vars vars.now))
        (view_vars vars.now) result }
{
    for param in params {
        if !names.has(&param.name) {
            check_unnamed(alloc, around, true, span, param, vars)?;
        }
    }
    Ok(())
}

/// What the callee's required parameters demand of a call that hands nothing on.
#[tactic(auto, using(crate::proofs::Refusals::refused_first))]
fn check_required(
    alloc: Global,
    around: &Around,
    names: &NamesGiven,
    span: Span,
    callee: &Indexed,
    vars: &VisibleVariables,
) -> Result<(), Refusal<TypeFault>>
    ensures { Passes (param_demands (view_around around.now) false
        (names_given (view_arguments names.now.given.now)) span
        (view_params (required_in callee.now.declared.template.now.params)) (view_vars vars.now))
        (view_vars vars.now) result }
{
    for param in callee.required.iter() {
        if !names.has(&param.name) {
            check_unnamed(alloc, around, false, span, param, vars)?;
        }
    }
    Ok(())
}

/// What a parameter demands that no param names: that what is handed on fits, or that it may be left out.
#[tactic(auto, using(crate::proofs::Refusals::kept))]
fn check_unnamed(
    alloc: Global,
    around: &Around,
    all: bool,
    span: Span,
    param: &Param,
    vars: &VisibleVariables,
) -> Result<(), Refusal<TypeFault>>
    ensures { Passes (unnamed_demand (view_around around.now) all span (view_param param.now) (view_vars vars.now))
        (view_vars vars.now) result }
{
    if all && around.own.find(&param.name).is_some() {
        return check_handed(alloc, span, param, vars);
    }
    if param.required {
        return Err(misnamed(alloc, Code::Argument, span, &param.name));
    }
    Ok(())
}

/// Refuses a variable that is handed on and that its parameter doesn't accept.
fn check_handed(
    alloc: Global,
    span: Span,
    param: &Param,
    vars: &VisibleVariables,
) -> Result<(), Refusal<TypeFault>>
    ensures { Passes (handed (param_type (view_param param.now)) span
        (variable_type param.now.name (view_vars vars.now)) (view_vars vars.now)) (view_vars vars.now) result }
{
    let to = param_type(alloc, param)?;
    match vars.find(&param.name) {
        Some(given) => check_accepted(alloc, &to, span, given),
        None => Ok(()),
    }
}

/// The callee's parameter that a param names, given once, after params of these names, to which its own is added.
#[tactic(auto, using(crate::proofs::Refusals::kept))]
pub(crate) fn named_param<'b, 'p>(
    alloc: Global,
    name: &'b Text,
    span: Span,
    before: &mut Names<'b>,
    callee: &Indexed<'p>,
) -> Result<&'p Param, Refusal<TypeFault>>
    ensures param { Answers (λ p. view_param p.now)
        (named_param name.now span before.old (view_params callee.now.declared.template.now.params)) result }
    ensures names { OnOk result (before.new ≡ name.now ∷ before.old) }
{
    if !before.insert(name)? {
        return Err(misnamed(alloc, Code::Twice, span, name));
    }
    match callee.find(name) {
        Some(param) => Ok(param),
        None => Err(misnamed(alloc, Code::Argument, span, name)),
    }
}
