//! The bodies of templates.

ghost use Rattle.std.specs.Prelude.{◌≡◌, [], OnOk};
ghost use Rattle.soy_rules.specs.Bodies.{after_arguments, after_arms, after_body, after_cases, after_given, after_node};
ghost use Rattle.soy_rules.specs.Bodies.{after_nodes, after_plural_cases, after_select_cases};
ghost use Rattle.soy_tree.specs.ViewNodes.{view_arguments, view_arms, view_body, view_cases, view_given, view_node};
ghost use Rattle.soy_tree.specs.ViewNodes.{view_nodes, view_plural_cases, view_select_cases};
ghost use Rattle.soy_tree.specs.ViewTrees.{view_param, view_params};
ghost use Rattle.soy_expr.specs.ViewScope.{view_vars};
ghost use Rattle.soy_expr.specs.Grows.{Grows};
ghost use Rattle.soy_check.specs.Answers.{Ends, Passes};
ghost use Rattle.soy_check.specs.ViewAround.{view_around};

use crate::around::Around;
use crate::calls::{callee_params, check_demands, named_param};
use crate::commands::{Takes, check_accepted, check_expr, check_plain, check_print, check_values};
use crate::names::Names;
use crate::template::Indexed;
use crate::variables::{check_let, check_new, declare, enter_loop};
use soy_base::{Refusal, Span};
use soy_expr::{
    TypeFault, VisibleVariables, kind_type, narrow_variables, param_type, restore, type_by,
};
use soy_tree::{
    Argument, Arm, Case, Form, Given, MessageBody, Node, Param, PluralCase, SelectCase,
};
use std::alloc::Global;

/// Nodes, whose variables are visible up to the last of them.
#[cycle(checking)]
#[tactic(auto, using(crate::proofs::Refusals::refused_first, soy_expr::proofs::Growth::grown_same, soy_expr::proofs::Growth::grown_further, soy_expr::proofs::Growth::grown_left))]
pub(crate) fn check_nodes(
    alloc: Global,
    around: &Around,
    nodes: &[Node],
    vars: &mut VisibleVariables,
) -> Result<(), Refusal<TypeFault>>
    ensures ends { Ends (after_nodes (view_around around.now) (view_nodes nodes.now) (view_vars vars.old)) result }
    ensures unchanged { OnOk result (vars.new ≡ vars.old) }
{
    let count = vars.count()?;
    for node in nodes {
        check_node(alloc, around, node, vars)?;
    }
    vars.leave(count);
    Ok(())
}

/// A node, after which a variable more may be visible.
#[cycle(checking)]
#[tactic(auto, using(crate::proofs::Refusals::refused_first, soy_expr::proofs::Growth::grown_same, soy_expr::proofs::Growth::grown_one, soy_expr::proofs::Growth::grown_left, crate::proofs::Loops::loop_is))]
fn check_node(
    alloc: Global,
    around: &Around,
    node: &Node,
    vars: &mut VisibleVariables,
) -> Result<(), Refusal<TypeFault>>
    ensures passes { Passes (after_node (view_around around.now) (view_node node.now) (view_vars vars.old))
        (view_vars vars.new) result }
    ensures grown { OnOk result (Grows vars.old vars.new) }
{
    let span = node.span;
    match &node.form {
        Form::Text(_) => Ok(()),
        Form::Print(expr, _) => check_print(alloc, expr, span, vars),
        Form::If(arms, None) => {
            check_arms(alloc, around, arms.items(), vars)?;
            Ok(())
        }
        Form::If(arms, Some(other)) => {
            check_arms(alloc, around, arms.items(), vars)?;
            check_nodes(alloc, around, other.items(), vars)?;
            Ok(())
        }
        Form::Switch(subject, cases, None) => {
            check_expr(alloc, Takes::Simple, subject, vars)?;
            check_cases(alloc, around, cases.items(), vars)?;
            Ok(())
        }
        Form::Switch(subject, cases, Some(other)) => {
            check_expr(alloc, Takes::Simple, subject, vars)?;
            check_cases(alloc, around, cases.items(), vars)?;
            check_nodes(alloc, around, other.items(), vars)?;
            Ok(())
        }
        Form::For(name, index, list, body) => {
            let count = vars.count()?;
            enter_loop(alloc, name, index, list, span, vars)?;
            check_nodes(alloc, around, body.items(), vars)?;
            vars.leave(count);
            Ok(())
        }
        Form::Let(name, expr) => check_let(alloc, name, expr, span, vars),
        Form::LetBlock(name, kind, body) => {
            check_new(alloc, name, span, vars)?;
            check_nodes(alloc, around, body.items(), vars)?;
            declare(alloc, name, kind_type(*kind), vars)?;
            Ok(())
        }
        Form::Call(name, all, given) => {
            let callee = callee_params(alloc, around, name, span)?;
            let given = given.items();
            check_demands(alloc, around, *all, given, span, callee, vars)?;
            check_arguments(alloc, around, given, callee, vars)?;
            Ok(())
        }
        Form::Message(message, None) => {
            check_body(alloc, around, &message.get().body, vars)?;
            Ok(())
        }
        Form::Message(message, Some(other)) => {
            check_body(alloc, around, &message.get().body, vars)?;
            check_body(alloc, around, &other.get().body, vars)?;
            Ok(())
        }
    }
}

/// The arms of an if. In its branch a condition takes null away.
#[cycle(checking)]
#[tactic(auto, using(crate::proofs::Refusals::refused_first, crate::proofs::Refusals::refused_type))]
fn check_arms(
    alloc: Global,
    around: &Around,
    arms: &[Arm],
    vars: &mut VisibleVariables,
) -> Result<(), Refusal<TypeFault>>
    ensures passes { Passes (after_arms (view_around around.now) (view_arms arms.now) (view_vars vars.old))
        (view_vars vars.old) result }
    ensures unchanged { OnOk result (vars.new ≡ vars.old) }
{
    for arm in arms {
        type_by(alloc, &arm.when, vars)?;
        let mut outside = Vec::new(alloc);
        narrow_variables(alloc, &arm.when, vars, &mut outside)?;
        check_nodes(alloc, around, arm.body.items(), vars)?;
        restore(vars, outside);
    }
    Ok(())
}

/// The cases of a switch.
#[cycle(checking)]
#[tactic(auto, using(crate::proofs::Refusals::refused_first))]
fn check_cases(
    alloc: Global,
    around: &Around,
    cases: &[Case],
    vars: &mut VisibleVariables,
) -> Result<(), Refusal<TypeFault>>
    ensures passes { Passes (after_cases (view_around around.now) (view_cases cases.now) (view_vars vars.old))
        (view_vars vars.old) result }
    ensures unchanged { OnOk result (vars.new ≡ vars.old) }
{
    for case in cases {
        check_values(alloc, case.values.items(), vars)?;
        check_nodes(alloc, around, case.body.items(), vars)?;
    }
    Ok(())
}

/// The params of a call.
#[cycle(checking)]
#[tactic(auto, using(crate::proofs::Refusals::refused_first))]
fn check_arguments(
    alloc: Global,
    around: &Around,
    given: &[Argument],
    callee: &Indexed,
    vars: &mut VisibleVariables,
) -> Result<(), Refusal<TypeFault>>
    ensures passes { Passes (after_arguments (view_around around.now) (view_arguments given.now) []
        (view_params callee.now.declared.template.now.params) (view_vars vars.old)) (view_vars vars.old) result }
    ensures unchanged { OnOk result (vars.new ≡ vars.old) }
{
    let mut before = Names::new(alloc);
    for argument in given {
        let span = argument.span;
        let param = named_param(alloc, &argument.name, span, &mut before, callee)?;
        check_given(alloc, around, &argument.given, span, param, vars)?;
    }
    Ok(())
}

/// What a param of a call is given.
#[cycle(checking)]
#[tactic(auto, using(crate::proofs::Refusals::refused_first))]
fn check_given(
    alloc: Global,
    around: &Around,
    given: &Given,
    span: Span,
    param: &Param,
    vars: &mut VisibleVariables,
) -> Result<(), Refusal<TypeFault>>
    ensures passes { Passes (after_given (view_around around.now) (view_given given.now) span (view_param param.now)
        (view_vars vars.old)) (view_vars vars.old) result }
    ensures unchanged { OnOk result (vars.new ≡ vars.old) }
{
    match given {
        Given::Plain(expr) => check_plain(alloc, expr, param, vars),
        Given::Block(kind, body) => {
            check_accepted(alloc, &param_type(alloc, param)?, span, &kind_type(*kind))?;
            check_nodes(alloc, around, body.items(), vars)?;
            Ok(())
        }
    }
}

/// What a message holds.
#[cycle(checking)]
#[tactic(auto, using(crate::proofs::Refusals::refused_first))]
fn check_body(
    alloc: Global,
    around: &Around,
    body: &MessageBody,
    vars: &mut VisibleVariables,
) -> Result<(), Refusal<TypeFault>>
    ensures passes { Passes (after_body (view_around around.now) (view_body body.now) (view_vars vars.old))
        (view_vars vars.old) result }
    ensures unchanged { OnOk result (vars.new ≡ vars.old) }
{
    match body {
        MessageBody::Parts(nodes) => {
            check_nodes(alloc, around, nodes.items(), vars)?;
            Ok(())
        }
        MessageBody::Plural(selector, _, cases, other) => {
            check_expr(alloc, Takes::Int, selector, vars)?;
            check_plural_cases(alloc, around, cases.items(), vars)?;
            check_body(alloc, around, other.get(), vars)?;
            Ok(())
        }
        MessageBody::Select(selector, cases, other) => {
            check_expr(alloc, Takes::Str, selector, vars)?;
            check_select_cases(alloc, around, cases.items(), vars)?;
            check_body(alloc, around, other.get(), vars)?;
            Ok(())
        }
    }
}

/// The cases of a plural.
#[cycle(checking)]
#[tactic(auto, using(crate::proofs::Refusals::refused_first))]
fn check_plural_cases(
    alloc: Global,
    around: &Around,
    cases: &[PluralCase],
    vars: &mut VisibleVariables,
) -> Result<(), Refusal<TypeFault>>
    ensures passes { Passes (after_plural_cases (view_around around.now) (view_plural_cases cases.now)
        (view_vars vars.old)) (view_vars vars.old) result }
    ensures unchanged { OnOk result (vars.new ≡ vars.old) }
{
    for case in cases {
        check_body(alloc, around, &case.body, vars)?;
    }
    Ok(())
}

/// The cases of a select.
#[cycle(checking)]
#[tactic(auto, using(crate::proofs::Refusals::refused_first))]
fn check_select_cases(
    alloc: Global,
    around: &Around,
    cases: &[SelectCase],
    vars: &mut VisibleVariables,
) -> Result<(), Refusal<TypeFault>>
    ensures passes { Passes (after_select_cases (view_around around.now) (view_select_cases cases.now)
        (view_vars vars.old)) (view_vars vars.old) result }
    ensures unchanged { OnOk result (vars.new ≡ vars.old) }
{
    for case in cases {
        check_body(alloc, around, &case.body, vars)?;
    }
    Ok(())
}
