//! The ops of nodes.

ghost use Rattle.std.specs.Prelude.{◌≡◌, ◌++◌, map, IfOk, OnOk};
ghost use Rattle.soy_tree.specs.ViewNodes.{view_argument, view_arguments, view_arms, view_body, view_cases, view_node};
ghost use Rattle.soy_tree.specs.ViewNodes.{view_nodes, view_plural_cases, view_select_cases};
ghost use Rattle.template_ir.specs.HoleCounts.{argument_holes, arm_holes, body_holes, case_holes, given_holes};
ghost use Rattle.template_ir.specs.HoleCounts.{node_holes, nodes_holes, plural_holes, select_holes};
ghost use Rattle.template_ir.specs.ViewOps.{view_branch, view_choice, view_handed, view_ops};
ghost use Rattle.ir_build.specs.Claims.{arms_stand, body_stands, cases_stand, given_stand, node_stands, nodes_stand};
ghost use Rattle.ir_build.specs.Claims.{plural_cases_stand, select_cases_stand};
ghost use Rattle.ir_build.specs.Laid.{Lays, Pushes, view_output};
ghost use Rattle.ir_build.specs.ViewScene.{translation_in};
ghost use Rattle.ir_build.specs.Gives.{Gives};

use crate::calls::{push_block, push_call, push_plain};
use crate::commands::{
    push_branch, push_choice, push_for, push_if, push_if_else, push_let, push_let_block,
    push_print, push_source_plural, push_source_select, push_switch, push_switch_default,
    push_text, push_word,
};
use crate::messages::{push_alone, push_either};
use crate::output::Output;
use crate::scene::Scene;
use soy_base::OutOfMemory;
use soy_tree::{Argument, Arm, Case, Form, Given, MessageBody, Node, PluralCase, SelectCase};
use template_ir::{Branch, Choice, ExactBlock, Handed, Op, WordBlock};

/// Adds the ops of nodes to a list's own; the blocks inside of them are put at the end of all.
#[cycle(building)]
pub(crate) fn push_nodes(
    scene: &Scene<'_>,
    out: &mut Output,
    own: &mut Vec<Op>,
    nodes: &[Node],
) -> Result<(), OutOfMemory>
    ensures { OnOk result (Pushes (nodes_stand scene.now (view_nodes nodes.now))
        (nodes_holes (translation_in scene.now) (view_nodes nodes.now)) (view_output out.old) (view_output out.new)
        (view_ops own.old.items) (view_ops own.new.items)) }
{
    for node in nodes {
        push_node(scene, out, own, node)?;
    }
    Ok(())
}

/// Adds the ops of a node.
#[cycle(building)]
fn push_node(
    scene: &Scene<'_>,
    out: &mut Output,
    own: &mut Vec<Op>,
    node: &Node,
) -> Result<(), OutOfMemory>
    ensures { OnOk result (Pushes (node_stands scene.now (view_node node.now))
        (node_holes (translation_in scene.now) (view_node node.now)) (view_output out.old) (view_output out.new)
        (view_ops own.old.items) (view_ops own.new.items)) }
{
    let alloc = scene.alloc;
    let mut inner = Vec::new(alloc);
    match &node.form {
        Form::Text(text) => push_text(alloc, own, text),
        Form::Print(expr, _) => push_print(alloc, scene.places, out, own, expr),
        Form::If(arms, other) => {
            let branches = branches(scene, out, arms.items())?;
            match other {
                None => push_if(own, branches),
                Some(other) => {
                    push_nodes(scene, out, &mut inner, other.items())?;
                    push_if_else(out, own, branches, inner)
                }
            }
        }
        Form::Switch(subject, cases, other) => {
            let choices = choices(scene, out, cases.items())?;
            match other {
                None => push_switch(alloc, own, subject, choices),
                Some(other) => {
                    push_nodes(scene, out, &mut inner, other.items())?;
                    push_switch_default(alloc, out, own, subject, choices, inner)
                }
            }
        }
        Form::For(name, index, list, body) => {
            push_nodes(scene, out, &mut inner, body.items())?;
            push_for(alloc, out, own, name, index, list, inner)
        }
        Form::Let(name, expr) => push_let(alloc, own, name, expr),
        Form::LetBlock(name, kind, body) => {
            push_nodes(scene, out, &mut inner, body.items())?;
            push_let_block(alloc, out, own, name, *kind, inner)
        }
        Form::Call(name, all, given) => {
            let place = out.take_place(scene.places)?;
            let handed = handed(scene, out, given.items())?;
            push_call(
                scene,
                own,
                handed,
                name,
                *all,
                given.items(),
                place,
                node.span,
            )
        }
        Form::Message(message, other) => {
            let old_length = out.ops.len();
            let message = message.get();
            push_body(scene, out, &mut inner, &message.body)?;
            match other {
                None => push_alone(scene, out, own, old_length, inner, message),
                Some(other) => push_either(
                    scene,
                    out,
                    own,
                    old_length,
                    inner,
                    message,
                    other.get(),
                ),
            }
        }
    }
}

/// The branches of an if.
#[cycle(building)]
fn branches(scene: &Scene<'_>, out: &mut Output, arms: &[Arm]) -> Result<Vec<Branch>, OutOfMemory>
    ensures { IfOk result (λ branches. Lays (arms_stand scene.now (view_arms arms.now) (map view_branch branches.items))
        (arm_holes (translation_in scene.now) (view_arms arms.now)) (view_output out.old) (view_output out.new)) }
{
    let mut branches = Vec::new(scene.alloc);
    for arm in arms {
        let mut body = Vec::new(scene.alloc);
        push_nodes(scene, out, &mut body, arm.body.items())?;
        push_branch(scene.alloc, out, &mut branches, &arm.when, body)?;
    }
    Ok(branches)
}

/// The choices of a switch.
#[cycle(building)]
fn choices(scene: &Scene<'_>, out: &mut Output, cases: &[Case]) -> Result<Vec<Choice>, OutOfMemory>
    ensures { IfOk result (λ choices. Lays (cases_stand scene.now (view_cases cases.now)
        (map view_choice choices.items)) (case_holes (translation_in scene.now) (view_cases cases.now))
        (view_output out.old) (view_output out.new)) }
{
    let mut choices = Vec::new(scene.alloc);
    for case in cases {
        let mut body = Vec::new(scene.alloc);
        push_nodes(scene, out, &mut body, case.body.items())?;
        push_choice(scene.alloc, out, &mut choices, case.values.items(), body)?;
    }
    Ok(choices)
}

/// What the params of a call hand over.
#[cycle(building)]
fn handed(
    scene: &Scene<'_>,
    out: &mut Output,
    given: &[Argument],
) -> Result<Vec<Handed>, OutOfMemory>
    ensures { IfOk result (λ handed. Lays (given_stand scene.now (view_arguments given.now)
        (map view_handed handed.items)) (argument_holes (translation_in scene.now) (view_arguments given.now))
        (view_output out.old) (view_output out.new)) }
{
    let mut handed = Vec::new(scene.alloc);
    for argument in given {
        push_given(scene, out, &mut handed, argument)?;
    }
    Ok(handed)
}

/// Adds what a param hands over.
#[cycle(building)]
fn push_given(
    scene: &Scene<'_>,
    out: &mut Output,
    handed: &mut Vec<Handed>,
    argument: &Argument,
) -> Result<(), OutOfMemory>
    ensures { OnOk result (Gives scene.now (view_argument argument.now) (view_output out.old) (view_output out.new)
        (map view_handed handed.old.items) (map view_handed handed.new.items)) }
{
    match &argument.given {
        Given::Plain(expr) => push_plain(scene.alloc, handed, &argument.name, expr),
        Given::Block(kind, body) => {
            let mut inner = Vec::new(scene.alloc);
            push_nodes(scene, out, &mut inner, body.items())?;
            push_block(scene.alloc, out, handed, &argument.name, *kind, inner)
        }
    }
}

/// Adds the ops of a message's source, or of a case of it.
#[cycle(building)]
fn push_body(
    scene: &Scene<'_>,
    out: &mut Output,
    own: &mut Vec<Op>,
    body: &MessageBody,
) -> Result<(), OutOfMemory>
    ensures { OnOk result (Pushes (body_stands scene.now (view_body body.now))
        (body_holes (translation_in scene.now) (view_body body.now)) (view_output out.old) (view_output out.new)
        (view_ops own.old.items) (view_ops own.new.items)) }
{
    match body {
        MessageBody::Parts(nodes) => {
            push_nodes(scene, out, own, nodes.items())?;
            Ok(())
        }
        MessageBody::Plural(number, offset, cases, other) => {
            let exact = exact_blocks(scene, out, cases.items())?;
            let mut inner = Vec::new(scene.alloc);
            push_body(scene, out, &mut inner, other.get())?;
            push_source_plural(scene.alloc, out, own, number, *offset, exact, inner)
        }
        MessageBody::Select(word, cases, other) => {
            let arms = word_blocks(scene, out, cases.items())?;
            let mut inner = Vec::new(scene.alloc);
            push_body(scene, out, &mut inner, other.get())?;
            push_source_select(scene.alloc, out, own, word, arms, inner)
        }
    }
}

/// The arms of a plural's cases.
#[cycle(building)]
fn exact_blocks(
    scene: &Scene<'_>,
    out: &mut Output,
    cases: &[PluralCase],
) -> Result<Vec<ExactBlock>, OutOfMemory>
    ensures { IfOk result (λ blocks. Lays (plural_cases_stand scene.now (view_plural_cases cases.now) blocks.items)
        (plural_holes (translation_in scene.now) (view_plural_cases cases.now)) (view_output out.old)
        (view_output out.new)) }
{
    let mut blocks = Vec::new(scene.alloc);
    for case in cases {
        let mut inner = Vec::new(scene.alloc);
        push_body(scene, out, &mut inner, &case.body)?;
        let body = out.lay(inner)?;
        blocks.push(ExactBlock { is: case.is, body })?;
    }
    Ok(blocks)
}

/// The arms of a select's cases.
#[cycle(building)]
fn word_blocks(
    scene: &Scene<'_>,
    out: &mut Output,
    cases: &[SelectCase],
) -> Result<Vec<WordBlock>, OutOfMemory>
    ensures { IfOk result (λ blocks. Lays (select_cases_stand scene.now (view_select_cases cases.now) blocks.items)
        (select_holes (translation_in scene.now) (view_select_cases cases.now)) (view_output out.old)
        (view_output out.new)) }
{
    let mut blocks = Vec::new(scene.alloc);
    for case in cases {
        let mut body = Vec::new(scene.alloc);
        push_body(scene, out, &mut body, &case.body)?;
        push_word(scene.alloc, out, &mut blocks, &case.is, body)?;
    }
    Ok(blocks)
}
