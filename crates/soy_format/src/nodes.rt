//! Nodes of a body, with what stands in their blocks.

ghost use Rattle.std.specs.Prelude.{◌≡◌, ◌++◌, true, codes, OnOk};
ghost use Rattle.soy_base.specs.Appends.{Appends};
ghost use Rattle.soy_tree.specs.ViewNodes.{view_arguments, view_arms, view_body, view_cases, view_given, view_message};
ghost use Rattle.soy_tree.specs.ViewNodes.{view_node, view_nodes, view_plural_cases, view_select_cases};
ghost use Rattle.soy_format.specs.Ascii.{is_ascii};
ghost use Rattle.soy_format.specs.FormattedBody.{formatted_argument, formatted_arguments, formatted_arms};
ghost use Rattle.soy_format.specs.FormattedBody.{formatted_cases, formatted_message, formatted_message_body};
ghost use Rattle.soy_format.specs.FormattedBody.{formatted_node, formatted_nodes, formatted_plural_cases, formatted_select_cases};

use crate::ascii::push_ascii;
use crate::commands::{
    push_arm, push_call, push_call_close, push_call_end, push_case, push_expr_command, push_for,
    push_let, push_let_block, push_message_start, push_number_case, push_param, push_param_block,
    push_plural, push_print, push_word_case,
};
use crate::text::push_formatted_text;
use soy_base::{OutOfMemory, Text};
use soy_tree::{
    Argument, Arm, Case, Form, Given, Message, MessageBody, Node, PluralCase, SelectCase,
};
use std::alloc::Global;

/// Adds the nodes of a body.
#[cycle(pushing_nodes)]
#[tactic(auto, using(crate::proofs::Pushes::append_assoc))]
pub(crate) fn push_nodes(alloc: Global, out: &mut String, nodes: &[Node]) -> Result<(), OutOfMemory>
    ensures { OnOk result (Appends out.old out.new (formatted_nodes (view_nodes nodes.now))) }
{
    for node in nodes {
        push_node(alloc, out, node)?;
    }
    Ok(())
}

/// Adds a node.
#[cycle(pushing_nodes)]
#[tactic(auto, using(crate::proofs::Pushes::three_pushed, crate::proofs::Pushes::four_pushed, crate::proofs::Pushes::inner_four, crate::proofs::Pushes::inner_five, crate::proofs::Pushes::append_assoc))]
fn push_node(alloc: Global, out: &mut String, node: &Node) -> Result<(), OutOfMemory>
    ensures { OnOk result (Appends out.old out.new (formatted_node (view_node node.now))) }
{
    match &node.form {
        Form::Text(text) => push_formatted_text(out, text),
        Form::Print(of, phname) => push_print(alloc, out, of, phname),
        Form::If(arms, None) => {
            push_arms(alloc, out, arms.items())?;
            push_ascii(out, "{/if}")
        }
        Form::If(arms, Some(other)) => {
            push_arms(alloc, out, arms.items())?;
            push_ascii(out, "{else}")?;
            push_nodes(alloc, out, other.items())?;
            push_ascii(out, "{/if}")
        }
        Form::Switch(subject, cases, None) => {
            push_expr_command(alloc, out, "{switch ", subject)?;
            push_cases(alloc, out, cases.items())?;
            push_ascii(out, "{/switch}")
        }
        Form::Switch(subject, cases, Some(other)) => {
            push_expr_command(alloc, out, "{switch ", subject)?;
            push_cases(alloc, out, cases.items())?;
            push_ascii(out, "{default}")?;
            push_nodes(alloc, out, other.items())?;
            push_ascii(out, "{/switch}")
        }
        Form::For(name, index, list, body) => {
            push_for(alloc, out, name.get(), index, list)?;
            push_nodes(alloc, out, body.items())?;
            push_ascii(out, "{/for}")
        }
        Form::Let(name, of) => push_let(alloc, out, name, of),
        Form::LetBlock(name, kind, body) => {
            push_let_block(out, name, *kind)?;
            push_nodes(alloc, out, body.items())?;
            push_ascii(out, "{/let}")
        }
        Form::Call(name, all, given) => {
            push_call(out, name, *all)?;
            push_call_end(out, given.items())?;
            push_arguments(alloc, out, given.items())?;
            push_call_close(out, given.items())
        }
        Form::Message(message, None) => {
            push_message(alloc, out, "{msg", message.get())?;
            push_ascii(out, "{/msg}")
        }
        Form::Message(message, Some(other)) => {
            push_messages(alloc, out, message.get(), other.get())
        }
    }
}

/// Adds the arms of an if.
#[cycle(pushing_nodes)]
#[tactic(auto, using(crate::proofs::Pushes::append_assoc))]
fn push_arms(alloc: Global, out: &mut String, arms: &[Arm]) -> Result<(), OutOfMemory>
    ensures { OnOk result (Appends out.old out.new (formatted_arms true (view_arms arms.now))) }
{
    let mut is_first = true;
    for arm in arms {
        push_arm(alloc, out, is_first, &arm.when)?;
        push_nodes(alloc, out, arm.body.items())?;
        is_first = false;
    }
    Ok(())
}

/// Adds the cases of a switch.
#[cycle(pushing_nodes)]
#[tactic(auto, using(crate::proofs::Pushes::append_assoc))]
fn push_cases(alloc: Global, out: &mut String, cases: &[Case]) -> Result<(), OutOfMemory>
    ensures { OnOk result (Appends out.old out.new (formatted_cases (view_cases cases.now))) }
{
    for case in cases {
        push_case(alloc, out, case.values.items())?;
        push_nodes(alloc, out, case.body.items())?;
    }
    Ok(())
}

/// Adds the params of a call.
#[cycle(pushing_nodes)]
#[tactic(auto, using(crate::proofs::Pushes::append_assoc))]
fn push_arguments(
    alloc: Global,
    out: &mut String,
    arguments: &[Argument],
) -> Result<(), OutOfMemory>
    ensures { OnOk result (Appends out.old out.new (formatted_arguments (view_arguments arguments.now))) }
{
    for argument in arguments {
        push_argument(alloc, out, &argument.name, &argument.given)?;
    }
    Ok(())
}

/// Adds a param of a call.
#[cycle(pushing_nodes)]
#[tactic(auto, using(crate::proofs::Pushes::three_pushed))]
fn push_argument(
    alloc: Global,
    out: &mut String,
    name: &Text,
    given: &Given,
) -> Result<(), OutOfMemory>
    ensures { OnOk result (Appends out.old out.new (formatted_argument name.now (view_given given.now))) }
{
    match given {
        Given::Plain(of) => push_param(alloc, out, name, of),
        Given::Block(kind, body) => {
            push_param_block(out, name, *kind)?;
            push_nodes(alloc, out, body.items())?;
            push_ascii(out, "{/param}")
        }
    }
}

/// Adds a message or a fallback, whose command begins with this word.
#[cycle(pushing_nodes)]
#[tactic(auto, using(crate::proofs::Pushes::append_assoc))]
fn push_message(
    alloc: Global,
    out: &mut String,
    word: &str,
    message: &Message,
) -> Result<(), OutOfMemory>
    requires { is_ascii word.now ≡ true }
    ensures { OnOk result (Appends out.old out.new (formatted_message word.now (view_message message.now))) }
{
    push_message_start(out, word, message)?;
    push_message_body(alloc, out, &message.body)
}

/// Adds a message with its fallback.
#[cycle(pushing_nodes)]
fn push_messages(
    alloc: Global,
    out: &mut String,
    message: &Message,
    other: &Message,
) -> Result<(), OutOfMemory>
    ensures { OnOk result (Appends out.old out.new (formatted_message (codes "{msg") (view_message message.now)
        ++ (formatted_message (codes "{fallbackmsg") (view_message other.now) ++ codes "{/msg}"))) }
{
    push_message(alloc, out, "{msg", message)?;
    push_message(alloc, out, "{fallbackmsg", other)?;
    push_ascii(out, "{/msg}")
}

/// Adds what a message holds.
#[cycle(pushing_nodes)]
#[tactic(auto, using(crate::proofs::Pushes::five_pushed))]
fn push_message_body(alloc: Global, out: &mut String, body: &MessageBody) -> Result<(), OutOfMemory>
    ensures { OnOk result (Appends out.old out.new (formatted_message_body (view_body body.now))) }
{
    match body {
        MessageBody::Parts(nodes) => push_nodes(alloc, out, nodes.items()),
        MessageBody::Plural(selector, offset, cases, other) => {
            push_plural(alloc, out, selector, *offset)?;
            push_plural_cases(alloc, out, cases.items())?;
            push_ascii(out, "{default}")?;
            push_message_body(alloc, out, other.get())?;
            push_ascii(out, "{/plural}")
        }
        MessageBody::Select(selector, cases, other) => {
            push_expr_command(alloc, out, "{select ", selector)?;
            push_select_cases(alloc, out, cases.items())?;
            push_ascii(out, "{default}")?;
            push_message_body(alloc, out, other.get())?;
            push_ascii(out, "{/select}")
        }
    }
}

/// Adds the cases of a plural.
#[cycle(pushing_nodes)]
#[tactic(auto, using(crate::proofs::Pushes::append_assoc))]
fn push_plural_cases(
    alloc: Global,
    out: &mut String,
    cases: &[PluralCase],
) -> Result<(), OutOfMemory>
    ensures { OnOk result (Appends out.old out.new (formatted_plural_cases (view_plural_cases cases.now))) }
{
    for case in cases {
        push_number_case(alloc, out, case.is)?;
        push_message_body(alloc, out, &case.body)?;
    }
    Ok(())
}

/// Adds the cases of a select.
#[cycle(pushing_nodes)]
#[tactic(auto, using(crate::proofs::Pushes::append_assoc))]
fn push_select_cases(
    alloc: Global,
    out: &mut String,
    cases: &[SelectCase],
) -> Result<(), OutOfMemory>
    ensures { OnOk result (Appends out.old out.new (formatted_select_cases (view_select_cases cases.now))) }
{
    for case in cases {
        push_word_case(out, &case.is)?;
        push_message_body(alloc, out, &case.body)?;
    }
    Ok(())
}
