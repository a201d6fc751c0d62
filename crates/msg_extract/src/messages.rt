//! The messages of a file.

ghost use Rattle.std.specs.Prelude.{◌≡◌, ◌∷◌, ◌++◌, map, option_map, IfOk, OnOk};
ghost use Rattle.soy_tree.specs.ViewNodes.{fallback_of, view_arguments, view_arms, view_cases};
ghost use Rattle.soy_tree.specs.ViewNodes.{view_given, view_message, view_node, view_nodes};
ghost use Rattle.soy_tree.specs.ViewTrees.{view_tree};
ghost use Rattle.msg_extract.specs.MessagesIn.{argument_messages, arm_messages, case_messages, given_messages};
ghost use Rattle.msg_extract.specs.MessagesIn.{fallback_messages, messages_in, node_messages, tree_messages};
ghost use Rattle.msg_extract.specs.Views.ViewMessages.{view_found};

use soy_base::{Boxed, OutOfMemory, Row};
use soy_tree::{Argument, Arm, Case, Form, Given, Message, Node, Tree};
use std::alloc::Global;

/// The messages of a file, in the order of its text, a fallback after its message.
#[tactic(auto, using(crate::proofs::Texts::PieceLists::append_assoc))]
pub fn messages_of(alloc: Global, tree: &Tree) -> Result<Row<&Message>, OutOfMemory>
    ensures { IfOk result (λ found. map view_found found ≡ tree_messages (view_tree tree.now)) }
{
    let mut found = Row::empty(alloc);
    for template in tree.templates.items() {
        push_nodes(&mut found, template.body.items())?;
    }
    Ok(found)
}

/// Adds the messages of a node.
#[cycle(messages)]
#[tactic(auto, using(crate::proofs::Texts::PieceLists::append_assoc, crate::proofs::CutSteps::map_append))]
fn push_node<'a>(found: &mut Row<&'a Message>, node: &'a Node) -> Result<(), OutOfMemory>
    ensures { OnOk result (map view_found found.new
        ≡ map view_found found.old ++ node_messages (view_node node.now)) }
{
    match &node.form {
        Form::Text(_) => Ok(()),
        Form::Print(_, _) => Ok(()),
        Form::If(arms, other) => {
            push_arms(found, arms.items())?;
            match other {
                None => Ok(()),
                Some(other) => push_nodes(found, other.items()),
            }
        }
        Form::Switch(_, cases, other) => {
            push_cases(found, cases.items())?;
            match other {
                None => Ok(()),
                Some(other) => push_nodes(found, other.items()),
            }
        }
        Form::For(_, _, _, body) => push_nodes(found, body.items()),
        Form::Let(_, _) => Ok(()),
        Form::LetBlock(_, _, body) => push_nodes(found, body.items()),
        Form::Call(_, _, given) => push_arguments(found, given.items()),
        Form::Message(message, other) => push_message(found, message.get(), other),
    }
}

/// Adds a message, and its fallback.
#[tactic(auto, using(crate::proofs::Texts::PieceLists::append_assoc, crate::proofs::CutSteps::map_append))]
fn push_message<'a>(
    found: &mut Row<&'a Message>,
    message: &'a Message,
    other: &'a Option<Boxed<Message>>,
) -> Result<(), OutOfMemory>
    ensures { OnOk result (map view_found found.new ≡ map view_found found.old
        ++ view_message message.now ∷ fallback_messages (fallback_of (option_map view_message other.now))) }
{
    match other {
        None => Ok(found.push(message)?),
        Some(other) => {
            found.push(message)?;
            found.push(other.get())
        }
    }
}

/// Adds the messages of nodes.
#[cycle(messages)]
#[tactic(auto, using(crate::proofs::Texts::PieceLists::append_assoc))]
fn push_nodes<'a>(found: &mut Row<&'a Message>, nodes: &'a [Node]) -> Result<(), OutOfMemory>
    ensures { OnOk result (map view_found found.new
        ≡ map view_found found.old ++ messages_in (view_nodes nodes.now)) }
{
    for node in nodes {
        push_node(found, node)?;
    }
    Ok(())
}

/// Adds the messages of an if's arms.
#[cycle(messages)]
#[tactic(auto, using(crate::proofs::Texts::PieceLists::append_assoc))]
fn push_arms<'a>(found: &mut Row<&'a Message>, arms: &'a [Arm]) -> Result<(), OutOfMemory>
    ensures { OnOk result (map view_found found.new
        ≡ map view_found found.old ++ arm_messages (view_arms arms.now)) }
{
    for arm in arms {
        push_nodes(found, arm.body.items())?;
    }
    Ok(())
}

/// Adds the messages of a switch's cases.
#[cycle(messages)]
#[tactic(auto, using(crate::proofs::Texts::PieceLists::append_assoc))]
fn push_cases<'a>(found: &mut Row<&'a Message>, cases: &'a [Case]) -> Result<(), OutOfMemory>
    ensures { OnOk result (map view_found found.new
        ≡ map view_found found.old ++ case_messages (view_cases cases.now)) }
{
    for case in cases {
        push_nodes(found, case.body.items())?;
    }
    Ok(())
}

/// Adds the messages of what a call is given.
#[cycle(messages)]
#[tactic(auto, using(crate::proofs::Texts::PieceLists::append_assoc))]
fn push_arguments<'a>(
    found: &mut Row<&'a Message>,
    arguments: &'a [Argument],
) -> Result<(), OutOfMemory>
    ensures { OnOk result (map view_found found.new
        ≡ map view_found found.old ++ argument_messages (view_arguments arguments.now)) }
{
    for argument in arguments {
        push_given(found, &argument.given)?;
    }
    Ok(())
}

/// Adds the messages of a block.
#[cycle(messages)]
fn push_given<'a>(found: &mut Row<&'a Message>, given: &'a Given) -> Result<(), OutOfMemory>
    ensures { OnOk result (map view_found found.new
        ≡ map view_found found.old ++ given_messages (view_given given.now)) }
{
    match given {
        Given::Plain(_) => Ok(()),
        Given::Block(_, body) => push_nodes(found, body.items()),
    }
}
