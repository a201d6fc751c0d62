//! The characters and prints of a message's text.

ghost use Rattle.std.specs.Prelude.{◌≡◌, ◌++◌, None, Some, map, option_map, IfOk, OnOk, MatchBool};
ghost use Rattle.std.specs.Str.{chars};
ghost use Rattle.soy_tree.specs.MessageText.{characters, joined_items, message_items, node_message_items};
ghost use Rattle.soy_tree.specs.ViewNodes.{view_node, view_nodes};
ghost use Rattle.msg_extract.specs.Views.ViewItems.{view_item};

use soy_base::{OutOfMemory, Row, Span, Text, first};
use soy_tree::{Expr, Form, Node};
use std::alloc::Global;

/// A character of a message's text, or a print with its `phname`, each with the span of its node.
#[derive(Clone, Copy)]
pub enum Item<'a> {
    Character(char, Span),
    Printed(&'a Expr, &'a Option<Text>, Span),
}

/// The characters and prints of nodes, if they are texts and prints alone.
#[tactic(auto, using(crate::proofs::JoinedItems::joined_none, crate::proofs::JoinedItems::joined_assoc))]
pub fn items_of<'a>(alloc: Global, nodes: &'a [Node]) -> Result<Option<Row<Item<'a>>>, OutOfMemory>
    ensures { IfOk result (λ items. option_map (map view_item) items ≡ message_items (view_nodes nodes.now)) }
{
    let mut items = Row::empty(alloc);
    for node in nodes {
        if !push_node(&mut items, node)? {
            return Ok(None);
        }
    }
    Ok(Some(items))
}

/// Adds what a text or a print has, and says whether the node is one of them.
fn push_node<'a>(items: &mut Row<Item<'a>>, node: &'a Node) -> Result<bool, OutOfMemory>
    ensures { IfOk result (λ fits. MatchBool fits
        (joined_items (Some (map view_item items.old)) (node_message_items (view_node node.now))
        ≡ Some (map view_item items.new))
        (node_message_items (view_node node.now) ≡ None)) }
{
    let span = node.span;
    match &node.form {
        Form::Text(text) => {
            push_characters(items, text.text(), span)?;
            Ok(true)
        }
        Form::Print(expr, phname) => {
            items.push(Item::Printed(expr, phname, span))?;
            Ok(true)
        }
        Form::If(_, _) => Ok(false),
        Form::Switch(_, _, _) => Ok(false),
        Form::For(_, _, _, _) => Ok(false),
        Form::Let(_, _) => Ok(false),
        Form::LetBlock(_, _, _) => Ok(false),
        Form::Call(_, _, _) => Ok(false),
        Form::Message(_, _) => Ok(false),
    }
}

/// Adds the characters of a text.
fn push_characters(items: &mut Row<Item<'_>>, text: &str, span: Span) -> Result<(), OutOfMemory>
    ensures { OnOk result (map view_item items.new
        ≡ map view_item items.old ++ characters (chars text.now) span) }
{
    let mut rest = text;
    while let Some((c, after)) = first(rest) {
        items.push(Item::Character(c, span))?;
        rest = after;
    }
    Ok(())
}
