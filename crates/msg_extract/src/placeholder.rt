//! The placeholders of a message, with what they stand for.

ghost use Rattle.std.specs.Prelude.{◌≡◌, [], ◌∷◌, ◌++◌, None, not, map, option_map, IfOk, OnOk};
ghost use Rattle.soy_base.specs.Among.{is_among};
ghost use Rattle.soy_tree.specs.MessageText.{Character};
ghost use Rattle.soy_tree.specs.Nodes.{Print};
ghost use Rattle.soy_tree.specs.ViewExpressions.{view_expr};
ghost use Rattle.soy_tree.specs.ViewNodes.{view_node, view_nodes};
ghost use Rattle.msg_extract.specs.Catalogue.{with_name};
ghost use Rattle.msg_extract.specs.PlaceholderNodes.{begun_after, flushed, nodes_behind};
ghost use Rattle.msg_extract.specs.PlaceholderNodes.{role_nodes, row_step, rows_after, text_nodes};
ghost use Rattle.msg_extract.specs.PlaceholderRows.{HasRowNames};
ghost use Rattle.msg_extract.specs.Views.ViewItems.{view_item};
ghost use Rattle.msg_extract.specs.Views.ViewNames.{HasNames, named_uses};
ghost use Rattle.msg_extract.specs.Views.ViewPieces.{role_of, view_piece};
ghost use Rattle.msg_extract.specs.Views.ViewPlaceholders.{view_begun, view_placeholder};

use crate::ascii::empty;
use crate::item::Item;
use crate::name_key::NameKey;
use crate::names::{Names, name_of};
use crate::piece::{CodePiece, Named};
use indexmap::IndexSet;
use soy_base::{OutOfMemory, Row, Seq, Span, Text, copied_name, push_char};
use soy_tree::{Expr, Form, Node};
use std::alloc::Global;

/// A placeholder of a message: its name, and the print or the texts and prints of the tag that it stands for.
#[derive(Drop)]
pub struct Placeholder {
    pub name: Text,
    pub nodes: Seq<Node>,
}

/// A text of a tag that has begun, and the span of the node in which its first character stands.
#[derive(Drop)]
struct Begun {
    text: String,
    span: Span,
}

/// Adds a print.
#[tactic(auto, using(crate::proofs::CutSteps::map_append))]
fn push_print(
    alloc: Global,
    nodes: &mut Row<Node>,
    expr: &Expr,
    phname: &Option<Text>,
    span: Span,
) -> Result<(), OutOfMemory>
    ensures { OnOk result (map view_node nodes.new
        ≡ map view_node nodes.old ++ Print (view_expr expr.now) phname.now span ∷ []) }
{
    let phname = copied_name(alloc, phname)?;
    let expr = expr.copy(alloc)?;
    nodes.push(Node {
        form: Form::Print(expr, phname),
        span,
    })
}

/// Adds the text that has begun, if there is one.
#[tactic(auto, using(crate::proofs::CutSteps::map_append))]
fn push_begun(nodes: &mut Row<Node>, begun: Option<Begun>) -> Result<(), OutOfMemory>
    ensures { OnOk result (map view_node nodes.new
        ≡ map view_node nodes.old ++ text_nodes (view_begun begun)) }
{
    match begun {
        None => Ok(()),
        Some(begun) => nodes.push(Node {
            form: Form::Text(Text::new(begun.text)),
            span: begun.span,
        }),
    }
}

/// The text that has begun after a character.
fn with_character(
    alloc: Global,
    begun: Option<Begun>,
    c: char,
    span: Span,
) -> Result<Option<Begun>, OutOfMemory>
    ensures { IfOk result (λ to. view_begun to ≡ begun_after (view_begun begun) (Character c span)) }
{
    match begun {
        None => {
            let mut text = empty(alloc);
            push_char(&mut text, c)?;
            Ok(Some(Begun { text, span }))
        }
        Some(begun) => {
            let mut text = begun.text;
            push_char(&mut text, c)?;
            Ok(Some(Begun {
                text,
                span: begun.span,
            }))
        }
    }
}

/// Adds what an item of a tag ends, and gives the text that has begun after it.
#[tactic(auto, using(crate::proofs::Texts::PieceLists::append_assoc))]
fn push_item(
    alloc: Global,
    nodes: &mut Row<Node>,
    begun: Option<Begun>,
    item: Item<'_>,
) -> Result<Option<Begun>, OutOfMemory>
    ensures { IfOk result (λ to. (view_begun to ≡ begun_after (view_begun begun) (view_item item.entry))
        × (map view_node nodes.new ≡ map view_node nodes.old ++ flushed (view_begun begun) (view_item item.entry))) }
{
    match item {
        Item::Character(c, span) => with_character(alloc, begun, c, span),
        Item::Printed(expr, phname, span) => {
            push_begun(nodes, begun)?;
            push_print(alloc, nodes, expr, phname, span)?;
            Ok(None)
        }
    }
}

/// The texts and prints of a tag.
#[tactic(auto, using(crate::proofs::PlaceholderNodes::item_step, crate::proofs::Texts::PieceLists::append_assoc))]
fn tag_nodes(alloc: Global, tag: &[Item<'_>]) -> Result<Seq<Node>, OutOfMemory>
    ensures { IfOk result (λ nodes. map view_node nodes ≡ nodes_behind None (map view_item tag.now)) }
{
    let mut nodes = Row::empty(alloc);
    let mut begun = None;
    for item in tag {
        begun = push_item(alloc, &mut nodes, begun, *item)?;
    }
    push_begun(&mut nodes, begun)?;
    Ok(nodes.done())
}

/// What a name stands for, if it isn't a selector.
fn nodes_of(alloc: Global, of: &Named<'_>) -> Result<Option<Seq<Node>>, OutOfMemory>
    ensures { IfOk result (λ nodes. option_map view_nodes nodes ≡ role_nodes (role_of of.now)) }
{
    match of {
        Named::Plural(_) => Ok(None),
        Named::Select(_) => Ok(None),
        Named::Tag(tag) => Ok(Some(tag_nodes(alloc, tag.items())?)),
        Named::Print(expr, phname, span) => {
            let mut nodes = Row::empty(alloc);
            push_print(alloc, &mut nodes, expr, phname, *span)?;
            Ok(Some(nodes.done()))
        }
    }
}

/// The placeholders so far, and their names, by which one is found without a walk over the others.
#[derive(Drop)]
struct PlaceholderRows {
    rows: Row<Placeholder>,
    names: IndexSet<NameKey>,
}

/// Whether a name is none of these, which have it afterwards.
fn is_new(alloc: Global, names: &mut IndexSet<NameKey>, name: &Text) -> Result<bool, OutOfMemory>
    ensures new { IfOk result (λ is. is ≡ not (is_among names.old.keys name.now)) }
    ensures added { OnOk result (names.new.keys ≡ with_name names.old.keys name.now) }
{
    Ok(names.insert(NameKey::new(name.copy(alloc)?))?)
}

/// Adds the placeholder that a piece names, unless it is there.
#[tactic(auto, using(crate::proofs::CutSteps::map_append, crate::proofs::PlaceholderRows::row_among))]
fn add(
    alloc: Global,
    found: &mut PlaceholderRows,
    names: &Names<'_>,
    piece: &CodePiece<'_>,
) -> Result<(), OutOfMemory>
    requires names { HasNames names.now }
    requires found { HasRowNames found.old }
    ensures rows { OnOk result (map view_placeholder found.new.rows
        ≡ row_step (named_uses names.now) (map view_placeholder found.old.rows) (view_piece piece.now)) }
    ensures names { OnOk result (HasRowNames found.new) }
{
    match piece {
        CodePiece::Word(_) => Ok(()),
        CodePiece::Text(_) => Ok(()),
        CodePiece::Use(of) => {
            let Some(nodes) = nodes_of(alloc, &of.of)? else {
                return Ok(());
            };
            let name = name_of(alloc, names, of)?;
            if !is_new(alloc, &mut found.names, &name)? {
                return Ok(());
            }
            found.rows.push(Placeholder { name, nodes })
        }
    }
}

/// The placeholders of pieces, each once, in order of first appearance.
#[tactic(auto, using(crate::proofs::PlaceholderNodes::rows_step))]
pub fn placeholders_of(alloc: Global, names: &Names<'_>) -> Result<Seq<Placeholder>, OutOfMemory>
    requires { HasNames names.now }
    ensures { IfOk result (λ rows. map view_placeholder rows
        ≡ rows_after (named_uses names.now) [] (named_uses names.now)) }
{
    let mut found = PlaceholderRows {
        rows: Row::empty(alloc),
        names: IndexSet::new(alloc),
    };
    for piece in names.pieces.items() {
        add(alloc, &mut found, names, piece)?;
    }
    Ok(found.rows.done())
}
