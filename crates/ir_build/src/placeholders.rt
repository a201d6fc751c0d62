//! The ops of placeholders, and the expressions of selectors, in a translation.

ghost use Rattle.std.specs.Prelude.{◌≡◌, OnOk, map, option_map};
ghost use Rattle.soy_pieces.specs.Branch.{selector};
ghost use Rattle.soy_tree.specs.ViewExpressions.{view_expr};
ghost use Rattle.soy_tree.specs.ViewNodes.{view_node, view_nodes};
ghost use Rattle.msg_extract.specs.SelectorRows.{view_selector};
ghost use Rattle.template_ir.specs.HoleCounts.{part_holes};
ghost use Rattle.template_ir.specs.ViewOps.{view_ops};
ghost use Rattle.ir_build.specs.Claims.{all_placed_holes, all_placed_stand, part_stands, placed_holes, placed_stands};
ghost use Rattle.ir_build.specs.Claims.{named_part, source_uses};
ghost use Rattle.ir_build.specs.HasNames.{HasNames};
ghost use Rattle.ir_build.specs.Laid.{Pushes, view_output};
ghost use Rattle.ir_build.specs.NamedRows.{is_of, selector_in};

use crate::commands::{push_print, push_text};
use crate::output::Output;
use crate::source::Source;
use msg_extract::Selector;
use soy_base::{OutOfMemory, Text};
use soy_tree::{Expr, Form, Node};
use template_ir::Op;

/// Adds a text or a print that stands for a placeholder.
fn push_placed(
    source: &Source<'_>,
    out: &mut Output,
    own: &mut Vec<Op>,
    node: &Node,
) -> Result<(), OutOfMemory>
    ensures { OnOk result (Pushes (placed_stands source.now.places.now (view_node node.now))
        (placed_holes (view_node node.now)) (view_output out.old) (view_output out.new) (view_ops own.old.items)
        (view_ops own.new.items)) }
{
    match &node.form {
        Form::Text(text) => push_text(source.alloc, own, text),
        Form::Print(expr, _) => push_print(source.alloc, source.places, out, own, expr),
        Form::If(_, _) => Ok(()),
        Form::Switch(_, _, _) => Ok(()),
        Form::For(_, _, _, _) => Ok(()),
        Form::Let(_, _) => Ok(()),
        Form::LetBlock(_, _, _) => Ok(()),
        Form::Call(_, _, _) => Ok(()),
        Form::Message(_, _) => Ok(()),
    }
}

/// Adds the texts and prints that stand for a placeholder.
fn push_all_placed(
    source: &Source<'_>,
    out: &mut Output,
    own: &mut Vec<Op>,
    nodes: &[Node],
) -> Result<(), OutOfMemory>
    ensures { OnOk result (Pushes (all_placed_stand source.now.places.now (view_nodes nodes.now))
        (all_placed_holes (view_nodes nodes.now)) (view_output out.old) (view_output out.new) (view_ops own.old.items)
        (view_ops own.new.items)) }
{
    for node in nodes {
        push_placed(source, out, own, node)?;
    }
    Ok(())
}

/// Adds a placeholder.
pub(crate) fn push_placeholder(
    source: &Source<'_>,
    out: &mut Output,
    own: &mut Vec<Op>,
    name: &Text,
) -> Result<(), OutOfMemory>
    requires { HasNames source.now }
    ensures { OnOk result (Pushes (part_stands source.now (named_part name.now))
        (part_holes (source_uses source.now) (named_part name.now)) (view_output out.old) (view_output out.new)
        (view_ops own.old.items) (view_ops own.new.items)) }
{
    push_all_placed(source, out, own, source.placeholders.nodes(name))
}

/// Whether a selector is of a plural, or else of a select.
fn is_of(of_plural: bool, selector: &Selector) -> bool
    ensures { result ≡ is_of of_plural selector.now.of_plural }
{
    if of_plural {
        selector.of_plural
    } else {
        !selector.of_plural
    }
}

/// The expression of the selector of a name, of a plural or of a select.
fn selector_in<'s>(selectors: &'s [Selector], of_plural: bool, name: &Text) -> Option<&'s Expr>
    ensures { option_map (λ e. view_expr e.now) result
        ≡ selector_in of_plural name.now (map view_selector selectors.now) }
{
    for selector in selectors {
        if is_of(of_plural, selector) && selector.name.is(name.text()) {
            return Some(&selector.expr);
        }
    }
    None
}

/// The expression of the selector that a translation names, of a plural or of a select.
pub(crate) fn selector_of<'s>(source: &Source<'s>, of_plural: bool, name: &Text) -> Option<&'s Expr>
    requires { HasNames source.now }
    ensures { option_map (λ e. view_expr e.now) result
        ≡ selector of_plural name.now (source_uses source.now) (source_uses source.now) }
{
    selector_in(source.selectors, of_plural, name)
}
