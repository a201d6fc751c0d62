//! The rows of a translation, all of which stands at its message.

ghost use Rattle.std.specs.Prelude.{◌<◌, length, map};
ghost use Rattle.std.specs.List.{All};
ghost use Rattle.soy_meaning.specs.Paths.PlanOfParts.{cut_plan};
ghost use Rattle.soy_rules.specs.Placeholders.{placeholder_cut};
ghost use Rattle.soy_tree.specs.ViewMessageParts.{exact_arms_of, named_arms_of, select_arms_of};
ghost use Rattle.soy_tree.specs.ViewMessageParts.{view_exact, view_named, view_part, view_parts, view_select_arm};
ghost use Rattle.soy_tree.specs.ViewNodes.{view_node, view_nodes};
ghost use Rattle.soy_expr.specs.ViewScope.{view_vars};
ghost use Rattle.html_context.specs.PlacedNodes.{placed_node, placed_nodes};
ghost use Rattle.html_context.specs.StandsFor.{Writes, WritesEach, WritesMore};
ghost use Rattle.html_context.specs.ViewParts.{IsNamed, plan_of_part, plan_of_parts, plans_of_exact, plans_of_named};
ghost use Rattle.html_context.specs.ViewParts.{plans_of_select, source_uses};
ghost use Rattle.html_context.specs.Walks.{view_site};

use crate::source::Source;
use crate::table::Row;
use crate::writing::{write, write_hole, write_nothing, write_print, write_text};
use soy_base::{OutOfMemory, Seq, Text, ValueClass};
use soy_tree::{ExactArm, Form, MsgPart, NamedArm, Node, SelectArm};

/// Writes a text or a print that stands for a placeholder.
fn placed(source: &Source<'_>, node: &Node, rows: &mut Vec<Row>) -> Result<usize, OutOfMemory>
    ensures { Writes (placed_node (view_vars source.now.vars.now) (view_site source.now.at) (view_node node.now))
        rows.old.items rows.new.items result }
{
    match &node.form {
        Form::Text(content) => write_text(source.alloc, source.at, content, rows),
        Form::Print(expr, _) => write_print(source.alloc, source.at, expr, source.vars, rows),
        _ => write_nothing(source.alloc, rows),
    }
}

/// Writes the texts and prints that stand for a placeholder.
fn all_placed(
    source: &Source<'_>,
    nodes: &[Node],
    rows: &mut Vec<Row>,
) -> Result<usize, OutOfMemory>
    ensures { Writes (placed_nodes (view_vars source.now.vars.now) (view_site source.now.at) (view_nodes nodes.now))
        rows.old.items rows.new.items result }
{
    let mut numbers = Vec::new(source.alloc);
    for node in nodes {
        let number = placed(source, node, rows)?;
        numbers.push(number)?;
    }
    write(rows, Row::InTurn(Seq::new(numbers)))
}

/// Writes a placeholder.
fn placeholder(source: &Source<'_>, name: &Text, rows: &mut Vec<Row>) -> Result<usize, OutOfMemory>
    requires { IsNamed source.now }
    ensures { Writes (cut_plan (view_vars source.now.vars.now) (view_site source.now.at)
        (placeholder_cut name.now (source_uses source.now) (source_uses source.now)))
        rows.old.items rows.new.items result }
{
    all_placed(source, source.placeholders.nodes(name), rows)
}

/// Writes parts, one after the other.
#[cycle(parts)]
pub(crate) fn all_parts(
    source: &Source<'_>,
    parts: &[MsgPart],
    rows: &mut Vec<Row>,
) -> Result<usize, OutOfMemory>
    requires { IsNamed source.now }
    ensures { Writes (plan_of_parts source.now (view_parts parts.now)) rows.old.items rows.new.items result }
{
    let mut numbers = Vec::new(source.alloc);
    for part in parts {
        let number = one_part(source, part, rows)?;
        numbers.push(number)?;
    }
    write(rows, Row::InTurn(Seq::new(numbers)))
}

/// Writes a part.
#[cycle(parts)]
fn one_part(source: &Source<'_>, part: &MsgPart, rows: &mut Vec<Row>) -> Result<usize, OutOfMemory>
    requires { IsNamed source.now }
    ensures { Writes (plan_of_part source.now (view_part part.now)) rows.old.items rows.new.items result }
{
    match part {
        MsgPart::Text(content) => write_text(source.alloc, source.at, content, rows),
        MsgPart::Placeholder(name) => placeholder(source, name, rows),
        MsgPart::Number => write_hole(source.alloc, source.at, ValueClass::Int, rows),
        MsgPart::Plural(plural) => {
            let numbers = exact_arms(source, plural.exact.items(), rows)?;
            let numbers = named_arms(source, plural.named.items(), numbers, rows)?;
            write(rows, Row::Meet(source.at, Seq::new(numbers)))
        }
        MsgPart::Select(select) => {
            let numbers = select_arms(source, select.arms.items(), rows)?;
            write(rows, Row::Meet(source.at, Seq::new(numbers)))
        }
    }
}

/// Writes the arms for single numbers.
#[cycle(parts)]
fn exact_arms(
    source: &Source<'_>,
    arms: &[ExactArm],
    rows: &mut Vec<Row>,
) -> Result<Vec<usize>, OutOfMemory>
    requires { IsNamed source.now }
    ensures { WritesEach (plans_of_exact source.now (exact_arms_of (map view_exact arms.now)))
        rows.old.items rows.new.items result }
{
    let mut numbers = Vec::new(source.alloc);
    for arm in arms {
        let number = all_parts(source, arm.parts.items(), rows)?;
        numbers.push(number)?;
    }
    Ok(numbers)
}

/// Writes the arms for categories behind those of these numbers.
#[cycle(parts)]
fn named_arms(
    source: &Source<'_>,
    arms: &[NamedArm],
    before: Vec<usize>,
    rows: &mut Vec<Row>,
) -> Result<Vec<usize>, OutOfMemory>
    requires named { IsNamed source.now }
    requires below { All (λ n. n < length rows.old.items) before.items }
    ensures { WritesMore before.items (plans_of_named source.now (named_arms_of (map view_named arms.now)))
        rows.old.items rows.new.items result }
{
    let mut numbers = before;
    for arm in arms {
        let number = all_parts(source, arm.parts.items(), rows)?;
        numbers.push(number)?;
    }
    Ok(numbers)
}

/// Writes the arms of a select.
#[cycle(parts)]
fn select_arms(
    source: &Source<'_>,
    arms: &[SelectArm],
    rows: &mut Vec<Row>,
) -> Result<Vec<usize>, OutOfMemory>
    requires { IsNamed source.now }
    ensures { WritesEach (plans_of_select source.now (select_arms_of (map view_select_arm arms.now)))
        rows.old.items rows.new.items result }
{
    let mut numbers = Vec::new(source.alloc);
    for arm in arms {
        let number = all_parts(source, arm.parts.items(), rows)?;
        numbers.push(number)?;
    }
    Ok(numbers)
}
