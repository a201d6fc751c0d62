//! Rows that are written behind those that are there.

ghost use Rattle.std.specs.Prelude.{◌≡◌, ◌++◌, ◌∷◌, [], length, OnOk, IfOk};
ghost use Rattle.soy_meaning.specs.Paths.Plan.{Hole, Nothing};
ghost use Rattle.soy_meaning.specs.Paths.PlanOfParts.{printed_classes, text_plan};
ghost use Rattle.soy_tree.specs.ViewExpressions.{view_expr};
ghost use Rattle.soy_expr.specs.ViewScope.{view_vars};
ghost use Rattle.html_context.specs.StandsFor.{Writes};
ghost use Rattle.html_context.specs.Walks.{view_site};

use crate::classes::printed_classes;
use crate::fault::Site;
use crate::table::Row;
use soy_base::{OutOfMemory, Seq, Text, ValueClass};
use soy_expr::VisibleVariables;
use soy_tree::Expr;
use std::alloc::Global;

/// Writes a row, and gives its number.
pub(crate) fn write(rows: &mut Vec<Row>, row: Row) -> Result<usize, OutOfMemory>
    ensures rows { OnOk result (rows.new.items ≡ rows.old.items ++ (row ∷ [])) }
    ensures number { IfOk result (λ number. number ≡ length rows.old.items) }
{
    let number = rows.len();
    rows.push(row)?;
    Ok(number)
}

/// Writes what gives nothing.
#[tactic(auto, using(crate::proofs::WrittenRows::writes))]
pub(crate) fn write_nothing(alloc: Global, rows: &mut Vec<Row>) -> Result<usize, OutOfMemory>
    ensures { Writes Nothing rows.old.items rows.new.items result }
{
    write(rows, Row::InTurn(Seq::new(Vec::new(alloc))))
}

/// Writes a static text.
#[tactic(auto, using(crate::proofs::WrittenRows::writes))]
pub(crate) fn write_text(
    alloc: Global,
    at: Site,
    text: &Text,
    rows: &mut Vec<Row>,
) -> Result<usize, OutOfMemory>
    ensures { Writes (text_plan (view_site at) text.now) rows.old.items rows.new.items result }
{
    let text = text.copy(alloc)?;
    write(rows, Row::Text(at, text))
}

/// Writes a hole for values of a class.
#[tactic(auto, using(crate::proofs::WrittenRows::writes))]
pub(crate) fn write_hole(
    alloc: Global,
    at: Site,
    class: ValueClass,
    rows: &mut Vec<Row>,
) -> Result<usize, OutOfMemory>
    ensures { Writes (Hole (view_site at) (class ∷ [])) rows.old.items rows.new.items result }
{
    let mut classes = Vec::new(alloc);
    classes.push(class)?;
    write(rows, Row::Hole(at, Seq::new(classes)))
}

/// Writes a print.
#[tactic(auto, using(crate::proofs::WrittenRows::writes))]
pub(crate) fn write_print(
    alloc: Global,
    at: Site,
    expr: &Expr,
    vars: &VisibleVariables,
    rows: &mut Vec<Row>,
) -> Result<usize, OutOfMemory>
    ensures { Writes (Hole (view_site at) (printed_classes (view_expr expr.now) (view_vars vars.now)))
        rows.old.items rows.new.items result }
{
    let classes = printed_classes(alloc, expr, vars)?;
    write(rows, Row::Hole(at, Seq::new(classes)))
}
