//! The selectors of a message, with their expressions.

ghost use Rattle.std.specs.Prelude.{◌≡◌, [], ◌∷◌, ◌++◌, map, IfOk, OnOk};
ghost use Rattle.soy_rules.specs.Placeholders.{name_of};
ghost use Rattle.soy_tree.specs.ViewExpressions.{view_expr};
ghost use Rattle.msg_extract.specs.SelectorRows.{piece_rows, selector_rows, view_selector};
ghost use Rattle.msg_extract.specs.Views.ViewNames.{HasNames, named_uses};
ghost use Rattle.msg_extract.specs.Views.ViewPieces.{content_of, view_piece};

use crate::names::{Names, name_of};
use crate::piece::{CodePiece, NameUse, Named};
use soy_base::{OutOfMemory, Row, Seq, Text};
use soy_tree::Expr;
use std::alloc::Global;

/// A selector of a message: its name, whether it is that of a plural or else of a select, and its expression.
#[derive(Drop)]
pub struct Selector {
    pub name: Text,
    pub of_plural: bool,
    pub expr: Expr,
}

/// Adds a selector.
#[tactic(auto, using(crate::proofs::CutSteps::map_append))]
fn push_selector(
    alloc: Global,
    rows: &mut Row<Selector>,
    names: &Names<'_>,
    of: &NameUse<'_>,
    of_plural: bool,
    expr: &Expr,
) -> Result<(), OutOfMemory>
    requires { HasNames names.now }
    ensures { OnOk result (map view_selector rows.new ≡ map view_selector rows.old
        ++ (name_of (named_uses names.now) of.now.base (content_of of.now.of), of_plural, view_expr expr.now) ∷ []) }
{
    let name = name_of(alloc, names, of)?;
    let expr = expr.copy(alloc)?;
    rows.push(Selector {
        name,
        of_plural,
        expr,
    })
}

/// Adds the selector that a piece is, if it is one.
fn add_selector(
    alloc: Global,
    rows: &mut Row<Selector>,
    names: &Names<'_>,
    piece: &CodePiece<'_>,
) -> Result<(), OutOfMemory>
    requires { HasNames names.now }
    ensures { OnOk result (map view_selector rows.new
        ≡ map view_selector rows.old ++ piece_rows (named_uses names.now) (view_piece piece.now)) }
{
    match piece {
        CodePiece::Word(_) => Ok(()),
        CodePiece::Text(_) => Ok(()),
        CodePiece::Use(of) => match &of.of {
            Named::Print(_, _, _) => Ok(()),
            Named::Tag(_) => Ok(()),
            Named::Plural(expr) => push_selector(alloc, rows, names, of, true, expr),
            Named::Select(expr) => push_selector(alloc, rows, names, of, false, expr),
        },
    }
}

/// The selectors among pieces.
#[tactic(auto, using(crate::proofs::SelectorRows::selectors_step, crate::proofs::Texts::PieceLists::append_assoc))]
pub fn selectors_among(alloc: Global, names: &Names<'_>) -> Result<Seq<Selector>, OutOfMemory>
    requires { HasNames names.now }
    ensures { IfOk result (λ rows. map view_selector rows
        ≡ selector_rows (named_uses names.now) (named_uses names.now)) }
{
    let mut rows = Row::empty(alloc);
    for piece in names.pieces.items() {
        add_selector(alloc, &mut rows, names, piece)?;
    }
    Ok(rows.done())
}
