//! The variables of a branch, in which a condition takes null away.

ghost use Rattle.std.specs.Prelude.{◌≡◌, OnOk, if◌then◌else◌};
ghost use Rattle.soy_rules.specs.Narrowing.{name_narrowed, narrowed, variable_narrowed};
ghost use Rattle.soy_rules.specs.TypeOf.{is_null_literal};
ghost use Rattle.soy_tree.specs.ViewExpressions.{view_expr};
ghost use Rattle.soy_expr.specs.PutBack.{put_back};
ghost use Rattle.soy_expr.specs.ViewScope.{view_vars};

use crate::VisibleVariables;
use soy_base::{OutOfMemory, Text};
use soy_rules::narrow;
use soy_tree::{BinaryOp, Expr, ExprNode, SoyType};
use std::alloc::Global;

/// The type that the variable of a name has outside a branch.
#[derive(Drop)]
pub struct Outside<'w> {
    pub name: &'w Text,
    pub of: SoyType,
}

/// Takes null away from the variables that a condition tests, as in the branch where it holds, and adds the types that
/// they have outside the branch. Where memory runs out, the types of some may have changed.
#[cycle(narrowing)]
pub fn narrow_variables<'w>(
    alloc: Global,
    when: &'w Expr,
    vars: &mut VisibleVariables,
    outside: &mut Vec<Outside<'w>>,
) -> Result<(), OutOfMemory>
    ensures narrowed { OnOk result (view_vars vars.new ≡ narrowed (view_expr when.now) (view_vars vars.old)) }
    ensures put_back { OnOk result (put_back outside.new.items vars.new ≡ put_back outside.old.items vars.old) }
{
    match when.node.get() {
        ExprNode::Var(name) => narrow_name(alloc, name, vars, outside),
        ExprNode::Binary(BinaryOp::Ne, left, right) => {
            narrow_unequal(alloc, left, right, vars, outside)
        }
        ExprNode::Binary(BinaryOp::And, left, right) => {
            narrow_variables(alloc, left, vars, outside)?;
            narrow_variables(alloc, right, vars, outside)
        }
        _ => Ok(()),
    }
}

/// Takes null away from a variable that is unequal to the literal null.
fn narrow_unequal<'w>(
    alloc: Global,
    left: &'w Expr,
    right: &Expr,
    vars: &mut VisibleVariables,
    outside: &mut Vec<Outside<'w>>,
) -> Result<(), OutOfMemory>
    ensures narrowed { OnOk result (view_vars vars.new
        ≡ (if is_null_literal (view_expr right.now) then variable_narrowed (view_expr left.now) (view_vars vars.old)
        else view_vars vars.old)) }
    ensures put_back { OnOk result (put_back outside.new.items vars.new ≡ put_back outside.old.items vars.old) }
{
    match (left.node.get(), right.node.get()) {
        (ExprNode::Var(name), ExprNode::Null) => narrow_name(alloc, name, vars, outside),
        _ => Ok(()),
    }
}

/// Takes null away from the variable of a name, if there is one.
fn narrow_name<'w>(
    alloc: Global,
    name: &'w Text,
    vars: &mut VisibleVariables,
    outside: &mut Vec<Outside<'w>>,
) -> Result<(), OutOfMemory>
    ensures narrowed { OnOk result (view_vars vars.new ≡ name_narrowed name.now (view_vars vars.old)) }
    ensures put_back { OnOk result (put_back outside.new.items vars.new ≡ put_back outside.old.items vars.old) }
{
    let Some(of) = vars.find(name) else {
        return Ok(());
    };
    let narrowed = narrow(alloc, of)?;
    if let Some(of) = vars.set(name, narrowed) {
        outside.push(Outside { name, of })?;
    }
    Ok(())
}

/// Gives the variables the types that they have outside the branch, as `narrow_variables` added them.
#[tactic(auto, using(crate::proofs::Undoing::put_back_last))]
pub fn restore(vars: &mut VisibleVariables, outside: Vec<Outside>)
    ensures { vars.new ≡ put_back outside.entry.items vars.old }
{
    let mut outside = outside;
    while let Some(Outside { name, of }) = outside.pop() {
        vars.set(name, of);
    }
}
