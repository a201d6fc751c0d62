//! What commands and parameters make visible.

ghost use Rattle.std.specs.Prelude.{◌≡◌, ◌∷◌, IfOk, OnOk, Ok, option_map};
ghost use Rattle.soy_meaning.specs.Paths.PlanOfNodes.{body_scope, scope_past};
ghost use Rattle.soy_rules.specs.Templates.{param_scope};
ghost use Rattle.soy_rules.specs.TypeOf.{type_of};
ghost use Rattle.soy_tree.specs.Types.{ListType};
ghost use Rattle.soy_tree.specs.ViewExpressions.{view_expr};
ghost use Rattle.soy_tree.specs.ViewNodes.{view_node};
ghost use Rattle.soy_tree.specs.ViewTrees.{view_params};
ghost use Rattle.soy_tree.specs.ViewTypes.{view_type};
ghost use Rattle.soy_expr.specs.ViewScope.{view_vars};
ghost use Rattle.soy_expr.specs.Grows.{Grows};
ghost use Rattle.soy_expr.specs.Visible.{variable};

use soy_base::{Boxed, OutOfMemory, Refusal, Text};
use soy_expr::{VisibleVariables, kind_type, param_type, type_by};
use soy_tree::{Expr, Form, Node, Param, SoyType};
use std::alloc::Global;

/// One more variable is visible.
fn declare(
    alloc: Global,
    name: &Text,
    of: SoyType,
    vars: &mut VisibleVariables,
) -> Result<(), OutOfMemory>
    ensures scope { OnOk result (view_vars vars.new ≡ (name.now, view_type of) ∷ view_vars vars.old) }
    ensures grown { OnOk result (Grows vars.old vars.new) }
{
    vars.add(alloc, name, of)?;
    Ok(())
}

/// The variable of a let is visible past it.
#[tactic(auto, using(soy_expr::proofs::Growth::grown_same))]
pub(crate) fn pass(
    alloc: Global,
    node: &Node,
    vars: &mut VisibleVariables,
) -> Result<(), OutOfMemory>
    ensures scope { OnOk result (view_vars vars.new ≡ scope_past (view_node node.now) (view_vars vars.old)) }
    ensures grown { OnOk result (Grows vars.old vars.new) }
{
    match &node.form {
        Form::Let(name, value) => match type_by(alloc, value, vars) {
            Ok(of) => declare(alloc, name, of, vars),
            Err(Refusal::Because(_fault)) => Ok(()),
            Err(Refusal::OutOfMemory) => Err(OutOfMemory),
        },
        Form::LetBlock(name, kind, _) => declare(alloc, name, kind_type(*kind), vars),
        _ => Ok(()),
    }
}

/// The variables of a loop over a list with items of a type are visible in its body.
fn enter_items(
    alloc: Global,
    name: &Text,
    index: &Option<Boxed<Text>>,
    of: &SoyType,
    vars: &mut VisibleVariables,
) -> Result<(), OutOfMemory>
    ensures scope { OnOk result (view_vars vars.new
        ≡ body_scope name.now index.now (Ok (ListType (view_type of.now))) (view_vars vars.old)) }
    ensures grown { OnOk result (Grows vars.old vars.new) }
{
    declare(alloc, name, of.copy(alloc)?, vars)?;
    match index {
        Some(index) => {
            declare(alloc, index.get(), SoyType::Int, vars)?;
            Ok(())
        }
        None => Ok(()),
    }
}

/// The variables of a loop are visible in its body.
#[tactic(auto, using(soy_expr::proofs::Growth::grown_same))]
pub(crate) fn enter_loop(
    alloc: Global,
    name: &Text,
    index: &Option<Boxed<Text>>,
    list: &Expr,
    vars: &mut VisibleVariables,
) -> Result<(), OutOfMemory>
    ensures scope { OnOk result (view_vars vars.new
        ≡ body_scope name.now index.now (type_of (view_expr list.now) (view_vars vars.old)) (view_vars vars.old)) }
    ensures grown { OnOk result (Grows vars.old vars.new) }
{
    match type_by(alloc, list, vars) {
        Ok(SoyType::List(of)) => enter_items(alloc, name, index, of.get(), vars),
        Ok(_other) => Ok(()),
        Err(Refusal::Because(_fault)) => Ok(()),
        Err(Refusal::OutOfMemory) => Err(OutOfMemory),
    }
}

/// The parameters of a template as variables, of which the first is the innermost.
pub(crate) fn param_vars(alloc: Global, params: &[Param]) -> Result<VisibleVariables, OutOfMemory>
    ensures { IfOk result (λ vars. view_vars vars ≡ param_scope (view_params params.now)) }
{
    let mut vars = VisibleVariables::new(alloc);
    let mut left = params.len();
    while left > 0 {
        left -= 1;
        let param = &params[left];
        let of = param_type(alloc, param)?;
        vars.add(alloc, &param.name, of)?;
    }
    Ok(vars)
}
