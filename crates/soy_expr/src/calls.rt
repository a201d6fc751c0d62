//! The value and the truth of an expression under an environment.

ghost use Rattle.std.specs.Prelude.{◌≡◌, ◌+◌, ◌≤◌, true, Ok, IfOk, OnOk, OnErr};
ghost use Rattle.soy_rules.specs.Cost.{cost};
ghost use Rattle.soy_rules.specs.Fits.{Fits};
ghost use Rattle.soy_tree.specs.Formed.{is_formed_expr};
ghost use Rattle.soy_rules.specs.Has.{Has};
ghost use Rattle.soy_rules.specs.TypeOf.{Scope, type_of};
ghost use Rattle.soy_tree.specs.Types.{SoyType};
ghost use Rattle.soy_rules.specs.Val.{Known, is_truthy, val};
ghost use Rattle.soy_tree.specs.ViewExpressions.{view_expr};
ghost use Rattle.soy_tree.specs.ViewValues.{view_value};
ghost use Rattle.soy_expr.specs.Evaluates.{IsWithin};
ghost use Rattle.soy_expr.specs.HasValueType.{HasValueType};
ghost use Rattle.soy_expr.specs.ViewEnv.{view_env};

use crate::{Env, Evaluated, evaluate};
use soy_base::{OutOfMemory, Steps};
use soy_tree::{Expr, Value};
use std::alloc::Global;
use std::sync::ledger::Ledger;

/// The value of an expression; each node that is valued is a step.
#[tactic(auto, using(crate::proofs::ValueOrBlock::not_a_block, crate::proofs::ValueOrBlock::value_has))]
pub fn eval<L: Ledger>(
    alloc: Global,
    expr: &Expr,
    env: &Env,
    steps: &mut Steps<L>,
) -> Result<Value, OutOfMemory>
    requires formed { is_formed_expr (view_expr expr.now) ≡ true }
    requires typed { HasValueType (view_expr expr.now) (view_env env.now) }
    ensures value { IfOk result (λ v. val (view_expr expr.now) (view_env env.now) ≡ Known (view_value v)) }
    ensures types { IfOk result (λ v. (scope : Scope) (t : SoyType) → Fits scope (view_env env.now)
        → type_of (view_expr expr.now) scope ≡ Ok t → Has (view_value v) t) }
    ensures cost { OnOk result (steps.new ≡ steps.old + cost (view_expr expr.now) (view_env env.now)) }
    ensures at_most { OnErr result (IsWithin (cost (view_expr expr.now) (view_env env.now)) steps.old steps.new) }
{
    match evaluate(alloc, expr, env, steps)? {
        Evaluated::Made(made) => Ok(made.value()),
        Evaluated::Part(value, _) => value.copy(alloc),
        Evaluated::Block => Ok(Value::Null),
    }
}

/// Whether an expression is truthy; each node that is valued is a step.
pub fn test<L: Ledger>(
    alloc: Global,
    expr: &Expr,
    env: &Env,
    steps: &mut Steps<L>,
) -> Result<bool, OutOfMemory>
    ensures truth { IfOk result (λ is. is ≡ is_truthy (val (view_expr expr.now) (view_env env.now))) }
    ensures cost { OnOk result (steps.new ≡ steps.old + cost (view_expr expr.now) (view_env env.now)) }
    ensures at_most { OnErr result (IsWithin (cost (view_expr expr.now) (view_env env.now)) steps.old steps.new) }
{
    let value = evaluate(alloc, expr, env, steps)?;
    Ok(value.is_truthy())
}
