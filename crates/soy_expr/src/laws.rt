//! A law of the definitions: a function that does nothing, and whose contract is the law.

ghost use Rattle.std.specs.Prelude.{◌≡◌};
ghost use Rattle.soy_rules.specs.Cost.{cost};
ghost use Rattle.soy_tree.specs.Expressions.{Expr};
ghost use Rattle.soy_rules.specs.Val.{Env, val};
ghost use Rattle.soy_expr.specs.ForgottenBlocks.{forgotten, forgotten_env};

/// What an expression means doesn't depend on what the blocks are that its variables are bound to.
pub fn law_forgotten<A>()
    ensures value { (e : Expr) (env : Env A) → val e (forgotten_env env) ≡ forgotten (val e env) }
    ensures cost { (e : Expr) (env : Env A) → cost e (forgotten_env env) ≡ cost e env }
{}
