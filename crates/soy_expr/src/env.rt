//! Environments whose variables are bound to values that they hold.

ghost use Rattle.std.specs.Prelude.{◌≡◌};
ghost use Rattle.soy_rules.specs.Val.{binding};
ghost use Rattle.soy_expr.specs.ViewEnv.{view_binding, view_bounds};
ghost use Rattle.soy_expr.specs.ViewEvaluated.{view_evaluated};

use crate::{Evaluated, Made, Variables};
use soy_base::{OutOfMemory, Seq, Text};
use soy_tree::Value;

/// The variables that are visible; of two of one name the first counts.
#[derive(Drop)]
pub struct Env {
    pub vars: Seq<Bound>,
}

/// A variable, and what it is bound to.
#[derive(Drop)]
pub struct Bound {
    pub name: Text,
    pub to: Binding,
}

/// A value, or a block of kind html or attributes, of which an expression knows nothing.
#[derive(Drop)]
pub enum Binding {
    Value(Value),
    Block,
}

/// Where parts of values have no names.
#[derive(Clone, Copy, Debug)]
pub struct Unnamed;

impl Variables for Env {
    type Path = Unnamed;

    ghost use Rattle.soy_expr.specs.ViewEnv.{view_env};

    ghost env = { view_env };

    ghost Names = { λ env path v. Unit {0} };

    fn find(&self, name: &Text) -> Result<Evaluated<'_, Unnamed>, OutOfMemory> {
        Ok(found(self.vars.items(), name))
    }

    fn inside(&self, path: Unnamed, _number: usize) -> Result<Unnamed, OutOfMemory> {
        Ok(path)
    }
}

/// What the first variable of a name is bound to, or null.
fn found<'a>(vars: &'a [Bound], name: &Text) -> Evaluated<'a, Unnamed>
    ensures { view_evaluated result ≡ binding name.now (view_bounds vars.now) }
{
    for variable in vars {
        if variable.name.is(name.text()) {
            return bound_to(&variable.to);
        }
    }
    Evaluated::Made(Made::Null)
}

fn bound_to(to: &Binding) -> Evaluated<'_, Unnamed>
    ensures { view_evaluated result ≡ view_binding to.now }
{
    match to {
        Binding::Value(value) => Evaluated::Part(value, Unnamed),
        Binding::Block => Evaluated::Block,
    }
}
