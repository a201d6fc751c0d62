//! What finds variables.

ghost use Rattle.std.specs.Prelude.{IfOk};
ghost use Rattle.soy_rules.specs.Val.{Env, binding};
ghost use Rattle.soy_tree.specs.Values.{Value};
ghost use Rattle.soy_expr.specs.Parts.{child};
ghost use Rattle.soy_expr.specs.ViewEvaluated.{IsBinding};

use crate::Evaluated;
use soy_base::{OutOfMemory, Text};

/// Finds variables by their names, and names the parts of the values that they are bound to by paths.
pub trait Variables {
    /// What names a part of a value.
    type Path: Drop;

    // The variables, with blocks of which nothing is known.
    ghost env: { Self → Env (Unit {0}) };

    // Whether a path names this value.
    ghost Names: { Self → Self.Path → Value → Type 0 };

    /// What the variable of a name is bound to; null where there is none.
    fn find(&self, name: &Text) -> Result<Evaluated<'_, Self::Path>, OutOfMemory>
        ensures { IfOk result (λ v. IsBinding (Names self.now) (binding name.now (env self.now)) v) };

    /// The path to the item, entry or field of a number in the part that a path names.
    fn inside(&self, path: Self::Path, number: usize) -> Result<Self::Path, OutOfMemory>
        ensures { IfOk result (λ p. (v : Value) → Names self.now path v → Names self.now p (child number v)) };
}
