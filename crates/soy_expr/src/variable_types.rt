//! What finds the types of variables.

ghost use Rattle.std.specs.Prelude.{◌≡◌, option_map};
ghost use Rattle.soy_rules.specs.TypeOf.{Scope, variable_type};
ghost use Rattle.soy_tree.specs.ViewTypes.{view_type};
ghost use Rattle.soy_expr.specs.ViewScope.{view_vars};

use soy_base::Text;
use soy_tree::{Field, SoyType};

/// Finds the types of variables by their names.
pub trait VariableTypes {
    // The variables that are visible, with their types.
    ghost visible: { Self → Scope };

    /// The type of the variable of a name.
    fn type_of_variable(&self, name: &Text) -> Option<&SoyType>
        ensures { option_map (λ t. view_type t.now) result ≡ variable_type name.now (visible self.now) };
}

/// Variables in a row, of which the first of a name counts.
#[derive(Drop)]
pub(crate) struct Row<'v> {
    pub(crate) vars: &'v [Field],
}

impl<'v> VariableTypes for Row<'v> {
    ghost visible = { λ row. view_vars row.vars.now };

    fn type_of_variable(&self, name: &Text) -> Option<&SoyType> {
        variable(self.vars, name)
    }
}

/// The type of the first variable of a name.
fn variable<'a>(vars: &'a [Field], name: &Text) -> Option<&'a SoyType>
    ensures { option_map (λ t. view_type t.now) result ≡ variable_type name.now (view_vars vars.now) }
{
    for variable in vars {
        if variable.name.is(name.text()) {
            return Some(&variable.of);
        }
    }
    None
}
