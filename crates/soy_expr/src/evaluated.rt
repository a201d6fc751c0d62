//! What an expression is evaluated to.

ghost use Rattle.std.specs.Prelude.{◌≡◌};
ghost use Rattle.soy_rules.specs.Val.{is_null, is_truthy, operand};
ghost use Rattle.soy_tree.specs.ViewValues.{view_value};
ghost use Rattle.soy_expr.specs.ViewEvaluated.{view_evaluated, view_made};
ghost use Rattle.soy_expr.specs.ViewShallow.{shallow_value, view_shallow};

use crate::Shallow;
use soy_base::Text;
use soy_tree::Value;

/// A value that an operator or a literal makes.
#[derive(Drop)]
pub enum Made {
    Null,
    Bool(bool),
    Int(i64),
    Str(Text),
}

impl Made {
    /// The value. Takes no memory.
    pub fn value(self) -> Value
        ensures { view_value result ≡ view_made self }
    {
        match self {
            Made::Null => Value::Null,
            Made::Bool(is) => Value::Bool(is),
            Made::Int(number) => Value::Int(number),
            Made::Str(text) => Value::Str(text),
        }
    }
}

/// What an expression is evaluated to: a value that was made, a part of a value that a variable is bound to, with the
/// path that names it, or a block.
#[derive(Drop)]
pub enum Evaluated<'a, P> {
    Made(Made),
    Part(&'a Value, P),
    Block,
}

impl<'a, P> Evaluated<'a, P> {
    /// What an operator sees of it.
    pub fn shallow(&self) -> Shallow<'_>
        ensures { view_shallow result ≡ shallow_value (operand (view_evaluated self.now)) }
    {
        match self {
            Evaluated::Made(made) => Shallow::of_made(made),
            Evaluated::Part(value, _) => Shallow::of_value(value),
            Evaluated::Block => Shallow::Bool(true),
        }
    }

    /// Whether it is truthy.
    pub fn is_truthy(&self) -> bool
        ensures { result ≡ is_truthy (view_evaluated self.now) }
    {
        self.shallow().is_true()
    }

    /// Whether it is null.
    pub fn is_null(&self) -> bool
        ensures { result ≡ is_null (view_evaluated self.now) }
    {
        self.shallow().is_null()
    }
}
