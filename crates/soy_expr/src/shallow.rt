//! What an operator sees of its operand.

ghost use Rattle.std.specs.Prelude.{◌≡◌};
ghost use Rattle.soy_rules.specs.Val.{is_null_value, truth};
ghost use Rattle.soy_tree.specs.ViewValues.{view_value};
ghost use Rattle.soy_expr.specs.ViewEvaluated.{view_made};
ghost use Rattle.soy_expr.specs.ViewShallow.{shallow_value, view_shallow};

use crate::Made;
use soy_base::Text;
use soy_tree::Value;

/// What an operator sees of its operand: null, a bool, an int, a text, or that it is a list, a map or a record.
#[derive(Clone, Copy, Debug)]
pub enum Shallow<'a> {
    Null,
    Bool(bool),
    Int(i64),
    Str(&'a Text),
    Compound,
}

impl<'a> Shallow<'a> {
    /// The operand that was made.
    pub(crate) fn of_made(made: &'a Made) -> Shallow<'a>
        ensures { view_shallow result ≡ view_made made.now }
    {
        match made {
            Made::Null => Shallow::Null,
            Made::Bool(is) => Shallow::Bool(*is),
            Made::Int(number) => Shallow::Int(*number),
            Made::Str(text) => Shallow::Str(text),
        }
    }

    /// The operand that is a value.
    pub fn of_value(value: &'a Value) -> Shallow<'a>
        ensures { view_shallow result ≡ shallow_value (view_value value.now) }
    {
        match value {
            Value::Null => Shallow::Null,
            Value::Bool(is) => Shallow::Bool(*is),
            Value::Int(number) => Shallow::Int(*number),
            Value::Str(text) => Shallow::Str(text),
            Value::List(_) => Shallow::Compound,
            Value::Map(_) => Shallow::Compound,
            Value::Fields(_) => Shallow::Compound,
        }
    }

    /// Whether it is truthy.
    pub fn is_true(self) -> bool
        ensures { result ≡ truth (view_shallow self.entry) }
    {
        match self {
            Shallow::Null => false,
            Shallow::Bool(is) => is,
            Shallow::Int(number) => number != 0,
            Shallow::Str(text) => !text.is_empty(),
            Shallow::Compound => true,
        }
    }

    /// Whether it is null.
    pub fn is_null(self) -> bool
        ensures { result ≡ is_null_value (view_shallow self.entry) }
    {
        match self {
            Shallow::Null => true,
            Shallow::Bool(_) => false,
            Shallow::Int(_) => false,
            Shallow::Str(_) => false,
            Shallow::Compound => false,
        }
    }
}
