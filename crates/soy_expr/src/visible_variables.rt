//! The variables that are visible, found by their names.

ghost use Rattle.std.specs.Prelude.{◌≡◌, ◌-◌, ◌∷◌, [], IfOk, IfSome, None, OnOk, drop, length};
ghost use Rattle.std.specs.Prelude.{option_map, reverse};
ghost use Rattle.soy_rules.specs.TypeOf.{variable_type};
ghost use Rattle.soy_tree.specs.ViewTypes.{view_type};
ghost use Rattle.soy_expr.specs.LastNamed.{IsLastNamed};
ghost use Rattle.soy_expr.specs.TypeNamed.{type_named, with_type};
ghost use Rattle.soy_expr.specs.ViewScope.{view_vars};
ghost use Rattle.soy_expr.specs.Visible.{variable};

use crate::VariableTypes;
use indexmap::IndexMap;
use soy_base::{OutOfMemory, Text};
use soy_tree::{Field, SoyType};
use std::alloc::Global;
use std::marker::Model;
use std::mem;

/// The variables that are visible. Contracts see them as their list, the innermost first. They are found by a map up
/// to the first whose name another has, and no two of a checked template have one name; it and those after it stand in
/// a row, and are gone through.
#[derive(Drop)]
pub struct VisibleVariables {
    types: IndexMap<String, SoyType>,
    others: Vec<Field>,
}

impl Model for VisibleVariables {
    ghost use Rattle.std.specs.Prelude.{◌≡◌, ◌++◌, List, map, reverse};
    ghost use Rattle.std.specs.Str.{bytes_eq, chars};
    ghost use Rattle.std.specs.String.{string_bytes};
    ghost use Rattle.indexmap.specs.IndexMap.{IsUnique};
    ghost use Rattle.std.specs.Coded.{codes};
    ghost use Rattle.soy_tree.specs.contracts.soy_type.SoyType as soy_type;
    ghost use Rattle.soy_tree.specs.declared.soy_type.Field.{Field};
    ghost use Rattle.soy_expr.specs.Visible.{variable};

    ghost Value = { List Field };

    ghost coded = { Prim.hlevel (codes, soy_type.the_row.coded) };

    ghost view = { λ s.
        reverse (map (λ e. variable (chars (string_bytes e.0)) e.1) s.types.entries ++ s.others.items) };

    ghost invariant = { λ s. IsUnique (λ a b. bytes_eq (string_bytes a) (string_bytes b)) s.types };
}

impl VisibleVariables {
    /// No variables; no memory is taken yet.
    pub fn new(alloc: Global) -> VisibleVariables
        ensures { result ≡ [] }
    {
        VisibleVariables {
            types: IndexMap::new(alloc),
            others: Vec::new(alloc),
        }
    }

    /// How many there are. Out of memory only where they are more than a `usize` counts.
    pub fn count(&self) -> Result<usize, OutOfMemory>
        ensures { IfOk result (λ n. n ≡ length self.now) }
    {
        match self.types.len().checked_add(self.others.as_slice().len()) {
            Some(count) => Ok(count),
            None => Err(OutOfMemory),
        }
    }

    /// The type of the innermost variable of a name; none where no variable has it.
    pub fn find(&self, name: &Text) -> Option<&SoyType>
        ensures named { option_map (λ t. t.now) result ≡ type_named name.now self.now }
        ensures typed { option_map (λ t. view_type t.now) result ≡ variable_type name.now (view_vars self.now) }
    {
        match last_named(self.others.as_slice(), name) {
            Some(at) => Some(&self.others[at].of),
            None => self.types.get(name.text()),
        }
    }

    /// Adds a variable of this name and type, which is then the innermost, also where another has its name. Out of
    /// memory where there is none for it and for a copy of its name.
    pub fn add(&mut self, alloc: Global, name: &Text, of: SoyType) -> Result<(), OutOfMemory>
        ensures { OnOk result (self.new ≡ variable name.now of ∷ self.old) }
    {
        let key = name.text();
        if self.others.as_slice().is_empty() && !self.types.contains_key(key) {
            self.types.insert(String::from_str(alloc, key)?, of)?;
        } else {
            let name = name.copy(alloc)?;
            self.others.push(Field { name, of })?;
        }
        Ok(())
    }

    /// Gives the innermost variable of a name another type, and answers the one that it had; none, with nothing
    /// changed, where no variable has the name.
    pub fn set(&mut self, name: &Text, of: SoyType) -> Option<SoyType>
        ensures vars { self.new ≡ with_type name.now of self.old }
        ensures before { result ≡ type_named name.now self.old }
    {
        match last_named(self.others.as_slice(), name) {
            Some(at) => Some(mem::replace(&mut self.others[at].of, of)),
            None => match self.types.get_mut(name.text()) {
                Some(there) => Some(mem::replace(there, of)),
                None => None,
            },
        }
    }

    /// Leaves the variables that were there when there were so many, and takes away those that were added since.
    pub fn leave(&mut self, count: usize)
        ensures { self.new ≡ drop (length self.old - count) self.old }
    {
        let keyed = self.types.len();
        self.others.truncate(count.saturating_sub(keyed));
        self.types.truncate(count);
    }
}

/// The place of the last variable of a name.
fn last_named(vars: &[Field], name: &Text) -> Option<usize>
    ensures place { IfSome result (IsLastNamed name.now vars.now) }
    ensures none { result ≡ None → type_named name.now (reverse vars.now) ≡ None }
{
    let mut left = vars.len();
    while left > 0 {
        left -= 1;
        if vars[left].name.is(name.text()) {
            return Some(left);
        }
    }
    None
}

impl VariableTypes for VisibleVariables {
    ghost visible = { view_vars };

    fn type_of_variable(&self, name: &Text) -> Option<&SoyType> {
        self.find(name)
    }
}
