//! Names that were given so far.

ghost use Rattle.std.specs.Prelude.{◌≡◌, [], ◌∷◌, true, false, IfOk, MatchBool, bytes_eq, reverse};
ghost use Rattle.std.specs.List.{position};
ghost use Rattle.soy_base.specs.Among.{is_among};

use indexmap::IndexSet;
use soy_base::{OutOfMemory, Text};
use std::alloc::Global;
use std::marker::Model;

/// Names, which contracts see as their list, the last one first. A name is found without a walk over the list.
#[derive(Drop)]
pub(crate) struct Names<'a> {
    names: IndexSet<&'a str>,
}

impl<'a> Model for Names<'a> {
    ghost use Rattle.std.specs.Prelude.{◌≡◌, List, ℕ, map, reverse, true};
    ghost use Rattle.std.specs.List.{list_all};
    ghost use Rattle.std.specs.Str.{chars, is_utf8};

    ghost Value = { List (List ℕ) };

    ghost view = { λ s. reverse (map (λ key. chars key.now) s.names.keys) };

    ghost invariant = { λ s. list_all (λ key. is_utf8 key.now) s.names.keys ≡ true };
}

impl<'a> Names<'a> {
    /// No names.
    pub(crate) fn new(alloc: Global) -> Names<'a>
        ensures { result ≡ [] }
    {
        Names {
            names: IndexSet::new(alloc),
        }
    }

    /// Adds a name, and says whether it is a new one; else nothing changes.
    pub(crate) fn insert(&mut self, name: &'a Text) -> Result<bool, OutOfMemory>
        ensures { IfOk result (λ is_new. MatchBool is_new
            ((is_among self.old name.now ≡ false) × (self.new ≡ name.now ∷ self.old))
            ((is_among self.old name.now ≡ true) × (self.new ≡ self.old))) }
    {
        Ok(self.names.insert(name.text())?)
    }

    /// Whether the name is among the names.
    pub(crate) fn has(&self, name: &Text) -> bool
        ensures { result ≡ is_among self.now name.now }
    {
        self.names.contains(name.text())
    }

    /// Where the name stands among the names, counted from the first one.
    pub(crate) fn position(&self, name: &Text) -> Option<usize>
        ensures { result ≡ position (bytes_eq name.now) (reverse self.now) }
    {
        self.names.get_index_of(name.text())
    }
}
