//! Names as keys of a set, which finds one without a walk over the others.

ghost use Rattle.std.specs.Prelude.{◌≡◌, bytes_eq, encode_utf8_all};
ghost use Rattle.std.specs.Cmp.Rules.{comparing};
ghost use Rattle.std.specs.Hash as fed;
ghost use Rattle.std.proofs.Common.{ap, rules};
ghost use Rattle.std.proofs.lemmas.Slice.Eq.{bytes_eq-Decides};

use soy_base::Text;
use std::hash::{Hash, Hasher};
use std::marker::Model;

/// A name in a set of names, which contracts see as the list of its characters.
#[derive(Drop)]
pub struct NameKey {
    name: Text,
}

impl Model for NameKey {
    ghost use Rattle.std.specs.Prelude.{List, ℕ};

    ghost Value = { List ℕ };

    ghost view = { λ key. key.name };
}

impl NameKey {
    /// The key of a name.
    pub fn new(name: Text) -> NameKey
        ensures { result ≡ name }
    {
        NameKey { name }
    }

    /// The name of the key.
    pub fn name(&self) -> &Text
        ensures { result.now ≡ self.now }
    {
        &self.name
    }
}

impl PartialEq for NameKey {
    ghost eq = { λ a b. bytes_eq a b };

    ghost laws = { Prim.search (comparing, rules) };

    fn eq(&self, other: &NameKey) -> bool {
        self.name.is(other.name.text())
    }
}

impl Eq for NameKey {
    ghost laws = { Prim.search (comparing, rules) };
}

impl Hash for NameKey {
    ghost hash_input = { λ key. fed.str (encode_utf8_all key) };

    ghost respects_eq = { λ a b same. ap (λ key. fed.str (encode_utf8_all key)) ((bytes_eq-Decides a b).0 same) };

    fn hash<H: Hasher>(&self, state: &mut H) {
        self.name.text().hash(state);
    }
}
