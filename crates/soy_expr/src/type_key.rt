//! Texts of types as keys of a map, which finds one without a walk over the others.

ghost use Rattle.std.specs.Prelude.{◌≡◌, bytes_eq, encode_utf8_all};
ghost use Rattle.std.specs.Cmp.Rules.{comparing};
ghost use Rattle.std.specs.Hash as fed;
ghost use Rattle.std.proofs.Common.{ap, rules};
ghost use Rattle.std.proofs.lemmas.Slice.Eq.{bytes_eq-Decides};

use soy_base::Text;
use std::hash::{Hash, Hasher};
use std::marker::Model;

/// The text of a type as a key, which contracts see as the list of its characters.
#[derive(Drop)]
pub(crate) struct TypeKey {
    text: Text,
}

impl Model for TypeKey {
    ghost use Rattle.std.specs.Prelude.{List, ℕ};

    ghost Value = { List ℕ };

    ghost view = { λ key. key.text };
}

impl TypeKey {
    /// The key of a text.
    pub(crate) fn new(text: Text) -> TypeKey
        ensures { result ≡ text }
    {
        TypeKey { text }
    }
}

impl PartialEq for TypeKey {
    ghost eq = { λ a b. bytes_eq a b };

    ghost laws = { Prim.search (comparing, rules) };

    fn eq(&self, other: &TypeKey) -> bool {
        self.text.is(other.text.text())
    }
}

impl Eq for TypeKey {
    ghost laws = { Prim.search (comparing, rules) };
}

impl Hash for TypeKey {
    ghost hash_input = { λ key. fed.str (encode_utf8_all key) };

    ghost respects_eq = { λ a b same. ap (λ key. fed.str (encode_utf8_all key)) ((bytes_eq-Decides a b).0 same) };

    fn hash<H: Hasher>(&self, state: &mut H) {
        self.text.text().hash(state);
    }
}
