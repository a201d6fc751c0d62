//! What may still become a scheme or a reference.

ghost use Rattle.std.specs.Prelude.{◌≡◌, ◌<◌, []};
ghost use Rattle.html_state.specs.Kept.{prefix_with};

use std::marker::Model;

/// The first 9 characters, all of ASCII, of what may still become a scheme or a reference. Contracts see the list of
/// them.
#[derive(Clone, Copy, Debug)]
pub struct Prefix {
    characters: [u8; 9],
    count: u8,
}

impl Model for Prefix {
    ghost use Rattle.std.specs.Prelude.{◌≡◌, ◌≤◌, ◌-◌, ◌++◌, ℕ, List, length, take, drop, replicate};
    ghost use Rattle.html_state.specs.Padding.{counted, padded};

    ghost Value = { List ℕ };

    ghost view = { λ s. take s.count s.characters };

    ghost invariant = { λ s. (s.count ≤ 9) × (length s.characters ≡ 9)
        × (drop s.count s.characters ≡ replicate (9 - s.count) 0) };

    ghost inverse = { λ l. record { characters = l ++ replicate (9 - length l) 0; count = length l } };

    ghost inverse_ok = { λ s h i. record {
      characters = padded 9 s.count s.characters h.0 h.1 h.2 i;
      count = counted 9 s.count s.characters h.0 h.1 i;
    } };
}

impl PartialEq for Prefix {
    ghost use Rattle.std.specs.Prelude.{nat_eq};
    ghost use Rattle.std.specs.Cmp.Lexicographic.{pointwise, nat_list_eq_equiv};
    ghost use Rattle.std.specs.Cmp.{partial_equiv_from_equiv};

    ghost eq = { pointwise nat_eq };

    ghost laws = { partial_equiv_from_equiv nat_list_eq_equiv };

    fn eq(&self, other: &Prefix) -> bool {
        self.characters() == other.characters()
    }
}

impl Eq for Prefix {
    ghost use Rattle.std.specs.Cmp.Lexicographic.{nat_list_eq_equiv};

    ghost laws = { nat_list_eq_equiv };
}

impl Prefix {
    /// No character.
    pub(crate) fn new() -> Prefix
        ensures { result ≡ [] }
    {
        Prefix {
            characters: [0; 9],
            count: 0,
        }
    }

    /// The prefix with one more character.
    pub(crate) fn with(&self, c: char) -> Prefix
        requires { c < 128 }
        ensures { result ≡ prefix_with self.now c }
    {
        let mut more = *self;
        if more.count < 9 {
            more.characters[more.count as usize] = c as u8;
            more.count += 1;
        }
        more
    }

    /// The characters that are kept.
    pub(crate) fn characters(&self) -> &[u8]
        ensures { result.now ≡ self.now }
    {
        &self.characters[..self.count as usize]
    }
}
