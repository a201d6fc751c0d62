//! The name of a tag or an attribute, and the characters of a declaration's.

ghost use Rattle.std.specs.Prelude.{◌≡◌, ◌≤◌, ◌++◌, ◌∷◌, [], length, take};
ghost use Rattle.html_state.specs.Kept.{name_with};

use std::marker::Model;

/// The first 17 characters of a name, in lower case. Contracts see the list of them.
#[derive(Clone, Copy, Debug)]
pub struct Name {
    characters: [char; 17],
    count: u8,
}

impl Model for Name {
    ghost use Rattle.std.specs.Prelude.{◌≡◌, ◌≤◌, ◌-◌, ◌++◌, ℕ, List, length, take, drop, replicate};
    ghost use Rattle.html_state.specs.Padding.{counted, padded};

    ghost Value = { List ℕ };

    ghost view = { λ s. take s.count s.characters };

    ghost invariant = { λ s. (s.count ≤ 17) × (length s.characters ≡ 17)
        × (drop s.count s.characters ≡ replicate (17 - s.count) 0) };

    ghost inverse = { λ l. record { characters = l ++ replicate (17 - length l) 0; count = length l } };

    ghost inverse_ok = { λ s h i. record {
      characters = padded 17 s.count s.characters h.0 h.1 h.2 i;
      count = counted 17 s.count s.characters h.0 h.1 i;
    } };
}

impl PartialEq for Name {
    ghost use Rattle.std.specs.Prelude.{nat_eq};
    ghost use Rattle.std.specs.Cmp.Lexicographic.{pointwise, nat_list_eq_equiv};
    ghost use Rattle.std.specs.Cmp.{partial_equiv_from_equiv};

    ghost eq = { pointwise nat_eq };

    ghost laws = { partial_equiv_from_equiv nat_list_eq_equiv };

    fn eq(&self, other: &Name) -> bool {
        self.characters() == other.characters()
    }
}

impl Eq for Name {
    ghost use Rattle.std.specs.Cmp.Lexicographic.{nat_list_eq_equiv};

    ghost laws = { nat_list_eq_equiv };
}

impl Name {
    /// No character.
    pub(crate) fn new() -> Name
        ensures { result ≡ [] }
    {
        Name {
            characters: ['\0'; 17],
            count: 0,
        }
    }

    /// The name that begins with a character.
    pub(crate) fn of(c: char) -> Name
        ensures { result ≡ name_with [] c }
    {
        let mut name = Name::new();
        name.push(c);
        name
    }

    /// The name that is this text, which is in lower case.
    pub(crate) fn of_text(text: &[u8]) -> Name
        requires { length text.now ≤ 17 }
        ensures { result ≡ text.now }
    {
        let mut name = Name::new();
        for c in text {
            name.keep(*c as char);
        }
        name
    }

    /// One more character.
    pub(crate) fn push(&mut self, c: char)
        ensures { self.new ≡ name_with self.old c }
    {
        self.keep(c.to_ascii_lowercase());
    }

    /// One more character, which is in lower case if it is a letter.
    fn keep(&mut self, c: char)
        ensures { self.new ≡ take 17 (self.old ++ c ∷ []) }
    {
        if self.count < 17 {
            self.characters[self.count as usize] = c;
            self.count += 1;
        }
    }

    /// The characters that are kept.
    pub(crate) fn characters(&self) -> &[char]
        ensures { result.now ≡ self.now }
    {
        &self.characters[..self.count as usize]
    }
}
