//! The plural categories.

ghost use Rattle.std.specs.Prelude.{◌≡◌};
ghost use Rattle.plural_rules.specs.Category.{is_same};

/// A plural category of UTS #35, part 3, "Language plural rules".
#[derive(Clone, Copy, Debug, PartialEq, Eq)]
pub enum Category {
    Zero,
    One,
    Two,
    Few,
    Many,
    Other,
}

impl Category {
    /// Whether two categories are the same.
    pub(crate) fn is(self, other: Category) -> bool
        ensures { result ≡ is_same self other }
    {
        self == other
    }
}
