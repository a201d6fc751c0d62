//! A condition as it is stored: a flat list of parts.

ghost use Rattle.std.specs.Prelude.{◌≡◌};

/// An operand of UTS #35, part 3, "Operands".
#[derive(Clone, Copy, Debug)]
pub(crate) enum Operand {
    N,
    I,
    V,
    W,
    F,
    T,
    C,
    E,
}

/// What a relation compares, and whether it asks for one of its values (`=`) or for none (`!=`).
#[derive(Clone, Copy, Debug)]
pub(crate) struct Comparison {
    pub(crate) operand: Operand,
    pub(crate) modulus: Option<u64>,
    pub(crate) equal: bool,
}

/// The values from `first` to `last`, both among them; a single value has both ends.
#[derive(Clone, Copy, Debug)]
pub(crate) struct Values {
    pub(crate) first: u64,
    pub(crate) last: u64,
}

/// A part of a condition that is stored flat, its parts in the order of the text: each alternative of `or`
/// begins with `Alternative`, each relation with its `Comparison`, and the relation's values follow.
#[derive(Clone, Copy, Debug)]
pub(crate) enum RulePart {
    Alternative,
    Comparison(Comparison),
    Values(Values),
}
