//! Whether a stored condition holds of a whole number.

ghost use Rattle.std.specs.Prelude.{◌≡◌, []};
ghost use Rattle.plural_rules.specs.Holds.{operand_value, remainder_of, holds};
ghost use Rattle.plural_rules.specs.Parts.{condition_of};
ghost use Rattle.plural_rules.specs.Tally.{is_met_with, found_in, comparing};

use crate::condition::{Comparison, Operand, RulePart, Values};

/// A relation in the middle of its values: what is compared, and whether one of the values was it.
#[derive(Clone, Copy, Debug)]
pub(crate) struct Compared {
    pub(crate) value: u64,
    pub(crate) equal: bool,
    pub(crate) found: bool,
}

/// What is known of a number after some parts of a condition: whether an alternative holds that has ended,
/// whether the relations hold that have ended in the alternative after it, and the relation that hasn't ended.
#[derive(Clone, Copy, Debug)]
pub(crate) struct Tally {
    pub(crate) any: bool,
    pub(crate) all: bool,
    pub(crate) relation: Option<Compared>,
}

/// Whether a condition holds of a whole number.
pub(crate) fn holds(parts: &[RulePart], n: i64) -> bool
    ensures { result ≡ holds (condition_of parts.now) n }
{
    let mut tally = Tally::new();
    for part in parts {
        tally = tally.with(*part, n);
    }
    tally.holds()
}

impl Tally {
    ghost use Rattle.std.specs.Prelude.{◌≡◌, ◌&&◌, ◌||◌, []};
    ghost use Rattle.plural_rules.specs.Tally.{no_tally, tally_with, is_met_with};

    /// Before the first part.
    fn new() -> Tally
        ensures { result ≡ no_tally }
    {
        Tally {
            any: false,
            all: false,
            relation: None,
        }
    }

    /// The tally after one more part.
    fn with(self, part: RulePart, n: i64) -> Tally
        ensures { result ≡ tally_with n part self }
    {
        match part {
            RulePart::Alternative => Tally {
                any: self.holds(),
                all: true,
                relation: None,
            },
            RulePart::Comparison(comparison) => Tally {
                any: self.any,
                all: self.all && is_met(self.relation),
                relation: Some(comparing(comparison, n)),
            },
            RulePart::Values(values) => Tally {
                any: self.any,
                all: self.all,
                relation: with_values(self.relation, values),
            },
        }
    }

    /// Whether the condition holds if no part comes after these.
    fn holds(self) -> bool
        ensures { result ≡ (self.any || (self.all && is_met_with [] self.relation)) }
    {
        self.any || self.all && is_met(self.relation)
    }
}

/// Whether a relation holds that has no more values.
fn is_met(relation: Option<Compared>) -> bool
    ensures { result ≡ is_met_with [] relation }
{
    match relation {
        None => true,
        Some(relation) => relation.found == relation.equal,
    }
}

/// The relation after one more of its values.
fn with_values(relation: Option<Compared>, values: Values) -> Option<Compared>
    ensures { result ≡ found_in values relation }
{
    let relation = relation?;
    Some(Compared {
        value: relation.value,
        equal: relation.equal,
        found: relation.found || values.first <= relation.value && relation.value <= values.last,
    })
}

/// The relation before its values.
fn comparing(comparison: Comparison, n: i64) -> Compared
    ensures { result ≡ comparing comparison n }
{
    Compared {
        value: remainder(comparison.modulus, value(comparison.operand, n)),
        equal: comparison.equal,
        found: false,
    }
}

/// The value of an operand for a whole number.
fn value(operand: Operand, n: i64) -> u64
    ensures { result ≡ operand_value operand n }
{
    match operand {
        Operand::N | Operand::I => n.unsigned_abs(),
        _ => 0,
    }
}

/// The remainder by a modulus, or the value itself where there is none.
fn remainder(modulus: Option<u64>, value: u64) -> u64
    ensures { result ≡ remainder_of modulus value }
{
    modulus
        .and_then(|modulus| value.checked_rem(modulus))
        .unwrap_or(value)
}
