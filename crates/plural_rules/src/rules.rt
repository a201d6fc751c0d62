//! The rules of a language, and what they say of a number.

ghost use Rattle.std.specs.Prelude.{◌≡◌, [], IfOk, IfErr};

use crate::category::Category;
use crate::condition::RulePart;
use crate::number::holds;
use crate::reader::parts_of;
use std::alloc::{AllocError, AllocFailed, Global};
use std::marker::Model;

/// A rule as it is written, for one of the categories.
#[derive(Debug, Drop)]
pub struct RuleText {
    pub category: Category,
    pub text: String,
}

/// Where a text stops being a rule: the category of its entry, and the offset, which is the length in
/// bytes of the longest prefix of the text with which some rule of that category begins.
#[derive(Clone, Copy, Debug, PartialEq, Eq)]
pub struct RuleFault {
    pub category: Category,
    pub at: u64,
}

/// No memory was left.
#[derive(Clone, Copy, Debug, PartialEq, Eq)]
pub struct OutOfMemory;

/// Why rules aren't made.
#[derive(Clone, Copy, Debug, PartialEq, Eq)]
pub enum RuleRefusal {
    Because(RuleFault),
    OutOfMemory,
}

impl From<AllocError> for RuleRefusal {
    ghost use Rattle.std.specs.Prelude.{◌≡◌};
    ghost use Rattle.plural_rules.specs.declared.rules.RuleRefusal.TheVariants as refusal;

    ghost from_gives = { λ _ r. r ≡ refusal.OutOfMemory };

    fn from(_: AllocError) -> RuleRefusal {
        RuleRefusal::OutOfMemory
    }
}

impl<T: Drop> From<AllocFailed<T>> for RuleRefusal {
    ghost use Rattle.std.specs.Prelude.{◌≡◌};
    ghost use Rattle.plural_rules.specs.declared.rules.RuleRefusal.TheVariants as refusal;

    ghost from_gives = { λ _ r. r ≡ refusal.OutOfMemory };

    fn from(_: AllocFailed<T>) -> RuleRefusal {
        RuleRefusal::OutOfMemory
    }
}

impl From<OutOfMemory> for RuleRefusal {
    ghost use Rattle.std.specs.Prelude.{◌≡◌};
    ghost use Rattle.plural_rules.specs.declared.rules.RuleRefusal.TheVariants as refusal;

    ghost from_gives = { λ _ r. r ≡ refusal.OutOfMemory };

    fn from(_: OutOfMemory) -> RuleRefusal {
        RuleRefusal::OutOfMemory
    }
}

impl From<AllocError> for OutOfMemory {
    fn from(_: AllocError) -> OutOfMemory {
        OutOfMemory
    }
}

impl<T: Drop> From<AllocFailed<T>> for OutOfMemory {
    fn from(_: AllocFailed<T>) -> OutOfMemory {
        OutOfMemory
    }
}

impl Model for RuleText {
    ghost use Rattle.std.specs.Prelude.{ℕ, List};
    ghost use Rattle.std.specs.Str.{chars};
    ghost use Rattle.std.specs.String.{string_bytes};
    ghost use Rattle.plural_rules.specs.declared.category.Category.{Category};

    ghost Value = { Category × List ℕ };

    ghost view = { λ e. (e.category, chars (string_bytes e.text)) };
}

/// A rule as it is read.
#[derive(Debug, Drop)]
struct Rule {
    category: Category,
    parts: Vec<RulePart>,
}

impl Model for Rule {
    ghost use Rattle.plural_rules.specs.declared.category.Category.{Category};
    ghost use Rattle.plural_rules.specs.Condition.{Alternatives};
    ghost use Rattle.plural_rules.specs.Parts.{condition_of};

    ghost Value = { Category × Alternatives };

    ghost view = { λ r. (r.category, condition_of r.parts.items) };
}

/// The plural rules of a language; of two rules of one category the first counts.
#[derive(Debug, Drop)]
pub struct Rules {
    rules: Vec<Rule>,
}

impl Model for Rules {
    ghost use Rattle.std.specs.Prelude.{List};
    ghost use Rattle.plural_rules.specs.declared.category.Category.{Category};
    ghost use Rattle.plural_rules.specs.Condition.{Alternatives};

    ghost Value = { List (Category × Alternatives) };

    ghost view = { λ r. r.rules.items };
}

/// The categories whose conditions are asked, in this order.
const ASKED: [Category; 5] = [
    Category::Zero,
    Category::One,
    Category::Two,
    Category::Few,
    Category::Many,
];

impl Rules {
    ghost use Rattle.std.specs.Prelude.{◌≡◌, [], IfOk, IfErr};
    ghost use Rattle.plural_rules.specs.Category.{category_of, holds_for};
    ghost use Rattle.plural_rules.specs.AreRulesOf.{AreRulesOf, AreOnlyRulesOf};
    ghost use Rattle.plural_rules.specs.RefusesEntries.{RefusesEntries};
    ghost use Rattle.std.specs.List.{find};

    /// The rules of some entries, whose texts are conditions of UTS #35, part 3, "Plural rules syntax";
    /// the condition of the category other is empty. Of two entries of one category the first counts.
    /// Refused for the first entry whose text is no rule of its category, with the length in bytes of
    /// the longest prefix of the text with which such a rule begins.
    pub fn parse(alloc: Global, entries: &[RuleText]) -> Result<Rules, RuleRefusal>
        ensures ok { IfOk result (λ rules. AreRulesOf entries.now rules) }
        ensures only { IfOk result (λ rules. AreOnlyRulesOf entries.now rules) }
        ensures refused { IfErr result (λ refusal. RefusesEntries entries.now refusal) }
    {
        let mut rules = Vec::with_capacity(alloc, entries.len())?;
        for entry in entries {
            rules.push(Rule::read(alloc, entry)?)?;
        }
        Ok(Rules { rules })
    }

    /// No rules, by which each number is in the category other. It takes no memory.
    pub fn none(alloc: Global) -> Rules
        ensures { result ≡ [] }
    {
        Rules {
            rules: Vec::new(alloc),
        }
    }

    /// The category of a whole number. It takes no memory.
    pub fn category(&self, n: i64) -> Category
        ensures { result ≡ category_of self.now n }
    {
        self.first_of(&ASKED, n).unwrap_or(Category::Other)
    }

    /// The first of the categories whose condition holds.
    fn first_of(&self, asked: &[Category], n: i64) -> Option<Category>
        ensures { result ≡ find (holds_for self.now n) asked.now }
    {
        asked
            .iter()
            .copied()
            .find(|category| self.holds(*category, n))
    }

    /// Whether the first rule of the category holds.
    fn holds(&self, category: Category, n: i64) -> bool
        ensures { result ≡ holds_for self.now n category }
    {
        for rule in &self.rules {
            if rule.is_for(category) {
                return rule.holds(n);
            }
        }
        false
    }

    /// A copy of the rules, equal to them.
    pub fn copy(&self, alloc: Global) -> Result<Rules, OutOfMemory>
        ensures { IfOk result (λ rules. rules ≡ self.now) }
    {
        let mut rules = Vec::with_capacity(alloc, self.rules.len())?;
        for rule in &self.rules {
            rules.push(rule.copy()?)?;
        }
        Ok(Rules { rules })
    }
}

impl Rule {
    ghost use Rattle.std.specs.Prelude.{◌≡◌, IfOk, IfErr};
    ghost use Rattle.plural_rules.specs.Category.{is_same};
    ghost use Rattle.plural_rules.specs.Holds.{holds};
    ghost use Rattle.plural_rules.specs.AreRulesOf.{IsRuleOf};
    ghost use Rattle.plural_rules.specs.RefusesEntries.{RefusesEntry};

    /// The rule that an entry spells.
    fn read(alloc: Global, entry: &RuleText) -> Result<Rule, RuleRefusal>
        ensures ok { IfOk result (λ rule. IsRuleOf entry.now rule) }
        ensures refused { IfErr result (λ refusal. RefusesEntry entry.now refusal) }
    {
        Ok(Rule {
            category: entry.category,
            parts: parts_of(alloc, entry.category, entry.text.as_str())?,
        })
    }

    /// Whether the rule is of the category.
    fn is_for(&self, category: Category) -> bool
        ensures { result ≡ is_same self.now.0 category }
    {
        self.category.is(category)
    }

    /// Whether the condition of the rule holds of a number.
    fn holds(&self, n: i64) -> bool
        ensures { result ≡ holds self.now.1 n }
    {
        holds(&self.parts, n)
    }

    /// A copy of the rule, equal to it.
    fn copy(&self) -> Result<Rule, OutOfMemory>
        ensures { IfOk result (λ rule. rule ≡ self.now) }
    {
        Ok(Rule {
            category: self.category,
            parts: self.parts.clone()?,
        })
    }
}
