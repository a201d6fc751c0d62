//! The plural category of a whole number, by rules as the CLDR has them.
//!
//! `Rules::parse` reads conditions in the rule syntax of UTS #35 (LDML), part 3, "Plural rules syntax",
//! without the older keywords `is`, `in`, `within` and `mod`. It accepts a rule exactly where the grammar has
//! it, and else names the rule's category and the longest prefix of its text with which a rule begins.
//! `Rules::category` gives the first of zero, one, two, few and many whose condition holds, else other.
//!
//! The definitions are `Condition` (which texts are rules, and what they say), `holds` and `category_of`.
//! Depends on std alone.

#![tactic(auto)]

mod category;
mod condition;
mod number;
mod reader;
mod rules;
mod steps;

pub use category::Category;
pub use rules::{OutOfMemory, RuleFault, RuleRefusal, RuleText, Rules};
