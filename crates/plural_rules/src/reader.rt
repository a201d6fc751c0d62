//! The reader of a condition: one pass over the characters of its text.

ghost use Rattle.std.specs.Prelude.{◌≡◌};
ghost use Rattle.plural_rules.specs.ReadsParts.{AppendsPart, ReadsParts, fault_at};
ghost use Rattle.std.specs.Str.{chars};

use crate::category::Category;
use crate::condition::RulePart;
use crate::rules::{OutOfMemory, RuleFault, RuleRefusal};
use crate::steps::{RuleState, RuleStep, Symbol};
use std::alloc::{AllocError, Global};

/// The parts of the condition of a text, or where it stops being a rule of the category.
pub(crate) fn parts_of(
    alloc: Global,
    category: Category,
    text: &str,
) -> Result<Vec<RulePart>, RuleRefusal>
    ensures { ReadsParts category (chars text.now) result }
{
    let start = RuleStep::start(category);
    let mut parts = Vec::new(alloc);
    let mut state = append_part(&mut parts, start)?;
    for (at, character) in text.char_indices() {
        state = match state.next(Symbol::of(character)) {
            Some(step) => append_part(&mut parts, step)?,
            None => return Err(fault(category, at)),
        };
    }
    match state.next(Symbol::At) {
        Some(step) => {
            append_part(&mut parts, step)?;
            Ok(parts)
        }
        None => Err(fault(category, text.len())),
    }
}

/// The refusal of a text in which no rule goes on at an offset.
fn fault(category: Category, at: usize) -> RuleRefusal
    ensures { result ≡ fault_at category at }
{
    RuleRefusal::Because(RuleFault {
        category,
        at: at as u64,
    })
}

/// Appends the part that a step gives, and goes to its state.
fn append_part(parts: &mut Vec<RulePart>, step: RuleStep) -> Result<RuleState, AllocError>
    ensures { AppendsPart step parts.old.items parts.new.items result }
{
    if let Some(part) = step.part {
        parts.push(part)?;
    }
    Ok(step.state)
}
