//! Which block a command takes.

ghost use Rattle.std.specs.Option.{option_or};
ghost use Rattle.std.specs.Prelude.{◌≡◌, map, codes};
ghost use Rattle.std.specs.Str.{chars};
ghost use Rattle.soy_rules.specs.Val.{is_same_value, operand, val};
ghost use Rattle.soy_rules.specs.Cost.{cost};
ghost use Rattle.soy_tree.specs.ViewExpressions.{view_expr, view_exprs};
ghost use Rattle.soy_expr.specs.ViewShallow.{view_shallow};
ghost use Rattle.soy_pieces.specs.Branch.{int_of, word_of};
ghost use Rattle.soy_pieces.specs.Pieces.{is_one, valued};
ghost use Rattle.template_ir.specs.Run.{exact_block, named_block, plural_block, select_block, word_block};
ghost use Rattle.template_ir.specs.ViewOps.{view_branch, view_choice, view_program};
ghost use Rattle.render_core.specs.Chosen.{added_cost, branch_chosen, choice_chosen};
ghost use Rattle.render_core.specs.Finds.{Takes};
ghost use Rattle.render_core.specs.Seen.{env_seen};

use crate::begun::no_text;
use crate::ints::int_at_hand;
use crate::parts::Point;
use crate::truth::is_truthy;
use plural_rules::Category;
use soy_base::{OutOfMemory, Steps};
use soy_expr::{Shallow, evaluate, is_same};
use soy_tree::Expr;
use std::sync::ledger::Ledger;
use template_ir::{
    Block, Branch, Choice, ExactBlock, NamedBlock, PluralOp, ProgramParts, SelectOp, WordBlock,
};

/// The block of the first branch that holds, else the other.
#[tactic(auto, using(crate::proofs::Choices::branch_here, crate::proofs::Choices::branch_past, crate::proofs::Choices::branch_least))]
pub(crate) fn branch_taken<L: Ledger>(
    point: Point,
    branches: &[Branch],
    other: Option<Block>,
    steps: &mut Steps<L>,
) -> Result<Option<Block>, OutOfMemory>
    ensures { Takes (branch_chosen (map view_branch branches.now) other (env_seen point.entry)) steps.old steps.new
        result }
{
    for branch in branches {
        match is_truthy(point, &branch.when, steps) {
            Ok(true) => return Ok(Some(branch.body)),
            Ok(false) => {}
            Err(_) => return Err(OutOfMemory),
        }
    }
    Ok(other)
}

/// The block that a switch takes.
#[tactic(auto, using(crate::proofs::Choices::choices_shallow, crate::proofs::Choices::same_valued, crate::proofs::Finds::same_cost))]
pub(crate) fn switch_taken<L: Ledger>(
    point: Point,
    subject: &Expr,
    choices: &[Choice],
    other: Option<Block>,
    steps: &mut Steps<L>,
) -> Result<Option<Block>, OutOfMemory>
    ensures { Takes (added_cost (cost (view_expr subject.now) (env_seen point.entry))
        (choice_chosen (valued (view_expr subject.now) (env_seen point.entry)) (map view_choice choices.now) other
        (env_seen point.entry))) steps.old steps.new result }
{
    match evaluate(point.scene.alloc, subject, &point, steps) {
        Ok(value) => {
            let taken = choice_taken(point, value.shallow(), choices, other, steps);
            drop(value);
            taken
        }
        Err(_) => Err(OutOfMemory),
    }
}

/// The block that a select takes.
#[tactic(auto, using(crate::proofs::Choices::word_shallow, crate::proofs::Choices::same_valued, crate::proofs::Finds::same_cost))]
pub(crate) fn select_taken<L: Ledger>(
    point: Point,
    select: &SelectOp,
    steps: &mut Steps<L>,
) -> Result<Option<Block>, OutOfMemory>
    ensures { Takes (
      select_block (word_of (valued (view_expr select.now.word) (env_seen point.entry))) select.now.arms,
      cost (view_expr select.now.word) (env_seen point.entry),
    ) steps.old steps.new result }
{
    match evaluate(point.scene.alloc, &select.word, &point, steps) {
        Ok(word) => {
            let taken = select_for(word.shallow(), select.arms.items());
            drop(word);
            Ok(taken)
        }
        Err(_) => Err(OutOfMemory),
    }
}

/// The int that an expression has, or 0.
pub(crate) fn int_value<L: Ledger>(
    point: Point,
    number: &Expr,
    steps: &mut Steps<L>,
) -> Result<i64, OutOfMemory>
    ensures { Takes (
      int_of (valued (view_expr number.now) (env_seen point.entry)),
      cost (view_expr number.now) (env_seen point.entry),
    ) steps.old steps.new result }
{
    match int_at_hand(point, number, steps) {
        Some(int) => Ok(int),
        None => evaluated_int(point, number, steps),
    }
}

/// The int that any expression has, or 0.
#[inline(never)]
#[tactic(auto, using(crate::proofs::Choices::int_shallow, crate::proofs::Choices::same_valued, crate::proofs::Finds::same_cost))]
fn evaluated_int<L: Ledger>(
    point: Point,
    number: &Expr,
    steps: &mut Steps<L>,
) -> Result<i64, OutOfMemory>
    ensures { Takes (
      int_of (valued (view_expr number.now) (env_seen point.entry)),
      cost (view_expr number.now) (env_seen point.entry),
    ) steps.old steps.new result }
{
    match evaluate(point.scene.alloc, number, &point, steps) {
        Ok(number) => {
            let int = int_of(number.shallow());
            drop(number);
            Ok(int)
        }
        Err(_) => Err(OutOfMemory),
    }
}

/// The block of the first choice that has the value of the subject, else the other.
#[tactic(auto, using(crate::proofs::Choices::choice_here, crate::proofs::Choices::choice_past, crate::proofs::Choices::choice_least))]
fn choice_taken<L: Ledger>(
    point: Point,
    subject: Shallow,
    choices: &[Choice],
    other: Option<Block>,
    steps: &mut Steps<L>,
) -> Result<Option<Block>, OutOfMemory>
    ensures { Takes
        (choice_chosen (view_shallow subject.entry) (map view_choice choices.now) other (env_seen point.entry))
        steps.old steps.new result }
{
    for choice in choices {
        match is_one(point, subject, choice.values.items(), steps) {
            Ok(true) => return Ok(Some(choice.body)),
            Ok(false) => {}
            Err(_) => return Err(OutOfMemory),
        }
    }
    Ok(other)
}

/// Whether a value is one of those of expressions, which are valued up to the one that it is.
#[tactic(auto, using(crate::proofs::Choices::one_same, crate::proofs::Choices::one_other, crate::proofs::Choices::one_least))]
fn is_one<L: Ledger>(
    point: Point,
    subject: Shallow,
    values: &[Expr],
    steps: &mut Steps<L>,
) -> Result<bool, OutOfMemory>
    ensures { Takes (is_one (view_shallow subject.entry) (view_exprs values.now) (env_seen point.entry))
        steps.old steps.new result }
{
    for value in values {
        match has_value(point, subject, value, steps) {
            Ok(true) => return Ok(true),
            Ok(false) => {}
            Err(_) => return Err(OutOfMemory),
        }
    }
    Ok(false)
}

/// Whether an expression has a value.
#[tactic(auto, using(crate::proofs::Choices::same_shallow, crate::proofs::Finds::same_cost, crate::proofs::Choices::same_valued))]
fn has_value<L: Ledger>(
    point: Point,
    subject: Shallow,
    expr: &Expr,
    steps: &mut Steps<L>,
) -> Result<bool, OutOfMemory>
    ensures { Takes (
      is_same_value (view_shallow subject.entry) (valued (view_expr expr.now) (env_seen point.entry)),
      cost (view_expr expr.now) (env_seen point.entry),
    ) steps.old steps.new result }
{
    match evaluate(point.scene.alloc, expr, &point, steps) {
        Ok(value) => {
            let is = is_same(subject, value.shallow());
            drop(value);
            Ok(is)
        }
        Err(_) => Err(OutOfMemory),
    }
}

/// The int that a value is, or 0.
fn int_of(value: Shallow) -> i64
    ensures { result ≡ int_of (view_shallow value.entry) }
{
    match value {
        Shallow::Int(number) => number,
        _ => 0,
    }
}

/// The arm of a plural for a number, which without the offset is `rest`.
pub(crate) fn plural_block(
    program: &ProgramParts,
    plural: &PluralOp,
    number: i64,
    rest: i64,
) -> Option<Block>
    ensures { result ≡ plural_block (view_program program.now) plural.now.ordinal plural.now.exact plural.now.named
        number rest }
{
    if let Some(block) = exact_block(number, plural.exact.items()) {
        return Some(block);
    }
    let category = program.category(plural.ordinal, rest);
    if let Some(block) = named_block(category, plural.named.items()) {
        return Some(block);
    }
    named_block(Category::Other, plural.named.items())
}

#[tactic(auto, using(crate::proofs::Choices::exact_here))]
fn exact_block(number: i64, arms: &[ExactBlock]) -> Option<Block>
    ensures { result ≡ exact_block number arms.now }
{
    for arm in arms {
        if arm.is == number {
            return Some(arm.body);
        }
    }
    None
}

#[tactic(auto, using(crate::proofs::Choices::named_here))]
fn named_block(category: Category, arms: &[NamedBlock]) -> Option<Block>
    ensures { result ≡ named_block category arms.now }
{
    for arm in arms {
        if arm.category == category {
            return Some(arm.body);
        }
    }
    None
}

/// The arm of a select for a value.
fn select_for(value: Shallow, arms: &[WordBlock]) -> Option<Block>
    ensures { result ≡ select_block (word_of (view_shallow value.entry)) arms.now }
{
    match value {
        Shallow::Null => select_block(no_text(), arms),
        Shallow::Bool(_) => select_block(no_text(), arms),
        Shallow::Int(_) => select_block(no_text(), arms),
        Shallow::Str(word) => select_block(word.text(), arms),
        Shallow::Compound => select_block(no_text(), arms),
    }
}

/// The arm of a select for a word.
fn select_block(word: &str, arms: &[WordBlock]) -> Option<Block>
    ensures { result ≡ select_block (chars word.now) arms.now }
{
    match word_block(word, arms) {
        Some(block) => Some(block),
        None => other_block(arms),
    }
}

#[tactic(auto, using(soy_expr::proofs::AsciiTexts::chars_ascii))]
fn other_block(arms: &[WordBlock]) -> Option<Block>
    ensures { result ≡ word_block (codes "other") arms.now }
{
    word_block("other", arms)
}

#[tactic(auto, using(crate::proofs::Choices::word_here))]
fn word_block(word: &str, arms: &[WordBlock]) -> Option<Block>
    ensures { result ≡ word_block (chars word.now) arms.now }
{
    for arm in arms {
        if arm.is.is(word) {
            return Some(arm.body);
        }
    }
    None
}
