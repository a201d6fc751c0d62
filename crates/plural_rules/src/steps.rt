//! The steps of the reader: its states, what a character is to it, and where it leads.

ghost use Rattle.std.specs.Prelude.{◌≡◌};
ghost use Rattle.plural_rules.specs.NextStep.{symbol_of, letter_symbol_of, going, giving};
ghost use Rattle.plural_rules.specs.NextStep.{start_step, next_step, relation_step, operand_step};
ghost use Rattle.plural_rules.specs.NextStep.{operator_step, exclamation_step, comparison_step};
ghost use Rattle.plural_rules.specs.NextStep.{value_step, digits_step, digits_end_step};
ghost use Rattle.plural_rules.specs.NextStep.{spaced_step, after_step, first_step, range_step};
ghost use Rattle.plural_rules.specs.NextStep.{dot_step, a_step, an_step, o_step, blank_step};

use crate::category::Category;
use crate::condition::{Comparison, Operand, RulePart, Values};

/// What a character is to the reader.
#[derive(Clone, Copy, Debug)]
pub(crate) enum Symbol {
    White,
    Digit(u64),
    Percent,
    Equals,
    Exclamation,
    Dot,
    Comma,
    At,
    Letter(Operand),
    A,
    D,
    O,
    R,
    Foreign,
}

/// What a value is for: a modulus, a value or the first end of a range, or the last end of one.
#[derive(Clone, Copy, Debug)]
pub(crate) enum Slot {
    Modulus(Operand),
    First,
    Last(u64),
}

/// The state of the reader in a rule.
#[derive(Clone, Copy, Debug)]
pub(crate) enum RuleState {
    /// A relation has to come.
    Relation,
    /// After an operand.
    Operand(Operand),
    /// After the `!` of `!=`, with the operand and the modulus before it.
    Exclamation(Operand, Option<u64>),
    /// A value has to come.
    Value(Slot),
    /// After a digit of a value.
    Digits(Slot, u64),
    /// After a value and white space.
    After(Slot, u64),
    /// After the first dot of a range.
    Dot(u64),
    /// In the keyword `and`, after its first letter.
    A,
    /// In the keyword `and`, after its second letter.
    An,
    /// In the keyword `or`, after its first letter.
    O,
    /// In the samples.
    Samples,
    /// In the empty condition of the category other.
    Blank,
}

/// Where a character leads, and the part of the condition that ends with it.
#[derive(Clone, Copy, Debug)]
pub(crate) struct RuleStep {
    pub(crate) state: RuleState,
    pub(crate) part: Option<RulePart>,
}

/// The largest value of a rule: 2^53 - 1.
const LARGEST: u64 = 9_007_199_254_740_991;

/// A step that gives no part.
fn going(state: RuleState) -> Option<RuleStep>
    ensures { result ≡ going state }
{
    Some(RuleStep { state, part: None })
}

/// A step that gives a part.
fn giving(part: RulePart, state: RuleState) -> Option<RuleStep>
    ensures { result ≡ giving part state }
{
    Some(RuleStep {
        state,
        part: Some(part),
    })
}

impl Symbol {
    /// What a character is to the reader.
    pub(crate) fn of(character: char) -> Symbol
        ensures { result ≡ symbol_of character }
    {
        match character {
            ' ' | '\t' | '\n' | '\r' => Symbol::White,
            '0'..='9' => Symbol::Digit(u64::from(u32::from(character) - 48)),
            '%' => Symbol::Percent,
            '=' => Symbol::Equals,
            '!' => Symbol::Exclamation,
            '.' => Symbol::Dot,
            ',' => Symbol::Comma,
            '@' => Symbol::At,
            _ => Symbol::of_letter(character),
        }
    }

    /// What a letter is to the reader.
    fn of_letter(character: char) -> Symbol
        ensures { result ≡ letter_symbol_of character }
    {
        match character {
            'n' => Symbol::Letter(Operand::N),
            'i' => Symbol::Letter(Operand::I),
            'v' => Symbol::Letter(Operand::V),
            'w' => Symbol::Letter(Operand::W),
            'f' => Symbol::Letter(Operand::F),
            't' => Symbol::Letter(Operand::T),
            'c' => Symbol::Letter(Operand::C),
            'e' => Symbol::Letter(Operand::E),
            'a' => Symbol::A,
            'd' => Symbol::D,
            'o' => Symbol::O,
            'r' => Symbol::R,
            _ => Symbol::Foreign,
        }
    }
}

impl RuleStep {
    /// The state where a rule of the category begins, and the part that begins it.
    pub(crate) fn start(category: Category) -> RuleStep
        ensures { result ≡ start_step category }
    {
        match category {
            Category::Other => RuleStep {
                state: RuleState::Blank,
                part: None,
            },
            _ => RuleStep {
                state: RuleState::Relation,
                part: Some(RulePart::Alternative),
            },
        }
    }
}

impl RuleState {
    /// The step at a symbol, or `None` where no rule goes on with it.
    pub(crate) fn next(self, symbol: Symbol) -> Option<RuleStep>
        ensures { result ≡ next_step self symbol }
    {
        match self {
            RuleState::Relation => relation(symbol),
            RuleState::Operand(operand) => after_operand(operand, symbol),
            RuleState::Exclamation(operand, modulus) => after_exclamation(operand, modulus, symbol),
            RuleState::Value(slot) => value(slot, symbol),
            RuleState::Digits(slot, number) => after_digit(slot, number, symbol),
            RuleState::After(slot, number) => after_space(slot, number, symbol),
            RuleState::Dot(first) => after_dot(first, symbol),
            RuleState::A => after_a(symbol),
            RuleState::An => after_an(symbol),
            RuleState::O => after_o(symbol),
            RuleState::Samples => going(RuleState::Samples),
            RuleState::Blank => blank(symbol),
        }
    }
}

/// Where a relation has to come.
fn relation(symbol: Symbol) -> Option<RuleStep>
    ensures { result ≡ relation_step symbol }
{
    match symbol {
        Symbol::White => going(RuleState::Relation),
        Symbol::Letter(operand) => going(RuleState::Operand(operand)),
        _ => None,
    }
}

/// After an operand.
fn after_operand(operand: Operand, symbol: Symbol) -> Option<RuleStep>
    ensures { result ≡ operand_step operand symbol }
{
    match symbol {
        Symbol::White => going(RuleState::Operand(operand)),
        Symbol::Percent => going(RuleState::Value(Slot::Modulus(operand))),
        _ => operator(operand, None, symbol),
    }
}

/// Where the `=` or `!=` of a relation has to come.
fn operator(operand: Operand, modulus: Option<u64>, symbol: Symbol) -> Option<RuleStep>
    ensures { result ≡ operator_step operand modulus symbol }
{
    match symbol {
        Symbol::Equals => comparison(operand, modulus, true),
        Symbol::Exclamation => going(RuleState::Exclamation(operand, modulus)),
        _ => None,
    }
}

/// After the `!` of `!=`.
fn after_exclamation(operand: Operand, modulus: Option<u64>, symbol: Symbol) -> Option<RuleStep>
    ensures { result ≡ exclamation_step operand modulus symbol }
{
    match symbol {
        Symbol::Equals => comparison(operand, modulus, false),
        _ => None,
    }
}

/// After the `=` or `!=` of a relation, which gives what it compares.
fn comparison(operand: Operand, modulus: Option<u64>, equal: bool) -> Option<RuleStep>
    ensures { result ≡ comparison_step operand modulus equal }
{
    let comparison = Comparison {
        operand,
        modulus,
        equal,
    };
    giving(
        RulePart::Comparison(comparison),
        RuleState::Value(Slot::First),
    )
}

/// Where a value has to come.
fn value(slot: Slot, symbol: Symbol) -> Option<RuleStep>
    ensures { result ≡ value_step slot symbol }
{
    match symbol {
        Symbol::White => going(RuleState::Value(slot)),
        Symbol::Digit(digit) => going(RuleState::Digits(slot, digit)),
        _ => None,
    }
}

/// After a digit of a value.
fn after_digit(slot: Slot, number: u64, symbol: Symbol) -> Option<RuleStep>
    ensures { result ≡ digits_step slot number symbol }
{
    match symbol {
        Symbol::Digit(digit) => {
            let number = number.saturating_mul(10).saturating_add(digit);
            if number <= LARGEST {
                going(RuleState::Digits(slot, number))
            } else {
                None
            }
        }
        _ => after_digits(slot, number, symbol),
    }
}

/// After the last digit of a value.
fn after_digits(slot: Slot, number: u64, symbol: Symbol) -> Option<RuleStep>
    ensures { result ≡ digits_end_step slot number symbol }
{
    match (slot, number) {
        (Slot::Modulus(_), 0) => None,
        _ => after_space(slot, number, symbol),
    }
}

/// After a value and white space.
fn after_space(slot: Slot, number: u64, symbol: Symbol) -> Option<RuleStep>
    ensures { result ≡ spaced_step slot number symbol }
{
    match symbol {
        Symbol::White => going(RuleState::After(slot, number)),
        _ => after_value(slot, number, symbol),
    }
}

/// After a value, with no white space to come.
fn after_value(slot: Slot, number: u64, symbol: Symbol) -> Option<RuleStep>
    ensures { result ≡ after_step slot number symbol }
{
    match slot {
        Slot::Modulus(operand) => operator(operand, Some(number), symbol),
        Slot::First => after_first(number, symbol),
        Slot::Last(first) => after_range(
            Values {
                first,
                last: number,
            },
            symbol,
        ),
    }
}

/// After a value that may be the first end of a range.
fn after_first(number: u64, symbol: Symbol) -> Option<RuleStep>
    ensures { result ≡ first_step number symbol }
{
    match symbol {
        Symbol::Dot => going(RuleState::Dot(number)),
        _ => after_range(
            Values {
                first: number,
                last: number,
            },
            symbol,
        ),
    }
}

/// After a value or a range, which it gives.
fn after_range(values: Values, symbol: Symbol) -> Option<RuleStep>
    ensures { result ≡ range_step values symbol }
{
    let state = match symbol {
        Symbol::Comma => RuleState::Value(Slot::First),
        Symbol::A => RuleState::A,
        Symbol::O => RuleState::O,
        Symbol::At => RuleState::Samples,
        _ => return None,
    };
    giving(RulePart::Values(values), state)
}

/// After the first of the two dots of a range.
fn after_dot(first: u64, symbol: Symbol) -> Option<RuleStep>
    ensures { result ≡ dot_step first symbol }
{
    match symbol {
        Symbol::Dot => going(RuleState::Value(Slot::Last(first))),
        _ => None,
    }
}

/// In the keyword `and`, after its first letter.
fn after_a(symbol: Symbol) -> Option<RuleStep>
    ensures { result ≡ a_step symbol }
{
    match symbol {
        Symbol::Letter(Operand::N) => going(RuleState::An),
        _ => None,
    }
}

/// In the keyword `and`, after its second letter.
fn after_an(symbol: Symbol) -> Option<RuleStep>
    ensures { result ≡ an_step symbol }
{
    match symbol {
        Symbol::D => going(RuleState::Relation),
        _ => None,
    }
}

/// In the keyword `or`, after its first letter.
fn after_o(symbol: Symbol) -> Option<RuleStep>
    ensures { result ≡ o_step symbol }
{
    match symbol {
        Symbol::R => giving(RulePart::Alternative, RuleState::Relation),
        _ => None,
    }
}

/// In the empty condition of the category other.
fn blank(symbol: Symbol) -> Option<RuleStep>
    ensures { result ≡ blank_step symbol }
{
    match symbol {
        Symbol::White => going(RuleState::Blank),
        Symbol::At => going(RuleState::Samples),
        _ => None,
    }
}
