//! The visual order of a line (UAX #9, 3.4, L2).
ghost use Rattle.std.specs.Prelude.{◌≡◌, ◌==◌, ◌<◌, ◌≤◌, ◌-◌, ◌%◌, ◌++◌, true, not, if◌then◌else◌, IfOk, OnOk};
ghost use Rattle.std.specs.Prelude.{length, nat_le, reverse};
ghost use Rattle.std.specs.List.{list_all};
ghost use Rattle.bidi_order.specs.VisualOrder.{LeveledCharacter, highest_level, least_odd_level, reordered};
ghost use Rattle.bidi_preview.specs.OrderSteps.{characters_in_order, leveled_from, leveled_of, turned_by};

use soy_base::OutOfMemory;
use std::alloc::Global;
use std::marker::Model;

/// A character that is kept, with its level.
#[derive(Debug, Drop)]
pub(crate) struct Leveled {
    character: char,
    level: u8,
}

impl Model for Leveled {
    ghost use Rattle.bidi_order.specs.VisualOrder.{LeveledCharacter};

    ghost Value = { LeveledCharacter };

    ghost view = { λ x. record { index = x.character; level = x.level } };
}

impl Leveled {
    pub(crate) fn new(character: char, level: u8) -> Leveled
        ensures { result ≡ record { index = character; level = level } }
    {
        Leveled { character, level }
    }

    pub(crate) fn character(&self) -> char
        ensures { result ≡ self.now.index }
    {
        self.character
    }

    fn copied(&self) -> Leveled
        ensures { result ≡ self.now }
    {
        Leveled::new(self.character, self.level)
    }

    fn level(&self) -> u8
        ensures { result ≡ self.now.level }
    {
        self.level
    }
}

/// The characters of a line that are kept, from left to right.
#[tactic(auto, using(crate::proofs::Orders::in_order))]
pub(crate) fn order_characters(
    alloc: Global,
    line: &[char],
    levels: &[Option<u8>],
) -> Result<Vec<Leveled>, OutOfMemory>
    requires { length levels.now ≡ length line.now }
    ensures { IfOk result (λ order. order.items ≡ characters_in_order line.now levels.now) }
{
    let characters = level_characters(alloc, line, levels)?;
    let above = highest_level(levels) + 1;
    let lowest = least_odd_level(above, levels);
    let mut order = Vec::with_capacity(alloc, characters.len())?;
    push_order(lowest, above, false, &characters, &mut order)?;
    Ok(order)
}

/// The characters that are kept, in their order, each with its level.
#[tactic(auto, using(crate::proofs::Orders::leveled_more))]
fn level_characters(
    alloc: Global,
    line: &[char],
    levels: &[Option<u8>],
) -> Result<Vec<Leveled>, OutOfMemory>
    requires { length levels.now ≡ length line.now }
    ensures { IfOk result (λ characters. characters.items ≡ leveled_from line.now levels.now) }
{
    let mut characters = Vec::with_capacity(alloc, line.len())?;
    for index in 0..line.len() {
        push_leveled(&mut characters, line[index], levels[index])?;
    }
    Ok(characters)
}

/// Puts a character at the end, where it has a level.
fn push_leveled(
    characters: &mut Vec<Leveled>,
    c: char,
    level: Option<u8>,
) -> Result<(), OutOfMemory>
    ensures { OnOk result (characters.new.items ≡ characters.old.items ++ leveled_of c level) }
{
    if let Some(level) = level {
        characters.push(Leveled::new(c, level))?;
    }
    Ok(())
}

/// The highest of some levels.
fn highest_level(levels: &[Option<u8>]) -> usize
    ensures value { result ≡ highest_level levels.now }
    ensures bound { result ≤ 255 }
{
    let mut highest = 0;
    for level in levels {
        if let Some(level) = level {
            highest = highest.max(usize::from(*level));
        }
    }
    highest
}

/// The least odd one of some levels that is below a number, or the number.
fn least_odd_level(above: usize, levels: &[Option<u8>]) -> usize
    ensures value { result ≡ least_odd_level above levels.now }
    ensures bound { result ≤ above }
{
    let mut least = above;
    for level in levels {
        if let Some(level) = level {
            let level = usize::from(*level);
            if level % 2 == 1 && level < least {
                least = level;
            }
        }
    }
    least
}

/// L2: puts characters at the end, in their order after the reversals at the levels from the lowest one up, which are
/// made below the number; or in the opposite order.
#[cycle(order)]
#[tactic(auto, using(crate::proofs::Orders::no_levels))]
fn push_order(
    lowest: usize,
    above: usize,
    turned: bool,
    characters: &[Leveled],
    order: &mut Vec<Leveled>,
) -> Result<(), OutOfMemory>
    requires { lowest ≤ above }
    ensures { OnOk result (order.new.items
        ≡ order.old.items ++ turned_by turned (reordered lowest (above - lowest) characters.now)) }
{
    if lowest == above {
        push_characters(turned, characters, order)
    } else if turned {
        push_backward(lowest, above, characters, order)
    } else {
        push_forward(lowest, above, characters, order)
    }
}

/// L2: the characters from the first on. Each maximal run at the lowest level or above is put where it ends.
#[cycle(order)]
#[tactic(auto, using(crate::proofs::Orders::run_ends, crate::proofs::Orders::run_longer, crate::proofs::Orders::run_none, crate::proofs::Orders::run_rest))]
fn push_forward(
    lowest: usize,
    above: usize,
    characters: &[Leveled],
    order: &mut Vec<Leveled>,
) -> Result<(), OutOfMemory>
    requires { lowest < above }
    ensures { OnOk result (order.new.items ≡ order.old.items ++ reordered lowest (above - lowest) characters.now) }
{
    let mut start = 0;
    let mut least = above - 1;
    for index in 0..characters.len() {
        let level = usize::from(characters[index].level());
        if level < lowest {
            push_run(
                lowest,
                least,
                above,
                false,
                &characters[start..index],
                order,
            )?;
            order.push(characters[index].copied())?;
            start = index + 1;
            least = above - 1;
        } else {
            least = least.min(level);
        }
    }
    push_run(lowest, least, above, false, &characters[start..], order)
}

/// L2: the characters from the last on, for the opposite order. Each maximal run is put where it begins.
#[cycle(order)]
#[tactic(auto, using(crate::proofs::Orders::run_begins, crate::proofs::Orders::run_longer_back, crate::proofs::Orders::run_none, crate::proofs::Orders::run_whole, crate::proofs::Orders::all_taken))]
fn push_backward(
    lowest: usize,
    above: usize,
    characters: &[Leveled],
    order: &mut Vec<Leveled>,
) -> Result<(), OutOfMemory>
    requires { lowest < above }
    ensures { OnOk result (order.new.items
        ≡ order.old.items ++ reverse (reordered lowest (above - lowest) characters.now)) }
{
    let mut end = characters.len();
    let mut least = above - 1;
    let mut index = characters.len();
    while index > 0 {
        index -= 1;
        let level = usize::from(characters[index].level());
        if level < lowest {
            push_run(
                lowest,
                least,
                above,
                true,
                &characters[index + 1..end],
                order,
            )?;
            order.push(characters[index].copied())?;
            end = index;
            least = above - 1;
        } else {
            least = least.min(level);
        }
    }
    push_run(lowest, least, above, true, &characters[..end], order)
}

/// L2: a run at the lowest level or above. All of it is at the least level or above, so up to that each level turns it
/// whole, and only the characters above are looked for.
#[cycle(order)]
#[tactic(auto, using(crate::proofs::Orders::run_turned, crate::proofs::Orders::empty_run))]
fn push_run(
    lowest: usize,
    least: usize,
    above: usize,
    turned: bool,
    run: &[Leveled],
    order: &mut Vec<Leveled>,
) -> Result<(), OutOfMemory>
    requires low { lowest ≤ least }
    requires high { least < above }
    requires run { list_all (λ (x : LeveledCharacter). nat_le least x.level) run.now ≡ true }
    ensures { OnOk result (order.new.items
        ≡ order.old.items ++ turned_by turned (reordered lowest (above - lowest) run.now)) }
{
    if run.is_empty() {
        return Ok(());
    }
    push_order(
        least + 1,
        above,
        turned_at(turned, least - lowest),
        run,
        order,
    )
}

/// Whether a run is turned after the lowest level and so many above it.
fn turned_at(turned: bool, levels: usize) -> bool
    ensures { result ≡ (if levels % 2 == 0 then not turned else turned) }
{
    if levels % 2 == 0 { !turned } else { turned }
}

/// Puts characters at the end, or from the last to the first.
fn push_characters(
    turned: bool,
    characters: &[Leveled],
    order: &mut Vec<Leveled>,
) -> Result<(), OutOfMemory>
    ensures { OnOk result (order.new.items ≡ order.old.items ++ turned_by turned characters.now) }
{
    if turned {
        push_turned(characters, order)
    } else {
        push_unchanged(characters, order)
    }
}

/// Puts characters at the end.
fn push_unchanged(characters: &[Leveled], order: &mut Vec<Leveled>) -> Result<(), OutOfMemory>
    ensures { OnOk result (order.new.items ≡ order.old.items ++ characters.now) }
{
    for x in characters {
        order.push(x.copied())?;
    }
    Ok(())
}

/// Puts characters at the end, from the last to the first.
#[tactic(auto, using(crate::proofs::Orders::turned_more))]
fn push_turned(characters: &[Leveled], order: &mut Vec<Leveled>) -> Result<(), OutOfMemory>
    ensures { OnOk result (order.new.items ≡ order.old.items ++ reverse characters.now) }
{
    let mut index = characters.len();
    while index > 0 {
        index -= 1;
        order.push(characters[index].copied())?;
    }
    Ok(())
}
