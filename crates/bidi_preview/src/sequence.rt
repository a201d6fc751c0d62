//! Isolating run sequences (UAX #9, BD13 and X10).
ghost use Rattle.std.specs.Prelude.{◌≡◌, ℕ, None, Some, true, ◌<◌, ◌≤◌, ◌+◌, ◌++◌, ◌∷◌, [], IfOk, IfSome, OnOk};
ghost use Rattle.std.specs.Prelude.{length, map, slice_index};
ghost use Rattle.std.specs.Option.{is_some};
ghost use Rattle.bidi_order.specs.Resolve.{implicit};
ghost use Rattle.bidi_order.specs.Sequences.{resolved_levels_from};
ghost use Rattle.bidi_preview.specs.NextCharacter.{character_at, goes_past, next_character, next_from, next_kept};
ghost use Rattle.bidi_preview.specs.SequenceSteps.{BeginsSequence, BoundsEnd, Chain, HasEnds, IsExplicit};
ghost use Rattle.bidi_preview.specs.SequenceSteps.{ReadSoFar, ResolvedUpTo, WritesSequence, bracket_at, class_at};
ghost use Rattle.bidi_preview.specs.SequenceSteps.{view_next, written};

use crate::absent::unknown;
use crate::kept::Kept;
use crate::links::match_isolates;
use crate::neutral::implicit;
use crate::resolve::{resolve_classes, side_class};
use bidi_class::{Bracket, Class};
use soy_base::OutOfMemory;
use std::alloc::Global;

/// What comes after a character of a sequence: a character at an index, or the end, beside a level.
pub(crate) enum Next {
    GoesOn(usize),
    Ends(u8),
}

/// The index of the first kept character from an index on, or the line's length.
#[tactic(auto, using(crate::proofs::NextKept::kept_here, crate::proofs::NextKept::kept_later, crate::proofs::NextKept::kept_end))]
fn next_kept(line: &[Option<Kept>], from: usize) -> usize
    requires { from ≤ length line.now }
    ensures value { result ≡ next_kept line.now from }
    ensures bound { result ≤ length line.now }
    ensures order { from ≤ result }
{
    let mut index = from;
    while index < line.len() {
        if line[index].is_some() {
            break;
        }
        index += 1;
    }
    index
}

/// Where a sequence goes on after a character.
#[tactic(auto, using(crate::proofs::NextKept::next_by, crate::proofs::NextKept::next_none))]
fn next_character(
    base: u8,
    line: &[Option<Kept>],
    ends: &[Option<usize>],
    index: usize,
    k: &Kept,
) -> Next
    requires base { base ≤ 125 }
    requires here { character_at line.now index ≡ Some k.now }
    requires within { index < length line.now }
    requires ends { HasEnds line.now ends.now }
    ensures value { view_next result ≡ next_character base line.now index k.now }
    ensures bound { BoundsEnd result }
{
    let next = next_kept(line, index + 1);
    if next < line.len() {
        if let Some(q) = &line[next] {
            return next_from(base, k, ends[index], next, q);
        }
    }
    Next::Ends(base)
}

/// Where a sequence goes on after a character, by the next kept character, which stands at the index.
fn next_from(base: u8, k: &Kept, end: Option<usize>, index: usize, q: &Kept) -> Next
    requires { base ≤ 125 }
    ensures bound { BoundsEnd result }
    ensures value { view_next result ≡ next_from base k.now end index (Some q.now) }
{
    if q.level() == k.level() {
        Next::GoesOn(index)
    } else if k.initiates() {
        goes_past(base, end)
    } else {
        Next::Ends(q.level())
    }
}

/// After an initiator, beside a character of another level.
fn goes_past(base: u8, end: Option<usize>) -> Next
    requires { base ≤ 125 }
    ensures bound { BoundsEnd result }
    ensures value { view_next result ≡ goes_past end base }
{
    match end {
        Some(index) => Next::GoesOn(index),
        None => Next::Ends(base),
    }
}

/// A sequence: the indexes of its characters, their classes and brackets, and the level beside its end.
#[derive(Debug, Drop)]
struct Sequence {
    indexes: Vec<usize>,
    classes: Vec<Class>,
    brackets: Vec<Option<Bracket>>,
    beside: u8,
}

/// Reads the sequence from one of its characters on.
fn read_sequence(
    base: u8,
    line: &[Option<Kept>],
    ends: &[Option<usize>],
    first: usize,
    sequence: &mut Sequence,
) -> Result<(), OutOfMemory>
    requires base { base ≤ 125 }
    requires explicit { IsExplicit base line.now }
    requires ends { HasEnds line.now ends.now }
    requires here { is_some (character_at line.now first) ≡ true }
    requires within { first < length line.now }
    ensures chain { OnOk result (Chain base line.now first sequence.new.indexes.items sequence.new.beside) }
    ensures classes { OnOk result (sequence.new.classes.items
        ≡ map (class_at base line.now) sequence.new.indexes.items) }
    ensures brackets { OnOk result (sequence.new.brackets.items
        ≡ map (bracket_at base line.now) sequence.new.indexes.items) }
    ensures beside { OnOk result (sequence.new.beside ≤ 125) }
{
    sequence.clear(base);
    let mut next = Some(first);
    while let Some(index) = next {
        next = sequence.read(base, line, ends, index)?;
    }
    Ok(())
}

impl Sequence {
    /// A sequence that takes no memory.
    fn empty(alloc: Global, base: u8) -> Sequence {
        Sequence {
            indexes: Vec::new(alloc),
            classes: Vec::new(alloc),
            brackets: Vec::new(alloc),
            beside: base,
        }
    }

    /// Forgets what was read. The memory stays, for the next sequence.
    fn clear(&mut self, base: u8)
        ensures indexes { self.new.indexes.items ≡ [] }
        ensures classes { self.new.classes.items ≡ [] }
        ensures brackets { self.new.brackets.items ≡ [] }
        ensures beside { self.new.beside ≡ base }
    {
        self.indexes.clear();
        self.classes.clear();
        self.brackets.clear();
        self.beside = base;
    }

    /// Reads the character at an index, and says where the sequence goes on, or ends it.
    #[tactic(auto, using(crate::proofs::ReadSequences::goes_within, crate::proofs::ReadSequences::read_more, crate::proofs::ReadSequences::read_end, crate::proofs::ReadSequences::goes_later, crate::proofs::ReadSequences::goes_here))]
    fn read(
        &mut self,
        base: u8,
        line: &[Option<Kept>],
        ends: &[Option<usize>],
        index: usize,
    ) -> Result<Option<usize>, OutOfMemory>
        requires base { base ≤ 125 }
        requires explicit { IsExplicit base line.now }
        requires ends { HasEnds line.now ends.now }
        requires here { is_some (character_at line.now index) ≡ true }
        requires within { index < length line.now }
        requires beside { self.old.beside ≤ 125 }
        ensures chain { IfOk result (λ next. (first : ℕ)
            → ReadSoFar base line.now first (Some index) self.old.indexes.items self.old.beside
            → ReadSoFar base line.now first next self.new.indexes.items self.new.beside) }
        ensures later { IfOk result (λ next. IfSome next (λ i. index < i)) }
        ensures still { IfOk result (λ next. IfSome next (λ i. is_some (character_at line.now i) ≡ true)) }
        ensures within { IfOk result (λ next. IfSome next (λ i. i < length line.now)) }
        ensures classes { OnOk result (self.new.classes.items
            ≡ self.old.classes.items ++ class_at base line.now index ∷ []) }
        ensures brackets { OnOk result (self.new.brackets.items
            ≡ self.old.brackets.items ++ bracket_at base line.now index ∷ []) }
        ensures indexes { OnOk result (self.new.indexes.items ≡ self.old.indexes.items ++ index ∷ []) }
        ensures beside { OnOk result (self.new.beside ≤ 125) }
    {
        if let Some(k) = &line[index] {
            self.indexes.push(index)?;
            self.classes.push(k.class())?;
            self.brackets.push(k.bracket())?;
            match next_character(base, line, ends, index, k) {
                Next::GoesOn(next) => return Ok(Some(next)),
                Next::Ends(level) => self.beside = level,
            }
        }
        Ok(None)
    }
}

/// The levels of a line before L1, each sequence at its first character (UAX #9, X10 to I2).
#[tactic(auto, using(crate::proofs::ResolveLines::up_start, crate::proofs::ResolveLines::up_end))]
pub(crate) fn resolve_line(
    alloc: Global,
    base: u8,
    line: &[Option<Kept>],
) -> Result<Vec<Option<u8>>, OutOfMemory>
    requires base { base ≤ 125 }
    requires explicit { IsExplicit base line.now }
    ensures { IfOk result (λ levels. levels.items ≡ resolved_levels_from base [] line.now) }
{
    let ends = match_isolates(alloc, line)?;
    let mut levels = unknown(alloc, line.len())?;
    let mut sequence = Sequence::empty(alloc, base);
    let mut before = base;
    for index in 0..line.len() {
        before = resolve_at(
            alloc,
            base,
            line,
            &ends,
            index,
            before,
            &mut sequence,
            &mut levels,
        )?;
    }
    Ok(levels)
}

/// Resolves the sequence whose first character stands at the index, if one does, and says which level stands beside the
/// next index.
#[tactic(auto, using(crate::proofs::ResolveLines::up_none, crate::proofs::ResolveLines::up_old, crate::proofs::ResolveLines::up_new, crate::proofs::ResolveLines::up_begins))]
fn resolve_at(
    alloc: Global,
    base: u8,
    line: &[Option<Kept>],
    ends: &[Option<usize>],
    index: usize,
    before: u8,
    sequence: &mut Sequence,
    levels: &mut [Option<u8>],
) -> Result<u8, OutOfMemory>
    requires base { base ≤ 125 }
    requires explicit { IsExplicit base line.now }
    requires ends { HasEnds line.now ends.now }
    requires within { index < length line.now }
    requires so_far { ResolvedUpTo base line.now index before levels.old }
    ensures { IfOk result (λ beside. ResolvedUpTo base line.now (index + 1) beside levels.new) }
{
    if let Some(k) = &line[index] {
        let level = k.level();
        if levels[index].is_some() {
            return Ok(level);
        }
        resolve_from(alloc, base, line, ends, index, before, sequence, levels)?;
        return Ok(level);
    }
    Ok(before)
}

/// Resolves the sequence whose first character stands at the index, and writes its levels.
#[tactic(auto, using(crate::proofs::ResolveLines::chain_within, crate::proofs::ResolveLines::never_none))]
fn resolve_from(
    alloc: Global,
    base: u8,
    line: &[Option<Kept>],
    ends: &[Option<usize>],
    first: usize,
    before: u8,
    sequence: &mut Sequence,
    levels: &mut [Option<u8>],
) -> Result<(), OutOfMemory>
    requires base { base ≤ 125 }
    requires before { before ≤ 125 }
    requires explicit { IsExplicit base line.now }
    requires ends { HasEnds line.now ends.now }
    requires long { length levels.old ≡ length line.now }
    requires within { first < length line.now }
    requires here { is_some (character_at line.now first) ≡ true }
    requires first { IfSome (character_at line.now first) (λ k. BeginsSequence base line.now first k before) }
    ensures { OnOk result (WritesSequence base line.now first levels.old levels.new) }
{
    if let Some(k) = &line[first] {
        let level = k.level();
        read_sequence(base, line, ends, first, sequence)?;
        let sos = side_class(level.max(before));
        let eos = side_class(level.max(sequence.beside));
        resolve_classes(
            alloc,
            level,
            sos,
            eos,
            &sequence.brackets,
            &mut sequence.classes,
        )?;
        write_levels(level, &sequence.indexes, &sequence.classes, levels);
    }
    Ok(())
}

/// Writes the levels of classes at indexes.
fn write_levels(level: u8, indexes: &[usize], classes: &[Class], levels: &mut [Option<u8>])
    requires level { level ≤ 125 }
    requires long { length classes.now ≡ length indexes.now }
    requires within { (t : ℕ) → t < length indexes.now → slice_index indexes.now t < length levels.old }
    ensures { levels.new ≡ written indexes.now (map (implicit level) classes.now) levels.old }
{
    for place in 0..indexes.len() {
        levels[indexes[place]] = Some(implicit(level, classes[place]));
    }
}
