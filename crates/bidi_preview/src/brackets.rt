//! Paired brackets (UAX #9, BD16 and N0).
ghost use Rattle.std.specs.Prelude.{◌≡◌, ◌∷◌, ◌+◌, ◌<◌, ◌≤◌, ◌^◌, IfOk, MatchOption, None, OnOk, Some, drop, length};
ghost use Rattle.std.specs.Prelude.{map, not, reverse};
ghost use Rattle.std.specs.Prelude.{suc, take, []};
ghost use Rattle.std.specs.List.{list_any};
ghost use Rattle.std.specs.Option.{is_some};
ghost use Rattle.bidi_order.specs.DirectionalStatus.{strong_class};
ghost use Rattle.bidi_order.specs.Resolve.{bracket_pairs_from, class_direction, is_direction, is_nonspacing};
ghost use Rattle.bidi_order.specs.Resolve.{last_direction, matching_opening, n0, neutral_bracket, pair_direction};
ghost use Rattle.bidi_order.specs.Resolve.{pairs_in_order, set_bracket};
ghost use Rattle.bidi_preview.specs.NeutralSteps.{PairsSoFar, SearchGoesOn, counting_brackets, listed_pairs};

use crate::absent::unknown;
use bidi_class::{Bracket, Class};
use soy_base::OutOfMemory;
use std::alloc::Global;

/// BD16: how many brackets may be open.
const OPEN_BRACKETS: usize = 63;

/// BD16 and N0: the pairs of brackets take a direction.
pub(crate) fn resolve_brackets(
    alloc: Global,
    own: bool,
    sos: bool,
    given: &[Class],
    brackets: &[Option<Bracket>],
    classes: &mut [Class],
) -> Result<(), OutOfMemory>
    requires given { length given.now ≡ length classes.old }
    requires brackets { length brackets.now ≡ length classes.old }
    ensures { OnOk result (classes.new ≡ n0 own sos (map is_nonspacing given.now)
        (pairs_in_order (bracket_pairs_from 0 [] (counting_brackets classes.old brackets.now))) classes.old) }
{
    let partners = find_pairs(alloc, classes, brackets)?;
    resolve_pairs(own, sos, given, &partners, classes);
    Ok(())
}

/// Whether one of the characters is a bracket.
pub(crate) fn has_bracket(brackets: &[Option<Bracket>]) -> bool
    ensures { result ≡ list_any is_some brackets.now }
{
    brackets.iter().any(|bracket| bracket.is_some())
}

/// BD16: for each bracket that opens a pair the index of that which closes it.
#[tactic(auto, using(crate::proofs::PairsFound::found_start, crate::proofs::PairsFound::read_end))]
fn find_pairs(
    alloc: Global,
    classes: &[Class],
    brackets: &[Option<Bracket>],
) -> Result<Vec<Option<usize>>, OutOfMemory>
    requires { length brackets.now ≡ length classes.now }
    ensures pairs { IfOk result (λ partners. listed_pairs 0 partners.items
        ≡ pairs_in_order (bracket_pairs_from 0 [] (counting_brackets classes.now brackets.now))) }
    ensures long { IfOk result (λ partners. length partners.items ≡ length classes.now) }
{
    let mut partners = unknown(alloc, classes.len())?;
    let mut opened = Vec::new(alloc);
    for index in 0..classes.len() {
        if !read_bracket(classes, brackets, index, &mut opened, &mut partners)? {
            return Ok(partners);
        }
    }
    Ok(partners)
}

/// BD16: reads the bracket at an index, and says whether the search goes on.
#[tactic(auto, using(crate::proofs::PairsFound::read_none, crate::proofs::PairsFound::read_opens, crate::proofs::PairsFound::read_full, crate::proofs::PairsFound::read_lone, crate::proofs::PairsFound::read_pair, crate::proofs::PairsFound::read_first))]
fn read_bracket(
    classes: &[Class],
    brackets: &[Option<Bracket>],
    index: usize,
    opened: &mut Vec<(char, usize)>,
    partners: &mut [Option<usize>],
) -> Result<bool, OutOfMemory>
    requires long { length brackets.now ≡ length classes.now }
    requires partners { length partners.old ≡ length classes.now }
    requires within { index < length classes.now }
    requires so_far { PairsSoFar (counting_brackets classes.now brackets.now) index
        (reverse opened.old.items) partners.old }
    ensures { IfOk result (λ goes. SearchGoesOn goes (counting_brackets classes.now brackets.now) (index + 1)
        (reverse opened.new.items) partners.new) }
{
    match neutral_bracket(classes[index], brackets[index]) {
        None => Ok(true),
        Some(Bracket::Opens(closing)) => {
            if opened.len() == OPEN_BRACKETS {
                return Ok(false);
            }
            opened.push((closing, index))?;
            Ok(true)
        }
        Some(Bracket::Closes(closing)) => match take_opening(opened, closing) {
            None => Ok(true),
            Some(first) => {
                partners[first] = Some(index);
                Ok(true)
            }
        },
    }
}

/// A bracket counts where its class is still ON.
fn neutral_bracket(class: Class, bracket: Option<Bracket>) -> Option<Bracket>
    ensures { result ≡ neutral_bracket class bracket }
{
    match class {
        Class::ON => bracket,
        _ => None,
    }
}

/// The index of the last open bracket that `closing` closes, which is taken with those that were opened after it.
fn take_opening(opened: &mut Vec<(char, usize)>, closing: char) -> Option<usize>
    ensures { MatchOption result
        ((matching_opening closing (reverse opened.old.items) ≡ None) × (opened.new.items ≡ opened.old.items))
        (λ first. matching_opening closing (reverse opened.old.items) ≡ Some (first, reverse opened.new.items)) }
{
    let mut above = opened.len();
    while above > 0 {
        above -= 1;
        let (character, first) = opened[above];
        if character == closing {
            opened.truncate(above);
            return Some(first);
        }
    }
    None
}

/// N0: the pairs of brackets take a direction, in the order of their opening brackets.
fn resolve_pairs(
    own: bool,
    sos: bool,
    given: &[Class],
    partners: &[Option<usize>],
    classes: &mut [Class],
)
    requires long { length given.now ≡ length classes.old }
    requires partners { length partners.now ≡ length classes.old }
    ensures { classes.new ≡ n0 own sos (map is_nonspacing given.now) (listed_pairs 0 partners.now) classes.old }
{
    for first in 0..partners.len() {
        if let Some(last) = partners[first] {
            resolve_pair(own, sos, given, first, last, classes);
        }
    }
}

/// N0: one pair.
fn resolve_pair(
    own: bool,
    sos: bool,
    given: &[Class],
    first: usize,
    last: usize,
    classes: &mut [Class],
)
    requires long { length given.now ≡ length classes.old }
    requires opening { first < length classes.old }
    ensures { classes.new ≡ n0 own sos (map is_nonspacing given.now) ((first, last) ∷ []) classes.old }
{
    if let Some(right_to_left) = direction_of(own, sos, first, last, classes) {
        let class = strong_class(right_to_left);
        set_bracket(first, class, given, classes);
        set_bracket(last, class, given, classes);
    }
}

/// N0: the direction that the pair of brackets at two indexes gets.
#[tactic(auto, using(crate::proofs::BracketsSet::inside_is))]
fn direction_of(own: bool, sos: bool, first: usize, last: usize, classes: &[Class]) -> Option<bool>
    requires { first < length classes.now }
    ensures { result ≡ pair_direction own sos (drop (suc first) (take last classes.now)) (take first classes.now) }
{
    let end = last.min(classes.len());
    let start = (first + 1).min(end);
    pair_direction(own, sos, &classes[start..end], &classes[..first])
}

/// N0: the direction that a pair gets, by what stands inside and before it.
fn pair_direction(own: bool, sos: bool, inside: &[Class], before: &[Class]) -> Option<bool>
    ensures { result ≡ pair_direction own sos inside.now before.now }
{
    if has_direction(own, inside) {
        Some(own)
    } else if has_direction(!own, inside) {
        Some(last_direction(sos, before))
    } else {
        None
    }
}

/// Whether one of the classes counts as the direction.
fn has_direction(direction: bool, classes: &[Class]) -> bool
    ensures { result ≡ list_any (is_direction direction) classes.now }
{
    classes.iter().any(|class| is_direction(direction, *class))
}

/// The last direction of some classes, or that before them.
#[tactic(auto, using(crate::proofs::LastOpened::last_direction_some, crate::proofs::LastOpened::last_direction_none))]
fn last_direction(before: bool, classes: &[Class]) -> bool
    ensures { result ≡ last_direction before classes.now }
{
    let mut index = classes.len();
    while index > 0 {
        index -= 1;
        if let Some(direction) = class_direction(classes[index]) {
            return direction;
        }
    }
    before
}

/// The direction that a class counts as, EN and AN as R; true is from right to left.
pub(crate) fn class_direction(class: Class) -> Option<bool>
    ensures { result ≡ class_direction class }
{
    match class {
        Class::L => Some(false),
        Class::R | Class::EN | Class::AN => Some(true),
        _ => None,
    }
}

fn is_direction(direction: bool, class: Class) -> bool
    ensures { result ≡ is_direction direction class }
{
    match class_direction(class) {
        Some(other) => if direction { other } else { !other },
        None => false,
    }
}

/// The class of a direction.
pub(crate) fn strong_class(right_to_left: bool) -> Class
    ensures { result ≡ strong_class right_to_left }
{
    if right_to_left { Class::R } else { Class::L }
}

fn is_nonspacing(class: Class) -> bool
    ensures { result ≡ is_nonspacing class }
{
    match class {
        Class::NSM => true,
        _ => false,
    }
}

/// N0: a bracket gets a class, and with it what was NSM directly after it.
#[tactic(auto, using(crate::proofs::BracketsSet::set_bracket_past, crate::proofs::BracketsSet::set_bracket_at, crate::proofs::BracketsSet::nonspacing_set, crate::proofs::BracketsSet::nonspacing_ends))]
fn set_bracket(index: usize, class: Class, given: &[Class], classes: &mut [Class])
    requires { length given.now ≡ length classes.old }
    ensures { classes.new ≡ set_bracket index class (map is_nonspacing given.now) classes.old }
{
    if index >= classes.len() {
        return;
    }
    classes[index] = class;
    let mut next = index + 1;
    while next < classes.len() && is_nonspacing(given[next]) {
        classes[next] = class;
        next += 1;
    }
}
