//! The variables of all frames.

ghost use Rattle.std.specs.Prelude.{◌≡◌, ◌<◌, ◌≤◌, ◌+◌, ◌∷◌, ◌++◌, ℕ, List, [], true, IfOk, IfSome, OnOk, OnErr};
ghost use Rattle.std.specs.Prelude.{length, option_map, slice_get, take};
ghost use Rattle.render_core.specs.Keys.{agreed, fits_key};
ghost use Rattle.render_core.specs.Linked.{Adds, Leads, LeadsTo, Passes, bound_over};
ghost use Rattle.render_core.specs.Variables.{name_or_none, name_there};
ghost use Rattle.render_core.specs.declared.held.Bound as code_bound;

use crate::held::{Bound, Held, Naming};
use crate::links::{Levels, Links, agreed, lowered};
use crate::names::{name_fingerprint, name_key};
use crate::scene::Scene;
use soy_base::{Boxed, OutOfMemory};
use std::alloc::Global;
use std::marker::Model;

/// The variables of all frames, which contracts see as a list, the first that was bound first. The search for one takes
/// as many steps as the number of those that are visible has digits, or somewhat more.
#[derive(Drop)]
pub(crate) struct VariableStack {
    bound: Vec<Bound>,
}

impl Model for VariableStack {
    ghost use Rattle.std.specs.Prelude.{List};
    ghost use Rattle.render_core.specs.Linked.{IsLinked};
    ghost use Rattle.render_core.specs.declared.held.Bound.{Bound};

    ghost Value = { List Bound };

    ghost view = { λ s. s.bound.items };

    ghost invariant = { λ s. IsLinked s.bound.items };
}

impl VariableStack {
    /// No variables, with room for as many as most templates see at a time.
    pub(crate) fn with_room(alloc: Global) -> Result<VariableStack, OutOfMemory>
        ensures { IfOk result (λ s. s ≡ []) }
    {
        let bound = Vec::with_capacity(alloc, 32)?;
        Ok(VariableStack { bound })
    }

    /// How many there are.
    pub(crate) fn len(&self) -> usize
        ensures { result ≡ length self.now }
    {
        self.bound.as_slice().len()
    }

    /// The variable at a place.
    pub(crate) fn at(&self, at: usize) -> Option<&Bound>
        ensures { option_map (λ b. b.now) result ≡ slice_get self.now at }
    {
        self.bound.as_slice().get(at)
    }

    /// The same, with what is known of its links.
    pub(crate) fn linked_at(&self, at: usize) -> Option<&Bound>
        ensures there { option_map (λ b. b.now) result ≡ slice_get self.now at }
        ensures leads { IfSome result (λ b. Leads (take at self.now) b.now.links b.now.below) }
    {
        self.bound.as_slice().get(at)
    }

    /// Only so many of the first.
    #[tactic(auto, using(crate::proofs::Linking::linked_first))]
    pub(crate) fn truncate(&mut self, count: usize)
        ensures { self.new ≡ take count self.old }
    {
        self.bound.truncate(count);
    }

    /// One more variable over those of a number; the number of the variables from it down is given.
    pub(crate) fn bind(
        &mut self,
        scene: &Scene,
        name: Naming,
        to: Held,
        below: usize,
    ) -> Result<usize, OutOfMemory>
        ensures ok { OnOk result (Adds scene.now.program.now
            (bound_over name to below) self.old self.new) }
        ensures number { IfOk result (λ n. n ≡ length self.old + 1) }
        ensures unchanged { OnErr result (self.new ≡ self.old) }
    {
        let links = match self.links(scene, name, below) {
            Ok(links) => links,
            Err(_) => {
                drop(to);
                return Err(OutOfMemory);
            }
        };
        self.push(Bound {
            name,
            to,
            below,
            links,
        })
    }

    /// Puts a variable on the others.
    #[tactic(auto, using(crate::proofs::Linking::linked_more))]
    fn push(&mut self, variable: Bound) -> Result<usize, OutOfMemory>
        requires { Leads self.old variable.links variable.below }
        ensures ok { OnOk result (self.new ≡ self.old ++ variable ∷ []) }
        ensures number { IfOk result (λ n. n ≡ length self.old + 1) }
        ensures unchanged { OnErr result (self.new ≡ self.old) }
    {
        match self.bound.push(variable) {
            Ok(()) => Ok(self.bound.as_slice().len()),
            Err(failed) => {
                drop(failed);
                Err(OutOfMemory)
            }
        }
    }

    /// The links of a variable over those of a number.
    fn links(&self, scene: &Scene, name: Naming, below: usize) -> Result<Links, OutOfMemory>
        ensures key { IfOk result (λ l. fits_key l (name_or_none (name_there scene.now.program.now name)) ≡ true) }
        ensures leads { IfOk result (λ l. Leads self.now l below) }
    {
        match self.few(below) {
            Some(count) => Ok(Links::Few(count, name_fingerprint(scene.program, name))),
            None => {
                let key = name_key(scene.program, name);
                let levels = self.levels(scene.alloc, key, below)?;
                Ok(Links::Many(Boxed::new(scene.alloc, levels)?))
            }
        }
    }

    /// How many variables are visible from one down that is over those of a number, where they are few.
    fn few(&self, below: usize) -> Option<u8> {
        if below == 0 {
            return Some(1);
        }
        match &self.at(below - 1)?.links {
            Links::Few(count, _) => { if *count < 8 { Some(*count + 1) } else { None } }
            Links::Many(_) => None,
        }
    }

    /// The links by a key, over the variables of a number. They are made from those of the variables that a search for
    /// a name of the key comes to.
    fn levels(&self, alloc: Global, key: u64, below: usize) -> Result<Levels, OutOfMemory>
        ensures key { IfOk result (λ l. l.key ≡ key) }
        ensures leads { IfOk result (λ l. LeadsTo self.now key l.to.items l.last below) }
    {
        let mut to = Vec::with_capacity(alloc, 16)?;
        let mut last = below;
        while let Some(other) = self.levels_at(last) {
            let count = agreed(key, other.key);
            copy_levels(key, other, last, count, &mut to)?;
            if count >= 32 {
                break;
            }
            last = next_level(key, other, last, count, &mut to)?;
        }
        Ok(Levels { key, to, last })
    }

    /// The links of the first of the variables of a number, if many are visible from it down.
    #[tactic(auto, using(crate::proofs::Linking::passes))]
    fn levels_at(&self, number: usize) -> Option<&Levels>
        ensures some { IfSome result (λ l. 0 < number) }
        ensures passes { IfSome result (λ l. Passes self.now number l.now) }
    {
        if number == 0 {
            return None;
        }
        match self.linked_at(number - 1) {
            Some(variable) => variable.links.levels(),
            None => None,
        }
    }
}

/// Copies the levels up to a number of bits from the links of the first of the variables of a number, of whose key a key
/// agrees with so many.
#[tactic(auto, using(crate::proofs::Linking::copied_level))]
fn copy_levels(
    key: u64,
    other: &Levels,
    number: usize,
    count: usize,
    to: &mut Vec<usize>,
) -> Result<(), OutOfMemory>
    requires { count ≡ agreed 32 key other.now.key }
    ensures leads { OnOk result ((bound : List code_bound.Bound) (below : ℕ) → Passes bound number other.now
        → LeadsTo bound key to.old.items number below → LeadsTo bound key to.new.items number below) }
    ensures count { OnOk result (count ≤ length to.new.items) }
{
    while to.len() < count {
        to.push(lowered(number, other.at(to.len())))?;
    }
    Ok(())
}

/// The number of the variables from which a search goes on past one, whose level is put after those before it.
#[tactic(auto, using(crate::proofs::Linking::placed_level, crate::proofs::Linking::passed_level))]
fn next_level(
    key: u64,
    other: &Levels,
    number: usize,
    count: usize,
    to: &mut Vec<usize>,
) -> Result<usize, OutOfMemory>
    requires count { count ≡ agreed 32 key other.now.key }
    requires length { count ≤ length to.old.items }
    requires some { 0 < number }
    ensures leads { IfOk result (λ n. (bound : List code_bound.Bound) (below : ℕ) → Passes bound number other.now
        → LeadsTo bound key to.old.items number below → LeadsTo bound key to.new.items n below) }
    ensures lower { IfOk result (λ n. n < number) }
{
    if to.len() == count {
        to.push(number)?;
    }
    Ok(lowered(number, other.at(count)))
}
