//! How many open elements have a name.
ghost use Rattle.std.specs.Prelude.{◌≡◌, ◌∷◌, [], ℕ, List, OnOk};
ghost use Rattle.bidi_preview.specs.NameCounts.{HasCounts, SetsCount, count_in};

use crate::names::copy;
use soy_base::OutOfMemory;
use std::alloc::Global;
use std::collections::BTreeMap;

/// How many open elements have each name, so that an end tag whose name is open nowhere costs no walk over them.
#[derive(Debug, Drop)]
pub(crate) struct OpenNames {
    counts: BTreeMap<Vec<char>, usize>,
}

impl OpenNames {
    /// No element is open. Takes no memory.
    #[tactic(auto, using(crate::proofs::CountedNames::empty_counts))]
    pub(crate) fn none(alloc: Global) -> OpenNames
        ensures { HasCounts result.counts [] }
    {
        OpenNames {
            counts: BTreeMap::new(alloc),
        }
    }

    /// How many open elements have a name.
    pub(crate) fn count(&self, name: &Vec<char>) -> usize
        ensures { result ≡ count_in self.now.counts name.now }
    {
        self.counts.get(name).copied().unwrap_or(0)
    }

    #[tactic(auto, using(crate::proofs::CountedNames::sets_count))]
    fn set(&mut self, name: Vec<char>, count: usize) -> Result<(), OutOfMemory>
        ensures { OnOk result (SetsCount name count self.old.counts self.new.counts) }
    {
        self.counts.insert(name, count)?;
        Ok(())
    }

    /// An element of a name is opened.
    #[tactic(auto, using(crate::proofs::CountedNames::count_added))]
    pub(crate) fn add(&mut self, alloc: Global, name: &Vec<char>) -> Result<(), OutOfMemory>
        ensures { OnOk result ((names : List (List ℕ)) → HasCounts self.old.counts names
            → HasCounts self.new.counts (name.now.items ∷ names)) }
    {
        match self.count(name).checked_add(1) {
            Some(count) => {
                self.set(copy(alloc, name)?, count)?;
                Ok(())
            }
            None => Err(OutOfMemory),
        }
    }

    /// The innermost element, of a name, is closed.
    #[tactic(auto, using(crate::proofs::CountedNames::count_removed))]
    pub(crate) fn remove(&mut self, name: Vec<char>) -> Result<(), OutOfMemory>
        ensures { OnOk result ((names : List (List ℕ)) → HasCounts self.old.counts (name.items ∷ names)
            → HasCounts self.new.counts names) }
    {
        let count = self.count(&name).saturating_sub(1);
        self.set(name, count)?;
        Ok(())
    }
}
