//! Names in a list, and where a name first stands there.

ghost use Rattle.std.specs.Prelude.{◌≡◌, map, IfOk, OnOk};
ghost use Rattle.soy_rules.specs.FirstNames.{AddsFirst, HasFirsts, first_number};

use soy_base::{OutOfMemory, Text};
use std::alloc::Global;
use std::collections::HashMap;
use std::marker::Model;

/// Names, which contracts see as their list. The first of a name is found without a walk over the list.
#[derive(Drop)]
pub struct Names<'a> {
    names: Vec<&'a Text>,
    numbers: HashMap<&'a str, usize>,
}

impl<'a> Model for Names<'a> {
    ghost use Rattle.std.specs.Prelude.{List, ℕ, map};
    ghost use Rattle.soy_rules.specs.FirstNames.{HasFirsts};

    ghost Value = { List (List ℕ) };

    ghost view = { λ s. map (λ name. name.now) s.names.items };

    ghost invariant = { λ s. HasFirsts s.numbers (map (λ name. name.now) s.names.items) };
}

impl<'a> Names<'a> {
    /// These names.
    pub fn new(alloc: Global, names: Vec<&'a Text>) -> Result<Names<'a>, OutOfMemory>
        ensures { IfOk result (λ all. all ≡ map (λ name. name.now) names.entry.items) }
    {
        let numbers = first_numbers(alloc, names.as_slice())?;
        Ok(Names { names, numbers })
    }

    /// How many names stand before the first that is this one.
    pub fn number(&self, name: &Text) -> Option<usize>
        ensures { result ≡ first_number name.now self.now }
    {
        self.numbers.get(name.text()).copied()
    }
}

/// The number of each name, of several that are the same that of the first.
fn first_numbers<'a>(
    alloc: Global,
    names: &[&'a Text],
) -> Result<HashMap<&'a str, usize>, OutOfMemory>
    ensures { IfOk result (λ numbers. HasFirsts numbers (map (λ name. name.now) names.now)) }
{
    let mut numbers = HashMap::new(alloc);
    for (number, name) in names.iter().enumerate() {
        add_first(&mut numbers, name.text(), number)?;
    }
    Ok(numbers)
}

/// Adds the number of a name, unless it has one.
fn add_first<'a>(
    numbers: &mut HashMap<&'a str, usize>,
    name: &'a str,
    number: usize,
) -> Result<(), OutOfMemory>
    ensures { OnOk result (AddsFirst name.entry number numbers.old numbers.new) }
{
    if numbers.contains_key(name) {
        return Ok(());
    }
    numbers.insert(name, number)?;
    Ok(())
}
