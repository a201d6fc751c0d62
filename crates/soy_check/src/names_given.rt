//! The names that the params of a call give.

ghost use Rattle.std.specs.Prelude.{◌≡◌, IfOk};
ghost use Rattle.soy_rules.specs.Bodies.{names_given};
ghost use Rattle.soy_base.specs.Among.{is_among};
ghost use Rattle.soy_tree.specs.ViewNodes.{view_arguments};
ghost use Rattle.soy_check.specs.Named.{HasNames};

use crate::names::Names;
use soy_base::{OutOfMemory, Text};
use soy_tree::Argument;
use std::alloc::Global;

/// The params of a call, with a set of their names.
#[derive(Drop)]
pub(crate) struct NamesGiven<'b> {
    given: &'b [Argument],
    names: Names<'b>,
    ghost same: { HasNames names (names_given (view_arguments given.now)) },
}

impl<'b> NamesGiven<'b> {
    /// The names of these params.
    pub(crate) fn of(alloc: Global, given: &'b [Argument]) -> Result<NamesGiven<'b>, OutOfMemory>
        ensures { IfOk result (λ names. names.given.now ≡ given.now) }
    {
        let names = names_of(alloc, given)?;
        Ok(NamesGiven { given, names })
    }

    /// Whether a param has this name.
    pub(crate) fn has(&self, name: &Text) -> bool
        ensures { result ≡ is_among (names_given (view_arguments self.now.given.now)) name.now }
    {
        self.names.has(name)
    }
}

/// The set of the names of params.
fn names_of<'b>(alloc: Global, given: &'b [Argument]) -> Result<Names<'b>, OutOfMemory>
    ensures { IfOk result (λ names. HasNames names (names_given (view_arguments given.now))) }
{
    let mut names = Names::new(alloc);
    for argument in given {
        names.insert(&argument.name)?;
    }
    Ok(names)
}
