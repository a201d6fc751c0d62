//! Names that are known, among which others are looked for.

ghost use Rattle.std.specs.Prelude.{◌≡◌, map, IfOk};
ghost use Rattle.soy_rules.specs.Bodies.{names_given};
ghost use Rattle.soy_tree.specs.ViewNodes.{view_arguments};
ghost use Rattle.ir_build.specs.KnownNames.{is_known, known_names, param_names};

use soy_base::{OutOfMemory, Text};
use soy_rules::Names;
use soy_tree::{Argument, Param};
use std::alloc::Global;

/// From so many names on an index is made: a walk over fewer takes no longer.
const MANY: usize = 32;

/// Names that are known.
#[derive(Drop)]
pub(crate) enum KnownNames<'a> {
    /// Few, over which a walk goes.
    Few(Vec<&'a Text>),
    Many(Names<'a>),
}

impl<'a> KnownNames<'a> {
    /// The names of parameters.
    pub(crate) fn of_params(
        alloc: Global,
        params: &'a [Param],
    ) -> Result<KnownNames<'a>, OutOfMemory>
        ensures { IfOk result (λ known. known_names known ≡ param_names params.now) }
    {
        let mut names = Vec::with_capacity(alloc, params.len())?;
        for param in params {
            names.push(&param.name)?;
        }
        KnownNames::new(alloc, names)
    }

    /// The names of the parameters that a call gives.
    pub(crate) fn of_given(
        alloc: Global,
        given: &'a [Argument],
    ) -> Result<KnownNames<'a>, OutOfMemory>
        ensures { IfOk result (λ known. known_names known ≡ names_given (view_arguments given.now)) }
    {
        let mut names = Vec::with_capacity(alloc, given.len())?;
        for argument in given {
            names.push(&argument.name)?;
        }
        KnownNames::new(alloc, names)
    }

    /// These names.
    fn new(alloc: Global, names: Vec<&'a Text>) -> Result<KnownNames<'a>, OutOfMemory>
        ensures { IfOk result (λ known. known_names known ≡ map (λ name. name.now) names.entry.items) }
    {
        if names.len() < MANY {
            Ok(KnownNames::Few(names))
        } else {
            Ok(KnownNames::Many(Names::new(alloc, names)?))
        }
    }

    /// Whether a name is one of them.
    #[tactic(auto, using(crate::proofs::KnownNames::known_first))]
    pub(crate) fn has(&self, name: &Text) -> bool
        ensures { result ≡ is_known name.now (known_names self.now) }
    {
        match self {
            KnownNames::Few(names) => is_one(names.as_slice(), name),
            KnownNames::Many(names) => names.number(name).is_some(),
        }
    }
}

/// Whether a name is one of these.
fn is_one(names: &[&Text], name: &Text) -> bool
    ensures { result ≡ is_known name.now (map (λ known. known.now) names.now) }
{
    for known in names {
        if known.is(name.text()) {
            return true;
        }
    }
    false
}
