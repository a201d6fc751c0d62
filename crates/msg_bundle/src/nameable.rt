//! What a translation may name.

ghost use Rattle.std.specs.Prelude.{◌≡◌, map, IfOk};
ghost use Rattle.soy_base.specs.declared.code.Code.TheVariants as code;
ghost use Rattle.msg_extract.specs.Fits.{unless_among};

use crate::names::unless_among;
use msg_extract::Listed;
use soy_base::{Code, OutOfMemory, Text};
use soy_rules::Names;
use std::alloc::Global;
use std::marker::Model;

/// How many placeholders are compared one by one.
const FEW: usize = 8;

/// A row of a catalogue, which contracts see as itself. A placeholder is found there without a walk over many.
#[derive(Drop)]
pub(crate) struct Nameable<'s> {
    listed: &'s Listed,
    /// The placeholders, if they are many.
    placeholders: Option<Names<'s>>,
}

impl<'s> Model for Nameable<'s> {
    ghost use Rattle.std.specs.Prelude.{◌≡◌, IfSome};
    ghost use Rattle.msg_extract.specs.declared.catalogue.Listed.{Listed};

    ghost Value = { Listed };

    ghost view = { λ s. s.listed.now };

    ghost invariant = { λ s. IfSome s.placeholders (λ names. names ≡ s.listed.now.placeholders) };
}

impl<'s> Nameable<'s> {
    /// That of a row.
    pub(crate) fn new(alloc: Global, listed: &'s Listed) -> Result<Nameable<'s>, OutOfMemory>
        ensures { IfOk result (λ all. all ≡ listed.now) }
    {
        let names = listed.placeholders.items();
        if names.len() <= FEW {
            return Ok(Nameable {
                listed,
                placeholders: None,
            });
        }
        let placeholders = Names::new(alloc, all_names(alloc, names)?)?;
        Ok(Nameable {
            listed,
            placeholders: Some(placeholders),
        })
    }

    /// The row.
    pub(crate) fn row(&self) -> &'s Listed
        ensures { result.now ≡ self.now }
    {
        self.listed
    }

    /// A fault, unless the name is that of a placeholder.
    pub(crate) fn placeholder_fault(&self, name: &Text) -> Option<Code>
        ensures { result ≡ unless_among self.now.placeholders name.now code.Placeholder }
    {
        match &self.placeholders {
            Some(names) => unless_in(names, name, Code::Placeholder),
            None => unless_among(self.listed.placeholders.items(), name, Code::Placeholder),
        }
    }
}

/// A fault, unless the name is among these.
#[tactic(auto, using(crate::proofs::NumberedNames::number_among))]
fn unless_in(names: &Names<'_>, name: &Text, fault: Code) -> Option<Code>
    ensures { result ≡ unless_among names.now name.now fault }
{
    match names.number(name) {
        Some(_) => None,
        None => Some(fault),
    }
}

/// Names, one by one.
fn all_names<'s>(alloc: Global, names: &'s [Text]) -> Result<Vec<&'s Text>, OutOfMemory>
    ensures { IfOk result (λ all. map (λ name. name.now) all.items ≡ names.now) }
{
    let mut all = Vec::new(alloc);
    for name in names {
        all.push(name)?;
    }
    Ok(all)
}
