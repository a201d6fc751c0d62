//! The texts that are being gathered, one in another.

ghost use Rattle.std.specs.Prelude.{◌≡◌, [], ◌∷◌, IfOk, OnOk, OnErr};
ghost use Rattle.render_core.specs.Texts.{added, innermost, is_none, past_innermost};

use soy_base::{OutOfMemory, Text};
use std::alloc::Global;
use std::marker::Model;

/// The texts that are being gathered, which contracts see as a list with the innermost first.
#[derive(Drop)]
pub(crate) struct Texts {
    innermost: Option<Text>,
    /// Those around it, the outermost first.
    outer: Vec<Text>,
}

impl Model for Texts {
    ghost use Rattle.std.specs.Prelude.{ℕ, List};
    ghost use Rattle.render_core.specs.Texts.{NoneAround, texts_of};

    ghost Value = { List (List ℕ) };

    ghost view = { λ s. texts_of s.innermost s.outer.items };

    ghost invariant = { λ s. NoneAround s.innermost s.outer.items };
}

impl Texts {
    /// Where nothing is gathered. Takes no memory.
    pub(crate) fn none(alloc: Global) -> Texts
        ensures { result ≡ [] }
    {
        Texts {
            innermost: None,
            outer: Vec::new(alloc),
        }
    }

    /// Whether nothing is gathered.
    pub(crate) fn is_empty(&self) -> bool
        ensures { result ≡ is_none self.now }
    {
        self.innermost.is_none()
    }

    /// Begins to gather a text.
    pub(crate) fn begin(&mut self, alloc: Global) -> Result<(), OutOfMemory>
        ensures ok { OnOk result (self.new ≡ [] ∷ self.old) }
        ensures unchanged { OnErr result (self.new ≡ self.old) }
    {
        match self.innermost.take() {
            Some(text) => match self.outer.push(text) {
                Ok(()) => {
                    self.innermost = Some(Text::empty(alloc));
                    Ok(())
                }
                Err(failed) => {
                    self.innermost = Some(failed.value);
                    Err(OutOfMemory)
                }
            },
            None => {
                self.innermost = Some(Text::empty(alloc));
                Ok(())
            }
        }
    }

    /// Adds to the innermost text.
    pub(crate) fn append(&mut self, more: &Text) -> Result<(), OutOfMemory>
        ensures ok { OnOk result (self.new ≡ added self.old more.now) }
        ensures unchanged { OnErr result (self.new ≡ self.old) }
    {
        match &mut self.innermost {
            Some(text) => text.append(more),
            None => Ok(()),
        }
    }

    /// The innermost text.
    pub(crate) fn copy_top(&self, alloc: Global) -> Result<Text, OutOfMemory>
        ensures { IfOk result (λ t. t ≡ innermost self.now) }
    {
        match &self.innermost {
            Some(text) => text.copy(alloc),
            None => Ok(Text::empty(alloc)),
        }
    }

    /// Ends the innermost text.
    pub(crate) fn end(&mut self)
        ensures { self.new ≡ past_innermost self.old }
    {
        if self.innermost.is_some() {
            self.innermost = self.outer.pop();
        }
    }
}
