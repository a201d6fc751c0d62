//! A plural that is open: its arms, its offset and its end.

ghost use Rattle.std.specs.Prelude.{◌≡◌, IfOk};
ghost use Rattle.std.specs.Str.{chars};
ghost use Rattle.soy_tree.specs.ViewMessageParts.{parts_of};
ghost use Rattle.icu_text.specs.Keys.{view_digits, view_first_key, view_key};
ghost use Rattle.icu_text.specs.PatternSteps.{new_plural, with_arm, with_offset};
ghost use Rattle.icu_text.specs.Pieces.{end_plural_piece, first_key_piece, key_piece, offset_piece, view_piece};

use crate::key::{FirstKey, Key, read_key};
use crate::number::{Digits, read_number};
use crate::reader::{Next, Reader};
use crate::rows::{ExactArms, NamedArms, Parts};
use crate::scan::after_space;
use crate::state::{ArmKey, Frame, OpenPlural};
use plural_rules::Category;
use soy_base::{OutOfMemory, Text};
use soy_tree::{MsgPart, PluralPart};
use std::alloc::Global;

impl OpenPlural {
    /// A plural without arms. Takes no memory.
    pub fn new(alloc: Global, ordinal: bool, before: Parts, name: Text) -> OpenPlural
        ensures { result ≡ new_plural ordinal (record { before = before; name = name }) }
    {
        OpenPlural {
            before,
            ordinal,
            name,
            offset: 0,
            exact: ExactArms::empty(alloc),
            named: NamedArms::empty(alloc),
        }
    }

    /// With an arm more, if none is there for its key.
    pub fn with_arm(self, key: ArmKey, parts: Parts) -> Result<OpenPlural, OutOfMemory>
        ensures { IfOk result (λ p. p ≡ with_arm self key (parts_of parts)) }
    {
        match key {
            ArmKey::Exact(is) => Ok(OpenPlural {
                exact: self.exact.with(is, parts)?,
                ..self
            }),
            ArmKey::Named(category) => {
                let mut plural = self;
                match plural.named.add(category, parts) {
                    Ok(()) => Ok(plural),
                    Err(error) => {
                        drop(plural);
                        Err(error)
                    }
                }
            }
        }
    }

    /// With this offset.
    fn with_offset(self, offset: u64) -> OpenPlural
        ensures { result ≡ with_offset self offset }
    {
        OpenPlural { offset, ..self }
    }
}

impl Reader {
    /// Opens the first arm of a plural, or reads its offset.
    pub fn read_first_arm<'a>(
        &mut self,
        plural: OpenPlural,
        key: FirstKey<'a>,
    ) -> Result<Next<'a>, OutOfMemory>
        ensures { IfOk result (λ to. view_piece self.new to
            ≡ first_key_piece self.old plural (view_first_key key.entry)) }
    {
        match key {
            FirstKey::Offset(rest) => self.read_offset(plural, read_number(after_space(rest))),
            FirstKey::Key(key) => self.read_arm(plural, key),
        }
    }

    /// Sets the offset of a plural, and reads on in the plural.
    #[inline(never)]
    fn read_offset<'a>(
        &mut self,
        plural: OpenPlural,
        digits: Digits<'a>,
    ) -> Result<Next<'a>, OutOfMemory>
        ensures { IfOk result (λ to. view_piece self.new to
            ≡ offset_piece self.old plural (view_digits digits.entry)) }
    {
        match digits {
            Digits::Number(number, rest) => {
                self.read_arm(plural.with_offset(number.value()), read_key(rest))
            }
            Digits::Stuck(rest) => {
                drop(plural);
                Ok(Next::Stuck(rest))
            }
        }
    }

    /// Opens an arm of a plural, or ends the plural.
    pub fn read_arm<'a>(
        &mut self,
        plural: OpenPlural,
        key: Key<'a>,
    ) -> Result<Next<'a>, OutOfMemory>
        ensures { IfOk result (λ to. view_piece self.new to ≡ key_piece self.old plural (view_key key.entry)) }
    {
        match key {
            Key::Arm(key, rest) => {
                self.frames.push(Frame::Plural(plural, key))?;
                Ok(Next::On(rest))
            }
            Key::End(text, rest) => self.end_plural(plural, text, rest),
            Key::Stuck(rest) => {
                drop(plural);
                Ok(Next::Stuck(rest))
            }
        }
    }

    /// Ends a plural, which has to have an arm for other.
    #[inline(never)]
    fn end_plural<'a>(
        &mut self,
        plural: OpenPlural,
        text: &'a str,
        rest: &'a str,
    ) -> Result<Next<'a>, OutOfMemory>
        ensures { IfOk result (λ to. view_piece self.new to
            ≡ end_plural_piece self.old plural (chars text.now) (chars rest.now)) }
    {
        if !plural.named.has(Category::Other) {
            drop(plural);
            return Ok(Next::Stuck(text));
        }
        let OpenPlural {
            before,
            ordinal,
            name,
            offset,
            exact,
            named,
        } = plural;
        let mut before = before;
        before.push(MsgPart::Plural(PluralPart {
            ordinal,
            name,
            offset,
            exact: exact.done(),
            named: named.done(),
        }))?;
        self.parts = before;
        Ok(Next::On(rest))
    }
}
