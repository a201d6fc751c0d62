//! A brace that ends the text of an arm, and a number sign.

ghost use Rattle.std.specs.Prelude.{◌≡◌, [], IfOk, Ok};
ghost use Rattle.std.specs.Str.{chars};
ghost use Rattle.icu_text.specs.Pieces.{close_piece, key_piece, number_sign_piece, view_piece, without_text, word_piece};
ghost use Rattle.icu_text.specs.Keys.{key_read};
ghost use Rattle.icu_text.specs.Words.{word_read};
ghost use Rattle.icu_text.specs.PatternSteps.{finished, with_arm, with_word};
ghost use Rattle.soy_tree.specs.ViewMessageParts.{parts_of};

use crate::key::read_key;
use crate::reader::{Next, Reader};
use crate::rows::Parts;
use crate::state::{ArmKey, Frame, OpenPlural, OpenSelect};
use crate::word::read_word;
use soy_base::{OutOfMemory, Text};
use soy_tree::MsgPart;
use std::alloc::Global;
use std::mem::replace;

impl Reader {
    /// The parts of a text that ends, which leaves none.
    fn take_parts(&mut self, alloc: Global) -> Result<Parts, OutOfMemory>
        ensures { IfOk result (λ parts. (parts ≡ finished self.old.parts self.old.text)
            × (self.new ≡ without_text self.old)) }
    {
        self.flush(alloc)?;
        Ok(replace(&mut self.parts, Parts::empty(alloc)))
    }

    /// Reads on after a `}`, which ends an arm, or is text outside all braces.
    #[inline(never)]
    pub fn read_close<'a>(&mut self, alloc: Global, text: &'a str) -> Result<Next<'a>, OutOfMemory>
        ensures { IfOk result (λ to. view_piece self.new to ≡ close_piece self.old (chars text.now)) }
    {
        match self.frames.pop() {
            None => self.add('}', text),
            Some(Frame::Plural(plural, key)) => self.close_plural_arm(alloc, plural, key, text),
            Some(Frame::Select(select, word)) => self.close_select_arm(alloc, select, word, text),
        }
    }

    /// Ends an arm of a plural, and reads on in the plural.
    #[inline(never)]
    fn close_plural_arm<'a>(
        &mut self,
        alloc: Global,
        plural: OpenPlural,
        key: ArmKey,
        text: &'a str,
    ) -> Result<Next<'a>, OutOfMemory>
        ensures { IfOk result (λ to. view_piece self.new to ≡ key_piece (without_text self.old)
            (with_arm plural key (parts_of (finished self.old.parts self.old.text))) (key_read (chars text.now))) }
    {
        match self.take_parts(alloc) {
            Ok(parts) => {
                let plural = plural.with_arm(key, parts)?;
                self.read_arm(plural, read_key(text))
            }
            Err(error) => {
                drop(plural);
                Err(error)
            }
        }
    }

    /// Ends an arm of a select, and reads on in the select.
    #[inline(never)]
    fn close_select_arm<'a>(
        &mut self,
        alloc: Global,
        select: OpenSelect,
        word: Text,
        text: &'a str,
    ) -> Result<Next<'a>, OutOfMemory>
        ensures { IfOk result (λ to. view_piece self.new to ≡ word_piece (without_text self.old)
            (with_word select word (parts_of (finished self.old.parts self.old.text))) (word_read (chars text.now))) }
    {
        match self.take_parts(alloc) {
            Ok(parts) => {
                let select = select.with_word(alloc, word, parts)?;
                self.read_word_arm(alloc, select, read_word(text))
            }
            Err(error) => {
                drop(select);
                Err(error)
            }
        }
    }

    /// Reads on after a `#`, which is the number directly in an arm of a plural, and otherwise text.
    pub fn read_number_sign<'a>(
        &mut self,
        alloc: Global,
        text: &'a str,
    ) -> Result<Next<'a>, OutOfMemory>
        ensures { IfOk result (λ to. view_piece self.new to ≡ number_sign_piece self.old (chars text.now)) }
    {
        match self.frames.top() {
            None => self.add('#', text),
            Some(Frame::Select(_, _)) => self.add('#', text),
            Some(Frame::Plural(_, _)) => {
                self.flush(alloc)?;
                self.parts.push(MsgPart::Number)?;
                Ok(Next::On(text))
            }
        }
    }
}
