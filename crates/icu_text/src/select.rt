//! A select that is open: its arms and its end.

ghost use Rattle.std.specs.Prelude.{◌≡◌, IfOk, codes};
ghost use Rattle.std.specs.Str.{chars};
ghost use Rattle.soy_tree.specs.ViewMessageParts.{parts_of};
ghost use Rattle.icu_text.specs.FirstArms.{has_word};
ghost use Rattle.icu_text.specs.PatternSteps.{new_select, with_word};
ghost use Rattle.icu_text.specs.Pieces.{end_select_piece, view_piece, word_piece};
ghost use Rattle.icu_text.specs.Words.{view_word};

use crate::reader::{Next, Reader};
use crate::rows::{Parts, SelectArms};
use crate::state::{Frame, OpenSelect};
use crate::word::Word;
use soy_base::{OutOfMemory, Text, text_of};
use soy_tree::{MsgPart, SelectPart};
use std::alloc::Global;

impl OpenSelect {
    /// A select without arms. Takes no memory.
    pub fn new(alloc: Global, before: Parts, name: Text) -> OpenSelect
        ensures { result ≡ new_select (record { before = before; name = name }) }
    {
        OpenSelect {
            before,
            name,
            arms: SelectArms::empty(alloc),
        }
    }

    /// Whether there is an arm for other.
    fn has_other(&self) -> bool
        ensures { result ≡ has_word (codes "other") self.now.arms }
    {
        self.arms.has("other")
    }

    /// With an arm more, if none is there for its word.
    pub fn with_word(
        self,
        alloc: Global,
        word: Text,
        parts: Parts,
    ) -> Result<OpenSelect, OutOfMemory>
        ensures { IfOk result (λ s. s ≡ with_word self word (parts_of parts)) }
    {
        Ok(OpenSelect {
            arms: self.arms.with(alloc, word, parts)?,
            ..self
        })
    }
}

impl Reader {
    /// Opens an arm of a select, or ends the select.
    pub fn read_word_arm<'a>(
        &mut self,
        alloc: Global,
        select: OpenSelect,
        word: Word<'a>,
    ) -> Result<Next<'a>, OutOfMemory>
        ensures { IfOk result (λ to. view_piece self.new to ≡ word_piece self.old select (view_word word.entry)) }
    {
        match word {
            Word::Arm(word, rest) => {
                let word = text_of(alloc, word)?;
                self.frames.push(Frame::Select(select, word))?;
                Ok(Next::On(rest))
            }
            Word::End(text, rest) => self.end_select(select, text, rest),
            Word::Stuck(rest) => {
                drop(select);
                Ok(Next::Stuck(rest))
            }
        }
    }

    /// Ends a select, which has to have an arm for other.
    #[inline(never)]
    fn end_select<'a>(
        &mut self,
        select: OpenSelect,
        text: &'a str,
        rest: &'a str,
    ) -> Result<Next<'a>, OutOfMemory>
        ensures { IfOk result (λ to. view_piece self.new to
            ≡ end_select_piece self.old select (chars text.now) (chars rest.now)) }
    {
        if !select.has_other() {
            drop(select);
            return Ok(Next::Stuck(text));
        }
        let OpenSelect { before, name, arms } = select;
        let mut before = before;
        before.push(MsgPart::Select(SelectPart {
            name,
            arms: arms.done(),
        }))?;
        self.parts = before;
        Ok(Next::On(rest))
    }
}
