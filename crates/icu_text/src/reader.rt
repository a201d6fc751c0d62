//! A text that is being read: what is open around it, and what of it was read. Rare arms are functions that aren't
//! inlined, so that `read_piece` stays small.

ghost use Rattle.std.specs.Prelude.{◌≡◌, [], IfOk, OnOk, Ok};
ghost use Rattle.std.specs.Str.{chars};
ghost use Rattle.icu_text.specs.Pieces.{added, after_quote_piece, apostrophe_piece, blank, brace_piece, choice_piece};
ghost use Rattle.icu_text.specs.Pieces.{flushed, head_piece, piece, quoted_piece, special_piece, text_state};
ghost use Rattle.icu_text.specs.Pieces.{view_piece};
ghost use Rattle.icu_text.specs.Heads.{view_head};
ghost use Rattle.icu_text.specs.PatternSteps.{whole_pattern};

use crate::head::{Head, read_head};
use crate::key::read_first_key;
use crate::plain::{is_quotable, is_quoted, split_plain};
use crate::rows::{Characters, Parts};
use crate::state::{ChoiceKind, Frame, OpenPlural, OpenSelect};
use crate::word::read_word;
use soy_base::{OutOfMemory, Stack, first, is_empty, split_while, text_of};
use soy_tree::MsgPart;
use std::alloc::Global;
use std::mem::replace;

/// The most plurals and selects that may be open where an argument begins.
const MOST_OPEN: usize = 63;

/// A text outside all braces or in an arm, and the frames that are open around it.
#[derive(Drop)]
pub struct Reader {
    pub frames: Stack<Frame>,
    /// Its parts so far.
    pub parts: Parts,
    /// The characters after those parts.
    pub text: Characters,
    /// Whether an apostrophe quotes what follows.
    pub quoted: bool,
}

/// What follows a piece of a text, or the text from the character with which no pattern goes on.
#[derive(Clone, Copy)]
pub enum Next<'a> {
    On(&'a str),
    Stuck(&'a str),
}

impl Reader {
    /// Nothing was read yet.
    pub fn start(alloc: Global) -> Reader
        ensures { result ≡ blank [] }
    {
        Reader {
            frames: Stack::empty(alloc),
            parts: Parts::empty(alloc),
            text: Characters::empty(alloc),
            quoted: false,
        }
    }

    /// Reads a piece of a text: characters that stand for themselves, or what one begins that doesn't.
    pub fn read_piece<'a>(&mut self, alloc: Global, text: &'a str) -> Result<Next<'a>, OutOfMemory>
        ensures { IfOk result (λ to. view_piece self.new to ≡ piece self.old (chars text.now)) }
    {
        if self.quoted {
            return self.read_quoted(text);
        }
        let (run, rest) = split_plain(&self.frames, text);
        if is_empty(run) {
            return self.read_special(alloc, rest);
        }
        self.text.push_text(run)?;
        Ok(Next::On(rest))
    }

    /// Reads quoted characters and the apostrophe after them.
    fn read_quoted<'a>(&mut self, text: &'a str) -> Result<Next<'a>, OutOfMemory>
        ensures { IfOk result (λ to. view_piece self.new to ≡ quoted_piece self.old (chars text.now)) }
    {
        let (run, rest) = split_while(text, is_quoted);
        self.text.push_text(run)?;
        match first(rest) {
            None => Ok(Next::On(rest)),
            Some((_, after)) => self.read_after_quote(after),
        }
    }

    /// After an apostrophe in quoted text, which another doubles, and which otherwise ended the quoted text.
    fn read_after_quote<'a>(&mut self, text: &'a str) -> Result<Next<'a>, OutOfMemory>
        ensures { IfOk result (λ to. view_piece self.new to ≡ after_quote_piece self.old (chars text.now)) }
    {
        match first(text) {
            None => {
                self.quoted = false;
                Ok(Next::On(text))
            }
            Some((c, after)) => {
                if c == '\'' {
                    return self.add('\'', after);
                }
                self.quoted = false;
                Ok(Next::On(text))
            }
        }
    }

    /// Adds a character to the text.
    pub fn add<'a>(&mut self, c: char, after: &'a str) -> Result<Next<'a>, OutOfMemory>
        ensures { IfOk result (λ to. view_piece self.new to ≡ Ok (added self.old c, chars after.now)) }
    {
        self.text.push(c)?;
        Ok(Next::On(after))
    }

    /// Reads what a character begins that may not stand for itself.
    fn read_special<'a>(&mut self, alloc: Global, text: &'a str) -> Result<Next<'a>, OutOfMemory>
        ensures { IfOk result (λ to. view_piece self.new to ≡ special_piece self.old (chars text.now)) }
    {
        match first(text) {
            None => Ok(Next::Stuck(text)),
            Some((c, after)) => match c {
                '\'' => self.read_apostrophe(after),
                '{' => self.read_argument(alloc, text, after),
                '}' => self.read_close(alloc, after),
                '#' => self.read_number_sign(alloc, after),
                _ => self.add(c, after),
            },
        }
    }

    /// After an apostrophe outside of quoted text.
    fn read_apostrophe<'a>(&mut self, text: &'a str) -> Result<Next<'a>, OutOfMemory>
        ensures { IfOk result (λ to. view_piece self.new to ≡ apostrophe_piece self.old (chars text.now)) }
    {
        match first(text) {
            None => self.add('\'', text),
            Some((c, after)) => {
                if c == '\'' {
                    return self.add('\'', after);
                }
                if is_quotable(&self.frames, c) {
                    self.quoted = true;
                    return Ok(Next::On(text));
                }
                self.add('\'', text)
            }
        }
    }

    /// Adds the text to the parts, if it has characters.
    pub fn flush(&mut self, alloc: Global) -> Result<(), OutOfMemory>
        ensures { OnOk result (self.new ≡ flushed self.old) }
    {
        let text = replace(&mut self.text, Characters::empty(alloc)).done();
        if !text.is_empty() {
            self.parts.push(MsgPart::Text(text))?;
        }
        Ok(())
    }

    /// Reads an argument after its brace, with which the text begins.
    #[inline(never)]
    fn read_argument<'a>(
        &mut self,
        alloc: Global,
        text: &'a str,
        after: &'a str,
    ) -> Result<Next<'a>, OutOfMemory>
        ensures { IfOk result (λ to. view_piece self.new to
            ≡ brace_piece self.old (chars text.now) (chars after.now)) }
    {
        if self.frames.len() > MOST_OPEN {
            return Ok(Next::Stuck(text));
        }
        self.flush(alloc)?;
        self.read_on(alloc, read_head(after))
    }

    /// Adds a placeholder, or begins a plural or select.
    fn read_on<'a>(&mut self, alloc: Global, head: Head<'a>) -> Result<Next<'a>, OutOfMemory>
        ensures { IfOk result (λ to. view_piece self.new to ≡ head_piece self.old (view_head head.entry)) }
    {
        match head {
            Head::Placeholder(name, rest) => {
                self.parts
                    .push(MsgPart::Placeholder(text_of(alloc, name)?))?;
                Ok(Next::On(rest))
            }
            Head::Choice(kind, name, rest) => self.read_choice(alloc, kind, name, rest),
            Head::Stuck(rest) => Ok(Next::Stuck(rest)),
        }
    }

    /// Begins a plural or select, and opens its first arm.
    #[inline(never)]
    fn read_choice<'a>(
        &mut self,
        alloc: Global,
        kind: ChoiceKind,
        name: &'a str,
        text: &'a str,
    ) -> Result<Next<'a>, OutOfMemory>
        ensures { IfOk result (λ to. view_piece self.new to
            ≡ choice_piece self.old kind (chars name.now) (chars text.now)) }
    {
        let name = text_of(alloc, name)?;
        let before = replace(&mut self.parts, Parts::empty(alloc));
        match kind {
            ChoiceKind::Plural => {
                let plural = OpenPlural::new(alloc, false, before, name);
                self.read_first_arm(plural, read_first_key(text))
            }
            ChoiceKind::Ordinal => {
                let plural = OpenPlural::new(alloc, true, before, name);
                self.read_first_arm(plural, read_first_key(text))
            }
            ChoiceKind::Select => {
                let select = OpenSelect::new(alloc, before, name);
                self.read_word_arm(alloc, select, read_word(text))
            }
        }
    }

    /// The parts of what was read, if nothing is open.
    pub fn finish(self, alloc: Global) -> Result<Option<Parts>, OutOfMemory>
        ensures { IfOk result (λ parts. parts ≡ whole_pattern (text_state self)) }
    {
        let mut reader = self;
        if reader.frames.len() > 0 {
            return Ok(None);
        }
        reader.flush(alloc)?;
        Ok(Some(reader.parts))
    }
}
