//! A text run as it is read, with its lines joined.

ghost use Rattle.std.specs.Prelude.{◌≡◌, ℕ, ◌<◌, ◌+◌, ◌^◌, List, [], ◌∷◌, ◌++◌, OnOk, IfOk, IsTrue, false};
ghost use Rattle.std.specs.Prelude.{option_to_list, if◌then◌else◌, ◌&&◌, true, IfSome};
ghost use Rattle.soy_base.specs.Cuts.{is_nil};
ghost use Rattle.std.specs.Str.{chars, IsUtf8};
ghost use Rattle.std.specs.String.{string_bytes};
ghost use Rattle.std.specs.List.{list_all};
ghost use Rattle.soy_base.specs.Appends.{Appends};
ghost use Rattle.soy_base.specs.WhiteSpace.{is_line_break, is_template_space};
ghost use Rattle.soy_base.specs.Characters.{space};
ghost use Rattle.soy_base.specs.ByteLength.{byte_len};
ghost use Rattle.soy_lexer.specs.IsRunOf.{AddsCharacter, IsRunOf, needs_space, start_with};
ghost use Rattle.soy_lexer.specs.Lines.{RunCharacter, is_angle};
ghost use Rattle.soy_lexer.specs.Tokens.{run_token};
ghost use Rattle.soy_lexer.specs.Chunks.{AddsAll, AddsCharacters, AddsNext, is_chunk_character, run_characters};

use crate::text::{is_chunk_character, is_plain, split_chunk};
use crate::token::{Token, TokenKind};
use soy_base::{
    OutOfMemory, Span, Text, byte_len, first, is_empty, is_template_space, push_char, push_text,
};
use std::alloc::Global;

/// A text run as it is read, its lines joined up to the last character that isn't white space.
#[derive(Debug, Drop)]
pub(crate) struct Run {
    text: String,
    /// The white space after the text, which goes where a line break follows it.
    white: String,
    /// Whether the present line follows a line break and has no character yet.
    fresh: bool,
    /// Whether the text ends with `<` or `>`.
    angle: bool,
    /// The offset of the first character.
    start: u64,
    /// The offset where the text ends.
    text_end: u64,
    /// The offset where the white space after it ends.
    end: u64,
}

/// What follows characters that came to a run, and whether white space is the last before it.
#[derive(Drop)]
pub(crate) struct AfterPiece<'a> {
    pub(crate) white: bool,
    pub(crate) rest: &'a str,
}

/// Whether a character is `<` or `>`.
fn is_angle(c: char) -> bool
    ensures { result ≡ is_angle c }
{
    c == '<' || c == '>'
}

/// Adds a space if one is needed.
fn push_space_if(text: &mut String, needed: bool) -> Result<(), OutOfMemory>
    ensures { OnOk result (Appends text.old text.new (if needed then space ∷ [] else [])) }
{
    if needed { push_char(text, ' ') } else { Ok(()) }
}

impl Run {
    /// A run without characters. Takes no memory.
    pub(crate) fn new(alloc: Global) -> Run
        ensures { IsRunOf result [] }
    {
        Run {
            text: String::new(alloc),
            white: String::new(alloc),
            fresh: false,
            angle: false,
            start: 0,
            text_end: 0,
            end: 0,
        }
    }

    /// Adds the characters from this offset on, up to the first that may begin something else than a character of a
    /// run. `white` says whether white space stands before them.
    pub(crate) fn add_all<'a>(
        &mut self,
        white: bool,
        text: &'a str,
        offset: u64,
    ) -> Result<AfterPiece<'a>, OutOfMemory>
        requires { offset + byte_len (chars text.now) + 4 < 2 ^ 64 }
        ensures adds { IfOk result (λ after. AddsAll self.old self.new offset white (chars text.now)
            (chars after.rest.now) after.white) }
        ensures utf8 { IfOk result (λ after. IsUtf8 after.rest.now) }
    {
        let end = offset + byte_len(text) as u64;
        let mut white = white;
        let mut rest = text;
        loop {
            match self.add_next(rest, end - byte_len(rest) as u64)? {
                Some(after) => {
                    white = after.white;
                    rest = after.rest;
                }
                None => return Ok(AfterPiece { white, rest }),
            }
        }
    }

    /// Adds the character with which a text at this offset begins, or the chunk, unless something else may begin there.
    fn add_next<'a>(
        &mut self,
        text: &'a str,
        offset: u64,
    ) -> Result<Option<AfterPiece<'a>>, OutOfMemory>
        requires { offset + byte_len (chars text.now) + 4 < 2 ^ 64 }
        ensures adds { IfOk result (λ after. AddsNext self.old self.new offset (chars text.now) after) }
        ensures utf8 { IfOk result (λ after. IfSome after (λ after. IsUtf8 after.rest.now)) }
    {
        match first(text) {
            Some((c, rest)) => {
                if is_chunk_character(c) {
                    let (chunk, rest) = split_chunk(text);
                    self.add_chunk(chunk, offset)?;
                    Ok(Some(AfterPiece { white: false, rest }))
                } else if is_plain(c) {
                    self.add(c, offset)?;
                    let white = is_template_space(c);
                    Ok(Some(AfterPiece { white, rest }))
                } else {
                    Ok(None)
                }
            }
            None => Ok(None),
        }
    }

    /// Adds the run's next character, which stands at this offset.
    pub(crate) fn add(&mut self, c: char, offset: u64) -> Result<(), OutOfMemory>
        requires { offset + 4 < 2 ^ 64 }
        ensures { OnOk result (AddsCharacter self.old self.new (record { offset = offset; character = c })) }
    {
        match c {
            '\n' | '\r' => {
                self.break_line();
                Ok(())
            }
            ' ' | '\t' => self.add_white(c, offset),
            _ => self.add_other(c, offset),
        }
    }

    /// Ends the present line at a line break.
    fn break_line(&mut self)
        ensures { (c : RunCharacter) → IsTrue (is_line_break c.character) → AddsCharacter self.old self.new c }
    {
        self.white.clear();
        self.fresh = true;
        self.end = self.text_end;
    }

    /// The offset where the run starts with one more character, which stands at this offset.
    fn start_with(&self, offset: u64) -> u64
        ensures { result
            ≡ start_with (chars (string_bytes self.now.text)) (chars (string_bytes self.now.white))
            self.now.start offset }
    {
        if is_empty(self.text.as_str()) && is_empty(self.white.as_str()) {
            offset
        } else {
            self.start
        }
    }

    /// Whether a space comes between the text and a line that begins with an angle or not.
    fn needs_space(&self, angle: bool) -> bool
        ensures { result ≡ needs_space (chars (string_bytes self.now.text)) self.now.fresh self.now.angle angle }
    {
        self.fresh && !is_empty(self.text.as_str()) && !(self.angle || angle)
    }

    /// Adds white space that breaks no line.
    fn add_white(&mut self, c: char, offset: u64) -> Result<(), OutOfMemory>
        requires white { IsTrue (is_template_space c) }
        requires goes_on { is_line_break c ≡ false }
        requires offset { offset + 4 < 2 ^ 64 }
        ensures { OnOk result (AddsCharacter self.old self.new (record { offset = offset; character = c })) }
    {
        if self.fresh {
            return Ok(());
        }
        self.start = self.start_with(offset);
        push_char(&mut self.white, c)?;
        self.end = offset + c.len_utf8() as u64;
        Ok(())
    }

    /// Adds a character that is no white space.
    fn add_other(&mut self, c: char, offset: u64) -> Result<(), OutOfMemory>
        requires other { is_template_space c ≡ false }
        requires offset { offset + 4 < 2 ^ 64 }
        ensures { OnOk result (AddsCharacter self.old self.new (record { offset = offset; character = c })) }
    {
        let angle = is_angle(c);
        let needs_space = self.needs_space(angle);
        self.start = self.start_with(offset);
        push_space_if(&mut self.text, needs_space)?;
        push_text(&mut self.text, self.white.as_str())?;
        push_char(&mut self.text, c)?;
        self.white.clear();
        self.fresh = false;
        self.angle = angle;
        self.text_end = offset + c.len_utf8() as u64;
        self.end = self.text_end;
        Ok(())
    }

    /// Adds characters that stand one after the other from this offset on, none of them white space or an angle.
    fn add_chunk(&mut self, chunk: &str, offset: u64) -> Result<(), OutOfMemory>
        requires chunk { IsTrue (list_all is_chunk_character (chars chunk.now)) }
        requires offset { offset + byte_len (chars chunk.now) + 4 < 2 ^ 64 }
        ensures { OnOk result (AddsCharacters self.old self.new (run_characters offset (chars chunk.now))) }
    {
        if is_empty(chunk) {
            return Ok(());
        }
        let needs_space = self.needs_space(false);
        self.start = self.start_with(offset);
        push_space_if(&mut self.text, needs_space)?;
        push_text(&mut self.text, self.white.as_str())?;
        push_text(&mut self.text, chunk)?;
        self.white.clear();
        self.fresh = false;
        self.angle = false;
        self.text_end = offset + byte_len(chunk) as u64;
        self.end = self.text_end;
        Ok(())
    }

    /// Whether the run has neither text nor white space.
    pub(crate) fn is_empty(&self) -> bool
        ensures { result ≡ is_nil (chars (string_bytes self.now.text)) && is_nil (chars (string_bytes self.now.white)) }
    {
        is_empty(self.text.as_str()) && is_empty(self.white.as_str())
    }

    /// Ends a run that has neither text nor white space, of which no token is made, and begins the next.
    pub(crate) fn restart(&mut self)
        requires { (is_nil (chars (string_bytes self.old.text)) && is_nil (chars (string_bytes self.old.white))) ≡ true }
        ensures { (run : List RunCharacter) → IsRunOf self.old run → ([] ≡ run_token run) × IsRunOf self.new [] }
    {
        self.fresh = false;
        self.angle = false;
        self.start = 0;
        self.text_end = 0;
        self.end = 0;
    }

    /// The token of the run, if anything is left of it.
    pub(crate) fn token(self) -> Result<Option<Token>, OutOfMemory>
        ensures { (run : List RunCharacter) → IsRunOf self run →
            IfOk result (λ token. option_to_list token ≡ run_token run) }
    {
        let Run {
            mut text,
            white,
            start,
            end,
            ..
        } = self;
        push_text(&mut text, white.as_str())?;
        if is_empty(text.as_str()) {
            return Ok(None);
        }
        Ok(Some(Token {
            kind: TokenKind::Text,
            span: Span { start, end },
            text: Text::new(text),
        }))
    }
}
