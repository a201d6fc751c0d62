//! The lexer: the segments of a text one after the other, and the tokens that they make.

ghost use Rattle.std.specs.Prelude.{◌≡◌, ℕ, ◌+◌, ◌<◌, ◌≤◌, ◌^◌, List, [], ◌∷◌, ◌++◌, OnOk, IfOk, MatchOption, length};
ghost use Rattle.std.specs.Str.{chars, IsUtf8};
ghost use Rattle.soy_base.specs.ByteLength.{byte_len};
ghost use Rattle.soy_lexer.specs.CommandSegment.{command_segment};
ghost use Rattle.soy_lexer.specs.InOrder.{InOrder};
ghost use Rattle.soy_lexer.specs.Lexed.{Lexed, HasRead, TakesSegment, TakesToken, EndsRun};
ghost use Rattle.soy_lexer.specs.Lexes.{Lexes};
ghost use Rattle.soy_base.specs.Limits.{largest_file};
ghost use Rattle.soy_lexer.specs.Lines.{RunCharacter};
ghost use Rattle.soy_lexer.specs.ModeAfter.{mode_after};
ghost use Rattle.soy_lexer.specs.Segment.{source_text};
ghost use Rattle.soy_lexer.specs.ReadsSegment.{ReadsSegment, view_segment};
ghost use Rattle.soy_lexer.specs.TextSegment.{segment_of};
ghost use Rattle.soy_lexer.specs.Tokens.{literal_start, run_token};
ghost use Rattle.soy_lexer.specs.Chunks.{TakesAll};
ghost use Rattle.soy_lexer.specs.declared.token.Token.{Token};

use crate::command::{closing_segment, command_segment};
use crate::mode::Mode;
use crate::run::Run;
use crate::source_segment::{FirstSegment, SourceSegment};
use crate::text::split_white;
use crate::text_segment::text_segment;
use crate::token::{Token, TokenKind};
use soy_base::{Code, Fault, OutOfMemory, Refusal, Span, Text, byte_len, is_empty, text_of};
use std::alloc::Global;
use std::mem::replace;

/// The segment with which a text in this mode begins. One of commands is read at one place here, so that it isn't
/// moved on the way.
fn segment<'a>(alloc: Global, mode: Mode, text: &'a str) -> Result<FirstSegment<'a>, Refusal<usize>>
    ensures { ReadsSegment (segment_of mode (chars text.now)) result }
{
    match own_segment(alloc, mode, text) {
        Some(read) => read,
        None => command_segment(alloc, text),
    }
}

/// The same, where it is one of this mode alone and not of commands.
fn own_segment<'a>(
    alloc: Global,
    mode: Mode,
    text: &'a str,
) -> Option<Result<FirstSegment<'a>, Refusal<usize>>>
    ensures { MatchOption result (segment_of mode (chars text.now) ≡ command_segment (chars text.now))
        (ReadsSegment (segment_of mode (chars text.now))) }
{
    match mode {
        Mode::Outside(white) => Some(text_segment(alloc, white, text)),
        Mode::Opened => closing_segment(alloc, text),
        Mode::Inside => None,
    }
}

/// The offset where the token of a literal begins whose `{` stands at this offset.
fn literal_start(offset: u64, literal: &str) -> u64
    requires { offset + 9 < 2 ^ 64 }
    ensures { result ≡ literal_start offset (chars literal.now) }
{
    if is_empty(literal) {
        offset
    } else {
        offset + 9
    }
}

/// The tokens so far, and the run that goes on.
#[derive(Debug, Drop)]
struct Lexer {
    alloc: Global,
    tokens: Vec<Token>,
    run: Run,
}

impl Lexer {
    /// A lexer without tokens. Takes no memory.
    fn new(alloc: Global) -> Lexer
        ensures { HasRead result [] [] }
    {
        Lexer {
            alloc,
            tokens: Vec::new(alloc),
            run: Run::new(alloc),
        }
    }

    /// Takes a segment that stands between two offsets.
    fn take(&mut self, segment: SourceSegment, offset: u64, end: u64) -> Result<(), OutOfMemory>
        requires offset { offset + 9 < 2 ^ 64 }
        requires end { end ≡ offset + byte_len (source_text (view_segment segment)) }
        ensures { OnOk result (TakesSegment self.old self.new offset (view_segment segment.entry)) }
    {
        match segment {
            SourceSegment::TextCharacter(c) => self.run.add(c, offset),
            SourceSegment::Skipped(_) => Ok(()),
            SourceSegment::Literal(literal) => {
                let start = literal_start(offset, literal);
                let text = text_of(self.alloc, literal)?;
                self.push(TokenKind::Text, Span { start, end }, text)
            }
            SourceSegment::CommandToken(kind, _, text) => self.push(
                kind,
                Span { start: offset, end },
                text,
            ),
        }
    }

    /// Takes what is read at once of a text that stands at an offset, and gives the mode after it and what follows.
    fn take_all<'a>(
        &mut self,
        mode: Mode,
        text: &'a str,
        offset: u64,
    ) -> Result<(Mode, &'a str), OutOfMemory>
        requires { offset + byte_len (chars text.now) + 4 < 2 ^ 64 }
        ensures takes { IfOk result (λ after.
            TakesAll self.old self.new offset mode (chars text.now) (chars after.1.now) after.0) }
        ensures utf8 { IfOk result (λ after. IsUtf8 after.1.now) }
    {
        match mode {
            Mode::Outside(white) => {
                let after = self.run.add_all(white, text, offset)?;
                Ok((Mode::Outside(after.white), after.rest))
            }
            Mode::Opened => Ok((Mode::Opened, text)),
            Mode::Inside => {
                let (_, rest) = split_white(text);
                Ok((Mode::Inside, rest))
            }
        }
    }

    /// Ends the run, and adds a token after it.
    fn push(&mut self, kind: TokenKind, span: Span, text: Text) -> Result<(), OutOfMemory>
        ensures { OnOk result (TakesToken self.old self.new (record { kind = kind; span = span; text = text })) }
    {
        self.end_run()?;
        self.tokens.push(Token { kind, span, text })?;
        Ok(())
    }

    /// Ends the run, and adds its token if anything is left of it. Between the tokens of a command there is none.
    fn end_run(&mut self) -> Result<(), OutOfMemory>
        ensures { OnOk result (EndsRun self.old self.new) }
    {
        if self.run.is_empty() {
            self.run.restart();
            return Ok(());
        }
        self.end_text()
    }

    /// The same of a run that has text or white space.
    #[inline(never)]
    fn end_text(&mut self) -> Result<(), OutOfMemory>
        ensures { OnOk result (EndsRun self.old self.new) }
    {
        let run = replace(&mut self.run, Run::new(self.alloc));
        if let Some(token) = run.token()? {
            self.tokens.push(token)?;
        }
        Ok(())
    }

    /// Ends the run, and gives all tokens.
    fn finish(mut self) -> Result<Vec<Token>, OutOfMemory>
        ensures { (tokens : List Token) (run : List RunCharacter) → HasRead self tokens run →
            IfOk result (λ all. all.items ≡ tokens ++ run_token run) }
    {
        self.end_run()?;
        let Lexer { tokens, .. } = self;
        Ok(tokens)
    }
}

/// The tokens of a text that is within the limit, or the first offset where no token begins.
fn lexed(alloc: Global, text: &str) -> Result<Vec<Token>, Refusal<u64>>
    requires { byte_len (chars text.now) ≤ largest_file }
    ensures { Lexed (chars text.now) result }
{
    let length = byte_len(text);
    let mut lexer = Lexer::new(alloc);
    let mut mode = Mode::Outside(true);
    let mut offset = 0;
    let mut rest = text;
    while !is_empty(rest) {
        let read = match segment(alloc, mode, rest) {
            Ok(read) => read,
            Err(Refusal::Because(further)) => {
                return Err(Refusal::Because((offset + further) as u64));
            }
            Err(Refusal::OutOfMemory) => return Err(Refusal::OutOfMemory),
        };
        mode = mode.after(&read.segment);
        let end = length - byte_len(read.rest);
        lexer.take(read.segment, offset as u64, end as u64)?;
        let (after, others) = lexer.take_all(mode, read.rest, end as u64)?;
        mode = after;
        rest = others;
        offset = length - byte_len(rest);
    }
    Ok(lexer.finish()?)
}

/// The most bytes that a file may have.
const LARGEST_FILE: usize = 1048576;

/// The tokens of the text of a file, in its order; or why it has none: it is over 1,048,576 bytes,
/// or no token begins at an offset, which is the first such offset in bytes.
pub fn lex(alloc: Global, text: &str, file: u32) -> Result<Vec<Token>, Refusal<Fault>>
    ensures lexes { Lexes file text.now result }
    ensures in_order { IfOk result (λ tokens. InOrder 0 (length text.now) tokens.items) }
{
    if text.len() > LARGEST_FILE {
        return Err(Refusal::Because(Fault {
            code: Code::TooLarge,
            file,
            at: 0,
        }));
    }
    match lexed(alloc, text) {
        Ok(tokens) => Ok(tokens),
        Err(Refusal::Because(at)) => Err(Refusal::Because(Fault {
            code: Code::Lex,
            file,
            at,
        })),
        Err(Refusal::OutOfMemory) => Err(Refusal::OutOfMemory),
    }
}
