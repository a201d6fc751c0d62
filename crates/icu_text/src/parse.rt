//! The parts of a whole text.

ghost use Rattle.std.specs.Prelude.{◌≡◌, IfOk};
ghost use Rattle.std.specs.Str.{chars};
ghost use Rattle.icu_text.specs.ParsesMessage.{ParsesMessage};
ghost use Rattle.icu_text.specs.PatternReading.{answer, pattern_start, reading};

use crate::reader::{Next, Reader};
use crate::rows::Parts;
use soy_base::{OutOfMemory, Refusal, Seq, byte_len, is_empty};
use soy_tree::MsgPart;
use std::alloc::Global;

/// What is read of a text: the parts of a pattern, or how many of its bytes no pattern goes on with.
#[derive(Drop)]
pub(crate) enum Outcome {
    Done(Parts),
    Refused(usize),
}

/// The parts of a text, or how many of its bytes no pattern goes on with.
fn answer(left: usize, parts: Option<Parts>) -> Outcome
    ensures { result ≡ answer left parts }
{
    match parts {
        Some(parts) => Outcome::Done(parts),
        None => Outcome::Refused(left),
    }
}

/// What is read of a text, piece by piece.
#[tactic(auto, using(crate::proofs::PieceReads::piece_on, crate::proofs::PieceReads::piece_within, crate::proofs::PieceReads::piece_stuck))]
fn read(alloc: Global, text: &str) -> Result<Outcome, OutOfMemory>
    ensures { IfOk result (λ o. o ≡ reading (chars text.now) pattern_start) }
{
    let mut reader = Reader::start(alloc);
    let mut rest = text;
    while !is_empty(rest) {
        match reader.read_piece(alloc, rest)? {
            Next::On(after) => rest = after,
            Next::Stuck(left) => return Ok(Outcome::Refused(byte_len(left))),
        }
    }
    Ok(answer(0, reader.finish(alloc)?))
}

/// The parts of a text that is a pattern of ICU text; otherwise the length in bytes of its longest prefix with which
/// some pattern begins.
pub fn parse_message(alloc: Global, text: &str) -> Result<Seq<MsgPart>, Refusal<u64>>
    ensures { ParsesMessage (chars text.now) result }
{
    match read(alloc, text)? {
        Outcome::Done(parts) => Ok(parts.done()),
        Outcome::Refused(left) => Err(Refusal::Because((byte_len(text) - left) as u64)),
    }
}
