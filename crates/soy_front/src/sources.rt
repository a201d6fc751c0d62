//! Files from their bytes.

ghost use Rattle.std.specs.Prelude.{◌≤◌, length};
ghost use Rattle.soy_front.specs.ReadsSource.{FaultWithin, ReadsSource};
ghost use Rattle.soy_front.specs.Sources.{source_answer, text_answer};

use soy_base::{Code, Fault, Refusal};
use soy_lexer::lex;
use soy_parser::parse;
use soy_tree::Tree;
use std::alloc::Global;
use std::str;

/// The tree of a file by itself, or its first fault, in which the file is that of the number 0.
pub fn read_source(alloc: Global, bytes: &[u8]) -> Result<Tree, Refusal<Fault>>
    ensures reads { ReadsSource (source_answer bytes.now) result }
    ensures within { FaultWithin (length bytes.now) result }
{
    match str::from_utf8(bytes) {
        Ok(text) => read_text(alloc, text),
        Err(error) => Err(Refusal::Because(Fault {
            code: Code::NotUtf8,
            file: 0,
            at: error.valid_up_to() as u64,
        })),
    }
}

/// The tree of a text, or its first fault.
fn read_text(alloc: Global, text: &str) -> Result<Tree, Refusal<Fault>>
    ensures reads { ReadsSource (text_answer text.now) result }
    ensures within { FaultWithin (length text.now) result }
{
    match lex(alloc, text, 0) {
        Ok(tokens) => parse(alloc, tokens.as_slice(), 0),
        Err(refusal) => Err(refusal),
    }
}
