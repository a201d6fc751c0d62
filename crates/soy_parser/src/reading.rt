//! A file from all its tokens.

ghost use Rattle.std.specs.Prelude.{◌≡◌, ◌+◌, IfOk};
ghost use Rattle.expr_parser.specs.Depths.{is_within};
ghost use Rattle.expr_parser.specs.TypeTerminals.{is_less, type_terminal_of};
ghost use Rattle.soy_parser.specs.FileReading.{file_answer, reading_file};
ghost use Rattle.soy_parser.specs.FileSteps.{depth_in, file_start, unknown_in};
ghost use Rattle.soy_parser.specs.ParsesFile.{ParsesFile};

use crate::spot::{CommandSpot, FileState, Spot};
use soy_base::{Code, Fault, OutOfMemory, Refusal};
use soy_lexer::{Token, TokenKind};
use soy_tree::Tree;
use std::alloc::Global;

const DEPTH_LIMIT: usize = 64;

/// Whether the token that led to a state lies within the limit, where so many block commands were open before it.
fn is_within(blocks: usize, to: &FileState) -> bool
    ensures { result ≡ is_within 0 (blocks + depth_in to.now.spot) }
{
    blocks.saturating_add(to.spot.depth() as usize) <= DEPTH_LIMIT
}

/// Whether a token is a `<`.
#[tactic(auto, using(crate::proofs::Literals::less_by_text))]
fn is_less(token: &Token) -> bool
    ensures { result ≡ is_less (type_terminal_of token.now) }
{
    match token.kind {
        TokenKind::Symbol => token.text.text() == "<",
        _ => false,
    }
}

/// The offset of the word that was read last, if it stands as a type and names none before this token, which is looked
/// at only in a type.
fn unknown_before(spot: &CommandSpot, token: &Token) -> Option<u64>
    ensures { result ≡ unknown_in spot.now (is_less (type_terminal_of token.now)) }
{
    match spot {
        CommandSpot::Inside(_, Spot::Type(_, _, _)) => spot.unknown(is_less(token)),
        _ => None,
    }
}

/// What was read before the offset, if it is a whole file.
fn answer(read: Option<Tree>, file: u32, at: u64) -> Result<Tree, Fault>
    ensures { result ≡ file_answer file at read }
{
    match read {
        Some(tree) => Ok(tree),
        None => Err(Fault {
            code: Code::Syntax,
            file,
            at,
        }),
    }
}

/// What is read of the tokens, one after the other, after what was read before them.
fn read_on(
    alloc: Global,
    state: &mut FileState,
    tokens: &[Token],
    file: u32,
) -> Result<Result<Tree, Fault>, OutOfMemory>
    ensures { IfOk result (λ tree. tree ≡ reading_file file 0 tokens.now state.old) }
{
    let mut end = 0;
    for token in tokens {
        if let Some(at) = unknown_before(&state.spot, token) {
            let code = Code::Mistyped;
            return Ok(Err(Fault { code, file, at }));
        }
        let at = token.span.start;
        let blocks = state.commands.blocks.len();
        if !state.step(alloc, token)? {
            let code = Code::Syntax;
            return Ok(Err(Fault { code, file, at }));
        }
        if !is_within(blocks, state) {
            let code = Code::Nesting;
            return Ok(Err(Fault { code, file, at }));
        }
        end = token.span.end;
    }
    if let Some(at) = state.spot.unknown(false) {
        let code = Code::Mistyped;
        return Ok(Err(Fault { code, file, at }));
    }
    Ok(answer(state.finish(), file, end))
}

/// What is read of the tokens of a file.
fn read(alloc: Global, tokens: &[Token], file: u32) -> Result<Result<Tree, Fault>, OutOfMemory>
    ensures { IfOk result (λ tree. tree ≡ reading_file file 0 tokens.now file_start) }
{
    let mut state = FileState::start(alloc);
    read_on(alloc, &mut state, tokens, file)
}

/// The tree that the tokens of a file spell; `file` is the number of the file that faults name. Otherwise 4 at the
/// first token with which no file goes on, or at the end of the last token where more are needed; 5 at the first token
/// whose depth is over 64; or 8 at the first word that stands as a type and names none. The first in the order of the
/// tokens; at one token 4, then 5, then 8.
pub fn parse(alloc: Global, tokens: &[Token], file: u32) -> Result<Tree, Refusal<Fault>>
    ensures { ParsesFile file tokens.now result }
{
    match read(alloc, tokens, file)? {
        Ok(tree) => Ok(tree),
        Err(fault) => Err(Refusal::Because(fault)),
    }
}
