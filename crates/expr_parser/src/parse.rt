//! The expression at the head of a list of tokens.

ghost use Rattle.std.specs.Prelude.{◌≡◌, IfOk};
ghost use Rattle.expr_parser.specs.Depths.{is_within};
ghost use Rattle.expr_parser.specs.ExprReading.{answer, reading};
ghost use Rattle.expr_parser.specs.ExprRuns.{expr_start};
ghost use Rattle.expr_parser.specs.ParsesExpr.{ParsesExpr};
ghost use Rattle.expr_parser.specs.ParsesType.{ParsesType};
ghost use Rattle.expr_parser.specs.TypeReading.{type_answer, reading_type};
ghost use Rattle.expr_parser.specs.TypeRuns.{type_start};

use crate::operand::Operand;
use crate::state::ExprState;
use crate::type_frame::TypeOperand;
use crate::type_state::{TypeState, TypeStep};
use crate::type_terminal::TypeTerminal;
use soy_base::{Code, Fault, OutOfMemory, Refusal};
use soy_lexer::Token;
use soy_tree::{Expr, SoyType};
use std::alloc::Global;

/// What is read at the head of tokens: an expression and the number of its tokens, or why there is none, and where.
#[derive(Drop)]
pub(crate) enum Outcome {
    Done(Operand, usize),
    Refused(Code, u64),
}

const DEPTH_LIMIT: u32 = 64;

/// Whether a depth is within the limit, where so many block commands are open around it.
fn is_within(blocks: u32, depth: u32) -> bool
    ensures { result ≡ is_within blocks depth }
{
    blocks.saturating_add(depth) <= DEPTH_LIMIT
}

/// What was read before the offset, if it is a whole expression.
fn answer(read: Option<Operand>, count: usize, offset: u64) -> Outcome
    ensures { result ≡ answer count offset read }
{
    match read {
        Some(operand) => Outcome::Done(operand, count),
        None => Outcome::Refused(Code::Syntax, offset),
    }
}

/// What is read of the tokens, one after the other, after what was read before them.
fn read_on(
    alloc: Global,
    state: &mut ExprState,
    tokens: &[Token],
    blocks: u32,
) -> Result<Outcome, OutOfMemory>
    ensures { IfOk result (λ o. o ≡ reading blocks 0 0 tokens.now state.old) }
{
    let mut end = 0;
    for (count, token) in tokens.iter().enumerate() {
        let at = token.span.start;
        if !state.step(alloc, token)? {
            return Ok(answer(state.given(), count, at));
        }
        if !is_within(blocks, state.depth()) {
            return Ok(Outcome::Refused(Code::Nesting, at));
        }
        end = token.span.end;
    }
    Ok(answer(state.finish(alloc)?, tokens.len(), end))
}

/// What is read of the tokens.
fn read(alloc: Global, tokens: &[Token], blocks: u32) -> Result<Outcome, OutOfMemory>
    ensures { IfOk result (λ o. o ≡ reading blocks 0 0 tokens.now expr_start) }
{
    let mut state = ExprState::start(alloc);
    read_on(alloc, &mut state, tokens, blocks)
}

/// The longest prefix of the tokens with which some expression begins, if it is one, and the number of its tokens;
/// `depth` is the number of block commands that are open around it. Otherwise 4 at the first token with which no
/// expression goes on, or at the end of the last token; or 5 at the first token whose depth is over 64.
pub fn parse_expr(
    alloc: Global,
    tokens: &[Token],
    file: u32,
    depth: u32,
) -> Result<(Expr, usize), Refusal<Fault>>
    ensures { ParsesExpr file depth tokens.now result }
{
    match read(alloc, tokens, depth)? {
        Outcome::Done(operand, count) => Ok((operand.expr, count)),
        Outcome::Refused(code, at) => Err(Refusal::Because(Fault { code, file, at })),
    }
}

/// What is read at the head of tokens: a type and the number of its tokens, or why there is none, and where.
#[derive(Drop)]
pub(crate) enum TypeOutcome {
    Done(TypeOperand, usize),
    Refused(Code, u64),
}

/// What was read before the offset, if it is a whole type.
fn type_answer(read: Option<TypeOperand>, count: usize, offset: u64) -> TypeOutcome
    ensures { result ≡ type_answer count offset read }
{
    match read {
        Some(operand) => TypeOutcome::Done(operand, count),
        None => TypeOutcome::Refused(Code::Syntax, offset),
    }
}

/// What is read of the tokens, one after the other.
fn read_type(alloc: Global, tokens: &[Token], blocks: u32) -> Result<TypeOutcome, OutOfMemory>
    ensures { IfOk result (λ o. o ≡ reading_type blocks 0 0 tokens.now type_start) }
{
    let mut state = TypeState::start(alloc);
    let mut end = 0;
    for (count, token) in tokens.iter().enumerate() {
        if let Some(offset) = state.unknown(TypeTerminal::of(token).is_less()) {
            return Ok(TypeOutcome::Refused(Code::Mistyped, offset));
        }
        match state.step(alloc, token)? {
            TypeStep::Next(to) => {
                if is_within(blocks, to.depth()) {
                    state = to;
                } else {
                    drop(to);
                    return Ok(TypeOutcome::Refused(Code::Nesting, token.span.start));
                }
            }
            TypeStep::End(before) => return Ok(type_answer(before, count, token.span.start)),
        }
        end = token.span.end;
    }
    if let Some(offset) = state.unknown(false) {
        return Ok(TypeOutcome::Refused(Code::Mistyped, offset));
    }
    Ok(type_answer(state.finish()?, tokens.len(), end))
}

/// The longest prefix of the tokens with which some type begins, if it is one, and the number of its tokens; `depth` is
/// the number of block commands that are open around it. Otherwise 4 at the first token with which no type goes on, or
/// at the end of the last token; 5 at the first token whose depth is over 64; or 8 at the first word that stands as a
/// type and names none.
pub fn parse_type(
    alloc: Global,
    tokens: &[Token],
    file: u32,
    depth: u32,
) -> Result<(SoyType, usize), Refusal<Fault>>
    ensures { ParsesType file depth tokens.now result }
{
    match read_type(alloc, tokens, depth)? {
        TypeOutcome::Done(operand, count) => Ok((operand.of, count)),
        TypeOutcome::Refused(code, at) => Err(Refusal::Because(Fault { code, file, at })),
    }
}
