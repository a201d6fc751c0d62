//! What is open inside an expression, and closing it by precedence.

ghost use Rattle.std.specs.Prelude.{◌≡◌, ◌∷◌, IfOk};
ghost use Rattle.expr_parser.specs.Frames.{level, closed, reduced, branch, in_frames, pending_branch, bracket_branch};
ghost use Rattle.expr_parser.specs.Frames.{raised};

use crate::operand::{Operand, deeper, level_of};
use soy_base::{OutOfMemory, Span, Stack};
use soy_tree::BinaryOp;
use std::alloc::Global;

/// An operator that waits for its last operand.
#[derive(Drop)]
pub enum Pending {
    Neg(Span),
    Not(Span),
    Binary(BinaryOp, Operand),
    Coalesce(Operand),
    /// The condition and the middle of a `c ? a : b`, after its `:`.
    Else(Operand, Operand),
}

/// What a token of its own closes.
#[derive(Drop)]
pub enum Bracket {
    Paren(Span),
    Index(Operand, bool),
    /// The condition of a `c ? a : b`, up to its `:`.
    Then(Operand),
}

/// What is open around the tokens to come.
#[derive(Drop)]
pub enum Frame {
    Pending(Pending),
    Bracket(Bracket),
}

/// What is left where the operators up to the level take the operand as their last: the frames, and the operand.
pub fn reduced(
    alloc: Global,
    frames: &mut Stack<Frame>,
    operand: Operand,
    level: u8,
) -> Result<Operand, OutOfMemory>
    ensures { IfOk result (λ x. in_frames frames.new x ≡ reduced level frames.old operand) }
{
    match frames.top() {
        Some(_) => closed_by(alloc, frames, operand, level),
        None => Ok(operand),
    }
}

/// The same, frame by frame.
#[inline(never)]
fn closed_by(
    alloc: Global,
    frames: &mut Stack<Frame>,
    operand: Operand,
    level: u8,
) -> Result<Operand, OutOfMemory>
    ensures { IfOk result (λ x. in_frames frames.new x ≡ reduced level frames.old operand) }
{
    let mut operand = operand;
    while let Some(frame) = frames.pop() {
        match frame {
            Frame::Pending(pending) => {
                if pending.level() <= level {
                    operand = pending.closed(alloc, operand)?;
                } else {
                    return put_back(frames, Frame::Pending(pending), operand);
                }
            }
            Frame::Bracket(bracket) => return put_back(frames, Frame::Bracket(bracket), operand),
        }
    }
    Ok(operand)
}

/// The operand, and this frame put back on the frames.
fn put_back(
    frames: &mut Stack<Frame>,
    frame: Frame,
    operand: Operand,
) -> Result<Operand, OutOfMemory>
    ensures { IfOk result (λ x. in_frames frames.new x ≡ in_frames (frame ∷ frames.old) operand) }
{
    match frames.push(frame) {
        Ok(()) => Ok(operand),
        Err(out) => {
            drop(operand);
            Err(out)
        }
    }
}

impl Pending {
    /// The level of the operator.
    fn level(&self) -> u8
        ensures { result ≡ level self.now }
    {
        match self {
            Pending::Neg(_) | Pending::Not(_) => 2,
            Pending::Binary(op, _) => level_of(*op),
            Pending::Coalesce(_) | Pending::Else(_, _) => 9,
        }
    }

    /// The operator with its last operand.
    fn closed(self, alloc: Global, operand: Operand) -> Result<Operand, OutOfMemory>
        ensures { IfOk result (λ x. x ≡ closed self operand) }
    {
        match self {
            Pending::Neg(span) => operand.negated(alloc, span),
            Pending::Not(span) => operand.inverted(alloc, span),
            Pending::Binary(op, left) => left.combined(alloc, op, operand),
            Pending::Coalesce(left) => left.coalesced(alloc, operand),
            Pending::Else(condition, yes) => condition.conditional(alloc, yes, operand),
        }
    }

    /// The nodes on the longest branch of what was read before the last operand.
    fn branch(&self) -> u32
        ensures { result ≡ pending_branch self.now }
    {
        match self {
            Pending::Neg(_) | Pending::Not(_) => 0,
            Pending::Binary(_, left) | Pending::Coalesce(left) => left.height,
            Pending::Else(condition, yes) => condition.height.max(yes.height),
        }
    }
}

impl Bracket {
    /// The nodes on the longest branch of what was read before the bracket.
    fn branch(&self) -> u32
        ensures { result ≡ bracket_branch self.now }
    {
        match self {
            Bracket::Paren(_) => 0,
            Bracket::Index(of, _) => of.height,
            Bracket::Then(condition) => condition.height,
        }
    }
}

impl Frame {
    /// The nodes on the longest branch of what was read before what the frame holds open.
    fn branch(&self) -> u32
        ensures { result ≡ branch self.now }
    {
        match self {
            Frame::Pending(pending) => pending.branch(),
            Frame::Bracket(bracket) => bracket.branch(),
        }
    }
}

/// The nodes on the longest branch, where a branch of this height stands inside the frames.
pub fn raised(frames: &Stack<Frame>, height: u32) -> u32
    ensures { result ≡ raised frames.now height }
{
    let mut height = height;
    for frame in frames.items().iter().rev() {
        height = deeper(frame.branch(), height);
    }
    height
}
