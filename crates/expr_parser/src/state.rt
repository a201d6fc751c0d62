//! The machine that reads an expression, a token a step.
//!
//! The state changes where it stands, and each case of a token is a function of its own that is not inlined, since a
//! function pays at entry for the room of all its cases.
//!
//! What is let go is passed to `drop`, which is one call: left to the end of its block, each variant's parts would be
//! taken apart there, in the model of the function too.

ghost use Rattle.std.specs.Prelude.{◌≡◌, ◌∷◌, IfOk, None, Some};
ghost use Rattle.expr_parser.specs.ExprRuns.{expr_start};
ghost use Rattle.expr_parser.specs.ExprSteps.{expr_step, step_of, operand_step, name_step, operator_step, has, opens};
ghost use Rattle.expr_parser.specs.ExprSteps.{infix_next, coalesce_next, question_next, colon_next, paren_next};
ghost use Rattle.expr_parser.specs.ExprSteps.{bracket_next, stepped, given, whole, whole_expr, expr_depth};
ghost use Rattle.expr_parser.specs.ExprSteps.{has_none, is_alone, is_ended};
ghost use Rattle.expr_parser.specs.ExprSteps.ExprStep.{End};
ghost use Rattle.expr_parser.specs.Frames.{in_frames, reduced};
ghost use Rattle.expr_parser.specs.Operands.{atom, level_of};
ghost use Rattle.expr_parser.specs.Terminals.{terminal_of};
ghost use Rattle.expr_parser.specs.declared.frame.Bracket.TheVariants as bracket;
ghost use Rattle.expr_parser.specs.declared.frame.Frame.TheVariants as frame;
ghost use Rattle.expr_parser.specs.declared.state.Expected.TheVariants as expected;

use crate::frame::{Bracket, Frame, Pending, raised, reduced};
use crate::operand::{Operand, deeper, level_of};
use crate::terminal::Terminal;
use soy_base::{OutOfMemory, Stack};
use soy_lexer::{Token, TokenKind};
use soy_tree::{BinaryOp, ExprNode};
use std::alloc::Global;
use std::mem::replace;

/// What may come next inside the innermost frame.
#[derive(Drop)]
pub enum Expected {
    /// An operand.
    Operand,
    /// A name, after the `.` or `?.` that follows this operand.
    Name(Operand, bool),
    /// An operator, an access or a delimiter, after this operand.
    Operator(Operand),
}

/// What was read of an expression.
#[derive(Drop)]
pub struct ExprState {
    pub(crate) frames: Stack<Frame>,
    pub(crate) expected: Expected,
}

impl ExprState {
    /// The state before the first token. Takes no memory.
    pub fn start(alloc: Global) -> ExprState
        ensures { result ≡ expr_start }
    {
        ExprState {
            frames: Stack::empty(alloc),
            expected: Expected::Operand,
        }
    }

    /// Takes a token, and says whether some expression goes on with it; if none does, `given` has what was read before
    /// it, where that is a whole expression.
    #[tactic(auto, using(crate::proofs::ExprEnding::ended))]
    pub fn step(&mut self, alloc: Global, token: &Token) -> Result<bool, OutOfMemory>
        ensures { IfOk result (λ on. stepped on self.new ≡ expr_step self.old token.now) }
    {
        if self.is_ended_by(token) {
            return Ok(false);
        }
        match &self.expected {
            Expected::Operand => at_operand(alloc, self, token),
            _ => self.step_after(alloc, token),
        }
    }

    /// The same, with what may come next moved out, as the operand that it holds has to be.
    #[inline(never)]
    fn step_after(&mut self, alloc: Global, token: &Token) -> Result<bool, OutOfMemory>
        ensures { IfOk result (λ on. stepped on self.new ≡ expr_step self.old token.now) }
    {
        match self.take_expected() {
            Expected::Operand => at_operand(alloc, self, token),
            Expected::Name(operand, takes_null) => at_name(alloc, self, operand, takes_null, token),
            Expected::Operator(operand) => at_operator(alloc, self, operand, token),
        }
    }

    /// Whether the `}` of a command follows one operand in no frame, as is most often so: then nothing is moved.
    fn is_ended_by(&self, token: &Token) -> bool
        ensures { result ≡ is_ended self.now token.now }
    {
        match token.kind {
            TokenKind::End => self.is_alone(),
            _ => false,
        }
    }

    /// Whether what was read is one operand in no frame.
    fn is_alone(&self) -> bool
        ensures { result ≡ is_alone self.now }
    {
        match &self.expected {
            Expected::Operator(_) => has_none(&self.frames),
            _ => false,
        }
    }

    /// What may come next, for a step that says what may come after it.
    fn take_expected(&mut self) -> Expected
        ensures expected { result ≡ self.old.expected }
        ensures left { self.new.expected ≡ expected.Operand }
        ensures frames { self.new.frames ≡ self.old.frames }
    {
        replace(&mut self.expected, Expected::Operand)
    }

    /// What was read, where no expression went on with the last token; the state is of no use afterwards.
    pub fn given(&mut self) -> Option<Operand>
        ensures { result ≡ given self.old.expected }
    {
        match self.take_expected() {
            Expected::Operator(operand) => Some(operand),
            other => {
                drop(other);
                None
            }
        }
    }

    /// The nodes on the longest branch of what was read.
    pub fn depth(&self) -> u32
        ensures { result ≡ expr_depth self.now }
    {
        let height = match &self.expected {
            Expected::Operand => 0,
            Expected::Name(operand, _) => deeper(operand.height, 0),
            Expected::Operator(operand) => operand.height,
        };
        raised(&self.frames, height)
    }

    /// What was read, if it is a whole expression; the state is of no use afterwards.
    pub fn finish(&mut self, alloc: Global) -> Result<Option<Operand>, OutOfMemory>
        ensures { IfOk result (λ x. x ≡ whole_expr self.old) }
    {
        match self.take_expected() {
            Expected::Operator(operand) => {
                let operand = reduced(alloc, &mut self.frames, operand, 9)?;
                Ok(whole(&self.frames, operand))
            }
            other => {
                drop(other);
                Ok(None)
            }
        }
    }

    /// This may come next.
    fn expects(&mut self, expected: Expected) -> bool
        ensures { stepped result self.new ≡
            step_of (Some (record { frames = self.old.frames; expected = expected })) None }
    {
        self.expected = expected;
        true
    }

    /// An operand has come.
    fn has(&mut self, operand: Operand) -> bool
        ensures { stepped result self.new ≡ step_of (has self.old.frames operand) None }
    {
        self.expects(Expected::Operator(operand))
    }

    /// An operand is expected inside a further frame.
    fn opens(&mut self, frame: Frame) -> Result<bool, OutOfMemory>
        ensures { IfOk result (λ on. stepped on self.new ≡ step_of (opens self.old.frames frame) None) }
    {
        self.frames.push(frame)?;
        Ok(self.expects(Expected::Operand))
    }

    /// No expression goes on with the token, and what was read before it is none.
    fn ends_without(&mut self) -> bool
        ensures { stepped result self.new ≡ End None }
    {
        self.expected = Expected::Operand;
        false
    }

    /// No expression goes on with the token, and what was read before it is this one.
    fn ends_with(&mut self, operand: Operand) -> bool
        ensures { stepped result self.new ≡ End (Some operand) }
    {
        self.expected = Expected::Operator(operand);
        false
    }
}

/// Whether no frame is open.
fn has_none(frames: &Stack<Frame>) -> bool
    ensures { result ≡ has_none frames.now }
{
    match frames.top() {
        Some(_) => false,
        None => true,
    }
}

/// The operand, where no frame is open around it.
fn whole(frames: &Stack<Frame>, operand: Operand) -> Option<Operand>
    ensures { result ≡ whole (in_frames frames.now operand) }
{
    match frames.top() {
        Some(_) => {
            drop(operand);
            None
        }
        None => Some(operand),
    }
}

/// A token where an operand is expected.
#[inline(never)]
fn at_operand(alloc: Global, state: &mut ExprState, token: &Token) -> Result<bool, OutOfMemory>
    ensures { IfOk result (λ on.
        stepped on state.new ≡ operand_step state.old.frames token.now (terminal_of token.now)) }
{
    match Terminal::of(token) {
        Terminal::Null => has_atom(alloc, state, ExprNode::Null, token),
        Terminal::Bool(value) => has_atom(alloc, state, ExprNode::Bool(value), token),
        Terminal::Int(value) => has_atom(alloc, state, ExprNode::Int(value), token),
        Terminal::Str => {
            let text = token.text.copy(alloc)?;
            has_atom(alloc, state, ExprNode::Str(text), token)
        }
        Terminal::Variable => {
            let name = token.text.copy(alloc)?;
            has_atom(alloc, state, ExprNode::Var(name), token)
        }
        Terminal::Not => state.opens(Frame::Pending(Pending::Not(token.span))),
        Terminal::Minus => state.opens(Frame::Pending(Pending::Neg(token.span))),
        Terminal::OpenParen => state.opens(Frame::Bracket(Bracket::Paren(token.span))),
        _ => Ok(state.ends_without()),
    }
}

/// A literal or variable has come.
fn has_atom(
    alloc: Global,
    state: &mut ExprState,
    node: ExprNode,
    token: &Token,
) -> Result<bool, OutOfMemory>
    ensures { IfOk result (λ on. stepped on state.new ≡ step_of (has state.old.frames (atom node token.now)) None) }
{
    Ok(state.has(Operand::atom(alloc, node, token)?))
}

/// A token after a `.` or `?.`.
#[inline(never)]
fn at_name(
    alloc: Global,
    state: &mut ExprState,
    operand: Operand,
    takes_null: bool,
    token: &Token,
) -> Result<bool, OutOfMemory>
    ensures { IfOk result (λ on.
        stepped on state.new ≡ name_step state.old.frames operand takes_null token.now token.now.kind) }
{
    match token.kind {
        TokenKind::Word => Ok(state.has(operand.member(alloc, takes_null, token)?)),
        _ => {
            drop(operand);
            Ok(state.ends_without())
        }
    }
}

/// A token after an operand.
#[inline(never)]
fn at_operator(
    alloc: Global,
    state: &mut ExprState,
    operand: Operand,
    token: &Token,
) -> Result<bool, OutOfMemory>
    ensures { IfOk result (λ on.
        stepped on state.new ≡ operator_step state.old.frames operand token.now (terminal_of token.now)) }
{
    match Terminal::of(token) {
        Terminal::Dot(takes_null) => Ok(state.expects(Expected::Name(operand, takes_null))),
        Terminal::OpenBracket(takes_null) => open_bracket(state, operand, takes_null),
        Terminal::Infix(op) => infix(alloc, state, operand, op),
        Terminal::Minus => infix(alloc, state, operand, BinaryOp::Sub),
        Terminal::Coalesce => coalesce(alloc, state, operand),
        Terminal::Question => question(alloc, state, operand),
        Terminal::Colon => colon(alloc, state, operand),
        Terminal::CloseParen => close_paren(alloc, state, operand, token),
        Terminal::CloseBracket => close_bracket(alloc, state, operand, token),
        _ => ends(alloc, state, operand),
    }
}

/// A token with which no expression goes on, after an operand.
#[inline(never)]
fn ends(alloc: Global, state: &mut ExprState, operand: Operand) -> Result<bool, OutOfMemory>
    ensures { IfOk result (λ on. stepped on state.new ≡ End (whole (reduced 9 state.old.frames operand))) }
{
    let operand = reduced(alloc, &mut state.frames, operand, 9)?;
    Ok(has_given(state, operand))
}

/// What was read is this operand, where no frame is open around it.
fn has_given(state: &mut ExprState, operand: Operand) -> bool
    ensures { stepped result state.new ≡ End (whole (in_frames state.old.frames operand)) }
{
    match whole(&state.frames, operand) {
        Some(operand) => state.ends_with(operand),
        None => state.ends_without(),
    }
}

/// A `[` or `?[`.
#[inline(never)]
fn open_bracket(
    state: &mut ExprState,
    operand: Operand,
    takes_null: bool,
) -> Result<bool, OutOfMemory>
    ensures { IfOk result (λ on. stepped on state.new ≡
        step_of (opens state.old.frames (frame.Bracket (bracket.Index operand takes_null))) None) }
{
    state.opens(Frame::Bracket(Bracket::Index(operand, takes_null)))
}

/// An operator of the levels 3 to 8.
#[inline(never)]
fn infix(
    alloc: Global,
    state: &mut ExprState,
    operand: Operand,
    op: BinaryOp,
) -> Result<bool, OutOfMemory>
    ensures { IfOk result (λ on. stepped on state.new ≡
        step_of (infix_next (reduced (level_of op) state.old.frames operand) op) None) }
{
    let operand = reduced(alloc, &mut state.frames, operand, level_of(op))?;
    state.opens(Frame::Pending(Pending::Binary(op, operand)))
}

/// A `?:` or `??`.
#[inline(never)]
fn coalesce(alloc: Global, state: &mut ExprState, operand: Operand) -> Result<bool, OutOfMemory>
    ensures { IfOk result (λ on. stepped on state.new ≡
        step_of (coalesce_next (reduced 8 state.old.frames operand)) None) }
{
    let operand = reduced(alloc, &mut state.frames, operand, 8)?;
    state.opens(Frame::Pending(Pending::Coalesce(operand)))
}

/// The `?` of a `c ? a : b`.
#[inline(never)]
fn question(alloc: Global, state: &mut ExprState, operand: Operand) -> Result<bool, OutOfMemory>
    ensures { IfOk result (λ on. stepped on state.new ≡
        step_of (question_next (reduced 8 state.old.frames operand)) None) }
{
    let operand = reduced(alloc, &mut state.frames, operand, 8)?;
    state.opens(Frame::Bracket(Bracket::Then(operand)))
}

/// The `:` of a `c ? a : b`, or of what an expression stands in.
#[inline(never)]
fn colon(alloc: Global, state: &mut ExprState, operand: Operand) -> Result<bool, OutOfMemory>
    ensures { IfOk result (λ on. stepped on state.new ≡
        step_of (colon_next (reduced 9 state.old.frames operand).frames (reduced 9 state.old.frames operand).operand)
        (whole (reduced 9 state.old.frames operand))) }
{
    let operand = reduced(alloc, &mut state.frames, operand, 9)?;
    colon_after(state, operand)
}

/// A `:` after an operand that no operator takes.
fn colon_after(state: &mut ExprState, operand: Operand) -> Result<bool, OutOfMemory>
    ensures { IfOk result (λ on. stepped on state.new ≡
        step_of (colon_next state.old.frames operand) (whole (in_frames state.old.frames operand))) }
{
    match state.frames.pop() {
        Some(Frame::Bracket(bracket)) => middle(state, bracket, operand),
        Some(Frame::Pending(pending)) => {
            drop(pending);
            drop(operand);
            Ok(state.ends_without())
        }
        None => Ok(state.ends_with(operand)),
    }
}

/// The `:` after an operand in a bracket.
fn middle(state: &mut ExprState, bracket: Bracket, operand: Operand) -> Result<bool, OutOfMemory>
    ensures { IfOk result (λ on. stepped on state.new ≡
        step_of (colon_next (frame.Bracket bracket ∷ state.old.frames) operand) None) }
{
    match bracket {
        Bracket::Then(condition) => state.opens(Frame::Pending(Pending::Else(condition, operand))),
        Bracket::Paren(_) => {
            drop(operand);
            Ok(state.ends_without())
        }
        Bracket::Index(of, _) => {
            drop(of);
            drop(operand);
            Ok(state.ends_without())
        }
    }
}

/// A `)`.
#[inline(never)]
fn close_paren(
    alloc: Global,
    state: &mut ExprState,
    operand: Operand,
    token: &Token,
) -> Result<bool, OutOfMemory>
    ensures { IfOk result (λ on. stepped on state.new ≡
        step_of (paren_next (reduced 9 state.old.frames operand).frames (reduced 9 state.old.frames operand).operand
        token.now) (whole (reduced 9 state.old.frames operand))) }
{
    let operand = reduced(alloc, &mut state.frames, operand, 9)?;
    Ok(paren_after(state, operand, token))
}

/// A `)` after an operand that no operator takes.
fn paren_after(state: &mut ExprState, operand: Operand, token: &Token) -> bool
    ensures { stepped result state.new ≡
        step_of (paren_next state.old.frames operand token.now) (whole (in_frames state.old.frames operand)) }
{
    match state.frames.pop() {
        Some(Frame::Bracket(bracket)) => in_parens(state, bracket, operand, token),
        Some(Frame::Pending(pending)) => {
            drop(pending);
            drop(operand);
            state.ends_without()
        }
        None => state.ends_with(operand),
    }
}

/// The `)` after an operand in a bracket.
fn in_parens(state: &mut ExprState, bracket: Bracket, operand: Operand, token: &Token) -> bool
    ensures { stepped result state.new ≡
        step_of (paren_next (frame.Bracket bracket ∷ state.old.frames) operand token.now) None }
{
    match bracket {
        Bracket::Paren(opening) => state.has(operand.in_parens(opening, token.span)),
        Bracket::Then(condition) => {
            drop(condition);
            drop(operand);
            state.ends_without()
        }
        Bracket::Index(of, _) => {
            drop(of);
            drop(operand);
            state.ends_without()
        }
    }
}

/// A `]`.
#[inline(never)]
fn close_bracket(
    alloc: Global,
    state: &mut ExprState,
    operand: Operand,
    token: &Token,
) -> Result<bool, OutOfMemory>
    ensures { IfOk result (λ on. stepped on state.new ≡
        step_of (bracket_next (reduced 9 state.old.frames operand).frames (reduced 9 state.old.frames operand).operand
        token.now) (whole (reduced 9 state.old.frames operand))) }
{
    let operand = reduced(alloc, &mut state.frames, operand, 9)?;
    bracket_after(alloc, state, operand, token)
}

/// A `]` after an operand that no operator takes.
fn bracket_after(
    alloc: Global,
    state: &mut ExprState,
    operand: Operand,
    token: &Token,
) -> Result<bool, OutOfMemory>
    ensures { IfOk result (λ on. stepped on state.new ≡
        step_of (bracket_next state.old.frames operand token.now) (whole (in_frames state.old.frames operand))) }
{
    match state.frames.pop() {
        Some(Frame::Bracket(bracket)) => index(alloc, state, bracket, operand, token),
        Some(Frame::Pending(pending)) => {
            drop(pending);
            drop(operand);
            Ok(state.ends_without())
        }
        None => Ok(state.ends_with(operand)),
    }
}

/// The `]` after an operand in a bracket.
fn index(
    alloc: Global,
    state: &mut ExprState,
    bracket: Bracket,
    operand: Operand,
    token: &Token,
) -> Result<bool, OutOfMemory>
    ensures { IfOk result (λ on. stepped on state.new ≡
        step_of (bracket_next (frame.Bracket bracket ∷ state.old.frames) operand token.now) None) }
{
    match bracket {
        Bracket::Index(of, takes_null) => {
            Ok(state.has(of.indexed(alloc, takes_null, operand, token.span)?))
        }
        Bracket::Paren(_) => {
            drop(operand);
            Ok(state.ends_without())
        }
        Bracket::Then(condition) => {
            drop(condition);
            drop(operand);
            Ok(state.ends_without())
        }
    }
}
