//! What a row of the grammar makes of its parts.

ghost use Rattle.std.specs.Prelude.{◌≡◌, IfOk};
ghost use Rattle.expr_parser.specs.Depths.{deeper};
ghost use Rattle.expr_parser.specs.Operands.{joined, made, atom, negated, inverted, combined, coalesced};
ghost use Rattle.expr_parser.specs.Operands.{conditional, member, indexed, in_parens, level_of};

use soy_base::{OutOfMemory, Span};
use soy_lexer::Token;
use soy_tree::{BinaryOp, Expr, ExprNode};
use std::alloc::Global;

/// An expression that was read, with the span of all its tokens, its parentheses among them, and the number of nodes
/// on its longest branch, each parenthesis counted.
#[derive(Drop)]
pub struct Operand {
    pub span: Span,
    pub height: u32,
    pub expr: Expr,
}

/// One more than the larger.
pub(crate) fn deeper(a: u32, b: u32) -> u32
    ensures { result ≡ deeper a b }
{
    a.max(b).saturating_add(1)
}

/// From the start of the first to the end of the second.
pub(crate) fn joined(a: Span, b: Span) -> Span
    ensures { result ≡ joined a b }
{
    Span {
        start: a.start,
        end: b.end,
    }
}

/// The level of an operator between two operands, the tightest first.
pub(crate) fn level_of(op: BinaryOp) -> u8
    ensures { result ≡ level_of op }
{
    match op {
        BinaryOp::Mul | BinaryOp::Rem => 3,
        BinaryOp::Add | BinaryOp::Sub => 4,
        BinaryOp::Lt | BinaryOp::Gt | BinaryOp::Le | BinaryOp::Ge => 5,
        BinaryOp::Eq | BinaryOp::Ne => 6,
        BinaryOp::And => 7,
        BinaryOp::Or => 8,
    }
}

impl Operand {
    /// A node over the whole span.
    fn made(alloc: Global, node: ExprNode, span: Span, height: u32) -> Result<Operand, OutOfMemory>
        ensures { IfOk result (λ x. x ≡ made node span height) }
    {
        let expr = Expr::new(alloc, node, span)?;
        Ok(Operand { span, height, expr })
    }

    /// A literal or variable.
    pub(crate) fn atom(alloc: Global, node: ExprNode, token: &Token) -> Result<Operand, OutOfMemory>
        ensures { IfOk result (λ x. x ≡ atom node token.now) }
    {
        Operand::made(alloc, node, token.span, deeper(0, 0))
    }

    /// `-` before an operand.
    pub(crate) fn negated(self, alloc: Global, span: Span) -> Result<Operand, OutOfMemory>
        ensures { IfOk result (λ x. x ≡ negated span self) }
    {
        let whole = joined(span, self.span);
        let height = deeper(0, self.height);
        Operand::made(alloc, ExprNode::Neg(self.expr), whole, height)
    }

    /// `not` before an operand.
    pub(crate) fn inverted(self, alloc: Global, span: Span) -> Result<Operand, OutOfMemory>
        ensures { IfOk result (λ x. x ≡ inverted span self) }
    {
        let whole = joined(span, self.span);
        let height = deeper(0, self.height);
        Operand::made(alloc, ExprNode::Not(self.expr), whole, height)
    }

    /// An operator between two operands.
    pub(crate) fn combined(
        self,
        alloc: Global,
        op: BinaryOp,
        right: Operand,
    ) -> Result<Operand, OutOfMemory>
        ensures { IfOk result (λ x. x ≡ combined op self right) }
    {
        let whole = joined(self.span, right.span);
        let height = deeper(self.height, right.height);
        Operand::made(
            alloc,
            ExprNode::Binary(op, self.expr, right.expr),
            whole,
            height,
        )
    }

    /// `?:` between two operands.
    pub(crate) fn coalesced(self, alloc: Global, right: Operand) -> Result<Operand, OutOfMemory>
        ensures { IfOk result (λ x. x ≡ coalesced self right) }
    {
        let whole = joined(self.span, right.span);
        let height = deeper(self.height, right.height);
        Operand::made(
            alloc,
            ExprNode::Coalesce(self.expr, right.expr),
            whole,
            height,
        )
    }

    /// `c ? a : b`.
    pub(crate) fn conditional(
        self,
        alloc: Global,
        yes: Operand,
        no: Operand,
    ) -> Result<Operand, OutOfMemory>
        ensures { IfOk result (λ x. x ≡ conditional self yes no) }
    {
        let whole = joined(self.span, no.span);
        let height = deeper(self.height.max(yes.height), no.height);
        Operand::made(
            alloc,
            ExprNode::Cond(self.expr, yes.expr, no.expr),
            whole,
            height,
        )
    }

    /// The access `.name`, or `?.name` where it takes null.
    pub(crate) fn member(
        self,
        alloc: Global,
        takes_null: bool,
        name: &Token,
    ) -> Result<Operand, OutOfMemory>
        ensures { IfOk result (λ x. x ≡ member self takes_null name.now) }
    {
        let whole = joined(self.span, name.span);
        let height = deeper(self.height, 0);
        let text = name.text.copy(alloc)?;
        Operand::made(
            alloc,
            ExprNode::Member(self.expr, text, takes_null),
            whole,
            height,
        )
    }

    /// The access `[index]`, or `?[index]` where it takes null.
    pub(crate) fn indexed(
        self,
        alloc: Global,
        takes_null: bool,
        index: Operand,
        close: Span,
    ) -> Result<Operand, OutOfMemory>
        ensures { IfOk result (λ x. x ≡ indexed self takes_null index close) }
    {
        let whole = joined(self.span, close);
        let height = deeper(self.height, index.height);
        Operand::made(
            alloc,
            ExprNode::Index(self.expr, index.expr, takes_null),
            whole,
            height,
        )
    }

    /// An operand in parentheses, which are no node of the tree.
    pub(crate) fn in_parens(self, opening: Span, close: Span) -> Operand
        ensures { result ≡ in_parens opening self close }
    {
        Operand {
            span: joined(opening, close),
            height: deeper(0, self.height),
            expr: self.expr,
        }
    }
}
