//! Expressions.

ghost use Rattle.std.specs.Prelude.{◌≡◌, IfOk};

use soy_base::{Boxed, OutOfMemory, Seq, Span, Text};
use std::alloc::Global;

/// An expression, and where it stands: from its first character on, parentheses around it left out.
#[derive(Drop)]
#[cycle(exprs)]
pub struct Expr {
    pub node: Boxed<ExprNode>,
    pub span: Span,
}

/// What an expression is; the bool of an access says that it takes null.
#[derive(Drop)]
#[cycle(exprs)]
pub enum ExprNode {
    Null,
    Bool(bool),
    Int(i64),
    Str(Text),
    Var(Text),
    /// `.x` and `?.x`.
    Member(Expr, Text, bool),
    /// `[e]` and `?[e]`.
    Index(Expr, Expr, bool),
    Neg(Expr),
    Not(Expr),
    Binary(BinaryOp, Expr, Expr),
    /// `a ?: b`, which is also written `a ?? b`.
    Coalesce(Expr, Expr),
    /// `c ? a : b`.
    Cond(Expr, Expr, Expr),
}

/// An operator of two operands: `*`, `%`, `+`, `-`, `<`, `>`, `<=`, `>=`, `==`, `!=`, `and` and `or`.
#[derive(Clone, Copy, Debug, PartialEq, Eq)]
pub enum BinaryOp {
    Mul,
    Rem,
    Add,
    Sub,
    Lt,
    Gt,
    Le,
    Ge,
    Eq,
    Ne,
    And,
    Or,
}

impl Expr {
    /// The expression of a node, which stands at a span.
    pub fn new(alloc: Global, node: ExprNode, span: Span) -> Result<Expr, OutOfMemory>
        ensures { IfOk result (λ e. e ≡ record { node = node; span = span }) }
    {
        let node = Boxed::new(alloc, node)?;
        Ok(Expr { node, span })
    }

    /// An equal expression.
    #[cycle(copying_exprs)]
    pub fn copy(&self, alloc: Global) -> Result<Expr, OutOfMemory>
        ensures { IfOk result (λ e. e ≡ self.now) }
    {
        Expr::new(alloc, self.node.get().copy(alloc)?, self.span)
    }
}

impl ExprNode {
    /// An equal node.
    #[cycle(copying_exprs)]
    fn copy(&self, alloc: Global) -> Result<ExprNode, OutOfMemory>
        ensures { IfOk result (λ e. e ≡ self.now) }
    {
        Ok(match self {
            ExprNode::Null => ExprNode::Null,
            ExprNode::Bool(is) => ExprNode::Bool(*is),
            ExprNode::Int(number) => ExprNode::Int(*number),
            ExprNode::Str(text) => ExprNode::Str(text.copy(alloc)?),
            ExprNode::Var(name) => ExprNode::Var(name.copy(alloc)?),
            ExprNode::Member(of, name, takes_null) => {
                ExprNode::Member(of.copy(alloc)?, name.copy(alloc)?, *takes_null)
            }
            ExprNode::Index(of, index, takes_null) => {
                ExprNode::Index(of.copy(alloc)?, index.copy(alloc)?, *takes_null)
            }
            ExprNode::Neg(of) => ExprNode::Neg(of.copy(alloc)?),
            ExprNode::Not(of) => ExprNode::Not(of.copy(alloc)?),
            ExprNode::Binary(op, left, right) => {
                ExprNode::Binary(*op, left.copy(alloc)?, right.copy(alloc)?)
            }
            ExprNode::Coalesce(left, right) => {
                ExprNode::Coalesce(left.copy(alloc)?, right.copy(alloc)?)
            }
            ExprNode::Cond(when, left, right) => {
                ExprNode::Cond(when.copy(alloc)?, left.copy(alloc)?, right.copy(alloc)?)
            }
        })
    }
}

/// Equal expressions.
pub(crate) fn copied_exprs(alloc: Global, exprs: &[Expr]) -> Result<Seq<Expr>, OutOfMemory>
    ensures { IfOk result (λ es. es ≡ exprs.now) }
{
    let mut copied = Vec::new(alloc);
    for expr in exprs {
        copied.push(expr.copy(alloc)?)?;
    }
    Ok(Seq::new(copied))
}
