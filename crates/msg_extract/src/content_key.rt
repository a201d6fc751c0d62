//! Contents of names as keys of a set, which finds one without a walk over the others.

ghost use Rattle.std.specs.Prelude.{◌≡◌, fold, map, IfOk};
ghost use Rattle.std.specs.Cmp.{on_equiv, on_per};
ghost use Rattle.soy_rules.specs.Placeholders.{ExprContent, is_same_content};
ghost use Rattle.soy_rules.specs.SameExpression.{op_number};
ghost use Rattle.soy_tree.specs.ViewExpressions.{view_expr};
ghost use Rattle.msg_extract.specs.ContentHash.{bool_input, content_input, expr_input, item_input};
ghost use Rattle.msg_extract.specs.ContentHash.{items_input, name_input};
ghost use Rattle.msg_extract.specs.ContentLaws.{content_alike, contents_equivalence, contents_partial};
ghost use Rattle.msg_extract.specs.Views.ViewItems.{view_item};
ghost use Rattle.msg_extract.specs.Views.ViewKeys.{view_key, view_key_item};
ghost use Rattle.msg_extract.specs.Views.ViewPieces.{content_of};

use crate::item::Item;
use crate::piece::Named;
use crate::same::is_same;
use soy_base::{OutOfMemory, Row, Span, Text, copied_name};
use soy_tree::{BinaryOp, Expr, ExprNode};
use std::alloc::Global;
use std::hash::{Hash, Hasher};

/// A copy of a character or of a print of a tag.
#[derive(Drop)]
pub enum KeyItem {
    Character(char, Span),
    Printed(Expr, Option<Text>, Span),
}

/// What a name stands for, as a key in a set of contents: a copy, so that a set of keys borrows nothing of a message.
#[derive(Drop)]
pub enum ContentKey {
    OfExpr(Expr),
    OfTag(Row<KeyItem>),
}

impl ContentKey {
    /// The key of what is named.
    pub fn new(alloc: Global, of: &Named<'_>) -> Result<ContentKey, OutOfMemory>
        ensures { IfOk result (λ key. view_key key ≡ content_of of.now) }
    {
        match of {
            Named::Print(expr, _, _) => ContentKey::of_expr(alloc, expr),
            Named::Plural(expr) => ContentKey::of_expr(alloc, expr),
            Named::Select(expr) => ContentKey::of_expr(alloc, expr),
            Named::Tag(tag) => Ok(ContentKey::OfTag(key_items(alloc, tag.items())?)),
        }
    }

    /// The key of an expression.
    fn of_expr(alloc: Global, expr: &Expr) -> Result<ContentKey, OutOfMemory>
        ensures { IfOk result (λ key. view_key key ≡ ExprContent (view_expr expr.now)) }
    {
        Ok(ContentKey::OfExpr(expr.copy(alloc)?))
    }
}

/// Copies of the characters and prints of a tag.
#[tactic(auto, using(crate::proofs::CutSteps::map_append, crate::proofs::Texts::PieceLists::append_assoc))]
fn key_items(alloc: Global, items: &[Item<'_>]) -> Result<Row<KeyItem>, OutOfMemory>
    ensures { IfOk result (λ copied. map view_key_item copied ≡ map view_item items.now) }
{
    let mut copied = Row::empty(alloc);
    for item in items {
        copied.push(key_item(alloc, *item)?)?;
    }
    Ok(copied)
}

/// A copy of a character or of a print.
fn key_item(alloc: Global, item: Item<'_>) -> Result<KeyItem, OutOfMemory>
    ensures { IfOk result (λ copied. view_key_item copied ≡ view_item item.entry) }
{
    match item {
        Item::Character(c, span) => Ok(KeyItem::Character(c, span)),
        Item::Printed(expr, phname, span) => {
            let phname = copied_name(alloc, phname)?;
            Ok(KeyItem::Printed(expr.copy(alloc)?, phname, span))
        }
    }
}

impl PartialEq for ContentKey {
    ghost eq = { λ c d. is_same_content (view_key c) (view_key d) };

    ghost laws = { on_per view_key contents_partial };

    fn eq(&self, other: &ContentKey) -> bool {
        is_same(self, other)
    }
}

impl Eq for ContentKey {
    ghost laws = { on_equiv view_key contents_equivalence };
}

impl Hash for ContentKey {
    ghost hash_input = { λ c. content_input (view_key c) };

    ghost respects_eq = { λ c d same. content_alike (view_key c) (view_key d) same };

    fn hash<H: Hasher>(&self, state: &mut H) {
        match self {
            ContentKey::OfExpr(expr) => hash_expr(expr, state),
            ContentKey::OfTag(tag) => hash_items(tag.items(), state),
        }
    }
}

/// Hashes the characters and prints of a tag.
#[tactic(auto, using(crate::proofs::ContentHash::fed_both))]
fn hash_items<H: Hasher>(items: &[KeyItem], state: &mut H)
    ensures { state.new ≡ fold H.write state.old (items_input (map view_key_item items.now)) }
{
    for item in items {
        hash_item(item, state);
    }
}

/// Hashes a character or a print.
fn hash_item<H: Hasher>(item: &KeyItem, state: &mut H)
    ensures { state.new ≡ fold H.write state.old (item_input (view_key_item item.now)) }
{
    match item {
        KeyItem::Character(c, _) => c.hash(state),
        KeyItem::Printed(expr, _, _) => hash_expr(expr, state),
    }
}

/// Hashes a name or a text.
fn hash_name<H: Hasher>(name: &Text, state: &mut H)
    ensures { state.new ≡ fold H.write state.old (name_input name.now) }
{
    name.text().hash(state);
}

/// Hashes a bool.
fn hash_bool<H: Hasher>(is: bool, state: &mut H)
    ensures { state.new ≡ fold H.write state.old (bool_input is) }
{
    if is {
        state.write_u8(1);
    } else {
        state.write_u8(0);
    }
}

/// The number of an operator.
fn op_number(op: BinaryOp) -> u8
    ensures { result ≡ op_number op }
{
    match op {
        BinaryOp::Mul => 0,
        BinaryOp::Rem => 1,
        BinaryOp::Add => 2,
        BinaryOp::Sub => 3,
        BinaryOp::Lt => 4,
        BinaryOp::Gt => 5,
        BinaryOp::Le => 6,
        BinaryOp::Ge => 7,
        BinaryOp::Eq => 8,
        BinaryOp::Ne => 9,
        BinaryOp::And => 10,
        BinaryOp::Or => 11,
    }
}

/// Hashes an expression, its spans aside.
#[cycle(hashing)]
#[tactic(auto, using(crate::proofs::ContentHash::fed_both))]
fn hash_expr<H: Hasher>(expr: &Expr, state: &mut H)
    ensures { state.new ≡ fold H.write state.old (expr_input (view_expr expr.now)) }
{
    match expr.node.get() {
        ExprNode::Null => state.write_u8(0),
        ExprNode::Bool(is) => {
            state.write_u8(1);
            hash_bool(*is, state);
        }
        ExprNode::Int(number) => state.write_i64(*number),
        ExprNode::Str(text) => {
            state.write_u8(2);
            hash_name(text, state);
        }
        ExprNode::Var(name) => {
            state.write_u8(3);
            hash_name(name, state);
        }
        ExprNode::Member(of, name, takes_null) => {
            state.write_u8(4);
            hash_bool(*takes_null, state);
            hash_expr(of, state);
            hash_name(name, state);
        }
        ExprNode::Index(of, at, takes_null) => {
            state.write_u8(5);
            hash_bool(*takes_null, state);
            hash_expr(of, state);
            hash_expr(at, state);
        }
        ExprNode::Neg(of) => {
            state.write_u8(6);
            hash_expr(of, state);
        }
        ExprNode::Not(of) => {
            state.write_u8(7);
            hash_expr(of, state);
        }
        ExprNode::Binary(op, left, right) => {
            state.write_u8(op_number(*op));
            hash_expr(left, state);
            hash_expr(right, state);
        }
        ExprNode::Coalesce(left, right) => {
            state.write_u8(8);
            hash_expr(left, state);
            hash_expr(right, state);
        }
        ExprNode::Cond(when, then, other) => {
            state.write_u8(9);
            hash_expr(when, state);
            hash_expr(then, state);
            hash_expr(other, state);
        }
    }
}
