//! Contents of placeholders that are the same.

ghost use Rattle.std.specs.Prelude.{◌≡◌, map, option_map, slice_get};
ghost use Rattle.soy_rules.specs.Placeholders.{are_same_message_items, is_same_content, is_same_message_item};
ghost use Rattle.soy_rules.specs.SameExpression.{is_same_expr};
ghost use Rattle.soy_tree.specs.ViewExpressions.{view_expr};
ghost use Rattle.msg_extract.specs.Views.ViewKeys.{view_key, view_key_item};

use crate::content_key::{ContentKey, KeyItem};
use soy_tree::{Expr, ExprNode};

/// Whether two expressions are the same tree, spans aside.
#[cycle(same_exprs)]
fn is_same_expr(left: &Expr, right: &Expr) -> bool
    ensures { result ≡ is_same_expr (view_expr left.now) (view_expr right.now) }
{
    match (left.node.get(), right.node.get()) {
        (ExprNode::Null, ExprNode::Null) => true,
        (ExprNode::Bool(a), ExprNode::Bool(b)) => *a == *b,
        (ExprNode::Int(a), ExprNode::Int(b)) => *a == *b,
        (ExprNode::Str(a), ExprNode::Str(b)) => a.is(b.text()),
        (ExprNode::Var(a), ExprNode::Var(b)) => a.is(b.text()),
        (ExprNode::Member(a, x, p), ExprNode::Member(b, y, q)) => {
            is_same_expr(a, b) && x.is(y.text()) && *p == *q
        }
        (ExprNode::Index(a, i, p), ExprNode::Index(b, j, q)) => {
            is_same_expr(a, b) && is_same_expr(i, j) && *p == *q
        }
        (ExprNode::Neg(a), ExprNode::Neg(b)) => is_same_expr(a, b),
        (ExprNode::Not(a), ExprNode::Not(b)) => is_same_expr(a, b),
        (ExprNode::Binary(f, a, c), ExprNode::Binary(g, b, d)) => {
            *f == *g && is_same_expr(a, b) && is_same_expr(c, d)
        }
        (ExprNode::Coalesce(a, c), ExprNode::Coalesce(b, d)) => {
            is_same_expr(a, b) && is_same_expr(c, d)
        }
        (ExprNode::Cond(a, c, e), ExprNode::Cond(b, d, f)) => {
            is_same_expr(a, b) && is_same_expr(c, d) && is_same_expr(e, f)
        }
        _ => false,
    }
}

/// Whether two characters or prints are the same.
fn is_same_item(left: &KeyItem, right: &KeyItem) -> bool
    ensures { result ≡ is_same_message_item (view_key_item left.now) (view_key_item right.now) }
{
    match (left, right) {
        (KeyItem::Character(c, _), KeyItem::Character(d, _)) => *c == *d,
        (KeyItem::Printed(e, _, _), KeyItem::Printed(f, _, _)) => is_same_expr(e, f),
        (KeyItem::Character(_, _), KeyItem::Printed(_, _, _)) => false,
        (KeyItem::Printed(_, _, _), KeyItem::Character(_, _)) => false,
    }
}

/// An item by its number, if there is one.
#[tactic(auto, using(crate::proofs::ItemLists::map_get))]
fn item_at(items: &[KeyItem], number: usize) -> Option<&KeyItem>
    ensures { option_map (λ item. view_key_item item.now) result ≡ slice_get (map view_key_item items.now) number }
{
    items.get(number)
}

/// Whether two tags have the same texts and prints.
fn are_same_items(left: &[KeyItem], right: &[KeyItem]) -> bool
    ensures { result ≡ are_same_message_items (map view_key_item left.now) (map view_key_item right.now) }
{
    let mut number = 0usize;
    for item in left {
        let Some(other) = item_at(right, number) else {
            return false;
        };
        if !is_same_item(item, other) {
            return false;
        }
        number += 1;
    }
    match item_at(right, number) {
        Some(_) => false,
        None => true,
    }
}

/// Whether two contents are the same.
pub fn is_same(left: &ContentKey, right: &ContentKey) -> bool
    ensures { result ≡ is_same_content (view_key left.now) (view_key right.now) }
{
    match (left, right) {
        (ContentKey::OfExpr(e), ContentKey::OfExpr(f)) => is_same_expr(e, f),
        (ContentKey::OfTag(tag), ContentKey::OfTag(other)) => are_same_items(
            tag.items(),
            other.items(),
        ),
        (ContentKey::OfExpr(_), ContentKey::OfTag(_)) => false,
        (ContentKey::OfTag(_), ContentKey::OfExpr(_)) => false,
    }
}
