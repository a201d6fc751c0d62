//! Programs in a small text form: the ops in their order, and then the templates. A block is `first-end`, and a print
//! is its expression, `@` and its place. Of expressions there are variables, literals, members and some operators of
//! two.

use plural_rules::Category;
use soy_base::{Kind, OutOfMemory, Place, push_text};
use soy_tree::{BinaryOp, Expr, ExprNode};
use std::alloc::Global;
use template_ir::{Block, Callee, HandedBy, Op, PluralOp, ProgramParts, SelectOp};

fn push_number(alloc: Global, out: &mut String, number: u64) -> Result<(), OutOfMemory> {
    let digits = number.to_string(alloc)?;
    push_text(out, digits.as_str())
}

fn push_block(alloc: Global, out: &mut String, block: &Block) -> Result<(), OutOfMemory> {
    push_number(alloc, out, block.first as u64)?;
    push_text(out, "-")?;
    push_number(alloc, out, block.end as u64)
}

/// A block behind a word.
fn push_arm(alloc: Global, out: &mut String, word: &str, block: &Block) -> Result<(), OutOfMemory> {
    push_text(out, " ")?;
    push_text(out, word)?;
    push_text(out, " ")?;
    push_block(alloc, out, block)
}

fn push_other(alloc: Global, out: &mut String, block: &Option<Block>) -> Result<(), OutOfMemory> {
    match block {
        None => Ok(()),
        Some(block) => push_arm(alloc, out, "else", block),
    }
}

/// A variable or a literal.
fn push_atom(alloc: Global, out: &mut String, expr: &Expr) -> Result<(), OutOfMemory> {
    match expr.node.get() {
        ExprNode::Null => push_text(out, "null"),
        ExprNode::Var(name) => {
            push_text(out, "$")?;
            push_text(out, name.text())
        }
        ExprNode::Int(number) => {
            let digits = number.to_string(alloc)?;
            push_text(out, digits.as_str())
        }
        ExprNode::Str(text) => {
            push_text(out, "'")?;
            push_text(out, text.text())?;
            push_text(out, "'")
        }
        _ => push_text(out, "?"),
    }
}

/// An operator between two variables or literals.
fn push_pair(
    alloc: Global,
    out: &mut String,
    left: &Expr,
    word: &str,
    right: &Expr,
) -> Result<(), OutOfMemory> {
    push_atom(alloc, out, left)?;
    push_text(out, word)?;
    push_atom(alloc, out, right)
}

fn operator_word(operator: BinaryOp) -> &'static str {
    match operator {
        BinaryOp::Add => " + ",
        BinaryOp::Sub => " - ",
        BinaryOp::Gt => " > ",
        _ => " ? ",
    }
}

fn push_expr(alloc: Global, out: &mut String, expr: &Expr) -> Result<(), OutOfMemory> {
    match expr.node.get() {
        ExprNode::Member(of, name, _) => {
            push_atom(alloc, out, of)?;
            push_text(out, ".")?;
            push_text(out, name.text())
        }
        ExprNode::Binary(operator, left, right) => {
            push_pair(alloc, out, left, operator_word(*operator), right)
        }
        ExprNode::Coalesce(left, right) => push_pair(alloc, out, left, " ?: ", right),
        _ => push_atom(alloc, out, expr),
    }
}

fn place_word(place: Place) -> &'static str {
    match place {
        Place::Text => "text",
        Place::Rcdata => "rcdata",
        Place::Tag => "tag",
        Place::Attr => "attr",
        Place::UriStart => "uri",
        Place::UriQuery => "query",
        Place::JsValue => "script",
        Place::JsDouble => "double",
        Place::CssValue => "style",
        Place::Plain => "plain",
        _ => "?",
    }
}

fn kind_word(kind: Kind) -> &'static str {
    match kind {
        Kind::Html => "html",
        Kind::Attributes => "attributes",
        Kind::Text => "text",
    }
}

fn category_word(category: Category) -> &'static str {
    match category {
        Category::Zero => "zero",
        Category::One => "one",
        Category::Two => "two",
        Category::Few => "few",
        Category::Many => "many",
        Category::Other => "other",
    }
}

fn push_call(alloc: Global, out: &mut String, callee: &Callee) -> Result<(), OutOfMemory> {
    push_text(out, "call ")?;
    push_number(alloc, out, callee.template as u64)?;
    for handed in callee.given.items() {
        push_text(out, " ")?;
        push_text(out, handed.name.text())?;
        match &handed.by {
            HandedBy::Plain(expr) => {
                push_text(out, "=")?;
                push_expr(alloc, out, expr)?;
            }
            HandedBy::Block(kind, block) => {
                push_text(out, ":")?;
                push_arm(alloc, out, kind_word(*kind), block)?;
            }
            HandedBy::Same => push_text(out, "!")?,
        }
    }
    push_text(out, " @")?;
    push_text(out, place_word(callee.place))?;
    push_text(out, " at ")?;
    push_number(alloc, out, callee.at)
}

fn push_plural(alloc: Global, out: &mut String, plural: &PluralOp) -> Result<(), OutOfMemory> {
    push_text(
        out,
        if plural.ordinal {
            "ordinal "
        } else {
            "plural "
        },
    )?;
    push_expr(alloc, out, &plural.number)?;
    push_text(out, " less ")?;
    push_number(alloc, out, plural.offset)?;
    for arm in plural.exact.items() {
        let digits = arm.is.to_string(alloc)?;
        push_arm(alloc, out, digits.as_str(), &arm.body)?;
    }
    for arm in plural.named.items() {
        push_arm(alloc, out, category_word(arm.category), &arm.body)?;
    }
    Ok(())
}

fn push_select(alloc: Global, out: &mut String, select: &SelectOp) -> Result<(), OutOfMemory> {
    push_text(out, "select ")?;
    push_expr(alloc, out, &select.word)?;
    for arm in select.arms.items() {
        push_arm(alloc, out, arm.is.text(), &arm.body)?;
    }
    Ok(())
}

fn push_op(alloc: Global, out: &mut String, op: &Op) -> Result<(), OutOfMemory> {
    match op {
        Op::Static(text) => {
            push_text(out, "'")?;
            push_text(out, text.text())?;
            push_text(out, "'")
        }
        Op::Print(expr, place) => {
            push_expr(alloc, out, expr)?;
            push_text(out, "@")?;
            push_text(out, place_word(*place))
        }
        Op::Number(place) => {
            push_text(out, "#@")?;
            push_text(out, place_word(*place))
        }
        Op::If(branches, other) => {
            push_text(out, "if")?;
            for branch in branches.items() {
                push_text(out, " ")?;
                push_expr(alloc, out, &branch.when)?;
                push_text(out, " ")?;
                push_block(alloc, out, &branch.body)?;
            }
            push_other(alloc, out, other)
        }
        Op::Switch(subject, choices, other) => {
            push_text(out, "switch ")?;
            push_expr(alloc, out, subject)?;
            for choice in choices.items() {
                for value in choice.values.items() {
                    push_text(out, " ")?;
                    push_expr(alloc, out, value)?;
                }
                push_text(out, " ")?;
                push_block(alloc, out, &choice.body)?;
            }
            push_other(alloc, out, other)
        }
        Op::For(name, index, list, body) => {
            push_text(out, "for ")?;
            push_text(out, name.get().text())?;
            if let Some(index) = index {
                push_text(out, ",")?;
                push_text(out, index.get().text())?;
            }
            push_text(out, " ")?;
            push_expr(alloc, out, list)?;
            push_text(out, " ")?;
            push_block(alloc, out, body)
        }
        Op::Let(name, expr) => {
            push_text(out, "let ")?;
            push_text(out, name.text())?;
            push_text(out, "=")?;
            push_expr(alloc, out, expr)
        }
        Op::LetBlock(name, kind, body) => {
            push_text(out, "let ")?;
            push_text(out, name.text())?;
            push_arm(alloc, out, kind_word(*kind), body)
        }
        Op::Call(callee) => push_call(alloc, out, callee.get()),
        Op::Plural(plural) => push_plural(alloc, out, plural.get()),
        Op::Select(select) => push_select(alloc, out, select.get()),
    }
}

/// The text form of a program, with `; ` between ops and ` | ` before each template.
pub(crate) fn written(alloc: Global, program: &ProgramParts) -> Result<String, OutOfMemory> {
    let mut out = String::new(alloc);
    let mut first = true;
    for op in program.ops.items() {
        push_text(&mut out, if first { "" } else { "; " })?;
        first = false;
        push_op(alloc, &mut out, op)?;
    }
    for template in program.templates.items() {
        push_text(&mut out, " | ")?;
        push_text(&mut out, template.name.text())?;
        push_text(&mut out, " ")?;
        push_block(alloc, &mut out, &template.body)?;
    }
    Ok(out)
}
