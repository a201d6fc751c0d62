//! Tests of what no clause says: with ample memory each call succeeds.
use soy_base::{Boxed, Dir, OutOfMemory, Seq, Span, Text};
use soy_rules::{Typed, accepts, narrow};
use soy_tree::{
    BinaryOp, Bundle, Entry, Expr, ExprNode, Field, Form, Node, Param, SoyType, Value,
    is_message_text,
};
use std::alloc::Global;

const SPAN: Span = Span { start: 3, end: 9 };

fn text_of(alloc: Global, text: &str) -> Result<Text, OutOfMemory> {
    Ok(Text::new(String::from_str(alloc, text)?))
}

fn union_of(alloc: Global, first: SoyType, second: SoyType) -> Result<SoyType, OutOfMemory> {
    let mut members = Vec::new(alloc);
    members.push(first)?;
    members.push(second)?;
    Ok(SoyType::Union(Seq::new(members)))
}

/// `[a: list<int|null>]`
fn record(alloc: Global) -> Result<SoyType, OutOfMemory> {
    let item = union_of(alloc, SoyType::Int, SoyType::Null)?;
    let of = SoyType::List(Boxed::new(alloc, item)?);
    let name = text_of(alloc, "a")?;
    let mut fields = Vec::new(alloc);
    fields.push(Field { name, of })?;
    Ok(SoyType::Fields(Seq::new(fields)))
}

fn narrowed(alloc: Global) -> Result<(SoyType, SoyType, SoyType), OutOfMemory> {
    let nullable = union_of(alloc, record(alloc)?, SoyType::Null)?;
    Ok((
        narrow(alloc, &nullable)?,
        narrow(alloc, &SoyType::Null)?,
        record(alloc)?.copy(alloc)?,
    ))
}

#[test]
fn types_are_narrowed_and_copied_with_ample_memory(rt: HostRuntime) {
    let Ok((some, none, copy)) = narrowed(rt.alloc()) else {
        assert!(rt; false);
        return;
    };
    assert!(rt; accepts(&some, &copy) && accepts(&copy, &some));
    assert!(rt; accepts(&SoyType::Int, &none) && !accepts(&none, &SoyType::Null));
    assert!(rt; !accepts(&copy, &SoyType::Null));
}

/// The record of `a`, the list of 7 and "é".
fn value(alloc: Global) -> Result<Value, OutOfMemory> {
    let mut items = Vec::new(alloc);
    items.push(Value::Int(7))?;
    items.push(Value::Str(text_of(alloc, "é")?))?;
    let name = text_of(alloc, "a")?;
    let mut entries = Vec::new(alloc);
    entries.push(Entry {
        name,
        value: Value::List(Seq::new(items)),
    })?;
    Ok(Value::Fields(Seq::new(entries)))
}

fn copied_value(alloc: Global) -> Result<Value, OutOfMemory> {
    value(alloc)?.copy(alloc)
}

#[test]
fn values_are_copied_with_ample_memory(rt: HostRuntime) {
    let Ok(Value::Fields(entries)) = copied_value(rt.alloc()) else {
        assert!(rt; false);
        return;
    };
    let Some(entry) = entries.items().first() else {
        assert!(rt; false);
        return;
    };
    assert!(rt; entry.name.is("a"));
    let Value::List(items) = &entry.value else {
        assert!(rt; false);
        return;
    };
    assert_eq!(rt; items.items().len(), 2);
    assert!(rt; matches!(items.items().first(), Some(Value::Int(7))));
}

/// `{@param? a: int}`
fn param(alloc: Global) -> Result<Param, OutOfMemory> {
    Ok(Param {
        name: text_of(alloc, "a")?,
        of: SoyType::Int,
        required: false,
        span: SPAN,
    })
}

/// `$a + 1`
fn sum(alloc: Global) -> Result<Expr, OutOfMemory> {
    let left = variable(alloc)?;
    let right = expr_of(alloc, ExprNode::Int(1))?;
    expr_of(alloc, ExprNode::Binary(BinaryOp::Add, left, right))
}

fn copied_param(alloc: Global) -> Result<Param, OutOfMemory> {
    param(alloc)?.copy(alloc)
}

fn copied_sum(alloc: Global) -> Result<Expr, OutOfMemory> {
    sum(alloc)?.copy(alloc)
}

#[test]
fn a_parameter_is_copied(rt: HostRuntime) {
    let Ok(param) = copied_param(rt.alloc()) else {
        assert!(rt; false);
        return;
    };
    assert!(rt; param.name.is("a") && !param.required);
    assert_eq!(rt; param.span, SPAN);
}

#[test]
fn a_sum_is_copied(rt: HostRuntime) {
    let Ok(sum) = copied_sum(rt.alloc()) else {
        assert!(rt; false);
        return;
    };
    let ExprNode::Binary(op, left, right) = sum.node.get() else {
        assert!(rt; false);
        return;
    };
    assert_eq!(rt; *op, BinaryOp::Add);
    assert!(rt; matches!(left.node.get(), ExprNode::Var(_)));
    assert!(rt; matches!(right.node.get(), ExprNode::Int(1)));
}

#[test]
fn the_source_bundle_is_left_to_right_and_empty(rt: HostRuntime) {
    let bundle = Bundle::source(rt.alloc());
    assert_eq!(rt; bundle.dir, Dir::Ltr);
    assert!(rt; bundle.messages.items().is_empty());
}

/// Each form of type, in a record.
fn every_type(alloc: Global) -> Result<SoyType, OutOfMemory> {
    let mut members = Vec::new(alloc);
    members.push(SoyType::Null)?;
    members.push(SoyType::Bool)?;
    members.push(SoyType::Int)?;
    members.push(SoyType::Str)?;
    members.push(SoyType::Html)?;
    members.push(SoyType::Attributes)?;
    members.push(SoyType::Map(Boxed::new(alloc, SoyType::Int)?))?;
    members.push(record(alloc)?)?;
    Ok(SoyType::Union(Seq::new(members)))
}

fn copied_type(alloc: Global) -> Result<(SoyType, SoyType), OutOfMemory> {
    let all = every_type(alloc)?;
    let copy = all.copy(alloc)?;
    Ok((all, copy))
}

#[test]
fn every_type_is_copied_and_accepts_its_copy(rt: HostRuntime) {
    let Ok((all, copy)) = copied_type(rt.alloc()) else {
        assert!(rt; false);
        return;
    };
    assert!(rt; accepts(&all, &copy) && accepts(&copy, &all));
    assert!(rt; accepts(&all, &SoyType::Html) && !accepts(&SoyType::Html, &all));
}

/// Each form of value, in a map.
fn every_value(alloc: Global) -> Result<Value, OutOfMemory> {
    let mut items = Vec::new(alloc);
    items.push(Value::Null)?;
    items.push(Value::Bool(true))?;
    items.push(value(alloc)?)?;
    let name = text_of(alloc, "b")?;
    let mut entries = Vec::new(alloc);
    entries.push(Entry {
        name,
        value: Value::List(Seq::new(items)),
    })?;
    Value::Map(Seq::new(entries)).copy(alloc)
}

#[test]
fn every_value_is_copied(rt: HostRuntime) {
    let Ok(Value::Map(entries)) = every_value(rt.alloc()) else {
        assert!(rt; false);
        return;
    };
    let Some(
        Entry {
            value: Value::List(items),
            ..
        },
    ) = entries.items().first()
    else {
        assert!(rt; false);
        return;
    };
    assert_eq!(rt; items.items().len(), 3);
    assert!(rt; matches!(items.items().get(1), Some(Value::Bool(true))));
}

fn expr_of(alloc: Global, node: ExprNode) -> Result<Expr, OutOfMemory> {
    Expr::new(alloc, node, SPAN)
}

/// `$a`
fn variable(alloc: Global) -> Result<Expr, OutOfMemory> {
    expr_of(alloc, ExprNode::Var(text_of(alloc, "a")?))
}

fn copied_expression(alloc: Global) -> Result<Expr, OutOfMemory> {
    let of = variable(alloc)?;
    expr_of(alloc, ExprNode::Not(of))?.copy(alloc)
}

#[test]
fn an_expression_is_copied(rt: HostRuntime) {
    let Ok(copied) = copied_expression(rt.alloc()) else {
        assert!(rt; false);
        return;
    };
    let ExprNode::Not(of) = copied.node.get() else {
        assert!(rt; false);
        return;
    };
    assert!(rt; matches!(of.node.get(), ExprNode::Var(_)));
}

fn copied_node(alloc: Global) -> Result<Node, OutOfMemory> {
    let form = Form::Text(text_of(alloc, "x")?);
    Node { form, span: SPAN }.copy(alloc)
}

#[test]
fn a_node_is_copied(rt: HostRuntime) {
    let Ok(node) = copied_node(rt.alloc()) else {
        assert!(rt; false);
        return;
    };
    assert!(rt; matches!(&node.form, Form::Text(text) if text.is("x")));
    assert_eq!(rt; node.span.start, 3);
}

#[test]
fn no_trees_are_typed(rt: HostRuntime) {
    let typed = Typed::new(Seq::new(Vec::new(rt.alloc())));
    assert!(rt; typed.trees().is_empty());
    assert!(rt; typed.params(0).is_empty());
}

fn text_node(alloc: Global, words: &str) -> Result<Node, OutOfMemory> {
    Ok(Node {
        form: Form::Text(text_of(alloc, words)?),
        span: SPAN,
    })
}

fn print_node(alloc: Global) -> Result<Node, OutOfMemory> {
    Ok(Node {
        form: Form::Print(variable(alloc)?, None),
        span: SPAN,
    })
}

/// A text, a print and a text.
fn around_print(alloc: Global, before: &str, after: &str) -> Result<Vec<Node>, OutOfMemory> {
    let mut nodes = Vec::new(alloc);
    nodes.push(text_node(alloc, before)?)?;
    nodes.push(print_node(alloc)?)?;
    nodes.push(text_node(alloc, after)?)?;
    Ok(nodes)
}

/// What a message holds, before and after a print; whether it is texts, prints and whole tags.
const MESSAGE_TEXTS: &[(&str, &str, &str, bool)] = &[
    ("text", "a", "b", true),
    ("nothing around the print", "", "", true),
    ("tags", "a<b>", "</b>c", true),
    ("a print in a tag", "<a title=\"", "\">", true),
    ("an end in quotes", "<a title='>", "'>", true),
    ("other quotes in quotes", "<a title=\"'", "\">", true),
    ("a `<` in a tag", "<a <", ">", true),
    ("no tag: a space follows", "1 < 2", "", true),
    ("no tag: a digit follows", "1<2", "</3", true),
    ("no tag: a print follows", "<", "b", true),
    ("no tag: a print follows the slash", "</", "b", true),
    ("a tag after another `<`", "<<b", ">", true),
    ("a tag after a `<` and a slash", "</<b", ">", true),
    ("no end", "<b", "", false),
    ("no end of an end tag", "", "</b", false),
    ("no end after another `<`", "<<b", "c", false),
    (
        "a quote of the other kind ends nothing",
        "<a title=\"'>",
        "",
        false,
    ),
    ("a quote without an end", "<b '>", ">", false),
    ("a quote in a print's neighbour", "<b \"", "'>", false),
    ("a second tag without an end", "<b>", "<i", false),
];

#[test]
fn texts_prints_and_whole_tags_are_a_message(rt: HostRuntime) {
    for (name, before, after, answer) in MESSAGE_TEXTS {
        let Ok(nodes) = around_print(rt.alloc(), before, after) else {
            assert!(rt; false);
            return;
        };
        assert_eq!(rt; is_message_text(nodes.as_slice()), *answer, "{name}");
    }
}

fn a_let(alloc: Global) -> Result<Form, OutOfMemory> {
    Ok(Form::Let(text_of(alloc, "x")?, variable(alloc)?))
}

#[test]
fn a_let_is_no_part_of_a_message(rt: HostRuntime) {
    let Ok(form) = a_let(rt.alloc()) else {
        assert!(rt; false);
        return;
    };
    assert!(rt; !is_message_text(&[Node { form, span: SPAN }]));
}
