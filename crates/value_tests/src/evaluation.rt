//! Tests of what no clause says: rows of operators, accesses and faults, with ample memory.
ghost use Rattle.std.specs.Prelude.{◌≡◌, ◌<◌, pos, [], IfOk};
ghost use Rattle.soy_tree.specs.Expressions.{IntLiteral};
ghost use Rattle.soy_tree.specs.ViewExpressions.{view_expr};
ghost use Rattle.soy_expr.specs.ViewEnv.{view_env};

use soy_base::{Boxed, OutOfMemory, Refusal, Seq, Span, Steps, Text};
use soy_expr::{Binding, Bound, Env, Evaluated, Made, Scope, eval, evaluate, test, type_of};
use soy_tree::{BinaryOp, Entry, Expr, ExprNode, Field, SoyType, Value};
use std::alloc::Global;
use std::marker::Brand;
use std::sync::ledger::{Blank, Ledger};

const LARGEST: i64 = 9_007_199_254_740_991;

fn text_of(alloc: Global, text: &str) -> Result<Text, OutOfMemory> {
    Ok(Text::new(String::from_str(alloc, text)?))
}

fn expr(alloc: Global, node: ExprNode, start: u64) -> Result<Expr, OutOfMemory>
    ensures { IfOk result (λ e. e ≡ record { node = node; span = record { start = start; end = start } }) }
{
    Expr::new(alloc, node, Span { start, end: start })
}

fn binary(alloc: Global, op: BinaryOp, left: Expr, right: Expr) -> Result<Expr, OutOfMemory> {
    let start = left.span.start;
    expr(alloc, ExprNode::Binary(op, left, right), start)
}

fn variable(alloc: Global, name: &str, start: u64) -> Result<Expr, OutOfMemory> {
    expr(alloc, ExprNode::Var(text_of(alloc, name)?), start)
}

/// The text of the value, if it is null, a bool, an int or a string.
fn value_text<L: Ledger>(
    alloc: Global,
    value: Expr,
    env: &Env,
    blank: Blank,
) -> Result<Text, OutOfMemory>
    requires name { blank.name ≡ L.name }
    requires parts { blank.parts ≡ L.parts }
    requires some { 0 < blank.parts }
{
    let mut steps = Steps::<L>::new(blank);
    let empty = expr(alloc, ExprNode::Str(Text::empty(alloc)), 0)?;
    let text = binary(alloc, BinaryOp::Add, value, empty)?;
    match evaluate(alloc, &text, env, &mut steps)? {
        Evaluated::Made(Made::Str(text)) => Ok(text),
        _ => Ok(Text::empty(alloc)),
    }
}

fn no_variables(alloc: Global) -> Env
    ensures { view_env result ≡ [] }
{
    Env {
        vars: Seq::new(Vec::new(alloc)),
    }
}

/// A literal.
#[derive(Clone, Copy, Debug)]
enum Literal {
    Null,
    Bool(bool),
    Int(i64),
    Str(&'static str),
}

fn literal_expr(alloc: Global, of: Literal) -> Result<Expr, OutOfMemory> {
    match of {
        Literal::Null => expr(alloc, ExprNode::Null, 0),
        Literal::Bool(is) => expr(alloc, ExprNode::Bool(is), 0),
        Literal::Int(number) => expr(alloc, ExprNode::Int(number), 0),
        Literal::Str(text) => expr(alloc, ExprNode::Str(text_of(alloc, text)?), 0),
    }
}

/// The left operand, the operator, the right operand, and the text of the value.
const OPERATORS: &[(Literal, BinaryOp, Literal, &str)] = &[
    (Literal::Int(-7), BinaryOp::Rem, Literal::Int(3), "-1"),
    (
        Literal::Int(LARGEST),
        BinaryOp::Add,
        Literal::Int(1),
        "9007199254740991",
    ),
    (
        Literal::Int(-LARGEST),
        BinaryOp::Sub,
        Literal::Int(1),
        "-9007199254740991",
    ),
    (
        Literal::Int(94_906_266),
        BinaryOp::Mul,
        Literal::Int(-94_906_266),
        "-9007199254740991",
    ),
    (Literal::Int(1), BinaryOp::Add, Literal::Str("1"), "11"),
    (Literal::Str("é"), BinaryOp::Add, Literal::Null, "énull"),
    (Literal::Str(""), BinaryOp::Add, Literal::Bool(true), "true"),
    (
        Literal::Str("\u{ffff}"),
        BinaryOp::Lt,
        Literal::Str("\u{10000}"),
        "true",
    ),
    (Literal::Str("ab"), BinaryOp::Le, Literal::Str("a"), "false"),
    (Literal::Int(10), BinaryOp::Gt, Literal::Int(2), "true"),
    (Literal::Int(1), BinaryOp::Eq, Literal::Bool(true), "false"),
    (Literal::Str("é"), BinaryOp::Eq, Literal::Str("é"), "true"),
    (Literal::Int(0), BinaryOp::Ne, Literal::Null, "true"),
    (Literal::Str("0"), BinaryOp::And, Literal::Int(0), "false"),
    (Literal::Null, BinaryOp::Or, Literal::Str("x"), "true"),
];

fn operator_text(
    alloc: Global,
    left: Literal,
    op: BinaryOp,
    right: Literal,
) -> Result<Text, OutOfMemory> {
    let left = literal_expr(alloc, left)?;
    let right = literal_expr(alloc, right)?;
    let whole = binary(alloc, op, left, right)?;
    value_text::<Brand>(alloc, whole, &no_variables(alloc), Blank::new(1))
}

#[test]
fn operators_of_literals(rt: HostRuntime) {
    for (left, op, right, wanted) in OPERATORS {
        let Ok(text) = operator_text(rt.alloc(), *left, *op, *right) else {
            assert!(rt; false, "{wanted}");
            return;
        };
        assert_eq!(rt; text.text(), *wanted);
    }
}

/// `$m` is a map with the key `k` twice, and `$l` a list of a record.
fn variables(alloc: Global) -> Result<Env, OutOfMemory> {
    let mut entries = Vec::new(alloc);
    for number in [5, 6] {
        let name = text_of(alloc, "k")?;
        let value = Value::Int(number);
        entries.push(Entry { name, value })?;
    }
    let mut fields = Vec::new(alloc);
    let name = text_of(alloc, "x")?;
    let value = Value::Bool(false);
    fields.push(Entry { name, value })?;
    let mut items = Vec::new(alloc);
    items.push(Value::Fields(Seq::new(fields)))?;
    let mut vars = Vec::new(alloc);
    let name = text_of(alloc, "m")?;
    let to = Binding::Value(Value::Map(Seq::new(entries)));
    vars.push(Bound { name, to })?;
    let name = text_of(alloc, "l")?;
    let to = Binding::Value(Value::List(Seq::new(items)));
    vars.push(Bound { name, to })?;
    let name = text_of(alloc, "h")?;
    vars.push(Bound {
        name,
        to: Binding::Block,
    })?;
    let vars = Seq::new(vars);
    Ok(Env { vars })
}

fn at(alloc: Global, name: &str, index: Literal) -> Result<Expr, OutOfMemory> {
    let of = variable(alloc, name, 0)?;
    let index = literal_expr(alloc, index)?;
    expr(alloc, ExprNode::Index(of, index, false), 0)
}

fn field_at(alloc: Global, index: i64) -> Result<Expr, OutOfMemory> {
    let of = at(alloc, "l", Literal::Int(index))?;
    let name = text_of(alloc, "x")?;
    expr(alloc, ExprNode::Member(of, name, true), 0)
}

/// The first of two entries counts, and null is where nothing is there.
fn accesses_text(alloc: Global) -> Result<Text, OutOfMemory> {
    let env = variables(alloc)?;
    let mut all = Text::empty(alloc);
    let found = at(alloc, "m", Literal::Str("k"))?;
    all.append(&value_text::<Brand>(alloc, found, &env, Blank::new(1))?)?;
    let missing = at(alloc, "m", Literal::Str("j"))?;
    all.append(&value_text::<Brand>(alloc, missing, &env, Blank::new(1))?)?;
    for index in [-1, 0, 1] {
        let field = field_at(alloc, index)?;
        all.append(&value_text::<Brand>(alloc, field, &env, Blank::new(1))?)?;
    }
    Ok(all)
}

#[test]
fn accesses_to_parts(rt: HostRuntime) {
    let Ok(text) = accesses_text(rt.alloc()) else {
        assert!(rt; false);
        return;
    };
    assert_eq!(rt; text.text(), "5nullnullfalsenull");
}

/// The literal 7.
fn seven(alloc: Global) -> Result<Expr, OutOfMemory>
    ensures { IfOk result (λ e. view_expr e ≡ IntLiteral (pos 7) (record { start = 0; end = 0 })) }
{
    expr(alloc, ExprNode::Int(7), 0)
}

fn calls<L: Ledger>(alloc: Global, blank: Blank) -> Result<(Value, bool), OutOfMemory>
    requires name { blank.name ≡ L.name }
    requires parts { blank.parts ≡ L.parts }
    requires some { 0 < blank.parts }
{
    let mut steps = Steps::<L>::new(blank);
    let env = variables(alloc)?;
    let block = variable(alloc, "h", 0)?;
    let truth = test(alloc, &block, &env, &mut steps)?;
    let none = no_variables(alloc);
    let seven = seven(alloc)?;
    let value = eval(alloc, &seven, &none, &mut steps)?;
    Ok((value, truth))
}

#[test]
fn a_value_and_the_truth_of_a_block(rt: HostRuntime) {
    let Ok((Value::Int(number), truth)) = calls::<Brand>(rt.alloc(), Blank::new(1)) else {
        assert!(rt; false);
        return;
    };
    assert_eq!(rt; number, 7);
    assert!(rt; truth);
}

/// The left variable, the operator, the right variable, and the fault's number with the name or the types it keeps.
const FAULTS: &[(&str, BinaryOp, &str, u32, &str, &str)] = &[
    ("i", BinaryOp::Add, "b", 8, "int", "bool"),
    (
        "l",
        BinaryOp::Eq,
        "i",
        8,
        "list<[x: int|null, y: map<string, string>]>",
        "int",
    ),
    ("i", BinaryOp::Rem, "i", 8, "int", "int"),
    ("z", BinaryOp::Add, "b", 7, "z", ""),
    ("i", BinaryOp::And, "l", 0, "", ""),
];

fn declared(
    alloc: Global,
    vars: &mut Vec<Field>,
    name: &str,
    of: SoyType,
) -> Result<(), OutOfMemory> {
    let name = text_of(alloc, name)?;
    Ok(vars.push(Field { name, of })?)
}

fn scope(alloc: Global) -> Result<Scope, OutOfMemory> {
    let mut members = Vec::new(alloc);
    members.push(SoyType::Int)?;
    members.push(SoyType::Null)?;
    let mut fields = Vec::new(alloc);
    declared(alloc, &mut fields, "x", SoyType::Union(Seq::new(members)))?;
    let texts = SoyType::Map(Boxed::new(alloc, SoyType::Str)?);
    declared(alloc, &mut fields, "y", texts)?;
    let list = SoyType::List(Boxed::new(alloc, SoyType::Fields(Seq::new(fields)))?);
    let mut vars = Vec::new(alloc);
    declared(alloc, &mut vars, "i", SoyType::Int)?;
    declared(alloc, &mut vars, "b", SoyType::Bool)?;
    declared(alloc, &mut vars, "l", list)?;
    let vars = Seq::new(vars);
    Ok(Scope { vars })
}

fn fault_of(
    alloc: Global,
    left: &str,
    op: BinaryOp,
    right: &str,
) -> Result<(u32, Text, Text), OutOfMemory> {
    let left = variable(alloc, left, 3)?;
    let right = variable(alloc, right, 9)?;
    let whole = binary(alloc, op, left, right)?;
    match type_of(alloc, &whole, &scope(alloc)?) {
        Ok(_) => Ok((0, Text::empty(alloc), Text::empty(alloc))),
        Err(Refusal::Because(fault)) => Ok((fault.code.number(), fault.left, fault.right)),
        Err(Refusal::OutOfMemory) => Err(OutOfMemory),
    }
}

#[test]
fn faults_keep_names_and_types(rt: HostRuntime) {
    for (left, op, right, number, first, second) in FAULTS {
        let Ok(fault) = fault_of(rt.alloc(), left, *op, right) else {
            assert!(rt; false, "{left} {right}");
            return;
        };
        assert_eq!(rt; fault.0, *number);
        assert_eq!(rt; fault.1.text(), *first);
        assert_eq!(rt; fault.2.text(), *second);
    }
}
