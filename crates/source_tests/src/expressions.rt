//! Rows of the grammar of expressions and types, over the tokens of the lexer.

use expr_parser::{ExprState, TypeState, TypeStep, parse_expr, parse_type};
use soy_base::{Code, Fault, OutOfMemory, Refusal, Span, push_text};
use soy_lexer::{Token, lex};
use soy_tree::{BinaryOp, Expr, ExprNode, Field, SoyType};
use std::alloc::Global;

/// The operator as it is written.
fn written(op: BinaryOp) -> &'static str {
    match op {
        BinaryOp::Mul => " * ",
        BinaryOp::Rem => " % ",
        BinaryOp::Add => " + ",
        BinaryOp::Sub => " - ",
        BinaryOp::Lt => " < ",
        BinaryOp::Gt => " > ",
        BinaryOp::Le => " <= ",
        BinaryOp::Ge => " >= ",
        BinaryOp::Eq => " == ",
        BinaryOp::Ne => " != ",
        BinaryOp::And => " and ",
        BinaryOp::Or => " or ",
    }
}

/// Writes an expression with parentheses around each of its operators.
fn write(out: &mut String, expr: &Expr) -> Result<(), OutOfMemory> {
    match expr.node.get() {
        ExprNode::Null => push_text(out, "null"),
        ExprNode::Bool(_) => push_text(out, "bool"),
        ExprNode::Int(_) => push_text(out, "int"),
        ExprNode::Str(text) => push_text(out, text.text()),
        ExprNode::Var(name) => push_text(out, name.text()),
        ExprNode::Member(of, name, takes_null) => {
            write(out, of)?;
            push_text(out, if *takes_null { "?." } else { "." })?;
            push_text(out, name.text())
        }
        ExprNode::Index(of, index, takes_null) => {
            write(out, of)?;
            push_text(out, if *takes_null { "?[" } else { "[" })?;
            write(out, index)?;
            push_text(out, "]")
        }
        ExprNode::Neg(of) => {
            push_text(out, "(-")?;
            write(out, of)?;
            push_text(out, ")")
        }
        ExprNode::Not(of) => {
            push_text(out, "(not ")?;
            write(out, of)?;
            push_text(out, ")")
        }
        ExprNode::Binary(op, left, right) => {
            push_text(out, "(")?;
            write(out, left)?;
            push_text(out, written(*op))?;
            write(out, right)?;
            push_text(out, ")")
        }
        ExprNode::Coalesce(left, right) => {
            push_text(out, "(")?;
            write(out, left)?;
            push_text(out, " ?: ")?;
            write(out, right)?;
            push_text(out, ")")
        }
        ExprNode::Cond(condition, yes, no) => {
            push_text(out, "(")?;
            write(out, condition)?;
            push_text(out, " ? ")?;
            write(out, yes)?;
            push_text(out, " : ")?;
            write(out, no)?;
            push_text(out, ")")
        }
    }
}

/// The expression at the head of a command, with parentheses around each of its operators, and the number of its
/// tokens; or the code and offset of its fault.
fn read(alloc: Global, text: &str, depth: u32) -> Result<(String, usize), (Code, u64)> {
    let tokens = match lex(alloc, text, 0) {
        Ok(tokens) => tokens,
        Err(_) => return Err((Code::Lex, 0)),
    };
    if tokens.is_empty() {
        return Err((Code::Lex, 0));
    }
    match parse_expr(alloc, &tokens.as_slice()[1..], 0, depth) {
        Ok((expr, count)) => {
            let mut out = String::new(alloc);
            match write(&mut out, &expr) {
                Ok(()) => Ok((out, count)),
                Err(_) => Err((Code::TooLarge, 0)),
            }
        }
        Err(Refusal::Because(Fault { code, file: _, at })) => Err((code, at)),
        Err(Refusal::OutOfMemory) => Err((Code::TooLarge, 0)),
    }
}

/// A command, its expression, and the number of the expression's tokens.
const EXPRESSIONS: &[(&str, &str, usize)] = &[
    ("{1}", "int", 1),
    ("{$a}", "a", 1),
    ("{'text'}", "text", 1),
    ("{null}", "null", 1),
    ("{1 + 2 * 3}", "(int + (int * int))", 5),
    ("{1 * 2 + 3}", "((int * int) + int)", 5),
    ("{1 - 2 - 3}", "((int - int) - int)", 5),
    ("{$a % $b * $c}", "((a % b) * c)", 5),
    ("{$a < $b + 1}", "(a < (b + int))", 5),
    ("{$a == $b < $c}", "(a == (b < c))", 5),
    ("{$a and $b == $c}", "(a and (b == c))", 5),
    ("{$a or $b and $c}", "(a or (b and c))", 5),
    ("{$a and $b or $c}", "((a and b) or c)", 5),
    ("{$a or $b or $c}", "((a or b) or c)", 5),
    ("{not $a == $b}", "((not a) == b)", 4),
    ("{not not $a}", "(not (not a))", 3),
    ("{- -1}", "(-(-int))", 3),
    ("{1 - -1}", "(int - (-int))", 4),
    ("{-$a.b}", "(-a.b)", 4),
    ("{-$a * $b}", "((-a) * b)", 4),
    ("{$a.b[1]?.c?[$d]}", "a.b[int]?.c?[d]", 11),
    ("{$a.null.or}", "a.null.or", 5),
    ("{$a[$b + 1]}", "a[(b + int)]", 6),
    ("{(1 + 2) * 3}", "((int + int) * int)", 7),
    ("{((1)).x}", "int.x", 7),
    ("{$a ?: $b ?: $c}", "(a ?: (b ?: c))", 5),
    ("{$a ?? $b or $c}", "(a ?: (b or c))", 5),
    ("{$a or $b ?: $c}", "((a or b) ?: c)", 5),
    ("{$a ? $b : $c}", "(a ? b : c)", 5),
    ("{$a ? $b : $c ? $d : $e}", "(a ? b : (c ? d : e))", 9),
    ("{$a ? $b ? $c : $d : $e}", "(a ? (b ? c : d) : e)", 9),
    ("{$a ? $b : $c ?: $d}", "(a ? b : (c ?: d))", 7),
    ("{$a ?: $b ? $c : $d}", "(a ?: (b ? c : d))", 7),
    ("{$a ? $b ?: $c : $d}", "(a ? (b ?: c) : d)", 7),
    ("{1 }", "int", 1),
    ("{1, 2}", "int", 1),
    ("{1 : 2}", "int", 1),
    ("{1) + 2}", "int", 1),
    ("{$a $b}", "a", 1),
    ("{$a] + 2}", "a", 1),
    ("{$a |}", "a", 1),
];

#[test]
fn expressions_group_by_level(rt: HostRuntime) {
    for (text, shape, count) in EXPRESSIONS {
        match read(rt.alloc(), text, 0) {
            Ok((out, tokens)) => {
                assert_eq!(rt; out.as_str(), *shape, "{text}");
                assert_eq!(rt; tokens, *count, "{text}");
            }
            Err(_) => assert!(rt; false, "{text}"),
        }
    }
}

/// A command that has no expression at its head, the block commands that are open around it, and its fault.
const FAULTS: &[(&str, u32, Code, u64)] = &[
    ("{1 + }", 0, Code::Syntax, 5),
    ("{1 + * 2}", 0, Code::Syntax, 5),
    ("{$x +}", 0, Code::Syntax, 5),
    ("{}", 0, Code::Syntax, 1),
    ("{/}", 0, Code::Syntax, 1),
    ("{print}", 0, Code::Syntax, 1),
    ("{(1}", 0, Code::Syntax, 3),
    ("{(1]}", 0, Code::Syntax, 3),
    ("{$a[1)}", 0, Code::Syntax, 5),
    ("{$a ? $b}", 0, Code::Syntax, 8),
    ("{$a ? $b ) : $c}", 0, Code::Syntax, 9),
    ("{(1 : 2)}", 0, Code::Syntax, 4),
    ("{$a.1}", 0, Code::Syntax, 4),
    ("{$a.$b}", 0, Code::Syntax, 4),
    ("{1 +", 0, Code::Syntax, 4),
    ("{(1", 0, Code::Syntax, 3),
    ("{", 0, Code::Syntax, 0),
    ("{\"text\"}", 0, Code::Syntax, 1),
    ("{1}", 64, Code::Nesting, 1),
    ("{1 + 2}", 63, Code::Nesting, 3),
    ("{-1}", 63, Code::Nesting, 2),
    ("{$a.b}", 63, Code::Nesting, 3),
    ("{(1)}", 63, Code::Nesting, 2),
    ("{1 + 2 + 3}", 62, Code::Nesting, 7),
    ("{1 + 2 * 3}", 62, Code::Nesting, 7),
    ("{1 + (2 * 3)}", 61, Code::Nesting, 8),
    ("{((1))}", 62, Code::Nesting, 3),
    ("{(1) + 2}", 62, Code::Nesting, 5),
    ("{-(1)}", 62, Code::Nesting, 3),
    ("{$a ? $b : $c.d}", 62, Code::Nesting, 13),
    ("{)}", 64, Code::Syntax, 1),
];

#[test]
fn faults_are_at_the_first_token(rt: HostRuntime) {
    for (text, depth, code, offset) in FAULTS {
        match read(rt.alloc(), text, *depth) {
            Ok(_) => assert!(rt; false, "{text}"),
            Err((found, at)) => {
                assert_eq!(rt; found.number(), code.number(), "{text}");
                assert_eq!(rt; at, *offset, "{text}");
            }
        }
    }
}

/// Writes a type, with braces around each union.
#[cycle(writing_types)]
fn write_type(out: &mut String, of: &SoyType) -> Result<(), OutOfMemory> {
    match of {
        SoyType::Null => push_text(out, "null"),
        SoyType::Bool => push_text(out, "bool"),
        SoyType::Int => push_text(out, "int"),
        SoyType::Str => push_text(out, "string"),
        SoyType::Html => push_text(out, "html"),
        SoyType::Attributes => push_text(out, "attributes"),
        SoyType::List(item) => {
            push_text(out, "list<")?;
            write_type(out, item.get())?;
            push_text(out, ">")
        }
        SoyType::Map(item) => {
            push_text(out, "map<")?;
            write_type(out, item.get())?;
            push_text(out, ">")
        }
        SoyType::Fields(fields) => write_fields(out, fields.items()),
        SoyType::Union(members) => write_members(out, members.items()),
    }
}

/// Writes the fields of a record.
#[cycle(writing_types)]
fn write_fields(out: &mut String, fields: &[Field]) -> Result<(), OutOfMemory> {
    push_text(out, "[")?;
    for field in fields {
        push_text(out, field.name.text())?;
        push_text(out, ":")?;
        write_type(out, &field.of)?;
        push_text(out, ";")?;
    }
    push_text(out, "]")
}

/// Writes the members of a union.
#[cycle(writing_types)]
fn write_members(out: &mut String, members: &[SoyType]) -> Result<(), OutOfMemory> {
    push_text(out, "{")?;
    for member in members {
        write_type(out, member)?;
        push_text(out, ";")?;
    }
    push_text(out, "}")
}

/// The type at the head of a command, and the number of its tokens; or the code and offset of its fault.
fn read_type(alloc: Global, text: &str, depth: u32) -> Result<(String, usize), (Code, u64)> {
    let tokens = match lex(alloc, text, 0) {
        Ok(tokens) => tokens,
        Err(_) => return Err((Code::Lex, 0)),
    };
    if tokens.is_empty() {
        return Err((Code::Lex, 0));
    }
    match parse_type(alloc, &tokens.as_slice()[1..], 0, depth) {
        Ok((of, count)) => {
            let mut out = String::new(alloc);
            match write_type(&mut out, &of) {
                Ok(()) => Ok((out, count)),
                Err(_) => Err((Code::TooLarge, 0)),
            }
        }
        Err(Refusal::Because(Fault { code, file: _, at })) => Err((code, at)),
        Err(Refusal::OutOfMemory) => Err((Code::TooLarge, 0)),
    }
}

/// A command, its type, and the number of the type's tokens.
const TYPES: &[(&str, &str, usize)] = &[
    ("{null}", "null", 1),
    ("{bool}", "bool", 1),
    ("{int}", "int", 1),
    ("{string}", "string", 1),
    ("{html}", "html", 1),
    ("{attributes}", "attributes", 1),
    ("{int|null}", "{int;null;}", 3),
    ("{int|string|int}", "{int;string;int;}", 5),
    ("{list<int>}", "list<int>", 4),
    ("{list<list<int>>}", "list<list<int>>", 7),
    ("{list<int|null>|null}", "{list<{int;null;}>;null;}", 8),
    ("{map<string, int>}", "map<int>", 6),
    ("{map<string, [a: int]>}", "map<[a:int;]>", 10),
    ("{[a: int]}", "[a:int;]", 5),
    (
        "{[a: int, list: list<bool>]}",
        "[a:int;list:list<bool>;]",
        12,
    ),
    (
        "{[a: int|null, a: string]|null}",
        "{[a:{int;null;};a:string;];null;}",
        13,
    ),
    ("{[a: [b: int|bool]]}", "[a:[b:{int;bool;};];]", 11),
    ("{html|html}", "{html;html;}", 3),
    ("{int }", "int", 1),
    ("{int<}", "int", 1),
    ("{int, bool}", "int", 1),
    ("{int] | bool}", "int", 1),
    ("{int>|bool}", "int", 1),
    ("{int bool}", "int", 1),
    ("{int /}", "int", 1),
    ("{bool", "bool", 1),
];

#[test]
fn types_keep_their_members(rt: HostRuntime) {
    for (text, shape, count) in TYPES {
        match read_type(rt.alloc(), text, 0) {
            Ok((out, tokens)) => {
                assert_eq!(rt; out.as_str(), *shape, "{text}");
                assert_eq!(rt; tokens, *count, "{text}");
            }
            Err(_) => assert!(rt; false, "{text}"),
        }
    }
}

/// A command that has no type at its head, the block commands that are open around it, and its fault.
const TYPE_FAULTS: &[(&str, u32, Code, u64)] = &[
    ("{}", 0, Code::Syntax, 1),
    ("{$a}", 0, Code::Syntax, 1),
    ("{|int}", 0, Code::Syntax, 1),
    ("{int|}", 0, Code::Syntax, 5),
    ("{int|", 0, Code::Syntax, 5),
    ("{", 0, Code::Syntax, 0),
    ("{list<>}", 0, Code::Syntax, 6),
    ("{list<int}", 0, Code::Syntax, 9),
    ("{list<int", 0, Code::Syntax, 9),
    ("{list<int, bool>}", 0, Code::Syntax, 9),
    ("{map<int, T>}", 0, Code::Syntax, 5),
    ("{map<string>}", 0, Code::Syntax, 11),
    ("{map<string, int]}", 0, Code::Syntax, 16),
    ("{[]}", 0, Code::Syntax, 2),
    ("{[a]}", 0, Code::Syntax, 3),
    ("{[a: int", 0, Code::Syntax, 8),
    ("{[a: int>}", 0, Code::Syntax, 8),
    ("{[a: int,]}", 0, Code::Syntax, 9),
    ("{uri}", 0, Code::Mistyped, 1),
    ("{uri", 0, Code::Mistyped, 1),
    ("{int|uri|}", 0, Code::Mistyped, 5),
    ("{[uri: uri]}", 0, Code::Mistyped, 7),
    ("{list}", 0, Code::Mistyped, 1),
    ("{list", 0, Code::Mistyped, 1),
    ("{list|int}", 0, Code::Mistyped, 1),
    ("{map|$a}", 0, Code::Mistyped, 1),
    ("{list<map>}", 0, Code::Mistyped, 6),
    ("{uri<int>}", 0, Code::Mistyped, 1),
    ("{List<int>}", 0, Code::Mistyped, 1),
    ("{int}", 64, Code::Nesting, 1),
    ("{uri}", 64, Code::Nesting, 1),
    ("{)}", 64, Code::Syntax, 1),
    ("{int|bool}", 63, Code::Nesting, 4),
    ("{list<int>}", 63, Code::Nesting, 6),
    ("{list<uri>}", 63, Code::Nesting, 6),
    ("{list<list<int>>|int}", 61, Code::Nesting, 16),
    ("{[a: int]}", 63, Code::Nesting, 5),
    ("{[a: int, b: bool|int]}", 62, Code::Nesting, 17),
    ("{list<int|bool>}", 62, Code::Nesting, 9),
    ("{int|list<bool>}", 62, Code::Nesting, 10),
    ("{int|bool|int}", 63, Code::Nesting, 4),
];

#[test]
fn type_faults_are_at_the_first_token(rt: HostRuntime) {
    for (text, depth, code, offset) in TYPE_FAULTS {
        match read_type(rt.alloc(), text, *depth) {
            Ok(_) => assert!(rt; false, "{text}"),
            Err((found, at)) => {
                assert_eq!(rt; found.number(), code.number(), "{text}");
                assert_eq!(rt; at, *offset, "{text}");
            }
        }
    }
}

/// A command whose expression or type is just within the limit, and the block commands that are open around it.
const WITHIN: &[(&str, u32)] = &[
    ("{1}", 63),
    ("{1 + 2}", 62),
    ("{1 + 2 + 3}", 61),
    ("{(1)}", 62),
    ("{((1))}", 61),
    ("{(1) + 2}", 61),
    ("{-(1)}", 61),
    ("{($a ? $b : $c)}", 61),
];

const TYPES_WITHIN: &[(&str, u32)] = &[
    ("{int}", 63),
    ("{int|bool}", 62),
    ("{int|bool|int}", 62),
    ("{list<int|bool>}", 61),
    ("{int|list<bool>}", 61),
    ("{[a: int]}", 62),
];

#[test]
fn the_limit_of_depth_is_reached(rt: HostRuntime) {
    for (text, depth) in WITHIN {
        assert!(rt; read(rt.alloc(), text, *depth).is_ok(), "{text}");
        assert!(rt;
            read(rt.alloc(), text, depth.saturating_add(1)).is_err(),
            "{text}"
        );
    }
    for (text, depth) in TYPES_WITHIN {
        assert!(rt; read_type(rt.alloc(), text, *depth).is_ok(), "{text}");
        assert!(rt;
            read_type(rt.alloc(), text, depth.saturating_add(1)).is_err(),
            "{text}"
        );
    }
}

/// The span of the expression at the head of a command.
fn span_of(alloc: Global, text: &str) -> Option<Span> {
    let tokens = lex(alloc, text, 0).ok()?;
    if tokens.is_empty() {
        return None;
    }
    let (expr, _) = parse_expr(alloc, &tokens.as_slice()[1..], 0, 0).ok()?;
    Some(expr.span)
}

/// A command, and where its expression begins and ends.
const SPANS: &[(&str, u64, u64)] = &[
    ("{1}", 1, 2),
    ("{$a }", 1, 3),
    ("{'é'}", 1, 5),
    ("{1 + 2}", 1, 6),
    ("{1 + 2 * 3 }", 1, 10),
    ("{- $a}", 1, 5),
    ("{not $a }", 1, 7),
    ("{(1 + 2)}", 2, 7),
    ("{(1) + (2)}", 1, 10),
    ("{$a.b}", 1, 5),
    ("{$a?.b[1] }", 1, 9),
    ("{$a ?: $b}", 1, 9),
    ("{$a ? $b : $c}", 1, 13),
];

#[test]
fn an_expression_spans_its_tokens(rt: HostRuntime) {
    for (text, start, end) in SPANS {
        assert_eq!(rt;
            span_of(rt.alloc(), text),
            Some(Span {
                start: *start,
                end: *end
            }),
            "{text}"
        );
    }
}

/// Whether what was read before a token with which no expression goes on is a whole one.
fn is_given(state: &mut ExprState) -> bool {
    state.given().is_some()
}

/// Whether what was read is a whole expression.
fn is_whole(alloc: Global, state: &mut ExprState) -> Result<bool, OutOfMemory> {
    let whole = state.finish(alloc)?;
    Ok(whole.is_some())
}

/// The number of tokens that the machine takes from a state, the depth after them, and whether they are whole.
fn steps_on(
    alloc: Global,
    state: &mut ExprState,
    tokens: &[Token],
) -> Result<(usize, u32, bool), OutOfMemory> {
    for (count, token) in tokens.iter().enumerate() {
        let depth = state.depth();
        if !state.step(alloc, token)? {
            return Ok((count, depth, is_given(state)));
        }
    }
    let depth = state.depth();
    Ok((tokens.len(), depth, is_whole(alloc, state)?))
}

/// The number of tokens that the machine takes, the depth after them, and whether they are a whole expression.
fn steps(alloc: Global, tokens: &[Token]) -> Result<(usize, u32, bool), OutOfMemory> {
    let mut state = ExprState::start(alloc);
    steps_on(alloc, &mut state, tokens)
}

/// The same of a type.
fn type_steps(alloc: Global, tokens: &[Token]) -> Result<(usize, u32, bool), OutOfMemory> {
    let mut state = TypeState::start(alloc);
    for (count, token) in tokens.iter().enumerate() {
        let depth = state.depth();
        match state.step(alloc, token)? {
            TypeStep::Next(to) => state = to,
            TypeStep::End(before) => return Ok((count, depth, before.is_some())),
        }
    }
    let depth = state.depth();
    let whole = state.finish()?;
    Ok((tokens.len(), depth, whole.is_some()))
}

/// A command, the number of tokens that the machine takes, the depth after them, and whether they are whole.
const STEPS: &[(&str, usize, u32, bool)] = &[
    ("{1 + 2}", 3, 2, true),
    ("{1", 1, 1, true),
    ("{1 +", 2, 2, false),
    ("{1 +}", 2, 2, false),
    ("{(1", 2, 2, false),
    ("{((1))", 5, 3, true),
    ("{$a.", 2, 2, false),
    ("{$a[1", 3, 2, false),
    ("{$a ? $b", 3, 2, false),
    ("{$a ? $b : $c", 5, 2, true),
    ("{)}", 0, 0, false),
    ("{", 0, 0, false),
];

const TYPE_STEPS: &[(&str, usize, u32, bool)] = &[
    ("{int", 1, 1, true),
    ("{uri", 1, 1, true),
    ("{int|", 2, 2, false),
    ("{int|bool}", 3, 2, true),
    ("{list<int", 3, 2, false),
    ("{list<int>", 4, 2, true),
    ("{map<string", 3, 1, false),
    ("{[a: int", 4, 2, false),
    ("{[a: int]", 5, 2, true),
    ("{)}", 0, 0, false),
    ("{", 0, 0, false),
];

#[test]
fn the_machines_take_what_goes_on(rt: HostRuntime) {
    for (text, taken, depth, whole) in STEPS {
        let Ok(tokens) = lex(rt.alloc(), text, 0) else {
            assert!(rt; false, "{text}");
            return;
        };
        let found = steps(rt.alloc(), tokens.as_slice().get(1..).unwrap_or(&[])).ok();
        assert_eq!(rt; found, Some((*taken, *depth, *whole)), "{text}");
    }
}

#[test]
fn the_machine_of_types_takes_what_goes_on(rt: HostRuntime) {
    for (text, taken, depth, whole) in TYPE_STEPS {
        let Ok(tokens) = lex(rt.alloc(), text, 0) else {
            assert!(rt; false, "{text}");
            return;
        };
        let found = type_steps(rt.alloc(), tokens.as_slice().get(1..).unwrap_or(&[])).ok();
        assert_eq!(rt; found, Some((*taken, *depth, *whole)), "{text}");
    }
}
