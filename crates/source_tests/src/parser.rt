//! Rows of the grammar of files, over the tokens of the lexer.

use soy_base::{Code, Fault, Kind, OutOfMemory, Refusal, push_text};
use soy_lexer::lex;
use soy_parser::parse;
use soy_tree::{Form, Given, Message, MessageBody, Node, Tree};
use std::alloc::Global;

/// Writes nodes, the bodies of commands in parentheses.
#[cycle(writing)]
fn write_nodes(out: &mut String, nodes: &[Node]) -> Result<(), OutOfMemory> {
    for node in nodes {
        write_form(out, &node.form)?;
    }
    Ok(())
}

/// Writes a body in parentheses, after a name.
#[cycle(writing)]
fn write_body(out: &mut String, name: &str, nodes: &[Node]) -> Result<(), OutOfMemory> {
    push_text(out, name)?;
    push_text(out, "(")?;
    write_nodes(out, nodes)?;
    push_text(out, ")")
}

#[cycle(writing)]
fn write_form(out: &mut String, form: &Form) -> Result<(), OutOfMemory> {
    match form {
        Form::Text(text) => push_text(out, text.text()),
        Form::Print(_, None) => push_text(out, "$"),
        Form::Print(_, Some(_)) => push_text(out, "$named"),
        Form::If(arms, None) => {
            for arm in arms.items() {
                write_body(out, "if", arm.body.items())?;
            }
            Ok(())
        }
        Form::If(arms, Some(other)) => {
            for arm in arms.items() {
                write_body(out, "if", arm.body.items())?;
            }
            write_body(out, "else", other.items())
        }
        Form::Switch(_, cases, None) => {
            for case in cases.items() {
                write_body(out, "case", case.body.items())?;
            }
            push_text(out, "switch")
        }
        Form::Switch(_, cases, Some(other)) => {
            for case in cases.items() {
                write_body(out, "case", case.body.items())?;
            }
            write_body(out, "default", other.items())
        }
        Form::For(_, None, _, body) => write_body(out, "for", body.items()),
        Form::For(_, Some(_), _, body) => write_body(out, "for-index", body.items()),
        Form::Let(_, _) => push_text(out, "let"),
        Form::LetBlock(_, _, body) => write_body(out, "let", body.items()),
        Form::Call(name, all, given) => {
            push_text(out, name.text())?;
            push_text(out, if *all { "-all" } else { "-call" })?;
            for argument in given.items() {
                match &argument.given {
                    Given::Plain(_) => push_text(out, "=")?,
                    Given::Block(_, body) => write_body(out, "=", body.items())?,
                }
            }
            Ok(())
        }
        Form::Message(message, None) => write_message(out, &message.get().body),
        Form::Message(message, Some(other)) => {
            write_message(out, &message.get().body)?;
            write_message(out, &other.get().body)
        }
    }
}

/// Writes what a message holds.
#[cycle(writing)]
fn write_message(out: &mut String, body: &MessageBody) -> Result<(), OutOfMemory> {
    match body {
        MessageBody::Parts(nodes) => write_body(out, "msg", nodes.items()),
        MessageBody::Plural(_, _, cases, other) => {
            push_text(out, "plural(")?;
            for case in cases.items() {
                write_message(out, &case.body)?;
            }
            write_message(out, other.get())?;
            push_text(out, ")")
        }
        MessageBody::Select(_, cases, other) => {
            push_text(out, "select(")?;
            for case in cases.items() {
                write_message(out, &case.body)?;
            }
            write_message(out, other.get())?;
            push_text(out, ")")
        }
    }
}

/// The tree of a file, or the code and offset of its fault.
fn read(alloc: Global, text: &str) -> Result<Tree, (Code, u64)> {
    let tokens = match lex(alloc, text, 0) {
        Ok(tokens) => tokens,
        Err(_) => return Err((Code::Lex, 0)),
    };
    match parse(alloc, tokens.as_slice(), 7) {
        Ok(tree) => Ok(tree),
        Err(Refusal::Because(Fault { code, file: 7, at })) => Err((code, at)),
        Err(_) => Err((Code::TooLarge, 0)),
    }
}

/// A file of one template with this body, which begins at the offset 25.
fn file(alloc: Global, body: &str) -> Result<String, OutOfMemory> {
    let mut text = String::from_str(alloc, "{namespace t}{template m}")?;
    push_text(&mut text, body)?;
    push_text(&mut text, "{/template}")?;
    Ok(text)
}

/// A body, and its nodes.
const BODIES: &[(&str, &str)] = &[
    ("", ""),
    ("a{sp}b{nil}{literal}c{/literal}", "a bc"),
    ("{$x}{print 1 + 2}", "$$"),
    ("{if 1}a{/if}", "if(a)"),
    (
        "{if 1}{elseif 2}b{elseif 3}{else}c{/if}",
        "if()if(b)if()else(c)",
    ),
    ("{switch 1}{/switch}", "switch"),
    (
        "{switch 1} {case 1, 2}a{case 3}{/switch}",
        "case(a)case()switch",
    ),
    (
        "{switch 1}{literal} {/literal}{default}b{/switch}",
        "default(b)",
    ),
    ("{for $x in $y}{$x}{/for}", "for($)"),
    ("{for $x, $i in $y}{/for}", "for-index()"),
    ("{let $x: 1 /}{let $y kind=\"text\"}a{/let}", "letlet(a)"),
    ("{call a . b /}{call .c data=\"all\" /}", "a.b-callc-all"),
    (
        "{call a} {param p: 1 /}\n{param q kind=\"html\"}b{/param}{/call}",
        "a-call==(b)",
    ),
    ("{msg desc=\"\"}a{$x phname=\"N\"}{/msg}", "msg(a$named)"),
    (
        "{msg meaning=\"m\" desc=\"d\"}a{fallbackmsg desc=\"e\"}b{/msg}",
        "msg(a)msg(b)",
    ),
    (
        "{msg desc=\"d\"}<b title=\"'{$x}>\">c</b>{/msg}",
        "msg(<b title=\"'$>\">c</b>)",
    ),
    (
        "{msg desc=\"d\"} {plural 1 offset=\"1\"}{case 1, 2}a{default}b{/plural}{/msg}",
        "plural(msg(a)msg(a)msg(b))",
    ),
    (
        "{msg desc=\"d\"}{select $x}{case 'a'}{default}{/select}{/msg}",
        "select(msg()msg())",
    ),
    (
        "{msg desc=\"d\"}{plural 1}{default}{select 2}{default}a{/select} {/plural}{/msg}",
        "plural(select(msg(a)))",
    ),
];

/// Whether a file of one template has these nodes.
fn has_nodes(alloc: Global, body: &str, nodes: &str) -> Result<bool, OutOfMemory> {
    let text = file(alloc, body)?;
    match read(alloc, text.as_str()) {
        Ok(tree) => {
            let mut out = String::new(alloc);
            for template in tree.templates.items() {
                write_nodes(&mut out, template.body.items())?;
            }
            Ok(out.as_str() == nodes)
        }
        Err(_) => Ok(false),
    }
}

#[test]
fn bodies_have_their_nodes(rt: HostRuntime) {
    for (body, nodes) in BODIES {
        match has_nodes(rt.alloc(), body, nodes) {
            Ok(found) => assert!(rt; found, "{body}"),
            Err(_) => assert!(rt; false, "{body}"),
        }
    }
}

/// A body of a file of one template, and the fault of that file.
const FAULTS: &[(&str, Code, u64)] = &[
    // Example rows.
    ("{if $x}", Code::Syntax, 33),
    ("{$x +}", Code::Syntax, 30),
    ("{switch $x}a{case 'a'}{/switch}", Code::Syntax, 36),
    ("{msg desc=\"d\"}<a{/msg}", Code::Syntax, 42),
    // What goes on with a block, and what closes it.
    ("{if 1}{else}{else}{/if}", Code::Syntax, 38),
    ("{if 1}{else}{elseif 1}{/if}", Code::Syntax, 38),
    ("{switch 1}{default}{case 1}{/switch}", Code::Syntax, 45),
    ("{call a}b{/call}", Code::Syntax, 33),
    ("{param a: 1 /}", Code::Syntax, 26),
    ("{foo}", Code::Syntax, 26),
    ("{/foo}", Code::Syntax, 26),
    // Attributes.
    ("{msg}a{/msg}", Code::Syntax, 29),
    ("{msg desc=\"a\" desc=\"b\"}{/msg}", Code::Syntax, 39),
    ("{call a data=\"some\" /}", Code::Syntax, 38),
    ("{call a data=\"all\" data=\"all\" /}", Code::Syntax, 44),
    (
        "{let $x kind=\"html\" data=\"all\"}{/let}",
        Code::Syntax,
        45,
    ),
    (
        "{let $x kind=\"text\" kind=\"html\"}{/let}",
        Code::Syntax,
        45,
    ),
    (
        "{msg desc=\"d\" meaning=\"m\" meaning=\"n\"}{/msg}",
        Code::Syntax,
        51,
    ),
    (
        "{msg desc=\"d\"}{plural 1 offset=\"1\" offset=\"2\"}{default}{/plural}{/msg}",
        Code::Syntax,
        60,
    ),
    (
        "{msg desc=\"d\"}{$a phname=\"A\" phname=\"B\"}{/msg}",
        Code::Syntax,
        54,
    ),
    ("{let $x /}", Code::Syntax, 33),
    ("{let $x kind=\"js\"}{/let}", Code::Syntax, 38),
    ("{$a phname=\"A\"}", Code::Syntax, 29),
    ("{msg desc=\"d\"}{$a phname=\"1\"}{/msg}", Code::Syntax, 50),
    (
        "{msg desc=\"d\"}{plural 1 offset=\"01\"}{default}{/plural}{/msg}",
        Code::Syntax,
        56,
    ),
    // Messages.
    ("{msg desc=\"d\"}<b title=\"'>{/msg}", Code::Syntax, 52),
    ("{msg desc=\"d\"}{if 1}{/if}{/msg}", Code::Syntax, 40),
    (
        "{msg desc=\"d\"}{plural 1}{/plural}{/msg}",
        Code::Syntax,
        50,
    ),
    (
        "{msg desc=\"d\"}{plural 1}{case 1}{/plural}{/msg}",
        Code::Syntax,
        58,
    ),
    (
        "{msg desc=\"d\"}a{plural 1}{default}{/plural}{/msg}",
        Code::Syntax,
        41,
    ),
    (
        "{msg desc=\"d\"}{sp}{plural 1}{default}{/plural}{/msg}",
        Code::Syntax,
        44,
    ),
    (
        "{msg desc=\"d\"}{plural 1}{default}{/plural}{sp}{/msg}",
        Code::Syntax,
        68,
    ),
    (
        "{msg desc=\"d\"}{select 1}{case 'other'}{default}{/select}{/msg}",
        Code::Syntax,
        55,
    ),
    // Parameters.
    ("a{@param x: int}", Code::Syntax, 27),
    ("{@param x}", Code::Syntax, 34),
    ("{@param x: map<int, int>}", Code::Syntax, 40),
    ("{@param x: strng}", Code::Mistyped, 36),
    ("{@param x: list}", Code::Mistyped, 36),
];

/// Whether a file of one template has this fault.
fn has_fault(alloc: Global, body: &str, code: Code, offset: u64) -> Result<bool, OutOfMemory> {
    let text = file(alloc, body)?;
    match read(alloc, text.as_str()) {
        Ok(_) => Ok(false),
        Err((found, at)) => Ok(found == code && at == offset),
    }
}

#[test]
fn faults_are_at_the_first_token(rt: HostRuntime) {
    for (body, code, offset) in FAULTS {
        match has_fault(rt.alloc(), body, *code, *offset) {
            Ok(found) => assert!(rt; found, "{body}"),
            Err(_) => assert!(rt; false, "{body}"),
        }
    }
}

/// A text that is no file, and its fault.
const NO_FILES: &[(&str, u64)] = &[
    ("", 0),
    ("a{namespace t}", 0),
    ("{namespace t", 12),
    ("{namespace a.}", 13),
    ("{namespace t}a", 13),
    ("{namespace t}{", 14),
    ("{namespace t}{if 1}{/if}", 14),
    ("{namespace t}{template m}", 25),
    ("{namespace t}{template m kind=\"css\"}{/template}", 30),
    (
        "{namespace t}{template m kind=\"text\" kind=\"text\"}{/template}",
        37,
    ),
    (
        "{namespace t}{template m visibility=\"public\"}{/template}",
        36,
    ),
    (
        "{namespace t}{template m visibility=\"private\" visibility=\"private\"}{/template}",
        46,
    ),
    ("{namespace t}{template m}{/template}{/template}", 37),
];

#[test]
fn texts_that_are_no_file_are_refused(rt: HostRuntime) {
    for (text, offset) in NO_FILES {
        match read(rt.alloc(), text) {
            Ok(_) => assert!(rt; false, "{text}"),
            Err((code, at)) => assert!(rt; code == Code::Syntax && at == *offset, "{text}"),
        }
    }
}

/// A piece, so many times, between two others.
fn repeated(
    alloc: Global,
    count: u32,
    piece: &str,
    between: &str,
    end: &str,
) -> Result<String, OutOfMemory> {
    let mut text = String::new(alloc);
    for _ in 0..count {
        push_text(&mut text, piece)?;
    }
    push_text(&mut text, between)?;
    for _ in 0..count {
        push_text(&mut text, end)?;
    }
    Ok(text)
}

/// What nests, how often, what is inside, and where it is refused, if it is.
const NESTED: &[(&str, u32, &str, &str, Option<u64>)] = &[
    ("{if 1}", 63, "a", "{/if}", None),
    ("{if 1}", 64, "a", "{/if}", Some(407)),
    ("{if 1}", 63, "{1}", "{/if}", Some(404)),
];

#[test]
fn blocks_nest_as_deep_as_is_allowed(rt: HostRuntime) {
    for (piece, count, inside, end, fault) in NESTED {
        let alloc = rt.alloc();
        let Ok(body) = repeated(alloc, *count, piece, inside, end) else {
            assert!(rt; false, "{piece}");
            return;
        };
        let found = match fault {
            Some(offset) => has_fault(alloc, body.as_str(), Code::Nesting, *offset),
            None => file(alloc, body.as_str()).map(|text| read(alloc, text.as_str()).is_ok()),
        };
        match found {
            Ok(found) => assert!(rt; found, "{piece}"),
            Err(_) => assert!(rt; false, "{piece}"),
        }
    }
}

#[test]
fn parentheses_count(rt: HostRuntime) {
    let alloc = rt.alloc();
    match repeated(alloc, 64, "(", "1", ")") {
        Ok(inside) => match format!(in alloc; "{{{}}}", inside.as_str()) {
            Ok(body) => {
                let found = has_fault(alloc, body.as_str(), Code::Nesting, 89);
                assert!(rt; matches!(found, Ok(true)));
            }
            Err(_) => assert!(rt; false),
        },
        Err(_) => assert!(rt; false),
    }
}

/// Where the template, its first node and the first param of that stand.
#[test]
fn spans_of_blocks_end_before_their_closing_command(rt: HostRuntime) {
    match read(
        rt.alloc(),
        "{namespace t}{template m}{let $x kind=\"text\"}a{/let}{/template}",
    ) {
        Ok(tree) => {
            for template in tree.templates.items() {
                assert!(rt; template.span.start == 13 && template.span.end == 52);
                for node in template.body.items() {
                    assert!(rt; node.span.start == 25 && node.span.end == 46);
                }
            }
        }
        Err(_) => assert!(rt; false),
    }
}

/// A body, and where its first node begins and ends.
const TEXT_SPANS: &[(&str, u64, u64)] = &[
    ("a{$x}", 25, 26),
    ("  \n a", 29, 30),
    ("{sp}a", 25, 30),
    ("{lb}{rb}", 25, 33),
    ("{literal}ab{/literal}", 34, 46),
    // Without characters, and what follows those.
    ("{nil}{nil}", 25, 35),
    ("{nil}a", 30, 31),
    ("{nil}{literal}{/literal}a", 49, 50),
];

/// Whether the first node of a file of one template has this span.
fn has_span(alloc: Global, body: &str, start: u64, end: u64) -> Result<bool, OutOfMemory> {
    let text = file(alloc, body)?;
    if let Ok(tree) = read(alloc, text.as_str()) {
        for template in tree.templates.items() {
            for node in template.body.items() {
                return Ok(node.span.start == start && node.span.end == end);
            }
        }
    }
    Ok(false)
}

#[test]
fn texts_begin_at_their_first_character(rt: HostRuntime) {
    for (body, start, end) in TEXT_SPANS {
        match has_span(rt.alloc(), body, *start, *end) {
            Ok(found) => assert!(rt; found, "{body}"),
            Err(_) => assert!(rt; false, "{body}"),
        }
    }
}

fn kind_text(kind: Kind) -> &'static str {
    match kind {
        Kind::Html => "html ",
        Kind::Attributes => "attributes ",
        Kind::Text => "text ",
    }
}

/// Writes the attributes of a message, and of the prints and the plural in it.
fn write_named(out: &mut String, message: &Message) -> Result<(), OutOfMemory> {
    push_text(out, message.desc.text())?;
    push_text(out, "|")?;
    push_text(out, message.meaning.text())?;
    push_text(out, "|")?;
    match &message.body {
        MessageBody::Parts(nodes) => {
            for node in nodes.items() {
                if let Form::Print(_, Some(name)) = &node.form {
                    push_text(out, name.text())?;
                }
            }
            Ok(())
        }
        MessageBody::Plural(_, offset, _, _) => {
            push_text(out, if *offset == 12 { "12" } else { "0" })
        }
        MessageBody::Select(_, _, _) => Ok(()),
    }
}

/// Writes the attributes of nodes.
fn write_attributes(out: &mut String, nodes: &[Node]) -> Result<(), OutOfMemory> {
    for node in nodes {
        match &node.form {
            Form::LetBlock(_, kind, _) => push_text(out, kind_text(*kind))?,
            Form::Call(_, all, given) => {
                push_text(out, if *all { "all " } else { "given " })?;
                for argument in given.items() {
                    if let Given::Block(kind, _) = &argument.given {
                        push_text(out, kind_text(*kind))?;
                    }
                }
            }
            Form::Message(message, None) => write_named(out, message.get())?,
            Form::Message(message, Some(other)) => {
                write_named(out, message.get())?;
                write_named(out, other.get())?;
            }
            _ => {}
        }
    }
    Ok(())
}

/// A file of one template, and the attributes there.
const ATTRIBUTES: &[(&str, &str)] = &[
    ("{namespace t}{template m}{/template}", "html "),
    (
        "{namespace t}{template m visibility=\"private\" kind=\"text\"}{/template}",
        "private text ",
    ),
    (
        "{namespace t}{template m kind=\"attributes\"}{let $x kind=\"html\"}{/let}{/template}",
        "attributes html ",
    ),
    (
        "{namespace t}{template m}{call a data=\"all\"}{param p kind=\"text\"}{/param}{/call}{call b /}{/template}",
        "html all text given ",
    ),
    (
        "{namespace t}{template m}{msg desc=\"d\"}{$x phname=\"A_1\"}{/msg}{/template}",
        "html d||A_1",
    ),
    (
        "{namespace t}{template m}{msg meaning=\"m\" desc=\"\"}{fallbackmsg desc=\"e\" meaning=\"n\"}{/msg}{/template}",
        "html |m|e|n|",
    ),
    (
        "{namespace t}{template m}{msg desc=\"\"}{plural 1 offset=\"12\"}{default}{/plural}{/msg}{/template}",
        "html ||12",
    ),
    (
        "{namespace t}{template m}{msg desc=\"\"}{plural 1}{default}{/plural}{/msg}{/template}",
        "html ||0",
    ),
];

/// Whether a file has these attributes.
fn has_attributes(alloc: Global, text: &str, attributes: &str) -> Result<bool, OutOfMemory> {
    let mut out = String::new(alloc);
    if let Ok(tree) = read(alloc, text) {
        for template in tree.templates.items() {
            push_text(&mut out, if template.private { "private " } else { "" })?;
            push_text(&mut out, kind_text(template.kind))?;
            write_attributes(&mut out, template.body.items())?;
        }
    }
    Ok(out.as_str() == attributes)
}

#[test]
fn attributes_have_their_values(rt: HostRuntime) {
    for (text, attributes) in ATTRIBUTES {
        match has_attributes(rt.alloc(), text, attributes) {
            Ok(found) => assert!(rt; found, "{text}"),
            Err(_) => assert!(rt; false, "{text}"),
        }
    }
}
