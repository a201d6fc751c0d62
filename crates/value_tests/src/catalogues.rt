//! Messages with their canonical texts, placeholders, ids and catalogues.

use msg_extract::{
    NamedMessage, NamedPlaceholders, Placeholder, Translations, extract, message_id, placeholders,
    write_catalogue,
};
use plural_rules::Rules;
use soy_base::{Boxed, Dir, Fault, Kind, OutOfMemory, Refusal, Seq, Span, Text};
use soy_tree::{
    Bundle, Expr, ExprNode, Form, Message, MessageBody, MsgPart, Node, PluralCase, Template,
    Translation, Tree,
};
use std::alloc::Global;

const SPAN: Span = Span { start: 0, end: 0 };

fn text(alloc: Global, text: &str) -> Result<Text, OutOfMemory> {
    Ok(Text::new(String::from_str(alloc, text)?))
}

fn variable(alloc: Global, name: &str) -> Result<Expr, OutOfMemory> {
    Expr::new(alloc, ExprNode::Var(text(alloc, name)?), SPAN)
}

/// `$of.name`
fn member(alloc: Global, of: &str, name: &str) -> Result<Expr, OutOfMemory> {
    let of = variable(alloc, of)?;
    Expr::new(alloc, ExprNode::Member(of, text(alloc, name)?, false), SPAN)
}

fn text_node(alloc: Global, words: &str) -> Result<Node, OutOfMemory> {
    Ok(Node {
        form: Form::Text(text(alloc, words)?),
        span: SPAN,
    })
}

fn print_node(expr: Expr) -> Node {
    Node {
        form: Form::Print(expr, None),
        span: SPAN,
    }
}

fn message(
    alloc: Global,
    meaning: &str,
    body: MessageBody,
    start: u64,
) -> Result<Message, OutOfMemory> {
    Ok(Message {
        desc: text(alloc, "d")?,
        meaning: text(alloc, meaning)?,
        body,
        span: Span { start, end: start },
    })
}

/// `{plural $n offset="1"}{case 1}only{default}{$n} in all{/plural}`
fn plural_body(alloc: Global) -> Result<MessageBody, OutOfMemory> {
    let mut only = Vec::new(alloc);
    only.push(text_node(alloc, "only")?)?;
    let mut cases = Vec::new(alloc);
    cases.push(PluralCase {
        is: 1,
        body: MessageBody::Parts(Seq::new(only)),
    })?;
    let mut all = Vec::new(alloc);
    all.push(print_node(variable(alloc, "n")?))?;
    all.push(text_node(alloc, " in all")?)?;
    let other = Boxed::new(alloc, MessageBody::Parts(Seq::new(all)))?;
    Ok(MessageBody::Plural(variable(alloc, "n")?, 1, Seq::new(cases), other))
}

/// `<a href="/x">{$a.name}</a> {$b.name}`
fn names_body(alloc: Global) -> Result<MessageBody, OutOfMemory> {
    let mut nodes = Vec::new(alloc);
    nodes.push(text_node(alloc, "<a href=\"/x\">")?)?;
    nodes.push(print_node(member(alloc, "a", "name")?))?;
    nodes.push(text_node(alloc, "</a> ")?)?;
    nodes.push(print_node(member(alloc, "b", "name")?))?;
    Ok(MessageBody::Parts(Seq::new(nodes)))
}

/// `WORDS {$who}`
fn who_body(alloc: Global, words: &str) -> Result<MessageBody, OutOfMemory> {
    let mut nodes = Vec::new(alloc);
    nodes.push(text_node(alloc, words)?)?;
    nodes.push(print_node(variable(alloc, "who")?))?;
    Ok(MessageBody::Parts(Seq::new(nodes)))
}

/// A message of this body, in a box.
fn boxed(alloc: Global, body: MessageBody, start: u64) -> Result<Boxed<Message>, OutOfMemory> {
    Ok(Boxed::new(alloc, message(alloc, "", body, start)?)?)
}

/// The node of a message and its fallback.
fn message_node(message: Boxed<Message>, other: Option<Boxed<Message>>) -> Node {
    Node {
        form: Form::Message(message, other),
        span: SPAN,
    }
}

/// A file of one template with one node.
fn tree(alloc: Global, node: Node) -> Result<Tree, OutOfMemory> {
    let mut body = Vec::new(alloc);
    body.push(node)?;
    let mut templates = Vec::new(alloc);
    templates.push(Template {
        name: text(alloc, "m")?,
        kind: Kind::Html,
        private: false,
        params: Seq::new(Vec::new(alloc)),
        body: Seq::new(body),
        span: SPAN,
    })?;
    Ok(Tree {
        namespace: text(alloc, "t")?,
        templates: Seq::new(templates),
    })
}

/// The canonical text of a message of this body, as the catalogue lists it.
fn listed_text(alloc: Global, body: MessageBody) -> Result<Text, Refusal<Fault>> {
    let tree = tree(alloc, message_node(boxed(alloc, body, 0)?, None))?;
    let catalogue = extract(alloc, &[tree])?;
    match catalogue.messages.items() {
        [listed] => Ok(listed.text.copy(alloc)?),
        _ => Ok(Text::empty(alloc)),
    }
}

fn plural_text(alloc: Global) -> Result<Text, Refusal<Fault>> {
    listed_text(alloc, plural_body(alloc)?)
}

fn names_text(alloc: Global) -> Result<Text, Refusal<Fault>> {
    listed_text(alloc, names_body(alloc)?)
}

/// The canonical text of `{lb}a{rb}it's #{$who}`
fn quoted_text(alloc: Global) -> Result<Text, Refusal<Fault>> {
    listed_text(alloc, who_body(alloc, "{a}it's #")?)
}

#[test]
fn canonical_texts(rt: HostRuntime) {
    for (found, wanted) in [
        (
            plural_text(rt.alloc()),
            "{N, plural, offset:1 =1 {only} other {{N} in all}}",
        ),
        (
            names_text(rt.alloc()),
            "{START_LINK}{NAME_1}{END_LINK} {NAME_2}",
        ),
        (quoted_text(rt.alloc()), "'{'a'}'it''s #{WHO}"),
    ] {
        match found {
            Ok(text) => assert!(rt; text.is(wanted), "{wanted}"),
            Err(_) => assert!(rt; false, "{wanted}"),
        }
    }
}

fn id_with_meaning(alloc: Global, meaning: &str) -> Result<Text, OutOfMemory> {
    let body = who_body(alloc, "love ")?;
    message_id(alloc, &message(alloc, meaning, body, 0)?)
}

#[test]
fn an_id_comes_of_meaning_and_canonical_text(rt: HostRuntime) {
    for (meaning, wanted) in [("", "29b104d2ffbb3f3d"), ("m", "bf4ae17dda843b0c")] {
        match id_with_meaning(rt.alloc(), meaning) {
            Ok(id) => assert!(rt; id.is(wanted), "{meaning}"),
            Err(_) => assert!(rt; false, "{meaning}"),
        }
    }
}

/// A file with the same message as message and fallback.
fn love_tree(alloc: Global) -> Result<Tree, OutOfMemory> {
    let first = boxed(alloc, who_body(alloc, "love ")?, 3)?;
    let second = boxed(alloc, who_body(alloc, "love ")?, 9)?;
    tree(alloc, message_node(first, Some(second)))
}

fn love_catalogue(alloc: Global) -> Result<String, Refusal<Fault>> {
    let catalogue = extract(alloc, &[love_tree(alloc)?])?;
    Ok(write_catalogue(alloc, &catalogue)?)
}

#[test]
fn extract_message(rt: HostRuntime) {
    match love_catalogue(rt.alloc()) {
        Ok(text) => assert_eq!(rt;
            text.as_str(),
            "{\"messages\":[{\"desc\":\"d\",\"id\":\"29b104d2ffbb3f3d\",\"meaning\":\"\",\"text\":\"love {WHO}\"}]}"
        ),
        Err(_) => assert!(rt; false),
    }
}

fn names_placeholders(alloc: Global) -> Result<Seq<Placeholder>, OutOfMemory> {
    let body = names_body(alloc)?;
    placeholders(alloc, &message(alloc, "", body, 0)?)
}

/// Whether the placeholder of a number has this name and stands for one node.
fn is_named(found: &[Placeholder], number: usize, name: &str) -> bool {
    match found.get(number) {
        Some(placeholder) => placeholder.name.is(name) && placeholder.nodes.items().len() == 1,
        None => false,
    }
}

#[test]
fn placeholders_stand_for_prints_and_tags(rt: HostRuntime) {
    let Ok(found) = names_placeholders(rt.alloc()) else {
        assert!(rt; false);
        return;
    };
    let items = found.items();
    assert_eq!(rt; items.len(), 4);
    assert!(rt; is_named(items, 0, "START_LINK") && is_named(items, 1, "NAME_1"));
    assert!(rt; is_named(items, 2, "END_LINK") && is_named(items, 3, "NAME_2"));
}

/// How many nodes a name stands for.
fn named_count(
    alloc: Global,
    placeholders: &[Placeholder],
    name: &str,
) -> Result<usize, OutOfMemory> {
    let named = NamedPlaceholders::new(alloc, placeholders)?;
    let name = text(alloc, name)?;
    Ok(named.nodes(&name).len())
}

#[test]
fn placeholders_are_found_by_name(rt: HostRuntime) {
    let Ok(found) = names_placeholders(rt.alloc()) else {
        assert!(rt; false);
        return;
    };
    for (name, wanted) in [
        ("START_LINK", 1),
        ("NAME_1", 1),
        ("END_LINK", 1),
        ("NAME_2", 1),
        ("NAME", 0),
    ] {
        match named_count(rt.alloc(), found.items(), name) {
            Ok(count) => assert_eq!(rt; count, wanted, "{name}"),
            Err(_) => assert!(rt; false, "{name}"),
        }
    }
}

/// Ten prints, whose names are `A` to `J`.
fn many_placeholders(alloc: Global) -> Result<Seq<Placeholder>, OutOfMemory> {
    let mut nodes = Vec::new(alloc);
    for name in ["a", "b", "c", "d", "e", "f", "g", "h", "i", "j"] {
        nodes.push(print_node(variable(alloc, name)?))?;
    }
    let body = MessageBody::Parts(Seq::new(nodes));
    placeholders(alloc, &message(alloc, "", body, 0)?)
}

#[test]
fn many_placeholders_are_found_by_name(rt: HostRuntime) {
    let Ok(found) = many_placeholders(rt.alloc()) else {
        assert!(rt; false);
        return;
    };
    for (name, wanted) in [("A", 1), ("J", 1), ("K", 0)] {
        match named_count(rt.alloc(), found.items(), name) {
            Ok(count) => assert_eq!(rt; count, wanted, "{name}"),
            Err(_) => assert!(rt; false, "{name}"),
        }
    }
}

/// The id of a message by its names.
fn named_id(alloc: Global, message: &Message) -> Result<Text, OutOfMemory> {
    let named = NamedMessage::new(alloc, message)?;
    named.id(alloc)
}

/// How many placeholders a message has by its names.
fn named_placeholders(alloc: Global, message: &Message) -> Result<usize, OutOfMemory> {
    let named = NamedMessage::new(alloc, message)?;
    let found = named.placeholders(alloc)?;
    Ok(found.items().len())
}

/// How many selectors a message has by its names.
fn named_selectors(alloc: Global, message: &Message) -> Result<usize, OutOfMemory> {
    let named = NamedMessage::new(alloc, message)?;
    let found = named.selectors(alloc)?;
    Ok(found.items().len())
}

/// Whether there are so many.
fn is_count(count: Result<usize, OutOfMemory>, wanted: usize) -> bool {
    match count {
        Ok(count) => count == wanted,
        Err(_) => false,
    }
}

/// A message of a plural.
fn plural_message(alloc: Global) -> Result<Message, OutOfMemory> {
    message(alloc, "", plural_body(alloc)?, 0)
}

#[test]
fn the_names_of_a_message_give_its_id_placeholders_and_selectors(rt: HostRuntime) {
    let Ok(message) = plural_message(rt.alloc()) else {
        assert!(rt; false);
        return;
    };
    match named_id(rt.alloc(), &message) {
        Ok(id) => assert!(rt; id.is("4e4dc2996d68020f")),
        Err(_) => assert!(rt; false),
    }
    assert!(rt; is_count(named_placeholders(rt.alloc(), &message), 1));
    assert!(rt; is_count(named_selectors(rt.alloc(), &message), 1));
}

/// A bundle with one translation of one part.
fn one_translation(alloc: Global, id: &str) -> Result<Bundle, OutOfMemory> {
    let mut parts = Vec::new(alloc);
    parts.push(MsgPart::Number)?;
    let mut messages = Vec::new(alloc);
    messages.push(Translation {
        id: text(alloc, id)?,
        parts: Seq::new(parts),
    })?;
    Ok(Bundle {
        dir: Dir::Ltr,
        plural: Rules::none(alloc),
        ordinal: Rules::none(alloc),
        messages: Seq::new(messages),
    })
}

/// How many parts the translation has that is found for a message; 0 for none.
fn parts_found(
    alloc: Global,
    translations: &Translations<'_>,
    message: &Message,
) -> Result<usize, OutOfMemory> {
    let named = NamedMessage::new(alloc, message)?;
    match translations.find(alloc, &named)? {
        Some(parts) => Ok(parts.len()),
        None => Ok(0),
    }
}

/// The same in a bundle.
fn parts_in(alloc: Global, bundle: &Bundle, message: &Message) -> Result<usize, OutOfMemory> {
    let translations = Translations::new(alloc, bundle)?;
    parts_found(alloc, &translations, message)
}

/// The same of the plural's message, in a bundle with one translation for an id.
fn found_parts(alloc: Global, id: &str) -> Result<usize, OutOfMemory> {
    let bundle = one_translation(alloc, id)?;
    let message = plural_message(alloc)?;
    parts_in(alloc, &bundle, &message)
}

#[test]
fn a_translation_is_found_by_the_id_of_its_message(rt: HostRuntime) {
    for (id, wanted) in [("4e4dc2996d68020f", 1), ("29b104d2ffbb3f3d", 0)] {
        match found_parts(rt.alloc(), id) {
            Ok(count) => assert_eq!(rt; count, wanted, "{id}"),
            Err(_) => assert!(rt; false, "{id}"),
        }
    }
}
