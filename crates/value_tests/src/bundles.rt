//! Bundles beside a small catalogue, and what is answered.

use msg_bundle::read_bundle;
use msg_extract::{Catalogue, Listed, extract};
use plural_rules::Category;
use soy_base::{
    Boxed, Code, Dir, Fault, Kind, OutOfMemory, PathStep, Refusal, Seq, Span, Text, push_char,
    push_text,
};
use soy_tree::{Bundle, Expr, ExprNode, Form, Message, MessageBody, Node, Template, Tree};
use std::alloc::Global;

fn text(alloc: Global, text: &str) -> Result<Text, OutOfMemory> {
    Ok(Text::new(String::from_str(alloc, text)?))
}

fn texts(alloc: Global, of: &[&str]) -> Result<Seq<Text>, OutOfMemory> {
    let mut texts = Vec::new(alloc);
    for name in of {
        texts.push(text(alloc, name)?)?;
    }
    Ok(Seq::new(texts))
}

/// A row of the catalogue: its id, and the names of its placeholders, plurals and selects.
fn row(
    alloc: Global,
    id: &str,
    placeholders: &[&str],
    plurals: &[&str],
    selects: &[&str],
) -> Result<Listed, OutOfMemory> {
    Ok(Listed {
        id: text(alloc, id)?,
        desc: Text::empty(alloc),
        meaning: Text::empty(alloc),
        text: Text::empty(alloc),
        placeholders: texts(alloc, placeholders)?,
        plurals: texts(alloc, plurals)?,
        selects: texts(alloc, selects)?,
    })
}

/// The messages `ab`, with an argument A, a plural N and a select S, and `love`, with an argument WHO; another of the
/// id `ab` counts for nothing.
fn catalogue(alloc: Global) -> Result<Catalogue, OutOfMemory> {
    let mut rows = Vec::new(alloc);
    rows.push(row(alloc, "love", &["WHO"], &[], &[])?)?;
    rows.push(row(alloc, "ab", &["A"], &["N"], &["S"])?)?;
    rows.push(row(alloc, "ab", &["B"], &[], &[])?)?;
    Ok(Catalogue {
        messages: Seq::new(rows),
    })
}

/// The code and the path, each key after a `/`.
fn push_fault(out: &mut String, code: Code, path: &[PathStep]) -> Result<(), OutOfMemory> {
    push_text(out, code.word())?;
    for step in path {
        push_char(out, '/')?;
        match step {
            PathStep::Key(key) => push_text(out, key.text())?,
            PathStep::Index(_) => push_char(out, '?')?,
        }
    }
    Ok(())
}

/// The direction, whether 1 is `one` by the rules for plurals and by those for ordinals, and the ids.
fn push_bundle(out: &mut String, bundle: &Bundle) -> Result<(), OutOfMemory> {
    match bundle.dir {
        Dir::Ltr => push_text(out, "ltr")?,
        Dir::Rtl => push_text(out, "rtl")?,
    }
    if bundle.plural.category(1) == Category::One {
        push_text(out, " plural")?;
    }
    if bundle.ordinal.category(1) == Category::One {
        push_text(out, " ordinal")?;
    }
    for translation in bundle.messages.items() {
        push_char(out, ' ')?;
        push_text(out, translation.id.text())?;
    }
    Ok(())
}

/// What is answered, as a text.
fn answer(alloc: Global, bytes: &[u8]) -> Result<String, OutOfMemory> {
    let mut out = String::new(alloc);
    match read_bundle(alloc, bytes, &catalogue(alloc)?) {
        Ok(bundle) => push_bundle(&mut out, &bundle)?,
        Err(Refusal::Because(fault)) => push_fault(&mut out, fault.code, fault.path.items())?,
        Err(Refusal::OutOfMemory) => return Err(OutOfMemory),
    }
    Ok(out)
}

/// Bundles with what is answered: the form.
const FORMS: &[(&str, &str)] = &[
    ("{\"dir\":\"ltr\",\"messages\":{}}", "ltr"),
    (
        "{\"messages\":{},\"dir\":\"rtl\",\"locale\":\"ar\",\"x\":null}",
        "rtl",
    ),
    (
        "{\"dir\":\"x\",\"dir\":\"rtl\",\"messages\":1,\"messages\":{}}",
        "rtl",
    ),
    // the whole
    ("", "Bundle"),
    ("{", "Bundle"),
    ("[]", "Bundle"),
    ("\"ltr\"", "Bundle"),
    ("{\"dir\":\"ltr\",\"messages\":{}}x", "Bundle"),
    // members that are missing or of another form, in their order
    ("{}", "Bundle/dir"),
    ("{\"dir\":\"up\",\"locale\":1,\"messages\":1}", "Bundle/dir"),
    ("{\"dir\":null,\"messages\":{}}", "Bundle/dir"),
    (
        "{\"dir\":\"ltr\",\"locale\":null,\"plural\":1}",
        "Bundle/locale",
    ),
    (
        "{\"dir\":\"ltr\",\"plural\":null,\"ordinal\":1}",
        "Bundle/plural",
    ),
    (
        "{\"dir\":\"ltr\",\"ordinal\":[],\"messages\":1}",
        "Bundle/ordinal",
    ),
    ("{\"dir\":\"ltr\"}", "Bundle/messages"),
    ("{\"dir\":\"ltr\",\"messages\":[]}", "Bundle/messages"),
    // entries in the order of their keys' bytes
    (
        "{\"dir\":\"ltr\",\"plural\":{\"zero\":1,\"few\":2,\"one\":\"\"}}",
        "Bundle/plural/few",
    ),
    (
        "{\"dir\":\"ltr\",\"plural\":{\"One\":\"n = 1\"}}",
        "Bundle/plural/One",
    ),
    (
        "{\"dir\":\"ltr\",\"plural\":{\"one\":\"\"},\"ordinal\":{\"two\":null}}",
        "Bundle/ordinal/two",
    ),
    (
        "{\"dir\":\"ltr\",\"messages\":{\"é\":1,\"zz\":null,\"ab\":\"{\"}}",
        "Bundle/messages/zz",
    ),
];

/// The rules.
const RULES: &[(&str, &str)] = &[
    (
        "{\"dir\":\"ltr\",\"plural\":{\"one\":\"n = 1\",\"other\":\"\"},\"messages\":{}}",
        "ltr plural",
    ),
    (
        "{\"dir\":\"ltr\",\"ordinal\":{\"one\":\"n % 10 = 1\"},\"messages\":{}}",
        "ltr ordinal",
    ),
    (
        "{\"dir\":\"ltr\",\"plural\":{\"one\":\"n % 0 = 1\"},\"messages\":{}}",
        "Rule/plural/one",
    ),
    (
        "{\"dir\":\"ltr\",\"plural\":{\"few\":\"n is 2\",\"zero\":\"\"},\"messages\":{}}",
        "Rule/plural/zero",
    ),
    (
        "{\"dir\":\"ltr\",\"ordinal\":{\"zero\":\"\"},\"plural\":{\"other\":\"n = 1\"},\"messages\":{}}",
        "Rule/plural/other",
    ),
    // the form of the messages is asked before the rules, and the rules before the translations
    (
        "{\"dir\":\"ltr\",\"plural\":{\"one\":\"\"}}",
        "Bundle/messages",
    ),
    (
        "{\"dir\":\"ltr\",\"ordinal\":{\"one\":\"\"},\"messages\":{\"ab\":\"{\"}}",
        "Rule/ordinal/one",
    ),
];

/// The messages of a bundle, with what is answered.
const MESSAGES: &[(&str, &str)] = &[
    ("{\"love\":\"l''amour {WHO}\",\"ab\":\"\"}", "ltr ab love"),
    ("{\"love\":\"{WHOM}\"}", "Placeholder/messages/love"),
    (
        "{\"love\":\"{WHO, plural, other {x}}\"}",
        "Selector/messages/love",
    ),
    ("{\"love\":\"{WHO\"}", "Icu/messages/love"),
    // the first of a catalogue's rows of one id
    ("{\"ab\":\"{B}\"}", "Placeholder/messages/ab"),
    // in the order of the ids
    ("{\"love\":\"{\",\"ab\":\"{X}\"}", "Placeholder/messages/ab"),
    // ids that the catalogue lacks
    ("{\"aa\":\"{\",\"a/b\":\"{X}\",\"love\":\"\"}", "ltr love"),
    // names of one kind alone
    (
        "{\"ab\":\"{A}{N, selectordinal, =1 {{A}} other {{S, select, x {#} other {}}}}\"}",
        "ltr ab",
    ),
    ("{\"ab\":\"{N}\"}", "Placeholder/messages/ab"),
    ("{\"ab\":\"{S, plural, other {}}\"}", "Selector/messages/ab"),
    ("{\"ab\":\"{N, select, other {}}\"}", "Selector/messages/ab"),
    // in the order of the parts: a selector before its arms, those for numbers before the others
    (
        "{\"ab\":\"{A, plural, other {{X}}}\"}",
        "Selector/messages/ab",
    ),
    (
        "{\"ab\":\"{N, plural, other {{X}} =2 {{X, select, other {}}}}\"}",
        "Selector/messages/ab",
    ),
    // arms that aren't kept aren't asked
    (
        "{\"ab\":\"{N, plural, =1 {} =01 {{X}} other {}}\"}",
        "ltr ab",
    ),
];

#[test]
fn bundles_have_their_form(rt: HostRuntime) {
    for row in FORMS {
        match answer(rt.alloc(), row.0.as_bytes()) {
            Ok(text) => assert_eq!(rt; text.as_str(), row.1),
            Err(_) => assert!(rt; false),
        }
    }
}

#[test]
fn bundle_faults(rt: HostRuntime) {
    for row in RULES {
        match answer(rt.alloc(), row.0.as_bytes()) {
            Ok(text) => assert_eq!(rt; text.as_str(), row.1),
            Err(_) => assert!(rt; false),
        }
    }
}

/// What is answered of a bundle with these messages.
fn answer_of_messages(alloc: Global, messages: &str) -> Result<String, OutOfMemory> {
    let mut bundle = String::new(alloc);
    push_text(&mut bundle, "{\"dir\":\"ltr\",\"messages\":")?;
    push_text(&mut bundle, messages)?;
    push_char(&mut bundle, '}')?;
    answer(alloc, bundle.as_bytes())
}

#[test]
fn message_translation(rt: HostRuntime) {
    for row in MESSAGES {
        match answer_of_messages(rt.alloc(), row.0) {
            Ok(text) => assert_eq!(rt; text.as_str(), row.1),
            Err(_) => assert!(rt; false),
        }
    }
}

#[test]
fn bytes_that_are_no_utf8_are_no_bundle(rt: HostRuntime) {
    match answer(
        rt.alloc(),
        b"{\"dir\":\"ltr\",\"messages\":{},\"x\":\"\xff\"}",
    ) {
        Ok(text) => assert_eq!(rt; text.as_str(), "Bundle"),
        Err(_) => assert!(rt; false),
    }
}

const SPAN: Span = Span { start: 0, end: 0 };

/// `love {$who}`
fn love(alloc: Global) -> Result<Message, OutOfMemory> {
    let mut nodes = Vec::new(alloc);
    nodes.push(Node {
        form: Form::Text(text(alloc, "love ")?),
        span: SPAN,
    })?;
    let who = Expr::new(alloc, ExprNode::Var(text(alloc, "who")?), SPAN)?;
    nodes.push(Node {
        form: Form::Print(who, None),
        span: SPAN,
    })?;
    Ok(Message {
        desc: text(alloc, "d")?,
        meaning: Text::empty(alloc),
        body: MessageBody::Parts(Seq::new(nodes)),
        span: SPAN,
    })
}

/// The node of this message.
fn love_node(alloc: Global) -> Result<Node, OutOfMemory> {
    Ok(Node {
        form: Form::Message(Boxed::new(alloc, love(alloc)?)?, None),
        span: SPAN,
    })
}

/// A file with one template, of this message.
fn file(alloc: Global) -> Result<Tree, OutOfMemory> {
    let mut body = Vec::new(alloc);
    body.push(love_node(alloc)?)?;
    let mut templates = Vec::new(alloc);
    templates.push(Template {
        name: text(alloc, "m")?,
        kind: Kind::Html,
        private: false,
        params: Seq::new(Vec::new(alloc)),
        body: Seq::new(body),
        span: SPAN,
    })?;
    Ok(Tree {
        namespace: text(alloc, "t")?,
        templates: Seq::new(templates),
    })
}

/// How many translations a bundle has for a file, whose message has the id 29b104d2ffbb3f3d.
fn translated(alloc: Global) -> Result<usize, Refusal<Fault>> {
    let catalogue = extract(alloc, &[file(alloc)?])?;
    let bundle = b"{\"dir\":\"ltr\",\"messages\":{\"29b104d2ffbb3f3d\":\"l''amour {WHO}\"}}";
    match read_bundle(alloc, bundle, &catalogue) {
        Ok(bundle) => Ok(bundle.messages.items().len()),
        Err(_) => Ok(0),
    }
}

#[test]
fn bundles_are_read_beside_the_catalogue_of_files(rt: HostRuntime) {
    assert!(rt; matches!(translated(rt.alloc()), Ok(1)));
}
