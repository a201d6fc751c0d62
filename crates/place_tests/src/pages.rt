//! Rows of the tables, by the calls of a state.

use html_state::{Part, State};
use soy_base::{Code, Kind, Place, Placing, ValueClass};

/// Where a value is printed.
const PRINT: char = '§';

/// A value stands here, if the place takes one that sets a mark.
fn print(state: &mut State) {
    match state.placing() {
        Placing::Takes(Place::Tag) => state.value(ValueClass::Attributes),
        Placing::Takes(Place::UriStart) => state.value(ValueClass::Text),
        Placing::Takes(Place::CssValue) => state.value(ValueClass::Int),
        _ => {}
    }
}

/// Reads a whole static text with values in it, up to the first fault in it.
fn read(state: &mut State, text: &str) -> Result<(), Code> {
    for c in text.chars() {
        if c == PRINT {
            state.end_text()?;
            print(state);
        } else {
            state.step(c)?;
        }
    }
    state.end_text()
}

fn placing(kind: Kind, text: &str) -> Result<Placing, Code> {
    let mut state = State::start(kind);
    read(&mut state, text)?;
    Ok(state.placing())
}

const TEXT: Result<Placing, Code> = Ok(Placing::Takes(Place::Text));

const ATTR: Result<Placing, Code> = Ok(Placing::Takes(Place::Attr));

const TAG: Result<Placing, Code> = Ok(Placing::Takes(Place::Tag));

const START: Result<Placing, Code> = Ok(Placing::Takes(Place::UriStart));

const PATH: Result<Placing, Code> = Ok(Placing::Takes(Place::UriPath));

const QUERY: Result<Placing, Code> = Ok(Placing::Takes(Place::UriQuery));

const FRAGMENT: Result<Placing, Code> = Ok(Placing::Takes(Place::UriFragment));

const NO_PLACE: Result<Placing, Code> = Ok(Placing::Refuses(Code::Place));

const IN_NAME: Result<Placing, Code> = Ok(Placing::Refuses(Code::InName));

const NO_START: Result<Placing, Code> = Ok(Placing::Refuses(Code::UriStart));

/// Texts of HTML, each with what happens to a value after it.
const ROWS: &[(&str, Result<Placing, Code>)] = &[
    ("a<b>c</b>", TEXT),
    ("<", IN_NAME),
    ("</", IN_NAME),
    ("<b", IN_NAME),
    ("< b", TEXT),
    ("<p ", TAG),
    ("<p a", IN_NAME),
    ("<p a=", NO_PLACE),
    ("<p a=b", NO_PLACE),
    ("<p a=\"", ATTR),
    ("<p a='b", ATTR),
    ("<p a=\"b\"", NO_PLACE),
    ("<p a=\"b\"c", IN_NAME),
    ("<p/", NO_PLACE),
    ("<p =", Err(Code::InName)),
    ("<p a =", Err(Code::InName)),
    ("<svg ", Err(Code::InName)),
    ("<svg", IN_NAME),
    ("</svg>", TEXT),
    ("<svgs>", TEXT),
    ("<PLAINTEXT>", Err(Code::InName)),
    ("<p onclick=\"", NO_PLACE),
    ("<p dir=\"", NO_PLACE),
    ("<p dir>", TEXT),
    ("<p dir=>", TEXT),
    ("<!", NO_PLACE),
    ("<!doctypE html>", TEXT),
    ("<!-->", TEXT),
    ("<!--a--", NO_PLACE),
    ("<!--a--!>", TEXT),
    ("<!--a->", NO_PLACE),
    ("<!-a>", TEXT),
    ("<?a>", TEXT),
    ("</>", TEXT),
    ("<title>a", Ok(Placing::Takes(Place::Rcdata))),
    ("<title>a</ti", NO_PLACE),
    ("<title>a</tix", Ok(Placing::Takes(Place::Rcdata))),
    ("<title>a</ti<", NO_PLACE),
    ("<title>a</TITLE", NO_PLACE),
    ("<title>a</titlex", Ok(Placing::Takes(Place::Rcdata))),
    ("<title>a</title ", TAG),
    ("<title>a</title>", TEXT),
    ("<title>a</title/", NO_PLACE),
    ("<TEXTAREA/>", Ok(Placing::Takes(Place::Rcdata))),
    ("<xmp><b>", NO_PLACE),
    ("<xmp>&</xmp>", TEXT),
    ("</script>", TEXT),
    ("<script>", Ok(Placing::Takes(Place::JsValue))),
    ("<script>'<", NO_PLACE),
    ("<script>'a", Ok(Placing::Takes(Place::JsSingle))),
    ("<script>\"a", Ok(Placing::Takes(Place::JsDouble))),
    ("<script>x</b", Err(Code::Script)),
    ("<script>x</</script>", Err(Code::Script)),
    ("<script>a / b</script>", Err(Code::Script)),
    ("<script>a<!b", Ok(Placing::Takes(Place::JsValue))),
    ("<script>a<!-", NO_PLACE),
    ("<script>a<!--", Err(Code::Script)),
    ("<script>'</script>", Err(Code::Script)),
    ("<script>// a</script>", TEXT),
    ("<style>", NO_PLACE),
    ("<style>p{a:", Ok(Placing::Takes(Place::CssValue))),
    ("<style>p{a:'", Ok(Placing::Takes(Place::CssString))),
    ("<style>/</style>", Err(Code::Script)),
    ("<style>p{a:§}</style>", TEXT),
    ("<p style=\"", NO_PLACE),
    ("<p style=\"color:", Ok(Placing::Takes(Place::CssValue))),
    ("<p style=color:", NO_PLACE),
    ("<p style=\"a:§;\"", NO_PLACE),
    ("<p style=\"a:§\"", NO_PLACE),
    ("<p style=\"/\"", NO_PLACE),
    ("<p style=\"a:§b", Err(Code::Script)),
    ("<p style=\"a:§&", Err(Code::Reference)),
    ("<p style=\"/*\"", Err(Code::Script)),
];

/// References and what is none.
const REFERENCES: &[(&str, Result<Placing, Code>)] = &[
    ("a & b", TEXT),
    ("&amp;", TEXT),
    ("&foo;", Err(Code::Reference)),
    ("&AMP;", Err(Code::Reference)),
    ("&#33;", TEXT),
    ("&#X41;", TEXT),
    ("&#x1", Err(Code::Ampersand)),
    ("&#x1g", Err(Code::Reference)),
    ("&#3", Err(Code::Ampersand)),
    ("&#", Err(Code::Ampersand)),
    ("&#;", Err(Code::Reference)),
    ("<p title=\"?a&b=c", ATTR),
    ("a&b=c", Err(Code::Ampersand)),
    ("a&b c", Err(Code::Ampersand)),
    ("a&b", Err(Code::Ampersand)),
    ("A&", Err(Code::Ampersand)),
    ("A&§", Err(Code::Ampersand)),
    ("<p title=\"a&b\"", Err(Code::Ampersand)),
    ("<p title=\"a&\"", NO_PLACE),
    ("<a href=\"a&#58;\"", Err(Code::Reference)),
    ("<a href=\"a&amp;", NO_START),
    ("<a href=\"/a&amp;", PATH),
    ("<a href=\"a&", Err(Code::Ampersand)),
    ("<a href=\"a&#", Err(Code::Reference)),
    ("<p style=\"a&", Err(Code::Reference)),
    ("<p style=\"a&amp;\"", Err(Code::Reference)),
    ("&#999999", Err(Code::Ampersand)),
    ("&#9999999", Err(Code::Reference)),
    ("&#1114111;", TEXT),
    ("&#x10FFFF;", TEXT),
    ("&#xd800;", Err(Code::Reference)),
    ("&#127;", Err(Code::Reference)),
    ("&#00009;", TEXT),
    ("&hellip;", TEXT),
    ("&hellipx;", Err(Code::Reference)),
    ("<title>&lt;", Ok(Placing::Takes(Place::Rcdata))),
    ("<title>&", Err(Code::Ampersand)),
    ("<xmp>&foo;", NO_PLACE),
    ("<!--&foo;", NO_PLACE),
    ("<p a=&foo;", NO_PLACE),
    ("<a href=a&#", Err(Code::Reference)),
    ("<a href=a&b", NO_PLACE),
    ("<a href=a&", Err(Code::Ampersand)),
];

/// The part of a URI.
const URIS: &[(&str, Result<Placing, Code>)] = &[
    ("<a href=\"", START),
    ("<a href=\"h", NO_START),
    ("<a href=\"http", NO_START),
    ("<a href=\"HTTPS:", PATH),
    ("<a href=\"mailto:", PATH),
    ("<a href=\"ftp:", PATH),
    ("<a href=\"htt:", NO_START),
    ("<a href=\"javascript:", NO_START),
    ("<a href=\"javascript:/", NO_START),
    ("<a href=\":", NO_START),
    ("<a href=\"a/", PATH),
    ("<a href=\"/a:b", PATH),
    ("<a href=\"?", QUERY),
    ("<a href=\"a?b/c:d?e", QUERY),
    ("<a href=\"a?b#", FRAGMENT),
    ("<a href=\"#a/b?c:d", FRAGMENT),
    ("<a href=\"§", NO_START),
    ("<a href=\"§a", NO_START),
    ("<a href=\"§:", Err(Code::UriStart)),
    ("<a href=\"§/", PATH),
    ("<a href=\"§?", QUERY),
    ("<a href=\"§#", FRAGMENT),
    ("<img SRC='", START),
    ("<script src=\"", NO_START),
    ("<script src=\"/", PATH),
    ("</script src=\"", NO_START),
    ("<iframe src=\"", NO_START),
    ("<embed src=\"", NO_START),
    ("<object data=\"", NO_START),
    ("<a data=\"", START),
    ("<link href=\"", NO_START),
    ("<base href=\"", NO_START),
    ("<script href=\"", START),
    ("<use xlink:href=\"", START),
    ("<p content=\"", ATTR),
    ("<p abcdefghijklmnopqrstuvwxyz=\"", ATTR),
];

/// Texts of kind attributes.
const ATTRIBUTES: &[(&str, Result<Placing, Code>)] = &[
    ("", TAG),
    ("a=\"", ATTR),
    ("src=\"", START),
    ("§", IN_NAME),
    ("§ ", TAG),
    ("§/", NO_PLACE),
    ("§a", Err(Code::InName)),
    ("§=", Err(Code::InName)),
    (">", NO_PLACE),
    ("><svg>&foo;", NO_PLACE),
];

#[test]
fn values_meet_their_places(rt: HostRuntime) {
    for rows in [ROWS, REFERENCES, URIS] {
        for (text, answer) in rows {
            assert!(rt; placing(Kind::Html, text) == *answer, "{text}");
        }
    }
}

#[test]
fn values_of_attributes_meet_their_places(rt: HostRuntime) {
    for (text, answer) in ATTRIBUTES {
        assert!(rt; placing(Kind::Attributes, text) == *answer, "{text}");
    }
    assert!(rt; placing(Kind::Text, "<a &foo; `") == Ok(Placing::Takes(Place::Plain)));
}

/// Two texts, and whether the states after them are the same.
const SAME: &[(&str, &str, bool)] = &[
    ("<p class=\"a\">", "<i>", true),
    ("<b", "<i", false),
    ("<B", "<b", true),
    ("<b", "</b", false),
    ("<p a=\"", "<p a='", false),
    ("<p a=\"b", "<p c=\"", true),
    ("<p src=\"", "<p href=\"", false),
    ("<p cite=\"", "<p action=\"", true),
    ("<p onx=\"", "<p dir=\"", false),
    ("<p abcdefghijklmnopqr", "<p abcdefghijklmnopqs", true),
    ("<p abcdefghijklmnopq", "<p abcdefghijklmnopx", false),
    ("<a href=\"ht", "<a href=\"htt", false),
    ("<a href=\"x", "<a href=\"yz", true),
    ("<title>", "<textarea>", false),
    ("<title></T", "<title></t", true),
    ("<script>'", "<script>\"", false),
    ("<!-", "<!d", false),
];

/// Characters after `&`, which a state keeps while they begin a reference.
const PENDING: &[(&str, &str, bool)] = &[
    ("&a", "&am", false),
    ("&foo", "&bar", true),
    ("&#x0a", "&#x0A", false),
    ("&", "a", false),
];

/// Reads static text that may go on.
fn begin(state: &mut State, text: &str) -> Result<(), Code> {
    for c in text.chars() {
        state.step(c)?;
    }
    Ok(())
}

fn is_same(one: &str, other: &str) -> Result<bool, Code> {
    let mut first = State::start(Kind::Html);
    begin(&mut first, one)?;
    let mut second = State::start(Kind::Html);
    begin(&mut second, other)?;
    Ok(first == second)
}

#[test]
fn states_are_the_same_by_what_they_keep(rt: HostRuntime) {
    for rows in [SAME, PENDING] {
        for (one, other, same) in rows {
            assert!(rt; is_same(one, other) == Ok(*same), "{one} and {other}");
        }
    }
}

/// Where texts may end.
const ENDS: &[(Kind, &str, bool)] = &[
    (Kind::Html, "<b>", true),
    (Kind::Html, "<b", false),
    (Kind::Html, "<title>", false),
    (Kind::Attributes, "", true),
    (Kind::Attributes, "a", true),
    (Kind::Attributes, "a=\"b\"", true),
    (Kind::Attributes, "§", true),
    (Kind::Attributes, "a=", false),
    (Kind::Attributes, "a=b", false),
    (Kind::Attributes, "/", false),
    (Kind::Attributes, ">", false),
    (Kind::Text, "<", true),
];

fn may_end(kind: Kind, text: &str) -> Result<bool, Code> {
    let mut state = State::start(kind);
    read(&mut state, text)?;
    Ok(state.may_end(kind))
}

#[test]
fn texts_end_where_their_kind_may(rt: HostRuntime) {
    for (kind, text, answer) in ENDS {
        assert!(rt; may_end(*kind, text) == Ok(*answer), "{text}");
    }
}

/// The part of the markup that follows a text.
const PARTS: &[(&str, Part)] = &[
    ("a", Part::Text),
    ("<", Part::TagName),
    ("</", Part::TagName),
    ("<b", Part::TagName),
    ("<b ", Part::Hidden),
    ("<b a", Part::AttrName),
    ("<b a=", Part::Hidden),
    ("<b a=\"", Part::AttrValue),
    ("<b a=c", Part::AttrValue),
    ("<title>", Part::Hidden),
    ("<!--", Part::Hidden),
];

fn part(text: &str) -> Result<Part, Code> {
    let mut state = State::start(Kind::Html);
    begin(&mut state, text)?;
    Ok(state.part())
}

#[test]
fn parts_go_by_rows(rt: HostRuntime) {
    for (text, answer) in PARTS {
        assert!(rt; part(text) == Ok(*answer), "{text}");
    }
}

/// A value's characters begin no reference and leave the part of a URI.
const VALUES: &[(&str, &str, Result<Placing, Code>)] = &[
    ("<a href=\"", "a?b#c&foo;", START),
    ("<p title=\"", "&", ATTR),
    ("<p title=\"", "a\"", NO_PLACE),
    ("<p style=\"a:", "'b'", NO_PLACE),
    ("<script>", "`", Err(Code::Script)),
    ("", "<b>&", TEXT),
];

fn placing_past(text: &str, value: &str) -> Result<Placing, Code> {
    let mut state = State::start(Kind::Html);
    read(&mut state, text)?;
    for c in value.chars() {
        state.value_step(c)?;
    }
    state.end_text()?;
    Ok(state.placing())
}

#[test]
fn value_characters_begin_no_reference_and_leave_the_uri_part(rt: HostRuntime) {
    for (text, value, answer) in VALUES {
        assert!(rt; placing_past(text, value) == *answer, "{text} and {value}");
    }
}
