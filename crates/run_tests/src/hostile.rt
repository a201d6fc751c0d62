//! Pages of hostile values: the states at their static characters are those of the page of a harmless value.

use crate::running::{run_line, two_files};
use html_state::State;
use soy_base::{Code, Kind, Place, Placing, ValueClass};
use soy_top::Status;
use std::alloc::Global;

/// The name of a row, its body, and the static text of the page before and after the value of `$x`.
const BODIES: &[(&str, &str, &str, &str)] = &[
    ("text-print", "<b>{$x}</b>", "<b>", "</b>"),
    (
        "uri-scheme",
        "<a href=\"{$x}\">L</a>",
        "<a href=\"",
        "\">L</a>",
    ),
    (
        "uri-query",
        "<a href=\"/s?q={$x}&p=1\">L</a>",
        "<a href=\"/s?q=",
        "&p=1\">L</a>",
    ),
    (
        "script-string",
        "<script>var s=\"{$x}\";</script>",
        "<script>var s=\"",
        "\";</script>",
    ),
    (
        "css-value",
        "<p style=\"color: {$x}\">x</p>",
        "<p style=\"color: ",
        "\">x</p>",
    ),
    (
        "attributes-block",
        "{let $at kind=\"attributes\"}class=\"{$x}\" disabled{/let}<input {$at}>",
        "<input class=\"",
        "\" disabled>",
    ),
    ("title-text", "<title>{$x}</title>", "<title>", "</title>"),
];

/// Values as texts of JSON.
const HOSTILE: &[&str] = &[
    "</script>",
    "\\\"><b",
    "';x",
    "&lt;",
    "--><i>",
    "javascript:1",
    "",
];

/// The page of a body with a value.
fn page_of(alloc: Global, body: &str, value: &str) -> Option<Vec<u8>> {
    let file = format!(in alloc;
        "{{namespace t}}\n{{template m}}\n{{@param x: string}}\n{body}\n{{/template}}\n"
    );
    let json = format!(in alloc; "{{\"x\":\"{value}\"}}");
    let (file, json) = (file.ok()?, json.ok()?);
    let files = two_files(alloc, file.as_bytes(), json.as_bytes())?;
    let ended = run_line(alloc, "render t.m d.json - t.soy", files)?;
    match ended.status {
        Status::Done => Some(ended.out),
        _ => None,
    }
}

/// Reads a static text.
fn read_static(state: &mut State, text: &str) -> Option<()> {
    for c in text.chars() {
        state.step(c).ok()?;
    }
    state.end_text().ok()
}

/// Reads the characters of a value, and sets its mark where it is at the start of a URI.
fn read_value(state: &mut State, text: &str) -> Result<(), Code> {
    for c in text.chars() {
        state.value_step(c)?;
    }
    if let Placing::Takes(Place::UriStart) = state.placing() {
        state.value(ValueClass::Text);
    }
    Ok(())
}

/// The value of a page between its static texts; none where these are others.
fn value_of<'a>(page: &'a [u8], before: &str, after: &str) -> Option<&'a str> {
    let page = str::from_utf8(page).ok()?;
    page.strip_prefix(before)?.strip_suffix(after)
}

/// Reads a static text, and then a value; none where one of these is refused.
fn read_both(state: &mut State, before: &str, value: &str) -> Option<()> {
    read_static(state, before)?;
    read_value(state, value).ok()
}

/// Whether two states are the same before each character of a static text; none where it is refused.
fn stay_same(state: &mut State, other: &mut State, text: &str) -> Option<bool> {
    for c in text.chars() {
        if *state != *other {
            return Some(false);
        }
        state.step(c).ok()?;
        other.step(c).ok()?;
    }
    Some(*state == *other)
}

/// Whether two values between the same static texts lead to the same states.
fn are_alike(before: &str, value: &str, other: &str, after: &str) -> Option<bool> {
    let mut first = State::start(Kind::Html);
    read_both(&mut first, before, value)?;
    let mut second = State::start(Kind::Html);
    read_both(&mut second, before, other)?;
    stay_same(&mut first, &mut second, after)
}

/// Whether the page of a hostile value has the states of that of the value `a`.
fn has_same_states(alloc: Global, row: &(&str, &str, &str, &str), value: &str) -> Option<bool> {
    let (_, body, before, after) = *row;
    let harmless = page_of(alloc, body, "a")?;
    let hostile = page_of(alloc, body, value)?;
    let harmless = value_of(harmless.as_slice(), before, after)?;
    let hostile = value_of(hostile.as_slice(), before, after)?;
    are_alike(before, hostile, harmless, after)
}

#[test]
fn hostile_values(rt: HostRuntime) {
    for row in BODIES {
        for value in HOSTILE {
            let is_same = has_same_states(rt.alloc(), row, value);
            assert_eq!(rt; is_same, Some(true), "row {} with {value}", row.0);
        }
    }
}
