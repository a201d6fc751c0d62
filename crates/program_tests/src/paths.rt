//! Bodies with the places of their holes, or the first fault of their paths.

use crate::programs::bundle;
use crate::reading::checked;
use html_context::{PlaceFault, infer};
use soy_base::{Code, OutOfMemory, Place, Places, Placing, Refusal, push_text};
use std::alloc::Global;

const HEAD: &str = "{namespace n}{template t}\
    {@param a: string}{@param b: string}{@param x: string}{@param y: string}{@param n: int}{@param l: list<int>}";

/// The places of a body under translations of its messages, or the first fault; none where it isn't checked, or memory
/// ran out.
fn inferred(alloc: Global, body: &str, patterns: &[&str]) -> Option<Result<Places, PlaceFault>> {
    let file = format!(in alloc; "{HEAD}{body}{{/template}}").ok()?;
    let Ok(typed) = checked(alloc, file.as_str(), "{namespace b}")? else {
        return None;
    };
    let bundle = bundle(alloc, typed.trees(), patterns).ok()?;
    match infer(alloc, &typed, &bundle) {
        Ok(places) => Some(Ok(places)),
        Err(Refusal::Because(found)) => Some(Err(found)),
        Err(Refusal::OutOfMemory) => None,
    }
}

/// Whether a body is refused by this number at this offset in it.
fn is_refused(alloc: Global, body: &str, patterns: &[&str], number: u32, at: u64) -> bool {
    match inferred(alloc, body, patterns) {
        Some(Err(found)) => {
            let fault = found.fault;
            fault.code.number() == number && fault.at.checked_sub(HEAD.len() as u64) == Some(at)
        }
        _ => false,
    }
}

/// Whether the holes of a body have these places in their order.
fn has_places(alloc: Global, body: &str, patterns: &[&str], wanted: &[Place]) -> bool {
    match inferred(alloc, body, patterns) {
        Some(Ok(places)) => places.prints.items() == wanted,
        _ => false,
    }
}

/// A switch with so many cases, each with `<` and a letter of its own.
fn switch(alloc: Global, count: usize) -> Result<String, OutOfMemory> {
    let mut body = String::new(alloc);
    push_text(&mut body, "{switch $n}")?;
    for (number, letter) in "abcdefghijklmnop".chars().enumerate() {
        if number < count {
            let case = format!(in alloc; "{{case {number}}}<{letter}")?;
            push_text(&mut body, case.as_str())?;
        }
    }
    push_text(&mut body, "{/switch}")?;
    Ok(body)
}

/// So many loops inside one another, each with `>` before and `<b ` behind the loop in it, and a print innermost.
fn nest(alloc: Global, depth: u32) -> Result<String, OutOfMemory> {
    let mut body = String::new(alloc);
    for number in 0..depth {
        let begun = format!(in alloc; "{{for $i{number} in $l}}>")?;
        push_text(&mut body, begun.as_str())?;
    }
    push_text(&mut body, "{$x}")?;
    for _ in 0..depth {
        push_text(&mut body, "<b {/for}")?;
    }
    push_text(&mut body, ">")?;
    Ok(body)
}

/// The name of a row, its body, and the number and the offset of its fault.
const FAULTS: &[(&str, &str, u32, u64)] = &[
    ("second-uri-value", "<a href=\"{$a}{$b}\">L</a>", 19, 13),
    ("mixed-places", "<a {if $x}href=\"{/if}{$y}\">L</a>", 12, 21),
    (
        "second turn of a loop",
        "<a href=\"{for $i in $l}{$a}{/for}\">L</a>",
        12,
        23,
    ),
    ("open-tag-at-end", "<b", 13, 2),
    ("ampersand", "A&{$x}", 16, 0),
    ("unknown-reference", "A&foo;", 17, 0),
    ("script-division", "<script>a / b</script>", 18, 0),
    (
        "source without its translation",
        "<p title=\"{msg desc=\"d\"}a&b{/msg}\">x</p>",
        16,
        24,
    ),
    ("print in a tag's name", "<b{$x}", 14, 2),
];

#[test]
fn first_faults_of_paths(rt: HostRuntime) {
    for (name, body, number, at) in FAULTS {
        assert!(rt; is_refused(rt.alloc(), body, &[], *number, *at), "{name}");
    }
}

#[test]
fn sixteen_and_seventeen_states(rt: HostRuntime) {
    let (Ok(fewer), Ok(more)) = (switch(rt.alloc(), 15), switch(rt.alloc(), 16)) else {
        assert!(rt; false, "memory");
        return;
    };
    let end = fewer.len() as u64;
    assert!(rt; is_refused(rt.alloc(), fewer.as_str(), &[], 13, end));
    assert!(rt; is_refused(rt.alloc(), more.as_str(), &[], 15, 0));
}

#[test]
fn both_placings_of_a_mixed_hole(rt: HostRuntime) {
    let Some(Err(found)) = inferred(rt.alloc(), "<a {if $x}href=\"{/if}{$y}", &[]) else {
        assert!(rt; false);
        return;
    };
    assert!(rt; found.fault.code == Code::Mixed);
    assert!(rt; found.first == Some(Placing::Takes(Place::UriStart)));
    assert!(rt; found.second == Some(Placing::Takes(Place::Tag)));
}

#[test]
fn fault_of_a_translation(rt: HostRuntime) {
    let body = "<p title=\"{msg desc=\"d\"}a{/msg}\">x</p>";
    assert!(rt; is_refused(rt.alloc(), body, &["a&b"], 16, 10));
    assert!(rt; has_places(rt.alloc(), body, &["b"], &[]));
}

/// Bodies with the places of their holes.
const PLACES: &[(&str, &[Place])] = &[
    ("<input {if $x}disabled{/if}>", &[]),
    (
        "<input {if $x}disabled{/if} title=\"{$a}{let $h kind=\"html\"}{$b}{/let}\">{for $i in $l}{$x}{/for}",
        &[Place::Attr, Place::Text, Place::Text],
    ),
];

#[test]
fn places_in_the_order_of_the_holes(rt: HostRuntime) {
    for (body, places) in PLACES {
        assert!(rt; has_places(rt.alloc(), body, &[], places), "{body}");
    }
}

#[test]
fn loops_inside_one_another(rt: HostRuntime) {
    let Ok(body) = nest(rt.alloc(), 60) else {
        assert!(rt; false, "memory");
        return;
    };
    assert!(rt; has_places(rt.alloc(), body.as_str(), &[], &[Place::Text]));
}
