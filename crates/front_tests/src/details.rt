//! Rows of what goes with a fault.

use crate::accepting::source;
use soy_base::{OutOfMemory, Place, Placing, Refusal};
use soy_front::{Detail, accept};
use std::alloc::Global;

/// What is asked to go with the fault of a file.
enum Wanted {
    Nothing,
    Names(&'static str, &'static str),
    Placings(Placing, Placing),
}

/// Whether this goes with the fault of a file.
fn goes_with(alloc: Global, text: &str, wanted: &Wanted) -> Result<bool, OutOfMemory> {
    let mut sources = Vec::new(alloc);
    sources.push(source(alloc, text)?)?;
    match accept(alloc, sources.as_slice(), None) {
        Ok(_) => Ok(false),
        Err(Refusal::Because(refusal)) => Ok(is_wanted(&refusal.detail, wanted)),
        Err(Refusal::OutOfMemory) => Err(OutOfMemory),
    }
}

/// Whether what goes with a fault is what is asked.
fn is_wanted(detail: &Detail, wanted: &Wanted) -> bool {
    match (detail, wanted) {
        (Detail::None, Wanted::Nothing) => true,
        (Detail::Names(left, right), Wanted::Names(one, other)) => left.is(one) && right.is(other),
        (Detail::Placings(first, second), Wanted::Placings(one, other)) => {
            first == one && second == other
        }
        _ => false,
    }
}

/// A file, and what goes with its fault.
const ROWS: &[(&str, Wanted)] = &[
    ("{namespace a", Wanted::Nothing),
    (
        "{namespace a}{template t}{$x}{/template}",
        Wanted::Names("x", ""),
    ),
    (
        "{namespace a}{template t}{@param n: list<int>}{-$n}{/template}",
        Wanted::Names("list<int>", ""),
    ),
    (
        "{namespace a}{template t}{@param s: string}{@param n: int}{$s * $n}{/template}",
        Wanted::Names("string", "int"),
    ),
    (
        "{namespace a}{template t}{@param s: string}{@param n: int}{$n * $s}{/template}",
        Wanted::Names("int", "string"),
    ),
    ("{namespace a}{template t}<p {/template}", Wanted::Nothing),
    (
        "{namespace a}{template t}{@param x: string}{@param y: string}\
         <a {if $x}href=\"{/if}{$y}\">L</a>{/template}",
        Wanted::Placings(Placing::Takes(Place::UriStart), Placing::Takes(Place::Tag)),
    ),
    (
        "{namespace a}{template t}{@param x: string}{@param y: string}\
         <a {if not $x}{else}href=\"{/if}{$y}\">L</a>{/template}",
        Wanted::Placings(Placing::Takes(Place::Tag), Placing::Takes(Place::UriStart)),
    ),
];

#[test]
fn details_go_with_faults(rt: HostRuntime) {
    for (text, wanted) in ROWS {
        match goes_with(rt.alloc(), text, wanted) {
            Ok(found) => assert!(rt; found, "{text}"),
            Err(_) => assert!(rt; false, "{text}"),
        }
    }
}
