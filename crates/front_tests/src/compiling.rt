//! Rows of the number of the template that may be rendered under a full name.

use crate::accepting::source;
use soy_base::{OutOfMemory, Refusal};
use soy_front::compile;
use std::alloc::Global;

/// A file with a private template, and with public ones of each kind.
const FILE: &str =
    "{namespace a.b}{template n visibility=\"private\"}{/template}{template m}{/template}\
    {template o kind=\"attributes\"}{/template}{template p kind=\"text\"}{/template}";

/// Whether the number of a name in the program of the file is this one.
fn entry_is(alloc: Global, name: &str, wanted: Option<usize>) -> Result<bool, OutOfMemory> {
    let mut sources = Vec::new(alloc);
    sources.push(source(alloc, FILE)?)?;
    match compile(alloc, sources.as_slice(), None) {
        Ok(compiled) => Ok(compiled.entry(name) == wanted),
        Err(Refusal::Because(_)) => Ok(false),
        Err(Refusal::OutOfMemory) => Err(OutOfMemory),
    }
}

/// A name and its number.
const ROWS: &[(&str, Option<usize>)] = &[
    ("a.b.m", Some(1)),
    ("a.b.n", None),
    ("a.b.o", None),
    ("a.b.p", Some(3)),
    ("m", None),
    ("a.b", None),
];

#[test]
fn entries_are_public_and_whole(rt: HostRuntime) {
    for (name, wanted) in ROWS {
        match entry_is(rt.alloc(), name, *wanted) {
            Ok(found) => assert!(rt; found, "{name}"),
            Err(_) => assert!(rt; false, "{name}"),
        }
    }
}
