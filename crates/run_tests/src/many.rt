//! Pages of thousands of variables and commands: no number of them ends a run, and each page is the right one.

use crate::running::{files_of, run_line};
use soy_top::Status;
use std::alloc::Global;

/// A row: its name; the file before its lines, a line, how many there are, and the file after them; and a part of the
/// page with how often it stands there. In a line `#` is the number of the line, from 1 on, and `!` that of the
/// one before; in what follows the lines `#` is the number of the last.
type ManyRow = (
    &'static str,
    &'static str,
    &'static str,
    usize,
    &'static str,
    &'static str,
    usize,
);

const DATA: &str = "{\"n\":99,\"x\":\"v\",\"l\":[\"v\"],\"r\":{\"f\":\"v\"}}";

/// The translation of `Hi {$x}` with the description d.
const BUNDLE: &str = "{\"dir\":\"ltr\",\"plural\":{},\"messages\":{\"972aee3f23521398\":\"{X}!\"}}";

const MANY: &[ManyRow] = &[
    (
        "lets that name the first",
        "{namespace t}{template m kind=\"text\"}{@param x: string}{let $a0: $x /}",
        "{let $a#: $a0 /}",
        8_000,
        "{$a#}{/template}",
        "v",
        1,
    ),
    (
        "lets that name the first, through 99 calls",
        "{namespace t}{template m kind=\"text\"}{@param n: int}{@param x: string}{let $a0: $x /}",
        "{let $a#: $a0 /}",
        8_000,
        "{if $n > 0}{call m}{param n: $n - 1 /}{param x: $a# /}{/call}{/if}{$a#}{/template}",
        "v",
        100,
    ),
    (
        "prints of the first of many lets",
        "{namespace t}{template m kind=\"text\"}{@param x: string}{let $a0: $x /}",
        "{let $a#: $a0 /}{$a0}",
        8_000,
        "{/template}",
        "v",
        8_000,
    ),
    (
        "a chain of lets",
        "{namespace t}{template m kind=\"text\"}{@param x: string}{let $a0: $x /}",
        "{let $a#: $a! /}",
        20_000,
        "{$a#}{/template}",
        "v",
        1,
    ),
    (
        "a chain of lets, through 99 calls",
        "{namespace t}{template m kind=\"text\"}{@param n: int}{@param x: string}{let $a0: $x /}",
        "{let $a#: $a! /}",
        8_000,
        "{if $n > 0}{call m}{param n: $n - 1 /}{param x: $a# /}{/call}{/if}{$a#}{/template}",
        "v",
        100,
    ),
    (
        "a chain of lets of a field",
        "{namespace t}{template m kind=\"text\"}{@param r: [f: string]}{let $a0: $r.f /}",
        "{let $a#: $a! /}",
        8_000,
        "{$a#}{/template}",
        "v",
        1,
    ),
    (
        "a chain of lets of a choice",
        "{namespace t}{template m kind=\"text\"}{@param x: string}{let $a0: $x /}",
        "{let $a#: true ? $a! : $x /}",
        8_000,
        "{$a#}{/template}",
        "v",
        1,
    ),
    (
        "loops over lists that name one another",
        "{namespace t}{template m kind=\"text\"}{@param l: list<string>}{let $l0: $l /}",
        "{let $l#: $l! /}{for $i in $l#}{$i}{/for}",
        8_000,
        "{/template}",
        "v",
        8_000,
    ),
    (
        "loops whose items name others",
        "{namespace t}{template m kind=\"text\"}{@param l: list<string>}{@param x: string}{let $a0: $x /}",
        "{let $a#: $a0 /}{for $i in $l}{let $b: $i /}{let $c: $b /}{$c}{$a0}{/for}",
        8_000,
        "{/template}",
        "vv",
        8_000,
    ),
    (
        "blocks of text that print the one before",
        "{namespace t}{template m kind=\"text\"}{@param x: string}{let $a0 kind=\"text\"}{$x}{/let}",
        "{let $a# kind=\"text\"}{$a!}{/let}",
        8_000,
        "{$a#}{/template}",
        "v",
        1,
    ),
    (
        "blocks that print the one before",
        "{namespace t}{template m}{let $a0 kind=\"html\"}<b>v</b>{/let}",
        "{let $a# kind=\"html\"}{$a!}{/let}",
        8_000,
        "{$a#}{/template}",
        "<b>v</b>",
        1,
    ),
    (
        "cases of a switch",
        "{namespace t}{template m kind=\"text\"}{@param x: string}{let $a0: $x /}{switch $x}",
        "{case 'a#'}{$a0}",
        8_000,
        "{default}{$x}{/switch}{/template}",
        "v",
        1,
    ),
    (
        "switches under many lets",
        "{namespace t}{template m kind=\"text\"}{@param x: string}{let $a0: $x /}",
        "{let $a#: $a0 /}{switch $a#}{case 'v'}{$a0}{/switch}",
        8_000,
        "{/template}",
        "v",
        8_000,
    ),
    (
        "translations under many lets",
        "{namespace t}{template m kind=\"text\"}{@param x: string}",
        "{let $a#: $x /}{msg desc=\"d\"}Hi {$x}{/msg}",
        8_000,
        "{/template}",
        "v!",
        8_000,
    ),
];

/// Adds a text, with a number for each `#` and the one before it for each `!`.
fn push_numbered(alloc: Global, file: &mut String, text: &str, last: usize) -> Option<()> {
    let own = format!(in alloc; "{}", last.checked_add(1)?).ok()?;
    let before = format!(in alloc; "{last}").ok()?;
    for c in text.chars() {
        match c {
            '#' => file.push_str(own.as_str()).ok()?,
            '!' => file.push_str(before.as_str()).ok()?,
            _ => file.push(c).ok()?,
        }
    }
    Some(())
}

/// Adds lines of numbers from 1 on.
fn push_lines(alloc: Global, file: &mut String, line: &str, count: usize) -> Option<()> {
    for last in 0..count {
        push_numbered(alloc, file, line, last)?;
    }
    Some(())
}

/// The file of a row.
fn file_of(alloc: Global, row: &ManyRow) -> Option<String> {
    let (_, before, line, count, after, _, _) = *row;
    let mut file = String::from_str(alloc, before).ok()?;
    push_lines(alloc, &mut file, line, count)?;
    push_numbered(alloc, &mut file, after, count.checked_sub(1)?)?;
    Some(file)
}

/// The file of a call that hands many parameters of one value.
fn file_of_params(alloc: Global) -> Option<String> {
    let head = "{namespace t}{template m kind=\"text\"}{@param x: string}{call k}";
    let mut file = String::from_str(alloc, head).ok()?;
    push_lines(alloc, &mut file, "{param p#: $x /}", 8_000)?;
    let next = "{/call}{/template}{template k kind=\"text\"}";
    file.push_str(next).ok()?;
    push_lines(alloc, &mut file, "{@param p#: string}", 8_000)?;
    push_lines(alloc, &mut file, "{$p#}", 8_000)?;
    file.push_str("{/template}").ok()?;
    Some(file)
}

/// Whether the page of a file is a part so many times.
fn is_page(alloc: Global, file: &str, part: &str, times: usize) -> Option<bool> {
    let files = [("t.soy", file), ("d.json", DATA), ("b.json", BUNDLE)];
    let files = files_of(alloc, &files)?;
    let ended = run_line(alloc, "render t.m d.json b.json t.soy", files)?;
    let mut page = String::new(alloc);
    for _ in 0..times {
        page.push_str(part).ok()?;
    }
    Some(ended.is(Status::Done, page.as_str().as_bytes(), b""))
}

/// Whether the page of a row is the right one.
fn is_right(alloc: Global, row: &ManyRow) -> Option<bool> {
    let (_, _, _, _, _, part, times) = *row;
    let file = file_of(alloc, row)?;
    is_page(alloc, file.as_str(), part, times)
}

#[test]
fn pages_of_many(rt: HostRuntime) {
    for row in MANY {
        assert_eq!(rt; is_right(rt.alloc(), row), Some(true), "row {}", row.0);
    }
}

/// Whether the page of many parameters is the right one.
fn params_are_right(alloc: Global) -> Option<bool> {
    let file = file_of_params(alloc)?;
    is_page(alloc, file.as_str(), "v", 8_000)
}

#[test]
fn pages_of_many_parameters(rt: HostRuntime) {
    assert_eq!(rt; params_are_right(rt.alloc()), Some(true));
}
