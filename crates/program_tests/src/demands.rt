//! Files with the first demand that they don't meet: its number, its file and offset, and the two names or types that
//! differ.

use crate::reading::checked;
use soy_check::check;
use std::alloc::Global;

/// The failure's number, file and offset, and what it keeps; zeros where there is none.
type Found = (u32, u32, u64, &'static str, &'static str);

/// Whether two files, of which the first has this body after its parameters, fail so; offsets are those in the body.
fn fails(alloc: Global, head: &str, body: &str, second: &str, wanted: &Found) -> Option<bool> {
    let file = format!(in alloc; "{head}{body}{{/template}}").ok()?;
    let (number, file_number, at, left, right) = *wanted;
    match checked(alloc, file.as_str(), second)? {
        Ok(_) => Some(number == 0),
        Err(found) => {
            let fault = found.fault;
            let start = if file_number == 0 {
                head.len() as u64
            } else {
                0
            };
            Some(
                fault.code.number() == number
                    && fault.file == file_number
                    && fault.at.checked_sub(start) == Some(at)
                    && found.left.is(left)
                    && found.right.is(right),
            )
        }
    }
}

const PARAMS: &str =
    "{namespace a}{template m}{@param n: int}{@param s: string}{@param l: list<int>}{@param r: [x: int]|null}";

const OTHER: &str = "{namespace b}";

/// Bodies after those parameters.
const BODIES: &[(&str, Found)] = &[
    ("{$z}", (7, 0, 1, "z", "")),
    ("{let $x: $x /}", (7, 0, 9, "x", "")),
    ("{let $n: $z /}", (6, 0, 0, "n", "")),
    ("{$l}", (20, 0, 0, "list<int>", "")),
    ("{for $x, $i in $n}{/for}", (8, 0, 15, "int", "")),
    ("{for $x, $x in $l}{/for}", (6, 0, 0, "x", "")),
    ("{if $r}{/if}{$r.x}", (8, 0, 13, "[x: int]|null", "")),
    ("{if $r}{$r.x}{/if}", (0, 0, 0, "", "")),
    ("{call z /}", (7, 0, 0, "a.z", "")),
    ("{call m /}", (9, 0, 0, "n", "")),
    ("{call a.m data=\"all\" /}", (0, 0, 0, "", "")),
    (
        "{call m data=\"all\"}{param z: $n /}{/call}",
        (9, 0, 19, "z", ""),
    ),
    (
        "{call m data=\"all\"}{param n: $s /}{/call}",
        (8, 0, 29, "int", "string"),
    ),
];

#[test]
fn bodies(rt: HostRuntime) {
    for (body, wanted) in BODIES {
        let fails = fails(rt.alloc(), PARAMS, body, OTHER, wanted);
        assert_eq!(rt; fails, Some(true), "{body}");
    }
}

/// Declarations of parameters.
const DECLARATIONS: &[(&str, Found)] = &[
    ("{@param p: html|null}", (0, 0, 0, "", "")),
    ("{@param p: html|int}", (8, 0, 0, "html|int", "")),
    ("{@param p: list<html>}", (8, 0, 0, "html", "")),
    ("{@param p: [x: int, x: html]}", (6, 0, 0, "x", "")),
    ("{@param p: int}{@param p: html}", (6, 0, 15, "p", "")),
];

#[test]
fn declarations(rt: HostRuntime) {
    for (params, wanted) in DECLARATIONS {
        let fails = fails(
            rt.alloc(),
            "{namespace a}{template m}",
            params,
            OTHER,
            wanted,
        );
        assert_eq!(rt; fails, Some(true), "{params}");
    }
}

/// Declarations of all files go before bodies, of which the first file's is at fault.
#[test]
fn declarations_of_all_files(rt: HostRuntime) {
    let second = "{namespace a}{template m}{/template}";
    let wanted = (6, 1, 13, "a.m", "");
    let fails = fails(
        rt.alloc(),
        "{namespace a}{template m}",
        "{$z}",
        second,
        &wanted,
    );
    assert_eq!(rt; fails, Some(true));
}

#[test]
fn no_files_hold_all(rt: HostRuntime) {
    let Ok(typed) = check(rt.alloc(), Vec::new(rt.alloc())) else {
        assert!(rt; false);
        return;
    };
    assert!(rt; typed.trees().is_empty());
}
