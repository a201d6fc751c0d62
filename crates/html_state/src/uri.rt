//! The part of a URI.

ghost use Rattle.std.specs.Prelude.{◌≡◌, Ok, Err, OnOk, OnErr, IfErr};
ghost use Rattle.soy_base.specs.Among.{is_among};
ghost use Rattle.html_state.specs.PartNext.{MayBeScheme, part_by_character, part_next, scheme_next, schemes};

use crate::prefix::Prefix;
use crate::row::UriPart;
use crate::text::{begins_one, is_one};
use soy_base::Code;

const SCHEMES: [&[u8]; 4] = [b"http", b"https", b"mailto", b"ftp"];

/// Whether the characters are a scheme that a path may follow.
fn is_scheme(prefix: &Prefix) -> bool
    ensures { result ≡ is_among schemes prefix.now }
{
    is_one(prefix.characters(), &SCHEMES)
}

/// The part after these characters and one more that is no delimiter.
fn scheme_next(prefix: &Prefix, c: char) -> UriPart
    ensures { result ≡ scheme_next prefix.now c }
{
    if c.is_ascii_alphabetic() {
        let more = prefix.with(c.to_ascii_lowercase());
        if begins_one(more.characters(), &SCHEMES) {
            return UriPart::Scheme(more);
        }
    }
    UriPart::NoScheme
}

/// The part of the columns `:`, `/`, `?`, `#` and the others.
fn part_by_character(
    at_colon: UriPart,
    at_slash: UriPart,
    at_question_mark: UriPart,
    at_number_sign: UriPart,
    at_other: UriPart,
    c: char,
) -> UriPart
    ensures { result ≡ part_by_character at_colon at_slash at_question_mark at_number_sign at_other c }
{
    match c {
        ':' => at_colon,
        '/' => at_slash,
        '?' => at_question_mark,
        '#' => at_number_sign,
        _ => at_other,
    }
}

/// The part after a character, where the part may still be a scheme.
fn next_part(part: &UriPart, c: char) -> Result<UriPart, Code>
    requires { MayBeScheme part.now }
    ensures { result ≡ part_next part.now c }
{
    use UriPart::*;
    match part {
        Start => Ok(part_by_character(
            BadScheme,
            Path,
            Query,
            Fragment,
            scheme_next(&Prefix::new(), c),
            c,
        )),
        Scheme(prefix) => {
            let at_colon = if is_scheme(prefix) { Path } else { BadScheme };
            Ok(part_by_character(at_colon, Path, Query, Fragment, scheme_next(prefix, c), c))
        }
        NoScheme => Ok(part_by_character(BadScheme, Path, Query, Fragment, NoScheme, c)),
        _ => {
            if c == ':' {
                Err(Code::UriStart)
            } else {
                Ok(part_by_character(AfterStart, Path, Query, Fragment, AfterStart, c))
            }
        }
    }
}

#[inline(never)]
fn step_scheme(part: &mut UriPart, c: char) -> Result<(), Code>
    requires { MayBeScheme part.old }
    ensures ok { OnOk result (part_next part.old c ≡ Ok part.new) }
    ensures err { IfErr result (λ code. part_next part.old c ≡ Err code) }
    ensures unchanged { OnErr result (part.new ≡ part.old) }
{
    match next_part(part, c) {
        Ok(next) => {
            *part = next;
            Ok(())
        }
        Err(code) => Err(code),
    }
}

/// One more static character of a URI.
pub(crate) fn step_part(part: &mut UriPart, c: char) -> Result<(), Code>
    ensures ok { OnOk result (part_next part.old c ≡ Ok part.new) }
    ensures err { IfErr result (λ code. part_next part.old c ≡ Err code) }
    ensures unchanged { OnErr result (part.new ≡ part.old) }
{
    match part {
        UriPart::Path => {
            if c == '?' {
                *part = UriPart::Query;
            } else if c == '#' {
                *part = UriPart::Fragment;
            }
            Ok(())
        }
        UriPart::Query => {
            if c == '#' {
                *part = UriPart::Fragment;
            }
            Ok(())
        }
        UriPart::Fragment | UriPart::BadScheme => Ok(()),
        _ => step_scheme(part, c),
    }
}
