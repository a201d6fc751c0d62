//! Texts as URIs and parts of URIs.
ghost use Rattle.std.specs.Prelude.{◌≡◌, ◌++◌, ◌∷◌, [], IsTrue, OnOk, encode_utf8_all};
ghost use Rattle.std.specs.List.{list_all, list_any};
ghost use Rattle.std.specs.Str.{chars};
ghost use Rattle.soy_base.specs.Among.{lacks};
ghost use Rattle.soy_base.specs.Appends.{Appends};
ghost use Rattle.soy_base.specs.ByteLength.{byte_len};
ghost use Rattle.soy_base.specs.Characters.{ampersand};
ghost use Rattle.soy_base.specs.Cuts.{prefix_while};
ghost use Rattle.escapers.specs.PercentEncoded.{percent_encoded};
ghost use Rattle.escapers.specs.UriComponent.{component_character, is_unreserved, uri_component};
ghost use Rattle.escapers.specs.UriNormal.{is_normal, normal_character, uri_normal};
ghost use Rattle.escapers.specs.UriStart.{begins_in_any_case, ends_scheme, has_allowed_scheme, has_scheme};
ghost use Rattle.escapers.specs.UriStart.{is_scheme_character, may_start_uri, uri_start};

use crate::alphanumeric::is_alphanumeric;
use esc_table::Tail;
use percent_encoding::{
    AsciiSet, NON_ALPHANUMERIC, ascii_set, percent_encode_byte, utf8_percent_encode,
};
use soy_base::{OutOfMemory, cut_at, push_text};

/// What is encoded in one part of a query or fragment: all but unreserved characters.
const OUTSIDE_COMPONENT: AsciiSet = ascii_set!(
    NON_ALPHANUMERIC
        .remove(b'-')
        .remove(b'.')
        .remove(b'_')
        .remove(b'~')
);

/// What is encoded in a whole URI or a path. `&` becomes a reference.
const OUTSIDE_URI: AsciiSet = ascii_set!(
    OUTSIDE_COMPONENT
        .remove(b':')
        .remove(b'/')
        .remove(b'?')
        .remove(b'#')
        .remove(b'[')
        .remove(b']')
        .remove(b'@')
        .remove(b'!')
        .remove(b'$')
        .remove(b'*')
        .remove(b'+')
        .remove(b',')
        .remove(b';')
        .remove(b'=')
        .remove(b'%')
);

/// Appends the text as one part of a query or fragment.
pub(crate) fn push_uri_component(out: &mut String, text: &str) -> Result<(), OutOfMemory>
    ensures { OnOk result (Appends out.old out.new (uri_component (chars text.now))) }
{
    if is_alphanumeric(text) {
        return push_text(out, text);
    }
    utf8_percent_encode(text, OUTSIDE_COMPONENT).append_to(out)?;
    Ok(())
}

/// Appends the text as a whole URI or a path.
pub(crate) fn push_uri_normal(out: &mut String, text: &str) -> Result<(), OutOfMemory>
    ensures { OnOk result (Appends out.old out.new (uri_normal (chars text.now))) }
{
    let mut rest = text;
    while let Some((part, after)) = cut_at(rest, '&') {
        push_without_ampersand(out, part)?;
        push_text(out, "&amp;")?;
        rest = after;
    }
    push_without_ampersand(out, rest)
}

/// Appends a part of a URI that has no `&`.
fn push_without_ampersand(out: &mut String, text: &str) -> Result<(), OutOfMemory>
    requires { IsTrue (lacks (ampersand ∷ []) (chars text.now)) }
    ensures { OnOk result (Appends out.old out.new (uri_normal (chars text.now))) }
{
    if is_alphanumeric(text) {
        return push_text(out, text);
    }
    utf8_percent_encode(text, OUTSIDE_URI).append_to(out)?;
    Ok(())
}

/// Appends the text as the start of a URI, or instead of it a URI that leads nowhere.
pub(crate) fn push_uri_start(out: &mut String, text: &str) -> Result<(), OutOfMemory>
    ensures { OnOk result (Appends out.old out.new (uri_start (chars text.now))) }
{
    if may_start_uri(text) {
        push_uri_normal(out, text)
    } else {
        push_text(out, "about:invalid#zSoyz")
    }
}

/// Whether the text may be the start of a URI: it has no scheme, or that of `http:`, `https:`, `mailto:` or `ftp:`, in
/// any ASCII case (RFC 3986, 3.1).
pub fn may_start_uri(text: &str) -> bool
    ensures { result ≡ may_start_uri (chars text.now) }
{
    has_allowed_scheme(text) || !has_scheme(text)
}

fn has_allowed_scheme(text: &str) -> bool
    ensures { result ≡ has_allowed_scheme (chars text.now) }
{
    begins_in_any_case(text, "http:")
        || begins_in_any_case(text, "https:")
        || begins_in_any_case(text, "mailto:")
        || begins_in_any_case(text, "ftp:")
}

/// Whether the text begins with the prefix in any ASCII case. The prefix is in lower case.
fn begins_in_any_case(text: &str, prefix: &str) -> bool
    requires { IsTrue (list_all is_scheme_character prefix.now) }
    ensures { result ≡ begins_in_any_case prefix.now (chars text.now) }
{
    match text.as_bytes().get(..prefix.len()) {
        Some(bytes) => bytes.eq_ignore_ascii_case(prefix.as_bytes()),
        None => false,
    }
}

/// Whether a scheme stands before the first `:` of the text.
fn has_scheme(text: &str) -> bool
    ensures { result ≡ has_scheme (chars text.now) }
{
    match cut_at(text, ':') {
        Some((before, _)) => !has_scheme_end(before),
        None => false,
    }
}

/// Whether the text has a character that no scheme goes past.
fn has_scheme_end(text: &str) -> bool
    ensures { result ≡ list_any ends_scheme (chars text.now) }
{
    text.chars().any(ends_scheme)
}

fn ends_scheme(c: char) -> bool
    ensures { result ≡ ends_scheme c }
{
    matches!(c, '/' | '?' | '#' | '&')
}

/// Makes the form of one character in a part of a query or fragment pending.
pub(crate) fn put_component(tail: &mut Tail, c: char)
    requires none_pending { tail.old ≡ [] }
    ensures { tail.new ≡ encode_utf8_all (component_character c) }
{
    if is_unreserved(c) {
        tail.put(c, None);
    } else {
        put_encoded(tail, c);
    }
}

/// Makes the form of one character in a whole URI or a path pending.
pub(crate) fn put_normal(tail: &mut Tail, c: char)
    requires none_pending { tail.old ≡ [] }
    ensures { tail.new ≡ encode_utf8_all (normal_character c) }
{
    if c == '&' {
        tail.push("&amp;");
    } else if is_normal(c) {
        tail.put(c, None);
    } else {
        put_encoded(tail, c);
    }
}

/// Makes the bytes of one character pending, each percent-encoded.
fn put_encoded(tail: &mut Tail, c: char)
    requires none_pending { tail.old ≡ [] }
    ensures { tail.new ≡ percent_encoded c }
{
    let mut buffer = [0; 4];
    let bytes = c.encode_utf8(&mut buffer).as_bytes();
    for byte in bytes {
        tail.push(percent_encode_byte(*byte));
    }
}

/// How many bytes the form of one character takes in a part of a query or fragment.
pub(crate) fn component_len(c: char) -> usize
    ensures { result ≡ byte_len (component_character c) }
{
    if is_unreserved(c) {
        1
    } else {
        3 * c.len_utf8()
    }
}

/// How many bytes the form of one character takes in a whole URI or a path.
pub(crate) fn normal_len(c: char) -> usize
    ensures { result ≡ byte_len (normal_character c) }
{
    if c == '&' {
        5
    } else if is_normal(c) {
        1
    } else {
        3 * c.len_utf8()
    }
}

/// The longest prefix of unreserved characters, and the rest.
pub(crate) fn unreserved_prefix(text: &str) -> (&str, &str)
    ensures whole { text.now ≡ result.0.now ++ result.1.now }
    ensures prefix { chars result.0.now ≡ prefix_while is_unreserved (chars text.now) }
{
    match text.find(|c: char| !is_unreserved(c)) {
        Some(end) => text.split_at(end),
        None => (text, ""),
    }
}

/// The longest prefix of characters that may stand in a URI as they are, and the rest.
pub(crate) fn normal_prefix(text: &str) -> (&str, &str)
    ensures whole { text.now ≡ result.0.now ++ result.1.now }
    ensures prefix { chars result.0.now ≡ prefix_while is_normal (chars text.now) }
{
    match text.find(|c: char| !is_normal(c)) {
        Some(end) => text.split_at(end),
        None => (text, ""),
    }
}

fn is_unreserved(c: char) -> bool
    ensures { result ≡ is_unreserved c }
{
    c.is_ascii_alphanumeric() || matches!(c, '-' | '.' | '_' | '~')
}

fn is_normal(c: char) -> bool
    ensures { result ≡ is_normal c }
{
    is_unreserved(c)
        || matches!(
            c,
            ':' | '/' | '?' | '#' | '[' | ']' | '@' | '!' | '$' | '*' | '+' | ',' | ';' | '=' | '%'
        )
}
