//! The names of HTML that decide how a line is seen, and texts compared.
ghost use Rattle.std.specs.Prelude.{◌≡◌, IfOk, map};
ghost use Rattle.std.specs.Char.{to_ascii_lowercase};
ghost use Rattle.std.specs.Str.{bytes_eq};
ghost use Rattle.bidi_order.specs.Elements.{inline_names, is_inline, is_void, void_names};
ghost use Rattle.soy_base.specs.Among.{is_among};

use soy_base::OutOfMemory;
use std::alloc::Global;

const INLINE_NAMES: [&[u8]; 30] = [
    b"a", b"abbr", b"b", b"bdi", b"bdo", b"big", b"cite", b"code", b"data", b"del", b"dfn", b"em",
    b"font", b"i", b"ins", b"kbd", b"label", b"mark", b"q", b"s", b"samp", b"small", b"span",
    b"strong", b"sub", b"sup", b"time", b"tt", b"u", b"var",
];

const VOID_NAMES: [&[u8]; 13] = [
    b"area", b"base", b"br", b"col", b"embed", b"hr", b"img", b"input", b"link", b"meta",
    b"source", b"track", b"wbr",
];

/// Whether an element of this name stands within a line.
pub(crate) fn is_inline(name: &[char]) -> bool
    ensures { result ≡ is_inline name.now }
{
    is_among(name, &INLINE_NAMES)
}

/// Whether an element of this name has no content.
pub(crate) fn is_void(name: &[char]) -> bool
    ensures { result ≡ is_void name.now }
{
    is_among(name, &VOID_NAMES)
}

/// Whether characters are those of a text of ASCII.
pub(crate) fn is_text(characters: &[char], text: &[u8]) -> bool
    ensures { result ≡ bytes_eq characters.now text.now }
{
    if characters.len() != text.len() {
        return false;
    }
    for i in 0..characters.len() {
        if characters[i] as u32 != text[i] as u32 {
            return false;
        }
    }
    true
}

/// Whether two lists of characters are the same.
pub(crate) fn is_same(one: &[char], other: &[char]) -> bool
    ensures { result ≡ bytes_eq one.now other.now }
{
    if one.len() != other.len() {
        return false;
    }
    for i in 0..one.len() {
        if one[i] as u32 != other[i] as u32 {
            return false;
        }
    }
    true
}

/// The same characters.
pub(crate) fn copy(alloc: Global, text: &[char]) -> Result<Vec<char>, OutOfMemory>
    ensures { IfOk result (λ copied. copied.items ≡ text.now) }
{
    let mut copied = Vec::with_capacity(alloc, text.len())?;
    copied.extend_from_slice(text)?;
    Ok(copied)
}

/// Whether characters are those of one of these texts.
fn is_among(characters: &[char], texts: &[&[u8]]) -> bool
    ensures { result ≡ is_among (map (λ t. t.now) texts.now) characters.now }
{
    for text in texts {
        if is_text(characters, text) {
            return true;
        }
    }
    false
}

/// Whether characters in lower case are those of a text of ASCII.
pub(crate) fn is_lower(characters: &[char], text: &[u8]) -> bool
    ensures { result ≡ bytes_eq (map to_ascii_lowercase characters.now) text.now }
{
    if characters.len() != text.len() {
        return false;
    }
    for i in 0..characters.len() {
        if characters[i].to_ascii_lowercase() as u32 != text[i] as u32 {
            return false;
        }
    }
    true
}
