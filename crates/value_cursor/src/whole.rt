//! Forms that are given at once, to a room that is ample for them.
ghost use Rattle.std.specs.Prelude.{◌≡◌, ◌+◌, ◌*◌, ◌≤◌, ◌++◌, ◌∷◌, ℕ, List, [], None, IfSome, map, length};
ghost use Rattle.std.specs.Prelude.{codes, encode_utf8_all, true};
ghost use Rattle.std.specs.List.{flat_map, list_all};
ghost use Rattle.std.specs.Str.{chars};
ghost use Rattle.bidi_text.specs.Estimate.{estimated_direction};
ghost use Rattle.bidi_text.specs.Wrap.{direction_word, wrapped_text};
ghost use Rattle.escapers.specs.CssValue.{css_value};
ghost use Rattle.escapers.specs.Esc.{escaped_character};
ghost use Rattle.escapers.specs.JsValue.{js_value};
ghost use Rattle.escapers.specs.UriStart.{uri_start};
ghost use Rattle.value_cursor.specs.AsciiForms.{ascii_forms};
ghost use Rattle.value_cursor.specs.ByteForms.{byte_form, is_own, is_short, is_single};
ghost use Rattle.value_cursor.specs.Cleaned.{is_clean};
ghost use Rattle.value_cursor.specs.EscapedForm.{escaped_form};
ghost use Rattle.value_cursor.specs.Gives.{Gives};
ghost use Rattle.value_cursor.specs.GivesWhole.{GivesWhole};
ghost use Rattle.value_cursor.specs.Shares.{AreShares};

use crate::ascii_forms::{forms_by, text_of};
use crate::cleaning::{all_printable, is_clean_text};
use crate::plain::all_plain;
use crate::runs::own_run;
use crate::shares::shares_by;
use bidi_text::{ascii_direction, estimate};
use escapers::{Escaper, is_css_value, may_start_uri};
use soy_base::{Dir, ValueClass};

/// The longest text whose form is given at once, in bytes.
const LONGEST: usize = 4096;

/// Gives the whole escaped form of a text to the beginning of a room, and answers its length.
///
/// None is given of a text of more than 4,096 bytes; into a room that isn't 32 bytes more than six times the text; of a
/// text that is cleaned before it is wrapped; and, but by Html, of a text with a byte beyond ASCII at which a character
/// with a form of its own may begin (as all do in a URI). A cursor gives those, and nobody escapes by AsIs.
#[inline(never)]
pub fn give_whole(
    how: Escaper,
    class: ValueClass,
    text: &str,
    context: Dir,
    room: &mut [u8],
) -> Option<usize>
    ensures whole { IfSome result (GivesWhole (escaped_form how class (chars text.now) context) room.old room.new) }
    ensures unchanged { result ≡ None → room.new ≡ room.old }
{
    if text.len() > LONGEST || room.len() < 6 * text.len() + 32 {
        return None;
    }
    match how {
        Escaper::Wrap => give_wrapped(text, context, room),
        Escaper::JsValue => give_js_value(class, text, room),
        Escaper::UriStart => give_uri_start(text, room),
        Escaper::CssValue => Some(give_css_value(text, room)),
        Escaper::Plain => Some(put_text(text, room)),
        Escaper::AsIs => None,
        Escaper::Html
        | Escaper::UriNormal
        | Escaper::UriComponent
        | Escaper::JsString
        | Escaper::CssString => give_enclosed(how, "", text, "", room),
    }
}

/// Gives the form of a text that is wrapped.
fn give_wrapped(text: &str, context: Dir, room: &mut [u8]) -> Option<usize>
    requires room { 6 * length text.now + 32 ≤ length room.old }
    ensures gives { IfSome result (Gives (encode_utf8_all (wrapped_text (chars text.now) context)) []
        room.old room.new) }
    ensures unchanged { result ≡ None → room.new ≡ room.old }
{
    if all_plain(text.as_bytes()) {
        return Some(put_plain(ascii_direction(text, context), text, room));
    }
    let Some(direction) = clean_direction(text, context) else {
        return None;
    };
    give_enclosed(Escaper::Html, span_begin(direction), text, "</span>", room)
}

/// Gives a text that stands for itself in its span, and answers the length of all.
#[inline(always)]
fn put_plain(direction: Dir, text: &str, room: &mut [u8]) -> usize
    requires { length text.now + 32 ≤ length room.old }
    ensures { Gives ((encode_utf8_all (codes "<span dir=\"" ++ (direction_word direction ++ codes "\">")) ++ text.now)
        ++ codes "</span>") [] room.old room.new result }
{
    put_between(span_begin(direction), text, "</span>", room)
}

/// The tag before a wrapped text.
#[inline(always)]
fn span_begin(direction: Dir) -> &'static str
    ensures tag { result.now ≡ encode_utf8_all (codes "<span dir=\"" ++ (direction_word direction ++ codes "\">")) }
    ensures size { length result.now ≤ 16 }
{
    match direction {
        Dir::Ltr => "<span dir=\"ltr\">",
        Dir::Rtl => "<span dir=\"rtl\">",
    }
}

/// The direction of a text that needs no cleaning.
#[inline(always)]
fn clean_direction(text: &str, context: Dir) -> Option<Dir>
    ensures clean { IfSome result (λ _. list_all is_clean (chars text.now) ≡ true) }
    ensures direction { IfSome result (λ direction. direction ≡ estimated_direction (chars text.now) context) }
{
    if all_printable(text.as_bytes()) {
        Some(ascii_direction(text, context))
    } else if is_clean_text(text) {
        Some(estimate(text, context))
    } else {
        None
    }
}

/// Gives the form of a value of a script.
fn give_js_value(class: ValueClass, text: &str, room: &mut [u8]) -> Option<usize>
    requires room { 6 * length text.now + 32 ≤ length room.old }
    ensures gives { IfSome result (Gives (encode_utf8_all (js_value class (chars text.now))) [] room.old room.new) }
    ensures unchanged { result ≡ None → room.new ≡ room.old }
{
    match class {
        ValueClass::Text => give_enclosed(Escaper::JsString, "'", text, "'", room),
        _ => Some(put_between(" ", text, " ", room)),
    }
}

/// Gives the form of a URI's text from its beginning on.
fn give_uri_start(text: &str, room: &mut [u8]) -> Option<usize>
    requires room { 6 * length text.now + 32 ≤ length room.old }
    ensures gives { IfSome result (Gives (encode_utf8_all (uri_start (chars text.now))) [] room.old room.new) }
    ensures unchanged { result ≡ None → room.new ≡ room.old }
{
    if may_start_uri(text) {
        give_enclosed(Escaper::UriNormal, "", text, "", room)
    } else {
        Some(put_text("about:invalid#zSoyz", room))
    }
}

/// Gives the form of a value of a style, and answers its length.
fn give_css_value(text: &str, room: &mut [u8]) -> usize
    requires room { 6 * length text.now + 32 ≤ length room.old }
    ensures gives { Gives (encode_utf8_all (css_value (chars text.now))) [] room.old room.new result }
{
    if is_css_value(text) {
        put_text(text, room)
    } else {
        put_text("zSoyz", room)
    }
}

/// Gives an opening, the forms of a text's characters by an escaper and a closing, where each byte has a form of its
/// own.
#[inline(always)]
fn give_enclosed(
    how: Escaper,
    opening: &str,
    text: &str,
    closing: &str,
    room: &mut [u8],
) -> Option<usize>
    requires opening { length opening.now ≤ 16 }
    requires closing { length closing.now ≤ 16 }
    requires room { 6 * length text.now + 32 ≤ length room.old }
    ensures gives { IfSome result (Gives
        ((opening.now ++ encode_utf8_all (flat_map (escaped_character how) (chars text.now))) ++ closing.now) []
        room.old room.new) }
    ensures unchanged { result ≡ None → room.new ≡ room.old }
{
    let Some(shares) = shares_by(how) else {
        return None;
    };
    let Some(forms) = forms_by(how) else {
        return None;
    };
    let (plain, others) = own_run(how, shares, text);
    if !is_by_bytes(how, shares, others) {
        return None;
    }
    let opened = put_text(opening, room);
    let filled = opened
        + put_body(
            how,
            shares,
            forms,
            plain,
            others.as_bytes(),
            &mut room[opened..],
        );
    Some(filled + put_text(closing, &mut room[filled..]))
}

/// Gives a text that stands for itself and the forms of all bytes after it, and answers the length of both.
#[inline(always)]
fn put_body(
    _how: Escaper,
    shares: &[u16; 256],
    forms: &[&'static str; 128],
    plain: &str,
    others: &[u8],
    room: &mut [u8],
) -> usize
    requires shares { AreShares _how shares.now }
    requires forms { map (λ text. text.now) forms.now ≡ ascii_forms _how }
    requires short { list_all is_short (ascii_forms _how) ≡ true }
    requires room { length plain.now + 6 * length others.now ≤ length room.old }
    ensures gives { Gives (plain.now ++ flat_map (byte_form _how) others.now) [] room.old room.new result }
    ensures bound { result ≤ length plain.now + 6 * length others.now }
{
    let begun = put_text(plain, room);
    if others.is_empty() {
        return begun;
    }
    begun + put_forms(_how, shares, forms, others, &mut room[begun..])
}

/// Whether the form of a text is that of each of its bytes. By `Html` each is, since no character beyond ASCII has a
/// row.
#[inline(always)]
fn is_by_bytes(how: Escaper, shares: &[u16; 256], text: &str) -> bool
    requires { AreShares how shares.now }
    ensures { result ≡ true → encode_utf8_all (flat_map (escaped_character how) (chars text.now))
        ≡ flat_map (byte_form how) text.now }
{
    match how {
        Escaper::Html => true,
        _ => are_single(shares, text.as_bytes()),
    }
}

/// Whether each byte is of ASCII or has the share 1.
fn are_single(shares: &[u16; 256], bytes: &[u8]) -> bool
    ensures { result ≡ list_all (is_single shares.now) bytes.now }
{
    bytes.iter().all(|byte| is_single(shares, *byte))
}

fn is_single(shares: &[u16; 256], byte: u8) -> bool
    ensures { result ≡ is_single shares.now byte }
{
    byte < 0x80 || shares[byte as usize] == 1
}

/// Gives the forms of all bytes, and answers their length.
fn put_forms(
    _how: Escaper,
    shares: &[u16; 256],
    forms: &[&'static str; 128],
    bytes: &[u8],
    room: &mut [u8],
) -> usize
    requires shares { AreShares _how shares.now }
    requires forms { map (λ text. text.now) forms.now ≡ ascii_forms _how }
    requires short { list_all is_short (ascii_forms _how) ≡ true }
    requires room { 6 * length bytes.now ≤ length room.old }
    ensures gives { Gives (flat_map (byte_form _how) bytes.now) [] room.old room.new result }
    ensures bound { result ≤ 6 * length bytes.now }
{
    let mut filled = 0;
    for byte in bytes {
        filled += put_form(_how, shares, forms, *byte, &mut room[filled..]);
    }
    filled
}

/// Gives the form of a byte, and answers its length.
#[inline(always)]
fn put_form(
    _how: Escaper,
    shares: &[u16; 256],
    forms: &[&'static str; 128],
    byte: u8,
    room: &mut [u8],
) -> usize
    requires shares { AreShares _how shares.now }
    requires forms { map (λ text. text.now) forms.now ≡ ascii_forms _how }
    requires short { list_all is_short (ascii_forms _how) ≡ true }
    requires room { 6 ≤ length room.old }
    ensures gives { (after : List ℕ) → Gives (byte_form _how byte ++ after) after room.old room.new result }
    ensures bound { result ≤ 6 }
{
    if is_own(shares, byte) {
        put_byte(byte, room)
    } else {
        put_text(text_of(_how, forms, byte), room)
    }
}

/// Whether the byte stands for itself where the characters beyond ASCII do.
#[inline(always)]
fn is_own(shares: &[u16; 256], byte: u8) -> bool
    ensures { result ≡ is_own shares.now byte }
{
    shares[byte as usize] == 1 || byte >= 0x80
}

/// Gives a byte, and answers the length 1.
#[inline(always)]
fn put_byte(byte: u8, room: &mut [u8]) -> usize
    requires room { 1 ≤ length room.old }
    ensures gives { (after : List ℕ) → Gives (byte ∷ after) after room.old room.new result }
    ensures size { result ≡ 1 }
{
    room[0] = byte;
    1
}

/// Gives an opening, a text and a closing, and answers the length of all.
#[inline(always)]
fn put_between(opening: &str, text: &str, closing: &str, room: &mut [u8]) -> usize
    requires { length opening.now + (length text.now + length closing.now) ≤ length room.old }
    ensures { Gives ((opening.now ++ text.now) ++ closing.now) [] room.old room.new result }
{
    let opened = put_text(opening, room);
    let filled = opened + put_text(text, &mut room[opened..]);
    filled + put_text(closing, &mut room[filled..])
}

/// Gives a text, and answers its length.
#[inline(always)]
fn put_text(text: &str, room: &mut [u8]) -> usize
    requires { length text.now ≤ length room.old }
    ensures gives { (after : List ℕ) → Gives (text.now ++ after) after room.old room.new result }
    ensures size { result ≡ length text.now }
{
    room[..text.len()].copy_from_slice(text.as_bytes());
    text.len()
}
