//! The escaped forms of single characters, and the characters that stand for themselves.
ghost use Rattle.std.specs.Prelude.{◌≡◌, ◌≤◌, [], ◌++◌, IsTrue, encode_utf8_all};
ghost use Rattle.std.specs.Str.{chars, IsUtf8};
ghost use Rattle.soy_base.specs.ByteLength.{byte_len};
ghost use Rattle.esc_table.specs.EscapedText.{escaped_character as row_or_character};
ghost use Rattle.escapers.specs.Esc.{escaped_character, is_by_characters};
ghost use Rattle.escapers.specs.PlainPrefix.{plain_prefix};
ghost use Rattle.escapers.specs.ShortRows.{are_short};

use crate::alphanumeric::is_alphanumeric;
use crate::css::css_table;
use crate::escaper::Escaper;
use crate::js::js_table;
use crate::uri::{
    component_len, normal_len, normal_prefix, put_component, put_normal, unreserved_prefix,
};
use esc_table::{Table, Tail, html};

/// Makes the escaped form of one character pending, by an escaper by characters. Takes no memory.
pub fn put_char(how: Escaper, c: char, tail: &mut Tail)
    requires by_characters { IsTrue (is_by_characters how) }
    requires none_pending { tail.old ≡ [] }
    ensures { tail.new ≡ encode_utf8_all (escaped_character how c) }
{
    match how {
        Escaper::Html => put_row(tail, &html(), c),
        Escaper::UriNormal => put_normal(tail, c),
        Escaper::UriComponent => put_component(tail, c),
        Escaper::JsString => put_row(tail, &js_table(), c),
        Escaper::CssString => put_row(tail, &css_table(), c),
        Escaper::Plain => tail.put(c, None),
        Escaper::Wrap | Escaper::UriStart | Escaper::JsValue | Escaper::CssValue | Escaper::AsIs =>
            unreachable!(),
    }
}

/// Makes the text of the character's row pending, or the character where it has none.
fn put_row<const N: usize>(tail: &mut Tail, table: &Table<N>, c: char)
    requires size { N ≤ 256 }
    requires short { IsTrue (are_short table.now) }
    requires none_pending { tail.old ≡ [] }
    ensures { tail.new ≡ encode_utf8_all (row_or_character table.now c) }
{
    tail.put(c, table.find(c));
}

/// How many bytes the escaped form of one character takes, by an escaper by characters.
pub fn escaped_char_len(how: Escaper, c: char) -> usize
    requires by_characters { IsTrue (is_by_characters how) }
    ensures { result ≡ byte_len (escaped_character how c) }
{
    match how {
        Escaper::Html => row_len(&html(), c),
        Escaper::UriNormal => normal_len(c),
        Escaper::UriComponent => component_len(c),
        Escaper::JsString => row_len(&js_table(), c),
        Escaper::CssString => row_len(&css_table(), c),
        Escaper::Plain => c.len_utf8(),
        Escaper::Wrap | Escaper::UriStart | Escaper::JsValue | Escaper::CssValue | Escaper::AsIs =>
            unreachable!(),
    }
}

/// How many bytes the text of the character's row takes, or the character where it has none.
fn row_len<const N: usize>(table: &Table<N>, c: char) -> usize
    requires size { N ≤ 256 }
    ensures { result ≡ byte_len (row_or_character table.now c) }
{
    match table.find(c) {
        Some(row) => row.len(),
        None => c.len_utf8(),
    }
}

/// The longest prefix of the text whose characters stand for themselves, by an escaper by characters, and the rest.
pub fn plain_prefix(how: Escaper, text: &str) -> (&str, &str)
    requires by_characters { IsTrue (is_by_characters how) }
    ensures whole { text.now ≡ result.0.now ++ result.1.now }
    ensures prefix { chars result.0.now ≡ plain_prefix how (chars text.now) }
    ensures prefix_utf8 { IsUtf8 result.0.now }
    ensures rest_utf8 { IsUtf8 result.1.now }
{
    if begins_alphanumeric(text) && is_alphanumeric(text) {
        return (text, "");
    }
    match how {
        Escaper::Html => html().plain_prefix(text),
        Escaper::UriNormal => normal_prefix(text),
        Escaper::UriComponent => unreserved_prefix(text),
        Escaper::JsString => js_table().plain_prefix(text),
        Escaper::CssString => css_table().plain_prefix(text),
        Escaper::Plain => (text, ""),
        Escaper::Wrap | Escaper::UriStart | Escaper::JsValue | Escaper::CssValue | Escaper::AsIs =>
            unreachable!(),
    }
}

/// Whether the text begins with letters and digits of ASCII: a cheap look before the whole is tested.
fn begins_alphanumeric(text: &str) -> bool {
    text.bytes()
        .take(8)
        .all(|byte| byte.is_ascii_alphanumeric())
}
