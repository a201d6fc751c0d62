//! The base names of prints, selectors and tags.

ghost use Rattle.std.specs.Prelude.{◌≡◌, true, map, reverse, bytes_eq, codes, drop, option_map, IfOk, IfSome, OnOk};
ghost use Rattle.std.specs.Char.{to_ascii_lowercase};
ghost use Rattle.std.specs.List.{list_any};
ghost use Rattle.std.specs.Str.{chars};
ghost use Rattle.soy_base.specs.Appends.{Appends};
ghost use Rattle.soy_rules.specs.BaseNames.{base_of_expr, base_of_name, base_of_print, base_of_tag, is_closed_tag};
ghost use Rattle.soy_rules.specs.BaseNames.{is_end_tag, leading_name, lone_tags, own_name, own_names, shown_name};
ghost use Rattle.soy_rules.specs.BaseNames.{tag_name, upper_character};
ghost use Rattle.soy_tree.specs.ViewExpressions.{view_expr};
ghost use Rattle.msg_extract.specs.Canonical.Ascii.{is_ascii};
ghost use Rattle.msg_extract.specs.TagNames.{begins_with_slash, ends_name, name_character, tag_prefix, upper_step};
ghost use Rattle.msg_extract.specs.Views.ViewItems.{view_item};

use crate::ascii::{empty, is_word, push_ascii};
use crate::item::Item;
use soy_base::{OutOfMemory, Text, first, push_char};
use soy_tree::{Expr, ExprNode};
use std::alloc::Global;

/// The base name of a selector.
pub fn base_of_expr(alloc: Global, expr: &Expr) -> Result<Text, OutOfMemory>
    ensures { IfOk result (λ t. t ≡ base_of_expr (view_expr expr.now)) }
{
    match expr.node.get() {
        ExprNode::Var(name) => base_of_name(alloc, name.text()),
        ExprNode::Member(_, name, _) => base_of_name(alloc, name.text()),
        _ => no_name(alloc),
    }
}

/// The base name of what has none.
fn no_name(alloc: Global) -> Result<Text, OutOfMemory>
    ensures { IfOk result (λ t. t ≡ codes "XXX") }
{
    let mut base = empty(alloc);
    push_ascii(&mut base, "XXX")?;
    Ok(Text::new(base))
}

/// The base name of a print.
pub fn base_of_print(alloc: Global, expr: &Expr, phname: &Option<Text>) -> Result<Text, OutOfMemory>
    ensures { IfOk result (λ t. t ≡ base_of_print (view_expr expr.now) phname.now) }
{
    match phname {
        None => base_of_expr(alloc, expr),
        Some(phname) => base_of_name(alloc, phname.text()),
    }
}

/// The base name that a name makes.
#[tactic(auto, using(crate::proofs::Naming::TagNames::upper_steps))]
fn base_of_name(alloc: Global, name: &str) -> Result<Text, OutOfMemory>
    ensures { IfOk result (λ t. t ≡ base_of_name (chars name.now)) }
{
    let mut base = empty(alloc);
    let mut follows_lower = false;
    let mut rest = name;
    while let Some((c, after)) = first(rest) {
        push_upper(&mut base, follows_lower, c)?;
        follows_lower = c.is_ascii_lowercase() || c.is_ascii_digit();
        rest = after;
    }
    Ok(Text::new(base))
}

/// Adds a character of a name in upper case, an upper-case letter with `_` before it where a lower-case letter or a
/// digit stands there.
fn push_upper(out: &mut String, follows_lower: bool, c: char) -> Result<(), OutOfMemory>
    ensures { OnOk result (Appends out.old out.new (upper_step follows_lower c)) }
{
    if follows_lower && c.is_ascii_uppercase() {
        push_char(out, '_')?;
    }
    push_char(out, c.to_ascii_uppercase())
}

/// The base name of a tag.
#[tactic(auto, using(crate::proofs::Naming::TagNames::tag_base_is))]
pub fn base_of_tag(alloc: Global, tag: &[Item<'_>]) -> Result<Text, OutOfMemory>
    ensures { IfOk result (λ t. t ≡ base_of_tag (map view_item tag.now)) }
{
    let name = tag_name(alloc, tag)?;
    let mut base = empty(alloc);
    push_ascii(&mut base, tag_prefix(tag, &name))?;
    push_shown(&mut base, &name)?;
    Ok(Text::new(base))
}

/// What stands before the name of a tag.
fn tag_prefix(tag: &[Item<'_>], name: &Text) -> &'static str
    ensures prefix { result.now ≡ tag_prefix (map view_item tag.now) name.now }
    ensures ascii { is_ascii result.now ≡ true }
{
    if is_end_tag(tag) {
        return "END_";
    }
    if is_lone(name) {
        return "";
    }
    if is_closed_tag(tag) { "" } else { "START_" }
}

/// Whether tags of this name have no end tag.
fn is_lone(name: &Text) -> bool
    ensures { result ≡ list_any (bytes_eq name.now) lone_tags }
{
    is_word(name, "br")
        || is_word(name, "hr")
        || is_word(name, "img")
        || is_word(name, "input")
        || is_word(name, "wbr")
}

/// Adds the name of a tag as it is shown.
fn push_shown(out: &mut String, name: &Text) -> Result<(), OutOfMemory>
    ensures { OnOk result (Appends out.old out.new (shown_name name.now (own_name name.now own_names))) }
{
    match own_name(name) {
        Some(shown) => push_ascii(out, shown),
        None => push_upper_characters(out, name.text()),
    }
}

/// The name that a tag has of its own, if there is one.
fn own_name(name: &Text) -> Option<&'static str>
    ensures name { option_map (λ shown. shown.now) result ≡ own_name name.now own_names }
    ensures ascii { IfSome result (λ shown. is_ascii shown.now ≡ true) }
{
    if is_word(name, "a") {
        return Some("LINK");
    }
    if is_word(name, "b") {
        return Some("BOLD");
    }
    if is_word(name, "i") {
        return Some("ITALIC");
    }
    if is_word(name, "em") {
        return Some("EMPHASIS");
    }
    if is_word(name, "br") {
        return Some("BREAK");
    }
    if is_word(name, "li") {
        return Some("ITEM");
    }
    list_name(name)
}

/// The name of a list, a paragraph or an image.
fn list_name(name: &Text) -> Option<&'static str>
    ensures name { option_map (λ shown. shown.now) result ≡ own_name name.now (drop 6 own_names) }
    ensures ascii { IfSome result (λ shown. is_ascii shown.now ≡ true) }
{
    if is_word(name, "ol") {
        return Some("ORDERED_LIST");
    }
    if is_word(name, "ul") {
        return Some("UNORDERED_LIST");
    }
    if is_word(name, "p") {
        return Some("PARAGRAPH");
    }
    if is_word(name, "img") {
        return Some("IMAGE");
    }
    None
}

/// Adds a name in upper case, with `_` for what is no ASCII letter or digit.
fn push_upper_characters(out: &mut String, name: &str) -> Result<(), OutOfMemory>
    ensures { OnOk result (Appends out.old out.new (map upper_character (chars name.now))) }
{
    let mut rest = name;
    while let Some((c, after)) = first(rest) {
        push_char(out, upper_character(c))?;
        rest = after;
    }
    Ok(())
}

/// A character of a name that is shown.
fn upper_character(c: char) -> char
    ensures { result ≡ upper_character c }
{
    if c.is_ascii_alphabetic() || c.is_ascii_digit() {
        c.to_ascii_uppercase()
    } else {
        '_'
    }
}

/// Whether these begin with `/`.
fn begins_with_slash(items: &[Item<'_>]) -> bool
    ensures { result ≡ begins_with_slash (map view_item items.now) }
{
    match items.split_first() {
        Some((Item::Character(c, _), _)) => *c == '/',
        Some((Item::Printed(_, _, _), _)) => false,
        None => false,
    }
}

/// Whether these end with `/`.
#[tactic(auto, using(crate::proofs::Naming::TagNames::ends_as))]
fn ends_with_slash(items: &[Item<'_>]) -> bool
    ensures { result ≡ begins_with_slash (reverse (map view_item items.now)) }
{
    match items.split_last() {
        Some((Item::Character(c, _), _)) => *c == '/',
        Some((Item::Printed(_, _, _), _)) => false,
        None => false,
    }
}

/// Whether a tag is an end tag.
#[tactic(auto, using(crate::proofs::Naming::TagNames::end_tag_is))]
fn is_end_tag(tag: &[Item<'_>]) -> bool
    ensures { result ≡ is_end_tag (map view_item tag.now) }
{
    match tag.split_first() {
        Some((_, rest)) => begins_with_slash(rest),
        None => false,
    }
}

/// Whether a tag ends in `/>`.
#[tactic(auto, using(crate::proofs::Naming::TagNames::closed_tag_is))]
fn is_closed_tag(tag: &[Item<'_>]) -> bool
    ensures { result ≡ is_closed_tag (map view_item tag.now) }
{
    match tag.split_last() {
        Some((_, before)) => ends_with_slash(before),
        None => false,
    }
}

/// The name of a tag, in lower case.
fn tag_name(alloc: Global, tag: &[Item<'_>]) -> Result<Text, OutOfMemory>
    ensures { IfOk result (λ t. t ≡ tag_name (map view_item tag.now)) }
{
    let Some((_, items)) = tag.split_first() else {
        return Ok(Text::empty(alloc));
    };
    let Some((_, rest)) = items.split_first() else {
        return Ok(Text::empty(alloc));
    };
    if is_end_tag(tag) {
        leading_name(alloc, rest)
    } else {
        leading_name(alloc, items)
    }
}

/// Whether a character ends the name of a tag.
fn ends_name(c: char) -> bool
    ensures { result ≡ ends_name c }
{
    c.is_ascii_whitespace() || c == '/' || c == '>'
}

/// The characters up to what ends a tag's name, in lower case.
fn leading_name(alloc: Global, items: &[Item<'_>]) -> Result<Text, OutOfMemory>
    ensures { IfOk result (λ t. t ≡ map to_ascii_lowercase (leading_name (map view_item items.now))) }
{
    let mut name = empty(alloc);
    for item in items {
        let Some(c) = name_character(*item) else {
            return Ok(Text::new(name));
        };
        push_char(&mut name, c.to_ascii_lowercase())?;
    }
    Ok(Text::new(name))
}

/// The character of a tag's name that an item is, if it doesn't end the name.
fn name_character(item: Item<'_>) -> Option<char>
    ensures { result ≡ name_character (view_item item.entry) }
{
    match item {
        Item::Printed(_, _, _) => None,
        Item::Character(c, _) => if ends_name(c) { None } else { Some(c) },
    }
}
