//! The rows within a tag.

ghost use Rattle.std.specs.Prelude.{◌≡◌, Ok, Err, Some, None, ◌==◌, [], OnOk, OnErr, IfOk, IfErr, if◌then◌else◌, true};
ghost use Rattle.std.specs.Prelude.{false};
ghost use Rattle.std.specs.Char.{is_ascii_whitespace};
ghost use Rattle.soy_base.specs.Characters.{greater_than};
ghost use Rattle.html_state.specs.Kept.{name_with};
ghost use Rattle.html_state.specs.RowNext.{after_tag, in_tag, opened};
ghost use Rattle.html_state.specs.TagRowNext.{before_name, before_value, past_name, tag_row_next};
ghost use Rattle.html_state.specs.Texts.{and_then};
ghost use Rattle.html_state.specs.ValueNext.{begun_value, value_next};
ghost use Rattle.html_state.specs.declared.row.TagRow.TheVariants as tag_row;

use crate::attribute::{begun_value, may_end_value, quote_character, step_value};
use crate::name::Name;
use crate::names::{attribute_named, element_named};
use crate::row::{Attribute, Element, HtmlRow, Quote, Tag, TagKind, TagRow};
use crate::text::ends_name;
use soy_base::Code;

fn opened(element: Option<Element>) -> HtmlRow
    ensures { result ≡ opened element }
{
    match element {
        Some(element) => HtmlRow::Within(element),
        None => HtmlRow::Data,
    }
}

/// The row past the end of a tag.
pub(crate) fn after_tag(tag: &Tag) -> HtmlRow
    ensures { result ≡ after_tag tag.now }
{
    match tag {
        Tag::Block => HtmlRow::Outside,
        Tag::Named(TagKind::End, _) => HtmlRow::Data,
        Tag::Named(TagKind::Start, name) => opened(element_named(name)),
    }
}

/// The row past the name of a tag.
pub(crate) fn past_tag_name(tag: Tag, c: char) -> HtmlRow
    ensures { result ≡ in_tag tag (past_name c) }
{
    match c {
        '/' => HtmlRow::InTag(tag, TagRow::SelfClosing),
        '>' => after_tag(&tag),
        _ => HtmlRow::InTag(tag, TagRow::BeforeName),
    }
}

/// Another row within a tag, which keeps nothing.
#[inline(never)]
fn turn_to(row: &mut TagRow, slash: bool)
    ensures { row.new ≡ (if slash then tag_row.SelfClosing else tag_row.BeforeName) }
{
    *row = if slash {
        TagRow::SelfClosing
    } else {
        TagRow::BeforeName
    };
}

/// After white space, `/` or `>`. The answers of this function and those below say whether the tag ends.
fn step_past_name(row: &mut TagRow, c: char) -> bool
    ensures { past_name c ≡ (if result then None else Some row.new) }
{
    if c == '>' {
        return true;
    }
    turn_to(row, c == '/');
    false
}

#[inline(never)]
fn begin_name(row: &mut TagRow, c: char)
    ensures { row.new ≡ tag_row.AttributeName (name_with [] c) }
{
    *row = TagRow::AttributeName(Name::of(c));
}

fn step_before_name(row: &mut TagRow, c: char) -> Result<bool, Code>
    ensures ok { IfOk result (λ ended. before_name c ≡ Ok (if ended then None else Some row.new)) }
    ensures err { IfErr result (λ code. before_name c ≡ Err code) }
    ensures unchanged { OnErr result (row.new ≡ row.old) }
{
    if ends_name(c) {
        Ok(step_past_name(row, c))
    } else if c == '=' {
        Err(Code::InName)
    } else {
        begin_name(row, c);
        Ok(false)
    }
}

fn step_after_printed(row: &mut TagRow, c: char) -> Result<bool, Code>
    ensures ok { IfOk result (λ ended. tag_row_next true tag_row.AfterPrinted c
        ≡ Ok (if ended then None else Some row.new)) }
    ensures err { IfErr result (λ code. tag_row_next true tag_row.AfterPrinted c ≡ Err code) }
    ensures unchanged { OnErr result (row.new ≡ row.old) }
{
    if ends_name(c) {
        Ok(step_past_name(row, c))
    } else {
        Err(Code::InName)
    }
}

/// The first character of an unquoted value.
fn step_first(row: &mut TagRow, attribute: Attribute, c: char, is_static: bool) -> Result<(), Code>
    ensures ok { OnOk result (and_then (λ following. Ok (Some (tag_row.Unquoted following)))
        (value_next is_static (begun_value attribute) c) ≡ Ok (Some row.new)) }
    ensures err { IfErr result (λ code. value_next is_static (begun_value attribute) c ≡ Err code) }
    ensures unchanged { OnErr result (row.new ≡ row.old) }
{
    let mut value = begun_value(attribute);
    match step_value(&mut value, c, is_static) {
        Ok(()) => {
            *row = TagRow::Unquoted(value);
            Ok(())
        }
        Err(code) => Err(code),
    }
}

/// A quote, or the first character of an unquoted value.
#[inline(never)]
fn begin_value(row: &mut TagRow, attribute: Attribute, c: char, is_static: bool) -> Result<(), Code>
    requires space { is_ascii_whitespace c ≡ false }
    requires end { (c == greater_than) ≡ false }
    ensures ok { OnOk result (before_value is_static attribute c ≡ Ok (Some row.new)) }
    ensures err { IfErr result (λ code. before_value is_static attribute c ≡ Err code) }
    ensures unchanged { OnErr result (row.new ≡ row.old) }
{
    if c == '"' {
        *row = TagRow::Quoted(Quote::Double, begun_value(attribute));
        Ok(())
    } else if c == '\'' {
        *row = TagRow::Quoted(Quote::Single, begun_value(attribute));
        Ok(())
    } else {
        step_first(row, attribute, c, is_static)
    }
}

fn step_before_value(
    row: &mut TagRow,
    attribute: Attribute,
    c: char,
    is_static: bool,
) -> Result<bool, Code>
    requires { row.old ≡ tag_row.BeforeValue attribute }
    ensures ok { IfOk result (λ ended. before_value is_static attribute c ≡ Ok (if ended then None else Some row.new)) }
    ensures err { IfErr result (λ code. before_value is_static attribute c ≡ Err code) }
    ensures unchanged { OnErr result (row.new ≡ row.old) }
{
    if c.is_ascii_whitespace() {
        return Ok(false);
    }
    if c == '>' {
        return Ok(true);
    }
    begin_value(row, attribute, c, is_static)?;
    Ok(false)
}

/// The `=` after an attribute's name.
#[inline(never)]
fn step_equals_sign(row: &mut TagRow, attribute: Attribute)
    ensures { row.new ≡ tag_row.BeforeValue attribute }
{
    *row = TagRow::BeforeValue(attribute);
}

/// The quote that ends a value.
#[inline(never)]
fn end_quoted(row: &mut TagRow)
    ensures { row.new ≡ tag_row.AfterQuoted }
{
    *row = TagRow::AfterQuoted;
}

/// One more character within a tag, past its name.
pub(crate) fn step_in_tag(row: &mut TagRow, c: char, is_static: bool) -> Result<bool, Code>
    ensures ok { IfOk result (λ ended. tag_row_next is_static row.old c ≡ Ok (if ended then None else Some row.new)) }
    ensures err { IfErr result (λ code. tag_row_next is_static row.old c ≡ Err code) }
    ensures unchanged { OnErr result (row.new ≡ row.old) }
{
    match row {
        TagRow::AttributeName(name) => {
            if ends_name(c) {
                return Ok(step_past_name(row, c));
            }
            if c == '=' {
                let attribute = attribute_named(name);
                step_equals_sign(row, attribute);
                return Ok(false);
            }
            name.push(c);
            Ok(false)
        }
        TagRow::Quoted(quote, value) => {
            if c != quote_character(*quote) {
                step_value(value, c, is_static)?;
                return Ok(false);
            }
            if !may_end_value(value) {
                return Err(Code::Script);
            }
            end_quoted(row);
            Ok(false)
        }
        TagRow::Unquoted(value) => {
            if !c.is_ascii_whitespace() && c != '>' {
                step_value(value, c, is_static)?;
                return Ok(false);
            }
            if !may_end_value(value) {
                return Err(Code::Script);
            }
            Ok(step_past_name(row, c))
        }
        TagRow::BeforeValue(attribute) => {
            let attribute = *attribute;
            step_before_value(row, attribute, c, is_static)
        }
        TagRow::AfterPrinted => step_after_printed(row, c),
        TagRow::BeforeName | TagRow::AfterQuoted | TagRow::SelfClosing => step_before_name(row, c),
    }
}
