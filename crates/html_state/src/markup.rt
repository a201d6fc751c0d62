//! The table of the tokenizer.

ghost use Rattle.std.specs.Prelude.{◌≡◌, Ok, Err, OnOk, OnErr, IfErr, IsTrue, true, None};
ghost use Rattle.html_state.specs.EndsName.{ends_name};
ghost use Rattle.html_state.specs.RowNext.{begun_end, goes_on_begun, markup_declaration_next, row_next};
ghost use Rattle.html_state.specs.RowKinds.{IsOpening, IsTagName, past_tag};
ghost use Rattle.html_state.specs.declared.row.Begun.TheVariants as begun;
ghost use Rattle.html_state.specs.declared.row.HtmlRow.TheVariants as row;

use crate::declaration::step_declaration;
use crate::element::{begun_end, goes_on_begun, step_element};
use crate::name::Name;
use crate::names::is_refused;
use crate::row::{Begun, DeclarationRow, Element, HtmlRow, Tag, TagKind};
use crate::tag::{after_tag, past_tag_name, step_in_tag};
use crate::text::{ends_name, is_prefix, is_text};
use soy_base::Code;

fn after_tag_open(c: char) -> HtmlRow
    ensures { row_next true row.TagOpen c ≡ Ok result }
{
    if c == '!' {
        HtmlRow::MarkupDeclaration(Name::new())
    } else if c == '/' {
        HtmlRow::EndTagOpen
    } else if c.is_ascii_alphabetic() {
        HtmlRow::TagName(TagKind::Start, Name::of(c))
    } else if c == '?' {
        HtmlRow::InDeclaration(DeclarationRow::BogusComment)
    } else if c == '<' {
        HtmlRow::TagOpen
    } else {
        HtmlRow::Data
    }
}

fn after_end_tag_open(c: char) -> HtmlRow
    ensures { row_next true row.EndTagOpen c ≡ Ok result }
{
    if c.is_ascii_alphabetic() {
        HtmlRow::TagName(TagKind::End, Name::of(c))
    } else if c == '>' {
        HtmlRow::Data
    } else {
        HtmlRow::InDeclaration(DeclarationRow::BogusComment)
    }
}

fn markup_declaration_next(prefix: &Name, c: char) -> HtmlRow
    ensures { result ≡ markup_declaration_next prefix.now c }
{
    let mut more = *prefix;
    more.push(c);
    let characters = more.characters();
    if is_text(characters, b"--") {
        HtmlRow::InDeclaration(DeclarationRow::CommentStart)
    } else if is_text(characters, b"doctype") {
        HtmlRow::InDeclaration(DeclarationRow::Doctype)
    } else if is_prefix(characters, b"--") || is_prefix(characters, b"doctype") {
        HtmlRow::MarkupDeclaration(more)
    } else if c == '>' {
        HtmlRow::Data
    } else {
        HtmlRow::InDeclaration(DeclarationRow::BogusComment)
    }
}

/// The row past the name of a tag, or the fault that its name is.
fn tag_name_end(kind: TagKind, name: &Name, c: char) -> Result<HtmlRow, Code>
    requires { IsTrue (ends_name c) }
    ensures { result ≡ row_next true (row.TagName kind name.now) c }
{
    if is_refused(kind, name) {
        Err(Code::InName)
    } else {
        Ok(past_tag_name(Tag::Named(kind, *name), c))
    }
}

// Each function below that isn't inlined makes a whole row. The step of a character that makes none stays small.

#[inline(never)]
fn open_tag(html: &mut HtmlRow)
    ensures { html.new ≡ row.TagOpen }
{
    *html = HtmlRow::TagOpen;
}

#[inline(never)]
fn return_to_data(html: &mut HtmlRow)
    ensures { html.new ≡ row.Data }
{
    *html = HtmlRow::Data;
}

#[inline(never)]
fn begin_end_tag(html: &mut HtmlRow, element: Element)
    ensures { html.new ≡ row.BegunEndTag element (begun.EndTag 1) }
{
    *html = HtmlRow::BegunEndTag(element, Begun::EndTag(1));
}

/// A character at which a tag ends.
#[inline(never)]
fn step_tag_end(html: &mut HtmlRow)
    ensures { html.new ≡ past_tag html.old }
{
    if let HtmlRow::InTag(tag, _) = html {
        let next = after_tag(tag);
        *html = next;
    }
}

/// A character at which a tag's name ends.
#[inline(never)]
fn step_tag_name_end(html: &mut HtmlRow, c: char) -> Result<(), Code>
    requires tag { IsTagName html.old }
    requires end { IsTrue (ends_name c) }
    ensures ok { OnOk result (row_next true html.old c ≡ Ok html.new) }
    ensures err { IfErr result (λ code. row_next true html.old c ≡ Err code) }
    ensures unchanged { OnErr result (html.new ≡ html.old) }
{
    if let HtmlRow::TagName(kind, name) = html {
        match tag_name_end(*kind, name, c) {
            Ok(next) => {
                *html = next;
                Ok(())
            }
            Err(code) => Err(code),
        }
    } else {
        Ok(())
    }
}

/// A character that doesn't go on with what was begun in an element's text.
#[inline(never)]
fn step_begun_end(html: &mut HtmlRow, element: Element, begun: Begun, c: char) -> Result<(), Code>
    requires { goes_on_begun element begun c ≡ None }
    ensures ok { OnOk result (begun_end element begun c ≡ Ok html.new) }
    ensures err { IfErr result (λ code. begun_end element begun c ≡ Err code) }
    ensures unchanged { OnErr result (html.new ≡ html.old) }
{
    match begun_end(&element, begun, c) {
        Ok(next) => {
            *html = next;
            Ok(())
        }
        Err(code) => Err(code),
    }
}

/// The rows that open a tag or a declaration, each character of which makes a whole row.
#[inline(never)]
fn step_opening(html: &mut HtmlRow, c: char)
    requires { IsOpening html.old }
    ensures { row_next true html.old c ≡ Ok html.new }
{
    let next = match html {
        HtmlRow::TagOpen => after_tag_open(c),
        HtmlRow::MarkupDeclaration(prefix) => markup_declaration_next(prefix, c),
        _ => after_end_tag_open(c),
    };
    *html = next;
}

/// One more character of a text.
pub(crate) fn step_row(html: &mut HtmlRow, c: char, is_static: bool) -> Result<(), Code>
    ensures ok { OnOk result (row_next is_static html.old c ≡ Ok html.new) }
    ensures err { IfErr result (λ code. row_next is_static html.old c ≡ Err code) }
    ensures unchanged { OnErr result (html.new ≡ html.old) }
{
    match html {
        HtmlRow::Data => {
            if c == '<' {
                open_tag(html);
            }
            Ok(())
        }
        HtmlRow::InTag(_, inner) => {
            if step_in_tag(inner, c, is_static)? {
                step_tag_end(html);
            }
            Ok(())
        }
        HtmlRow::Within(element) => {
            if c != '<' {
                return step_element(element, c);
            }
            let element = *element;
            begin_end_tag(html, element);
            Ok(())
        }
        HtmlRow::TagName(_, name) => {
            if ends_name(c) {
                return step_tag_name_end(html, c);
            }
            name.push(c);
            Ok(())
        }
        HtmlRow::InDeclaration(inner) => {
            if step_declaration(inner, c) {
                return_to_data(html);
            }
            Ok(())
        }
        HtmlRow::BegunEndTag(element, begun) => match goes_on_begun(element, *begun, c) {
            Some(next) => {
                *begun = next;
                Ok(())
            }
            None => {
                let element = *element;
                let begun = *begun;
                step_begun_end(html, element, begun, c)
            }
        },
        HtmlRow::Outside | HtmlRow::Plain => Ok(()),
        _ => {
            step_opening(html, c);
            Ok(())
        }
    }
}
