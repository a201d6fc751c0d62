//! References, from their `&` to the character that decides them.

ghost use Rattle.std.specs.Prelude.{List, ℕ, map, ◌≡◌, ◌∷◌, Ok, Err, OnOk, OnErr, IfErr, false, IsTrue};
ghost use Rattle.std.specs.Char.{is_ascii_alphanumeric};
ghost use Rattle.soy_base.specs.Among.{is_among};
ghost use Rattle.soy_base.specs.Characters.{number_sign};
ghost use Rattle.html_state.specs.Kept.{prefix_with};
ghost use Rattle.html_state.specs.Next.{ampersand_next, reference_begun_next, begun_reference, has_references};
ghost use Rattle.html_state.specs.Next.{is_quoted, is_style_value, is_unquoted, is_uri_value, name_end, name_next};
ghost use Rattle.html_state.specs.Next.{next, numeric_next, plain_next};
ghost use Rattle.html_state.specs.References.{name_begun, reference_names};
ghost use Rattle.html_state.specs.Texts.{is_prefix_among};
ghost use Rattle.html_state.specs.declared.row.Reference.{Reference};

use crate::markup::step_row;
use crate::number::{begins_numeric, is_numeric};
use crate::prefix::Prefix;
use crate::row::{Attribute, AttributeValue, Element, HtmlRow, Reference, State, TagRow};
use crate::text::{begins_one, is_one};
use soy_base::Code;

/// What the known names go on with that begin with a character.
fn names_after(first: u8) -> &'static [&'static [u8]]
    ensures begun { (rest : List ℕ) → is_prefix_among reference_names (first ∷ rest)
        ≡ is_prefix_among (map (λ t. t.now) result.now) rest }
    ensures whole { (rest : List ℕ) → is_among reference_names (first ∷ rest)
        ≡ is_among (map (λ t. t.now) result.now) rest }
{
    match first {
        b'a' => &[b"mp"],
        b'b' => &[b"ull"],
        b'c' => &[b"opy"],
        b'd' => &[b"eg"],
        b'e' => &[b"uro"],
        b'g' => &[b"t"],
        b'h' => &[b"ellip"],
        b'l' => &[b"t", b"aquo", b"squo", b"dquo", b"arr", b"rm"],
        b'm' => &[b"dash", b"iddot"],
        b'n' => &[b"bsp", b"dash"],
        b'p' => &[b"ara"],
        b'q' => &[b"uot"],
        b'r' => &[b"eg", b"aquo", b"squo", b"dquo", b"arr", b"lm"],
        b's' => &[b"ect", b"hy"],
        b't' => &[b"imes", b"rade"],
        b'z' => &[b"wnj", b"wj"],
        _ => &[],
    }
}

fn is_reference_name(characters: &[u8]) -> bool
    ensures { result ≡ is_among reference_names characters.now }
{
    match characters {
        [] => false,
        [first, rest @ ..] => is_one(rest, names_after(*first)),
    }
}

fn begins_reference_name(characters: &[u8]) -> bool
    ensures { result ≡ is_prefix_among reference_names characters.now }
{
    match characters {
        [] => true,
        [first, rest @ ..] => begins_one(rest, names_after(*first)),
    }
}

fn name_begun(prefix: Prefix) -> Reference
    ensures { result ≡ name_begun prefix }
{
    if begins_reference_name(prefix.characters()) {
        Reference::Begun(prefix)
    } else {
        Reference::NoName
    }
}

fn is_style_value(row: &HtmlRow) -> bool
    ensures { result ≡ is_style_value row.now }
{
    matches!(
        row,
        HtmlRow::InTag(
            _,
            TagRow::BeforeValue(Attribute::Style)
                | TagRow::Quoted(_, AttributeValue::Style(_))
                | TagRow::Unquoted(AttributeValue::Style(_))
        )
    )
}

fn is_quoted(row: &HtmlRow) -> bool
    ensures { result ≡ is_quoted row.now }
{
    matches!(row, HtmlRow::InTag(_, TagRow::Quoted(_, _)))
}

fn is_unquoted(row: &HtmlRow) -> bool
    ensures { result ≡ is_unquoted row.now }
{
    matches!(row, HtmlRow::InTag(_, TagRow::Unquoted(_)))
}

fn is_uri_value(row: &HtmlRow) -> bool
    ensures { result ≡ is_uri_value row.now }
{
    matches!(
        row,
        HtmlRow::InTag(
            _,
            TagRow::Quoted(_, AttributeValue::Uri(_, _))
                | TagRow::Unquoted(AttributeValue::Uri(_, _))
        )
    )
}

fn has_references(row: &HtmlRow) -> bool
    ensures { result ≡ has_references row.now }
{
    matches!(
        row,
        HtmlRow::Data
            | HtmlRow::Within(Element::Title | Element::Textarea)
            | HtmlRow::InTag(
                _,
                TagRow::Quoted(_, _) | TagRow::Unquoted(AttributeValue::Uri(_, _))
            )
    )
}

/// The reference that a character begins with which this row is reached.
fn begun_reference(row: &HtmlRow, c: char) -> Reference
    ensures { result ≡ begun_reference row.now c }
{
    if c == '&' && has_references(row) {
        Reference::Begun(Prefix::new())
    } else {
        Reference::Decided
    }
}

/// A static character where no reference is pending, or that shows that none was begun.
fn step_plain(state: &mut State, c: char) -> Result<(), Code>
    ensures ok { OnOk result (plain_next state.old.row c ≡ Ok state.new) }
    ensures err { IfErr result (λ code. plain_next state.old.row c ≡ Err code) }
    ensures unchanged { OnErr result (state.new ≡ state.old) }
{
    if c == '&' && is_style_value(&state.row) {
        return Err(Code::Reference);
    }
    step_row(&mut state.row, c, true)?;
    state.reference = begun_reference(&state.row, c);
    Ok(())
}

/// A character directly after `&`.
fn step_ampersand(state: &mut State, c: char) -> Result<(), Code>
    ensures ok { OnOk result (ampersand_next state.old.row c ≡ Ok state.new) }
    ensures err { IfErr result (λ code. ampersand_next state.old.row c ≡ Err code) }
    ensures unchanged { OnErr result (state.new ≡ state.old) }
{
    if c == '#' {
        if is_uri_value(&state.row) {
            return Err(Code::Reference);
        }
        state.reference = Reference::Begun(Prefix::new().with(c));
        Ok(())
    } else if c.is_ascii_alphanumeric() && !is_unquoted(&state.row) {
        state.reference = name_begun(Prefix::new().with(c));
        Ok(())
    } else {
        step_plain(state, c)
    }
}

/// The reference after `&#`, some digits and one more character.
fn numeric_next(prefix: &Prefix, digits: &[u8], c: char) -> Result<Reference, Code>
    requires { prefix.now ≡ number_sign ∷ digits.now }
    ensures { result ≡ numeric_next digits.now c }
{
    if c == ';' {
        return if is_numeric(digits) {
            Ok(Reference::Decided)
        } else {
            Err(Code::Reference)
        };
    }
    if !c.is_ascii_alphanumeric() {
        return Err(Code::Reference);
    }
    let more = prefix.with(c);
    if begins_numeric(&more.characters()[1..]) {
        Ok(Reference::Begun(more))
    } else {
        Err(Code::Reference)
    }
}

/// The character that ends letters and digits after `&`, which are a name or not.
fn step_name_end(state: &mut State, is_name: bool, c: char) -> Result<(), Code>
    ensures ok { OnOk result (name_end state.old.row is_name c ≡ Ok state.new) }
    ensures err { IfErr result (λ code. name_end state.old.row is_name c ≡ Err code) }
    ensures unchanged { OnErr result (state.new ≡ state.old) }
{
    if c == ';' {
        if !is_name {
            return Err(Code::Reference);
        }
        state.reference = Reference::Decided;
        Ok(())
    } else if c == '=' && is_quoted(&state.row) {
        step_plain(state, c)
    } else {
        Err(Code::Ampersand)
    }
}

/// A character after `&` and letters and digits that begin a name.
fn step_name(state: &mut State, letters: &Prefix, c: char) -> Result<(), Code>
    ensures ok { OnOk result (name_next state.old.row letters.now c ≡ Ok state.new) }
    ensures err { IfErr result (λ code. name_next state.old.row letters.now c ≡ Err code) }
    ensures unchanged { OnErr result (state.new ≡ state.old) }
{
    if c.is_ascii_alphanumeric() {
        state.reference = name_begun(letters.with(c));
        Ok(())
    } else {
        step_name_end(state, is_reference_name(letters.characters()), c)
    }
}

/// A character after `&` and these.
fn step_begun(state: &mut State, prefix: Prefix, c: char) -> Result<(), Code>
    ensures ok { OnOk result (reference_begun_next state.old.row prefix c ≡ Ok state.new) }
    ensures err { IfErr result (λ code. reference_begun_next state.old.row prefix c ≡ Err code) }
    ensures unchanged { OnErr result (state.new ≡ state.old) }
{
    match prefix.characters() {
        [] => step_ampersand(state, c),
        [b'#', digits @ ..] => {
            let next = numeric_next(&prefix, digits, c)?;
            state.reference = next;
            Ok(())
        }
        _ => step_name(state, &prefix, c),
    }
}

/// A static character where a reference is pending.
#[inline(never)]
fn step_pending(state: &mut State, c: char) -> Result<(), Code>
    ensures ok { OnOk result (next state.old c ≡ Ok state.new) }
    ensures err { IfErr result (λ code. next state.old c ≡ Err code) }
    ensures unchanged { OnErr result (state.new ≡ state.old) }
{
    match &state.reference {
        Reference::Decided => step_plain(state, c),
        Reference::Begun(prefix) => {
            let prefix = *prefix;
            step_begun(state, prefix, c)
        }
        Reference::NoName => {
            if c.is_ascii_alphanumeric() {
                Ok(())
            } else {
                step_name_end(state, false, c)
            }
        }
    }
}

/// A static character.
pub(crate) fn step_static(state: &mut State, c: char) -> Result<(), Code>
    ensures ok { OnOk result (next state.old c ≡ Ok state.new) }
    ensures err { IfErr result (λ code. next state.old c ≡ Err code) }
    ensures unchanged { OnErr result (state.new ≡ state.old) }
{
    match &state.reference {
        Reference::Decided => {
            if c == '&' {
                step_pending(state, c)
            } else {
                step_row(&mut state.row, c, true)
            }
        }
        _ => step_pending(state, c),
    }
}
