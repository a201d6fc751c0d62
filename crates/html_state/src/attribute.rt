//! The value of an attribute.

ghost use Rattle.std.specs.Prelude.{◌≡◌, Ok, Err, OnOk, OnErr, IfErr};
ghost use Rattle.html_state.specs.QuoteCharacter.{quote_character};
ghost use Rattle.html_state.specs.ValueNext.{begun_value, may_end_style, may_end_value, value_next};

use crate::row::{Attribute, AttributeValue, Quote, UriPart};
use crate::uri::step_part;
use script_state::CssState;
use soy_base::Code;

pub(crate) fn quote_character(quote: Quote) -> char
    ensures { result ≡ quote_character quote }
{
    match quote {
        Quote::Single => '\'',
        Quote::Double => '"',
    }
}

/// The value of an attribute before its first character.
pub(crate) fn begun_value(attribute: Attribute) -> AttributeValue
    ensures { result ≡ begun_value attribute }
{
    match attribute {
        Attribute::Uri(name) => AttributeValue::Uri(name, UriPart::Start),
        Attribute::Event => AttributeValue::Event,
        Attribute::NoPrint => AttributeValue::NoPrint,
        Attribute::Style => AttributeValue::Style(CssState::Code),
        Attribute::Plain => AttributeValue::Plain,
    }
}

fn may_end_style(state: CssState) -> bool
    ensures { result ≡ may_end_style state }
{
    matches!(
        state,
        CssState::Code | CssState::Ready | CssState::Slash | CssState::AfterValue
    )
}

/// Whether the value may end here.
pub(crate) fn may_end_value(value: &AttributeValue) -> bool
    ensures { result ≡ may_end_value value.now }
{
    match value {
        AttributeValue::Style(state) => may_end_style(*state),
        _ => true,
    }
}

/// One more character of the value.
pub(crate) fn step_value(value: &mut AttributeValue, c: char, is_static: bool) -> Result<(), Code>
    ensures ok { OnOk result (value_next is_static value.old c ≡ Ok value.new) }
    ensures err { IfErr result (λ code. value_next is_static value.old c ≡ Err code) }
    ensures unchanged { OnErr result (value.new ≡ value.old) }
{
    match value {
        AttributeValue::Uri(_, part) => {
            if is_static {
                step_part(part, c)
            } else {
                Ok(())
            }
        }
        AttributeValue::Style(state) => match state.step(c) {
            Ok(()) => Ok(()),
            Err(_) => Err(Code::Script),
        },
        _ => Ok(()),
    }
}
