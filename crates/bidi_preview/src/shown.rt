//! A line as it is seen.
ghost use Rattle.std.specs.Prelude.{◌≡◌, IfOk, OnOk};
ghost use Rattle.std.specs.Str.{chars};
ghost use Rattle.bidi_order.specs.Lines.{direction_level};
ghost use Rattle.bidi_preview.specs.OrderSteps.{visible_characters, visible_of};
ghost use Rattle.bidi_preview.specs.Seen.{is_shown, is_white_space, shown_text};
ghost use Rattle.bidi_text.specs.Clean.{is_isolate_control};
ghost use Rattle.soy_base.specs.Appends.{Appends};

use crate::line::levels;
use crate::order::{Leveled, order_characters};
use bidi_class::{Class, class_of};
use soy_base::{Dir, OutOfMemory, Text, push_char};
use std::alloc::Global;

/// The characters of a line from left to right, without initiators and PDI.
#[tactic(auto, using(crate::proofs::ShownLevels::levels_long, crate::proofs::ShownCharacters::visible))]
pub(crate) fn show_line(alloc: Global, base: Dir, line: &[char]) -> Result<Text, OutOfMemory>
    ensures { IfOk result (λ text. text ≡ shown_text (direction_level base) line.now) }
{
    let levels = levels(alloc, base, line)?;
    let order = order_characters(alloc, line, levels.items())?;
    show_characters(alloc, &order)
}

/// The characters of an order that are shown.
fn show_characters(alloc: Global, order: &[Leveled]) -> Result<Text, OutOfMemory>
    ensures { IfOk result (λ text. text ≡ visible_characters order.now) }
{
    let mut text = String::new(alloc);
    for x in order {
        push_visible(&mut text, x.character())?;
    }
    Ok(Text::new(text))
}

/// Puts a character at the end, unless it is an initiator or PDI.
fn push_visible(text: &mut String, c: char) -> Result<(), OutOfMemory>
    ensures { OnOk result (Appends text.old text.new (visible_of c)) }
{
    if is_isolate_control(c) {
        return Ok(());
    }
    push_char(text, c)
}

/// Whether one of the characters of a text isn't white space.
pub(crate) fn is_shown(text: &Text) -> bool
    ensures { result ≡ is_shown text.now }
{
    is_shown_text(text.text())
}

fn is_shown_text(text: &str) -> bool
    ensures { result ≡ is_shown (chars text.now) }
{
    text.chars().any(|c| !is_white_space(class_of(c)))
}

fn is_white_space(class: Class) -> bool
    ensures { result ≡ is_white_space class }
{
    matches!(class, Class::WS)
}

fn is_isolate_control(c: char) -> bool
    ensures { result ≡ is_isolate_control c }
{
    matches!(
        class_of(c),
        Class::LRI | Class::RLI | Class::FSI | Class::PDI
    )
}
