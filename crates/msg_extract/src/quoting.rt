//! Text as it stands in a canonical text.

ghost use Rattle.std.specs.Prelude.{◌≡◌, map, IfOk, OnOk};
ghost use Rattle.soy_base.specs.Appends.{Appends};
ghost use Rattle.msg_extract.specs.Canonical.CanonicalText.{is_special, text_of_items, written_text};
ghost use Rattle.msg_extract.specs.Canonical.QuotedRuns.{behind_apostrophe, is_run_after, item_written, run_after_item};
ghost use Rattle.msg_extract.specs.Canonical.QuotedRuns.{run_end};
ghost use Rattle.msg_extract.specs.Canonical.QuotedRuns.{written_step};
ghost use Rattle.msg_extract.specs.Views.ViewItems.{view_item};

use crate::ascii::empty;
use crate::item::Item;
use soy_base::{OutOfMemory, Text, push_char};
use std::alloc::Global;

/// The characters of a text as they stand in a canonical text; whether they stand directly in a plural's case.
#[tactic(auto, using(crate::proofs::Texts::QuotedRuns::item_step, crate::proofs::Texts::QuotedRuns::run_ends))]
pub fn quoted(alloc: Global, in_plural: bool, text: &[Item<'_>]) -> Result<Text, OutOfMemory>
    ensures { IfOk result (λ t. t ≡ written_text in_plural (text_of_items (map view_item text.now))) }
{
    let mut out = empty(alloc);
    let mut in_run = false;
    for item in text {
        in_run = push_item(&mut out, in_plural, in_run, *item)?;
    }
    push_run_end(&mut out, in_run)?;
    Ok(Text::new(out))
}

/// Adds the apostrophe that ends a run, if one has begun.
fn push_run_end(out: &mut String, in_run: bool) -> Result<(), OutOfMemory>
    ensures { OnOk result (Appends out.old out.new (run_end in_run)) }
{
    if in_run { push_char(out, '\'') } else { Ok(()) }
}

/// Adds an item of text, and says whether a run of special characters has begun.
fn push_item(
    out: &mut String,
    in_plural: bool,
    in_run: bool,
    item: Item<'_>,
) -> Result<bool, OutOfMemory>
    ensures { IfOk result (λ is. (is ≡ run_after_item in_plural in_run (view_item item.entry))
        × Appends out.old out.new (item_written in_plural in_run (view_item item.entry))) }
{
    match item {
        Item::Printed(_, _, _) => Ok(in_run),
        Item::Character(c, _) => {
            push_quoted(out, in_plural, in_run, c)?;
            Ok(is_run_after(in_plural, in_run, c))
        }
    }
}

/// Whether a character has to be quoted.
fn is_special(in_plural: bool, c: char) -> bool
    ensures { result ≡ is_special in_plural c }
{
    c == '{' || c == '}' || in_plural && c == '#'
}

/// Whether a run has begun and goes on after a character.
fn is_run_after(in_plural: bool, in_run: bool, c: char) -> bool
    ensures { result ≡ is_run_after in_plural in_run c }
{
    if is_special(in_plural, c) {
        true
    } else if c == '\'' {
        in_run
    } else {
        false
    }
}

/// Adds a character of text, in a run or outside.
fn push_quoted(out: &mut String, in_plural: bool, in_run: bool, c: char) -> Result<(), OutOfMemory>
    ensures { OnOk result (Appends out.old out.new (written_step in_plural in_run c)) }
{
    if is_special(in_plural, c) {
        return push_after(out, !in_run, c);
    }
    if c == '\'' {
        return push_after(out, true, '\'');
    }
    push_after(out, in_run, c)
}

/// Adds a character, behind an apostrophe where that says so.
fn push_after(out: &mut String, apostrophe: bool, c: char) -> Result<(), OutOfMemory>
    ensures { OnOk result (Appends out.old out.new (behind_apostrophe apostrophe c)) }
{
    if apostrophe {
        push_char(out, '\'')?;
    }
    push_char(out, c)
}
