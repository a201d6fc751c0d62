//! Attributes of commands.

ghost use Rattle.std.specs.Prelude.{◌≡◌, true, OnOk};
ghost use Rattle.std.specs.Str.{chars};
ghost use Rattle.soy_base.specs.Appends.{Appends};
ghost use Rattle.soy_format.specs.Ascii.{is_ascii};
ghost use Rattle.soy_format.specs.FormattedBody.{attribute_text, data_text, kind_name, kind_text, meaning_text};
ghost use Rattle.soy_format.specs.FormattedBody.{offset_text, phname_text};
ghost use Rattle.soy_format.specs.Formatted.{template_kind_text, visibility_text};

use crate::ascii::{push_ascii, push_decimal};
use soy_base::{Kind, OutOfMemory, Text, push_text};
use std::alloc::Global;

/// Adds an attribute, after a space.
#[tactic(auto, using(crate::proofs::Pushes::five_pushed))]
pub(crate) fn push_attribute(out: &mut String, name: &str, value: &str) -> Result<(), OutOfMemory>
    requires { is_ascii name.now ≡ true }
    ensures { OnOk result (Appends out.old out.new (attribute_text name.now (chars value.now))) }
{
    push_ascii(out, " ")?;
    push_ascii(out, name)?;
    push_ascii(out, "=\"")?;
    push_text(out, value)?;
    push_ascii(out, "\"")
}

/// Adds an attribute whose value is a word of ASCII characters.
#[tactic(auto, using(crate::proofs::AsciiTexts::chars_ascii))]
fn push_word_attribute(out: &mut String, name: &str, word: &str) -> Result<(), OutOfMemory>
    requires name { is_ascii name.now ≡ true }
    requires word { is_ascii word.now ≡ true }
    ensures { OnOk result (Appends out.old out.new (attribute_text name.now word.now)) }
{
    push_attribute(out, name, word)
}

/// The value of a `kind`.
fn kind_name(kind: Kind) -> &'static str
    ensures name { result.now ≡ kind_name kind }
    ensures ascii { is_ascii result.now ≡ true }
{
    match kind {
        Kind::Html => "html",
        Kind::Attributes => "attributes",
        Kind::Text => "text",
    }
}

/// Adds the kind of a block.
pub(crate) fn push_kind(out: &mut String, kind: Kind) -> Result<(), OutOfMemory>
    ensures { OnOk result (Appends out.old out.new (kind_text kind)) }
{
    push_word_attribute(out, "kind", kind_name(kind))
}

/// Adds the kind of a template, unless it is html.
pub(crate) fn push_template_kind(out: &mut String, kind: Kind) -> Result<(), OutOfMemory>
    ensures { OnOk result (Appends out.old out.new (template_kind_text kind)) }
{
    match kind {
        Kind::Html => Ok(()),
        Kind::Attributes => push_kind(out, Kind::Attributes),
        Kind::Text => push_kind(out, Kind::Text),
    }
}

/// Adds the visibility of a template, if it is private.
pub(crate) fn push_visibility(out: &mut String, private: bool) -> Result<(), OutOfMemory>
    ensures { OnOk result (Appends out.old out.new (visibility_text private)) }
{
    if private {
        return push_word_attribute(out, "visibility", "private");
    }
    Ok(())
}

/// Adds `data="all"`, if it is there.
pub(crate) fn push_data(out: &mut String, all: bool) -> Result<(), OutOfMemory>
    ensures { OnOk result (Appends out.old out.new (data_text all)) }
{
    if all {
        return push_word_attribute(out, "data", "all");
    }
    Ok(())
}

/// Adds a `phname`, if there is one.
pub(crate) fn push_phname(out: &mut String, phname: &Option<Text>) -> Result<(), OutOfMemory>
    ensures { OnOk result (Appends out.old out.new (phname_text phname.now)) }
{
    match phname {
        Some(name) => push_attribute(out, "phname", name.text()),
        None => Ok(()),
    }
}

/// Adds the meaning of a message, unless it is empty.
pub(crate) fn push_meaning(out: &mut String, meaning: &Text) -> Result<(), OutOfMemory>
    ensures { OnOk result (Appends out.old out.new (meaning_text meaning.now)) }
{
    if meaning.is_empty() {
        return Ok(());
    }
    push_attribute(out, "meaning", meaning.text())
}

/// Adds the offset of a plural, unless it is 0.
#[tactic(auto, using(crate::proofs::Pushes::five_pushed))]
pub(crate) fn push_offset(alloc: Global, out: &mut String, offset: u64) -> Result<(), OutOfMemory>
    ensures { OnOk result (Appends out.old out.new (offset_text offset)) }
{
    if offset == 0 {
        return Ok(());
    }
    push_ascii(out, " offset=\"")?;
    push_decimal(alloc, out, offset)?;
    push_ascii(out, "\"")
}
