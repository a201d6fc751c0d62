//! The translations of a bundle.

ghost use Rattle.std.specs.Prelude.{◌≡◌, ℕ, List, IfOk, option_map};
ghost use Rattle.std.specs.Str.{chars};
ghost use Rattle.serde_json.specs.View.{members_view, view};
ghost use Rattle.soy_rules.specs.IcuText.{IsPattern};
ghost use Rattle.soy_tree.specs.ViewMessageParts.{view_parts};
ghost use Rattle.msg_extract.specs.Fits.{parts_fault};
ghost use Rattle.msg_bundle.specs.BundleFits.{AreOfOneEach};
ghost use Rattle.msg_bundle.specs.Translations as translations;
ghost use Rattle.msg_bundle.specs.Translations.{ReadsNext, ReadsTranslation, ReadsTranslations, messages_of};

use crate::fault::{BundleFault, entry_fault};
use crate::nameable::Nameable;
use crate::names::parts_fault;
use crate::sources::{source_of, sources_of};
use icu_text::parse_message;
use msg_extract::Listed;
use serde_json::{Map, Value as Json};
use soy_base::{Code, OutOfMemory, Refusal, Row, Seq, text_of};
use soy_tree::{MsgPart, Translation};
use std::alloc::Global;

/// The first refusal of what parts name that their message lacks.
fn first_fault(
    alloc: Global,
    source: &Listed,
    parts: &[MsgPart],
) -> Result<Option<Code>, OutOfMemory>
    ensures { IfOk result (λ fault. fault ≡ parts_fault source.now (view_parts parts.now)) }
{
    let nameable = Nameable::new(alloc, source)?;
    let fault = parts_fault(&nameable, parts);
    drop(nameable);
    Ok(fault)
}

/// The translation of these parts under an id.
fn translation_under(
    alloc: Global,
    id: &str,
    parts: Seq<MsgPart>,
) -> Result<Translation, OutOfMemory>
    ensures { IfOk result (λ t. (t.id ≡ chars id.now) × (t.parts ≡ parts)) }
{
    match text_of(alloc, id) {
        Ok(id) => Ok(Translation { id, parts }),
        Err(fault) => {
            drop(parts);
            Err(fault)
        }
    }
}

/// The translation of a message under its id, of these parts, or the first refusal of what they name.
fn named_translation(
    alloc: Global,
    source: &Listed,
    id: &str,
    parts: Seq<MsgPart>,
) -> Result<Translation, Refusal<BundleFault>>
    ensures { (text : List ℕ) → IsPattern text (view_parts parts)
        → ReadsTranslation source.now id.now text result }
{
    match first_fault(alloc, source, parts.items()) {
        Ok(None) => Ok(translation_under(alloc, id, parts)?),
        Ok(Some(code)) => {
            drop(parts);
            Err(entry_fault(alloc, code, "messages", id))
        }
        Err(_) => {
            drop(parts);
            Err(Refusal::OutOfMemory)
        }
    }
}

/// The translation of a message under its id.
fn read_translation(
    alloc: Global,
    source: &Listed,
    id: &str,
    text: &str,
) -> Result<Translation, Refusal<BundleFault>>
    ensures { ReadsTranslation source.now id.now (chars text.now) result }
{
    match parse_message(alloc, text) {
        Ok(parts) => named_translation(alloc, source, id, parts),
        Err(Refusal::Because(_)) => Err(entry_fault(alloc, Code::Icu, "messages", id)),
        Err(Refusal::OutOfMemory) => Err(Refusal::OutOfMemory),
    }
}

/// Adds the translation under an id, where there is a message of the id.
fn read_next(
    alloc: Global,
    translations: &mut Row<Translation>,
    source: Option<&Listed>,
    id: &str,
    text: &str,
) -> Result<(), Refusal<BundleFault>>
    ensures { ReadsNext (option_map (λ row. row.now) source.entry) id.now (chars text.now)
        translations.old translations.new result }
{
    match source {
        Some(source) => Ok(translations.push(read_translation(alloc, source, id, text)?)?),
        None => Ok(()),
    }
}

/// The text of a translation.
fn text_in(entry: &Json) -> &str
    ensures { chars result.now ≡ translations.text_of (view entry.now) }
{
    entry.as_str().unwrap_or("")
}

/// The translations of the ids that a catalogue has, or the first fault of one.
fn read_entries(
    alloc: Global,
    rows: &[Listed],
    entries: &Map<String, Json>,
) -> Result<Seq<Translation>, Refusal<BundleFault>>
    ensures read { ReadsTranslations rows.now (members_view entries.now.entries) result }
    ensures one_each { IfOk result (λ ts. AreOfOneEach ts) }
{
    let sources = sources_of(alloc, rows)?;
    let mut translations = Row::empty(alloc);
    for (id, entry) in entries.iter() {
        let source = source_of(&sources, id.as_str());
        read_next(
            alloc,
            &mut translations,
            source,
            id.as_str(),
            text_in(entry),
        )?;
    }
    Ok(translations.done())
}

/// The translations of a bundle.
pub(crate) fn read_translations(
    alloc: Global,
    rows: &[Listed],
    json: &Json,
) -> Result<Seq<Translation>, Refusal<BundleFault>>
    ensures read { ReadsTranslations rows.now (messages_of (view json.now)) result }
    ensures one_each { IfOk result (λ ts. AreOfOneEach ts) }
{
    match json.get("messages").and_then(Json::as_object) {
        Some(entries) => read_entries(alloc, rows, entries),
        None => Ok(Seq::new(Vec::new(alloc))),
    }
}
