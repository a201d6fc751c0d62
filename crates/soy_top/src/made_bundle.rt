//! The bundle that `gen` makes of the catalogue of its file.

ghost use Rattle.std.specs.Prelude.{◌≡◌, IfOk, OnOk, encode_utf8_all};
ghost use Rattle.std.specs.String.{string_bytes};
ghost use Rattle.serde_json.specs.Data.{no_members, put, string};
ghost use Rattle.serde_json.specs.View.{members_view, view};
ghost use Rattle.soy_top.specs.MadeBundle.{bundle_data, bundle_text, translation, with_translations};

use msg_extract::{Catalogue, Listed};
use serde_json::{Map, Value, json};
use soy_base::OutOfMemory;
use std::alloc::Global;

/// The translation of a message: its canonical text in brackets.
fn translation(alloc: Global, row: &Listed) -> Result<String, OutOfMemory>
    ensures { IfOk result (λ text. string_bytes text ≡ translation row.now) }
{
    let text = row.text.text();
    Ok(format!(in alloc; "[{text}]")?)
}

/// Adds the translation of a message under its id.
fn add_translation(
    alloc: Global,
    translations: &mut Map<String, Value>,
    row: &Listed,
) -> Result<(), OutOfMemory>
    ensures { OnOk result (members_view translations.new.entries ≡ put (encode_utf8_all row.now.id)
        (string (translation row.now)) (members_view translations.old.entries)) }
{
    let text = translation(alloc, row)?;
    let id = String::from_str(alloc, row.id.text())?;
    translations.insert(id, Value::String(text))?;
    Ok(())
}

/// The translations of messages under their ids.
fn translations(alloc: Global, rows: &[Listed]) -> Result<Map<String, Value>, OutOfMemory>
    ensures { IfOk result (λ made. members_view made.entries ≡ with_translations no_members rows.now) }
{
    let mut translations = Map::new(alloc);
    for row in rows {
        add_translation(alloc, &mut translations, row)?;
    }
    Ok(translations)
}

/// The bundle as JSON.
fn bundle_value(alloc: Global, rows: &[Listed]) -> Result<Value, OutOfMemory>
    ensures { IfOk result (λ v. view v ≡ bundle_data rows.now) }
{
    let translations = translations(alloc, rows)?;
    Ok(json!(in alloc; {
        "dir": "rtl",
        "messages": Value::Object(translations),
        "plural": {"one": "n = 1"}
    })?)
}

/// The bundle of a catalogue as the compact text of JSON.
#[tactic(auto, using(crate::proofs::MadeBundles::no_float))]
pub(crate) fn bundle_text(alloc: Global, catalogue: &Catalogue) -> Result<String, OutOfMemory>
    ensures { IfOk result (λ text. string_bytes text ≡ bundle_text catalogue.now.messages) }
{
    let value = bundle_value(alloc, catalogue.messages.items())?;
    Ok(value.to_string(alloc)?)
}
