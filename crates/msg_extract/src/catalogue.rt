//! The catalogue of the messages of files.

ghost use Rattle.std.specs.Prelude.{◌≡◌, ◌<◌, ◌^◌, false, length, map, option_map, slice_get, bytes_eq, IfOk, OnOk};
ghost use Rattle.std.specs.Prelude.{string_bytes};
ghost use Rattle.std.specs.List.{position_or_len};
ghost use Rattle.serde_json.specs.View.{items_view, view};
ghost use Rattle.serde_json.specs.Written.{compact_text};
ghost use Rattle.soy_tree.specs.ViewNodes.{view_body, view_message};
ghost use Rattle.soy_tree.specs.ViewTrees.{view_trees};
ghost use Rattle.msg_extract.specs.Canonical.Pieces.{body_pieces};
ghost use Rattle.msg_extract.specs.Catalogue.{all_listed, catalogue_of, find_listed, is_same_listed, listed};
ghost use Rattle.msg_extract.specs.Catalogue.{with_listed, with_name};
ghost use Rattle.msg_extract.specs.CatalogueText.{catalogue_data, listed_data, listed_items};
ghost use Rattle.msg_extract.specs.Extracts.{Adds, Extracts};
ghost use Rattle.msg_extract.specs.ListedIds.{HasIds};
ghost use Rattle.msg_extract.specs.Views.ViewMessages.{view_found};
ghost use Rattle.msg_extract.specs.Views.ViewNames.{HasNames};
ghost use Rattle.msg_extract.specs.Views.ViewPieces.{view_piece};

use crate::canonical::{id_of_text, text_of_pieces};
use crate::messages::messages_of;
use crate::name_key::NameKey;
use crate::names::{Names, names_of};
use crate::role_names::{NameKind, role_names};
use indexmap::IndexSet;
use serde_json::{Value, json};
use soy_base::{Code, Fault, OutOfMemory, Refusal, Row, Seq, Text};
use soy_tree::{Message, Tree};
use std::alloc::Global;

/// A message of a catalogue: its id, its description and meaning for a translator, its canonical text, and the names of
/// its placeholders, plurals and selects, each once in order of first appearance.
#[derive(Drop)]
pub struct Listed {
    pub id: Text,
    pub desc: Text,
    pub meaning: Text,
    pub text: Text,
    pub placeholders: Seq<Text>,
    pub plurals: Seq<Text>,
    pub selects: Seq<Text>,
}

/// The messages of files, the first of each id, in the order of the files and of their texts.
#[derive(Drop)]
pub struct Catalogue {
    pub messages: Seq<Listed>,
}

/// The rows of a catalogue so far, and their ids, by which one is found without a walk over the rows.
#[derive(Drop)]
struct Listing {
    rows: Row<Listed>,
    ids: IndexSet<NameKey>,
}

/// What a catalogue has of a message.
fn row_of(alloc: Global, message: &Message) -> Result<Listed, OutOfMemory>
    ensures { IfOk result (λ l. l ≡ listed (view_message message.now)) }
{
    let names = names_of(alloc, &message.body)?;
    let row = named_row(alloc, message, &names);
    drop(names);
    row
}

/// What a catalogue has of a message, by its pieces and their names.
fn named_row(alloc: Global, message: &Message, names: &Names<'_>) -> Result<Listed, OutOfMemory>
    requires pieces { map view_piece names.now.pieces ≡ body_pieces false (view_body message.now.body) }
    requires names { HasNames names.now }
    ensures { IfOk result (λ l. l ≡ listed (view_message message.now)) }
{
    let text = text_of_pieces(alloc, names)?;
    let id = id_of_text(alloc, &message.meaning, &text)?;
    let desc = message.desc.copy(alloc)?;
    let meaning = message.meaning.copy(alloc)?;
    let placeholders = role_names(alloc, names, NameKind::Placeholder)?;
    let plurals = role_names(alloc, names, NameKind::Plural)?;
    let selects = role_names(alloc, names, NameKind::Select)?;
    Ok(Listed {
        id,
        desc,
        meaning,
        text,
        placeholders,
        plurals,
        selects,
    })
}

/// Whether two messages have the same meaning and canonical text.
fn is_same(left: &Listed, right: &Listed) -> bool
    ensures { result ≡ is_same_listed left.now right.now }
{
    left.meaning.is(right.meaning.text()) && left.text.is(right.text.text())
}

/// The number of an id among those of the rows so far, which now have it too.
fn id_number(alloc: Global, ids: &mut IndexSet<NameKey>, id: &Text) -> Result<usize, OutOfMemory>
    ensures number { IfOk result (λ n. n ≡ position_or_len (bytes_eq id.now) ids.old.keys) }
    ensures added { OnOk result (ids.new.keys ≡ with_name ids.old.keys id.now) }
{
    let (number, _) = ids.insert_full(NameKey::new(id.copy(alloc)?))?;
    Ok(number)
}

/// Whether the row of a number is the same as this one, if there is one.
fn is_same_row(rows: &[Listed], number: usize, found: &Listed) -> Option<bool>
    ensures { result ≡ option_map (λ l. is_same_listed l found.now) (slice_get rows.now number) }
{
    match rows.get(number) {
        Some(row) => Some(is_same(row, found)),
        None => None,
    }
}

/// Whether the message that is listed under an id is the same as this one, if there is one. The ids have that of this
/// message then.
#[tactic(auto, using(crate::proofs::ListedIds::row_found))]
fn is_listed(
    alloc: Global,
    listing: &mut Listing,
    found: &Listed,
) -> Result<Option<bool>, OutOfMemory>
    requires { HasIds listing.old }
    ensures found { IfOk result (λ same. same ≡ option_map (λ l. is_same_listed l found.now)
        (find_listed found.now.id listing.old.rows)) }
    ensures rows { OnOk result (listing.new.rows ≡ listing.old.rows) }
    ensures ids { OnOk result (listing.new.ids.keys ≡ with_name (map (λ l. l.id) listing.old.rows) found.now.id) }
{
    let number = id_number(alloc, &mut listing.ids, &found.id)?;
    Ok(is_same_row(listing.rows.items(), number, found))
}

/// Adds a message of a file, unless it is listed.
#[tactic(auto, using(crate::proofs::ListedIds::new_row, crate::proofs::ListedIds::known_id))]
fn add(
    alloc: Global,
    listing: &mut Listing,
    file: u32,
    message: &Message,
) -> Result<(), Refusal<Fault>>
    requires { HasIds listing.old }
    ensures rows { Adds (with_listed listing.old.rows file (view_message message.now)) listing.new.rows result }
    ensures ids { OnOk result (HasIds listing.new) }
{
    let found = row_of(alloc, message)?;
    let listed = match is_listed(alloc, listing, &found) {
        Ok(listed) => listed,
        Err(_) => {
            drop(found);
            return Err(Refusal::OutOfMemory);
        }
    };
    match listed {
        None => Ok(listing.rows.push(found)?),
        Some(same) => {
            drop(found);
            if same {
                return Ok(());
            }
            Err(Refusal::Because(Fault {
                code: Code::IdClash,
                file,
                at: message.span.start,
            }))
        }
    }
}

/// Adds the messages of a file.
fn add_all(
    alloc: Global,
    listing: &mut Listing,
    file: u32,
    messages: &[&Message],
) -> Result<(), Refusal<Fault>>
    requires { HasIds listing.old }
    ensures rows { Adds (all_listed listing.old.rows file (map view_found messages.now)) listing.new.rows result }
    ensures ids { OnOk result (HasIds listing.new) }
{
    for message in messages {
        add(alloc, listing, file, message)?;
    }
    Ok(())
}

/// The catalogue of files, or the first message whose id is that of another: of two that differ in meaning or canonical
/// text, the second, at its `{`.
pub fn extract(alloc: Global, trees: &[Tree]) -> Result<Catalogue, Refusal<Fault>>
    requires { length trees.now < 2 ^ 32 }
    ensures { Extracts (catalogue_of (view_trees trees.now)) result }
{
    let mut listing = Listing {
        rows: Row::empty(alloc),
        ids: IndexSet::new(alloc),
    };
    let mut file = 0u32;
    for tree in trees {
        let messages = messages_of(alloc, tree)?;
        add_all(alloc, &mut listing, file, messages.items())?;
        file += 1;
    }
    Ok(Catalogue {
        messages: listing.rows.done(),
    })
}

/// A message of the catalogue as JSON.
fn listed_value(alloc: Global, listed: &Listed) -> Result<Value, OutOfMemory>
    ensures { IfOk result (λ v. view v ≡ listed_data listed.now) }
{
    Ok(json!(in alloc; {
        "desc": listed.desc.text(),
        "id": listed.id.text(),
        "meaning": listed.meaning.text(),
        "text": listed.text.text()
    })?)
}

/// The messages of a catalogue as JSON.
fn listed_values(alloc: Global, rows: &[Listed]) -> Result<Vec<Value>, OutOfMemory>
    ensures { IfOk result (λ values. items_view values.items ≡ listed_items rows.now) }
{
    let mut values = Vec::new(alloc);
    for row in rows {
        values.push(listed_value(alloc, row)?)?;
    }
    Ok(values)
}

/// A catalogue as JSON.
fn catalogue_value(alloc: Global, catalogue: &Catalogue) -> Result<Value, OutOfMemory>
    ensures { IfOk result (λ v. view v ≡ catalogue_data catalogue.now.messages) }
{
    let values = listed_values(alloc, catalogue.messages.items())?;
    Ok(json!(in alloc; {"messages": Value::Array(values)})?)
}

/// A catalogue as the compact text of JSON: under `messages` a list of objects with the members `desc`, `id`, `meaning`
/// and `text` in this order.
#[tactic(auto, using(crate::proofs::CatalogueData::no_float))]
pub fn write_catalogue(alloc: Global, catalogue: &Catalogue) -> Result<String, OutOfMemory>
    ensures { IfOk result (λ text. string_bytes text ≡ compact_text (catalogue_data catalogue.now.messages)) }
{
    let value = catalogue_value(alloc, catalogue)?;
    Ok(value.to_string(alloc)?)
}
