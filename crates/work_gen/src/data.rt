//! The data: items that are drawn, as JSON.
ghost use Rattle.std.specs.Prelude.{◌≡◌, ◌<◌, length, map, IfOk, OnOk, encode_utf8_all};
ghost use Rattle.std.specs.Str.{chars};
ghost use Rattle.std.specs.String.{string_bytes};
ghost use Rattle.soy_base.specs.Appends.{Appends};
ghost use Rattle.work_gen.specs.Draws.{state_after};
ghost use Rattle.work_gen.specs.Data.{comma_after, data_json, item_from, item_json, items_from, items_json};
ghost use Rattle.work_gen.specs.Data.{links, text_at, words};

use crate::draws::Draws;
use soy_base::{OutOfMemory, push_char, push_text};
use std::alloc::Global;

static WORDS: [&str; 8] = [
    "tea",
    "Käse",
    "\u{5e9}\u{5dc}\u{5d5}\u{5dd}",
    "\u{633}\u{644}\u{627}\u{645}",
    "a<b",
    "R&D",
    "x y",
    "",
];

static LINKS: [&str; 4] = [
    "/a",
    "https://e.example/?q=1&r=2",
    "mailto:a@e.example",
    "javascript:1",
];

/// The text with a number, below their length.
fn text_at(texts: &[&'static str], index: u64) -> &'static str
    requires { index < length texts.now }
    ensures { result.now ≡ text_at (map (λ text. text.now) texts.now) index }
{
    texts[index as usize]
}

/// The word of a number below 8.
fn word(index: u64) -> &'static str
    requires { index < 8 }
    ensures { result.now ≡ encode_utf8_all (text_at words index) }
{
    text_at(&WORDS, index)
}

/// The link of a number below 4.
fn link(index: u64) -> &'static str
    requires { index < 4 }
    ensures { result.now ≡ encode_utf8_all (text_at links index) }
{
    text_at(&LINKS, index)
}

/// Draws an item and adds it as an object. No text of it has a character that a string of JSON escapes.
fn push_item(out: &mut String, draws: &mut Draws) -> Result<(), OutOfMemory>
    ensures ok { OnOk result (Appends out.old out.new (item_json (item_from draws.old.state))) }
    ensures state { draws.new.state ≡ state_after 5 draws.old.state }
{
    let who = word(draws.pick(8));
    let first = word(draws.pick(8));
    let second = word(draws.pick(8));
    let link = link(draws.pick(4));
    let n = draws.pick(200);
    write!(
        out,
        "{{\"link\":\"{link}\",\"n\":{n},\"text\":\"{first} {second}\",\"who\":\"{who}\"}}"
    )?;
    Ok(())
}

/// Adds a comma, unless no item was added before.
fn push_comma(out: &mut String, before: u32) -> Result<(), OutOfMemory>
    ensures { OnOk result (Appends out.old out.new (comma_after before)) }
{
    if before == 0 {
        return Ok(());
    }
    push_char(out, ',')
}

/// Adds so many drawn items, with a comma between two.
fn push_items(out: &mut String, count: u32, draws: &mut Draws) -> Result<(), OutOfMemory>
    ensures { OnOk result (Appends out.old out.new (items_json 0 (items_from count draws.old.state))) }
{
    for before in 0..count {
        push_comma(out, before)?;
        push_item(out, draws)?;
    }
    Ok(())
}

/// The data of a number, with so many items.
pub(crate) fn data_json(alloc: Global, count: u32, number: u32) -> Result<String, OutOfMemory>
    ensures { IfOk result (λ json. chars (string_bytes json) ≡ data_json count number) }
{
    let mut draws = Draws::new(number);
    let mut json = String::new(alloc);
    push_text(&mut json, "{\"items\":[")?;
    push_items(&mut json, count, &mut draws)?;
    push_text(&mut json, "]}")?;
    Ok(json)
}
