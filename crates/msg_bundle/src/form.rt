//! The form of a bundle as JSON.

ghost use Rattle.std.specs.Prelude.{◌≡◌, ◌&&◌, IfOk, option_map, false, true};
ghost use Rattle.serde_json.specs.View.{members_view, view};
ghost use Rattle.soy_rules.specs.IcuText.{keyword};
ghost use Rattle.msg_bundle.specs.BundleForm as form;
ghost use Rattle.msg_bundle.specs.BundleForm.{ReadsForm, direction_of_text, is_key, is_string};

use crate::fault::{BundleFault, Path, entry_path, member_path};
use plural_rules::Category;
use serde_json::{Map, Value as Json};
use soy_base::{Code, Dir, OutOfMemory, Refusal, Seq};
use std::alloc::Global;

/// The categories, in the order in which their rules are asked.
pub(crate) const CATEGORIES: [Category; 6] = [
    Category::Zero,
    Category::One,
    Category::Two,
    Category::Few,
    Category::Many,
    Category::Other,
];

/// The keyword of a category.
pub(crate) fn keyword(category: Category) -> &'static str
    ensures { result.now ≡ keyword category }
{
    match category {
        Category::Zero => "zero",
        Category::One => "one",
        Category::Two => "two",
        Category::Few => "few",
        Category::Many => "many",
        Category::Other => "other",
    }
}

fn is_keyword(key: &str) -> bool
    ensures { result ≡ form.is_keyword key.now }
{
    CATEGORIES.iter().any(|category| key == keyword(*category))
}

fn named_direction(text: &str) -> Option<Dir>
    ensures { result ≡ direction_of_text text.now }
{
    if text == "ltr" {
        Some(Dir::Ltr)
    } else if text == "rtl" {
        Some(Dir::Rtl)
    } else {
        None
    }
}

/// The direction of a bundle, if it has one.
fn direction_of(json: &Json) -> Option<Dir>
    ensures { result ≡ form.direction_of (view json.now) }
{
    named_direction(json.get("dir").and_then(Json::as_str)?)
}

/// Whether an entry is a string under a key that may stand there.
fn is_entry(only_keywords: bool, key: &str, entry: &Json) -> bool
    ensures { result ≡ (is_key only_keywords key.now && is_string (view entry.now)) }
{
    (!only_keywords || is_keyword(key)) && entry.is_string()
}

/// The first entry of an object that is no string or has another key than a keyword, where only these may stand.
fn entries_fault(
    alloc: Global,
    only_keywords: bool,
    name: &str,
    entries: &Map<String, Json>,
) -> Result<Option<Path>, OutOfMemory>
    ensures { IfOk result (λ fault. fault
        ≡ form.entries_fault only_keywords name.now (members_view entries.now.entries)) }
{
    for (key, entry) in entries.iter() {
        if !is_entry(only_keywords, key.as_str(), entry) {
            return Ok(Some(entry_path(alloc, name, key.as_str())?));
        }
    }
    Ok(None)
}

/// The fault of what is to be an object of strings.
fn object_fault(
    alloc: Global,
    only_keywords: bool,
    name: &str,
    object: Option<&Map<String, Json>>,
) -> Result<Option<Path>, OutOfMemory>
    ensures { IfOk result (λ fault. fault
        ≡ form.object_fault only_keywords name.now (option_map (λ m. members_view m.now.entries) object.entry)) }
{
    match object {
        Some(entries) => entries_fault(alloc, only_keywords, name, entries),
        None => Ok(Some(member_path(alloc, name)?)),
    }
}

/// The fault of rules, which may be left out.
fn rules_fault(alloc: Global, name: &str, rules: Option<&Json>) -> Result<Option<Path>, OutOfMemory>
    ensures { IfOk result (λ fault. fault ≡ form.rules_fault name.now (option_map (λ r. view r.now) rules.entry)) }
{
    match rules {
        Some(rules) => object_fault(alloc, true, name, rules.as_object()),
        None => Ok(None),
    }
}

/// The fault of a locale, which may be left out.
fn locale_fault(alloc: Global, locale: Option<&Json>) -> Result<Option<Path>, OutOfMemory>
    ensures { IfOk result (λ fault. fault ≡ form.locale_fault (option_map (λ l. view l.now) locale.entry)) }
{
    match locale {
        Some(locale) if !locale.is_string() => Ok(Some(member_path(alloc, "locale")?)),
        _ => Ok(None),
    }
}

/// The fault of the rules of a bundle, or else of its messages.
fn object_members_fault(alloc: Global, json: &Json) -> Result<Option<Path>, OutOfMemory>
    ensures { IfOk result (λ fault. fault ≡ form.object_members_fault (view json.now)) }
{
    if let Some(fault) = rules_fault(alloc, "plural", json.get("plural"))? {
        return Ok(Some(fault));
    }
    if let Some(fault) = rules_fault(alloc, "ordinal", json.get("ordinal"))? {
        return Ok(Some(fault));
    }
    object_fault(
        alloc,
        false,
        "messages",
        json.get("messages").and_then(Json::as_object),
    )
}

/// The first member of a bundle that is missing or of another form, or the first such entry of one.
fn members_fault(alloc: Global, json: &Json) -> Result<Option<Path>, OutOfMemory>
    ensures { IfOk result (λ fault. fault ≡ form.members_fault (view json.now)) }
{
    if direction_of(json).is_none() {
        return Ok(Some(member_path(alloc, "dir")?));
    }
    if let Some(fault) = locale_fault(alloc, json.get("locale"))? {
        return Ok(Some(fault));
    }
    object_members_fault(alloc, json)
}

/// The path to the first part of a bundle that hasn't its form.
fn form_fault(alloc: Global, json: &Json) -> Result<Option<Path>, OutOfMemory>
    ensures { IfOk result (λ fault. fault ≡ form.form_fault (view json.now)) }
{
    if json.is_object() {
        members_fault(alloc, json)
    } else {
        Ok(Some(Seq::new(Vec::new(alloc))))
    }
}

/// The direction of a bundle that has its form, or the first fault of the form.
pub(crate) fn read_form(alloc: Global, json: &Json) -> Result<Dir, Refusal<BundleFault>>
    ensures { ReadsForm (view json.now) result }
{
    match form_fault(alloc, json)? {
        Some(path) => Err(Refusal::Because(BundleFault {
            code: Code::Bundle,
            path,
        })),
        None => match direction_of(json) {
            Some(direction) => Ok(direction),
            None => unreachable!(),
        },
    }
}
