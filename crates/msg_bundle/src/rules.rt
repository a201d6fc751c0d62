//! The plural rules of a bundle.

ghost use Rattle.std.specs.Prelude.{◌≡◌, ◌++◌, IfOk, OnOk, option_map};
ghost use Rattle.serde_json.specs.View.{view};
ghost use Rattle.msg_bundle.specs.BundleRules.{ReadsRules, rule_texts, rule_under, rules_in, rules_under};

use crate::fault::{BundleFault, entry_fault};
use crate::form::{CATEGORIES, keyword};
use plural_rules::{Category, RuleRefusal, RuleText, Rules};
use serde_json::Value as Json;
use soy_base::{Code, OutOfMemory, Refusal};
use std::alloc::Global;

/// Adds the rule of a category, if there is one.
fn push_rule(
    alloc: Global,
    texts: &mut Vec<RuleText>,
    category: Category,
    text: Option<&str>,
) -> Result<(), OutOfMemory>
    ensures { OnOk result (texts.new.items
        ≡ texts.old.items ++ rule_under category (option_map (λ t. t.now) text.entry)) }
{
    match text {
        Some(text) => {
            let text = String::from_str(alloc, text)?;
            Ok(texts.push(RuleText { category, text })?)
        }
        None => Ok(()),
    }
}

/// The rules of an object under the keywords of these categories.
fn texts_under(
    alloc: Global,
    categories: &[Category],
    rules: &Json,
) -> Result<Vec<RuleText>, OutOfMemory>
    ensures { IfOk result (λ texts. texts.items ≡ rules_under categories.now (view rules.now)) }
{
    let mut texts = Vec::new(alloc);
    for category in categories {
        let text = rules.get(keyword(*category)).and_then(Json::as_str);
        push_rule(alloc, &mut texts, *category, text)?;
    }
    Ok(texts)
}

/// The rules that are given, if any are.
fn given_texts(alloc: Global, rules: Option<&Json>) -> Result<Vec<RuleText>, OutOfMemory>
    ensures { IfOk result (λ texts. texts.items ≡ rules_in (option_map (λ r. view r.now) rules.entry)) }
{
    match rules {
        Some(rules) => texts_under(alloc, &CATEGORIES, rules),
        None => Ok(Vec::new(alloc)),
    }
}

/// The rules of a bundle under a name, or its first text there that is no rule.
pub(crate) fn read_rules(
    alloc: Global,
    name: &str,
    json: &Json,
) -> Result<Rules, Refusal<BundleFault>>
    ensures { ReadsRules name.now (rule_texts name.now (view json.now)) result }
{
    let texts = given_texts(alloc, json.get(name))?;
    match Rules::parse(alloc, texts.as_slice()) {
        Ok(rules) => Ok(rules),
        Err(RuleRefusal::Because(fault)) => {
            Err(entry_fault(alloc, Code::Rule, name, keyword(fault.category)))
        }
        Err(RuleRefusal::OutOfMemory) => Err(Refusal::OutOfMemory),
    }
}
