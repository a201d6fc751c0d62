//! What a translation names.

ghost use Rattle.std.specs.Prelude.{◌≡◌, map};
ghost use Rattle.soy_base.specs.Among.{is_among};
ghost use Rattle.soy_tree.specs.ViewMessageParts.{exact_arms_of, named_arms_of, select_arms_of, view_exact, view_named};
ghost use Rattle.soy_tree.specs.ViewMessageParts.{view_part, view_parts, view_select_arm};
ghost use Rattle.msg_extract.specs.Fits as fits;
ghost use Rattle.msg_extract.specs.Fits.{unless_among};

use crate::nameable::Nameable;
use soy_base::{Code, Text};
use soy_tree::{ExactArm, MsgPart, NamedArm, SelectArm};

fn is_among(names: &[Text], name: &Text) -> bool
    ensures { result ≡ is_among names.now name.now }
{
    for other in names {
        if name.is(other.text()) {
            return true;
        }
    }
    false
}

/// A fault, unless the name is among these.
pub(crate) fn unless_among(names: &[Text], name: &Text, fault: Code) -> Option<Code>
    ensures { result ≡ unless_among names.now name.now fault }
{
    if is_among(names, name) {
        None
    } else {
        Some(fault)
    }
}

/// The first refusal of what parts name that their message lacks.
#[cycle(names)]
pub(crate) fn parts_fault(source: &Nameable<'_>, parts: &[MsgPart]) -> Option<Code>
    ensures { result ≡ fits.parts_fault source.now (view_parts parts.now) }
{
    for part in parts {
        if let Some(code) = part_fault(source, part) {
            return Some(code);
        }
    }
    None
}

#[cycle(names)]
fn part_fault(source: &Nameable<'_>, part: &MsgPart) -> Option<Code>
    ensures { result ≡ fits.part_fault source.now (view_part part.now) }
{
    match part {
        MsgPart::Text(_) => None,
        MsgPart::Placeholder(name) => source.placeholder_fault(name),
        MsgPart::Number => None,
        MsgPart::Plural(plural) => {
            match unless_among(source.row().plurals.items(), &plural.name, Code::Selector) {
                Some(code) => Some(code),
                None => match exact_fault(source, plural.exact.items()) {
                    Some(code) => Some(code),
                    None => named_fault(source, plural.named.items()),
                },
            }
        }
        MsgPart::Select(select) => {
            match unless_among(source.row().selects.items(), &select.name, Code::Selector) {
                Some(code) => Some(code),
                None => select_fault(source, select.arms.items()),
            }
        }
    }
}

#[cycle(names)]
fn exact_fault(source: &Nameable<'_>, arms: &[ExactArm]) -> Option<Code>
    ensures { result ≡ fits.exact_fault source.now (exact_arms_of (map view_exact arms.now)) }
{
    for arm in arms {
        if let Some(code) = parts_fault(source, arm.parts.items()) {
            return Some(code);
        }
    }
    None
}

#[cycle(names)]
fn named_fault(source: &Nameable<'_>, arms: &[NamedArm]) -> Option<Code>
    ensures { result ≡ fits.named_fault source.now (named_arms_of (map view_named arms.now)) }
{
    for arm in arms {
        if let Some(code) = parts_fault(source, arm.parts.items()) {
            return Some(code);
        }
    }
    None
}

#[cycle(names)]
fn select_fault(source: &Nameable<'_>, arms: &[SelectArm]) -> Option<Code>
    ensures { result ≡ fits.select_fault source.now (select_arms_of (map view_select_arm arms.now)) }
{
    for arm in arms {
        if let Some(code) = parts_fault(source, arm.parts.items()) {
            return Some(code);
        }
    }
    None
}
