//! Translations, and the bundle that brings them.

ghost use Rattle.std.specs.Prelude.{◌≡◌};
ghost use Rattle.soy_tree.specs.SourceBundle.{source_bundle};

use plural_rules::{Category, Rules};
use soy_base::{Dir, Seq, Text};
use std::alloc::Global;

/// A part of a translation.
#[derive(Drop)]
#[cycle(parts)]
pub enum MsgPart {
    Text(Text),
    Placeholder(Text),
    /// The number of the plural in whose arm it stands, `#`.
    Number,
    Plural(PluralPart),
    Select(SelectPart),
}

/// A plural or selectordinal of a translation.
#[derive(Drop)]
#[cycle(parts)]
pub struct PluralPart {
    pub ordinal: bool,
    pub name: Text,
    pub offset: u64,
    pub exact: Seq<ExactArm>,
    pub named: Seq<NamedArm>,
}

/// A select of a translation.
#[derive(Drop)]
#[cycle(parts)]
pub struct SelectPart {
    pub name: Text,
    pub arms: Seq<SelectArm>,
}

/// An arm of a plural for one number.
#[derive(Drop)]
#[cycle(parts)]
pub struct ExactArm {
    pub is: i64,
    pub parts: Seq<MsgPart>,
}

/// An arm of a plural for one category.
#[derive(Drop)]
#[cycle(parts)]
pub struct NamedArm {
    pub category: Category,
    pub parts: Seq<MsgPart>,
}

/// An arm of a select for one word.
#[derive(Drop)]
#[cycle(parts)]
pub struct SelectArm {
    pub is: Text,
    pub parts: Seq<MsgPart>,
}

/// The translation of the message of an id.
#[derive(Drop)]
pub struct Translation {
    pub id: Text,
    pub parts: Seq<MsgPart>,
}

/// Translations, with the direction and the plural rules of their language.
#[derive(Drop)]
pub struct Bundle {
    pub dir: Dir,
    pub plural: Rules,
    pub ordinal: Rules,
    pub messages: Seq<Translation>,
}

impl Bundle {
    /// The bundle of the source language: from left to right, without rules and without translations. Takes no memory.
    pub fn source(alloc: Global) -> Bundle
        ensures { result ≡ source_bundle }
    {
        Bundle {
            dir: Dir::Ltr,
            plural: Rules::none(alloc),
            ordinal: Rules::none(alloc),
            messages: Seq::new(Vec::new(alloc)),
        }
    }
}
