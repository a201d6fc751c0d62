//! The translations of a bundle, by the ids of their messages.

ghost use Rattle.std.specs.Prelude.{◌≡◌, ◌==◌, length, option_map, slice_get, map, IfOk};
ghost use Rattle.soy_tree.specs.ViewMessageParts.{view_parts};
ghost use Rattle.soy_tree.specs.ViewNodes.{view_message};
ghost use Rattle.msg_extract.specs.Translations.{ids_of, parts_of, translation_of};
ghost use Rattle.msg_extract.specs.MessageId.{id_of};

use crate::named_message::NamedMessage;
use soy_base::{OutOfMemory, Text};
use soy_rules::Names;
use soy_tree::{Bundle, MsgPart, Translation};
use std::alloc::Global;
use std::marker::Model;

/// A bundle, which contracts see as itself. The first translation of an id is found without a walk over all.
#[derive(Drop)]
pub struct Translations<'b> {
    bundle: &'b Bundle,
    ids: Names<'b>,
}

impl<'b> Model for Translations<'b> {
    ghost use Rattle.std.specs.Prelude.{◌≡◌};
    ghost use Rattle.soy_tree.specs.declared.bundle.Bundle.{Bundle};
    ghost use Rattle.msg_extract.specs.Translations.{ids_of};
    ghost use Rattle.std.specs.Coded.{codes};
    ghost use Rattle.soy_tree.specs.contracts.bundle.MsgPart as msg_part;

    ghost Value = { Bundle };

    ghost coded = { Prim.hlevel (codes, msg_part.the_row.coded) };

    ghost view = { λ s. s.bundle.now };

    ghost invariant = { λ s. s.ids ≡ ids_of s.bundle.now.messages };
}

impl<'b> Translations<'b> {
    /// Those of a bundle.
    pub fn new(alloc: Global, bundle: &'b Bundle) -> Result<Translations<'b>, OutOfMemory>
        ensures { IfOk result (λ all. all ≡ bundle.now) }
    {
        let ids = Names::new(alloc, all_ids(alloc, bundle.messages.items())?)?;
        Ok(Translations { bundle, ids })
    }

    /// Whether the bundle has no translation, so that a message need not be named.
    pub fn is_empty(&self) -> bool
        ensures { result ≡ (length self.now.messages == 0) }
    {
        self.bundle.messages.items().is_empty()
    }

    /// The parts of the translation that the bundle has for a message, if it has one.
    pub fn find(
        &self,
        alloc: Global,
        message: &NamedMessage<'_>,
    ) -> Result<Option<&'b [MsgPart]>, OutOfMemory>
        ensures { IfOk result (λ found. option_map (λ parts. view_parts parts.now) found
            ≡ translation_of self.now.messages (id_of (view_message message.now))) }
    {
        if self.bundle.messages.items().is_empty() {
            return Ok(None);
        }
        let id = message.id(alloc)?;
        Ok(self.parts(&id))
    }

    /// The parts of the translation of an id, of several the first.
    fn parts(&self, id: &Text) -> Option<&'b [MsgPart]>
        ensures { option_map (λ parts. view_parts parts.now) result ≡ translation_of self.now.messages id.now }
    {
        match self.ids.number(id) {
            Some(number) => parts_at(self.bundle.messages.items(), number),
            None => None,
        }
    }
}

/// The ids of translations.
fn all_ids<'b>(alloc: Global, messages: &'b [Translation]) -> Result<Vec<&'b Text>, OutOfMemory>
    ensures { IfOk result (λ ids. map (λ id. id.now) ids.items ≡ ids_of messages.now) }
{
    let mut ids = Vec::new(alloc);
    for translation in messages {
        ids.push(&translation.id)?;
    }
    Ok(ids)
}

/// The parts of the translation of a number.
fn parts_at<'b>(messages: &'b [Translation], number: usize) -> Option<&'b [MsgPart]>
    ensures { option_map (λ parts. view_parts parts.now) result ≡ option_map parts_of (slice_get messages.now number) }
{
    match messages.get(number) {
        Some(translation) => Some(translation.parts.items()),
        None => None,
    }
}
