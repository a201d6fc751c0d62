//! A message with its names, made once for all that is asked of them.

ghost use Rattle.std.specs.Prelude.{◌≡◌, map, IfOk};
ghost use Rattle.soy_tree.specs.ViewNodes.{view_message};
ghost use Rattle.msg_extract.specs.MessageId.{id_of};
ghost use Rattle.msg_extract.specs.PlaceholderNodes.{placeholders_of};
ghost use Rattle.msg_extract.specs.SelectorRows.{selectors_of, view_selector};
ghost use Rattle.msg_extract.specs.Views.ViewPlaceholders.{view_placeholder};

use crate::canonical::{id_of_text, text_of_pieces};
use crate::names::{Names, names_of};
use crate::placeholder::{Placeholder, placeholders_of};
use crate::selector::{Selector, selectors_among};
use soy_base::{OutOfMemory, Seq, Text};
use soy_tree::Message;
use std::alloc::Global;
use std::marker::Model;

/// A message with the names of its placeholders and selectors, which contracts see as the message. Its id, its
/// placeholders and its selectors come of the same names, which take most of the work.
#[derive(Drop)]
pub struct NamedMessage<'m> {
    message: &'m Message,
    names: Names<'m>,
}

impl<'m> Model for NamedMessage<'m> {
    ghost use Rattle.soy_tree.specs.declared.node.Message.{Message};
    ghost use Rattle.std.specs.Coded.{codes};
    ghost use Rattle.soy_tree.specs.contracts.node.Message as code;
    ghost use Rattle.msg_extract.specs.Views.ViewNames.{AreNamesOf};

    ghost Value = { Message };

    ghost coded = { Prim.hlevel (codes, code.the_row.coded) };

    ghost view = { λ s. s.message.now };

    ghost invariant = { λ s. AreNamesOf s.names s.message.now };
}

impl<'m> NamedMessage<'m> {
    /// This message.
    pub fn new(alloc: Global, message: &'m Message) -> Result<NamedMessage<'m>, OutOfMemory>
        ensures { IfOk result (λ named. named ≡ message.now) }
    {
        let names = names_of(alloc, &message.body)?;
        Ok(NamedMessage { message, names })
    }

    /// The id: sixteen hexadecimal digits, from the message's meaning and its canonical text.
    pub fn id(&self, alloc: Global) -> Result<Text, OutOfMemory>
        ensures { IfOk result (λ id. id ≡ id_of (view_message self.now)) }
    {
        let text = text_of_pieces(alloc, &self.names)?;
        id_of_text(alloc, &self.message.meaning, &text)
    }

    /// The placeholders, each once, in order of first appearance.
    pub fn placeholders(&self, alloc: Global) -> Result<Seq<Placeholder>, OutOfMemory>
        ensures { IfOk result (λ rows. map view_placeholder rows ≡ placeholders_of (view_message self.now)) }
    {
        placeholders_of(alloc, &self.names)
    }

    /// The selectors of plurals and selects, in the order of the message's text.
    pub fn selectors(&self, alloc: Global) -> Result<Seq<Selector>, OutOfMemory>
        ensures { IfOk result (λ rows. map view_selector rows ≡ selectors_of (view_message self.now)) }
    {
        selectors_among(alloc, &self.names)
    }
}

/// The id of a message: sixteen hexadecimal digits, from its meaning and its canonical text.
pub fn message_id(alloc: Global, message: &Message) -> Result<Text, OutOfMemory>
    ensures { IfOk result (λ id. id ≡ id_of (view_message message.now)) }
{
    let named = NamedMessage::new(alloc, message)?;
    named.id(alloc)
}

/// The placeholders of a message, each once, in order of first appearance.
pub fn placeholders(alloc: Global, message: &Message) -> Result<Seq<Placeholder>, OutOfMemory>
    ensures { IfOk result (λ rows. map view_placeholder rows ≡ placeholders_of (view_message message.now)) }
{
    let named = NamedMessage::new(alloc, message)?;
    named.placeholders(alloc)
}
