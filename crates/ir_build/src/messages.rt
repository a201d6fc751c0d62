//! The ops of a message: those of the text that the bundle chooses.

ghost use Rattle.std.specs.Prelude.{◌≡◌, ◌+◌, ◌++◌, map, OnOk};
ghost use Rattle.soy_pieces.specs.Pieces.{chosen_text};
ghost use Rattle.soy_rules.specs.Placeholders.{uses_of};
ghost use Rattle.soy_tree.specs.Nodes.{fallback, no_fallback};
ghost use Rattle.soy_tree.specs.ViewMessageParts.{view_parts};
ghost use Rattle.soy_tree.specs.ViewNodes.{view_message};
ghost use Rattle.msg_extract.specs.PlaceholderNodes.{placeholders_of};
ghost use Rattle.msg_extract.specs.Views.ViewPlaceholders.{view_placeholder};
ghost use Rattle.template_ir.specs.HoleCounts.{parts_holes};
ghost use Rattle.template_ir.specs.ViewOps.{view_ops};
ghost use Rattle.ir_build.specs.Chooses.{Chooses};
ghost use Rattle.ir_build.specs.Claims.{translation_stands};
ghost use Rattle.ir_build.specs.Laid.{Pushes, cut_output, view_output, with_holes};
ghost use Rattle.ir_build.specs.ViewScene.{translation_in};

use crate::output::Output;
use crate::parts::push_parts;
use crate::scene::Scene;
use crate::source::Source;
use msg_extract::{NamedMessage, NamedPlaceholders, Placeholder};
use soy_base::OutOfMemory;
use soy_tree::{Message, MsgPart};
use template_ir::Op;

/// Adds a translation of a message.
fn push_translation(
    scene: &Scene<'_>,
    out: &mut Output,
    own: &mut Vec<Op>,
    message: &NamedMessage<'_>,
    parts: &[MsgPart],
) -> Result<(), OutOfMemory>
    ensures { OnOk result (Pushes
        (translation_stands scene.now.places.now (view_message message.now) (view_parts parts.now))
        (parts_holes (uses_of (view_message message.now)) (view_parts parts.now)) (view_output out.old)
        (view_output out.new) (view_ops own.old.items) (view_ops own.new.items)) }
{
    let placeholders = message.placeholders(scene.alloc)?;
    let pushed = push_with_placeholders(scene, out, own, message, placeholders.items(), parts);
    drop(placeholders);
    pushed
}

/// Adds a translation of a message of these placeholders.
fn push_with_placeholders(
    scene: &Scene<'_>,
    out: &mut Output,
    own: &mut Vec<Op>,
    message: &NamedMessage<'_>,
    placeholders: &[Placeholder],
    parts: &[MsgPart],
) -> Result<(), OutOfMemory>
    requires { map view_placeholder placeholders.now ≡ placeholders_of (view_message message.now) }
    ensures { OnOk result (Pushes
        (translation_stands scene.now.places.now (view_message message.now) (view_parts parts.now))
        (parts_holes (uses_of (view_message message.now)) (view_parts parts.now)) (view_output out.old)
        (view_output out.new) (view_ops own.old.items) (view_ops own.new.items)) }
{
    let named = NamedPlaceholders::new(scene.alloc, placeholders)?;
    let pushed = push_with_names(scene, out, own, message, &named, parts);
    drop(named);
    pushed
}

/// Adds a translation of a message whose placeholders are found by their names.
fn push_with_names(
    scene: &Scene<'_>,
    out: &mut Output,
    own: &mut Vec<Op>,
    message: &NamedMessage<'_>,
    placeholders: &NamedPlaceholders<'_>,
    parts: &[MsgPart],
) -> Result<(), OutOfMemory>
    requires { map view_placeholder placeholders.now ≡ placeholders_of (view_message message.now) }
    ensures { OnOk result (Pushes
        (translation_stands scene.now.places.now (view_message message.now) (view_parts parts.now))
        (parts_holes (uses_of (view_message message.now)) (view_parts parts.now)) (view_output out.old)
        (view_output out.new) (view_ops own.old.items) (view_ops own.new.items)) }
{
    let selectors = message.selectors(scene.alloc)?;
    let source = Source {
        alloc: scene.alloc,
        message,
        placeholders,
        selectors: selectors.items(),
        places: scene.places,
    };
    let pushed = push_parts(&source, out, own, parts);
    drop(selectors);
    pushed
}

/// Passes the holes of a translation of a message by: its ops are made and dropped.
fn pass_translation(
    scene: &Scene<'_>,
    out: &mut Output,
    message: &NamedMessage<'_>,
    parts: &[MsgPart],
) -> Result<(), OutOfMemory>
    ensures { OnOk result (view_output out.new ≡ with_holes (view_output out.old)
        (parts_holes (uses_of (view_message message.now)) (view_parts parts.now))) }
{
    let old_length = out.ops.len();
    let mut unused = Vec::new(scene.alloc);
    push_translation(scene, out, &mut unused, message, parts)?;
    out.ops.truncate(old_length);
    Ok(())
}

/// Adds a message without a fallback, whose source is these ops, over blocks from the old length on. Where there is a
/// translation, that is added, and what was made of the source is dropped. A bundle without translations needs no names.
pub(crate) fn push_alone(
    scene: &Scene<'_>,
    out: &mut Output,
    own: &mut Vec<Op>,
    old_length: usize,
    source: Vec<Op>,
    message: &Message,
) -> Result<(), OutOfMemory>
    ensures { OnOk result (Chooses (translation_in scene.now) scene.now.places.now
        (chosen_text (translation_in scene.now) (view_message message.now) no_fallback) (view_message message.now)
        no_fallback (view_output out.old) (cut_output old_length out.old) (view_output out.new) (view_ops source.items)
        (view_ops own.old.items) (view_ops own.new.items)) }
{
    if scene.bundle.is_empty() {
        return push_all(own, source);
    }
    let named = NamedMessage::new(scene.alloc, message)?;
    push_named(scene, out, own, old_length, source, &named)
}

/// Adds a message with its names, without a fallback: its translation, or else its source.
fn push_named(
    scene: &Scene<'_>,
    out: &mut Output,
    own: &mut Vec<Op>,
    old_length: usize,
    source: Vec<Op>,
    message: &NamedMessage<'_>,
) -> Result<(), OutOfMemory>
    ensures { OnOk result (Chooses (translation_in scene.now) scene.now.places.now
        (chosen_text (translation_in scene.now) (view_message message.now) no_fallback) (view_message message.now)
        no_fallback (view_output out.old) (cut_output old_length out.old) (view_output out.new) (view_ops source.items)
        (view_ops own.old.items) (view_ops own.new.items)) }
{
    match scene.bundle.find(scene.alloc, message)? {
        None => push_all(own, source),
        Some(parts) => {
            out.ops.truncate(old_length);
            push_translation(scene, out, own, message, parts)
        }
    }
}

/// Adds a message with a fallback. Where there is a translation, the message's before the fallback's, that is added,
/// and what was made of the source is dropped.
pub(crate) fn push_either(
    scene: &Scene<'_>,
    out: &mut Output,
    own: &mut Vec<Op>,
    old_length: usize,
    source: Vec<Op>,
    message: &Message,
    other: &Message,
) -> Result<(), OutOfMemory>
    ensures { OnOk result (Chooses (translation_in scene.now) scene.now.places.now
        (chosen_text (translation_in scene.now) (view_message message.now) (fallback (view_message other.now)))
        (view_message message.now) (fallback (view_message other.now)) (view_output out.old)
        (cut_output old_length out.old) (view_output out.new) (view_ops source.items) (view_ops own.old.items)
        (view_ops own.new.items)) }
{
    if scene.bundle.is_empty() {
        return push_all(own, source);
    }
    let named = NamedMessage::new(scene.alloc, message)?;
    let named_other = NamedMessage::new(scene.alloc, other)?;
    push_named_either(scene, out, own, old_length, source, &named, &named_other)
}

/// Adds a message with a fallback, both with their names: the translation of the message, or else that of the fallback,
/// or else the source.
fn push_named_either(
    scene: &Scene<'_>,
    out: &mut Output,
    own: &mut Vec<Op>,
    old_length: usize,
    source: Vec<Op>,
    message: &NamedMessage<'_>,
    other: &NamedMessage<'_>,
) -> Result<(), OutOfMemory>
    ensures { OnOk result (Chooses (translation_in scene.now) scene.now.places.now
        (chosen_text (translation_in scene.now) (view_message message.now) (fallback (view_message other.now)))
        (view_message message.now) (fallback (view_message other.now)) (view_output out.old)
        (cut_output old_length out.old) (view_output out.new) (view_ops source.items) (view_ops own.old.items)
        (view_ops own.new.items)) }
{
    let parts = scene.bundle.find(scene.alloc, message)?;
    let other_parts = scene.bundle.find(scene.alloc, other)?;
    match (parts, other_parts) {
        (None, None) => push_all(own, source),
        (None, Some(other_parts)) => {
            out.ops.truncate(old_length);
            push_translation(scene, out, own, other, other_parts)
        }
        (Some(parts), None) => {
            out.ops.truncate(old_length);
            push_translation(scene, out, own, message, parts)
        }
        (Some(parts), Some(other_parts)) => {
            out.ops.truncate(old_length);
            push_translation(scene, out, own, message, parts)?;
            pass_translation(scene, out, other, other_parts)
        }
    }
}

/// Adds ops.
#[tactic(auto, using(crate::proofs::OpLists::map_append))]
fn push_all(own: &mut Vec<Op>, more: Vec<Op>) -> Result<(), OutOfMemory>
    ensures { OnOk result (view_ops own.new.items ≡ view_ops own.old.items ++ view_ops more.items) }
{
    let mut more = more;
    own.append(&mut more)?;
    Ok(())
}
