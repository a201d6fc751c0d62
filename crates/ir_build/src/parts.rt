//! The ops of a translation's parts.

ghost use Rattle.std.specs.Prelude.{◌≡◌, ◌++◌, true, false, map, IfOk, OnOk};
ghost use Rattle.soy_pieces.specs.Branch.{selector};
ghost use Rattle.soy_tree.specs.ViewMessageParts.{exact_arms_of, named_arms_of, select_arms_of};
ghost use Rattle.soy_tree.specs.ViewMessageParts.{view_exact, view_named, view_part, view_parts, view_select_arm};
ghost use Rattle.template_ir.specs.HoleCounts.{exact_holes, named_holes, part_holes, parts_holes, word_holes};
ghost use Rattle.template_ir.specs.ViewOps.{view_ops};
ghost use Rattle.ir_build.specs.Claims.{exact_stand, named_stand, part_stands, parts_stand, selected_ops, source_uses};
ghost use Rattle.ir_build.specs.Claims.{words_stand};
ghost use Rattle.ir_build.specs.HasNames.{HasNames};
ghost use Rattle.ir_build.specs.Laid.{Lays, Pushes, view_output};
ghost use Rattle.ir_build.specs.Rows.{plural_op, select_op};

use crate::commands::{push_named, push_number, push_plural, push_select, push_text, push_word};
use crate::output::Output;
use crate::placeholders::{push_placeholder, selector_of};
use crate::source::Source;
use soy_base::{OutOfMemory, Seq, Text};
use soy_tree::{ExactArm, MsgPart, NamedArm, SelectArm};
use template_ir::{ExactBlock, NamedBlock, Op, WordBlock};

/// Adds parts.
#[cycle(parts)]
pub(crate) fn push_parts(
    source: &Source<'_>,
    out: &mut Output,
    own: &mut Vec<Op>,
    parts: &[MsgPart],
) -> Result<(), OutOfMemory>
    requires { HasNames source.now }
    ensures { OnOk result (Pushes (parts_stand source.now (view_parts parts.now))
        (parts_holes (source_uses source.now) (view_parts parts.now)) (view_output out.old) (view_output out.new)
        (view_ops own.old.items) (view_ops own.new.items)) }
{
    for part in parts {
        push_part(source, out, own, part)?;
    }
    Ok(())
}

/// Adds a part.
#[cycle(parts)]
fn push_part(
    source: &Source<'_>,
    out: &mut Output,
    own: &mut Vec<Op>,
    part: &MsgPart,
) -> Result<(), OutOfMemory>
    requires { HasNames source.now }
    ensures { OnOk result (Pushes (part_stands source.now (view_part part.now))
        (part_holes (source_uses source.now) (view_part part.now)) (view_output out.old) (view_output out.new)
        (view_ops own.old.items) (view_ops own.new.items)) }
{
    match part {
        MsgPart::Text(text) => push_text(source.alloc, own, text),
        MsgPart::Placeholder(name) => push_placeholder(source, out, own, name),
        MsgPart::Number => push_number(source.places, out, own),
        MsgPart::Plural(plural) => {
            let exact = exact_blocks(source, out, plural.exact.items())?;
            let named = named_blocks(source, out, plural.named.items())?;
            push_plural_part(
                source,
                own,
                &plural.name,
                plural.offset,
                plural.ordinal,
                exact,
                named,
            )
        }
        MsgPart::Select(select) => {
            let arms = word_blocks(source, out, select.arms.items())?;
            push_select_part(source, own, &select.name, arms)
        }
    }
}

/// The arms for single numbers.
#[cycle(parts)]
fn exact_blocks(
    source: &Source<'_>,
    out: &mut Output,
    arms: &[ExactArm],
) -> Result<Vec<ExactBlock>, OutOfMemory>
    requires { HasNames source.now }
    ensures { IfOk result (λ blocks. Lays
        (exact_stand source.now (exact_arms_of (map view_exact arms.now)) blocks.items)
        (exact_holes (source_uses source.now) (exact_arms_of (map view_exact arms.now)))
        (view_output out.old) (view_output out.new)) }
{
    let mut blocks = Vec::new(source.alloc);
    for arm in arms {
        let mut inner = Vec::new(source.alloc);
        push_parts(source, out, &mut inner, arm.parts.items())?;
        let body = out.lay(inner)?;
        blocks.push(ExactBlock { is: arm.is, body })?;
    }
    Ok(blocks)
}

/// The arms for categories.
#[cycle(parts)]
fn named_blocks(
    source: &Source<'_>,
    out: &mut Output,
    arms: &[NamedArm],
) -> Result<Vec<NamedBlock>, OutOfMemory>
    requires { HasNames source.now }
    ensures { IfOk result (λ blocks. Lays
        (named_stand source.now (named_arms_of (map view_named arms.now)) blocks.items)
        (named_holes (source_uses source.now) (named_arms_of (map view_named arms.now)))
        (view_output out.old) (view_output out.new)) }
{
    let mut blocks = Vec::new(source.alloc);
    for arm in arms {
        let mut body = Vec::new(source.alloc);
        push_parts(source, out, &mut body, arm.parts.items())?;
        push_named(out, &mut blocks, arm.category, body)?;
    }
    Ok(blocks)
}

/// The arms for words.
#[cycle(parts)]
fn word_blocks(
    source: &Source<'_>,
    out: &mut Output,
    arms: &[SelectArm],
) -> Result<Vec<WordBlock>, OutOfMemory>
    requires { HasNames source.now }
    ensures { IfOk result (λ blocks. Lays
        (words_stand source.now (select_arms_of (map view_select_arm arms.now)) blocks.items)
        (word_holes (source_uses source.now) (select_arms_of (map view_select_arm arms.now)))
        (view_output out.old) (view_output out.new)) }
{
    let mut blocks = Vec::new(source.alloc);
    for arm in arms {
        let mut body = Vec::new(source.alloc);
        push_parts(source, out, &mut body, arm.parts.items())?;
        push_word(source.alloc, out, &mut blocks, &arm.is, body)?;
    }
    Ok(blocks)
}

/// Adds a plural of these arms, unless its selector has no name in the message.
fn push_plural_part(
    source: &Source<'_>,
    own: &mut Vec<Op>,
    name: &Text,
    offset: u64,
    ordinal: bool,
    exact: Vec<ExactBlock>,
    named: Vec<NamedBlock>,
) -> Result<(), OutOfMemory>
    requires { HasNames source.now }
    ensures { OnOk result (view_ops own.new.items ≡ view_ops own.old.items
        ++ selected_ops (selector true name.now (source_uses source.now) (source_uses source.now))
        (λ e. plural_op e offset ordinal exact.items named.items)) }
{
    match selector_of(source, true, name) {
        None => Ok(()),
        Some(number) => push_plural(
            source.alloc,
            own,
            number,
            offset,
            ordinal,
            Seq::new(exact),
            Seq::new(named),
        ),
    }
}

/// Adds a select of these arms, unless its selector has no name in the message.
fn push_select_part(
    source: &Source<'_>,
    own: &mut Vec<Op>,
    name: &Text,
    arms: Vec<WordBlock>,
) -> Result<(), OutOfMemory>
    requires { HasNames source.now }
    ensures { OnOk result (view_ops own.new.items ≡ view_ops own.old.items
        ++ selected_ops (selector false name.now (source_uses source.now) (source_uses source.now))
        (λ e. select_op e arms.items)) }
{
    match selector_of(source, false, name) {
        None => Ok(()),
        Some(word) => push_select(source.alloc, own, word, Seq::new(arms)),
    }
}
