//! After the head of a command: its attributes, and its end.

ghost use Rattle.std.specs.Prelude.{◌≡◌, IfOk, None, if◌then◌else◌};
ghost use Rattle.soy_parser.specs.CommandTerminals.{command_terminal_of};
ghost use Rattle.soy_parser.specs.FileSteps.{attributes_step, ended_command, head_done, if_equals, stands};
ghost use Rattle.soy_parser.specs.FileSteps.{value_step, with_value};
ghost use Rattle.soy_parser.specs.Heads.{allows, form_at, no_attributes, with_attribute};
ghost use Rattle.soy_parser.specs.Reached.{reached};
ghost use Rattle.soy_parser.specs.declared.attributes.Attributes.{Attributes};
ghost use Rattle.soy_parser.specs.declared.head.Head.TheVariants as head;
ghost use Rattle.soy_parser.specs.declared.spot.Spot.TheVariants as spot;

use crate::attributes::{AttributeName, Attributes};
use crate::command::CommandForm;
use crate::files::{ended_command, stands, stands_if, takes};
use crate::head::Head;
use crate::held::{Held, attribute_added};
use crate::nodes::joined;
use crate::spot::{CommandSpot, FileState, Spot};
use crate::terminal::CommandTerminal;
use soy_base::{OutOfMemory, Span, Text};
use soy_lexer::Token;
use std::alloc::Global;

/// After what a command says that has no attributes.
pub(crate) fn form_done(
    alloc: Global,
    file: &mut FileState,
    from: Span,
    form: CommandForm,
    token: &Token,
) -> Result<bool, OutOfMemory>
    ensures { IfOk result (λ on. reached on file.new ≡ head_done file.old.commands from (head.Whole form) token.now) }
{
    match CommandTerminal::of(token) {
        CommandTerminal::End => takes(alloc, file, form, joined(from, token.span)),
        _ => head_done(alloc, file, from, Head::Whole(form), token),
    }
}

/// After a head, before any attribute.
#[inline(never)]
pub(crate) fn head_done(
    alloc: Global,
    file: &mut FileState,
    from: Span,
    head: Head,
    token: &Token,
) -> Result<bool, OutOfMemory>
    ensures { IfOk result (λ on. reached on file.new ≡ head_done file.old.commands from head token.now) }
{
    match AttributeName::of(CommandTerminal::of(token)) {
        Some(name) => first_attribute(alloc, file, from, head, name),
        None => ends(alloc, file, from, head, Attributes::none(), token),
    }
}

/// The first attribute, if it is allowed.
#[inline(never)]
fn first_attribute(
    alloc: Global,
    file: &mut FileState,
    from: Span,
    head: Head,
    name: AttributeName,
) -> Result<bool, OutOfMemory>
    ensures { IfOk result (λ on. reached on file.new ≡ (if allows head no_attributes name then stands
        file.old.commands from (spot.Equals head no_attributes name) else None)) }
{
    let head = Held::new(alloc, head)?;
    let attributes = Held::new(alloc, Attributes::none())?;
    Ok(attribute(file, from, head, attributes, name))
}

/// Another attribute, or the end of the command.
#[inline(never)]
pub(crate) fn attributes_go_on(
    alloc: Global,
    file: &mut FileState,
    from: Span,
    head: Held<Head>,
    attributes: Held<Attributes>,
    token: &Token,
) -> Result<bool, OutOfMemory>
    ensures { IfOk result (λ on. reached on file.new ≡
        attributes_step file.old.commands from head attributes token.now) }
{
    match AttributeName::of(CommandTerminal::of(token)) {
        Some(name) => Ok(attribute(file, from, head, attributes, name)),
        None => match head.taken() {
            Head::Whole(form) => {
                drop(attributes);
                whole_ends(alloc, file, from, form, token)
            }
            head => ends(alloc, file, from, head, attributes.taken(), token),
        },
    }
}

/// The end of a command that has no attributes, if it may end so.
#[inline(never)]
fn whole_ends(
    alloc: Global,
    file: &mut FileState,
    from: Span,
    form: CommandForm,
    token: &Token,
) -> Result<bool, OutOfMemory>
    ensures { (attributes : Attributes) → IfOk result (λ on. reached on file.new ≡ ended_command file.old.commands from
        (form_at (head.Whole form) attributes (command_terminal_of token.now)) token.now) }
{
    match CommandTerminal::of(token) {
        CommandTerminal::End => takes(alloc, file, form, joined(from, token.span)),
        CommandTerminal::SlashEnd => {
            drop(form);
            Ok(false)
        }
        _ => {
            drop(form);
            Ok(false)
        }
    }
}

/// The end of a command, if it may end so.
#[inline(never)]
fn ends(
    alloc: Global,
    file: &mut FileState,
    from: Span,
    head: Head,
    attributes: Attributes,
    token: &Token,
) -> Result<bool, OutOfMemory>
    ensures { IfOk result (λ on. reached on file.new ≡ ended_command file.old.commands from
        (form_at head attributes (command_terminal_of token.now)) token.now) }
{
    let mut attributes = attributes;
    let form = head.form(alloc, &mut attributes, CommandTerminal::of(token));
    ended_command(alloc, file, from, form, token)
}

/// Another attribute, if it is allowed.
fn attribute(
    file: &mut FileState,
    from: Span,
    head: Held<Head>,
    attributes: Held<Attributes>,
    name: AttributeName,
) -> bool
    ensures { reached result file.new ≡ (if allows head attributes name then stands file.old.commands from
        (spot.Equals head attributes name) else None) }
{
    let is_allowed = head.get().allows(attributes.get(), name);
    stands_if(file, from, Spot::Equals(head, attributes, name), is_allowed)
}

/// After the name of an attribute.
#[inline(never)]
pub(crate) fn equals(
    file: &mut FileState,
    from: Span,
    head: Held<Head>,
    attributes: Held<Attributes>,
    name: AttributeName,
    token: &Token,
) -> bool
    ensures { reached result file.new ≡
        if_equals (command_terminal_of token.now) (stands file.old.commands from (spot.Value head attributes name)) }
{
    match CommandTerminal::of(token) {
        CommandTerminal::Equals => stands(file, from, Spot::Value(head, attributes, name)),
        _ => {
            drop(head);
            drop(attributes);
            false
        }
    }
}

/// After the `=` of an attribute.
#[inline(never)]
pub(crate) fn value(
    alloc: Global,
    file: &mut FileState,
    from: Span,
    head: Held<Head>,
    attributes: Held<Attributes>,
    name: AttributeName,
    token: &Token,
) -> Result<bool, OutOfMemory>
    ensures { IfOk result (λ on. reached on file.new ≡
        value_step file.old.commands from head attributes name token.now (command_terminal_of token.now)) }
{
    match CommandTerminal::of(token) {
        CommandTerminal::Attribute => {
            attribute_value(alloc, file, from, head, attributes, name, &token.text)
        }
        _ => {
            drop(head);
            drop(attributes);
            Ok(false)
        }
    }
}

/// The value of an attribute has come.
#[tactic(auto, using(crate::proofs::OfFiles::Reaching::value_reached))]
fn attribute_value(
    alloc: Global,
    file: &mut FileState,
    from: Span,
    head: Held<Head>,
    attributes: Held<Attributes>,
    name: AttributeName,
    text: &Text,
) -> Result<bool, OutOfMemory>
    ensures { IfOk result (λ on. reached on file.new ≡
        with_value file.old.commands from head (with_attribute attributes name text.now)) }
{
    let mut attributes = attributes;
    let taken = attribute_added(&mut attributes, alloc, name, text);
    file.set_spot(CommandSpot::Inside(from, Spot::Attributes(head, attributes)));
    taken
}
