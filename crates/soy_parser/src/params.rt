//! What a token does in the command of a template's parameter, by where its reading stands.

ghost use Rattle.std.specs.Prelude.{◌≡◌, IfOk};
ghost use Rattle.expr_parser.specs.TypeRuns.{type_start};
ghost use Rattle.expr_parser.specs.TypeSteps.{type_step};
ghost use Rattle.expr_parser.specs.declared.type_state.TypeStep.TheVariants as type_does;
ghost use Rattle.soy_parser.specs.FileSteps.{if_colon, in_type, spot_step, stands, template_param_step};
ghost use Rattle.soy_parser.specs.FileSteps.{template_param_word_step};
ghost use Rattle.soy_parser.specs.CommandTerminals.{command_terminal_of};
ghost use Rattle.soy_parser.specs.Reached.{reached};
ghost use Rattle.soy_parser.specs.declared.spot.Spot.TheVariants as spot;

use crate::attribute_spots::form_done;
use crate::command::CommandForm;
use crate::files::stands;
use crate::held::Held;
use crate::spot::{FileState, Spot};
use crate::terminal::{CommandTerminal, CommandWord};
use expr_parser::{TypeOperand, TypeState, TypeStep};
use soy_base::{OutOfMemory, Span, Text};
use soy_lexer::Token;
use std::alloc::Global;

/// After the `@` of a parameter.
#[inline(never)]
pub(crate) fn template_param(file: &mut FileState, from: Span, token: &Token) -> bool
    ensures { reached result file.new ≡ template_param_step file.old.commands from (command_terminal_of token.now) }
{
    match CommandTerminal::of(token) {
        CommandTerminal::Word(CommandWord::Param) => stands(file, from, Spot::TemplateParamWord),
        _ => false,
    }
}

/// After the word of a parameter.
#[inline(never)]
pub(crate) fn template_param_word(
    alloc: Global,
    file: &mut FileState,
    from: Span,
    token: &Token,
) -> Result<bool, OutOfMemory>
    ensures { IfOk result (λ on. reached on file.new ≡
        template_param_word_step file.old.commands from token.now (command_terminal_of token.now)) }
{
    match CommandTerminal::of(token) {
        CommandTerminal::Question => Ok(stands(file, from, Spot::TemplateParamName)),
        CommandTerminal::Word(_) => {
            let name = token.text.copy(alloc)?;
            Ok(stands(file, from, Spot::TemplateParamColon(name, true)))
        }
        _ => Ok(false),
    }
}

/// After the `?` of a parameter.
#[inline(never)]
pub(crate) fn template_param_name(
    alloc: Global,
    file: &mut FileState,
    from: Span,
    token: &Token,
) -> Result<bool, OutOfMemory>
    ensures { IfOk result (λ on. reached on file.new ≡
        spot_step file.old.commands from spot.TemplateParamName token.now (command_terminal_of token.now)) }
{
    match CommandTerminal::of(token) {
        CommandTerminal::Word(_) => {
            let name = token.text.copy(alloc)?;
            Ok(stands(file, from, Spot::TemplateParamColon(name, false)))
        }
        _ => Ok(false),
    }
}

/// After the name of a parameter.
#[inline(never)]
pub(crate) fn template_param_colon(
    alloc: Global,
    file: &mut FileState,
    from: Span,
    name: Text,
    required: bool,
    token: &Token,
) -> Result<bool, OutOfMemory>
    ensures { IfOk result (λ on. reached on file.new ≡
        if_colon (command_terminal_of token.now) (stands file.old.commands from (spot.Type name required type_start))) }
{
    match CommandTerminal::of(token) {
        CommandTerminal::Colon => {
            let state = Held::new(alloc, TypeState::start(alloc))?;
            Ok(stands(file, from, Spot::Type(name, required, state)))
        }
        _ => Ok(false),
    }
}

/// In the type of a parameter.
#[inline(never)]
pub(crate) fn in_type(
    alloc: Global,
    file: &mut FileState,
    from: Span,
    name: Text,
    required: bool,
    state: Held<TypeState>,
    token: &Token,
) -> Result<bool, OutOfMemory>
    ensures { IfOk result (λ on. reached on file.new ≡
        in_type file.old.commands from name required token.now (type_step state token.now)) }
{
    let mut state = state;
    let before = state.replaced(TypeState::start(alloc));
    let step = before.step(alloc, token)?;
    after_type_step(alloc, file, from, name, required, state, step, token)
}

/// Where the type of a parameter goes on or has ended.
fn after_type_step(
    alloc: Global,
    file: &mut FileState,
    from: Span,
    name: Text,
    required: bool,
    held: Held<TypeState>,
    step: TypeStep,
    token: &Token,
) -> Result<bool, OutOfMemory>
    ensures { IfOk result (λ on. reached on file.new ≡ in_type file.old.commands from name required token.now step) }
{
    match step {
        TypeStep::Next(state) => {
            let mut held = held;
            drop(held.replaced(state));
            Ok(stands(file, from, Spot::Type(name, required, held)))
        }
        TypeStep::End(operand) => type_ends(alloc, file, from, name, required, operand, token),
    }
}

/// Where the type of a parameter has ended, if what was read is one.
#[inline(never)]
fn type_ends(
    alloc: Global,
    file: &mut FileState,
    from: Span,
    name: Text,
    required: bool,
    operand: Option<TypeOperand>,
    token: &Token,
) -> Result<bool, OutOfMemory>
    ensures { IfOk result (λ on. reached on file.new ≡
        in_type file.old.commands from name required token.now (type_does.End operand)) }
{
    match operand {
        Some(operand) => {
            let form = CommandForm::TemplateParam(name, required, operand.of);
            form_done(alloc, file, from, form, token)
        }
        None => Ok(false),
    }
}
