//! The machine that reads commands: what each does between templates, in a body and in a call.

ghost use Rattle.std.specs.Prelude.{◌≡◌, ◌∷◌, false, IfOk, None, if◌then◌else◌};
ghost use Rattle.soy_parser.specs.CommandSteps.{argument_opens, argument_single, arguments_step, before_cases_step};
ghost use Rattle.soy_parser.specs.CommandSteps.{body_step, cases_begin, closed_bare_switch, closed_call};
ghost use Rattle.soy_parser.specs.CommandSteps.{command_start, command_step, template_param_step, is_call, is_switch};
ghost use Rattle.soy_parser.specs.CommandSteps.{body_closes, body_goes_on, ended, is_empty, opening_step};
ghost use Rattle.soy_parser.specs.CommandSteps.{single_step, state, template_opens, templates_step, white_step};
ghost use Rattle.soy_parser.specs.CommandSteps.{with_text};
ghost use Rattle.soy_parser.specs.Reached.{reached};
ghost use Rattle.soy_parser.specs.declared.block.Content.TheVariants as content;
ghost use Rattle.soy_parser.specs.declared.command.CommandForm.TheVariants as says;
ghost use Rattle.soy_parser.specs.declared.command.Single.TheVariants as single;

use crate::block::{
    Block, CommandState, Content, Nodes, OpenIf, OpenMessage, OpenPlural, OpenSelect, OpenSwitch,
    OpenTemplate,
};
use crate::blocks::{
    adds, adds_after, adds_argument, begins, begins_parts, body_closes, body_goes_on, case_goes_on,
    closed_switch, opens_with, refused, refused_middle,
};
use crate::command::{CommandForm, Middle, Opening, Single};
use crate::messages::{choice, parts, plural_goes_on, select_goes_on};
use crate::nodes::{is_white, joined};
use crate::terminal::BlockName;
use soy_base::{OutOfMemory, Row, Seq, Span, Stack, Text};
use soy_tree::{Argument, Expr, Form, Given, Node, Param, Template};
use std::alloc::Global;

impl CommandState {
    /// Nothing was read. Takes no memory.
    pub(crate) fn start(alloc: Global) -> CommandState
        ensures { result ≡ command_start }
    {
        CommandState {
            blocks: Stack::empty(alloc),
            content: Content::White,
        }
    }

    /// Takes a text, as a command.
    pub(crate) fn takes_text(
        &mut self,
        alloc: Global,
        text: Text,
        span: Span,
    ) -> Result<bool, OutOfMemory>
        ensures { IfOk result (λ on. reached on self.new ≡
            command_step self.old (record { form = says.Text text; span = span })) }
    {
        match &mut self.content {
            Content::Body(nodes) => {
                nodes.add_text(text, span)?;
                Ok(true)
            }
            _ => { self.step(alloc, CommandForm::Text(text), span) }
        }
    }

    /// Takes a print, as a command.
    pub(crate) fn takes_print(
        &mut self,
        alloc: Global,
        expr: Expr,
        span: Span,
    ) -> Result<bool, OutOfMemory>
        ensures { IfOk result (λ on. reached on self.new ≡
            command_step self.old (record { form = says.Single (single.Print expr); span = span })) }
    {
        match &mut self.content {
            Content::Body(nodes) => {
                nodes.add_print(expr, span)?;
                Ok(true)
            }
            _ => { self.step(alloc, CommandForm::Single(Single::Print(expr)), span) }
        }
    }

    /// Takes a command, and says whether some file goes on with it; if none does, what was read is of no use.
    #[inline(never)]
    pub(crate) fn step(
        &mut self,
        alloc: Global,
        form: CommandForm,
        span: Span,
    ) -> Result<bool, OutOfMemory>
        ensures { IfOk result (λ on. reached on self.new ≡
            command_step self.old (record { form = form; span = span })) }
    {
        match self.take_content() {
            Content::White => Ok(white(alloc, self, form, span)),
            Content::Templates(namespace, templates) => between_templates(
                alloc, self, namespace, templates, form, span,
            ),
            Content::Body(nodes) => body(alloc, self, nodes, form, span),
            Content::Arguments(arguments) => in_call(alloc, self, arguments, form, span),
            Content::BeforeCases => before_cases(alloc, self, form, span),
            Content::Parts(nodes, white) => parts(alloc, self, nodes, white, form, span),
            Content::Choice(message) => choice(alloc, self, message, form, span),
        }
    }
}

/// Before the namespace.
#[inline(never)]
fn white(alloc: Global, commands: &mut CommandState, form: CommandForm, span: Span) -> bool
    ensures { reached result commands.new ≡ white_step commands.old.blocks form span }
{
    match form {
        CommandForm::Text(text) => commands.holds_if(Content::White, is_white(&text)),
        CommandForm::Namespace(namespace) => {
            commands.holds(Content::Templates(namespace, Row::empty(alloc)))
        }
        form => refused_form(form),
    }
}

/// Between the templates of a file.
#[inline(never)]
fn between_templates(
    alloc: Global,
    commands: &mut CommandState,
    namespace: Text,
    templates: Row<Template>,
    form: CommandForm,
    span: Span,
) -> Result<bool, OutOfMemory>
    ensures { IfOk result (λ on. reached on commands.new ≡
        templates_step commands.old.blocks namespace templates form span) }
{
    match form {
        CommandForm::Text(text) => {
            let content = Content::Templates(namespace, templates);
            Ok(commands.holds_if(content, is_white(&text)))
        }
        CommandForm::Opens(of) => opens_template(alloc, commands, namespace, templates, of, span),
        form => Ok(refused_form(form)),
    }
}

/// A template begins.
fn opens_template(
    alloc: Global,
    commands: &mut CommandState,
    namespace: Text,
    templates: Row<Template>,
    of: Opening,
    span: Span,
) -> Result<bool, OutOfMemory>
    ensures { IfOk result (λ on. reached on commands.new ≡
        template_opens commands.old.blocks namespace templates of span) }
{
    match of {
        Opening::Template(head) => {
            let template = OpenTemplate {
                namespace,
                templates,
                head,
                start: span,
                params: Row::empty(alloc),
            };
            begins(alloc, commands, Block::Template(template))
        }
        of => Ok(refused_opening(of)),
    }
}

/// In a body.
#[inline(never)]
fn body(
    alloc: Global,
    commands: &mut CommandState,
    nodes: Nodes,
    form: CommandForm,
    span: Span,
) -> Result<bool, OutOfMemory>
    ensures { IfOk result (λ on. reached on commands.new ≡ body_step commands.old.blocks nodes form span) }
{
    match form {
        CommandForm::Text(text) => text_in_body(commands, nodes, text, span),
        CommandForm::Character(text) => text_in_body(commands, nodes, text, span),
        CommandForm::Namespace(_) => Ok(false),
        CommandForm::TemplateParam(name, required, of) => {
            let param = Param {
                name,
                of,
                required,
                span,
            };
            param_in_body(alloc, commands, nodes, param)
        }
        CommandForm::Single(of) => single_in_body(alloc, commands, nodes, of, span),
        CommandForm::Opens(of) => opens_in_body(alloc, commands, nodes, of, span),
        CommandForm::GoesOn(of) => goes_on_after(alloc, commands, nodes, of),
        CommandForm::Closes(name) => closes_after(commands, nodes, name, span),
    }
}

/// A command with which a block goes on, after these nodes.
#[inline(never)]
fn goes_on_after(
    alloc: Global,
    commands: &mut CommandState,
    nodes: Nodes,
    of: Middle,
) -> Result<bool, OutOfMemory>
    ensures { IfOk result (λ on. reached on commands.new ≡ body_goes_on commands.old.blocks (ended nodes) of) }
{
    match nodes.ended() {
        Ok(nodes) => body_goes_on(alloc, commands, nodes, of),
        Err(out) => {
            refused_middle(of);
            Err(out)
        }
    }
}

/// A command that closes a block, after these nodes.
#[inline(never)]
fn closes_after(
    commands: &mut CommandState,
    nodes: Nodes,
    name: BlockName,
    end: Span,
) -> Result<bool, OutOfMemory>
    ensures { IfOk result (λ on. reached on commands.new ≡ body_closes commands.old.blocks (ended nodes) name end) }
{
    body_closes(commands, nodes.ended()?, name, end)
}

/// A text of a body has come.
#[inline(never)]
fn text_in_body(
    commands: &mut CommandState,
    nodes: Nodes,
    text: Text,
    span: Span,
) -> Result<bool, OutOfMemory>
    ensures { IfOk result (λ on. reached on commands.new ≡
        state commands.old.blocks (content.Body (with_text nodes text span))) }
{
    let nodes = nodes.with_text(text, span)?;
    Ok(commands.holds(Content::Body(nodes)))
}

/// A parameter, after these nodes.
#[inline(never)]
fn param_in_body(
    alloc: Global,
    commands: &mut CommandState,
    nodes: Nodes,
    param: Param,
) -> Result<bool, OutOfMemory>
    ensures { IfOk result (λ on. reached on commands.new ≡
        (if is_empty nodes then template_param_step commands.old.blocks param else None)) }
{
    if nodes.is_empty() {
        template_param(alloc, commands, param)
    } else {
        Ok(false)
    }
}

/// A parameter, at the head of a template.
fn template_param(
    alloc: Global,
    commands: &mut CommandState,
    param: Param,
) -> Result<bool, OutOfMemory>
    ensures { IfOk result (λ on. reached on commands.new ≡ template_param_step commands.old.blocks param) }
{
    match commands.pop() {
        Some(block) => block_param(alloc, commands, block, param),
        None => Ok(false),
    }
}

/// A parameter, at the head of this block.
fn block_param(
    alloc: Global,
    commands: &mut CommandState,
    block: Block,
    param: Param,
) -> Result<bool, OutOfMemory>
    ensures { IfOk result (λ on. reached on commands.new ≡ template_param_step (block ∷ commands.old.blocks) param) }
{
    match block {
        Block::Template(template) => {
            let template = template.with_param(param)?;
            begins(alloc, commands, Block::Template(template))
        }
        block => Ok(refused(block)),
    }
}

/// A command that holds no block, in a body.
#[inline(never)]
fn single_in_body(
    alloc: Global,
    commands: &mut CommandState,
    nodes: Nodes,
    of: Single,
    span: Span,
) -> Result<bool, OutOfMemory>
    ensures { IfOk result (λ on. reached on commands.new ≡ single_step commands.old.blocks (ended nodes) of span) }
{
    match of {
        Single::Print(expr) => adds_after(commands, nodes, Form::Print(expr, None), span),
        Single::Let(name, expr) => adds_after(commands, nodes, Form::Let(name, expr), span),
        Single::Call(name, all) => {
            let given = Seq::new(Vec::new(alloc));
            adds_after(commands, nodes, Form::Call(name, all, given), span)
        }
        of => Ok(refused_single(of)),
    }
}

/// A command that opens a block, in a body.
#[inline(never)]
fn opens_in_body(
    alloc: Global,
    commands: &mut CommandState,
    nodes: Nodes,
    of: Opening,
    span: Span,
) -> Result<bool, OutOfMemory>
    ensures { IfOk result (λ on. reached on commands.new ≡ opening_step commands.old.blocks (ended nodes) of span) }
{
    match nodes.ended() {
        Ok(nodes) => opens_after(alloc, commands, nodes, of, span),
        Err(out) => {
            refused_opening(of);
            Err(out)
        }
    }
}

/// A command that opens a block, after these nodes.
fn opens_after(
    alloc: Global,
    commands: &mut CommandState,
    nodes: Row<Node>,
    of: Opening,
    span: Span,
) -> Result<bool, OutOfMemory>
    ensures { IfOk result (λ on. reached on commands.new ≡ opening_step commands.old.blocks nodes of span) }
{
    match of {
        Opening::If(when) => {
            let part = OpenIf {
                before: nodes,
                start: span,
                arms: Row::empty(alloc),
            };
            begins(alloc, commands, Block::Arm(part, when))
        }
        Opening::Switch(subject) => {
            let block = Block::Switch(nodes, span, subject);
            opens_with(commands, block, Content::BeforeCases)
        }
        Opening::For(name, index, list) => {
            begins(alloc, commands, Block::For(nodes, span, name, index, list))
        }
        Opening::Let(name, kind) => begins(alloc, commands, Block::Let(nodes, span, name, kind)),
        Opening::Call(name, all) => {
            let block = Block::Call(nodes, span, name, all);
            opens_with(commands, block, Content::Arguments(Row::empty(alloc)))
        }
        Opening::Message(desc, meaning) => {
            let part = OpenMessage {
                before: nodes,
                start: span,
                desc,
                meaning,
            };
            begins_parts(alloc, commands, Block::Message(part))
        }
        of => Ok(refused_opening(of)),
    }
}

/// A block that doesn't open there.
pub(crate) fn refused_opening(of: Opening) -> bool
    ensures { result ≡ false }
{
    drop(of);
    false
}

/// A command that doesn't stand there.
pub(crate) fn refused_single(of: Single) -> bool
    ensures { result ≡ false }
{
    drop(of);
    false
}

/// A command with which no file goes on.
pub(crate) fn refused_form(form: CommandForm) -> bool
    ensures { result ≡ false }
{
    drop(form);
    false
}

/// In a call.
#[inline(never)]
fn in_call(
    alloc: Global,
    commands: &mut CommandState,
    arguments: Row<Argument>,
    form: CommandForm,
    span: Span,
) -> Result<bool, OutOfMemory>
    ensures { IfOk result (λ on. reached on commands.new ≡ arguments_step commands.old.blocks arguments form span) }
{
    match form {
        CommandForm::Text(text) => {
            Ok(commands.holds_if(Content::Arguments(arguments), is_white(&text)))
        }
        CommandForm::Single(of) => single_argument(commands, arguments, of, span),
        CommandForm::Opens(of) => opens_argument(alloc, commands, arguments, of, span),
        CommandForm::Closes(name) => argument_closes(commands, arguments, name, span),
        form => Ok(refused_form(form)),
    }
}

/// A command that closes a block, in a call.
fn argument_closes(
    commands: &mut CommandState,
    arguments: Row<Argument>,
    name: BlockName,
    end: Span,
) -> Result<bool, OutOfMemory>
    ensures { IfOk result (λ on. reached on commands.new ≡
        (if is_call name then closed_call commands.old.blocks arguments end else None)) }
{
    if matches!(name, BlockName::Call) {
        call_closes(commands, arguments, end)
    } else {
        Ok(false)
    }
}

/// A param that is an expression.
fn single_argument(
    commands: &mut CommandState,
    arguments: Row<Argument>,
    of: Single,
    span: Span,
) -> Result<bool, OutOfMemory>
    ensures { IfOk result (λ on. reached on commands.new ≡ argument_single commands.old.blocks arguments of span) }
{
    match of {
        Single::Param(name, expr) => {
            adds_argument(commands, arguments, name, Given::Plain(expr), span)
        }
        of => Ok(refused_single(of)),
    }
}

/// A param that is a block begins.
fn opens_argument(
    alloc: Global,
    commands: &mut CommandState,
    arguments: Row<Argument>,
    of: Opening,
    span: Span,
) -> Result<bool, OutOfMemory>
    ensures { IfOk result (λ on. reached on commands.new ≡ argument_opens commands.old.blocks arguments of span) }
{
    match of {
        Opening::Param(name, kind) => {
            begins(alloc, commands, Block::Param(arguments, span, name, kind))
        }
        of => Ok(refused_opening(of)),
    }
}

/// The end of a call.
fn call_closes(
    commands: &mut CommandState,
    arguments: Row<Argument>,
    end: Span,
) -> Result<bool, OutOfMemory>
    ensures { IfOk result (λ on. reached on commands.new ≡ closed_call commands.old.blocks arguments end) }
{
    match commands.pop() {
        Some(block) => closed_call(commands, block, arguments, end),
        None => Ok(false),
    }
}

/// The end of a call, if this block is one.
fn closed_call(
    commands: &mut CommandState,
    block: Block,
    arguments: Row<Argument>,
    end: Span,
) -> Result<bool, OutOfMemory>
    ensures { IfOk result (λ on. reached on commands.new ≡ closed_call (block ∷ commands.old.blocks) arguments end) }
{
    match block {
        Block::Call(before, start, name, all) => {
            let form = Form::Call(name, all, arguments.done());
            adds(commands, before, form, joined(start, end))
        }
        block => Ok(refused(block)),
    }
}

/// Before the first case of a switch, plural or select.
#[inline(never)]
fn before_cases(
    alloc: Global,
    commands: &mut CommandState,
    form: CommandForm,
    span: Span,
) -> Result<bool, OutOfMemory>
    ensures { IfOk result (λ on. reached on commands.new ≡ before_cases_step commands.old.blocks form span) }
{
    match form {
        CommandForm::Text(text) => { Ok(commands.holds_if(Content::BeforeCases, is_white(&text))) }
        CommandForm::GoesOn(of) => cases_begin(alloc, commands, of),
        CommandForm::Closes(name) => bare_closes(alloc, commands, name, span),
        form => Ok(refused_form(form)),
    }
}

/// A command that closes a block, before the first case.
fn bare_closes(
    alloc: Global,
    commands: &mut CommandState,
    name: BlockName,
    end: Span,
) -> Result<bool, OutOfMemory>
    ensures { IfOk result (λ on. reached on commands.new ≡
        (if is_switch name then closed_bare_switch commands.old.blocks end else None)) }
{
    if matches!(name, BlockName::Switch) {
        bare_switch_closes(alloc, commands, end)
    } else {
        Ok(false)
    }
}

/// The first case, or the default.
fn cases_begin(alloc: Global, commands: &mut CommandState, of: Middle) -> Result<bool, OutOfMemory>
    ensures { IfOk result (λ on. reached on commands.new ≡ cases_begin commands.old.blocks of) }
{
    match commands.pop() {
        Some(block) => block_cases_begin(alloc, commands, block, of),
        None => Ok(refused_middle(of)),
    }
}

/// The first case, or the default, of this block.
fn block_cases_begin(
    alloc: Global,
    commands: &mut CommandState,
    block: Block,
    of: Middle,
) -> Result<bool, OutOfMemory>
    ensures { IfOk result (λ on. reached on commands.new ≡ cases_begin (block ∷ commands.old.blocks) of) }
{
    match block {
        Block::Switch(before, start, subject) => {
            let cases = Row::empty(alloc);
            let part = OpenSwitch {
                before,
                start,
                subject,
                cases,
            };
            case_goes_on(alloc, commands, part, of)
        }
        Block::Plural(selector, offset) => {
            let cases = Row::empty(alloc);
            let part = OpenPlural {
                selector,
                offset,
                cases,
            };
            plural_goes_on(alloc, commands, part, of)
        }
        Block::Select(selector) => {
            let cases = Row::empty(alloc);
            select_goes_on(alloc, commands, OpenSelect { selector, cases }, of)
        }
        block => {
            refused_middle(of);
            Ok(refused(block))
        }
    }
}

/// The end of a switch without cases.
fn bare_switch_closes(
    alloc: Global,
    commands: &mut CommandState,
    end: Span,
) -> Result<bool, OutOfMemory>
    ensures { IfOk result (λ on. reached on commands.new ≡ closed_bare_switch commands.old.blocks end) }
{
    match commands.pop() {
        Some(block) => closed_bare_switch(alloc, commands, block, end),
        None => Ok(false),
    }
}

/// The end of a switch without cases, if this block is one.
fn closed_bare_switch(
    alloc: Global,
    commands: &mut CommandState,
    block: Block,
    end: Span,
) -> Result<bool, OutOfMemory>
    ensures { IfOk result (λ on. reached on commands.new ≡ closed_bare_switch (block ∷ commands.old.blocks) end) }
{
    match block {
        Block::Switch(before, start, subject) => {
            let cases = Row::empty(alloc);
            let part = OpenSwitch {
                before,
                start,
                subject,
                cases,
            };
            closed_switch(commands, part, None, end)
        }
        block => Ok(refused(block)),
    }
}
