//! What each command does in a message.

ghost use Rattle.std.specs.Prelude.{◌≡◌, ◌++◌, ◌∷◌, [], IfOk, None, if◌then◌else◌};
ghost use Rattle.soy_parser.specs.CommandSteps.{ended};
ghost use Rattle.soy_parser.specs.CommandSteps.{choice_opens, choice_step, closed_message, closes_message};
ghost use Rattle.soy_parser.specs.CommandSteps.{fallback_begins, message_closes, message_goes_on, part_single};
ghost use Rattle.soy_parser.specs.CommandSteps.{parts_step};
ghost use Rattle.soy_parser.specs.CommandSteps.{plural_goes_on, select_goes_on, with_plural_cases, with_select_cases};
ghost use Rattle.soy_parser.specs.CommandSteps.{has_whole_tags, body_of_parts, state, with_text};
ghost use Rattle.soy_parser.specs.Nodes.{whole_message, plural_cases, select_cases};
ghost use Rattle.soy_parser.specs.Reached.{reached};
ghost use Rattle.soy_tree.specs.declared.node.MessageBody.TheVariants as message_body;
ghost use Rattle.soy_parser.specs.declared.block.Block.TheVariants as blocks;
ghost use Rattle.soy_parser.specs.declared.block.Content.TheVariants as content;
ghost use Rattle.soy_parser.specs.declared.command.Single.TheVariants as single;

use crate::block::{
    Block, CommandState, Content, Nodes, OpenFallback, OpenMessage, OpenPlural, OpenSelect,
};
use crate::blocks::{adds, begins_parts, opens_with, refused, refused_middle};
use crate::command::{CommandForm, Middle, Opening, Single};
use crate::commands::{refused_form, refused_opening, refused_single};
use crate::nodes::{is_white, joined, with_node};
use crate::terminal::BlockName;
use soy_base::{Boxed, OutOfMemory, Row, Span, Text};
use soy_tree::{Expr, Form, Message, MessageBody, Node, PluralCase, SelectCase};
use std::alloc::Global;

/// Among the texts and prints of a message.
#[inline(never)]
pub(crate) fn parts(
    alloc: Global,
    commands: &mut CommandState,
    nodes: Nodes,
    white: bool,
    form: CommandForm,
    span: Span,
) -> Result<bool, OutOfMemory>
    ensures { IfOk result (λ on. reached on commands.new ≡ parts_step commands.old.blocks nodes white form span) }
{
    match form {
        CommandForm::Text(text) => {
            let white = white && is_white(&text);
            with_text(commands, nodes, white, text, span)
        }
        CommandForm::Character(text) => with_text(commands, nodes, false, text, span),
        CommandForm::Namespace(_) => Ok(false),
        CommandForm::TemplateParam(_, _, _) => Ok(false),
        CommandForm::Single(of) => single_part(commands, nodes, of, span),
        CommandForm::Opens(of) => parts_open(commands, white, of),
        CommandForm::GoesOn(of) => parts_go_on(alloc, commands, nodes, of, span),
        CommandForm::Closes(name) => parts_close(alloc, commands, nodes, name, span),
    }
}

/// A block opens after these texts and prints of a message.
#[inline(never)]
fn parts_open(commands: &mut CommandState, white: bool, of: Opening) -> Result<bool, OutOfMemory>
    ensures { IfOk result (λ on. reached on commands.new ≡
        (if white then choice_opens commands.old.blocks of else None)) }
{
    if white {
        choice_opens(commands, of)
    } else {
        Ok(refused_opening(of))
    }
}

/// A message, or a case of one, goes on after these texts and prints.
#[inline(never)]
fn parts_go_on(
    alloc: Global,
    commands: &mut CommandState,
    nodes: Nodes,
    of: Middle,
    span: Span,
) -> Result<bool, OutOfMemory>
    ensures { IfOk result (λ on. reached on commands.new ≡
        (if has_whole_tags nodes then message_goes_on commands.old.blocks (body_of_parts nodes) of span else None)) }
{
    if !nodes.has_whole_tags() {
        return Ok(refused_middle(of));
    }
    match nodes.parts() {
        Ok(body) => message_goes_on(alloc, commands, body, of, span),
        Err(out) => {
            refused_middle(of);
            Err(out)
        }
    }
}

/// A command that closes a block of a message after these texts and prints.
#[inline(never)]
fn parts_close(
    alloc: Global,
    commands: &mut CommandState,
    nodes: Nodes,
    name: BlockName,
    end: Span,
) -> Result<bool, OutOfMemory>
    ensures { IfOk result (λ on. reached on commands.new ≡
        (if has_whole_tags nodes then message_closes commands.old.blocks (body_of_parts nodes) name end else None)) }
{
    if nodes.has_whole_tags() {
        message_closes(alloc, commands, nodes.parts()?, name, end)
    } else {
        Ok(false)
    }
}

/// A text of a message has come.
#[inline(never)]
fn with_text(
    commands: &mut CommandState,
    nodes: Nodes,
    white: bool,
    text: Text,
    span: Span,
) -> Result<bool, OutOfMemory>
    ensures { IfOk result (λ on. reached on commands.new ≡
        state commands.old.blocks (content.Parts (with_text nodes text span) white)) }
{
    let nodes = nodes.with_text(text, span)?;
    Ok(commands.holds(Content::Parts(nodes, white)))
}

/// A print of a message.
#[inline(never)]
fn single_part(
    commands: &mut CommandState,
    nodes: Nodes,
    of: Single,
    span: Span,
) -> Result<bool, OutOfMemory>
    ensures { IfOk result (λ on. reached on commands.new ≡ part_single commands.old.blocks (ended nodes) of span) }
{
    match of {
        Single::MessagePrint(expr, phname) => message_print(commands, nodes, expr, phname, span),
        of => Ok(refused_single(of)),
    }
}

/// A print of a message, after these nodes.
fn message_print(
    commands: &mut CommandState,
    nodes: Nodes,
    expr: Expr,
    phname: Option<Text>,
    span: Span,
) -> Result<bool, OutOfMemory>
    ensures { IfOk result (λ on. reached on commands.new ≡
        part_single commands.old.blocks (ended nodes) (single.MessagePrint expr phname) span) }
{
    let items = with_node(nodes.ended()?, Form::Print(expr, phname), span)?;
    let nodes = Nodes { items, run: None };
    Ok(commands.holds(Content::Parts(nodes, false)))
}

/// A plural or select of a message begins.
fn choice_opens(commands: &mut CommandState, of: Opening) -> Result<bool, OutOfMemory>
    ensures { IfOk result (λ on. reached on commands.new ≡ choice_opens commands.old.blocks of) }
{
    match of {
        Opening::Plural(selector, offset) => {
            let block = Block::Plural(selector, offset);
            opens_with(commands, block, Content::BeforeCases)
        }
        Opening::Select(selector) => {
            opens_with(commands, Block::Select(selector), Content::BeforeCases)
        }
        of => Ok(refused_opening(of)),
    }
}

/// After a plural or select of a message.
#[inline(never)]
pub(crate) fn choice(
    alloc: Global,
    commands: &mut CommandState,
    message: MessageBody,
    form: CommandForm,
    span: Span,
) -> Result<bool, OutOfMemory>
    ensures { IfOk result (λ on. reached on commands.new ≡ choice_step commands.old.blocks message form span) }
{
    match form {
        CommandForm::Text(text) => {
            Ok(commands.holds_if(Content::Choice(message), is_white(&text)))
        }
        CommandForm::GoesOn(of) => message_goes_on(alloc, commands, message, of, span),
        CommandForm::Closes(name) => message_closes(alloc, commands, message, name, span),
        form => {
            drop(message);
            Ok(refused_form(form))
        }
    }
}

/// A message, or a case of one, goes on after its body.
fn message_goes_on(
    alloc: Global,
    commands: &mut CommandState,
    body: MessageBody,
    of: Middle,
    span: Span,
) -> Result<bool, OutOfMemory>
    ensures { IfOk result (λ on. reached on commands.new ≡ message_goes_on commands.old.blocks body of span) }
{
    match commands.pop() {
        Some(block) => block_message_goes_on(alloc, commands, block, body, of, span),
        None => {
            drop(body);
            Ok(refused_middle(of))
        }
    }
}

/// This block goes on after its body.
fn block_message_goes_on(
    alloc: Global,
    commands: &mut CommandState,
    block: Block,
    body: MessageBody,
    of: Middle,
    span: Span,
) -> Result<bool, OutOfMemory>
    ensures { IfOk result (λ on. reached on commands.new ≡ message_goes_on (block ∷ commands.old.blocks) body of span) }
{
    match block {
        Block::Message(message) => fallback_begins(alloc, commands, message, body, of, span),
        Block::PluralCase(part, values) => {
            plural_case_ends(alloc, commands, part, values, body, of)
        }
        Block::SelectCase(part, words) => {
            select_case_ends(alloc, commands, part, words, body, of)
        }
        block => {
            drop(body);
            refused_middle(of);
            Ok(refused(block))
        }
    }
}

/// A case of a plural ends, and the plural goes on.
fn plural_case_ends(
    alloc: Global,
    commands: &mut CommandState,
    part: OpenPlural,
    values: Row<i64>,
    body: MessageBody,
    of: Middle,
) -> Result<bool, OutOfMemory>
    ensures { IfOk result (λ on. reached on commands.new ≡
        plural_goes_on commands.old.blocks (with_plural_cases part values body) of) }
{
    match part.with_cases(alloc, values.items(), body) {
        Ok(part) => plural_goes_on(alloc, commands, part, of),
        Err(out) => {
            refused_middle(of);
            Err(out)
        }
    }
}

/// A case of a select ends, and the select goes on.
fn select_case_ends(
    alloc: Global,
    commands: &mut CommandState,
    part: OpenSelect,
    words: Row<Text>,
    body: MessageBody,
    of: Middle,
) -> Result<bool, OutOfMemory>
    ensures { IfOk result (λ on. reached on commands.new ≡
        select_goes_on commands.old.blocks (with_select_cases part words body) of) }
{
    match part.with_cases(alloc, words.items(), body) {
        Ok(part) => select_goes_on(alloc, commands, part, of),
        Err(out) => {
            refused_middle(of);
            Err(out)
        }
    }
}

/// The fallback of a message begins.
fn fallback_begins(
    alloc: Global,
    commands: &mut CommandState,
    message: OpenMessage,
    body: MessageBody,
    of: Middle,
    span: Span,
) -> Result<bool, OutOfMemory>
    ensures { IfOk result (λ on. reached on commands.new ≡ fallback_begins commands.old.blocks message body of span) }
{
    match of {
        Middle::Fallback(desc, meaning) => {
            let fallback = OpenFallback {
                start: span,
                desc,
                meaning,
            };
            begins_parts(alloc, commands, Block::Fallback(message, body, fallback))
        }
        of => {
            drop(body);
            Ok(refused_middle(of))
        }
    }
}

/// A plural goes on.
pub(crate) fn plural_goes_on(
    alloc: Global,
    commands: &mut CommandState,
    part: OpenPlural,
    of: Middle,
) -> Result<bool, OutOfMemory>
    ensures { IfOk result (λ on. reached on commands.new ≡ plural_goes_on commands.old.blocks part of) }
{
    match of {
        Middle::PluralCase(values) => {
            begins_parts(alloc, commands, Block::PluralCase(part, values))
        }
        Middle::Default => begins_parts(alloc, commands, Block::PluralDefault(part)),
        of => Ok(refused_middle(of)),
    }
}

/// A select goes on.
pub(crate) fn select_goes_on(
    alloc: Global,
    commands: &mut CommandState,
    part: OpenSelect,
    of: Middle,
) -> Result<bool, OutOfMemory>
    ensures { IfOk result (λ on. reached on commands.new ≡ select_goes_on commands.old.blocks part of) }
{
    match of {
        Middle::SelectCase(values) => {
            begins_parts(alloc, commands, Block::SelectCase(part, values))
        }
        Middle::Default => begins_parts(alloc, commands, Block::SelectDefault(part)),
        of => Ok(refused_middle(of)),
    }
}

impl OpenPlural {
    /// The plural with a case for each of the values.
    #[tactic(auto, using(crate::proofs::Cases::plural_cases_last))]
    fn with_cases(
        self,
        alloc: Global,
        values: &[i64],
        body: MessageBody,
    ) -> Result<OpenPlural, OutOfMemory>
        ensures { IfOk result (λ p. p ≡ with_plural_cases self values.now body) }
    {
        let mut part = self;
        match values.split_last() {
            Some((last, others)) => match with_plural_copies(alloc, part.cases, others, &body) {
                Ok(cases) => {
                    part.cases = with_plural_case(cases, *last, body)?;
                    Ok(part)
                }
                Err(out) => {
                    drop(body);
                    Err(out)
                }
            },
            None => {
                drop(body);
                Ok(part)
            }
        }
    }
}

/// One more case.
fn with_plural_case(
    cases: Row<PluralCase>,
    is: i64,
    body: MessageBody,
) -> Result<Row<PluralCase>, OutOfMemory>
    ensures { IfOk result (λ cs. cs ≡ cases ++ (record { is = is; body = body } ∷ [])) }
{
    let mut cases = cases;
    cases.push(PluralCase { is, body })?;
    Ok(cases)
}

/// A case for each of the values, with equal bodies.
fn with_plural_copies(
    alloc: Global,
    cases: Row<PluralCase>,
    values: &[i64],
    body: &MessageBody,
) -> Result<Row<PluralCase>, OutOfMemory>
    ensures { IfOk result (λ cs. cs ≡ cases ++ plural_cases values.now body.now) }
{
    let mut cases = cases;
    for value in values {
        let body = body.copy(alloc)?;
        cases.push(PluralCase { is: *value, body })?;
    }
    Ok(cases)
}

impl OpenSelect {
    /// The select with a case for each of the words.
    #[tactic(auto, using(crate::proofs::Cases::select_cases_last))]
    fn with_cases(
        self,
        alloc: Global,
        words: &[Text],
        body: MessageBody,
    ) -> Result<OpenSelect, OutOfMemory>
        ensures { IfOk result (λ s. s ≡ with_select_cases self words.now body) }
    {
        let mut part = self;
        match words.split_last() {
            Some((last, others)) => match with_select_copies(alloc, part.cases, others, &body) {
                Ok(cases) => {
                    part.cases = with_select_case(alloc, cases, last, body)?;
                    Ok(part)
                }
                Err(out) => {
                    drop(body);
                    Err(out)
                }
            },
            None => {
                drop(body);
                Ok(part)
            }
        }
    }
}

/// One more case.
fn with_select_case(
    alloc: Global,
    cases: Row<SelectCase>,
    word: &Text,
    body: MessageBody,
) -> Result<Row<SelectCase>, OutOfMemory>
    ensures { IfOk result (λ cs. cs ≡ cases ++ (record { is = word.now; body = body } ∷ [])) }
{
    match word.copy(alloc) {
        Ok(is) => {
            let mut cases = cases;
            cases.push(SelectCase { is, body })?;
            Ok(cases)
        }
        Err(out) => {
            drop(body);
            Err(out)
        }
    }
}

/// A case for each of the words, with equal bodies.
fn with_select_copies(
    alloc: Global,
    cases: Row<SelectCase>,
    words: &[Text],
    body: &MessageBody,
) -> Result<Row<SelectCase>, OutOfMemory>
    ensures { IfOk result (λ cs. cs ≡ cases ++ select_cases words.now body.now) }
{
    let mut cases = cases;
    for word in words {
        let is = word.copy(alloc)?;
        let body = body.copy(alloc)?;
        cases.push(SelectCase { is, body })?;
    }
    Ok(cases)
}

/// Whether a block of a message is closed by this name.
pub(crate) fn closes_message(block: &Block, name: BlockName) -> bool
    ensures { result ≡ closes_message block.now name }
{
    match block {
        Block::Message(_) | Block::Fallback(_, _, _) => matches!(name, BlockName::Msg),
        Block::PluralDefault(_) => matches!(name, BlockName::Plural),
        Block::SelectDefault(_) => matches!(name, BlockName::Select),
        _ => false,
    }
}

/// A command that closes a block of a message.
fn message_closes(
    alloc: Global,
    commands: &mut CommandState,
    body: MessageBody,
    name: BlockName,
    end: Span,
) -> Result<bool, OutOfMemory>
    ensures { IfOk result (λ on. reached on commands.new ≡ message_closes commands.old.blocks body name end) }
{
    match commands.pop() {
        Some(block) => block_message_closes(alloc, commands, block, body, name, end),
        None => {
            drop(body);
            Ok(false)
        }
    }
}

/// A command that closes this block of a message.
fn block_message_closes(
    alloc: Global,
    commands: &mut CommandState,
    block: Block,
    body: MessageBody,
    name: BlockName,
    end: Span,
) -> Result<bool, OutOfMemory>
    ensures { IfOk result (λ on. reached on commands.new ≡ message_closes (block ∷ commands.old.blocks) body name end) }
{
    if closes_message(&block, name) {
        closed_message(alloc, commands, block, body, end)
    } else {
        drop(body);
        Ok(refused(block))
    }
}

/// The end of a block of a message.
fn closed_message(
    alloc: Global,
    commands: &mut CommandState,
    block: Block,
    body: MessageBody,
    end: Span,
) -> Result<bool, OutOfMemory>
    ensures { IfOk result (λ on. reached on commands.new ≡ closed_message commands.old.blocks block body end) }
{
    match block {
        Block::Message(message) => message_ends(alloc, commands, message, body, end),
        Block::Fallback(message, first, fallback) => {
            fallback_ends(alloc, commands, message, first, fallback, body, end)
        }
        Block::PluralDefault(part) => plural_ends(alloc, commands, part, body),
        Block::SelectDefault(part) => select_ends(alloc, commands, part, body),
        block => {
            drop(body);
            Ok(refused(block))
        }
    }
}

/// The end of a message without a fallback.
fn message_ends(
    alloc: Global,
    commands: &mut CommandState,
    message: OpenMessage,
    body: MessageBody,
    end: Span,
) -> Result<bool, OutOfMemory>
    ensures { IfOk result (λ on. reached on commands.new ≡
        closed_message commands.old.blocks (blocks.Message message) body end) }
{
    let start = message.start;
    let (before, message) = message.with_body(body);
    let form = Form::Message(Boxed::new(alloc, message)?, None);
    adds(commands, before, form, joined(start, end))
}

/// The end of a message with its fallback.
fn fallback_ends(
    alloc: Global,
    commands: &mut CommandState,
    message: OpenMessage,
    first: MessageBody,
    fallback: OpenFallback,
    body: MessageBody,
    end: Span,
) -> Result<bool, OutOfMemory>
    ensures { IfOk result (λ on. reached on commands.new ≡
        closed_message commands.old.blocks (blocks.Fallback message first fallback) body end) }
{
    let start = message.start;
    let (before, message) = message.with_body(first);
    let fallback = Boxed::new(alloc, fallback.with_body(body))?;
    let form = Form::Message(Boxed::new(alloc, message)?, Some(fallback));
    adds(commands, before, form, joined(start, end))
}

/// The end of a plural.
fn plural_ends(
    alloc: Global,
    commands: &mut CommandState,
    part: OpenPlural,
    body: MessageBody,
) -> Result<bool, OutOfMemory>
    ensures { IfOk result (λ on. reached on commands.new ≡ state commands.old.blocks
        (content.Choice (message_body.Plural part.selector part.offset part.cases body))) }
{
    let other = Boxed::new(alloc, body)?;
    let body = MessageBody::Plural(part.selector, part.offset, part.cases.done(), other);
    Ok(commands.holds(Content::Choice(body)))
}

/// The end of a select.
fn select_ends(
    alloc: Global,
    commands: &mut CommandState,
    part: OpenSelect,
    body: MessageBody,
) -> Result<bool, OutOfMemory>
    ensures { IfOk result (λ on. reached on commands.new ≡ state commands.old.blocks
        (content.Choice (message_body.Select part.selector part.cases body))) }
{
    let other = Boxed::new(alloc, body)?;
    let body = MessageBody::Select(part.selector, part.cases.done(), other);
    Ok(commands.holds(Content::Choice(body)))
}

impl OpenMessage {
    /// The nodes before the message, and the message.
    fn with_body(self, body: MessageBody) -> (Row<Node>, Message)
        ensures before { result.0 ≡ self.before }
        ensures message { result.1 ≡ whole_message self.desc self.meaning body self.start }
    {
        let message = Message {
            desc: self.desc,
            meaning: self.meaning,
            body,
            span: self.start,
        };
        (self.before, message)
    }
}

impl OpenFallback {
    /// The fallback as a message.
    fn with_body(self, body: MessageBody) -> Message
        ensures { result ≡ whole_message self.desc self.meaning body self.start }
    {
        Message {
            desc: self.desc,
            meaning: self.meaning,
            body,
            span: self.start,
        }
    }
}
