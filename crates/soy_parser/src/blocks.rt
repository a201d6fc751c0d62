//! What goes on with a block that has a body, and what closes it.

ghost use Rattle.std.specs.Prelude.{◌≡◌, ◌++◌, ◌∷◌, [], false, IfOk, None, if◌then◌else◌};
ghost use Rattle.soy_base.specs.Stacks.{Pops};
ghost use Rattle.soy_parser.specs.CommandSteps.{adds, arm_goes_on, begins, begins_parts, body_closes, body_goes_on};
ghost use Rattle.soy_parser.specs.CommandSteps.{case_goes_on, closed_body, closed_if, closed_switch, closed_template};
ghost use Rattle.soy_parser.specs.CommandSteps.{closes_body, ended, state, with_arm, with_case, with_param};
ghost use Rattle.soy_parser.specs.Nodes.{argument_of, node_of};
ghost use Rattle.soy_parser.specs.Reached.{reached};
ghost use Rattle.soy_parser.specs.SpellsTree.{template_of};
ghost use Rattle.soy_parser.specs.declared.block.Content.TheVariants as content;

use crate::block::{Block, CommandState, Content, Nodes, OpenIf, OpenSwitch, OpenTemplate};
use crate::command::{Middle, TemplateOpening};
use crate::nodes::{joined, up_to, with_node};
use crate::terminal::BlockName;
use soy_base::{OutOfMemory, Row, Seq, Span, Text};
use soy_tree::{Argument, Arm, Case, Expr, Form, Given, Node, Param, Template};
use std::alloc::Global;
use std::mem::replace;

impl CommandState {
    /// The content of the innermost block, for a step that says what it is next.
    pub(crate) fn take_content(&mut self) -> Content
        ensures content { result ≡ self.old.content }
        ensures blocks { self.new.blocks ≡ self.old.blocks }
    {
        replace(&mut self.content, Content::White)
    }

    /// This is the content of the innermost block.
    fn set_content(&mut self, content: Content)
        ensures { self.new ≡ record { blocks = self.old.blocks; content = content } }
    {
        let before = replace(&mut self.content, content);
        drop(before);
    }

    /// This is the content of the innermost block, if this holds.
    #[tactic(auto, using(crate::proofs::OfFiles::Reaching::reached_if))]
    pub(crate) fn holds_if(&mut self, content: Content, holds: bool) -> bool
        ensures { reached result self.new ≡ (if holds then state self.old.blocks content else None) }
    {
        self.set_content(content);
        holds
    }

    /// This is the content of the innermost block.
    pub(crate) fn holds(&mut self, content: Content) -> bool
        ensures { reached result self.new ≡ state self.old.blocks content }
    {
        self.holds_if(content, true)
    }

    /// Takes the innermost block, if one is open.
    pub(crate) fn pop(&mut self) -> Option<Block>
        ensures { Pops self.old.blocks self.new.blocks result }
    {
        self.blocks.pop()
    }
}

/// A block opens, and this is its content.
pub(crate) fn opens_with(
    commands: &mut CommandState,
    block: Block,
    content: Content,
) -> Result<bool, OutOfMemory>
    ensures { IfOk result (λ on. reached on commands.new ≡ state (block ∷ commands.old.blocks) content) }
{
    commands.set_content(content);
    commands.blocks.push(block)?;
    Ok(true)
}

/// A node has come.
pub(crate) fn adds(
    commands: &mut CommandState,
    before: Row<Node>,
    form: Form,
    span: Span,
) -> Result<bool, OutOfMemory>
    ensures { IfOk result (λ on. reached on commands.new ≡ adds commands.old.blocks before (node_of form span)) }
{
    let items = with_node(before, form, span)?;
    Ok(commands.holds(Content::Body(Nodes { items, run: None })))
}

/// A node has come, after these.
pub(crate) fn adds_after(
    commands: &mut CommandState,
    before: Nodes,
    form: Form,
    span: Span,
) -> Result<bool, OutOfMemory>
    ensures { IfOk result (λ on. reached on commands.new ≡
        adds commands.old.blocks (ended before) (node_of form span)) }
{
    match before.ended() {
        Ok(before) => adds(commands, before, form, span),
        Err(out) => {
            drop(form);
            Err(out)
        }
    }
}

/// A body begins inside a block.
pub(crate) fn begins(
    alloc: Global,
    commands: &mut CommandState,
    block: Block,
) -> Result<bool, OutOfMemory>
    ensures { IfOk result (λ on. reached on commands.new ≡ begins commands.old.blocks block) }
{
    opens_with(commands, block, Content::Body(Nodes::none(alloc)))
}

/// What a message holds begins inside a block.
pub(crate) fn begins_parts(
    alloc: Global,
    commands: &mut CommandState,
    block: Block,
) -> Result<bool, OutOfMemory>
    ensures { IfOk result (λ on. reached on commands.new ≡ begins_parts commands.old.blocks block) }
{
    opens_with(commands, block, Content::Parts(Nodes::none(alloc), true))
}

impl OpenTemplate {
    /// The template with one more parameter.
    pub(crate) fn with_param(self, param: Param) -> Result<OpenTemplate, OutOfMemory>
        ensures { IfOk result (λ t. t ≡ with_param self param) }
    {
        let mut template = self;
        template.params.push(param)?;
        Ok(template)
    }
}

impl OpenIf {
    /// The if with one more arm.
    fn with_arm(self, when: Expr, body: Row<Node>) -> Result<OpenIf, OutOfMemory>
        ensures { IfOk result (λ i. i ≡ with_arm self when body) }
    {
        let mut part = self;
        part.arms.push(Arm {
            when,
            body: body.done(),
        })?;
        Ok(part)
    }
}

impl OpenSwitch {
    /// The switch with one more case.
    fn with_case(self, values: Row<Expr>, body: Row<Node>) -> Result<OpenSwitch, OutOfMemory>
        ensures { IfOk result (λ s. s ≡ with_case self values body) }
    {
        let mut part = self;
        part.cases.push(Case {
            values: values.done(),
            body: body.done(),
        })?;
        Ok(part)
    }
}

/// A body's block goes on.
pub(crate) fn body_goes_on(
    alloc: Global,
    commands: &mut CommandState,
    nodes: Row<Node>,
    of: Middle,
) -> Result<bool, OutOfMemory>
    ensures { IfOk result (λ on. reached on commands.new ≡ body_goes_on commands.old.blocks nodes of) }
{
    match commands.pop() {
        Some(block) => block_goes_on(alloc, commands, block, nodes, of),
        None => Ok(refused_middle(of)),
    }
}

/// This block goes on.
fn block_goes_on(
    alloc: Global,
    commands: &mut CommandState,
    block: Block,
    nodes: Row<Node>,
    of: Middle,
) -> Result<bool, OutOfMemory>
    ensures { IfOk result (λ on. reached on commands.new ≡ body_goes_on (block ∷ commands.old.blocks) nodes of) }
{
    match block {
        Block::Arm(part, when) => arm_ends(alloc, commands, part, when, nodes, of),
        Block::Case(part, values) => case_ends(alloc, commands, part, values, nodes, of),
        block => {
            refused_middle(of);
            Ok(refused(block))
        }
    }
}

/// An arm of an if ends, and the if goes on.
fn arm_ends(
    alloc: Global,
    commands: &mut CommandState,
    part: OpenIf,
    when: Expr,
    nodes: Row<Node>,
    of: Middle,
) -> Result<bool, OutOfMemory>
    ensures { IfOk result (λ on. reached on commands.new ≡
        arm_goes_on commands.old.blocks (with_arm part when nodes) of) }
{
    match part.with_arm(when, nodes) {
        Ok(part) => arm_goes_on(alloc, commands, part, of),
        Err(out) => {
            refused_middle(of);
            Err(out)
        }
    }
}

/// A case of a switch ends, and the switch goes on.
fn case_ends(
    alloc: Global,
    commands: &mut CommandState,
    part: OpenSwitch,
    values: Row<Expr>,
    nodes: Row<Node>,
    of: Middle,
) -> Result<bool, OutOfMemory>
    ensures { IfOk result (λ on. reached on commands.new ≡
        case_goes_on commands.old.blocks (with_case part values nodes) of) }
{
    match part.with_case(values, nodes) {
        Ok(part) => case_goes_on(alloc, commands, part, of),
        Err(out) => {
            refused_middle(of);
            Err(out)
        }
    }
}

/// An if goes on.
fn arm_goes_on(
    alloc: Global,
    commands: &mut CommandState,
    part: OpenIf,
    of: Middle,
) -> Result<bool, OutOfMemory>
    ensures { IfOk result (λ on. reached on commands.new ≡ arm_goes_on commands.old.blocks part of) }
{
    match of {
        Middle::ElseIf(when) => begins(alloc, commands, Block::Arm(part, when)),
        Middle::Else => begins(alloc, commands, Block::Else(part)),
        of => Ok(refused_middle(of)),
    }
}

/// A switch goes on.
pub(crate) fn case_goes_on(
    alloc: Global,
    commands: &mut CommandState,
    part: OpenSwitch,
    of: Middle,
) -> Result<bool, OutOfMemory>
    ensures { IfOk result (λ on. reached on commands.new ≡ case_goes_on commands.old.blocks part of) }
{
    match of {
        Middle::Case(values) => begins(alloc, commands, Block::Case(part, values)),
        Middle::Default => begins(alloc, commands, Block::SwitchDefault(part)),
        of => Ok(refused_middle(of)),
    }
}

/// Whether a block that has a body is closed by this name.
pub(crate) fn closes_body(block: &Block, name: BlockName) -> bool
    ensures { result ≡ closes_body block.now name }
{
    match block {
        Block::Template(_) => matches!(name, BlockName::Template),
        Block::Arm(_, _) | Block::Else(_) => matches!(name, BlockName::If),
        Block::For(_, _, _, _, _) => matches!(name, BlockName::For),
        Block::Let(_, _, _, _) => matches!(name, BlockName::Let),
        Block::Param(_, _, _, _) => matches!(name, BlockName::Param),
        Block::Case(_, _) | Block::SwitchDefault(_) => matches!(name, BlockName::Switch),
        _ => false,
    }
}

/// A command that closes a body's block.
pub(crate) fn body_closes(
    commands: &mut CommandState,
    nodes: Row<Node>,
    name: BlockName,
    end: Span,
) -> Result<bool, OutOfMemory>
    ensures { IfOk result (λ on. reached on commands.new ≡ body_closes commands.old.blocks nodes name end) }
{
    match commands.pop() {
        Some(block) => block_closes(commands, block, nodes, name, end),
        None => Ok(false),
    }
}

/// A command that closes this block.
fn block_closes(
    commands: &mut CommandState,
    block: Block,
    nodes: Row<Node>,
    name: BlockName,
    end: Span,
) -> Result<bool, OutOfMemory>
    ensures { IfOk result (λ on. reached on commands.new ≡ body_closes (block ∷ commands.old.blocks) nodes name end) }
{
    if closes_body(&block, name) {
        closed_body(commands, block, nodes, end)
    } else {
        Ok(refused(block))
    }
}

/// The end of a block that has a body.
fn closed_body(
    commands: &mut CommandState,
    block: Block,
    nodes: Row<Node>,
    end: Span,
) -> Result<bool, OutOfMemory>
    ensures { IfOk result (λ on. reached on commands.new ≡ closed_body commands.old.blocks block nodes end) }
{
    match block {
        Block::Template(template) => closed_template(commands, template, nodes, end),
        Block::Arm(part, when) => closed_arm(commands, part, when, nodes, end),
        Block::Else(part) => closed_if(commands, part, Some(nodes.done()), end),
        Block::For(before, start, name, index, list) => {
            let form = Form::For(name, index, list, nodes.done());
            adds(commands, before, form, joined(start, end))
        }
        Block::Let(before, start, name, kind) => {
            let form = Form::LetBlock(name, kind, nodes.done());
            adds(commands, before, form, up_to(start, end))
        }
        Block::Param(arguments, start, name, kind) => {
            let given = Given::Block(kind, nodes.done());
            adds_argument(commands, arguments, name, given, up_to(start, end))
        }
        Block::Case(part, values) => closed_case(commands, part, values, nodes, end),
        Block::SwitchDefault(part) => closed_switch(commands, part, Some(nodes.done()), end),
        block => Ok(refused(block)),
    }
}

/// The end of an if after one of its arms.
fn closed_arm(
    commands: &mut CommandState,
    part: OpenIf,
    when: Expr,
    nodes: Row<Node>,
    end: Span,
) -> Result<bool, OutOfMemory>
    ensures { IfOk result (λ on. reached on commands.new ≡
        closed_if commands.old.blocks (with_arm part when nodes) None end) }
{
    closed_if(commands, part.with_arm(when, nodes)?, None, end)
}

/// The end of a switch after one of its cases.
fn closed_case(
    commands: &mut CommandState,
    part: OpenSwitch,
    values: Row<Expr>,
    nodes: Row<Node>,
    end: Span,
) -> Result<bool, OutOfMemory>
    ensures { IfOk result (λ on. reached on commands.new ≡
        closed_switch commands.old.blocks (with_case part values nodes) None end) }
{
    closed_switch(commands, part.with_case(values, nodes)?, None, end)
}

/// A block in which no file goes on.
pub(crate) fn refused(block: Block) -> bool
    ensures { result ≡ false }
{
    drop(block);
    false
}

/// A command with which no block goes on.
pub(crate) fn refused_middle(of: Middle) -> bool
    ensures { result ≡ false }
{
    drop(of);
    false
}

/// A param of a call has come.
pub(crate) fn adds_argument(
    commands: &mut CommandState,
    arguments: Row<Argument>,
    name: Text,
    given: Given,
    span: Span,
) -> Result<bool, OutOfMemory>
    ensures { IfOk result (λ on. reached on commands.new ≡ state commands.old.blocks (content.Arguments
        (arguments ++ (argument_of name given span ∷ [])))) }
{
    let mut arguments = arguments;
    arguments.push(Argument { name, given, span })?;
    Ok(commands.holds(Content::Arguments(arguments)))
}

/// The end of an if.
fn closed_if(
    commands: &mut CommandState,
    part: OpenIf,
    other: Option<Seq<Node>>,
    end: Span,
) -> Result<bool, OutOfMemory>
    ensures { IfOk result (λ on. reached on commands.new ≡ closed_if commands.old.blocks part other end) }
{
    let span = joined(part.start, end);
    adds(
        commands,
        part.before,
        Form::If(part.arms.done(), other),
        span,
    )
}

/// The end of a switch.
pub(crate) fn closed_switch(
    commands: &mut CommandState,
    part: OpenSwitch,
    other: Option<Seq<Node>>,
    end: Span,
) -> Result<bool, OutOfMemory>
    ensures { IfOk result (λ on. reached on commands.new ≡ closed_switch commands.old.blocks part other end) }
{
    let span = joined(part.start, end);
    let form = Form::Switch(part.subject, part.cases.done(), other);
    adds(commands, part.before, form, span)
}

/// The end of a template.
fn closed_template(
    commands: &mut CommandState,
    template: OpenTemplate,
    body: Row<Node>,
    end: Span,
) -> Result<bool, OutOfMemory>
    ensures { IfOk result (λ on. reached on commands.new ≡ closed_template commands.old.blocks template body end) }
{
    let OpenTemplate {
        namespace,
        templates,
        head,
        start,
        params,
    } = template;
    let mut templates = templates;
    templates.push(template_of(head, params, body, up_to(start, end)))?;
    Ok(commands.holds(Content::Templates(namespace, templates)))
}

/// The template of these parts.
fn template_of(head: TemplateOpening, params: Row<Param>, body: Row<Node>, span: Span) -> Template
    ensures { result ≡ template_of head params body span }
{
    Template {
        name: head.name,
        kind: head.kind,
        private: head.private,
        params: params.done(),
        body: body.done(),
        span,
    }
}
