//! Which commands may stand where, by their first token.

ghost use Rattle.std.specs.Prelude.{◌≡◌};
ghost use Rattle.soy_base.specs.Stacks.{top_of};
ghost use Rattle.soy_parser.specs.FileSteps.{admits, body_admits, cases_admit, head_kind, in_body_admits};
ghost use Rattle.soy_parser.specs.FileSteps.{in_call_admits, in_parts_admits, in_templates_admits, in_white_admits};
ghost use Rattle.soy_parser.specs.FileSteps.{is_template, message_admits, middle_kind, opening_kind, single_kind};
ghost use Rattle.soy_parser.specs.FileSteps.{form_kind, top_admits};

use crate::block::{Block, CommandState, Content, Nodes};
use crate::blocks::closes_body;
use crate::command::{CommandForm, Middle, Opening, Single};
use crate::head::{Head, HeadKind};
use crate::messages::closes_message;
use crate::terminal::BlockName;
use soy_base::Stack;

impl Single {
    fn kind(&self) -> HeadKind
        ensures { result ≡ single_kind self.now }
    {
        match self {
            Single::Print(_) => HeadKind::Print,
            Single::MessagePrint(_, _) => HeadKind::MessagePrint,
            Single::Let(_, _) => HeadKind::Let,
            Single::Call(_, _) => HeadKind::Call,
            Single::Param(_, _) => HeadKind::Param,
        }
    }
}

impl Opening {
    fn kind(&self) -> HeadKind
        ensures { result ≡ opening_kind self.now }
    {
        match self {
            Opening::Template(_) => HeadKind::Template,
            Opening::If(_) => HeadKind::If,
            Opening::Switch(_) => HeadKind::Switch,
            Opening::For(_, _, _) => HeadKind::For,
            Opening::Let(_, _) => HeadKind::Let,
            Opening::Call(_, _) => HeadKind::Call,
            Opening::Param(_, _) => HeadKind::Param,
            Opening::Message(_, _) => HeadKind::Message,
            Opening::Plural(_, _) => HeadKind::Plural,
            Opening::Select(_) => HeadKind::Select,
        }
    }
}

impl Middle {
    fn kind(&self) -> HeadKind
        ensures { result ≡ middle_kind self.now }
    {
        match self {
            Middle::ElseIf(_) => HeadKind::ElseIf,
            Middle::Else => HeadKind::Else,
            Middle::Case(_) => HeadKind::Case,
            Middle::PluralCase(_) => HeadKind::PluralCase,
            Middle::SelectCase(_) => HeadKind::SelectCase,
            Middle::Default => HeadKind::Default,
            Middle::Fallback(_, _) => HeadKind::Fallback,
        }
    }
}

impl CommandForm {
    fn kind(&self) -> HeadKind
        ensures { result ≡ form_kind self.now }
    {
        match self {
            CommandForm::Text(_) | CommandForm::Character(_) => HeadKind::Character,
            CommandForm::Namespace(_) => HeadKind::Namespace,
            CommandForm::TemplateParam(_, _, _) => HeadKind::TemplateParam,
            CommandForm::Single(of) => of.kind(),
            CommandForm::Opens(of) => of.kind(),
            CommandForm::GoesOn(of) => of.kind(),
            CommandForm::Closes(name) => HeadKind::Closes(*name),
        }
    }
}

impl Head {
    /// The kind of the head.
    pub(crate) fn kind(&self) -> HeadKind
        ensures { result ≡ head_kind self.now }
    {
        match self {
            Head::Whole(of) => of.kind(),
            Head::Alone(of) => of.kind(),
            Head::Template(_) => HeadKind::Template,
            Head::MessagePrint(_) => HeadKind::MessagePrint,
            Head::Let(_) => HeadKind::Let,
            Head::Param(_) => HeadKind::Param,
            Head::Call(_) => HeadKind::Call,
            Head::Message => HeadKind::Message,
            Head::Fallback => HeadKind::Fallback,
            Head::Plural(_) => HeadKind::Plural,
        }
    }
}

/// Whether the body of this block admits the head, of those that not every body admits.
fn body_admits(block: &Block, kind: HeadKind) -> bool
    ensures { result ≡ body_admits block.now kind }
{
    match kind {
        HeadKind::ElseIf | HeadKind::Else => matches!(block, Block::Arm(_, _)),
        HeadKind::Case | HeadKind::Default => matches!(block, Block::Case(_, _)),
        HeadKind::Closes(name) => closes_body(block, name),
        _ => false,
    }
}

/// Whether what a message holds inside this block admits the head, of those that not every such content admits.
fn message_admits(block: &Block, kind: HeadKind) -> bool
    ensures { result ≡ message_admits block.now kind }
{
    match kind {
        HeadKind::Fallback => matches!(block, Block::Message(_)),
        HeadKind::PluralCase => matches!(block, Block::PluralCase(_, _)),
        HeadKind::SelectCase => matches!(block, Block::SelectCase(_, _)),
        HeadKind::Default => { matches!(block, Block::PluralCase(_, _) | Block::SelectCase(_, _)) }
        HeadKind::Closes(name) => closes_message(block, name),
        _ => false,
    }
}

/// Whether this block admits the head before its first case.
fn cases_admit(block: &Block, kind: HeadKind) -> bool
    ensures { result ≡ cases_admit block.now kind }
{
    match block {
        Block::Switch(_, _, _) => {
            matches!(
                kind,
                HeadKind::Case | HeadKind::Default | HeadKind::Closes(BlockName::Switch)
            )
        }
        Block::Plural(_, _) => matches!(kind, HeadKind::PluralCase | HeadKind::Default),
        Block::Select(_) => matches!(kind, HeadKind::SelectCase | HeadKind::Default),
        _ => false,
    }
}

/// Whether the innermost block has a body that admits the head.
fn top_body_admits(blocks: &Stack<Block>, kind: HeadKind) -> bool
    ensures { result ≡ top_admits body_admits blocks.now kind }
{
    match blocks.top() {
        Some(block) => body_admits(block, kind),
        None => false,
    }
}

/// Whether what a message holds inside the innermost block admits the head.
fn top_message_admits(blocks: &Stack<Block>, kind: HeadKind) -> bool
    ensures { result ≡ top_admits message_admits blocks.now kind }
{
    match blocks.top() {
        Some(block) => message_admits(block, kind),
        None => false,
    }
}

/// Whether the innermost block admits the head before its first case.
fn top_cases_admit(blocks: &Stack<Block>, kind: HeadKind) -> bool
    ensures { result ≡ top_admits cases_admit blocks.now kind }
{
    match blocks.top() {
        Some(block) => cases_admit(block, kind),
        None => false,
    }
}

/// Whether the innermost block is a template.
fn is_in_template(blocks: &Stack<Block>) -> bool
    ensures { result ≡ top_admits is_template blocks.now HeadKind.TemplateParam }
{
    match blocks.top() {
        Some(block) => is_template(block),
        None => false,
    }
}

fn is_template(block: &Block) -> bool
    ensures { result ≡ is_template block.now HeadKind.TemplateParam }
{
    matches!(block, Block::Template(_))
}

/// Whether a body admits the head.
fn in_body_admits(blocks: &Stack<Block>, nodes: &Nodes, kind: HeadKind) -> bool
    ensures { result ≡ in_body_admits blocks.now nodes.now kind }
{
    match kind {
        HeadKind::Character => true,
        HeadKind::Print => true,
        HeadKind::If => true,
        HeadKind::Switch => true,
        HeadKind::For => true,
        HeadKind::Let => true,
        HeadKind::Call => true,
        HeadKind::Message => true,
        HeadKind::TemplateParam => nodes.is_empty() && is_in_template(blocks),
        _ => top_body_admits(blocks, kind),
    }
}

/// Whether the texts and prints of a message admit the head.
fn in_parts_admits(blocks: &Stack<Block>, nodes: &Nodes, white: bool, kind: HeadKind) -> bool
    ensures { result ≡ in_parts_admits blocks.now nodes.now white kind }
{
    match kind {
        HeadKind::Character => true,
        HeadKind::MessagePrint => true,
        HeadKind::Plural => white,
        HeadKind::Select => white,
        _ => top_message_admits(blocks, kind) && nodes.has_whole_tags(),
    }
}

impl CommandState {
    /// Whether some file goes on with a command whose head is of this kind.
    pub(crate) fn admits(&self, kind: HeadKind) -> bool
        ensures { result ≡ admits self.now kind }
    {
        match &self.content {
            Content::White => matches!(kind, HeadKind::Namespace),
            Content::Templates(_, _) => matches!(kind, HeadKind::Template),
            Content::Body(nodes) => in_body_admits(&self.blocks, nodes, kind),
            Content::Arguments(_) => {
                matches!(kind, HeadKind::Param | HeadKind::Closes(BlockName::Call))
            }
            Content::BeforeCases => top_cases_admit(&self.blocks, kind),
            Content::Parts(nodes, white) => in_parts_admits(&self.blocks, nodes, *white, kind),
            Content::Choice(_) => top_message_admits(&self.blocks, kind),
        }
    }
}
