//! What is open around the commands to come.

use crate::command::TemplateOpening;
use soy_base::{Boxed, Kind, Row, Span, Stack, Text};
use soy_tree::{
    Argument, Arm, Case, Expr, MessageBody, Node, Param, PluralCase, SelectCase, Template,
};

/// A template, and what stands before it.
#[derive(Drop)]
pub struct OpenTemplate {
    pub namespace: Text,
    pub templates: Row<Template>,
    pub head: TemplateOpening,
    pub start: Span,
    pub params: Row<Param>,
}

/// An if, and the nodes before it.
#[derive(Drop)]
pub struct OpenIf {
    pub before: Row<Node>,
    pub start: Span,
    pub arms: Row<Arm>,
}

/// A switch, and the nodes before it.
#[derive(Drop)]
pub struct OpenSwitch {
    pub before: Row<Node>,
    pub start: Span,
    pub subject: Expr,
    pub cases: Row<Case>,
}

/// A message, and the nodes before it.
#[derive(Drop)]
pub struct OpenMessage {
    pub before: Row<Node>,
    pub start: Span,
    pub desc: Text,
    pub meaning: Text,
}

/// The fallback of a message.
#[derive(Drop)]
pub struct OpenFallback {
    pub start: Span,
    pub desc: Text,
    pub meaning: Text,
}

/// A plural, up to a case.
#[derive(Drop)]
pub struct OpenPlural {
    pub selector: Expr,
    pub offset: u64,
    pub cases: Row<PluralCase>,
}

/// A select, up to a case.
#[derive(Drop)]
pub struct OpenSelect {
    pub selector: Expr,
    pub cases: Row<SelectCase>,
}

/// A block command that is open: what stands before it, and what it says itself up to its part that is open.
#[derive(Drop)]
pub enum Block {
    Template(OpenTemplate),
    /// The arm of an if, with its condition.
    Arm(OpenIf, Expr),
    Else(OpenIf),
    For(Row<Node>, Span, Boxed<Text>, Option<Boxed<Text>>, Expr),
    Let(Row<Node>, Span, Text, Kind),
    Call(Row<Node>, Span, Text, bool),
    /// A param of a call, with those before it.
    Param(Row<Argument>, Span, Text, Kind),
    /// A switch before its first case.
    Switch(Row<Node>, Span, Expr),
    Case(OpenSwitch, Row<Expr>),
    SwitchDefault(OpenSwitch),
    Message(OpenMessage),
    /// The fallback of a message, and what the message holds.
    Fallback(OpenMessage, MessageBody, OpenFallback),
    /// A plural before its first case.
    Plural(Expr, u64),
    PluralCase(OpenPlural, Row<i64>),
    PluralDefault(OpenPlural),
    /// A select before its first case.
    Select(Expr),
    SelectCase(OpenSelect, Row<Text>),
    SelectDefault(OpenSelect),
}

/// Neighbouring texts, as one.
#[derive(Drop)]
pub struct TextRun {
    pub text: Text,
    pub span: Span,
}

/// Nodes, and the text after them that may go on.
#[derive(Drop)]
pub struct Nodes {
    pub items: Row<Node>,
    pub run: Option<TextRun>,
}

/// What was read of the innermost block.
#[derive(Drop)]
pub enum Content {
    /// Nothing but white text, before the namespace.
    White,
    /// The namespace, and the templates so far.
    Templates(Text, Row<Template>),
    Body(Nodes),
    /// What a call is given.
    Arguments(Row<Argument>),
    /// Nothing but white text, before the first case of a switch, plural or select.
    BeforeCases,
    /// The texts and prints of a message, and whether they are white text alone.
    Parts(Nodes, bool),
    /// A plural or select of a message.
    Choice(MessageBody),
}

/// What was read of a file, as commands.
#[derive(Drop)]
pub struct CommandState {
    pub blocks: Stack<Block>,
    pub content: Content,
}
