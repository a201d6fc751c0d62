//! What a command says before its attributes.

use crate::command::{CommandForm, Single};
use crate::terminal::BlockName;
use soy_base::Text;
use soy_tree::Expr;

/// What a command says before its attributes.
#[derive(Drop)]
pub enum Head {
    /// A command without attributes, before its `}`.
    Whole(CommandForm),
    /// One before its `/}`.
    Alone(Single),
    Template(Text),
    MessagePrint(Expr),
    Let(Text),
    Param(Text),
    Call(Text),
    Message,
    Fallback,
    Plural(Expr),
}

/// The kind of a head, which is known at its first token.
#[derive(Clone, Copy)]
pub enum HeadKind {
    Character,
    Namespace,
    Template,
    TemplateParam,
    Print,
    MessagePrint,
    If,
    ElseIf,
    Else,
    Switch,
    Case,
    PluralCase,
    SelectCase,
    Default,
    For,
    Let,
    Call,
    Param,
    Message,
    Fallback,
    Plural,
    Select,
    Closes(BlockName),
}
