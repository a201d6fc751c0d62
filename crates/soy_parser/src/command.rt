//! Commands, each as a whole.

use crate::terminal::BlockName;
use soy_base::{Boxed, Kind, Row, Span, Text};
use soy_tree::{Expr, SoyType};

/// What the opening command of a template says.
#[derive(Drop)]
pub struct TemplateOpening {
    pub name: Text,
    pub kind: Kind,
    pub private: bool,
}

/// A command that holds no block.
#[derive(Drop)]
pub enum Single {
    Print(Expr),
    /// A print in a message, with its `phname`.
    MessagePrint(Expr, Option<Text>),
    Let(Text, Expr),
    /// A call without params: the name, and whether `data="all"` is there.
    Call(Text, bool),
    Param(Text, Expr),
}

/// A command that opens a block.
#[derive(Drop)]
pub enum Opening {
    Template(TemplateOpening),
    If(Expr),
    Switch(Expr),
    /// The variable of a loop, that of its index, and the list.
    For(Boxed<Text>, Option<Boxed<Text>>, Expr),
    Let(Text, Kind),
    Call(Text, bool),
    Param(Text, Kind),
    /// The `desc` and `meaning` of a message.
    Message(Text, Text),
    /// The selector of a plural, and its offset.
    Plural(Expr, u64),
    Select(Expr),
}

/// A command with which a block goes on.
#[derive(Drop)]
pub enum Middle {
    ElseIf(Expr),
    Else,
    Case(Row<Expr>),
    PluralCase(Row<i64>),
    SelectCase(Row<Text>),
    Default,
    /// The `desc` and `meaning` of a message.
    Fallback(Text, Text),
}

/// What a command says. A text run or a literal is a command too.
#[derive(Drop)]
pub enum CommandForm {
    Text(Text),
    /// A character command, with its text.
    Character(Text),
    Namespace(Text),
    /// A parameter's name, whether it is required, and its type.
    TemplateParam(Text, bool, SoyType),
    Single(Single),
    Opens(Opening),
    GoesOn(Middle),
    Closes(BlockName),
}

/// A command, and where it stands.
#[derive(Drop)]
pub struct Command {
    pub form: CommandForm,
    pub span: Span,
}
