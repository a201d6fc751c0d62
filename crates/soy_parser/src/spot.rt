//! Where the reading of a command stands.

use crate::attributes::{AttributeName, Attributes};
use crate::block::CommandState;
use crate::head::Head;
use crate::held::Held;
use expr_parser::{ExprState, TypeState};
use soy_base::{Boxed, Row, Span, Text};
use soy_tree::Expr;

/// What an expression in a command is for.
#[derive(Drop)]
pub enum Use {
    Print,
    MessagePrint,
    If,
    ElseIf,
    Switch,
    Plural,
    Select,
    /// A value of a case, after these.
    Case(Row<Expr>),
    /// The list of a loop, with its variables.
    For(Boxed<Text>, Option<Boxed<Text>>),
    Let(Text),
    Param(Text),
}

/// What a name joined by dots is for.
#[derive(Clone, Copy)]
pub enum DottedUse {
    Namespace,
    Call,
}

/// Where the reading of a command stands, whose `{` has this span.
#[derive(Drop)]
pub enum Spot {
    /// After the `@` of a parameter, after its word, after a `?`, and after its name.
    TemplateParam,
    TemplateParamWord,
    TemplateParamName,
    TemplateParamColon(Text, bool),
    Type(Text, bool, Held<TypeState>),
    /// After the word `template`, and after a dot there.
    Template,
    TemplateName,
    /// After the word `call`.
    Call,
    /// Where a name joined by dots goes on with a name, and where it may go on with a dot.
    DottedName(DottedUse, Text),
    Dotted(DottedUse, Text),
    /// After the word `for`, and after its variables.
    For,
    ForIn(Text),
    ForIndex(Text),
    ForIndexIn(Text, Text),
    Let,
    LetColon(Text),
    Param,
    ParamColon(Text),
    /// Where the int of a plural's case is expected, after these, and after one.
    IntValue(Row<i64>),
    AfterInt(Row<i64>),
    /// Where the word of a select's case is expected, after these, and after one.
    CaseWord(Row<Text>),
    AfterCaseWord(Row<Text>),
    Expr(Use, Held<ExprState>),
    Attributes(Held<Head>, Held<Attributes>),
    /// After the name of an attribute, and after its `=`.
    Equals(Held<Head>, Held<Attributes>, AttributeName),
    Value(Held<Head>, Held<Attributes>, AttributeName),
}

/// Between two commands, directly after a `{`, or further on in a command.
#[derive(Drop)]
pub enum CommandSpot {
    Between,
    Opened(Span),
    Inside(Span, Spot),
}

/// What was read of a file.
#[derive(Drop)]
pub struct FileState {
    pub commands: CommandState,
    pub spot: CommandSpot,
}
