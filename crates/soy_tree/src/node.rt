//! Nodes of a template's body, and the messages among them.

ghost use Rattle.std.specs.Prelude.{◌≡◌, IfOk};

use crate::Expr;
use crate::expr::copied_exprs;
use soy_base::{Boxed, Kind, OutOfMemory, Seq, Span, Text, copied_name};
use std::alloc::Global;

/// A node, and where it stands: from the `{` of its command on.
#[derive(Drop)]
#[cycle(nodes)]
pub struct Node {
    pub form: Form,
    pub span: Span,
}

/// What a node is.
#[derive(Drop)]
#[cycle(nodes)]
pub enum Form {
    Text(Text),
    /// A printed expression, and its `phname`.
    Print(Expr, Option<Text>),
    /// The arms of an if, and its else.
    If(Seq<Arm>, Option<Seq<Node>>),
    /// The subject of a switch, its cases and its default.
    Switch(Expr, Seq<Case>, Option<Seq<Node>>),
    /// The variable of a loop, that of its index, the list and the body. The names are in boxes: few nodes are loops, and
    /// a node is as large as its largest form.
    For(Boxed<Text>, Option<Boxed<Text>>, Expr, Seq<Node>),
    Let(Text, Expr),
    LetBlock(Text, Kind, Seq<Node>),
    /// The name of the callee as written, without a leading dot; whether `data="all"` is there; the params.
    Call(Text, bool, Seq<Argument>),
    /// A message, and its fallback, each in a box: few nodes are messages, and a node is as large as its largest form.
    Message(Boxed<Message>, Option<Boxed<Message>>),
}

/// An arm of an if.
#[derive(Drop)]
#[cycle(nodes)]
pub struct Arm {
    pub when: Expr,
    pub body: Seq<Node>,
}

/// A case of a switch.
#[derive(Drop)]
#[cycle(nodes)]
pub struct Case {
    pub values: Seq<Expr>,
    pub body: Seq<Node>,
}

/// A param of a call.
#[derive(Drop)]
#[cycle(nodes)]
pub struct Argument {
    pub name: Text,
    pub given: Given,
    pub span: Span,
}

/// What a param of a call is given.
#[derive(Drop)]
#[cycle(nodes)]
pub enum Given {
    Plain(Expr),
    Block(Kind, Seq<Node>),
}

/// A message, or the fallback of one.
#[derive(Drop)]
#[cycle(nodes)]
pub struct Message {
    pub desc: Text,
    pub meaning: Text,
    pub body: MessageBody,
    pub span: Span,
}

/// What a message holds.
#[derive(Drop)]
#[cycle(nodes)]
pub enum MessageBody {
    Parts(Seq<Node>),
    /// The selector of a plural, its offset, its cases and its default.
    Plural(Expr, u64, Seq<PluralCase>, Boxed<MessageBody>),
    /// The selector of a select, its cases and its default.
    Select(Expr, Seq<SelectCase>, Boxed<MessageBody>),
}

/// A case of a plural, for one number.
#[derive(Drop)]
#[cycle(nodes)]
pub struct PluralCase {
    pub is: i64,
    pub body: MessageBody,
}

/// A case of a select, for one word.
#[derive(Drop)]
#[cycle(nodes)]
pub struct SelectCase {
    pub is: Text,
    pub body: MessageBody,
}

impl Node {
    /// An equal node.
    pub fn copy(&self, alloc: Global) -> Result<Node, OutOfMemory>
        ensures { IfOk result (λ n. n ≡ self.now) }
    {
        Ok(Node {
            form: self.form.copy(alloc)?,
            span: self.span,
        })
    }
}

impl Form {
    /// An equal form.
    #[cycle(copying_nodes)]
    fn copy(&self, alloc: Global) -> Result<Form, OutOfMemory>
        ensures { IfOk result (λ f. f ≡ self.now) }
    {
        match self {
            Form::Text(text) => copied_text(alloc, text),
            Form::Print(expr, phname) => copied_print(alloc, expr, phname),
            Form::If(arms, None) => Ok(Form::If(copied_arms(alloc, arms.items())?, None)),
            Form::If(arms, Some(other)) => {
                let other = copied_nodes(alloc, other.items())?;
                Ok(Form::If(copied_arms(alloc, arms.items())?, Some(other)))
            }
            Form::Switch(subject, cases, None) => {
                let cases = copied_cases(alloc, cases.items())?;
                copied_switch(alloc, subject, cases, None)
            }
            Form::Switch(subject, cases, Some(other)) => {
                let other = copied_nodes(alloc, other.items())?;
                let cases = copied_cases(alloc, cases.items())?;
                copied_switch(alloc, subject, cases, Some(other))
            }
            Form::For(name, index, list, body) => {
                let body = copied_nodes(alloc, body.items())?;
                copied_for(alloc, name.get(), index, list, body)
            }
            Form::Let(name, expr) => copied_let(alloc, name, expr),
            Form::LetBlock(name, kind, body) => {
                let body = copied_nodes(alloc, body.items())?;
                copied_let_block(alloc, name, *kind, body)
            }
            Form::Call(name, all, given) => {
                let given = copied_arguments(alloc, given.items())?;
                copied_call(alloc, name, *all, given)
            }
            Form::Message(message, None) => {
                let message = message.get().copy(alloc)?;
                copied_message(alloc, message, None)
            }
            Form::Message(message, Some(other)) => {
                let other = other.get().copy(alloc)?;
                let message = message.get().copy(alloc)?;
                copied_message(alloc, message, Some(other))
            }
        }
    }
}

/// A text node of an equal text.
fn copied_text(alloc: Global, text: &Text) -> Result<Form, OutOfMemory>
    ensures { IfOk result (λ f. f ≡ Form.Text text.now) }
{
    Ok(Form::Text(text.copy(alloc)?))
}

/// A print of an equal expression.
fn copied_print(alloc: Global, expr: &Expr, phname: &Option<Text>) -> Result<Form, OutOfMemory>
    ensures { IfOk result (λ f. f ≡ Form.Print expr.now phname.now) }
{
    let phname = copied_name(alloc, phname)?;
    Ok(Form::Print(expr.copy(alloc)?, phname))
}

/// A switch of these cases.
fn copied_switch(
    alloc: Global,
    subject: &Expr,
    cases: Seq<Case>,
    other: Option<Seq<Node>>,
) -> Result<Form, OutOfMemory>
    ensures { IfOk result (λ f. f ≡ Form.Switch subject.now cases other) }
{
    Ok(Form::Switch(subject.copy(alloc)?, cases, other))
}

/// A loop of this body.
fn copied_for(
    alloc: Global,
    name: &Text,
    index: &Option<Boxed<Text>>,
    list: &Expr,
    body: Seq<Node>,
) -> Result<Form, OutOfMemory>
    ensures { IfOk result (λ f. f ≡ Form.For name.now index.now list.now body) }
{
    let index = copied_index(alloc, index)?;
    let name = Boxed::new(alloc, name.copy(alloc)?)?;
    Ok(Form::For(name, index, list.copy(alloc)?, body))
}

/// An equal name, if there is one.
fn copied_index(
    alloc: Global,
    index: &Option<Boxed<Text>>,
) -> Result<Option<Boxed<Text>>, OutOfMemory>
    ensures { IfOk result (λ n. n ≡ index.now) }
{
    match index {
        None => Ok(None),
        Some(index) => Ok(Some(Boxed::new(alloc, index.get().copy(alloc)?)?)),
    }
}

/// A let of an equal expression.
fn copied_let(alloc: Global, name: &Text, expr: &Expr) -> Result<Form, OutOfMemory>
    ensures { IfOk result (λ f. f ≡ Form.Let name.now expr.now) }
{
    let name = name.copy(alloc)?;
    Ok(Form::Let(name, expr.copy(alloc)?))
}

/// A let of this block.
fn copied_let_block(
    alloc: Global,
    name: &Text,
    kind: Kind,
    body: Seq<Node>,
) -> Result<Form, OutOfMemory>
    ensures { IfOk result (λ f. f ≡ Form.LetBlock name.now kind body) }
{
    Ok(Form::LetBlock(name.copy(alloc)?, kind, body))
}

/// A message of these, its fallback among them.
fn copied_message(
    alloc: Global,
    message: Message,
    other: Option<Message>,
) -> Result<Form, OutOfMemory>
    ensures { IfOk result (λ f. f ≡ Form.Message message other) }
{
    match other {
        None => Ok(Form::Message(Boxed::new(alloc, message)?, None)),
        Some(other) => {
            let other = Boxed::new(alloc, other)?;
            Ok(Form::Message(Boxed::new(alloc, message)?, Some(other)))
        }
    }
}

/// A call with these params.
fn copied_call(
    alloc: Global,
    name: &Text,
    all: bool,
    given: Seq<Argument>,
) -> Result<Form, OutOfMemory>
    ensures { IfOk result (λ f. f ≡ Form.Call name.now all given) }
{
    Ok(Form::Call(name.copy(alloc)?, all, given))
}

/// Equal nodes.
#[cycle(copying_nodes)]
fn copied_nodes(alloc: Global, nodes: &[Node]) -> Result<Seq<Node>, OutOfMemory>
    ensures { IfOk result (λ ns. ns ≡ nodes.now) }
{
    let mut copied = Vec::new(alloc);
    for node in nodes {
        let form = node.form.copy(alloc)?;
        copied.push(Node {
            form,
            span: node.span,
        })?;
    }
    Ok(Seq::new(copied))
}

/// Equal arms.
#[cycle(copying_nodes)]
fn copied_arms(alloc: Global, arms: &[Arm]) -> Result<Seq<Arm>, OutOfMemory>
    ensures { IfOk result (λ xs. xs ≡ arms.now) }
{
    let mut copied = Vec::new(alloc);
    for arm in arms {
        let when = arm.when.copy(alloc)?;
        let body = copied_nodes(alloc, arm.body.items())?;
        copied.push(Arm { when, body })?;
    }
    Ok(Seq::new(copied))
}

/// Equal cases.
#[cycle(copying_nodes)]
fn copied_cases(alloc: Global, cases: &[Case]) -> Result<Seq<Case>, OutOfMemory>
    ensures { IfOk result (λ cs. cs ≡ cases.now) }
{
    let mut copied = Vec::new(alloc);
    for case in cases {
        let values = copied_exprs(alloc, case.values.items())?;
        let body = copied_nodes(alloc, case.body.items())?;
        copied.push(Case { values, body })?;
    }
    Ok(Seq::new(copied))
}

/// Equal params.
#[cycle(copying_nodes)]
fn copied_arguments(alloc: Global, arguments: &[Argument]) -> Result<Seq<Argument>, OutOfMemory>
    ensures { IfOk result (λ xs. xs ≡ arguments.now) }
{
    let mut copied = Vec::new(alloc);
    for argument in arguments {
        let name = argument.name.copy(alloc)?;
        let given = argument.given.copy(alloc)?;
        copied.push(Argument {
            name,
            given,
            span: argument.span,
        })?;
    }
    Ok(Seq::new(copied))
}

impl Given {
    /// The same is given.
    #[cycle(copying_nodes)]
    fn copy(&self, alloc: Global) -> Result<Given, OutOfMemory>
        ensures { IfOk result (λ g. g ≡ self.now) }
    {
        Ok(match self {
            Given::Plain(expr) => Given::Plain(expr.copy(alloc)?),
            Given::Block(kind, body) => Given::Block(*kind, copied_nodes(alloc, body.items())?),
        })
    }
}

impl Message {
    /// An equal message.
    #[cycle(copying_nodes)]
    fn copy(&self, alloc: Global) -> Result<Message, OutOfMemory>
        ensures { IfOk result (λ m. m ≡ self.now) }
    {
        let body = self.body.copy(alloc)?;
        worded(alloc, &self.desc, &self.meaning, body, self.span)
    }
}

/// A message of this body.
fn worded(
    alloc: Global,
    desc: &Text,
    meaning: &Text,
    body: MessageBody,
    span: Span,
) -> Result<Message, OutOfMemory>
    ensures { IfOk result (λ m. m ≡ record { desc = desc.now; meaning = meaning.now; body = body; span = span }) }
{
    let desc = desc.copy(alloc)?;
    let meaning = meaning.copy(alloc)?;
    Ok(Message {
        desc,
        meaning,
        body,
        span,
    })
}

impl MessageBody {
    /// An equal body.
    #[cycle(copying_nodes)]
    pub fn copy(&self, alloc: Global) -> Result<MessageBody, OutOfMemory>
        ensures { IfOk result (λ b. b ≡ self.now) }
    {
        match self {
            MessageBody::Parts(nodes) => Ok(MessageBody::Parts(copied_nodes(
                alloc,
                nodes.items(),
            )?)),
            MessageBody::Plural(selector, offset, cases, other) => {
                let cases = copied_plural_cases(alloc, cases.items())?;
                let other = other.get().copy(alloc)?;
                copied_plural(alloc, selector, *offset, cases, other)
            }
            MessageBody::Select(selector, cases, other) => {
                let cases = copied_select_cases(alloc, cases.items())?;
                let other = other.get().copy(alloc)?;
                copied_select(alloc, selector, cases, other)
            }
        }
    }
}

/// A plural of these cases.
fn copied_plural(
    alloc: Global,
    selector: &Expr,
    offset: u64,
    cases: Seq<PluralCase>,
    other: MessageBody,
) -> Result<MessageBody, OutOfMemory>
    ensures { IfOk result (λ b. b ≡ MessageBody.Plural selector.now offset cases other) }
{
    let other = Boxed::new(alloc, other)?;
    Ok(MessageBody::Plural(selector.copy(alloc)?, offset, cases, other))
}

/// A select of these cases.
fn copied_select(
    alloc: Global,
    selector: &Expr,
    cases: Seq<SelectCase>,
    other: MessageBody,
) -> Result<MessageBody, OutOfMemory>
    ensures { IfOk result (λ b. b ≡ MessageBody.Select selector.now cases other) }
{
    let other = Boxed::new(alloc, other)?;
    Ok(MessageBody::Select(selector.copy(alloc)?, cases, other))
}

/// Equal cases of a plural.
#[cycle(copying_nodes)]
fn copied_plural_cases(alloc: Global, cases: &[PluralCase]) -> Result<Seq<PluralCase>, OutOfMemory>
    ensures { IfOk result (λ cs. cs ≡ cases.now) }
{
    let mut copied = Vec::new(alloc);
    for case in cases {
        let body = case.body.copy(alloc)?;
        copied.push(PluralCase { is: case.is, body })?;
    }
    Ok(Seq::new(copied))
}

/// Equal cases of a select.
#[cycle(copying_nodes)]
fn copied_select_cases(alloc: Global, cases: &[SelectCase]) -> Result<Seq<SelectCase>, OutOfMemory>
    ensures { IfOk result (λ cs. cs ≡ cases.now) }
{
    let mut copied = Vec::new(alloc);
    for case in cases {
        let is = case.is.copy(alloc)?;
        let body = case.body.copy(alloc)?;
        copied.push(SelectCase { is, body })?;
    }
    Ok(Seq::new(copied))
}
