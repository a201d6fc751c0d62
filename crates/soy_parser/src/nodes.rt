//! Nodes that are read, and the text after them that may go on.

ghost use Rattle.std.specs.Prelude.{◌≡◌, ◌++◌, ◌∷◌, [], IfOk, OnOk, None, Some};
ghost use Rattle.std.specs.Str.{chars};
ghost use Rattle.expr_parser.specs.Operands.{joined};
ghost use Rattle.soy_base.specs.WhiteSpace.{is_template_space};
ghost use Rattle.soy_parser.specs.CommandSteps.{ended, has_whole_tags, is_empty, is_white, no_nodes, text_run};
ghost use Rattle.soy_parser.specs.CommandSteps.{nodes_with, with_text};
ghost use Rattle.soy_parser.specs.CommandSteps.{body_of_parts};
ghost use Rattle.soy_parser.specs.Nodes.{node_of, text_span, up_to};
ghost use Rattle.soy_tree.specs.declared.node.Form.TheVariants as forms;

use crate::block::{Nodes, TextRun};
use soy_base::{OutOfMemory, Row, Span, Text, is_template_space};
use soy_tree::{Expr, Form, MessageBody, Node, is_message_text, is_message_text_with};
use std::alloc::Global;

/// From the start of one span to the end of the other.
pub(crate) fn joined(from: Span, to: Span) -> Span
    ensures { result ≡ joined from to }
{
    Span {
        start: from.start,
        end: to.end,
    }
}

/// From the start of one span to the start of the other.
pub(crate) fn up_to(from: Span, to: Span) -> Span
    ensures { result ≡ up_to from to }
{
    Span {
        start: from.start,
        end: to.start,
    }
}

/// Whether a text is white space alone.
pub(crate) fn is_white(text: &Text) -> bool
    ensures { result ≡ is_white text.now }
{
    is_white_text(text.text())
}

fn is_white_text(text: &str) -> bool
    ensures { result ≡ is_white (chars text.now) }
{
    text.chars().all(is_space)
}

fn is_space(c: char) -> bool
    ensures { result ≡ is_template_space c }
{
    is_template_space(c)
}

/// Where two neighbouring texts stand as one.
#[tactic(auto, using(crate::proofs::Cases::text_start_by_empty))]
fn text_span(text: &Text, more: &Text, a: Span, b: Span) -> Span
    ensures { result ≡ text_span text.now more.now a b }
{
    let start = if text.is_empty() && !more.is_empty() {
        b.start
    } else {
        a.start
    };
    Span { start, end: b.end }
}

impl TextRun {
    /// Adds one more text.
    fn add(&mut self, more: Text, span: Span) -> Result<(), OutOfMemory>
        ensures { OnOk result (self.new ≡ text_run (Some self.old) more span) }
    {
        self.span = text_span(&self.text, &more, self.span, span);
        self.text.append(&more)
    }
}

impl Nodes {
    /// No nodes. Takes no memory.
    pub(crate) fn none(alloc: Global) -> Nodes
        ensures { result ≡ no_nodes }
    {
        Nodes {
            items: Row::empty(alloc),
            run: None,
        }
    }

    /// Whether nothing was read.
    #[tactic(auto, using(crate::proofs::Cases::empty_by_length))]
    pub(crate) fn is_empty(&self) -> bool
        ensures { result ≡ is_empty self.now }
    {
        match &self.run {
            None => self.items.items().is_empty(),
            Some(_) => false,
        }
    }

    /// Whether the nodes, with the text after them, are texts, prints and whole tags.
    pub(crate) fn has_whole_tags(&self) -> bool
        ensures { result ≡ has_whole_tags self.now }
    {
        match &self.run {
            None => is_message_text(self.items.items()),
            Some(run) => is_message_text_with(self.items.items(), &run.text),
        }
    }

    /// The nodes with one more text.
    pub(crate) fn with_text(self, text: Text, span: Span) -> Result<Nodes, OutOfMemory>
        ensures { IfOk result (λ nodes. nodes ≡ with_text self text span) }
    {
        let mut nodes = self;
        nodes.add_text(text, span)?;
        Ok(nodes)
    }

    /// Adds one more text.
    pub(crate) fn add_text(&mut self, text: Text, span: Span) -> Result<(), OutOfMemory>
        ensures { OnOk result (self.new ≡ with_text self.old text span) }
    {
        match &mut self.run {
            Some(run) => run.add(text, span),
            None => {
                self.run = Some(TextRun { text, span });
                Ok(())
            }
        }
    }

    /// Adds a node, with which the text before it ends.
    pub(crate) fn add(&mut self, form: Form, span: Span) -> Result<(), OutOfMemory>
        ensures { OnOk result (self.new ≡ nodes_with (ended self.old ++ (node_of form span ∷ [])) None) }
    {
        match self.end_text() {
            Ok(()) => self.items.push(Node { form, span }),
            Err(out) => {
                drop(form);
                Err(out)
            }
        }
    }

    /// Adds a print, made where it stays.
    pub(crate) fn add_print(&mut self, expr: Expr, span: Span) -> Result<(), OutOfMemory>
        ensures { OnOk result (self.new ≡
            nodes_with (ended self.old ++ (node_of (forms.Print expr None) span ∷ [])) None) }
    {
        match self.end_text() {
            Ok(()) => self.items.push(Node {
                form: Form::Print(expr, None),
                span,
            }),
            Err(out) => {
                drop(expr);
                Err(out)
            }
        }
    }

    /// Ends the text after the nodes, which is then one of them.
    fn end_text(&mut self) -> Result<(), OutOfMemory>
        ensures { OnOk result (self.new ≡ nodes_with (ended self.old) None) }
    {
        match self.run.take() {
            Some(run) => self.items.push(Node {
                form: Form::Text(run.text),
                span: run.span,
            }),
            None => Ok(()),
        }
    }

    /// The nodes where the text doesn't go on.
    pub(crate) fn ended(self) -> Result<Row<Node>, OutOfMemory>
        ensures { IfOk result (λ ns. ns ≡ ended self) }
    {
        let Nodes { items, run } = self;
        match run {
            None => Ok(items),
            Some(run) => with_node(items, Form::Text(run.text), run.span),
        }
    }

    /// The nodes as what a message holds.
    pub(crate) fn parts(self) -> Result<MessageBody, OutOfMemory>
        ensures { IfOk result (λ body. body ≡ body_of_parts self) }
    {
        let nodes = self.ended()?;
        Ok(MessageBody::Parts(nodes.done()))
    }
}

/// The nodes and one more.
pub(crate) fn with_node(nodes: Row<Node>, form: Form, span: Span) -> Result<Row<Node>, OutOfMemory>
    ensures { IfOk result (λ ns. ns ≡ nodes ++ (node_of form span ∷ [])) }
{
    let mut nodes = nodes;
    nodes.push(Node { form, span })?;
    Ok(nodes)
}
