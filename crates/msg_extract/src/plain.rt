//! Plain bodies: texts and prints alone, whose texts hold no tag and nothing that has to be quoted.

ghost use Rattle.std.specs.Prelude.{◌≡◌, ◌<◌, ◌∷◌, []};
ghost use Rattle.std.specs.Str.{chars};
ghost use Rattle.soy_base.specs.Among.{lacks};
ghost use Rattle.soy_tree.specs.ViewNodes.{view_node, view_nodes};
ghost use Rattle.msg_extract.specs.PlainPieces.{are_plain, is_plain_node, is_plain_text};

use soy_base::cut_at;
use soy_tree::{Form, Node};

/// Whether nodes are a plain body; whether they stand directly in a plural's case.
pub fn are_plain(in_plural: bool, nodes: &[Node]) -> bool
    ensures { result ≡ are_plain in_plural (view_nodes nodes.now) }
{
    for node in nodes {
        if !is_plain_node(in_plural, node) {
            return false;
        }
    }
    true
}

/// Whether a node is a print or a plain text.
fn is_plain_node(in_plural: bool, node: &Node) -> bool
    ensures { result ≡ is_plain_node in_plural (view_node node.now) }
{
    match &node.form {
        Form::Text(text) => is_plain_text(in_plural, text.text()),
        Form::Print(_, _) => true,
        Form::If(_, _) => false,
        Form::Switch(_, _, _) => false,
        Form::For(_, _, _, _) => false,
        Form::Let(_, _) => false,
        Form::LetBlock(_, _, _) => false,
        Form::Call(_, _, _) => false,
        Form::Message(_, _) => false,
    }
}

/// Whether a text holds no tag and nothing that has to be quoted.
fn is_plain_text(in_plural: bool, text: &str) -> bool
    ensures { result ≡ is_plain_text in_plural (chars text.now) }
{
    lacks(text, '<')
        && lacks(text, '\'')
        && lacks(text, '{')
        && lacks(text, '}')
        && (!in_plural || lacks(text, '#'))
}

/// Whether an ASCII character isn't in a text.
#[tactic(auto, using(crate::proofs::PlainPieces::has_one))]
fn lacks(text: &str, character: char) -> bool
    requires { character < 128 }
    ensures { result ≡ lacks (character ∷ []) (chars text.now) }
{
    match cut_at(text, character) {
        None => true,
        Some(_) => false,
    }
}
