//! Whether nodes are a message's text: texts, prints and whole tags.

ghost use Rattle.std.specs.Prelude.{◌≡◌, None, [], ◌∷◌, ◌++◌};
ghost use Rattle.std.specs.Str.{chars};
ghost use Rattle.soy_tree.specs.Formed.{is_message_text};
ghost use Rattle.soy_tree.specs.TagScan.{after_character, after_characters, after_nodes, after_print, is_outside};
ghost use Rattle.soy_tree.specs.ViewNodes.{text_node, view_nodes};
ghost use Rattle.soy_base.specs.declared.fault.Span.{Span};
ghost use Rattle.soy_tree.specs.declared.message_text.TagScan.TheVariants as scan;

use crate::{Form, Node};
use soy_base::Text;

/// What was read last of a message's text.
#[derive(Clone, Copy)]
pub(crate) enum TagScan {
    /// Text outside tags.
    Outside,
    /// A `<` outside tags.
    LessThan,
    /// A `</` outside tags.
    Slash,
    /// A part of a tag, and the quote that is open there.
    Inside(Option<char>),
}

/// Whether the nodes are texts, prints and whole tags, as the content of a message and of its cases is. Takes no
/// memory.
#[tactic(auto, using(crate::proofs::TagScans::message_text_ends))]
pub fn is_message_text(nodes: &[Node]) -> bool
    ensures { result ≡ is_message_text (view_nodes nodes.now) }
{
    match scan_nodes(nodes) {
        Some(scan) => is_outside(scan),
        None => false,
    }
}

/// Whether the nodes and one more text after them, which stands anywhere, are texts, prints and whole tags. Takes no
/// memory.
#[tactic(auto, using(crate::proofs::TagScans::message_text_with))]
pub fn is_message_text_with(nodes: &[Node], text: &Text) -> bool
    ensures { (span : Span) → result ≡ is_message_text (view_nodes (nodes.now ++ text_node text.now span ∷ [])) }
{
    match scan_nodes(nodes) {
        Some(scan) => is_outside(scan_characters(scan, text.text())),
        None => false,
    }
}

/// What was read last, after the nodes, if they are texts and prints.
fn scan_nodes(nodes: &[Node]) -> Option<TagScan>
    ensures { result ≡ after_nodes scan.Outside (view_nodes nodes.now) }
{
    let mut scan = TagScan::Outside;
    for node in nodes {
        scan = match &node.form {
            Form::Text(text) => scan_characters(scan, text.text()),
            Form::Print(_, _) => scan_print(scan),
            _ => return None,
        };
    }
    Some(scan)
}

/// What was read last, after a text.
fn scan_characters(scan: TagScan, text: &str) -> TagScan
    ensures { result ≡ after_characters scan (chars text.now) }
{
    let mut last = scan;
    for c in text.chars() {
        last = scan_character(last, c);
    }
    last
}

/// What was read last, after one more character.
fn scan_character(scan: TagScan, c: char) -> TagScan
    ensures { result ≡ after_character scan c }
{
    match scan {
        TagScan::Inside(None) => scan_unquoted(c),
        TagScan::Inside(Some(quote)) => {
            if c == quote {
                TagScan::Inside(None)
            } else {
                scan
            }
        }
        TagScan::LessThan if c == '/' => TagScan::Slash,
        TagScan::LessThan | TagScan::Slash if c.is_ascii_alphabetic() => TagScan::Inside(None),
        _ if c == '<' => TagScan::LessThan,
        _ => TagScan::Outside,
    }
}

/// What was read last, after a character in a tag, outside quotes.
fn scan_unquoted(c: char) -> TagScan
    ensures { result ≡ after_character (scan.Inside None) c }
{
    match c {
        '>' => TagScan::Outside,
        '"' | '\'' => TagScan::Inside(Some(c)),
        _ => TagScan::Inside(None),
    }
}

/// What was read last, after a print.
fn scan_print(scan: TagScan) -> TagScan
    ensures { result ≡ after_print scan }
{
    match scan {
        TagScan::Inside(_) => scan,
        _ => TagScan::Outside,
    }
}

fn is_outside(scan: TagScan) -> bool
    ensures { result ≡ is_outside scan }
{
    !matches!(scan, TagScan::Inside(_))
}
