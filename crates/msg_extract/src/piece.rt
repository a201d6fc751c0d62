//! A message as texts and uses of names, in the order of its canonical text.

ghost use Rattle.std.specs.Prelude.{◌≡◌, ◌∷◌, [], ◌++◌, false, true, codes, map, IfOk, OnOk};
ghost use Rattle.std.specs.Fmt.{signed_decimal};
ghost use Rattle.soy_base.specs.Appends.{Appends};
ghost use Rattle.soy_rules.specs.BaseNames.{base_of_expr};
ghost use Rattle.soy_tree.specs.MessageText.{message_items, cuts_of};
ghost use Rattle.soy_tree.specs.ViewExpressions.{view_expr};
ghost use Rattle.soy_tree.specs.ViewNodes.{view_body, view_node, view_nodes, view_plural_cases, view_select_cases};
ghost use Rattle.msg_extract.specs.Canonical.Ascii.{is_ascii};
ghost use Rattle.msg_extract.specs.Canonical.CanonicalText.{written_offset};
ghost use Rattle.msg_extract.specs.Canonical.Pieces.{TextPiece, UsePiece, body_pieces, cut_pieces, found_pieces};
ghost use Rattle.msg_extract.specs.Canonical.Pieces.{one_cut_pieces};
ghost use Rattle.msg_extract.specs.Canonical.Pieces.{plural_case_pieces, select_case_pieces};
ghost use Rattle.msg_extract.specs.PlainPieces.{begun_behind, begun_pieces, node_pieces, plain_pieces, print_pieces};
ghost use Rattle.msg_extract.specs.Views.ViewItems.{view_cut};
ghost use Rattle.msg_extract.specs.Views.ViewPieces.{view_piece, view_use};

use crate::ascii::{decimal, empty, push_ascii, signed_decimal};
use crate::base_name::{base_of_expr, base_of_print, base_of_tag};
use crate::cut::{MessageCut, cut};
use crate::item::{Item, items_of};
use crate::name_key::NameKey;
use crate::plain::are_plain;
use crate::quoting::quoted;
use soy_base::{OutOfMemory, Row, Span, Text, push_text};
use soy_tree::{Expr, Form, MessageBody, Node, PluralCase, SelectCase};
use std::alloc::Global;

/// What a name stands for.
#[derive(Drop)]
pub enum Named<'a> {
    Print(&'a Expr, &'a Option<Text>, Span),
    Tag(Row<Item<'a>>),
    Plural(&'a Expr),
    Select(&'a Expr),
}

/// A use of a name: its base name, and what it stands for.
#[derive(Drop)]
pub struct NameUse<'a> {
    pub base: NameKey,
    pub of: Named<'a>,
}

/// A part of a canonical text: a word of the pattern's syntax, a text, or the use of a name.
#[derive(Drop)]
pub enum CodePiece<'a> {
    Word(&'static str),
    Text(Text),
    Use(NameUse<'a>),
}

/// The pieces of a message, or of a case of it; whether it stands directly in a plural's case.
pub fn pieces_of<'a>(
    alloc: Global,
    body: &'a MessageBody,
) -> Result<Row<CodePiece<'a>>, OutOfMemory>
    ensures { IfOk result (λ to. map view_piece to ≡ body_pieces false (view_body body.now)) }
{
    let mut pieces = Row::empty(alloc);
    push_body(alloc, &mut pieces, false, body)?;
    Ok(pieces)
}

/// Adds the pieces of a body.
#[cycle(pieces)]
#[tactic(auto, using(crate::proofs::Texts::PieceLists::append_assoc))]
fn push_body<'a>(
    alloc: Global,
    pieces: &mut Row<CodePiece<'a>>,
    in_plural: bool,
    body: &'a MessageBody,
) -> Result<(), OutOfMemory>
    ensures { OnOk result (map view_piece pieces.new
        ≡ map view_piece pieces.old ++ body_pieces in_plural (view_body body.now)) }
{
    match body {
        MessageBody::Parts(nodes) => push_nodes(alloc, pieces, in_plural, nodes.items()),
        MessageBody::Plural(selector, offset, cases, other) => {
            push_selector(alloc, pieces, Named::Plural(selector), selector)?;
            push_offset(alloc, pieces, *offset)?;
            push_plural_cases(alloc, pieces, cases.items())?;
            push_word(pieces, "other {")?;
            push_body(alloc, pieces, true, other.get())?;
            push_word(pieces, "}}")
        }
        MessageBody::Select(selector, cases, other) => {
            push_selector(alloc, pieces, Named::Select(selector), selector)?;
            push_word(pieces, ", select, ")?;
            push_select_cases(alloc, pieces, cases.items())?;
            push_word(pieces, "other {")?;
            push_body(alloc, pieces, false, other.get())?;
            push_word(pieces, "}}")
        }
    }
}

/// Adds the pieces of a plural's cases.
#[cycle(pieces)]
#[tactic(auto, using(crate::proofs::Texts::PieceLists::append_assoc))]
fn push_plural_cases<'a>(
    alloc: Global,
    pieces: &mut Row<CodePiece<'a>>,
    cases: &'a [PluralCase],
) -> Result<(), OutOfMemory>
    ensures { OnOk result (map view_piece pieces.new
        ≡ map view_piece pieces.old ++ plural_case_pieces (view_plural_cases cases.now)) }
{
    for case in cases {
        push_key(alloc, pieces, case.is)?;
        push_body(alloc, pieces, true, &case.body)?;
        push_word(pieces, "} ")?;
    }
    Ok(())
}

/// Adds the pieces of a select's cases.
#[cycle(pieces)]
#[tactic(auto, using(crate::proofs::Texts::PieceLists::append_assoc))]
fn push_select_cases<'a>(
    alloc: Global,
    pieces: &mut Row<CodePiece<'a>>,
    cases: &'a [SelectCase],
) -> Result<(), OutOfMemory>
    ensures { OnOk result (map view_piece pieces.new
        ≡ map view_piece pieces.old ++ select_case_pieces (view_select_cases cases.now)) }
{
    for case in cases {
        push_case_word(alloc, pieces, &case.is)?;
        push_body(alloc, pieces, false, &case.body)?;
        push_word(pieces, "} ")?;
    }
    Ok(())
}

/// Adds a text as a piece.
#[tactic(auto, using(crate::proofs::CutSteps::map_append))]
fn push_piece(pieces: &mut Row<CodePiece<'_>>, text: Text) -> Result<(), OutOfMemory>
    ensures { OnOk result (map view_piece pieces.new ≡ map view_piece pieces.old ++ TextPiece text ∷ []) }
{
    pieces.push(CodePiece::Text(text))
}

/// Adds a word of ASCII characters as a piece.
#[tactic(auto, using(crate::proofs::CutSteps::map_append, crate::proofs::Texts::AsciiTexts::chars_ascii))]
fn push_word(pieces: &mut Row<CodePiece<'_>>, word: &'static str) -> Result<(), OutOfMemory>
    requires { is_ascii word.now ≡ true }
    ensures { OnOk result (map view_piece pieces.new ≡ map view_piece pieces.old ++ TextPiece word.now ∷ []) }
{
    pieces.push(CodePiece::Word(word))
}

/// Adds what stands before a plural's cases.
fn push_offset(
    alloc: Global,
    pieces: &mut Row<CodePiece<'_>>,
    offset: u64,
) -> Result<(), OutOfMemory>
    ensures { OnOk result (map view_piece pieces.new
        ≡ map view_piece pieces.old ++ TextPiece (codes ", plural, " ++ written_offset offset) ∷ []) }
{
    let mut text = empty(alloc);
    push_ascii(&mut text, ", plural, ")?;
    push_written_offset(alloc, &mut text, offset)?;
    push_piece(pieces, Text::new(text))
}

/// Adds an offset, unless it is 0.
fn push_written_offset(alloc: Global, out: &mut String, offset: u64) -> Result<(), OutOfMemory>
    ensures { OnOk result (Appends out.old out.new (written_offset offset)) }
{
    if offset == 0 {
        return Ok(());
    }
    push_ascii(out, "offset:")?;
    let digits = decimal(alloc, offset)?;
    push_text(out, digits.text())?;
    push_ascii(out, " ")
}

/// Adds the key of a plural's case.
fn push_key(alloc: Global, pieces: &mut Row<CodePiece<'_>>, number: i64) -> Result<(), OutOfMemory>
    ensures { OnOk result (map view_piece pieces.new
        ≡ map view_piece pieces.old ++ TextPiece (codes "=" ++ (signed_decimal number ++ codes " {")) ∷ []) }
{
    let mut text = empty(alloc);
    push_ascii(&mut text, "=")?;
    let digits = signed_decimal(alloc, number)?;
    push_text(&mut text, digits.text())?;
    push_ascii(&mut text, " {")?;
    push_piece(pieces, Text::new(text))
}

/// Adds the word of a select's case.
fn push_case_word(
    alloc: Global,
    pieces: &mut Row<CodePiece<'_>>,
    word: &Text,
) -> Result<(), OutOfMemory>
    ensures { OnOk result (map view_piece pieces.new
        ≡ map view_piece pieces.old ++ TextPiece (word.now ++ codes " {") ∷ []) }
{
    let mut text = empty(alloc);
    push_text(&mut text, word.text())?;
    push_ascii(&mut text, " {")?;
    push_piece(pieces, Text::new(text))
}

/// Adds a `{`, and the use of a selector's name.
#[tactic(auto, using(crate::proofs::CutSteps::map_append, crate::proofs::Texts::PieceLists::append_assoc))]
fn push_selector<'a>(
    alloc: Global,
    pieces: &mut Row<CodePiece<'a>>,
    of: Named<'a>,
    selector: &'a Expr,
) -> Result<(), OutOfMemory>
    ensures { OnOk result (map view_piece pieces.new
        ≡ map view_piece pieces.old ++ TextPiece (codes "{")
        ∷ UsePiece (view_use (base_of_expr (view_expr selector.now)) of.entry) ∷ []) }
{
    let base = NameKey::new(base_of_expr(alloc, selector)?);
    push_word(pieces, "{")?;
    pieces.push(CodePiece::Use(NameUse { base, of }))
}

/// Adds a placeholder.
#[tactic(auto, using(crate::proofs::CutSteps::map_append, crate::proofs::Texts::PieceLists::append_assoc))]
fn push_placeholder<'a>(
    pieces: &mut Row<CodePiece<'a>>,
    base: Text,
    of: Named<'a>,
) -> Result<(), OutOfMemory>
    ensures { OnOk result (map view_piece pieces.new
        ≡ map view_piece pieces.old ++ TextPiece (codes "{")
        ∷ UsePiece (view_use base of.entry) ∷ TextPiece (codes "}") ∷ []) }
{
    let base = NameKey::new(base);
    push_word(pieces, "{")?;
    pieces.push(CodePiece::Use(NameUse { base, of }))?;
    push_word(pieces, "}")
}

/// Adds the pieces of texts, prints and tags. A plain body, as most are, isn't taken apart into its characters.
#[tactic(auto, using(crate::proofs::PlainPieces::plain_are))]
fn push_nodes<'a>(
    alloc: Global,
    pieces: &mut Row<CodePiece<'a>>,
    in_plural: bool,
    nodes: &'a [Node],
) -> Result<(), OutOfMemory>
    ensures { OnOk result (map view_piece pieces.new
        ≡ map view_piece pieces.old ++ found_pieces in_plural (cuts_of (message_items (view_nodes nodes.now)))) }
{
    if are_plain(in_plural, nodes) {
        return push_plain(alloc, pieces, nodes);
    }
    push_cut_nodes(alloc, pieces, in_plural, nodes)
}

/// Adds the pieces of a plain body.
#[tactic(auto, using(crate::proofs::Texts::PieceLists::append_assoc))]
fn push_plain<'a>(
    alloc: Global,
    pieces: &mut Row<CodePiece<'a>>,
    nodes: &'a [Node],
) -> Result<(), OutOfMemory>
    ensures { OnOk result (map view_piece pieces.new
        ≡ map view_piece pieces.old ++ plain_pieces [] (view_nodes nodes.now)) }
{
    let mut begun = Text::empty(alloc);
    for node in nodes {
        begun = push_plain_node(alloc, pieces, begun, node)?;
    }
    push_begun(pieces, begun)
}

/// Adds what a node ends behind a text that has begun, and gives the text that has begun after it.
#[tactic(auto, using(crate::proofs::Texts::PieceLists::append_assoc))]
fn push_plain_node<'a>(
    alloc: Global,
    pieces: &mut Row<CodePiece<'a>>,
    begun: Text,
    node: &'a Node,
) -> Result<Text, OutOfMemory>
    ensures { IfOk result (λ to. (to ≡ begun_behind begun (view_node node.now))
        × (map view_piece pieces.new ≡ map view_piece pieces.old ++ node_pieces begun (view_node node.now))) }
{
    let span = node.span;
    match &node.form {
        Form::Text(text) => {
            let mut begun = begun;
            begun.append(text)?;
            Ok(begun)
        }
        Form::Print(expr, phname) => {
            push_begun(pieces, begun)?;
            push_print(alloc, pieces, expr, phname, span)?;
            Ok(Text::empty(alloc))
        }
        Form::If(_, _) => Ok(begun),
        Form::Switch(_, _, _) => Ok(begun),
        Form::For(_, _, _, _) => Ok(begun),
        Form::Let(_, _) => Ok(begun),
        Form::LetBlock(_, _, _) => Ok(begun),
        Form::Call(_, _, _) => Ok(begun),
        Form::Message(_, _) => Ok(begun),
    }
}

/// Adds a text that has begun, if it has characters.
#[tactic(auto, using(crate::proofs::PlainPieces::begun_none, crate::proofs::PlainPieces::begun_some))]
fn push_begun(pieces: &mut Row<CodePiece<'_>>, begun: Text) -> Result<(), OutOfMemory>
    ensures { OnOk result (map view_piece pieces.new ≡ map view_piece pieces.old ++ begun_pieces begun) }
{
    if begun.is_empty() {
        return Ok(());
    }
    push_piece(pieces, begun)
}

/// Adds a print in braces.
fn push_print<'a>(
    alloc: Global,
    pieces: &mut Row<CodePiece<'a>>,
    expr: &'a Expr,
    phname: &'a Option<Text>,
    span: Span,
) -> Result<(), OutOfMemory>
    ensures { OnOk result (map view_piece pieces.new
        ≡ map view_piece pieces.old ++ print_pieces (view_expr expr.now) phname.now span) }
{
    let base = base_of_print(alloc, expr, phname)?;
    push_placeholder(pieces, base, Named::Print(expr, phname, span))
}

/// Adds the pieces of texts, prints and tags, by their characters.
fn push_cut_nodes<'a>(
    alloc: Global,
    pieces: &mut Row<CodePiece<'a>>,
    in_plural: bool,
    nodes: &'a [Node],
) -> Result<(), OutOfMemory>
    ensures { OnOk result (map view_piece pieces.new
        ≡ map view_piece pieces.old ++ found_pieces in_plural (cuts_of (message_items (view_nodes nodes.now)))) }
{
    let Some(items) = items_of(alloc, nodes)? else {
        return Ok(());
    };
    let Some(cuts) = cut(alloc, items.items())? else {
        return Ok(());
    };
    push_cuts(alloc, pieces, in_plural, cuts.items())
}

/// Adds the pieces of cuts.
#[tactic(auto, using(crate::proofs::Texts::PieceLists::append_assoc))]
fn push_cuts<'a>(
    alloc: Global,
    pieces: &mut Row<CodePiece<'a>>,
    in_plural: bool,
    cuts: &[MessageCut<'a>],
) -> Result<(), OutOfMemory>
    ensures { OnOk result (map view_piece pieces.new
        ≡ map view_piece pieces.old ++ cut_pieces in_plural (map view_cut cuts.now)) }
{
    for cut in cuts {
        push_cut(alloc, pieces, in_plural, cut)?;
    }
    Ok(())
}

/// Adds the pieces of a cut.
fn push_cut<'a>(
    alloc: Global,
    pieces: &mut Row<CodePiece<'a>>,
    in_plural: bool,
    cut: &MessageCut<'a>,
) -> Result<(), OutOfMemory>
    ensures { OnOk result (map view_piece pieces.new
        ≡ map view_piece pieces.old ++ one_cut_pieces in_plural (view_cut cut.now)) }
{
    match cut {
        MessageCut::Text(text) => {
            let text = quoted(alloc, in_plural, text.items())?;
            push_piece(pieces, text)
        }
        MessageCut::Print(expr, phname, span) => push_print(alloc, pieces, expr, phname, *span),
        MessageCut::Tag(tag) => {
            let base = base_of_tag(alloc, tag.items())?;
            let tag = copied_items(alloc, tag.items())?;
            push_placeholder(pieces, base, Named::Tag(tag))
        }
    }
}

/// Equal items.
pub fn copied_items<'a>(alloc: Global, items: &[Item<'a>]) -> Result<Row<Item<'a>>, OutOfMemory>
    ensures { IfOk result (λ copied. copied ≡ items.now) }
{
    let mut copied = Row::empty(alloc);
    for item in items {
        copied.push(*item)?;
    }
    Ok(copied)
}
