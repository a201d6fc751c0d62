//! The canonical text of a message, and the id that it gives.

ghost use Rattle.std.specs.Prelude.{◌≡◌, map, IfOk, OnOk};
ghost use Rattle.soy_base.specs.Appends.{Appends};
ghost use Rattle.msg_extract.specs.MessageId.{id_of_text};
ghost use Rattle.msg_extract.specs.Canonical.Pieces.{pieces_text};
ghost use Rattle.msg_extract.specs.Canonical.TextOfPiece.{piece_text};
ghost use Rattle.msg_extract.specs.Views.ViewNames.{HasNames, named_uses};
ghost use Rattle.msg_extract.specs.Views.ViewPieces.{view_piece};

use crate::ascii::empty;
use crate::names::{Names, name_of};
use crate::piece::CodePiece;
use sha2::{Digest, Sha256};
use soy_base::{OutOfMemory, Text, push_text};
use std::alloc::Global;

/// Adds the text of a piece.
fn push_piece(
    alloc: Global,
    out: &mut String,
    names: &Names<'_>,
    piece: &CodePiece<'_>,
) -> Result<(), OutOfMemory>
    requires { HasNames names.now }
    ensures { OnOk result (Appends out.old out.new (piece_text (named_uses names.now) (view_piece piece.now))) }
{
    match piece {
        CodePiece::Word(word) => push_text(out, word),
        CodePiece::Text(text) => push_text(out, text.text()),
        CodePiece::Use(of) => {
            let name = name_of(alloc, names, of)?;
            push_text(out, name.text())
        }
    }
}

/// The text that pieces make.
#[tactic(auto, using(crate::proofs::Texts::PieceLists::text_step, crate::proofs::Texts::PieceLists::append_assoc))]
pub fn text_of_pieces(alloc: Global, names: &Names<'_>) -> Result<Text, OutOfMemory>
    requires { HasNames names.now }
    ensures { IfOk result (λ t. t ≡ pieces_text (named_uses names.now) (map view_piece names.now.pieces)) }
{
    let mut out = empty(alloc);
    for piece in names.pieces.items() {
        push_piece(alloc, &mut out, names, piece)?;
    }
    Ok(Text::new(out))
}

/// The id of a message of this meaning and canonical text.
pub fn id_of_text(alloc: Global, meaning: &Text, text: &Text) -> Result<Text, OutOfMemory>
    ensures { IfOk result (λ id. id ≡ id_of_text meaning.now text.now) }
{
    let mut hasher = Sha256::new();
    hasher.update(meaning.text().as_bytes());
    hasher.update("\0".as_bytes());
    hasher.update(text.text().as_bytes());
    let digest = hasher.finalize();
    Ok(Text::new(hex::encode(alloc, &digest[..8])?))
}
