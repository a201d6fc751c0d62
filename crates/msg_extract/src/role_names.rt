//! The names of a message's placeholders, plurals and selects.

ghost use Rattle.std.specs.Prelude.{◌≡◌, map, IfOk, OnOk};
ghost use Rattle.soy_tree.specs.MessageText.{Cut};
ghost use Rattle.soy_rules.specs.Placeholders.{AsPlaceholder};
ghost use Rattle.msg_extract.specs.Catalogue.{is_of_kind, role_names, with_name};
ghost use Rattle.msg_extract.specs.RoleNames.{kind_step};
ghost use Rattle.msg_extract.specs.Views.ViewNames.{HasNames, named_uses};
ghost use Rattle.msg_extract.specs.Views.ViewPieces.{role_of, view_piece};

use crate::name_key::NameKey;
use crate::names::{Names, name_of};
use crate::piece::{CodePiece, Named};
use indexmap::IndexSet;
use soy_base::{OutOfMemory, Row, Seq, Text};
use std::alloc::Global;

/// What a name stands for: a placeholder, or the selector of a plural or of a select.
#[derive(Clone, Copy)]
pub enum NameKind {
    Placeholder,
    Plural,
    Select,
}

/// Whether what is named is of this kind.
fn is_of_kind(kind: NameKind, of: &Named<'_>) -> bool
    ensures { result ≡ is_of_kind kind (role_of of.now) }
{
    match of {
        Named::Print(_, _, _) => is_placeholder(kind),
        Named::Tag(_) => is_placeholder(kind),
        Named::Plural(_) => match kind {
            NameKind::Placeholder => false,
            NameKind::Plural => true,
            NameKind::Select => false,
        },
        Named::Select(_) => match kind {
            NameKind::Placeholder => false,
            NameKind::Plural => false,
            NameKind::Select => true,
        },
    }
}

/// Whether the kind is that of placeholders.
fn is_placeholder(kind: NameKind) -> bool
    ensures { (cut : Cut) → result ≡ is_of_kind kind (AsPlaceholder cut) }
{
    match kind {
        NameKind::Placeholder => true,
        NameKind::Plural => false,
        NameKind::Select => false,
    }
}

/// The names of keys.
fn texts_of(alloc: Global, keys: &[NameKey]) -> Result<Seq<Text>, OutOfMemory>
    ensures { IfOk result (λ names. names ≡ keys.now) }
{
    let mut names = Row::empty(alloc);
    for key in keys {
        names.push(key.name().copy(alloc)?)?;
    }
    Ok(names.done())
}

/// Adds a name, unless it is there.
fn push_name(found: &mut IndexSet<NameKey>, name: Text) -> Result<(), OutOfMemory>
    ensures { OnOk result (found.new.keys ≡ with_name found.old.keys name) }
{
    found.insert(NameKey::new(name))?;
    Ok(())
}

/// Adds the name of a piece, if that is a use of this kind and its name isn't yet there.
fn add_name(
    alloc: Global,
    found: &mut IndexSet<NameKey>,
    names: &Names<'_>,
    kind: NameKind,
    piece: &CodePiece<'_>,
) -> Result<(), OutOfMemory>
    requires { HasNames names.now }
    ensures { OnOk result (found.new.keys
        ≡ kind_step kind (named_uses names.now) found.old.keys (view_piece piece.now)) }
{
    match piece {
        CodePiece::Word(_) => Ok(()),
        CodePiece::Text(_) => Ok(()),
        CodePiece::Use(of) => {
            if !is_of_kind(kind, &of.of) {
                return Ok(());
            }
            push_name(found, name_of(alloc, names, of)?)
        }
    }
}

/// The names of the uses of a kind, each once, in order of first appearance.
#[tactic(auto, using(crate::proofs::Naming::RoleNames::names_step))]
pub fn role_names(
    alloc: Global,
    names: &Names<'_>,
    kind: NameKind,
) -> Result<Seq<Text>, OutOfMemory>
    requires { HasNames names.now }
    ensures { IfOk result (λ found. found ≡ role_names kind (named_uses names.now)) }
{
    let mut found = IndexSet::new(alloc);
    for piece in names.pieces.items() {
        add_name(alloc, &mut found, names, kind, piece)?;
    }
    texts_of(alloc, found.as_slice())
}
