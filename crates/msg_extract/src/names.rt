//! The names of a message's placeholders and selectors.

ghost use Rattle.std.specs.Prelude.{◌≡◌, ◌+◌, ◌∷◌, ◌++◌, [], false, not, map, length, option_map, slice_get};
ghost use Rattle.std.specs.Prelude.{bytes_eq, IfOk, OnOk};
ghost use Rattle.std.specs.List.{position, position_or_len};
ghost use Rattle.soy_base.specs.Among.{is_among};
ghost use Rattle.soy_rules.specs.Placeholders.{is_same_content, name_of, numbered_name, with_content};
ghost use Rattle.soy_tree.specs.ViewNodes.{view_body};
ghost use Rattle.msg_extract.specs.Catalogue.{with_name};
ghost use Rattle.msg_extract.specs.NameGroups.{bases_after, bases_step, content_names, found_name, free_among};
ghost use Rattle.msg_extract.specs.NameGroups.{group_found, group_names, groups_after, groups_step, is_single, is_use};
ghost use Rattle.msg_extract.specs.NameGroups.{name_at, name_in};
ghost use Rattle.msg_extract.specs.NameGroups.{names_from, with_content_at, with_group, with_use};
ghost use Rattle.msg_extract.specs.Canonical.Pieces.{body_pieces, uses_in};
ghost use Rattle.msg_extract.specs.Views.ViewKeys.{view_groups, view_key};
ghost use Rattle.msg_extract.specs.Views.ViewNames.{HasNames, named_uses};
ghost use Rattle.msg_extract.specs.Views.ViewPieces.{content_of, view_piece};

use crate::ascii::{decimal, empty};
use crate::content_key::ContentKey;
use crate::name_key::NameKey;
use crate::piece::{CodePiece, NameUse, Named, pieces_of};
use indexmap::IndexSet;
use soy_base::{OutOfMemory, Row, Seq, Text, push_char, push_text};
use soy_tree::MessageBody;
use std::alloc::Global;

/// The base names of a message in order of first appearance, and the contents of each.
#[derive(Drop)]
struct Groups {
    bases: IndexSet<NameKey>,
    contents: Vec<IndexSet<ContentKey>>,
}

/// The pieces of a message, and the names of the contents of each base name, found without a walk over them.
#[derive(Drop)]
pub struct Names<'a> {
    pub pieces: Row<CodePiece<'a>>,
    groups: Groups,
    texts: Row<Seq<Text>>,
}

/// Adds an empty group, if the base name is a new one.
fn push_group(
    alloc: Global,
    contents: &mut Vec<IndexSet<ContentKey>>,
    is_new: bool,
) -> Result<(), OutOfMemory>
    ensures { OnOk result (view_groups contents.new.items
        ≡ with_group is_new (view_groups contents.old.items)) }
{
    if is_new {
        contents.push(IndexSet::new(alloc))?;
    }
    Ok(())
}

/// Adds a content to a group, unless it is there.
#[tactic(auto, using(crate::proofs::ContentKeys::with_key))]
fn push_key(group: &mut IndexSet<ContentKey>, key: ContentKey) -> Result<(), OutOfMemory>
    ensures { OnOk result (map view_key group.new.keys ≡ with_content (map view_key group.old.keys) (view_key key)) }
{
    group.insert(key)?;
    Ok(())
}

/// Adds what is named to a group, unless it is there.
fn push_named(
    alloc: Global,
    group: &mut IndexSet<ContentKey>,
    of: &Named<'_>,
) -> Result<(), OutOfMemory>
    ensures { OnOk result (map view_key group.new.keys ≡ with_content (map view_key group.old.keys) (content_of of.now)) }
{
    let key = ContentKey::new(alloc, of)?;
    push_key(group, key)
}

/// Adds what is named to the group of a number.
fn push_content(
    alloc: Global,
    contents: &mut Vec<IndexSet<ContentKey>>,
    number: usize,
    of: &Named<'_>,
) -> Result<(), OutOfMemory>
    ensures { OnOk result (view_groups contents.new.items
        ≡ with_content_at number (content_of of.now) (view_groups contents.old.items)) }
{
    if let Some(group) = contents.get_mut(number) {
        push_named(alloc, group, of)?;
    }
    Ok(())
}

/// The number of a base name among those so far, which now have it, and whether it is a new one.
fn push_base(bases: &mut IndexSet<NameKey>, base: Text) -> Result<(usize, bool), OutOfMemory>
    ensures number { IfOk result (λ r. r.0 ≡ position_or_len (bytes_eq base) bases.old.keys) }
    ensures new { IfOk result (λ r. r.1 ≡ not (is_among bases.old.keys base)) }
    ensures added { OnOk result (bases.new.keys ≡ with_name bases.old.keys base) }
{
    Ok(bases.insert_full(NameKey::new(base))?)
}

/// The number of the group of a base name, which is there now.
fn push_base_group(alloc: Global, groups: &mut Groups, base: Text) -> Result<usize, OutOfMemory>
    ensures number { IfOk result (λ n. n ≡ position_or_len (bytes_eq base) groups.old.bases.keys) }
    ensures bases { OnOk result (groups.new.bases.keys ≡ with_name groups.old.bases.keys base) }
    ensures contents { OnOk result (view_groups groups.new.contents.items
        ≡ with_group (not (is_among groups.old.bases.keys base)) (view_groups groups.old.contents.items)) }
{
    let (number, is_new) = push_base(&mut groups.bases, base)?;
    push_group(alloc, &mut groups.contents, is_new)?;
    Ok(number)
}

/// Adds the base name and the content of a use.
fn push_use(alloc: Global, groups: &mut Groups, of: &NameUse<'_>) -> Result<(), OutOfMemory>
    ensures bases { OnOk result (groups.new.bases.keys ≡ with_name groups.old.bases.keys of.now.base) }
    ensures contents { OnOk result (view_groups groups.new.contents.items
        ≡ with_use groups.old.bases.keys (view_groups groups.old.contents.items) of.now.base (content_of of.now.of)) }
{
    let base = of.base.name().copy(alloc)?;
    let number = push_base_group(alloc, groups, base)?;
    push_content(alloc, &mut groups.contents, number, &of.of)
}

/// Adds the base name and the content of a piece, if it is a use.
fn push_piece(alloc: Global, groups: &mut Groups, piece: &CodePiece<'_>) -> Result<(), OutOfMemory>
    ensures bases { OnOk result (groups.new.bases.keys ≡ bases_step groups.old.bases.keys (view_piece piece.now)) }
    ensures contents { OnOk result (view_groups groups.new.contents.items
        ≡ groups_step groups.old.bases.keys (view_groups groups.old.contents.items) (view_piece piece.now)) }
{
    match piece {
        CodePiece::Word(_) => Ok(()),
        CodePiece::Text(_) => Ok(()),
        CodePiece::Use(of) => push_use(alloc, groups, of),
    }
}

/// The base names and contents of pieces.
#[tactic(auto, using(crate::proofs::Naming::NameSteps::bases_steps, crate::proofs::Naming::NameSteps::groups_steps))]
fn groups_of(alloc: Global, pieces: &[CodePiece<'_>]) -> Result<Groups, OutOfMemory>
    ensures bases { IfOk result (λ groups. groups.bases.keys ≡ bases_after [] (uses_in (map view_piece pieces.now))) }
    ensures contents { IfOk result (λ groups. view_groups groups.contents.items
        ≡ groups_after [] [] (uses_in (map view_piece pieces.now))) }
{
    let mut groups = Groups {
        bases: IndexSet::new(alloc),
        contents: Vec::new(alloc),
    };
    for piece in pieces {
        push_piece(alloc, &mut groups, piece)?;
    }
    Ok(groups)
}

/// Whether a piece is the use of a name.
fn is_use(piece: &CodePiece<'_>) -> bool
    ensures { result ≡ is_use (view_piece piece.now) }
{
    match piece {
        CodePiece::Word(_) => false,
        CodePiece::Text(_) => false,
        CodePiece::Use(_) => true,
    }
}

/// The number of the uses of names among pieces.
#[tactic(auto, using(crate::proofs::Naming::NameSteps::use_counted, crate::proofs::Naming::NameSteps::text_passed))]
fn use_count(pieces: &[CodePiece<'_>]) -> usize
    ensures { result ≡ length (uses_in (map view_piece pieces.now)) }
{
    let mut count = 0usize;
    for piece in pieces {
        if is_use(piece) {
            count += 1;
        }
    }
    count
}

/// A base name with a number.
fn numbered_name(alloc: Global, base: &Text, number: u64) -> Result<Text, OutOfMemory>
    ensures { IfOk result (λ name. name ≡ numbered_name base.now number) }
{
    let digits = decimal(alloc, number)?;
    let mut name = empty(alloc);
    push_text(&mut name, base.text())?;
    push_char(&mut name, '_')?;
    push_text(&mut name, digits.text())?;
    Ok(Text::new(name))
}

/// The next number. One past those of `u64` would take more names than there is memory for.
fn next(number: u64) -> Result<u64, OutOfMemory>
    ensures { IfOk result (λ n. n ≡ number + 1) }
{
    if number == u64::MAX {
        return Err(OutOfMemory);
    }
    Ok(number + 1)
}

/// Whether a base name with a number is another base name.
fn is_taken(
    alloc: Global,
    bases: &IndexSet<NameKey>,
    base: &Text,
    number: u64,
) -> Result<bool, OutOfMemory>
    ensures { IfOk result (λ is. is ≡ is_among bases.now.keys (numbered_name base.now number)) }
{
    let name = NameKey::new(numbered_name(alloc, base, number)?);
    Ok(bases.contains(&name))
}

/// The first number from this one on that makes no other base name, after so many tries at most.
#[tactic(auto, using(crate::proofs::Tries::goes_on, crate::proofs::Tries::ends, crate::proofs::Tries::over))]
fn free_number(
    alloc: Global,
    tries: usize,
    bases: &IndexSet<NameKey>,
    base: &Text,
    from: u64,
) -> Result<u64, OutOfMemory>
    ensures { IfOk result (λ n. n ≡ free_among tries bases.now.keys base.now from) }
{
    let mut number = from;
    for turn in 0..tries {
        if !is_taken(alloc, bases, base, number)? {
            return Ok(number);
        }
        number = next(number)?;
    }
    Ok(number)
}

/// The names of the contents of a base name, numbered from 1 on.
#[tactic(auto, using(crate::proofs::Texts::PieceLists::append_assoc))]
fn number_names(
    alloc: Global,
    tries: usize,
    bases: &IndexSet<NameKey>,
    base: &Text,
    contents: &[ContentKey],
) -> Result<Seq<Text>, OutOfMemory>
    ensures { IfOk result (λ names. names
        ≡ names_from tries bases.now.keys base.now 1 (map view_key contents.now)) }
{
    let mut names = Row::empty(alloc);
    let mut number = 1u64;
    for _ in contents {
        let free = free_number(alloc, tries, bases, base, number)?;
        names.push(numbered_name(alloc, base, free)?)?;
        number = next(free)?;
    }
    Ok(names.done())
}

/// The names of the contents of a base name: of one the base name.
#[tactic(auto, using(crate::proofs::Naming::NameSteps::one_name, crate::proofs::Naming::NameSteps::many_names))]
fn content_names(
    alloc: Global,
    tries: usize,
    bases: &IndexSet<NameKey>,
    base: &Text,
    contents: &[ContentKey],
) -> Result<Seq<Text>, OutOfMemory>
    ensures { IfOk result (λ names. names
        ≡ content_names tries bases.now.keys base.now (map view_key contents.now)) }
{
    if contents.len() == 1 {
        let mut names = Row::empty(alloc);
        names.push(base.copy(alloc)?)?;
        return Ok(names.done());
    }
    number_names(alloc, tries, bases, base, contents)
}

/// The group of a number.
#[tactic(auto, using(crate::proofs::ItemLists::map_get))]
fn group_at(contents: &[IndexSet<ContentKey>], number: usize) -> Option<&IndexSet<ContentKey>>
    ensures { option_map (λ group. map view_key group.now.keys) result ≡ slice_get (view_groups contents.now) number }
{
    contents.get(number)
}

/// Adds the names of a group.
fn push_names(
    alloc: Global,
    tries: usize,
    texts: &mut Row<Seq<Text>>,
    bases: &IndexSet<NameKey>,
    base: &NameKey,
    group: &IndexSet<ContentKey>,
) -> Result<(), OutOfMemory>
    ensures { OnOk result (texts.new
        ≡ texts.old ++ content_names tries bases.now.keys base.now (map view_key group.now.keys) ∷ []) }
{
    texts.push(content_names(alloc, tries, bases, base.name(), group.as_slice())?)
}

/// The names of the groups of some of the base names.
#[tactic(auto, using(crate::proofs::Naming::NameSteps::names_grown))]
fn group_names(
    alloc: Global,
    tries: usize,
    bases: &IndexSet<NameKey>,
    some: &[NameKey],
    contents: &[IndexSet<ContentKey>],
) -> Result<Row<Seq<Text>>, OutOfMemory>
    ensures { IfOk result (λ names. names ≡ group_names tries bases.now.keys some.now (view_groups contents.now)) }
{
    let mut texts = Row::empty(alloc);
    let mut number = 0usize;
    for base in some {
        let Some(group) = group_at(contents, number) else {
            return Ok(texts);
        };
        push_names(alloc, tries, &mut texts, bases, base, group)?;
        number += 1;
    }
    Ok(texts)
}

/// The names of all groups.
fn all_names(alloc: Global, tries: usize, groups: &Groups) -> Result<Row<Seq<Text>>, OutOfMemory>
    ensures { IfOk result (λ names. names
        ≡ group_names tries groups.now.bases.keys groups.now.bases.keys (view_groups groups.now.contents.items)) }
{
    group_names(
        alloc,
        tries,
        &groups.bases,
        groups.bases.as_slice(),
        &groups.contents,
    )
}

/// The pieces of a message, with their names.
pub fn names_of<'a>(alloc: Global, body: &'a MessageBody) -> Result<Names<'a>, OutOfMemory>
    ensures pieces { IfOk result (λ names. map view_piece names.pieces ≡ body_pieces false (view_body body.now)) }
    ensures names { IfOk result HasNames }
{
    let pieces = pieces_of(alloc, body)?;
    let groups = groups_of(alloc, pieces.items())?;
    let tries = use_count(pieces.items());
    let texts = all_names(alloc, tries, &groups)?;
    Ok(Names {
        pieces,
        groups,
        texts,
    })
}

/// The number of a base name, if it is there.
fn base_number(bases: &IndexSet<NameKey>, base: &NameKey) -> Option<usize>
    ensures { result ≡ position (bytes_eq base.now) bases.now.keys }
{
    bases.get_index_of(base)
}

/// The number of a content in its group, if it is there.
#[tactic(auto, using(crate::proofs::ContentKeys::content_position))]
fn content_number(group: &IndexSet<ContentKey>, content: &ContentKey) -> Option<usize>
    ensures { result ≡ position (is_same_content (view_key content.now)) (map view_key group.now.keys) }
{
    group.get_index_of(content)
}

/// The name of a number.
fn text_at(texts: &[Text], number: usize) -> Option<&Text>
    ensures { option_map (λ name. name.now) result ≡ slice_get texts.now number }
{
    texts.get(number)
}

/// The names of a group of a number.
fn names_at(texts: &[Seq<Text>], number: usize) -> Option<&Seq<Text>>
    ensures { option_map (λ names. names.now) result ≡ slice_get texts.now number }
{
    texts.get(number)
}

/// The name of a content of a group, if it is there.
fn name_in<'n>(
    group: &IndexSet<ContentKey>,
    names: &'n Seq<Text>,
    content: &ContentKey,
) -> Option<&'n Text>
    ensures { option_map (λ name. name.now) result
        ≡ name_in (map view_key group.now.keys) names.now (view_key content.now) }
{
    text_at(names.items(), content_number(group, content)?)
}

/// The name of a content of the group of a number, if it is there.
fn name_at<'n>(
    contents: &[IndexSet<ContentKey>],
    texts: &'n [Seq<Text>],
    content: &ContentKey,
    number: usize,
) -> Option<&'n Text>
    ensures { option_map (λ name. name.now) result
        ≡ name_at (view_groups contents.now) texts.now (view_key content.now) number }
{
    let group = group_at(contents, number)?;
    let names = names_at(texts, number)?;
    name_in(group, names, content)
}

/// The name of a content of a base name, if there is one.
fn find<'n>(
    groups: &Groups,
    texts: &'n [Seq<Text>],
    base: &NameKey,
    content: &ContentKey,
) -> Option<&'n Text>
    ensures { option_map (λ name. name.now) result ≡ found_name groups.now.bases.keys
        (view_groups groups.now.contents.items) texts.now base.now (view_key content.now) }
{
    let number = base_number(&groups.bases, base)?;
    name_at(&groups.contents, texts, content, number)
}

/// The name of a content of a base name among those of a message.
#[tactic(auto, using(crate::proofs::Naming::NameGroups::name_is_found, crate::proofs::Naming::NameGroups::name_is_base))]
fn name_by_keys(
    alloc: Global,
    names: &Names<'_>,
    base: &NameKey,
    content: &ContentKey,
) -> Result<Text, OutOfMemory>
    requires { HasNames names.now }
    ensures { IfOk result (λ name. name ≡ name_of (named_uses names.now) base.now (view_key content.now)) }
{
    match find(&names.groups, names.texts.items(), base, content) {
        Some(name) => name.copy(alloc),
        None => base.name().copy(alloc),
    }
}

/// Whether a base name has a single content.
fn is_single(groups: &Groups, base: &NameKey) -> bool
    ensures { result ≡ is_single
        (group_found groups.now.bases.keys (view_groups groups.now.contents.items) base.now) }
{
    let Some(number) = base_number(&groups.bases, base) else {
        return false;
    };
    match group_at(&groups.contents, number) {
        Some(group) => group.as_slice().len() == 1,
        None => false,
    }
}

/// The name of a use among those of a message. A single content has its base name.
#[tactic(auto, using(crate::proofs::Naming::SingleNames::name_single))]
pub fn name_of(alloc: Global, names: &Names<'_>, of: &NameUse<'_>) -> Result<Text, OutOfMemory>
    requires { HasNames names.now }
    ensures { IfOk result (λ name. name ≡ name_of (named_uses names.now) of.now.base (content_of of.now.of)) }
{
    if is_single(&names.groups, &of.base) {
        return of.base.name().copy(alloc);
    }
    let content = ContentKey::new(alloc, &of.of)?;
    let name = name_by_keys(alloc, names, &of.base, &content);
    drop(content);
    name
}
