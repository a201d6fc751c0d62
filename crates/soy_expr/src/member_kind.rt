//! Which members a type has.

ghost use Rattle.std.specs.Prelude.{◌≡◌};
ghost use Rattle.std.specs.List.{list_any};
ghost use Rattle.soy_rules.specs.Members.{has_block, has_null, is_block_member, is_null_type, is_simple};
ghost use Rattle.soy_rules.specs.Members.{is_simple_member};
ghost use Rattle.soy_rules.specs.Members.{members, union_members};
ghost use Rattle.soy_rules.specs.TypeOf.{is_int, is_string};
ghost use Rattle.soy_tree.specs.ViewTypes.{view_members, view_type};
ghost use Rattle.soy_expr.specs.MemberKinds.{is_of_kind};

use soy_tree::SoyType;

/// The members that a type is searched for: null, html or attributes, or one that is none of null, bool, int and
/// string.
#[derive(Clone, Copy)]
pub(crate) enum MemberKind {
    Null,
    Block,
    Other,
}

/// Whether null is among the members.
pub(crate) fn has_null(of: &SoyType) -> bool
    ensures { result ≡ has_null (view_type of.now) }
{
    has_member(of, MemberKind::Null)
}

/// Whether html or attributes is among the members.
pub fn has_block(of: &SoyType) -> bool
    ensures { result ≡ has_block (view_type of.now) }
{
    has_member(of, MemberKind::Block)
}

/// Whether the type is made of null, bool, int and string alone.
#[tactic(auto, using(crate::proofs::TypeSearch::none_other))]
pub fn is_simple(of: &SoyType) -> bool
    ensures { result ≡ is_simple (view_type of.now) }
{
    !has_member(of, MemberKind::Other)
}

/// Whether a member is of a kind.
#[cycle(searching)]
#[tactic(auto, using(crate::proofs::TypeSearch::or_false))]
fn has_member(of: &SoyType, kind: MemberKind) -> bool
    ensures { result ≡ list_any (is_of_kind kind) (members (view_type of.now)) }
{
    match of {
        SoyType::Union(members) => some_has_member(members.items(), kind),
        other => is_of_kind(other, kind),
    }
}

/// Whether a member of one of the types is of a kind.
#[cycle(searching)]
#[tactic(auto, using(crate::proofs::TypeSearch::any_append))]
fn some_has_member(types: &[SoyType], kind: MemberKind) -> bool
    ensures { result ≡ list_any (is_of_kind kind) (union_members (view_members types.now)) }
{
    for of in types {
        if has_member(of, kind) {
            return true;
        }
    }
    false
}

/// Whether a type is of a kind.
fn is_of_kind(of: &SoyType, kind: MemberKind) -> bool
    ensures { result ≡ is_of_kind kind (view_type of.now) }
{
    match kind {
        MemberKind::Null => is_null(of),
        MemberKind::Block => is_block(of),
        MemberKind::Other => !is_plain(of),
    }
}

fn is_null(of: &SoyType) -> bool
    ensures { result ≡ is_null_type (view_type of.now) }
{
    match of {
        SoyType::Null => true,
        _ => false,
    }
}

/// Whether a type is html or attributes.
pub fn is_block(of: &SoyType) -> bool
    ensures { result ≡ is_block_member (view_type of.now) }
{
    match of {
        SoyType::Html => true,
        SoyType::Attributes => true,
        _ => false,
    }
}

fn is_plain(of: &SoyType) -> bool
    ensures { result ≡ is_simple_member (view_type of.now) }
{
    match of {
        SoyType::Null => true,
        SoyType::Bool => true,
        SoyType::Int => true,
        SoyType::Str => true,
        _ => false,
    }
}

/// Whether the type is exactly int.
pub fn is_int(of: &SoyType) -> bool
    ensures { result ≡ is_int (view_type of.now) }
{
    match of {
        SoyType::Int => true,
        _ => false,
    }
}

/// Whether the type is exactly string.
pub fn is_string(of: &SoyType) -> bool
    ensures { result ≡ is_string (view_type of.now) }
{
    match of {
        SoyType::Str => true,
        _ => false,
    }
}
