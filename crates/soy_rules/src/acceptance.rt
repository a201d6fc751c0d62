//! Which type accepts which.

ghost use Rattle.std.specs.Prelude.{◌≡◌};
ghost use Rattle.std.specs.List.{list_all};
ghost use Rattle.soy_rules.specs.Members.{union_members};
ghost use Rattle.soy_rules.specs.Accepts.{accepts, accepts_member, accepts_fields, some_accepts, has_field};
ghost use Rattle.soy_rules.specs.Accepts.{each_member};
ghost use Rattle.soy_tree.specs.ViewTypes.{view_type, view_members, view_fields};

use soy_base::Text;
use soy_tree::{Field, SoyType};

/// Whether a type accepts another.
#[cycle(accepting)]
#[tactic(auto, using(crate::proofs::Accepting::and_true))]
pub fn accepts(to: &SoyType, from: &SoyType) -> bool
    ensures { result ≡ accepts (view_type to.now) (view_type from.now) }
{
    match from {
        SoyType::Union(members) => accepts_all(to, members.items()),
        other => accepts_member(to, other),
    }
}

/// Whether a type accepts each of these types.
#[cycle(accepting)]
#[tactic(auto, using(crate::proofs::Accepting::all_append))]
fn accepts_all(to: &SoyType, members: &[SoyType]) -> bool
    ensures { result ≡ list_all (accepts_member (view_type to.now)) (union_members (view_members members.now)) }
{
    for member in members {
        if !accepts(to, member) {
            return false;
        }
    }
    true
}

/// Whether a type accepts this member.
#[cycle(accepting)]
fn accepts_member(to: &SoyType, from: &SoyType) -> bool
    ensures { result ≡ accepts_member (view_type to.now) (view_type from.now) }
{
    match (to, from) {
        (SoyType::Union(members), _) => some_accepts(members.items(), from),
        (SoyType::List(to), SoyType::List(from)) => accepts(to.get(), from.get()),
        (SoyType::Map(to), SoyType::Map(from)) => accepts(to.get(), from.get()),
        (SoyType::Fields(to), SoyType::Fields(from)) => accepts_fields(to.items(), from.items()),
        (SoyType::Null, SoyType::Null) => true,
        (SoyType::Bool, SoyType::Bool) => true,
        (SoyType::Int, SoyType::Int) => true,
        (SoyType::Str, SoyType::Str) => true,
        (SoyType::Html, SoyType::Html) => true,
        (SoyType::Attributes, SoyType::Attributes) => true,
        _ => false,
    }
}

/// Whether one of the members accepts the other's.
#[cycle(accepting)]
fn some_accepts(members: &[SoyType], from: &SoyType) -> bool
    ensures { result ≡ some_accepts (view_members members.now) (view_type from.now) }
{
    for member in members {
        if accepts_member(member, from) {
            return true;
        }
    }
    false
}

/// Whether a record of the first fields accepts one of the others.
#[cycle(accepting)]
fn accepts_fields(to: &[Field], from: &[Field]) -> bool
    ensures { result ≡ accepts_fields (view_fields to.now) (view_fields from.now) }
{
    for field in to {
        if !has_field(&field.name, &field.of, from) {
            return false;
        }
    }
    true
}

/// Whether the first field of this name is there, and the type accepts its type.
#[cycle(accepting)]
fn has_field(name: &Text, to: &SoyType, fields: &[Field]) -> bool
    ensures { result ≡ has_field name.now (each_member (accepts_member (view_type to.now))) (view_fields fields.now) }
{
    for field in fields {
        if field.name.is(name.text()) {
            return accepts(to, &field.of);
        }
    }
    false
}
