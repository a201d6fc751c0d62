//! The classes of printed values.

ghost use Rattle.std.specs.Prelude.{◌≡◌, ◌++◌, IfOk, OnOk};
ghost use Rattle.soy_meaning.specs.Paths.PlanOfNodes.{kind_class};
ghost use Rattle.soy_meaning.specs.Paths.PlanOfParts.{classes_of_all, member_classes, printed_classes};
ghost use Rattle.soy_rules.specs.Members.{members, union_members};
ghost use Rattle.soy_tree.specs.ViewExpressions.{view_expr};
ghost use Rattle.soy_tree.specs.ViewTypes.{view_members, view_type};
ghost use Rattle.soy_expr.specs.ViewScope.{view_vars};

use soy_base::{Kind, OutOfMemory, Refusal, ValueClass};
use soy_expr::{VisibleVariables, type_by};
use soy_tree::{Expr, SoyType};
use std::alloc::Global;

/// Adds the class of a type that is no union, where it has one.
fn push_member(classes: &mut Vec<ValueClass>, of: &SoyType) -> Result<(), OutOfMemory>
    ensures { OnOk result (classes.new.items ≡ classes.old.items ++ member_classes (view_type of.now)) }
{
    let class = match of {
        SoyType::Null => ValueClass::Null,
        SoyType::Bool => ValueClass::Bool,
        SoyType::Int => ValueClass::Int,
        SoyType::Str => ValueClass::Text,
        SoyType::Html => ValueClass::Html,
        SoyType::Attributes => ValueClass::Attributes,
        _ => return Ok(()),
    };
    Ok(classes.push(class)?)
}

/// Adds the classes of a type.
#[cycle(classes)]
fn push_classes(classes: &mut Vec<ValueClass>, of: &SoyType) -> Result<(), OutOfMemory>
    ensures { OnOk result (classes.new.items ≡ classes.old.items ++ classes_of_all (members (view_type of.now))) }
{
    match of {
        SoyType::Union(members) => push_all(classes, members.items()),
        other => push_member(classes, other),
    }
}

/// Adds the classes of the members of a union.
#[cycle(classes)]
fn push_all(classes: &mut Vec<ValueClass>, members: &[SoyType]) -> Result<(), OutOfMemory>
    ensures { OnOk result
        (classes.new.items ≡ classes.old.items ++ classes_of_all (union_members (view_members members.now))) }
{
    for of in members {
        push_classes(classes, of)?;
    }
    Ok(())
}

/// The classes of the values of an expression; none where it has no type.
pub(crate) fn printed_classes(
    alloc: Global,
    expr: &Expr,
    vars: &VisibleVariables,
) -> Result<Vec<ValueClass>, OutOfMemory>
    ensures { IfOk result (λ classes. classes.items ≡ printed_classes (view_expr expr.now) (view_vars vars.now)) }
{
    let mut classes = Vec::new(alloc);
    match type_by(alloc, expr, vars) {
        Ok(of) => push_classes(&mut classes, &of)?,
        Err(Refusal::Because(_fault)) => {}
        Err(Refusal::OutOfMemory) => return Err(OutOfMemory),
    }
    Ok(classes)
}

/// The class of a block or a call of a kind.
pub(crate) fn kind_class(kind: Kind) -> ValueClass
    ensures { result ≡ kind_class kind }
{
    match kind {
        Kind::Html => ValueClass::Html,
        Kind::Attributes => ValueClass::Attributes,
        Kind::Text => ValueClass::Text,
    }
}
