//! The types of values.

ghost use Rattle.std.specs.Prelude.{◌≡◌, IfOk};

use soy_base::{Boxed, OutOfMemory, Seq, Text};
use std::alloc::Global;

/// A type of the source language.
#[derive(Drop)]
#[cycle(types)]
pub enum SoyType {
    Null,
    Bool,
    Int,
    Str,
    Html,
    Attributes,
    List(Boxed<SoyType>),
    /// A map from strings to items of a type.
    Map(Boxed<SoyType>),
    /// A record, field by field.
    Fields(Seq<Field>),
    /// The members as they are written; of no members it is the type that no value has.
    Union(Seq<SoyType>),
}

/// A field of a record type, or a variable of a scope.
#[derive(Drop)]
#[cycle(types)]
pub struct Field {
    pub name: Text,
    pub of: SoyType,
}

impl SoyType {
    /// An equal type.
    #[cycle(copying_types)]
    pub fn copy(&self, alloc: Global) -> Result<SoyType, OutOfMemory>
        ensures { IfOk result (λ t. t ≡ self.now) }
    {
        Ok(match self {
            SoyType::Null => SoyType::Null,
            SoyType::Bool => SoyType::Bool,
            SoyType::Int => SoyType::Int,
            SoyType::Str => SoyType::Str,
            SoyType::Html => SoyType::Html,
            SoyType::Attributes => SoyType::Attributes,
            SoyType::List(of) => SoyType::List(Boxed::new(alloc, of.get().copy(alloc)?)?),
            SoyType::Map(of) => SoyType::Map(Boxed::new(alloc, of.get().copy(alloc)?)?),
            SoyType::Fields(fields) => SoyType::Fields(copied_fields(alloc, fields.items())?),
            SoyType::Union(members) => SoyType::Union(copied_types(alloc, members.items())?),
        })
    }
}

/// Equal types.
#[cycle(copying_types)]
fn copied_types(alloc: Global, types: &[SoyType]) -> Result<Seq<SoyType>, OutOfMemory>
    ensures { IfOk result (λ ts. ts ≡ types.now) }
{
    let mut copied = Vec::new(alloc);
    for of in types {
        copied.push(of.copy(alloc)?)?;
    }
    Ok(Seq::new(copied))
}

/// Equal fields.
#[cycle(copying_types)]
fn copied_fields(alloc: Global, fields: &[Field]) -> Result<Seq<Field>, OutOfMemory>
    ensures { IfOk result (λ fs. fs ≡ fields.now) }
{
    let mut copied = Vec::new(alloc);
    for field in fields {
        let name = field.name.copy(alloc)?;
        let of = field.of.copy(alloc)?;
        copied.push(Field { name, of })?;
    }
    Ok(Seq::new(copied))
}
