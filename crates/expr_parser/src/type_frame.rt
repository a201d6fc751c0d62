//! What is open inside a type.

ghost use Rattle.std.specs.Prelude.{◌≡◌, IfOk};
ghost use Rattle.expr_parser.specs.TypeOperands.{named, listed, mapped, recorded};
ghost use Rattle.expr_parser.specs.TypeSteps.{settled, with_member, union_of_one};
ghost use Rattle.expr_parser.specs.TypeSteps.{bracket_branch, type_branch, type_raised};

use crate::operand::deeper;
use crate::type_terminal::TypeName;
use soy_base::{Boxed, OutOfMemory, Row, Stack, Text};
use soy_tree::{Field, SoyType};
use std::alloc::Global;

/// A type that was read, with the number of nodes on its longest branch.
#[derive(Drop)]
pub struct TypeOperand {
    pub height: u32,
    pub of: SoyType,
}

/// What a token of its own closes.
#[derive(Drop)]
pub enum TypeBracket {
    List,
    Map,
    /// The fields before this one, the height of their types, and the name of this one.
    Field(Row<Field>, u32, Text),
}

/// What is open around the tokens to come.
#[derive(Drop)]
pub enum TypeFrame {
    /// The members before the next, and their height.
    Union(Row<SoyType>, u32),
    Bracket(TypeBracket),
}

/// A type, and the frames in which it stands.
#[derive(Drop)]
pub struct TypeNested {
    pub frames: Stack<TypeFrame>,
    pub operand: TypeOperand,
}

impl TypeOperand {
    /// The type of a name; one that names no type is read as null.
    pub(crate) fn named(name: TypeName) -> TypeOperand
        ensures { result ≡ named name }
    {
        let of = match name {
            TypeName::Bool => SoyType::Bool,
            TypeName::Int => SoyType::Int,
            TypeName::Str => SoyType::Str,
            TypeName::Html => SoyType::Html,
            TypeName::Attributes => SoyType::Attributes,
            _ => SoyType::Null,
        };
        TypeOperand {
            height: deeper(0, 0),
            of,
        }
    }

    /// A list of the type.
    pub(crate) fn listed(self, alloc: Global) -> Result<TypeOperand, OutOfMemory>
        ensures { IfOk result (λ x. x ≡ listed self) }
    {
        Ok(TypeOperand {
            height: deeper(0, self.height),
            of: SoyType::List(Boxed::new(alloc, self.of)?),
        })
    }

    /// A map to the type.
    pub(crate) fn mapped(self, alloc: Global) -> Result<TypeOperand, OutOfMemory>
        ensures { IfOk result (λ x. x ≡ mapped self) }
    {
        Ok(TypeOperand {
            height: deeper(0, self.height),
            of: SoyType::Map(Boxed::new(alloc, self.of)?),
        })
    }

    /// A record whose fields have types of this height.
    pub(crate) fn recorded(fields: Row<Field>, height: u32) -> TypeOperand
        ensures { result ≡ recorded fields height }
    {
        TypeOperand {
            height: deeper(height, 0),
            of: SoyType::Fields(fields.done()),
        }
    }
}

/// What is left where a union that is open takes the type as its last member.
pub(crate) fn settled(
    frames: Stack<TypeFrame>,
    operand: TypeOperand,
) -> Result<TypeNested, OutOfMemory>
    ensures { IfOk result (λ r. r ≡ settled frames operand) }
{
    let mut frames = frames;
    match frames.pop() {
        Some(TypeFrame::Union(members, height)) => {
            let mut members = members;
            members.push(operand.of)?;
            let operand = TypeOperand {
                height: deeper(height, operand.height),
                of: SoyType::Union(members.done()),
            };
            Ok(TypeNested { frames, operand })
        }
        Some(TypeFrame::Bracket(bracket)) => {
            frames.push(TypeFrame::Bracket(bracket))?;
            Ok(TypeNested { frames, operand })
        }
        None => Ok(TypeNested { frames, operand }),
    }
}

/// The frames where a union takes the type as a further member: the one that is open, or one that opens.
pub(crate) fn with_member(
    alloc: Global,
    frames: Stack<TypeFrame>,
    operand: TypeOperand,
) -> Result<Stack<TypeFrame>, OutOfMemory>
    ensures { IfOk result (λ r. r ≡ with_member frames operand) }
{
    let mut frames = frames;
    match frames.pop() {
        Some(TypeFrame::Union(members, height)) => {
            let mut members = members;
            members.push(operand.of)?;
            frames.push(TypeFrame::Union(members, height.max(operand.height)))?;
        }
        Some(TypeFrame::Bracket(bracket)) => {
            frames.push(TypeFrame::Bracket(bracket))?;
            frames.push(union_of_one(alloc, operand)?)?;
        }
        None => frames.push(union_of_one(alloc, operand)?)?,
    }
    Ok(frames)
}

/// A union that opens with this member.
fn union_of_one(alloc: Global, operand: TypeOperand) -> Result<TypeFrame, OutOfMemory>
    ensures { IfOk result (λ f. f ≡ union_of_one operand) }
{
    let mut members = Row::empty(alloc);
    members.push(operand.of)?;
    Ok(TypeFrame::Union(members, operand.height))
}

impl TypeBracket {
    /// The nodes on the longest branch of what was read before the type that is open.
    fn branch(&self) -> u32
        ensures { result ≡ bracket_branch self.now }
    {
        match self {
            TypeBracket::List | TypeBracket::Map => 0,
            TypeBracket::Field(_, height, _) => *height,
        }
    }
}

impl TypeFrame {
    /// The nodes on the longest branch of what was read before the type that is open.
    fn branch(&self) -> u32
        ensures { result ≡ type_branch self.now }
    {
        match self {
            TypeFrame::Union(_, height) => *height,
            TypeFrame::Bracket(bracket) => bracket.branch(),
        }
    }
}

/// The nodes on the longest branch, where a branch of this height stands inside the frames.
pub(crate) fn type_raised(frames: &Stack<TypeFrame>, height: u32) -> u32
    ensures { result ≡ type_raised frames.now height }
{
    let mut height = height;
    for frame in frames.items().iter().rev() {
        height = deeper(frame.branch(), height);
    }
    height
}
