//! The machine that reads a type, a token a step.

ghost use Rattle.std.specs.Prelude.{◌≡◌, IfOk, None, [], ◌∷◌, ◌++◌};
ghost use Rattle.expr_parser.specs.TypeRuns.{type_start};
ghost use Rattle.expr_parser.specs.TypeSteps.{type_step, type_step_of, has_type, opens_type, settled_type, whole_type};
ghost use Rattle.expr_parser.specs.TypeSteps.{greater_next, comma_next, close_next, delimiter_next, less_next};
ghost use Rattle.expr_parser.specs.TypeSteps.{type_expected_next, key_next, key_comma_next, field_name_next};
ghost use Rattle.expr_parser.specs.TypeSteps.{field_colon_next, after_name_next, settled, type_depth, unknown_type};
ghost use Rattle.expr_parser.specs.TypeOperands.{named, field};
ghost use Rattle.expr_parser.specs.TypeTerminals.{type_terminal_of};

use crate::operand::deeper;
use crate::type_frame::{
    TypeBracket, TypeFrame, TypeNested, TypeOperand, settled, type_raised, with_member,
};
use crate::type_terminal::{TypeName, TypeTerminal};
use soy_base::{OutOfMemory, Row, Stack, Text};
use soy_lexer::Token;
use soy_tree::{Field, SoyType};
use std::alloc::Global;

/// What may come next inside the innermost frame.
#[derive(Drop)]
pub enum ExpectedInType {
    /// A type.
    Type,
    /// A `<`, or what follows a type, after this name, which stands at the offset.
    AfterName(TypeName, u64),
    /// A delimiter, after this type.
    Delimiter(TypeOperand),
    /// The word `string`, after `map<`.
    Key,
    /// A comma, after `map<string`.
    KeyComma,
    /// The name of a field, after these fields, whose types have this height.
    FieldName(Row<Field>, u32),
    /// A colon, after the name of a field.
    FieldColon(Row<Field>, u32, Text),
}

/// What was read of a type.
#[derive(Drop)]
pub struct TypeState {
    pub(crate) frames: Stack<TypeFrame>,
    pub(crate) expected: ExpectedInType,
}

/// What a token does: some type goes on with it, and this is the state after it; or none does, and then what was read
/// before it is a whole type or isn't.
#[derive(Drop)]
pub enum TypeStep {
    Next(TypeState),
    End(Option<TypeOperand>),
}

impl TypeState {
    /// The state before the first token. Takes no memory.
    pub fn start(alloc: Global) -> TypeState
        ensures { result ≡ type_start }
    {
        TypeState {
            frames: Stack::empty(alloc),
            expected: ExpectedInType::Type,
        }
    }

    /// What a token does.
    pub fn step(self, alloc: Global, token: &Token) -> Result<TypeStep, OutOfMemory>
        ensures { IfOk result (λ to. to ≡ type_step self token.now) }
    {
        let TypeState { frames, expected } = self;
        match expected {
            ExpectedInType::Type => at_type(alloc, frames, token),
            ExpectedInType::AfterName(name, _) => after_name(alloc, frames, name, token),
            ExpectedInType::Delimiter(operand) => at_delimiter(
                alloc,
                frames,
                operand,
                TypeTerminal::of(token),
            ),
            ExpectedInType::Key => Ok(at_key(frames, token)),
            ExpectedInType::KeyComma => at_key_comma(frames, token),
            ExpectedInType::FieldName(fields, height) => at_field_name(
                alloc, frames, fields, height, token,
            ),
            ExpectedInType::FieldColon(fields, height, name) => at_field_colon(
                frames, fields, height, name, token,
            ),
        }
    }

    /// The nodes on the longest branch of what was read.
    pub fn depth(&self) -> u32
        ensures { result ≡ type_depth self.now }
    {
        let height = match &self.expected {
            ExpectedInType::Type => 0,
            ExpectedInType::AfterName(_, _) | ExpectedInType::Key | ExpectedInType::KeyComma =>
                deeper(0, 0),
            ExpectedInType::Delimiter(operand) => operand.height,
            ExpectedInType::FieldName(_, height) | ExpectedInType::FieldColon(_, height, _) =>
                deeper(*height, 0),
        };
        type_raised(&self.frames, height)
    }

    /// The offset of the word that was read last, if it names no type where a `<` follows it or doesn't.
    pub fn unknown(&self, less_follows: bool) -> Option<u64>
        ensures { result ≡ unknown_type self.now less_follows }
    {
        match &self.expected {
            ExpectedInType::AfterName(name, offset) => {
                if name.names_type(less_follows) {
                    None
                } else {
                    Some(*offset)
                }
            }
            _ => None,
        }
    }

    /// What was read, if it is a whole type.
    pub fn finish(self) -> Result<Option<TypeOperand>, OutOfMemory>
        ensures { IfOk result (λ x. x ≡ whole_type self) }
    {
        let TypeState { frames, expected } = self;
        match expected {
            ExpectedInType::AfterName(name, _) => Ok(settled_type(settled(
                frames,
                TypeOperand::named(name),
            )?)),
            ExpectedInType::Delimiter(operand) => Ok(settled_type(settled(frames, operand)?)),
            _ => Ok(None),
        }
    }
}

/// A type has come.
fn has_type(frames: Stack<TypeFrame>, operand: TypeOperand) -> TypeStep
    ensures { result ≡ type_step_of (has_type frames operand) None }
{
    TypeStep::Next(TypeState {
        frames,
        expected: ExpectedInType::Delimiter(operand),
    })
}

/// A type is expected inside a further frame.
fn opens_type(frames: Stack<TypeFrame>, frame: TypeFrame) -> Result<TypeStep, OutOfMemory>
    ensures { IfOk result (λ to. to ≡ type_step_of (opens_type frames frame) None) }
{
    let mut frames = frames;
    frames.push(frame)?;
    Ok(TypeStep::Next(TypeState {
        frames,
        expected: ExpectedInType::Type,
    }))
}

/// The type, where no frame is open around it.
fn settled_type(nested: TypeNested) -> Option<TypeOperand>
    ensures { result ≡ settled_type nested }
{
    let mut frames = nested.frames;
    match frames.pop() {
        Some(_) => None,
        None => Some(nested.operand),
    }
}

/// A token where a type is expected.
#[inline(never)]
fn at_type(alloc: Global, frames: Stack<TypeFrame>, token: &Token) -> Result<TypeStep, OutOfMemory>
    ensures { IfOk result (λ to. to ≡ type_step_of (type_expected_next frames token.now
        (type_terminal_of token.now)) None) }
{
    let expected = match TypeTerminal::of(token) {
        TypeTerminal::Word(name) => ExpectedInType::AfterName(name, token.span.start),
        TypeTerminal::OpenBracket => ExpectedInType::FieldName(Row::empty(alloc), 0),
        _ => return Ok(TypeStep::End(None)),
    };
    Ok(TypeStep::Next(TypeState { frames, expected }))
}

/// A token after a name.
#[inline(never)]
fn after_name(
    alloc: Global,
    frames: Stack<TypeFrame>,
    name: TypeName,
    token: &Token,
) -> Result<TypeStep, OutOfMemory>
    ensures { IfOk result (λ to. to ≡ type_step_of (after_name_next frames name (type_terminal_of token.now))
        (settled_type (settled frames (named name)))) }
{
    match TypeTerminal::of(token) {
        TypeTerminal::Less => less(frames, name),
        terminal => at_delimiter(alloc, frames, TypeOperand::named(name), terminal),
    }
}

/// A `<` after a name.
#[inline(never)]
fn less(frames: Stack<TypeFrame>, name: TypeName) -> Result<TypeStep, OutOfMemory>
    ensures { IfOk result (λ to. to ≡ type_step_of (less_next frames name)
        (settled_type (settled frames (named name)))) }
{
    match name {
        TypeName::List => opens_type(frames, TypeFrame::Bracket(TypeBracket::List)),
        TypeName::Map => Ok(TypeStep::Next(TypeState {
            frames,
            expected: ExpectedInType::Key,
        })),
        _ => Ok(TypeStep::End(settled_type(settled(frames, TypeOperand::named(name))?))),
    }
}

/// A token after a type.
#[inline(never)]
fn at_delimiter(
    alloc: Global,
    frames: Stack<TypeFrame>,
    operand: TypeOperand,
    terminal: TypeTerminal,
) -> Result<TypeStep, OutOfMemory>
    ensures { IfOk result (λ to. to ≡ type_step_of (delimiter_next frames operand terminal)
        (settled_type (settled frames operand))) }
{
    match terminal {
        TypeTerminal::Bar => Ok(TypeStep::Next(TypeState {
            frames: with_member(alloc, frames, operand)?,
            expected: ExpectedInType::Type,
        })),
        TypeTerminal::Greater => greater(alloc, settled(frames, operand)?),
        TypeTerminal::Comma => comma(settled(frames, operand)?),
        TypeTerminal::CloseBracket => close_bracket(settled(frames, operand)?),
        _ => Ok(TypeStep::End(settled_type(settled(frames, operand)?))),
    }
}

/// A `>`.
#[inline(never)]
fn greater(alloc: Global, nested: TypeNested) -> Result<TypeStep, OutOfMemory>
    ensures { IfOk result (λ to. to ≡ type_step_of (greater_next nested.frames nested.operand) (settled_type nested)) }
{
    let mut frames = nested.frames;
    match frames.pop() {
        Some(TypeFrame::Bracket(TypeBracket::List)) => Ok(has_type(
            frames,
            nested.operand.listed(alloc)?,
        )),
        Some(TypeFrame::Bracket(TypeBracket::Map)) => Ok(has_type(
            frames,
            nested.operand.mapped(alloc)?,
        )),
        Some(TypeFrame::Bracket(TypeBracket::Field(_, _, _))) => Ok(TypeStep::End(None)),
        Some(TypeFrame::Union(_, _)) => Ok(TypeStep::End(None)),
        None => Ok(TypeStep::End(Some(nested.operand))),
    }
}

/// A comma after the type of a field, or of what a type stands in.
#[inline(never)]
fn comma(nested: TypeNested) -> Result<TypeStep, OutOfMemory>
    ensures { IfOk result (λ to. to ≡ type_step_of (comma_next nested.frames nested.operand) (settled_type nested)) }
{
    let mut frames = nested.frames;
    match frames.pop() {
        Some(TypeFrame::Bracket(TypeBracket::Field(fields, height, name))) => {
            let height = height.max(nested.operand.height);
            let expected = ExpectedInType::FieldName(
                with_field(fields, name, nested.operand.of)?,
                height,
            );
            Ok(TypeStep::Next(TypeState { frames, expected }))
        }
        Some(TypeFrame::Bracket(TypeBracket::List)) => Ok(TypeStep::End(None)),
        Some(TypeFrame::Bracket(TypeBracket::Map)) => Ok(TypeStep::End(None)),
        Some(TypeFrame::Union(_, _)) => Ok(TypeStep::End(None)),
        None => Ok(TypeStep::End(Some(nested.operand))),
    }
}

/// A `]`.
#[inline(never)]
fn close_bracket(nested: TypeNested) -> Result<TypeStep, OutOfMemory>
    ensures { IfOk result (λ to. to ≡ type_step_of (close_next nested.frames nested.operand) (settled_type nested)) }
{
    let mut frames = nested.frames;
    match frames.pop() {
        Some(TypeFrame::Bracket(TypeBracket::Field(fields, height, name))) => {
            let height = height.max(nested.operand.height);
            let fields = with_field(fields, name, nested.operand.of)?;
            Ok(has_type(frames, TypeOperand::recorded(fields, height)))
        }
        Some(TypeFrame::Bracket(TypeBracket::List)) => Ok(TypeStep::End(None)),
        Some(TypeFrame::Bracket(TypeBracket::Map)) => Ok(TypeStep::End(None)),
        Some(TypeFrame::Union(_, _)) => Ok(TypeStep::End(None)),
        None => Ok(TypeStep::End(Some(nested.operand))),
    }
}

/// The fields, and one more.
fn with_field(fields: Row<Field>, name: Text, of: SoyType) -> Result<Row<Field>, OutOfMemory>
    ensures { IfOk result (λ fs. fs ≡ fields ++ field name of ∷ []) }
{
    let mut fields = fields;
    fields.push(Field { name, of })?;
    Ok(fields)
}

/// The word `string`, as the key of a map.
#[inline(never)]
fn at_key(frames: Stack<TypeFrame>, token: &Token) -> TypeStep
    ensures { result ≡ type_step_of (key_next frames (type_terminal_of token.now)) None }
{
    match TypeTerminal::of(token) {
        TypeTerminal::Word(TypeName::Str) => TypeStep::Next(TypeState {
            frames,
            expected: ExpectedInType::KeyComma,
        }),
        _ => TypeStep::End(None),
    }
}

/// The comma after the key of a map.
#[inline(never)]
fn at_key_comma(frames: Stack<TypeFrame>, token: &Token) -> Result<TypeStep, OutOfMemory>
    ensures { IfOk result (λ to. to ≡ type_step_of (key_comma_next frames (type_terminal_of token.now)) None) }
{
    match TypeTerminal::of(token) {
        TypeTerminal::Comma => opens_type(frames, TypeFrame::Bracket(TypeBracket::Map)),
        _ => Ok(TypeStep::End(None)),
    }
}

/// The name of a field.
#[inline(never)]
fn at_field_name(
    alloc: Global,
    frames: Stack<TypeFrame>,
    fields: Row<Field>,
    height: u32,
    token: &Token,
) -> Result<TypeStep, OutOfMemory>
    ensures { IfOk result (λ to. to ≡
        type_step_of (field_name_next frames fields height token.now (type_terminal_of token.now)) None) }
{
    match TypeTerminal::of(token) {
        TypeTerminal::Word(_) => Ok(TypeStep::Next(TypeState {
            frames,
            expected: ExpectedInType::FieldColon(fields, height, token.text.copy(alloc)?),
        })),
        _ => Ok(TypeStep::End(None)),
    }
}

/// The colon after the name of a field.
#[inline(never)]
fn at_field_colon(
    frames: Stack<TypeFrame>,
    fields: Row<Field>,
    height: u32,
    name: Text,
    token: &Token,
) -> Result<TypeStep, OutOfMemory>
    ensures { IfOk result (λ to. to ≡
        type_step_of (field_colon_next frames fields height name (type_terminal_of token.now)) None) }
{
    match TypeTerminal::of(token) {
        TypeTerminal::Colon => opens_type(
            frames,
            TypeFrame::Bracket(TypeBracket::Field(fields, height, name)),
        ),
        _ => Ok(TypeStep::End(None)),
    }
}
