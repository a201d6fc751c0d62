//! How a type is written in a fault.

ghost use Rattle.std.specs.Prelude.{◌≡◌, ◌++◌, true, codes, IfOk, OnOk};
ghost use Rattle.soy_base.specs.Appends.{Appends};
ghost use Rattle.soy_rules.specs.TypeText.{fields_text, members_text, type_text};
ghost use Rattle.soy_tree.specs.ViewTypes.{view_fields, view_members, view_type};
ghost use Rattle.soy_expr.specs.Ascii.{is_ascii};
ghost use Rattle.soy_expr.specs.Separators.{separator_before};

use crate::ascii::push_ascii;
use soy_base::{OutOfMemory, Text, push_text};
use soy_tree::{Field, SoyType};
use std::alloc::Global;

/// The text of a type.
pub fn text_of(alloc: Global, of: &SoyType) -> Result<Text, OutOfMemory>
    ensures { IfOk result (λ t. t ≡ type_text (view_type of.now)) }
{
    let mut text = String::new(alloc);
    push_type(&mut text, of)?;
    Ok(Text::new(text))
}

/// Adds the text of a type.
#[cycle(pushing_types)]
#[tactic(auto, using(crate::proofs::TypeTexts::three_pushed))]
fn push_type(out: &mut String, of: &SoyType) -> Result<(), OutOfMemory>
    ensures { OnOk result (Appends out.old out.new (type_text (view_type of.now))) }
{
    match of {
        SoyType::Null => push_ascii(out, "null"),
        SoyType::Bool => push_ascii(out, "bool"),
        SoyType::Int => push_ascii(out, "int"),
        SoyType::Str => push_ascii(out, "string"),
        SoyType::Html => push_ascii(out, "html"),
        SoyType::Attributes => push_ascii(out, "attributes"),
        SoyType::List(of) => {
            push_ascii(out, "list<")?;
            push_type(out, of.get())?;
            push_ascii(out, ">")?;
            Ok(())
        }
        SoyType::Map(of) => {
            push_map_start(out)?;
            push_type(out, of.get())?;
            push_ascii(out, ">")?;
            Ok(())
        }
        SoyType::Fields(fields) => push_record(out, fields.items()),
        SoyType::Union(members) => push_members(out, members.items()),
    }
}

/// Adds the texts of the members, with `|` between them.
#[cycle(pushing_types)]
#[tactic(auto, using(crate::proofs::TypeTexts::append_assoc, crate::proofs::TypeTexts::members_step, crate::proofs::TypeTexts::members_over))]
fn push_members(out: &mut String, members: &[SoyType]) -> Result<(), OutOfMemory>
    ensures { OnOk result (Appends out.old out.new (members_text (view_members members.now))) }
{
    for (number, member) in members.iter().enumerate() {
        push_separator(out, number, "|")?;
        push_type(out, member)?;
    }
    Ok(())
}

/// Adds the texts of the fields in brackets, with `, ` between them.
#[cycle(pushing_types)]
#[tactic(auto, using(crate::proofs::TypeTexts::append_assoc, crate::proofs::TypeTexts::fields_step, crate::proofs::TypeTexts::fields_over))]
fn push_record(out: &mut String, fields: &[Field]) -> Result<(), OutOfMemory>
    ensures { OnOk result (Appends out.old out.new
        (codes "[" ++ (fields_text (view_fields fields.now) ++ codes "]"))) }
{
    push_ascii(out, "[")?;
    for (number, field) in fields.iter().enumerate() {
        push_separator(out, number, ", ")?;
        push_name(out, &field.name)?;
        push_type(out, &field.of)?;
    }
    push_ascii(out, "]")?;
    Ok(())
}

/// Adds what stands before the item type of a map.
fn push_map_start(out: &mut String) -> Result<(), OutOfMemory>
    ensures { OnOk result (Appends out.old out.new (codes "map<string, ")) }
{
    push_ascii(out, "map<string, ")
}

/// Adds what stands before the item of a number.
fn push_separator(out: &mut String, number: usize, separator: &str) -> Result<(), OutOfMemory>
    requires { is_ascii separator.now ≡ true }
    ensures { OnOk result (Appends out.old out.new (separator_before number separator.now)) }
{
    if number == 0 {
        return push_ascii(out, "");
    }
    push_ascii(out, separator)
}

/// Adds the name of a field and a colon.
#[tactic(auto, using(crate::proofs::TypeTexts::append_assoc))]
fn push_name(out: &mut String, name: &Text) -> Result<(), OutOfMemory>
    ensures { OnOk result (Appends out.old out.new (name.now ++ codes ": ")) }
{
    push_text(out, name.text())?;
    push_ascii(out, ": ")
}
