//! The lines that the program writes for people.

ghost use Rattle.std.specs.Prelude.{◌≡◌, ◌≤◌, ◌++◌, length, IfOk, OnOk, encode_utf8_all};
ghost use Rattle.std.specs.List.{flat_map};
ghost use Rattle.std.specs.Str.{chars};
ghost use Rattle.std.specs.String.{string_bytes};
ghost use Rattle.soy_top.specs.Line.{refusal_line, too_large_line, fault_line, entry_line, read_line};
ghost use Rattle.soy_top.specs.Line.{ended, too_long_line};
ghost use Rattle.soy_top.specs.Pointer.{key_character, pointer, pointer_line, pointer_step};
ghost use Rattle.soy_top.specs.Scripts.ScriptSteps.{step_line};

use crate::play::StepFault;
use soy_base::{Code, Fault, OutOfMemory, PathStep, Position, line_of};
use std::alloc::Global;

/// The usage text.
pub(crate) const USAGE: &str = "usage: soyc render TEMPLATE DATA BUNDLE FILE..
soyc check BUNDLE FILE..
soyc extract FILE..
soyc gen NUMBER
soyc play SCRIPT BUNDLE BUNDLE FILE..
soyc preview TEMPLATE DATA BUNDLE FILE..
soyc format FILE
";

/// The line of a refusal, with its line feed.
fn refusal_line(alloc: Global, subject: &str, code: Code) -> Result<String, OutOfMemory>
    ensures { IfOk result (λ line. string_bytes line ≡ ended (refusal_line subject.now code)) }
{
    let number = code.number();
    let word = code.word();
    Ok(format!(in alloc; "{subject}: {number} {word}\n")?)
}

/// The line of a file over its limit.
pub fn too_large_line(alloc: Global, file: &str) -> Result<String, OutOfMemory>
    ensures { IfOk result (λ line. string_bytes line ≡ ended (too_large_line file.now)) }
{
    let position = format!(in alloc; "{file}:1:1")?;
    refusal_line(alloc, position.as_str(), Code::TooLarge)
}

/// The line of a fault of a file.
pub(crate) fn fault_line(
    alloc: Global,
    name: &str,
    bytes: &[u8],
    fault: Fault,
) -> Result<String, OutOfMemory>
    requires { fault.at ≤ length bytes.now }
    ensures { IfOk result (λ line. string_bytes line ≡ ended (fault_line name.now bytes.now fault)) }
{
    let Position { line, column } = line_of(bytes, fault.at);
    let position = format!(in alloc; "{name}:{line}:{column}")?;
    refusal_line(alloc, position.as_str(), fault.code)
}

/// The line of the refusal of a line of a script.
pub(crate) fn step_line(
    alloc: Global,
    script: &str,
    fault: StepFault,
) -> Result<String, OutOfMemory>
    ensures { IfOk result (λ line. string_bytes line ≡ ended (step_line script.now fault)) }
{
    let StepFault { line, code } = fault;
    let position = format!(in alloc; "{script}:{line}:1")?;
    refusal_line(alloc, position.as_str(), code)
}

/// The line of a fault of a JSON file, at a JSON pointer.
pub fn pointer_line(
    alloc: Global,
    name: &str,
    path: &[PathStep],
    code: Code,
) -> Result<String, OutOfMemory>
    ensures { IfOk result (λ line. string_bytes line ≡ ended (pointer_line name.now path.now code)) }
{
    let mut subject = String::from_str(alloc, name)?;
    subject.push(':')?;
    push_pointer(alloc, &mut subject, path)?;
    refusal_line(alloc, subject.as_str(), code)
}

/// Adds the JSON pointer of a path.
fn push_pointer(alloc: Global, text: &mut String, path: &[PathStep]) -> Result<(), OutOfMemory>
    ensures { OnOk result (string_bytes text.new ≡ string_bytes text.old ++ pointer path.now) }
{
    for step in path {
        push_step(alloc, text, step)?;
    }
    Ok(())
}

/// Adds a step of a JSON pointer.
fn push_step(alloc: Global, text: &mut String, step: &PathStep) -> Result<(), OutOfMemory>
    ensures { OnOk result (string_bytes text.new ≡ string_bytes text.old ++ pointer_step step.now) }
{
    text.push('/')?;
    match step {
        PathStep::Key(key) => push_key(text, key.text()),
        PathStep::Index(index) => {
            text.push_str(format!(in alloc; "{index}")?.as_str())?;
            Ok(())
        }
    }
}

/// Adds a key of a JSON pointer.
fn push_key(text: &mut String, key: &str) -> Result<(), OutOfMemory>
    ensures { OnOk result (string_bytes text.new
        ≡ string_bytes text.old ++ encode_utf8_all (flat_map key_character (chars key.now))) }
{
    for c in key.chars() {
        push_key_character(text, c)?;
    }
    Ok(())
}

/// Adds a character of a key of a JSON pointer.
fn push_key_character(text: &mut String, c: char) -> Result<(), OutOfMemory>
    ensures { OnOk result (string_bytes text.new ≡ string_bytes text.old ++ encode_utf8_all (key_character c)) }
{
    match c {
        '~' => text.push_str("~0")?,
        '/' => text.push_str("~1")?,
        _ => text.push(c)?,
    }
    Ok(())
}

/// The line of a template that may not be rendered.
pub fn entry_line(alloc: Global, template: &str) -> Result<String, OutOfMemory>
    ensures { IfOk result (λ line. string_bytes line ≡ ended (entry_line template.now)) }
{
    refusal_line(alloc, template, Code::Entry)
}

/// The line of a page that is too long to be shown.
pub(crate) fn too_long_line(alloc: Global) -> Result<String, OutOfMemory>
    ensures { IfOk result (λ line. string_bytes line ≡ ended too_long_line) }
{
    refusal_line(alloc, "preview", Code::TooLong)
}

/// The line of a file that could not be read, with its line feed.
pub(crate) fn read_line(alloc: Global, file: &str) -> Result<String, OutOfMemory>
    ensures { IfOk result (λ line. string_bytes line ≡ ended (read_line file.now)) }
{
    Ok(format!(in alloc; "{file}: read fault\n")?)
}
