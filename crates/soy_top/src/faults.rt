//! The lines of the faults of files and bundles.

ghost use Rattle.std.specs.Prelude.{◌≡◌, IfOk, length, min};
ghost use Rattle.std.specs.String.{string_bytes};
ghost use Rattle.soy_front.specs.ViewSources.{view_contents};
ghost use Rattle.soy_top.specs.Answer.{call_fault, front_line};
ghost use Rattle.soy_top.specs.Line.{ended};
ghost use Rattle.soy_top.specs.Numbered.{numbered, numbered_line};
ghost use Rattle.soy_top.specs.Words.{command_words};

use crate::inputs::content_at;
use crate::line::{fault_line, pointer_line};
use soy_base::{Code, Fault, OutOfMemory, TooDeep};
use soy_front::{FrontFault, Source};
use std::alloc::Global;

/// The line of a fault of files of these names, or of the bundle of a name.
pub fn front_line(
    alloc: Global,
    names: &[String],
    sources: &[Source],
    bundle: &str,
    fault: FrontFault,
) -> Result<String, OutOfMemory>
    ensures { IfOk result (λ line. string_bytes line
        ≡ ended (front_line (command_words names.now) (view_contents sources.now) bundle.now fault)) }
{
    match fault {
        FrontFault::Soy(fault) => numbered_line(alloc, names, sources, fault),
        FrontFault::Bundle(fault) => pointer_line(alloc, bundle, fault.path.items(), fault.code),
    }
}

/// The line of a fault in one of the files of these names.
pub(crate) fn numbered_line(
    alloc: Global,
    names: &[String],
    sources: &[Source],
    fault: Fault,
) -> Result<String, OutOfMemory>
    ensures { IfOk result (λ line. string_bytes line
        ≡ ended (numbered_line (command_words names.now) (view_contents sources.now) fault)) }
{
    let name = name_at(names, fault.file as usize);
    let bytes = content_at(sources, fault.file as usize);
    fault_line(alloc, name, bytes, within(bytes, fault))
}

/// The line of a call that nests too deep, in one of the files of these names.
pub fn call_line(
    alloc: Global,
    names: &[String],
    sources: &[Source],
    call: TooDeep,
) -> Result<String, OutOfMemory>
    ensures { IfOk result (λ line. string_bytes line
        ≡ ended (numbered_line (command_words names.now) (view_contents sources.now)
        (call_fault (record { file = call.file; at = call.at })))) }
{
    let fault = Fault {
        code: Code::TooDeep,
        file: call.file,
        at: call.at,
    };
    numbered_line(alloc, names, sources, fault)
}

/// The name of a number, or an empty one where there are fewer.
fn name_at(names: &[String], number: usize) -> &str
    ensures { result.now ≡ numbered number (command_words names.now) }
{
    match names.get(number) {
        Some(name) => name.as_str(),
        None => "",
    }
}

/// A fault of a file, at its end where it would lie past that.
fn within(bytes: &[u8], fault: Fault) -> Fault
    ensures { result ≡ record { code = fault.code; file = fault.file; at = min fault.at (length bytes.now) } }
{
    Fault {
        code: fault.code,
        file: fault.file,
        at: fault.at.min(bytes.len() as u64),
    }
}
