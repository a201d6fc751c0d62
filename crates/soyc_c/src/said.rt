//! Faults with their lines.

ghost use Rattle.std.specs.Prelude.{◌≡◌, ◌+◌, ◌<◌, [], List, ℕ, IfOk, codes, length};
ghost use Rattle.std.specs.String.{string_bytes};
ghost use Rattle.soy_base.specs.declared.code.Code.TheVariants as code;
ghost use Rattle.soy_front.specs.ViewSources.{view_contents};
ghost use Rattle.soy_top.specs.Answer.{front_line};
ghost use Rattle.soy_base.specs.declared.path.PathStep.{PathStep};
ghost use Rattle.soy_top.specs.Line.{ended, entry_line, refusal_line, too_large_line};
ghost use Rattle.soy_top.specs.Numbered.{numbered};
ghost use Rattle.soy_top.specs.Pointer.{pointer, pointer_line};
ghost use Rattle.soy_top.specs.Words.{command_words};
ghost use Rattle.soyc_c.specs.Compiling.{front_code, front_pointer, refused, text_beside};
ghost use Rattle.soyc_c.specs.DetailText.{detail_text};
ghost use Rattle.soyc_c.specs.FaultNumbers.{front_numbers, numbers_elsewhere, numbers_in_file};
ghost use Rattle.soyc_c.specs.FaultParts.{Absent, Has, parts_in};
ghost use Rattle.soyc_c.specs.Giving.{deep_reply};
ghost use Rattle.soyc_c.specs.SlotReply.{Replies, fault_reply, unfilled_reply};
ghost use Rattle.soyc_c.specs.TemplateFiles.{file_contents, file_names};

use crate::detail_text::push_detail;
use crate::text_parts::{TextParts, line_parts, pointer_parts};
use crate::unfilled::{IN_BUNDLE, IN_DATA, IN_FILE, IN_NAME, REFUSED, Said, TOO_DEEP, Unfilled};
use soy_base::{Code, Fault, OutOfMemory, Position, TooDeep, line_of};
use soy_front::{Detail, Detailed, FrontFault, FrontRefusal, Source};
use soy_page::Templates;
use soy_top::{call_line, entry_line, front_line, pointer_line, too_large_line};
use soy_types::DataFault;
use std::alloc::Global;

/// The name of the data in the line of a fault.
const DATA_NAME: &str = "data";

/// A fault that isn't in a file, with its line if there was memory for it.
fn fault_elsewhere(line: Result<String, OutOfMemory>, code: Code, subject: u32) -> Unfilled
    ensures { (about : List ℕ) → IfOk line (λ t. string_bytes t ≡ ended (refusal_line about code)) →
        Replies (refused (refusal_line about code) code Absent (numbers_elsewhere subject code)) result }
{
    match line {
        Ok(text) => {
            let parts = line_parts(text.len(), 0, code);
            fault_with_parts(text, code, subject, parts)
        }
        Err(OutOfMemory) => Unfilled::Memory,
    }
}

/// The same with a JSON pointer, which begins at an offset of the line.
fn fault_at_pointer(
    line: Result<String, OutOfMemory>,
    code: Code,
    subject: u32,
    begin: usize,
) -> Unfilled
    ensures { (name : List ℕ) (path : List PathStep) → begin ≡ length name + 1 →
        IfOk line (λ t. string_bytes t ≡ ended (pointer_line name path code)) →
        Replies (refused (pointer_line name path code) code (Has (pointer path)) (numbers_elsewhere subject code))
        result }
{
    match line {
        Ok(text) => {
            let parts = pointer_parts(text.len(), code, begin);
            fault_with_parts(text, code, subject, parts)
        }
        Err(OutOfMemory) => Unfilled::Memory,
    }
}

/// A fault that isn't in a file, with its text.
fn fault_with_parts(text: String, code: Code, subject: u32, parts: TextParts) -> Unfilled
    ensures { unfilled_reply result ≡ record {
      status = 5;
      err = string_bytes text;
      fault = numbers_elsewhere subject code;
      parts = parts_in (string_bytes text) parts;
    } }
{
    Unfilled::Fault(Said {
        status: REFUSED,
        text,
        code,
        subject,
        file: 0,
        line: 0,
        column: 0,
        parts,
    })
}

/// A fault in one of these files, with its line if there was memory for it, and what goes with it.
fn fault_in_file(
    line: Result<String, OutOfMemory>,
    status: u32,
    sources: &[Source],
    fault: Fault,
    detail: &Detail,
) -> Unfilled
    ensures { (about : List ℕ) → 0 < status →
        IfOk line (λ t. string_bytes t ≡ ended (refusal_line about fault.code)) →
        Replies (fault_reply status (refusal_line about fault.code) fault.code Absent (detail_text detail.now)
        (numbers_in_file (view_contents sources.now) fault)) result }
{
    let Ok(mut text) = line else {
        return Unfilled::Memory;
    };
    let line_len = text.len();
    if push_detail(&mut text, detail).is_err() {
        return Unfilled::Memory;
    }
    let bytes = content_at(sources, fault.file as usize);
    let Position { line, column } = line_of(bytes, fault.at.min(bytes.len() as u64));
    let parts = line_parts(text.len(), text.len().saturating_sub(line_len), fault.code);
    Unfilled::Fault(Said {
        status,
        text,
        code: fault.code,
        subject: IN_FILE,
        file: fault.file as usize,
        line,
        column,
        parts,
    })
}

/// The content of a file, or an empty one where there are fewer.
fn content_at(sources: &[Source], number: usize) -> &[u8]
    ensures { result.now ≡ numbered number (view_contents sources.now) }
{
    match sources.get(number) {
        Some(source) => source.bytes.items(),
        None => b"",
    }
}

/// A fault of files of these names or of the bundle of a name.
pub(crate) fn front_fault(
    alloc: Global,
    names: &[String],
    sources: &[Source],
    bundle: &str,
    refusal: FrontRefusal,
) -> Unfilled
    ensures { Replies (fault_reply 5
        (front_line (command_words names.now) (view_contents sources.now) bundle.now refusal.fault)
        (front_code refusal.fault) (front_pointer refusal.fault) (text_beside refusal.fault refusal.detail)
        (front_numbers (view_contents sources.now) refusal.fault)) result }
{
    let Detailed { fault, detail } = refusal;
    match fault {
        FrontFault::Soy(fault) => {
            let line = front_line(alloc, names, sources, bundle, FrontFault::Soy(fault));
            fault_in_file(line, REFUSED, sources, fault, &detail)
        }
        FrontFault::Bundle(fault) => {
            let code = fault.code;
            let line = front_line(alloc, names, sources, bundle, FrontFault::Bundle(fault));
            fault_at_pointer(line, code, IN_BUNDLE, bundle.len() + 1)
        }
    }
}

/// That a bundle or data of a name are over their limit.
pub(crate) fn too_large(alloc: Global, name: &str, subject: u32) -> Unfilled
    ensures { Replies (refused (too_large_line name.now) code.TooLarge Absent
        (numbers_elsewhere subject code.TooLarge)) result }
{
    fault_elsewhere(too_large_line(alloc, name), Code::TooLarge, subject)
}

/// That no template may be rendered under a name.
pub(crate) fn no_entry(alloc: Global, name: &str) -> Unfilled
    ensures { Replies (refused (entry_line name.now) code.Entry Absent (numbers_elsewhere 3 code.Entry)) result }
{
    fault_elsewhere(entry_line(alloc, name), Code::Entry, IN_NAME)
}

/// That data are over their limit.
pub(crate) fn data_too_large(alloc: Global) -> Unfilled
    ensures { Replies (refused (too_large_line (codes "data")) code.TooLarge Absent
        (numbers_elsewhere 4 code.TooLarge)) result }
{
    too_large(alloc, DATA_NAME, IN_DATA)
}

/// A fault of data.
pub(crate) fn data_fault(alloc: Global, fault: DataFault) -> Unfilled
    ensures { Replies (refused (pointer_line (codes "data") fault.path fault.code) fault.code (Has (pointer fault.path))
        (numbers_elsewhere 4 fault.code)) result }
{
    let line = pointer_line(alloc, DATA_NAME, fault.path.items(), fault.code);
    fault_at_pointer(line, fault.code, IN_DATA, DATA_NAME.len() + 1)
}

/// A call that nests too deep.
pub(crate) fn deep_call(alloc: Global, templates: &Templates, call: TooDeep) -> Unfilled
    ensures { Replies (deep_reply (file_names templates.now) (file_contents templates.now) call)
        result }
{
    let names = templates.names.as_slice();
    let sources = templates.sources.as_slice();
    let fault = Fault {
        code: Code::TooDeep,
        file: call.file,
        at: call.at,
    };
    fault_in_file(
        call_line(alloc, names, sources, call),
        TOO_DEEP,
        sources,
        fault,
        &Detail::None,
    )
}
