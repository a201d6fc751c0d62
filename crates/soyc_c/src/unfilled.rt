//! What a call answers that fills no slot and gives no bytes.

ghost use Rattle.std.specs.Prelude.{◌≡◌, length};
ghost use Rattle.std.specs.String.{string_bytes};
ghost use Rattle.soyc_c.specs.FaultNumbers.{report_numbers};
ghost use Rattle.soyc_c.specs.FaultParts.{report_parts};
ghost use Rattle.soyc_c.specs.SlotReply.{said_numbers, said_parts, stop_answer, unfilled_reply};
ghost use Rattle.soyc_c.specs.Room.{filled};

use crate::parts::Stop;
use crate::report::{Report, no_report};
use crate::room::fill;
use crate::text_parts::TextParts;
use soy_base::{Code, OutOfMemory};
use std::alloc::{AllocError, AllocFailed};

/// All is well.
pub(crate) const DONE: u32 = 0;
/// Memory ran out.
const MEMORY: u32 = 1;
/// No files, too many, or more than one bundle.
pub(crate) const USAGE: u32 = 2;
/// A fault of files, of a bundle, of a name or of data.
pub(crate) const REFUSED: u32 = 5;
/// A call that nests too deep.
pub(crate) const TOO_DEEP: u32 = 6;
/// A part or a text that can't be read.
pub(crate) const MALFORMED: u32 = 7;
/// A slot that holds nothing.
pub(crate) const EMPTY: u32 = 8;
/// A slot that holds something.
pub(crate) const FULL: u32 = 9;

/// Of what a fault is.
pub(crate) const IN_FILE: u32 = 1;

pub(crate) const IN_BUNDLE: u32 = 2;

pub(crate) const IN_NAME: u32 = 3;

pub(crate) const IN_DATA: u32 = 4;

/// A status that isn't that all is well, and why.
#[derive(Drop)]
pub(crate) enum Unfilled {
    /// Memory ran out.
    Memory,
    /// What the status alone says.
    Status(u32),
    /// A fault.
    Fault(Said),
}

/// A fault with its text and the parts of that.
#[derive(Drop)]
pub(crate) struct Said {
    pub(crate) status: u32,
    pub(crate) text: String,
    pub(crate) code: Code,
    pub(crate) subject: u32,
    pub(crate) file: usize,
    pub(crate) line: u64,
    pub(crate) column: u64,
    pub(crate) parts: TextParts,
}

impl From<OutOfMemory> for Unfilled {
    ghost use Rattle.soyc_c.specs.declared.unfilled.Unfilled.TheVariants as unfilled;
    ghost use Rattle.std.specs.Prelude.{◌≡◌};

    ghost from_gives = { λ _ s. s ≡ unfilled.Memory };

    fn from(_refused: OutOfMemory) -> Unfilled {
        Unfilled::Memory
    }
}

impl From<AllocError> for Unfilled {
    ghost use Rattle.soyc_c.specs.declared.unfilled.Unfilled.TheVariants as unfilled;
    ghost use Rattle.std.specs.Prelude.{◌≡◌};

    ghost from_gives = { λ _ s. s ≡ unfilled.Memory };

    fn from(_refused: AllocError) -> Unfilled {
        Unfilled::Memory
    }
}

impl<T: Drop> From<AllocFailed<T>> for Unfilled {
    ghost use Rattle.soyc_c.specs.declared.unfilled.Unfilled.TheVariants as unfilled;
    ghost use Rattle.std.specs.Prelude.{◌≡◌};

    ghost from_gives = { λ _ s. s ≡ unfilled.Memory };

    fn from(_refused: AllocFailed<T>) -> Unfilled {
        Unfilled::Memory
    }
}

/// What stops the reading of a call, as what is answered.
pub(crate) fn stopped(stop: Stop) -> Unfilled
    ensures { result ≡ stop_answer stop }
{
    match stop {
        Stop::Memory => Unfilled::Memory,
        Stop::Malformed => Unfilled::Status(MALFORMED),
    }
}

/// Puts the text of what is answered into a room, as much of it as fits, and the fault into a report, and gives the
/// status.
pub(crate) fn refuse(unfilled: Unfilled, err: &mut [u8], report: &mut Report) -> u32
    ensures status { result ≡ (unfilled_reply unfilled).status }
    ensures err { err.new ≡ filled err.old (unfilled_reply unfilled).err }
    ensures err_length { report.new.err ≡ length (unfilled_reply unfilled).err }
    ensures fault { report_numbers report.new ≡ (unfilled_reply unfilled).fault }
    ensures parts { report_parts (unfilled_reply unfilled).err report.new ≡ (unfilled_reply unfilled).parts }
{
    match unfilled {
        Unfilled::Memory => {
            *report = no_report();
            MEMORY
        }
        Unfilled::Status(status) => {
            *report = no_report();
            status
        }
        Unfilled::Fault(said) => {
            *report = report_of(&said, fill(err, said.text.as_bytes()));
            said.status
        }
    }
}

/// The report of a fault, whose text is so long.
fn report_of(said: &Said, text_len: usize) -> Report
    ensures numbers { report_numbers result ≡ said_numbers said.now }
    ensures parts { report_parts (string_bytes said.now.text) result ≡ said_parts said.now }
    ensures err { result.err ≡ text_len }
{
    Report {
        code: said.code.number(),
        subject: said.subject,
        file: said.file,
        line: said.line,
        column: said.column,
        err: text_len,
        message: said.parts.message,
        word: said.parts.word,
        pointer: said.parts.pointer,
        detail: said.parts.detail,
    }
}
