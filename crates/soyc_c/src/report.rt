//! Faults, as C reads them.

ghost use Rattle.std.specs.Prelude.{◌≡◌, []};
ghost use Rattle.soyc_c.specs.FaultNumbers.{no_fault, report_numbers};
ghost use Rattle.soyc_c.specs.FaultParts.{no_parts, report_parts};

use crate::parts::Part;
use crate::text_parts::NO_PART;

/// A fault in numbers, with parts of its text.
#[repr(C)]
#[derive(Clone, Copy)]
pub struct Report {
    /// The number of the refusal.
    pub code: u32,
    /// Of what it is.
    pub subject: u32,
    /// The index of the file.
    pub file: usize,
    /// The line in the file, from 1.
    pub line: u64,
    /// The character on the line, from 1.
    pub column: u64,
    /// How long the whole text is.
    pub err: usize,
    /// The line of the text.
    pub message: Part,
    /// The word of the refusal.
    pub word: Part,
    /// The JSON pointer.
    pub pointer: Part,
    /// What stands after the line.
    pub detail: Part,
}

/// No fault.
pub(crate) fn no_report() -> Report
    ensures numbers { report_numbers result ≡ no_fault }
    ensures parts { report_parts [] result ≡ no_parts }
    ensures err { result.err ≡ 0 }
{
    Report {
        code: 0,
        subject: 0,
        file: 0,
        line: 0,
        column: 0,
        err: 0,
        message: NO_PART,
        word: NO_PART,
        pointer: NO_PART,
        detail: NO_PART,
    }
}
