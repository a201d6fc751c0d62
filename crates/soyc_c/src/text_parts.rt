//! The parts of the text of a fault.

ghost use Rattle.std.specs.Prelude.{◌≡◌, ◌+◌, ◌-◌, ◌++◌, [], ◌∷◌, ℕ, List, length};
ghost use Rattle.soy_base.specs.Code.{code_word};
ghost use Rattle.soy_base.specs.declared.path.PathStep.{PathStep};
ghost use Rattle.soy_top.specs.Line.{refusal_line};
ghost use Rattle.soy_top.specs.Pointer.{pointer, pointer_line};
ghost use Rattle.soyc_c.specs.FaultParts.{Absent, Has, line_parts, parts_in};
ghost use Rattle.soyc_c.specs.NumberLength.{number_length};

use crate::parts::Part;
use soy_base::Code;

/// A part that isn't there.
pub(crate) const NO_PART: Part = Part { begin: 0, end: 0 };

/// The line of a fault, the word of the refusal in it, the JSON pointer in it, and what stands after the line.
#[derive(Clone, Copy)]
pub(crate) struct TextParts {
    pub(crate) message: Part,
    pub(crate) word: Part,
    pub(crate) pointer: Part,
    pub(crate) detail: Part,
}

/// The parts of a text of a line, which ends with the word of a code, a line feed, and details of this length.
pub(crate) fn line_parts(text_len: usize, detail_len: usize, code: Code) -> TextParts
    ensures parts { (about detail : List ℕ) → detail_len ≡ length detail →
        text_len ≡ length (refusal_line about code ++ (10 ∷ detail)) →
        parts_in (refusal_line about code ++ (10 ∷ detail)) result
        ≡ line_parts (refusal_line about code) code Absent detail }
    ensures word { result.word.begin ≡ text_len - detail_len - 1 - length (code_word code) }
{
    let line_feed = text_len.saturating_sub(detail_len);
    let end = line_feed.saturating_sub(1);
    let word = end.saturating_sub(code.word().len());
    TextParts {
        message: Part { begin: 0, end },
        word: Part { begin: word, end },
        pointer: NO_PART,
        detail: Part {
            begin: line_feed,
            end: text_len,
        },
    }
}

/// The parts of a line with a JSON pointer that begins at an offset.
pub(crate) fn pointer_parts(text_len: usize, code: Code, begin: usize) -> TextParts
    ensures { (name : List ℕ) (path : List PathStep) → begin ≡ length name + 1 →
        text_len ≡ length (pointer_line name path code ++ (10 ∷ [])) →
        parts_in (pointer_line name path code ++ (10 ∷ [])) result
        ≡ line_parts (pointer_line name path code) code (Has (pointer path)) [] }
{
    let parts = line_parts(text_len, 0, code);
    let end = parts.word.begin.saturating_sub(number_len(code));
    TextParts {
        message: parts.message,
        word: parts.word,
        pointer: Part { begin, end },
        detail: parts.detail,
    }
}

/// How long the number of a code is in a line, with a colon and a space before it and a space after it.
fn number_len(code: Code) -> usize
    ensures { result ≡ number_length code }
{
    if code.number() < 10 { 4 } else { 5 }
}
