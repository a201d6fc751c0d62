//! A segment in which no U+0000 stands.

ghost use Rattle.std.specs.Prelude.{◌≡◌};
ghost use Rattle.std.specs.Str.{chars};
ghost use Rattle.soy_lexer.specs.Found.{begins};
ghost use Rattle.soy_lexer.specs.Segment.{source_text};
ghost use Rattle.soy_lexer.specs.ReadsSegment.{ReadsSegment, view_segment};

use crate::source_segment::{FirstSegment, SourceSegment};
use soy_base::{Refusal, byte_len, cut_at};

/// A segment that stands in these characters, unless a U+0000 is one of them.
pub(crate) fn begins<'a>(
    segment: SourceSegment<'a>,
    text: &str,
    rest: &'a str,
) -> Result<FirstSegment<'a>, Refusal<usize>>
    requires { chars text.now ≡ source_text (view_segment segment) }
    ensures { ReadsSegment (begins (view_segment segment.entry) (chars rest.now)) result }
{
    match cut_at(text, '\0') {
        Some((prefix, _)) => Err(Refusal::Because(byte_len(prefix))),
        None => Ok(FirstSegment { segment, rest }),
    }
}
