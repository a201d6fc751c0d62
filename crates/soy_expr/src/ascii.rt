//! Words of ASCII characters, added at the end of a string.

ghost use Rattle.std.specs.Prelude.{◌≡◌, true, OnOk};
ghost use Rattle.soy_base.specs.Appends.{Appends};
ghost use Rattle.soy_expr.specs.Ascii.{is_ascii};

use soy_base::{OutOfMemory, push_text};

/// Adds a word of ASCII characters.
#[tactic(auto, using(crate::proofs::AsciiTexts::chars_ascii))]
pub(crate) fn push_ascii(out: &mut String, word: &str) -> Result<(), OutOfMemory>
    requires { is_ascii word.now ≡ true }
    ensures { OnOk result (Appends out.old out.new word.now) }
{
    push_text(out, word)
}
