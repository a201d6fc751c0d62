//! Pushes that are seen as characters.
ghost use Rattle.std.specs.Prelude.{◌≡◌, [], ◌∷◌, ◌++◌, OnOk, OnErr};
ghost use Rattle.std.specs.Str.{chars};
ghost use Rattle.std.specs.String.{string_bytes};

use std::alloc::AllocError;

/// Appends the text. An empty one takes no call of the library.
pub(crate) fn push_text(out: &mut String, text: &str) -> Result<(), AllocError>
    ensures ok { OnOk result (chars (string_bytes out.new) ≡ chars (string_bytes out.old) ++ chars text.now) }
    ensures err { OnErr result (string_bytes out.new ≡ string_bytes out.old) }
{
    if !text.is_empty() {
        out.push_str(text)?;
    }
    Ok(())
}

/// Appends the character.
pub(crate) fn push_char(out: &mut String, c: char) -> Result<(), AllocError>
    ensures ok { OnOk result (chars (string_bytes out.new) ≡ chars (string_bytes out.old) ++ c ∷ []) }
    ensures err { OnErr result (string_bytes out.new ≡ string_bytes out.old) }
{
    out.push(c)?;
    Ok(())
}
