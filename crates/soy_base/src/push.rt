//! What is added at the end of a string, seen by its characters and by its bytes.
ghost use Rattle.std.specs.Prelude.{◌≡◌, [], ◌∷◌, ◌++◌, OnOk, OnErr, encode_utf8};
ghost use Rattle.std.specs.Str.{chars};
ghost use Rattle.std.specs.String.{string_bytes};
ghost use Rattle.soy_base.specs.Appends.{Appends};

use crate::OutOfMemory;

/// Adds a text at the end.
pub fn push_text(out: &mut String, text: &str) -> Result<(), OutOfMemory>
    ensures ok { OnOk result (Appends out.old out.new (chars text.now)) }
    ensures bytes { OnOk result (string_bytes out.new ≡ string_bytes out.old ++ text.now) }
    ensures unchanged { OnErr result (string_bytes out.new ≡ string_bytes out.old) }
{
    out.push_str(text)?;
    Ok(())
}

/// Adds a character at the end.
pub fn push_char(out: &mut String, c: char) -> Result<(), OutOfMemory>
    ensures ok { OnOk result (Appends out.old out.new (c ∷ [])) }
    ensures bytes { OnOk result (string_bytes out.new ≡ string_bytes out.old ++ encode_utf8 c) }
    ensures unchanged { OnErr result (string_bytes out.new ≡ string_bytes out.old) }
{
    out.push(c)?;
    Ok(())
}
