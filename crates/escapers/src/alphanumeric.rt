//! A fast test for texts that escapers leave as they are.
ghost use Rattle.std.specs.Prelude.{◌≡◌};
ghost use Rattle.std.specs.Char.{is_ascii_alphanumeric};
ghost use Rattle.std.specs.List.{list_all};
ghost use Rattle.std.specs.Str.{chars};

/// Whether the text has letters and digits of ASCII alone.
pub(crate) fn is_alphanumeric(text: &str) -> bool
    ensures { result ≡ list_all is_ascii_alphanumeric (chars text.now) }
{
    are_alphanumeric(text.as_bytes())
}

/// Chunk by chunk, so that another byte is found early.
fn are_alphanumeric(bytes: &[u8]) -> bool
    ensures { result ≡ list_all is_ascii_alphanumeric bytes.now }
{
    for chunk in bytes.chunks(64) {
        if !is_alphanumeric_chunk(chunk) {
            return false;
        }
    }
    true
}

/// Without a branch, so that many bytes are tested at once.
fn is_alphanumeric_chunk(bytes: &[u8]) -> bool
    ensures { result ≡ list_all is_ascii_alphanumeric bytes.now }
{
    let mut alphanumeric = true;
    for byte in bytes {
        alphanumeric &= byte.is_ascii_alphanumeric();
    }
    alphanumeric
}
