//! Texts compared, and characters that the tables name.

ghost use Rattle.std.specs.Prelude.{◌≡◌, map};
ghost use Rattle.std.specs.Str.{bytes_eq};
ghost use Rattle.soy_base.specs.Among.{is_among};
ghost use Rattle.html_state.specs.EndsName.{ends_name};
ghost use Rattle.html_state.specs.Texts.{is_prefix, is_prefix_among};

/// White space, `/` or `>`.
pub(crate) fn ends_name(c: char) -> bool
    ensures { result ≡ ends_name c }
{
    c.is_ascii_whitespace() || c == '/' || c == '>'
}

/// Whether characters are those of a text of ASCII.
pub(crate) fn is_text(characters: &[char], text: &[u8]) -> bool
    ensures { result ≡ bytes_eq characters.now text.now }
{
    if characters.len() != text.len() {
        return false;
    }
    for i in 0..characters.len() {
        if characters[i] as u32 != text[i] as u32 {
            return false;
        }
    }
    true
}

/// Whether characters are those of one of these texts.
pub(crate) fn is_among(characters: &[char], texts: &[&[u8]]) -> bool
    ensures { result ≡ is_among (map (λ t. t.now) texts.now) characters.now }
{
    for text in texts {
        if is_text(characters, text) {
            return true;
        }
    }
    false
}

/// Whether a text of ASCII begins with characters.
pub(crate) fn is_prefix(characters: &[char], text: &[u8]) -> bool
    ensures { result ≡ is_prefix characters.now text.now }
{
    for i in 0..characters.len() {
        if i >= text.len() {
            return false;
        }
        if characters[i] as u32 != text[i] as u32 {
            return false;
        }
    }
    true
}

/// Whether a text of ASCII begins with another.
fn begins(prefix: &[u8], text: &[u8]) -> bool
    ensures { result ≡ is_prefix prefix.now text.now }
{
    for i in 0..prefix.len() {
        if i >= text.len() {
            return false;
        }
        if prefix[i] != text[i] {
            return false;
        }
    }
    true
}

/// Whether a text is one of these.
pub(crate) fn is_one(one: &[u8], texts: &[&[u8]]) -> bool
    ensures { result ≡ is_among (map (λ t. t.now) texts.now) one.now }
{
    for text in texts {
        if one == *text {
            return true;
        }
    }
    false
}

/// Whether one of these texts begins with a prefix.
pub(crate) fn begins_one(prefix: &[u8], texts: &[&[u8]]) -> bool
    ensures { result ≡ is_prefix_among (map (λ t. t.now) texts.now) prefix.now }
{
    for text in texts {
        if begins(prefix, text) {
            return true;
        }
    }
    false
}
