//! Names and dotted names.
ghost use Rattle.std.specs.Prelude.{◌≡◌};
ghost use Rattle.std.specs.List.{list_all};
ghost use Rattle.std.specs.Str.{chars};
ghost use Rattle.soy_base.specs.Names.{begins_name, continues_name, is_name, is_dotted_name};

use crate::cuts::{first, first_part};

/// Whether a name may begin with the character.
pub fn begins_name(c: char) -> bool
    ensures { result ≡ begins_name c }
{
    c.is_ascii_alphabetic() || c == '_'
}

/// Whether a name may go on with the character.
pub fn continues_name(c: char) -> bool
    ensures { result ≡ continues_name c }
{
    c.is_ascii_alphanumeric() || c == '_'
}

/// Whether a name may go on with all of a text.
fn continue_name(text: &str) -> bool
    ensures { result ≡ list_all continues_name (chars text.now) }
{
    text.chars().all(continues_name)
}

/// Whether a text is a name.
pub fn is_name(text: &str) -> bool
    ensures { result ≡ is_name (chars text.now) }
{
    match first(text) {
        Some((c, rest)) => begins_name(c) && continue_name(rest),
        None => false,
    }
}

/// Whether a text is a dotted name.
pub fn is_dotted_name(text: &str) -> bool
    ensures { result ≡ is_dotted_name (chars text.now) }
{
    let mut rest = Some(text);
    while let Some(names) = rest {
        let (name, others) = first_part(names, '.');
        if !is_name(name) {
            return false;
        }
        rest = others;
    }
    true
}
