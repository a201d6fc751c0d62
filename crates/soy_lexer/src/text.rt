//! Texts as the lexer cuts and copies them, beside the cuts of `soy_base`.

ghost use Rattle.std.specs.Prelude.{◌≡◌};
ghost use Rattle.std.specs.Str.{chars, IsUtf8};
ghost use Rattle.soy_base.specs.Cuts.{after_while, prefix_while};
ghost use Rattle.soy_base.specs.WhiteSpace.{is_template_space};
ghost use Rattle.soy_lexer.specs.Chunks.{is_chunk_character, is_plain};

use soy_base::{is_template_space, split_while};

/// Whether a character is one of a chunk.
pub(crate) fn is_chunk_character(c: char) -> bool
    ensures { result ≡ is_chunk_character c }
{
    !matches!(
        c,
        ' ' | '\t' | '\n' | '\r' | '<' | '>' | '\0' | '/' | '{' | '}'
    )
}

/// Whether a character outside of commands can only be one of a run.
pub(crate) fn is_plain(c: char) -> bool
    ensures { result ≡ is_plain c }
{
    !matches!(c, '\0' | '/' | '{' | '}')
}

/// The chunk at the start of a text, and what follows it.
pub(crate) fn split_chunk(text: &str) -> (&str, &str)
    ensures prefix { chars result.0.now ≡ prefix_while is_chunk_character (chars text.now) }
    ensures rest { chars result.1.now ≡ after_while is_chunk_character (chars text.now) }
    ensures utf8 { IsUtf8 result.1.now }
{
    split_while(text, is_chunk_character)
}

fn is_space(c: char) -> bool
    ensures { result ≡ is_template_space c }
{
    is_template_space(c)
}

/// The white space at the start of a text, and what follows it.
pub(crate) fn split_white(text: &str) -> (&str, &str)
    ensures prefix { chars result.0.now ≡ prefix_while is_template_space (chars text.now) }
    ensures rest { chars result.1.now ≡ after_while is_template_space (chars text.now) }
    ensures utf8 { IsUtf8 result.1.now }
{
    split_while(text, is_space)
}
