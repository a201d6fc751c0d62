//! White space and the letters of words.

ghost use Rattle.std.specs.Prelude.{◌≡◌};
ghost use Rattle.std.specs.Str.{chars};
ghost use Rattle.soy_base.specs.Cuts.{after_while};
ghost use Rattle.soy_base.specs.WhiteSpace.{is_template_space};
ghost use Rattle.icu_text.specs.Heads.{letters_read, view_letters};

use soy_base::{first, is_template_space, split_while};

/// What follows the letters of a word, or the text from the first character that is none of them.
#[derive(Clone, Copy)]
pub enum Letters<'a> {
    Read(&'a str),
    Stuck(&'a str),
}

/// Whether a character is white space.
fn is_space(c: char) -> bool
    ensures { result ≡ is_template_space c }
{
    is_template_space(c)
}

/// What follows white space.
pub fn after_space(text: &str) -> &str
    ensures { chars result.now ≡ after_while is_template_space (chars text.now) }
{
    let (_, rest) = split_while(text, is_space);
    rest
}

/// What follows these letters in a text that begins with them.
#[tactic(auto, using(crate::proofs::PieceRuns::letters_ended))]
pub fn after_letters<'a>(letters: &[u8], text: &'a str) -> Letters<'a>
    ensures { view_letters result ≡ letters_read letters.now (chars text.now) }
{
    let mut rest = text;
    for letter in letters {
        let letter = *letter as char;
        match first(rest) {
            None => return Letters::Stuck(rest),
            Some((c, after)) => {
                if c != letter {
                    return Letters::Stuck(rest);
                }
                rest = after;
            }
        }
    }
    Letters::Read(rest)
}
