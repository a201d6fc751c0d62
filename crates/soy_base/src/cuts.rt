//! Texts that are cut, seen by their characters.
ghost use Rattle.std.specs.Prelude.{◌≡◌, ℕ, ◌<◌, ◌==◌, Bool, true, not, List, [], ◌∷◌, ◌++◌, length};
ghost use Rattle.std.specs.Prelude.{option_map, MatchOption, IfSome};
ghost use Rattle.std.specs.Char.{is_ascii_digit};
ghost use Rattle.std.specs.List.{slice_split};
ghost use Rattle.std.specs.Str.{chars, IsUtf8};
ghost use Rattle.soy_base.specs.ByteLength.{byte_len};
ghost use Rattle.soy_base.specs.Among.{lacks};
ghost use Rattle.soy_base.specs.Names.{continues_name};
ghost use Rattle.soy_base.specs.WhiteSpace.{is_line_break};
ghost use Rattle.soy_base.specs.Parts.{parts_left};
ghost use Rattle.soy_base.specs.Cuts.{after_prefix, after_while, cut, is_nil, prefix_while, Answers};

use crate::name::continues_name;
use crate::white::is_line_break;

/// How many bytes the characters of a text take.
pub fn byte_len(text: &str) -> usize
    ensures { result ≡ byte_len (chars text.now) }
{
    text.len()
}

/// Whether a text has no characters.
pub fn is_empty(text: &str) -> bool
    ensures { result ≡ is_nil (chars text.now) }
{
    text.is_empty()
}

/// The first character of a text and what follows it, if there is one.
pub fn first(text: &str) -> Option<(char, &str)>
    ensures { MatchOption result (chars text.now ≡ []) (λ parts. chars text.now ≡ parts.0 ∷ chars parts.1.now) }
{
    let mut characters = text.chars();
    let character = characters.next()?;
    Some((character, characters.as_str()))
}

/// What follows a prefix, if the text begins with it.
pub fn after_prefix<'a>(text: &'a str, prefix: &str) -> Option<&'a str>
    ensures { option_map (λ rest. chars rest.now) result ≡ after_prefix (chars prefix.now) (chars text.now) }
{
    text.strip_prefix(prefix)
}

/// What stands before the first delimiter in a text and what follows it, if there is one.
pub fn cut<'a>(text: &'a str, delimiter: &str) -> Option<(&'a str, &'a str)>
    requires { 0 < length delimiter.now }
    ensures { option_map (λ parts. (chars parts.0.now, chars parts.1.now)) result
        ≡ cut (chars delimiter.now) (chars text.now) }
{
    text.split_once(delimiter)
}

/// What stands before the first such character of a text and what follows it, if there is one.
pub fn cut_at(text: &str, delimiter: char) -> Option<(&str, &str)>
    requires { delimiter < 128 }
    ensures parts { option_map (λ parts. (chars parts.0.now, chars parts.1.now)) result
        ≡ cut (delimiter ∷ []) (chars text.now) }
    ensures around { MatchOption result (lacks (delimiter ∷ []) (chars text.now) ≡ true)
        (λ parts. (lacks (delimiter ∷ []) (chars parts.0.now) ≡ true)
        × (chars text.now ≡ chars parts.0.now ++ delimiter ∷ chars parts.1.now) × IsUtf8 parts.1.now) }
{
    text.split_once(delimiter)
}

/// The first part of a text around such characters, and what follows it, if there is more.
pub fn first_part(text: &str, delimiter: char) -> (&str, Option<&str>)
    requires { delimiter < 128 }
    ensures parts { slice_split (λ c. c == delimiter) (chars text.now)
        ≡ chars result.0.now ∷ parts_left delimiter result.1 }
    ensures shorter { IfSome result.1 (λ rest. length (chars rest.now) < length (chars text.now)) }
{
    match cut_at(text, delimiter) {
        Some((part, rest)) => (part, Some(rest)),
        None => (text, None),
    }
}

/// The longest prefix of characters that pass a test, and what follows it.
pub fn split_while<F: Fn(char) -> bool>(text: &str, passes: F) -> (&str, &str)
where
    F: Drop,
    requires { F.IsAlwaysCallable passes }
    ensures prefix { (test : ℕ → Bool) → Answers (F.post passes) test
        → chars result.0.now ≡ prefix_while test (chars text.now) }
    ensures rest { (test : ℕ → Bool) → Answers (F.post passes) test
        → chars result.1.now ≡ after_while test (chars text.now) }
    ensures utf8 { IsUtf8 result.1.now }
{
    match text.find(|c: char| !passes(c)) {
        Some(end) => text.split_at(end),
        None => (text, ""),
    }
}

/// The ASCII digits that a text begins with, and what follows them.
pub fn split_digits(text: &str) -> (&str, &str)
    ensures prefix { chars result.0.now ≡ prefix_while is_ascii_digit (chars text.now) }
    ensures rest { chars result.1.now ≡ after_while is_ascii_digit (chars text.now) }
    ensures utf8 { IsUtf8 result.1.now }
{
    split_while(text, |c| c.is_ascii_digit())
}

/// The characters with which a name may go on that a text begins with, and what follows them.
pub fn split_name(text: &str) -> (&str, &str)
    ensures prefix { chars result.0.now ≡ prefix_while continues_name (chars text.now) }
    ensures rest { chars result.1.now ≡ after_while continues_name (chars text.now) }
    ensures utf8 { IsUtf8 result.1.now }
{
    split_while(text, continues_name)
}

/// The characters of a text before its first line break, and what follows them.
pub fn split_line(text: &str) -> (&str, &str)
    ensures prefix { chars result.0.now ≡ prefix_while (λ c. not (is_line_break c)) (chars text.now) }
    ensures rest { chars result.1.now ≡ after_while (λ c. not (is_line_break c)) (chars text.now) }
    ensures utf8 { IsUtf8 result.1.now }
{
    split_while(text, |c| !is_line_break(c))
}

/// What stands in a text before its rest.
pub fn before<'a>(text: &'a str, rest: &str) -> &'a str
    requires { (prefix : List ℕ) × (chars text.now ≡ prefix ++ chars rest.now) }
    ensures { chars text.now ≡ chars result.now ++ chars rest.now }
{
    &text[..text.len() - rest.len()]
}
