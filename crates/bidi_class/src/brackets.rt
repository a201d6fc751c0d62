//! The paired brackets.
ghost use Rattle.std.specs.Prelude.{◌≡◌, ◌+◌, ◌%◌, ◌≤◌, ◌<◌};
ghost use Rattle.bidi_class.specs.Brackets.{bracket};

/// What a bracket does: it opens or it closes a pair. Both carry the closing character of the pair.
#[derive(Clone, Copy, Debug, PartialEq, Eq)]
pub enum Bracket {
    Opens(char),
    Closes(char),
}

/// The bracket that `c` is, by the closing character of its pair, and `None` for every other character.
///
/// U+2329 and U+232A, which are canonically equivalent to U+3008 and U+3009, have U+3009 for their closing
/// character (UAX #9, BD14 to BD16).
#[tactic(auto, using(crate::proofs::BracketSteps::other_brackets))]
pub fn bracket_of(c: char) -> Option<Bracket>
    ensures { result ≡ bracket c }
{
    match c {
        '(' => Some(Bracket::Opens(')')),
        ')' => Some(Bracket::Closes(')')),
        '[' => Some(Bracket::Opens(']')),
        ']' => Some(Bracket::Closes(']')),
        '{' => Some(Bracket::Opens('}')),
        '}' => Some(Bracket::Closes('}')),
        '\u{2045}'..='\u{301b}' => symbol_bracket(c),
        '\u{ff08}'..='\u{ff5d}' => wide_bracket(c),
        _ => None,
    }
}

/// The bracket that a character from U+2045 to U+301B is.
#[tactic(auto, using(crate::proofs::BracketSteps::symbol_brackets))]
fn symbol_bracket(c: char) -> Option<Bracket>
    requires low { 0x2045 ≤ c }
    requires high { c ≤ 0x301B }
    ensures { result ≡ bracket c }
{
    match c {
        '\u{2045}' => Some(Bracket::Opens('\u{2046}')),
        '\u{2046}' => Some(Bracket::Closes('\u{2046}')),
        '\u{207d}' => Some(Bracket::Opens('\u{207e}')),
        '\u{207e}' => Some(Bracket::Closes('\u{207e}')),
        '\u{208d}' => Some(Bracket::Opens('\u{208e}')),
        '\u{208e}' => Some(Bracket::Closes('\u{208e}')),
        '\u{2329}' => Some(Bracket::Opens('\u{3009}')),
        '\u{232a}' => Some(Bracket::Closes('\u{3009}')),
        '\u{2768}'..='\u{2775}'
        | '\u{27e6}'..='\u{27ef}'
        | '\u{3008}'..='\u{3011}'
        | '\u{3014}'..='\u{301b}' => Some(alternating_bracket(c)),
        _ => None,
    }
}

/// The bracket that a fullwidth form from U+FF08 to U+FF5D is.
#[tactic(auto, using(crate::proofs::BracketSteps::wide_brackets))]
fn wide_bracket(c: char) -> Option<Bracket>
    requires low { 0xFF08 ≤ c }
    requires high { c ≤ 0xFF5D }
    ensures { result ≡ bracket c }
{
    match c {
        '\u{ff08}' => Some(Bracket::Opens('\u{ff09}')),
        '\u{ff09}' => Some(Bracket::Closes('\u{ff09}')),
        '\u{ff3b}' => Some(Bracket::Opens('\u{ff3d}')),
        '\u{ff3d}' => Some(Bracket::Closes('\u{ff3d}')),
        '\u{ff5b}' => Some(Bracket::Opens('\u{ff5d}')),
        '\u{ff5d}' => Some(Bracket::Closes('\u{ff5d}')),
        _ => None,
    }
}

/// The bracket that a character is that stands in a run in which each even number opens and the next one closes.
fn alternating_bracket(c: char) -> Bracket
    requires { c < 0xD7FF }
    ensures opens { c % 2 ≡ 0 → result ≡ Bracket.Opens (c + 1) }
    ensures closes { c % 2 ≡ 1 → result ≡ Bracket.Closes c }
{
    match char::from_u32(c as u32 + 1) {
        Some(next) if c as u32 % 2 == 0 => Bracket::Opens(next),
        _ => Bracket::Closes(c),
    }
}
