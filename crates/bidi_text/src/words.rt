//! The direction of a text by its words.
ghost use Rattle.std.specs.Prelude.{◌≡◌, ℕ, ◌+◌, ◌*◌, ◌^◌, ◌≤◌, ◌<◌, ◌||◌, nat_eq, codes, length, if◌then◌else◌};
ghost use Rattle.std.specs.List.{list_any, starts_with};
ghost use Rattle.std.specs.Char.{is_ascii_alphanumeric, is_ascii_digit, is_whitespace};
ghost use Rattle.std.specs.Str.{IsAscii, chars};
ghost use Rattle.bidi_text.specs.Estimate.{counts_in_total, counts_right_to_left, direction_by, estimated_direction};
ghost use Rattle.bidi_text.specs.Estimate.{first_strong, is_address, is_weak, word_kind};

use bidi_class::{Class, class_of};
use soy_base::{Dir, split_while};

/// The direction of a text, estimated by its words, or the context's where no word decides.
///
/// A word is a run of characters that are no white space. The text is right to left where more than two fifths of the
/// words that count are, by the first character of class L, R or AL of each. After the estimate of BidiFormatter, over
/// the classes of UAX #9.
pub fn estimate(text: &str, context: Dir) -> Dir
    ensures { result ≡ estimated_direction (chars text.now) context }
{
    if text.is_ascii() {
        return ascii_direction(text, context);
    }
    let mut tally = Tally {
        right_to_left: 0,
        total: 0,
        weak: false,
    };
    let mut rest = text;
    while !rest.is_empty() {
        let (word, behind) = split_while(rest, |c| !is_space(c));
        tally.count(word);
        let (_, others) = split_while(behind, is_space);
        rest = others;
    }
    tally.direction(context)
}

/// The direction of a text of ASCII: from left to right where it has a letter or a digit, else the context's.
///
/// None of its words is from right to left, and a word has a direction, or says a little for one, exactly where it has
/// a letter or a digit.
pub fn ascii_direction(text: &str, context: Dir) -> Dir
    requires { IsAscii text.now }
    ensures { result ≡ estimated_direction (chars text.now) context }
{
    if has_alphanumeric(text.as_bytes()) {
        Dir::Ltr
    } else {
        context
    }
}

/// Whether a byte is a letter or a digit of ASCII.
fn has_alphanumeric(bytes: &[u8]) -> bool
    ensures { result ≡ list_any is_ascii_alphanumeric bytes.now }
{
    bytes.iter().any(|byte| byte.is_ascii_alphanumeric())
}

/// Whether the character is white space. One comparison says so of the characters from U+00A1 to U+167F.
#[inline(always)]
fn is_space(c: char) -> bool
    ensures { result ≡ is_whitespace c }
{
    match c {
        '\u{a1}'..='\u{167f}' => false,
        _ => c.is_whitespace(),
    }
}

/// What the words so far say of the direction.
#[derive(Drop)]
struct Tally {
    /// How many words are from right to left.
    right_to_left: u64,
    /// How many words have a direction.
    total: u64,
    /// Whether a word says a little for left to right: an address, or a number.
    weak: bool,
}

impl Tally {
    /// Counts one more word.
    #[tactic(auto, using(crate::proofs::WordKinds::kinds))]
    fn count(&mut self, word: &str)
        requires ordered { self.old.right_to_left ≤ self.old.total }
        requires room { self.old.total + 1 < 2 ^ 64 }
        ensures right_to_left { self.new.right_to_left
            ≡ self.old.right_to_left + (if counts_right_to_left (word_kind (chars word.now)) then 1 else 0) }
        ensures total { self.new.total
            ≡ self.old.total + (if counts_in_total (word_kind (chars word.now)) then 1 else 0) }
        ensures weak { self.new.weak ≡ (self.old.weak || is_weak (word_kind (chars word.now))) }
    {
        let strong = first_strong(word);
        if let Some(Class::R | Class::AL) = strong {
            self.right_to_left += 1;
            self.total += 1;
        } else if is_address(word) {
            self.weak = true;
        } else if strong.is_some() {
            self.total += 1;
        } else if has_digit(word) {
            self.weak = true;
        }
    }

    /// The direction by all words, or the context's where none decides.
    fn direction(&self, context: Dir) -> Dir
        ensures { result ≡ direction_by self.now.right_to_left self.now.total self.now.weak context }
    {
        if 5 * u128::from(self.right_to_left) > 2 * u128::from(self.total) {
            Dir::Rtl
        } else if self.total > 0 || self.weak {
            Dir::Ltr
        } else {
            context
        }
    }
}

/// The class of the first character of `word` with a direction: L, R or AL.
#[tactic(auto, unfolding(crate::specs::Estimate::first_strong))]
fn first_strong(word: &str) -> Option<Class>
    ensures { result ≡ first_strong (chars word.now) }
{
    // A closure, since `map(class_of)` gets no proof: the function is another crate's.
    word.chars()
        .map(|c| class_of(c))
        .find(|class| matches!(class, Class::L | Class::R | Class::AL))
}

/// Whether `word` begins as the address of a page.
fn is_address(word: &str) -> bool
    ensures { result ≡ is_address (chars word.now) }
{
    word.starts_with("http://") || word.starts_with("https://")
}

/// Whether `word` has a digit 0 to 9.
fn has_digit(word: &str) -> bool
    ensures { result ≡ list_any is_ascii_digit (chars word.now) }
{
    word.chars().any(|c| c.is_ascii_digit())
}
