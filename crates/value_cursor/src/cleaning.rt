//! What is cleaned of a text's characters before they are escaped.
ghost use Rattle.std.specs.Prelude.{◌≡◌, OnErr, IfOk, IsTrue, true};
ghost use Rattle.std.specs.List.{list_all, list_any};
ghost use Rattle.std.specs.Str.{chars};
ghost use Rattle.bidi_class.specs.Pairs.{is_initiator};
ghost use Rattle.value_cursor.specs.Cleaned.{MarksAscend, cleaned, is_clean, is_clean_byte, is_left_out, is_printable};
ghost use Rattle.value_cursor.specs.Cleaned.{Cleans};

use bidi_class::{Class, class_of, is_initiator};
use bidi_text::{Marks, marks};
use soy_base::OutOfMemory;
use std::alloc::Global;

/// What is cleaned of a text.
#[derive(Debug, Drop)]
pub(crate) enum Cleaning {
    /// Nothing, since it isn't wrapped or has nothing to clean.
    Nothing,
    /// Every isolate control is left out, since no pair has one, and separators become spaces.
    Unpaired,
    /// The isolate controls at these offsets are left out, and separators become spaces.
    Marked(Marks),
}

impl Cleaning {
    /// What is cleaned of a text that is wrapped. Takes memory only where the text has an isolate initiator.
    pub(crate) fn of(alloc: Global, text: &str) -> Result<Cleaning, OutOfMemory>
        ensures cleans { IfOk result (λ cleaning. Cleans cleaning (chars text.now)) }
        ensures ascending { IfOk result MarksAscend }
        ensures memory { OnErr result (IsTrue (list_any is_initiator (chars text.now))) }
    {
        if is_clean_text(text) {
            return Ok(Cleaning::Nothing);
        }
        if !has_initiator(text) {
            return Ok(Cleaning::Unpaired);
        }
        let found = marks(alloc, text)?;
        Ok(Cleaning::Marked(found))
    }

    /// What becomes of the character at an offset of the text; none where it is left out.
    pub(crate) fn cleaned(&self, offset: usize, c: char) -> Option<char>
        requires { MarksAscend self.now }
        ensures { result ≡ cleaned self.now offset c }
    {
        match self {
            Cleaning::Nothing => Some(c),
            Cleaning::Unpaired | Cleaning::Marked(_) => match class_of(c) {
                Class::B | Class::S => Some(' '),
                Class::LRI | Class::RLI | Class::FSI | Class::PDI if self.leaves_out(offset) =>
                    None,
                _ => Some(c),
            },
        }
    }

    /// Whether an isolate control at this offset is left out.
    fn leaves_out(&self, offset: usize) -> bool
        requires { MarksAscend self.now }
        ensures { result ≡ is_left_out self.now offset }
    {
        match self {
            Cleaning::Nothing => false,
            Cleaning::Unpaired => true,
            Cleaning::Marked(marks) => marks.places.items().binary_search(&(offset as u64)).is_ok(),
        }
    }
}

/// Whether no cleaning changes the text.
pub(crate) fn is_clean_text(text: &str) -> bool
    ensures { result ≡ list_all is_clean (chars text.now) }
{
    has_clean_bytes(text) || text.chars().all(is_clean)
}

/// Whether no byte is below 32 or begins a character that may be changed or left out: in most texts none is.
fn has_clean_bytes(text: &str) -> bool
    ensures { result ≡ true → list_all is_clean (chars text.now) ≡ true }
{
    all_clean(text.as_bytes())
}

fn all_clean(bytes: &[u8]) -> bool
    ensures { result ≡ list_all is_clean_byte bytes.now }
{
    bytes.iter().all(|byte| is_clean_byte(*byte))
}

fn is_clean_byte(byte: u8) -> bool
    ensures { result ≡ is_clean_byte byte }
{
    byte >= 0x20 && byte != 0xc2 && byte != 0xe2
}

/// Whether all bytes are printable characters of ASCII.
pub(crate) fn all_printable(bytes: &[u8]) -> bool
    ensures { result ≡ list_all is_printable bytes.now }
{
    bytes.iter().all(|byte| is_printable_byte(*byte))
}

fn is_printable_byte(byte: u8) -> bool
    ensures { result ≡ is_printable byte }
{
    byte >= 0x20 && byte < 0x7f
}

/// Whether the text has an isolate initiator.
fn has_initiator(text: &str) -> bool
    ensures { result ≡ list_any is_initiator (chars text.now) }
{
    text.chars().any(|c| is_initiator(c))
}

/// Whether no cleaning changes the character or leaves it out.
pub(crate) fn is_clean(c: char) -> bool
    ensures { result ≡ is_clean c }
{
    !matches!(
        class_of(c),
        Class::B | Class::S | Class::LRI | Class::RLI | Class::FSI | Class::PDI
    )
}
