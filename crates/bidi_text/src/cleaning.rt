//! The cleaned text.
ghost use Rattle.std.specs.Prelude.{◌≡◌, IfOk};
ghost use Rattle.std.specs.Str.{chars};
ghost use Rattle.std.specs.String.{string_bytes};
ghost use Rattle.bidi_text.specs.Clean.{cleaned_text, spaced};

use crate::controls::marks;
use bidi_class::{Class, class_of};
use soy_base::{OutOfMemory, push_char};
use std::alloc::Global;

/// The text without the isolate controls that are in no pair, and with spaces for the characters that would end a
/// paragraph or a segment.
pub(crate) fn clean(alloc: Global, text: &str) -> Result<String, OutOfMemory>
    ensures { IfOk result (λ cleaned. chars (string_bytes cleaned) ≡ cleaned_text (chars text.now)) }
{
    let found = marks(alloc, text)?;
    let mut offsets = found.places.items();
    let mut cleaned = String::new(alloc);
    for (offset, c) in text.char_indices() {
        match offsets.split_first() {
            Some((first, later)) if *first == offset as u64 => offsets = later,
            _ => push_char(&mut cleaned, spaced(c))?,
        }
    }
    Ok(cleaned)
}

/// A space for a separator of paragraphs or segments, and any other character itself.
fn spaced(c: char) -> char
    ensures { result ≡ spaced c }
{
    match class_of(c) {
        Class::B | Class::S => ' ',
        _ => c,
    }
}
