//! Character references decoded, one character at a time (WHATWG HTML, 13.2.5.72 to 13.2.5.80).
ghost use Rattle.std.specs.Prelude.{◌≡◌, ◌++◌, IfOk, None, OnOk, map};
ghost use Rattle.std.specs.Str.{bytes_eq};
ghost use Rattle.bidi_order.specs.DecodedReferences.{character_given, character_pending, decoded, goes_on_reference};
ghost use Rattle.bidi_order.specs.DecodedReferences.{named_character, pending_text, plain_given, plain_pending};
ghost use Rattle.bidi_order.specs.DecodedReferences.{reference_text, referenced_character};
ghost use Rattle.bidi_preview.specs.ReadingSteps.{pending_of};
ghost use Rattle.html_state.specs.References.{named_references};

use crate::names::is_text;
use crate::number::numeric_character;
use soy_base::OutOfMemory;
use std::alloc::Global;

/// The known names, each with the character that its reference stands for.
const NAMED: [(&[u8], char); 31] = [
    (b"amp", '&'),
    (b"lt", '<'),
    (b"gt", '>'),
    (b"quot", '"'),
    (b"nbsp", '\u{a0}'),
    (b"copy", '\u{a9}'),
    (b"reg", '\u{ae}'),
    (b"sect", '\u{a7}'),
    (b"mdash", '\u{2014}'),
    (b"ndash", '\u{2013}'),
    (b"hellip", '\u{2026}'),
    (b"laquo", '\u{ab}'),
    (b"raquo", '\u{bb}'),
    (b"lsquo", '\u{2018}'),
    (b"rsquo", '\u{2019}'),
    (b"para", '\u{b6}'),
    (b"ldquo", '\u{201c}'),
    (b"rdquo", '\u{201d}'),
    (b"bull", '\u{2022}'),
    (b"middot", '\u{b7}'),
    (b"times", '\u{d7}'),
    (b"deg", '\u{b0}'),
    (b"euro", '\u{20ac}'),
    (b"trade", '\u{2122}'),
    (b"larr", '\u{2190}'),
    (b"rarr", '\u{2192}'),
    (b"lrm", '\u{200e}'),
    (b"rlm", '\u{200f}'),
    (b"zwnj", '\u{200c}'),
    (b"zwj", '\u{200d}'),
    (b"shy", '\u{ad}'),
];

/// The characters of text that may be a reference: those after an `&`, if one is pending.
#[derive(Debug, Drop)]
pub(crate) struct Pending {
    begun: bool,
    letters: Vec<char>,
}

impl Pending {
    /// Nothing is pending. Takes no memory.
    pub(crate) fn new(alloc: Global) -> Pending
        ensures { pending_of result.begun result.letters.items ≡ None }
    {
        Pending {
            begun: false,
            letters: Vec::new(alloc),
        }
    }

    /// Reads a character, and puts what it gives at the end.
    pub(crate) fn read(&mut self, c: char, out: &mut Vec<char>) -> Result<(), OutOfMemory>
        ensures given { OnOk result (out.new.items
            ≡ out.old.items ++ character_given (pending_of self.old.begun self.old.letters.items) c) }
        ensures pending { OnOk result (pending_of self.new.begun self.new.letters.items
            ≡ character_pending (pending_of self.old.begun self.old.letters.items) c) }
    {
        if !self.begun {
            return self.read_plain(c, out);
        }
        if c == ';' {
            push_reference(&self.letters, out)?;
            self.begun = false;
            return Ok(());
        }
        if goes_on_reference(&self.letters, c) {
            self.letters.push(c)?;
            return Ok(());
        }
        out.push('&')?;
        out.extend_from_slice(&self.letters)?;
        self.read_plain(c, out)
    }

    /// Reads a character where nothing is pending.
    fn read_plain(&mut self, c: char, out: &mut Vec<char>) -> Result<(), OutOfMemory>
        ensures given { OnOk result (out.new.items ≡ out.old.items ++ plain_given c) }
        ensures pending { OnOk result (pending_of self.new.begun self.new.letters.items ≡ plain_pending c) }
    {
        self.begun = c == '&';
        if self.begun {
            self.letters.clear();
            return Ok(());
        }
        out.push(c)?;
        Ok(())
    }

    /// What is pending proves to be no reference: it is put at the end.
    pub(crate) fn give_up(&mut self, out: &mut Vec<char>) -> Result<(), OutOfMemory>
        ensures given { OnOk result (out.new.items
            ≡ out.old.items ++ pending_text (pending_of self.old.begun self.old.letters.items)) }
        ensures pending { OnOk result (pending_of self.new.begun self.new.letters.items ≡ None) }
    {
        if self.begun {
            out.push('&')?;
            out.extend_from_slice(&self.letters)?;
            self.begun = false;
        }
        Ok(())
    }
}

/// A text with its references decoded.
pub(crate) fn decode(alloc: Global, text: &[char]) -> Result<Vec<char>, OutOfMemory>
    ensures { IfOk result (λ out. out.items ≡ decoded text.now) }
{
    let mut pending = Pending::new(alloc);
    let mut out = Vec::new(alloc);
    for c in text {
        pending.read(*c, &mut out)?;
    }
    pending.give_up(&mut out)?;
    Ok(out)
}

/// Puts what `&`, these characters and `;` stand for at the end.
fn push_reference(letters: &[char], out: &mut Vec<char>) -> Result<(), OutOfMemory>
    ensures { OnOk result (out.new.items ≡ out.old.items ++ reference_text letters.now) }
{
    match referenced_character(letters) {
        Some(c) => out.push(c)?,
        None => {
            out.push('&')?;
            out.extend_from_slice(letters)?;
            out.push(';')?;
        }
    }
    Ok(())
}

/// The character that `&`, these characters and `;` stand for, if they are a reference.
fn referenced_character(letters: &[char]) -> Option<char>
    ensures { result ≡ referenced_character letters.now }
{
    match letters {
        [] => None,
        ['#', digits @ ..] => numeric_character(digits),
        _ => known_character(letters),
    }
}

fn known_character(letters: &[char]) -> Option<char>
    ensures { result ≡ named_character named_references letters.now }
{
    named_character(&NAMED, letters)
}

/// The character of a name in a list of names with their characters.
fn named_character(rows: &[(&[u8], char)], name: &[char]) -> Option<char>
    ensures { result ≡ named_character (map (λ r. (r.0.now, r.1)) rows.now) name.now }
{
    for (text, c) in rows {
        if has_letters(text, name) {
            return Some(*c);
        }
    }
    None
}

#[tactic(auto, using(crate::proofs::FoundNames::same_bytes))]
fn has_letters(text: &[u8], name: &[char]) -> bool
    ensures { result ≡ bytes_eq text.now name.now }
{
    is_text(name, text)
}

/// Whether a character goes on with what may be a reference.
fn goes_on_reference(letters: &[char], c: char) -> bool
    ensures { result ≡ goes_on_reference letters.now c }
{
    c.is_ascii_alphanumeric() || (letters.is_empty() && c == '#')
}
