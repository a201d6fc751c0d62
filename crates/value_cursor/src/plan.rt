//! How the escaped form of a text is made, and how long it is.
ghost use Rattle.std.specs.Prelude.{◌≡◌, ◌≤◌, ◌*◌, ◌^◌, ℕ, List, [], ◌∷◌, None, IfSome, length, encode_utf8_all};
ghost use Rattle.std.specs.Char.{len_utf8};
ghost use Rattle.std.specs.Str.{chars};
ghost use Rattle.soy_base.specs.ByteLength.{byte_len};
ghost use Rattle.value_cursor.specs.BytesLeft.{bytes_from, form, source, IsPlan};

use crate::ascii_forms::ascii_form;
use crate::cleaning::Cleaning;
use crate::runs::plain_run;
use crate::shares::{shares_by, total_share};
use esc_table::Tail;
use escapers::{Escaper, escaped_char_len, put_char};
use soy_base::first;

/// How the escaped form of a text is made, from its first character to its last.
#[derive(Debug, Drop)]
pub(crate) struct Plan {
    /// An escaper by characters.
    pub(crate) how: Escaper,
    /// What is cleaned before it is escaped.
    pub(crate) cleaning: Cleaning,
    /// The text that stands instead of a value's, where it has to.
    pub(crate) instead: Option<&'static str>,
}

impl Plan {
    /// The plan by an escaper by characters alone.
    pub(crate) fn escaping(how: Escaper) -> Plan
        ensures how { result.how ≡ how }
        ensures nothing { result.cleaning ≡ Cleaning.Nothing }
        ensures own { result.instead ≡ None }
    {
        Plan {
            how,
            cleaning: Cleaning::Nothing,
            instead: None,
        }
    }

    /// The text whose characters are escaped.
    pub(crate) fn source<'a>(&self, text: &'a str) -> &'a str
        ensures { result.now ≡ source self.now text.now }
    {
        match self.instead {
            Some(other) => other,
            None => text,
        }
    }

    /// Makes the form of the character at an offset pending.
    pub(crate) fn put(&self, offset: usize, c: char, pending: &mut Tail)
        requires plan { IsPlan self.now }
        requires none_pending { pending.old ≡ [] }
        ensures { pending.new ≡ encode_utf8_all (form self.now offset c) }
    {
        if let Some(cleaned) = self.cleaning.cleaned(offset, c) {
            put_char(self.how, cleaned, pending);
        }
    }

    /// The form of the text's first character, where it is of ASCII and nothing is cleaned.
    pub(crate) fn ascii_form(&self, text: &str) -> Option<&'static str>
        ensures { IfSome result (λ bytes. (c : ℕ) × (others : List ℕ) × (chars text.now ≡ c ∷ chars others)
            × (len_utf8 c ≡ 1) × ((offset : ℕ) → bytes.now ≡ encode_utf8_all (form self.now offset c))) }
    {
        match self.cleaning {
            Cleaning::Nothing => match text.as_bytes().first() {
                Some(byte) if *byte < 0x80 => ascii_form(self.how, *byte),
                _ => None,
            },
            Cleaning::Unpaired | Cleaning::Marked(_) => None,
        }
    }

    /// How many bytes the form of the character at an offset takes.
    fn char_len(&self, offset: usize, c: char) -> usize
        requires { IsPlan self.now }
        ensures { result ≡ byte_len (form self.now offset c) }
    {
        match self.cleaning.cleaned(offset, c) {
            Some(cleaned) => escaped_char_len(self.how, cleaned),
            None => 0,
        }
    }

    /// How many bytes the forms of all characters of the source take.
    #[inline(always)]
    pub(crate) fn len(&self, source: &str) -> u128
        requires { IsPlan self.now }
        ensures count { result ≡ length (bytes_from self.now source.now 0) }
        ensures bound { result ≤ 2 ^ 64 * length source.now }
    {
        match self.len_by_bytes(source) {
            Some(len) => len,
            None => self.len_by_runs(source),
        }
    }

    /// The same by the shares of all bytes, where they say it.
    #[inline(always)]
    fn len_by_bytes(&self, source: &str) -> Option<u128>
        ensures count { IfSome result (λ len. len ≡ length (bytes_from self.now source.now 0)) }
        ensures bound { IfSome result (λ len. len ≤ 2 ^ 64 * length source.now) }
    {
        match self.cleaning {
            Cleaning::Nothing => match shares_by(self.how) {
                Some(shares) => total_share(shares, source.as_bytes()),
                None => None,
            },
            Cleaning::Unpaired | Cleaning::Marked(_) => None,
        }
    }

    /// The same run by run.
    fn len_by_runs(&self, source: &str) -> u128
        requires { IsPlan self.now }
        ensures count { result ≡ length (bytes_from self.now source.now 0) }
        ensures bound { result ≤ 2 ^ 64 * length source.now }
    {
        let mut len = 0;
        let mut offset = 0;
        while offset < source.len() {
            let (_, rest) = source.split_at(offset);
            let (run, others) = plain_run(self, rest);
            len += run.len() as u128;
            offset += run.len();
            if let Some((c, _)) = first(others) {
                len += self.char_len(offset, c) as u128;
                offset += c.len_utf8();
            }
        }
        len
    }
}
