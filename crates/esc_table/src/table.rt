//! Tables of rows, and how a text is searched for the characters that have one.
ghost use Rattle.std.specs.Prelude.{◌≡◌, ℕ, ◌≤◌, ◌<◌, [], ◌++◌, length, take, true, false, option_map, IsTrue, IfSome};
ghost use Rattle.std.specs.Prelude.{MatchOption, All, encode_utf8};
ghost use Rattle.std.specs.List.{list_all, slice_index_or};
ghost use Rattle.std.specs.Str.{chars, IsUtf8};
ghost use Rattle.esc_table.specs.Ascends.{Ascends};
ghost use Rattle.esc_table.specs.LeadBytes.{is_flagged, lead_byte, LeadBytes};
ghost use Rattle.esc_table.specs.PlainPrefix.{has_no_row, plain_prefix};
ghost use Rattle.esc_table.specs.RowPairs.{row_pairs};
ghost use Rattle.esc_table.specs.RowText.{row_text};

use std::marker::Model;

/// A character and the text that stands for it.
#[derive(Clone, Copy, Debug)]
pub struct Row {
    /// The character that is escaped.
    pub from: char,
    /// What is written instead of it.
    pub to: &'static str,
}

/// Rows for [`Table::new`], each a character and the text that stands for it.
#[macro_export]
macro_rules! rows {
    ($($from:literal => $to:literal,)*) => {
        &[$($crate::Row { from: $from, to: $to }),*]
    };
}

/// `N` rows, ascending by their characters.
#[derive(Debug, Drop)]
pub struct Table<const N: usize> {
    rows: &'static [Row],
    // Most bytes of a text begin no character with a row, and are passed over by these flags alone.
    lead_bytes: &'static [bool; 256],
}

impl<const N: usize> Model for Table<N> {
    ghost use Rattle.std.specs.Prelude.{◌≡◌, ℕ, List, length};
    ghost use Rattle.esc_table.specs.Ascends.{Ascends};
    ghost use Rattle.esc_table.specs.LeadBytes.{LeadBytes};
    ghost use Rattle.esc_table.specs.RowPairs.{row_pairs};

    ghost Value = { List (ℕ × List ℕ) };

    ghost view = { λ table. row_pairs table.rows.now };

    ghost invariant = { λ table. (length table.rows.now ≡ N) × Ascends (row_pairs table.rows.now)
        × LeadBytes (row_pairs table.rows.now) table.lead_bytes.now };
}

impl<const N: usize> Table<N> {
    /// The table of these rows: `N` of them, ascending by their characters, at most 256.
    ///
    /// It refers to the rows and to the flags of their lead bytes, so making it costs nothing.
    pub fn new(rows: &'static [Row], lead_bytes: &'static [bool; 256]) -> Table<N>
        requires size { N ≤ 256 }
        requires count { length rows.now ≡ N }
        requires ascending { Ascends (row_pairs rows.now) }
        requires lead_bytes { LeadBytes (row_pairs rows.now) lead_bytes.now }
        ensures { result ≡ row_pairs rows.now }
    {
        Table { rows, lead_bytes }
    }

    /// The text of the row of `c`, and `None` exactly where no row has `c`.
    pub fn find(&self, c: char) -> Option<&'static str>
        requires { N ≤ 256 }
        ensures row { option_map (λ text. chars text.now) result ≡ row_text self.now c }
        ensures utf8 { IfSome result (λ text. IsUtf8 text.now) }
    {
        if !self.lead_bytes[lead_byte(c) as usize] {
            return None;
        }
        match self.rows.binary_search_by_key(&c, |row| row.from) {
            Ok(at) => Some(self.rows[at].to),
            Err(_) => None,
        }
    }

    /// The longest prefix of the text in which no character has a row, and the rest.
    pub fn plain_prefix<'a>(&self, text: &'a str) -> (&'a str, &'a str)
        requires { N ≤ 256 }
        ensures whole { text.now ≡ result.0.now ++ result.1.now }
        ensures prefix { chars result.0.now ≡ plain_prefix self.now (chars text.now) }
        ensures prefix_utf8 { IsUtf8 result.0.now }
        ensures rest_utf8 { IsUtf8 result.1.now }
    {
        let mut rest = text;
        while !rest.is_empty() {
            let (_, others) = self.plain_run(rest);
            match self.past_plain_character(others) {
                Some(after) => rest = after,
                None => return text.split_at(text.len() - others.len()),
            }
        }
        (text, "")
    }

    // What follows the first character of the text, if there is one and it has no row.
    fn past_plain_character<'a>(&self, text: &'a str) -> Option<&'a str>
        requires { N ≤ 256 }
        ensures { MatchOption result (plain_prefix self.now (chars text.now) ≡ [])
            (λ rest. (c : ℕ) × (has_no_row self.now c ≡ true) × (text.now ≡ encode_utf8 c ++ rest.now)
            × IsUtf8 rest.now) }
    {
        let mut characters = text.chars();
        match characters.next() {
            Some(c) if self.find(c).is_none() => Some(characters.as_str()),
            _ => None,
        }
    }

    // A prefix of the text in which no character has a row, and the rest, which is empty or begins with a character
    // that may have one.
    pub(crate) fn plain_run<'a>(&self, text: &'a str) -> (&'a str, &'a str)
        ensures whole { text.now ≡ result.0.now ++ result.1.now }
        ensures run_utf8 { IsUtf8 result.0.now }
        ensures rest_utf8 { IsUtf8 result.1.now }
        ensures plain { IsTrue (list_all (has_no_row self.now) (chars result.0.now)) }
    {
        match first_flagged(self.lead_bytes, text.as_bytes()) {
            Some(at) => text.split_at(at),
            None => (text, ""),
        }
    }
}

// The offset of the first byte that is flagged.
fn first_flagged(flags: &[bool; 256], bytes: &[u8]) -> Option<usize>
    ensures { MatchOption result (All (λ byte. is_flagged flags.now byte ≡ false) bytes.now)
        (λ at. (at < length bytes.now) × All (λ byte. is_flagged flags.now byte ≡ false) (take at bytes.now)
        × (is_flagged flags.now (slice_index_or bytes.now at 0) ≡ true)) }
{
    bytes.iter().position(|byte| flags[*byte as usize])
}

// The first byte of a character in UTF-8.
fn lead_byte(c: char) -> u8
    ensures { result ≡ lead_byte c }
{
    c.encode_utf8(&mut [0; 4]).as_bytes()[0]
}
