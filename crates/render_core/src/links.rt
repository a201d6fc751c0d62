//! From where the search for a variable goes on past another.

ghost use Rattle.std.specs.Prelude.{◌≡◌, ◌<◌, option_map, slice_index_or};
ghost use Rattle.render_core.specs.Keys.{agreed, bytes_fingerprint, fingerprint_of, fits_key, key_of, level_of};
ghost use Rattle.render_core.specs.Keys.{levels_of, lowered, mixed, next_of};

use soy_base::{Boxed, Text};

/// From where the search for a variable goes on past another.
#[derive(Drop)]
pub(crate) enum Links {
    /// Past one of few that are visible, from the next below it; so many are visible from it down. The other number is
    /// the fingerprint of its name.
    Few(u8, u32),
    /// Past one of many, by the keys of both names.
    Many(Boxed<Levels>),
}

/// The key of a variable's name, and the numbers of the variables from which searches go on past it: that for a name
/// whose key agrees with it in just so many of its low bits, for each number of bits, and that for all others.
#[derive(Drop)]
pub(crate) struct Levels {
    pub(crate) key: u64,
    pub(crate) to: Vec<usize>,
    pub(crate) last: usize,
}

/// The key of a name.
pub(crate) fn key_of(name: &Text) -> u64
    ensures { result ≡ key_of name.now }
{
    let bytes = name.text().as_bytes();
    let first = bytes.split_at(bytes.len().min(16)).0;
    let last = bytes.split_at(bytes.len().saturating_sub(16)).1;
    mixed(mixed(0, first), last)
}

/// The fingerprint of a name.
pub(crate) fn fingerprint_of(name: &Text) -> u32
    ensures { result ≡ fingerprint_of name.now }
{
    bytes_fingerprint(name.text().as_bytes())
}

/// The fingerprint of the bytes of a name.
fn bytes_fingerprint(bytes: &[u8]) -> u32
    ensures { result ≡ bytes_fingerprint bytes.now }
{
    let first = byte_at(bytes, 0);
    let last = byte_at(bytes, bytes.len().saturating_sub(1));
    (bytes.len() % 256) as u32 * 65536 + first * 256 + last
}

/// The byte at a place, or 0.
fn byte_at(bytes: &[u8], at: usize) -> u32
    ensures byte { result ≡ slice_index_or bytes.now at 0 }
    ensures low { result < 256 }
{
    match bytes.get(at) {
        Some(byte) => u32::from(*byte),
        None => 0,
    }
}

/// A key that more bytes are mixed into.
fn mixed(key: u64, bytes: &[u8]) -> u64
    requires { key < 4294967296 }
    ensures mixed { result ≡ mixed key bytes.now }
    ensures low { result < 4294967296 }
{
    let mut sum = key;
    for byte in bytes {
        sum = (sum * 16777619 + u64::from(*byte)) % 4294967296;
    }
    sum
}

/// In how many of its low bits a key agrees with another.
pub(crate) fn agreed(key: u64, other: u64) -> usize
    ensures { result ≡ agreed 32 key other }
{
    let mut count = 0;
    let mut left = key;
    let mut right = other;
    while count < 32 {
        if left % 2 != right % 2 {
            return count;
        }
        left /= 2;
        right /= 2;
        count += 1;
    }
    count
}

/// A number, or none where it isn't lower than another.
pub(crate) fn lowered(number: usize, next: usize) -> usize
    ensures { result ≡ lowered number next }
{
    if next < number { next } else { 0 }
}

impl Links {
    /// Those by keys.
    pub(crate) fn levels(&self) -> Option<&Levels>
        ensures { option_map (λ l. l.now) result ≡ levels_of self.now }
    {
        match self {
            Links::Few(_, _) => None,
            Links::Many(levels) => Some(levels.get()),
        }
    }

    /// Whether the fingerprint or the key is that of a name with this key.
    pub(crate) fn fits(&self, name: &Text, key: u64) -> bool
        requires { key ≡ key_of name.now }
        ensures { result ≡ fits_key self.now name.now }
    {
        match self {
            Links::Few(_, fingerprint) => *fingerprint == fingerprint_of(name),
            Links::Many(levels) => levels.get().key == key,
        }
    }

    /// From where the search goes on for a name of a key, past a variable over those of a number.
    pub(crate) fn next(&self, below: usize, key: u64) -> usize
        ensures { result ≡ next_of self.now below key }
    {
        match self {
            Links::Few(_, _) => below,
            Links::Many(levels) => {
                let levels = levels.get();
                levels.at(agreed(levels.key, key))
            }
        }
    }
}

impl Levels {
    /// From where the search goes on for a name whose key agrees in so many bits.
    pub(crate) fn at(&self, count: usize) -> usize
        ensures { result ≡ level_of self.now count }
    {
        match self.to.as_slice().get(count) {
            Some(number) => *number,
            None => self.last,
        }
    }
}
