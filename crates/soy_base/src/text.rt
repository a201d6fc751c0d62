//! A text, which contracts see as the list of its characters.
ghost use Rattle.std.specs.Prelude.{◌≡◌, [], ◌++◌, IfOk, OnOk, OnErr, encode_utf8_all, true};
ghost use Rattle.std.specs.Cmp.Rules.{comparing};
ghost use Rattle.std.proofs.Common.{rules};
ghost use Rattle.std.specs.Str.{chars, bytes_eq};
ghost use Rattle.std.specs.String.{string_bytes};
ghost use Rattle.soy_base.specs.Cuts.{is_nil};

use crate::OutOfMemory;
use crate::storage::Storage;
use arrayvec::ArrayString;
use std::alloc::Global;
use std::marker::Model;

/// A text, which contracts see as the list of its characters (Unicode scalar values).
#[derive(Debug, Drop)]
pub struct Text {
    storage: Storage,
    alloc: Global,
}

impl Model for Text {
    ghost use Rattle.std.specs.Prelude.{List, ℕ};
    ghost use Rattle.std.specs.Str.{chars};
    ghost use Rattle.soy_base.specs.Storage.{storage_bytes};

    ghost Value = { List ℕ };

    ghost view = { λ t. chars (storage_bytes t.storage) };
}

impl Text {
    /// The text of a string. Takes no memory.
    pub fn new(text: String) -> Text
        ensures { result ≡ chars (string_bytes text) }
    {
        let alloc = *text.allocator();
        let storage = match ArrayString::from(text.as_str()) {
            Ok(short) => Storage::Inline(short),
            Err(_) => Storage::Heap(text),
        };
        Text { storage, alloc }
    }

    /// The text without characters. Takes no memory.
    pub fn empty(alloc: Global) -> Text
        ensures { result ≡ [] }
    {
        Text {
            storage: Storage::Inline(ArrayString::new()),
            alloc,
        }
    }

    /// The text as a string slice.
    pub fn text(&self) -> &str
        ensures characters { chars result.now ≡ self.now }
        ensures bytes { result.now ≡ encode_utf8_all self.now }
    {
        self.storage.as_str()
    }

    /// Whether the text has no characters.
    pub fn is_empty(&self) -> bool
        ensures { result ≡ is_nil self.now }
    {
        self.storage.as_str().is_empty()
    }

    /// Whether the text has just these characters.
    pub fn is(&self, other: &str) -> bool
        ensures { result ≡ bytes_eq self.now (chars other.now) }
    {
        is_same(self.storage.as_str(), other)
    }

    /// Adds the characters of another text at the end.
    pub fn append(&mut self, more: &Text) -> Result<(), OutOfMemory>
        ensures ok { OnOk result (self.new ≡ self.old ++ more.now) }
        ensures unchanged { OnErr result (self.new ≡ self.old) }
    {
        self.storage.push(self.alloc, more.storage.as_str())
    }

    /// An equal text.
    pub fn copy(&self, alloc: Global) -> Result<Text, OutOfMemory>
        ensures { IfOk result (λ t. t ≡ self.now) }
    {
        text_of(alloc, self.storage.as_str())
    }
}

impl PartialEq for Text {
    ghost eq = { λ a b. bytes_eq a b };

    ghost laws = { Prim.search (comparing, rules) };

    fn eq(&self, other: &Text) -> bool {
        self.is(other.text())
    }
}

impl Eq for Text {
    ghost laws = { Prim.search (comparing, rules) };
}

/// The text of a string slice.
pub fn text_of(alloc: Global, text: &str) -> Result<Text, OutOfMemory>
    ensures { IfOk result (λ t. t ≡ chars text.now) }
{
    let storage = Storage::of(alloc, text)?;
    Ok(Text { storage, alloc })
}

/// Whether two texts are the same. Names of one length mostly differ in their last byte, which is compared first.
#[inline(always)]
fn is_same(left: &str, right: &str) -> bool
    ensures { result ≡ bytes_eq left.now right.now }
{
    has_same_end(left.as_bytes(), right.as_bytes()) && left == right
}

/// Whether two runs of bytes are as long and end alike.
#[inline(always)]
fn has_same_end(left: &[u8], right: &[u8]) -> bool
    ensures { left.now ≡ right.now → result ≡ true }
{
    left.len() == right.len() && (left.is_empty() || left[left.len() - 1] == right[left.len() - 1])
}

/// An equal text, if there is one.
pub fn copied_name(alloc: Global, name: &Option<Text>) -> Result<Option<Text>, OutOfMemory>
    ensures { IfOk result (λ n. n ≡ name.now) }
{
    match name {
        None => Ok(None),
        Some(name) => Ok(Some(name.copy(alloc)?)),
    }
}
