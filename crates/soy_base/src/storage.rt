//! Where the bytes of a text are.
ghost use Rattle.std.specs.Prelude.{◌≡◌, ◌++◌, IfOk, OnOk, OnErr};
ghost use Rattle.std.specs.Str.{chars};
ghost use Rattle.soy_base.specs.Storage.{storage_bytes};

use crate::OutOfMemory;
use crate::push::push_text;
use arrayvec::ArrayString;
use std::alloc::Global;

/// The bytes of a text: short ones, as those of most names and words are, in the text itself, others in memory of their
/// own.
#[derive(Debug, Drop)]
pub(crate) enum Storage {
    Inline(ArrayString<16>),
    Heap(String),
}

impl Storage {
    /// Equal bytes.
    pub(crate) fn of(alloc: Global, text: &str) -> Result<Storage, OutOfMemory>
        ensures { IfOk result (λ s. storage_bytes s ≡ text.now) }
    {
        match ArrayString::from(text) {
            Ok(short) => Ok(Storage::Inline(short)),
            Err(_) => Ok(Storage::Heap(String::from_str(alloc, text)?)),
        }
    }

    /// The bytes as a string slice.
    #[inline]
    pub(crate) fn as_str(&self) -> &str
        ensures { result.now ≡ storage_bytes self.now }
    {
        match self {
            Storage::Inline(short) => short.as_str(),
            Storage::Heap(long) => long.as_str(),
        }
    }

    /// Adds characters at the end.
    pub(crate) fn push(&mut self, alloc: Global, more: &str) -> Result<(), OutOfMemory>
        ensures ok { OnOk result (chars (storage_bytes self.new)
            ≡ chars (storage_bytes self.old) ++ chars more.now) }
        ensures unchanged { OnErr result (storage_bytes self.new ≡ storage_bytes self.old) }
    {
        match self {
            Storage::Inline(short) => {
                *self = joined(alloc, short.as_str(), more)?;
                Ok(())
            }
            Storage::Heap(long) => push_text(long, more),
        }
    }
}

/// The characters of one text and then those of another.
fn joined(alloc: Global, text: &str, more: &str) -> Result<Storage, OutOfMemory>
    ensures { IfOk result (λ s. chars (storage_bytes s) ≡ chars text.now ++ chars more.now) }
{
    if let Ok(mut short) = ArrayString::from(text) {
        if let Ok(()) = short.try_push_str(more) {
            return Ok(Storage::Inline(short));
        }
    }
    let mut long = String::with_capacity(alloc, text.len() + more.len())?;
    push_text(&mut long, text)?;
    push_text(&mut long, more)?;
    Ok(Storage::Heap(long))
}
