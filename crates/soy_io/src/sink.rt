//! A sink of bytes, and all of a list of bytes put into it.
ghost use Rattle.std.specs.Prelude.{◌≡◌, ℕ, ◌<◌, ◌≤◌, List, Option, length, take, OnOk, IfErr};
ghost use Rattle.soy_io.specs.Added.{added};
ghost use Rattle.soy_io.specs.PutRose.{PutRose};
ghost use Rattle.soy_io.specs.Puts.{Puts};

use std::alloc::AllocError;
use thiserror::Error;

/// Takes bytes, a piece at a time.
pub trait Sink {
    // The bytes that it has taken, or `None` where they aren't known.
    ghost taken: { Self → Option (List ℕ) };

    // How many times it has failed.
    ghost faults: { Self → ℕ };

    /// Takes the first bytes of the piece, and says how many: from one to all of them, and none
    /// only of an empty piece. After an error nothing of the piece was taken; `Failed` comes only
    /// where the sink failed in this call, and `OutOfMemory` where memory was refused.
    fn put(&mut self, piece: &[u8]) -> Result<usize, PutFault>
        ensures taken { Puts (taken self.old) (taken self.new) piece.now result }
        ensures later { faults self.old ≤ faults self.new }
        ensures failed { IfErr result (λ fault. PutRose fault (faults self.old) (faults self.new)) };
}

/// Why a piece wasn't taken.
#[derive(Clone, Copy, Debug, Drop, PartialEq, Eq, Error)]
pub enum PutFault {
    /// The sink failed, and counted it.
    #[error("the sink failed")]
    Failed,
    /// Memory was refused.
    #[error("out of memory")]
    OutOfMemory,
}

impl From<AllocError> for PutFault {
    ghost use Rattle.soy_io.specs.declared.sink.PutFault.TheVariants as put_fault;
    ghost use Rattle.std.specs.Prelude.{◌≡◌};

    ghost from_gives = { λ _ fault. fault ≡ put_fault.OutOfMemory };

    fn from(_refused: AllocError) -> PutFault {
        PutFault::OutOfMemory
    }
}

/// Where `put_all` stopped: the bytes that were taken before, and what the refused put answered.
#[derive(Clone, Copy, Debug, PartialEq, Eq)]
pub struct PutAll {
    /// How many bytes were taken.
    pub taken: usize,
    /// The answer of the put after them.
    pub cause: PutFault,
}

/// Puts all of the bytes, with as many puts as the sink needs.
///
/// After an error the sink has taken exactly the first `taken` bytes, fewer than all. The cause
/// `Failed` comes only where the sink failed in this call.
pub fn put_all<K: Sink>(sink: &mut K, bytes: &[u8]) -> Result<(), PutAll>
    ensures ok { OnOk result (K.taken sink.new ≡ added (K.taken sink.old) bytes.now) }
    ensures err { IfErr result (λ stop. K.taken sink.new ≡ added (K.taken sink.old) (take stop.taken bytes.now)) }
    ensures within { IfErr result (λ stop. stop.taken < length bytes.now) }
    ensures later { K.faults sink.old ≤ K.faults sink.new }
    ensures failed { IfErr result (λ stop. PutRose stop.cause (K.faults sink.old) (K.faults sink.new)) }
{
    let mut taken = 0;
    while taken < bytes.len() {
        match sink.put(&bytes[taken..]) {
            Ok(count) => taken += count,
            Err(cause) => return Err(PutAll { taken, cause }),
        }
    }
    Ok(())
}
