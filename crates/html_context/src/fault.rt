//! What the walk refuses, and where.

ghost use Rattle.std.specs.Prelude.{◌≡◌, None};
ghost use Rattle.soy_base.specs.declared.memory.Refusal.TheVariants as refusal;

use soy_base::{Code, Fault, Placing, Refusal};

/// The first fault of the walk, and the placings that 12 keeps: that of the first state, and the first that differs.
#[derive(Clone, Copy, Debug, PartialEq, Eq)]
pub struct PlaceFault {
    pub fault: Fault,
    pub first: Option<Placing>,
    pub second: Option<Placing>,
}

/// The number of a file, and an offset in it, in bytes.
#[derive(Clone, Copy)]
pub(crate) struct Site {
    pub file: u32,
    pub at: u64,
}

/// The first fault of a walk, and for 12 both placings.
#[derive(Clone, Copy)]
pub(crate) struct FirstFault {
    pub code: Code,
    pub at: Site,
    pub placings: Option<(Placing, Placing)>,
}

/// Why a walk stops.
pub(crate) type Stop = Refusal<FirstFault>;

/// The stop at a fault that keeps no placings.
pub(crate) fn stop(at: Site, code: Code) -> Stop
    ensures { result ≡ refusal.Because (record { code = code; at = at; placings = None }) }
{
    Refusal::Because(FirstFault {
        code,
        at,
        placings: None,
    })
}
