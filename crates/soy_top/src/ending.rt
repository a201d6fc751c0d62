//! How a run ends without an output.

ghost use Rattle.std.specs.Prelude.{◌≡◌, ◌≤◌};
ghost use Rattle.soy_top.specs.Runs.Change.{change};
ghost use Rattle.soy_top.specs.Runs.Concludes.{Concludes, put_status};
ghost use Rattle.soy_top.specs.Runs.Course.{Says};

use crate::line::USAGE;
use crate::status::Status;
use soy_base::OutOfMemory;
use soy_io::{PutFault, Sink, put_all};

/// What a run says instead of an output, each line with its line break.
#[derive(Drop)]
pub(crate) enum Ending {
    /// The usage text.
    Usage,
    /// The line that a file can't be read.
    Read(String),
    /// The line of a refusal.
    Refused(String),
    /// Nothing, since memory ran out.
    Memory,
}

impl From<OutOfMemory> for Ending {
    ghost use Rattle.std.specs.Prelude.{◌≡◌};
    ghost use Rattle.soy_top.specs.declared.ending.Ending.TheVariants as ending;

    ghost from_gives = { λ _ made. made ≡ ending.Memory };

    fn from(_: OutOfMemory) -> Ending {
        Ending::Memory
    }
}

/// The status of a put that was refused.
pub(crate) fn put_status(fault: PutFault) -> Status
    ensures { result ≡ put_status fault }
{
    match fault {
        PutFault::Failed => Status::Write,
        PutFault::OutOfMemory => Status::Memory,
    }
}

/// Puts a text on standard error.
pub(crate) fn say<E: Sink>(err: &mut E, text: &str, wanted: Status) -> Status
    ensures said { Says wanted text.now (change E.Sink err.old err.new) result }
    ensures later { E.faults err.old ≤ E.faults err.new }
{
    match put_all(err, text.as_bytes()) {
        Ok(()) => wanted,
        Err(stop) => put_status(stop.cause),
    }
}

impl Ending {
    /// Says what is to be said, and gives the status.
    pub(crate) fn conclude<E: Sink>(self, err: &mut E) -> Status
        ensures concluded { Concludes self (change E.Sink err.old err.new) (err.new ≡ err.old) result }
        ensures later { E.faults err.old ≤ E.faults err.new }
    {
        match self {
            Ending::Usage => say(err, USAGE, Status::Usage),
            Ending::Read(line) => say(err, line.as_str(), Status::Read),
            Ending::Refused(line) => say(err, line.as_str(), Status::Refused),
            Ending::Memory => Status::Memory,
        }
    }
}
