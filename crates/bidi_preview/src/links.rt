//! Isolates and their ends (UAX #9, BD9).
ghost use Rattle.std.specs.Prelude.{◌+◌, ◌<◌, IfOk, OnOk, length};
ghost use Rattle.bidi_preview.specs.SequenceSteps.{HasEnds, MatchedFrom};

use crate::absent::unknown;
use crate::kept::{Kept, Role};
use soy_base::{OutOfMemory, Stack};
use std::alloc::Global;

/// For each initiator the index of the PDI that matches it, if one does. The line is read from its end on, and the PDIs
/// that wait for an initiator are kept on a stack.
#[tactic(auto, using(crate::proofs::Waiting::matched_start, crate::proofs::Waiting::matched_end))]
pub(crate) fn match_isolates(
    alloc: Global,
    line: &[Option<Kept>],
) -> Result<Vec<Option<usize>>, OutOfMemory>
    ensures { IfOk result (λ ends. HasEnds line.now ends.items) }
{
    let mut ends = unknown(alloc, line.len())?;
    let mut waiting = Stack::empty(alloc);
    let mut index = line.len();
    while index > 0 {
        index -= 1;
        match_at(line, index, &mut waiting, &mut ends)?;
    }
    Ok(ends)
}

/// The character at an index, where those behind it were read.
#[tactic(auto, using(crate::proofs::Waiting::matched_removed, crate::proofs::Waiting::matched_neither, crate::proofs::Waiting::matched_pushed, crate::proofs::Waiting::matched_popped))]
fn match_at(
    line: &[Option<Kept>],
    index: usize,
    waiting: &mut Stack<usize>,
    ends: &mut [Option<usize>],
) -> Result<(), OutOfMemory>
    requires within { index < length line.now }
    requires so_far { MatchedFrom line.now (index + 1) waiting.old ends.old }
    ensures { OnOk result (MatchedFrom line.now index waiting.new ends.new) }
{
    match &line[index] {
        None => Ok(()),
        Some(k) => match k.role() {
            Role::Initiates => {
                ends[index] = waiting.pop();
                Ok(())
            }
            Role::Terminates => {
                waiting.push(index)?;
                Ok(())
            }
            Role::Neither => Ok(()),
        },
    }
}
