//! The summary of a page: its bytes are counted and hashed as they come, and none are held.

ghost use Rattle.std.specs.Prelude.{◌≡◌, ◌<◌, ℕ, List, [], ◌++◌, IfOk, length};
ghost use Rattle.std.specs.String.{string_bytes};
ghost use Rattle.soy_top.specs.Answer.{run_text};
ghost use Rattle.soy_top.specs.IsSumOf.{IsSumOf};
ghost use Rattle.soy_top.specs.Summary.{summary};
ghost use Rattle.soy_top.specs.Runs.ViewOutput.{page_run};

use crate::page::{Page, pull_room};
use render_core::Rendering;
use sha2::{Digest, Sha256};
use soy_base::{OutOfMemory, Refusal, Steps};
use std::alloc::Global;
use std::marker::Brand;
use std::sync::ledger::{Blank, Ledger};

/// The number and the hash of the bytes so far.
#[derive(Drop)]
struct Summing {
    hasher: Sha256,
    count: u64,
}

impl Summing {
    /// Of no bytes.
    fn new() -> Summing
        ensures { IsSumOf [] result }
    {
        Summing {
            hasher: Sha256::new(),
            count: 0,
        }
    }

    /// Takes more bytes.
    fn add(&mut self, bytes: &[u8])
        ensures { (text : List ℕ) → IsSumOf text self.old → IsSumOf (text ++ bytes.now) self.new }
    {
        self.hasher.update(bytes);
        self.count = self.count.saturating_add(bytes.len() as u64);
    }

    /// The summary of the bytes.
    fn summary(self, alloc: Global) -> Result<String, OutOfMemory>
        ensures { (text : List ℕ) → IsSumOf text self → IfOk result (λ made. string_bytes made ≡ summary text) }
    {
        let count = self.count;
        let digest = hex::encode(alloc, self.hasher.finalize())?;
        Ok(format!(in alloc;
            "templates 201\nmessages 200\nitems 4000\nbytes {count}\nsha256 {digest}\n"
        )?)
    }
}

/// The summary of a page, however it ends.
pub(crate) fn page_summary(alloc: Global, page: &Page<'_>) -> Result<String, OutOfMemory>
    ensures { IfOk result (λ made. string_bytes made ≡ summary (run_text (page_run page.now))) }
{
    let mut room = pull_room(alloc)?;
    let sum = sum_pulls::<Brand>(alloc, page, room.as_mut_slice(), Blank::new(1))?;
    sum.summary(alloc)
}

/// Counts and hashes what pulls into a room give, up to the end of a page.
fn sum_pulls<L: Ledger>(
    alloc: Global,
    page: &Page<'_>,
    room: &mut [u8],
    blank: Blank,
) -> Result<Summing, OutOfMemory>
    requires name { blank.name ≡ L.name }
    requires parts { blank.parts ≡ L.parts }
    requires some { 0 < blank.parts }
    requires room { 0 < length room.old }
    ensures { IfOk result (λ sum. IsSumOf (run_text (page_run page.now)) sum) }
{
    let mut steps = Steps::<L>::new(blank);
    let Ok(mut rendering) = Rendering::begin(alloc, &page.program, &page.input, page.template)
    else {
        return Err(OutOfMemory);
    };
    let mut sum = Summing::new();
    loop {
        match rendering.pull(&page.program, &page.input, room, &mut steps) {
            Ok(0) => return Ok(sum),
            Ok(n) => sum.add(&room[..n]),
            Err(Refusal::Because(_)) => return Ok(sum),
            Err(Refusal::OutOfMemory) => return Err(OutOfMemory),
        }
    }
}
