//! Puts a page, pull by pull.

ghost use Rattle.std.specs.Prelude.{◌≡◌, ◌≤◌, ◌<◌, length, IfErr, IfOk, OnOk};
ghost use Rattle.soy_io.specs.PutRose.{PutRose};
ghost use Rattle.soy_top.specs.Runs.Change.{change, Took, TookPrefix};
ghost use Rattle.soy_top.specs.Runs.Output.{OnNoText};
ghost use Rattle.soy_top.specs.Runs.ViewOutput.{IsEnd, view_call, view_page};

use crate::faults::call_line;
use crate::output::End;
use render_core::Rendering;
use soy_base::{OutOfMemory, Refusal, Steps, TooDeep};
use soy_front::Source;
use soy_io::{PutFault, Sink, put_all};
use soy_tree::Value;
use std::alloc::Global;
use std::marker::Brand;
use std::sync::ledger::{Blank, Ledger};
use template_ir::Program;

/// The most bytes that are put at once.
const PUT_LIMIT: usize = 4096;

/// A page that was accepted: a template of a program by its number and its data; and the names and the contents of the
/// files, for the line of a call that nests too deep.
#[derive(Drop)]
pub(crate) struct Page<'a> {
    pub(crate) program: Program,
    pub(crate) template: usize,
    pub(crate) input: Value,
    pub(crate) names: &'a [String],
    pub(crate) sources: &'a [Source],
}

/// A call that nests too deep, at which nothing is put; and the names and the contents of the files, for its line.
#[derive(Drop)]
pub(crate) struct DeepCall<'a> {
    pub(crate) call: TooDeep,
    pub(crate) names: &'a [String],
    pub(crate) sources: &'a [Source],
}

/// Puts bytes, not too many at once.
pub(crate) fn put_bytes<K: Sink>(out: &mut K, bytes: &[u8]) -> Result<(), PutFault>
    ensures ok { OnOk result (Took (change K.Sink out.old out.new) bytes.now) }
    ensures err { IfErr result (λ fault. TookPrefix (change K.Sink out.old out.new) bytes.now) }
    ensures later { K.faults out.old ≤ K.faults out.new }
    ensures failed { IfErr result (λ fault. PutRose fault (K.faults out.old) (K.faults out.new)) }
{
    let mut rest = bytes;
    while rest.len() > PUT_LIMIT {
        let (piece, others) = rest.split_at(PUT_LIMIT);
        if let Err(stop) = put_all(out, piece) {
            return Err(stop.cause);
        }
        rest = others;
    }
    match put_all(out, rest) {
        Ok(()) => Ok(()),
        Err(stop) => Err(stop.cause),
    }
}

/// Room for what a pull gives.
pub(crate) fn pull_room(alloc: Global) -> Result<Vec<u8>, OutOfMemory>
    ensures { IfOk result (λ room. 0 < length room.items) }
{
    let mut room = Vec::new(alloc);
    room.resize(PUT_LIMIT, 0)?;
    Ok(room)
}

impl Page<'_> {
    /// Puts the page, and says how it ended.
    pub(crate) fn put<K: Sink>(&self, alloc: Global, out: &mut K) -> Result<End, PutFault>
        ensures ok { IfOk result (λ end. Took (change K.Sink out.old out.new) (view_page self.now).text) }
        ensures end { IfOk result (λ end. IsEnd (view_page self.now).end end) }
        ensures err { IfErr result (λ fault. TookPrefix (change K.Sink out.old out.new) (view_page self.now).text) }
        ensures no_text { OnNoText (view_page self.now).text (view_page self.now).end (out.new ≡ out.old) }
        ensures later { K.faults out.old ≤ K.faults out.new }
        ensures failed { IfErr result (λ fault. PutRose fault (K.faults out.old) (K.faults out.new)) }
    {
        let Ok(mut room) = pull_room(alloc) else {
            return Err(PutFault::OutOfMemory);
        };
        self.put_pulls::<Brand, K>(alloc, out, room.as_mut_slice(), Blank::new(1))
    }

    /// Puts what pulls into a room give, and says how the page ended.
    fn put_pulls<L: Ledger, K: Sink>(
        &self,
        alloc: Global,
        out: &mut K,
        room: &mut [u8],
        blank: Blank,
    ) -> Result<End, PutFault>
        requires name { blank.name ≡ L.name }
        requires parts { blank.parts ≡ L.parts }
        requires some { 0 < blank.parts }
        requires room { 0 < length room.old }
        ensures ok { IfOk result (λ end. Took (change K.Sink out.old out.new) (view_page self.now).text) }
        ensures end { IfOk result (λ end. IsEnd (view_page self.now).end end) }
        ensures err { IfErr result (λ fault. TookPrefix (change K.Sink out.old out.new) (view_page self.now).text) }
        ensures no_text { OnNoText (view_page self.now).text (view_page self.now).end (out.new ≡ out.old) }
        ensures later { K.faults out.old ≤ K.faults out.new }
        ensures failed { IfErr result (λ fault. PutRose fault (K.faults out.old) (K.faults out.new)) }
    {
        let mut steps = Steps::<L>::new(blank);
        let Ok(mut rendering) = Rendering::begin(alloc, &self.program, &self.input, self.template)
        else {
            return Err(PutFault::OutOfMemory);
        };
        loop {
            match rendering.pull(&self.program, &self.input, room, &mut steps) {
                Ok(0) => return Ok(End::Whole),
                Ok(n) => {
                    if let Err(stop) = put_all(out, &room[..n]) {
                        return Err(stop.cause);
                    }
                }
                Err(Refusal::Because(call)) => match call_line(
                    alloc,
                    self.names,
                    self.sources,
                    call,
                ) {
                    Ok(line) => return Ok(End::AtCall(line)),
                    Err(OutOfMemory) => return Err(PutFault::OutOfMemory),
                },
                Err(Refusal::OutOfMemory) => return Err(PutFault::OutOfMemory),
            }
        }
    }
}

impl DeepCall<'_> {
    /// The end at the call, with its line.
    pub(crate) fn end(&self, alloc: Global) -> Result<End, PutFault>
        ensures ok { IfOk result (λ end. IsEnd (view_call self.now).end end) }
        ensures err { IfErr result (λ fault. fault ≡ PutFault.OutOfMemory) }
    {
        match call_line(alloc, self.names, self.sources, self.call) {
            Ok(line) => Ok(End::AtCall(line)),
            Err(OutOfMemory) => Err(PutFault::OutOfMemory),
        }
    }
}
