//! What is to be written to the output.

ghost use Rattle.std.specs.Prelude.{◌≡◌, ◌≤◌, IfErr, IfOk};
ghost use Rattle.soy_io.specs.PutRose.{PutRose};
ghost use Rattle.soy_top.specs.Runs.Change.{change, Took, TookPrefix};
ghost use Rattle.soy_top.specs.Runs.Course.{Writes};
ghost use Rattle.soy_top.specs.Runs.Output.{OnNoText};
ghost use Rattle.soy_top.specs.Runs.ViewOutput.{IsEnd, view_output};

use crate::ending::{put_status, say};
use crate::page::{DeepCall, Page, put_bytes};
use crate::play::Play;
use crate::status::Status;
use soy_io::{PutFault, Sink};
use std::alloc::Global;

/// What was accepted: a text that is there, a page that is put by pieces, a script that is played, or nothing up to a
/// call that nests too deep.
#[derive(Drop)]
pub(crate) enum Output<'a> {
    Text(String),
    Page(Page<'a>),
    Play(Play<'a>),
    AtCall(DeepCall<'a>),
}

/// How what was put ended: whole, or before a call that nests too deep, with the line of that call.
#[derive(Drop)]
pub(crate) enum End {
    Whole,
    AtCall(String),
}

impl Output<'_> {
    /// Puts the text on the output, and says how it ended.
    fn put<K: Sink>(&self, alloc: Global, out: &mut K) -> Result<End, PutFault>
        ensures ok { IfOk result (λ end. Took (change K.Sink out.old out.new) (view_output self.now).text) }
        ensures end { IfOk result (λ end. IsEnd (view_output self.now).end end) }
        ensures err { IfErr result (λ fault. TookPrefix (change K.Sink out.old out.new) (view_output self.now).text) }
        ensures no_text { OnNoText (view_output self.now).text (view_output self.now).end (out.new ≡ out.old) }
        ensures later { K.faults out.old ≤ K.faults out.new }
        ensures failed { IfErr result (λ fault. PutRose fault (K.faults out.old) (K.faults out.new)) }
    {
        match self {
            Output::Text(text) => put_text(text.as_str(), out),
            Output::Page(page) => page.put(alloc, out),
            Output::Play(play) => play.put(alloc, out),
            Output::AtCall(deep) => deep.end(alloc),
        }
    }

    /// Writes it, says its line on standard error where it ends too deep, and gives the status.
    pub(crate) fn write<K: Sink, E: Sink>(&self, alloc: Global, out: &mut K, err: &mut E) -> Status
        ensures written { Writes (view_output self.now) (change K.Sink out.old out.new) (change E.Sink err.old err.new)
            (err.new ≡ err.old) result }
        ensures no_text { OnNoText (view_output self.now).text (view_output self.now).end (out.new ≡ out.old) }
        ensures out_later { K.faults out.old ≤ K.faults out.new }
        ensures err_later { E.faults err.old ≤ E.faults err.new }
    {
        match self.put(alloc, out) {
            Ok(End::Whole) => Status::Done,
            Ok(End::AtCall(line)) => say(err, line.as_str(), Status::TooDeep),
            Err(fault) => put_status(fault),
        }
    }
}

/// Puts a text, which ends whole.
fn put_text<K: Sink>(text: &str, out: &mut K) -> Result<End, PutFault>
    ensures ok { IfOk result (λ end. Took (change K.Sink out.old out.new) text.now) }
    ensures end { IfOk result (λ end. end ≡ End.Whole) }
    ensures err { IfErr result (λ fault. TookPrefix (change K.Sink out.old out.new) text.now) }
    ensures later { K.faults out.old ≤ K.faults out.new }
    ensures failed { IfErr result (λ fault. PutRose fault (K.faults out.old) (K.faults out.new)) }
{
    match put_bytes(out, text.as_bytes()) {
        Ok(()) => Ok(End::Whole),
        Err(fault) => Err(fault),
    }
}
