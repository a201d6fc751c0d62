//! The reply to a call.

ghost use Rattle.std.specs.Prelude.{◌≡◌, IfOk, IfErr, length};
ghost use Rattle.soy_top.specs.Answer.{answer};
ghost use Rattle.soy_top.specs.Words.{command_words};
ghost use Rattle.soyc_c.specs.Call.{call_at};
ghost use Rattle.soyc_c.specs.Reply.{answer_reply, reply_to, status_number};
ghost use Rattle.soyc_c.specs.Room.{filled};
ghost use Rattle.soyc_c.specs.Stops.{StopsAt, stop_status};
ghost use Rattle.soyc_c.specs.ViewReply.{view_reply};

use crate::parts::{FileParts, Part, Stop, files_of, words_of};
use crate::room::{Lengths, fill};
use soy_io::{NamedFile, PlainLibrary, PlainSink};
use soy_top::{Status, run};
use std::alloc::Global;

/// How a run ended, memory apart, with what its sinks took.
#[derive(Drop)]
pub(crate) struct Ended {
    pub(crate) status: Status,
    pub(crate) out: PlainSink,
    pub(crate) err: PlainSink,
}

/// The number of a status, which is the program's exit status.
fn number_of(status: Status) -> u32
    ensures { result ≡ status_number status }
{
    match status {
        Status::Done => 0,
        Status::Memory => 1,
        Status::Usage => 2,
        Status::Read => 3,
        Status::Write => 4,
        Status::Refused => 5,
        Status::TooDeep => 6,
    }
}

/// The number of what stops a call.
pub(crate) fn stop_number(stop: Stop) -> u32
    ensures { result ≡ stop_status stop }
{
    match stop {
        Stop::Memory => 1,
        Stop::Malformed => 7,
    }
}

/// Puts what the sinks took into the rooms, as much as fits, and gives the number of the status.
pub(crate) fn give(ended: &Ended, out: &mut [u8], err: &mut [u8], lengths: &mut Lengths) -> u32
    ensures status { result ≡ status_number ended.now.status }
    ensures out { out.new ≡ filled out.old ended.now.out }
    ensures err { err.new ≡ filled err.old ended.now.err }
    ensures out_length { lengths.new.out ≡ length ended.now.out }
    ensures err_length { lengths.new.err ≡ length ended.now.err }
{
    lengths.out = fill(out, ended.out.taken());
    lengths.err = fill(err, ended.err.taken());
    number_of(ended.status)
}

/// Runs words over files in memory. Where memory runs out, what the sinks took until then is given up.
fn ran(alloc: Global, words: &[String], files: Vec<NamedFile>) -> Result<Ended, Stop>
    ensures ok { IfOk result (λ ended.
        view_reply ended ≡ answer_reply (answer files.items (command_words words.now))) }
    ensures memory { IfErr result (λ stop. stop ≡ Stop.Memory) }
{
    let mut library = PlainLibrary::new(files);
    let mut out = PlainSink::new(alloc);
    let mut err = PlainSink::new(alloc);
    match run(alloc, words, &mut library, &mut out, &mut err) {
        Status::Memory => Err(Stop::Memory),
        status => Ok(Ended { status, out, err }),
    }
}

/// Runs the words of a call over its files.
pub(crate) fn reply(
    alloc: Global,
    bytes: &[u8],
    words: &[Part],
    files: &[FileParts],
) -> Result<Ended, Stop>
    ensures ok { IfOk result (λ ended. view_reply ended ≡ reply_to bytes.now words.now files.now) }
    ensures err { IfErr result (λ stop. StopsAt stop (call_at bytes.now words.now files.now)) }
{
    let words = words_of(alloc, bytes, words)?;
    let files = files_of(alloc, bytes, files)?;
    ran(alloc, words.as_slice(), files)
}
