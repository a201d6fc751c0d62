//! The program `soyc`: hands its words, the files of the system and its two output streams to
//! `soy_top::run`, and ends with the status that `run` answers, 0 to 6.
//!
//! The adapters here are a library over the real files and sinks over the real streams: each failure
//! is counted, and contracts know nothing of what files and streams hold. Depends on soy_top and soy_io.
#![tactic(auto)]

mod library;
mod sinks;

use library::FileLibrary;
use sinks::{GatheringSink, StreamSink};
use soy_top::{Status, run};
use std::alloc::Global;
use std::env;
use std::io::ErrorKind;
use std::process::ExitCode;

/// The words of the command line without the program's own name, and none where one isn't UTF-8.
fn words(rt: &HostRuntime, alloc: Global) -> Result<Vec<String>, Status> {
    let mut words = Vec::new(alloc);
    match env::args(rt) {
        Ok(args) => {
            // Where `collect` is refused its first room, it goes on: here each refusal is answered.
            for word in args.skip(1) {
                words.push(word).map_err(|_| Status::Memory)?;
            }
        }
        Err(error) if error.kind() == ErrorKind::OutOfMemory => return Err(Status::Memory),
        Err(_) => {}
    }
    Ok(words)
}

fn main(rt: HostRuntime) -> ExitCode {
    let mut files = FileLibrary::new(&rt);
    let mut out = GatheringSink::new(rt.alloc(), rt.stdout());
    let mut err = StreamSink::new(rt.stderr());
    let status = match words(&rt, rt.alloc()) {
        Ok(words) => run(rt.alloc(), words.as_slice(), &mut files, &mut out, &mut err),
        Err(status) => status,
    };
    let status = match out.write_rest() {
        Ok(()) => status,
        Err(_) => Status::Write,
    };
    ExitCode::from(status as u8)
}
