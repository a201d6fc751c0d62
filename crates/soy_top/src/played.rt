//! Accepts a script that is played, or refuses it.

ghost use Rattle.std.specs.Prelude.{◌≡◌, ◌≤◌, ℕ, List, Option, IfOk, length, option_map};
ghost use Rattle.soy_front.specs.Compiled.{AreCompiled};
ghost use Rattle.soy_front.specs.ViewSources.{view_contents};
ghost use Rattle.soy_top.specs.Accepts.{Accepts};
ghost use Rattle.soy_top.specs.Scripts.AcceptsScript.{AcceptsScript};
ghost use Rattle.soy_top.specs.Answer.{accepted_then, inputs_answer, play_answer};
ghost use Rattle.soy_top.specs.Asked as asked;
ghost use Rattle.soy_top.specs.Words.{command_words};

use crate::ending::Ending;
use crate::inputs::{bundle_content, content_at, second_number};
use crate::line::{fault_line, step_line};
use crate::output::Output;
use crate::play::Play;
use crate::render::{compile_front, compile_read_front};
use soy_base::{Code, Fault, OutOfMemory, Refusal};
use soy_front::{Compiled, ReadFiles, Source};
use std::alloc::Global;
use std::rc::Rc;
use std::str;
use template_ir::Program;

/// A script that is played, or the line of the first fault of its files under the first bundle, under the second, and
/// of the script. Files are read and checked once.
pub(crate) fn accept_play<'a>(
    alloc: Global,
    script: &str,
    first: &str,
    second: &str,
    names: &[String],
    before: &'a [Source],
    sources: &[Source],
) -> Result<Output<'a>, Ending>
    requires { length sources.now ≤ 64 }
    ensures { Accepts (inputs_answer (asked.Play script.now first.now second.now (command_words names.now))
        (view_contents before.now) (view_contents sources.now)) result }
{
    match compile_front(
        alloc,
        names,
        sources,
        first,
        bundle_content(first, 1, before),
    ) {
        Ok(one) => {
            let bytes = content_at(before, 0);
            let content = bundle_content(second, second_number(first), before);
            accept_second(alloc, script, bytes, one, second, content, names, sources)
        }
        Err(ending) => Err(ending),
    }
}

/// The same of files that are accepted under the first bundle.
fn accept_second<'a>(
    alloc: Global,
    script: &str,
    bytes: &'a [u8],
    one: Compiled,
    second: &str,
    content: Option<&[u8]>,
    names: &[String],
    sources: &[Source],
) -> Result<Output<'a>, Ending>
    requires { (bundle : Option (List ℕ)) × AreCompiled (view_contents sources.now) bundle one }
    ensures { (bundle : Option (List ℕ)) (are : AreCompiled (view_contents sources.now) bundle one) →
        Accepts (accepted_then (command_words names.now) (view_contents sources.now) second.now
        (option_map (λ b. b.now) content.entry) (play_answer script.now bytes.now are.of)) result }
{
    let Compiled {
        typed,
        catalogue,
        program,
        ..
    } = one;
    let read = ReadFiles { typed, catalogue };
    match compile_read_front(alloc, names, sources, read, second, content) {
        Ok(other) => accept_script(alloc, script, bytes, program, other),
        Err(ending) => Err(ending),
    }
}

/// The same by the programs of both bundles.
fn accept_script<'a>(
    alloc: Global,
    script: &str,
    bytes: &'a [u8],
    first: Program,
    other: Compiled,
) -> Result<Output<'a>, Ending>
    ensures { AcceptsScript script.now bytes.now first other result }
{
    match str::from_utf8(bytes) {
        Ok(text) => accept_steps(alloc, script, text, first, other),
        Err(error) => {
            let fault = Fault {
                code: Code::NotUtf8,
                file: 0,
                at: error.valid_up_to() as u64,
            };
            let line = fault_line(alloc, script, bytes, fault)?;
            Err(Ending::Refused(line))
        }
    }
}

/// The same of a script that is UTF-8.
fn accept_steps<'a>(
    alloc: Global,
    script: &str,
    text: &'a str,
    first: Program,
    other: Compiled,
) -> Result<Output<'a>, Ending>
    ensures { AcceptsScript script.now text.now first other result }
{
    let play = play_of(alloc, text, first, other)?;
    match play.check(alloc) {
        Ok(()) => Ok(Output::Play(play)),
        Err(Refusal::Because(fault)) => {
            let line = step_line(alloc, script, fault)?;
            Err(Ending::Refused(line))
        }
        Err(Refusal::OutOfMemory) => Err(Ending::Memory),
    }
}

/// A script with its programs, which are shared from now on.
fn play_of(
    alloc: Global,
    script: &str,
    first: Program,
    other: Compiled,
) -> Result<Play<'_>, OutOfMemory>
    ensures typed { IfOk result (λ play. play.typed ≡ other.typed) }
    ensures first { IfOk result (λ play. play.first.value ≡ first) }
    ensures second { IfOk result (λ play. play.second.value ≡ other.program) }
    ensures script { IfOk result (λ play. play.script.now ≡ script.now) }
{
    let Compiled { typed, program, .. } = other;
    let first = Rc::new(alloc, first)?;
    let second = Rc::new(alloc, program)?;
    Ok(Play {
        typed,
        first,
        second,
        script,
    })
}
