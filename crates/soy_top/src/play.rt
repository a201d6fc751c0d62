//! Plays a script on a desk, line by line.

ghost use Rattle.std.specs.Prelude.{◌≡◌, ◌≤◌, ◌<◌, IfErr, IfOk, Ok, Some, length, option_map};
ghost use Rattle.std.specs.Str.{chars};
ghost use Rattle.std.specs.String.{string_bytes};
ghost use Rattle.soy_desk.specs.DeskState.{desk_with};
ghost use Rattle.soy_io.specs.PutRose.{PutRose};
ghost use Rattle.soy_top.specs.Runs.Change.{change, Took, TookPrefix};
ghost use Rattle.soy_top.specs.Scripts.DeskLines.{LineShows, program_of};
ghost use Rattle.soy_top.specs.Line.{ended};
ghost use Rattle.soy_top.specs.Scripts.Played.{Closes, Pulls, bundle_number, full_line, given_line, named_line};
ghost use Rattle.soy_top.specs.Scripts.Script.{Open, Publish};
ghost use Rattle.soy_top.specs.Scripts.ViewPlay.{AtLine, ChecksLine, ChecksScript, PlaysLine, ReadsOpen, play_opening};
ghost use Rattle.soy_top.specs.Scripts.ViewPlay.{view_play};
ghost use Rattle.soy_top.specs.Scripts.ViewScript.{view_bundle, view_line};
ghost use Rattle.soy_rules.specs.ShortLists.{HasShortLists};
ghost use Rattle.soy_tree.specs.ViewValues.{view_value};
ghost use Rattle.template_ir.specs.declared.program.ProgramParts.{ProgramParts};

use crate::output::End;
use crate::script::{ScriptBundle, ScriptLine, first_line, read_line};
use soy_base::{Code, OutOfMemory, Refusal, Steps};
use soy_desk::{Desk, DeskFault, Unopened};
use soy_front::entry_number;
use soy_io::{PutFault, Sink, put_all};
use soy_rules::Typed;
use soy_tree::Value;
use soy_types::read_data;
use std::alloc::Global;
use std::marker::Brand;
use std::rc::Rc;
use std::sync::ledger::{Blank, Ledger};
use template_ir::Program;

/// A script, with the trees of the files and the programs that they are under the two bundles.
#[derive(Drop)]
pub(crate) struct Play<'a> {
    pub(crate) typed: Typed,
    pub(crate) first: Rc<Program>,
    pub(crate) second: Rc<Program>,
    pub(crate) script: &'a str,
}

/// The refusal of a line of a script, lines being counted from 1.
#[derive(Clone, Copy)]
pub(crate) struct StepFault {
    pub(crate) line: u64,
    pub(crate) code: Code,
}

impl Play<'_> {
    /// Checks the lines in turn: each is a step, or the first that isn't is refused. What is read of data isn't kept.
    pub(crate) fn check(&self, alloc: Global) -> Result<(), Refusal<StepFault>>
        ensures { ChecksScript self.now result }
    {
        // Lines are no more than bytes.
        let _bytes = bytes_of(self.script);
        let mut number = 0u64;
        let mut rest = Some(self.script);
        while let Some(text) = rest {
            let (line, more) = first_line(text);
            number += 1;
            if let Err(refusal) = self.check_line(alloc, read_line(line)) {
                return Err(at_line(number, refusal));
            }
            rest = more;
        }
        Ok(())
    }

    /// Checks what a line asks for.
    fn check_line(&self, alloc: Global, line: Option<ScriptLine<'_>>) -> Result<(), Refusal<Code>>
        ensures { ChecksLine self.now (option_map view_line line.entry) result }
    {
        match line {
            Some(line) => self.check_step(alloc, line),
            None => Err(Refusal::Because(Code::Step)),
        }
    }

    /// Checks what a line asks for that is one of a script.
    fn check_step(&self, alloc: Global, line: ScriptLine<'_>) -> Result<(), Refusal<Code>>
        ensures { ChecksLine self.now (Some (view_line line.entry)) result }
    {
        match line {
            ScriptLine::Open { template, json } => self.check_open(alloc, template, json),
            ScriptLine::Pull { .. } => Ok(()),
            ScriptLine::Close { .. } => Ok(()),
            ScriptLine::Publish(_) => Ok(()),
        }
    }

    /// Checks what an `open` opens.
    fn check_open(&self, alloc: Global, template: &str, json: &str) -> Result<(), Refusal<Code>>
        ensures { ChecksLine self.now (Some (Open (chars template.now) (chars json.now))) result }
    {
        match self.read_open(alloc, template, json) {
            Ok(_) => Ok(()),
            Err(refusal) => Err(refusal),
        }
    }

    /// What an `open` opens: the number of its template, and its data.
    fn read_open(
        &self,
        alloc: Global,
        template: &str,
        json: &str,
    ) -> Result<(usize, Value), Refusal<Code>>
        ensures reads { ReadsOpen (play_opening self.now (chars template.now) (chars json.now)) result }
        ensures short { IfOk result (λ o. HasShortLists (view_value o.1)) }
    {
        let Some(number) = entry_number(self.first.as_ref(), template) else {
            return Err(Refusal::Because(Code::Entry));
        };
        match read_data(alloc, json.as_bytes(), self.typed.params(number)) {
            Ok(input) => Ok((number, input)),
            Err(Refusal::Because(fault)) => Err(Refusal::Because(fault.code)),
            Err(Refusal::OutOfMemory) => Err(Refusal::OutOfMemory),
        }
    }

    /// Puts the lines that are shown for those of the script, each as it is made.
    pub(crate) fn put<K: Sink>(&self, alloc: Global, out: &mut K) -> Result<End, PutFault>
        ensures ok { IfOk result (λ end. Took (change K.Sink out.old out.new) (view_play self.now).text) }
        ensures end { IfOk result (λ end. end ≡ End.Whole) }
        ensures err { IfErr result (λ fault. TookPrefix (change K.Sink out.old out.new) (view_play self.now).text) }
        ensures later { K.faults out.old ≤ K.faults out.new }
        ensures failed { IfErr result (λ fault. PutRose fault (K.faults out.old) (K.faults out.new)) }
    {
        match new_desk(alloc, &self.first) {
            Ok(desk) => self.put_lines::<Brand, K>(alloc, out, desk, Blank::new(1)),
            Err(OutOfMemory) => Err(PutFault::OutOfMemory),
        }
    }

    /// Puts what a new desk shows for the lines.
    fn put_lines<L: Ledger, K: Sink>(
        &self,
        alloc: Global,
        out: &mut K,
        desk: Desk,
        blank: Blank,
    ) -> Result<End, PutFault>
        requires name { blank.name ≡ L.name }
        requires parts { blank.parts ≡ L.parts }
        requires some { 0 < blank.parts }
        requires desk { desk ≡ desk_with self.now.first.value }
        ensures ok { IfOk result (λ end. Took (change K.Sink out.old out.new) (view_play self.now).text) }
        ensures end { IfOk result (λ end. end ≡ End.Whole) }
        ensures err { IfErr result (λ fault. TookPrefix (change K.Sink out.old out.new) (view_play self.now).text) }
        ensures later { K.faults out.old ≤ K.faults out.new }
        ensures failed { IfErr result (λ fault. PutRose fault (K.faults out.old) (K.faults out.new)) }
    {
        // Openings are no more than lines, and these no more than bytes.
        let _bytes = bytes_of(self.script);
        let mut desk = desk;
        let mut room = Vec::new(alloc);
        let mut steps = Steps::<L>::new(blank);
        let mut rest = Some(self.script);
        while let Some(text) = rest {
            let (line, more) = first_line(text);
            let Ok(shown) = self.play_line(alloc, &mut desk, &mut room, &mut steps, read_line(line))
            else {
                return Err(PutFault::OutOfMemory);
            };
            if let Err(stop) = put_all(out, shown.as_bytes()) {
                return Err(stop.cause);
            }
            rest = more;
        }
        Ok(End::Whole)
    }

    /// Plays what a line asks for on a desk, and gives the line that is shown for it.
    fn play_line<L: Ledger>(
        &self,
        alloc: Global,
        desk: &mut Desk,
        room: &mut Vec<u8>,
        steps: &mut Steps<L>,
        line: Option<ScriptLine<'_>>,
    ) -> Result<String, OutOfMemory>
        requires { desk.old.opened < u64.MAX }
        ensures { IfOk result (λ text.
            PlaysLine self.now (option_map view_line line.entry) desk.old desk.new (string_bytes text)) }
    {
        match line {
            Some(line) => self.play_step(alloc, desk, room, steps, line),
            None => Ok(String::new(alloc)),
        }
    }

    /// Plays what a line asks for that is one of a script.
    fn play_step<L: Ledger>(
        &self,
        alloc: Global,
        desk: &mut Desk,
        room: &mut Vec<u8>,
        steps: &mut Steps<L>,
        line: ScriptLine<'_>,
    ) -> Result<String, OutOfMemory>
        requires { desk.old.opened < u64.MAX }
        ensures { IfOk result (λ text.
            PlaysLine self.now (Some (view_line line.entry)) desk.old desk.new (string_bytes text)) }
    {
        match line {
            ScriptLine::Open { template, json } => self.open(alloc, desk, template, json),
            ScriptLine::Pull { name, count } => pull(alloc, desk, room, steps, name, count),
            ScriptLine::Close { name } => close(alloc, desk, name),
            ScriptLine::Publish(bundle) => self.publish(alloc, desk, bundle),
        }
    }

    /// Opens a rendering, whose data are read again.
    fn open(
        &self,
        alloc: Global,
        desk: &mut Desk,
        template: &str,
        json: &str,
    ) -> Result<String, OutOfMemory>
        requires { desk.old.opened < u64.MAX }
        ensures { IfOk result (λ text.
            PlaysLine self.now (Some (Open (chars template.now) (chars json.now))) desk.old desk.new
            (string_bytes text)) }
    {
        match self.read_open(alloc, template, json) {
            Ok((number, input)) => match desk.open(input, number) {
                Ok(name) => named_line(alloc, "opened", name),
                Err(Unopened { cause, .. }) => match cause {
                    Refusal::Because(_) => full_line(alloc),
                    Refusal::OutOfMemory => Err(OutOfMemory),
                },
            },
            Err(Refusal::Because(_)) => Ok(String::new(alloc)),
            Err(Refusal::OutOfMemory) => Err(OutOfMemory),
        }
    }

    /// Publishes the program of a bundle.
    fn publish(
        &self,
        alloc: Global,
        desk: &mut Desk,
        bundle: ScriptBundle,
    ) -> Result<String, OutOfMemory>
        ensures { IfOk result (λ text.
            PlaysLine self.now (Some (Publish (view_bundle bundle))) desk.old desk.new (string_bytes text)) }
    {
        let program = self.program(bundle)?;
        desk.publish(program);
        named_line(alloc, "published", bundle_number(bundle))
    }

    /// The program of a bundle, which is shared.
    fn program(&self, bundle: ScriptBundle) -> Result<Rc<Program>, OutOfMemory>
        ensures { IfOk result (λ program.
            program.value ≡ program_of self.now.first.value self.now.second.value (view_bundle bundle)) }
    {
        match bundle {
            ScriptBundle::First => Ok(self.first.clone()?),
            ScriptBundle::Second => Ok(self.second.clone()?),
        }
    }
}

/// The number of a text's bytes, which are no fewer than its characters. No text is so long that it has no successor.
fn bytes_of(text: &str) -> usize
    ensures within { length (chars text.now) ≤ result }
    ensures small { result < u64.MAX }
{
    text.len()
}

/// A refusal of a line, which is that of this number.
fn at_line(number: u64, refusal: Refusal<Code>) -> Refusal<StepFault>
    ensures { AtLine number refusal result }
{
    match refusal {
        Refusal::Because(code) => Refusal::Because(StepFault { line: number, code }),
        Refusal::OutOfMemory => Refusal::OutOfMemory,
    }
}

/// A desk on which a program is published that is shared.
fn new_desk(alloc: Global, program: &Rc<Program>) -> Result<Desk, OutOfMemory>
    ensures { IfOk result (λ desk. desk ≡ desk_with program.now.value) }
{
    Desk::new(alloc, program.clone()?)
}

/// Pulls a rendering of a desk.
fn pull<L: Ledger>(
    alloc: Global,
    desk: &mut Desk,
    room: &mut Vec<u8>,
    steps: &mut Steps<L>,
    name: u64,
    count: u64,
) -> Result<String, OutOfMemory>
    ensures { IfOk result (λ text. (first second : ProgramParts) →
        LineShows first second (Ok (Pulls name count)) desk.old desk.new (string_bytes text)) }
{
    room.resize(count as usize, 0)?;
    match desk.pull(name, room.as_mut_slice(), steps) {
        Ok(n) => {
            room.truncate(n);
            given_line(alloc, name, room.as_slice())
        }
        Err(Refusal::Because(DeskFault::TooDeep(_))) => named_line(alloc, "toodeep", name),
        Err(Refusal::Because(DeskFault::Unknown)) => named_line(alloc, "unknown", name),
        Err(Refusal::OutOfMemory) => Err(OutOfMemory),
    }
}

/// Closes a rendering of a desk.
fn close(alloc: Global, desk: &mut Desk, name: u64) -> Result<String, OutOfMemory>
    ensures { IfOk result (λ text. (first second : ProgramParts) →
        LineShows first second (Ok (Closes name)) desk.old desk.new (string_bytes text)) }
{
    match desk.close(name) {
        Ok(()) => named_line(alloc, "closed", name),
        Err(_) => named_line(alloc, "unknown", name),
    }
}

/// The number of a bundle, which are counted from 1.
fn bundle_number(bundle: ScriptBundle) -> u64
    ensures { result ≡ bundle_number (view_bundle bundle) }
{
    match bundle {
        ScriptBundle::First => 1,
        ScriptBundle::Second => 2,
    }
}

/// The line of a word and a name.
fn named_line(alloc: Global, word: &str, name: u64) -> Result<String, OutOfMemory>
    ensures { IfOk result (λ line. string_bytes line ≡ ended (named_line word.now name)) }
{
    Ok(format!(in alloc; "{word} {name}\n")?)
}

/// The line that 64 renderings are open.
fn full_line(alloc: Global) -> Result<String, OutOfMemory>
    ensures { IfOk result (λ line. string_bytes line ≡ ended full_line) }
{
    Ok(String::from_str(alloc, "full\n")?)
}

/// The line of what a pull gave.
fn given_line(alloc: Global, name: u64, bytes: &[u8]) -> Result<String, OutOfMemory>
    ensures { IfOk result (λ line. string_bytes line ≡ ended (given_line name bytes.now)) }
{
    let digits = hex::encode(alloc, bytes)?;
    Ok(format!(in alloc; "{name} {digits}\n")?)
}
