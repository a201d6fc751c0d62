//! Accepts what was fetched, or refuses it.

ghost use Rattle.std.specs.Prelude.{◌≡◌, ◌≤◌, IfOk, length, option_map};
ghost use Rattle.std.specs.String.{string_bytes};
ghost use Rattle.soy_front.specs.ViewSources.{view_contents};
ghost use Rattle.soy_top.specs.Accepts.{Accepts, AcceptsFront};
ghost use Rattle.soy_top.specs.Answer.{Done, accepted_text, accepted_then, contents_answer};
ghost use Rattle.soy_top.specs.Answer.{inputs_answer};
ghost use Rattle.soy_top.specs.Asked.{source_files};
ghost use Rattle.soy_top.specs.View.{view_command};
ghost use Rattle.soy_top.specs.Words.{command_words};

use crate::catalogue::accept_extract;
use crate::command::Command;
use crate::ending::Ending;
use crate::faults::front_line;
use crate::formatted::accept_format;
use crate::generated::accept_gen;
use crate::inputs::{bundle_content, but_last, content_at, last, source_names};
use crate::output::Output;
use crate::played::accept_play;
use crate::preview::accept_preview;
use crate::render::accept_render;
use soy_base::{OutOfMemory, Refusal};
use soy_front::{AcceptedFiles, Source, accept as accept_sources};
use std::alloc::Global;

/// What is to be written for a command with the contents of the files that it wants.
pub(crate) fn accept<'a>(
    alloc: Global,
    command: Command<'a>,
    contents: &'a [Source],
) -> Result<Output<'a>, Ending>
    requires { length (source_files (view_command command)) ≤ 64 }
    ensures { Accepts (contents_answer (view_command command.entry) (view_contents contents.now)) result }
{
    let count = source_names(command).len();
    accept_inputs(
        alloc,
        command,
        but_last(contents, count),
        last(contents, count),
    )
}

/// What is to be written for a command with its template files and the contents before them.
fn accept_inputs<'a>(
    alloc: Global,
    command: Command<'a>,
    before: &'a [Source],
    sources: &'a [Source],
) -> Result<Output<'a>, Ending>
    requires { length sources.now ≤ 64 }
    ensures { Accepts (inputs_answer (view_command command.entry) (view_contents before.now)
        (view_contents sources.now)) result }
{
    match command {
        Command::Render {
            template,
            data_file,
            bundle,
            files,
        } => accept_render(alloc, template, data_file, bundle, files, before, sources),
        Command::Check { bundle, files } => {
            accept_check(
                alloc,
                files,
                sources,
                bundle,
                bundle_content(bundle, 0, before),
            )
        }
        Command::Extract { files } => accept_extract(alloc, files, sources),
        Command::Gen { number } => accept_gen(alloc, number),
        Command::Play {
            script,
            first,
            second,
            files,
        } => accept_play(alloc, script, first, second, files, before, sources),
        Command::Preview {
            template,
            data_file,
            bundle,
            files,
        } => accept_preview(alloc, template, data_file, bundle, files, before, sources),
        Command::Format { file } => accept_format(alloc, file, content_at(before, 0)),
    }
}

/// Files of these names and a bundle, or the line of their first fault.
fn accept_front(
    alloc: Global,
    names: &[String],
    sources: &[Source],
    bundle: &str,
    content: Option<&[u8]>,
) -> Result<AcceptedFiles, Ending>
    requires { length sources.now ≤ 64 }
    ensures { AcceptsFront (command_words names.now) (view_contents sources.now) bundle.now
        (option_map (λ b. b.now) content.entry) result }
{
    match accept_sources(alloc, sources, content) {
        Ok(accepted) => Ok(accepted),
        Err(Refusal::Because(refusal)) => {
            let line = front_line(alloc, names, sources, bundle, refusal.fault)?;
            Err(Ending::Refused(line))
        }
        Err(Refusal::OutOfMemory) => Err(Ending::Memory),
    }
}

/// That files of these names and a bundle are accepted, or the line of their first fault.
fn accept_check<'a>(
    alloc: Global,
    names: &[String],
    sources: &[Source],
    bundle: &str,
    content: Option<&[u8]>,
) -> Result<Output<'a>, Ending>
    requires { length sources.now ≤ 64 }
    ensures { Accepts (accepted_then (command_words names.now) (view_contents sources.now) bundle.now
        (option_map (λ b. b.now) content.entry) (λ of. Done accepted_text)) result }
{
    match accept_front(alloc, names, sources, bundle, content) {
        Ok(_) => Ok(Output::Text(accepted_text(alloc)?)),
        Err(ending) => Err(ending),
    }
}

/// What is said of files that are accepted.
fn accepted_text(alloc: Global) -> Result<String, OutOfMemory>
    ensures { IfOk result (λ text. string_bytes text ≡ accepted_text) }
{
    Ok(String::from_str(alloc, "ok\n")?)
}
