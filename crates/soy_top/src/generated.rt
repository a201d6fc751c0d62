//! The workload of a `gen`: its inputs are made, compiled and rendered, and its page is summed up.

ghost use Rattle.std.specs.Prelude.{◌≡◌, ◌≤◌, ℕ, List, [], ◌∷◌, ◌++◌, IfOk, Ok, OnOk, Option, Some, codes};
ghost use Rattle.std.specs.Prelude.{encode_utf8_all, length, map};
ghost use Rattle.soy_front.specs.Compiled.{AreCompiled};
ghost use Rattle.soy_front.specs.FilesAnswer.{files_answer};
ghost use Rattle.soy_front.specs.ReadsFiles.{view_files};
ghost use Rattle.soy_front.specs.ViewSources.{view_contents};
ghost use Rattle.soy_top.specs.Accepts.{Accepts};
ghost use Rattle.soy_top.specs.Answer.{accepted_then, bundled_answer, gen_answer, read_then, render_answer};
ghost use Rattle.soy_top.specs.Answer.{summed_page, workload_answer};
ghost use Rattle.soy_top.specs.Generated.{workload_entry, workload_json, workload_names};
ghost use Rattle.soy_top.specs.Words.{command_words};

use crate::catalogue::accept_files;
use crate::ending::Ending;
use crate::made_bundle::bundle_text;
use crate::output::Output;
use crate::render::{accept_template, compile_read_front};
use crate::summary::page_summary;
use soy_base::{OutOfMemory, Seq, Text};
use soy_front::{Compiled, ReadFiles, Source};
use std::alloc::Global;
use work_gen::{Workload, make};

/// The summary of the workload of a number, or the line of its first fault.
pub(crate) fn accept_gen<'a>(alloc: Global, number: u32) -> Result<Output<'a>, Ending>
    ensures { Accepts (gen_answer number) result }
{
    match make(alloc, number) {
        Ok(workload) => accept_workload(alloc, &workload),
        Err(OutOfMemory) => Err(Ending::Memory),
    }
}

/// The summary of a workload, or the line of its first fault.
fn accept_workload<'a>(alloc: Global, workload: &Workload) -> Result<Output<'a>, Ending>
    requires { length workload.now.sources ≤ 64 }
    ensures { Accepts (workload_answer workload.now) result }
{
    let names = source_names(alloc)?;
    let sources = source_files(alloc, workload.sources.items())?;
    accept_files_of(alloc, workload, names.as_slice(), sources.as_slice())
}

/// The name of the source.
fn source_names(alloc: Global) -> Result<Vec<String>, OutOfMemory>
    ensures { IfOk result (λ names. command_words names.items ≡ workload_names) }
{
    let mut names = Vec::new(alloc);
    names.push(String::from_str(alloc, "gen.soy")?)?;
    Ok(names)
}

/// Texts as files.
fn source_files(alloc: Global, texts: &[Text]) -> Result<Vec<Source>, OutOfMemory>
    ensures { IfOk result (λ sources. view_contents sources.items ≡ map encode_utf8_all texts.now) }
{
    let mut sources = Vec::new(alloc);
    for text in texts {
        push_source(alloc, &mut sources, text)?;
    }
    Ok(sources)
}

/// Adds a text as a file.
fn push_source(alloc: Global, sources: &mut Vec<Source>, text: &Text) -> Result<(), OutOfMemory>
    ensures { OnOk result (view_contents sources.new.items
        ≡ view_contents sources.old.items ++ encode_utf8_all text.now ∷ []) }
{
    let bytes = text.text().as_bytes().to_vec(alloc)?;
    sources.push(Source {
        name: Text::new(String::from_str(alloc, "gen.soy")?),
        bytes: Seq::new(bytes),
    })?;
    Ok(())
}

/// The summary of a workload with its files, or the line of its first fault.
fn accept_files_of<'a>(
    alloc: Global,
    workload: &Workload,
    names: &[String],
    sources: &[Source],
) -> Result<Output<'a>, Ending>
    requires { length sources.now ≤ 64 }
    ensures { Accepts (read_then (command_words names.now) (view_contents sources.now)
        (bundled_answer workload.now (command_words names.now) (view_contents sources.now))) result }
{
    match accept_files(alloc, names, sources) {
        Ok(read) => {
            let bundle = bundle_text(alloc, &read.catalogue)?;
            accept_bundled(alloc, workload, read, bundle.as_bytes(), names, sources)
        }
        Err(ending) => Err(ending),
    }
}

/// The summary of a workload with its files, which are read, and its bundle, or the line of its first fault.
fn accept_bundled<'a>(
    alloc: Global,
    workload: &Workload,
    read: ReadFiles,
    bundle: &[u8],
    names: &[String],
    sources: &[Source],
) -> Result<Output<'a>, Ending>
    requires { files_answer (view_contents sources.now) ≡ Ok (view_files read) }
    ensures { Accepts (accepted_then (command_words names.now) (view_contents sources.now) (codes "gen.bundle")
        (Some bundle.now) (render_answer summed_page (workload_entry workload.now) (codes "gen.json")
        (workload_json workload.now))) result }
{
    match compile_read_front(alloc, names, sources, read, "gen.bundle", Some(bundle)) {
        Ok(compiled) => accept_compiled(alloc, workload, compiled, names, sources),
        Err(ending) => Err(ending),
    }
}

/// The summary of a workload that is compiled, or the line of the first fault of its template and its data.
fn accept_compiled<'a>(
    alloc: Global,
    workload: &Workload,
    compiled: Compiled,
    names: &[String],
    sources: &[Source],
) -> Result<Output<'a>, Ending>
    ensures { (content : Option (List ℕ)) (are : AreCompiled (view_contents sources.now) content compiled) →
        Accepts (render_answer summed_page (workload_entry workload.now) (codes "gen.json")
        (workload_json workload.now) are.of) result }
{
    match accept_template(
        alloc,
        compiled,
        workload.entry.text(),
        "gen.json",
        workload.json.text().as_bytes(),
        names,
        sources,
    ) {
        Ok(page) => Ok(Output::Text(page_summary(alloc, &page)?)),
        Err(ending) => Err(ending),
    }
}
