//! Pages: files and a bundle are compiled, the template is found, and its data are read.

ghost use Rattle.std.specs.Prelude.{◌≡◌, ◌≤◌, ℕ, List, Ok, Option, Some, IfOk, IfSome, length, option_map, slice_get};
ghost use Rattle.soy_front.specs.Compiled.{AreCompiled, CompilesFiles};
ghost use Rattle.soy_front.specs.FilesAnswer.{files_answer};
ghost use Rattle.soy_front.specs.HasDetail.{without_detail};
ghost use Rattle.soy_front.specs.ReadsFiles.{view_files};
ghost use Rattle.soy_front.specs.ViewSources.{view_contents};
ghost use Rattle.soy_top.specs.Accepts.{Accepts, AcceptsPage, CompilesFront, IsNumbered};
ghost use Rattle.soy_top.specs.Answer.{accepted_then, data_answer, entry_answer, inputs_answer, render_answer};
ghost use Rattle.soy_top.specs.Answer.{run_text};
ghost use Rattle.soy_top.specs.Asked.{Render};
ghost use Rattle.soy_top.specs.Shown.{IsHtml};
ghost use Rattle.soy_top.specs.ShownPage.{IsPageText};
ghost use Rattle.soy_top.specs.Runs.ViewOutput.{page_run};
ghost use Rattle.soy_top.specs.Words.{command_words};
ghost use Rattle.soy_rules.specs.Templates.{Declared, declared};
ghost use Rattle.soy_tree.specs.ViewTrees.{view_trees};
ghost use Rattle.soy_types.specs.ReadData.{data_at};

use crate::ending::Ending;
use crate::faults::front_line;
use crate::inputs::{bundle_content, content_at};
use crate::line::{entry_line, pointer_line};
use crate::output::Output;
use crate::page::Page;
use soy_base::Refusal;
use soy_front::{Compiled, FrontRefusal, ReadFiles, Source, compile, compile_read};
use soy_types::read_data;
use std::alloc::Global;

/// The page of a `render`, or the line of the first fault of its files, its bundle, its template and its data.
pub(crate) fn accept_render<'a>(
    alloc: Global,
    template: &str,
    json_name: &str,
    bundle: &str,
    names: &'a [String],
    before: &[Source],
    sources: &'a [Source],
) -> Result<Output<'a>, Ending>
    requires { length sources.now ≤ 64 }
    ensures { Accepts (inputs_answer (Render template.now json_name.now bundle.now (command_words names.now))
        (view_contents before.now) (view_contents sources.now)) result }
{
    match accept_page(
        alloc,
        template,
        json_name,
        content_at(before, 0),
        bundle,
        bundle_content(bundle, 1, before),
        names,
        sources,
    ) {
        Ok(page) => Ok(Output::Page(page)),
        Err(ending) => Err(ending),
    }
}

/// The page of a template, or the line of the first fault of files of these names, of a bundle, of the template and of
/// its data.
pub(crate) fn accept_page<'a>(
    alloc: Global,
    template: &str,
    json_name: &str,
    json: &[u8],
    bundle: &str,
    content: Option<&[u8]>,
    names: &'a [String],
    sources: &'a [Source],
) -> Result<Page<'a>, Ending>
    requires { length sources.now ≤ 64 }
    ensures accepts { AcceptsPage (λ page. accepted_then (command_words names.now) (view_contents sources.now)
        bundle.now (option_map (λ b. b.now) content.entry) (render_answer page template.now json_name.now json.now))
        result }
    ensures names { IfOk result (λ page. page.names.now ≡ names.now) }
    ensures sources { IfOk result (λ page. page.sources.now ≡ sources.now) }
{
    match compile_front(alloc, names, sources, bundle, content) {
        Ok(compiled) => accept_template(alloc, compiled, template, json_name, json, names, sources),
        Err(ending) => Err(ending),
    }
}

/// The page of a template of a program, or the line of the first fault of the template and of its data.
pub(crate) fn accept_template<'a>(
    alloc: Global,
    compiled: Compiled,
    template: &str,
    json_name: &str,
    json: &[u8],
    names: &'a [String],
    sources: &'a [Source],
) -> Result<Page<'a>, Ending>
    ensures accepts { (content : Option (List ℕ)) (are : AreCompiled (view_contents sources.now) content compiled) →
        AcceptsPage (λ page. render_answer page template.now json_name.now json.now are.of) result }
    ensures names { IfOk result (λ page. page.names.now ≡ names.now) }
    ensures sources { IfOk result (λ page. page.sources.now ≡ sources.now) }
{
    let entry = compiled.entry(template);
    accept_entry(
        alloc, compiled, entry, template, json_name, json, names, sources,
    )
}

/// The program of files of these names and a bundle, or the line of their first fault.
pub(crate) fn compile_front(
    alloc: Global,
    names: &[String],
    sources: &[Source],
    bundle: &str,
    content: Option<&[u8]>,
) -> Result<Compiled, Ending>
    requires { length sources.now ≤ 64 }
    ensures { CompilesFront (command_words names.now) (view_contents sources.now) bundle.now
        (option_map (λ b. b.now) content.entry) result }
{
    let compiled = compile(alloc, sources, content);
    unless_refused(alloc, names, sources, bundle, compiled)
}

/// The same of files that are read.
pub(crate) fn compile_read_front(
    alloc: Global,
    names: &[String],
    sources: &[Source],
    read: ReadFiles,
    bundle: &str,
    content: Option<&[u8]>,
) -> Result<Compiled, Ending>
    requires { files_answer (view_contents sources.now) ≡ Ok (view_files read) }
    ensures { CompilesFront (command_words names.now) (view_contents sources.now) bundle.now
        (option_map (λ b. b.now) content.entry) result }
{
    let compiled = compile_read(alloc, read, content);
    unless_refused(alloc, names, sources, bundle, compiled)
}

/// A program, or the line of the first fault of files of these names and a bundle.
fn unless_refused(
    alloc: Global,
    names: &[String],
    sources: &[Source],
    bundle: &str,
    compiled: Result<Compiled, Refusal<FrontRefusal>>,
) -> Result<Compiled, Ending>
    ensures { (content : Option (List ℕ)) →
        CompilesFiles (view_contents sources.now) content (without_detail compiled) →
        CompilesFront (command_words names.now) (view_contents sources.now) bundle.now content result }
{
    match compiled {
        Ok(compiled) => Ok(compiled),
        Err(Refusal::Because(refusal)) => {
            let line = front_line(alloc, names, sources, bundle, refusal.fault)?;
            Err(Ending::Refused(line))
        }
        Err(Refusal::OutOfMemory) => Err(Ending::Memory),
    }
}

/// The page of the template of a number, or the line of the fault of its data; or the line that there is no such
/// template, where there is no number. The characters of an html page, taken as one text, are read without a fault.
pub(crate) fn accept_entry<'a>(
    alloc: Global,
    compiled: Compiled,
    entry: Option<usize>,
    template: &str,
    json_name: &str,
    json: &[u8],
    names: &'a [String],
    sources: &'a [Source],
) -> Result<Page<'a>, Ending>
    ensures accepts { (content : Option (List ℕ)) (are : AreCompiled (view_contents sources.now) content compiled)
        (d : Option Declared) → IsNumbered (declared (view_trees compiled.typed)) entry d →
        AcceptsPage (λ page. entry_answer page template.now json_name.now json.now are.of d) result }
    ensures text { (content : Option (List ℕ)) (are : AreCompiled (view_contents sources.now) content compiled)
        (d : Option Declared) → IsNumbered (declared (view_trees compiled.typed)) entry d → IfSome d IsHtml →
        IfOk result (λ page. IsPageText (run_text (page_run page))) }
    ensures names { IfOk result (λ page. page.names.now ≡ names.now) }
    ensures sources { IfOk result (λ page. page.sources.now ≡ sources.now) }
{
    match entry {
        Some(number) => accept_data(alloc, compiled, number, json_name, json, names, sources),
        None => {
            let line = entry_line(alloc, template)?;
            Err(Ending::Refused(line))
        }
    }
}

/// The page of the template of a number, or the line of the fault of its data. The characters of an html page, taken as
/// one text, are read without a fault.
fn accept_data<'a>(
    alloc: Global,
    compiled: Compiled,
    number: usize,
    json_name: &str,
    json: &[u8],
    names: &'a [String],
    sources: &'a [Source],
) -> Result<Page<'a>, Ending>
    ensures accepts { (content : Option (List ℕ)) (are : AreCompiled (view_contents sources.now) content compiled)
        (d : Declared) → slice_get (declared (view_trees compiled.typed)) number ≡ Some d →
        AcceptsPage (λ page. data_answer page json_name.now are.of d (data_at d.template.params json.now)) result }
    ensures text { (content : Option (List ℕ)) (are : AreCompiled (view_contents sources.now) content compiled)
        (d : Declared) → slice_get (declared (view_trees compiled.typed)) number ≡ Some d → IsHtml d →
        IfOk result (λ page. IsPageText (run_text (page_run page))) }
    ensures names { IfOk result (λ page. page.names.now ≡ names.now) }
    ensures sources { IfOk result (λ page. page.sources.now ≡ sources.now) }
{
    match read_data(alloc, json, compiled.typed.params(number)) {
        Ok(input) => {
            let Compiled { program, .. } = compiled;
            Ok(Page {
                program,
                template: number,
                input,
                names,
                sources,
            })
        }
        Err(Refusal::Because(fault)) => {
            let line = pointer_line(alloc, json_name, fault.path.items(), fault.code)?;
            Err(Ending::Refused(line))
        }
        Err(Refusal::OutOfMemory) => Err(Ending::Memory),
    }
}
