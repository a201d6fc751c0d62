//! The page of a `preview`: files and a bundle are compiled, a template of kind html is found, and its data are read.

ghost use Rattle.std.specs.Prelude.{◌≡◌, ◌≤◌, IfOk, length, option_map};
ghost use Rattle.std.specs.List.{position};
ghost use Rattle.std.specs.Str.{chars};
ghost use Rattle.soy_front.specs.ViewSources.{view_contents};
ghost use Rattle.soy_top.specs.Accepts.{Accepts};
ghost use Rattle.soy_top.specs.Answer.{accepted_then, inputs_answer, preview_answer, run_text};
ghost use Rattle.soy_top.specs.Asked.{Preview};
ghost use Rattle.soy_top.specs.Shown.{is_shown_kind, is_shown_routine};
ghost use Rattle.soy_top.specs.ShownPage.{AcceptsShown, IsPageText};
ghost use Rattle.soy_top.specs.Runs.ViewOutput.{page_run};
ghost use Rattle.soy_top.specs.Words.{command_words};

use crate::ending::Ending;
use crate::inputs::{bundle_content, content_at};
use crate::output::Output;
use crate::page::Page;
use crate::render::{accept_entry, compile_front};
use crate::seen::show;
use soy_base::{Dir, Kind};
use soy_front::{Compiled, Source};
use std::alloc::Global;
use template_ir::Routine;

/// A page that may be previewed, with the direction of its context.
#[derive(Drop)]
pub(crate) struct ShownPage<'a> {
    pub(crate) page: Page<'a>,
    pub(crate) context: Dir,
}

/// The lines of the page of a `preview`, or the line of the first fault of its files, its bundle, its template and its
/// data, or that the page is too long.
pub(crate) fn accept_preview<'a>(
    alloc: Global,
    template: &str,
    json_name: &str,
    bundle: &str,
    names: &'a [String],
    before: &[Source],
    sources: &'a [Source],
) -> Result<Output<'a>, Ending>
    requires { length sources.now ≤ 64 }
    ensures { Accepts (inputs_answer (Preview template.now json_name.now bundle.now (command_words names.now))
        (view_contents before.now) (view_contents sources.now)) result }
{
    match accept_shown(
        alloc,
        template,
        json_name,
        content_at(before, 0),
        bundle,
        bundle_content(bundle, 1, before),
        names,
        sources,
    ) {
        Ok(shown) => show(alloc, shown.page, shown.context),
        Err(ending) => Err(ending),
    }
}

/// The page of a template that may be previewed, or the line of the first fault of files of these names, of a bundle,
/// of the template and of its data. Its characters, taken as one text, are read without a fault.
fn accept_shown<'a>(
    alloc: Global,
    template: &str,
    json_name: &str,
    json: &[u8],
    bundle: &str,
    content: Option<&[u8]>,
    names: &'a [String],
    sources: &'a [Source],
) -> Result<ShownPage<'a>, Ending>
    requires { length sources.now ≤ 64 }
    ensures accepts { AcceptsShown (λ page. accepted_then (command_words names.now) (view_contents sources.now)
        bundle.now (option_map (λ b. b.now) content.entry) (preview_answer page template.now json_name.now json.now))
        result }
    ensures text { IfOk result (λ shown. IsPageText (run_text (page_run shown.page))) }
    ensures names { IfOk result (λ shown. shown.page.names.now ≡ names.now) }
    ensures sources { IfOk result (λ shown. shown.page.sources.now ≡ sources.now) }
{
    match compile_front(alloc, names, sources, bundle, content) {
        Ok(compiled) => {
            let context = compiled.dir;
            let entry = shown_number(&compiled, template);
            match accept_entry(
                alloc, compiled, entry, template, json_name, json, names, sources,
            ) {
                Ok(page) => Ok(ShownPage { page, context }),
                Err(ending) => Err(ending),
            }
        }
        Err(ending) => Err(ending),
    }
}

/// The number of the template that may be previewed under a full name: a public one of kind html.
fn shown_number(compiled: &Compiled, name: &str) -> Option<usize>
    ensures { result ≡ position (is_shown_routine (chars name.now)) compiled.now.program.templates }
{
    compiled
        .program
        .parts()
        .templates
        .items()
        .iter()
        .position(|routine| is_shown(routine, name))
}

/// Whether a routine may be previewed under a full name.
fn is_shown(routine: &Routine, name: &str) -> bool
    ensures { result ≡ is_shown_routine (chars name.now) routine.now }
{
    routine.name.is(name) && !routine.private && is_shown_kind(routine.kind)
}

fn is_shown_kind(kind: Kind) -> bool
    ensures { result ≡ is_shown_kind kind }
{
    match kind {
        Kind::Html => true,
        Kind::Attributes | Kind::Text => false,
    }
}
