//! Compiles the files of a call.

ghost use Rattle.std.specs.Prelude.{◌≤◌, Some, IfOk, length, option_map, slice_get};
ghost use Rattle.soy_front.specs.DetailAnswer.{front_detail};
ghost use Rattle.soy_front.specs.FrontAnswer.{front_answer};
ghost use Rattle.soy_front.specs.ViewSources.{view_contents};
ghost use Rattle.soy_top.specs.Words.{command_words};
ghost use Rattle.soyc_c.specs.CompileCall.{bundle_at, compile_call_at};
ghost use Rattle.soyc_c.specs.Compiling.{AreTemplates, AreUnder, Compiles, IsTemplates, compile_call_reply};
ghost use Rattle.soyc_c.specs.Compiling.{compile_reply, front_reply, under_reply};
ghost use Rattle.soyc_c.specs.SlotCalls.{HoldsTemplates};
ghost use Rattle.soyc_c.specs.SlotReply.{Answers};
ghost use Rattle.soy_page.specs.WereCompiled.{WereCompiled};

use crate::held::Held;
use crate::parts::{FileParts, names_of, part_of, sources_of, text_of};
use crate::said::{front_fault, too_large};
use crate::unfilled::{IN_BUNDLE, MALFORMED, USAGE, Unfilled, stopped};
use soy_base::{OutOfMemory, Refusal};
use soy_front::{Source, compile};
use soy_page::{Shared, Templates};
use std::alloc::Global;

/// The most files of a call.
const FILE_LIMIT: usize = 64;

/// The most bytes of a bundle or of data.
pub(crate) const DATA_LIMIT: usize = 4_194_304;

/// Templates of files of these names under the bundle of a name, or their first fault.
fn compiled_named(
    alloc: Global,
    names: Vec<String>,
    sources: Vec<Source>,
    bundle: &str,
    content: Option<&[u8]>,
) -> Result<Templates, Unfilled>
    requires { length sources.items ≤ 64 }
    ensures ok { IfOk result (λ t. AreTemplates (command_words names.items) (view_contents sources.items)
        (option_map (λ b. b.now) content.entry) t) }
    ensures answers { Answers (front_reply (command_words names.items) (view_contents sources.items)
        bundle.now (front_detail (view_contents sources.items) (option_map (λ b. b.now) content.entry))
        (front_answer (view_contents sources.items) (option_map (λ b. b.now) content.entry))) result }
{
    match compile(alloc, sources.as_slice(), content) {
        Ok(compiled) => Ok(Templates {
            names,
            sources,
            compiled,
        }),
        Err(Refusal::Because(refusal)) => Err(front_fault(
            alloc,
            names.as_slice(),
            sources.as_slice(),
            bundle,
            refusal,
        )),
        Err(Refusal::OutOfMemory) => Err(Unfilled::Memory),
    }
}

/// The same under a bundle that is a part of the bytes.
fn compiled_under(
    alloc: Global,
    bytes: &[u8],
    bundle: FileParts,
    names: Vec<String>,
    sources: Vec<Source>,
) -> Result<Templates, Unfilled>
    requires { length sources.items ≤ 64 }
    ensures ok { IfOk result (λ t. AreUnder (command_words names.items) (view_contents sources.items)
        (bundle_at bytes.now (Some bundle)) t) }
    ensures answers { Answers (under_reply (command_words names.items) (view_contents sources.items)
        (bundle_at bytes.now (Some bundle))) result }
{
    let Some(name) = text_of(bytes, bundle.name) else {
        return Err(Unfilled::Status(MALFORMED));
    };
    let Some(content) = part_of(bytes, bundle.content) else {
        return Err(Unfilled::Status(MALFORMED));
    };
    if content.len() > DATA_LIMIT {
        return Err(too_large(alloc, name, IN_BUNDLE));
    }
    compiled_named(alloc, names, sources, name, Some(content))
}

/// The same under the first of some bundles, or under none.
fn compiled_files(
    alloc: Global,
    bytes: &[u8],
    bundles: &[FileParts],
    names: Vec<String>,
    sources: Vec<Source>,
) -> Result<Templates, Unfilled>
    requires { length sources.items ≤ 64 }
    ensures ok { IfOk result (λ t. AreUnder (command_words names.items) (view_contents sources.items)
        (bundle_at bytes.now (slice_get bundles.now 0)) t) }
    ensures answers { Answers (under_reply (command_words names.items) (view_contents sources.items)
        (bundle_at bytes.now (slice_get bundles.now 0))) result }
{
    match bundles.first() {
        Some(bundle) => compiled_under(alloc, bytes, *bundle, names, sources),
        None => compiled_named(alloc, names, sources, "", None),
    }
}

/// Templates of the files of a call under its bundle, or why there are none.
fn compiled(
    alloc: Global,
    bytes: &[u8],
    files: &[FileParts],
    bundles: &[FileParts],
) -> Result<Templates, Unfilled>
    ensures ok { IfOk result (λ t. Compiles bytes.now files.now bundles.now t) }
    ensures answers { Answers (compile_reply bytes.now files.now bundles.now) result }
{
    if files.is_empty() || files.len() > FILE_LIMIT || bundles.len() > 1 {
        return Err(Unfilled::Status(USAGE));
    }
    compiled_parts(alloc, bytes, files, bundles)
}

/// The same, where there are no more files and bundles than there may be.
fn compiled_parts(
    alloc: Global,
    bytes: &[u8],
    files: &[FileParts],
    bundles: &[FileParts],
) -> Result<Templates, Unfilled>
    requires { length files.now ≤ 64 }
    ensures ok { IfOk result (λ t. Compiles bytes.now files.now bundles.now t) }
    ensures answers { Answers (compile_call_reply (compile_call_at bytes.now files.now bundles.now)) result }
{
    let names = match names_of(alloc, bytes, files) {
        Ok(names) => names,
        Err(stop) => return Err(stopped(stop)),
    };
    let sources = match sources_of(alloc, bytes, files) {
        Ok(sources) => sources,
        Err(stop) => return Err(stopped(stop)),
    };
    compiled_files(alloc, bytes, bundles, names, sources)
}

/// The same in a box, to be shared.
pub(crate) fn compiled_box(
    alloc: Global,
    bytes: &[u8],
    files: &[FileParts],
    bundles: &[FileParts],
) -> Result<Box<Held>, Unfilled>
    ensures ok { IfOk result (λ b. HoldsTemplates bytes.now files.now bundles.now b.value) }
    ensures answers { Answers (compile_reply bytes.now files.now bundles.now) result }
{
    match compiled(alloc, bytes, files, bundles) {
        Ok(templates) => match held_templates(alloc, templates) {
            Ok(held) => Ok(held),
            Err(_) => Err(Unfilled::Memory),
        },
        Err(unfilled) => Err(unfilled),
    }
}

/// Templates in a box, to be shared.
fn held_templates(alloc: Global, templates: Templates) -> Result<Box<Held>, OutOfMemory>
    requires { WereCompiled templates }
    ensures { IfOk result (λ b. IsTemplates templates b.value) }
{
    let shared = Shared::new(alloc, templates)?;
    Ok(Box::new(alloc, Held::Templates(shared))?)
}
