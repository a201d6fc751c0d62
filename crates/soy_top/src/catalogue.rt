//! The catalogue of the messages of template files.

ghost use Rattle.std.specs.Prelude.{◌≡◌, ◌≤◌, length, IfOk};
ghost use Rattle.std.specs.String.{string_bytes};
ghost use Rattle.msg_extract.specs.declared.catalogue.Catalogue.{Catalogue};
ghost use Rattle.soy_front.specs.ViewSources.{view_contents};
ghost use Rattle.soy_top.specs.Accepts.{Accepts, AcceptsFiles};
ghost use Rattle.soy_top.specs.Answer.{catalogue_answer, catalogue_text, read_then};
ghost use Rattle.soy_top.specs.Words.{command_words};

use crate::ending::Ending;
use crate::faults::numbered_line;
use crate::output::Output;
use msg_extract::{Catalogue, write_catalogue};
use soy_base::{OutOfMemory, Refusal};
use soy_front::{ReadFiles, Source, read_files};
use std::alloc::Global;

/// The catalogue of files of these names, or the line of their first fault.
pub(crate) fn accept_extract<'a>(
    alloc: Global,
    names: &[String],
    sources: &[Source],
) -> Result<Output<'a>, Ending>
    requires { length sources.now ≤ 64 }
    ensures { Accepts (read_then (command_words names.now) (view_contents sources.now) catalogue_answer) result }
{
    match accept_files(alloc, names, sources) {
        Ok(read) => Ok(Output::Text(catalogue_text(alloc, &read.catalogue)?)),
        Err(ending) => Err(ending),
    }
}

/// The trees and the catalogue of files of these names, or the line of their first fault.
pub(crate) fn accept_files(
    alloc: Global,
    names: &[String],
    sources: &[Source],
) -> Result<ReadFiles, Ending>
    requires { length sources.now ≤ 64 }
    ensures { AcceptsFiles (command_words names.now) (view_contents sources.now) result }
{
    match read_files(alloc, sources) {
        Ok(read) => Ok(read),
        Err(Refusal::Because(fault)) => {
            let line = numbered_line(alloc, names, sources, fault)?;
            Err(Ending::Refused(line))
        }
        Err(Refusal::OutOfMemory) => Err(Ending::Memory),
    }
}

/// A catalogue as JSON, with a line feed.
fn catalogue_text(alloc: Global, catalogue: &Catalogue) -> Result<String, OutOfMemory>
    ensures { IfOk result (λ text. string_bytes text ≡ catalogue_text catalogue.now.messages) }
{
    let mut text = write_catalogue(alloc, catalogue)?;
    text.push('\n')?;
    Ok(text)
}
