//! A bundle beside files, and the walk over these under it.

ghost use Rattle.std.specs.Prelude.{◌≡◌, ◌≤◌, ℕ, List, Ok, Some, length, option_map};
ghost use Rattle.msg_bundle.specs.ReadsBundle.{ReadsBundle};
ghost use Rattle.msg_extract.specs.declared.catalogue.Listed.{Listed};
ghost use Rattle.soy_front.specs.Accepted.{Accepted};
ghost use Rattle.soy_front.specs.Accepts.{Accepts, AcceptsLanguage, Decides, ReadsLanguage};
ghost use Rattle.soy_front.specs.DetailAnswer.{both_placings, front_detail, language_detail};
ghost use Rattle.soy_front.specs.FilesAnswer.{files_answer};
ghost use Rattle.soy_front.specs.FrontAnswer.{language_or_fault};
ghost use Rattle.soy_front.specs.HasDetail.{HasDetail, IsOfFiles, without_detail};
ghost use Rattle.soy_front.specs.ReadsFiles.{view_files};
ghost use Rattle.soy_front.specs.ViewSources.{view_contents};
ghost use Rattle.soy_front.specs.declared.fault.Detail.TheVariants as detail;
ghost use Rattle.soy_front.specs.declared.fault.FrontFault.TheVariants as front;

use crate::fault::{Detail, Detailed, FrontFault, FrontRefusal};
use crate::files::{ReadFiles, read_detailed};
use crate::source::Source;
use html_context::{PlaceFault, infer};
use msg_bundle::{BundleFault, read_bundle};
use msg_extract::Catalogue;
use soy_base::{Fault, Places, Placing, Refusal};
use soy_tree::Bundle;
use std::alloc::Global;

/// A bundle, and the places of the holes of trees under it.
#[derive(Drop)]
pub struct Language {
    pub bundle: Bundle,
    pub places: Places,
}

/// Files that are accepted under a language.
#[derive(Drop)]
pub struct AcceptedFiles {
    pub files: ReadFiles,
    pub language: Language,
}

/// Accepts files and a bundle, or answers their first fault and what goes with it; without a bundle the language is
/// that of the source.
pub fn accept(
    alloc: Global,
    sources: &[Source],
    bundle: Option<&[u8]>,
) -> Result<AcceptedFiles, Refusal<FrontRefusal>>
    requires { length sources.now ≤ 64 }
    ensures accepts { Accepts (view_contents sources.now) (option_map (λ b. b.now) bundle.entry)
        (without_detail result) }
    ensures decides { Decides (Accepted (view_contents sources.now) (option_map (λ b. b.now) bundle.entry))
        (without_detail result) }
    ensures detail { HasDetail (front_detail (view_contents sources.now) (option_map (λ b. b.now) bundle.entry))
        result }
{
    match read_detailed(alloc, sources) {
        Ok(files) => accept_read(alloc, files, bundle),
        Err(refusal) => Err(of_files(refusal)),
    }
}

/// Accepts files that are read, as `accept` does.
pub(crate) fn accept_read(
    alloc: Global,
    files: ReadFiles,
    bundle: Option<&[u8]>,
) -> Result<AcceptedFiles, Refusal<FrontRefusal>>
    ensures accepts { (contents : List (List ℕ)) → files_answer contents ≡ Ok (view_files files) →
        Accepts contents (option_map (λ b. b.now) bundle.entry) (without_detail result) }
    ensures detail { (contents : List (List ℕ)) → files_answer contents ≡ Ok (view_files files) →
        HasDetail (front_detail contents (option_map (λ b. b.now) bundle.entry)) result }
{
    let language = accept_language(alloc, &files, bundle)?;
    Ok(AcceptedFiles { files, language })
}

/// A refusal of files.
pub(crate) fn of_files(refusal: Refusal<Detailed<Fault>>) -> Refusal<FrontRefusal>
    ensures { IsOfFiles refusal result }
{
    match refusal {
        Refusal::Because(found) => Refusal::Because(Detailed {
            fault: FrontFault::Soy(found.fault),
            detail: found.detail,
        }),
        Refusal::OutOfMemory => Refusal::OutOfMemory,
    }
}

/// Accepts a bundle beside files, or answers its first fault, or that of the walk over the trees under it, and what
/// goes with it; without a bundle the language is that of the source.
pub fn accept_language(
    alloc: Global,
    files: &ReadFiles,
    bundle: Option<&[u8]>,
) -> Result<Language, Refusal<FrontRefusal>>
    ensures accepts { AcceptsLanguage files.now.typed files.now.catalogue.messages
        (option_map (λ b. b.now) bundle.entry) (without_detail result) }
    ensures detail { HasDetail (language_detail files.now.typed files.now.catalogue.messages
        (option_map (λ b. b.now) bundle.entry)
        (language_or_fault (option_map (λ b. b.now) bundle.entry) files.now.catalogue.messages)) result }
{
    let bundle = read_language(alloc, &files.catalogue, bundle)?;
    match infer(alloc, &files.typed, &bundle) {
        Ok(places) => Ok(Language { bundle, places }),
        Err(Refusal::Because(found)) => Err(Refusal::Because(of_walk(found))),
        Err(Refusal::OutOfMemory) => Err(Refusal::OutOfMemory),
    }
}

/// The fault of a walk, with its placings.
fn of_walk(found: PlaceFault) -> FrontRefusal
    ensures { result ≡ record { fault = front.Soy found.fault; detail = both_placings found.first found.second } }
{
    Detailed {
        fault: FrontFault::Soy(found.fault),
        detail: both_placings(found.first, found.second),
    }
}

/// Two placings, or nothing.
fn both_placings(first: Option<Placing>, second: Option<Placing>) -> Detail
    ensures { result ≡ both_placings first second }
{
    match (first, second) {
        (Some(first), Some(second)) => Detail::Placings(first, second),
        _ => Detail::None,
    }
}

/// The language that a bundle brings for the messages of a catalogue, or its first fault.
fn read_language(
    alloc: Global,
    catalogue: &Catalogue,
    bundle: Option<&[u8]>,
) -> Result<Bundle, Refusal<FrontRefusal>>
    ensures reads { ReadsLanguage (option_map (λ b. b.now) bundle.entry) catalogue.now.messages
        (without_detail result) }
    ensures detail { HasDetail detail.None result }
{
    match bundle {
        Some(bytes) => of_bundle(read_bundle(alloc, bytes, catalogue)),
        None => Ok(Bundle::source(alloc)),
    }
}

/// A bundle that was read, or its refusal.
fn of_bundle(read: Result<Bundle, Refusal<BundleFault>>) -> Result<Bundle, Refusal<FrontRefusal>>
    ensures reads { (bytes : List ℕ) (rows : List Listed) → ReadsBundle bytes rows read
        → ReadsLanguage (Some bytes) rows (without_detail result) }
    ensures detail { HasDetail detail.None result }
{
    match read {
        Ok(bundle) => Ok(bundle),
        Err(Refusal::Because(fault)) => Err(Refusal::Because(Detailed {
            fault: FrontFault::Bundle(fault),
            detail: Detail::None,
        })),
        Err(Refusal::OutOfMemory) => Err(Refusal::OutOfMemory),
    }
}
