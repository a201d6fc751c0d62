//! Files and a bundle as one program.

ghost use Rattle.std.specs.Prelude.{◌≡◌, ◌≤◌, ℕ, List, Ok, length, option_map};
ghost use Rattle.std.specs.List.{position};
ghost use Rattle.std.specs.Str.{chars};
ghost use Rattle.soy_front.specs.Accepted.{Accepted};
ghost use Rattle.soy_front.specs.Accepts.{Decides};
ghost use Rattle.soy_front.specs.Compiled.{CompilesFiles};
ghost use Rattle.soy_front.specs.DetailAnswer.{front_detail};
ghost use Rattle.soy_front.specs.Entries.{is_entry_kind, is_entry_routine};
ghost use Rattle.soy_front.specs.FilesAnswer.{files_answer};
ghost use Rattle.soy_front.specs.HasDetail.{HasDetail, without_detail};
ghost use Rattle.soy_front.specs.ReadsFiles.{view_files};
ghost use Rattle.soy_front.specs.ViewSources.{view_contents};

use crate::accepting::{AcceptedFiles, accept_read, of_files};
use crate::fault::FrontRefusal;
use crate::files::{ReadFiles, read_detailed};
use crate::source::Source;
use ir_build::build;
use msg_extract::Catalogue;
use soy_base::{Dir, Kind, Refusal};
use soy_rules::Typed;
use std::alloc::Global;
use template_ir::{Program, Routine};

/// Files that are accepted, as one program: their trees, their catalogue, the program and the context's direction.
#[derive(Drop)]
pub struct Compiled {
    pub typed: Typed,
    pub catalogue: Catalogue,
    pub program: Program,
    pub dir: Dir,
}

/// Compiles files under a bundle, or answers their first fault and what goes with it; without a bundle the language is
/// that of the source.
pub fn compile(
    alloc: Global,
    sources: &[Source],
    bundle: Option<&[u8]>,
) -> Result<Compiled, Refusal<FrontRefusal>>
    requires { length sources.now ≤ 64 }
    ensures compiles { CompilesFiles (view_contents sources.now) (option_map (λ b. b.now) bundle.entry)
        (without_detail result) }
    ensures decides { Decides (Accepted (view_contents sources.now) (option_map (λ b. b.now) bundle.entry))
        (without_detail result) }
    ensures detail { HasDetail (front_detail (view_contents sources.now) (option_map (λ b. b.now) bundle.entry))
        result }
{
    match read_detailed(alloc, sources) {
        Ok(files) => compile_read(alloc, files, bundle),
        Err(refusal) => Err(of_files(refusal)),
    }
}

/// Compiles files that are read, as `compile` does: of files whose catalogue was wanted first, none is read again.
pub fn compile_read(
    alloc: Global,
    files: ReadFiles,
    bundle: Option<&[u8]>,
) -> Result<Compiled, Refusal<FrontRefusal>>
    requires { (contents : List (List ℕ)) × (files_answer contents ≡ Ok (view_files files)) }
    ensures compiles { (contents : List (List ℕ)) → files_answer contents ≡ Ok (view_files files) →
        CompilesFiles contents (option_map (λ b. b.now) bundle.entry) (without_detail result) }
    ensures decides { (contents : List (List ℕ)) → files_answer contents ≡ Ok (view_files files) →
        Decides (Accepted contents (option_map (λ b. b.now) bundle.entry)) (without_detail result) }
    ensures detail { (contents : List (List ℕ)) → files_answer contents ≡ Ok (view_files files) →
        HasDetail (front_detail contents (option_map (λ b. b.now) bundle.entry)) result }
{
    let accepted = match accept_read(alloc, files, bundle) {
        Ok(accepted) => accepted,
        Err(refusal) => return Err(refusal),
    };
    let program = build(
        alloc,
        &accepted.files.typed,
        &accepted.language.places,
        &accepted.language.bundle,
    )?;
    Ok(with_program(accepted, program))
}

/// Files that are accepted, with their program.
fn with_program(accepted: AcceptedFiles, program: Program) -> Compiled
    ensures { result ≡ record {
      typed = accepted.files.typed;
      catalogue = accepted.files.catalogue;
      program = program;
      dir = accepted.language.bundle.dir;
    } }
{
    let AcceptedFiles { files, language } = accepted;
    let ReadFiles { typed, catalogue } = files;
    Compiled {
        typed,
        catalogue,
        program,
        dir: language.bundle.dir,
    }
}

impl Compiled {
    /// The number of the template that may be rendered under a full name: a public one of kind html or text.
    pub fn entry(&self, name: &str) -> Option<usize>
        ensures { result ≡ position (is_entry_routine (chars name.now)) self.now.program.templates }
    {
        entry_number(&self.program, name)
    }
}

/// The number of the template of a program that may be rendered under a full name: a public one of kind html or text.
pub fn entry_number(program: &Program, name: &str) -> Option<usize>
    ensures { result ≡ position (is_entry_routine (chars name.now)) program.now.templates }
{
    program
        .parts()
        .templates
        .items()
        .iter()
        .position(|routine| is_entry(routine, name))
}

/// Whether a routine may be rendered under a full name.
fn is_entry(routine: &Routine, name: &str) -> bool
    ensures { result ≡ is_entry_routine (chars name.now) routine.now }
{
    routine.name.is(name) && !routine.private && is_entry_kind(routine.kind)
}

fn is_entry_kind(kind: Kind) -> bool
    ensures { result ≡ is_entry_kind kind }
{
    match kind {
        Kind::Html | Kind::Text => true,
        Kind::Attributes => false,
    }
}
