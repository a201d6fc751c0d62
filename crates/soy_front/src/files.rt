//! All files: each by itself, the demands on their trees together, and their catalogue.

ghost use Rattle.std.specs.Prelude.{◌≡◌, ◌≤◌, ◌<◌, ◌^◌, ◌++◌, [], ◌∷◌, length, IfOk, OnOk};
ghost use Rattle.soy_base.specs.declared.memory.Refusal.TheVariants as refusal;
ghost use Rattle.soy_rules.specs.Demands.{check_fault};
ghost use Rattle.soy_tree.specs.Formed.{AreFormed};
ghost use Rattle.soy_tree.specs.ViewTrees.{view_trees};
ghost use Rattle.soy_front.specs.DetailAnswer.{demand_detail, files_detail, trees_detail};
ghost use Rattle.soy_front.specs.FilesAnswer.{catalogued, demanded, fault_in, files_answer, large_from, trees_answer};
ghost use Rattle.soy_front.specs.FilesAnswer.{trees_from};
ghost use Rattle.soy_front.specs.HasDetail.{HasDetail, IsBare, without_detail};
ghost use Rattle.soy_front.specs.ReadsFiles.{InFile, ReadsFiles, ReadsTrees};
ghost use Rattle.soy_front.specs.ViewSources.{view_contents};
ghost use Rattle.soy_front.specs.declared.fault.Detail.TheVariants as detail;

use crate::fault::{Detail, Detailed};
use crate::source::Source;
use crate::sources::read_source;
use msg_extract::{Catalogue, extract};
use soy_base::{Code, Fault, OutOfMemory, Refusal};
use soy_check::{CheckFault, check};
use soy_rules::Typed;
use soy_tree::Tree;
use std::alloc::Global;

/// The most bytes that a file may have.
const LARGEST_FILE: usize = 1048576;

/// The trees of files, which meet what is demanded of them together, and the catalogue of their messages.
#[derive(Drop)]
pub struct ReadFiles {
    pub typed: Typed,
    pub catalogue: Catalogue,
}

/// The trees of files and their catalogue, or the first fault: that a file is over the limit; of each file by itself,
/// in order; of the demands on all trees; of the messages. Files are counted from 0.
pub fn read_files(alloc: Global, sources: &[Source]) -> Result<ReadFiles, Refusal<Fault>>
    requires { length sources.now ≤ 64 }
    ensures { ReadsFiles (files_answer (view_contents sources.now)) result }
{
    match read_detailed(alloc, sources) {
        Ok(files) => Ok(files),
        Err(Refusal::Because(refusal)) => Err(Refusal::Because(refusal.fault)),
        Err(Refusal::OutOfMemory) => Err(Refusal::OutOfMemory),
    }
}

/// The same, with what goes with the fault.
pub(crate) fn read_detailed(
    alloc: Global,
    sources: &[Source],
) -> Result<ReadFiles, Refusal<Detailed<Fault>>>
    requires { length sources.now ≤ 64 }
    ensures reads { ReadsFiles (files_answer (view_contents sources.now)) (without_detail result) }
    ensures detail { HasDetail (files_detail (view_contents sources.now)) result }
{
    match first_large(sources) {
        Some(fault) => Err(bare(Refusal::Because(fault))),
        None => read_all(alloc, sources),
    }
}

/// The same of files within the limit.
fn read_all(alloc: Global, sources: &[Source]) -> Result<ReadFiles, Refusal<Detailed<Fault>>>
    requires { length sources.now ≤ 64 }
    ensures reads { ReadsFiles (trees_answer (view_contents sources.now)) (without_detail result) }
    ensures detail { HasDetail (trees_detail (trees_from 0 (view_contents sources.now))) result }
{
    match read_trees(alloc, sources) {
        Ok(trees) => check_trees(alloc, trees),
        Err(refusal) => Err(bare(refusal)),
    }
}

/// A refusal with a fault that nothing goes with.
fn bare(refusal: Refusal<Fault>) -> Refusal<Detailed<Fault>>
    ensures { IsBare refusal result }
{
    match refusal {
        Refusal::Because(fault) => Refusal::Because(Detailed {
            fault,
            detail: Detail::None,
        }),
        Refusal::OutOfMemory => Refusal::OutOfMemory,
    }
}

/// The fault of the first file over the limit, if there is one.
fn first_large(sources: &[Source]) -> Option<Fault>
    requires { length sources.now ≤ 64 }
    ensures { result ≡ large_from 0 (view_contents sources.now) }
{
    let mut number = 0u32;
    for source in sources {
        if source.bytes.items().len() > LARGEST_FILE {
            return Some(Fault {
                code: Code::TooLarge,
                file: number,
                at: 0,
            });
        }
        number += 1;
    }
    None
}

/// The trees of files, each by itself, or the first fault.
fn read_trees(alloc: Global, sources: &[Source]) -> Result<Vec<Tree>, Refusal<Fault>>
    requires { length sources.now ≤ 64 }
    ensures { ReadsTrees (trees_from 0 (view_contents sources.now)) result }
{
    let mut trees = Vec::new(alloc);
    let mut file = 0u32;
    for source in sources {
        match read_source(alloc, source.bytes.items()) {
            Ok(tree) => push_tree(&mut trees, tree)?,
            Err(refusal) => return Err(in_file(file, refusal)),
        }
        file += 1;
    }
    Ok(trees)
}

fn push_tree(trees: &mut Vec<Tree>, tree: Tree) -> Result<(), OutOfMemory>
    ensures { OnOk result (trees.new.items ≡ trees.old.items ++ tree ∷ []) }
{
    trees.push(tree)?;
    Ok(())
}

/// A refusal of a file, which is that of this number.
fn in_file(file: u32, refusal: Refusal<Fault>) -> Refusal<Fault>
    ensures { InFile file refusal result }
{
    match refusal {
        Refusal::Because(fault) => Refusal::Because(Fault {
            code: fault.code,
            file,
            at: fault.at,
        }),
        Refusal::OutOfMemory => Refusal::OutOfMemory,
    }
}

/// Trees and their catalogue, or the first fault that they have together.
fn check_trees(alloc: Global, trees: Vec<Tree>) -> Result<ReadFiles, Refusal<Detailed<Fault>>>
    requires formed { AreFormed (view_trees trees.items) }
    requires few { length trees.items < 2 ^ 32 }
    ensures reads { ReadsFiles (demanded trees.items) (without_detail result) }
    ensures detail { HasDetail (demand_detail (check_fault (view_trees trees.items))) result }
{
    match check(alloc, trees) {
        Ok(typed) => catalogue(alloc, typed),
        Err(Refusal::Because(found)) => Err(Refusal::Because(of_demand(found))),
        Err(Refusal::OutOfMemory) => Err(Refusal::OutOfMemory),
    }
}

/// The fault of a demand, with the names or types that differ.
fn of_demand(found: CheckFault) -> Detailed<Fault>
    ensures { result ≡ record { fault = found.fault; detail = detail.Names found.left found.right } }
{
    let CheckFault { fault, left, right } = found;
    Detailed {
        fault,
        detail: Detail::Names(left, right),
    }
}

/// Trees with their catalogue, or the first message whose id is that of another.
fn catalogue(alloc: Global, typed: Typed) -> Result<ReadFiles, Refusal<Detailed<Fault>>>
    ensures reads { ReadsFiles (catalogued typed) (without_detail result) }
    ensures detail { HasDetail detail.None result }
{
    match extract(alloc, typed.trees()) {
        Ok(catalogue) => Ok(ReadFiles { typed, catalogue }),
        Err(clash) => Err(bare(clash)),
    }
}
