//! Paths, which are made from their end.

ghost use Rattle.std.specs.Prelude.{◌≡◌, [], Result, IfOk};
ghost use Rattle.std.specs.Str.{chars};
ghost use Rattle.soy_base.specs.declared.path.PathStep.TheVariants as path_step;
ghost use Rattle.soy_base.specs.declared.memory.Refusal.TheVariants as refusal;
ghost use Rattle.soy_rules.specs.ShortLists.{HasShortLists};
ghost use Rattle.soy_tree.specs.Values as values;
ghost use Rattle.soy_tree.specs.ViewValues.{view_entry, view_value};
ghost use Rattle.soy_types.specs.Paths.{below};
ghost use Rattle.soy_base.specs.Path.{Path};
ghost use Rattle.soy_types.specs.Read.{under_key};
ghost use Rattle.soy_types.specs.Reads.{Reads, ReadsShort, StepsInto};

use soy_base::{OutOfMemory, PathStep, Refusal, Row, Seq, Stack, text_of};
use soy_tree::{Entry, Value};
use std::alloc::Global;

/// A path, the step from outside on top.
pub(crate) type Path = Stack<PathStep>;

/// Nothing fits here.
pub(crate) fn unfit(alloc: Global) -> Refusal<Path>
    ensures { result ≡ refusal.Because [] }
{
    Refusal::Because(Stack::empty(alloc))
}

/// A refusal with one more step before its path.
fn stepped(step: PathStep, refusal: Refusal<Path>) -> Refusal<Path>
    ensures { StepsInto step refusal result }
{
    match refusal {
        Refusal::Because(path) => {
            let mut path = path;
            match path.push(step) {
                Ok(()) => Refusal::Because(path),
                Err(_) => Refusal::OutOfMemory,
            }
        }
        Refusal::OutOfMemory => Refusal::OutOfMemory,
    }
}

/// What is read at an item.
pub(crate) fn at_index(
    index: u64,
    read: Result<Value, Refusal<Path>>,
) -> Result<Value, Refusal<Path>>
    ensures value { (is : Result values.Value Path) → Reads view_value is read
        → Reads view_value (below (path_step.Index index) is) result }
    ensures short { ReadsShort read → ReadsShort result }
{
    match read {
        Ok(value) => Ok(value),
        Err(refusal) => Err(stepped(PathStep::Index(index), refusal)),
    }
}

/// What is read under a key.
pub(crate) fn at_key(
    alloc: Global,
    key: &str,
    read: Result<Value, Refusal<Path>>,
) -> Result<Entry, Refusal<Path>>
    ensures value { (is : Result values.Value Path) → Reads view_value is read
        → Reads view_entry (under_key (chars key.now) is) result }
    ensures short { ReadsShort read → IfOk result (λ e. HasShortLists (view_entry e).1) }
{
    let name = text_of(alloc, key)?;
    match read {
        Ok(value) => Ok(Entry { name, value }),
        Err(refusal) => Err(stepped(PathStep::Key(name), refusal)),
    }
}

/// The steps of a path, in order.
pub(crate) fn steps_of(alloc: Global, path: Path) -> Result<Seq<PathStep>, OutOfMemory>
    ensures { IfOk result (λ steps. steps ≡ path) }
{
    let mut left = path;
    let mut steps = Row::empty(alloc);
    while let Some(step) = left.pop() {
        steps.push(step)?;
    }
    Ok(steps.done())
}
