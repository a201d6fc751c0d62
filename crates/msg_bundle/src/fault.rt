//! What a bundle is refused with.

ghost use Rattle.std.specs.Prelude.{◌≡◌, IfOk};
ghost use Rattle.msg_bundle.specs.BundleFault.{IsBecauseOf, entry_path, fault_at, member_path};

use soy_base::{Code, OutOfMemory, PathStep, Refusal, Row, Seq, text_of};
use std::alloc::Global;

/// Why a bundle is refused, and the path to the part of its JSON that it speaks of, which is empty for the whole.
#[derive(Drop)]
pub struct BundleFault {
    pub code: Code,
    pub path: Seq<PathStep>,
}

/// The path to a part of a bundle.
pub(crate) type Path = Seq<PathStep>;

/// The path to a member of the bundle.
pub(crate) fn member_path(alloc: Global, name: &str) -> Result<Path, OutOfMemory>
    ensures { IfOk result (λ path. path ≡ member_path name.now) }
{
    let mut path = Row::empty(alloc);
    path.push(PathStep::Key(text_of(alloc, name)?))?;
    Ok(path.done())
}

/// The path to an entry of a member.
pub(crate) fn entry_path(alloc: Global, name: &str, key: &str) -> Result<Path, OutOfMemory>
    ensures { IfOk result (λ path. path ≡ entry_path name.now key.now) }
{
    let mut path = Row::empty(alloc);
    path.push(PathStep::Key(text_of(alloc, name)?))?;
    path.push(PathStep::Key(text_of(alloc, key)?))?;
    Ok(path.done())
}

/// The refusal of an entry of a member.
pub(crate) fn entry_fault(alloc: Global, code: Code, name: &str, key: &str) -> Refusal<BundleFault>
    ensures { IsBecauseOf (fault_at code (entry_path name.now key.now)) result }
{
    match entry_path(alloc, name, key) {
        Ok(path) => Refusal::Because(BundleFault { code, path }),
        Err(_) => Refusal::OutOfMemory,
    }
}
