//! The canonical source of a template file.

ghost use Rattle.std.specs.Prelude.{◌≡◌, IfOk};
ghost use Rattle.std.specs.String.{string_bytes};
ghost use Rattle.soy_front.specs.Sources.{source_answer};
ghost use Rattle.soy_top.specs.Accepts.{Accepts};
ghost use Rattle.soy_top.specs.Answer.{canonical_source, tree_answer};

use crate::ending::Ending;
use crate::line::fault_line;
use crate::output::Output;
use soy_base::{OutOfMemory, Refusal};
use soy_format::format;
use soy_front::read_source;
use soy_tree::Tree;
use std::alloc::Global;

/// The canonical source of the tree of a file, or the line of the first fault that the file has by itself.
pub(crate) fn accept_format<'a>(
    alloc: Global,
    name: &str,
    bytes: &[u8],
) -> Result<Output<'a>, Ending>
    ensures { Accepts (tree_answer name.now bytes.now (source_answer bytes.now)) result }
{
    match read_source(alloc, bytes) {
        Ok(tree) => Ok(Output::Text(canonical_source(alloc, &tree)?)),
        Err(Refusal::Because(fault)) => {
            let line = fault_line(alloc, name, bytes, fault)?;
            Err(Ending::Refused(line))
        }
        Err(Refusal::OutOfMemory) => Err(Ending::Memory),
    }
}

/// The canonical source of a tree.
fn canonical_source(alloc: Global, tree: &Tree) -> Result<String, OutOfMemory>
    ensures { IfOk result (λ text. string_bytes text ≡ canonical_source tree.now) }
{
    format(alloc, tree)
}
