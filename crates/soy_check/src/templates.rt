//! The templates of all files, in order.

ghost use Rattle.std.specs.Prelude.{◌≡◌, ◌<◌, ◌^◌, IfOk, length};
ghost use Rattle.soy_rules.specs.Templates.{declared};
ghost use Rattle.soy_tree.specs.ViewTrees.{view_trees};
ghost use Rattle.soy_check.specs.ViewAround.{view_all};

use crate::template::{Indexed, first_of_names, required_in};
use soy_base::OutOfMemory;
use soy_rules::all_templates;
use soy_tree::Tree;
use std::alloc::Global;

/// The templates of all files, with their parameters by name.
pub(crate) fn all_indexed<'a>(
    alloc: Global,
    trees: &'a [Tree],
) -> Result<Vec<Indexed<'a>>, OutOfMemory>
    requires { length trees.now < 2 ^ 32 }
    ensures { IfOk result (λ all. view_all all.items ≡ declared (view_trees trees.now)) }
{
    let mut all = Vec::new(alloc);
    for declared in all_templates(alloc, trees)? {
        let params = declared.template.params.items();
        let required = required_in(alloc, params)?;
        let first = first_of_names(alloc, params)?;
        all.push(Indexed {
            declared,
            required,
            first,
        })?;
    }
    Ok(all)
}
