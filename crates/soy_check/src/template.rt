//! A template among those of all files, with its parameters by name.

ghost use Rattle.std.specs.Prelude.{◌≡◌, IfOk, option_map};
ghost use Rattle.soy_rules.specs.Bodies.{param_of};
ghost use Rattle.soy_tree.specs.ViewTrees.{view_param, view_params};
ghost use Rattle.soy_check.specs.Named.{FindsParams, in_row, required_in};

use indexmap::IndexMap;
use soy_base::{OutOfMemory, Text};
use soy_rules::Declared;
use soy_tree::Param;
use std::alloc::Global;

/// A template; its parameters that are required, and its parameters by their names.
#[derive(Drop)]
pub(crate) struct Indexed<'a> {
    pub(crate) declared: Declared<'a>,
    pub(crate) required: Vec<&'a Param>,
    pub(crate) first: IndexMap<&'a str, &'a Param>,
    ghost needed: { in_row required.items ≡ required_in declared.template.now.params },
    ghost found: { FindsParams first.entries declared.template.now.params },
}

impl<'a> Indexed<'a> {
    /// The first parameter of a name, found without a walk over them.
    pub(crate) fn find(&self, name: &Text) -> Option<&'a Param>
        ensures { option_map (λ p. view_param p.now) result
            ≡ param_of name.now (view_params self.now.declared.template.now.params) }
    {
        self.first.get(name.text()).copied()
    }
}

/// The parameters that are required.
pub(crate) fn required_in<'t>(
    alloc: Global,
    params: &'t [Param],
) -> Result<Vec<&'t Param>, OutOfMemory>
    ensures { IfOk result (λ required. in_row required.items ≡ required_in params.now) }
{
    let mut required = Vec::new(alloc);
    for param in params {
        if param.required {
            required.push(param)?;
        }
    }
    Ok(required)
}

/// The first parameter of each name. The last one goes in first, so that an earlier one of its name takes its place.
pub(crate) fn first_of_names<'t>(
    alloc: Global,
    params: &'t [Param],
) -> Result<IndexMap<&'t str, &'t Param>, OutOfMemory>
    ensures { IfOk result (λ first. FindsParams first.entries params.now) }
{
    let mut first = IndexMap::new(alloc);
    let mut left = params.len();
    while left > 0 {
        left -= 1;
        let param = &params[left];
        first.insert(param.name.text(), param)?;
    }
    Ok(first)
}
