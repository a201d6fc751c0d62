//! The placeholders of a message, by their names.

ghost use Rattle.std.specs.Prelude.{◌≡◌, map, slice_get, IfOk, IfSome};
ghost use Rattle.soy_tree.specs.ViewNodes.{view_nodes};
ghost use Rattle.msg_extract.specs.NamedNodes.{named_nodes};
ghost use Rattle.msg_extract.specs.Views.ViewPlaceholders.{names_of, nodes_there, view_placeholder};

use crate::placeholder::Placeholder;
use soy_base::{OutOfMemory, Text};
use soy_rules::Names;
use soy_tree::Node;
use std::alloc::Global;
use std::marker::Model;

/// So many placeholders are gone over one by one, which takes less than a map of their names.
const FEW: usize = 8;

/// Placeholders, which contracts see as their list. What a name stands for is found without a walk over many.
#[derive(Drop)]
pub struct NamedPlaceholders<'p> {
    placeholders: &'p [Placeholder],
    names: Option<Names<'p>>,
}

impl<'p> Model for NamedPlaceholders<'p> {
    ghost use Rattle.std.specs.Prelude.{◌≡◌, List, IfSome};
    ghost use Rattle.std.specs.Coded.{codes};
    ghost use Rattle.soy_tree.specs.contracts.node.Node as node;
    ghost use Rattle.msg_extract.specs.declared.placeholder.Placeholder.{Placeholder};
    ghost use Rattle.msg_extract.specs.Views.ViewPlaceholders.{names_of};

    ghost Value = { List Placeholder };

    ghost coded = { Prim.hlevel (codes, node.the_row.coded) };

    ghost view = { λ s. s.placeholders.now };

    ghost invariant = { λ s. IfSome s.names (λ names. names ≡ names_of s.placeholders.now) };
}

impl<'p> NamedPlaceholders<'p> {
    /// These placeholders.
    pub fn new(
        alloc: Global,
        placeholders: &'p [Placeholder],
    ) -> Result<NamedPlaceholders<'p>, OutOfMemory>
        ensures { IfOk result (λ all. all ≡ placeholders.now) }
    {
        let names = names_of_many(alloc, placeholders)?;
        Ok(NamedPlaceholders {
            placeholders,
            names,
        })
    }

    /// The texts and prints that the placeholder of a name stands for; none where there is no such placeholder.
    pub fn nodes(&self, name: &Text) -> &'p [Node]
        ensures { view_nodes result.now ≡ named_nodes name.now (map view_placeholder self.now) }
    {
        match &self.names {
            Some(names) => known_nodes(self.placeholders, names, name),
            None => first_nodes(self.placeholders, name),
        }
    }
}

/// The names of placeholders, if they are many.
fn names_of_many<'p>(
    alloc: Global,
    placeholders: &'p [Placeholder],
) -> Result<Option<Names<'p>>, OutOfMemory>
    ensures { IfOk result (λ names. IfSome names (λ names. names ≡ names_of placeholders.now)) }
{
    if placeholders.len() <= FEW {
        return Ok(None);
    }
    let names = Names::new(alloc, all_names(alloc, placeholders)?)?;
    Ok(Some(names))
}

/// What the placeholder of a name stands for, found by the number of the name.
fn known_nodes<'p>(placeholders: &'p [Placeholder], names: &Names<'p>, name: &Text) -> &'p [Node]
    requires { names.now ≡ names_of placeholders.now }
    ensures { view_nodes result.now ≡ named_nodes name.now (map view_placeholder placeholders.now) }
{
    match names.number(name) {
        Some(number) => nodes_at(placeholders, number),
        None => &[],
    }
}

/// What the first placeholder of a name stands for.
fn first_nodes<'p>(placeholders: &'p [Placeholder], name: &Text) -> &'p [Node]
    ensures { view_nodes result.now ≡ named_nodes name.now (map view_placeholder placeholders.now) }
{
    for placeholder in placeholders {
        if placeholder.name.is(name.text()) {
            return placeholder.nodes.items();
        }
    }
    &[]
}

/// The names of placeholders.
fn all_names<'p>(
    alloc: Global,
    placeholders: &'p [Placeholder],
) -> Result<Vec<&'p Text>, OutOfMemory>
    ensures { IfOk result (λ names. map (λ name. name.now) names.items ≡ names_of placeholders.now) }
{
    let mut names = Vec::new(alloc);
    for placeholder in placeholders {
        names.push(&placeholder.name)?;
    }
    Ok(names)
}

/// What the placeholder of a number stands for; none where there is no such placeholder.
fn nodes_at<'p>(placeholders: &'p [Placeholder], number: usize) -> &'p [Node]
    ensures { view_nodes result.now ≡ nodes_there (slice_get placeholders.now number) }
{
    match placeholders.get(number) {
        Some(placeholder) => placeholder.nodes.items(),
        None => &[],
    }
}
