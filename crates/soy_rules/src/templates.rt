//! The templates of all files, in order, and the full name that a call means.

ghost use Rattle.std.specs.Prelude.{◌≡◌, ◌<◌, ◌^◌, ◌++◌, ◌==◌, IfOk, OnOk, length, map, option_map, slice_get};
ghost use Rattle.std.specs.List.{list_any};
ghost use Rattle.std.specs.Str.{chars};
ghost use Rattle.soy_base.specs.Characters.{full_stop};
ghost use Rattle.soy_rules.specs.FirstNames.{first_number};
ghost use Rattle.soy_rules.specs.FullNames.{full_names};
ghost use Rattle.soy_rules.specs.Templates.{called_name, declared, declared_in, joined_name, template_of};
ghost use Rattle.soy_rules.specs.ViewTemplates.{view_all, view_declared};
ghost use Rattle.soy_tree.specs.ViewTrees.{view_template, view_trees};

use crate::Names;
use crate::template::Declared;
use soy_base::{OutOfMemory, Text, push_char, push_text};
use soy_tree::Tree;
use std::alloc::Global;
use std::marker::Model;

/// Templates, which contracts see as their list. The first of a full name is found without a walk over the list.
#[derive(Drop)]
pub struct Templates<'a> {
    declared: &'a [Declared<'a>],
    names: Names<'a>,
}

impl<'a> Model for Templates<'a> {
    ghost use Rattle.std.specs.Prelude.{◌≡◌, List};
    ghost use Rattle.soy_rules.specs.FullNames.{full_names};
    ghost use Rattle.soy_rules.specs.declared.template.Declared.{Declared};
    ghost use Rattle.std.specs.Coded.{codes};
    ghost use Rattle.soy_tree.specs.contracts.soy_type.SoyType as soy_type;
    ghost use Rattle.soy_tree.specs.contracts.expr.Expr as expr;
    ghost use Rattle.soy_tree.specs.contracts.node.Node as node;

    ghost Value = { List Declared };

    ghost coded = { Prim.hlevel (codes, soy_type.the_row.coded, expr.the_row.coded, node.the_row.coded) };

    ghost view = { λ s. s.declared.now };

    ghost invariant = { λ s. s.names ≡ full_names s.declared.now };
}

impl<'a> Templates<'a> {
    /// These templates.
    pub fn new(alloc: Global, declared: &'a [Declared<'a>]) -> Result<Templates<'a>, OutOfMemory>
        ensures { IfOk result (λ all. all ≡ declared.now) }
    {
        let names = Names::new(alloc, full_names(alloc, declared)?)?;
        Ok(Templates { declared, names })
    }

    /// The templates in order.
    pub fn declared(&self) -> &'a [Declared<'a>]
        ensures { result.now ≡ self.now }
    {
        self.declared
    }

    /// The template of a number.
    pub fn get(&self, number: usize) -> Option<&'a Declared<'a>>
        ensures { option_map (λ d. d.now) result ≡ slice_get self.now number }
    {
        self.declared.get(number)
    }

    /// How many templates stand before the first of a full name, if there is one.
    pub fn number(&self, full: &Text) -> Option<usize>
        ensures { result ≡ first_number full.now (full_names self.now) }
    {
        self.names.number(full)
    }

    /// The first template of a full name.
    pub fn of_name(&self, full: &Text) -> Option<&'a Declared<'a>>
        ensures { option_map (λ d. view_declared d.now) result ≡ template_of full.now (view_all self.now) }
    {
        match self.number(full) {
            Some(number) => self.get(number),
            None => None,
        }
    }
}

/// The full names of templates.
fn full_names<'a>(alloc: Global, declared: &'a [Declared<'a>]) -> Result<Vec<&'a Text>, OutOfMemory>
    ensures { IfOk result (λ names. map (λ name. name.now) names.items ≡ full_names declared.now) }
{
    let mut names = Vec::new(alloc);
    for one in declared {
        names.push(&one.full)?;
    }
    Ok(names)
}

/// The templates of all files, in order. There are fewer than 2^32 files, since a template has its file's number.
pub fn all_templates<'a>(alloc: Global, trees: &'a [Tree]) -> Result<Vec<Declared<'a>>, OutOfMemory>
    requires { length trees.now < 2 ^ 32 }
    ensures { IfOk result (λ all. view_all all.items ≡ declared (view_trees trees.now)) }
{
    let mut all = Vec::new(alloc);
    for (file, tree) in trees.iter().enumerate() {
        add_templates(alloc, &mut all, file as u32, tree)?;
    }
    Ok(all)
}

/// Adds the templates of a file.
fn add_templates<'a>(
    alloc: Global,
    all: &mut Vec<Declared<'a>>,
    file: u32,
    tree: &'a Tree,
) -> Result<(), OutOfMemory>
    ensures { OnOk result (view_all all.new.items
        ≡ view_all all.old.items ++ declared_in file tree.now.namespace (map view_template tree.now.templates)) }
{
    let namespace = &tree.namespace;
    for template in tree.templates.items() {
        let full = joined_name(alloc, namespace, &template.name)?;
        all.push(Declared {
            file,
            namespace,
            template,
            full,
        })?;
    }
    Ok(())
}

/// The full name that a call in a namespace means by a name: the name where a `.` is in it, and else the namespace, a
/// `.` and the name.
pub fn called_name(alloc: Global, namespace: &Text, name: &Text) -> Result<Text, OutOfMemory>
    ensures { IfOk result (λ full. full ≡ called_name namespace.now name.now) }
{
    if is_dotted(name.text()) {
        name.copy(alloc)
    } else {
        joined_name(alloc, namespace, name)
    }
}

/// A namespace, a `.` and a name.
fn joined_name(alloc: Global, namespace: &Text, name: &Text) -> Result<Text, OutOfMemory>
    ensures { IfOk result (λ full. full ≡ joined_name namespace.now name.now) }
{
    let mut full = String::new(alloc);
    push_text(&mut full, namespace.text())?;
    push_char(&mut full, '.')?;
    push_text(&mut full, name.text())?;
    Ok(Text::new(full))
}

/// Whether there is a `.` in a name.
fn is_dotted(name: &str) -> bool
    ensures { result ≡ list_any (λ c. c == full_stop) (chars name.now) }
{
    name.chars().any(is_full_stop)
}

fn is_full_stop(c: char) -> bool
    ensures { result ≡ (c == full_stop) }
{
    c == '.'
}
