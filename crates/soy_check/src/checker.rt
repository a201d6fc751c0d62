//! The check of the trees of all files.

ghost use Rattle.std.specs.Prelude.{◌≡◌, ◌∷◌, ◌<◌, ◌^◌, [], length, option_map, IfOk, OnOk, reverse};
ghost use Rattle.soy_rules.specs.Declarations.{declaration_fault};
ghost use Rattle.soy_rules.specs.Demands.{bodies_fault, body_fault, check_fault, declarations_fault, in_file};
ghost use Rattle.soy_tree.specs.Formed.{AreFormed};
ghost use Rattle.soy_rules.specs.ViewTemplates.{view_declared};
ghost use Rattle.soy_tree.specs.ViewTrees.{view_trees};
ghost use Rattle.soy_check.specs.Answers.{Checks, Finds, FindsInFile};
ghost use Rattle.soy_check.specs.FullNames.{full_names};
ghost use Rattle.soy_check.specs.ViewAround.{view_all};

use crate::around::Around;
use crate::bodies::check_nodes;
use crate::declarations::check_declaration;
use crate::faults::refused_in;
use crate::names::Names;
use crate::template::Indexed;
use crate::templates::all_indexed;
use crate::variables::param_variables;
use soy_base::{Fault, Refusal, Seq, Text};
use soy_expr::TypeFault;
use soy_rules::{Declared, Typed};
use soy_tree::Tree;
use std::alloc::Global;

/// The first failure, and the two names or types that differ; where there is only one, the second is empty.
#[derive(Debug, Drop)]
pub struct CheckFault {
    pub fault: Fault,
    pub left: Text,
    pub right: Text,
}

/// The trees unchanged, where every demand holds of them; else the first failure. Files are counted from 0 in the
/// order of the trees. On a refusal the trees are dropped.
pub fn check(alloc: Global, trees: Vec<Tree>) -> Result<Typed, Refusal<CheckFault>>
    requires formed { AreFormed (view_trees trees.items) }
    requires few { length trees.items < 2 ^ 32 }
    ensures { Checks trees.items result }
{
    check_trees(alloc, trees.as_slice())?;
    Ok(Typed::new(Seq::new(trees)))
}

/// The two passes: declarations, and then bodies.
#[tactic(auto, using(crate::proofs::Refusals::found_first_in_file))]
pub(crate) fn check_trees(alloc: Global, trees: &[Tree]) -> Result<(), Refusal<CheckFault>>
    requires { length trees.now < 2 ^ 32 }
    ensures { FindsInFile (check_fault (view_trees trees.now)) result }
{
    let all = all_indexed(alloc, trees)?;
    let all = all.as_slice();
    let names = check_declarations(alloc, all)?;
    check_bodies(alloc, all, &names)
}

/// The pass over declarations, which gives the full names.
#[tactic(auto, using(crate::proofs::Refusals::found_first_in_file))]
fn check_declarations<'a, 't>(
    alloc: Global,
    all: &'a [Indexed<'t>],
) -> Result<Names<'a>, Refusal<CheckFault>>
    ensures found { FindsInFile (declarations_fault (view_all all.now) []) result }
    ensures names { IfOk result (λ names. names ≡ reverse (full_names all.now)) }
{
    let mut names = Names::new(alloc);
    for one in all {
        check_declared(alloc, &one.declared, &mut names)?;
    }
    Ok(names)
}

/// The declaration of a template in its file.
fn check_declared<'a, 't>(
    alloc: Global,
    declared: &'a Declared<'t>,
    before: &mut Names<'a>,
) -> Result<(), Refusal<CheckFault>>
    ensures found { FindsInFile (option_map (in_file declared.now.file)
        (declaration_fault (view_declared declared.now) before.old)) result }
    ensures names { OnOk result (before.new ≡ declared.now.full ∷ before.old) }
{
    match check_declaration(alloc, declared, before) {
        Ok(_) => Ok(()),
        Err(refusal) => Err(refused_in(declared.file, refusal)),
    }
}

/// The pass over bodies.
#[tactic(auto, using(crate::proofs::Refusals::found_first_in_file))]
fn check_bodies<'n, 'a, 't>(
    alloc: Global,
    all: &'a [Indexed<'t>],
    names: &'n Names<'a>,
) -> Result<(), Refusal<CheckFault>>
    requires { names.now ≡ reverse (full_names all.now) }
    ensures { FindsInFile (bodies_fault (view_all all.now) (view_all all.now)) result }
{
    for one in all {
        check_template(alloc, all, names, one)?;
    }
    Ok(())
}

/// The body of a template in its file.
fn check_template<'n, 'a, 't>(
    alloc: Global,
    all: &'a [Indexed<'t>],
    names: &'n Names<'a>,
    one: &'a Indexed<'t>,
) -> Result<(), Refusal<CheckFault>>
    requires { names.now ≡ reverse (full_names all.now) }
    ensures { FindsInFile (option_map (in_file one.now.declared.file)
        (body_fault (view_all all.now) (view_declared one.now.declared))) result }
{
    match check_body(alloc, all, names, one) {
        Ok(_) => Ok(()),
        Err(refusal) => Err(refused_in(one.declared.file, refusal)),
    }
}

/// The body of a template.
fn check_body<'n, 'a, 't>(
    alloc: Global,
    all: &'a [Indexed<'t>],
    names: &'n Names<'a>,
    one: &'a Indexed<'t>,
) -> Result<(), Refusal<TypeFault>>
    requires { names.now ≡ reverse (full_names all.now) }
    ensures { Finds (body_fault (view_all all.now) (view_declared one.now.declared)) result }
{
    let declared = &one.declared;
    let params = declared.template.params.items();
    let body = declared.template.body.items();
    let around = Around {
        declared: all,
        names,
        namespace: declared.namespace,
        own: one,
    };
    let mut vars = param_variables(alloc, params)?;
    check_nodes(alloc, &around, body, &mut vars)
}
