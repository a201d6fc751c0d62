//! The demands on the declarations of a template.

ghost use Rattle.std.specs.Prelude.{◌≡◌, ◌∷◌, [], OnOk};
ghost use Rattle.soy_rules.specs.Declarations.{declaration_fault, params_fault};
ghost use Rattle.soy_rules.specs.ViewTemplates.{view_declared};
ghost use Rattle.soy_tree.specs.ViewTrees.{view_params};
ghost use Rattle.soy_check.specs.Answers.{Finds};

use crate::faults::misnamed;
use crate::names::Names;
use crate::type_faults::check_type;
use soy_base::{Code, Refusal};
use soy_expr::TypeFault;
use soy_rules::Declared;
use soy_tree::Param;
use std::alloc::Global;

/// The declaration of a template, after templates of these full names, to which its own is added.
#[tactic(auto, using(crate::proofs::Refusals::found_first, crate::proofs::Refusals::kept_fault))]
pub(crate) fn check_declaration<'a, 't>(
    alloc: Global,
    declared: &'a Declared<'t>,
    before: &mut Names<'a>,
) -> Result<(), Refusal<TypeFault>>
    ensures found { Finds (declaration_fault (view_declared declared.now) before.old) result }
    ensures names { OnOk result (before.new ≡ declared.now.full ∷ before.old) }
{
    if !before.insert(&declared.full)? {
        let span = declared.template.span;
        return Err(misnamed(alloc, Code::Twice, span, &declared.full));
    }
    check_params(alloc, declared.template.params.items())
}

/// The parameters of a template.
#[tactic(auto, using(crate::proofs::Refusals::found_first, crate::proofs::Refusals::kept_fault))]
fn check_params(alloc: Global, params: &[Param]) -> Result<(), Refusal<TypeFault>>
    ensures { Finds (params_fault (view_params params.now) []) result }
{
    let mut names = Names::new(alloc);
    for param in params {
        if !names.insert(&param.name)? {
            return Err(misnamed(alloc, Code::Twice, param.span, &param.name));
        }
        check_type(alloc, &param.of, param.span.start, true)?;
    }
    Ok(())
}
