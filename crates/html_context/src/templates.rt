//! The template that a call means.

ghost use Rattle.std.specs.Prelude.{◌≡◌, IfOk, option_map};
ghost use Rattle.soy_rules.specs.Templates.{callee, template_of, visible};
ghost use Rattle.soy_rules.specs.ViewTemplates.{view_all, view_declared};

use soy_base::{OutOfMemory, Text};
use soy_rules::{Declared, Templates, called_name};
use std::alloc::Global;

/// The template of a full name, where the namespace sees it.
fn visible_template<'a>(
    all: &Templates<'a>,
    namespace: &Text,
    full: &Text,
) -> Option<&'a Declared<'a>>
    ensures { option_map (λ d. view_declared d.now) result
        ≡ visible namespace.now (template_of full.now (view_all all.now)) }
{
    let declared = all.of_name(full)?;
    if declared.template.private && !declared.namespace.is(namespace.text()) {
        return None;
    }
    Some(declared)
}

/// What a call in a namespace means by a name.
pub(crate) fn callee<'a>(
    alloc: Global,
    all: &Templates<'a>,
    namespace: &Text,
    name: &Text,
) -> Result<Option<&'a Declared<'a>>, OutOfMemory>
    ensures { IfOk result (λ found.
        option_map (λ d. view_declared d.now) found ≡ callee (view_all all.now) namespace.now name.now) }
{
    let full = called_name(alloc, namespace, name)?;
    Ok(visible_template(all, namespace, &full))
}
