//! The number of the template that a call means.

ghost use Rattle.std.specs.Prelude.{◌≡◌, IfOk};
ghost use Rattle.soy_rules.specs.Templates.{is_visible_from};
ghost use Rattle.soy_rules.specs.ViewTemplates.{view_all, view_declared};
ghost use Rattle.template_ir.specs.Compiles.{callee_number, number_of};
ghost use Rattle.ir_build.specs.Numbers.{number_if_visible};

use soy_base::{OutOfMemory, Text};
use soy_rules::{Declared, Templates, called_name};
use std::alloc::Global;

/// Whether the namespace sees a template.
fn is_visible(declared: &Declared<'_>, namespace: &Text) -> bool
    ensures { result ≡ is_visible_from namespace.now (view_declared declared.now) }
{
    !declared.template.private || declared.namespace.is(namespace.text())
}

/// How many templates stand before the first of a full name, if the namespace sees that one, and else how many there
/// are.
fn number_of(all: &Templates<'_>, namespace: &Text, full: &Text) -> usize
    ensures { result ≡ number_of namespace.now full.now (view_all all.now) }
{
    let declared = all.declared();
    match all.number(full) {
        Some(number) => number_if_visible(declared, namespace, number),
        None => declared.len(),
    }
}

/// The number of a template, if the namespace sees it, and else how many there are.
fn number_if_visible(all: &[Declared<'_>], namespace: &Text, number: usize) -> usize
    ensures { result ≡ number_if_visible namespace.now all.now number }
{
    match all.get(number) {
        Some(declared) if is_visible(declared, namespace) => number,
        _ => all.len(),
    }
}

/// The number of the template that a call in a namespace means by a name.
pub(crate) fn callee_number(
    alloc: Global,
    all: &Templates<'_>,
    namespace: &Text,
    name: &Text,
) -> Result<usize, OutOfMemory>
    ensures { IfOk result (λ n. n ≡ callee_number (view_all all.now) namespace.now name.now) }
{
    let full = called_name(alloc, namespace, name)?;
    Ok(number_of(all, namespace, &full))
}
