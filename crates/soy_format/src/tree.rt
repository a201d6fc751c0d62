//! Files, and the templates in them.

ghost use Rattle.std.specs.Prelude.{◌≡◌, map, IfOk, OnOk};
ghost use Rattle.std.specs.Str.{chars};
ghost use Rattle.std.specs.String.{string_bytes};
ghost use Rattle.soy_base.specs.Appends.{Appends};
ghost use Rattle.soy_tree.specs.ViewNodes.{view_nodes};
ghost use Rattle.soy_tree.specs.ViewTrees.{view_param, view_params, view_template, view_tree};
ghost use Rattle.soy_format.specs.Formatted.{formatted_template, formatted_templates, formatted_tree, param_line};
ghost use Rattle.soy_format.specs.Formatted.{param_lines, param_start, template_line};
ghost use Rattle.soy_format.specs.FormattedBody.{formatted_nodes};
ghost use Rattle.soy_format.specs.FormattedText.{body_line};

use crate::ascii::{empty, push_ascii};
use crate::attribute::{push_template_kind, push_visibility};
use crate::nodes::push_nodes;
use crate::text::push_body_line;
use soy_base::{Kind, OutOfMemory, Text, push_text};
use soy_expr::text_of;
use soy_tree::{Node, Param, Template, Tree};
use std::alloc::Global;

/// Adds the line of a template's command.
#[tactic(auto, using(crate::proofs::Pushes::five_pushed))]
fn push_template_line(
    out: &mut String,
    name: &Text,
    kind: Kind,
    private: bool,
) -> Result<(), OutOfMemory>
    ensures { OnOk result (Appends out.old out.new (template_line name.now kind private)) }
{
    push_ascii(out, "{template ")?;
    push_text(out, name.text())?;
    push_template_kind(out, kind)?;
    push_visibility(out, private)?;
    push_ascii(out, "}\n")
}

/// Adds the start of a parameter's line.
fn push_param_start(out: &mut String, required: bool) -> Result<(), OutOfMemory>
    ensures { OnOk result (Appends out.old out.new (param_start required)) }
{
    if required {
        return push_ascii(out, "{@param ");
    }
    push_ascii(out, "{@param? ")
}

/// Adds the line of a parameter.
#[tactic(auto, using(crate::proofs::Pushes::five_pushed))]
fn push_param_line(alloc: Global, out: &mut String, param: &Param) -> Result<(), OutOfMemory>
    ensures { OnOk result (Appends out.old out.new (param_line (view_param param.now))) }
{
    let of = text_of(alloc, &param.of)?;
    push_param_start(out, param.required)?;
    push_text(out, param.name.text())?;
    push_ascii(out, ": ")?;
    push_text(out, of.text())?;
    push_ascii(out, "}\n")
}

/// Adds the lines of parameters.
#[tactic(auto, using(crate::proofs::Pushes::append_assoc))]
fn push_param_lines(alloc: Global, out: &mut String, params: &[Param]) -> Result<(), OutOfMemory>
    ensures { OnOk result (Appends out.old out.new (param_lines (view_params params.now))) }
{
    for param in params {
        push_param_line(alloc, out, param)?;
    }
    Ok(())
}

/// The text of a body's nodes.
fn nodes_text(alloc: Global, body: &[Node]) -> Result<String, OutOfMemory>
    ensures { IfOk result (λ text. chars (string_bytes text) ≡ formatted_nodes (view_nodes body.now)) }
{
    let mut text = empty(alloc);
    push_nodes(alloc, &mut text, body)?;
    Ok(text)
}

/// Adds a body, on a line of its own unless it is empty.
fn push_body(alloc: Global, out: &mut String, body: &[Node]) -> Result<(), OutOfMemory>
    ensures { OnOk result (Appends out.old out.new (body_line (formatted_nodes (view_nodes body.now)))) }
{
    let text = nodes_text(alloc, body)?;
    push_body_line(out, text)
}

/// Adds the lines of a template.
#[tactic(auto, using(crate::proofs::Pushes::four_pushed))]
fn push_template(alloc: Global, out: &mut String, template: &Template) -> Result<(), OutOfMemory>
    ensures { OnOk result (Appends out.old out.new (formatted_template (view_template template.now))) }
{
    push_template_line(out, &template.name, template.kind, template.private)?;
    push_param_lines(alloc, out, template.params.items())?;
    push_body(alloc, out, template.body.items())?;
    push_ascii(out, "{/template}\n")
}

/// Adds templates, each after an empty line.
#[tactic(auto, using(crate::proofs::Pushes::append_assoc))]
fn push_templates(
    alloc: Global,
    out: &mut String,
    templates: &[Template],
) -> Result<(), OutOfMemory>
    ensures { OnOk result (Appends out.old out.new (formatted_templates (map view_template templates.now))) }
{
    for template in templates {
        push_ascii(out, "\n")?;
        push_template(alloc, out, template)?;
    }
    Ok(())
}

/// Adds a file.
#[tactic(auto, using(crate::proofs::Pushes::four_pushed))]
fn push_tree(alloc: Global, out: &mut String, tree: &Tree) -> Result<(), OutOfMemory>
    ensures { OnOk result (Appends out.old out.new (formatted_tree (view_tree tree.now))) }
{
    push_ascii(out, "{namespace ")?;
    push_text(out, tree.namespace.text())?;
    push_ascii(out, "}\n")?;
    push_templates(alloc, out, tree.templates.items())
}

/// The canonical source of the tree of a file.
///
/// Two trees that differ in spans alone have the same canonical source. Comments and layout aren't in a tree, so they
/// aren't kept: a body is written on one line, and only the parentheses that the levels of operators ask for are
/// written. The one error is that memory runs out.
pub fn format(alloc: Global, tree: &Tree) -> Result<String, OutOfMemory>
    ensures { IfOk result (λ text. chars (string_bytes text) ≡ formatted_tree (view_tree tree.now)) }
{
    let mut out = empty(alloc);
    push_tree(alloc, &mut out, tree)?;
    Ok(out)
}
