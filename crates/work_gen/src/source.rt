//! The source file.
ghost use Rattle.std.specs.Prelude.{◌≡◌, IfOk, OnOk};
ghost use Rattle.std.specs.Str.{chars};
ghost use Rattle.std.specs.String.{string_bytes};
ghost use Rattle.soy_base.specs.Appends.{Appends};
ghost use Rattle.work_gen.specs.Source.{call_line, each_below, source_text, template_lines};

use soy_base::{OutOfMemory, push_text};
use std::alloc::Global;

/// The first lines: the namespace, and the template that prints the items, up to its calls.
const HEAD: &str = "{namespace gen}
{template main}
{@param items: list<[who: string, text: string, link: string, n: int]>}
<ul>{for $i in $items}<li><a href=\"{$i.link}\">{$i.who}</a> {$i.text} \
<i title=\"{$i.text}\">{$i.n}</i></li>{/for}</ul>
";

/// Adds the calls of so many templates, by their numbers.
fn push_calls(out: &mut String, count: u32) -> Result<(), OutOfMemory>
    ensures { OnOk result (Appends out.old out.new (each_below count call_line)) }
{
    for k in 0..count {
        push_call(out, k)?;
    }
    Ok(())
}

/// Adds the call of a template by its number.
fn push_call(out: &mut String, k: u32) -> Result<(), OutOfMemory>
    ensures { OnOk result (Appends out.old out.new (call_line k)) }
{
    writeln!(out, "{{call t{k}}}{{param n: {k} /}}{{/call}}")?;
    Ok(())
}

/// Adds so many templates, by their numbers.
fn push_templates(out: &mut String, count: u32) -> Result<(), OutOfMemory>
    ensures { OnOk result (Appends out.old out.new (each_below count template_lines)) }
{
    for k in 0..count {
        push_template(out, k)?;
    }
    Ok(())
}

/// Adds the template of a number, which has one message with a plural.
fn push_template(out: &mut String, k: u32) -> Result<(), OutOfMemory>
    ensures { OnOk result (Appends out.old out.new (template_lines k)) }
{
    writeln!(out, "{{template t{k}}}")?;
    writeln!(out, "{{@param n: int}}")?;
    writeln!(
        out,
        "<p>{{msg desc=\"{k}\"}}{{plural $n}}{{case 1}}one of {k}{{default}}{{$n}} of {k}{{/plural}}{{/msg}}</p>"
    )?;
    writeln!(out, "{{/template}}")?;
    Ok(())
}

/// The source with so many templates beside the first.
pub(crate) fn source_text(alloc: Global, count: u32) -> Result<String, OutOfMemory>
    ensures { IfOk result (λ source. chars (string_bytes source) ≡ source_text count) }
{
    let mut source = String::new(alloc);
    push_text(&mut source, HEAD)?;
    push_calls(&mut source, count)?;
    push_text(&mut source, "{/template}\n")?;
    push_templates(&mut source, count)?;
    Ok(source)
}
