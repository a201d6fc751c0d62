//! The table of the templates of all files.

ghost use Rattle.std.specs.Prelude.{◌≡◌, ◌<◌, ◌^◌, IfOk, length, map};
ghost use Rattle.soy_meaning.specs.Paths.Plan.{in_turn};
ghost use Rattle.soy_meaning.specs.Paths.PlanOfNodes.{declared_plan, trees_plan};
ghost use Rattle.soy_tree.specs.ViewTrees.{view_trees};
ghost use Rattle.html_context.specs.ChosenTranslation.{chosen_translation};
ghost use Rattle.html_context.specs.StandsFor.{StandsFor, Writes};
ghost use Rattle.soy_rules.specs.ViewTemplates.{view_all, view_declared};

use crate::builder::Builder;
use crate::fault::Site;
use crate::scope::param_vars;
use crate::table::{Row, Table};
use crate::writing::write;
use msg_extract::Translations;
use soy_base::{OutOfMemory, Seq};
use soy_rules::{Declared, Templates, all_templates};
use soy_tree::{Bundle, Tree};
use std::alloc::Global;

/// Writes a template.
fn template(
    alloc: Global,
    all: &Templates<'_>,
    one: &Declared<'_>,
    bundle: &Translations<'_>,
    rows: &mut Vec<Row>,
) -> Result<usize, OutOfMemory>
    ensures { Writes
        (declared_plan (chosen_translation bundle.now.messages) (view_all all.now) (view_declared one.now))
        rows.old.items rows.new.items result }
{
    let builder = Builder {
        alloc,
        file: one.file,
        namespace: one.namespace,
        declared: all,
        bundle,
    };
    let mut vars = param_vars(alloc, one.template.params.items())?;
    let end = Site {
        file: one.file,
        at: one.template.span.end,
    };
    let body = builder.nodes(one.template.body.items(), &mut vars, rows)?;
    write(rows, Row::Frame(one.template.kind, end, body))
}

/// Writes some of the templates, one after the other.
fn templates(
    alloc: Global,
    all: &Templates<'_>,
    some: &[Declared<'_>],
    bundle: &Translations<'_>,
    rows: &mut Vec<Row>,
) -> Result<usize, OutOfMemory>
    ensures { Writes
        (in_turn (map (declared_plan (chosen_translation bundle.now.messages) (view_all all.now)) (view_all some.now)))
        rows.old.items rows.new.items result }
{
    let mut numbers = Vec::new(alloc);
    for one in some {
        let number = template(alloc, all, one, bundle, rows)?;
        numbers.push(number)?;
    }
    write(rows, Row::InTurn(Seq::new(numbers)))
}

/// The table of the templates of trees, in their order, under a bundle.
pub(crate) fn compiled(alloc: Global, trees: &[Tree], bundle: &Bundle) -> Result<Table, OutOfMemory>
    requires { length trees.now < 2 ^ 32 }
    ensures { IfOk result (λ table. StandsFor table
        (trees_plan (chosen_translation bundle.now.messages) (view_trees trees.now))) }
{
    let declared = all_templates(alloc, trees)?;
    let declared = declared.as_slice();
    let all = Templates::new(alloc, declared)?;
    let translations = Translations::new(alloc, bundle)?;
    let mut rows = Vec::new(alloc);
    let root = templates(alloc, &all, declared, &translations, &mut rows)?;
    Ok(Table { rows, root })
}
