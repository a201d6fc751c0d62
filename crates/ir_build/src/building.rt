//! The programs of trees.

ghost use Rattle.std.specs.Prelude.{◌≡◌, ◌<◌, ◌^◌, [], length, map, IfOk};
ghost use Rattle.soy_rules.specs.ViewTemplates.{view_all, view_declared};
ghost use Rattle.soy_tree.specs.ViewTrees.{view_params, view_trees};
ghost use Rattle.msg_extract.specs.Fits.{FitsTrees};
ghost use Rattle.soy_meaning.specs.Walks.AcceptedTrees.{walk_trees};
ghost use Rattle.soy_meaning.specs.Walks.Walk.{walked};
ghost use Rattle.template_ir.specs.Compiles.{Compiles};
ghost use Rattle.template_ir.specs.ViewOps.{view_program, view_routine};
ghost use Rattle.ir_build.specs.Laid.{Lays, view_output};
ghost use Rattle.ir_build.specs.Routines.{template_holes, template_stands, templates_holes, templates_stand};
ghost use Rattle.msg_extract.specs.Translations.{translation_of};
ghost use Rattle.msg_extract.specs.LanguageOf.{language_of};

use crate::bodies::push_nodes;
use crate::output::Output;
use crate::scene::Scene;
use msg_extract::Translations;
use plural_rules::Rules;
use soy_base::{OutOfMemory, Place, Places, Seq};
use soy_rules::{Declared, Templates, Typed, all_templates};
use soy_tree::{Bundle, Param, Tree};
use std::alloc::Global;
use template_ir::{Program, ProgramParts, Routine};

/// A template of a program.
fn routine(
    alloc: Global,
    all: &Templates<'_>,
    places: &[Place],
    bundle: &Translations<'_>,
    out: &mut Output,
    one: &Declared<'_>,
) -> Result<Routine, OutOfMemory>
    ensures { IfOk result (λ r. Lays
        (template_stands (language_of bundle.now) (view_all all.now) places.now (view_declared one.now)
        (view_routine r)) (template_holes (language_of bundle.now).translation (view_declared one.now))
        (view_output out.old) (view_output out.new)) }
{
    let template = one.template;
    let scene = Scene {
        alloc,
        file: one.file,
        namespace: one.namespace,
        params: template.params.items(),
        declared: all,
        bundle,
        places,
    };
    let mut own = Vec::new(alloc);
    push_nodes(&scene, out, &mut own, template.body.items())?;
    let body = out.lay(own)?;
    let params = copied_params(alloc, template.params.items())?;
    let name = one.full.copy(alloc)?;
    Ok(Routine {
        name,
        kind: template.kind,
        private: template.private,
        params,
        body,
    })
}

/// Equal parameters.
fn copied_params(alloc: Global, params: &[Param]) -> Result<Seq<Param>, OutOfMemory>
    ensures { IfOk result (λ copied. copied ≡ params.now) }
{
    let mut copied = Vec::new(alloc);
    for param in params {
        copied.push(param.copy(alloc)?)?;
    }
    Ok(Seq::new(copied))
}

/// Equal rules.
fn copied_rules(alloc: Global, rules: &Rules) -> Result<Rules, OutOfMemory>
    ensures { IfOk result (λ copied. copied ≡ rules.now) }
{
    match rules.copy(alloc) {
        Ok(copied) => Ok(copied),
        Err(_) => Err(OutOfMemory),
    }
}

/// The templates of a program.
fn routines(
    alloc: Global,
    all: &Templates<'_>,
    places: &[Place],
    bundle: &Translations<'_>,
    out: &mut Output,
) -> Result<Vec<Routine>, OutOfMemory>
    ensures { IfOk result (λ routines. Lays
        (templates_stand (language_of bundle.now) (view_all all.now) places.now (view_all all.now)
        (map view_routine routines.items)) (templates_holes (language_of bundle.now).translation (view_all all.now))
        (view_output out.old) (view_output out.new)) }
{
    let declared = all.declared();
    let mut routines = Vec::new(alloc);
    for one in declared {
        let routine = routine(alloc, all, places, bundle, out, one)?;
        routines.push(routine)?;
    }
    Ok(routines)
}

/// What the program of trees is made of, with the places of their holes in the order in which the walk first meets them
/// (past the last of them a hole's place is Text), under a bundle.
pub fn program_parts(
    alloc: Global,
    trees: &[Tree],
    places: &[Place],
    bundle: &Bundle,
) -> Result<ProgramParts, OutOfMemory>
    requires { length trees.now < 2 ^ 32 }
    ensures { IfOk result (λ parts.
        Compiles (view_trees trees.now) places.now (language_of bundle.now) (view_program parts)) }
{
    let declared = all_templates(alloc, trees)?;
    let all = Templates::new(alloc, declared.as_slice())?;
    let translations = Translations::new(alloc, bundle)?;
    let mut out = Output {
        ops: Vec::new(alloc),
        holes: 0,
    };
    let templates = routines(alloc, &all, places, &translations, &mut out)?;
    let plural = copied_rules(alloc, &bundle.plural)?;
    let ordinal = copied_rules(alloc, &bundle.ordinal)?;
    Ok(ProgramParts {
        templates: Seq::new(templates),
        ops: Seq::new(out.ops),
        dir: bundle.dir,
        plural,
        ordinal,
    })
}

/// The program of typed trees under a bundle that fits them, with the places that the walk over them gives. It can't go
/// wrong.
pub fn build(
    alloc: Global,
    typed: &Typed,
    places: &Places,
    bundle: &Bundle,
) -> Result<Program, OutOfMemory>
    requires fits { FitsTrees (translation_of bundle.now.messages) (view_trees typed.now) }
    requires places { walk_trees (language_of bundle.now).translation (view_trees typed.now)
        ≡ Ok (walked [] places.now.prints) }
    ensures { IfOk result (λ program. Compiles (view_trees typed.now) places.now.prints (language_of bundle.now)
        (view_program program)) }
{
    let parts = program_parts(alloc, typed.trees(), places.prints.items(), bundle)?;
    Ok(Program::new(parts))
}
