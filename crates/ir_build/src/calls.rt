//! The op of a call, over the blocks of its params.

ghost use Rattle.std.specs.Prelude.{◌≡◌, ◌∷◌, [], ◌++◌, map, slice_get, OnOk};
ghost use Rattle.soy_rules.specs.Bodies.{names_given};
ghost use Rattle.soy_tree.specs.ViewExpressions.{view_expr};
ghost use Rattle.soy_tree.specs.ViewNodes.{view_arguments};
ghost use Rattle.soy_rules.specs.ViewTemplates.{view_all};
ghost use Rattle.soy_tree.specs.ViewTrees.{view_params};
ghost use Rattle.template_ir.specs.Compiles.{handed_on_names, params_there, same_handed};
ghost use Rattle.template_ir.specs.Ops.{HandedBlock, HandedValue};
ghost use Rattle.template_ir.specs.ViewOps.{view_handed, view_ops};
ghost use Rattle.ir_build.specs.KnownNames.{known_names, known_params};
ghost use Rattle.ir_build.specs.Laid.{laid_block, view_output, with_ops};
ghost use Rattle.ir_build.specs.Rows.{handed_as};
ghost use Rattle.ir_build.specs.ViewScene.{call_op};

use crate::commands::push_op;
use crate::known_names::KnownNames;
use crate::output::Output;
use crate::scene::Scene;
use crate::templates::callee_number;
use soy_base::{Boxed, Kind, OutOfMemory, Place, Seq, Span, Text};
use soy_rules::Templates;
use soy_tree::{Argument, Expr, Param};
use std::alloc::Global;
use template_ir::{Callee, Handed, HandedBy, Op};

/// Adds what `data="all"` hands on, if it is there: those of the callee's parameters that the caller has too and no
/// param names.
#[tactic(auto, using(crate::proofs::KnownNames::handed_none, crate::proofs::KnownNames::handed_known))]
fn add_same(
    alloc: Global,
    handed: &mut Vec<Handed>,
    all: bool,
    own: &[Param],
    given: &[Argument],
    params: &[Param],
) -> Result<(), OutOfMemory>
    ensures { OnOk result (map view_handed handed.new.items ≡ map view_handed handed.old.items
        ++ map same_handed (handed_on_names all (view_params own.now) (names_given (view_arguments given.now))
        (view_params params.now))) }
{
    if all {
        let own = KnownNames::of_params(alloc, own)?;
        let given = KnownNames::of_given(alloc, given)?;
        add_known(alloc, handed, &own, &given, params)
    } else {
        Ok(())
    }
}

/// Adds those of these parameters that are known and aren't given.
#[tactic(auto, using(crate::proofs::OpLists::map_append, crate::proofs::OpLists::append_assoc))]
fn add_known(
    alloc: Global,
    handed: &mut Vec<Handed>,
    own: &KnownNames<'_>,
    given: &KnownNames<'_>,
    params: &[Param],
) -> Result<(), OutOfMemory>
    ensures { OnOk result (map view_handed handed.new.items ≡ map view_handed handed.old.items
        ++ map same_handed (known_params (known_names own.now) (known_names given.now) (view_params params.now))) }
{
    for param in params {
        if own.has(&param.name) && !given.has(&param.name) {
            add_one(alloc, handed, &param.name)?;
        }
    }
    Ok(())
}

/// Adds a name that is handed on.
#[tactic(auto, using(crate::proofs::OpLists::map_append))]
fn add_one(alloc: Global, handed: &mut Vec<Handed>, name: &Text) -> Result<(), OutOfMemory>
    ensures { OnOk result (map view_handed handed.new.items
        ≡ map view_handed handed.old.items ++ same_handed name.now ∷ []) }
{
    let name = name.copy(alloc)?;
    handed.push(Handed {
        name,
        by: HandedBy::Same,
    })?;
    Ok(())
}

/// The parameters of the template of a number, and none past all templates.
fn params_at<'a>(all: &Templates<'a>, number: usize) -> &'a [Param]
    ensures { view_params result.now ≡ params_there (slice_get (view_all all.now) number) }
{
    match all.get(number) {
        Some(declared) => declared.template.params.items(),
        None => &[],
    }
}

/// Adds a param that is given as a value.
#[tactic(auto, using(crate::proofs::OpLists::map_append))]
pub(crate) fn push_plain(
    alloc: Global,
    handed: &mut Vec<Handed>,
    name: &Text,
    expr: &Expr,
) -> Result<(), OutOfMemory>
    ensures { OnOk result (map view_handed handed.new.items
        ≡ map view_handed handed.old.items ++ handed_as name.now (HandedValue (view_expr expr.now)) ∷ []) }
{
    let name = name.copy(alloc)?;
    let expr = expr.copy(alloc)?;
    handed.push(Handed {
        name,
        by: HandedBy::Plain(expr),
    })?;
    Ok(())
}

/// Adds a param that is given as a block of these ops.
#[tactic(auto, using(crate::proofs::OpLists::map_append))]
pub(crate) fn push_block(
    alloc: Global,
    out: &mut Output,
    handed: &mut Vec<Handed>,
    name: &Text,
    kind: Kind,
    body: Vec<Op>,
) -> Result<(), OutOfMemory>
    ensures handed { OnOk result (map view_handed handed.new.items ≡ map view_handed handed.old.items
        ++ handed_as name.now (HandedBlock kind (laid_block (view_output out.old) (view_ops body.items))) ∷ []) }
    ensures made { OnOk result (view_output out.new ≡ with_ops (view_output out.old) (view_ops body.items)) }
{
    let body = out.lay(body)?;
    let name = name.copy(alloc)?;
    handed.push(Handed {
        name,
        by: HandedBy::Block(kind, body),
    })?;
    Ok(())
}

/// Adds a call whose params are handed so, with what `data="all"` hands on.
pub(crate) fn push_call(
    scene: &Scene<'_>,
    own: &mut Vec<Op>,
    handed: Vec<Handed>,
    name: &Text,
    all: bool,
    given: &[Argument],
    place: Place,
    span: Span,
) -> Result<(), OutOfMemory>
    ensures { OnOk result (view_ops own.new.items ≡ view_ops own.old.items ++ call_op scene.now name.now all
        (view_arguments given.now) (map view_handed handed.items) place span ∷ []) }
{
    let mut handed = handed;
    let number = callee_number(scene.alloc, scene.declared, scene.namespace, name)?;
    let params = params_at(scene.declared, number);
    add_same(scene.alloc, &mut handed, all, scene.params, given, params)?;
    let callee = Callee {
        template: number,
        given: Seq::new(handed),
        place,
        file: scene.file,
        at: span.start,
    };
    push_op(own, Op::Call(Boxed::new(scene.alloc, callee)?))
}
