//! Programs of one template, which gives two texts, or a text without end.

ghost use Rattle.std.specs.Prelude.{◌≡◌, ◌∷◌, [], IfOk, IsTrue};
ghost use Rattle.soy_base.specs.declared.kind.Kind.TheVariants as kind;
ghost use Rattle.soy_base.specs.declared.place.Place.TheVariants as place;
ghost use Rattle.template_ir.specs.Sound.{is_sound};
ghost use Rattle.template_ir.specs.ViewOps.{view_program};
ghost use Rattle.template_ir.specs.declared.op.Op.TheVariants as op;

use plural_rules::Rules;
use soy_base::{Boxed, Dir, Kind, OutOfMemory, Place, Seq, Text, TooDeep};
use std::alloc::Global;
use std::rc::Rc;
use template_ir::{Block, Callee, Op, Program, ProgramParts, Routine};

/// The call that a page without end stops at.
pub(crate) const LAST_CALL: TooDeep = TooDeep { file: 3, at: 7 };

fn text_of(alloc: Global, text: &str) -> Result<Text, OutOfMemory> {
    match String::from_str(alloc, text) {
        Ok(text) => Ok(Text::new(text)),
        Err(_) => Err(OutOfMemory),
    }
}

fn static_ops(alloc: Global, first: Text, second: Text) -> Result<Vec<Op>, OutOfMemory>
    ensures { IfOk result (λ v. v.items ≡ op.Static first ∷ op.Static second ∷ []) }
{
    let ops = [Op::Static(first), Op::Static(second)];
    Ok(Vec::from_array(alloc, ops)?)
}

fn one_template(alloc: Global, routine: Routine) -> Result<Vec<Routine>, OutOfMemory>
    ensures { IfOk result (λ v. v.items ≡ routine ∷ []) }
{
    let templates = [routine];
    Ok(Vec::from_array(alloc, templates)?)
}

/// The routine of a template without parameters, whose body is the first two ops.
fn routine_of(alloc: Global, name: Text) -> Routine
    ensures kind { result.kind ≡ kind.Text }
    ensures params { result.params ≡ [] }
    ensures body { result.body ≡ record { first = 0; end = 2 } }
{
    Routine {
        name,
        kind: Kind::Text,
        private: false,
        params: Seq::new(Vec::new(alloc)),
        body: Block { first: 0, end: 2 },
    }
}

#[tactic(auto, using(crate::proofs::SoundTexts::texts_sound))]
fn parts_of(
    alloc: Global,
    name: Text,
    first: Text,
    second: Text,
) -> Result<ProgramParts, OutOfMemory>
    ensures { IfOk result (λ p. IsTrue (is_sound (view_program p))) }
{
    let routine = routine_of(alloc, name);
    let ops = static_ops(alloc, first, second)?;
    let templates = one_template(alloc, routine)?;
    Ok(ProgramParts {
        templates: Seq::new(templates),
        ops: Seq::new(ops),
        dir: Dir::Ltr,
        plural: Rules::none(alloc),
        ordinal: Rules::none(alloc),
    })
}

fn program(alloc: Global, first: &str, second: &str) -> Result<Program, OutOfMemory> {
    let name = text_of(alloc, "t.m")?;
    let first = text_of(alloc, first)?;
    let second = text_of(alloc, second)?;
    let parts = parts_of(alloc, name, first, second)?;
    Ok(Program::new(parts))
}

/// The program of these two texts.
pub(crate) fn program_of(alloc: Global, first: &str, second: &str) -> Option<Rc<Program>> {
    let program = program(alloc, first, second).ok()?;
    Rc::new(alloc, program).ok()
}

/// A call of the first template that hands it nothing.
fn call_of_first(alloc: Global) -> Callee
    ensures template { result.template ≡ 0 }
    ensures given { result.given ≡ [] }
    ensures place { result.place ≡ place.Plain }
{
    Callee {
        template: 0,
        given: Seq::new(Vec::new(alloc)),
        place: Place::Plain,
        file: LAST_CALL.file,
        at: LAST_CALL.at,
    }
}

fn endless_ops(alloc: Global, text: Text, call: Callee) -> Result<Vec<Op>, OutOfMemory>
    ensures { IfOk result (λ v. v.items ≡ op.Static text ∷ op.Call call ∷ []) }
{
    let ops = [Op::Static(text), Op::Call(Boxed::new(alloc, call)?)];
    Ok(Vec::from_array(alloc, ops)?)
}

#[tactic(auto, using(crate::proofs::SoundTexts::endless_sound))]
fn endless_parts_of(alloc: Global, name: Text, text: Text) -> Result<ProgramParts, OutOfMemory>
    ensures { IfOk result (λ p. IsTrue (is_sound (view_program p))) }
{
    let routine = routine_of(alloc, name);
    let ops = endless_ops(alloc, text, call_of_first(alloc))?;
    let templates = one_template(alloc, routine)?;
    Ok(ProgramParts {
        templates: Seq::new(templates),
        ops: Seq::new(ops),
        dir: Dir::Ltr,
        plural: Rules::none(alloc),
        ordinal: Rules::none(alloc),
    })
}

fn endless_program(alloc: Global, text: &str) -> Result<Program, OutOfMemory> {
    let name = text_of(alloc, "t.m")?;
    let text = text_of(alloc, text)?;
    let parts = endless_parts_of(alloc, name, text)?;
    Ok(Program::new(parts))
}

/// The program of a template that gives this text and then calls itself.
pub(crate) fn endless_program_of(alloc: Global, text: &str) -> Option<Rc<Program>> {
    let program = endless_program(alloc, text).ok()?;
    Rc::new(alloc, program).ok()
}
