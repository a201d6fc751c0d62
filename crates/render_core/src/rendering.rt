//! Renderings.

ghost use Rattle.std.specs.Prelude.{◌≡◌, ◌<◌, ◌≤◌, ◌++◌, ℕ, [], Some, false, true, IfOk, None, length, slice_get, take};
ghost use Rattle.soy_tree.specs.ViewTrees.{view_params};
ghost use Rattle.soy_tree.specs.ViewValues.{view_value};
ghost use Rattle.soy_tree.specs.Values as values;
ghost use Rattle.soy_pieces.specs.Outcome.{end_of_outcome, pieces_of_outcome};
ghost use Rattle.template_ir.specs.Run.{run};
ghost use Rattle.soy_pieces.specs.InputEnv.{input_env, names_of};
ghost use Rattle.template_ir.specs.ViewOps.{view_program};
ghost use Rattle.template_ir.specs.declared.program.ProgramParts.{ProgramParts};
ghost use Rattle.render_core.specs.Begins.{HasRoot, entry_frame, held_field};
ghost use Rattle.render_core.specs.Pulls.{Fresh, Gave, Pulls, stops_at};
ghost use Rattle.render_core.specs.Rest.{BegunFits, Fits, IsWhole, begun_left, has_ended};
ghost use Rattle.render_core.specs.Rest.{rest_bytes, rest_end, rest_of, solid};
ghost use Rattle.render_core.specs.Variables.{cells_of, env_at, name_there, name_of_param};
ghost use Rattle.render_core.specs.declared.frame.Frame.TheVariants as frame;
ghost use Rattle.render_core.specs.declared.held.Naming.TheVariants as naming;

use crate::begun::Begun;
use crate::field_names::FieldNames;
use crate::frame::{Ahead, Frame};
use crate::held::{Held, Naming};
use crate::machine::left_of;
use crate::scene::Scene;
use crate::stack::Machine;
use crate::texts::Texts;
use crate::variable_stack::VariableStack;
use soy_base::{OutOfMemory, Refusal, Stack, Steps, TooDeep};
use soy_expr::Made;
use soy_tree::{Param, Value};
use std::alloc::Global;
use std::sync::ledger::Ledger;
use template_ir::{Block, Program, Routine};

/// A template that is being rendered: the frames and variables of what is still to be run, and the piece that has
/// begun. It is lent program and data at each call.
#[derive(Drop)]
pub struct Rendering {
    alloc: Global,
    machine: Machine,
    piece: Option<Begun>,
    done: bool,
}

impl Rendering {
    /// The rendering of a template by its number, of which nothing is given yet.
    pub fn begin(
        alloc: Global,
        program: &Program,
        input: &Value,
        template: usize,
    ) -> Result<Rendering, OutOfMemory>
        ensures fits { IfOk result (λ r. Fits program.now (view_value input.now) r) }
        ensures rest { IfOk result (λ r. rest_of program.now (view_value input.now) r
            ≡ record { begun = []; coming = solid (run (view_program program.now) template (view_value input.now)) }) }
        ensures not_done { IfOk result (λ r. has_ended r ≡ false) }
    {
        let scene = Scene {
            alloc,
            program: program.parts(),
            input,
        };
        Rendering::begin_in(&scene, template)
    }

    /// The same of any parts of a program.
    pub(crate) fn begin_in(scene: &Scene, template: usize) -> Result<Rendering, OutOfMemory>
        ensures fits { IfOk result (λ r. Fits scene.now.program.now (view_value scene.now.input.now) r) }
        ensures rest { IfOk result (λ r. rest_of scene.now.program.now (view_value scene.now.input.now) r
            ≡ record {
              begun = [];
              coming = solid (run (view_program scene.now.program.now) template
                  (view_value scene.now.input.now));
            }) }
        ensures not_done { IfOk result (λ r. has_ended r ≡ false) }
    {
        match all_data(scene) {
            Ok(bound) => Rendering::begin_over(scene, template, bound),
            Err(_) => Err(OutOfMemory),
        }
    }

    /// The same, over the variable that all data are bound to.
    fn begin_over(
        scene: &Scene,
        template: usize,
        bound: VariableStack,
    ) -> Result<Rendering, OutOfMemory>
        requires { HasRoot bound }
        ensures fits { IfOk result (λ r. Fits scene.now.program.now (view_value scene.now.input.now) r) }
        ensures rest { IfOk result (λ r. rest_of scene.now.program.now (view_value scene.now.input.now) r
            ≡ record {
              begun = [];
              coming = solid (run (view_program scene.now.program.now) template
                  (view_value scene.now.input.now));
            }) }
        ensures not_done { IfOk result (λ r. has_ended r ≡ false) }
    {
        match scene.program.template(template) {
            Some(routine) => Rendering::begin_routine(scene, template, routine, bound),
            None => {
                let none = Block { first: 0, end: 0 };
                Ok(Rendering::fresh(scene.alloc, none, 0, bound))
            }
        }
    }

    /// The rendering of a template that there is.
    fn begin_routine(
        scene: &Scene,
        template: usize,
        routine: &Routine,
        bound: VariableStack,
    ) -> Result<Rendering, OutOfMemory>
        requires root { HasRoot bound }
        requires routine { slice_get scene.now.program.now.templates template ≡ Some routine.now }
        ensures fits { IfOk result (λ r. Fits scene.now.program.now (view_value scene.now.input.now) r) }
        ensures rest { IfOk result (λ r. rest_of scene.now.program.now (view_value scene.now.input.now) r
            ≡ record {
              begun = [];
              coming = solid (run (view_program scene.now.program.now) template
                  (view_value scene.now.input.now));
            }) }
        ensures not_done { IfOk result (λ r. has_ended r ≡ false) }
    {
        let mut bound = bound;
        match bind_params(scene, &mut bound, template, routine.params.items()) {
            Ok(env) => Ok(Rendering::fresh(scene.alloc, routine.body, env, bound)),
            Err(_) => Err(OutOfMemory),
        }
    }

    /// The rendering of a block with the variables of a number.
    fn fresh(alloc: Global, body: Block, env: usize, bound: VariableStack) -> Rendering
        ensures top { result.machine.top ≡ frame.Ops (entry_frame body env) }
        ensures below { result.machine.below ≡ [] }
        ensures texts { result.machine.texts ≡ [] }
        ensures bound { result.machine.bound ≡ bound }
        ensures piece { result.piece ≡ None }
        ensures done { result.done ≡ false }
    {
        Rendering {
            alloc,
            machine: Machine {
                top: Frame::Ops(Ahead {
                    at: body.first,
                    end: body.end,
                    env,
                    left: 100,
                    number: 0,
                    mark: 0,
                }),
                below: Stack::empty(alloc),
                texts: Texts::none(alloc),
                bound,
            },
            piece: None,
            done: false,
        }
    }

    /// Gives the next bytes to the beginning of the room, of one piece alone, and answers their number.
    #[tactic(auto, using(crate::proofs::Pullings::pulled_bytes, crate::proofs::Pullings::pulled_end))]
    pub fn pull<L: Ledger>(
        &mut self,
        program: &Program,
        input: &Value,
        room: &mut [u8],
        steps: &mut Steps<L>,
    ) -> Result<usize, Refusal<TooDeep>>
        requires { Fits program.now (view_value input.now) self.old }
        ensures fits { Fits program.now (view_value input.now) self.new }
        ensures pulls { Pulls (rest_of program.now (view_value input.now) self.old).begun
            (rest_of program.now (view_value input.now) self.old) (rest_of program.now (view_value input.now) self.new)
            (has_ended self.old) (has_ended self.new) room.old room.new steps.old steps.new result }
        ensures bytes { IfOk result (λ n. rest_bytes (rest_of program.now (view_value input.now) self.old)
            ≡ take n room.new ++ rest_bytes (rest_of program.now (view_value input.now) self.new)) }
        ensures end { rest_end (rest_of program.now (view_value input.now) self.old)
            ≡ rest_end (rest_of program.now (view_value input.now) self.new) }
        ensures deep { (call : TooDeep) → (rest_of program.now (view_value input.now) self.old).begun ≡ []
            → 0 < length room.old
            → pieces_of_outcome (rest_of program.now (view_value input.now) self.old).coming ≡ []
            → end_of_outcome (rest_of program.now (view_value input.now) self.old).coming ≡ stops_at call
            → IfOk result (λ n. ⊥) }
    {
        let scene = Scene {
            alloc: self.alloc,
            program: program.parts(),
            input,
        };
        self.pull_in(&scene, room, steps)
    }

    /// The same by any parts of a program.
    pub(crate) fn pull_in<L: Ledger>(
        &mut self,
        scene: &Scene,
        room: &mut [u8],
        steps: &mut Steps<L>,
    ) -> Result<usize, Refusal<TooDeep>>
        requires { Fits scene.now.program.now (view_value scene.now.input.now) self.old }
        ensures fits { Fits scene.now.program.now (view_value scene.now.input.now) self.new }
        ensures pulls { Pulls (rest_of scene.now.program.now (view_value scene.now.input.now) self.old).begun
            (rest_of scene.now.program.now (view_value scene.now.input.now) self.old)
            (rest_of scene.now.program.now (view_value scene.now.input.now) self.new)
            (has_ended self.old) (has_ended self.new) room.old room.new steps.old steps.new result }
    {
        if self.piece.is_some() {
            Ok(self.give(scene, room))
        } else {
            self.pull_next(scene, room, steps)
        }
    }

    /// Gives the first bytes of the next piece, where none has begun.
    fn pull_next<L: Ledger>(
        &mut self,
        scene: &Scene,
        room: &mut [u8],
        steps: &mut Steps<L>,
    ) -> Result<usize, Refusal<TooDeep>>
        requires none { self.old.piece ≡ None }
        requires fits { Fits scene.now.program.now (view_value scene.now.input.now) self.old }
        ensures fits { Fits scene.now.program.now (view_value scene.now.input.now) self.new }
        ensures pulls { Fresh (rest_of scene.now.program.now (view_value scene.now.input.now) self.old)
            (rest_of scene.now.program.now (view_value scene.now.input.now) self.new)
            (has_ended self.old) (has_ended self.new) room.old room.new steps.old steps.new result }
    {
        if room.is_empty() {
            return Ok(0);
        }
        if self.done {
            return Ok(0);
        }
        match self.machine.advance(scene, room, &mut self.piece, steps) {
            Ok(Some(n)) => Ok(n),
            Ok(None) => {
                self.done = true;
                Ok(0)
            }
            Err(refusal) => Err(refusal),
        }
    }

    /// How many bytes are left of the piece that has begun.
    pub fn pending(&self) -> u128
        ensures { (p : ProgramParts) (input : values.Value) → Fits p input self.now
            → result ≡ length (rest_of p input self.now).begun }
    {
        match &self.piece {
            Some(piece) => piece.left(),
            None => 0,
        }
    }

    /// Whether a pull into a room that isn't empty has answered `Ok(0)`.
    pub fn is_done(&self) -> bool
        ensures done { result ≡ has_ended self.now }
        ensures whole { (p : ProgramParts) (input : values.Value) → Fits p input self.now → result ≡ true
            → IsWhole (rest_of p input self.now).coming × ((rest_of p input self.now).begun ≡ []) }
    {
        self.done
    }

    /// Gives bytes of the piece that has begun.
    #[inline(never)]
    fn give(&mut self, scene: &Scene, room: &mut [u8]) -> usize
        requires { BegunFits scene.now.program.now (view_value scene.now.input.now) self.old.machine.bound
            self.old.piece }
        ensures gives { Gave
            (begun_left scene.now.program.now (view_value scene.now.input.now) self.old.machine.bound
            self.old.piece)
            (begun_left scene.now.program.now (view_value scene.now.input.now) self.new.machine.bound
            self.new.piece)
            room.old room.new result }
        ensures fits { BegunFits scene.now.program.now (view_value scene.now.input.now) self.new.machine.bound
            self.new.piece }
        ensures machine { self.new.machine ≡ self.old.machine }
        ensures done { self.new.done ≡ self.old.done }
    {
        let Some(mut piece) = self.piece.take() else {
            return 0;
        };
        let n = piece.fill(self.machine.point(scene, 0), room);
        self.piece = left_of(piece);
        n
    }
}

/// The variable that all data are bound to.
#[tactic(auto, using(crate::proofs::Begins::root_first))]
fn all_data(scene: &Scene) -> Result<VariableStack, OutOfMemory>
    ensures { IfOk result (λ bound. HasRoot bound) }
{
    let mut bound = VariableStack::with_room(scene.alloc)?;
    match bound.bind(scene, Naming::Hidden, Held::Root, 0) {
        Ok(_) => Ok(bound),
        Err(_) => Err(OutOfMemory),
    }
}

/// Binds the parameters of a template, the first above the others; the number of the variables is given.
fn bind_params(
    scene: &Scene,
    bound: &mut VariableStack,
    template: usize,
    params: &[Param],
) -> Result<usize, OutOfMemory>
    requires root { HasRoot bound.old }
    requires params { (number : ℕ) → name_of_param (slice_get params.now number)
        ≡ name_there scene.now.program.now (naming.Param template number) }
    ensures env { IfOk result (λ n.
        env_at (cells_of scene.now.program.now (view_value scene.now.input.now) bound.new) n
        ≡ input_env (names_of (view_params params.now)) (view_value scene.now.input.now)) }
    ensures low { IfOk result (λ n. n ≤ length bound.new) }
    ensures root { HasRoot bound.new }
{
    let fields = FieldNames::of(scene.alloc, scene.input, params.len())?;
    let mut number = params.len();
    let mut env = 0;
    while number > 0 {
        number -= 1;
        let to = held_field(fields.find(&params[number].name));
        match bound.bind(scene, Naming::Param(template, number), to, env) {
            Ok(next) => env = next,
            Err(_) => return Err(OutOfMemory),
        }
    }
    Ok(env)
}

/// What a parameter is bound to that has the field of a number, or none.
fn held_field(field: Option<usize>) -> Held
    ensures { result ≡ held_field field }
{
    match field {
        Some(number) => Held::Item(0, number),
        None => Held::Made(Made::Null),
    }
}
