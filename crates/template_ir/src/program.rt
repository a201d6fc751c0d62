//! Programs.

ghost use Rattle.std.specs.Prelude.{◌≡◌, IsTrue, option_map, slice_get};
ghost use Rattle.template_ir.specs.Run.{category_in};
ghost use Rattle.template_ir.specs.ViewOps.{view_op, view_program, view_routine};
ghost use Rattle.template_ir.specs.Sound.{is_sound};

use crate::{Block, Op};
use plural_rules::{Category, Rules};
use soy_base::{Dir, Kind, Seq, Text};
use soy_tree::Param;
use std::marker::Model;

/// A template of a program, under its full name.
#[derive(Drop)]
pub struct Routine {
    pub name: Text,
    pub kind: Kind,
    pub private: bool,
    pub params: Seq<Param>,
    pub body: Block,
}

/// What a program is made of: its templates, the ops that their blocks name, and the direction and the plural rules of
/// the bundle that it was compiled under.
#[derive(Drop)]
pub struct ProgramParts {
    pub templates: Seq<Routine>,
    pub ops: Seq<Op>,
    pub dir: Dir,
    pub plural: Rules,
    pub ordinal: Rules,
}

/// A program that can't go wrong, which contracts see as its parts.
#[derive(Drop)]
pub struct Program {
    parts: ProgramParts,
}

impl Model for Program {
    ghost use Rattle.std.specs.Prelude.{IsTrue};
    ghost use Rattle.std.specs.Coded.{codes};
    ghost use Rattle.soy_tree.specs.contracts.soy_type.SoyType as soy_type;
    ghost use Rattle.soy_tree.specs.contracts.expr.Expr as expr;
    ghost use Rattle.template_ir.specs.Sound.{is_sound};
    ghost use Rattle.template_ir.specs.ViewOps.{view_program};
    ghost use Rattle.template_ir.specs.declared.program.ProgramParts.{ProgramParts};

    ghost Value = { ProgramParts };

    ghost coded = { Prim.hlevel (codes, soy_type.the_row.coded, expr.the_row.coded) };

    ghost view = { λ p. p.parts };

    ghost invariant = { λ p. IsTrue (is_sound (view_program p.parts)) };
}

impl Program {
    /// The program of these parts, which can't go wrong. Takes no memory.
    pub fn new(parts: ProgramParts) -> Program
        requires { IsTrue (is_sound (view_program parts)) }
        ensures { result ≡ parts }
    {
        Program { parts }
    }

    /// What it is made of.
    pub fn parts(&self) -> &ProgramParts
        ensures parts { result.now ≡ self.now }
        ensures sound { IsTrue (is_sound (view_program result.now)) }
    {
        &self.parts
    }
}

impl ProgramParts {
    /// The op at a place, or none. Takes no memory.
    pub fn op(&self, at: usize) -> Option<&Op>
        ensures { option_map (λ o. o.now) result ≡ slice_get self.now.ops at }
    {
        self.ops.items().get(at)
    }

    /// The template of a number, or none. Takes no memory.
    pub fn template(&self, number: usize) -> Option<&Routine>
        ensures { option_map (λ r. r.now) result ≡ slice_get self.now.templates number }
    {
        self.templates.items().get(number)
    }

    /// The category of a number, by the rules for ordinals or by those for counts. Takes no memory.
    pub fn category(&self, ordinal: bool, number: i64) -> Category
        ensures { result ≡ category_in (view_program self.now) ordinal number }
    {
        if ordinal {
            self.ordinal.category(number)
        } else {
            self.plural.category(number)
        }
    }
}
