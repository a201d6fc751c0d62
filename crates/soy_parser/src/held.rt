//! A part that is large, behind a box, so that what it stands in is moved at little cost.

ghost use Rattle.std.specs.Prelude.{◌≡◌, IfOk};
ghost use Rattle.expr_parser.specs.ExprSteps.{expr_step, given, stepped};
ghost use Rattle.soy_parser.specs.Heads.{with_attribute};
ghost use Rattle.soy_parser.specs.Reached.{reached};

use crate::attributes::{AttributeName, Attributes};
use expr_parser::{ExprState, Operand};
use soy_base::{OutOfMemory, Text};
use soy_lexer::Token;
use std::alloc::Global;
use std::marker::Model;
use std::mem::replace;

/// A box that contracts see as what it holds.
#[derive(Drop)]
pub struct Held<T> {
    item: Box<T>,
}

impl<T> Model for Held<T> {
    ghost Value = { T };

    ghost coded = { T.code };

    ghost view = { λ h. h.item.value };
}

impl<T> Held<T> {
    /// What is held.
    pub(crate) fn get(&self) -> &T
        ensures { result.now ≡ self.now }
    {
        &self.item
    }

    /// What was held, in whose place this is now.
    pub(crate) fn replaced(&mut self, item: T) -> T
        ensures before { result ≡ self.old }
        ensures item { self.new ≡ item }
    {
        replace(&mut *self.item, item)
    }

    /// What is held, moved out.
    pub(crate) fn taken(self) -> T
        ensures { result ≡ self }
    {
        Box::into_inner(self.item)
    }
}

impl<T: Drop> Held<T> {
    /// The item, held.
    pub(crate) fn new(alloc: Global, item: T) -> Result<Held<T>, OutOfMemory>
        ensures { IfOk result (λ h. h ≡ item) }
    {
        Ok(Held {
            item: Box::new(alloc, item)?,
        })
    }
}

/// What a token does to the expression that is held, as `ExprState::step` says.
pub(crate) fn expr_takes(
    state: &mut Held<ExprState>,
    alloc: Global,
    token: &Token,
) -> Result<bool, OutOfMemory>
    ensures { IfOk result (λ on. stepped on state.new ≡ expr_step state.old token.now) }
{
    state.item.step(alloc, token)
}

/// What was read of the expression that is held, as `ExprState::given` says.
pub(crate) fn given_by(state: &mut Held<ExprState>) -> Option<Operand>
    ensures { result ≡ given state.old.expected }
{
    state.item.given()
}

/// One more attribute among those that are held, as `Attributes::add` says.
pub(crate) fn attribute_added(
    attributes: &mut Held<Attributes>,
    alloc: Global,
    name: AttributeName,
    value: &Text,
) -> Result<bool, OutOfMemory>
    ensures { IfOk result (λ on. reached on attributes.new ≡ with_attribute attributes.old name value.now) }
{
    attributes.item.add(alloc, name, value)
}
