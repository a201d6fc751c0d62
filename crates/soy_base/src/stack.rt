//! A stack, which contracts see as a list with its top as the head.
ghost use Rattle.std.specs.Prelude.{◌≡◌, [], ◌∷◌, length, reverse, option_map, OnOk, OnErr};
ghost use Rattle.soy_base.specs.Stacks.{Pops, top_of};

use crate::OutOfMemory;
use std::alloc::Global;
use std::marker::Model;

/// A stack of items, which contracts see as the list of its items, the last that was pushed first.
#[derive(Debug, Drop)]
pub struct Stack<T> {
    items: Vec<T>,
}

impl<T> Model for Stack<T> {
    ghost use Rattle.std.specs.Prelude.{List, reverse};

    ghost Value = { List T };

    ghost view = { λ s. reverse s.items.items };
}

impl<T> Stack<T> {
    /// The stack without items. Takes no memory.
    pub fn empty(alloc: Global) -> Stack<T>
        ensures { result ≡ [] }
    {
        Stack {
            items: Vec::new(alloc),
        }
    }

    /// How many items the stack holds.
    pub fn len(&self) -> usize
        ensures { result ≡ length self.now }
    {
        self.items.len()
    }

    /// The items from the bottom to the top.
    pub fn items(&self) -> &[T]
        ensures { result.now ≡ reverse self.now }
    {
        self.items.as_slice()
    }

    /// The item that was pushed last, if there is one.
    pub fn top(&self) -> Option<&T>
        ensures { option_map (λ item. item.now) result ≡ top_of self.now }
    {
        self.items.last()
    }

    /// Takes the item that was pushed last, if there is one.
    pub fn pop(&mut self) -> Option<T>
        ensures { Pops self.old self.new result }
    {
        self.items.pop()
    }
}

impl<T: Drop> Stack<T> {
    /// Puts an item on the top.
    pub fn push(&mut self, item: T) -> Result<(), OutOfMemory>
        ensures ok { OnOk result (self.new ≡ item ∷ self.old) }
        ensures unchanged { OnErr result (self.new ≡ self.old) }
    {
        self.items.push(item)?;
        Ok(())
    }
}
