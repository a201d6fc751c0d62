//! Variables, and what they are bound to.

use crate::links::Links;
use soy_base::Kind;
use soy_expr::Made;
use template_ir::Block;

/// A part of the data, by the place of a variable and the way down from the part that it is bound to.
#[derive(Drop)]
pub(crate) enum Path {
    /// All of that part.
    Whole(usize),
    /// The item, entry or field of a number. Most paths are such, and take no memory.
    Child(usize, usize),
    /// The numbers of items and entries on the way down.
    Deep(usize, Vec<usize>),
}

/// What a variable is bound to.
#[derive(Drop)]
pub(crate) enum Held {
    /// A value that an expression or a block of kind text made.
    Made(Made),
    /// All data.
    Root,
    /// The item, entry or field of a number in the part that the variable at a place is bound to.
    Item(usize, usize),
    Part(Path),
    /// A block of kind html or attributes.
    Block(Kept),
}

/// A block, the number of the variables where it is written, and how many calls may still be opened from it.
#[derive(Clone, Copy)]
pub(crate) struct Kept {
    pub(crate) kind: Kind,
    pub(crate) block: Block,
    pub(crate) env: usize,
    pub(crate) left: u32,
}

/// Where the name of a variable stands in the program.
#[derive(Clone, Copy)]
pub(crate) enum Naming {
    /// A variable that no expression names.
    Hidden,
    /// The variable of the loop, let or block at a place.
    Op(usize),
    /// The variable of the index of the loop at a place.
    Index(usize),
    /// What the call at a place hands, by its number.
    Handed(usize, usize),
    /// A parameter of a template, by the numbers of both.
    Param(usize, usize),
}

/// A variable, and the number of the variables below it: 0 where there are none, else one more than the place of the
/// next.
#[derive(Drop)]
pub(crate) struct Bound {
    pub(crate) name: Naming,
    pub(crate) to: Held,
    pub(crate) below: usize,
    pub(crate) links: Links,
}
