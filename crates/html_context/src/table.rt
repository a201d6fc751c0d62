//! Templates as a table: flat rows, each of which names rows that stand before it.

use crate::fault::Site;
use soy_base::{Kind, Seq, Text, ValueClass};

/// What stands at one number of a table. A number that isn't smaller than the row's own stands for nothing.
#[derive(Drop)]
pub(crate) enum Row {
    /// A static text, which gives nothing where it is empty.
    Text(Site, Text),
    /// A hole, and the classes that its values may have.
    Hole(Site, Seq<ValueClass>),
    /// The rows of these numbers, one after the other.
    InTurn(Seq<usize>),
    /// Arms that meet, in their order.
    Meet(Site, Seq<usize>),
    /// A body that is followed any number of times.
    Loop(Site, usize),
    /// A frame of its own, and the site of its closing command.
    Frame(Kind, Site, usize),
}

/// The rows of all templates, and the number of the row that has them all, in their order.
#[derive(Drop)]
pub(crate) struct Table {
    pub rows: Vec<Row>,
    pub root: usize,
}
