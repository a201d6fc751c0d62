//! A list, which contracts see as the list of its items.
ghost use Rattle.std.specs.Prelude.{◌≡◌};

use std::marker::Model;

/// A list of items, which contracts see as that list alone: not its allocator, nor its room.
#[derive(Debug, Drop)]
pub struct Seq<T> {
    items: Vec<T>,
}

impl<T> Model for Seq<T> {
    ghost use Rattle.std.specs.Prelude.{List};
    ghost use Rattle.std.specs.Coded.{coded_list};

    ghost Value = { List T };

    ghost coded = { coded_list T.code };

    ghost view = { λ s. s.items.items };
}

impl<T> Seq<T> {
    /// The list of these items. Takes no memory.
    pub fn new(items: Vec<T>) -> Seq<T>
        ensures { result ≡ items.items }
    {
        Seq { items }
    }

    /// The items, in order.
    pub fn items(&self) -> &[T]
        ensures { result.now ≡ self.now }
    {
        self.items.as_slice()
    }
}
