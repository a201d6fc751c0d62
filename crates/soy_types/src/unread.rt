//! Why nothing is read over lent texts.

ghost use Rattle.std.specs.Prelude.{◌≡◌};

use json::Invalid;
use soy_base::OutOfMemory;

/// Why there is no value: nothing fits, this way of reading can't say, or memory ran out. Of a reading token by token a
/// value alone says something: there `Unfit` may be of a member that a later one of its name replaces.
#[derive(Clone, Copy, Drop)]
pub(crate) enum Unread {
    Unfit,
    Undecided,
    OutOfMemory,
}

impl From<OutOfMemory> for Unread {
    ghost use Rattle.soy_types.specs.declared.unread.Unread.TheVariants as unread;

    ghost from_gives = { λ _ r. r ≡ unread.OutOfMemory };

    fn from(_: OutOfMemory) -> Unread {
        Unread::OutOfMemory
    }
}

impl From<Invalid> for Unread {
    ghost use Rattle.soy_types.specs.declared.unread.Unread.TheVariants as unread;

    ghost from_gives = { λ _ r. r ≡ unread.Undecided };

    fn from(_: Invalid) -> Unread {
        Unread::Undecided
    }
}
