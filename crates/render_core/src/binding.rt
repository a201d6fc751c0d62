//! Binding variables.

ghost use Rattle.std.specs.Prelude.{◌≡◌};
ghost use Rattle.render_core.specs.Finds.{held_of, held_part};

use crate::held::{Held, Path};
use crate::valuing::Found;

/// What a variable is bound to that has this value.
pub(crate) fn held(found: Found) -> Held
    ensures { result ≡ held_of found }
{
    match found {
        Found::Made(made) => Held::Made(made),
        Found::Part(path) => held_part(path),
        Found::Block(kept) => Held::Block(kept),
    }
}

/// What a variable is bound to that is the part that a path names.
fn held_part(path: Path) -> Held
    ensures { result ≡ held_part path }
{
    match path {
        Path::Whole(of) => Held::Part(Path::Whole(of)),
        Path::Child(of, number) => Held::Item(of, number),
        Path::Deep(of, steps) => Held::Part(Path::Deep(of, steps)),
    }
}
