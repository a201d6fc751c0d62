//! The classes of ASCII characters.
ghost use Rattle.std.specs.Prelude.{◌≡◌, ◌<◌};
ghost use Rattle.bidi_class.specs.Class.{bidi_class};

use crate::class::Class::{self, B, BN, CS, EN, ES, ET, L, ON, S, WS};

/// The class of each ASCII character, sixteen in a line.
static ASCII: [Class; 128] = [
    BN, BN, BN, BN, BN, BN, BN, BN, BN, S, B, S, WS, B, BN, BN, //
    BN, BN, BN, BN, BN, BN, BN, BN, BN, BN, BN, BN, B, B, B, S, //
    WS, ON, ON, ET, ET, ET, ON, ON, ON, ON, ON, ES, CS, ES, CS, CS, //
    EN, EN, EN, EN, EN, EN, EN, EN, EN, EN, CS, ON, ON, ON, ON, ON, //
    ON, L, L, L, L, L, L, L, L, L, L, L, L, L, L, L, //
    L, L, L, L, L, L, L, L, L, L, L, ON, ON, ON, ON, ON, //
    ON, L, L, L, L, L, L, L, L, L, L, L, L, L, L, L, //
    L, L, L, L, L, L, L, L, L, L, L, ON, ON, ON, ON, BN, //
];

/// The class of an ASCII character.
#[inline]
pub(crate) fn ascii_class(c: char) -> Class
    requires { c < 0x80 }
    ensures { result ≡ bidi_class c }
{
    ASCII[c as usize]
}
