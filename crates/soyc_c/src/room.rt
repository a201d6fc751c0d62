//! The rooms of a caller.

ghost use Rattle.std.specs.Prelude.{◌≡◌, length};
ghost use Rattle.soyc_c.specs.Room.{filled};

/// The whole lengths of what stands in the two rooms of a call, or would stand there if they were large enough.
#[repr(C)]
#[derive(Clone, Copy)]
pub struct Lengths {
    /// Of what is for the output.
    pub out: usize,
    /// Of what is for standard error.
    pub err: usize,
}

/// Puts the beginning of a text that fits into a room, and says how long the whole text is.
pub(crate) fn fill(room: &mut [u8], text: &[u8]) -> usize
    ensures filled { room.new ≡ filled room.old text.now }
    ensures whole { result ≡ length text.now }
{
    let count = room.len().min(text.len());
    room[..count].copy_from_slice(&text[..count]);
    text.len()
}
