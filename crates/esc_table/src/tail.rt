//! The bytes of one character on their way into rooms.
ghost use Rattle.std.specs.Prelude.{◌≡◌, ◌+◌, ◌≤◌, [], ◌++◌, length, take, drop, min, IfSome, option_map, unwrap_or};
ghost use Rattle.std.specs.Prelude.{encode_utf8};

use arrayvec::ArrayVec;
use std::marker::Model;

/// The bytes of one character that are still to be given, at most 16.
#[derive(Debug, Drop)]
pub struct Tail {
    pending: ArrayVec<u8, 16>,
}

impl Model for Tail {
    ghost use Rattle.std.specs.Prelude.{ℕ, List};

    ghost Value = { List ℕ };

    ghost view = { λ tail. tail.pending.items };
}

impl Tail {
    /// Nothing is pending.
    pub fn empty() -> Tail
        ensures { result ≡ [] }
    {
        Tail {
            pending: ArrayVec::new(),
        }
    }

    /// Makes the bytes of the character's row pending, or its own where it has none.
    pub fn put(&mut self, c: char, row: Option<&str>)
        requires none_pending { self.old ≡ [] }
        requires size { IfSome row (λ text. length text.now ≤ 16) }
        ensures { self.new ≡ unwrap_or (option_map (λ text. text.now) row.entry) (encode_utf8 c) }
    {
        match row {
            Some(text) => self.push(text),
            None => self.push(c.encode_utf8(&mut [0; 4])),
        }
    }

    /// Makes the bytes of the text pending too, after those that are.
    pub fn push(&mut self, text: &str)
        requires size { length self.old + length text.now ≤ 16 }
        ensures { self.new ≡ self.old ++ text.now }
    {
        let _full = self.pending.try_extend_from_slice(text.as_bytes());
    }

    /// Moves the first pending bytes to the beginning of the room, as many as it takes, and gives their number.
    pub fn take(&mut self, room: &mut [u8]) -> usize
        ensures count { result ≡ min (length self.old) (length room.old) }
        ensures given { room.new ≡ take (min (length self.old) (length room.old)) self.old
            ++ drop (min (length self.old) (length room.old)) room.old }
        ensures rest { self.new ≡ drop (min (length self.old) (length room.old)) self.old }
    {
        let count = self.pending.len().min(room.len());
        room[..count].copy_from_slice(&self.pending.as_slice()[..count]);
        if count == self.pending.len() {
            self.pending.clear();
        } else {
            self.pending.drain(..count);
        }
        count
    }
}
