//! How far a text is escaped, and the steps that go on from there.
ghost use Rattle.std.specs.Prelude.{◌≡◌, ◌≤◌, ◌<◌, [], length};
ghost use Rattle.std.specs.Str.{IsCharBoundary};
ghost use Rattle.value_cursor.specs.BytesLeft.{bytes_after, IsPlan};
ghost use Rattle.value_cursor.specs.Gives.{Gives};

use crate::plan::Plan;
use crate::runs::{clipped, plain_run};
use esc_table::Tail;
use soy_base::first;

/// How far a text is escaped.
#[derive(Debug, Drop)]
pub(crate) struct Progress {
    /// The bytes that come before those of the characters at the offset and after it.
    pub(crate) pending: Tail,
    /// Where the characters begin that are still to be escaped.
    pub(crate) offset: usize,
}

impl Progress {
    /// Gives as many of the bytes that are left as the room takes.
    pub(crate) fn run(&mut self, plan: &Plan, source: &str, room: &mut [u8]) -> usize
        requires plan { IsPlan plan.now }
        requires boundary { IsCharBoundary source.now self.old.offset }
        ensures gives { Gives (bytes_after plan.now source.now self.old) (bytes_after plan.now source.now self.new)
            room.old room.new result }
        ensures boundary { IsCharBoundary source.now self.new.offset }
        ensures finished { result < length room.old → (self.new.pending ≡ []) × (self.new.offset ≡ length source.now) }
    {
        let mut filled = self.pending.take(room);
        while filled < room.len() && self.offset < source.len() {
            filled += self.step(plan, source, &mut room[filled..]);
        }
        filled
    }

    /// Gives the run of characters that stand for themselves, and what the room takes of the form of the next one.
    fn step(&mut self, plan: &Plan, source: &str, room: &mut [u8]) -> usize
        requires plan { IsPlan plan.now }
        requires boundary { IsCharBoundary source.now self.old.offset }
        requires none_pending { self.old.pending ≡ [] }
        requires more { self.old.offset < length source.now }
        ensures gives { Gives (bytes_after plan.now source.now self.old) (bytes_after plan.now source.now self.new)
            room.old room.new result }
        ensures boundary { IsCharBoundary source.now self.new.offset }
        ensures further { self.old.offset < self.new.offset }
        ensures full { result < length room.old → self.new.pending ≡ [] }
    {
        let copied = self.copy_run(plan, source, room);
        if self.offset >= source.len() {
            return copied;
        }
        copied + self.give_next(plan, source, &mut room[copied..])
    }

    /// Gives the run of characters that stand for themselves, as much of it as the room takes.
    fn copy_run(&mut self, plan: &Plan, source: &str, room: &mut [u8]) -> usize
        requires plan { IsPlan plan.now }
        requires boundary { IsCharBoundary source.now self.old.offset }
        requires none_pending { self.old.pending ≡ [] }
        ensures gives { Gives (bytes_after plan.now source.now self.old) (bytes_after plan.now source.now self.new)
            room.old room.new result }
        ensures boundary { IsCharBoundary source.now self.new.offset }
        ensures none_pending { self.new.pending ≡ [] }
        ensures later { self.old.offset ≤ self.new.offset }
    {
        let (_, rest) = source.split_at(self.offset);
        let (run, _) = plain_run(plan, clipped(rest, room.len()));
        room[..run.len()].copy_from_slice(run.as_bytes());
        self.offset += run.len();
        run.len()
    }

    /// Gives what the room takes of the form of the next character. A form of ASCII that it takes whole doesn't become
    /// pending.
    fn give_next(&mut self, plan: &Plan, source: &str, room: &mut [u8]) -> usize
        requires plan { IsPlan plan.now }
        requires boundary { IsCharBoundary source.now self.old.offset }
        requires none_pending { self.old.pending ≡ [] }
        ensures gives { Gives (bytes_after plan.now source.now self.old) (bytes_after plan.now source.now self.new)
            room.old room.new result }
        ensures boundary { IsCharBoundary source.now self.new.offset }
        ensures later { self.old.offset ≤ self.new.offset }
        ensures further { self.old.offset < length source.now → self.old.offset < self.new.offset }
        ensures full { result < length room.old → self.new.pending ≡ [] }
    {
        let (_, rest) = source.split_at(self.offset);
        match plan.ascii_form(rest) {
            Some(form) if form.len() <= room.len() => {
                room[..form.len()].copy_from_slice(form.as_bytes());
                self.offset += 1;
                form.len()
            }
            _ => {
                self.put_next(plan, source);
                self.pending.take(room)
            }
        }
    }

    /// Makes the form of the next character pending, if there is one.
    fn put_next(&mut self, plan: &Plan, source: &str)
        requires plan { IsPlan plan.now }
        requires boundary { IsCharBoundary source.now self.old.offset }
        requires none_pending { self.old.pending ≡ [] }
        ensures same { bytes_after plan.now source.now self.new ≡ bytes_after plan.now source.now self.old }
        ensures boundary { IsCharBoundary source.now self.new.offset }
        ensures later { self.old.offset ≤ self.new.offset }
        ensures further { self.old.offset < length source.now → self.old.offset < self.new.offset }
    {
        let (_, rest) = source.split_at(self.offset);
        if let Some((c, _)) = first(rest) {
            plan.put(self.offset, c, &mut self.pending);
            self.offset += c.len_utf8();
        }
    }
}
