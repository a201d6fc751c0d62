//! Pulls pages.

ghost use Rattle.std.specs.Prelude.{◌≡◌, ◌<◌};
ghost use Rattle.soy_page.specs.Pulled.{PullsPage};

use crate::page::Page;
use crate::templates::Templates;
use soy_base::{Refusal, Steps, TooDeep};
use std::marker::Brand;
use std::sync::ledger::{Blank, Ledger};

impl Page {
    /// Its templates.
    pub fn templates(&self) -> &Templates
        ensures { result.now ≡ self.now.templates }
    {
        &self.templates
    }

    /// Gives the next bytes to the beginning of the room, at least one where one is left and the room isn't empty, and
    /// answers their number. (It goes on to the next piece while there is room, but memory may run out before that, and
    /// then it answers what it gave: so no clause says that the room is filled.)
    pub fn pull(&mut self, room: &mut [u8]) -> Result<usize, Refusal<TooDeep>>
        ensures { PullsPage self.old room.old room.new result self.new }
    {
        let mut given = self.pull_piece(room)?;
        if given == 0 {
            return Ok(0);
        }
        while given < room.len() {
            match self.pull_piece(&mut room[given..]) {
                Ok(0) => return Ok(given),
                Ok(more) => given += more,
                // (what is refused is so at the next pull, too, or memory is there again)
                Err(_) => return Ok(given),
            }
        }
        Ok(given)
    }

    /// Gives the next bytes of one piece.
    fn pull_piece(&mut self, room: &mut [u8]) -> Result<usize, Refusal<TooDeep>>
        ensures { PullsPage self.old room.old room.new result self.new }
    {
        self.pull_counted::<Brand>(room, Blank::new(1))
    }

    /// The same by a counter of its own.
    fn pull_counted<L: Ledger>(
        &mut self,
        room: &mut [u8],
        blank: Blank,
    ) -> Result<usize, Refusal<TooDeep>>
        requires name { blank.name ≡ L.name }
        requires parts { blank.parts ≡ L.parts }
        requires some { 0 < blank.parts }
        ensures { PullsPage self.old room.old room.new result self.new }
    {
        let mut steps = Steps::<L>::new(blank);
        let program = &self.templates.compiled.program;
        self.rendering.pull(program, &self.input, room, &mut steps)
    }
}
