//! The walk over a table: each function gives what the walk gives of the plan of what it is given.

ghost use Rattle.std.specs.Prelude.{◌≡◌, ◌<◌, [], OnOk, map};
ghost use Rattle.soy_meaning.specs.Walks.PageMachine.{page_machine};
ghost use Rattle.soy_meaning.specs.Paths.Plan.{Frame, Loop, arms_meet, in_turn};
ghost use Rattle.soy_meaning.specs.Walks.Walk.{walk, walked};
ghost use Rattle.html_context.specs.JoinedArms.{joined_arm};
ghost use Rattle.html_context.specs.Kept.{AllKept};
ghost use Rattle.html_context.specs.RowPlans.{plan_at, plan_below, row_plan, plans_before};
ghost use Rattle.html_context.specs.Walks.{Gives, Walks, view_site};

use crate::cover::covered_frame;
use crate::fault::{Site, Stop, stop};
use crate::hole::{hole, within_limit};
use crate::memo::{Kept, Memo, add_places, keep, kept_from, key_of, new_memo};
use crate::states::{all_may_end, copied, join};
use crate::table::{Row, Table};
use crate::text::text;
use html_state::State;
use soy_base::{Code, Kind, Place};
use std::alloc::Global;

/// What the walk goes by: the rows of the table.
#[derive(Drop)]
pub(crate) struct Walker<'t> {
    pub alloc: Global,
    pub rows: &'t [Row],
}

impl<'t> Walker<'t> {
    /// The states after the row of a number that is smaller than the limit; else they stay.
    #[cycle(walking)]
    #[tactic(auto, using(crate::proofs::RowPlans::below_none, crate::proofs::RowPlans::below_past, crate::proofs::RowPlans::below_row))]
    fn row(
        &self,
        limit: usize,
        number: usize,
        states: Vec<State>,
        places: &mut Vec<Place>,
        memo: &mut Memo,
    ) -> Result<Vec<State>, Stop>
        requires { AllKept self.now.rows.now memo.old }
        ensures walk { Walks (walk page_machine (plan_below self.now.rows.now limit number)
            (walked states.items places.old.items)) places.new.items result }
        ensures kept { OnOk result (AllKept self.now.rows.now memo.new) }
    {
        if limit <= number {
            return Ok(states);
        }
        match self.rows.get(number) {
            None => Ok(states),
            Some(row) => self.one(number, row, states, places, memo),
        }
    }

    /// The states after a row that has this number.
    #[cycle(walking)]
    fn one(
        &self,
        number: usize,
        row: &Row,
        states: Vec<State>,
        places: &mut Vec<Place>,
        memo: &mut Memo,
    ) -> Result<Vec<State>, Stop>
        requires { AllKept self.now.rows.now memo.old }
        ensures walk { Walks (walk page_machine (row_plan (plans_before self.now.rows.now number) row.now)
            (walked states.items places.old.items)) places.new.items result }
        ensures kept { OnOk result (AllKept self.now.rows.now memo.new) }
    {
        match row {
            Row::Text(at, content) => text(self.alloc, *at, content, states, places),
            Row::Hole(at, classes) => hole(self.alloc, *at, classes.items(), &states, places),
            Row::InTurn(numbers) => self.in_turn(number, numbers.items(), states, places, memo),
            Row::Meet(at, numbers) => {
                self.meet(*at, number, numbers.items(), &states, places, memo)
            }
            Row::Loop(at, body) => self.looped(*at, number, *body, states, places, memo),
            Row::Frame(kind, at, body) => {
                self.frame(*kind, *at, number, *body, states, places, memo)
            }
        }
    }

    /// The states after rows, one after the other.
    #[cycle(walking)]
    fn in_turn(
        &self,
        limit: usize,
        numbers: &[usize],
        states: Vec<State>,
        places: &mut Vec<Place>,
        memo: &mut Memo,
    ) -> Result<Vec<State>, Stop>
        requires { AllKept self.now.rows.now memo.old }
        ensures walk { Walks (walk page_machine (in_turn (map (λ n. plan_below self.now.rows.now limit n) numbers.now))
            (walked states.items places.old.items)) places.new.items result }
        ensures kept { OnOk result (AllKept self.now.rows.now memo.new) }
    {
        let mut now = states;
        for number in numbers {
            now = self.row(limit, *number, now, places, memo)?;
        }
        Ok(now)
    }

    /// The states after an arm, joined to those after the arms before it.
    #[cycle(walking)]
    fn arm(
        &self,
        limit: usize,
        number: usize,
        before: &[State],
        joined: Vec<State>,
        places: &mut Vec<Place>,
        memo: &mut Memo,
    ) -> Result<Vec<State>, Stop>
        requires { AllKept self.now.rows.now memo.old }
        ensures walk { Walks (joined_arm before.now (walked joined.items places.old.items)
            (plan_below self.now.rows.now limit number)) places.new.items result }
        ensures kept { OnOk result (AllKept self.now.rows.now memo.new) }
    {
        let after = self.row(limit, number, copied(self.alloc, before)?, places, memo)?;
        let mut joined = joined;
        join(&mut joined, &after)?;
        Ok(joined)
    }

    /// The states after arms, each of which begins with the states before them. More than 16 are refused, whichever they
    /// are, but only where no arm has a fault: so of these no more than 17 are kept.
    #[cycle(walking)]
    #[tactic(auto, using(crate::proofs::Arms::list_meets))]
    fn meet(
        &self,
        at: Site,
        limit: usize,
        numbers: &[usize],
        before: &[State],
        places: &mut Vec<Place>,
        memo: &mut Memo,
    ) -> Result<Vec<State>, Stop>
        requires { AllKept self.now.rows.now memo.old }
        ensures walk { Walks (walk page_machine
            (arms_meet (view_site at) (map (λ n. plan_below self.now.rows.now limit n) numbers.now))
            (walked before.now places.old.items)) places.new.items result }
        ensures kept { OnOk result (AllKept self.now.rows.now memo.new) }
    {
        let mut joined = Vec::new(self.alloc);
        for number in numbers {
            joined = self.arm(limit, *number, before, joined, places, memo)?;
            joined.truncate(17);
        }
        within_limit(at, joined, places)
    }

    /// The states after one turn of a loop's body. What the body did before from the same states it does again.
    #[cycle(walking)]
    #[tactic(auto, using(crate::proofs::RowPlans::below_none, crate::proofs::RowPlans::below_at, crate::proofs::PlacesApart::apart_from_none))]
    fn turn(
        &self,
        limit: usize,
        body: usize,
        before: &[State],
        places: &mut Vec<Place>,
        memo: &mut Memo,
    ) -> Result<Vec<State>, Stop>
        requires { AllKept self.now.rows.now memo.old }
        ensures walk { Walks (walk page_machine (plan_below self.now.rows.now limit body)
            (walked before.now places.old.items)) places.new.items result }
        ensures kept { OnOk result (AllKept self.now.rows.now memo.new) }
    {
        if limit <= body {
            return Ok(copied(self.alloc, before)?);
        }
        let key = key_of(self.alloc, memo, body, before)?;
        if let Some(kept) = kept_from(self.rows, memo, &key, body, before) {
            add_places(places, &kept.places)?;
            return Ok(copied(self.alloc, &kept.after)?);
        }
        self.new_turn(limit, body, key, before, places, memo)
    }

    /// The same where nothing is kept under the key.
    #[cycle(walking)]
    #[tactic(auto, using(crate::proofs::RowPlans::below_at, crate::proofs::PlacesApart::apart_from_none))]
    fn new_turn(
        &self,
        limit: usize,
        body: usize,
        key: Vec<usize>,
        before: &[State],
        places: &mut Vec<Place>,
        memo: &mut Memo,
    ) -> Result<Vec<State>, Stop>
        requires kept { AllKept self.now.rows.now memo.old }
        requires below { body < limit }
        ensures walk { Walks (walk page_machine (plan_below self.now.rows.now limit body)
            (walked before.now places.old.items)) places.new.items result }
        ensures kept { OnOk result (AllKept self.now.rows.now memo.new) }
    {
        let mut added = Vec::new(self.alloc);
        let after = self.row(limit, body, copied(self.alloc, before)?, &mut added, memo)?;
        add_places(places, &added)?;
        let kept = Kept {
            body,
            before: copied(self.alloc, before)?,
            after: copied(self.alloc, &after)?,
            places: added,
        };
        keep(self.rows, memo, key, kept)?;
        Ok(after)
    }

    /// A body again and again, until the states at its head no longer grow.
    #[cycle(walking)]
    fn looped(
        &self,
        at: Site,
        limit: usize,
        body: usize,
        states: Vec<State>,
        places: &mut Vec<Place>,
        memo: &mut Memo,
    ) -> Result<Vec<State>, Stop>
        requires { AllKept self.now.rows.now memo.old }
        ensures walk { Walks (walk page_machine (Loop (view_site at) (plan_below self.now.rows.now limit body))
            (walked states.items places.old.items)) places.new.items result }
        ensures kept { OnOk result (AllKept self.now.rows.now memo.new) }
    {
        let old_length = places.len();
        let mut head = states;
        for turn in 0..17usize {
            places.truncate(old_length);
            let after = self.turn(limit, body, &head, places, memo)?;
            let count = head.len();
            join(&mut head, &after)?;
            if 16 < head.len() {
                return Err(stop(at, Code::States));
            }
            if head.len() == count {
                return Ok(head);
            }
        }
        Err(stop(at, Code::States))
    }

    /// A frame of its own, from the start of its kind, with the states around it.
    #[cycle(walking)]
    fn frame(
        &self,
        kind: Kind,
        end: Site,
        limit: usize,
        body: usize,
        around: Vec<State>,
        places: &mut Vec<Place>,
        memo: &mut Memo,
    ) -> Result<Vec<State>, Stop>
        requires { AllKept self.now.rows.now memo.old }
        ensures walk { Walks (walk page_machine (Frame kind (view_site end) (plan_below self.now.rows.now limit body))
            (walked around.items places.old.items)) places.new.items result }
        ensures kept { OnOk result (AllKept self.now.rows.now memo.new) }
    {
        let start = copied(self.alloc, &[State::start(kind)])?;
        let after = self.row(limit, body, start, places, memo)?;
        if !all_may_end(kind, &after) {
            return Err(stop(end, Code::EndState));
        }
        Ok(around)
    }

    /// The same of a row that may be a frame. Nearly every frame is covered; the fault of one that isn't is found by
    /// the lists.
    #[tactic(auto, using(crate::proofs::Covering::passed_behind))]
    fn frame_or_row(
        &self,
        limit: usize,
        number: usize,
        states: Vec<State>,
        places: &mut Vec<Place>,
        memo: &mut Memo,
    ) -> Result<Vec<State>, Stop>
        requires { AllKept self.now.rows.now memo.old }
        ensures walk { Walks (walk page_machine (plan_below self.now.rows.now limit number)
            (walked states.items places.old.items)) places.new.items result }
        ensures kept { OnOk result (AllKept self.now.rows.now memo.new) }
    {
        if let Some(added) = covered_frame(self.alloc, self.rows, limit, number)? {
            add_places(places, &added)?;
            return Ok(states);
        }
        self.row(limit, number, states, places, memo)
    }

    /// The same of rows, one after the other, which may be frames.
    fn frames(
        &self,
        limit: usize,
        numbers: &[usize],
        states: Vec<State>,
        places: &mut Vec<Place>,
        memo: &mut Memo,
    ) -> Result<Vec<State>, Stop>
        requires { AllKept self.now.rows.now memo.old }
        ensures { Walks (walk page_machine (in_turn (map (λ n. plan_below self.now.rows.now limit n) numbers.now))
            (walked states.items places.old.items)) places.new.items result }
    {
        let mut now = states;
        for number in numbers {
            now = self.frame_or_row(limit, *number, now, places, memo)?;
        }
        Ok(now)
    }

    /// The same of a row that has this number, and may have frames one after the other.
    fn root(
        &self,
        number: usize,
        row: &Row,
        states: Vec<State>,
        places: &mut Vec<Place>,
        memo: &mut Memo,
    ) -> Result<Vec<State>, Stop>
        requires { AllKept self.now.rows.now memo.old }
        ensures { Walks (walk page_machine (row_plan (plans_before self.now.rows.now number) row.now)
            (walked states.items places.old.items)) places.new.items result }
    {
        match row {
            Row::InTurn(numbers) => self.frames(number, numbers.items(), states, places, memo),
            _ => self.one(number, row, states, places, memo),
        }
    }
}

/// The places of the holes of a table, in the order in which the walk first meets them.
#[tactic(auto, using(crate::proofs::RowPlans::at_get, crate::proofs::RowPlans::at_past, crate::proofs::NoStates::none_after))]
pub(crate) fn walk_table(alloc: Global, table: &Table) -> Result<Vec<Place>, Stop>
    ensures { Gives (λ places. walked [] places.items)
        (walk page_machine (plan_at table.now.rows.items table.now.root) (walked [] [])) result }
{
    let rows = table.rows.as_slice();
    let walker = Walker { alloc, rows };
    let mut memo = new_memo(alloc, rows);
    let mut places = Vec::new(alloc);
    if let Some(row) = rows.get(table.root) {
        walker.root(table.root, row, Vec::new(alloc), &mut places, &mut memo)?;
    }
    Ok(places)
}
