//! The walk that covers: it follows all states together that may come to a row, whatever lists of them come.
//!
//! Where it meets no fault, the exact walk meets none from any list of these states and gives the same places. So a
//! loop's body is followed once from all states at its head, instead of from each list of them. A fault that it gives
//! says only that it covers nothing: which one the exact walk meets first, if any, depends on the lists.

ghost use Rattle.std.specs.Prelude.{◌≡◌, ◌<◌, [], IfOk, IfSome, OnOk, map};
ghost use Rattle.soy_meaning.specs.Paths.Plan.{Frame, Loop, arms_meet, in_turn};
ghost use Rattle.html_context.specs.Covers.{AllHeads, Covers, IsHead, PassedBy, Within};
ghost use Rattle.html_context.specs.RowPlans.{plan_below, plans_before, row_plan};
ghost use Rattle.html_context.specs.Walks.{view_site};

use crate::fault::{Site, Stop, stop};
use crate::heads::{Head, Heads, head_around, keep_head, no_heads, with_last};
use crate::hole::hole;
use crate::memo::add_places;
use crate::states::{all_may_end, copied, join};
use crate::table::Row;
use crate::text::text;
use html_state::State;
use soy_base::{Code, Kind, OutOfMemory, Place, Refusal};
use std::alloc::Global;

/// What the walk goes by: the rows of the table.
#[derive(Drop)]
pub(crate) struct Cover<'t> {
    pub alloc: Global,
    pub rows: &'t [Row],
}

impl<'t> Cover<'t> {
    /// The states after the row of a number that is smaller than the limit; else they stay.
    #[cycle(covering)]
    #[tactic(auto, using(crate::proofs::RowPlans::below_none, crate::proofs::RowPlans::below_past, crate::proofs::RowPlans::below_row, crate::proofs::Covering::nothing_covers))]
    fn row(
        &self,
        limit: usize,
        number: usize,
        states: Vec<State>,
        places: &mut Vec<Place>,
        heads: &mut Heads,
    ) -> Result<Vec<State>, Stop>
        requires { AllHeads self.now.rows.now heads.old }
        ensures covers { IfOk result (λ after. Covers (plan_below self.now.rows.now limit number)
            states.items places.old.items after.items places.new.items) }
        ensures kept { OnOk result (AllHeads self.now.rows.now heads.new) }
    {
        if limit <= number {
            return Ok(states);
        }
        match self.rows.get(number) {
            None => Ok(states),
            Some(row) => self.one(number, row, states, places, heads),
        }
    }

    /// The states after a row that has this number.
    #[cycle(covering)]
    #[tactic(auto, using(crate::proofs::Covering::text_covers, crate::proofs::Covering::hole_covers, crate::proofs::Covering::passed_covers))]
    fn one(
        &self,
        number: usize,
        row: &Row,
        states: Vec<State>,
        places: &mut Vec<Place>,
        heads: &mut Heads,
    ) -> Result<Vec<State>, Stop>
        requires { AllHeads self.now.rows.now heads.old }
        ensures covers { IfOk result (λ after. Covers (row_plan (plans_before self.now.rows.now number) row.now)
            states.items places.old.items after.items places.new.items) }
        ensures kept { OnOk result (AllHeads self.now.rows.now heads.new) }
    {
        match row {
            Row::Text(at, content) => text(self.alloc, *at, content, states, places),
            Row::Hole(at, classes) => hole(self.alloc, *at, classes.items(), &states, places),
            Row::InTurn(numbers) => self.in_turn(number, numbers.items(), states, places, heads),
            Row::Meet(at, numbers) => {
                self.meet(*at, number, numbers.items(), &states, places, heads)
            }
            Row::Loop(at, body) => self.looped(*at, number, *body, states, places, heads),
            Row::Frame(kind, at, body) => {
                self.frame(*kind, *at, number, *body, places, heads)?;
                Ok(states)
            }
        }
    }

    /// The states after rows, one after the other.
    #[cycle(covering)]
    #[tactic(auto, using(crate::proofs::Covering::reaches_itself, crate::proofs::Covering::turn_more, crate::proofs::Covering::turn_ends))]
    fn in_turn(
        &self,
        limit: usize,
        numbers: &[usize],
        states: Vec<State>,
        places: &mut Vec<Place>,
        heads: &mut Heads,
    ) -> Result<Vec<State>, Stop>
        requires { AllHeads self.now.rows.now heads.old }
        ensures covers { IfOk result (λ after.
            Covers (in_turn (map (λ n. plan_below self.now.rows.now limit n) numbers.now))
            states.items places.old.items after.items places.new.items) }
        ensures kept { OnOk result (AllHeads self.now.rows.now heads.new) }
    {
        let mut now = states;
        for number in numbers {
            now = self.row(limit, *number, now, places, heads)?;
        }
        Ok(now)
    }

    /// The states after arms, each of which begins with the states before them.
    #[cycle(covering)]
    #[tactic(auto, using(crate::proofs::Covering::arms_begin, crate::proofs::Covering::arms_more, crate::proofs::Covering::arms_end))]
    fn meet(
        &self,
        at: Site,
        limit: usize,
        numbers: &[usize],
        before: &[State],
        places: &mut Vec<Place>,
        heads: &mut Heads,
    ) -> Result<Vec<State>, Stop>
        requires { AllHeads self.now.rows.now heads.old }
        ensures covers { IfOk result (λ after.
            Covers (arms_meet (view_site at) (map (λ n. plan_below self.now.rows.now limit n) numbers.now))
            before.now places.old.items after.items places.new.items) }
        ensures kept { OnOk result (AllHeads self.now.rows.now heads.new) }
    {
        let mut joined = Vec::new(self.alloc);
        for number in numbers {
            let after = self.row(limit, *number, copied(self.alloc, before)?, places, heads)?;
            join(&mut joined, &after)?;
            if 16 < joined.len() {
                return Err(stop(at, Code::States));
            }
        }
        if joined.is_empty() {
            return Err(stop(at, Code::States));
        }
        Ok(joined)
    }

    /// The states at the head of a loop, which stay as they are from turn to turn.
    #[cycle(covering)]
    #[tactic(auto, using(crate::proofs::LoopHeads::head_covers))]
    fn looped(
        &self,
        at: Site,
        limit: usize,
        body: usize,
        states: Vec<State>,
        places: &mut Vec<Place>,
        heads: &mut Heads,
    ) -> Result<Vec<State>, Stop>
        requires { AllHeads self.now.rows.now heads.old }
        ensures covers { IfOk result (λ after.
            Covers (Loop (view_site at) (plan_below self.now.rows.now limit body))
            states.items places.old.items after.items places.new.items) }
        ensures kept { OnOk result (AllHeads self.now.rows.now heads.new) }
    {
        if limit <= body {
            return Err(stop(at, Code::States));
        }
        if let Some(head) = head_around(self.rows, heads, body, &states) {
            add_places(places, &head.places)?;
            return Ok(copied(self.alloc, &head.states)?);
        }
        let head = self.grown(at, limit, body, states, heads)?;
        add_places(places, &head.places)?;
        let after = copied(self.alloc, &head.states)?;
        keep_head(self.rows, heads, head)?;
        Ok(after)
    }

    /// A head of a body that has these states: they grow until the body leads to no others.
    #[cycle(covering)]
    #[tactic(auto, using(crate::proofs::LoopHeads::head_is, crate::proofs::Covering::within_grown))]
    fn grown(
        &self,
        at: Site,
        limit: usize,
        body: usize,
        states: Vec<State>,
        heads: &mut Heads,
    ) -> Result<Head, Stop>
        requires kept { AllHeads self.now.rows.now heads.old }
        requires below { body < limit }
        ensures head { IfOk result (λ head. IsHead self.now.rows.now head) }
        ensures body { IfOk result (λ head. head.body ≡ body) }
        ensures around { IfOk result (λ head. Within states.items head.states.items) }
        ensures kept { OnOk result (AllHeads self.now.rows.now heads.new) }
    {
        let mut around = with_last(heads, body, states)?;
        for turn in 0..17usize {
            let mut places = Vec::new(self.alloc);
            let before = copied(self.alloc, &around)?;
            let after = self.row(limit, body, before, &mut places, heads)?;
            let count = around.len();
            join(&mut around, &after)?;
            if 16 < around.len() {
                return Err(stop(at, Code::States));
            }
            if around.len() == count {
                return Ok(Head {
                    body,
                    states: around,
                    places,
                });
            }
        }
        Err(stop(at, Code::States))
    }

    /// A frame of its own, from the start of its kind. The states around it stay.
    #[cycle(covering)]
    #[tactic(auto, using(crate::proofs::Covering::frame_passed))]
    fn frame(
        &self,
        kind: Kind,
        end: Site,
        limit: usize,
        body: usize,
        places: &mut Vec<Place>,
        heads: &mut Heads,
    ) -> Result<(), Stop>
        requires { AllHeads self.now.rows.now heads.old }
        ensures passed { OnOk result (PassedBy (Frame kind (view_site end) (plan_below self.now.rows.now limit body))
            places.old.items places.new.items) }
        ensures kept { OnOk result (AllHeads self.now.rows.now heads.new) }
    {
        let start = copied(self.alloc, &[State::start(kind)])?;
        let after = self.row(limit, body, start, places, heads)?;
        if !all_may_end(kind, &after) {
            return Err(stop(end, Code::EndState));
        }
        Ok(())
    }
}

/// The places of a row's frame, where no list of states meets a fault in it. `None` says nothing.
#[tactic(auto, using(crate::proofs::RowPlans::below_row))]
pub(crate) fn covered_frame(
    alloc: Global,
    rows: &[Row],
    limit: usize,
    number: usize,
) -> Result<Option<Vec<Place>>, OutOfMemory>
    ensures { IfOk result (λ found. IfSome found (λ places.
        PassedBy (plan_below rows.now limit number) [] places.items)) }
{
    if limit <= number {
        return Ok(None);
    }
    let Some(Row::Frame(kind, at, body)) = rows.get(number) else {
        return Ok(None);
    };
    let cover = Cover { alloc, rows };
    let mut places = Vec::new(alloc);
    let mut heads = no_heads(rows, alloc);
    match cover.frame(*kind, *at, number, *body, &mut places, &mut heads) {
        Ok(()) => Ok(Some(places)),
        Err(Refusal::Because(_)) => Ok(None),
        Err(Refusal::OutOfMemory) => Err(OutOfMemory),
    }
}
