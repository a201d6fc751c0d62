//! The states at the heads of loops, for the walk that covers them.

ghost use Rattle.std.specs.Prelude.{◌≡◌, IfOk, IfSome, OnOk};
ghost use Rattle.html_context.specs.Covers.{AllHeads, IsHead, Within};

use crate::states::{has_all, join};
use crate::table::Row;
use html_state::State;
use soy_base::{OutOfMemory, Place};
use std::alloc::Global;
use std::collections::HashMap;

/// States from which the body of this row leads to no others, and the places of its holes.
#[derive(Drop)]
pub(crate) struct Head {
    pub body: usize,
    pub states: Vec<State>,
    pub places: Vec<Place>,
}

/// The heads that were found, and the number of each body's last one, which has the states of those before.
#[derive(Drop)]
pub(crate) struct Heads {
    last: HashMap<usize, usize>,
    pub kept: Vec<Head>,
}

/// No heads.
pub(crate) fn no_heads(rows: &[Row], alloc: Global) -> Heads
    ensures { AllHeads rows.now result }
{
    let _ = rows;
    Heads {
        last: HashMap::new(alloc),
        kept: Vec::new(alloc),
    }
}

/// The last head of a body, if it has each of these states.
pub(crate) fn head_around<'h>(
    rows: &[Row],
    heads: &'h Heads,
    body: usize,
    states: &[State],
) -> Option<&'h Head>
    requires { AllHeads rows.now heads.now }
    ensures head { IfSome result (λ head. IsHead rows.now head.now) }
    ensures body { IfSome result (λ head. head.now.body ≡ body) }
    ensures around { IfSome result (λ head. Within states.now head.now.states.items) }
{
    let _ = rows;
    let number = heads.last.get(&body)?;
    let head = heads.kept.get(*number)?;
    if head.body == body && has_all(&head.states, states) {
        return Some(head);
    }
    None
}

/// The last head of a body.
fn last_head<'h>(heads: &'h Heads, body: usize) -> Option<&'h Head> {
    let number = heads.last.get(&body)?;
    heads.kept.get(*number)
}

/// The states, and those of the last head of a body.
#[tactic(auto, using(crate::proofs::Covering::within_itself, crate::proofs::Covering::within_grown))]
pub(crate) fn with_last(
    heads: &Heads,
    body: usize,
    states: Vec<State>,
) -> Result<Vec<State>, OutOfMemory>
    ensures { IfOk result (λ all. Within states.items all.items) }
{
    let Some(head) = last_head(heads, body) else {
        return Ok(states);
    };
    let mut all = states;
    join(&mut all, &head.states)?;
    Ok(all)
}

/// Keeps a head as the last one of its body.
pub(crate) fn keep_head(rows: &[Row], heads: &mut Heads, head: Head) -> Result<(), OutOfMemory>
    requires all { AllHeads rows.now heads.old }
    requires one { IsHead rows.now head }
    ensures { OnOk result (AllHeads rows.now heads.new) }
{
    let _ = rows;
    let body = head.body;
    let number = heads.kept.len();
    heads.kept.push(head)?;
    heads.last.insert(body, number)?;
    Ok(())
}
