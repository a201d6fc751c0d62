//! Renderings that are pulled in turn.

ghost use Rattle.std.specs.Prelude.{◌≡◌, ◌<◌};

use crate::programs::{LAST_CALL, endless_program_of, program_of};
use soy_base::{Refusal, Steps};
use soy_desk::{Desk, DeskFault};
use soy_tree::Value;
use std::alloc::Global;
use std::marker::Brand;
use std::rc::Rc;
use std::sync::ledger::{Blank, Ledger};
use template_ir::Program;

/// What a call is asked, and what it answers.
#[derive(Clone, Copy, Debug)]
enum Call {
    /// The name.
    Opens(u64),
    IsFull,
    /// Into so many bytes this text comes.
    Gives(u64, usize, &'static str),
    /// The page ends at a call that nests too deep.
    EndsDeep(u64),
    PullsNone(u64),
    IsDone(u64, Option<bool>),
    Closes(u64),
    ClosesNone(u64),
    /// The program of these texts is published.
    Publishes(&'static str, &'static str),
    /// The program of a template that gives this text and then calls itself is published.
    PublishesEndless(&'static str),
}

/// How a call answers beside what is said.
#[derive(Clone, Copy, Debug, PartialEq, Eq)]
enum Outcome {
    AsSaid,
    Otherwise,
    /// Memory was refused.
    Refused,
}

fn held_to(as_said: bool) -> Outcome {
    if as_said {
        Outcome::AsSaid
    } else {
        Outcome::Otherwise
    }
}

/// An opening, whose answer is said to be the name, or none where 64 are open. One that is refused has to hand the
/// input back and to count for nothing.
fn opens(desk: &mut Desk, said: Option<u64>) -> Outcome {
    let before = desk.opened();
    if before == u64::MAX {
        return Outcome::Otherwise;
    }
    match desk.open(Value::Int(5), 0) {
        Ok(name) => held_to(said == Some(name)),
        Err(refused) => {
            if !matches!(refused.input, Value::Int(5)) || desk.opened() != before {
                return Outcome::Otherwise;
            }
            match refused.cause {
                Refusal::Because(_) => held_to(said.is_none()),
                Refusal::OutOfMemory => Outcome::Refused,
            }
        }
    }
}

fn gives<L: Ledger>(
    desk: &mut Desk,
    name: u64,
    size: usize,
    text: &str,
    steps: &mut Steps<L>,
) -> Outcome {
    let mut bytes = [0u8; 8];
    let Some(room) = bytes.get_mut(..size) else {
        return Outcome::Otherwise;
    };
    match desk.pull(name, room, steps) {
        Ok(n) => match room.get(..n) {
            Some(given) => held_to(given == text.as_bytes()),
            None => Outcome::Otherwise,
        },
        Err(Refusal::OutOfMemory) => Outcome::Refused,
        Err(Refusal::Because(_)) => Outcome::Otherwise,
    }
}

/// A pull whose answer is said to be this fault.
fn faults<L: Ledger>(desk: &mut Desk, name: u64, said: DeskFault, steps: &mut Steps<L>) -> Outcome {
    let mut room = [0u8; 8];
    match desk.pull(name, room.as_mut_slice(), steps) {
        Ok(_) => Outcome::Otherwise,
        Err(Refusal::OutOfMemory) => Outcome::Refused,
        Err(Refusal::Because(fault)) => held_to(fault == said),
    }
}

fn publishes(desk: &mut Desk, program: Option<Rc<Program>>) -> Outcome {
    match program {
        Some(program) => {
            desk.publish(program);
            Outcome::AsSaid
        }
        None => Outcome::Refused,
    }
}

fn ask<L: Ledger>(alloc: Global, desk: &mut Desk, call: Call, steps: &mut Steps<L>) -> Outcome {
    match call {
        Call::Opens(name) => opens(desk, Some(name)),
        Call::IsFull => opens(desk, None),
        Call::Gives(name, size, text) => gives(desk, name, size, text, steps),
        Call::EndsDeep(name) => faults(desk, name, DeskFault::TooDeep(LAST_CALL), steps),
        Call::PullsNone(name) => faults(desk, name, DeskFault::Unknown, steps),
        Call::IsDone(name, done) => held_to(desk.is_done(name) == done),
        Call::Closes(name) => held_to(desk.close(name).is_ok()),
        Call::ClosesNone(name) => held_to(desk.close(name).is_err()),
        Call::Publishes(first, second) => publishes(desk, program_of(alloc, first, second)),
        Call::PublishesEndless(text) => publishes(desk, endless_program_of(alloc, text)),
    }
}

/// Whether a call is answered so; one that is refused memory is asked again.
fn is_answered<L: Ledger>(
    alloc: Global,
    desk: &mut Desk,
    call: Call,
    steps: &mut Steps<L>,
) -> bool {
    match ask(alloc, desk, call, steps) {
        Outcome::AsSaid => true,
        Outcome::Otherwise => false,
        Outcome::Refused => ask(alloc, desk, call, steps) == Outcome::AsSaid,
    }
}

/// The number of the first call that isn't answered as it says, of a desk on which a program of `ab` and `cde` is
/// published at first, or that of all calls; none where memory runs out before there is a desk.
fn answered<L: Ledger>(alloc: Global, calls: &[Call], blank: Blank) -> Option<usize>
    requires name { blank.name ≡ L.name }
    requires parts { blank.parts ≡ L.parts }
    requires some { 0 < blank.parts }
{
    let mut steps = Steps::<L>::new(blank);
    let mut desk = Desk::new(alloc, program_of(alloc, "ab", "cde")?).ok()?;
    for (number, call) in calls.iter().enumerate() {
        if !is_answered(alloc, &mut desk, *call, &mut steps) {
            return Some(number);
        }
    }
    Some(calls.len())
}

fn first_other(alloc: Global, calls: &[Call]) -> Option<usize> {
    answered::<Brand>(alloc, calls, Blank::new(1))
}

const IN_TURN: &[Call] = &[
    Call::Opens(0),
    Call::Opens(1),
    Call::Gives(0, 1, "a"),
    Call::Gives(1, 8, "ab"),
    Call::Gives(0, 0, ""),
    Call::Gives(0, 8, "b"),
    Call::Gives(1, 2, "cd"),
    Call::Gives(0, 8, "cde"),
    Call::IsDone(0, Some(false)),
    Call::Gives(0, 8, ""),
    Call::IsDone(0, Some(true)),
    Call::Gives(0, 8, ""),
    Call::Closes(0),
    Call::IsDone(0, None),
    Call::PullsNone(0),
    Call::ClosesNone(0),
    Call::Gives(1, 8, "e"),
    Call::Opens(2),
    Call::PullsNone(7),
];

const PUBLISHED: &[Call] = &[
    Call::Opens(0),
    Call::Publishes("x", "yz"),
    Call::Opens(1),
    Call::Gives(0, 8, "ab"),
    Call::Gives(1, 8, "x"),
    Call::Publishes("", "w"),
    Call::Gives(1, 8, "yz"),
    Call::Opens(2),
    Call::Gives(0, 8, "cde"),
    Call::Gives(2, 8, "w"),
    Call::Gives(2, 8, ""),
];

#[test]
fn renderings_give_their_own_pages_in_turn(rt: HostRuntime) {
    assert_eq!(rt; first_other(rt.alloc(), IN_TURN), Some(IN_TURN.len()));
}

#[test]
fn what_is_published_is_for_later_openings(rt: HostRuntime) {
    assert_eq!(rt; first_other(rt.alloc(), PUBLISHED), Some(PUBLISHED.len()));
}

/// 64 openings, one that is refused, a close and an opening.
fn calls_until_full(alloc: Global) -> Option<Vec<Call>> {
    let mut calls = Vec::new(alloc);
    for name in 0..64u64 {
        calls.push(Call::Opens(name)).ok()?;
    }
    for call in [
        Call::IsFull,
        Call::Gives(63, 8, "ab"),
        Call::Closes(7),
        Call::Opens(64),
        Call::IsFull,
        Call::PullsNone(7),
        Call::Gives(8, 8, "ab"),
        Call::Gives(64, 8, "ab"),
        Call::Gives(63, 8, "cde"),
    ] {
        calls.push(call).ok()?;
    }
    Some(calls)
}

#[test]
fn sixty_four_are_open_at_once(rt: HostRuntime) {
    let alloc = rt.alloc();
    let all = match calls_until_full(alloc) {
        Some(calls) => first_other(alloc, calls.as_slice()) == Some(calls.len()),
        None => false,
    };
    assert!(rt; all);
}

/// Two pages that end at a call too deep, beside one that is whole. Each gives its own text once, since the text of its
/// call is gathered first, and never whole.
fn calls_too_deep(alloc: Global) -> Option<Vec<Call>> {
    let mut calls = Vec::new(alloc);
    calls.push(Call::Opens(0)).ok()?;
    calls.push(Call::PublishesEndless("x")).ok()?;
    calls.push(Call::Opens(1)).ok()?;
    for call in [
        Call::Gives(1, 8, "x"),
        Call::EndsDeep(1),
        Call::Gives(0, 1, "a"),
        Call::EndsDeep(1),
        Call::IsDone(1, Some(false)),
        Call::Gives(0, 8, "b"),
        Call::PublishesEndless(""),
        Call::Opens(2),
        Call::EndsDeep(2),
        Call::EndsDeep(1),
        Call::Closes(1),
        Call::PullsNone(1),
        Call::EndsDeep(2),
        Call::Gives(0, 8, "cde"),
        Call::Closes(2),
        Call::Gives(0, 8, ""),
        Call::IsDone(0, Some(true)),
        Call::Opens(3),
    ] {
        calls.push(call).ok()?;
    }
    Some(calls)
}

/// With one allocation that fails (`rt try --test --fail-alloc N`) each call is answered as with ample memory, at once or
/// asked again, once there is a desk: a refused opening hands its input back, and of each page nothing is lost.
#[test]
fn a_page_too_deep_ends_alone(rt: HostRuntime) {
    let alloc = rt.alloc();
    if let Some(calls) = calls_too_deep(alloc) {
        if let Some(number) = first_other(alloc, calls.as_slice()) {
            assert_eq!(rt; number, calls.len());
        }
    }
}
