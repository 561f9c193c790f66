//! Up to nine threads, each with a seat of its own and one job.

ghost use Rattle.std.specs.Thread.{IsSync};
ghost use Rattle.strm_shared.specs.Causes.{IsOf};

use crate::shared::stores::{Way, answer, has_moved, read, split, write};
use std::alloc::Global;
use std::sync::Wait;
use std::thread::{Threads, join};
use strm_codes::codes::ReturnCode;
use strm_machine::replies::Reply;
use strm_machine::steps::Step;
use strm_shared::{Seat, SharedStore};

/// So many calls by each thread that works. The turn goes from thread to thread at many of them, so more would not
/// end within a test's time where other work has the processors.
pub(crate) const CALLS: u32 = 10_000;

/// What a thread does, by its number in the team.
#[derive(Clone, Copy)]
pub(crate) enum Job {
    /// Calls on the stream of the guest of its number, and on the one that all share.
    Work,
    /// One read, which waits, of the stream whose read end has the handle of its number and one.
    Read,
    /// One write, which waits, on the stream whose write end has that handle.
    Write,
}

/// The store of a team, and what each thread of it does there.
#[derive(Clone, Copy)]
pub(crate) struct Team<'a> {
    pub(crate) alloc: Global,
    pub(crate) store: &'a SharedStore,
    pub(crate) job: Job,
}

/// One reply more, in a number that tells what was replied in which order. Replies of the steps below
/// have different weights where they differ.
pub(crate) fn tallied(sum: u64, reply: &Reply) -> u64 {
    sum.wrapping_mul(31).wrapping_add(weight(reply))
}

fn weight(reply: &Reply) -> u64 {
    match reply {
        Reply::Code(code) => code_weight(code),
        Reply::Event(Some(code)) => code_weight(code).wrapping_add(1000),
        Reply::Event(None) => 2,
        Reply::Refused(refusal) => u64::from(refusal.number()).wrapping_add(2000),
        _ => 3,
    }
}

fn code_weight(code: &ReturnCode) -> u64 {
    u64::from(code.encode()).wrapping_add(5000)
}

// The k-th step of a thread that works: the guests 4 and 5 have the shared stream.
fn step_of(guest: u32, k: u32) -> Step {
    match k % 8 {
        0 => write(guest, 2, 1),
        1 => read(guest, 1, 2),
        2 => Step::Event { guest, handle: 2 },
        3 => write(4, 1, 3),
        4 => read(5, 1, 2),
        5 => Step::Event {
            guest: 4,
            handle: 1,
        },
        6 => Step::Event {
            guest: 5,
            handle: 1,
        },
        _ => Step::Dump {
            guest: 5,
            address: 8,
            len: 2,
        },
    }
}

fn works<R: Wait>(rt: &R, alloc: Global, store: &SharedStore, mut seat: Seat, number: u32) -> u64
    requires { IsOf store.now seat }
{
    let mut sum = 0u64;
    for k in 0..CALLS {
        let step = step_of(number, k);
        if let Ok(reply) = answer(rt, alloc, store, &mut seat, Way::Call, &step) {
            sum = tallied(sum, &reply);
        }
    }
    sum
}

// Whether one item was moved by a step that waits: 1 or 0.
fn moves<R: Wait>(rt: &R, alloc: Global, store: &SharedStore, mut seat: Seat, step: Step) -> u64
    requires { IsOf store.now seat }
{
    if has_moved(&answer(rt, alloc, store, &mut seat, Way::Sync, &step), 1) {
        1
    } else {
        0
    }
}

fn one<R: Wait>(rt: &R, team: Team, seat: Seat, number: u32) -> u64
    requires { IsOf team.store.now seat }
{
    let Team { alloc, store, job } = team;
    match job {
        Job::Work => works(rt, alloc, store, seat, number),
        Job::Read => moves(rt, alloc, store, seat, read(1, number.wrapping_add(1), 1)),
        Job::Write => moves(rt, alloc, store, seat, write(0, number.wrapping_add(1), 1)),
    }
}

fn two<R: Threads + Wait + Sync>(rt: &R, team: Team, mut seat: Seat, number: u32) -> u64
    requires { IsOf team.store.now seat }
{
    let Some(other) = split(rt, team.store, &mut seat) else {
        return 0;
    };
    let next = number.wrapping_add(1);
    let (left, right) = join(
        rt,
        || one(rt, team, seat, number),
        || one(rt, team, other, next),
    );
    left.wrapping_add(right)
}

/// What four threads come to together, from this number in the team on.
pub(crate) fn four<R: Threads + Wait + Sync>(rt: &R, team: Team, mut seat: Seat, number: u32) -> u64
    requires { IsOf team.store.now seat }
{
    let Some(other) = split(rt, team.store, &mut seat) else {
        return 0;
    };
    let next = number.wrapping_add(2);
    let (left, right) = join(
        rt,
        ||
            requires { IsSync R.row × IsOf team.store.now seat }
        { two(rt, team, seat, number) },
        ||
            requires { IsSync R.row × IsOf team.store.now other }
        { two(rt, team, other, next) },
    );
    left.wrapping_add(right)
}

// What eight threads come to together.
fn eight<R: Threads + Wait + Sync>(rt: &R, team: Team, mut seat: Seat) -> u64
    requires { IsOf team.store.now seat }
{
    let Some(other) = split(rt, team.store, &mut seat) else {
        return 0;
    };
    let (left, right) = join(
        rt,
        ||
            requires { IsSync R.row × IsOf team.store.now seat }
        { four(rt, team, seat, 0) },
        ||
            requires { IsSync R.row × IsOf team.store.now other }
        { four(rt, team, other, 4) },
    );
    left.wrapping_add(right)
}

/// What nine threads come to together.
pub(crate) fn nine<R: Threads + Wait + Sync>(rt: &R, team: Team, mut seat: Seat) -> u64
    requires { IsOf team.store.now seat }
{
    let Some(other) = split(rt, team.store, &mut seat) else {
        return 0;
    };
    let (left, right) = join(
        rt,
        ||
            requires { IsSync R.row × IsOf team.store.now seat }
        { eight(rt, team, seat) },
        || one(rt, team, other, 8),
    );
    left.wrapping_add(right)
}
