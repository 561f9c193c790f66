//! Many calls of many threads, each reply checked against a store of one owner.

ghost use Rattle.strm_shared.specs.Causes.{IsOf};
ghost use Rattle.strm_shared.specs.Tokens.{Same};

use crate::shared::histories::{ends_right, history, is_replayed};
use crate::shared::stores::{
    STREAM, Way, answer, calls, has_moved, is_right, read, split, split_two, with_guests,
    with_streams, write,
};
use crate::shared::teams::{Job, Team, four, tallied};
use std::alloc::Global;
use std::sync::Wait;
use std::thread::{Threads, join};
use strm_machine::steps::Step;
use strm_shared::{History, Seat, SharedStore};

// So many reads and as many writes that wait for one another.
const PASSES: u32 = 2_000;

// What a history says that a seat was replied.
fn tally_of(history: &History, seat: u64) -> u64 {
    let mut sum = 0u64;
    for k in 0..history.len() {
        if let Some(entry) = history.get(k) {
            if entry.seat == seat {
                sum = tallied(sum, &entry.reply);
            }
        }
    }
    sum
}

// What it says that the seats from 1 to 4 were replied.
fn tallies_of(history: &History) -> u64 {
    let mut sum = 0u64;
    for seat in 1..5u64 {
        sum = sum.wrapping_add(tally_of(history, seat));
    }
    sum
}

// Four guests with a stream each, and two that have one between them.
fn with_six_guests<R: Wait>(rt: &R, alloc: Global, store: &SharedStore, seat: &mut Seat)
    requires { IsOf store.now seat.old }
    ensures { Same seat.old seat.new }
{
    for guest in 0..4u32 {
        calls(rt, alloc, store, seat, &Step::New { guest, ty: STREAM }, 1);
    }
    let between = Step::Between {
        writer: 4,
        reader: 5,
        ty: STREAM,
    };
    calls(rt, alloc, store, seat, &between, 1);
}

fn is_one_history<R: Threads + Wait + Sync>(rt: &R, alloc: Global) -> bool {
    let Some((store, mut seat)) = with_guests(rt, alloc, 6) else {
        return false;
    };
    with_six_guests(rt, alloc, &store, &mut seat);
    let Some(first) = split(rt, &store, &mut seat) else {
        return false;
    };
    let team = Team {
        alloc,
        store: &store,
        job: Job::Work,
    };
    let sum = four(rt, team, first, 0);
    match history(rt, store, seat) {
        Some(history) => is_replayed(alloc, &history) && tallies_of(&history) == sum,
        None => false,
    }
}

/// Four threads, each on a stream of its own and all on one: what each was replied is what the history
/// says, and a store of one owner has that history.
#[test]
fn four_threads(rt: HostRuntime) {
    is_right(&rt, is_one_history(&rt, rt.alloc()));
}

// So many reads or writes of one item, each of which waits for its report; how many moved one.
fn passes<R: Wait>(rt: &R, alloc: Global, store: &SharedStore, mut seat: Seat, step: &Step) -> u32
    requires { IsOf store.now seat }
{
    let mut done = 0u32;
    for _ in 0..PASSES {
        if has_moved(&answer(rt, alloc, store, &mut seat, Way::Sync, step), 1) {
            done = done.wrapping_add(1);
        }
    }
    done
}

// Two threads that pass items one by one; how many were written and read.
fn passed<R: Threads + Wait + Sync>(
    rt: &R,
    alloc: Global,
    store: &SharedStore,
    seat: &mut Seat,
) -> (u32, u32)
    requires { IsOf store.now seat.old }
    ensures { Same seat.old seat.new }
{
    let Some((writer, reader)) = split_two(rt, store, seat) else {
        return (0, 0);
    };
    let (put, taken) = (write(0, 1, 1), read(1, 1, 1));
    join(
        rt,
        || passes(rt, alloc, store, writer, &put),
        || passes(rt, alloc, store, reader, &taken),
    )
}

fn are_passed<R: Threads + Wait + Sync>(rt: &R, alloc: Global) -> bool {
    let Some((store, mut seat)) = with_streams(rt, alloc, 1) else {
        return false;
    };
    let moved = passed(rt, alloc, &store, &mut seat);
    ends_right(rt, alloc, store, seat) && moved == (PASSES, PASSES)
}

/// Two threads pass items one by one, and each read and each write waits for the other thread's.
#[test]
fn items_one_by_one(rt: HostRuntime) {
    is_right(&rt, are_passed(&rt, rt.alloc()));
}
