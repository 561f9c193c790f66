//! The rounds on a store that threads share, and pairs of a read and a write that wait for each other.

ghost use Rattle.std.specs.Prelude.{IfSome};
ghost use Rattle.std.specs.Thread.{IsSync};
ghost use Rattle.strm_shared.specs.Causes.{IsOf};
ghost use Rattle.strm_shared.specs.Tokens.{Same};

use crate::threads::calls::{GUEST, GUESTS, LIMITS, STREAM, event, items, new, read, write};
use std::alloc::Global;
use std::sync::Wait;
use std::thread::{Threads, join, sleep};
use std::time::{Clock, Duration};
use strm_machine::steps::Step;
use strm_shared::{Seat, SharedStore};

// One step: how many items it moved.
fn calls<R: Wait>(rt: &R, alloc: Global, store: &SharedStore, seat: &mut Seat, step: &Step) -> u64
    requires { IsOf store.now seat.old }
    ensures { Same seat.old seat.new }
{
    match store.call(rt, alloc, seat, step) {
        Ok(reply) => items(&reply),
        Err(_) => 0,
    }
}

/// A store with the guests, each with a stream of its own; and a stream from the first to the second,
/// whose ends have the handle 3 of both.
pub(crate) fn prepared<R: Wait>(rt: &R, alloc: Global) -> Option<(SharedStore, Seat)>
    ensures { IfSome result (λ made. IsOf made.0 made.1) }
{
    let Ok((store, mut seat)) = SharedStore::open(alloc, LIMITS) else {
        return None;
    };
    for guest in 0..GUESTS {
        calls(rt, alloc, &store, &mut seat, &GUEST);
        calls(rt, alloc, &store, &mut seat, &new(guest));
    }
    let between = Step::Between {
        writer: 0,
        reader: 1,
        ty: STREAM,
    };
    calls(rt, alloc, &store, &mut seat, &between);
    Some((store, seat))
}

// So many rounds of one thread: how many items they moved.
fn one<R: Wait>(
    rt: &R,
    alloc: Global,
    store: &SharedStore,
    mut seat: Seat,
    guest: u32,
    rounds: u32,
) -> u64
    requires { IsOf store.now seat }
{
    let mut moved = 0u64;
    for round in 0..rounds {
        let written = calls(rt, alloc, store, &mut seat, &write(guest, 2, round));
        let taken = calls(rt, alloc, store, &mut seat, &read(guest, 1, round));
        let told = calls(rt, alloc, store, &mut seat, &event(guest, 2));
        moved = moved
            .wrapping_add(written)
            .wrapping_add(taken)
            .wrapping_add(told);
    }
    moved
}

/// So many rounds of each of so many threads, on the streams of the guests from this one on.
pub(crate) fn worked<R: Threads + Wait + Sync>(
    rt: &R,
    alloc: Global,
    store: &SharedStore,
    mut seat: Seat,
    guest: u32,
    threads: u32,
    rounds: u32,
) -> u64
    requires { IsOf store.now seat }
{
    if threads < 2 {
        return one(rt, alloc, store, seat, guest, rounds);
    }
    let Ok(other) = store.seat_split(rt, &mut seat) else {
        return 0;
    };
    let half = threads / 2;
    let rest = threads - half;
    let next = guest.wrapping_add(half);
    let (left, right) = join(
        rt,
        ||
            requires { IsSync R.row × IsOf store.now seat }
        { worked(rt, alloc, store, seat, guest, half, rounds) },
        ||
            requires { IsSync R.row × IsOf store.now other }
        { worked(rt, alloc, store, other, next, rest, rounds) },
    );
    left.wrapping_add(right)
}

// So many reads or writes, each of which waits for the other thread's: how many items they moved.
fn passes<R: Wait>(
    rt: &R,
    alloc: Global,
    store: &SharedStore,
    mut seat: Seat,
    step: &Step,
    rounds: u32,
) -> u64
    requires { IsOf store.now seat }
{
    let mut moved = 0u64;
    for _ in 0..rounds {
        if let Ok(reply) = store.sync(rt, alloc, &mut seat, step) {
            moved = moved.wrapping_add(items(&reply));
        }
    }
    moved
}

/// Two threads, of which one writes what the other reads.
pub(crate) fn paired<R: Threads + Wait + Sync>(
    rt: &R,
    alloc: Global,
    store: &SharedStore,
    mut seat: Seat,
    rounds: u32,
) -> u64
    requires { IsOf store.now seat }
{
    let Ok(other) = store.seat_split(rt, &mut seat) else {
        return 0;
    };
    let (put, take) = (write(0, 3, 0), read(1, 3, 0));
    let (written, taken) = join(
        rt,
        || passes(rt, alloc, store, seat, &put, rounds),
        || passes(rt, alloc, store, other, &take, rounds),
    );
    written.wrapping_add(taken)
}

// One read or write, after so long.
fn passes_late<R: Wait + Clock>(
    rt: &R,
    alloc: Global,
    store: &SharedStore,
    seat: Seat,
    step: &Step,
    time: Duration,
) -> u64
    requires { IsOf store.now seat }
{
    sleep(rt, time);
    passes(rt, alloc, store, seat, step, 1)
}

/// A read that waits until another thread writes, which sleeps before.
pub(crate) fn waited<R: Threads + Wait + Sync + Clock>(
    rt: &R,
    alloc: Global,
    store: &SharedStore,
    mut seat: Seat,
    time: Duration,
) -> u64
    requires { IsOf store.now seat }
{
    let Ok(other) = store.seat_split(rt, &mut seat) else {
        return 0;
    };
    let (put, take) = (write(0, 3, 0), read(1, 3, 0));
    let (read, written) = join(
        rt,
        || passes(rt, alloc, store, seat, &take, 1),
        || passes_late(rt, alloc, store, other, &put, time),
    );
    read.wrapping_add(written)
}
