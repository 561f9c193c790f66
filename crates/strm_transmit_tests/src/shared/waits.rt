//! Reads and writes that wait for another thread's.

ghost use Rattle.std.specs.Thread.{IsSync};
ghost use Rattle.strm_shared.specs.Causes.{IsOf};
ghost use Rattle.strm_shared.specs.Tokens.{Same};

use crate::shared::histories::ends_right;
use crate::shared::stores::{
    Way, answer, has_moved, is_awaited, is_right, meets, read, split_two, with_streams, write,
};
use crate::shared::teams::{Job, Team, nine};
use std::alloc::Global;
use std::sync::Wait;
use std::sync::atomic::AtomicBool;
use std::thread::{Threads, join};
use strm_machine::steps::Step;
use strm_shared::{Seat, SharedStore};

// Two flags, by which two threads see that both run.
#[derive(Clone, Copy)]
struct Flags<'a> {
    own: &'a AtomicBool,
    other: &'a AtomicBool,
}

// A step that waits; whether two items were moved.
fn waits<R: Wait>(
    rt: &R,
    alloc: Global,
    store: &SharedStore,
    mut seat: Seat,
    step: &Step,
    flags: Flags,
) -> bool
    requires { IsOf store.now seat }
{
    if !meets(flags.own, flags.other) {
        return false;
    }
    has_moved(&answer(rt, alloc, store, &mut seat, Way::Sync, step), 2)
}

// A step that is called once another seat waits for the report of the guest's handle 1; whether two
// items were moved.
fn ends<R: Wait>(
    rt: &R,
    alloc: Global,
    store: &SharedStore,
    mut seat: Seat,
    guest: u32,
    step: &Step,
    flags: Flags,
) -> bool
    requires { IsOf store.now seat }
{
    if !meets(flags.own, flags.other) {
        return false;
    }
    let held = is_awaited(rt, alloc, store, &mut seat, guest, 1);
    has_moved(&answer(rt, alloc, store, &mut seat, Way::Call, step), 2) && held
}

// Two threads: the first step, of a guest's handle 1, waits until the second is called.
fn is_held<R: Threads + Wait + Sync>(
    rt: &R,
    alloc: Global,
    store: &SharedStore,
    seat: &mut Seat,
    steps: (&Step, u32, &Step),
) -> bool
    requires { IsOf store.now seat.old }
    ensures { Same seat.old seat.new }
{
    let (first, guest, second) = steps;
    let Some((one, other)) = split_two(rt, store, seat) else {
        return false;
    };
    let left = AtomicBool::new(false);
    let right = AtomicBool::new(false);
    let here = Flags {
        own: &left,
        other: &right,
    };
    let there = Flags {
        own: &right,
        other: &left,
    };
    let (held, freed) = join(
        rt,
        || waits(rt, alloc, store, one, first, here),
        || ends(rt, alloc, store, other, guest, second, there),
    );
    held && freed
}

fn is_held_until<R: Threads + Wait + Sync>(
    rt: &R,
    alloc: Global,
    first: &Step,
    guest: u32,
    second: &Step,
) -> bool {
    let Some((store, mut seat)) = with_streams(rt, alloc, 1) else {
        return false;
    };
    let held = is_held(rt, alloc, &store, &mut seat, (first, guest, second));
    ends_right(rt, alloc, store, seat) && held
}

/// A read is held until another thread writes, and a write until another thread reads.
#[test]
fn each_ends_the_other(rt: HostRuntime) {
    let (put, taken) = (write(0, 1, 2), read(1, 1, 2));
    is_right(&rt, is_held_until(&rt, rt.alloc(), &taken, 1, &put));
    is_right(&rt, is_held_until(&rt, rt.alloc(), &put, 0, &taken));
}

// Whether a seat waits for each of a guest's first so many handles.
fn are_awaited<R: Wait>(
    rt: &R,
    alloc: Global,
    store: &SharedStore,
    seat: &mut Seat,
    guest: u32,
    count: u32,
) -> bool
    requires { IsOf store.now seat.old }
    ensures { Same seat.old seat.new }
{
    let mut all = true;
    for k in 0..count {
        let held = is_awaited(rt, alloc, store, seat, guest, k.wrapping_add(1));
        all = all && held;
    }
    all
}

// Once a seat waits for each of nine reads or writes, a step ends each wait; how many were answered at once.
fn wakes<R: Wait>(rt: &R, alloc: Global, store: &SharedStore, mut seat: Seat, job: Job) -> u64
    requires { IsOf store.now seat }
{
    if !are_awaited(rt, alloc, store, &mut seat, guest_of(job), 9) {
        return 0;
    }
    let mut done = 0u64;
    for k in 1..10u32 {
        let step = step_for(job, k);
        if has_moved(&answer(rt, alloc, store, &mut seat, Way::Call, &step), 1) {
            done = done.wrapping_add(1);
        }
    }
    done
}

// Who waits.
fn guest_of(job: Job) -> u32 {
    match job {
        Job::Read => 1,
        _ => 0,
    }
}

// What ends the wait of a handle.
fn step_for(job: Job, handle: u32) -> Step {
    match job {
        Job::Read => write(0, handle, 1),
        _ => read(1, handle, 1),
    }
}

// How many of the nine that wait moved an item, and how many of the steps that wake them.
fn woken<R: Threads + Wait + Sync>(
    rt: &R,
    alloc: Global,
    store: &SharedStore,
    seat: &mut Seat,
    job: Job,
) -> (u64, u64)
    requires { IsOf store.now seat.old }
    ensures { Same seat.old seat.new }
{
    let Some((first, other)) = split_two(rt, store, seat) else {
        return (0, 0);
    };
    let team = Team { alloc, store, job };
    join(
        rt,
        ||
            requires { IsSync R.row × IsOf team.store.now first }
        { nine(rt, team, first) },
        || wakes(rt, alloc, store, other, job),
    )
}

fn are_woken<R: Threads + Wait + Sync>(rt: &R, alloc: Global, job: Job) -> bool {
    let Some((store, mut seat)) = with_streams(rt, alloc, 9) else {
        return false;
    };
    let counts = woken(rt, alloc, &store, &mut seat, job);
    ends_right(rt, alloc, store, seat) && counts == (9, 9)
}

/// Nine threads read, each from a stream of its own, and one writer wakes each.
#[test]
fn nine_readers(rt: HostRuntime) {
    is_right(&rt, are_woken(&rt, rt.alloc(), Job::Read));
}

/// Nine threads write, each on a stream of its own, and one reader takes what each wrote.
#[test]
fn nine_writers(rt: HostRuntime) {
    is_right(&rt, are_woken(&rt, rt.alloc(), Job::Write));
}
