//! The clock around each.

use crate::threads::bare;
use crate::threads::shared::{paired, prepared, waited, worked};
use std::alloc::Global;
use std::io;
use std::io::{Eprint, Print};
use std::sync::Wait;
use std::thread::Threads;
use std::time::{Clock, Duration, Instant};

/// How long the threads of `wait_long` wait, in seconds.
const LONG: u64 = 2;

// What was moved, and the nanoseconds of each of so many.
fn tell<R: Print + Eprint>(
    rt: &R,
    what: &str,
    moved: u64,
    spent: u128,
    each: u64,
) -> io::Result<()> {
    println!(rt; "{what}: moved {moved}")?;
    let time = spent / u128::from(each).max(1);
    eprintln!(rt; "{what}: {time} ns")
}

/// A step on a store of one owner.
pub(crate) fn time_bare<R: Clock + Print + Eprint>(
    rt: &R,
    alloc: Global,
    rounds: u32,
) -> io::Result<()> {
    let start = Instant::now(rt)?;
    let moved = bare::rounds(alloc, rounds);
    let spent = start.elapsed(rt)?.as_nanos();
    tell(rt, "a bare step", moved, spent, 3 * u64::from(rounds))
}

/// A call, where so many threads call at once: how long all of them take for one.
pub(crate) fn time_threads<R: Threads + Wait + Sync + Clock + Print + Eprint>(
    rt: &R,
    alloc: Global,
    threads: u32,
    rounds: u32,
) -> io::Result<()> {
    let Some((store, seat)) = prepared(rt, alloc) else {
        return println!(rt; "no memory");
    };
    let start = Instant::now(rt)?;
    let moved = worked(rt, alloc, &store, seat, 0, threads.min(4), rounds);
    let spent = start.elapsed(rt)?.as_nanos();
    let name = match threads {
        1 => "a call of one thread",
        2 => "a call of two threads",
        _ => "a call of four threads",
    };
    let calls = 3 * u64::from(rounds) * u64::from(threads.min(4));
    tell(rt, name, moved, spent, calls)
}

/// A read and a write that wait for each other.
pub(crate) fn time_pairs<R: Threads + Wait + Sync + Clock + Print + Eprint>(
    rt: &R,
    alloc: Global,
    rounds: u32,
) -> io::Result<()> {
    let Some((store, seat)) = prepared(rt, alloc) else {
        return println!(rt; "no memory");
    };
    let start = Instant::now(rt)?;
    let moved = paired(rt, alloc, &store, seat, rounds);
    let spent = start.elapsed(rt)?.as_nanos();
    tell(rt, "a pair of syncs", moved, spent, u64::from(rounds))
}

/// A read that waits long: the processor is to be idle for as long.
pub(crate) fn wait_long<R: Threads + Wait + Sync + Clock + Print + Eprint>(
    rt: &R,
    alloc: Global,
) -> io::Result<()> {
    let Some((store, seat)) = prepared(rt, alloc) else {
        return println!(rt; "no memory");
    };
    let moved = waited(rt, alloc, &store, seat, Duration::from_secs(LONG));
    println!(rt; "waited: moved {moved}")
}
