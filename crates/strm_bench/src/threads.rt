//! Calls of the store that threads share, beside the same steps on a store of one owner.

mod bare;
mod calls;
mod shared;
mod timed;

use crate::threads::timed::{time_bare, time_pairs, time_threads, wait_long};
use std::alloc::Global;
use std::io;
use std::io::{Eprint, Print};
use std::sync::Wait;
use std::thread::Threads;
use std::time::Clock;

/// What is timed.
#[derive(Clone, Copy)]
pub(crate) enum Part {
    All,
    Bare,
    One,
    Two,
    Four,
    Pairs,
    /// Nothing: a read waits, and the processor is to be idle meanwhile.
    Wait,
}

/// A part, with so many rounds of each thread.
pub(crate) fn time<R: Threads + Wait + Sync + Clock + Print + Eprint>(
    rt: &R,
    alloc: Global,
    part: Part,
    rounds: u32,
) -> io::Result<()> {
    match part {
        Part::All => time_all(rt, alloc, rounds),
        Part::Bare => time_bare(rt, alloc, rounds),
        Part::One => time_threads(rt, alloc, 1, rounds),
        Part::Two => time_threads(rt, alloc, 2, rounds),
        Part::Four => time_threads(rt, alloc, 4, rounds),
        Part::Pairs => time_pairs(rt, alloc, rounds),
        Part::Wait => wait_long(rt, alloc),
    }
}

// All but the long wait.
fn time_all<R: Threads + Wait + Sync + Clock + Print + Eprint>(
    rt: &R,
    alloc: Global,
    rounds: u32,
) -> io::Result<()> {
    time_bare(rt, alloc, rounds)?;
    time_threads(rt, alloc, 1, rounds)?;
    time_threads(rt, alloc, 2, rounds)?;
    time_threads(rt, alloc, 4, rounds)?;
    time_pairs(rt, alloc, rounds)
}
