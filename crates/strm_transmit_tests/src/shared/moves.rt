//! A move that waits until a write of another thread is done.

ghost use Rattle.std.specs.Thread.{IsSync};
ghost use Rattle.strm_shared.specs.Causes.{IsOf};
ghost use Rattle.strm_shared.specs.Tokens.{Same};

use crate::shared::histories::{history, is_replayed};
use crate::shared::stores::{
    STREAM, Way, answer, has_moved, is_awaited, is_raised, is_right, read, split, split_two,
    with_streams, write,
};
use std::alloc::Global;
use std::sync::Wait;
use std::sync::atomic::{AtomicBool, Ordering};
use std::thread::{Threads, join};
use strm_machine::replies::Reply;
use strm_machine::steps::Step;
use strm_shared::{History, Seat, SharedStore};

const MOVE: Step = Step::Move {
    guest: 0,
    ty: STREAM,
    handle: 1,
    to: 1,
};

// A write that waits for its report.
fn writes<R: Wait>(rt: &R, alloc: Global, store: &SharedStore, mut seat: Seat) -> bool
    requires { IsOf store.now seat }
{
    let step = write(0, 1, 2);
    has_moved(&answer(rt, alloc, store, &mut seat, Way::Sync, &step), 2)
}

// A move of the write end, once the write waits.
fn shifts<R: Wait>(
    rt: &R,
    alloc: Global,
    store: &SharedStore,
    mut seat: Seat,
    tried: &AtomicBool,
) -> bool
    requires { IsOf store.now seat }
{
    let held = is_awaited(rt, alloc, store, &mut seat, 0, 1);
    tried.store(true, Ordering::SeqCst);
    let told = answer(rt, alloc, store, &mut seat, Way::SyncMove, &MOVE);
    told == Ok(Reply::Number(2)) && held
}

// The read that frees the write, once the move is about to be tried.
fn reads<R: Wait>(
    rt: &R,
    alloc: Global,
    store: &SharedStore,
    mut seat: Seat,
    tried: &AtomicBool,
) -> bool
    requires { IsOf store.now seat }
{
    let step = read(1, 1, 2);
    is_raised(tried) && has_moved(&answer(rt, alloc, store, &mut seat, Way::Call, &step), 2)
}

// The move by a seat, and the read by one that is split off, in two threads.
fn shifts_and_reads<R: Threads + Wait + Sync>(
    rt: &R,
    alloc: Global,
    store: &SharedStore,
    mut seat: Seat,
) -> bool
    requires { IsOf store.now seat }
{
    let Some(reader) = split(rt, store, &mut seat) else {
        return false;
    };
    let tried = AtomicBool::new(false);
    let (shifted, taken) = join(
        rt,
        || shifts(rt, alloc, store, seat, &tried),
        || reads(rt, alloc, store, reader, &tried),
    );
    shifted && taken
}

// The write, the move and the read, by the seats 1, 2 and 3.
fn are_done<R: Threads + Wait + Sync>(
    rt: &R,
    alloc: Global,
    store: &SharedStore,
    seat: &mut Seat,
) -> bool
    requires { IsOf store.now seat.old }
    ensures { Same seat.old seat.new }
{
    let Some((writer, mover)) = split_two(rt, store, seat) else {
        return false;
    };
    let (written, shifted) = join(
        rt,
        || writes(rt, alloc, store, writer),
        ||
            requires { IsSync R.row × IsOf store.now mover }
        { shifts_and_reads(rt, alloc, store, mover) },
    );
    written && shifted
}

// Whether the event of the seat 1 stands before the one move.
fn is_told_first(history: &History) -> bool {
    let mut told = false;
    let mut right = false;
    for k in 0..history.len() {
        if let Some(entry) = history.get(k) {
            told = told || (entry.seat == 1 && matches!(entry.step, Step::Event { .. }));
            right = right || (told && matches!(entry.step, Step::Move { .. }));
        }
    }
    right
}

fn is_shifted_last<R: Threads + Wait + Sync>(rt: &R, alloc: Global) -> bool {
    let Some((store, mut seat)) = with_streams(rt, alloc, 1) else {
        return false;
    };
    let done = are_done(rt, alloc, &store, &mut seat);
    match history(rt, store, seat) {
        Some(history) => { done && is_replayed(alloc, &history) && is_told_first(&history) }
        None => false,
    }
}

/// Three threads: a write waits, the move of its end waits for the write, and a read frees both; the
/// write is told before its end moves.
#[test]
fn a_move_waits_for_a_write(rt: HostRuntime) {
    is_right(&rt, is_shifted_last(&rt, rt.alloc()));
}
