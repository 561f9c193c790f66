//! One thread by example: the history of one seat and of two, and what is refused without a wait.

ghost use Rattle.strm_shared.specs.Causes.{IsOf};
ghost use Rattle.strm_shared.specs.Tokens.{Same};

use crate::shared::histories::{history, is_replayed};
use crate::shared::stores::{
    Answer, GUEST, STREAM, Way, answer, calls, is_right, split, with_guests, with_streams,
};
use std::alloc::Global;
use std::sync::Wait;
use strm_codes::codes::ReturnCode;
use strm_codes::refusals::Refusal;
use strm_machine::replies::{Pair, Reply};
use strm_machine::steps::Step;
use strm_shared::{Entry, History, Seat, SharedError, SharedStore};

// Whether each row's step is answered so.
fn are_answers<R: Wait>(
    rt: &R,
    alloc: Global,
    store: &SharedStore,
    seat: &mut Seat,
    rows: &[Row],
) -> bool
    requires { IsOf store.now seat.old }
    ensures { Same seat.old seat.new }
{
    let mut right = true;
    for row in rows {
        let told = answer(rt, alloc, store, seat, row.0, &row.1);
        right = right && told == row.2;
    }
    right
}

// Whether the entries are by these seats, in this order.
fn are_by(history: &History, seats: &[u64]) -> bool {
    let mut right = history.len() == seats.len();
    for (k, seat) in seats.iter().enumerate() {
        right = right && is_by(history.get(k), *seat);
    }
    right
}

fn is_by(entry: Option<Entry>, seat: u64) -> bool {
    matches!(entry, Some(found) if found.seat == seat)
}

// A store of so many streams answers these rows, and its history is then by these seats.
fn answers<R: Wait>(rt: &R, alloc: Global, streams: u32, rows: &[Row], seats: &[u64]) -> bool {
    let made = if streams == 0 {
        with_guests(rt, alloc, 0)
    } else {
        with_streams(rt, alloc, streams)
    };
    let Some((store, mut seat)) = made else {
        return false;
    };
    let right = are_answers(rt, alloc, &store, &mut seat, rows);
    match history(rt, store, seat) {
        Some(history) => right && is_replayed(alloc, &history) && are_by(&history, seats),
        None => false,
    }
}

const LIFT: Step = Step::Lift {
    guest: 1,
    ty: STREAM,
    handle: 1,
};

const READ: Step = Step::Read {
    guest: 1,
    ty: STREAM,
    handle: 1,
    address: 0,
    count: 1,
};

const MOVE: Step = Step::Move {
    guest: 1,
    ty: STREAM,
    handle: 1,
    to: 0,
};

const JOIN: Step = Step::SetJoin {
    guest: 1,
    set: 2,
    handle: 1,
};

const BLOCKED: Answer = Ok(Reply::Code(ReturnCode::Blocked));

type Row = (Way, Step, Answer);

const ONE_SEAT: [Row; 4] = [
    (Way::Call, Step::Guest { size: 16 }, Ok(Reply::Number(0))),
    (
        Way::Call,
        Step::New {
            guest: 0,
            ty: STREAM,
        },
        Ok(Reply::Pair(Pair {
            read: 1,
            write: 2,
            stream: 0,
        })),
    ),
    (
        Way::Call,
        Step::Write {
            guest: 0,
            ty: STREAM,
            handle: 2,
            address: 0,
            count: 1,
        },
        BLOCKED,
    ),
    (Way::Call, Step::Drive, Err(SharedError::HostStep)),
];

/// A fresh store has no history. Three calls are three entries of the one seat, and a step that names a
/// host end is none.
#[test]
fn one_seat(rt: HostRuntime) {
    is_right(&rt, answers(&rt, rt.alloc(), 0, &[], &[]));
    is_right(&rt, answers(&rt, rt.alloc(), 0, &ONE_SEAT, &[0, 0, 0]));
}

const NO_WAIT: [Row; 8] = [
    (
        Way::SyncMove,
        Step::SetNew { guest: 1 },
        Ok(Reply::Number(2)),
    ),
    (Way::Sync, JOIN, Ok(Reply::Done)),
    (Way::Sync, READ, Err(SharedError::InSet)),
    (Way::Sync, LIFT, Err(SharedError::HostStep)),
    (Way::SyncMove, LIFT, Err(SharedError::HostStep)),
    (Way::Call, LIFT, Err(SharedError::HostStep)),
    (Way::SyncMove, MOVE, Ok(Reply::Refused(Refusal::LiftInSet))),
    (Way::Call, READ, BLOCKED),
];

/// A step that names a host end is refused by all three calls, and a read that may wait where its handle
/// is in a set. What may not wait is as a call.
#[test]
fn no_wait(rt: HostRuntime) {
    is_right(&rt, answers(&rt, rt.alloc(), 1, &NO_WAIT, &[0; 7]));
}

// Two calls of another seat, which then ends in the first, and one of the first.
fn joins<R: Wait>(rt: &R, alloc: Global) -> bool {
    let Some((store, mut seat)) = with_guests(rt, alloc, 0) else {
        return false;
    };
    let Some(mut other) = split(rt, &store, &mut seat) else {
        return false;
    };
    let numbers = (seat.number(), other.number());
    calls(rt, alloc, &store, &mut other, &GUEST, 2);
    store.seat_join(rt, &mut seat, other);
    calls(rt, alloc, &store, &mut seat, &GUEST, 1);
    match history(rt, store, seat) {
        Some(history) => {
            numbers == (0, 1) && is_replayed(alloc, &history) && are_by(&history, &[1, 1, 0])
        }
        None => false,
    }
}

/// The entries of a seat that ends in another stay.
#[test]
fn two_seats(rt: HostRuntime) {
    is_right(&rt, joins(&rt, rt.alloc()));
}
