//! A store to begin with, and how two threads meet in it.

ghost use Rattle.std.specs.Prelude.{IfSome};
ghost use Rattle.strm_shared.specs.Causes.{IsOf};
ghost use Rattle.strm_shared.specs.Tokens.{Same};

use std::alloc::Global;
use std::process::Abort;
use std::sync::Wait;
use std::sync::atomic::{AtomicBool, Ordering};
use std::thread::yield_now;
use strm_codes::codes::{ReturnCode, TransmitIndex};
use strm_codes::counts::ItemCount;
use strm_codes::payloads::Payload;
use strm_codes::scalars::Scalar;
use strm_machine::limits::Limits;
use strm_machine::replies::Reply;
use strm_machine::steps::Step;
use strm_shared::{Seat, SharedError, SharedStore};

pub(crate) type Answer = Result<Reply, SharedError>;

pub(crate) const STREAM: TransmitIndex = TransmitIndex::Stream(Payload::One(Scalar::U8));

/// As many as a store may have at all: what a call takes grows with what is there, and not with these.
pub(crate) const LIMITS: Limits = Limits {
    handles: 1_000_000_000,
    places: 4_294_967_295,
};

/// How often a thread looks for another before the test fails.
pub(crate) const LOOKS: u32 = 100_000_000;

pub(crate) const GUEST: Step = Step::Guest { size: 64 };

/// A stream from the first guest to the second.
pub(crate) const PAIR: Step = Step::Between {
    writer: 0,
    reader: 1,
    ty: STREAM,
};

/// A write of so many bytes from the front of the guest's memory.
pub(crate) fn write(guest: u32, handle: u32, count: u32) -> Step {
    Step::Write {
        guest,
        ty: STREAM,
        handle,
        address: 0,
        count,
    }
}

/// A read of so many bytes.
pub(crate) fn read(guest: u32, handle: u32, count: u32) -> Step {
    Step::Read {
        guest,
        ty: STREAM,
        handle,
        address: 8,
        count,
    }
}

/// Whether so many items were moved.
pub(crate) fn has_moved(answer: &Answer, count: u32) -> bool {
    match (answer, ItemCount::new(count)) {
        (Ok(Reply::Code(ReturnCode::Completed(items))), Ok(wanted)) => *items == wanted,
        _ => false,
    }
}

/// A test is right.
pub(crate) fn is_right(rt: &impl Abort, right: bool) {
    assert!(rt; right);
}

/// By which call a step is done.
#[derive(Clone, Copy)]
pub(crate) enum Way {
    Call,
    Sync,
    SyncMove,
}

/// What that call answers.
pub(crate) fn answer<R: Wait>(
    rt: &R,
    alloc: Global,
    store: &SharedStore,
    seat: &mut Seat,
    way: Way,
    step: &Step,
) -> Answer
    requires { IsOf store.now seat.old }
    ensures { Same seat.old seat.new }
{
    match way {
        Way::Call => store.call(rt, alloc, seat, step),
        Way::Sync => store.sync(rt, alloc, seat, step),
        Way::SyncMove => store.sync_move(rt, alloc, seat, step),
    }
}

/// A seat that is split off, and no more of it than a test rests on.
pub(crate) fn split<R: Wait>(rt: &R, store: &SharedStore, seat: &mut Seat) -> Option<Seat>
    requires { IsOf store.now seat.old }
    ensures same { Same seat.old seat.new }
    ensures of { IfSome result (λ new. IsOf store.now new) }
{
    match store.seat_split(rt, seat) {
        Ok(new) => Some(new),
        Err(_) => None,
    }
}

/// Two of them.
pub(crate) fn split_two<R: Wait>(
    rt: &R,
    store: &SharedStore,
    seat: &mut Seat,
) -> Option<(Seat, Seat)>
    requires { IsOf store.now seat.old }
    ensures same { Same seat.old seat.new }
    ensures of { IfSome result (λ two. IsOf store.now two.0 × IsOf store.now two.1) }
{
    let Some(one) = split(rt, store, seat) else {
        return None;
    };
    let Some(other) = split(rt, store, seat) else {
        return None;
    };
    Some((one, other))
}

/// A step is called so often.
pub(crate) fn calls<R: Wait>(
    rt: &R,
    alloc: Global,
    store: &SharedStore,
    seat: &mut Seat,
    step: &Step,
    times: u32,
)
    requires { IsOf store.now seat.old }
    ensures { Same seat.old seat.new }
{
    for _ in 0..times {
        let _ = answer(rt, alloc, store, seat, Way::Call, step);
    }
}

/// A store with so many guests, and its seat.
pub(crate) fn with_guests<R: Wait>(
    rt: &R,
    alloc: Global,
    guests: u32,
) -> Option<(SharedStore, Seat)>
    ensures { IfSome result (λ made. IsOf made.0 made.1) }
{
    let Ok((store, mut seat)) = SharedStore::open(alloc, LIMITS) else {
        return None;
    };
    calls(rt, alloc, &store, &mut seat, &GUEST, guests);
    Some((store, seat))
}

/// A store with two guests and so many streams from the first to the second: both ends of the k-th have
/// the handle k.
pub(crate) fn with_streams<R: Wait>(
    rt: &R,
    alloc: Global,
    streams: u32,
) -> Option<(SharedStore, Seat)>
    ensures { IfSome result (λ made. IsOf made.0 made.1) }
{
    let Some((store, mut seat)) = with_guests(rt, alloc, 2) else {
        return None;
    };
    calls(rt, alloc, &store, &mut seat, &PAIR, streams);
    Some((store, seat))
}

/// Raises its own flag and looks for the other's, so that two threads that run one after the other do
/// not meet.
pub(crate) fn meets(own: &AtomicBool, other: &AtomicBool) -> bool {
    own.store(true, Ordering::SeqCst);
    is_raised(other)
}

/// Looks for a flag.
pub(crate) fn is_raised(flag: &AtomicBool) -> bool {
    for _ in 0..LOOKS {
        if flag.load(Ordering::SeqCst) {
            return true;
        }
        yield_now();
    }
    false
}

/// Waits until another seat waits for the report of a handle, and tells whether one did.
pub(crate) fn is_awaited<R: Wait>(
    rt: &R,
    alloc: Global,
    store: &SharedStore,
    seat: &mut Seat,
    guest: u32,
    handle: u32,
) -> bool
    requires { IsOf store.now seat.old }
    ensures { Same seat.old seat.new }
{
    let event = Step::Event { guest, handle };
    for _ in 0..LOOKS {
        if is_waiting(&answer(rt, alloc, store, seat, Way::Call, &event)) {
            return true;
        }
        yield_now();
    }
    false
}

fn is_waiting(answer: &Answer) -> bool {
    matches!(*answer, Err(SharedError::Waiting { .. }))
}
