//! Threads that sleep, and what wakes them: a drop, a cancel, a trap and a poll of a set.

ghost use Rattle.strm_shared.specs.Causes.{IsOf};
ghost use Rattle.strm_shared.specs.Tokens.{Same};

use crate::shared::histories::ends_right;
use crate::shared::stores::{
    Answer, PAIR, STREAM, Way, answer, calls, is_raised, is_right, split_two, with_guests,
};
use std::alloc::Global;
use std::sync::Wait;
use std::sync::atomic::{AtomicBool, Ordering};
use std::thread::{Threads, join, sleep};
use std::time::{Clock, Duration};
use strm_codes::codes::{ReturnCode, TransmitIndex};
use strm_codes::counts::ItemCount;
use strm_codes::payloads::Payload;
use strm_codes::refusals::Refusal;
use strm_codes::scalars::Scalar;
use strm_machine::chunks::Chunk;
use strm_machine::replies::Reply;
use strm_machine::steps::Step;
use strm_shared::{Seat, SharedStore};

/// In milliseconds: after so long a thread sleeps, and between two looks for one that was woken.
const WHILE: u64 = 50;

/// How often a thread looks for one that is to be woken before the test fails: for ten seconds.
const LOOKS: u32 = 200;

const CHARS: TransmitIndex = TransmitIndex::Stream(Payload::One(Scalar::Char));

// A move of the write end into the other guest.
const MOVE: Step = Step::Move {
    guest: 0,
    ty: STREAM,
    handle: 1,
    to: 1,
};

// A step of no end, after which all that sleep look again.
const NUDGE: Step = Step::Event {
    guest: 9,
    handle: 9,
};

// A call that sleeps, what it answers once it is woken, and the step that wakes it.
struct Scene {
    way: Way,
    sleeps: Step,
    answer: Answer,
    wakes: Step,
}

// Two flags: the one thread is about to sleep, and it was woken.
#[derive(Clone, Copy)]
struct Signs<'a> {
    begun: &'a AtomicBool,
    woken: &'a AtomicBool,
}

// The call that sleeps; whether it is answered so.
fn sleeps<R: Wait>(
    rt: &R,
    alloc: Global,
    store: &SharedStore,
    mut seat: Seat,
    scene: &Scene,
    signs: Signs,
) -> bool
    requires { IsOf store.now seat }
{
    signs.begun.store(true, Ordering::SeqCst);
    let told = answer(rt, alloc, store, &mut seat, scene.way, &scene.sleeps);
    signs.woken.store(true, Ordering::SeqCst);
    told == scene.answer
}

// Looks for a flag for ten seconds.
fn is_raised_in_time<R: Clock>(rt: &R, flag: &AtomicBool) -> bool {
    for _ in 0..LOOKS {
        if flag.load(Ordering::SeqCst) {
            return true;
        }
        sleep(rt, Duration::from_millis(WHILE));
    }
    false
}

// The step that wakes the other thread, once that sleeps; whether it did. Where it did not, the thread is
// woken by another step, so that the test ends.
fn wakes<R: Wait + Clock>(
    rt: &R,
    alloc: Global,
    store: &SharedStore,
    mut seat: Seat,
    scene: &Scene,
    signs: Signs,
) -> bool
    requires { IsOf store.now seat }
{
    let begun = is_raised(signs.begun);
    sleep(rt, Duration::from_millis(WHILE));
    let slept = !signs.woken.load(Ordering::SeqCst);
    let done = answer(rt, alloc, store, &mut seat, Way::Call, &scene.wakes).is_ok();
    let woken = is_raised_in_time(rt, signs.woken);
    if !woken {
        calls(rt, alloc, store, &mut seat, &NUDGE, 1);
    }
    begun && slept && done && woken
}

// The two threads.
fn is_woken<R: Threads + Wait + Clock + Sync>(
    rt: &R,
    alloc: Global,
    store: &SharedStore,
    seat: &mut Seat,
    scene: &Scene,
) -> bool
    requires { IsOf store.now seat.old }
    ensures { Same seat.old seat.new }
{
    let Some((one, other)) = split_two(rt, store, seat) else {
        return false;
    };
    let begun = AtomicBool::new(false);
    let woken = AtomicBool::new(false);
    let signs = Signs {
        begun: &begun,
        woken: &woken,
    };
    let (answered, ended) = join(
        rt,
        || sleeps(rt, alloc, store, one, scene, signs),
        || wakes(rt, alloc, store, other, scene, signs),
    );
    answered && ended
}

// A surrogate, which is no char, at the front of the first guest's memory.
fn pokes<R: Wait>(rt: &R, alloc: Global, store: &SharedStore, seat: &mut Seat)
    requires { IsOf store.now seat.old }
    ensures { Same seat.old seat.new }
{
    if let Some(bytes) = Chunk::new(&[0, 0xd8, 0, 0]) {
        let poke = Step::Poke {
            guest: 0,
            address: 0,
            bytes,
        };
        calls(rt, alloc, store, seat, &poke, 1);
    }
}

// Two guests, these steps, and the two threads.
fn plays<R: Threads + Wait + Clock + Sync>(
    rt: &R,
    alloc: Global,
    before: &[Step],
    scene: &Scene,
) -> bool {
    let Some((store, mut seat)) = with_guests(rt, alloc, 2) else {
        return false;
    };
    pokes(rt, alloc, &store, &mut seat);
    all_called(rt, alloc, &store, &mut seat, before);
    let woken = is_woken(rt, alloc, &store, &mut seat, scene);
    ends_right(rt, alloc, store, seat) && woken
}

fn all_called<R: Wait>(rt: &R, alloc: Global, store: &SharedStore, seat: &mut Seat, steps: &[Step])
    requires { IsOf store.now seat.old }
    ensures { Same seat.old seat.new }
{
    for step in steps {
        calls(rt, alloc, store, seat, step, 1);
    }
}

// A read of two bytes by the second guest, and a write of two by the first.
const READ: Step = Step::Read {
    guest: 1,
    ty: STREAM,
    handle: 1,
    address: 8,
    count: 2,
};

const WRITE: Step = Step::Write {
    guest: 0,
    ty: STREAM,
    handle: 1,
    address: 0,
    count: 2,
};

const DROP: Scene = Scene {
    way: Way::Sync,
    sleeps: READ,
    answer: Ok(Reply::Code(ReturnCode::Dropped(ItemCount::ZERO))),
    wakes: Step::DropWrite {
        guest: 0,
        ty: STREAM,
        handle: 1,
    },
};

/// A read that waits is told Dropped once the writer is dropped.
#[test]
fn a_drop_wakes_a_reader(rt: HostRuntime) {
    is_right(&rt, plays(&rt, rt.alloc(), &[PAIR], &DROP));
}

const CANCEL: Scene = Scene {
    way: Way::SyncMove,
    sleeps: MOVE,
    answer: Ok(Reply::Number(2)),
    wakes: Step::CancelWrite {
        guest: 0,
        ty: STREAM,
        handle: 1,
    },
};

/// A move that waits for a write is done once the write is cancelled.
#[test]
fn a_cancel_wakes_a_move(rt: HostRuntime) {
    is_right(&rt, plays(&rt, rt.alloc(), &[PAIR, WRITE], &CANCEL));
}

const TOLD: [Step; 5] = [
    PAIR,
    Step::SetNew { guest: 0 },
    Step::SetJoin {
        guest: 0,
        set: 2,
        handle: 1,
    },
    WRITE,
    READ,
];

const POLL: Scene = Scene {
    way: Way::SyncMove,
    sleeps: MOVE,
    answer: Ok(Reply::Refused(Refusal::LiftInSet)),
    wakes: Step::SetPoll { guest: 0, set: 2 },
};

/// A move that waits for a write that has its report is answered once a poll of a set told that.
#[test]
fn a_poll_wakes_a_move(rt: HostRuntime) {
    is_right(&rt, plays(&rt, rt.alloc(), &TOLD, &POLL));
}

const CHAR_PAIR: [Step; 1] = [Step::Between {
    writer: 0,
    reader: 1,
    ty: CHARS,
}];

const TRAP: Scene = Scene {
    way: Way::Sync,
    sleeps: Step::Read {
        guest: 1,
        ty: CHARS,
        handle: 1,
        address: 0,
        count: 1,
    },
    answer: Ok(Reply::StoreTrapped),
    wakes: Step::Write {
        guest: 0,
        ty: CHARS,
        handle: 1,
        address: 0,
        count: 1,
    },
};

/// A read that waits is told that the store is trapped, once a write traps it.
#[test]
fn a_trap_wakes_a_reader(rt: HostRuntime) {
    is_right(&rt, plays(&rt, rt.alloc(), &CHAR_PAIR, &TRAP));
}
