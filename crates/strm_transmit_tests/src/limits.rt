//! Limits on handles and places, which no line can reach.

use crate::calls::{Call, Type};
use crate::play::{Row, plays};
use crate::told::Told;
use std::alloc::Global;
use std::process::Abort;
use strm_codes::refusals::Refusal;
use strm_machine::limits::Limits;

// A store of these limits does calls.
fn within(rt: &impl Abort, alloc: Global, handles: usize, places: u32, rows: &[Row]) {
    plays(rt, alloc, 0, Limits { handles, places }, rows);
}

const UNKNOWN_GUEST: [Row; 4] = [
    (Call::Guest(16), Told::Number(0)),
    (Call::Stream(1), Told::Refused(Refusal::UnknownGuest)),
    (Call::Future(1), Told::Refused(Refusal::UnknownGuest)),
    (Call::Streams, Told::Number(0)),
];

const ONE_HANDLE: [Row; 4] = [
    (Call::Guest(16), Told::Number(0)),
    (Call::Stream(0), Told::Refused(Refusal::HandleLimit)),
    (Call::Future(0), Told::Refused(Refusal::HandleLimit)),
    (Call::Streams, Told::Number(0)),
];

const TWO_PLACES: [Row; 4] = [
    (Call::Guest(16), Told::Number(0)),
    (Call::Stream(0), Told::Refused(Refusal::Full)),
    (Call::Future(0), Told::Refused(Refusal::Full)),
    (Call::Streams, Told::Number(0)),
];

/// What refuses a stream, in its order; what is refused changes nothing.
#[test]
fn refused_streams(rt: HostRuntime) {
    within(&rt, rt.alloc(), 0, 0, &UNKNOWN_GUEST);
    within(&rt, rt.alloc(), 1, 0, &ONE_HANDLE);
    within(&rt, rt.alloc(), 2, 2, &TWO_PLACES);
}

const STREAMS_AT_THEIR_LIMITS_0: [Row; 3] = [
    (Call::Guest(16), Told::Number(0)),
    (Call::Stream(0), Told::Ends(1, 2, 0)),
    (Call::Stream(0), Told::Refused(Refusal::HandleLimit)),
];

const STREAMS_AT_THEIR_LIMITS_1: [Row; 3] = [
    (Call::Guest(16), Told::Number(0)),
    (Call::Future(0), Told::Ends(1, 2, 0)),
    (Call::Streams, Told::Number(1)),
];

/// Two handles and three places are enough for one stream or future.
#[test]
fn streams_at_their_limits(rt: HostRuntime) {
    within(&rt, rt.alloc(), 2, 3, &STREAMS_AT_THEIR_LIMITS_0);
    within(&rt, rt.alloc(), 2, 3, &STREAMS_AT_THEIR_LIMITS_1);
}

const PLACES_THAT_ARE_FREE_AGAIN: [Row; 7] = [
    (Call::Guest(16), Told::Number(0)),
    (Call::Stream(0), Told::Ends(1, 2, 0)),
    (Call::Stream(0), Told::Refused(Refusal::Full)),
    (Call::DropReader((0, 1)), Told::Done),
    (Call::Future(0), Told::Refused(Refusal::Full)),
    (Call::DropWriter((0, 2)), Told::Done),
    (Call::Future(0), Told::Ends(2, 1, 1)),
];

/// A stream less makes room for another.
#[test]
fn places_that_are_free_again(rt: HostRuntime) {
    within(&rt, rt.alloc(), 9, 5, &PLACES_THAT_ARE_FREE_AGAIN);
}

const A_FUTURE_MAKES_ROOM: [Row; 11] = [
    (Call::Guest(16), Told::Number(0)),
    (Call::Guest(16), Told::Number(1)),
    (Call::Between(0, 1, Type::Word), Told::Ends(1, 1, 0)),
    (
        Call::DropValueWriter((0, 1)),
        Told::Refused(Refusal::FutureWithoutValue),
    ),
    (Call::DropValueReader((1, 1)), Told::Done),
    (Call::Event((0, 1)), Told::Code(0x01)),
    (Call::Event((0, 1)), Told::Nothing),
    (Call::DropValueWriter((0, 1)), Told::Done),
    (Call::TypeOf(0), Told::Nothing),
    (Call::Moved(0), Told::Count(0)),
    (Call::Between(0, 1, Type::Bytes), Told::Ends(1, 1, 1)),
];

/// A future that nobody reads: its write end may go once it was told. The future is removed then, and
/// its handles and places are free.
#[test]
fn a_future_makes_room(rt: HostRuntime) {
    within(&rt, rt.alloc(), 2, 3, &A_FUTURE_MAKES_ROOM);
}

const HANDLES_OF_MOVED_ENDS: [Row; 13] = [
    (Call::Guest(16), Told::Number(0)),
    (Call::Guest(16), Told::Number(1)),
    (Call::Stream(0), Told::Ends(1, 2, 0)),
    (Call::Lift((0, 1), Type::Bytes), Told::Number(0)),
    (Call::Stream(0), Told::Ends(1, 3, 1)),
    (
        Call::Lower(0, 1, Type::Bytes),
        Told::Refused(Refusal::HandleLimit),
    ),
    (Call::Move((0, 1), 1), Told::Number(1)),
    (Call::DropReader((1, 1)), Told::Done),
    (
        Call::Lower(0, 1, Type::Byte),
        Told::Refused(Refusal::WrongKind),
    ),
    (
        Call::Lower(0, 1, Type::Words),
        Told::Refused(Refusal::WrongType),
    ),
    (Call::Lower(0, 1, Type::Bytes), Told::Number(1)),
    (Call::Close(0), Told::Refused(Refusal::UnknownReader)),
    (Call::Close(7), Told::Refused(Refusal::UnknownReader)),
];

/// A move leaves as many handles as there were; an end that is lowered is one more.
#[test]
fn handles_of_moved_ends(rt: HostRuntime) {
    within(&rt, rt.alloc(), 3, 100, &HANDLES_OF_MOVED_ENDS);
}

const PLACES_OF_SETS_0: [Row; 3] = [
    (Call::Guest(16), Told::Number(0)),
    (Call::Stream(0), Told::Ends(1, 2, 0)),
    (Call::SetNew(0), Told::Refused(Refusal::Full)),
];

const PLACES_OF_SETS_1: [Row; 5] = [
    (Call::Guest(16), Told::Number(0)),
    (Call::SetNew(0), Told::Number(1)),
    (Call::Stream(0), Told::Refused(Refusal::Full)),
    (Call::SetDrop(0, 1), Told::Done),
    (Call::Stream(0), Told::Ends(1, 2, 0)),
];

/// A set takes a place, which is free again once it is dropped.
#[test]
fn places_of_sets(rt: HostRuntime) {
    within(&rt, rt.alloc(), 3, 3, &PLACES_OF_SETS_0);
    within(&rt, rt.alloc(), 3, 3, &PLACES_OF_SETS_1);
}

const HANDLES_OF_SETS_0: [Row; 7] = [
    (Call::Guest(16), Told::Number(0)),
    (Call::Guest(0), Told::Number(1)),
    (Call::Stream(0), Told::Ends(1, 2, 0)),
    (Call::SetNew(1), Told::Refused(Refusal::HandleLimit)),
    (Call::Lift((0, 1), Type::Bytes), Told::Number(0)),
    (Call::SetNew(1), Told::Number(1)),
    (
        Call::Lower(0, 1, Type::Bytes),
        Told::Refused(Refusal::HandleLimit),
    ),
];

const HANDLES_OF_SETS_1: [Row; 3] = [
    (Call::Guest(16), Told::Number(0)),
    (Call::Stream(0), Told::Refused(Refusal::HandleLimit)),
    (Call::SetNew(0), Told::Number(1)),
];

/// A set takes a handle, which a lift sets free in another guest.
#[test]
fn handles_of_sets(rt: HostRuntime) {
    within(&rt, rt.alloc(), 2, 100, &HANDLES_OF_SETS_0);
    within(&rt, rt.alloc(), 1, 100, &HANDLES_OF_SETS_1);
}

const LIMITS_OF_CONTEXTS: [Row; 13] = [
    (Call::Guest(16), Told::Number(0)),
    (Call::Guest(8), Told::Number(1)),
    (Call::Poke(0, 0, *b"oop\0"), Told::Done),
    (Call::Context(0, 3), Told::Number(1)),
    (Call::Context(0, 3), Told::Refused(Refusal::Full)),
    (Call::Share((0, 1), 0), Told::Number(2)),
    (Call::Share((0, 1), 1), Told::Number(1)),
    (Call::Share((0, 1), 1), Told::Refused(Refusal::HandleLimit)),
    (Call::Context(0, 3), Told::Refused(Refusal::HandleLimit)),
    (Call::DropContext((1, 1)), Told::Done),
    (Call::DropContext((0, 2)), Told::Done),
    (Call::DropContext((0, 1)), Told::Done),
    (Call::Context(0, 3), Told::Number(1)),
];

/// An error context takes one place, which its last handle gives back; each handle counts.
#[test]
fn limits_of_contexts(rt: HostRuntime) {
    within(&rt, rt.alloc(), 3, 1, &LIMITS_OF_CONTEXTS);
}
