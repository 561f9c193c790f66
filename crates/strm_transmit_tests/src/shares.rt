//! How much each guest of a store among guests may have, and numbers of streams that it gives again.

use crate::calls::{BYTES, Call, Type, WORDS, index_of};
use crate::play::Row;
use crate::told::{Told, done, number, pair};
use std::alloc::Global;
use std::process::Abort;
use strm_codes::refusals::Refusal;
use strm_guest_store::guest_limits::{GuestLimits, PastLimit};
use strm_guest_store::guest_store::GuestStore;
use strm_guest_store::limited_store::LimitedStore;
use strm_machine::limits::Limits;
use strm_machine::replies::Pair;
use strm_transmit::errors::StoreError;

fn limited_pair(answer: Result<Result<Pair, StoreError>, PastLimit>) -> Told {
    match answer {
        Ok(answer) => pair(answer),
        Err(_) => Told::PastLimit,
    }
}

fn limited(answer: Result<Result<u32, StoreError>, PastLimit>) -> Told {
    match answer {
        Ok(answer) => number(answer),
        Err(_) => Told::PastLimit,
    }
}

// Calls that a guest's limits bound.
fn answer(store: &mut LimitedStore, call: &Call) -> Told {
    match *call {
        Call::Stream(guest) => limited_pair(store.stream_new(guest, BYTES)),
        Call::Future(guest) => limited_pair(store.future_new(guest, WORDS)),
        Call::Between(writer, reader, ty) => limited_pair(store.new_between(
            writer,
            reader,
            index_of(ty),
        )),
        Call::Move(end, to) => limited(store.stream_transfer(end.0, BYTES, end.1, to)),
        Call::MoveValue(end, to) => limited(store.future_transfer(end.0, WORDS, end.1, to)),
        Call::Lower(reader, guest, ty) => limited(store.lower(reader, guest, index_of(ty))),
        Call::SetNew(guest) => limited(store.set_new(guest)),
        _ => of_contexts(store, call),
    }
}

fn of_contexts(store: &mut LimitedStore, call: &Call) -> Told {
    match *call {
        Call::Context(guest, len) => limited(store.error_context_new(guest, 0, len)),
        Call::Share(end, to) => limited(store.error_context_transfer(end.0, end.1, to)),
        Call::LowerContext(context, guest) => limited(store.error_context_lower(context, guest)),
        Call::Limit(guest, handles, ends, bytes) => {
            let limits = GuestLimits {
                handles,
                ends,
                bytes,
            };
            done(store.set_guest_limits(guest, limits))
        }
        Call::LimitsOf(guest) => limits_of(store, guest),
        _ => unbounded(&mut store.store, call),
    }
}

fn limits_of(store: &LimitedStore, guest: u32) -> Told {
    match store.guest_limits(guest) {
        Ok(limits) => Told::Limits(limits.handles, limits.ends, limits.bytes),
        Err(refusal) => Told::Refused(refusal),
    }
}

// Those that they do not.
fn unbounded(store: &mut GuestStore, call: &Call) -> Told {
    match *call {
        Call::Guest(size) => number(store.add_guest(size)),
        Call::Lift(end, ty) => number(store.lift(end.0, index_of(ty), end.1)),
        Call::DropReader(end) => done(store.stream_drop_readable(end.0, BYTES, end.1)),
        Call::DropWriter(end) => done(store.stream_drop_writable(end.0, BYTES, end.1)),
        Call::Rep(end) => number(store.error_context_rep(end.0, end.1)),
        Call::DropContext(end) => done(store.error_context_drop(end.0, end.1)),
        Call::Streams => Told::Number(store.streams()),
        Call::Counts(guest) => counts(store, guest),
        _ => Told::Nothing,
    }
}

fn counts(store: &GuestStore, guest: u32) -> Told {
    match store.guest_counts(guest) {
        Ok(counts) => Told::Counts(counts.handles, counts.ends, counts.contexts),
        Err(refusal) => Told::Refused(refusal),
    }
}

// The store does calls.
fn does(rt: &impl Abort, store: &mut LimitedStore, rows: &[Row]) {
    for (at, (call, wanted)) in rows.iter().enumerate() {
        let told = answer(store, call);
        assert!(rt; told == *wanted, "row {at}");
    }
}

// A store of three guests with 16 bytes each, which has room for all that follows.
fn three_guests(rt: &impl Abort, alloc: Global, rows: &[Row]) {
    let limits = Limits {
        handles: 100,
        places: 300,
    };
    let mut store = LimitedStore::new(alloc, 0, limits);
    does(rt, &mut store, &GUESTS);
    does(rt, &mut store, rows);
}

const GUESTS: [Row; 3] = [
    (Call::Guest(16), Told::Number(0)),
    (Call::Guest(16), Told::Number(1)),
    (Call::Guest(16), Told::Number(2)),
];

const ENDS: [Row; 20] = [
    (Call::Limit(0, 10, 3, 0), Told::Done),
    (Call::LimitsOf(0), Told::Limits(10, 3, 0)),
    (Call::Stream(0), Told::Ends(1, 2, 0)),
    (Call::Stream(0), Told::PastLimit),
    (Call::Future(0), Told::PastLimit),
    (Call::Between(0, 0, Type::Bytes), Told::PastLimit),
    (Call::Between(0, 1, Type::Bytes), Told::Ends(1, 3, 1)),
    (Call::Between(1, 0, Type::Bytes), Told::PastLimit),
    (Call::Future(1), Told::Ends(2, 3, 2)),
    (Call::Move((1, 1), 0), Told::PastLimit),
    (Call::MoveValue((1, 2), 0), Told::PastLimit),
    (Call::Move((0, 1), 0), Told::Number(1)),
    (Call::Move((0, 1), 2), Told::Number(1)),
    (Call::Counts(0), Told::Counts(2, 2, 0)),
    (Call::Lift((1, 1), Type::Bytes), Told::Number(1)),
    (Call::Lower(1, 0, Type::Bytes), Told::Number(1)),
    (Call::Lower(1, 0, Type::Bytes), Told::PastLimit),
    (Call::Counts(0), Told::Counts(3, 3, 0)),
    (Call::SetNew(0), Told::Number(4)),
    (Call::Counts(0), Told::Counts(4, 3, 0)),
];

/// A guest comes to its limit of ends and no further, by whatever call, and others have their own.
#[test]
fn ends_are_bounded(rt: HostRuntime) {
    three_guests(&rt, rt.alloc(), &ENDS);
}

const LESS: [Row; 11] = [
    (Call::Stream(1), Told::Ends(1, 2, 0)),
    (Call::Limit(1, 1, 0, 0), Told::Done),
    (Call::Counts(1), Told::Counts(2, 2, 0)),
    (Call::SetNew(1), Told::PastLimit),
    (Call::DropReader((1, 1)), Told::Done),
    (Call::SetNew(1), Told::PastLimit),
    (Call::DropWriter((1, 2)), Told::Done),
    (Call::SetNew(1), Told::Number(2)),
    (Call::SetNew(1), Told::PastLimit),
    (Call::SetNew(0), Told::Number(1)),
    (
        Call::Limit(3, 9, 9, 9),
        Told::Refused(Refusal::UnknownGuest),
    ),
];

/// A limit below what a guest has takes nothing from it, and it gets no more. One of handles bounds sets too.
#[test]
fn a_limit_takes_nothing(rt: HostRuntime) {
    three_guests(&rt, rt.alloc(), &LESS);
}

const MESSAGES: [Row; 11] = [
    (Call::Limit(0, 10, 10, 8191), Told::Done),
    (Call::Context(0, 4), Told::Number(1)),
    (Call::Context(0, 4), Told::PastLimit),
    (Call::Share((0, 1), 0), Told::PastLimit),
    (Call::Share((0, 1), 2), Told::Number(1)),
    (Call::Rep((2, 1)), Told::Number(0)),
    (Call::LowerContext(0, 0), Told::PastLimit),
    (Call::LowerContext(0, 1), Told::Number(1)),
    (Call::DropContext((0, 1)), Told::Done),
    (Call::LowerContext(0, 0), Told::Number(1)),
    (Call::Counts(0), Told::Counts(1, 0, 1)),
];

/// Each handle of an error context counts as 4,096 bytes.
#[test]
fn messages_are_bounded(rt: HostRuntime) {
    three_guests(&rt, rt.alloc(), &MESSAGES);
}

// Guest 0 gets stream 0 under either handle, and both ends go.
const COMES_AND_GOES: [Row; 6] = [
    (Call::Stream(0), Told::Ends(1, 2, 0)),
    (Call::DropReader((0, 1)), Told::Done),
    (Call::DropWriter((0, 2)), Told::Done),
    (Call::Stream(0), Told::Ends(2, 1, 0)),
    (Call::DropReader((0, 2)), Told::Done),
    (Call::DropWriter((0, 1)), Told::Done),
];

const NUMBERS: [Row; 8] = [
    (Call::Streams, Told::Number(1)),
    (Call::Between(0, 0, Type::Bytes), Told::Ends(1, 2, 0)),
    (Call::DropReader((0, 1)), Told::Done),
    (Call::Stream(0), Told::Ends(1, 3, 1)),
    (Call::Streams, Told::Number(2)),
    (Call::Future(0), Told::Refused(Refusal::HandleLimit)),
    (Call::DropWriter((0, 2)), Told::Done),
    (Call::Future(0), Told::Ends(2, 4, 0)),
];

/// As many streams as one likes, one after another, take one place; a number comes again once both ends
/// are gone, and not before. The store has room for two streams at once.
#[test]
fn numbers_are_given_again(rt: HostRuntime) {
    let limits = Limits {
        handles: 4,
        places: 6,
    };
    let mut store = LimitedStore::new(rt.alloc(), 0, limits);
    does(&rt, &mut store, &[(Call::Guest(16), Told::Number(0))]);
    for _ in 0..50_000u32 {
        does(&rt, &mut store, &COMES_AND_GOES);
    }
    does(&rt, &mut store, &NUMBERS);
}
