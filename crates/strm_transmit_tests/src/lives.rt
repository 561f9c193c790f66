//! Guests that end and begin in a store among guests.

use crate::calls::{BYTES, Call, Type, WORDS, index_of};
use crate::play::{AMPLE, Row};
use crate::told::{BLOCKED, Told, count, done, event, guest, number, pair};
use std::process::Abort;
use strm_codes::codes::ReturnCode;
use strm_codes::refusals::Refusal;
use strm_guest_store::guest_store::GuestStore;
use strm_guest_store::operations::OperateError;

fn operated(answer: Result<ReturnCode, OperateError>) -> Told {
    match answer {
        Ok(code) => Told::Code(code.encode()),
        Err(OperateError::Refused(refusal)) => Told::Refused(refusal),
        Err(_) => Told::Other,
    }
}

fn ends(store: &mut GuestStore, guest: u32) -> Told {
    match store.end_guest(guest) {
        Ok(()) => Told::Done,
        Err(refusal) => Told::Refused(refusal),
    }
}

fn begins(store: &mut GuestStore, guest: u32, size: u32) -> Told {
    if !store.has_guest(guest) || store.is_in_use(guest) {
        return Told::Nothing;
    }
    done(store.begin_guest(guest, size))
}

fn in_use(store: &GuestStore, guest: u32) -> Told {
    if !store.has_guest(guest) {
        return Told::Nothing;
    }
    Told::Is(store.is_in_use(guest))
}

fn answer(store: &mut GuestStore, call: &Call) -> Told {
    match *call {
        Call::EndGuest(guest) => ends(store, guest),
        Call::BeginGuest(guest, size) => begins(store, guest, size),
        Call::InUse(guest) => in_use(store, guest),
        Call::Write(end, address, count) => {
            operated(store.stream_write(end.0, BYTES, end.1, address, count))
        }
        Call::Read(end, address, count) => {
            operated(store.stream_read(end.0, BYTES, end.1, address, count))
        }
        Call::ReadValue(end, address) => operated(store.future_read(end.0, WORDS, end.1, address)),
        Call::Event(end) => event(store.take_event(end.0, end.1)),
        Call::Ready(from) => guest(store.next_ready_guest(from)),
        _ => makes(store, call),
    }
}

fn makes(store: &mut GuestStore, call: &Call) -> Told {
    match *call {
        Call::Guest(size) => number(store.add_guest(size)),
        Call::Between(writer, reader, ty) => pair(store.new_between(writer, reader, index_of(ty))),
        Call::SetNew(guest) => number(store.set_new(guest)),
        Call::SetJoin(end, set) => done(store.set_join(end.0, set, end.1)),
        Call::Context(guest, len) => number(store.error_context_new(guest, 0, len)),
        Call::Handles(guest) => count(store.handle_count(guest)),
        _ => Told::Nothing,
    }
}

// The peer has a stream of which two bytes came, and a future whose value never comes.
const A_GUEST_ENDS: [Row; 22] = [
    (Call::Guest(16), Told::Number(0)),
    (Call::Guest(16), Told::Number(1)),
    (Call::Between(0, 1, Type::Bytes), Told::Ends(1, 1, 0)),
    (Call::Between(0, 1, Type::Word), Told::Ends(2, 2, 1)),
    (Call::SetNew(0), Told::Number(3)),
    (Call::SetJoin((0, 1), 3), Told::Done),
    (Call::Context(0, 0), Told::Number(4)),
    (Call::Write((0, 1), 0, 3), Told::Code(BLOCKED)),
    (Call::Read((1, 1), 0, 2), Told::Code(0x20)),
    (Call::ReadValue((1, 2), 8), Told::Code(BLOCKED)),
    (Call::BeginGuest(0, 16), Told::Nothing),
    (Call::EndGuest(0), Told::Done),
    (Call::InUse(0), Told::Is(false)),
    (Call::Handles(0), Told::Number(0)),
    (Call::InUse(1), Told::Is(true)),
    (Call::Event((1, 1)), Told::Code(0x01)),
    (Call::Event((1, 2)), Told::Code(0x01)),
    (
        Call::BeginGuest(0, 268_435_456),
        Told::Refused(Refusal::MemoryTooBig),
    ),
    (Call::BeginGuest(0, 8), Told::Done),
    (Call::InUse(0), Told::Is(true)),
    (Call::Between(0, 1, Type::Bytes), Told::Ends(3, 1, 2)),
    (Call::EndGuest(2), Told::Refused(Refusal::UnknownGuest)),
];

pub(crate) fn does(rt: &impl Abort, store: &mut GuestStore, rows: &[Row]) {
    for (at, (call, wanted)) in rows.iter().enumerate() {
        let told = answer(store, call);
        assert!(rt; told == *wanted, "row {at}");
    }
}

/// A guest ends with a write that waits, in a set, a future that owes its value, and an error context. Its peer is
/// told, and it begins again under its number, with handles from 1 on.
#[test]
fn a_guest_ends_and_begins(rt: HostRuntime) {
    let mut store = GuestStore::new(rt.alloc(), 0, AMPLE);
    does(&rt, &mut store, &A_GUEST_ENDS);
}
