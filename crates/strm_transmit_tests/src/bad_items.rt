//! A bad item in a store among guests: it stops its writer alone.

use crate::calls::{CHARS, Call, End, Type, index_of};
use crate::play::{AMPLE, Row};
use crate::told::{BLOCKED, Told, done, number, pair};
use std::alloc::Global;
use std::process::Abort;
use strm_codes::codes::{ReturnCode, TransmitIndex};
use strm_codes::compounds::Compound;
use strm_codes::nodes::Node;
use strm_codes::payloads::Payload;
use strm_codes::refusals::Refusal;
use strm_codes::scalars::Scalar;
use strm_guest_store::BadItem;
use strm_guest_store::guest_store::GuestStore;
use strm_guest_store::operations::OperateError;
use strm_machine::streams::Side;

fn item(item: &BadItem) -> Told {
    Told::BadItemOf(item.guest, item.handle, item.index)
}

fn operated(answer: Result<ReturnCode, OperateError>) -> Told {
    match answer {
        Ok(code) => Told::Code(code.encode()),
        Err(OperateError::Refused(refusal)) => Told::Refused(refusal),
        Err(OperateError::BadItem(bad)) => item(&bad),
    }
}

fn found(store: &GuestStore, end: End, count: u32) -> Told {
    match store.find_bad_item(Side::Reading, end.0, index_of(Type::Chars), end.1, 0, count) {
        Some(bad) => item(&bad),
        None => Told::Nothing,
    }
}

fn pokes(store: &mut GuestStore, guest: u32, address: u32, bytes: [u8; 4]) -> Told {
    done(store.write_memory(guest, address, &bytes))
}

fn answer(store: &mut GuestStore, call: &Call) -> Told {
    match *call {
        Call::Guest(size) => number(store.add_guest(size)),
        Call::Between(writer, reader, ty) => pair(store.new_between(writer, reader, index_of(ty))),
        Call::Poke(guest, address, bytes) => pokes(store, guest, address, bytes),
        Call::ReadChars(end, address, count) => {
            operated(store.stream_read(end.0, CHARS, end.1, address, count))
        }
        Call::WriteChars(end, address, count) => {
            operated(store.stream_write(end.0, CHARS, end.1, address, count))
        }
        Call::BadItem(end, count) => found(store, end, count),
        _ => Told::Nothing,
    }
}

fn does(rt: &impl Abort, store: &mut GuestStore, rows: &[Row]) {
    for (at, (call, wanted)) in rows.iter().enumerate() {
        let told = answer(store, call);
        assert!(rt; told == *wanted, "row {at}");
    }
}

// A store of two guests, of which the first has a write end and the chars for it, does calls.
fn two_guests(rt: &impl Abort, alloc: Global, rows: &[Row]) {
    let mut store = GuestStore::new(alloc, 0, AMPLE);
    does(rt, &mut store, &GUESTS);
    does(rt, &mut store, rows);
}

// The chars a and b, a surrogate, which is no char, and c.
const GUESTS: [Row; 7] = [
    (Call::Guest(16), Told::Number(0)),
    (Call::Guest(16), Told::Number(1)),
    (Call::Between(0, 1, Type::Chars), Told::Ends(1, 1, 0)),
    (Call::Poke(0, 0, [97, 0, 0, 0]), Told::Done),
    (Call::Poke(0, 4, [98, 0, 0, 0]), Told::Done),
    (Call::Poke(0, 8, [0, 0xd8, 0, 0]), Told::Done),
    (Call::Poke(0, 12, [99, 0, 0, 0]), Told::Done),
];

// The third item of the write of guest 0 by handle 1.
const THIRD: Told = Told::BadItemOf(0, 1, 2);

const A_READ: [Row; 9] = [
    (Call::WriteChars((0, 1), 0, 4), Told::Code(BLOCKED)),
    (Call::ReadChars((1, 1), 0, 1), Told::Code(0x10)),
    (Call::ReadChars((1, 1), 0, 3), THIRD),
    (Call::ReadChars((1, 1), 0, 3), THIRD),
    (Call::BadItem((1, 1), 2), THIRD),
    (Call::BadItem((1, 1), 1), Told::Nothing),
    (Call::Guest(16), Told::Number(2)),
    (Call::ReadChars((1, 1), 0, 1), Told::Code(0x10)),
    (Call::ReadChars((1, 1), 0, 1), THIRD),
];

/// The reader is told whose the item is, and its place among all items of the write; what moved stays moved, and
/// the store goes on.
#[test]
fn a_bad_item_stops_its_writer_alone(rt: HostRuntime) {
    two_guests(&rt, rt.alloc(), &A_READ);
}

const A_WRITE: [Row; 4] = [
    (Call::ReadChars((1, 1), 0, 4), Told::Code(BLOCKED)),
    (
        Call::WriteChars((0, 1), 1, 3),
        Told::Refused(Refusal::NotAligned),
    ),
    (Call::WriteChars((0, 1), 0, 3), THIRD),
    (Call::WriteChars((0, 1), 0, 2), Told::Code(0x20)),
];

/// A writer is told of its own items too, and a refusal comes first.
#[test]
fn a_writer_is_told_of_its_own_item(rt: HostRuntime) {
    two_guests(&rt, rt.alloc(), &A_WRITE);
}

// An option of a byte; nothing where there is no such type.
fn option_of_a_byte() -> Payload {
    match Compound::new(&[Node::Option, Node::Plain(Scalar::U8)]) {
        Some(compound) => Payload::Compound(compound),
        None => Payload::Nothing,
    }
}

fn is(rt: &impl Abort, told: Told, wanted: Told) {
    assert!(rt; told == wanted);
}

/// An option of a case that there is not is a bad item; the one before it moves.
#[test]
fn a_case_that_there_is_not_is_a_bad_item(rt: HostRuntime) {
    let mut store = GuestStore::new(rt.alloc(), 0, AMPLE);
    does(&rt, &mut store, &GUESTS[..2]);
    let ends = pair(store.new_between(0, 1, TransmitIndex::Stream(option_of_a_byte())));
    is(&rt, ends, Told::Ends(1, 1, 0));
    is(&rt, pokes(&mut store, 0, 0, [1, 7, 2, 0]), Told::Done);
    let write = operated(store.stream_write(0, option_of_a_byte(), 1, 0, 2));
    is(&rt, write, Told::Code(BLOCKED));
    let read = operated(store.stream_read(1, option_of_a_byte(), 1, 0, 1));
    is(&rt, read, Told::Code(0x10));
    let stopped = operated(store.stream_read(1, option_of_a_byte(), 1, 2, 1));
    is(&rt, stopped, Told::BadItemOf(0, 1, 1));
    let mut arrived = [0; 4];
    assert!(rt; store.read_memory(1, 0, &mut arrived).is_ok());
    assert!(rt; arrived == [1, 7, 0, 0]);
}
