//! Which guest is ready: as ends get reports, are told them and go, and as guests come and end.

use crate::calls::{Call, Type};
use crate::lives::does;
use crate::play::{AMPLE, Row, plays_among};
use crate::told::{BLOCKED, Told};
use strm_buffers::answers::Answer;
use strm_codes::codes::TransmitKind;
use strm_guest_store::guest_store::GuestStore;

const A_GUEST_IS_TOLD_WHILE_IT_IS_READY: [Row; 21] = [
    (Call::Ready(0), Told::Nothing),
    (Call::Guest(16), Told::Number(0)),
    (Call::Ready(0), Told::Nothing),
    (Call::Guest(16), Told::Number(1)),
    (Call::Guest(16), Told::Number(2)),
    (Call::Between(1, 2, Type::Bytes), Told::Ends(1, 1, 0)),
    (Call::Write((1, 1), 0, 3), Told::Code(BLOCKED)),
    (Call::Ready(0), Told::Nothing),
    (Call::Read((2, 1), 0, 2), Told::Code(0x20)),
    (Call::Ready(0), Told::Number(1)),
    (Call::Ready(1), Told::Number(1)),
    (Call::Ready(2), Told::Nothing),
    (Call::Event((1, 1)), Told::Code(0x20)),
    (Call::Ready(0), Told::Nothing),
    (Call::EndGuest(1), Told::Done),
    (Call::Ready(0), Told::Number(2)),
    (Call::Ready(3), Told::Nothing),
    (Call::Ready(4_294_967_295), Told::Nothing),
    (Call::Event((2, 1)), Told::Code(0x01)),
    (Call::Ready(0), Told::Nothing),
    (Call::Ready(2), Told::Nothing),
];

/// A guest is told as long as one of its ends has something to be told, and no other is; a guest that was added
/// since it was asked first too.
#[test]
fn a_guest_is_told_while_it_is_ready(rt: HostRuntime) {
    let mut store = GuestStore::new(rt.alloc(), 0, AMPLE);
    does(&rt, &mut store, &A_GUEST_IS_TOLD_WHILE_IT_IS_READY);
}

const WHAT_WAS_BEFORE_IS_COUNTED: [Row; 14] = [
    (Call::Guest(16), Told::Number(0)),
    (Call::Guest(16), Told::Number(1)),
    (Call::Between(0, 1, Type::Bytes), Told::Ends(1, 1, 0)),
    (Call::Between(1, 0, Type::Bytes), Told::Ends(2, 2, 1)),
    (Call::Write((0, 1), 0, 1), Told::Code(BLOCKED)),
    (Call::Read((1, 1), 0, 1), Told::Code(0x10)),
    (Call::Read((0, 2), 8, 1), Told::Code(BLOCKED)),
    (Call::Write((1, 2), 0, 1), Told::Code(0x10)),
    (Call::Ready(1), Told::Nothing),
    (Call::Ready(0), Told::Number(0)),
    (Call::Event((0, 1)), Told::Code(0x10)),
    (Call::Ready(0), Told::Number(0)),
    (Call::Event((0, 2)), Told::Code(0x10)),
    (Call::Ready(0), Told::Nothing),
];

/// Asked for the first time, a store knows of ends that got something to be told before, on either side.
#[test]
fn what_was_before_is_counted(rt: HostRuntime) {
    let mut store = GuestStore::new(rt.alloc(), 0, AMPLE);
    does(&rt, &mut store, &WHAT_WAS_BEFORE_IS_COUNTED);
}

const A_ROUND_MAKES_READY: [Row; 9] = [
    (Call::Guest(16), Told::Number(0)),
    (Call::HostNew(0), Told::Number(0)),
    (Call::Lower(0, 0, Type::Bytes), Told::Number(1)),
    (Call::Read((0, 1), 0, 2), Told::Code(BLOCKED)),
    (Call::Ready(0), Told::Nothing),
    (Call::Drive, Told::Done),
    (Call::Ready(0), Told::Number(0)),
    (Call::Event((0, 1)), Told::Code(0x20)),
    (Call::Ready(0), Told::Nothing),
];

/// So does a drive round in which a host writer produces.
#[test]
fn a_round_makes_ready(rt: HostRuntime) {
    plays_among(
        &rt,
        rt.alloc(),
        &[(
            TransmitKind::Stream,
            &[(&[], Answer::Pending), (&[7, 8], Answer::Completed)],
        )],
        &[],
        &A_ROUND_MAKES_READY,
    );
}
