//! What is asked of a guest's handles: each call once, and what it leaves.

use crate::calls::{Call, Type};
use crate::play::{AMPLE, Row, plays};
use crate::told::{BLOCKED, Told};
use strm_codes::refusals::Refusal;
use strm_machine::streams::Owner;

// Who has the other end: of the write end the guest that reads, and of the read end the one that writes.
const READER: Owner = Owner::Held {
    guest: 1,
    handle: 1,
};

const WRITER: Owner = Owner::Held {
    guest: 0,
    handle: 1,
};

const AN_END_IS_LOOKED_AT: [Row; 16] = [
    (Call::Guest(16), Told::Number(0)),
    (Call::Guest(16), Told::Number(1)),
    (Call::Between(0, 1, Type::Bytes), Told::Ends(1, 1, 0)),
    (
        Call::Look((0, 1)),
        Told::End(Type::Bytes, false, 0, None, READER),
    ),
    (Call::Write((0, 1), 0, 3), Told::Code(BLOCKED)),
    (Call::Read((1, 1), 0, 2), Told::Code(0x20)),
    (
        Call::Look((0, 1)),
        Told::End(Type::Bytes, false, 0, Some(0x20), READER),
    ),
    (Call::Event((0, 1)), Told::Code(0x20)),
    (
        Call::Look((0, 1)),
        Told::End(Type::Bytes, false, 0, None, READER),
    ),
    (
        Call::Look((1, 1)),
        Told::End(Type::Bytes, true, 0, None, WRITER),
    ),
    (Call::Lift((1, 1), Type::Bytes), Told::Number(0)),
    (
        Call::Look((0, 1)),
        Told::End(Type::Bytes, false, 0, None, Owner::Loose),
    ),
    (Call::Close(0), Told::Done),
    (
        Call::Look((0, 1)),
        Told::End(Type::Bytes, false, 0, Some(0x01), Owner::Gone),
    ),
    (Call::Look((1, 1)), Told::Refused(Refusal::UnknownHandle)),
    (Call::Look((2, 1)), Told::Refused(Refusal::UnknownGuest)),
];

/// What an end is to be told is looked at, and stays; and who has the other end follows that end.
#[test]
fn an_end_is_looked_at(rt: HostRuntime) {
    plays(&rt, rt.alloc(), 0, AMPLE, &AN_END_IS_LOOKED_AT);
}

const HANDLES_COME_IN_RISING_ORDER: [Row; 17] = [
    (Call::Guest(16), Told::Number(0)),
    (Call::Next((0, 0)), Told::Nothing),
    (Call::Stream(0), Told::Ends(1, 2, 0)),
    (Call::SetNew(0), Told::Number(3)),
    (Call::Context(0, 0), Told::Number(4)),
    (Call::SetNew(0), Told::Number(5)),
    (Call::Handles(0), Told::Number(5)),
    (Call::SetDrop(0, 3), Told::Done),
    (Call::Handles(0), Told::Number(4)),
    (Call::Next((0, 0)), Told::Handle(1, 'e')),
    (Call::Next((0, 1)), Told::Handle(2, 'e')),
    (Call::Next((0, 2)), Told::Handle(4, 'c')),
    (Call::Next((0, 4)), Told::Handle(5, 's')),
    (Call::Next((0, 5)), Told::Nothing),
    (Call::Next((0, 4_294_967_295)), Told::Nothing),
    (Call::Next((1, 0)), Told::Refused(Refusal::UnknownGuest)),
    (Call::Handles(1), Told::Refused(Refusal::UnknownGuest)),
];

/// Handles come in rising order, without those that were given up, and are as many as are counted.
#[test]
fn handles_come_in_rising_order(rt: HostRuntime) {
    plays(&rt, rt.alloc(), 0, AMPLE, &HANDLES_COME_IN_RISING_ORDER);
}
