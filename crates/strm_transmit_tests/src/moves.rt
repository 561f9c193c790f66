//! Ends that move, by calls: transfers, lifts, lowers and closes.

use crate::calls::{Call, Type};
use crate::play::{AMPLE, Row, plays};
use crate::told::{BLOCKED, Told};
use strm_codes::refusals::Refusal;

const A_WRITE_GOES_ON_AFTER_A_MOVE: [Row; 18] = [
    (Call::Guest(16), Told::Number(0)),
    (Call::Guest(16), Told::Number(1)),
    (Call::Between(0, 1, Type::Bytes), Told::Ends(1, 1, 0)),
    (Call::Poke(0, 0, [10, 11, 12, 0]), Told::Done),
    (Call::Write((0, 1), 0, 3), Told::Code(BLOCKED)),
    (Call::Read((1, 1), 0, 1), Told::Code(0x10)),
    (Call::Lift((1, 1), Type::Bytes), Told::Number(0)),
    (Call::Lower(0, 1, Type::Bytes), Told::Number(1)),
    (Call::Read((1, 1), 4, 2), Told::Code(0x20)),
    (Call::Event((0, 1)), Told::Code(0x30)),
    (Call::Lift((1, 1), Type::Bytes), Told::Number(0)),
    (Call::Close(0), Told::Done),
    (
        Call::Lower(0, 1, Type::Bytes),
        Told::Refused(Refusal::UnknownReader),
    ),
    (Call::Event((0, 1)), Told::Code(0x01)),
    (Call::DropWriter((0, 1)), Told::Done),
    (Call::TypeOf(0), Told::Nothing),
    (Call::Holds(1, 0, [10, 0, 0, 0]), Told::Is(true)),
    (Call::Holds(1, 2, [0, 0, 11, 12]), Told::Is(true)),
];

/// A write that was read in part goes on with what it has left, once the read end was lifted and
/// lowered; and it learns that the end was closed.
#[test]
fn a_write_goes_on_after_a_move(rt: HostRuntime) {
    plays(&rt, rt.alloc(), 0, AMPLE, &A_WRITE_GOES_ON_AFTER_A_MOVE);
}

const AN_END_THAT_WAS_TOLD_STAYS: [Row; 8] = [
    (Call::Guest(16), Told::Number(0)),
    (Call::Guest(16), Told::Number(1)),
    (Call::Between(0, 1, Type::Bytes), Told::Ends(1, 1, 0)),
    (Call::DropWriter((0, 1)), Told::Done),
    (Call::Move((1, 1), 0), Told::Number(1)),
    (Call::Read((0, 1), 0, 1), Told::Code(0x01)),
    (Call::Move((0, 1), 1), Told::Refused(Refusal::LiftDropped)),
    (
        Call::Lift((0, 1), Type::Bytes),
        Told::Refused(Refusal::LiftDropped),
    ),
];

/// A read end may move until it was told that the write end is gone.
#[test]
fn an_end_that_was_told_stays(rt: HostRuntime) {
    plays(&rt, rt.alloc(), 0, AMPLE, &AN_END_THAT_WAS_TOLD_STAYS);
}

const A_FUTURE_THAT_PASSED_STAYS: [Row; 10] = [
    (Call::Guest(16), Told::Number(0)),
    (Call::Guest(16), Told::Number(1)),
    (Call::Future(0), Told::Ends(1, 2, 0)),
    (Call::MoveValue((0, 1), 1), Told::Number(1)),
    (Call::ReadValue((1, 1), 0), Told::Code(BLOCKED)),
    (Call::MoveValue((1, 1), 0), Told::Refused(Refusal::Busy)),
    (Call::WriteValue((0, 2), 0), Told::Code(0x00)),
    (Call::Event((1, 1)), Told::Code(0x00)),
    (
        Call::MoveValue((1, 1), 0),
        Told::Refused(Refusal::LiftDropped),
    ),
    (
        Call::Lift((1, 1), Type::Word),
        Told::Refused(Refusal::LiftDropped),
    ),
];

/// A future's read end may move until its value has passed.
#[test]
fn a_future_that_passed_stays(rt: HostRuntime) {
    plays(&rt, rt.alloc(), 0, AMPLE, &A_FUTURE_THAT_PASSED_STAYS);
}

const A_SECOND_GUEST_WRITES_ON: [Row; 21] = [
    (Call::Guest(16), Told::Number(0)),
    (Call::Guest(16), Told::Number(1)),
    (Call::Between(0, 1, Type::Bytes), Told::Ends(1, 1, 0)),
    (Call::Poke(0, 0, [1, 2, 0, 0]), Told::Done),
    (Call::Poke(1, 8, [3, 4, 0, 0]), Told::Done),
    (Call::Write((0, 1), 0, 2), Told::Code(BLOCKED)),
    (Call::Move((0, 1), 1), Told::Refused(Refusal::Busy)),
    (Call::Read((1, 1), 0, 2), Told::Code(0x20)),
    (Call::Move((0, 1), 1), Told::Refused(Refusal::Busy)),
    (Call::Event((0, 1)), Told::Code(0x20)),
    (Call::Move((0, 1), 1), Told::Number(2)),
    (Call::Write((1, 2), 8, 2), Told::Code(BLOCKED)),
    (Call::Read((1, 1), 2, 2), Told::Code(0x20)),
    (Call::Holds(1, 0, [1, 2, 3, 4]), Told::Is(true)),
    (Call::Event((1, 2)), Told::Code(0x20)),
    (
        Call::Lift((1, 2), Type::Bytes),
        Told::Refused(Refusal::WrongEnd),
    ),
    (Call::Lift((1, 1), Type::Bytes), Told::Number(0)),
    (Call::Close(0), Told::Done),
    (Call::Move((1, 2), 0), Told::Number(1)),
    (Call::Event((0, 1)), Told::Code(0x01)),
    (Call::Move((0, 1), 1), Told::Refused(Refusal::LiftDropped)),
];

/// A write end stays while its write was not told, and then goes to another guest, which writes from its
/// own memory behind what was written before. It is not lifted, and does not move once it was told that
/// the read end is gone.
#[test]
fn a_second_guest_writes_on(rt: HostRuntime) {
    plays(&rt, rt.alloc(), 0, AMPLE, &A_SECOND_GUEST_WRITES_ON);
}

const A_FUTURE_IS_WRITTEN_BY_A_SECOND_GUEST: [Row; 11] = [
    (Call::Guest(16), Told::Number(0)),
    (Call::Guest(16), Told::Number(1)),
    (Call::Future(0), Told::Ends(1, 2, 0)),
    (Call::SetNew(0), Told::Number(3)),
    (Call::SetJoin((0, 2), 3), Told::Done),
    (
        Call::MoveValue((0, 2), 1),
        Told::Refused(Refusal::LiftInSet),
    ),
    (Call::SetJoin((0, 2), 0), Told::Done),
    (Call::MoveValue((0, 2), 1), Told::Number(1)),
    (Call::ReadValue((0, 1), 0), Told::Code(BLOCKED)),
    (Call::WriteValue((1, 1), 0), Told::Code(0x00)),
    (
        Call::MoveValue((1, 1), 0),
        Told::Refused(Refusal::LiftDropped),
    ),
];

/// A future's write end moves until its value has passed, and a member of a waitable set does not.
#[test]
fn a_future_is_written_by_a_second_guest(rt: HostRuntime) {
    plays(
        &rt,
        rt.alloc(),
        0,
        AMPLE,
        &A_FUTURE_IS_WRITTEN_BY_A_SECOND_GUEST,
    );
}
