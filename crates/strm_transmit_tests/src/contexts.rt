//! Error contexts: each call once.

use crate::calls::Call;
use crate::play::{AMPLE, Row, plays};
use crate::told::Told;
use strm_codes::refusals::Refusal;

const A_MESSAGE_IS_TOLD: [Row; 10] = [
    (Call::Guest(16), Told::Number(0)),
    (Call::Guest(8), Told::Number(1)),
    (Call::Poke(0, 0, *b"oop\0"), Told::Done),
    (Call::Context(0, 3), Told::Number(1)),
    (Call::Share((0, 1), 1), Told::Number(1)),
    (Call::DropContext((0, 1)), Told::Done),
    (Call::Text((1, 1), 2), Told::Number(3)),
    (Call::Holds(1, 1, *b"\0oop"), Told::Is(true)),
    (Call::DropContext((1, 1)), Told::Done),
    (Call::Text((1, 1), 2), Told::Refused(Refusal::UnknownHandle)),
];

/// A message goes to another guest, and the error context goes with its last handle.
#[test]
fn a_message_is_told(rt: HostRuntime) {
    plays(&rt, rt.alloc(), 0, AMPLE, &A_MESSAGE_IS_TOLD);
}

const A_NUMBER_IS_LOWERED: [Row; 11] = [
    (Call::Guest(16), Told::Number(0)),
    (Call::Guest(8), Told::Number(1)),
    (Call::Poke(0, 0, *b"oop\0"), Told::Done),
    (Call::Context(0, 3), Told::Number(1)),
    (Call::Rep((0, 1)), Told::Number(0)),
    (Call::Rep((1, 1)), Told::Refused(Refusal::UnknownHandle)),
    (
        Call::LowerContext(1, 0),
        Told::Refused(Refusal::UnknownHandle),
    ),
    (Call::LowerContext(0, 0), Told::Number(2)),
    (Call::Share((0, 2), 1), Told::Number(1)),
    (Call::DropContext((0, 1)), Told::Done),
    (Call::Text((1, 1), 0), Told::Number(3)),
];

/// The number that a handle names is lowered into a guest as a handle more. No line does that.
#[test]
fn a_number_is_lowered(rt: HostRuntime) {
    plays(&rt, rt.alloc(), 0, AMPLE, &A_NUMBER_IS_LOWERED);
}

const NUMBERS: [Row; 13] = [
    (Call::Guest(16), Told::Number(0)),
    (Call::Context(0, 0), Told::Number(1)),
    (Call::Context(0, 0), Told::Number(2)),
    (Call::Context(0, 0), Told::Number(3)),
    (Call::Context(0, 0), Told::Number(4)),
    (Call::DropContext((0, 1)), Told::Done),
    (Call::DropContext((0, 3)), Told::Done),
    (Call::Context(0, 0), Told::Number(3)),
    (Call::Rep((0, 3)), Told::Number(2)),
    (Call::Context(0, 0), Told::Number(1)),
    (Call::Rep((0, 1)), Told::Number(0)),
    (Call::Context(0, 0), Told::Number(5)),
    (Call::Rep((0, 5)), Told::Number(4)),
];

/// The number freed last is given first.
#[test]
fn numbers_are_given_again(rt: HostRuntime) {
    plays(&rt, rt.alloc(), 0, AMPLE, &NUMBERS);
}
