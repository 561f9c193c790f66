//! Guests, and the streams between them: each call once.

use crate::calls::{Call, Type};
use crate::play::{AMPLE, Row, plays};
use crate::told::{BLOCKED, Told};
use strm_codes::refusals::Refusal;

const GUESTS_HAVE_MEMORIES: [Row; 8] = [
    (Call::Guest(16), Told::Number(0)),
    (Call::Guest(8), Told::Number(1)),
    (Call::Poke(1, 4, [0, 0, 1, 2]), Told::Done),
    (Call::Holds(1, 4, [0, 0, 1, 2]), Told::Is(true)),
    (Call::Begins(1, [0, 0, 0, 0]), Told::Is(true)),
    (Call::Trapped, Told::Is(false)),
    (Call::Begins(2, [0, 0, 0, 0]), Told::Is(false)),
    (Call::Tag, Told::Count(7)),
];

/// What a store tells of itself and of its guests.
#[test]
fn guests_have_memories(rt: HostRuntime) {
    plays(&rt, rt.alloc(), 7, AMPLE, &GUESTS_HAVE_MEMORIES);
}

const A_READ_WAITS: [Row; 12] = [
    (Call::Guest(16), Told::Number(0)),
    (Call::Guest(16), Told::Number(1)),
    (Call::Between(0, 1, Type::Bytes), Told::Ends(1, 1, 0)),
    (Call::Poke(0, 0, [1, 2, 3, 4]), Told::Done),
    (Call::Read((1, 1), 0, 5), Told::Code(BLOCKED)),
    (Call::Write((0, 1), 0, 2), Told::Code(0x20)),
    (Call::Write((0, 1), 2, 2), Told::Code(0x20)),
    (Call::Event((1, 1)), Told::Code(0x40)),
    (Call::Holds(1, 1, [2, 3, 4, 0]), Told::Is(true)),
    (Call::Moved(0), Told::Count(4)),
    (Call::Moved(1), Told::Nothing),
    (Call::Streams, Told::Number(1)),
];

/// Two writes complete in a read that waits; what is known of the stream.
#[test]
fn a_read_waits(rt: HostRuntime) {
    plays(&rt, rt.alloc(), 0, AMPLE, &A_READ_WAITS);
}

const A_STREAM_IS_GIVEN_UP: [Row; 11] = [
    (Call::Guest(16), Told::Number(0)),
    (Call::Stream(0), Told::Ends(1, 2, 0)),
    (Call::Read((0, 1), 0, 1), Told::Code(BLOCKED)),
    (Call::CancelRead((0, 1)), Told::Code(0x02)),
    (Call::Write((0, 2), 0, 1), Told::Code(BLOCKED)),
    (Call::CancelWrite((0, 2)), Told::Code(0x02)),
    (Call::DropReader((0, 1)), Told::Done),
    (Call::TypeOf(0), Told::Type(Type::Bytes)),
    (Call::DropWriter((0, 2)), Told::Done),
    (Call::TypeOf(0), Told::Nothing),
    (Call::Event((0, 1)), Told::Refused(Refusal::UnknownHandle)),
];

/// Both ends in one guest are cancelled, and dropped: the stream is removed then.
#[test]
fn a_stream_is_given_up(rt: HostRuntime) {
    plays(&rt, rt.alloc(), 0, AMPLE, &A_STREAM_IS_GIVEN_UP);
}

const A_CELL_KEEPS_A_REPORT: [Row; 13] = [
    (Call::Guest(16), Told::Number(0)),
    (Call::Guest(16), Told::Number(1)),
    (Call::Between(0, 1, Type::Bytes), Told::Ends(1, 1, 0)),
    (Call::Write((0, 1), 0, 5), Told::Code(BLOCKED)),
    (Call::Cell((0, 1)), Told::Nothing),
    (Call::Read((1, 1), 0, 2), Told::Code(0x20)),
    (Call::Cell((0, 1)), Told::Code(0x20)),
    (Call::DropReader((1, 1)), Told::Done),
    (Call::Cell((0, 1)), Told::Code(0x21)),
    (Call::Event((0, 1)), Told::Code(0x21)),
    (Call::Cell((0, 1)), Told::Nothing),
    (Call::Cell((1, 1)), Told::NoCell),
    (Call::Cell((2, 1)), Told::NoCell),
];

/// A write that was met in part keeps its report, which the drop of the other end changes, until its
/// event. Where no end is there is no cell.
#[test]
fn a_cell_keeps_a_report(rt: HostRuntime) {
    plays(&rt, rt.alloc(), 0, AMPLE, &A_CELL_KEEPS_A_REPORT);
}
