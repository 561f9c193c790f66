//! Futures: each call once.

use crate::calls::{Call, Type};
use crate::play::{AMPLE, Row, plays};
use crate::told::{BLOCKED, Told};

const A_VALUE_PASSES: [Row; 16] = [
    (Call::Guest(16), Told::Number(0)),
    (Call::Future(0), Told::Ends(1, 2, 0)),
    (Call::Poke(0, 4, [0x2a, 0, 0, 0]), Told::Done),
    (Call::ReadValue((0, 1), 8), Told::Code(BLOCKED)),
    (Call::CancelReadValue((0, 1)), Told::Code(0x02)),
    (Call::WriteValue((0, 2), 4), Told::Code(BLOCKED)),
    (Call::CancelWriteValue((0, 2)), Told::Code(0x02)),
    (Call::WriteValue((0, 2), 4), Told::Code(BLOCKED)),
    (Call::ReadValue((0, 1), 8), Told::Code(0x00)),
    (Call::Event((0, 2)), Told::Code(0x00)),
    (Call::Holds(0, 8, [0x2a, 0, 0, 0]), Told::Is(true)),
    (Call::Moved(0), Told::Count(1)),
    (Call::DropValueReader((0, 1)), Told::Done),
    (Call::TypeOf(0), Told::Type(Type::Word)),
    (Call::DropValueWriter((0, 2)), Told::Done),
    (Call::TypeOf(0), Told::Nothing),
];

/// A value passes once within one guest, after both ends gave up and began again.
#[test]
fn a_value_passes(rt: HostRuntime) {
    plays(&rt, rt.alloc(), 0, AMPLE, &A_VALUE_PASSES);
}
