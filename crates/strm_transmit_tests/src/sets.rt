//! Waitable sets: each call once.

use crate::calls::Call;
use crate::play::{AMPLE, Row, plays};
use crate::told::Told;
use strm_codes::refusals::Refusal;

const CALLS_OF_SETS: [Row; 14] = [
    (Call::Guest(16), Told::Number(0)),
    (Call::Stream(0), Told::Ends(1, 2, 0)),
    (Call::SetNew(0), Told::Number(3)),
    (Call::SetNew(0), Told::Number(4)),
    (Call::SetJoin((0, 2), 3), Told::Done),
    (Call::SetJoin((0, 2), 4), Told::Done),
    (Call::SetDrop(0, 3), Told::Done),
    (Call::SetPoll(0, 4), Told::Nothing),
    (Call::DropReader((0, 1)), Told::Done),
    (Call::SetPoll(0, 4), Told::Member(2, 0x01)),
    (Call::SetPoll(0, 4), Told::Nothing),
    (Call::SetDrop(0, 4), Told::Refused(Refusal::SetNotEmpty)),
    (Call::DropWriter((0, 2)), Told::Done),
    (Call::SetDrop(0, 4), Told::Done),
];

/// What is gone is told once, a dropped end leaves its set, and a join leaves the other one.
#[test]
fn calls_of_sets(rt: HostRuntime) {
    plays(&rt, rt.alloc(), 0, AMPLE, &CALLS_OF_SETS);
}
