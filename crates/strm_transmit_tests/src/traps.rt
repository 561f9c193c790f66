//! What stops a store: a bad item traps it, and every later call says so. As a step a refusal is a
//! reply, and a stop an error.

use crate::calls::{Call, Type};
use crate::play::{AMPLE, Row, plays};
use crate::told::{BLOCKED, Told};
use strm_codes::refusals::Refusal;
use strm_machine::streams::Owner;

// A surrogate, which is no char.
const SURROGATE: [u8; 4] = [0, 0xd8, 0, 0];

const A_BAD_ITEM_TRAPS: [Row; 11] = [
    (Call::Guest(16), Told::Number(0)),
    (Call::Stream(0), Told::Ends(1, 2, 0)),
    (Call::Guest(16), Told::Number(1)),
    (Call::Between(0, 1, Type::Chars), Told::Ends(1, 3, 1)),
    (Call::Poke(0, 0, SURROGATE), Told::Done),
    (Call::StepWrite((0, 3)), Told::Code(BLOCKED)),
    (Call::StepRead((1, 1)), Told::BadItem(1)),
    (Call::Guest(16), Told::Trapped),
    (Call::Trapped, Told::Is(true)),
    (
        Call::Look((1, 1)),
        Told::End(
            Type::Chars,
            true,
            1,
            None,
            Owner::Held {
                guest: 0,
                handle: 3,
            },
        ),
    ),
    (Call::Handles(0), Told::Number(3)),
];

/// A surrogate of the second stream traps the store; its number is told, and handles are told as before.
#[test]
fn a_bad_item_traps(rt: HostRuntime) {
    plays(&rt, rt.alloc(), 0, AMPLE, &A_BAD_ITEM_TRAPS);
}

const STEPS_THAT_STOP: [Row; 8] = [
    (Call::Guest(16), Told::Number(0)),
    (Call::StepDump(1), Told::RefusedReply(Refusal::UnknownGuest)),
    (Call::StepGuest(16), Told::Number(1)),
    (Call::Between(0, 1, Type::Chars), Told::Ends(1, 1, 0)),
    (Call::Poke(0, 0, SURROGATE), Told::Done),
    (Call::StepWrite((0, 1)), Told::Code(BLOCKED)),
    (Call::StepRead((1, 1)), Told::BadItem(0)),
    (Call::StepWrite((0, 1)), Told::Trapped),
];

/// A refusal is a reply; a bad item and a trapped store are none.
#[test]
fn steps_that_stop(rt: HostRuntime) {
    plays(&rt, rt.alloc(), 0, AMPLE, &STEPS_THAT_STOP);
}
