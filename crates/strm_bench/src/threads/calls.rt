//! What is called: rounds of a write of 8 items that waits, a read that takes them, and the write's event.

use strm_codes::codes::{ReturnCode, TransmitIndex};
use strm_codes::payloads::Payload;
use strm_codes::scalars::Scalar;
use strm_machine::limits::Limits;
use strm_machine::replies::Reply;
use strm_machine::steps::Step;

pub(crate) const STREAM: TransmitIndex = TransmitIndex::Stream(Payload::One(Scalar::U8));

/// The guests, each of which has a stream of its own: the read end has the handle 1, the write end 2.
pub(crate) const GUESTS: u32 = 4;

pub(crate) const LIMITS: Limits = Limits {
    handles: 64,
    places: 64,
};

pub(crate) const GUEST: Step = Step::Guest { size: 65_536 };

/// Writes begin 8 bytes apart, so often until they begin from the front again.
const PLACES: u32 = 8_192;

/// A stream of a guest with itself.
pub(crate) fn new(guest: u32) -> Step {
    Step::New { guest, ty: STREAM }
}

pub(crate) fn write(guest: u32, handle: u32, round: u32) -> Step {
    Step::Write {
        guest,
        ty: STREAM,
        handle,
        address: round % PLACES * 8,
        count: 8,
    }
}

pub(crate) fn read(guest: u32, handle: u32, round: u32) -> Step {
    Step::Read {
        guest,
        ty: STREAM,
        handle,
        address: round % PLACES * 8,
        count: 8,
    }
}

pub(crate) fn event(guest: u32, handle: u32) -> Step {
    Step::Event { guest, handle }
}

/// How many items a read or write moved.
pub(crate) fn items(reply: &Reply) -> u64 {
    match reply {
        Reply::Code(ReturnCode::Completed(count)) => u64::from(count.as_u32()),
        _ => 0,
    }
}
