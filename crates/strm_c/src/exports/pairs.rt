//! The two ends of what was made.

ghost use Rattle.std.specs.Prelude.{◌≡◌};
ghost use Rattle.strm_c.specs.Pairs.{answer_pair};
ghost use Rattle.strm_c.specs.Statuses.{answer_status};

use crate::statuses::{Status, error_status};
use strm_machine::replies::Pair;
use strm_transmit::errors::StoreError;

/// The handles of a new stream's or future's two ends, each in the table of the guest that has it, and
/// the number of the stream or future, which no other has until both its ends are gone.
#[repr(C)]
#[derive(Drop)]
pub struct StrmPair {
    pub read: u32,
    pub write: u32,
    pub stream: u32,
}

/// A pair, put at `out`.
#[inline(always)]
pub fn pair(answer: Result<Pair, StoreError>, out: &mut StrmPair) -> Status
    ensures status { result ≡ answer_status answer }
    ensures pair { out.new ≡ answer_pair answer out.old }
{
    match answer {
        Ok(pair) => {
            out.read = pair.read;
            out.write = pair.write;
            out.stream = pair.stream;
            0
        }
        Err(error) => error_status(error),
    }
}
