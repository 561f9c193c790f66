//! Entries of the history as they are kept: 64 bytes each, with chunks at places of their own.
//!
//! Meaning: `Rows.antt`. Ours.

ghost use Rattle.std.specs.Prelude.{◌≡◌, ◌+◌, ◌<◌, ◌≤◌, length, [], ◌∷◌, ◌++◌};

use strm_codes::codes::ReturnCode;
use strm_codes::refusals::Refusal;
use strm_machine::replies::{Member, Pair};
use strm_machine::short_steps::ShortStep;

/// A reply, of whose chunk it has the place.
#[derive(Clone, Copy)]
pub(crate) enum ShortReply {
    Done,
    Number(u32),
    Pair(Pair),
    Code(ReturnCode),
    Event(Option<ReturnCode>),
    Member(Option<Member>),
    Bytes(usize),
    Refused(Refusal),
    BadItem { stream: u32 },
    StoreTrapped,
}

/// An entry, of whose chunks it has the places.
#[derive(Clone, Copy)]
pub(crate) struct Row {
    pub seat: u64,
    pub step: ShortStep,
    pub reply: ShortReply,
}

// A reply of one type as one of the other; the one with a chunk is written out.
macro_rules! same_reply {
    ($reply:expr, $from:ident => $to:ident, $($with_chunk:tt)*) => {
        match $reply {
            $from::Done => $to::Done,
            $from::Number(number) => $to::Number(number),
            $from::Pair(pair) => $to::Pair(pair),
            $from::Code(code) => $to::Code(code),
            $from::Event(code) => $to::Event(code),
            $from::Member(member) => $to::Member(member),
            $from::Refused(refusal) => $to::Refused(refusal),
            $from::BadItem { stream } => $to::BadItem { stream },
            $from::StoreTrapped => $to::StoreTrapped,
            $($with_chunk)*
        }
    };
}

pub(crate) use same_reply;
