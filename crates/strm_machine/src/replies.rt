//! What a step answers.

use crate::chunks::Chunk;
use strm_codes::codes::ReturnCode;
use strm_codes::refusals::Refusal;

/// The handles of a new stream's two ends, and the stream's number.
#[derive(Clone, Copy, Debug, PartialEq, Eq)]
pub struct Pair {
    /// The read end's handle, in the reader's table.
    pub read: u32,
    /// The write end's handle, in the writer's table.
    pub write: u32,
    /// Streams are numbered from 0 in the order of their making, and no number is given again.
    pub stream: u32,
}

/// A member of a waitable set, and what it was told.
#[derive(Clone, Copy, Debug, PartialEq, Eq)]
pub struct Member {
    /// The member's handle, in the table of the set's guest.
    pub handle: u32,
    pub code: ReturnCode,
}

/// The answer to a step.
#[derive(Clone, Copy, Debug, PartialEq, Eq)]
pub enum Reply {
    /// It was done.
    Done,
    /// It was done, and made what has this number.
    Number(u32),
    /// It made a stream.
    Pair(Pair),
    /// A read or write answered this code.
    Code(ReturnCode),
    /// What an end was told, if anything.
    Event(Option<ReturnCode>),
    /// The member of a set that was told something, if one was.
    Member(Option<Member>),
    /// The bytes that were asked for.
    Bytes(Chunk),
    /// It may not be done now, and nothing has changed.
    Refused(Refusal),
    /// An item of this stream is no Unicode scalar value; the store is trapped from now on.
    BadItem { stream: u32 },
    /// An earlier step trapped the store, and nothing has changed.
    StoreTrapped,
}
