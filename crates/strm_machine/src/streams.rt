//! What a stream is, as data. A future is a stream of one item; the word includes it.
//!
//! Source: wasmtime, `futures_and_streams.rs`, `TransmitState` with its read and write states,
//! of which a fact has one place here.

use std::fmt;
use strm_codes::codes::{StreamResult, TransmitKind};
use strm_codes::counts::ItemCount;
use strm_codes::payloads::Payload;

/// One of the two ends of a stream.
#[derive(Clone, Copy)]
pub enum Side {
    Writing,
    Reading,
}

/// Who completes where a write and a read meet.
#[derive(Clone, Copy)]
pub enum Meeting {
    /// Items move, the caller completes, and the waiting side has met.
    BothComplete,
    /// The write has no items: it completes alone, and the read waits.
    WriteCompletes,
    /// The read has no room: it completes alone, and the write waits.
    ReadCompletes,
}

/// Who has an end.
#[derive(Clone, Copy, PartialEq, Eq)]
pub enum Owner {
    /// A guest, under a handle of its table.
    Held { guest: u32, handle: u32 },
    /// Nobody yet: the read end was lifted out of a guest, or is one of a host writer's stream, and
    /// was not lowered into a guest since.
    Loose,
    /// The host end of this number: of a write end a host writer, of a read end a host reader.
    Host { number: u32 },
    /// Nobody: the end was dropped.
    Gone,
}

/// What a host end does for a store. It is used once.
#[derive(Clone, Copy, PartialEq, Eq)]
pub enum Duty {
    /// It was never used.
    Unused,
    /// It is an end of this stream.
    Serves { stream: u32 },
    /// It was an end of a stream, and is gone.
    Ended,
}

/// What a store keeps of a host writer.
#[derive(Clone, Copy)]
pub struct Producer {
    pub duty: Duty,
    /// It answered Dropped: it has no more to come, and is not polled again.
    pub over: bool,
    /// It holds items that it produced, as it said when it was last polled or gave some.
    pub holding: bool,
}

/// What a store keeps of a host reader.
#[derive(Clone, Copy)]
pub struct Consumer {
    pub duty: Duty,
    /// Items that it took since its last answer of Completed or Cancelled; it stays at 2^32 - 1 once
    /// there.
    pub since: u32,
    /// It reads from a host writer, and its last answer was Pending: it is polled again before the
    /// writer is.
    pub resting: bool,
}

/// A host end, by its number.
#[derive(Clone, Copy, Debug, PartialEq, Eq)]
pub enum HostEnd {
    Writer(u32),
    Reader(u32),
}

impl fmt::Display for HostEnd {
    fn fmt<W: fmt::Write>(&self, f: &mut fmt::Formatter<W>) -> fmt::Result {
        match self {
            HostEnd::Writer(number) => write!(f, "host writer {number}"),
            HostEnd::Reader(number) => write!(f, "host reader {number}"),
        }
    }
}

/// A guest's read or write that has not ended. The next item lies at `address`, in bytes, or is to
/// lie there.
#[derive(Clone, Copy)]
pub struct Operation {
    pub guest: u32,
    pub address: u32,
    /// Items still to move.
    pub left: ItemCount,
    /// Items moved since the call.
    pub moved: ItemCount,
    /// The other side may meet it.
    pub is_open: bool,
    /// It has a report.
    pub met: bool,
    /// A host end on the other side was asked to finish.
    pub asked: bool,
    /// How it came out, once it has met.
    pub outcome: StreamResult,
}

/// One end of a stream.
#[derive(Clone, Copy)]
pub struct End {
    pub owner: Owner,
    /// Its owner was told that the other end is gone.
    pub told: bool,
    /// Its read or write, if one has not ended: the end is then busy.
    pub operation: Option<Operation>,
}

/// A stream, or what is left of one whose both ends are gone.
#[derive(Clone, Copy)]
pub struct Stream {
    pub kind: TransmitKind,
    pub payload: Payload,
    /// A future's value was handed over.
    pub passed: bool,
    pub writer: End,
    pub reader: End,
    /// Items received since it was made; it stays at 2^128 - 1 once there.
    pub received: u128,
}
