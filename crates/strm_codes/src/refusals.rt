//! Why a call of the store may be refused.
//!
//! The numbers and their order are ours. The conditions are those of wasmtime,
//! `futures_and_streams.rs` and `handle_table.rs`.

ghost use Rattle.std.specs.Prelude.{◌≡◌, ◌≤◌};

use thiserror::Error;

/// A refusal. What was asked may not be done now, and nothing has changed.
#[derive(Clone, Copy, Debug, PartialEq, Eq, Error)]
pub enum Refusal {
    /// A named guest is not there.
    #[error("no guest has that number")]
    UnknownGuest = 1,
    /// No host end has that number.
    #[error("no host end has that number")]
    UnknownHost = 2,
    /// The host end was used before.
    #[error("the host end was used before")]
    HostUsed = 3,
    /// No stream of that number has a loose read end.
    #[error("no stream of that number has a loose read end")]
    UnknownReader = 4,
    /// The count is 2^28 or more.
    #[error("the count is 2^28 or more")]
    StreamOpTooBig = 5,
    /// The region passes the memory's end.
    #[error("the region passes the memory's end")]
    OutOfBounds = 6,
    /// The address is no multiple of the payload's alignment.
    #[error("the address is not aligned")]
    NotAligned = 7,
    /// No live slot has that number.
    #[error("no handle has that number")]
    UnknownHandle = 8,
    /// The slot is of another kind than the call names.
    #[error("the handle is of another kind")]
    WrongKind = 9,
    /// The payloads differ.
    #[error("the payloads differ")]
    WrongType = 10,
    /// In a cancel, drop or lift: the handle is the other end, busy or idle.
    #[error("the handle is the other end")]
    WrongEnd = 11,
    /// In a read or write: the handle is busy, or is the other end.
    #[error("the end is busy, or is the other end")]
    ConcurrentFutureStreamOp = 12,
    /// In a drop, transfer or lift: the end has an operation.
    #[error("the end has an operation")]
    Busy = 13,
    /// In a cancel: the end has no operation.
    #[error("the end has no operation")]
    NoPending = 14,
    /// The operation was asked to finish before.
    #[error("the operation was asked to finish before")]
    CancelUnderWay = 15,
    /// The write end of a stream was told that the read end is gone.
    #[error("the read end of the stream is gone")]
    WriteToDroppedStream = 16,
    /// The write end of a future was told so, or the value passed.
    #[error("the read end of the future is gone, or its value passed")]
    WriteToDroppedFuture = 17,
    /// The read end of a stream was told that the write end is gone.
    #[error("the write end of the stream is gone")]
    ReadFromDroppedStream = 18,
    /// The value passed.
    #[error("the value of the future passed")]
    FutureAlreadyRead = 19,
    /// Both operations are of one guest, and the payload is neither none nor a number.
    #[error("both operations are of one guest")]
    IntraComponent = 20,
    /// The end that would move was told, or the value passed.
    #[error("the end was told that the other is gone, or the value passed")]
    LiftDropped = 21,
    /// The end that would move is a member of a set.
    #[error("the end is in a waitable set")]
    LiftInSet = 22,
    /// The set has a member.
    #[error("the waitable set has a member")]
    SetNotEmpty = 23,
    /// The value has not passed, and the write end was not told.
    #[error("the value of the future has not passed")]
    FutureWithoutValue = 24,
    /// A new handle would be 2^28 or more.
    #[error("no handle number is left")]
    IndexOverflow = 25,
    /// The live handles would pass the limit.
    #[error("the live handles would pass their limit")]
    HandleLimit = 26,
    /// The places in use and those needed pass the limit, or a number would pass its range.
    #[error("the places would pass their limit")]
    Full = 27,
    /// The guests' memories would pass 268,435,456 bytes together.
    #[error("the guests' memories would pass their limit")]
    MemoryTooBig = 28,
    /// The bytes are not UTF-8.
    #[error("the bytes are not UTF-8")]
    BadText = 29,
    /// The message is longer than 4,096 bytes.
    #[error("the message is longer than 4,096 bytes")]
    MessageTooLong = 30,
}

impl Refusal {
    ghost use Rattle.strm_codes.specs.Refusals.{refusal_number, refusal_name};

    /// From 1 to 30.
    pub fn number(&self) -> u8
        ensures exact { result ≡ refusal_number self.now }
        ensures some { 1 ≤ result }
        ensures most { result ≤ 30 }
    {
        *self as u8
    }

    /// The variant's name.
    pub fn name(&self) -> &'static str
        ensures { result.now ≡ refusal_name self.now }
    {
        match self {
            Refusal::UnknownGuest => "UnknownGuest",
            Refusal::UnknownHost => "UnknownHost",
            Refusal::HostUsed => "HostUsed",
            Refusal::UnknownReader => "UnknownReader",
            Refusal::StreamOpTooBig => "StreamOpTooBig",
            Refusal::OutOfBounds => "OutOfBounds",
            Refusal::NotAligned => "NotAligned",
            Refusal::UnknownHandle => "UnknownHandle",
            Refusal::WrongKind => "WrongKind",
            Refusal::WrongType => "WrongType",
            Refusal::WrongEnd => "WrongEnd",
            Refusal::ConcurrentFutureStreamOp => "ConcurrentFutureStreamOp",
            Refusal::Busy => "Busy",
            Refusal::NoPending => "NoPending",
            Refusal::CancelUnderWay => "CancelUnderWay",
            Refusal::WriteToDroppedStream => "WriteToDroppedStream",
            Refusal::WriteToDroppedFuture => "WriteToDroppedFuture",
            Refusal::ReadFromDroppedStream => "ReadFromDroppedStream",
            Refusal::FutureAlreadyRead => "FutureAlreadyRead",
            Refusal::IntraComponent => "IntraComponent",
            Refusal::LiftDropped => "LiftDropped",
            Refusal::LiftInSet => "LiftInSet",
            Refusal::SetNotEmpty => "SetNotEmpty",
            Refusal::FutureWithoutValue => "FutureWithoutValue",
            Refusal::IndexOverflow => "IndexOverflow",
            Refusal::HandleLimit => "HandleLimit",
            Refusal::Full => "Full",
            Refusal::MemoryTooBig => "MemoryTooBig",
            Refusal::BadText => "BadText",
            Refusal::MessageTooLong => "MessageTooLong",
        }
    }
}
