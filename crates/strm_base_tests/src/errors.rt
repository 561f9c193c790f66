//! What errors print.

use crate::answers::display_is;
use strm_codes::counts::{OutOfMemory, StreamOpTooBig};
use strm_codes::refusals::Refusal;
use strm_handles::errors::HandleError;
use strm_memory::copies::BadItem;
use strm_memory::items::LiftError;
use strm_memory::memories::{OutOfBounds, RegionError};

const REFUSALS: [(Refusal, &str); 30] = [
    (Refusal::UnknownGuest, "no guest has that number"),
    (Refusal::UnknownHost, "no host end has that number"),
    (Refusal::HostUsed, "the host end was used before"),
    (
        Refusal::UnknownReader,
        "no stream of that number has a loose read end",
    ),
    (Refusal::StreamOpTooBig, "the count is 2^28 or more"),
    (Refusal::OutOfBounds, "the region passes the memory's end"),
    (Refusal::NotAligned, "the address is not aligned"),
    (Refusal::UnknownHandle, "no handle has that number"),
    (Refusal::WrongKind, "the handle is of another kind"),
    (Refusal::WrongType, "the payloads differ"),
    (Refusal::WrongEnd, "the handle is the other end"),
    (
        Refusal::ConcurrentFutureStreamOp,
        "the end is busy, or is the other end",
    ),
    (Refusal::Busy, "the end has an operation"),
    (Refusal::NoPending, "the end has no operation"),
    (
        Refusal::CancelUnderWay,
        "the operation was asked to finish before",
    ),
    (
        Refusal::WriteToDroppedStream,
        "the read end of the stream is gone",
    ),
    (
        Refusal::WriteToDroppedFuture,
        "the read end of the future is gone, or its value passed",
    ),
    (
        Refusal::ReadFromDroppedStream,
        "the write end of the stream is gone",
    ),
    (Refusal::FutureAlreadyRead, "the value of the future passed"),
    (Refusal::IntraComponent, "both operations are of one guest"),
    (
        Refusal::LiftDropped,
        "the end was told that the other is gone, or the value passed",
    ),
    (Refusal::LiftInSet, "the end is in a waitable set"),
    (Refusal::SetNotEmpty, "the waitable set has a member"),
    (
        Refusal::FutureWithoutValue,
        "the value of the future has not passed",
    ),
    (Refusal::IndexOverflow, "no handle number is left"),
    (
        Refusal::HandleLimit,
        "the live handles would pass their limit",
    ),
    (Refusal::Full, "the places would pass their limit"),
    (
        Refusal::MemoryTooBig,
        "the guests' memories would pass their limit",
    ),
    (Refusal::BadText, "the bytes are not UTF-8"),
    (
        Refusal::MessageTooLong,
        "the message is longer than 4,096 bytes",
    ),
];

const HANDLE_ERRORS: [(HandleError, &str); 10] = [
    (HandleError::IndexOverflow, "no handle number is left"),
    (
        HandleError::HandleLimit,
        "the live handles would pass their limit",
    ),
    (HandleError::UnknownHandle, "no handle has that number"),
    (HandleError::WrongKind, "the handle is of another kind"),
    (HandleError::WrongType, "the handle is of another type"),
    (HandleError::WrongEnd, "the handle is the other end"),
    (HandleError::Busy, "the end has an operation"),
    (HandleError::Lent, "the resource is lent"),
    (
        HandleError::TooManyLends,
        "no further lend of the resource can be counted",
    ),
    (HandleError::OutOfMemory, "out of memory"),
];

#[test]
fn refusals_print(rt: HostRuntime) {
    for (refusal, text) in &REFUSALS {
        display_is(&rt, rt.alloc(), refusal, text);
    }
}

#[test]
fn handle_errors_print(rt: HostRuntime) {
    for (error, text) in &HANDLE_ERRORS {
        display_is(&rt, rt.alloc(), error, text);
    }
}

#[test]
fn errors_of_counts_and_memories_print(rt: HostRuntime) {
    let alloc = rt.alloc();
    display_is(&rt, alloc, &StreamOpTooBig, "the count is 2^28 or more");
    display_is(&rt, alloc, &OutOfMemory, "out of memory");
    display_is(&rt, alloc, &OutOfBounds, "the bytes pass the memory's end");
    let past = RegionError::OutOfBounds;
    display_is(&rt, alloc, &past, "the region passes the memory's end");
    let odd = RegionError::NotAligned;
    display_is(&rt, alloc, &odd, "the address is not aligned");
    let bad = LiftError::BadItem { index: 7 };
    display_is(&rt, alloc, &bad, "item 7 is none of its type");
    display_is(&rt, alloc, &LiftError::OutOfMemory, "out of memory");
    let copied = "an item is none of its type";
    display_is(&rt, alloc, &BadItem, copied);
}
