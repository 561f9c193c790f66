//! What errors print.

use std::alloc::Global;
use std::fmt::Display;
use std::process::Abort;
use strm_codes::refusals::Refusal;
use strm_host_turns::reader_turns::ReaderStops;
use strm_host_turns::writer_turns::WriterStops;
use strm_machine::streams::HostEnd;
use strm_transmit::errors::StoreError;

// What `{}` prints.
fn prints<T: Display>(rt: &impl Abort, alloc: Global, value: &T, wanted: &str) {
    let text = format!(in alloc; "{value}").expect(rt, "memory");
    assert_eq!(rt; text.as_str(), wanted);
}

#[test]
fn errors_of_the_store_print(rt: HostRuntime) {
    let alloc = rt.alloc();
    let refused = StoreError::Refused(Refusal::Busy);
    prints(&rt, alloc, &refused, "refused: the end has an operation");
    let end = HostEnd::Writer(3);
    let failed = StoreError::HostFailed { end };
    prints(&rt, alloc, &failed, "host writer 3 failed");
    let end = HostEnd::Reader(63);
    let broke = StoreError::HostBroke { end };
    prints(&rt, alloc, &broke, "host reader 63 broke its rules");
    let bad = StoreError::BadItem { stream: 12 };
    let text = "an item of stream 12 is none of its type";
    prints(&rt, alloc, &bad, text);
    prints(
        &rt,
        alloc,
        &StoreError::StoreTrapped,
        "the store is trapped",
    );
    prints(&rt, alloc, &StoreError::OutOfMemory, "out of memory");
}

#[test]
fn errors_of_turns_print(rt: HostRuntime) {
    let alloc = rt.alloc();
    prints(&rt, alloc, &WriterStops::Failed, "the host writer failed");
    prints(&rt, alloc, &WriterStops::OutOfMemory, "out of memory");
    prints(
        &rt,
        alloc,
        &WriterStops::Broke,
        "the host writer broke its rules",
    );
    prints(&rt, alloc, &ReaderStops::Failed, "the host reader failed");
    prints(&rt, alloc, &ReaderStops::OutOfMemory, "out of memory");
    let bad = "the host reader asked for an item that is none of its type";
    prints(&rt, alloc, &ReaderStops::BadItem, bad);
    prints(
        &rt,
        alloc,
        &ReaderStops::Broke,
        "the host reader broke its rules",
    );
}
