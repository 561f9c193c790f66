//! What errors print.

use std::alloc::Global;
use std::fmt::Display;
use std::process::Abort;
use strm_codes::codes::TransmitKind;
use strm_codes::payloads::Payload;
use strm_codes::scalars::Scalar;
use strm_host::error_contexts::NotErrorContext;
use strm_host::reader_errors::ReaderError;
use strm_host::sources::ReadError;
use strm_transmit::errors::StoreError;

// What `{}` prints.
fn prints<T: Display>(rt: &impl Abort, alloc: Global, value: &T, wanted: &str) {
    let text = format!(in alloc; "{value}").expect(rt, "memory");
    assert_eq!(rt; text.as_str(), wanted);
}

#[test]
fn errors_of_readers_print(rt: HostRuntime) {
    let alloc = rt.alloc();
    let closed = ReaderError::AlreadyClosed;
    prints(&rt, alloc, &closed, "the reader was used before");
    let foreign = ReaderError::ForeignReader {
        reader: 1,
        store: 2,
    };
    prints(&rt, alloc, &foreign, "the reader is of another store");
    let other = ReaderError::TypeMismatch {
        expected: Payload::Nothing,
        found: Payload::One(Scalar::U8),
    };
    prints(&rt, alloc, &other, "the reader has items of another type");
    let kind = ReaderError::KindMismatch {
        expected: TransmitKind::Stream,
        found: TransmitKind::Future,
    };
    prints(&rt, alloc, &kind, "the host writer is of the other kind");
    let store = ReaderError::Store(StoreError::StoreTrapped);
    let text = "the store did not answer: the store is trapped";
    prints(&rt, alloc, &store, text);
}

#[test]
fn errors_of_values_print(rt: HostRuntime) {
    let alloc = rt.alloc();
    prints(
        &rt,
        alloc,
        &NotErrorContext,
        "the value is no error context",
    );
    let bad = "the next item is none of its type";
    prints(&rt, alloc, &ReadError::BadItem, bad);
    prints(&rt, alloc, &ReadError::OutOfMemory, "out of memory");
}
