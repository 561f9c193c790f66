//! Pipes from a host writer to a host reader, both of which follow a script: how often each is polled,
//! when a pipe ends, and what stops it.

use crate::calls::{BYTES, Call, Type};
use crate::play::{Row, plays_among};
use crate::told::Told;
use strm_buffers::answers::Answer;
use strm_codes::codes::TransmitKind;
use strm_machine::streams::HostEnd;

const ITEMS_WAIT_FOR_THEIR_READER: [Row; 23] = [
    (Call::Guest(16), Told::Number(0)),
    (Call::HostNew(0), Told::Number(0)),
    (Call::Pipe(0, 0), Told::Done),
    (Call::WriterPolls(0), Told::Count(0)),
    (Call::ReaderPolls(0), Told::Count(0)),
    (Call::Drive, Told::Done),
    (Call::WriterPolls(0), Told::Count(1)),
    (Call::ReaderPolls(0), Told::Count(1)),
    (Call::Moved(0), Told::Count(3)),
    (Call::Drive, Told::Done),
    (Call::WriterPolls(0), Told::Count(1)),
    (Call::ReaderPolls(0), Told::Count(2)),
    (Call::Moved(0), Told::Count(3)),
    (Call::TypeOf(0), Told::Type(Type::Bytes)),
    (Call::Drive, Told::Done),
    (Call::WriterPolls(0), Told::Count(1)),
    (Call::ReaderPolls(0), Told::Count(3)),
    (Call::Moved(0), Told::Count(5)),
    (Call::TypeOf(0), Told::Nothing),
    (Call::Drive, Told::Done),
    (Call::WriterPolls(0), Told::Count(1)),
    (Call::ReaderPolls(0), Told::Count(3)),
    (Call::Moved(0), Told::Count(5)),
];

/// Each is polled once at most in a round; what is not taken is offered again, and the pipe ends once all
/// is taken.
#[test]
fn items_wait_for_their_reader(rt: HostRuntime) {
    plays_among(
        &rt,
        rt.alloc(),
        &[(TransmitKind::Stream, &[(&[1, 2, 3, 4, 5], Answer::Dropped)])],
        &[(
            TransmitKind::Stream,
            BYTES,
            &[
                (3, Answer::Completed),
                (0, Answer::Pending),
                (9, Answer::Completed),
            ],
        )],
        &ITEMS_WAIT_FOR_THEIR_READER,
    );
}

const A_WRITER_IS_POLLED_AGAIN: [Row; 20] = [
    (Call::Guest(16), Told::Number(0)),
    (Call::HostNew(0), Told::Number(0)),
    (Call::Pipe(0, 0), Told::Done),
    (Call::Drive, Told::Done),
    (Call::WriterPolls(0), Told::Count(1)),
    (Call::ReaderPolls(0), Told::Count(0)),
    (Call::Moved(0), Told::Count(0)),
    (Call::Drive, Told::Done),
    (Call::WriterPolls(0), Told::Count(2)),
    (Call::ReaderPolls(0), Told::Count(1)),
    (Call::Moved(0), Told::Count(1)),
    (Call::Drive, Told::Done),
    (Call::WriterPolls(0), Told::Count(2)),
    (Call::ReaderPolls(0), Told::Count(2)),
    (Call::Moved(0), Told::Count(2)),
    (Call::Drive, Told::Done),
    (Call::WriterPolls(0), Told::Count(3)),
    (Call::ReaderPolls(0), Told::Count(3)),
    (Call::Moved(0), Told::Count(3)),
    (Call::TypeOf(0), Told::Nothing),
];

/// A writer that gives nothing leaves the reader unpolled; one that gives again is polled once nothing is
/// held.
#[test]
fn a_writer_is_polled_again(rt: HostRuntime) {
    plays_among(
        &rt,
        rt.alloc(),
        &[(
            TransmitKind::Stream,
            &[
                (&[], Answer::Pending),
                (&[1, 2], Answer::Completed),
                (&[3], Answer::Completed),
            ],
        )],
        &[(
            TransmitKind::Stream,
            BYTES,
            &[
                (1, Answer::Completed),
                (1, Answer::Completed),
                (1, Answer::Dropped),
            ],
        )],
        &A_WRITER_IS_POLLED_AGAIN,
    );
}

const A_READER_THAT_WAITS_KEEPS_A_PIPE: [Row; 11] = [
    (Call::Guest(16), Told::Number(0)),
    (Call::HostNew(0), Told::Number(0)),
    (Call::Pipe(0, 0), Told::Done),
    (Call::Drive, Told::Done),
    (Call::WriterPolls(0), Told::Count(1)),
    (Call::ReaderPolls(0), Told::Count(1)),
    (Call::Moved(0), Told::Count(1)),
    (Call::TypeOf(0), Told::Type(Type::Bytes)),
    (Call::Drive, Told::HostFailed(HostEnd::Reader(0))),
    (Call::WriterPolls(0), Told::Count(1)),
    (Call::ReaderPolls(0), Told::Count(2)),
];

/// A pipe whose writer is over stays while its reader is pending, and offers it nothing; then it fails.
#[test]
fn a_reader_that_waits_keeps_a_pipe(rt: HostRuntime) {
    plays_among(
        &rt,
        rt.alloc(),
        &[(TransmitKind::Stream, &[(&[7], Answer::Dropped)])],
        &[(
            TransmitKind::Stream,
            BYTES,
            &[(1, Answer::Pending), (0, Answer::Failed)],
        )],
        &A_READER_THAT_WAITS_KEEPS_A_PIPE,
    );
}

const A_PIPE_OF_A_FUTURE_ENDS: [Row; 12] = [
    (Call::Guest(16), Told::Number(0)),
    (Call::HostNew(0), Told::Number(0)),
    (Call::Pipe(0, 0), Told::Done),
    (Call::Drive, Told::Done),
    (Call::WriterPolls(0), Told::Count(1)),
    (Call::ReaderPolls(0), Told::Count(1)),
    (Call::Moved(0), Told::Count(1)),
    (Call::TypeOf(0), Told::Nothing),
    (Call::Drive, Told::Done),
    (Call::WriterPolls(0), Told::Count(1)),
    (Call::ReaderPolls(0), Told::Count(1)),
    (Call::Moved(0), Told::Count(1)),
];

/// The pipe of a future ends with its value.
#[test]
fn a_pipe_of_a_future_ends(rt: HostRuntime) {
    plays_among(
        &rt,
        rt.alloc(),
        &[(TransmitKind::Future, &[(&[9], Answer::Completed)])],
        &[(TransmitKind::Future, BYTES, &[(1, Answer::Completed)])],
        &A_PIPE_OF_A_FUTURE_ENDS,
    );
}

const A_DRY_WRITER_IS_GONE: [Row; 12] = [
    (Call::Guest(16), Told::Number(0)),
    (Call::HostNew(0), Told::Number(0)),
    (Call::Lower(0, 0, Type::Bytes), Told::Number(1)),
    (Call::Read((0, 1), 0, 2), Told::Code(0x20)),
    (Call::Read((0, 1), 2, 2), Told::Code(0x10)),
    (Call::Lift((0, 1), Type::Bytes), Told::Number(0)),
    (Call::Pipe(0, 0), Told::Done),
    (Call::TypeOf(0), Told::Nothing),
    (Call::Drive, Told::Done),
    (Call::WriterPolls(0), Told::Count(1)),
    (Call::ReaderPolls(0), Told::Count(0)),
    (Call::Moved(0), Told::Count(3)),
];

/// A writer that is over and holds nothing is piped: both are gone at once, and none is polled.
#[test]
fn a_dry_writer_is_gone(rt: HostRuntime) {
    plays_among(
        &rt,
        rt.alloc(),
        &[(TransmitKind::Stream, &[(&[1, 2, 3], Answer::Dropped)])],
        &[(TransmitKind::Stream, BYTES, &[(1, Answer::Completed)])],
        &A_DRY_WRITER_IS_GONE,
    );
}

const A_WRITERS_BROKEN_RULE_STOPS_A_PIPE: [Row; 6] = [
    (Call::Guest(16), Told::Number(0)),
    (Call::HostNew(0), Told::Number(0)),
    (Call::Pipe(0, 0), Told::Done),
    (Call::Drive, Told::HostBroke(HostEnd::Writer(0))),
    (Call::WriterPolls(0), Told::Count(1)),
    (Call::ReaderPolls(0), Told::Count(0)),
];

/// A writer that breaks the rules stops the round before the reader is polled.
#[test]
fn a_writers_broken_rule_stops_a_pipe(rt: HostRuntime) {
    plays_among(
        &rt,
        rt.alloc(),
        &[(TransmitKind::Stream, &[(&[1], Answer::Pending)])],
        &[(TransmitKind::Stream, BYTES, &[(0, Answer::Completed)])],
        &A_WRITERS_BROKEN_RULE_STOPS_A_PIPE,
    );
}

const A_READERS_BROKEN_RULE_STOPS_A_PIPE: [Row; 6] = [
    (Call::Guest(16), Told::Number(0)),
    (Call::HostNew(0), Told::Number(0)),
    (Call::Pipe(0, 0), Told::Done),
    (Call::Drive, Told::HostBroke(HostEnd::Reader(0))),
    (Call::WriterPolls(0), Told::Count(1)),
    (Call::ReaderPolls(0), Told::Count(1)),
];

/// So does a reader.
#[test]
fn a_readers_broken_rule_stops_a_pipe(rt: HostRuntime) {
    plays_among(
        &rt,
        rt.alloc(),
        &[(TransmitKind::Stream, &[(&[1], Answer::Completed)])],
        &[(TransmitKind::Stream, BYTES, &[(0, Answer::Completed)])],
        &A_READERS_BROKEN_RULE_STOPS_A_PIPE,
    );
}
