//! Host writers that follow a script: reads that they serve, drive rounds, cancels, ends that go with
//! them, and polls that stop a store.

use crate::calls::{Call, Type};
use crate::play::{Row, plays_among};
use crate::told::{BLOCKED, Told};
use strm_buffers::answers::Answer;
use strm_codes::codes::TransmitKind;
use strm_codes::refusals::Refusal;
use strm_machine::streams::{HostEnd, Owner};
use strm_program_ends::byte_scripts::ByteTurn;

const SERVED: [ByteTurn; 3] = [
    (&[7, 8, 9], Answer::Completed),
    (&[], Answer::Pending),
    (&[5], Answer::Dropped),
];

const CANCELLED: [ByteTurn; 2] = [(&[], Answer::Pending), (&[], Answer::Cancelled)];

const FAILING: [ByteTurn; 2] = [(&[], Answer::Pending), (&[1], Answer::Failed)];

const READS_ARE_SERVED: [Row; 18] = [
    (Call::Guest(16), Told::Number(0)),
    (Call::HostNew(1), Told::Refused(Refusal::UnknownHost)),
    (Call::HostNew(0), Told::Number(0)),
    (Call::HostNew(0), Told::Refused(Refusal::HostUsed)),
    (Call::Lower(0, 0, Type::Bytes), Told::Number(1)),
    (
        Call::Look((0, 1)),
        Told::End(Type::Bytes, true, 0, None, Owner::Host { number: 0 }),
    ),
    (Call::Read((0, 1), 0, 2), Told::Code(0x20)),
    (Call::Read((0, 1), 2, 2), Told::Code(0x10)),
    (Call::Read((0, 1), 3, 2), Told::Code(BLOCKED)),
    (Call::Event((0, 1)), Told::Nothing),
    (Call::Drive, Told::Done),
    (Call::Drive, Told::Done),
    (Call::Event((0, 1)), Told::Code(0x11)),
    (
        Call::Read((0, 1), 0, 2),
        Told::Refused(Refusal::ReadFromDroppedStream),
    ),
    (Call::DropReader((0, 1)), Told::Done),
    (Call::Begins(0, [7, 8, 9, 5]), Told::Is(true)),
    (Call::Moved(0), Told::Count(4)),
    (Call::WriterPolls(0), Told::Count(3)),
];

/// A read gets what there is room for, the next one what was held, and a drive round what comes then.
#[test]
fn reads_are_served(rt: HostRuntime) {
    plays_among(
        &rt,
        rt.alloc(),
        &[(TransmitKind::Stream, &SERVED)],
        &[],
        &READS_ARE_SERVED,
    );
}

const HELD_ITEMS_COME_FIRST: [Row; 7] = [
    (Call::Guest(16), Told::Number(0)),
    (Call::HostNew(0), Told::Number(0)),
    (Call::Lower(0, 0, Type::Bytes), Told::Number(1)),
    (Call::Read((0, 1), 0, 2), Told::Code(0x20)),
    (Call::Read((0, 1), 2, 2), Told::Code(0x10)),
    (Call::Read((0, 1), 3, 2), Told::Code(0x01)),
    (Call::WriterPolls(0), Told::Count(1)),
];

/// Held items are handed over before a writer that is over is found gone.
#[test]
fn held_items_come_first(rt: HostRuntime) {
    plays_among(
        &rt,
        rt.alloc(),
        &[(TransmitKind::Stream, &[(&[1, 2, 3], Answer::Dropped)])],
        &[],
        &HELD_ITEMS_COME_FIRST,
    );
}

const A_CANCEL_ASKS_TO_FINISH: [Row; 10] = [
    (Call::Guest(16), Told::Number(0)),
    (Call::HostNew(0), Told::Number(0)),
    (Call::Lower(0, 0, Type::Bytes), Told::Number(1)),
    (Call::Read((0, 1), 0, 2), Told::Code(BLOCKED)),
    (Call::CancelRead((0, 1)), Told::Code(BLOCKED)),
    (
        Call::CancelRead((0, 1)),
        Told::Refused(Refusal::CancelUnderWay),
    ),
    (Call::Event((0, 1)), Told::Nothing),
    (Call::Drive, Told::Done),
    (Call::Event((0, 1)), Told::Code(0x02)),
    (Call::DropReader((0, 1)), Told::Done),
];

/// A cancel waits for the writer to finish.
#[test]
fn a_cancel_asks_to_finish(rt: HostRuntime) {
    plays_among(
        &rt,
        rt.alloc(),
        &[(TransmitKind::Stream, &CANCELLED)],
        &[],
        &A_CANCEL_ASKS_TO_FINISH,
    );
}

const A_POLL_THAT_STOPS: [Row; 13] = [
    (Call::Guest(16), Told::Number(0)),
    (Call::HostNew(0), Told::Number(0)),
    (Call::Lower(0, 0, Type::Bytes), Told::Number(1)),
    (
        Call::Read((0, 1), 0, 2),
        Told::HostFailed(HostEnd::Writer(0)),
    ),
    (Call::Read((0, 1), 0, 2), Told::Trapped),
    (Call::Drive, Told::Trapped),
    (Call::Again, Told::Done),
    (Call::Guest(16), Told::Number(0)),
    (Call::HostNew(1), Told::Number(0)),
    (Call::Lower(0, 0, Type::Bytes), Told::Number(1)),
    (
        Call::Read((0, 1), 0, 2),
        Told::HostBroke(HostEnd::Writer(1)),
    ),
    (Call::HostNew(0), Told::Trapped),
    (Call::Trapped, Told::Is(true)),
];

/// A poll that failed, and one that broke the rules, name their end and trap the store.
#[test]
fn a_poll_that_stops(rt: HostRuntime) {
    plays_among(
        &rt,
        rt.alloc(),
        &[
            (TransmitKind::Stream, &[(&[1], Answer::Failed)]),
            (TransmitKind::Stream, &[(&[1], Answer::Pending)]),
        ],
        &[],
        &A_POLL_THAT_STOPS,
    );
}

const A_ROUND_GOES_BY_STREAMS: [Row; 10] = [
    (Call::Guest(16), Told::Number(0)),
    (Call::HostNew(1), Told::Number(0)),
    (Call::Lower(0, 0, Type::Bytes), Told::Number(1)),
    (Call::HostNew(0), Told::Number(1)),
    (Call::Lower(1, 0, Type::Bytes), Told::Number(2)),
    (Call::Read((0, 2), 8, 2), Told::Code(BLOCKED)),
    (Call::Read((0, 1), 0, 2), Told::Code(BLOCKED)),
    (Call::Drive, Told::HostFailed(HostEnd::Writer(1))),
    (Call::WriterPolls(0), Told::Count(1)),
    (Call::WriterPolls(1), Told::Count(2)),
];

/// A drive round goes by the numbers of the streams.
#[test]
fn a_round_goes_by_streams(rt: HostRuntime) {
    plays_among(
        &rt,
        rt.alloc(),
        &[
            (TransmitKind::Stream, &FAILING),
            (TransmitKind::Stream, &FAILING),
        ],
        &[],
        &A_ROUND_GOES_BY_STREAMS,
    );
}

const A_CLOSE_TAKES_THE_WRITER_ALONG: [Row; 7] = [
    (Call::Guest(16), Told::Number(0)),
    (Call::HostNew(0), Told::Number(0)),
    (Call::Close(0), Told::Done),
    (Call::HostNew(0), Told::Refused(Refusal::HostUsed)),
    (Call::Drive, Told::Done),
    (Call::TypeOf(0), Told::Nothing),
    (Call::WriterPolls(0), Told::Count(0)),
];

/// A loose read end that is closed takes its writer with it; its number stays used.
#[test]
fn a_close_takes_the_writer_along(rt: HostRuntime) {
    plays_among(
        &rt,
        rt.alloc(),
        &[(TransmitKind::Stream, &[(&[1], Answer::Completed)])],
        &[],
        &A_CLOSE_TAKES_THE_WRITER_ALONG,
    );
}
