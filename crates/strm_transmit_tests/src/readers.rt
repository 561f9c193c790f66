//! Host readers that follow a script: pipes, the writes that they take from, drive rounds, cancels, ends
//! that go with them, and polls that stop a store.

use crate::calls::{BYTES, Call, Type, WORDS};
use crate::play::{Row, plays_among};
use crate::scripts::Takes;
use crate::told::{BLOCKED, Told};
use strm_buffers::answers::Answer;
use strm_codes::codes::TransmitKind;
use strm_codes::refusals::Refusal;
use strm_machine::streams::HostEnd;

const TAKEN: [Takes; 4] = [
    (2, Answer::Completed),
    (1, Answer::Pending),
    (9, Answer::Completed),
    (1, Answer::Dropped),
];

const FINISHED: [Takes; 2] = [(1, Answer::Pending), (1, Answer::Cancelled)];

const WRITES_ARE_TAKEN: [Row; 18] = [
    (Call::Guest(16), Told::Number(0)),
    (Call::Stream(0), Told::Ends(1, 2, 0)),
    (Call::Lift((0, 1), Type::Bytes), Told::Number(0)),
    (Call::Pipe(0, 1), Told::Refused(Refusal::UnknownHost)),
    (Call::Pipe(1, 0), Told::Refused(Refusal::UnknownReader)),
    (Call::Pipe(0, 0), Told::Done),
    (Call::Pipe(0, 0), Told::Refused(Refusal::HostUsed)),
    (Call::Write((0, 2), 0, 3), Told::Code(0x20)),
    (Call::Write((0, 2), 2, 3), Told::Code(BLOCKED)),
    (Call::Event((0, 2)), Told::Nothing),
    (Call::Drive, Told::Done),
    (Call::Drive, Told::Done),
    (Call::Event((0, 2)), Told::Code(0x30)),
    (Call::Write((0, 2), 0, 4), Told::Code(0x11)),
    (Call::DropWriter((0, 2)), Told::Done),
    (Call::TypeOf(0), Told::Nothing),
    (Call::Moved(0), Told::Count(6)),
    (Call::ReaderPolls(0), Told::Count(4)),
];

/// A write gives what is taken at once, or waits for a drive round, until the reader is done.
#[test]
fn writes_are_taken(rt: HostRuntime) {
    plays_among(
        &rt,
        rt.alloc(),
        &[],
        &[(TransmitKind::Stream, BYTES, &TAKEN)],
        &WRITES_ARE_TAKEN,
    );
}

const A_PIPE_WITHDRAWS_A_REPORT: [Row; 11] = [
    (Call::Guest(16), Told::Number(0)),
    (Call::Guest(16), Told::Number(1)),
    (Call::Between(0, 1, Type::Bytes), Told::Ends(1, 1, 0)),
    (Call::Write((0, 1), 0, 5), Told::Code(BLOCKED)),
    (Call::Read((1, 1), 0, 2), Told::Code(0x20)),
    (Call::Lift((1, 1), Type::Bytes), Told::Number(0)),
    (Call::Pipe(0, 0), Told::Done),
    (Call::Event((0, 1)), Told::Nothing),
    (Call::Drive, Told::Done),
    (Call::Event((0, 1)), Told::Code(0x50)),
    (Call::Moved(0), Told::Count(5)),
];

/// The report of a write that was served in part is withdrawn, and what it moved counts on.
#[test]
fn a_pipe_withdraws_a_report(rt: HostRuntime) {
    plays_among(
        &rt,
        rt.alloc(),
        &[],
        &[(TransmitKind::Stream, BYTES, &[(9, Answer::Completed)])],
        &A_PIPE_WITHDRAWS_A_REPORT,
    );
}

const A_CANCEL_ASKS_A_READER_TO_FINISH: [Row; 10] = [
    (Call::Guest(16), Told::Number(0)),
    (Call::Stream(0), Told::Ends(1, 2, 0)),
    (Call::Lift((0, 1), Type::Bytes), Told::Number(0)),
    (Call::Pipe(0, 0), Told::Done),
    (Call::Write((0, 2), 0, 4), Told::Code(BLOCKED)),
    (Call::CancelWrite((0, 2)), Told::Code(BLOCKED)),
    (
        Call::CancelWrite((0, 2)),
        Told::Refused(Refusal::CancelUnderWay),
    ),
    (Call::Drive, Told::Done),
    (Call::Event((0, 2)), Told::Code(0x22)),
    (Call::Moved(0), Told::Count(2)),
];

/// A cancel waits for the reader to finish.
#[test]
fn a_cancel_asks_a_reader_to_finish(rt: HostRuntime) {
    plays_among(
        &rt,
        rt.alloc(),
        &[],
        &[(TransmitKind::Stream, BYTES, &FINISHED)],
        &A_CANCEL_ASKS_A_READER_TO_FINISH,
    );
}

const A_VALUE_IS_TAKEN: [Row; 7] = [
    (Call::Guest(16), Told::Number(0)),
    (Call::Future(0), Told::Ends(1, 2, 0)),
    (Call::Lift((0, 1), Type::Word), Told::Number(0)),
    (Call::Pipe(0, 0), Told::Done),
    (Call::WriteValue((0, 2), 0), Told::Code(0x00)),
    (Call::Event((0, 2)), Told::Nothing),
    (Call::Moved(0), Told::Count(1)),
];

/// A future's value is taken once; its reader stays.
#[test]
fn a_value_is_taken(rt: HostRuntime) {
    plays_among(
        &rt,
        rt.alloc(),
        &[],
        &[(TransmitKind::Future, WORDS, &[(1, Answer::Completed)])],
        &A_VALUE_IS_TAKEN,
    );
}

const NOTHING_COMES_ANY_MORE: [Row; 8] = [
    (Call::Guest(16), Told::Number(0)),
    (Call::Stream(0), Told::Ends(1, 2, 0)),
    (Call::Lift((0, 1), Type::Bytes), Told::Number(0)),
    (Call::DropWriter((0, 2)), Told::Done),
    (Call::Pipe(0, 0), Told::Done),
    (Call::TypeOf(0), Told::Nothing),
    (Call::ReaderPolls(0), Told::Count(0)),
    (Call::Drive, Told::Done),
];

/// A pipe of a stream whose write end is gone ends at once, and its reader is closed unpolled.
#[test]
fn nothing_comes_any_more(rt: HostRuntime) {
    plays_among(
        &rt,
        rt.alloc(),
        &[],
        &[(TransmitKind::Stream, BYTES, &[(1, Answer::Completed)])],
        &NOTHING_COMES_ANY_MORE,
    );
}

const A_POLL_OF_A_READER_FAILS: [Row; 6] = [
    (Call::Guest(16), Told::Number(0)),
    (Call::Stream(0), Told::Ends(1, 2, 0)),
    (Call::Lift((0, 1), Type::Bytes), Told::Number(0)),
    (Call::Pipe(0, 0), Told::Done),
    (
        Call::Write((0, 2), 0, 3),
        Told::HostFailed(HostEnd::Reader(0)),
    ),
    (Call::Drive, Told::Trapped),
];

/// A poll that failed names its end and traps the store.
#[test]
fn a_poll_of_a_reader_fails(rt: HostRuntime) {
    plays_among(
        &rt,
        rt.alloc(),
        &[],
        &[(TransmitKind::Stream, BYTES, &[(1, Answer::Failed)])],
        &A_POLL_OF_A_READER_FAILS,
    );
}

const A_POLL_OF_A_READER_BREAKS_THE_RULES: [Row; 5] = [
    (Call::Guest(16), Told::Number(0)),
    (Call::Stream(0), Told::Ends(1, 2, 0)),
    (Call::Lift((0, 1), Type::Bytes), Told::Number(0)),
    (Call::Pipe(0, 0), Told::Done),
    (
        Call::Write((0, 2), 0, 3),
        Told::HostBroke(HostEnd::Reader(0)),
    ),
];

/// One that broke the rules names its end too.
#[test]
fn a_poll_of_a_reader_breaks_the_rules(rt: HostRuntime) {
    plays_among(
        &rt,
        rt.alloc(),
        &[],
        &[(TransmitKind::Stream, BYTES, &[(0, Answer::Completed)])],
        &A_POLL_OF_A_READER_BREAKS_THE_RULES,
    );
}
