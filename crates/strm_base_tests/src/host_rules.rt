//! Each rule of host ends, with the nearest record that keeps it.

use crate::answers::is;
use std::process::Abort;
use strm_buffers::answers::{Answer, ReaderSaid};
use strm_codes::codes::TransmitKind;

const STREAM: TransmitKind = TransmitKind::Stream;

const FUTURE: TransmitKind = TransmitKind::Future;

fn writer_breaks(
    rt: &impl Abort,
    answer: Answer,
    kind: TransmitKind,
    room: Option<u32>,
    finish: bool,
    items: usize,
) {
    is(rt, answer.breaks_as_writer(kind, room, finish, items), true);
}

fn writer_keeps(
    rt: &impl Abort,
    answer: Answer,
    kind: TransmitKind,
    room: Option<u32>,
    finish: bool,
    items: usize,
) {
    is(
        rt,
        answer.breaks_as_writer(kind, room, finish, items),
        false,
    );
}

#[test]
fn a_pending_writer_has_no_items(rt: HostRuntime) {
    writer_breaks(&rt, Answer::Pending, STREAM, Some(4), false, 1);
    writer_keeps(&rt, Answer::Pending, STREAM, Some(4), false, 0);
}

#[test]
fn a_cancelled_writer_was_asked_to_finish(rt: HostRuntime) {
    writer_breaks(&rt, Answer::Cancelled, STREAM, Some(4), false, 0);
    writer_breaks(&rt, Answer::Cancelled, STREAM, Some(4), true, 1);
    writer_keeps(&rt, Answer::Cancelled, STREAM, Some(4), true, 0);
}

#[test]
fn a_completed_writer_of_a_stream_has_items_where_two_fit(rt: HostRuntime) {
    writer_breaks(&rt, Answer::Completed, STREAM, Some(2), false, 0);
    writer_keeps(&rt, Answer::Completed, STREAM, Some(2), false, 1);
    writer_keeps(&rt, Answer::Completed, STREAM, Some(1), false, 0);
    writer_keeps(&rt, Answer::Completed, STREAM, None, false, 0);
}

#[test]
fn a_completed_writer_of_a_future_has_one_item(rt: HostRuntime) {
    writer_breaks(&rt, Answer::Completed, FUTURE, Some(1), false, 0);
    writer_breaks(&rt, Answer::Completed, FUTURE, Some(1), false, 2);
    writer_keeps(&rt, Answer::Completed, FUTURE, Some(1), false, 1);
}

#[test]
fn a_writer_of_a_future_is_not_dropped(rt: HostRuntime) {
    writer_breaks(&rt, Answer::Dropped, FUTURE, Some(1), false, 1);
    writer_keeps(&rt, Answer::Dropped, STREAM, Some(1), false, 1);
    writer_keeps(&rt, Answer::Failed, FUTURE, Some(1), false, 1);
}

// Offered two items.
fn said(answer: Answer, finish: bool, since: u32, taken: u32) -> ReaderSaid {
    ReaderSaid {
        offered: 2,
        since,
        finish,
        taken,
        bad: false,
        answer,
    }
}

fn reader_breaks(rt: &impl Abort, kind: TransmitKind, said: ReaderSaid) {
    is(rt, said.breaks_rules(kind), true);
}

fn reader_keeps(rt: &impl Abort, kind: TransmitKind, said: ReaderSaid) {
    is(rt, said.breaks_rules(kind), false);
}

#[test]
fn a_cancelled_reader_was_asked_to_finish(rt: HostRuntime) {
    reader_breaks(&rt, STREAM, said(Answer::Cancelled, false, 0, 0));
    reader_keeps(&rt, STREAM, said(Answer::Cancelled, true, 0, 1));
    reader_breaks(&rt, FUTURE, said(Answer::Cancelled, true, 0, 1));
    reader_breaks(&rt, FUTURE, said(Answer::Cancelled, true, 1, 0));
    reader_keeps(&rt, FUTURE, said(Answer::Cancelled, true, 0, 0));
}

#[test]
fn a_completed_reader_took_an_item(rt: HostRuntime) {
    reader_breaks(&rt, STREAM, said(Answer::Completed, false, 0, 0));
    reader_keeps(&rt, STREAM, said(Answer::Completed, false, 1, 0));
    reader_keeps(&rt, FUTURE, said(Answer::Completed, false, 0, 1));
    reader_breaks(&rt, FUTURE, said(Answer::Completed, false, 0, 0));
}

#[test]
fn a_reader_of_a_future_is_not_dropped(rt: HostRuntime) {
    reader_breaks(&rt, FUTURE, said(Answer::Dropped, false, 0, 1));
    reader_keeps(&rt, STREAM, said(Answer::Dropped, false, 0, 1));
    reader_keeps(&rt, FUTURE, said(Answer::Pending, false, 0, 1));
}
