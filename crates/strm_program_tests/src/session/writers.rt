//! A host writer that follows a script, served: each rule that it owes, what comes where it is broken, and
//! polls that are allowed beside it; and each poll, read and write of the first eight that fails.

use crate::rows::holds;
use crate::scripts::{add_writer, no_hosts};
use crate::session::pieces::pieces_of_eight;
use crate::session::serving::{NONE, RUN, Row, is_served};
use std::alloc::Global;
use std::process::Abort;
use strm_buffers::answers::Answer;
use strm_buffers::hosts::Hosts;
use strm_codes::codes::TransmitKind;
use strm_program_ends::byte_scripts::ByteTurn;

// What each poll produces and answers; the kind of the writer's stream; lines, their status and their text.
#[derive(Clone, Copy)]
struct Case {
    turns: &'static [ByteTurn],
    kind: TransmitKind,
    input: &'static str,
    status: u8,
    text: &'static str,
}

// A host writer of these turns alone.
fn hosts_of(rt: &impl Abort, alloc: Global, kind: TransmitKind, turns: &[ByteTurn]) -> Hosts {
    let mut hosts = no_hosts(alloc);
    add_writer(rt, alloc, &mut hosts, kind, turns);
    hosts
}

fn comes(rt: &impl Abort, alloc: Global, case: &Case) {
    let mut hosts = hosts_of(rt, alloc, case.kind, case.turns);
    let row = Row {
        words: RUN,
        input: case.input,
        failing: NONE,
        status: case.status,
        text: case.text,
    };
    holds(rt, is_served(alloc, &row, &mut hosts), case.text);
}

const CASES: [Case; 10] = [
    // Pending with items.
    Case {
        turns: &[(b"\x07", Answer::Pending)],
        kind: TransmitKind::Stream,
        input: "host 0\nguest 16\nlower 0 0 stream:u8\nread 0 stream:u8 1 0 2\n",
        status: 7,
        text: "0\n0\n1\nstopped 4 host-broke writer 0\n",
    },
    // An asked Cancelled with items.
    Case {
        turns: &[(b"", Answer::Pending), (b"\x07", Answer::Cancelled)],
        kind: TransmitKind::Stream,
        input: "host 0\nguest 16\nlower 0 0 stream:u8\nread 0 stream:u8 1 0 2\ncancel-read 0 stream:u8 1\ndrive\n",
        status: 7,
        text: "0\n0\n1\nffffffff\nffffffff\nstopped 6 host-broke writer 0\n",
    },
    // Cancelled unasked.
    Case {
        turns: &[(b"", Answer::Cancelled)],
        kind: TransmitKind::Stream,
        input: "host 0\nguest 16\nlower 0 0 stream:u8\nread 0 stream:u8 1 0 2\n",
        status: 7,
        text: "0\n0\n1\nstopped 4 host-broke writer 0\n",
    },
    // Completed without items, where there is room for two.
    Case {
        turns: &[(b"", Answer::Completed)],
        kind: TransmitKind::Stream,
        input: "host 0\nguest 16\nlower 0 0 stream:u8\nread 0 stream:u8 1 0 2\n",
        status: 7,
        text: "0\n0\n1\nstopped 4 host-broke writer 0\n",
    },
    // All allowed: Completed without items, where there is room for one or none; Pending; an asked Cancelled.
    Case {
        turns: &[
            (b"", Answer::Completed),
            (b"", Answer::Completed),
            (b"", Answer::Pending),
            (b"", Answer::Cancelled),
        ],
        kind: TransmitKind::Stream,
        input: "host 0\nguest 16\nlower 0 0 stream:u8\nread 0 stream:u8 1 0 1\nread 0 stream:u8 1 0 0\nread 0 stream:u8 1 0 2\ncancel-read 0 stream:u8 1\ndrive\nevent 0 1\n",
        status: 0,
        text: "0\n0\n1\n00000000\n00000000\nffffffff\nffffffff\nok\n00000002\nstream 0 moved 0\ndone 9\n",
    },
    // So is Dropped with items, of a stream.
    Case {
        turns: &[(b"\x07\x08\x09", Answer::Dropped)],
        kind: TransmitKind::Stream,
        input: "host 0\nguest 16\nlower 0 0 stream:u8\nread 0 stream:u8 1 0 2\nread 0 stream:u8 1 2 2\nread 0 stream:u8 1 3 1\n",
        status: 0,
        text: "0\n0\n1\n00000020\n00000010\n00000001\nstream 0 moved 3\ndone 6\n",
    },
    // A future's Dropped.
    Case {
        turns: &[(b"", Answer::Dropped)],
        kind: TransmitKind::Future,
        input: "host 0\nguest 16\nlower 0 0 future:u8\nread 0 future:u8 1 0\n",
        status: 7,
        text: "0\n0\n1\nstopped 4 host-broke writer 0\n",
    },
    // A future's Completed without its item, and with two.
    Case {
        turns: &[(b"", Answer::Completed)],
        kind: TransmitKind::Future,
        input: "host 0\nguest 16\nlower 0 0 future:u8\nread 0 future:u8 1 0\n",
        status: 7,
        text: "0\n0\n1\nstopped 4 host-broke writer 0\n",
    },
    Case {
        turns: &[(b"\x07\x08", Answer::Completed)],
        kind: TransmitKind::Future,
        input: "host 0\nguest 16\nlower 0 0 future:u8\nread 0 future:u8 1 0\n",
        status: 7,
        text: "0\n0\n1\nstopped 4 host-broke writer 0\n",
    },
    // With one it is allowed.
    Case {
        turns: &[(b"", Answer::Pending), (b"\x07", Answer::Completed)],
        kind: TransmitKind::Future,
        input: "host 0\nguest 16\nlower 0 0 future:u8\nread 0 future:u8 1 0\ndrive\nevent 0 1\n",
        status: 0,
        text: "0\n0\n1\nffffffff\nok\n00000000\nstream 0 moved 1\ndone 6\n",
    },
];

#[test]
fn rules_of_host_writers(rt: HostRuntime) {
    for case in &CASES {
        comes(&rt, rt.alloc(), case);
    }
}

// The lines of a read that waits through nine drive rounds: 10 polls. They and their text are of more than 64
// bytes.
const LINES: &str =
    "host 0\nguest 16\nlower 0 0 stream:u8\nread 0 stream:u8 1 0 2\ndrive\ndrive\ndrive\ndrive\ndrive\ndrive\ndrive\ndrive\ndrive\n";

const NOTHING: ByteTurn = (b"", Answer::Pending);

const FAILED: ByteTurn = (b"", Answer::Failed);

// The turns before the poll that fails and that poll, and the text of the stop there.
const FAILING_POLLS: [(&[ByteTurn], &str); 8] = [
    (&[FAILED], "0\n0\n1\nstopped 4 host-failed writer 0\n"),
    (
        &[NOTHING, FAILED],
        "0\n0\n1\nffffffff\nstopped 5 host-failed writer 0\n",
    ),
    (
        &[NOTHING, NOTHING, FAILED],
        "0\n0\n1\nffffffff\nok\nstopped 6 host-failed writer 0\n",
    ),
    (
        &[NOTHING, NOTHING, NOTHING, FAILED],
        "0\n0\n1\nffffffff\nok\nok\nstopped 7 host-failed writer 0\n",
    ),
    (
        &[NOTHING, NOTHING, NOTHING, NOTHING, FAILED],
        "0\n0\n1\nffffffff\nok\nok\nok\nstopped 8 host-failed writer 0\n",
    ),
    (
        &[NOTHING, NOTHING, NOTHING, NOTHING, NOTHING, FAILED],
        "0\n0\n1\nffffffff\nok\nok\nok\nok\nstopped 9 host-failed writer 0\n",
    ),
    (
        &[NOTHING, NOTHING, NOTHING, NOTHING, NOTHING, NOTHING, FAILED],
        "0\n0\n1\nffffffff\nok\nok\nok\nok\nok\nstopped 10 host-failed writer 0\n",
    ),
    (
        &[
            NOTHING, NOTHING, NOTHING, NOTHING, NOTHING, NOTHING, NOTHING, FAILED,
        ],
        "0\n0\n1\nffffffff\nok\nok\nok\nok\nok\nok\nstopped 11 host-failed writer 0\n",
    ),
];

#[test]
fn each_poll_fails(rt: HostRuntime) {
    for (turns, text) in &FAILING_POLLS {
        let case = Case {
            turns,
            kind: TransmitKind::Stream,
            input: LINES,
            status: 6,
            text,
        };
        comes(&rt, rt.alloc(), &case);
    }
}

// The lines are served with this status and text, where these calls of a source and a sink fail that give and
// take eight bytes.
fn comes_in_pieces(rt: &impl Abort, alloc: Global, failing: (u32, u32), status: u8, text: &str) {
    let mut hosts = hosts_of(rt, alloc, TransmitKind::Stream, &[]);
    let found = pieces_of_eight(alloc, LINES, failing, status, text, &mut hosts);
    holds(rt, found, text);
}

const TEXT: &str =
    "0\n0\n1\nffffffff\nok\nok\nok\nok\nok\nok\nok\nok\nok\nstream 0 moved 0\ndone 13\n";

#[test]
fn each_read_fails(rt: HostRuntime) {
    for failing in 1..9u32 {
        comes_in_pieces(&rt, rt.alloc(), (failing, 999_999), 4, "read fault\n");
    }
    comes_in_pieces(&rt, rt.alloc(), NONE, 0, TEXT);
}

// What was written before the write of each number.
const WRITTEN: [(u32, &str); 8] = [
    (1, ""),
    (2, "0\n0\n1\nff"),
    (3, "0\n0\n1\nffffffff\no"),
    (4, "0\n0\n1\nffffffff\nok\nok\nok\n"),
    (5, "0\n0\n1\nffffffff\nok\nok\nok\nok\nok\nok"),
    (6, "0\n0\n1\nffffffff\nok\nok\nok\nok\nok\nok\nok\nok\no"),
    (
        7,
        "0\n0\n1\nffffffff\nok\nok\nok\nok\nok\nok\nok\nok\nok\nstream",
    ),
    (
        8,
        "0\n0\n1\nffffffff\nok\nok\nok\nok\nok\nok\nok\nok\nok\nstream 0 moved",
    ),
];

#[test]
fn each_write_fails(rt: HostRuntime) {
    for (failing, text) in &WRITTEN {
        comes_in_pieces(&rt, rt.alloc(), (999_999, *failing), 5, text);
    }
}
