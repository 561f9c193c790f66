//! A host reader that follows a script, served: each rule that it owes, what comes where it is broken, and
//! polls that are allowed beside it.

use crate::rows::holds;
use crate::scripts::{Taking, add_reader, no_hosts};
use crate::session::serving::{BYTE, NONE, RUN, Row, is_served};
use std::alloc::Global;
use std::process::Abort;
use strm_buffers::answers::Answer;
use strm_codes::codes::TransmitKind;
use strm_codes::payloads::Payload;
use strm_codes::scalars::Scalar;

const CHAR: Payload = Payload::One(Scalar::Char);

// How many items each poll takes at most, and what it answers; lines, their status and their text.
struct Case {
    turns: &'static [Taking],
    input: &'static str,
    status: u8,
    text: &'static str,
}

// Each case comes so where the one host reader has this kind and payload.
fn come(rt: &impl Abort, alloc: Global, kind: TransmitKind, payload: &Payload, cases: &[Case]) {
    for case in cases {
        comes(rt, alloc, kind, payload, case);
    }
}

fn comes(rt: &impl Abort, alloc: Global, kind: TransmitKind, payload: &Payload, case: &Case) {
    let mut hosts = no_hosts(alloc);
    add_reader(rt, alloc, &mut hosts, kind, *payload, case.turns);
    let row = Row {
        words: RUN,
        input: case.input,
        failing: NONE,
        status: case.status,
        text: case.text,
    };
    holds(rt, is_served(alloc, &row, &mut hosts), case.input);
}

// On a stream: Completed with nothing taken, Cancelled unasked, Failed; and a run that ends with the
// reader there, after Pending and an asked Cancelled.
const OF_STREAMS: [Case; 4] = [
    Case {
        turns: &[(2, Answer::Completed), (0, Answer::Completed)],
        input: "guest 16\nnew 0 stream:u8\nlift 0 stream:u8 1\npipe 0 0\nwrite 0 stream:u8 2 0 3\n\
            write 0 stream:u8 2 2 1\n",
        status: 7,
        text: "0\nread 1 write 2 stream 0\n0\nok\n00000020\nstopped 6 host-broke reader 0\n",
    },
    Case {
        turns: &[(1, Answer::Cancelled)],
        input: "guest 16\nnew 0 stream:u8\nlift 0 stream:u8 1\npipe 0 0\nwrite 0 stream:u8 2 0 3\n",
        status: 7,
        text: "0\nread 1 write 2 stream 0\n0\nok\nstopped 5 host-broke reader 0\n",
    },
    Case {
        turns: &[(1, Answer::Pending), (1, Answer::Failed)],
        input: "guest 16\nnew 0 stream:u8\nlift 0 stream:u8 1\npipe 0 0\nwrite 0 stream:u8 2 0 3\n\
            drive\n",
        status: 6,
        text: "0\nread 1 write 2 stream 0\n0\nok\nffffffff\nstopped 6 host-failed reader 0\n",
    },
    Case {
        turns: &[
            (1, Answer::Pending),
            (0, Answer::Completed),
            (0, Answer::Pending),
            (1, Answer::Cancelled),
        ],
        input: "guest 16\nnew 0 stream:u8\nlift 0 stream:u8 1\npipe 0 0\nwrite 0 stream:u8 2 0 3\n\
            drive\nevent 0 2\nwrite 0 stream:u8 2 1 2\ncancel-write 0 stream:u8 2\n\
            drive\nevent 0 2\n",
        status: 0,
        text: "0\nread 1 write 2 stream 0\n0\nok\nffffffff\nok\n00000010\nffffffff\nffffffff\n\
            ok\n00000012\nstream 0 moved 2\ndone 11\n",
    },
];

// On a future: Dropped, Completed with the value not taken, and Cancelled with it taken; and a value
// that is taken, and an asked Cancelled without it.
const OF_FUTURES: [Case; 5] = [
    Case {
        turns: &[(1, Answer::Dropped)],
        input: "guest 16\nnew 0 future:u8\nlift 0 future:u8 1\npipe 0 0\nwrite 0 future:u8 2 0\n",
        status: 7,
        text: "0\nread 1 write 2 stream 0\n0\nok\nstopped 5 host-broke reader 0\n",
    },
    Case {
        turns: &[(0, Answer::Completed)],
        input: "guest 16\nnew 0 future:u8\nlift 0 future:u8 1\npipe 0 0\nwrite 0 future:u8 2 0\n",
        status: 7,
        text: "0\nread 1 write 2 stream 0\n0\nok\nstopped 5 host-broke reader 0\n",
    },
    Case {
        turns: &[(1, Answer::Pending), (0, Answer::Cancelled)],
        input: "guest 16\nnew 0 future:u8\nlift 0 future:u8 1\npipe 0 0\nwrite 0 future:u8 2 0\n\
            cancel-write 0 future:u8 2\ndrive\n",
        status: 7,
        text: "0\nread 1 write 2 stream 0\n0\nok\nffffffff\nffffffff\nstopped 7 host-broke reader 0\n",
    },
    Case {
        turns: &[(1, Answer::Completed)],
        input: "guest 16\nnew 0 future:u8\nlift 0 future:u8 1\npipe 0 0\nwrite 0 future:u8 2 0\n",
        status: 0,
        text: "0\nread 1 write 2 stream 0\n0\nok\n00000000\nstream 0 moved 1\ndone 5\n",
    },
    Case {
        turns: &[(0, Answer::Pending), (0, Answer::Cancelled)],
        input: "guest 16\nnew 0 future:u8\nlift 0 future:u8 1\npipe 0 0\nwrite 0 future:u8 2 0\n\
            cancel-write 0 future:u8 2\ndrive\nevent 0 2\n",
        status: 0,
        text: "0\nread 1 write 2 stream 0\n0\nok\nffffffff\nffffffff\nok\n00000002\n\
            stream 0 moved 0\ndone 8\n",
    },
];

// A surrogate that is asked for, and one that is left.
const OF_CHARS: [Case; 2] = [
    Case {
        turns: &[(2, Answer::Completed)],
        input: "guest 16\nnew 0 stream:char\nlift 0 stream:char 1\npipe 0 0\n\
            poke 0 0 4100000000d80000\nwrite 0 stream:char 2 0 2\n",
        status: 8,
        text: "0\nread 1 write 2 stream 0\n0\nok\nok\nstopped 6 bad-item stream 0\n",
    },
    Case {
        turns: &[(1, Answer::Completed)],
        input: "guest 16\nnew 0 stream:char\nlift 0 stream:char 1\npipe 0 0\n\
            poke 0 0 4100000000d80000\nwrite 0 stream:char 2 0 2\n",
        status: 0,
        text: "0\nread 1 write 2 stream 0\n0\nok\nok\n00000010\nstream 0 moved 1\ndone 6\n",
    },
];

#[test]
fn host_readers_of_streams(rt: HostRuntime) {
    come(&rt, rt.alloc(), TransmitKind::Stream, &BYTE, &OF_STREAMS);
}

#[test]
fn host_readers_of_futures(rt: HostRuntime) {
    come(&rt, rt.alloc(), TransmitKind::Future, &BYTE, &OF_FUTURES);
}

#[test]
fn host_readers_of_chars(rt: HostRuntime) {
    come(&rt, rt.alloc(), TransmitKind::Stream, &CHAR, &OF_CHARS);
}
