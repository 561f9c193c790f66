//! Runs that are not put on tape: where a host writer holds items, and where a step has no place on one.

use crate::tape::casts::{Cast, hosts_of};
use crate::tape::ends::taken;
use std::alloc::Global;
use std::process::Abort;
use strm_buffers::answers::Answer;
use strm_buffers::hosts::Hosts;
use strm_codes::codes::TransmitIndex;
use strm_codes::payloads::Payload;
use strm_machine::steps::Step;
use strm_tape::errors::TapeError;
use strm_tape_runs::runs::tape_run;

// A read of one item from each of three host writers.
const LINES: &str = "guest 16\nhost 0\nlower 0 0 stream:u8\nhost 1\nlower 1 0 stream:u8\nhost 2\n\
    lower 2 0 stream:u8\nread 0 stream:u8 1 0 1\nread 0 stream:u8 2 0 1\nread 0 stream:u8 3 0 1\n";

// Each writer gives one item at its only poll, or two.
const NONE_HOLDS: Cast = Cast {
    writers: &[
        &[(b"\x01", Answer::Completed)],
        &[(b"\x01", Answer::Completed)],
        &[(b"\x01", Answer::Completed)],
    ],
    readers: &[],
};

const LAST_HOLDS: Cast = Cast {
    writers: &[
        &[(b"\x01", Answer::Completed)],
        &[(b"\x01", Answer::Completed)],
        &[(b"\x01\x02", Answer::Completed)],
    ],
    readers: &[],
};

const TWO_HOLD: Cast = Cast {
    writers: &[
        &[(b"\x01", Answer::Completed)],
        &[(b"\x01\x02", Answer::Completed)],
        &[(b"\x01\x02", Answer::Completed)],
    ],
    readers: &[],
};

const FIRST_HOLDS: Cast = Cast {
    writers: &[
        &[(b"\x01\x02", Answer::Completed)],
        &[(b"\x01", Answer::Completed)],
        &[(b"\x01\x02", Answer::Completed)],
    ],
    readers: &[],
};

// Before a run of the lines this host writer is told to hold items, if one is.
fn is_held(rt: &impl Abort, alloc: Global, hosts: &mut Hosts, wanted: Option<u32>) {
    let found = match taken(alloc, LINES, hosts) {
        Ok(_) => None,
        Err(TapeError::Holding { writer }) => Some(writer),
        Err(_) => panic!(rt; "not taken"),
    };
    assert!(rt; found == wanted);
}

// The first run leaves the host writers what their polls gave and the reads had no room for: so one is named before
// the next.
fn is_named(rt: &impl Abort, alloc: Global, cast: &Cast, wanted: Option<u32>) {
    let mut hosts = hosts_of(rt, alloc, cast, &[]);
    is_held(rt, alloc, &mut hosts, None);
    is_held(rt, alloc, &mut hosts, wanted);
}

#[test]
fn the_first_that_holds_items_is_named(rt: HostRuntime) {
    is_named(&rt, rt.alloc(), &NONE_HOLDS, None);
    is_named(&rt, rt.alloc(), &LAST_HOLDS, Some(2));
    is_named(&rt, rt.alloc(), &TWO_HOLD, Some(1));
    is_named(&rt, rt.alloc(), &FIRST_HOLDS, Some(0));
}

// A run of a step without host ends is told to be not tapable, or is taken.
fn is_refused(rt: &impl Abort, alloc: Global, step: &Step, wanted: bool) {
    let mut hosts = Hosts {
        writers: Vec::new(alloc),
        readers: Vec::new(alloc),
    };
    let found = match tape_run(alloc, &[*step], &mut hosts) {
        Ok(_) => false,
        Err(TapeError::NotTapable) => true,
        Err(_) => panic!(rt; "not taken"),
    };
    assert!(rt; found == wanted);
}

const FUTURE: TransmitIndex = TransmitIndex::Future(Payload::Nothing);

const STREAM: TransmitIndex = TransmitIndex::Stream(Payload::Nothing);

// A read of so many items, and a dump of so many bytes.
macro_rules! read {
    ($ty:expr, $count:literal) => {
        Step::Read {
            guest: 0,
            ty: $ty,
            handle: 1,
            address: 0,
            count: $count,
        }
    };
}

macro_rules! dump {
    ($len:literal) => {
        Step::Dump {
            guest: 0,
            address: 0,
            len: $len,
        }
    };
}

const STEPS: [(Step, bool); 8] = [
    (read!(FUTURE, 1), false),
    (read!(FUTURE, 0), true),
    (read!(FUTURE, 2), true),
    (read!(STREAM, 2), false),
    (dump!(0), true),
    (dump!(1), false),
    (dump!(64), false),
    (dump!(65), true),
];

#[test]
fn steps_without_a_line_are_refused(rt: HostRuntime) {
    for (step, wanted) in &STEPS {
        is_refused(&rt, rt.alloc(), step, *wanted);
    }
}
