//! A tape that is played among host ends that do as those that it was taken from, and among host ends of which
//! one does otherwise: at each poll in turn, by its items or by its answer.

use crate::tape::casts::{Cast, Change, hosts_of};
use crate::tape::ends::{played, taken};
use std::alloc::Global;
use std::process::Abort;
use strm_buffers::answers::Answer;
use strm_session::runs::{RunStop, Transcript};
use strm_tape::errors::TapeError;
use strm_tape::tape::Tape;
use strm_tape_runs::runs::Taped;

// Three reads of a stream of host writer 0 and of one of host writer 1, and three writes of one to the host
// reader, each with one poll.
const LINES: &str =
    "guest 32\nhost 0\nlower 0 0 stream:u8\nhost 1\nlower 1 0 stream:u8\nnew 0 stream:u8\n\
    lift 0 stream:u8 3\npipe 2 0\nread 0 stream:u8 1 0 4\nread 0 stream:u8 2 8 4\nwrite 0 stream:u8 4 0 3\n\
    read 0 stream:u8 1 0 4\nread 0 stream:u8 2 8 4\nwrite 0 stream:u8 4 0 3\nread 0 stream:u8 1 0 4\n\
    read 0 stream:u8 2 8 4\nwrite 0 stream:u8 4 16 3\n";

const CAST: Cast = Cast {
    writers: &[
        &[
            (b"\x01\x02\x03", Answer::Completed),
            (b"\x04", Answer::Completed),
            (b"\x05\x06", Answer::Completed),
        ],
        &[
            (b"\x0b", Answer::Completed),
            (b"\x0c\x0d\x0e\x0f", Answer::Completed),
            (b"\x10", Answer::Completed),
        ],
    ],
    readers: &[&[
        (3, Answer::Completed),
        (2, Answer::Completed),
        (3, Answer::Completed),
    ]],
};

// The run of lines that is put on tape.
fn taped(rt: &impl Abort, alloc: Global, lines: &str, cast: &Cast) -> Taped {
    let mut hosts = hosts_of(rt, alloc, cast, &[]);
    match taken(alloc, lines, &mut hosts) {
        Ok(taped) => taped,
        Err(_) => panic!(rt; "not taken"),
    }
}

// Host writers that give 6 items each, and a host reader that takes 8.
const MOVED: [u128; 3] = [6, 6, 8];

// Two runs have the same replies and counts.
fn are_the_same(rt: &impl Abort, a: &Transcript, b: &Transcript) {
    assert!(rt; a.replies.as_slice() == b.replies.as_slice());
    assert!(rt; a.moved.as_slice() == b.moved.as_slice());
    assert!(rt; a.moved.as_slice() == MOVED.as_slice());
}

// A run that came to its end did as this one.
fn is_as(rt: &impl Abort, found: &Result<Transcript, RunStop>, run: &Transcript) {
    match found {
        Ok(found) => are_the_same(rt, found, run),
        Err(_) => panic!(rt; "stopped"),
    }
}

// A play of a tape does as this run.
fn is_played(rt: &impl Abort, alloc: Global, tape: &Tape, cast: &Cast, run: &Transcript) {
    let mut hosts = hosts_of(rt, alloc, cast, &[]);
    match played(alloc, tape, &mut hosts) {
        Ok(found) => is_as(rt, &found, run),
        Err(_) => panic!(rt; "not played"),
    }
}

#[test]
fn a_tape_is_played_as_it_was_taken(rt: HostRuntime) {
    let Taped { end, tape } = taped(&rt, rt.alloc(), LINES, &CAST);
    match end {
        Ok(run) => is_played(&rt, rt.alloc(), &tape, &CAST, &run),
        Err(_) => panic!(rt; "stopped"),
    }
}

// Whether a record is of a host reader, the end's number, and the record's place.
type Place = (bool, u32, u32);

// Where a play differs, if it does.
fn place(
    rt: &impl Abort,
    alloc: Global,
    tape: &Tape,
    cast: &Cast,
    changes: &[Change],
) -> Option<Place> {
    let mut hosts = hosts_of(rt, alloc, cast, changes);
    match played(alloc, tape, &mut hosts) {
        Ok(_) => None,
        Err(TapeError::Differs { reader, end, at }) => Some((reader, end, at)),
        Err(_) => panic!(rt; "not played"),
    }
}

// What changes, and what is named.
type Row = (&'static [Change], Option<Place>);

// The tape of a run of lines among one cast is played among another, with the changes of each row.
fn differs(
    rt: &impl Abort,
    alloc: Global,
    lines: &str,
    on_tape: &Cast,
    among: &Cast,
    rows: &[Row],
) {
    let Taped { tape, .. } = taped(rt, alloc, lines, on_tape);
    for (at, (changes, wanted)) in rows.iter().enumerate() {
        let found = place(rt, alloc, &tape, among, changes);
        assert!(rt; found == *wanted, "row {at}");
    }
}

// The items of this turn of an end are others; the answer is.
macro_rules! items {
    ($end:literal, $at:literal) => {
        Change {
            end: $end,
            at: $at,
            answer: false,
        }
    };
}

macro_rules! answer {
    ($end:literal, $at:literal) => {
        Change {
            end: $end,
            at: $at,
            answer: true,
        }
    };
}

const OTHER_ITEMS: [Row; 9] = [
    (&[items!(0, 0)], Some((false, 0, 0))),
    (&[items!(0, 1)], Some((false, 0, 1))),
    (&[items!(0, 2)], Some((false, 0, 2))),
    (&[items!(1, 0)], Some((false, 1, 0))),
    (&[items!(1, 1)], Some((false, 1, 1))),
    (&[items!(1, 2)], Some((false, 1, 2))),
    (&[items!(2, 0)], Some((true, 0, 0))),
    (&[items!(2, 1)], Some((true, 0, 1))),
    (&[items!(2, 2)], Some((true, 0, 2))),
];

#[test]
fn each_record_of_other_items(rt: HostRuntime) {
    differs(&rt, rt.alloc(), LINES, &CAST, &CAST, &OTHER_ITEMS);
}

const OTHER_ANSWERS: [Row; 9] = [
    (&[answer!(0, 0)], Some((false, 0, 0))),
    (&[answer!(0, 1)], Some((false, 0, 1))),
    (&[answer!(0, 2)], Some((false, 0, 2))),
    (&[answer!(1, 0)], Some((false, 1, 0))),
    (&[answer!(1, 1)], Some((false, 1, 1))),
    (&[answer!(1, 2)], Some((false, 1, 2))),
    (&[answer!(2, 0)], Some((true, 0, 0))),
    (&[answer!(2, 1)], Some((true, 0, 1))),
    (&[answer!(2, 2)], Some((true, 0, 2))),
];

#[test]
fn each_record_of_another_answer(rt: HostRuntime) {
    differs(&rt, rt.alloc(), LINES, &CAST, &CAST, &OTHER_ANSWERS);
}

const SEVERAL: [Row; 3] = [
    (&[], None),
    (
        &[items!(0, 2), items!(1, 0), items!(2, 0)],
        Some((false, 0, 2)),
    ),
    (&[items!(1, 2), items!(2, 0)], Some((false, 1, 2))),
];

#[test]
fn the_first_end_that_differs_is_named(rt: HostRuntime) {
    differs(&rt, rt.alloc(), LINES, &CAST, &CAST, &SEVERAL);
}

// A pipe of a host writer to a host reader, and two rounds. In each all is taken.
const PIPE: &str = "host 0\npipe 0 0\ndrive\ndrive\n";

const TAKING: Cast = Cast {
    writers: &[&[
        (b"\x01\x02", Answer::Completed),
        (b"\x03", Answer::Completed),
    ]],
    readers: &[&[(2, Answer::Completed), (1, Answer::Completed)]],
};

// In the first round the reader waits, so that the writer is not polled in the second.
const WAITING: Cast = Cast {
    writers: &[&[
        (b"\x01\x02", Answer::Completed),
        (b"\x03", Answer::Completed),
    ]],
    readers: &[&[(0, Answer::Pending), (2, Answer::Completed)]],
};

// Record 1 of the host writer.
const WANTING: [Row; 1] = [(&[], Some((false, 0, 1)))];

#[test]
fn a_record_is_wanting_on_one_side(rt: HostRuntime) {
    differs(&rt, rt.alloc(), PIPE, &TAKING, &WAITING, &WANTING);
    differs(&rt, rt.alloc(), PIPE, &WAITING, &TAKING, &WANTING);
}
