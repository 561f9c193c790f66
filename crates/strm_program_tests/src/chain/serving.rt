//! The statuses of `chain_serve` and what is written with them, also where a source or a sink fails.

use crate::rows::holds;
use crate::words::words_of;
use std::alloc::{AllocError, Global};
use strm_chain::serving::chain_serve;
use strm_input_output::in_memory::{BytesSink, BytesSource};

// Words, an input, the calls of the source and of the sink that fail, the status, and what the sink took.
// A call of the source gives at most 4 bytes, and one of the sink takes at most 3.
#[derive(Clone, Copy)]
struct Row {
    words: &'static [&'static str],
    input: &'static [u8],
    failing: (u32, u32),
    status: u8,
    taken: &'static [u8],
}

// No call fails.
const NONE: (u32, u32) = (999_999, 999_999);

const USAGE: &[u8] = b"usage: chain CHUNK STAGE..\n";

// Whether words and an input are served so.
fn is_served(alloc: Global, row: &Row) -> Result<bool, AllocError> {
    let words = words_of(alloc, row.words)?;
    let source_fails = vec![in alloc; row.failing.0]?;
    let sink_fails = vec![in alloc; row.failing.1]?;
    let mut source = BytesSource::new(row.input.to_vec(alloc)?, 4, source_fails);
    let mut sink = BytesSink::new(alloc, 3, sink_fails);
    let status = chain_serve(alloc, &words, &mut source, &mut sink);
    Ok(status == row.status && sink.taken() == row.taken)
}

const STATUSES: [Row; 8] = [
    Row {
        words: &["64", "add:1", "twice"],
        input: &[1, 2],
        failing: NONE,
        status: 0,
        taken: &[2, 2, 3, 3],
    },
    Row {
        words: &["16", "without:0", "sum", "first:3"],
        input: &[0, 5, 0, 6, 7, 8],
        failing: NONE,
        status: 0,
        taken: &[5, 11, 18],
    },
    Row {
        words: &["16"],
        input: b"nothing is done",
        failing: NONE,
        status: 0,
        taken: b"nothing is done",
    },
    Row {
        words: &["64", "copy"],
        input: &[],
        failing: NONE,
        status: 0,
        taken: &[],
    },
    // The source fails at once, or in the middle of the input.
    Row {
        words: &["64", "copy"],
        input: &[1, 2, 3, 4, 5],
        failing: (1, 999_999),
        status: 4,
        taken: b"read fault\n",
    },
    Row {
        words: &["64", "copy"],
        input: &[1, 2, 3, 4, 5],
        failing: (2, 999_999),
        status: 4,
        taken: b"read fault\n",
    },
    // So does the sink, at once or in the middle of the output.
    Row {
        words: &["64", "copy"],
        input: &[1, 2, 3, 4, 5],
        failing: (999_999, 1),
        status: 5,
        taken: &[],
    },
    Row {
        words: &["64", "copy"],
        input: &[1, 2, 3, 4, 5],
        failing: (999_999, 2),
        status: 5,
        taken: &[1, 2, 3],
    },
];

#[test]
fn each_status_with_what_is_written(rt: HostRuntime) {
    for (at, row) in STATUSES.iter().enumerate() {
        holds(&rt, is_served(rt.alloc(), row), at);
    }
}

// Words that ask for no chain.
const OTHER_WORDS: [&[&str]; 14] = [
    &[],
    &["15"],
    &["65"],
    &["016"],
    &["64", "add:256"],
    &["64", "add:"],
    &["64", "add:01"],
    &["64", "add"],
    &["64", "Copy"],
    &["64", ""],
    &["64", "first:4294967296"],
    &["twice", "64"],
    &["64", "twice", "twice", "twice"],
    &[
        "64", "sum", "sum", "sum", "sum", "sum", "sum", "sum", "sum", "sum",
    ],
];

#[test]
fn other_words_are_told_how_to_call_it(rt: HostRuntime) {
    for (at, words) in OTHER_WORDS.iter().enumerate() {
        let row = Row {
            words,
            input: &[1],
            failing: NONE,
            status: 1,
            taken: USAGE,
        };
        holds(&rt, is_served(rt.alloc(), &row), at);
    }
}

// The words that go to the bounds of what may be asked for.
const LONGEST: &[&str] = &[
    "16",
    "add:255",
    "without:255",
    "first:4294967295",
    "twice",
    "twice",
    "copy",
    "add:0",
    "sum",
];

#[test]
fn the_bounds_may_be_asked_for(rt: HostRuntime) {
    let row = Row {
        words: LONGEST,
        input: &[0, 1, 2],
        failing: NONE,
        status: 0,
        taken: &[0, 0, 0, 0, 1, 2, 3, 4],
    };
    holds(&rt, is_served(rt.alloc(), &row), 0);
}

// Whether an input of one byte too many is told to be too long.
fn is_too_long(alloc: Global, count: usize) -> Result<bool, AllocError> {
    let words = words_of(alloc, &["64", "first:1"])?;
    let mut source = BytesSource::new(vec![in alloc; 1u8; count]?, 40_000, Vec::new(alloc));
    let mut sink = BytesSink::new(alloc, 3, Vec::new(alloc));
    let status = chain_serve(alloc, &words, &mut source, &mut sink);
    Ok(status == 3 && sink.taken() == b"too long\n".as_slice())
}

#[test]
fn an_input_too_long(rt: HostRuntime) {
    holds(&rt, is_too_long(rt.alloc(), 65_537), 0);
}
