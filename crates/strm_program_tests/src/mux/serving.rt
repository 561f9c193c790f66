//! The statuses of `mux_serve` and their texts, also where a source or a sink fails.

use crate::rows::holds;
use crate::words::words_of;
use std::alloc::{AllocError, Global};
use std::process::Abort;
use strm_input_output::in_memory::{BytesSink, BytesSource};
use strm_mux::serving::mux_serve;

// Words, an input, the calls of the source and of the sink that fail, the status, and its text.
#[derive(Clone, Copy)]
struct Row {
    words: &'static [&'static str],
    input: &'static str,
    failing: (u32, u32),
    status: u8,
    text: &'static str,
}

const FEW_MANY: &[&str] = &["16", "64"];

const MANY_FEW: &[&str] = &["64", "16"];

// No call fails.
const NONE: (u32, u32) = (999_999, 999_999);

const LINES: &str = "lane 1 0a\nlane 2 ff\nlane 1 0b\nend 1\n";

const LANES: &str = "lane 1 2 0a0b end\nlane 2 1 ff\nmoved 14\n";

const USAGE: &str = "usage: mux WRITE READ\n";

// Whether words and an input are served so. A call of the source gives 4 bytes at most, one of the sink
// takes 3.
fn is_served(alloc: Global, row: &Row) -> Result<bool, AllocError> {
    let words = words_of(alloc, row.words)?;
    let bytes = row.input.as_bytes().to_vec(alloc)?;
    let mut source = BytesSource::new(bytes, 4, vec![in alloc; row.failing.0]?);
    let mut sink = BytesSink::new(alloc, 3, vec![in alloc; row.failing.1]?);
    let status = mux_serve(alloc, &words, &mut source, &mut sink);
    Ok(status == row.status && sink.taken() == row.text.as_bytes())
}

const ROWS: [Row; 9] = [
    Row {
        words: FEW_MANY,
        input: LINES,
        failing: NONE,
        status: 0,
        text: LANES,
    },
    Row {
        words: MANY_FEW,
        input: LINES,
        failing: NONE,
        status: 0,
        text: LANES,
    },
    Row {
        words: FEW_MANY,
        input: "",
        failing: NONE,
        status: 0,
        text: "moved 0\n",
    },
    Row {
        words: FEW_MANY,
        input: "end 7",
        failing: NONE,
        status: 0,
        text: "lane 7 0 end\nmoved 2\n",
    },
    Row {
        words: &["15", "64"],
        input: LINES,
        failing: NONE,
        status: 1,
        text: USAGE,
    },
    Row {
        words: FEW_MANY,
        input: "lane 1 00\nend 1\nlane 1 00\n",
        failing: NONE,
        status: 2,
        text: "bad line 3\n",
    },
    Row {
        words: FEW_MANY,
        input: LINES,
        failing: (3, 999_999),
        status: 4,
        text: "read fault\n",
    },
    Row {
        words: FEW_MANY,
        input: LINES,
        failing: (999_999, 1),
        status: 5,
        text: "",
    },
    Row {
        words: FEW_MANY,
        input: LINES,
        failing: (999_999, 4),
        status: 5,
        text: "lane 1 2 ",
    },
];

#[test]
fn each_status_has_its_text(rt: HostRuntime) {
    for row in &ROWS {
        holds(&rt, is_served(rt.alloc(), row), row.text);
    }
}

// So many line feeds.
fn feeds(alloc: Global, count: usize) -> Result<Vec<u8>, AllocError> {
    vec![in alloc; b'\n'; count]
}

// The status for so many line feeds.
fn status_of(alloc: Global, count: usize) -> Result<u8, AllocError> {
    let words = words_of(alloc, FEW_MANY)?;
    let mut source = BytesSource::new(feeds(alloc, count)?, 65_536, Vec::new(alloc));
    let mut sink = BytesSink::new(alloc, 64, Vec::new(alloc));
    Ok(mux_serve(alloc, &words, &mut source, &mut sink))
}

fn is_status(rt: &impl Abort, found: Result<u8, AllocError>, wanted: u8) {
    assert_eq!(rt; found, Ok(wanted));
}

#[test]
fn too_many_bytes(rt: HostRuntime) {
    is_status(&rt, status_of(rt.alloc(), 262_144), 2);
    is_status(&rt, status_of(rt.alloc(), 262_145), 3);
}
