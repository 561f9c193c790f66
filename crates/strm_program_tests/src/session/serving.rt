//! The statuses of `serve` and their texts, also where a source or a sink fails.

use crate::rows::holds;
use crate::scripts::no_hosts;
use crate::session::pieces::{sink, source};
use crate::words::words_of;
use std::alloc::{AllocError, Global};
use strm_codes::payloads::Payload;
use strm_codes::scalars::Scalar;
use strm_session::serving::serve;
use strm_transmit::host_ends::HostEnds;

/// Words, an input, the calls of the source and of the sink that fail, the status, and its text.
#[derive(Clone, Copy)]
pub(crate) struct Row {
    pub words: &'static [&'static str],
    pub input: &'static str,
    pub failing: (u32, u32),
    pub status: u8,
    pub text: &'static str,
}

pub(crate) const RUN: &[&str] = &["run"];

const OTHER_WORDS: &[&str] = &["gen", "x", "1"];

const GEN: &[&str] = &["gen", "3", "1"];

const TOO_MANY: &[&str] = &["gen", "262141", "1"];

/// No call fails.
pub(crate) const NONE: (u32, u32) = (999_999, 999_999);

/// Whether words and an input are served so, among these host ends.
pub(crate) fn is_served<H: HostEnds>(
    alloc: Global,
    row: &Row,
    hosts: &mut H,
) -> Result<bool, AllocError> {
    if hosts.count_writers() > 64 || hosts.count_readers() > 64 {
        return Ok(false);
    }
    let words = words_of(alloc, row.words)?;
    let mut source = source(alloc, row.input.as_bytes(), row.failing.0)?;
    let mut sink = sink(alloc, row.failing.1)?;
    let status = serve(alloc, &words, &mut source, &mut sink, hosts);
    Ok(status == row.status && sink.taken() == row.text.as_bytes())
}

// The same without host ends.
fn is_served_alone(alloc: Global, row: &Row) -> Result<bool, AllocError> {
    let mut hosts = no_hosts(alloc);
    is_served(alloc, row, &mut hosts)
}

const STATUSES: [Row; 9] = [
    Row {
        words: RUN,
        input: "",
        failing: NONE,
        status: 0,
        text: "done 0\n",
    },
    Row {
        words: OTHER_WORDS,
        input: "",
        failing: NONE,
        status: 1,
        text: "usage: strm run | strm gen N SEED\n",
    },
    Row {
        words: GEN,
        input: "guest 16\n",
        failing: (1, 999_999),
        status: 0,
        text: "refused 0\nblocked 1\nstream 0 moved 507\ndone 7\n",
    },
    Row {
        words: GEN,
        input: "",
        failing: (999_999, 1),
        status: 5,
        text: "",
    },
    Row {
        words: TOO_MANY,
        input: "",
        failing: NONE,
        status: 3,
        text: "too long\n",
    },
    Row {
        words: RUN,
        input: "guest 16\nrea",
        failing: NONE,
        status: 2,
        text: "bad line 2\n",
    },
    Row {
        words: RUN,
        input: "guest 16\n",
        failing: (1, 999_999),
        status: 4,
        text: "read fault\n",
    },
    Row {
        words: RUN,
        input: "guest 16\n",
        failing: (999_999, 1),
        status: 5,
        text: "",
    },
    Row {
        words: RUN,
        input: "guest 16\nguest 16\npair 0 1 stream:char\npoke 0 0 00d80000\n\
            write 0 stream:char 1 0 1\nread 1 stream:char 1 0 1\n",
        failing: NONE,
        status: 8,
        text: "0\n1\nread 1 write 1 stream 0\nok\nffffffff\nstopped 6 bad-item stream 0\n",
    },
];

#[test]
fn each_status_has_its_text(rt: HostRuntime) {
    for row in &STATUSES {
        holds(&rt, is_served_alone(rt.alloc(), row), row.status);
    }
}

pub(crate) const BYTE: Payload = Payload::One(Scalar::U8);
