//! A source and a sink in memory, which give and take bytes in pieces, and of which a call fails.

use crate::rows::holds;
use crate::words::words_of;
use std::alloc::{AllocError, Global};
use strm_session::in_memory::{BytesSink, BytesSource};
use strm_session::serving::serve;
use strm_session::whole::{read_all, write_whole};
use strm_transmit::host_ends::HostEnds;

/// A source of these bytes, of which a call gives at most 4, and the call of this number fails.
pub(crate) fn source(alloc: Global, bytes: &[u8], failing: u32) -> Result<BytesSource, AllocError> {
    let bytes = bytes.to_vec(alloc)?;
    let failing = vec![in alloc; failing]?;
    Ok(BytesSource::new(bytes, 4, failing))
}

/// A sink of which a call takes at most 3 bytes, and the call of this number fails.
pub(crate) fn sink(alloc: Global, failing: u32) -> Result<BytesSink, AllocError> {
    let failing = vec![in alloc; failing]?;
    Ok(BytesSink::new(alloc, 3, failing))
}

/// Whether these lines are served so by `run`, among these host ends, from a source and to a sink of which a call
/// gives or takes at most 8 bytes, and the calls of these numbers fail.
pub(crate) fn pieces_of_eight<H: HostEnds>(
    alloc: Global,
    input: &str,
    failing: (u32, u32),
    status: u8,
    text: &str,
    hosts: &mut H,
) -> Result<bool, AllocError> {
    if hosts.count_writers() > 64 || hosts.count_readers() > 64 {
        return Ok(false);
    }
    let words = words_of(alloc, &["run"])?;
    let read = vec![in alloc; failing.0]?;
    let mut source = BytesSource::new(input.as_bytes().to_vec(alloc)?, 8, read);
    let written = vec![in alloc; failing.1]?;
    let mut sink = BytesSink::new(alloc, 8, written);
    let found = serve(alloc, &words, &mut source, &mut sink, hosts);
    Ok(found == status && sink.taken() == text.as_bytes())
}

// Whether a line is read whole, or not at all, where the call of this number fails.
fn is_read(alloc: Global, failing: u32, whole: bool) -> Result<bool, AllocError> {
    let mut source = source(alloc, b"guest 16\n", failing)?;
    match read_all(alloc, &mut source) {
        Ok(text) => Ok(whole && text.as_slice() == b"guest 16\n".as_slice()),
        Err(_) => Ok(!whole),
    }
}

#[test]
fn a_source_in_pieces(rt: HostRuntime) {
    holds(&rt, is_read(rt.alloc(), 9, true), "whole");
    holds(&rt, is_read(rt.alloc(), 2, false), "fault");
}

// Whether a text is written whole, and the sink has these bytes of it, where the call of this number
// fails; it is never by running out of memory.
fn is_written(alloc: Global, failing: u32, taken: &str) -> Result<bool, AllocError> {
    let mut sink = sink(alloc, failing)?;
    let is_whole = write_whole(&mut sink, b"done 0\n").is_ok();
    let has_taken = sink.taken() == taken.as_bytes();
    Ok(has_taken && is_whole == (taken.len() == 7) && sink.starved() == 0)
}

#[test]
fn a_sink_in_pieces(rt: HostRuntime) {
    holds(&rt, is_written(rt.alloc(), 9, "done 0\n"), "done 0\n");
    holds(&rt, is_written(rt.alloc(), 1, ""), "");
    holds(&rt, is_written(rt.alloc(), 2, "don"), "don");
}
