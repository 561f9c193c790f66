//! The limits: full frames on all lanes, a mux of 1,048,576 bytes over the store, and an input of 262,144.

use crate::mux::lanes::{is_answer, is_lane, is_rest};
use crate::rows::holds;
use crate::words::{bytes_again, words_of};
use std::alloc::{AllocError, Global};
use std::process::Abort;
use strm_frames::demuxes::Demux;
use strm_frames::muxes::Mux;
use strm_input_output::in_memory::{BytesSink, BytesSource};
use strm_mux::carrying::carry;
use strm_mux::serving::mux_serve;

const FULL: [u8; 255] = [90; 255];

#[test]
fn a_full_frame_on_each_lane(rt: HostRuntime) {
    let mut mux = Mux::new(rt.alloc());
    for number in 0..256usize {
        is_answer(&rt, mux.put(number as u8, &FULL), Ok(()));
        is_answer(&rt, mux.end(number as u8), Ok(()));
    }
    let mut demux = Demux::new(rt.alloc());
    is_answer(&rt, demux.feed(mux.bytes()), Ok(()));
    for number in 0..256usize {
        is_lane(&rt, &demux, number as u8, &FULL, true);
    }
    is_rest(&rt, &demux, 0);
}

// Whether a mux of 1,048,576 bytes is carried in pieces of these sizes: 4,064 full frames, and one of 61.
fn is_carried(rt: &impl Abort, alloc: Global, lane: &[u8], write: u32, read: u32) {
    let mut mux = Mux::new(alloc);
    is_answer(rt, mux.put(7, lane), Ok(()));
    assert!(rt; mux.bytes().len() == 1_048_576);
    let Ok(carried) = carry(alloc, &mux, write.clamp(16, 64), read.clamp(16, 64)) else {
        panic!(rt; "not carried")
    };
    assert!(rt; carried.moved == 1_048_576);
    is_lane(rt, &carried.demux, 7, lane, false);
    is_rest(rt, &carried.demux, 0);
}

#[test]
fn the_greatest_mux_over_the_store(rt: HostRuntime) {
    let Ok(lane) = bytes_again(rt.alloc(), 1_036_381) else {
        panic!(rt; "no memory")
    };
    is_carried(&rt, rt.alloc(), lane.as_slice(), 16, 16);
    is_carried(&rt, rt.alloc(), lane.as_slice(), 64, 64);
}

// A word and so many times these two digits behind it, and a line feed.
fn push_line(
    text: &mut Vec<u8>,
    word: &[u8],
    count: usize,
    behind: &[u8],
) -> Result<(), AllocError> {
    text.extend_from_slice(word)?;
    for _ in 0..count {
        text.extend_from_slice(b"5a".as_slice())?;
    }
    text.extend_from_slice(behind)
}

// 262,144 bytes: 1,927 lines of 64 bytes for lane 1, and one of 32.
fn lines(alloc: Global) -> Result<Vec<u8>, AllocError> {
    let mut text = Vec::new(alloc);
    for _ in 0..1_927u32 {
        push_line(&mut text, b"lane 1 ".as_slice(), 64, b"\n".as_slice())?;
    }
    push_line(&mut text, b"lane 1 ".as_slice(), 32, b"\n".as_slice())?;
    Ok(text)
}

// Whether these are served so, in the least pieces.
fn is_served(alloc: Global, input: Vec<u8>, wanted: &[u8]) -> Result<bool, AllocError> {
    let words = words_of(alloc, &["16", "16"])?;
    let mut source = BytesSource::new(input, 65_536, Vec::new(alloc));
    let mut sink = BytesSink::new(alloc, 65_536, Vec::new(alloc));
    let status = mux_serve(alloc, &words, &mut source, &mut sink);
    Ok(status == 0 && sink.taken() == wanted)
}

fn lines_are_served(alloc: Global) -> Result<bool, AllocError> {
    let input = lines(alloc)?;
    let mut wanted = Vec::new(alloc);
    let moved = b"\nmoved 129144\n".as_slice();
    push_line(&mut wanted, b"lane 1 123360 ".as_slice(), 123_360, moved)?;
    let is_long = input.len() == 262_144;
    Ok(is_long && is_served(alloc, input, wanted.as_slice())?)
}

#[test]
fn the_greatest_input_of_the_program(rt: HostRuntime) {
    holds(&rt, lines_are_served(rt.alloc()), "lines");
}
