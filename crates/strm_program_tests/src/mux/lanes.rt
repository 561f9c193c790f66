//! Lanes that are put, fed and read again: a few bytes, long ones, and all 256 at once.

use std::alloc::Global;
use std::process::Abort;
use strm_frames::demuxes::Demux;
use strm_frames::errors::MuxError;
use strm_frames::muxes::Mux;

/// Whether a call answered so.
pub(crate) fn is_answer(
    rt: &impl Abort,
    answer: Result<(), MuxError>,
    wanted: Result<(), MuxError>,
) {
    assert!(rt; answer == wanted);
}

/// Whether a lane has these bytes, and ended.
pub(crate) fn is_lane(rt: &impl Abort, demux: &Demux, lane: u8, bytes: &[u8], is_ended: bool) {
    assert!(rt; demux.lane(lane) == bytes);
    assert!(rt; demux.ended(lane) == is_ended);
}

/// Whether so many bytes of the next frame have come.
pub(crate) fn is_rest(rt: &impl Abort, demux: &Demux, rest: usize) {
    assert!(rt; demux.rest() == rest);
}

#[test]
fn a_lane_that_ended_takes_nothing_more(rt: HostRuntime) {
    let mut mux = Mux::new(rt.alloc());
    is_answer(&rt, mux.put(1, &[]), Ok(()));
    assert!(rt; mux.bytes().is_empty());
    is_answer(&rt, mux.put(1, &[10]), Ok(()));
    is_answer(&rt, mux.end(1), Ok(()));
    is_answer(&rt, mux.put(1, &[0]), Err(MuxError::Ended { lane: 1 }));
    is_answer(&rt, mux.put(1, &[]), Err(MuxError::Ended { lane: 1 }));
    is_answer(&rt, mux.end(1), Err(MuxError::Ended { lane: 1 }));
    is_answer(&rt, mux.end(2), Ok(()));
    assert!(rt; mux.bytes() == [0, 1, 1, 10, 1, 1, 1, 2].as_slice());
}

const LONG: [u8; 511] = [7; 511];

// Bytes to put at once, and how many the frames have.
const LENGTHS: [(usize, usize); 6] = [
    (1, 4),
    (254, 257),
    (255, 258),
    (256, 262),
    (510, 516),
    (511, 520),
];

// Whether so many bytes come back, fed byte by byte.
fn come_back(rt: &impl Abort, alloc: Global, bytes: &[u8], wanted: usize) {
    let mut mux = Mux::new(alloc);
    is_answer(rt, mux.put(9, bytes), Ok(()));
    assert!(rt; mux.bytes().len() == wanted);
    let mut demux = Demux::new(alloc);
    for byte in mux.bytes() {
        is_answer(rt, demux.feed(&[*byte]), Ok(()));
    }
    is_lane(rt, &demux, 9, bytes, false);
    is_rest(rt, &demux, 0);
}

#[test]
fn long_puts_are_cut_into_frames(rt: HostRuntime) {
    for (count, wanted) in &LENGTHS {
        let (bytes, _) = LONG.split_at((*count).min(LONG.len()));
        come_back(&rt, rt.alloc(), bytes, *wanted);
    }
}

// Each lane has its own number twice, and the odd ones end between.
fn fill(rt: &impl Abort, mux: &mut Mux) {
    for number in 0..256usize {
        let lane = number as u8;
        is_answer(rt, mux.put(lane, &[lane]), Ok(()));
        is_answer(rt, mux.put(lane, &[lane]), Ok(()));
        if lane % 2 == 1 {
            is_answer(rt, mux.end(lane), Ok(()));
        }
    }
}

#[test]
fn all_lanes_at_once(rt: HostRuntime) {
    let mut mux = Mux::new(rt.alloc());
    fill(&rt, &mut mux);
    let mut demux = Demux::new(rt.alloc());
    is_answer(&rt, demux.feed(mux.bytes()), Ok(()));
    for number in 0..256usize {
        let lane = number as u8;
        is_lane(&rt, &demux, lane, &[lane, lane], lane % 2 == 1);
    }
}
