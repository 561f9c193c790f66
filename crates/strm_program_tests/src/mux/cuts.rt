//! A stream that is fed in pieces: in every cut into two, and in pieces of 1 to 7 bytes.

use crate::mux::lanes::{is_answer, is_lane, is_rest};
use std::process::Abort;
use strm_frames::demuxes::Demux;
use strm_frames::errors::MuxError;

// A lane has 0a, another ff, the first one 0b, and it ends.
const STREAM: [u8; 14] = [0, 1, 1, 10, 0, 2, 1, 255, 0, 1, 1, 11, 1, 1];

fn is_whole(rt: &impl Abort, demux: &Demux) {
    is_lane(rt, demux, 1, &[10, 11], true);
    is_lane(rt, demux, 2, &[255], false);
    is_lane(rt, demux, 0, &[], false);
    is_rest(rt, demux, 0);
}

#[test]
fn in_every_cut_into_two(rt: HostRuntime) {
    for cut in 0..15usize {
        let (front, back) = STREAM.split_at(cut.min(14));
        let mut demux = Demux::new(rt.alloc());
        is_answer(&rt, demux.feed(front), Ok(()));
        is_answer(&rt, demux.feed(back), Ok(()));
        is_whole(&rt, &demux);
    }
}

#[test]
fn in_pieces_of_one_to_seven(rt: HostRuntime) {
    for size in 1..8usize {
        let mut demux = Demux::new(rt.alloc());
        for piece in STREAM.chunks(size) {
            is_answer(&rt, demux.feed(piece), Ok(()));
        }
        is_whole(&rt, &demux);
    }
}

#[test]
fn a_stream_in_pieces(rt: HostRuntime) {
    let mut demux = Demux::new(rt.alloc());
    is_answer(&rt, demux.feed(&[0, 5]), Ok(()));
    is_answer(&rt, demux.feed(&[2, 7]), Ok(()));
    is_rest(&rt, &demux, 4);
    is_answer(&rt, demux.feed(&[8, 1]), Ok(()));
    is_lane(&rt, &demux, 5, &[7, 8], false);
    is_rest(&rt, &demux, 1);
    is_answer(&rt, demux.feed(&[5]), Ok(()));
    is_lane(&rt, &demux, 5, &[7, 8], true);
    is_rest(&rt, &demux, 0);
    let after = Err(MuxError::AfterEnd { at: 7 });
    is_answer(&rt, demux.feed(&[0, 5, 1, 9]), after);
    is_answer(&rt, demux.feed(&[1, 6]), after);
    is_lane(&rt, &demux, 5, &[7, 8], true);
    is_lane(&rt, &demux, 6, &[], false);
}
