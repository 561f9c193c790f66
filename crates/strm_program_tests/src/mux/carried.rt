//! Lanes that are carried over the store, in pieces of the least and the most bytes.

use crate::mux::lanes::{is_answer, is_lane, is_rest};
use std::alloc::Global;
use std::process::Abort;
use strm_frames::muxes::Mux;
use strm_mux::carrying::carry;

// Two lanes, of which the first has more than one frame and ends.
fn put(rt: &impl Abort, mux: &mut Mux, long: &[u8]) {
    is_answer(rt, mux.put(1, long), Ok(()));
    is_answer(rt, mux.put(2, &[255]), Ok(()));
    is_answer(rt, mux.put(1, &[11]), Ok(()));
    is_answer(rt, mux.end(1), Ok(()));
}

fn is_carried(rt: &impl Abort, alloc: Global, mux: &Mux, write: u32, read: u32) {
    assert!(rt; mux.bytes().len() == 272);
    let Ok(carried) = carry(alloc, mux, write.clamp(16, 64), read.clamp(16, 64)) else {
        panic!(rt; "not carried")
    };
    assert!(rt; carried.moved == 272);
    assert!(rt; carried.steps.as_slice().len() == carried.replies.as_slice().len());
    is_lane(rt, &carried.demux, 1, &LANE, true);
    is_lane(rt, &carried.demux, 2, &[255], false);
    is_rest(rt, &carried.demux, 0);
}

const LANE: [u8; 257] = [11; 257];

#[test]
fn lanes_over_the_store(rt: HostRuntime) {
    let mut mux = Mux::new(rt.alloc());
    let (long, _) = LANE.split_at(256);
    put(&rt, &mut mux, long);
    for (write, read) in [(16, 64), (64, 16), (16, 16), (64, 64), (17, 23)] {
        is_carried(&rt, rt.alloc(), &mux, write, read);
    }
}

#[test]
fn nothing_over_the_store(rt: HostRuntime) {
    let mux = Mux::new(rt.alloc());
    let Ok(carried) = carry(rt.alloc(), &mux, 16, 64) else {
        panic!(rt; "not carried")
    };
    assert!(rt; carried.moved == 0);
    is_rest(&rt, &carried.demux, 0);
}
