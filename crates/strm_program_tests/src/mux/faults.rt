//! Every fault of a stream, fed in every cut into two pieces.

use crate::mux::lanes::{is_answer, is_lane, is_rest};
use std::alloc::Global;
use std::process::Abort;
use strm_frames::demuxes::Demux;
use strm_frames::errors::MuxError;

// Streams whose last byte shows the fault, and the fault.
const FAULTS: [(&[u8], MuxError); 8] = [
    (&[2], MuxError::BadKind { at: 0 }),
    (&[255], MuxError::BadKind { at: 0 }),
    (&[0, 5, 2, 7, 8, 2], MuxError::BadKind { at: 5 }),
    (&[0, 5, 0], MuxError::EmptyFrame { at: 0 }),
    (&[1, 3, 0, 3, 0], MuxError::EmptyFrame { at: 2 }),
    (&[1, 5, 1, 5], MuxError::AfterEnd { at: 2 }),
    (&[0, 5, 1, 7, 1, 5, 1, 5], MuxError::AfterEnd { at: 6 }),
    (
        &[1, 5, 0, 6, 1, 9, 0, 5, 3, 7, 8, 9],
        MuxError::AfterEnd { at: 6 },
    ),
];

// Whether a stream that is cut here answers its fault, as soon as the last byte comes, and from then on.
fn is_told(rt: &impl Abort, alloc: Global, stream: &[u8], cut: usize, fault: MuxError) {
    let (front, back) = stream.split_at(cut.min(stream.len()));
    let mut demux = Demux::new(alloc);
    let first = if back.is_empty() { Err(fault) } else { Ok(()) };
    is_answer(rt, demux.feed(front), first);
    is_answer(rt, demux.feed(back), Err(fault));
    is_answer(rt, demux.feed(&[]), Err(fault));
    is_answer(rt, demux.feed(&[1, 200]), Err(fault));
    is_lane(rt, &demux, 200, &[], false);
}

#[test]
fn each_fault_in_every_cut(rt: HostRuntime) {
    for (stream, fault) in &FAULTS {
        for cut in 0..13usize {
            is_told(&rt, rt.alloc(), stream, cut, *fault);
        }
    }
}

#[test]
fn a_fault_takes_nothing_of_its_piece(rt: HostRuntime) {
    let mut demux = Demux::new(rt.alloc());
    is_answer(&rt, demux.feed(&[0, 1, 2, 10]), Ok(()));
    let fault = Err(MuxError::BadKind { at: 5 });
    is_answer(&rt, demux.feed(&[11, 7]), fault);
    is_lane(&rt, &demux, 1, &[], false);
    is_rest(&rt, &demux, 4);
    is_answer(&rt, demux.feed(&[11]), fault);
    is_lane(&rt, &demux, 1, &[], false);
}
