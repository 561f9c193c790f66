//! What errors print.

use std::alloc::Global;
use std::fmt::Display;
use std::process::Abort;
use strm_chain::faults::ChainError;
use strm_frames::errors::{Fault, MuxError};
use strm_input_output::whole::InputError;
use strm_lines::parsing::ParseError;
use strm_tape::errors::TapeError;

// What `{}` prints.
fn prints<T: Display>(rt: &impl Abort, alloc: Global, value: &T, wanted: &str) {
    let text = format!(in alloc; "{value}").expect(rt, "memory");
    assert_eq!(rt; text.as_str(), wanted);
}

#[test]
fn errors_of_chains_print(rt: HostRuntime) {
    let alloc = rt.alloc();
    let stages = "there are more than 8 stages";
    prints(&rt, alloc, &ChainError::TooManyStages, stages);
    let twice = "more than 2 stages give each byte twice";
    prints(&rt, alloc, &ChainError::TooManyTwice, twice);
    let long = "the input has more than 65536 bytes";
    prints(&rt, alloc, &ChainError::TooLong, long);
    prints(&rt, alloc, &ChainError::OutOfMemory, "out of memory");
}

#[test]
fn errors_of_lanes_print(rt: HostRuntime) {
    let alloc = rt.alloc();
    prints(&rt, alloc, &MuxError::Ended { lane: 255 }, "lane 255 ended");
    let kind = "the frame at byte 9 is of no kind";
    prints(&rt, alloc, &MuxError::BadKind { at: 9 }, kind);
    prints(&rt, alloc, &Fault::BadKind { at: 9 }, kind);
    let empty = "the frame at byte 9 has no bytes";
    prints(&rt, alloc, &MuxError::EmptyFrame { at: 9 }, empty);
    prints(&rt, alloc, &Fault::EmptyFrame { at: 9 }, empty);
    let late = "the frame at byte 9 names a lane that ended";
    prints(&rt, alloc, &MuxError::AfterEnd { at: 9 }, late);
    prints(&rt, alloc, &Fault::AfterEnd { at: 9 }, late);
    prints(&rt, alloc, &MuxError::OutOfMemory, "out of memory");
}

#[test]
fn errors_of_inputs_print(rt: HostRuntime) {
    let alloc = rt.alloc();
    prints(&rt, alloc, &InputError::TooLong, "too long");
    prints(&rt, alloc, &InputError::Fault, "read fault");
    prints(&rt, alloc, &InputError::OutOfMemory, "out of memory");
    prints(&rt, alloc, &ParseError::TooLong, "too long");
    prints(&rt, alloc, &ParseError::BadLine { line: 41 }, "bad line 41");
    prints(&rt, alloc, &ParseError::OutOfMemory, "out of memory");
}

#[test]
fn errors_of_tapes_print(rt: HostRuntime) {
    let alloc = rt.alloc();
    prints(&rt, alloc, &TapeError::NotATape, "not a tape");
    prints(&rt, alloc, &TapeError::Holding { writer: 2 }, "holding");
    prints(&rt, alloc, &TapeError::NotTapable, "not tapable");
    let differs = TapeError::Differs {
        reader: true,
        end: 1,
        at: 0,
    };
    prints(&rt, alloc, &differs, "differs");
    prints(&rt, alloc, &TapeError::OutOfMemory, "out of memory");
}
