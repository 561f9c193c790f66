//! Small tapes, byte by byte, and what stands beside them.

use std::alloc::Global;
use std::process::Abort;
use strm_tape::errors::TapeError;
use strm_tape::taping::tape_bytes;
use strm_tape::untaping::untape;

// No steps and no host ends.
const EMPTY: [u8; 11] = [0x53, 0x54, 0x52, 0x54, 1, 0, 0, 0, 0, 0, 0];

// The step of the line `guest 16`.
const GUEST: [u8; 16] = [
    0x53, 0x54, 0x52, 0x54, 1, 1, 0, 0, 0, 1, 0x10, 0, 0, 0, 0, 0,
];

// Whether these bytes are a tape.
pub(crate) fn is_tape(rt: &impl Abort, alloc: Global, bytes: &[u8]) -> bool {
    match untape(alloc, bytes) {
        Ok(_) => true,
        Err(TapeError::NotATape) => false,
        Err(_) => panic!(rt; "no memory"),
    }
}

// A tape of so many steps, host writers and host readers, which is written as it was read.
pub(crate) fn is_written_again(
    rt: &impl Abort,
    alloc: Global,
    bytes: &[u8],
    steps: usize,
    writers: u32,
    readers: u32,
) {
    let Ok(tape) = untape(alloc, bytes) else {
        panic!(rt; "not a tape")
    };
    assert!(rt; tape.steps().len() == steps);
    assert!(rt; tape.writers() == writers);
    assert!(rt; tape.readers() == readers);
    let Ok(again) = tape_bytes(alloc, &tape) else {
        panic!(rt; "no memory")
    };
    assert!(rt; again.as_slice() == bytes);
}

#[test]
fn the_empty_tape_has_11_bytes(rt: HostRuntime) {
    is_written_again(&rt, rt.alloc(), &EMPTY, 0, 0, 0);
}

#[test]
fn a_tape_of_one_guest(rt: HostRuntime) {
    is_written_again(&rt, rt.alloc(), &GUEST, 1, 0, 0);
}

#[test]
fn another_version_is_no_tape(rt: HostRuntime) {
    let mut bytes = GUEST;
    bytes[4] = 2;
    assert!(rt; !is_tape(&rt, rt.alloc(), &bytes));
}

#[test]
fn a_byte_more_is_no_tape(rt: HostRuntime) {
    let mut bytes = [0u8; 17];
    for k in 0..16usize {
        bytes[k] = GUEST[k];
    }
    assert!(rt; !is_tape(&rt, rt.alloc(), &bytes));
}
