//! The calls of the program of tapes among 64 host ends of each side: lines are taken on tape, the tape is read
//! and played; and a tape of a mebibyte is read. Memory is found for all of it. The program is run at its limits by
//! `.ci/statuses`.

use crate::tape::casts::most_hosts;
use crate::tape::ends::{is_played_to, is_taken_to};
use std::alloc::{AllocError, Global};
use std::process::Abort;
use strm_input_output::in_memory::{BytesSink, BytesSource};
use strm_tape::tape::Tape;
use strm_tape::taping::tape_bytes;
use strm_tape::untaping::untape;
use strm_tape_program::reading::tape_read;

// So many rounds, behind a line that makes a guest.
const ROUNDS: u32 = 4_095;

// A host end of bytes that has no records.
const UNPOLLED: &[u8] = b"\x00\x01\x02\x00\x00\x00\x00";

// So many times the same bytes.
fn put_again(out: &mut Vec<u8>, bytes: &[u8], times: u32) -> Result<(), AllocError> {
    for _ in 0..times {
        out.extend_from_slice(bytes)?;
    }
    Ok(())
}

// Bytes, others so many times, and others behind them.
fn around(
    alloc: Global,
    front: &[u8],
    bytes: &[u8],
    times: u32,
    behind: &[u8],
) -> Result<Vec<u8>, AllocError> {
    let mut all = front.to_vec(alloc)?;
    put_again(&mut all, bytes, times)?;
    all.extend_from_slice(behind)?;
    Ok(all)
}

// The lines.
fn script(alloc: Global) -> Result<Vec<u8>, AllocError> {
    around(alloc, b"guest 16\n", b"drive\n", ROUNDS, b"")
}

// Nothing is done by them among so many host ends of each side.
fn unpolled(alloc: Global) -> Result<Vec<u8>, AllocError> {
    let writers = around(alloc, b"\x40", UNPOLLED, 64, b"\x40")?;
    around(alloc, &writers, UNPOLLED, 64, b"")
}

// What the tape of the lines is.
fn spelled(alloc: Global) -> Result<Vec<u8>, AllocError> {
    let front = b"STRT\x01\0\x10\0\0\x01\x10\0\0\0";
    around(alloc, front, b"\x11", ROUNDS, &unpolled(alloc)?)
}

// What is written of the run.
fn replies(alloc: Global) -> Result<Vec<u8>, AllocError> {
    around(alloc, b"0\n", b"ok\n", ROUNDS, b"done 4096\n")
}

// A tape without steps, and such host ends.
fn blank(rt: &impl Abort, alloc: Global) -> Tape {
    let ends = unpolled(alloc).expect(rt, "memory");
    let bytes = around(alloc, b"STRT\x01\0\0\0\0", b"", 0, &ends).expect(rt, "memory");
    match untape(alloc, &bytes) {
        Ok(tape) => tape,
        Err(_) => panic!(rt; "no tape"),
    }
}

// All of these bytes.
fn source(alloc: Global, bytes: Vec<u8>) -> BytesSource {
    BytesSource::new(bytes, 65_536, Vec::new(alloc))
}

#[test]
fn lines_are_taken_among_64_ends(rt: HostRuntime) {
    let alloc = rt.alloc();
    let mut hosts = most_hosts(&rt, alloc, &[], &[]);
    let mut lines = source(alloc, script(alloc).expect(&rt, "memory"));
    let wanted = spelled(alloc).expect(&rt, "memory");
    assert!(rt; is_taken_to(alloc, &blank(&rt, alloc), &mut lines, &mut hosts, &wanted));
}

// The tape that all of these bytes spell.
fn read(rt: &impl Abort, alloc: Global, bytes: Vec<u8>) -> Tape {
    let mut source = source(alloc, bytes);
    let mut sink = BytesSink::new(alloc, 65_536, Vec::new(alloc));
    match tape_read(alloc, &mut source, &mut sink) {
        Ok(tape) => tape,
        Err(_) => panic!(rt; "not read"),
    }
}

#[test]
fn their_tape_is_played(rt: HostRuntime) {
    let alloc = rt.alloc();
    let mut hosts = most_hosts(&rt, alloc, &[], &[]);
    let tape = read(&rt, alloc, spelled(alloc).expect(&rt, "memory"));
    let wanted = replies(alloc).expect(&rt, "memory");
    assert!(rt; is_played_to(alloc, &tape, &mut hosts, &wanted));
}

// A tape of one host writer of bytes, whose one record has so many: 1,048,576 - 28.
fn large(alloc: Global) -> Result<Vec<u8>, AllocError> {
    let front = b"STRT\x01\0\0\0\0\x01\x00\x01\x02\x01\0\0\0\xff\xff\xff\xff\0\xe4\xff\x0f\0";
    let mut tape = around(alloc, front, &[7; 4_096], 255, b"")?;
    put_again(&mut tape, &[7; 12], 339)?;
    tape.extend_from_slice(b"\0\0")?;
    Ok(tape)
}

fn is_written(rt: &impl Abort, alloc: Global, tape: &Tape, bytes: &[u8]) {
    match tape_bytes(alloc, tape) {
        Ok(again) => assert!(rt; again.as_slice() == bytes),
        Err(_) => panic!(rt; "no memory"),
    }
}

#[test]
fn a_large_tape_is_read(rt: HostRuntime) {
    let alloc = rt.alloc();
    let bytes = large(alloc).expect(&rt, "memory");
    assert!(rt; bytes.len() == 1_048_576);
    let tape = read(&rt, alloc, large(alloc).expect(&rt, "memory"));
    assert!(rt; tape.writers() == 1 && tape.writer(0).len() == 1);
    is_written(&rt, alloc, &tape, &bytes);
}
