//! A tape of as many steps as a script has lines at most, of 64 host writers, of which the first produced
//! 4,194,304 bytes in one poll, and of 64 host readers. Memory is found for it.

use std::alloc::{AllocError, Global};
use std::process::Abort;
use strm_tape::sameness::same_items;
use strm_tape::tape::Tape;
use strm_tape::taping::tape_bytes;
use strm_tape::untaping::untape;

// What stands before the steps, their number, and the step of the line `guest 16`.
const FRONT: [u8; 5] = [0x53, 0x54, 0x52, 0x54, 1];

const STEPS: u32 = 262_144;

const GUEST: [u8; 5] = [1, 0x10, 0, 0, 0];

// A host writer or a host reader of bytes that was not polled.
const UNPOLLED: [u8; 7] = [0, 1, 2, 0, 0, 0, 0];

// A host writer of bytes that was polled once, for as many items as it liked: up to their number.
const POLLED: [u8; 12] = [0, 1, 2, 1, 0, 0, 0, 0xff, 0xff, 0xff, 0xff, 0];

const ITEMS: u32 = 4_194_304;

// The steps, and a byte that is how many host writers there are.
fn put_steps(tape: &mut Vec<u8>) -> Result<(), AllocError> {
    tape.extend_from_slice(&FRONT)?;
    tape.extend_from_slice(&STEPS.to_le_bytes())?;
    for _ in 0..STEPS {
        tape.extend_from_slice(&GUEST)?;
    }
    tape.push(64)?;
    Ok(())
}

// The record of the first host writer.
fn put_record(tape: &mut Vec<u8>) -> Result<(), AllocError> {
    tape.extend_from_slice(&POLLED)?;
    tape.extend_from_slice(&ITEMS.to_le_bytes())?;
    for k in 0..ITEMS {
        tape.push((k % 251) as u8)?;
    }
    tape.push(1)?;
    Ok(())
}

// So many host ends that were not polled.
fn put_unpolled(tape: &mut Vec<u8>, count: u32) -> Result<(), AllocError> {
    for _ in 0..count {
        tape.extend_from_slice(&UNPOLLED)?;
    }
    Ok(())
}

fn largest(alloc: Global) -> Result<Vec<u8>, AllocError> {
    let mut tape = Vec::new(alloc);
    put_steps(&mut tape)?;
    put_record(&mut tape)?;
    put_unpolled(&mut tape, 63)?;
    tape.push(64)?;
    put_unpolled(&mut tape, 64)?;
    Ok(tape)
}

// The tape that these bytes spell.
fn read(rt: &impl Abort, alloc: Global, bytes: &[u8]) -> Tape {
    match untape(alloc, bytes) {
        Ok(tape) => tape,
        Err(_) => panic!(rt; "no tape"),
    }
}

fn is_written(rt: &impl Abort, alloc: Global, tape: &Tape, bytes: &[u8]) {
    let Ok(again) = tape_bytes(alloc, tape) else {
        panic!(rt; "no memory")
    };
    assert!(rt; again.as_slice() == bytes);
}

// Whether the items of the first record of the first host writer are found to be those that they are.
fn are_same(alloc: Global, tape: &Tape) -> bool {
    if tape.writers() == 0 {
        return false;
    }
    let Ok(mut writer) = tape.writer(0).copy() else {
        return false;
    };
    if writer.len() == 0 {
        return false;
    }
    match writer.take_first(alloc) {
        Ok(said) => same_items(alloc, &said.items, &said.items) == Ok(true),
        Err(_) => false,
    }
}

#[test]
fn memory_is_found_for_the_largest_tape(rt: HostRuntime) {
    let bytes = largest(rt.alloc()).expect(&rt, "memory");
    assert!(rt; bytes.len() == 5_505_941);
    let tape = read(&rt, rt.alloc(), &bytes);
    assert!(rt; tape.steps().len() == 262_144);
    assert!(rt; tape.writers() == 64);
    assert!(rt; tape.readers() == 64);
    is_written(&rt, rt.alloc(), &tape, &bytes);
    assert!(rt; are_same(rt.alloc(), &tape));
}
