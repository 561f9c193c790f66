//! The reading and the writing of a tape of one host writer, in records of 64, 4,096 and 1,048,576 bytes, and a
//! copy of its bytes to new memory.

use std::alloc::{AllocError, Global};
use std::io;
use std::time::Instant;
use strm_tape::taping::tape_bytes;
use strm_tape::untaping::untape;

// The bytes of a record that are none of an item's.
const AROUND: usize = 10;

// No steps, one host writer of u8, and so many records of it.
const FRONT: [u8; 13] = *b"STRT\x01\x00\x00\x00\x00\x01\x00\x01\x02";

/// How many items a record has.
const ITEMS: [u32; 3] = [64, 4096, 1_048_576];

/// Records of each size, of a tape of about so many bytes.
pub(crate) fn time_all(rt: &HostRuntime, bytes: usize) -> io::Result<()> {
    for items in ITEMS {
        time_records(rt, bytes, items)?;
    }
    Ok(())
}

// A tape of records of this many items is copied, read and written.
fn time_records(rt: &HostRuntime, bytes: usize, items: u32) -> io::Result<()> {
    let alloc = rt.alloc();
    let spelled = tape_of(alloc, bytes, items)?;
    let start = Instant::now(rt)?;
    let mut copy = Vec::new(alloc);
    copy.extend_from_slice(&spelled)?;
    let copied = start.elapsed(rt)?.as_nanos();
    let start = Instant::now(rt)?;
    let Ok(tape) = untape(alloc, &copy) else {
        return eprintln!(rt; "no tape");
    };
    let read = start.elapsed(rt)?.as_nanos();
    let start = Instant::now(rt)?;
    let Ok(again) = tape_bytes(alloc, &tape) else {
        return eprintln!(rt; "no memory");
    };
    let written = start.elapsed(rt)?.as_nanos();
    let same = again.as_slice() == spelled.as_slice();
    println!(rt;
        "records of {items}: {} bytes, written again: {same}",
        spelled.len()
    )?;
    eprintln!(rt; "records of {items}: copied {copied} ns, read {read} ns, written {written} ns")
}

// A tape of about so many bytes, in records of so many items.
fn tape_of(alloc: Global, bytes: usize, items: u32) -> Result<Vec<u8>, AllocError> {
    let mut tape = Vec::new(alloc);
    let data = vec![in alloc; 7u8; items as usize]?;
    let records = (bytes / AROUND.saturating_add(items as usize).max(1)).min(0xffff_ffff) as u32;
    tape.extend_from_slice(&FRONT)?;
    tape.extend_from_slice(&records.to_le_bytes())?;
    for _ in 0..records {
        tape.extend_from_slice(b"\xff\xff\xff\xff\x00")?;
        tape.extend_from_slice(&items.to_le_bytes())?;
        tape.extend_from_slice(&data)?;
        tape.push(0)?;
    }
    tape.push(0)?;
    Ok(tape)
}
