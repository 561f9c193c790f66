//! Steps, records and host ends in a row, each read from the front of a tape's bytes exactly as they
//! are spelled. None where there are not so many; after `OutOfMemory` nothing was kept.
//!
//! Source: ours.

ghost use Rattle.std.specs.Prelude.{◌≡◌, ◌++◌, ◌∷◌, [], IfOk, OnOk};
ghost use Rattle.std.specs.Option.{option_map};
ghost use Rattle.strm_tape.specs.Reading.{many, read_counted, few_listed, step, read_writer_record, read_reader_record, writer, reader};

use crate::parts::{byte, number, transmit_type};
use crate::records::{after_record, reader_record};
use crate::spelled::SpelledRecords;
use crate::steps::step;
use crate::tape::{ReaderTape, WriterTape};
use std::alloc::Global;
use strm_buffers::answers::ReaderSaid;
use strm_codes::counts::OutOfMemory;
use strm_codes::payloads::Payload;
use strm_machine::steps::Step;

// Adds an item at the end.
fn push_item<T: Drop>(items: &mut Vec<T>, item: T) -> Result<(), OutOfMemory>
    ensures { OnOk result (items.new.items ≡ items.old.items ++ item ∷ []) }
{
    items.push(item)?;
    Ok(())
}

// So many steps, and what follows them.
fn steps(alloc: Global, count: u32, bytes: &[u8]) -> Result<Option<(Vec<Step>, &[u8])>, OutOfMemory>
    ensures { IfOk result (λ found. option_map (λ p. (p.0.items, p.1.now)) found
        ≡ many step count bytes.now) }
{
    let mut all = Vec::new(alloc);
    let mut rest = bytes;
    for k in 0..count {
        let Some((found, behind)) = step(rest) else {
            return Ok(None);
        };
        push_item(&mut all, found)?;
        rest = behind;
    }
    Ok(Some((all, rest)))
}

// Steps behind their number, and what follows them.
#[tactic(auto, unfolding(crate::specs::Reading::read_counted))]
pub(crate) fn listed_steps(
    alloc: Global,
    bytes: &[u8],
) -> Result<Option<(Vec<Step>, &[u8])>, OutOfMemory>
    ensures { IfOk result (λ found. option_map (λ p. (p.0.items, p.1.now)) found
        ≡ read_counted step bytes.now) }
{
    match number(bytes) {
        Some((count, rest)) => steps(alloc, count, rest),
        None => Ok(None),
    }
}

// What follows so many records of a host writer.
pub(crate) fn after_records<'a>(
    alloc: Global,
    payload: &Payload,
    count: u32,
    bytes: &'a [u8],
) -> Result<Option<&'a [u8]>, OutOfMemory>
    ensures { IfOk result (λ found. option_map (λ rest. rest.now) found
        ≡ option_map (λ p. p.1) (many (read_writer_record payload.now) count bytes.now)) }
{
    let mut written = Vec::new(alloc);
    let mut rest = bytes;
    for k in 0..count {
        let Some(behind) = after_record(*payload, rest, &mut written)? else {
            return Ok(None);
        };
        rest = behind;
    }
    Ok(Some(rest))
}

// So many records of a host reader, and what follows them.
fn reader_records(
    alloc: Global,
    count: u32,
    bytes: &[u8],
) -> Result<Option<(Vec<ReaderSaid>, &[u8])>, OutOfMemory>
    ensures { IfOk result (λ found. option_map (λ p. (p.0.items, p.1.now)) found
        ≡ many read_reader_record count bytes.now) }
{
    let mut all = Vec::new(alloc);
    let mut rest = bytes;
    for k in 0..count {
        let Some((found, behind)) = reader_record(rest) else {
            return Ok(None);
        };
        push_item(&mut all, found)?;
        rest = behind;
    }
    Ok(Some((all, rest)))
}

// What a tape has of a host writer, and what follows it.
#[tactic(auto, unfolding(crate::specs::Reading::read_counted))]
fn writer(alloc: Global, bytes: &[u8]) -> Result<Option<(WriterTape, &[u8])>, OutOfMemory>
    ensures { IfOk result (λ found. option_map (λ p. (p.0, p.1.now)) found ≡ writer bytes.now) }
{
    let Some((ty, rest)) = transmit_type(bytes) else {
        return Ok(None);
    };
    let Some((count, rest)) = number(rest) else {
        return Ok(None);
    };
    let Some((records, behind)) = SpelledRecords::read(alloc, &ty.payload(), count, rest)? else {
        return Ok(None);
    };
    Ok(Some((WriterTape { ty, records }, behind)))
}

// What a tape has of a host reader, and what follows it.
#[tactic(auto, unfolding(crate::specs::Reading::read_counted))]
fn reader(alloc: Global, bytes: &[u8]) -> Result<Option<(ReaderTape, &[u8])>, OutOfMemory>
    ensures { IfOk result (λ found. option_map (λ p. (p.0, p.1.now)) found ≡ reader bytes.now) }
{
    let Some((ty, rest)) = transmit_type(bytes) else {
        return Ok(None);
    };
    let Some((count, rest)) = number(rest) else {
        return Ok(None);
    };
    let Some((said, behind)) = reader_records(alloc, count, rest)? else {
        return Ok(None);
    };
    Ok(Some((ReaderTape { ty, said }, behind)))
}

// So many host writers, and what follows them.
fn writers(
    alloc: Global,
    count: u8,
    bytes: &[u8],
) -> Result<Option<(Vec<WriterTape>, &[u8])>, OutOfMemory>
    ensures { IfOk result (λ found. option_map (λ p. (p.0.items, p.1.now)) found
        ≡ many writer count bytes.now) }
{
    let mut all = Vec::new(alloc);
    let mut rest = bytes;
    for k in 0..count {
        let Some((found, behind)) = writer(alloc, rest)? else {
            return Ok(None);
        };
        push_item(&mut all, found)?;
        rest = behind;
    }
    Ok(Some((all, rest)))
}

// So many host readers, and what follows them.
fn readers(
    alloc: Global,
    count: u8,
    bytes: &[u8],
) -> Result<Option<(Vec<ReaderTape>, &[u8])>, OutOfMemory>
    ensures { IfOk result (λ found. option_map (λ p. (p.0.items, p.1.now)) found
        ≡ many reader count bytes.now) }
{
    let mut all = Vec::new(alloc);
    let mut rest = bytes;
    for k in 0..count {
        let Some((found, behind)) = reader(alloc, rest)? else {
            return Ok(None);
        };
        push_item(&mut all, found)?;
        rest = behind;
    }
    Ok(Some((all, rest)))
}

// At most 64 host writers behind one byte, and what follows them.
#[tactic(auto, unfolding(crate::specs::Reading::few_listed))]
pub(crate) fn few_writers(
    alloc: Global,
    bytes: &[u8],
) -> Result<Option<(Vec<WriterTape>, &[u8])>, OutOfMemory>
    ensures { IfOk result (λ found. option_map (λ p. (p.0.items, p.1.now)) found
        ≡ few_listed writer bytes.now) }
{
    match byte(bytes) {
        Some((count, rest)) if count <= 64 => writers(alloc, count, rest),
        _ => Ok(None),
    }
}

// At most 64 host readers behind one byte, and what follows them.
#[tactic(auto, unfolding(crate::specs::Reading::few_listed))]
pub(crate) fn few_readers(
    alloc: Global,
    bytes: &[u8],
) -> Result<Option<(Vec<ReaderTape>, &[u8])>, OutOfMemory>
    ensures { IfOk result (λ found. option_map (λ p. (p.0.items, p.1.now)) found
        ≡ few_listed reader bytes.now) }
{
    match byte(bytes) {
        Some((count, rest)) if count <= 64 => readers(alloc, count, rest),
        _ => Ok(None),
    }
}
