//! Where the records that host ends added differ first from those of a tape.

ghost use Rattle.std.specs.Prelude.{◌≡◌, ◌<◌, ◌≤◌, ◌^◌, ◌↔◌, true, false, length, map, drop, slice_get, Some, None, IsTrue, IfOk, IfSome};
ghost use Rattle.std.specs.List.{AllZip};
ghost use Rattle.strm_buffers.specs.Tells.{told_by, told_by_reader};
ghost use Rattle.strm_tape_runs.specs.Taking.{zip_with};
ghost use Rattle.strm_tape_runs.specs.Marks.{writer_behind, reader_behind, tape_behind, IsMarkReached, ReaderReached};
ghost use Rattle.strm_tape_runs.specs.Differing.{DifferFirst, WritersDiffer, ReadersDiffer, FirstDiffer};

use crate::marks::{Mark, Marks};
use crate::recorded::RecordedEnds;
use crate::records::{same_reader_record, same_writer_record};
use std::alloc::Global;
use strm_buffers::answers::ReaderSaid;
use strm_buffers::said::WriterSaid;
use strm_codes::counts::OutOfMemory;
use strm_tape::tape::{ReaderTape, Tape, WriterTape};

// Whether this is a record of a host writer, by its place.
fn is_writer_record<H: RecordedEnds>(
    alloc: Global,
    hosts: &H,
    number: usize,
    index: usize,
    said: &WriterSaid,
) -> Result<bool, OutOfMemory>
    requires there { number < length (H.tells hosts.now).writers }
    requires said { index < length (told_by (H.tells hosts.now) number).said }
    ensures { IfOk result (λ same. IsTrue same
        ↔ slice_get (told_by (H.tells hosts.now) number).said index ≡ Some said.now) }
{
    let record = hosts.writer_record_at(number, index)?;
    same_writer_record(alloc, &record, said)
}

/// The first place at which the records of a host writer behind so many differ from those that a tape has of
/// it, from 0; none where they are these.
pub(crate) fn writer_difference<H: RecordedEnds>(
    alloc: Global,
    hosts: &H,
    number: usize,
    from: usize,
    tape: &WriterTape,
) -> Result<Option<u32>, OutOfMemory>
    requires there { number < length (H.tells hosts.now).writers }
    requires added { from ≤ length (told_by (H.tells hosts.now) number).said }
    ensures same { IfOk result (λ found. found ≡ None →
        drop from (told_by (H.tells hosts.now) number).said ≡ tape.now.said) }
    ensures differ { IfOk result (λ found. IfSome found (λ at.
        DifferFirst at (drop from (told_by (H.tells hosts.now) number).said) tape.now.said)) }
{
    let added = hosts.writer_records(number) - from;
    let count = tape.len() as usize;
    let both = added.min(count);
    let mut coming = tape.copy()?;
    for at in 0..both {
        let said = coming.take_first(alloc)?;
        if !is_writer_record(alloc, hosts, number, from + at, &said)? {
            return Ok(Some(at as u32));
        }
    }
    if added == count {
        Ok(None)
    } else {
        Ok(Some(both as u32))
    }
}

// Whether this is a record of a host reader, by its place.
fn is_reader_record<H: RecordedEnds>(
    hosts: &H,
    number: usize,
    index: usize,
    said: &ReaderSaid,
) -> bool
    requires there { number < length (H.tells hosts.now).readers }
    requires said { index < length (told_by_reader (H.tells hosts.now) number).said }
    ensures { IsTrue result
        ↔ slice_get (told_by_reader (H.tells hosts.now) number).said index ≡ Some said.now }
{
    same_reader_record(&hosts.reader_record_at(number, index), said)
}

/// The same of a host reader. It takes no memory.
pub(crate) fn reader_difference<H: RecordedEnds>(
    hosts: &H,
    number: usize,
    from: usize,
    said: &[ReaderSaid],
) -> Option<u32>
    requires there { number < length (H.tells hosts.now).readers }
    requires added { from ≤ length (told_by_reader (H.tells hosts.now) number).said }
    requires few { length said.now < 2 ^ 32 }
    ensures same { result ≡ None →
        drop from (told_by_reader (H.tells hosts.now) number).said ≡ said.now }
    ensures differ { IfSome result (λ at.
        DifferFirst at (drop from (told_by_reader (H.tells hosts.now) number).said) said.now) }
{
    let added = hosts.reader_records(number) - from;
    let both = added.min(said.len());
    for at in 0..both {
        if !is_reader_record(hosts, number, from + at, &said[at]) {
            return Some(at as u32);
        }
    }
    if added == said.len() {
        None
    } else {
        Some(both as u32)
    }
}

/// The first difference of what host ends added from a tape.
#[derive(Clone, Copy)]
pub(crate) struct Difference {
    /// Whether the end is a host reader.
    pub(crate) reader: bool,
    /// Its number.
    pub(crate) end: u32,
    /// Which of its records, from 0.
    pub(crate) at: u32,
}

// The records that a tape has of a host reader.
fn reader_said(tape: &ReaderTape) -> &[ReaderSaid]
    ensures { result.now ≡ tape.now.said }
{
    &tape.said
}

// Where the records of host writers behind their marks differ first from those of a tape.
fn writers_difference<H: RecordedEnds>(
    alloc: Global,
    hosts: &H,
    marks: &[Mark],
    tape: &Tape,
) -> Result<Option<Difference>, OutOfMemory>
    requires reached { AllZip IsMarkReached marks.now (H.tells hosts.now).writers }
    requires types { map (λ m. m.ty) marks.now ≡ map (λ w. w.ty) tape.now.writers }
    ensures same { IfOk result (λ found. found ≡ None →
        zip_with writer_behind marks.now (H.tells hosts.now).writers ≡ tape.now.writers) }
    ensures differ { IfOk result (λ found. IfSome found (λ d. (d.reader ≡ false)
        × WritersDiffer (zip_with writer_behind marks.now (H.tells hosts.now).writers)
        tape.now.writers d.end d.at)) }
{
    tape.sound();
    for n in 0..tape.writers() {
        let from = marks[n as usize].records;
        if let Some(at) = writer_difference(alloc, hosts, n as usize, from, tape.writer(n))? {
            return Ok(Some(Difference {
                reader: false,
                end: n,
                at,
            }));
        }
    }
    Ok(None)
}

// The same of host readers. It takes no memory.
fn readers_difference<H: RecordedEnds>(hosts: &H, marks: &[Mark], tape: &Tape) -> Option<Difference>
    requires reached { AllZip ReaderReached marks.now (H.tells hosts.now).readers }
    requires types { map (λ m. m.ty) marks.now ≡ map (λ r. r.ty) tape.now.readers }
    ensures same { result ≡ None →
        zip_with reader_behind marks.now (H.tells hosts.now).readers ≡ tape.now.readers }
    ensures differ { IfSome result (λ d. (d.reader ≡ true)
        × ReadersDiffer (zip_with reader_behind marks.now (H.tells hosts.now).readers)
        tape.now.readers d.end d.at) }
{
    tape.sound();
    for r in 0..tape.readers() {
        let said = reader_said(tape.reader(r));
        let from = marks[r as usize].records;
        match reader_difference(hosts, r as usize, from, said) {
            None => {}
            Some(at) => {
                return Some(Difference {
                    reader: true,
                    end: r,
                    at,
                });
            }
        }
    }
    None
}

/// Where what host ends recorded behind their marks differs first from a tape.
pub(crate) fn first_difference<H: RecordedEnds>(
    alloc: Global,
    hosts: &H,
    marks: &Marks,
    tape: &Tape,
) -> Result<Option<Difference>, OutOfMemory>
    requires writers { AllZip IsMarkReached marks.now.writers.items (H.tells hosts.now).writers }
    requires readers { AllZip ReaderReached marks.now.readers.items (H.tells hosts.now).readers }
    requires types { map (λ m. m.ty) marks.now.writers.items ≡ map (λ w. w.ty) tape.now.writers }
    requires reader_types { map (λ m. m.ty) marks.now.readers.items
        ≡ map (λ r. r.ty) tape.now.readers }
    ensures same { IfOk result (λ found. found ≡ None →
        tape_behind tape.now.steps marks.now (H.tells hosts.now) ≡ tape.now) }
    ensures differ { IfOk result (λ found. IfSome found (λ d.
        FirstDiffer (tape_behind tape.now.steps marks.now (H.tells hosts.now))
        tape.now d.reader d.end d.at)) }
{
    match writers_difference(alloc, hosts, &marks.writers, tape)? {
        None => Ok(readers_difference(hosts, &marks.readers, tape)),
        Some(difference) => Ok(Some(difference)),
    }
}
