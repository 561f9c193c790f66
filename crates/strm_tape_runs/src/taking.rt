//! What host ends recorded behind marks, as the parts of a tape.

ghost use Rattle.std.specs.Prelude.{◌≡◌, ◌<◌, ◌≤◌, ◌∷◌, ◌++◌, [], All, length, drop, slice_get, Some, IfOk, OnOk};
ghost use Rattle.std.specs.List.{AllZip};
ghost use Rattle.strm_codes.specs.Types.{payload_of};
ghost use Rattle.strm_buffers.specs.Tells.{told_by, told_by_reader};
ghost use Rattle.strm_lines.specs.Grammar.{HasLine};
ghost use Rattle.strm_tape.specs.Spelling.{IsWriterRecord, IsReaderRecord, IsWriterTape, IsReaderTape};
ghost use Rattle.strm_tape_runs.specs.Taking.{zip_with};
ghost use Rattle.strm_tape_runs.specs.Marks.{writer_behind, reader_behind, tape_behind, FairRoom, FairTaking, IsTapable, ReaderTapable, IsNext};

use crate::marks::{Mark, Marks};
use crate::recorded::RecordedEnds;
use std::alloc::Global;
use strm_buffers::answers::ReaderSaid;
use strm_buffers::said::WriterSaid;
use strm_codes::counts::OutOfMemory;
use strm_machine::steps::Step;
use strm_tape::tapable::sound_type;
use strm_tape::tape::{ReaderTape, Tape, WriterTape};

// A record of a host writer of a mark's payload, with such a room, can be spelled. It does nothing.
fn sound_record(said: &WriterSaid, mark: &Mark)
    requires payload { said.now.payload ≡ payload_of mark.now.ty }
    requires room { FairRoom said.now }
    ensures { IsWriterRecord (payload_of mark.now.ty) said.now }
{
    let _ty = &mark.ty;
    said.items.sound();
    let _len = said.items.len();
}

// A record of a host reader that took no more than was offered can be spelled. It does nothing.
fn sound_reader_record(said: ReaderSaid)
    requires { FairTaking said }
    ensures { IsReaderRecord said }
{
    let _said = said;
}

// Adds a record at the end.
fn push_said(records: &mut Vec<WriterSaid>, said: WriterSaid) -> Result<(), OutOfMemory>
    ensures { OnOk result (records.new.items ≡ records.old.items ++ said ∷ []) }
{
    records.push(said)?;
    Ok(())
}

// Adds a record of a host writer, by its place, at the end of others.
fn push_writer_record<H: RecordedEnds>(
    records: &mut Vec<WriterSaid>,
    hosts: &H,
    number: usize,
    index: usize,
    mark: &Mark,
) -> Result<(), OutOfMemory>
    requires there { number < length (H.tells hosts.now).writers }
    requires said { index < length (told_by (H.tells hosts.now) number).said }
    requires behind { mark.now.records ≤ index }
    requires tapable { IsTapable mark.now (told_by (H.tells hosts.now) number) }
    requires each { All (IsWriterRecord (payload_of mark.now.ty)) records.old.items }
    ensures next { OnOk result
        (IsNext (told_by
        (H.tells hosts.now) number).said index records.old.items records.new.items) }
    ensures each { OnOk result (All (IsWriterRecord (payload_of mark.now.ty)) records.new.items) }
{
    let said = match hosts.writer_record_at(number, index) {
        Ok(said) => said,
        Err(error) => return Err(error),
    };
    sound_record(&said, mark);
    push_said(records, said)
}

// The records of a host writer behind a mark.
fn writer_records_behind<H: RecordedEnds>(
    alloc: Global,
    hosts: &H,
    number: usize,
    mark: &Mark,
) -> Result<Vec<WriterSaid>, OutOfMemory>
    requires there { number < length (H.tells hosts.now).writers }
    requires tapable { IsTapable mark.now (told_by (H.tells hosts.now) number) }
    ensures said { IfOk result (λ said.
        said.items ≡ drop mark.now.records (told_by (H.tells hosts.now) number).said) }
    ensures each { IfOk result (λ said. All (IsWriterRecord (payload_of mark.now.ty)) said.items) }
{
    let from = mark.records;
    let mut records = Vec::new(alloc);
    for k in 0..hosts.writer_records(number) - from {
        push_writer_record(&mut records, hosts, number, from + k, mark)?;
    }
    Ok(records)
}

// What a tape has of a host writer.
fn writer_tape<H: RecordedEnds>(
    alloc: Global,
    hosts: &H,
    number: usize,
    mark: &Mark,
) -> Result<WriterTape, OutOfMemory>
    requires there { number < length (H.tells hosts.now).writers }
    requires tapable { IsTapable mark.now (told_by (H.tells hosts.now) number) }
    ensures tape { IfOk result (λ tape.
        tape ≡ writer_behind mark.now (told_by (H.tells hosts.now) number)) }
    ensures sound { IfOk result IsWriterTape }
{
    sound_type(&mark.ty);
    let said = writer_records_behind(alloc, hosts, number, mark)?;
    WriterTape::new(alloc, mark.ty, &said)
}

// Adds a record of a host reader, by its place, at the end of others.
fn push_reader_record<H: RecordedEnds>(
    records: &mut Vec<ReaderSaid>,
    hosts: &H,
    number: usize,
    index: usize,
    mark: &Mark,
) -> Result<(), OutOfMemory>
    requires there { number < length (H.tells hosts.now).readers }
    requires said { index < length (told_by_reader (H.tells hosts.now) number).said }
    requires behind { mark.now.records ≤ index }
    requires tapable { ReaderTapable mark.now (told_by_reader (H.tells hosts.now) number) }
    requires each { All IsReaderRecord records.old.items }
    ensures next { OnOk result
        (IsNext (told_by_reader
        (H.tells hosts.now) number).said index records.old.items records.new.items) }
    ensures each { OnOk result (All IsReaderRecord records.new.items) }
{
    let said = hosts.reader_record_at(number, index);
    sound_reader_record(said);
    records.push(said)?;
    Ok(())
}

// The records of a host reader behind a mark.
fn reader_records_behind<H: RecordedEnds>(
    alloc: Global,
    hosts: &H,
    number: usize,
    mark: &Mark,
) -> Result<Vec<ReaderSaid>, OutOfMemory>
    requires there { number < length (H.tells hosts.now).readers }
    requires tapable { ReaderTapable mark.now (told_by_reader (H.tells hosts.now) number) }
    ensures said { IfOk result (λ said.
        said.items ≡ drop mark.now.records (told_by_reader (H.tells hosts.now) number).said) }
    ensures each { IfOk result (λ said. All IsReaderRecord said.items) }
{
    let from = mark.records;
    let mut records = Vec::new(alloc);
    for k in 0..hosts.reader_records(number) - from {
        push_reader_record(&mut records, hosts, number, from + k, mark)?;
    }
    Ok(records)
}

// What a tape has of a host reader.
fn reader_tape<H: RecordedEnds>(
    alloc: Global,
    hosts: &H,
    number: usize,
    mark: &Mark,
) -> Result<ReaderTape, OutOfMemory>
    requires there { number < length (H.tells hosts.now).readers }
    requires tapable { ReaderTapable mark.now (told_by_reader (H.tells hosts.now) number) }
    ensures tape { IfOk result (λ tape.
        tape ≡ reader_behind mark.now (told_by_reader (H.tells hosts.now) number)) }
    ensures sound { IfOk result IsReaderTape }
{
    sound_type(&mark.ty);
    let said = reader_records_behind(alloc, hosts, number, mark)?;
    Ok(ReaderTape { ty: mark.ty, said })
}

// Adds the tape of a host writer at the end.
fn push_writer_tape(tapes: &mut Vec<WriterTape>, tape: WriterTape) -> Result<(), OutOfMemory>
    ensures { OnOk result (tapes.new.items ≡ tapes.old.items ++ tape ∷ []) }
{
    tapes.push(tape)?;
    Ok(())
}

// Adds the tape of a host reader at the end.
fn push_reader_tape(tapes: &mut Vec<ReaderTape>, tape: ReaderTape) -> Result<(), OutOfMemory>
    ensures { OnOk result (tapes.new.items ≡ tapes.old.items ++ tape ∷ []) }
{
    tapes.push(tape)?;
    Ok(())
}

// What a tape has of host writers.
fn writer_tapes<H: RecordedEnds>(
    alloc: Global,
    hosts: &H,
    marks: &[Mark],
) -> Result<Vec<WriterTape>, OutOfMemory>
    requires tapable { AllZip IsTapable marks.now (H.tells hosts.now).writers }
    ensures tapes { IfOk result (λ tapes.
        tapes.items ≡ zip_with writer_behind marks.now (H.tells hosts.now).writers) }
    ensures sound { IfOk result (λ tapes. All IsWriterTape tapes.items) }
{
    let mut tapes = Vec::new(alloc);
    for n in 0..marks.len() {
        let tape = writer_tape(alloc, hosts, n, &marks[n])?;
        push_writer_tape(&mut tapes, tape)?;
    }
    Ok(tapes)
}

// What a tape has of host readers.
fn reader_tapes<H: RecordedEnds>(
    alloc: Global,
    hosts: &H,
    marks: &[Mark],
) -> Result<Vec<ReaderTape>, OutOfMemory>
    requires tapable { AllZip ReaderTapable marks.now (H.tells hosts.now).readers }
    ensures tapes { IfOk result (λ tapes.
        tapes.items ≡ zip_with reader_behind marks.now (H.tells hosts.now).readers) }
    ensures sound { IfOk result (λ tapes. All IsReaderTape tapes.items) }
{
    let mut tapes = Vec::new(alloc);
    for r in 0..marks.len() {
        let tape = reader_tape(alloc, hosts, r, &marks[r])?;
        push_reader_tape(&mut tapes, tape)?;
    }
    Ok(tapes)
}

/// The tape of these steps, and of what host ends recorded behind their marks.
pub(crate) fn tape_behind<H: RecordedEnds>(
    alloc: Global,
    steps: Vec<Step>,
    hosts: &H,
    marks: &Marks,
) -> Result<Tape, OutOfMemory>
    requires few { length steps.items ≤ 4294967295 }
    requires steps { All HasLine steps.items }
    requires writers { AllZip IsTapable marks.now.writers.items (H.tells hosts.now).writers }
    requires readers { AllZip ReaderTapable marks.now.readers.items (H.tells hosts.now).readers }
    requires few_writers { length marks.now.writers.items ≤ 64 }
    requires few_readers { length marks.now.readers.items ≤ 64 }
    ensures { IfOk result (λ tape.
        tape ≡ tape_behind steps.items marks.now (H.tells hosts.now)) }
{
    let writers = writer_tapes(alloc, hosts, &marks.writers)?;
    let readers = reader_tapes(alloc, hosts, &marks.readers)?;
    Ok(Tape::new(steps, writers, readers))
}
