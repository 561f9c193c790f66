//! The bytes that spell a tape. After `OutOfMemory` the bytes are to be thrown away.
//!
//! Source: ours.

ghost use Rattle.std.specs.Prelude.{◌≡◌, ◌*◌, ◌++◌, ◌∷◌, [], All, length, IfOk, OnOk};
ghost use Rattle.std.specs.List.{flat_map};
ghost use Rattle.strm_codes.specs.Layout.{item_type};
ghost use Rattle.strm_codes.specs.ItemTypes.{item_size};
ghost use Rattle.strm_memory.specs.Items.{stored};
ghost use Rattle.strm_lines.specs.Grammar.{IsU32};
ghost use Rattle.strm_tape.specs.Spelling.{IsWriterTape, IsReaderTape, room_bytes, flag_byte, answer_number, region_bytes, writer_record_bytes, reader_record_bytes, step_bytes, writer_bytes, reader_bytes, head_bytes, tape_spelling};

use crate::tape::{ReaderTape, Tape, WriterTape};
use crate::versions::is_first;
use crate::writing::{put, put_number, put_step, put_type, put_zeros};
use std::alloc::Global;
use std::marker::Model;
use strm_buffers::answers::{Answer, ReaderSaid};
use strm_buffers::items::Items;
use strm_buffers::said::WriterSaid;
use strm_codes::counts::OutOfMemory;
use strm_machine::steps::Step;

// The byte of yes or no.
fn flag_byte(flag: bool) -> u8
    ensures { result ≡ flag_byte flag }
{
    if flag { 1 } else { 0 }
}

// The place of an answer.
fn answer_number(answer: Answer) -> u8
    ensures { result ≡ answer_number answer }
{
    match answer {
        Answer::Pending => 0,
        Answer::Completed => 1,
        Answer::Cancelled => 2,
        Answer::Dropped => 3,
        Answer::Failed => 4,
    }
}

// A room.
fn put_room(out: &mut Vec<u8>, room: Option<u32>) -> Result<(), OutOfMemory>
    ensures { OnOk result (out.new.items ≡ out.old.items ++ room_bytes room) }
{
    match room {
        Some(room) => put_number(out, room),
        None => put_number(out, 4_294_967_295),
    }
}

// Items as they lie in bytes that were 0.
pub(crate) fn put_items(out: &mut Vec<u8>, items: &Items) -> Result<(), OutOfMemory>
    ensures { OnOk result (out.new.items ≡ out.old.items
        ++ region_bytes (item_type items.now.payload) items.now.items) }
{
    let start = out.len();
    put_zeros(out, items.payload().size() as usize * items.len())?;
    items.write_over(&mut out[start..]);
    Ok(())
}

// A record of a host writer.
fn put_writer_record(out: &mut Vec<u8>, said: &WriterSaid) -> Result<(), OutOfMemory>
    ensures { OnOk result (out.new.items ≡ out.old.items ++ writer_record_bytes said.now) }
{
    put_room(out, said.room)?;
    put(out, &[flag_byte(said.finish)])?;
    put_number(out, said.items.len() as u32)?;
    put_items(out, &said.items)?;
    put(out, &[answer_number(said.answer)])
}

// A record of a host reader.
fn put_reader_record(out: &mut Vec<u8>, said: &ReaderSaid) -> Result<(), OutOfMemory>
    ensures { OnOk result (out.new.items ≡ out.old.items ++ reader_record_bytes said.now) }
{
    put_number(out, said.offered)?;
    put_number(out, said.since)?;
    put(out, &[flag_byte(said.finish)])?;
    put_number(out, said.taken)?;
    put(out, &[flag_byte(said.bad), answer_number(said.answer)])
}

// Steps in a row.
fn put_steps(out: &mut Vec<u8>, steps: &[Step]) -> Result<(), OutOfMemory>
    ensures { OnOk result (out.new.items ≡ out.old.items ++ flat_map step_bytes steps.now) }
{
    for k in 0..steps.len() {
        put_step(out, &steps[k])?;
    }
    Ok(())
}

// Records of a host writer in a row.
pub(crate) fn put_writer_records(out: &mut Vec<u8>, said: &[WriterSaid]) -> Result<(), OutOfMemory>
    ensures { OnOk result (out.new.items ≡ out.old.items ++ flat_map writer_record_bytes said.now) }
{
    for k in 0..said.len() {
        put_writer_record(out, &said[k])?;
    }
    Ok(())
}

// Records of a host reader in a row.
fn put_reader_records(out: &mut Vec<u8>, said: &[ReaderSaid]) -> Result<(), OutOfMemory>
    ensures { OnOk result (out.new.items ≡ out.old.items ++ flat_map reader_record_bytes said.now) }
{
    for k in 0..said.len() {
        put_reader_record(out, &said[k])?;
    }
    Ok(())
}

// What a tape has of a host writer.
fn put_writer(out: &mut Vec<u8>, writer: &WriterTape) -> Result<(), OutOfMemory>
    ensures { OnOk result (out.new.items ≡ out.old.items ++ writer_bytes writer.now) }
{
    put_type(out, &writer.ty)?;
    put_number(out, writer.records.len())?;
    put(out, writer.records.as_slice())
}

// What a tape has of a host reader.
fn put_reader(out: &mut Vec<u8>, reader: &ReaderTape) -> Result<(), OutOfMemory>
    requires { IsU32 (length reader.now.said) }
    ensures { OnOk result (out.new.items ≡ out.old.items ++ reader_bytes reader.now) }
{
    put_type(out, &reader.ty)?;
    put_number(out, reader.said.len() as u32)?;
    put_reader_records(out, &reader.said)
}

// Host writers in a row.
fn put_writers(out: &mut Vec<u8>, writers: &[WriterTape]) -> Result<(), OutOfMemory>
    ensures { OnOk result (out.new.items ≡ out.old.items ++ flat_map writer_bytes writers.now) }
{
    for k in 0..writers.len() {
        put_writer(out, &writers[k])?;
    }
    Ok(())
}

// Host readers in a row.
fn put_readers(out: &mut Vec<u8>, readers: &[ReaderTape]) -> Result<(), OutOfMemory>
    requires { All IsReaderTape readers.now }
    ensures { OnOk result (out.new.items ≡ out.old.items ++ flat_map reader_bytes readers.now) }
{
    for k in 0..readers.len() {
        put_reader(out, &readers[k])?;
    }
    Ok(())
}

// What a tape begins with.
fn put_head(out: &mut Vec<u8>, first: bool) -> Result<(), OutOfMemory>
    ensures { OnOk result (out.new.items ≡ out.old.items ++ head_bytes first) }
{
    if first {
        put(out, b"STRT\x01")
    } else {
        put(out, b"STRT\x02")
    }
}

// All of a tape.
fn put_tape(out: &mut Vec<u8>, tape: &Tape) -> Result<(), OutOfMemory>
    ensures { OnOk result (out.new.items ≡ out.old.items ++ tape_spelling tape.now) }
{
    put_head(out, is_first(tape))?;
    put_number(out, tape.steps.len() as u32)?;
    put_steps(out, &tape.steps)?;
    put(out, &[tape.writers.len() as u8])?;
    put_writers(out, &tape.writers)?;
    put(out, &[tape.readers.len() as u8])?;
    put_readers(out, &tape.readers)
}

/// The bytes that spell a tape.
#[derive(Drop)]
pub struct TapeBytes {
    items: Vec<u8>,
}

impl Model for TapeBytes {
    ghost use Rattle.std.specs.Prelude.{ℕ, List};

    ghost Value = { List ℕ };

    ghost view = { λ s. s.items.items };
}

impl TapeBytes {
    /// The bytes, lent.
    pub fn as_slice(&self) -> &[u8]
        ensures { result.now ≡ self.now }
    {
        &self.items
    }
}

/// The bytes that spell a tape, of the least version that can say it, written in one pass. After `OutOfMemory` nothing was kept.
pub fn tape_bytes(alloc: Global, tape: &Tape) -> Result<TapeBytes, OutOfMemory>
    ensures { IfOk result (λ bytes. bytes ≡ tape_spelling tape.now) }
{
    let mut items = Vec::new(alloc);
    put_tape(&mut items, tape)?;
    Ok(TapeBytes { items })
}
