//! The program of lanes: words and lines in, each lane's own bytes and a status out.
//!
//! Meaning: `Serving.antt`. Ours.

ghost use Rattle.std.specs.Prelude.{◌≡◌, ◌≢◌, ◌≤◌, ℕ, List, length, map, IfOk, IfSome, None, string_bytes};
ghost use Rattle.strm_lines.specs.Lines.{lines_of};
ghost use Rattle.strm_lines.specs.Reading.{number_within};
ghost use Rattle.strm_codes.specs.Counters.{Rose};
ghost use Rattle.strm_input_output.specs.Serving.{ReadsWithin, WritesWhole, WritesPart};
ghost use Rattle.strm_mux.specs.Answering.{AnswersInput};
ghost use Rattle.strm_mux.specs.LineReading.{HoldsLines};
ghost use Rattle.strm_mux.specs.Serving.{AreSizes, IsSizes, IsCarriedBy, IsMuxOutput, IsMuxStatus, IsMuxComplete};

use crate::carrying::carry;
use crate::lines::{LinesError, mux_of};
use crate::texts::{output_text, usage_text};
use std::alloc::Global;
use strm_codes::counts::OutOfMemory;
use strm_frames::muxes::Mux;
use strm_input_output::answers::{Answer, write_answer};
use strm_input_output::ports::{Sink, Source};
pub use strm_input_output::statuses::{
    BAD_LINE, DONE, OUT_OF_MEMORY, READ_FAULT, TOO_LONG, USAGE, WRITE_FAULT,
};
use strm_input_output::whole::{InputError, read_within};
use strm_lines::texts::bad_line_text;
use strm_lines::words::number_within;

/// The most bytes of an input.
pub const MAX_BYTES: usize = 262_144;

// How many bytes a write has, and a read.
#[derive(Clone, Copy)]
struct Sizes {
    write: u32,
    read: u32,
}

/// Carries what the lines of a source put on lanes over one stream, in writes and reads of as many bytes
/// as the two words say, writes each lane that was named, and answers the status of the program. All that
/// is written is made before the first write.
pub fn mux_serve<S: Source, K: Sink>(
    alloc: Global,
    words: &Vec<String>,
    source: &mut S,
    sink: &mut K,
) -> u8
    ensures known { IsMuxStatus result }
    ensures told { result ≢ WRITE_FAULT → result ≢ OUT_OF_MEMORY → WritesWhole
        (IsMuxOutput (map string_bytes words.now.items) (S.left source.old) (S.left source.new)
        (S.faults source.old) (S.faults source.new)) (K.taken sink.old) (K.taken sink.new) result }
    ensures part { result ≡ WRITE_FAULT → WritesPart
        (IsMuxOutput (map string_bytes words.now.items) (S.left source.old) (S.left source.new)
        (S.faults source.old) (S.faults source.new)) (K.taken sink.old) (K.taken sink.new) }
    ensures write_fault { result ≡ WRITE_FAULT → Rose (K.faults sink.old) (K.faults sink.new) }
    ensures nothing { result ≡ OUT_OF_MEMORY → sink.new ≡ sink.old }
    ensures read { ReadsWithin MAX_BYTES (S.left source.old) (S.left source.new) }
    ensures unread { ¬ IsSizes (map string_bytes words.now.items) → source.new ≡ source.old }

    // Which status comes, but for faults and running out of memory, by causes that a caller sees.
    ensures complete { IsMuxComplete (map string_bytes words.now.items) (S.left source.old)
        (S.faults source.old) (S.faults source.new) (K.faults sink.old) (K.faults sink.new) result }
{
    match answer_words(alloc, words, source) {
        Ok(answer) => write_answer(sink, answer.status, answer.text.as_slice()),
        Err(_) => OUT_OF_MEMORY,
    }
}

// What is to be written.
fn answer_words<S: Source>(
    alloc: Global,
    words: &Vec<String>,
    source: &mut S,
) -> Result<Answer, OutOfMemory>
    ensures told { IfOk result (λ a.
        IsMuxOutput (map string_bytes words.now.items) (S.left source.old) (S.left source.new)
        (S.faults source.old) (S.faults source.new) a.status a.text) }
    ensures read { ReadsWithin MAX_BYTES (S.left source.old) (S.left source.new) }
    ensures unread { ¬ IsSizes (map string_bytes words.now.items) → source.new ≡ source.old }
{
    let Some(sizes) = sizes_of(words) else {
        return Answer::fixed(alloc, USAGE, usage_text());
    };
    match read_within(alloc, source, MAX_BYTES as u32) {
        Ok(input) => answer_input(alloc, input.as_slice(), sizes),
        Err(InputError::TooLong) => Answer::too_long(alloc),
        Err(InputError::Fault) => Answer::read_fault(alloc),
        Err(InputError::OutOfMemory) => Err(OutOfMemory),
    }
}

// The two sizes that the words name.
fn sizes_of(words: &Vec<String>) -> Option<Sizes>
    ensures some { IfSome result (λ s. AreSizes (map string_bytes words.now.items) s.write s.read) }
    ensures none { result ≡ None → ¬ IsSizes (map string_bytes words.now.items) }
{
    let words = words.as_slice();
    if words.len() != 2 {
        return None;
    }
    let write = size_of(&words[0])?;
    let read = size_of(&words[1])?;
    Some(Sizes { write, read })
}

// The size that a word names.
fn size_of(word: &String) -> Option<u32>
    ensures { result ≡ number_within 16 64 (string_bytes word.now) }
{
    number_within(word.as_bytes(), 16, 64)
}

// What is to be written for an input that was read.
fn answer_input(alloc: Global, input: &[u8], sizes: Sizes) -> Result<Answer, OutOfMemory>
    requires write { (16 ≤ sizes.write) × (sizes.write ≤ 64) }
    requires read { (16 ≤ sizes.read) × (sizes.read ≤ 64) }
    requires few { length input.now ≤ MAX_BYTES }
    ensures told { IfOk result (λ a.
        AnswersInput sizes.write sizes.read input.now a.status a.text) }
{
    match mux_of(alloc, input) {
        Ok(mux) => answer_mux(alloc, &mux, sizes),
        Err(LinesError::BadLine { line }) => {
            let text = bad_line_text(alloc, line)?;
            Ok(Answer {
                status: BAD_LINE,
                text,
            })
        }
        Err(LinesError::OutOfMemory) => Err(OutOfMemory),
    }
}

// What is to be written for a mux that was given what lines put.
fn answer_mux(alloc: Global, mux: &Mux, sizes: Sizes) -> Result<Answer, OutOfMemory>
    requires write { (16 ≤ sizes.write) × (sizes.write ≤ 64) }
    requires read { (16 ≤ sizes.read) × (sizes.read ≤ 64) }
    requires few { length mux.now.bytes ≤ 1048576 }
    ensures done { IfOk result (λ a. a.status ≡ DONE) }
    ensures carried { (input : List ℕ) → HoldsLines mux.now (lines_of input) →
        IfOk result (λ a. IsCarriedBy sizes.write sizes.read input a.text) }
{
    match carry(alloc, mux, sizes.write, sizes.read) {
        Ok(carried) => {
            let text = output_text(alloc, &carried.demux, carried.moved)?;
            Ok(Answer { status: DONE, text })
        }
        Err(_) => Err(OutOfMemory),
    }
}
