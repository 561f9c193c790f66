//! The tape that all bytes of a source spell.
//!
//! Meaning: `Reading.antt`. Ours.

ghost use Rattle.std.specs.Prelude.{◌≡◌, ◌⊎◌, ◌≤◌, length, IfOk, IfErr, OnOk, IfSome, Err, Some};
ghost use Rattle.std.specs.Io.KnownBytes.{IsAtEnd};
ghost use Rattle.strm_codes.specs.Counters.{Rose};
ghost use Rattle.strm_input_output.specs.Serving.{ReadsWithin, Writes, port};
ghost use Rattle.strm_tape.specs.Spelling.{TapeOf, IsTape, tape_spelling};
ghost use Rattle.strm_tape_program.specs.Reading.{most_bytes, IsSpelling, IsReadStatus, IsNoTape, IsWhy, IsReadComplete};

use crate::statuses::{NOT_A_TAPE, OUT_OF_MEMORY, READ_FAULT, TOO_LONG};
use crate::texts::not_a_tape_text;
use std::alloc::Global;
use strm_input_output::answers::write_answer;
use strm_input_output::ports::{Sink, Source};
use strm_input_output::whole::{InputError, read_within};
use strm_lines::texts::{read_fault_text, too_long_text};
use strm_tape::errors::TapeError;
use strm_tape::tape::Tape;
use strm_tape::untaping::untape;

/// The most bytes of a tape that is read.
pub const MAX_TAPE_BYTES: u32 = 67_108_864;

// Why there is no tape.
#[derive(Clone, Copy)]
pub(crate) enum NoTape {
    // There are more than `MAX_TAPE_BYTES` bytes.
    TooLong,
    // The source failed.
    Fault,
    // No tape has these bytes as its spelling.
    NotSpelled,
    // An allocation was refused.
    OutOfMemory,
}

/// Reads a source to its end: the tape that all its bytes spell. Where there is none it writes why, and
/// answers the program's status: `TOO_LONG`, `READ_FAULT`, `WRITE_FAULT`, `NOT_A_TAPE`, or `OUT_OF_MEMORY`,
/// with which nothing is written.
pub fn tape_read<S: Source, K: Sink>(
    alloc: Global,
    source: &mut S,
    sink: &mut K,
) -> Result<Tape, u8>
    ensures tape { IfOk result (λ tape.
        IfSome (S.left source.old) (λ bytes. tape_spelling tape ≡ bytes)) }
    ensures whole { OnOk result (IsAtEnd (S.left source.new)) }
    ensures quiet { OnOk result (sink.new ≡ sink.old) }
    ensures known { IfErr result IsReadStatus }
    ensures writes { IfErr result
        (Writes (IsNoTape (S.left source.old) (S.faults source.old) (S.faults source.new))
        (port (K.taken sink.old) (K.faults sink.old))
        (port (K.taken sink.new) (K.faults sink.new))) }
    ensures nothing { IfErr result (λ status. status ≡ OUT_OF_MEMORY → sink.new ≡ sink.old) }
    ensures read { ReadsWithin MAX_TAPE_BYTES (S.left source.old) (S.left source.new) }

    // Which answer comes, but for faults and running out of memory, by causes that a caller sees.
    ensures complete { IsReadComplete (S.left source.old) (S.faults source.old)
        (S.faults source.new) (K.faults sink.old) (K.faults sink.new) result }
{
    match read_tape(alloc, source) {
        Ok(tape) => Ok(tape),
        Err(NoTape::TooLong) => Err(write_answer(sink, TOO_LONG, too_long_text())),
        Err(NoTape::Fault) => Err(write_answer(sink, READ_FAULT, read_fault_text())),
        Err(NoTape::NotSpelled) => Err(write_answer(sink, NOT_A_TAPE, not_a_tape_text())),
        Err(NoTape::OutOfMemory) => Err(OUT_OF_MEMORY),
    }
}

// The tape of a source, or why there is none.
fn read_tape<S: Source>(alloc: Global, source: &mut S) -> Result<Tape, NoTape>
    ensures tape { IfOk result (λ tape.
        IfSome (S.left source.old) (λ bytes. tape_spelling tape ≡ bytes)) }
    ensures whole { OnOk result (IsAtEnd (S.left source.new)) }
    ensures why { IfErr result
        (IsWhy (S.left source.old) (S.faults source.old) (S.faults source.new)) }
    ensures within { OnOk result (IfSome (S.left source.old) (λ bytes. length bytes ≤ most_bytes)) }
    ensures again { (tape : TapeOf) → IsTape tape → S.left source.old ≡ Some (tape_spelling tape) →
        IfOk result (λ found. found ≡ tape) }
    ensures read { ReadsWithin MAX_TAPE_BYTES (S.left source.old) (S.left source.new) }
{
    match read_within(alloc, source, MAX_TAPE_BYTES) {
        Ok(bytes) => tape_of(alloc, bytes.as_slice()),
        Err(InputError::TooLong) => Err(NoTape::TooLong),
        Err(InputError::Fault) => Err(NoTape::Fault),
        Err(InputError::OutOfMemory) => Err(NoTape::OutOfMemory),
    }
}

// The tape that bytes spell.
fn tape_of(alloc: Global, bytes: &[u8]) -> Result<Tape, NoTape>
    ensures tape { IfOk result (λ tape. tape_spelling tape ≡ bytes.now) }
    ensures again { (tape : TapeOf) → IsTape tape → tape_spelling tape ≡ bytes.now →
        IfOk result (λ found. found ≡ tape) }
    ensures spelled { OnOk result (IsSpelling bytes.now) }
    ensures not_spelled { result ≡ Err NoTape.NotSpelled → ¬ IsSpelling bytes.now }
    ensures known { IfErr result (λ why. (why ≡ NoTape.NotSpelled) ⊎ (why ≡ NoTape.OutOfMemory)) }
{
    match untape(alloc, bytes) {
        Ok(tape) => {
            tape.sound();
            Ok(tape)
        }
        Err(TapeError::NotATape) => Err(NoTape::NotSpelled),
        Err(_) => Err(NoTape::OutOfMemory),
    }
}
