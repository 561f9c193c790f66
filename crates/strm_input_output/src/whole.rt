//! All of an input, and all of an output.
//!
//! Source: ours.

ghost use Rattle.std.specs.Prelude.{◌≡◌, ◌<◌, ◌≤◌, length, IfOk, OnOk, OnErr, IfSome, Err, vec_len};
ghost use Rattle.std.specs.Io.{ReadsAtMost};
ghost use Rattle.std.specs.Io.KnownBytes.{Appends, IsAtEnd, ReadConsumes};
ghost use Rattle.strm_codes.specs.Counters.{Rose};
ghost use Rattle.strm_input_output.specs.Faults.{TakesPart};
ghost use Rattle.strm_input_output.specs.Serving.{ReadsWithin};
ghost use Rattle.strm_input_output.specs.declared.whole.InputError.TheVariants.{Fault, OutOfMemory as NoMemory};

use crate::ports::{Failed, Sink, Source};
use std::alloc::{AllocError, Global};
use strm_codes::counts::OutOfMemory;
use strm_lines::lists::TextBytes;
use strm_lines::parsing::MAX_BYTES;
use thiserror::Error;

// The most bytes that one read asks for.
const PIECE: usize = 65_536;

/// Why an input was not had.
#[derive(Clone, Copy, Debug, PartialEq, Eq, Error)]
pub enum InputError {
    /// It has more bytes than were to be read.
    #[error("too long")]
    TooLong,
    /// A read failed.
    #[error("read fault")]
    Fault,
    /// An allocation was refused.
    #[error("out of memory")]
    OutOfMemory,
}

impl From<Failed> for InputError {
    ghost from_gives = { λ _ e. e ≡ Fault };

    fn from(_error: Failed) -> InputError {
        InputError::Fault
    }
}

impl From<OutOfMemory> for InputError {
    ghost from_gives = { λ _ e. e ≡ NoMemory };

    fn from(_error: OutOfMemory) -> InputError {
        InputError::OutOfMemory
    }
}

impl From<AllocError> for InputError {
    ghost from_gives = { λ _ e. e ≡ NoMemory };

    fn from(_error: AllocError) -> InputError {
        InputError::OutOfMemory
    }
}

/// Reads a source to its end. It asks for at most `MAX_BYTES` + 1 bytes in all.
pub fn read_all<S: Source>(alloc: Global, source: &mut S) -> Result<TextBytes, InputError>
    ensures ok { IfOk result (λ text. IfSome (S.left source.old) (λ bytes. text ≡ bytes)) }
    ensures end { OnOk result (IsAtEnd (S.left source.new)) }
    ensures within { IfOk result (λ text. length text ≤ MAX_BYTES) }
    ensures too_long { result ≡ Err InputError.TooLong →
        IfSome (S.left source.old) (λ bytes. MAX_BYTES < length bytes) }
    ensures fault { result ≡ Err InputError.Fault →
        Rose (S.faults source.old) (S.faults source.new) }

    // Whatever is answered: what was read is gone from the front, and no more than that.
    ensures read { ReadsWithin MAX_BYTES (S.left source.old) (S.left source.new) }
    ensures later { S.faults source.old ≤ S.faults source.new }
{
    read_within(alloc, source, MAX_BYTES as u32)
}

/// Reads a source to its end, where it has at most so many bytes. It asks for at most one byte more.
pub fn read_within<S: Source>(
    alloc: Global,
    source: &mut S,
    most: u32,
) -> Result<TextBytes, InputError>
    ensures ok { IfOk result (λ text. IfSome (S.left source.old) (λ bytes. text ≡ bytes)) }
    ensures end { OnOk result (IsAtEnd (S.left source.new)) }
    ensures within { IfOk result (λ text. length text ≤ most) }
    ensures too_long { result ≡ Err InputError.TooLong →
        IfSome (S.left source.old) (λ bytes. most < length bytes) }
    ensures fault { result ≡ Err InputError.Fault →
        Rose (S.faults source.old) (S.faults source.new) }

    // Whatever is answered: what was read is gone from the front, and no more than that.
    ensures read { ReadsWithin most (S.left source.old) (S.left source.new) }
    ensures later { S.faults source.old ≤ S.faults source.new }
{
    let mut piece = make_piece(alloc, PIECE)?;
    let mut text = TextBytes::new(alloc);
    let mut room = most as usize + 1;
    while room > 0 {
        let count = read_piece(source, &mut piece, room)?;
        if count == 0 {
            return Ok(text);
        }
        text.push_slice(&piece[..count])?;
        room -= count;
    }
    Err(InputError::TooLong)
}

// Room for one read.
fn make_piece(alloc: Global, size: usize) -> Result<Vec<u8>, AllocError>
    ensures { IfOk result (λ piece. vec_len piece ≡ size) }
{
    vec![in alloc; 0u8; size]
}

// Reads at most `room` bytes to the front of a piece.
fn read_piece<S: Source>(source: &mut S, piece: &mut [u8], room: usize) -> Result<usize, Failed>
    requires some { 0 < length piece.old }
    requires room { 0 < room }
    ensures most { ReadsAtMost result piece.new }
    ensures room { IfOk result (λ n. n ≤ room) }
    ensures bytes { ReadConsumes (S.left source.old) (S.left source.new) result piece.new }
    ensures later { S.faults source.old ≤ S.faults source.new }
    ensures failed { OnErr result (Rose (S.faults source.old) (S.faults source.new)) }
{
    if room < piece.len() {
        source.read(&mut piece[..room])
    } else {
        source.read(piece)
    }
}

/// Writes all of the bytes to a sink. On a failure the sink took some from their front.
pub fn write_whole<K: Sink>(sink: &mut K, bytes: &[u8]) -> Result<(), Failed>
    ensures ok { OnOk result (Appends (K.taken sink.old) (K.taken sink.new) bytes.now) }
    ensures err { OnErr result (TakesPart (K.taken sink.old) (K.taken sink.new) bytes.now) }
    ensures later { K.faults sink.old ≤ K.faults sink.new }
    ensures failed { OnErr result (Rose (K.faults sink.old) (K.faults sink.new)) }
{
    let mut done = 0;
    while done < bytes.len() {
        let (_, rest) = bytes.split_at(done);
        let count = sink.write(rest)?;
        if count == 0 {
            return Err(Failed);
        }
        done += count;
    }
    Ok(())
}
