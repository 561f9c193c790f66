//! The steps by which bytes are carried.
//!
//! Meaning: `OneStream.antt` of `strm_carry_laws`. Ours.

ghost use Rattle.std.specs.Prelude.{◌≡◌, ◌<◌, ◌≤◌, ◌++◌, ◌∷◌, [], length, IfOk, IfErr, OnOk};
ghost use Rattle.strm_machine.specs.declared.steps.Step.TheVariants as step_of;
ghost use Rattle.strm_carry_laws.specs.OneStream.{carried_type, reads_of, piece_of, script_of};

use std::alloc::Global;
use strm_codes::codes::TransmitIndex;
use strm_codes::payloads::Payload;
use strm_codes::scalars::Scalar;
use strm_frames::errors::MuxError;
use strm_lines::lists::Steps;
use strm_machine::chunks::Chunk;
use strm_machine::steps::Step;

// A stream of bytes.
const BYTES: TransmitIndex = TransmitIndex::Stream(Payload::One(Scalar::U8));

// The bytes of a guest's memory.
const SIZE: u32 = 64;

// Adds a step.
fn push(steps: &mut Steps, step: Step) -> Result<(), MuxError>
    ensures ok { OnOk result (steps.new ≡ steps.old ++ step ∷ []) }
    ensures err { IfErr result (λ error. error ≡ MuxError.OutOfMemory) }
{
    match steps.push(step) {
        Ok(()) => Ok(()),
        Err(_) => Err(MuxError::OutOfMemory),
    }
}

// A read of at most so many bytes, and a dump of those that it finds.
fn push_read(steps: &mut Steps, read: u32, count: u32) -> Result<(), MuxError>
    ensures ok { OnOk result (steps.new ≡ steps.old
        ++ step_of.Read 1 carried_type 1 0 read ∷ step_of.Dump 1 0 count ∷ []) }
    ensures err { IfErr result (λ error. error ≡ MuxError.OutOfMemory) }
{
    push(
        steps,
        Step::Read {
            guest: 1,
            ty: BYTES,
            handle: 1,
            address: 0,
            count: read,
        },
    )?;
    push(
        steps,
        Step::Dump {
            guest: 1,
            address: 0,
            len: count,
        },
    )
}

// The reads of a piece of so many bytes that was written, with what they read.
fn push_reads(steps: &mut Steps, len: u32, read: u32) -> Result<(), MuxError>
    requires { 0 < read }
    ensures ok { OnOk result (steps.new ≡ steps.old ++ reads_of len read len) }
    ensures err { IfErr result (λ error. error ≡ MuxError.OutOfMemory) }
{
    let mut left = len;
    'reads: while left > 0 {
        let count = read.min(left);
        push_read(steps, read, count)?;
        left -= count;
    }
    Ok(())
}

// One piece: it is written, read, and its writer is told.
fn push_piece(steps: &mut Steps, piece: &[u8], read: u32) -> Result<(), MuxError>
    requires piece { length piece.now ≤ 64 }
    requires read { 0 < read }
    ensures ok { OnOk result (steps.new ≡ steps.old ++ piece_of read piece.now) }
    ensures err { IfErr result (λ error. error ≡ MuxError.OutOfMemory) }
{
    let Some(bytes) = Chunk::new(piece) else {
        unreachable!()
    };
    let count = piece.len() as u32;
    push(
        steps,
        Step::Poke {
            guest: 0,
            address: 0,
            bytes,
        },
    )?;
    push(
        steps,
        Step::Write {
            guest: 0,
            ty: BYTES,
            handle: 1,
            address: 0,
            count,
        },
    )?;
    push_reads(steps, count, read)?;
    push(
        steps,
        Step::Event {
            guest: 0,
            handle: 1,
        },
    )
}

// Two guests and a stream from the first to the second.
fn push_guests(steps: &mut Steps) -> Result<(), MuxError>
    ensures ok { OnOk result (steps.new ≡ steps.old
        ++ step_of.Guest 64 ∷ step_of.Guest 64 ∷ step_of.Between 0 1 carried_type ∷ []) }
    ensures err { IfErr result (λ error. error ≡ MuxError.OutOfMemory) }
{
    push(steps, Step::Guest { size: SIZE })?;
    push(steps, Step::Guest { size: SIZE })?;
    push(
        steps,
        Step::Between {
            writer: 0,
            reader: 1,
            ty: BYTES,
        },
    )
}

// All steps: the bytes are written in pieces of so many, and read in such.
pub(crate) fn script(alloc: Global, bytes: &[u8], write: u32, read: u32) -> Result<Steps, MuxError>
    requires write { (0 < write) × (write ≤ 64) }
    requires read { 0 < read }
    ensures ok { IfOk result (λ steps. steps ≡ script_of write read bytes.now) }
    ensures err { IfErr result (λ error. error ≡ MuxError.OutOfMemory) }
{
    let mut steps = Steps::new(alloc);
    push_guests(&mut steps)?;
    let mut rest = bytes;
    'pieces: while !rest.is_empty() {
        let (piece, more) = rest.split_at(rest.len().min(write as usize));
        push_piece(&mut steps, piece, read)?;
        rest = more;
    }
    Ok(steps)
}
