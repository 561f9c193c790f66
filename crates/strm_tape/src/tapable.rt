//! Which steps have a place on a tape.
//!
//! Source: ours.

ghost use Rattle.std.specs.Prelude.{◌≡◌, ◌↔◌, IsTrue, All};
ghost use Rattle.strm_lines.specs.Grammar.{HasLine, IsPayload, IsType, IsCount, IsLineBytes, AreFed};

use strm_codes::codes::TransmitIndex;
use strm_codes::payloads::Payload;
use strm_machine::chunks::Chunk;
use strm_machine::steps::Step;

// A payload can be spelled. It does nothing.
fn sound_payload(payload: &Payload)
    ensures { IsPayload payload.now }
{
    match payload {
        Payload::Tuple(shape) => {
            let _ = shape.len();
        }
        Payload::Compound(compound) => {
            let _ = compound.as_slice();
        }
        Payload::Nothing | Payload::One(_) => {}
    }
}

/// A type can be spelled. It does nothing.
pub fn sound_type(ty: &TransmitIndex)
    ensures { IsType ty.now }
{
    match ty {
        TransmitIndex::Stream(payload) | TransmitIndex::Future(payload) => sound_payload(payload),
    }
}

// Whether a read or write of this type has a count that can be spelled.
fn is_count(ty: &TransmitIndex, count: u32) -> bool
    ensures { IsTrue result ↔ IsCount ty.now count }
{
    match ty {
        TransmitIndex::Stream(_) => true,
        TransmitIndex::Future(_) => count == 1,
    }
}

// Whether these bytes can be poked.
fn are_line_bytes(bytes: &Chunk) -> bool
    ensures { IsTrue result ↔ IsLineBytes bytes.now }
{
    bytes.sound();
    !bytes.as_slice().is_empty()
}

// Any such bytes can be fed. It does nothing.
fn are_fed(bytes: &Chunk)
    ensures { AreFed bytes.now }
{
    bytes.sound();
    let _bytes = bytes.as_slice();
}

/// Whether a step has a place on a tape: those do that have a line.
pub fn is_tapable(step: &Step) -> bool
    ensures { IsTrue result ↔ HasLine step.now }
{
    has_line(*step)
}

// The same.
fn has_line(step: Step) -> bool
    ensures { IsTrue result ↔ HasLine step }
{
    match &step {
        Step::Write { ty, count, .. } | Step::Read { ty, count, .. } => {
            sound_type(ty);
            is_count(ty, *count)
        }
        Step::New { ty, .. }
        | Step::Between { ty, .. }
        | Step::CancelWrite { ty, .. }
        | Step::CancelRead { ty, .. }
        | Step::DropWrite { ty, .. }
        | Step::DropRead { ty, .. }
        | Step::Move { ty, .. }
        | Step::Lift { ty, .. }
        | Step::Lower { ty, .. } => {
            sound_type(ty);
            true
        }
        Step::Feed { bytes, .. } => {
            are_fed(bytes);
            true
        }
        Step::Poke { bytes, .. } => are_line_bytes(bytes),
        Step::Dump { len, .. } => 1 <= *len && *len <= 64,
        _ => true,
    }
}

/// Whether each of these steps has a place on a tape.
pub fn are_tapable(steps: &[Step]) -> bool
    ensures { IsTrue result ↔ All HasLine steps.now }
{
    for k in 0..steps.len() {
        if !is_tapable(&steps[k]) {
            return false;
        }
    }
    true
}
