//! Which version of the tape's grammar is the least that can say a tape.
//!
//! Source: ours. The first version knows neither floats nor types that hold others.

ghost use Rattle.std.specs.Prelude.{◌≡◌, nat_lt};
ghost use Rattle.std.specs.List.{list_all};
ghost use Rattle.strm_codes.specs.Sameness.{scalar_number};
ghost use Rattle.strm_codes.specs.Types.{payload_of};
ghost use Rattle.strm_lines.specs.Grammar.{line_of};
ghost use Rattle.strm_tape.specs.Spelling.{is_first, is_first_payload, is_first_argument};

use crate::tape::{ReaderTape, Tape, WriterTape};
use strm_codes::codes::TransmitIndex;
use strm_codes::payloads::Payload;
use strm_codes::scalars::Scalar;
use strm_machine::steps::Step;

// Whether this is a scalar of the first version.
fn is_first_scalar(scalar: &Scalar) -> bool
    ensures { result ≡ nat_lt (scalar_number scalar.now) 10 }
{
    match scalar {
        Scalar::F32 | Scalar::F64 => false,
        _ => true,
    }
}

// Whether these are scalars of the first version.
fn are_first_scalars(scalars: &[Scalar]) -> bool
    ensures { result ≡ list_all (λ s. nat_lt (scalar_number s) 10) scalars.now }
{
    for k in 0..scalars.len() {
        if !is_first_scalar(&scalars[k]) {
            return false;
        }
    }
    true
}

// Whether this is a payload of the first version.
fn is_first_payload(payload: &Payload) -> bool
    ensures { result ≡ is_first_payload payload.now }
{
    match payload {
        Payload::Nothing => true,
        Payload::One(scalar) => is_first_scalar(scalar),
        Payload::Tuple(shape) => are_first_scalars(shape.as_slice()),
        Payload::Compound(_) => false,
    }
}

// Whether this is a type of the first version.
fn is_first_type(ty: &TransmitIndex) -> bool
    ensures { result ≡ is_first_payload (payload_of ty.now) }
{
    match ty {
        TransmitIndex::Stream(payload) | TransmitIndex::Future(payload) => is_first_payload(
            payload,
        ),
    }
}

// Whether the first version can say a step.
fn is_first_step(step: &Step) -> bool
    ensures { result ≡ list_all is_first_argument (line_of step.now).arguments }
{
    has_first_type(*step)
}

// The same.
#[tactic(auto, using(crate::proofs::VersionLemmas::and_true))]
fn has_first_type(step: Step) -> bool
    ensures { result ≡ list_all is_first_argument (line_of step).arguments }
{
    match &step {
        Step::New { ty, .. }
        | Step::Between { ty, .. }
        | Step::Write { ty, .. }
        | Step::Read { ty, .. }
        | Step::DropWrite { ty, .. }
        | Step::DropRead { ty, .. }
        | Step::CancelWrite { ty, .. }
        | Step::CancelRead { ty, .. }
        | Step::Move { ty, .. }
        | Step::Lift { ty, .. }
        | Step::Lower { ty, .. } => is_first_type(ty),
        _ => true,
    }
}

// Whether it can say these steps.
fn are_first_steps(steps: &[Step]) -> bool
    ensures { result
        ≡ list_all (λ step. list_all is_first_argument (line_of step).arguments) steps.now }
{
    for k in 0..steps.len() {
        if !is_first_step(&steps[k]) {
            return false;
        }
    }
    true
}

// Whether it can say a host writer.
fn is_first_writer(writer: &WriterTape) -> bool
    ensures { result ≡ is_first_payload (payload_of writer.now.ty) }
{
    is_first_type(&writer.ty)
}

// Whether it can say these host writers.
fn are_first_writers(writers: &[WriterTape]) -> bool
    ensures { result
        ≡ list_all (λ writer. is_first_payload (payload_of writer.ty)) writers.now }
{
    for k in 0..writers.len() {
        if !is_first_writer(&writers[k]) {
            return false;
        }
    }
    true
}

// Whether it can say a host reader.
fn is_first_reader(reader: &ReaderTape) -> bool
    ensures { result ≡ is_first_payload (payload_of reader.now.ty) }
{
    is_first_type(&reader.ty)
}

// Whether it can say these host readers.
fn are_first_readers(readers: &[ReaderTape]) -> bool
    ensures { result
        ≡ list_all (λ reader. is_first_payload (payload_of reader.ty)) readers.now }
{
    for k in 0..readers.len() {
        if !is_first_reader(&readers[k]) {
            return false;
        }
    }
    true
}

/// Whether the first version can say a tape.
pub(crate) fn is_first(tape: &Tape) -> bool
    ensures { result ≡ is_first tape.now }
{
    are_first_steps(&tape.steps)
        && are_first_writers(&tape.writers)
        && are_first_readers(&tape.readers)
}
