//! `tape_run` and `replay` where what they require is seen before the call.

ghost use Rattle.std.specs.Prelude.{◌≡◌, ◌<◌, ◌↔◌, map, length, IsTrue};
ghost use Rattle.strm_buffers.specs.Tells.{told_by, told_by_reader};
ghost use Rattle.strm_machine.specs.Soundness.{type_with};
ghost use Rattle.strm_tape_runs.specs.Taking.{writer_type, reader_type, NoneHolds, HoldsNone};
ghost use Rattle.strm_tape_runs.specs.Playing.{AreEndsOf};

use std::alloc::Global;
use strm_codes::codes::{TransmitIndex, TransmitKind};
use strm_codes::payloads::Payload;
use strm_input_output::in_memory::{BytesSink, BytesSource};
use strm_lines::parsing::parse;
use strm_session::runs::{RunStop, Transcript};
use strm_tape::errors::TapeError;
use strm_tape::tape::{ReaderTape, Tape, WriterTape};
use strm_tape_program::playing::tape_play;
use strm_tape_program::taking::tape_take;
use strm_tape_runs::recorded::RecordedEnds;
use strm_tape_runs::replays::replay;
use strm_tape_runs::runs::{Taped, tape_run};
use strm_transmit::host_ends::HostEnds;

// The type that a tape has of a host writer.
fn taped_type(writer: &WriterTape) -> TransmitIndex
    ensures { result ≡ writer.now.ty }
{
    writer.ty()
}

// The type that a tape has of a host reader.
fn taped_reader_type(reader: &ReaderTape) -> TransmitIndex
    ensures { result ≡ reader.now.ty }
{
    reader.ty
}

// The type of this kind and payload.
fn typed(kind: TransmitKind, payload: Payload) -> TransmitIndex
    ensures { result ≡ type_with kind payload }
{
    match kind {
        TransmitKind::Stream => TransmitIndex::Stream(payload),
        TransmitKind::Future => TransmitIndex::Future(payload),
    }
}

// The type of a host writer.
fn type_of_writer<H: HostEnds>(hosts: &H, n: usize) -> TransmitIndex
    requires { n < length (H.tells hosts.now).writers }
    ensures { result ≡ writer_type (told_by (H.tells hosts.now) n) }
{
    typed(hosts.writer_kind(n), hosts.writer_payload(n))
}

// The type of a host reader.
fn type_of_reader<H: HostEnds>(hosts: &H, r: usize) -> TransmitIndex
    requires { r < length (H.tells hosts.now).readers }
    ensures { result ≡ reader_type (told_by_reader (H.tells hosts.now) r) }
{
    typed(hosts.reader_kind(r), hosts.reader_payload(r))
}

// Whether two payloads are the same.
fn same_payload(a: Payload, b: Payload) -> bool
    ensures { IsTrue result ↔ a ≡ b }
{
    a == b
}

// Whether two types are the same.
fn same_type(a: &TransmitIndex, b: &TransmitIndex) -> bool
    ensures { IsTrue result → a.now ≡ b.now }
{
    match a {
        TransmitIndex::Stream(payload) => match b {
            TransmitIndex::Stream(other) => same_payload(*payload, *other),
            TransmitIndex::Future(_) => false,
        },
        TransmitIndex::Future(payload) => match b {
            TransmitIndex::Stream(_) => false,
            TransmitIndex::Future(other) => same_payload(*payload, *other),
        },
    }
}

// Whether a host writer is of this type and holds nothing.
fn writer_fits<H: HostEnds>(hosts: &H, n: usize, ty: &TransmitIndex) -> bool
    requires { n < length (H.tells hosts.now).writers }
    ensures types { IsTrue result → writer_type (told_by (H.tells hosts.now) n) ≡ ty.now }
    ensures held { IsTrue result → HoldsNone (told_by (H.tells hosts.now) n) }
{
    same_type(&type_of_writer(hosts, n), ty) && hosts.writer_held(n) == 0
}

// Whether a host reader is of this type.
fn reader_fits<H: HostEnds>(hosts: &H, r: usize, ty: &TransmitIndex) -> bool
    requires { r < length (H.tells hosts.now).readers }
    ensures { IsTrue result → reader_type (told_by_reader (H.tells hosts.now) r) ≡ ty.now }
{
    same_type(&type_of_reader(hosts, r), ty)
}

// Whether the host writers are of a tape's types and hold nothing.
fn writers_fit<H: HostEnds>(hosts: &H, tape: &Tape) -> bool
    ensures types { IsTrue result → map writer_type (H.tells hosts.now).writers
        ≡ map (λ w. w.ty) tape.now.writers }
    ensures held { IsTrue result → NoneHolds (H.tells hosts.now) }
{
    if hosts.count_writers() != tape.writers() as usize {
        return false;
    }
    for n in 0..tape.writers() {
        let ty = taped_type(tape.writer(n));
        if !writer_fits(hosts, n as usize, &ty) {
            return false;
        }
    }
    true
}

// Whether the host readers are of a tape's types.
fn readers_fit<H: HostEnds>(hosts: &H, tape: &Tape) -> bool
    ensures { IsTrue result → map reader_type (H.tells hosts.now).readers
        ≡ map (λ r. r.ty) tape.now.readers }
{
    if hosts.count_readers() != tape.readers() as usize {
        return false;
    }
    for r in 0..tape.readers() {
        let ty = taped_reader_type(tape.reader(r));
        if !reader_fits(hosts, r as usize, &ty) {
            return false;
        }
    }
    true
}

// Whether these are host ends of a tape's types, of which none holds items.
fn are_ends_of<H: HostEnds>(hosts: &H, tape: &Tape) -> bool
    ensures { IsTrue result → AreEndsOf tape.now (H.tells hosts.now) }
{
    writers_fit(hosts, tape) && readers_fit(hosts, tape)
}

/// What `tape_run` answers to these lines among at most 64 host ends of each sort; `NotATape` to others.
pub(crate) fn taken<H: RecordedEnds>(
    alloc: Global,
    lines: &str,
    hosts: &mut H,
) -> Result<Taped, TapeError> {
    let Ok(steps) = parse(alloc, lines.as_bytes()) else {
        return Err(TapeError::NotATape);
    };
    let few = hosts.count_writers() <= 64 && hosts.count_readers() <= 64;
    if !few || steps.as_slice().len() > 1000 {
        return Err(TapeError::NotATape);
    }
    tape_run(alloc, steps.as_slice(), hosts)
}

/// What `replay` answers among host ends of the tape; `NotATape` among others.
pub(crate) fn played<H: RecordedEnds>(
    alloc: Global,
    tape: &Tape,
    hosts: &mut H,
) -> Result<Result<Transcript, RunStop>, TapeError> {
    if !are_ends_of(hosts, tape) {
        return Err(TapeError::NotATape);
    }
    replay(alloc, tape, hosts)
}

/// Whether the lines of a source, run among host ends of the types that this tape has, are taken on a tape that
/// has these bytes.
pub(crate) fn is_taken_to<H: RecordedEnds>(
    alloc: Global,
    types: &Tape,
    source: &mut BytesSource,
    hosts: &mut H,
    wanted: &[u8],
) -> bool {
    if !are_ends_of(hosts, types) {
        return false;
    }
    types.sound();
    let mut sink = BytesSink::new(alloc, 65_536, Vec::new(alloc));
    let status = tape_take(alloc, source, &mut sink, hosts);
    status == 0 && sink.taken() == wanted
}

/// Whether a tape is played to its end among host ends of its types, and these bytes are written.
pub(crate) fn is_played_to<H: RecordedEnds>(
    alloc: Global,
    tape: &Tape,
    hosts: &mut H,
    wanted: &[u8],
) -> bool {
    if !are_ends_of(hosts, tape) {
        return false;
    }
    let mut sink = BytesSink::new(alloc, 65_536, Vec::new(alloc));
    let status = tape_play(alloc, tape, hosts, &mut sink);
    status == 0 && sink.taken() == wanted
}
