//! What host ends are before a run: their types, and how many records they have.

ghost use Rattle.std.specs.Prelude.{◌≡◌, ◌<◌, ◌∷◌, ◌++◌, [], length, map, None, IfSome, IfOk, OnOk};
ghost use Rattle.strm_buffers.specs.Tells.{told_by, told_by_reader};
ghost use Rattle.strm_machine.specs.Soundness.{type_with};
ghost use Rattle.strm_session.specs.Runs.{HaveRoom};
ghost use Rattle.strm_tape_runs.specs.Taking.{NoneHolds, IsFirstHolding};
ghost use Rattle.strm_tape_runs.specs.Marks.{mark_of, reader_mark_of};

use crate::recorded::RecordedEnds;
use std::alloc::Global;
use strm_codes::codes::{TransmitIndex, TransmitKind};
use strm_codes::counts::OutOfMemory;
use strm_codes::payloads::Payload;
use strm_transmit::host_ends::HostEnds;

/// A host end's type, and how many records it has.
#[derive(Clone, Copy)]
pub(crate) struct Mark {
    pub(crate) ty: TransmitIndex,
    pub(crate) records: usize,
}

/// What all host ends of a run are.
#[derive(Drop)]
pub(crate) struct Marks {
    pub(crate) writers: Vec<Mark>,
    pub(crate) readers: Vec<Mark>,
}

// The type of this kind and payload.
fn type_of(kind: TransmitKind, payload: Payload) -> TransmitIndex
    ensures { result ≡ type_with kind payload }
{
    match kind {
        TransmitKind::Stream => TransmitIndex::Stream(payload),
        TransmitKind::Future => TransmitIndex::Future(payload),
    }
}

// What a host writer is.
fn writer_mark<H: RecordedEnds>(hosts: &H, n: usize) -> Mark
    requires { n < length (H.tells hosts.now).writers }
    ensures { result ≡ mark_of (told_by (H.tells hosts.now) n) }
{
    Mark {
        ty: type_of(hosts.writer_kind(n), hosts.writer_payload(n)),
        records: hosts.writer_records(n),
    }
}

// What a host reader is.
fn reader_mark<H: RecordedEnds>(hosts: &H, r: usize) -> Mark
    requires { r < length (H.tells hosts.now).readers }
    ensures { result ≡ reader_mark_of (told_by_reader (H.tells hosts.now) r) }
{
    Mark {
        ty: type_of(hosts.reader_kind(r), hosts.reader_payload(r)),
        records: hosts.reader_records(r),
    }
}

// Adds an item at the end.
fn push_item<T: Copy>(items: &mut Vec<T>, item: T) -> Result<(), OutOfMemory>
    ensures { OnOk result (items.new.items ≡ items.old.items ++ item ∷ []) }
{
    items.push(item)?;
    Ok(())
}

// What host writers are.
fn writer_marks<H: RecordedEnds>(alloc: Global, hosts: &H) -> Result<Vec<Mark>, OutOfMemory>
    ensures { IfOk result (λ marks. marks.items ≡ map mark_of (H.tells hosts.now).writers) }
{
    let mut marks = Vec::new(alloc);
    for n in 0..hosts.count_writers() {
        push_item(&mut marks, writer_mark(hosts, n))?;
    }
    Ok(marks)
}

// What host readers are.
fn reader_marks<H: RecordedEnds>(alloc: Global, hosts: &H) -> Result<Vec<Mark>, OutOfMemory>
    ensures { IfOk result (λ marks. marks.items ≡ map reader_mark_of (H.tells hosts.now).readers) }
{
    let mut marks = Vec::new(alloc);
    for r in 0..hosts.count_readers() {
        push_item(&mut marks, reader_mark(hosts, r))?;
    }
    Ok(marks)
}

impl Marks {
    /// What all host ends are.
    pub(crate) fn of<H: RecordedEnds>(alloc: Global, hosts: &H) -> Result<Marks, OutOfMemory>
        ensures writers { IfOk result (λ marks.
            marks.writers.items ≡ map mark_of (H.tells hosts.now).writers) }
        ensures readers { IfOk result (λ marks.
            marks.readers.items ≡ map reader_mark_of (H.tells hosts.now).readers) }
    {
        let writers = writer_marks(alloc, hosts)?;
        let readers = reader_marks(alloc, hosts)?;
        Ok(Marks { writers, readers })
    }
}

/// The first host writer that holds items; none where none does.
pub(crate) fn first_holding<H: HostEnds>(hosts: &H) -> Option<u32>
    requires room { HaveRoom (H.tells hosts.now) }
    ensures none { result ≡ None → NoneHolds (H.tells hosts.now) }
    ensures first { IfSome result (λ n. IsFirstHolding n (H.tells hosts.now)) }
{
    for n in 0..hosts.count_writers() {
        if hosts.writer_held(n) > 0 {
            return Some(n as u32);
        }
    }
    None
}
