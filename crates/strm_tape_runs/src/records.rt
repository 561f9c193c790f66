//! The records of host ends, looked at one by one.

ghost use Rattle.std.specs.Prelude.{◌≡◌, ◌↔◌, ◌<◌, length, slice_get, Some, IsTrue, IfOk};

use std::alloc::Global;
use strm_buffers::answers::ReaderSaid;
use strm_buffers::readers::HostReader;
use strm_buffers::said::WriterSaid;
use strm_buffers::writers::HostWriter;
use strm_codes::counts::OutOfMemory;
use strm_codes::payloads::Payload;
use strm_tape::sameness::same_items;

/// `HostWriter::records`.
pub(crate) fn writer_records(writer: &Box<dyn HostWriter>) -> usize
    ensures { result ≡ length (writer_tells writer.now).said }
{
    writer.records()
}

/// `HostWriter::record_at`.
pub(crate) fn writer_record_at(
    writer: &Box<dyn HostWriter>,
    index: usize,
) -> Result<WriterSaid, OutOfMemory>
    requires { index < length (writer_tells writer.now).said }
    ensures exact { IfOk result (λ said.
        slice_get (writer_tells writer.now).said index ≡ Some said) }
    ensures payload { IfOk result (λ said. said.payload ≡ (writer_tells writer.now).payload) }
{
    writer.record_at(index)
}

/// `HostReader::records`.
pub(crate) fn reader_records(reader: &Box<dyn HostReader>) -> usize
    ensures { result ≡ length (reader_tells reader.now).said }
{
    reader.records()
}

/// `HostReader::record_at`.
pub(crate) fn reader_record_at(reader: &Box<dyn HostReader>, index: usize) -> ReaderSaid
    requires { index < length (reader_tells reader.now).said }
    ensures { slice_get (reader_tells reader.now).said index ≡ Some result }
{
    reader.record_at(index)
}

// Whether two payloads are the same.
fn same_payload(a: Payload, b: Payload) -> bool
    ensures { IsTrue result ↔ a ≡ b }
{
    a == b
}

// Whether two records of host writers are of the same poll, whatever the items are.
fn same_poll(a: &WriterSaid, b: &WriterSaid) -> bool
    ensures { IsTrue result
        ↔ ((a.now.room ≡ b.now.room) × (a.now.finish ≡ b.now.finish)
        × (a.now.answer ≡ b.now.answer)) }
{
    a.room == b.room && a.finish == b.finish && a.answer == b.answer
}

/// Whether two records of host writers are the same. After `OutOfMemory` nothing was kept.
pub fn same_writer_record(
    alloc: Global,
    a: &WriterSaid,
    b: &WriterSaid,
) -> Result<bool, OutOfMemory>
    ensures { IfOk result (λ same. IsTrue same ↔ a.now ≡ b.now) }
{
    if !same_poll(a, b) || !same_payload(a.items.payload(), b.items.payload()) {
        return Ok(false);
    }
    same_items(alloc, &a.items, &b.items)
}

/// Whether two records of host readers are the same.
pub fn same_reader_record(a: &ReaderSaid, b: &ReaderSaid) -> bool
    ensures { IsTrue result ↔ a.now ≡ b.now }
{
    *a == *b
}
