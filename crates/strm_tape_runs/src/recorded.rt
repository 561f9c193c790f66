//! Host ends whose records can be read.
//!
//! Ours. A tape has what host ends recorded, so those of a run that is taped, or compared with a tape, let their
//! records be read. Boxes (`Hosts`) do.

ghost use Rattle.std.specs.Prelude.{◌≡◌, ◌<◌, length, slice_get, Some, IfOk};
ghost use Rattle.strm_buffers.specs.Tells.{told_by, told_by_reader};

use crate::records::{reader_record_at, reader_records, writer_record_at, writer_records};
use strm_buffers::answers::ReaderSaid;
use strm_buffers::hosts::Hosts;
use strm_buffers::said::WriterSaid;
use strm_codes::counts::OutOfMemory;
use strm_transmit::host_ends::HostEnds;

/// Host ends that let their records be read, each end being named by its place.
pub trait RecordedEnds: HostEnds {
    /// How many records a host writer has.
    fn writer_records(&self, number: usize) -> usize
        requires { number < length (Self.tells self.now).writers }
        ensures { result ≡ length (told_by (Self.tells self.now) number).said };

    /// One of its records, from 0; its items are of the writer's payload. `OutOfMemory` keeps nothing.
    fn writer_record_at(&self, number: usize, index: usize) -> Result<WriterSaid, OutOfMemory>
        requires there { number < length (Self.tells self.now).writers }
        requires said { index < length (told_by (Self.tells self.now) number).said }
        ensures exact { IfOk result (λ said.
            slice_get (told_by (Self.tells self.now) number).said index ≡ Some said) }
        ensures payload { IfOk result (λ said.
            said.payload ≡ (told_by (Self.tells self.now) number).payload) };

    /// How many records a host reader has.
    fn reader_records(&self, number: usize) -> usize
        requires { number < length (Self.tells self.now).readers }
        ensures { result ≡ length (told_by_reader (Self.tells self.now) number).said };

    /// One of its records, from 0.
    fn reader_record_at(&self, number: usize, index: usize) -> ReaderSaid
        requires there { number < length (Self.tells self.now).readers }
        requires said { index < length (told_by_reader (Self.tells self.now) number).said }
        ensures { slice_get (told_by_reader (Self.tells self.now) number).said index
            ≡ Some result };
}

#[tactic(auto, using(strm_buffers::proofs::BoxLemmas::boxes))]
impl RecordedEnds for Hosts {
    fn writer_records(&self, number: usize) -> usize {
        writer_records(&self.writers[number])
    }

    fn writer_record_at(&self, number: usize, index: usize) -> Result<WriterSaid, OutOfMemory> {
        writer_record_at(&self.writers[number], index)
    }

    fn reader_records(&self, number: usize) -> usize {
        reader_records(&self.readers[number])
    }

    fn reader_record_at(&self, number: usize, index: usize) -> ReaderSaid {
        reader_record_at(&self.readers[number], index)
    }
}
