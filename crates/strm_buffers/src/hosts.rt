//! The host ends of a store. Ours.

ghost use Rattle.std.specs.Prelude.{◌≡◌, ◌<◌, All, length, OnOk, OnErr};
ghost use Rattle.strm_buffers.specs.AllTells.{boxes_tell};
ghost use Rattle.strm_buffers.specs.Tells.{HoldsItems, told_by, with_told, ClosesWriter, writer_fed, told_by_reader, with_told_reader, reader_tells_closed, reader_granted};

use crate::boxes;
use crate::readers::HostReader;
use crate::writers::HostWriter;
use strm_codes::codes::TransmitKind;
use strm_codes::counts::OutOfMemory;
use strm_codes::payloads::Payload;

/// Host writers and host readers, each named by its place.
#[derive(Drop)]
pub struct Hosts {
    pub writers: Vec<Box<dyn HostWriter>>,
    pub readers: Vec<Box<dyn HostReader>>,
}

/// The calls of the host writer at a place.
#[tactic(auto, using(crate::proofs::BoxLemmas::boxes))]
impl Hosts {
    /// How many host writers there are.
    pub fn count_writers(&self) -> usize
        ensures { result ≡ length (boxes_tell writer_tells reader_tells self.now).writers }
    {
        self.writers.len()
    }

    /// `HostWriter::kind`.
    pub fn writer_kind(&self, n: usize) -> TransmitKind
        requires { n < length (boxes_tell writer_tells reader_tells self.now).writers }
        ensures { result ≡ (told_by (boxes_tell writer_tells reader_tells self.now) n).kind }
    {
        boxes::writer_kind(&self.writers[n])
    }

    /// `HostWriter::payload`.
    pub fn writer_payload(&self, n: usize) -> Payload
        requires { n < length (boxes_tell writer_tells reader_tells self.now).writers }
        ensures { result ≡ (told_by (boxes_tell writer_tells reader_tells self.now) n).payload }
    {
        boxes::writer_payload(&self.writers[n])
    }

    /// `HostWriter::held`.
    pub fn writer_held(&self, n: usize) -> usize
        requires { n < length (boxes_tell writer_tells reader_tells self.now).writers }
        ensures { result
            ≡ length (told_by (boxes_tell writer_tells reader_tells self.now) n).holds }
    {
        boxes::held_by(&self.writers[n])
    }

    /// What each host writer holds are items of its payload: what a caller may have to know of boxes that
    /// it was given. It asks each how many it holds, and changes nothing.
    pub fn sound(&self)
        ensures { All HoldsItems (boxes_tell writer_tells reader_tells self.now).writers }
    {
        for n in 0..self.count_writers() {
            let _ = boxes::held_by(&self.writers[n]);
        }
    }

    /// `HostWriter::feed`.
    #[tactic(auto, using(crate::proofs::BoxLemmas::same_boxes))]
    pub fn feed(&mut self, n: usize, bytes: &[u8]) -> Result<(), OutOfMemory>
        requires { n < length (boxes_tell writer_tells reader_tells self.old).writers }
        ensures ok { OnOk result (boxes_tell writer_tells reader_tells self.new
            ≡ with_told (boxes_tell writer_tells reader_tells self.old) n
            (writer_fed (told_by (boxes_tell writer_tells reader_tells self.old) n) bytes.now)) }
        ensures err { OnErr result (boxes_tell writer_tells reader_tells self.new
            ≡ boxes_tell writer_tells reader_tells self.old) }
    {
        boxes::feed(&mut self.writers[n], bytes)
    }

    /// `HostWriter::close`.
    pub fn close_writer(&mut self, n: usize)
        requires { n < length (boxes_tell writer_tells reader_tells self.old).writers }
        ensures closes { ClosesWriter (told_by (boxes_tell writer_tells reader_tells self.old) n)
            (told_by (boxes_tell writer_tells reader_tells self.new) n) }
        ensures others { boxes_tell writer_tells reader_tells self.new
            ≡ with_told (boxes_tell writer_tells reader_tells self.old) n
            (told_by (boxes_tell writer_tells reader_tells self.new) n) }
    {
        boxes::close_writer(&mut self.writers[n])
    }
}

/// The calls of the host reader at a place.
#[tactic(auto, using(crate::proofs::BoxLemmas::boxes))]
impl Hosts {
    /// How many host readers there are.
    pub fn count_readers(&self) -> usize
        ensures { result ≡ length (boxes_tell writer_tells reader_tells self.now).readers }
    {
        self.readers.len()
    }

    /// `HostReader::kind`.
    pub fn reader_kind(&self, r: usize) -> TransmitKind
        requires { r < length (boxes_tell writer_tells reader_tells self.now).readers }
        ensures { result ≡ (told_by_reader (boxes_tell writer_tells reader_tells self.now) r).kind }
    {
        boxes::reader_kind(&self.readers[r])
    }

    /// `HostReader::payload`.
    pub fn reader_payload(&self, r: usize) -> Payload
        requires { r < length (boxes_tell writer_tells reader_tells self.now).readers }
        ensures { result
            ≡ (told_by_reader (boxes_tell writer_tells reader_tells self.now) r).payload }
    {
        boxes::reader_payload(&self.readers[r])
    }

    /// `HostReader::grant`.
    #[tactic(auto, using(crate::proofs::BoxLemmas::same_boxes))]
    pub fn grant(&mut self, r: usize, count: u32) -> Result<(), OutOfMemory>
        requires { r < length (boxes_tell writer_tells reader_tells self.old).readers }
        ensures ok { OnOk result (boxes_tell writer_tells reader_tells self.new
            ≡ with_told_reader (boxes_tell writer_tells reader_tells self.old) r
            (reader_granted (told_by_reader (boxes_tell writer_tells reader_tells self.old) r)
            count)) }
        ensures err { OnErr result (boxes_tell writer_tells reader_tells self.new
            ≡ boxes_tell writer_tells reader_tells self.old) }
    {
        boxes::grant(&mut self.readers[r], count)
    }

    /// `HostReader::close`.
    pub fn close_reader(&mut self, r: usize)
        requires { r < length (boxes_tell writer_tells reader_tells self.old).readers }
        ensures { boxes_tell writer_tells reader_tells self.new
            ≡ with_told_reader (boxes_tell writer_tells reader_tells self.old) r
            (reader_tells_closed
            (told_by_reader (boxes_tell writer_tells reader_tells self.old) r)) }
    {
        boxes::close_reader(&mut self.readers[r])
    }
}
