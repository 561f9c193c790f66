//! Host ends, however they are kept.
//!
//! Ours. A call of the store takes any type that is `HostEnds`, and its clauses say `H.tells hosts.old`.
//! Boxes (`Hosts`) are one such type.

ghost use Rattle.std.specs.Prelude.{◌≡◌, ◌<◌, [], true, All, length, Some, OnOk, OnErr};
ghost use Rattle.strm_buffers.specs.Tells.{Tells, HoldsItems, told_by, ClosesWriter, told_by_reader};
ghost use Rattle.strm_machine.specs.Soundness.{sizes_of, AreSmall, IsPlaced};
ghost use Rattle.strm_channels.specs.Guests.{guests_of};
ghost use Rattle.strm_host_turns.specs.WriterTurns.{writer_scene, IsWriterTurn};
ghost use Rattle.strm_host_turns.specs.ReaderTurns.{reader_scene, IsReaderTurn};
ghost use Rattle.strm_host_turns.specs.Piping.{fetching, Fetches, offering, Offers};
ghost use Rattle.strm_transmit.specs.HostEnds.{OnlyWriter, OnlyReader, OnlyPipe, fed_at, granted_at, closed_at};

use std::alloc::Global;
use strm_buffers::answers::Answer;
use strm_buffers::hosts::Hosts;
use strm_buffers::items::Items;
use strm_buffers::readers::HostReader;
use strm_buffers::writers::HostWriter;
use strm_channels::channels::Channel;
use strm_channels::guests::Guest;
use strm_codes::codes::TransmitKind;
use strm_codes::counts::OutOfMemory;
use strm_codes::payloads::Payload;
use strm_host_turns::pipes::{fetch, offer};
use strm_host_turns::reader_turns::{ReaderStops, reader_turn};
use strm_host_turns::writer_turns::{WriterStops, writer_turn};
use strm_machine::streams::{Consumer, Operation, Producer};

/// Host writers and host readers, each named by its place: what a store asks of them.
pub trait HostEnds {
    // What they tell of themselves.
    ghost tells: { Self → Tells };

    /// A host writer, as it is kept.
    type Writer;

    /// A host reader, as it is kept.
    type Reader;

    /// How many host writers there are.
    fn count_writers(&self) -> usize
        ensures { result ≡ length (tells self.now).writers };

    /// The kind of stream that a host writer writes.
    fn writer_kind(&self, number: usize) -> TransmitKind
        requires { number < length (tells self.now).writers }
        ensures { result ≡ (told_by (tells self.now) number).kind };

    /// The payload of its items.
    fn writer_payload(&self, number: usize) -> Payload
        requires { number < length (tells self.now).writers }
        ensures { result ≡ (told_by (tells self.now) number).payload };

    /// How many items it holds.
    fn writer_held(&self, number: usize) -> usize
        requires { number < length (tells self.now).writers }
        ensures { result ≡ length (told_by (tells self.now) number).holds };

    /// Passes bytes from outside on to a host writer. `OutOfMemory` changes nothing.
    fn feed(&mut self, number: usize, bytes: &[u8]) -> Result<(), OutOfMemory>
        requires { number < length (tells self.old).writers }
        ensures ok { OnOk result (tells self.new ≡ fed_at (tells self.old) number bytes.now) }
        ensures err { OnErr result (tells self.new ≡ tells self.old) };

    /// The stream of a host writer is gone.
    fn close_writer(&mut self, number: usize)
        requires { number < length (tells self.old).writers }
        ensures closes { ClosesWriter (told_by (tells self.old) number)
            (told_by (tells self.new) number) }
        ensures others { OnlyWriter number (tells self.old) (tells self.new) };

    /// How many host readers there are.
    fn count_readers(&self) -> usize
        ensures { result ≡ length (tells self.now).readers };

    /// The kind of stream that a host reader reads.
    fn reader_kind(&self, number: usize) -> TransmitKind
        requires { number < length (tells self.now).readers }
        ensures { result ≡ (told_by_reader (tells self.now) number).kind };

    /// The payload of its items.
    fn reader_payload(&self, number: usize) -> Payload
        requires { number < length (tells self.now).readers }
        ensures { result ≡ (told_by_reader (tells self.now) number).payload };

    /// Lets a host reader take so many items more. `OutOfMemory` changes nothing.
    fn grant(&mut self, number: usize, count: u32) -> Result<(), OutOfMemory>
        requires { number < length (tells self.old).readers }
        ensures ok { OnOk result (tells self.new ≡ granted_at (tells self.old) number count) }
        ensures err { OnErr result (tells self.new ≡ tells self.old) };

    /// The stream of a host reader is gone.
    fn close_reader(&mut self, number: usize)
        requires { number < length (tells self.old).readers }
        ensures { tells self.new ≡ closed_at (tells self.old) number };

    /// The turn of a host writer for the open read on its stream: `writer_turn` of `strm_host_turns`.
    fn writer_turn_at(
        &mut self,
        alloc: Global,
        guests: &mut Vec<Guest>,
        stream: &mut Channel,
        producer: &mut Producer,
        number: usize,
        read: &Operation,
    ) -> Result<(), WriterStops>
        requires waiting { stream.old.reader.operation ≡ Some read.now }
        requires open { read.now.is_open ≡ true }
        requires placed { IsPlaced (sizes_of (guests_of guests.old.items)) stream.old.payload
            read.now }
        requires sizes { AreSmall (sizes_of (guests_of guests.old.items)) }
        requires there { number < length (tells self.old).writers }
        requires payload { (told_by (tells self.old) number).payload ≡ stream.old.payload }
        ensures turns { IsWriterTurn result
            (writer_scene (guests_of guests.old.items) stream.old producer.old
            (told_by (tells self.old) number))
            (writer_scene (guests_of guests.new.items) stream.new producer.new
            (told_by (tells self.new) number))
            read.now }
        ensures others { OnlyWriter number (tells self.old) (tells self.new) };

    /// The turn of a host reader for the open write on its stream: `reader_turn` of `strm_host_turns`.
    fn reader_turn_at(
        &mut self,
        alloc: Global,
        guests: &mut Vec<Guest>,
        stream: &mut Channel,
        consumer: &mut Consumer,
        number: usize,
        write: &Operation,
    ) -> Result<(), ReaderStops>
        requires waiting { stream.old.writer.operation ≡ Some write.now }
        requires open { write.now.is_open ≡ true }
        requires placed { IsPlaced (sizes_of (guests_of guests.old.items)) stream.old.payload
            write.now }
        requires sizes { AreSmall (sizes_of (guests_of guests.old.items)) }
        requires there { number < length (tells self.old).readers }
        requires payload { (told_by_reader (tells self.old) number).payload ≡ stream.old.payload }
        ensures takes { IsReaderTurn result
            (reader_scene (guests_of guests.old.items) stream.old consumer.old
            (told_by_reader (tells self.old) number))
            (reader_scene (guests_of guests.new.items) stream.new consumer.new
            (told_by_reader (tells self.new) number))
            write.now }
        ensures others { OnlyReader number (tells self.old) (tells self.new) };

    /// The poll of a host writer for a pipe: `fetch` of `strm_host_turns`.
    fn fetch_of(
        &mut self,
        alloc: Global,
        kind: TransmitKind,
        producer: &mut Producer,
        kept: &mut Items,
        number: usize,
    ) -> Result<(), WriterStops>
        requires there { number < length (tells self.old).writers }
        requires payload { (told_by (tells self.old) number).payload ≡ kept.old.payload }
        requires nothing_held { (told_by (tells self.old) number).holds ≡ [] }
        ensures fetches { Fetches result kind
            (fetching producer.old kept.old.items (told_by (tells self.old) number))
            (fetching producer.new kept.new.items (told_by (tells self.new) number)) }
        ensures payload { kept.new.payload ≡ kept.old.payload }
        ensures others { OnlyWriter number (tells self.old) (tells self.new) };

    /// The poll of a host reader with what is held on its pipe: `offer` of `strm_host_turns`.
    fn offer_of(
        &mut self,
        alloc: Global,
        stream: &mut Channel,
        consumer: &mut Consumer,
        kept: &mut Items,
        writer: usize,
        reader: usize,
    ) -> Result<Answer, ReaderStops>
        requires writer_there { writer < length (tells self.old).writers }
        requires reader_there { reader < length (tells self.old).readers }
        requires writer { (told_by (tells self.old) writer).payload ≡ kept.old.payload }
        requires reader { (told_by_reader (tells self.old) reader).payload ≡ kept.old.payload }
        ensures offers { Offers result
            (offering stream.old consumer.old kept.old.items
            (told_by (tells self.old) writer) (told_by_reader (tells self.old) reader))
            (offering stream.new consumer.new kept.new.items
            (told_by (tells self.new) writer) (told_by_reader (tells self.new) reader)) }
        ensures payload { kept.new.payload ≡ kept.old.payload }
        ensures others { OnlyPipe writer reader (tells self.old) (tells self.new) };

    /// What each host writer holds are items of its payload. It changes nothing.
    fn sound(&self)
        ensures { All HoldsItems (tells self.now).writers };
}

#[tactic(auto, using(strm_buffers::proofs::BoxLemmas::boxes))]
impl HostEnds for Hosts {
    ghost use Rattle.strm_buffers.specs.AllTells.{boxes_tell};

    type Writer = Box<dyn HostWriter>;

    type Reader = Box<dyn HostReader>;

    ghost tells = { λ hosts. boxes_tell
        (λ b. (HostWriter-box b).writer_tells b.value)
        (λ b. (HostReader-box b).reader_tells b.value) hosts };

    fn count_writers(&self) -> usize {
        self.writers.len()
    }

    fn writer_kind(&self, number: usize) -> TransmitKind {
        Hosts::writer_kind(self, number)
    }

    fn writer_payload(&self, number: usize) -> Payload {
        Hosts::writer_payload(self, number)
    }

    fn writer_held(&self, number: usize) -> usize {
        Hosts::writer_held(self, number)
    }

    fn feed(&mut self, number: usize, bytes: &[u8]) -> Result<(), OutOfMemory> {
        Hosts::feed(self, number, bytes)
    }

    fn close_writer(&mut self, number: usize) {
        Hosts::close_writer(self, number);
    }

    fn count_readers(&self) -> usize {
        self.readers.len()
    }

    fn reader_kind(&self, number: usize) -> TransmitKind {
        Hosts::reader_kind(self, number)
    }

    fn reader_payload(&self, number: usize) -> Payload {
        Hosts::reader_payload(self, number)
    }

    fn grant(&mut self, number: usize, count: u32) -> Result<(), OutOfMemory> {
        Hosts::grant(self, number, count)
    }

    fn close_reader(&mut self, number: usize) {
        Hosts::close_reader(self, number);
    }

    #[inline(always)]
    fn writer_turn_at(
        &mut self,
        alloc: Global,
        guests: &mut Vec<Guest>,
        stream: &mut Channel,
        producer: &mut Producer,
        number: usize,
        read: &Operation,
    ) -> Result<(), WriterStops> {
        let writer = &mut self.writers[number];
        writer_turn(alloc, guests, stream, producer, writer, read)
    }

    #[inline(always)]
    fn reader_turn_at(
        &mut self,
        alloc: Global,
        guests: &mut Vec<Guest>,
        stream: &mut Channel,
        consumer: &mut Consumer,
        number: usize,
        write: &Operation,
    ) -> Result<(), ReaderStops> {
        let reader = &mut self.readers[number];
        reader_turn(alloc, guests, stream, consumer, reader, write)
    }

    fn fetch_of(
        &mut self,
        alloc: Global,
        kind: TransmitKind,
        producer: &mut Producer,
        kept: &mut Items,
        number: usize,
    ) -> Result<(), WriterStops> {
        fetch(alloc, kind, producer, kept, &mut self.writers[number])
    }

    fn offer_of(
        &mut self,
        alloc: Global,
        stream: &mut Channel,
        consumer: &mut Consumer,
        kept: &mut Items,
        writer: usize,
        reader: usize,
    ) -> Result<Answer, ReaderStops> {
        let (from, to) = (&mut self.writers[writer], &mut self.readers[reader]);
        offer(alloc, stream, consumer, kept, from, to)
    }

    fn sound(&self) {
        Hosts::sound(self);
    }
}
