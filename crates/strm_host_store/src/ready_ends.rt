//! Lists of ready host ends, as what a store asks of host ends.
//!
//! Meaning: `HostStates.antt`. Ours.

ghost use Rattle.std.specs.Prelude.{◌≡◌, [], map, slice_set};
ghost use Rattle.strm_ready_ends.specs.SendQueues.{forgotten};
ghost use Rattle.strm_ready_ends.specs.ReceiveQueues.{reader_forgotten};
ghost use Rattle.strm_host_store.specs.HostStates.{queue_in, reader_queue_in, with_writer_forgotten, with_reader_forgotten};

use std::alloc::Global;
use strm_buffers::answers::Answer;
use strm_buffers::items::Items;
use strm_buffers::readers::HostReader;
use strm_buffers::writers::HostWriter;
use strm_channels::channels::Channel;
use strm_channels::guests::Guest;
use strm_codes::codes::TransmitKind;
use strm_codes::counts::OutOfMemory;
use strm_codes::payloads::Payload;
use strm_host_turns::reader_turns::ReaderStops;
use strm_host_turns::writer_turns::WriterStops;
use strm_machine::streams::{Consumer, Operation, Producer};
use strm_ready_ends::ready_readers::ReadyReader;
use strm_ready_ends::ready_writers::ReadyWriter;
use strm_ready_turns::pipes::{ready_fetch, ready_offer};
use strm_ready_turns::reader_turns::ready_reader_turn;
use strm_ready_turns::writer_turns::ready_writer_turn;
use strm_transmit::host_ends::HostEnds;

/// Ready host writers and ready host readers, each named by its place.
#[derive(Drop)]
pub struct ReadyEnds {
    pub writers: Vec<ReadyWriter>,
    pub readers: Vec<ReadyReader>,
}

impl ReadyEnds {
    /// None. Takes no memory.
    pub fn new(alloc: Global) -> ReadyEnds
        ensures writers { result.writers.items ≡ [] }
        ensures readers { result.readers.items ≡ [] }
    {
        ReadyEnds {
            writers: Vec::new(alloc),
            readers: Vec::new(alloc),
        }
    }

    /// The records of a host writer are forgotten, if there is one of that number.
    #[inline(always)]
    pub fn forget_writer(&mut self, number: usize)
        ensures writers { self.new.writers.items ≡ slice_set self.old.writers.items number
            (forgotten (queue_in self.old.writers.items number)) }
        ensures readers { self.new.readers.items ≡ self.old.readers.items }
    {
        if number < self.writers.len() {
            self.writers[number].forget();
        }
    }

    /// The records of a host reader are forgotten, if there is one of that number.
    #[inline(always)]
    pub fn forget_reader(&mut self, number: usize)
        ensures writers { self.new.writers.items ≡ self.old.writers.items }
        ensures readers { self.new.readers.items ≡ slice_set self.old.readers.items number
            (reader_forgotten
            (reader_queue_in self.old.readers.items number)) }
    {
        if number < self.readers.len() {
            self.readers[number].forget();
        }
    }

    /// The records of a host writer and of a host reader are forgotten, of each if it is named and there.
    pub fn forget_pair(&mut self, writer: Option<u32>, reader: Option<u32>)
        ensures writers { self.new.writers.items ≡ with_writer_forgotten writer self.old.writers.items }
        ensures readers { self.new.readers.items ≡ with_reader_forgotten reader
            self.old.readers.items }
    {
        if let Some(number) = writer {
            self.forget_writer(number as usize);
        }
        if let Some(number) = reader {
            self.forget_reader(number as usize);
        }
    }

    /// The records of all are forgotten.
    pub fn forget_all(&mut self)
        ensures writers { self.new.writers.items ≡ map forgotten self.old.writers.items }
        ensures readers { self.new.readers.items ≡ map reader_forgotten self.old.readers.items }
    {
        forget_writers(&mut self.writers);
        forget_readers(&mut self.readers);
    }
}

fn forget_writers(writers: &mut Vec<ReadyWriter>)
    ensures { writers.new.items ≡ map forgotten writers.old.items }
{
    for number in 0..writers.len() {
        writers[number].forget();
    }
}

fn forget_readers(readers: &mut Vec<ReadyReader>)
    ensures { readers.new.items ≡ map reader_forgotten readers.old.items }
{
    for number in 0..readers.len() {
        readers[number].forget();
    }
}

#[tactic(auto, using(crate::proofs::ReadyLemmas::ready_lists))]
impl HostEnds for ReadyEnds {
    ghost use Rattle.strm_host_store.specs.HostStates.{queue_in, reader_queue_in, ready_tell};

    type Writer = ReadyWriter;

    type Reader = ReadyReader;

    ghost tells = { λ ends. ready_tell ends.writers.items ends.readers.items };

    fn count_writers(&self) -> usize {
        self.writers.len()
    }

    fn writer_kind(&self, number: usize) -> TransmitKind {
        self.writers[number].kind()
    }

    fn writer_payload(&self, number: usize) -> Payload {
        self.writers[number].payload()
    }

    fn writer_held(&self, number: usize) -> usize {
        self.writers[number].held()
    }

    fn feed(&mut self, number: usize, bytes: &[u8]) -> Result<(), OutOfMemory> {
        self.writers[number].feed(bytes)
    }

    fn close_writer(&mut self, number: usize) {
        self.writers[number].close();
    }

    fn count_readers(&self) -> usize {
        self.readers.len()
    }

    fn reader_kind(&self, number: usize) -> TransmitKind {
        self.readers[number].kind()
    }

    fn reader_payload(&self, number: usize) -> Payload {
        self.readers[number].payload()
    }

    fn grant(&mut self, number: usize, count: u32) -> Result<(), OutOfMemory> {
        self.readers[number].grant(count)
    }

    fn close_reader(&mut self, number: usize) {
        self.readers[number].close();
    }

    #[inline(always)]
    fn writer_turn_at(
        &mut self,
        alloc: Global,
        guests: &mut Vec<Guest>,
        stream: &mut Channel,
        producer: &mut Producer,
        number: usize,
        read: &Operation,
    ) -> Result<(), WriterStops> {
        let writer = &mut self.writers[number];
        ready_writer_turn(alloc, guests, stream, producer, writer, read)
    }

    #[inline(always)]
    fn reader_turn_at(
        &mut self,
        _alloc: Global,
        guests: &mut Vec<Guest>,
        stream: &mut Channel,
        consumer: &mut Consumer,
        number: usize,
        write: &Operation,
    ) -> Result<(), ReaderStops> {
        let reader = &mut self.readers[number];
        ready_reader_turn(guests, stream, consumer, reader, write)
    }

    fn fetch_of(
        &mut self,
        alloc: Global,
        kind: TransmitKind,
        producer: &mut Producer,
        kept: &mut Items,
        number: usize,
    ) -> Result<(), WriterStops> {
        ready_fetch(alloc, kind, producer, kept, &mut self.writers[number])
    }

    fn offer_of(
        &mut self,
        alloc: Global,
        stream: &mut Channel,
        consumer: &mut Consumer,
        kept: &mut Items,
        writer: usize,
        reader: usize,
    ) -> Result<Answer, ReaderStops> {
        let (from, to) = (&mut self.writers[writer], &mut self.readers[reader]);
        ready_offer(alloc, stream, consumer, kept, from, to)
    }

    fn sound(&self) {
        for number in 0..self.writers.len() {
            let _ = self.writers[number].held();
        }
    }
}
