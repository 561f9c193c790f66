//! Host ends: the streams of host writers, bytes and grants from outside, and the close of host ends.
//!
//! Meaning: `Attaching.antt` and `HostRefusals.antt` of `strm_host_machine`. Source: wasmtime,
//! `StreamReader::new`, `FutureReader::new`, and the drops of ends; `feed` and `grant` are ours.

ghost use Rattle.std.specs.Prelude.{◌≡◌, ◌<◌, ◌≤◌, ◌↔◌, ◌++◌, ◌∷◌, [], false, length, slice_set, Ok, Err, IsTrue, OnOk, OnErr, IfOk};
ghost use Rattle.strm_machine.specs.State.{host_limit, stream_limit, idle_end, producer_at, no_producer, consumer_at, stream_at, is_host};
ghost use Rattle.strm_machine.specs.declared.acts.Act.TheVariants.{OnHost};
ghost use Rattle.strm_machine.specs.declared.acts.HostAct.TheVariants as host_acts;
ghost use Rattle.strm_machine.specs.declared.replies.Reply.TheVariants as replies;
ghost use Rattle.strm_machine.specs.declared.streams.Duty.TheVariants.{Unused, Serves, Ended};
ghost use Rattle.strm_machine.specs.declared.streams.Owner.TheVariants.{Host, Loose, Gone};
ghost use Rattle.strm_machine.specs.declared.streams.Side.TheVariants.{Writing, Reading};
ghost use Rattle.strm_host_machine.specs.Outcomes.{done};
ghost use Rattle.strm_host_machine.specs.HostRefusals.{is_unknown_host, refusal_in};
ghost use Rattle.strm_host_machine.specs.Does.{Logs, world_of, FitsWriter, FitsReader, Fits, Does};
ghost use Rattle.strm_transmit.specs.Inside.{AreServed};
ghost use Rattle.strm_transmit.specs.Keeping.{HasGrown, PlaceMade};
ghost use Rattle.strm_transmit.specs.Meets.{as_reply, or_found};
ghost use Rattle.strm_transmit.specs.Hosted.{FitsAt, forsaken_in, MeetsHosted};
ghost use Rattle.strm_transmit.specs.Turning.{across};

use crate::errors::StoreError;
use crate::host_ends::HostEnds;
use crate::places::{append, make_room};
use crate::store::Store;
use crate::store::moves::same_kind;
use std::alloc::Global;
use strm_buffers::items::Items;
use strm_channels::channels::Channel;
use strm_codes::codes::TransmitKind;
use strm_codes::counts::OutOfMemory;
use strm_codes::payloads::Payload;
use strm_codes::refusals::Refusal;
use strm_machine::chunks::Chunk;
use strm_machine::streams::{Duty, Owner, Producer, Side};

/// Host writers are numbered from 0 to 63, and so are host readers.
pub(crate) const MOST_HOSTS: usize = 64;

// Whether a number is none of so many host ends.
pub(crate) fn is_unknown_host(count: usize, host: u32) -> bool
    ensures { result ≡ is_unknown_host count host }
{
    host as usize >= count || host as usize >= MOST_HOSTS
}

// Whether a host writer is there, with a stream's kind and payload.
fn writes<H: HostEnds>(hosts: &H, number: usize, stream: &Channel) -> bool
    ensures { IsTrue result ↔ FitsWriter stream.now (H.tells hosts.now) number }
{
    if number >= hosts.count_writers() {
        return false;
    }
    let is_of_kind = same_kind(hosts.writer_kind(number), stream.kind());
    let is_of_payload = hosts.writer_payload(number) == stream.payload();
    is_of_kind && is_of_payload
}

// Whether a host reader is there, with a stream's kind and payload.
fn reads<H: HostEnds>(hosts: &H, number: usize, stream: &Channel) -> bool
    ensures { IsTrue result ↔ FitsReader stream.now (H.tells hosts.now) number }
{
    if number >= hosts.count_readers() {
        return false;
    }
    let is_of_kind = same_kind(hosts.reader_kind(number), stream.kind());
    let is_of_payload = hosts.reader_payload(number) == stream.payload();
    is_of_kind && is_of_payload
}

// Places for items of host writers up to a number, the new ones with nothing in them. After running out of memory
// there may be some.
fn grow(alloc: Global, kept: &mut Vec<Items>, number: usize) -> Result<(), OutOfMemory>
    requires few { length kept.old.items ≤ host_limit }
    requires known { number < host_limit }
    ensures grown { HasGrown kept.old.items kept.new.items }
    ensures there { OnOk result (number < length kept.new.items) }
{
    for _place in kept.len()..number + 1 {
        kept.push(Items::new(alloc, Payload::Nothing))?;
    }
    Ok(())
}

// A place for items of the host writer of a stream, empty. After running out of memory there may be more places,
// with nothing in them.
fn make_place(
    alloc: Global,
    kept: &mut Vec<Items>,
    number: usize,
    stream: &Channel,
) -> Result<(), OutOfMemory>
    requires few { length kept.old.items ≤ host_limit }
    requires known { number < host_limit }
    ensures ok { OnOk result (PlaceMade kept.old.items kept.new.items number stream.now.payload) }
    ensures err { OnErr result (HasGrown kept.old.items kept.new.items) }
{
    grow(alloc, kept, number)?;
    kept[number] = Items::new(alloc, stream.payload());
    Ok(())
}

impl Store {
    // What holds of host ends and streams. It does nothing.
    #[inline(always)]
    pub(crate) fn served(&self)
        ensures { AreServed self.now.producers self.now.consumers self.now.streams }
    {
        let _ = &self.producers;
    }

    // Whether a host writer is there, with its stream's kind and payload, if it has one.
    fn fits_writer<H: HostEnds>(&self, hosts: &H, number: usize) -> bool
        requires { number < host_limit }
        ensures { IsTrue result ↔ FitsAt Writing self.now (H.tells hosts.now) number }
    {
        match self.producers[number].duty {
            Duty::Serves { stream } => writes(hosts, number, self.stream(stream)),
            _ => true,
        }
    }

    // The same of a host reader.
    fn fits_reader<H: HostEnds>(&self, hosts: &H, number: usize) -> bool
        requires { number < host_limit }
        ensures { IsTrue result ↔ FitsAt Reading self.now (H.tells hosts.now) number }
    {
        match self.consumers[number].duty {
            Duty::Serves { stream } => reads(hosts, number, self.stream(stream)),
            _ => true,
        }
    }

    /// Whether each host end in use is in the list, with its stream's kind and payload.
    pub fn fits<H: HostEnds>(&self, hosts: &H) -> bool
        ensures { IsTrue result ↔ Fits self.now (H.tells hosts.now) }
    {
        self.served();
        for number in 0..MOST_HOSTS {
            if !self.fits_writer(hosts, number) {
                return false;
            }
            if !self.fits_reader(hosts, number) {
                return false;
            }
        }
        true
    }

    // Whether a host writer may get a stream.
    fn host_fits<H: HostEnds>(&self, hosts: &H, writer: u32) -> Result<(), Refusal>
        ensures { (logs : Logs) → result ≡ or_found
            (refusal_in (world_of self.now (H.tells hosts.now) logs) (OnHost writer host_acts.New))
            tt }
    {
        if is_unknown_host(hosts.count_writers(), writer) {
            return Err(Refusal::UnknownHost);
        }
        if self.producers[writer as usize].duty != Duty::Unused {
            return Err(Refusal::HostUsed);
        }
        if self.are_streams_full() {
            return Err(Refusal::Full);
        }
        Ok(())
    }

    // A stream more, of a host writer that holds items or none. After running out of memory nothing has changed.
    fn host(
        &mut self,
        number: u32,
        kind: TransmitKind,
        payload: Payload,
        holding: bool,
    ) -> Result<u32, StoreError>
        requires there { number < host_limit }
        requires unused { (producer_at self.old number).duty ≡ Unused }
        requires few { length self.old.streams < stream_limit }
        ensures number { IfOk result (λ stream. stream ≡ length self.old.streams) }
        ensures ok { OnOk result (self.new ≡ record self.old {
          streams = self.old.streams ++ record {
            kind = kind;
            payload = payload;
            passed = false;
            writer = idle_end (Host number);
            reader = idle_end Loose;
            received = 0;
          } ∷ [];
          producers = slice_set self.old.producers number
              (record no_producer { duty = Serves (length self.old.streams); holding = holding });
        }) }
        ensures no_memory { OnErr result (result ≡ Err StoreError.OutOfMemory) }
        ensures err { OnErr result (self.new ≡ self.old) }
    {
        let stream = self.streams.len() as u32;
        make_room(&mut self.streams, &mut self.places)?;
        self.ready.reserve()?;
        let hosted = Channel::new(kind, payload, Owner::Host { number }, Owner::Loose);
        make_place(self.alloc, &mut self.kept, number as usize, &hosted)?;
        self.ready.add_stream(&self.guests, &hosted);
        append(&mut self.streams, &mut self.places, hosted);
        self.producers[number as usize] = Producer {
            duty: Duty::Serves { stream },
            over: false,
            holding,
        };
        Ok(stream)
    }

    /// A stream or future that a host writer writes, of its kind and payload: the read end is loose,
    /// and the answer is the stream's number. Refused: UnknownHost, HostUsed, Full. OutOfMemory.
    pub fn host_new<H: HostEnds>(&mut self, hosts: &H, writer: u32) -> Result<u32, StoreError>
        requires fits { Fits self.old (H.tells hosts.now) }
        ensures meets { MeetsHosted self.old self.new (H.tells hosts.now) (H.tells hosts.now)
            (as_reply replies.Number result) (OnHost writer host_acts.New) }
    {
        self.served();
        self.admit(self.host_fits(hosts, writer))?;
        let number = writer as usize;
        let holding = hosts.writer_held(number) > 0;
        self.host(
            writer,
            hosts.writer_kind(number),
            hosts.writer_payload(number),
            holding,
        )
    }

    // Whether there is a host writer of this number.
    fn feed_fits<H: HostEnds>(&self, hosts: &H, host: u32, bytes: &Chunk) -> Result<(), Refusal>
        ensures { (logs : Logs) → result ≡ or_found (refusal_in
            (world_of self.now (H.tells hosts.now) logs) (OnHost host (host_acts.Feed bytes.now)))
            tt }
    {
        if is_unknown_host(hosts.count_writers(), host) {
            return Err(Refusal::UnknownHost);
        }
        Ok(())
    }

    /// Passes on bytes from outside to a host writer. Refused: UnknownHost. OutOfMemory.
    pub fn feed<H: HostEnds>(
        &self,
        hosts: &mut H,
        host: u32,
        bytes: &Chunk,
    ) -> Result<(), StoreError>
        requires fits { Fits self.now (H.tells hosts.old) }
        ensures meets { MeetsHosted self.now self.now (H.tells hosts.old) (H.tells hosts.new)
            (as_reply (λ _. replies.Done) result) (OnHost host (host_acts.Feed bytes.now)) }
    {
        self.admit(self.feed_fits(hosts, host, bytes))?;
        match hosts.feed(host as usize, bytes.as_slice()) {
            Ok(()) => Ok(()),
            Err(_) => Err(StoreError::OutOfMemory),
        }
    }

    // Whether there is a host reader of this number.
    fn grant_fits<H: HostEnds>(&self, hosts: &H, host: u32, count: u32) -> Result<(), Refusal>
        ensures { (logs : Logs) → result ≡ or_found (refusal_in
            (world_of self.now (H.tells hosts.now) logs) (OnHost host (host_acts.Grant count))) tt }
    {
        if is_unknown_host(hosts.count_readers(), host) {
            return Err(Refusal::UnknownHost);
        }
        Ok(())
    }

    /// Passes on to a host reader that it may take `count` items more. Refused: UnknownHost.
    /// OutOfMemory.
    pub fn grant<H: HostEnds>(&self, hosts: &mut H, host: u32, count: u32) -> Result<(), StoreError>
        requires fits { Fits self.now (H.tells hosts.old) }
        ensures meets { MeetsHosted self.now self.now (H.tells hosts.old) (H.tells hosts.new)
            (as_reply (λ _. replies.Done) result) (OnHost host (host_acts.Grant count)) }
    {
        self.admit(self.grant_fits(hosts, host, count))?;
        match hosts.grant(host as usize, count) {
            Ok(()) => Ok(()),
            Err(_) => Err(StoreError::OutOfMemory),
        }
    }

    // A host writer whose stream has no write end any more is done.
    pub(crate) fn retire(&mut self, stream: u32, number: u32)
        requires serves { (producer_at self.old number).duty ≡ Serves stream }
        requires gone { (stream_at self.old stream).writer.owner ≡ Gone }
        ensures { self.new ≡ record self.old {
          producers = slice_set self.old.producers number
              (record (producer_at self.old number) { duty = Ended });
        } }
    {
        self.producers[number as usize].duty = Duty::Ended;
    }

    // A host reader whose stream has no read end any more is done.
    pub(crate) fn retire_reader(&mut self, stream: u32, number: u32)
        requires serves { (consumer_at self.old number).duty ≡ Serves stream }
        requires gone { (stream_at self.old stream).reader.owner ≡ Gone }
        ensures { self.new ≡ record self.old {
          consumers = slice_set self.old.consumers number
              (record (consumer_at self.old number) { duty = Ended });
        } }
    {
        self.consumers[number as usize].duty = Duty::Ended;
    }

    // A stream lost its read end: a host writer on the other side goes too, and is closed.
    #[inline(always)]
    fn forsake_writer<H: HostEnds>(&mut self, hosts: &mut H, stream: u32)
        requires there { stream < length self.old.streams }
        requires fits { Fits self.old (H.tells hosts.old) }
        ensures does { Does self.old self.new (H.tells hosts.old) (H.tells hosts.new)
            (Ok replies.Done) (λ world. done (forsaken_in world stream Reading)) }
        ensures fits { Fits self.new (H.tells hosts.new) }
        ensures alone { is_host (stream_at self.old stream).writer.owner ≡ false → self.new
            ≡ self.old }
        ensures untold { is_host (stream_at self.old stream).writer.owner ≡ false
            → H.tells hosts.new ≡ H.tells hosts.old }
    {
        self.served();
        if let Owner::Host { number } = self.stream(stream).owner(Side::Writing) {
            self.lose(stream, Side::Writing);
            self.retire(stream, number);
            hosts.close_writer(number as usize);
        }
    }

    // A stream lost its write end: a host reader on the other side goes too, and is closed.
    #[inline(always)]
    fn forsake_reader<H: HostEnds>(&mut self, hosts: &mut H, stream: u32)
        requires there { stream < length self.old.streams }
        requires fits { Fits self.old (H.tells hosts.old) }
        ensures does { Does self.old self.new (H.tells hosts.old) (H.tells hosts.new)
            (Ok replies.Done) (λ world. done (forsaken_in world stream Writing)) }
        ensures fits { Fits self.new (H.tells hosts.new) }
        ensures alone { is_host (stream_at self.old stream).reader.owner ≡ false → self.new
            ≡ self.old }
        ensures untold { is_host (stream_at self.old stream).reader.owner ≡ false
            → H.tells hosts.new ≡ H.tells hosts.old }
    {
        self.served();
        if let Owner::Host { number } = self.stream(stream).owner(Side::Reading) {
            self.lose(stream, Side::Reading);
            self.retire_reader(stream, number);
            hosts.close_reader(number as usize);
        }
    }

    // A stream lost the end on a side: a host end on the other side goes too, and is closed.
    #[inline(always)]
    pub(crate) fn forsake<H: HostEnds>(&mut self, hosts: &mut H, stream: u32, side: Side)
        requires there { stream < length self.old.streams }
        requires fits { Fits self.old (H.tells hosts.old) }
        ensures does { Does self.old self.new (H.tells hosts.old) (H.tells hosts.new)
            (Ok replies.Done) (λ world. done (forsaken_in world stream side)) }
        ensures fits { Fits self.new (H.tells hosts.new) }
        ensures alone { is_host (across self.old side stream).owner ≡ false → self.new ≡ self.old }
        ensures untold { is_host (across self.old side stream).owner ≡ false → H.tells hosts.new
            ≡ H.tells hosts.old }
    {
        match side {
            Side::Reading => self.forsake_writer(hosts, stream),
            Side::Writing => self.forsake_reader(hosts, stream),
        }
    }
}
