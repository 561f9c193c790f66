//! Rounds of pipes: streams from a host writer to a host reader.
//!
//! Meaning: `Piping.antt` of `strm_host_machine`. Source: wasmtime, `futures_and_streams.rs`, `set_consumer` on
//! `WriteState::HostReady`. Ours: one poll of each end a round.

ghost use Rattle.std.specs.Prelude.{◌≡◌, ◌<◌, [], true, length, slice_set, Ok};
ghost use Rattle.strm_buffers.specs.Tells.{told_by};
ghost use Rattle.strm_machine.specs.State.{producer_at, stream_at};
ghost use Rattle.strm_machine.specs.declared.replies.Reply.TheVariants as replies;
ghost use Rattle.strm_machine.specs.declared.streams.Duty.TheVariants.{Serves};
ghost use Rattle.strm_host_machine.specs.Attaching.{has_items};
ghost use Rattle.strm_host_machine.specs.Piping.{fetches, is_done_with, ends_if_done, pipe_round};
ghost use Rattle.strm_host_machine.specs.Does.{Fits, Does};
ghost use Rattle.strm_transmit.specs.Hosted.{IsPart};
ghost use Rattle.strm_transmit.specs.OutOfMemory.{OfPoll, OfOffer, OfRound};
ghost use Rattle.strm_transmit.specs.Rounds.{pipe_ends, IsPipe, held_on, fetch_due, offer_due, end_due, FetchesStream, OffersStream, offer_part};

use crate::errors::StoreError;
use crate::host_ends::HostEnds;
use crate::store::Store;
use crate::store::turning::{stop_of_reader, stop_of_writer};
use std::alloc::Global;
use strm_buffers::answers::Answer;
use strm_buffers::items::Items;
use strm_channels::channels::Channel;
use strm_codes::codes::TransmitKind;
use strm_host_turns::pipes::{fetch, offer};
use strm_host_turns::reader_turns::ReaderStops;
use strm_host_turns::writer_turns::WriterStops;
use strm_machine::streams::{Consumer, Owner, Producer, Side};

// The reader of a pipe is done with it, once it answered so, if it was polled.
fn is_done_with(kind: TransmitKind, answer: Option<Answer>) -> bool
    ensures { result ≡ is_done_with kind answer }
{
    match (answer, kind) {
        (Some(Answer::Dropped), _) => true,
        (Some(Answer::Completed), TransmitKind::Future) => true,
        _ => false,
    }
}

impl Store {
    // The host writer and the host reader of a stream from one to the other.
    pub(crate) fn pipe_ends(&self, stream: u32) -> Option<(u32, u32)>
        requires { stream < length self.now.streams }
        ensures { result ≡ pipe_ends (stream_at self.now stream) }
    {
        let served = self.stream(stream);
        match (served.owner(Side::Writing), served.owner(Side::Reading)) {
            (Owner::Host { number: writer }, Owner::Host { number: reader }) => Some((
                writer, reader,
            )),
            _ => None,
        }
    }

    // Whether anything is held on a pipe.
    fn is_held<H: HostEnds>(&self, hosts: &H, stream: u32, writer: u32, reader: u32) -> bool
        requires pipe { IsPipe self.now (H.tells hosts.now) stream writer reader }
        ensures { result ≡ has_items (held_on self.now (H.tells hosts.now) writer) }
    {
        let number = writer as usize;
        self.kept[number].len() > 0 || hosts.writer_held(number) > 0
    }

    // Whether the writer of a pipe is to be polled.
    fn is_fetch_due<H: HostEnds>(&self, hosts: &H, stream: u32, writer: u32, reader: u32) -> bool
        requires pipe { IsPipe self.now (H.tells hosts.now) stream writer reader }
        ensures { result ≡ fetch_due self.now (H.tells hosts.now) writer reader }
    {
        let is_held = self.is_held(hosts, stream, writer, reader);
        let is_resting = self.consumers[reader as usize].resting;
        !is_resting && !is_held && !self.producers[writer as usize].over
    }

    // Whether the reader of a pipe is.
    fn is_offer_due<H: HostEnds>(&self, hosts: &H, stream: u32, writer: u32, reader: u32) -> bool
        requires pipe { IsPipe self.now (H.tells hosts.now) stream writer reader }
        ensures { result ≡ offer_due self.now (H.tells hosts.now) writer reader }
    {
        let is_held = self.is_held(hosts, stream, writer, reader);
        is_held || self.consumers[reader as usize].resting
    }

    // Whether a pipe ends, once its reader answered so, if it was polled.
    fn is_end_due<H: HostEnds>(
        &self,
        hosts: &H,
        stream: u32,
        writer: u32,
        reader: u32,
        answer: Option<Answer>,
    ) -> bool
        requires pipe { IsPipe self.now (H.tells hosts.now) stream writer reader }
        ensures { result ≡ end_due self.now (H.tells hosts.now) stream writer reader answer }
    {
        let is_held = self.is_held(hosts, stream, writer, reader);
        let is_resting = self.consumers[reader as usize].resting;
        let is_dry = self.producers[writer as usize].over && !is_held && !is_resting;
        is_done_with(self.stream(stream).kind(), answer) || is_dry
    }

    // The poll of the writer of a pipe on which nothing is held.
    fn fetch<H: HostEnds>(
        &mut self,
        hosts: &mut H,
        stream: u32,
        writer: u32,
        reader: u32,
    ) -> Result<(), WriterStops>
        requires pipe { IsPipe self.old (H.tells hosts.old) stream writer reader }
        requires nothing_held { (told_by (H.tells hosts.old) writer).holds ≡ [] }
        ensures { FetchesStream self.old self.new (H.tells hosts.old) (H.tells hosts.new) stream
            writer result }
    {
        let place = writer as usize;
        let kind = self.stream(stream).kind();
        let mut producer = self.producers[place];
        let kept = &mut self.kept[place];
        let fetched = hosts.fetch_of(self.alloc, kind, &mut producer, kept, place);
        self.producers[place] = producer;
        fetched
    }

    // The writer of a pipe is polled if nothing is held, unless it is over or the reader waits. After an
    // error the store is trapped.
    fn fetch_if_due<H: HostEnds>(
        &mut self,
        hosts: &mut H,
        stream: u32,
        writer: u32,
        reader: u32,
    ) -> Result<(), StoreError>
        requires pipe { IsPipe self.old (H.tells hosts.old) stream writer reader }
        ensures part { IsPart self.old self.new (H.tells hosts.old) (H.tells hosts.new) result
            (λ world. fetches world stream writer reader) OfPoll }
        ensures pipe { IsPipe self.new (H.tells hosts.new) stream writer reader }
        ensures there { length self.new.streams ≡ length self.old.streams }
    {
        self.served();
        if !self.is_fetch_due(hosts, stream, writer, reader) {
            return Ok(());
        }
        match self.fetch(hosts, stream, writer, reader) {
            Ok(()) => Ok(()),
            Err(error) => {
                self.trap();
                Err(stop_of_writer(error, writer))
            }
        }
    }

    // The poll of the reader of a pipe with all that is held.
    fn offer<H: HostEnds>(
        &mut self,
        hosts: &mut H,
        stream: u32,
        writer: u32,
        reader: u32,
    ) -> Result<Answer, ReaderStops>
        requires pipe { IsPipe self.old (H.tells hosts.old) stream writer reader }
        ensures { OffersStream self.old self.new (H.tells hosts.old) (H.tells hosts.new) stream
            writer reader result }
    {
        let (place, taker) = (writer as usize, reader as usize);
        let mut consumer = self.consumers[taker];
        self.producers[place].holding = false;
        let served = &mut self.streams[stream as usize];
        let kept = &mut self.kept[place];
        let offered = hosts.offer_of(self.alloc, served, &mut consumer, kept, place, taker);
        self.consumers[taker] = consumer;
        offered
    }

    // Nothing is kept of the writer of a pipe any more.
    fn give_up(&mut self, stream: u32, writer: u32)
        requires { (producer_at self.old writer).duty ≡ Serves stream }
        ensures { self.new ≡ record self.old { kept = slice_set self.old.kept writer [] } }
    {
        let kept = &mut self.kept[writer as usize];
        let count = kept.len();
        kept.skip(count);
    }

    // A pipe that is done ends, once its reader answered so, if it was polled.
    fn end_if_done<H: HostEnds>(
        &mut self,
        hosts: &mut H,
        stream: u32,
        writer: u32,
        reader: u32,
        answer: Option<Answer>,
    )
        requires pipe { IsPipe self.old (H.tells hosts.old) stream writer reader }
        ensures does { Does self.old self.new (H.tells hosts.old) (H.tells hosts.new)
            (Ok replies.Done) (λ world. ends_if_done world stream writer reader answer) }
        ensures fits { Fits self.new (H.tells hosts.new) }
        ensures there { length self.new.streams ≡ length self.old.streams }
    {
        self.served();
        if self.is_end_due(hosts, stream, writer, reader, answer) {
            self.give_up(stream, writer);
            self.end_pipe(hosts, stream, reader);
        }
    }

    // The reader of a pipe is polled if anything is held, or it waits; and the pipe ends if it is done.
    // After an error the store is trapped.
    fn offer_and_end<H: HostEnds>(
        &mut self,
        hosts: &mut H,
        stream: u32,
        writer: u32,
        reader: u32,
    ) -> Result<(), StoreError>
        requires pipe { IsPipe self.old (H.tells hosts.old) stream writer reader }
        ensures part { IsPart self.old self.new (H.tells hosts.old) (H.tells hosts.new) result
            (offer_part stream writer reader) (OfOffer writer) }
        ensures there { length self.new.streams ≡ length self.old.streams }
    {
        self.served();
        if !self.is_offer_due(hosts, stream, writer, reader) {
            self.end_if_done(hosts, stream, writer, reader, None);
            return Ok(());
        }
        match self.offer(hosts, stream, writer, reader) {
            Ok(answer) => {
                self.end_if_done(hosts, stream, writer, reader, Some(answer));
                Ok(())
            }
            Err(error) => {
                self.trap();
                Err(stop_of_reader(error, reader, stream))
            }
        }
    }

    // The round of a pipe.
    pub(crate) fn pipe_round<H: HostEnds>(
        &mut self,
        hosts: &mut H,
        stream: u32,
        writer: u32,
        reader: u32,
    ) -> Result<(), StoreError>
        requires pipe { IsPipe self.old (H.tells hosts.old) stream writer reader }
        ensures part { IsPart self.old self.new (H.tells hosts.old) (H.tells hosts.new) result
            (λ world. pipe_round world stream writer reader) (OfRound stream writer reader) }
        ensures there { length self.new.streams ≡ length self.old.streams }
    {
        self.fetch_if_due(hosts, stream, writer, reader)?;
        self.offer_and_end(hosts, stream, writer, reader)
    }
}
