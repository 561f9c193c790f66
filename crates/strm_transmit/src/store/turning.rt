//! Turns of host ends: of a host writer for the read on its stream, of a host reader for the write.
//!
//! Meaning: `Producing.antt`, `Consuming.antt` and `Settling.antt` of `strm_host_machine`. Source: wasmtime,
//! `guest_read` with `WriteState::HostReady` and `guest_write` with `ReadState::HostReady`.

ghost use Rattle.std.specs.Prelude.{◌≡◌, ◌≢◌, ◌<◌, [], true, length, None, Some, Ok, IsOk, IfOk};
ghost use Rattle.strm_buffers.specs.Tells.{Tells, told_by};
ghost use Rattle.strm_machine.specs.State.{stream_at};
ghost use Rattle.strm_machine.specs.Sides.{end_of, with_operation};
ghost use Rattle.strm_machine.specs.Meetings.{begun};
ghost use Rattle.strm_machine.specs.Reactions.{with_stream_at};
ghost use Rattle.strm_machine.specs.declared.replies.Reply.TheVariants as replies;
ghost use Rattle.strm_machine.specs.declared.streams.Owner.TheVariants.{Host};
ghost use Rattle.strm_machine.specs.declared.streams.Side.TheVariants.{Writing, Reading};
ghost use Rattle.strm_host_turns.specs.WriterTurns.{IsWriterTurn};
ghost use Rattle.strm_host_machine.specs.Settling.{turn_answered as answers_at};
ghost use Rattle.strm_host_machine.specs.WriterTurn.{writer_turn};
ghost use Rattle.strm_host_machine.specs.ReaderTurn.{reader_turn};
ghost use Rattle.strm_host_machine.specs.Does.{Fits, Does};
ghost use Rattle.strm_transmit.specs.Hosted.{IsPart, IsPartAs};
ghost use Rattle.strm_transmit.specs.OutOfMemory.{OfPoll};
ghost use Rattle.strm_transmit.specs.Turning.{IsAcross, HasWriterTurn, HasReaderTurn, stop_of_writer, stop_of_reader, turn_for, polls_for, across, IsPlacedOn};

use crate::errors::StoreError;
use crate::host_ends::HostEnds;
use crate::store::Store;
use std::alloc::Global;
use strm_channels::channels::Channel;
use strm_channels::guests::Guest;
use strm_channels::owners::is_live;
use strm_codes::codes::ReturnCode;
use strm_host_turns::reader_turns::{ReaderStops, reader_turn};
use strm_host_turns::writer_turns::{WriterStops, writer_turn};
use strm_machine::streams::{Consumer, HostEnd, Operation, Owner, Producer, Side};

// Why a turn of a host writer stops a call.
pub(crate) fn stop_of_writer(error: WriterStops, number: u32) -> StoreError
    ensures { result ≡ stop_of_writer error number }
{
    let end = HostEnd::Writer(number);
    match error {
        WriterStops::Failed => StoreError::HostFailed { end },
        WriterStops::Broke => StoreError::HostBroke { end },
        WriterStops::OutOfMemory => StoreError::OutOfMemory,
    }
}

// Why a turn of a host reader stops a call.
pub(crate) fn stop_of_reader(error: ReaderStops, number: u32, stream: u32) -> StoreError
    ensures { result ≡ stop_of_reader error number stream }
{
    let end = HostEnd::Reader(number);
    match error {
        ReaderStops::Failed => StoreError::HostFailed { end },
        ReaderStops::Broke => StoreError::HostBroke { end },
        ReaderStops::BadItem => StoreError::BadItem { stream },
        ReaderStops::OutOfMemory => StoreError::OutOfMemory,
    }
}

impl Store {
    // A read or write opens on a stream.
    #[inline(always)]
    fn open(&mut self, stream: u32, side: Side, operation: Operation)
        requires idle { (end_of side (stream_at self.old stream)).operation ≡ None }
        requires begun { operation ≡ begun operation.guest operation.address operation.left }
        requires there { stream < length self.old.streams }
        requires placed { IsPlacedOn self.old stream operation }
        ensures { self.new ≡ with_stream_at self.old stream
            (with_operation side (stream_at self.old stream) operation) }
    {
        let meeting = &mut self.streams[stream as usize];
        meeting.begin(side, operation.guest, operation.address, operation.left);
        self.ready.retell(&self.guests, stream, meeting);
    }

    // The turn of the host writer that serves a stream, for the open read on it.
    #[inline(always)]
    fn turn_of_writer<H: HostEnds>(
        &mut self,
        hosts: &mut H,
        stream: u32,
        number: u32,
        read: &Operation,
    ) -> Result<(), WriterStops>
        requires { IsAcross self.old (H.tells hosts.old) Reading stream number read.now }
        ensures { HasWriterTurn self.old self.new (H.tells hosts.old) (H.tells hosts.new) number
            stream read.now result }
    {
        let served = &mut self.streams[stream as usize];
        let was_live = is_live(served);
        let producer = &mut self.producers[number as usize];
        let (guests, place) = (&mut self.guests, number as usize);
        let turned = hosts.writer_turn_at(self.alloc, guests, served, producer, place, read);
        self.ready.retell(&self.guests, stream, served);
        self.places.settle(stream, was_live, is_live(served));
        turned
    }

    // The turn of the host reader that serves a stream, for the open write on it.
    #[inline(always)]
    fn turn_of_reader<H: HostEnds>(
        &mut self,
        hosts: &mut H,
        stream: u32,
        number: u32,
        write: &Operation,
    ) -> Result<(), ReaderStops>
        requires { IsAcross self.old (H.tells hosts.old) Writing stream number write.now }
        ensures { HasReaderTurn self.old self.new (H.tells hosts.old) (H.tells hosts.new) number
            stream write.now result }
    {
        let served = &mut self.streams[stream as usize];
        let was_live = is_live(served);
        let consumer = &mut self.consumers[number as usize];
        let (guests, place) = (&mut self.guests, number as usize);
        let taken = hosts.reader_turn_at(self.alloc, guests, served, consumer, place, write);
        self.ready.retell(&self.guests, stream, served);
        self.places.settle(stream, was_live, is_live(served));
        taken
    }

    // Nothing is done any more but to say that the store is trapped.
    pub(crate) fn trap(&mut self)
        ensures { self.new ≡ record self.old { trapped = true } }
    {
        self.is_trapped = true;
    }

    // The turn of the host writer that serves a stream, which is closed where it is done with it. After
    // an error the store is trapped.
    #[inline(always)]
    fn produce<H: HostEnds>(
        &mut self,
        hosts: &mut H,
        stream: u32,
        number: u32,
        read: &Operation,
    ) -> Result<(), StoreError>
        requires { IsAcross self.old (H.tells hosts.old) Reading stream number read.now }
        ensures part { IsPart self.old self.new (H.tells hosts.old) (H.tells hosts.new) result
            (λ world. writer_turn world stream number read.now) OfPoll }
        ensures there { length self.new.streams ≡ length self.old.streams }
        ensures untrapped { IfOk result (λ _. self.new.trapped ≡ self.old.trapped) }
        ensures held { (told_by (H.tells hosts.old) number).holds ≢ [] → IsOk result }
    {
        self.sound();
        self.served();
        match self.turn_of_writer(hosts, stream, number, read) {
            Ok(()) => {}
            Err(error) => {
                self.trap();
                return Err(stop_of_writer(error, number));
            }
        }
        if self.stream(stream).owner(Side::Writing) != Owner::Gone {
            return Ok(());
        }
        self.retire(stream, number);
        hosts.close_writer(number as usize);
        Ok(())
    }

    // The turn of the host reader that serves a stream, which is closed where it is done with it. After an
    // error the store is trapped.
    #[inline(always)]
    fn consume<H: HostEnds>(
        &mut self,
        hosts: &mut H,
        stream: u32,
        number: u32,
        write: &Operation,
    ) -> Result<(), StoreError>
        requires { IsAcross self.old (H.tells hosts.old) Writing stream number write.now }
        ensures part { IsPart self.old self.new (H.tells hosts.old) (H.tells hosts.new) result
            (λ world. reader_turn world stream number write.now) OfPoll }
        ensures there { length self.new.streams ≡ length self.old.streams }
    {
        self.sound();
        self.served();
        match self.turn_of_reader(hosts, stream, number, write) {
            Ok(()) => {}
            Err(error) => {
                self.trap();
                return Err(stop_of_reader(error, number, stream));
            }
        }
        if self.stream(stream).owner(Side::Reading) != Owner::Gone {
            return Ok(());
        }
        self.retire_reader(stream, number);
        hosts.close_reader(number as usize);
        Ok(())
    }

    // The turn of the host end across an operation on a side of a stream.
    #[inline(always)]
    pub(crate) fn host_turn<H: HostEnds>(
        &mut self,
        hosts: &mut H,
        stream: u32,
        side: Side,
        number: u32,
        operation: &Operation,
    ) -> Result<(), StoreError>
        requires { IsAcross self.old (H.tells hosts.old) side stream number operation.now }
        ensures part { IsPart self.old self.new (H.tells hosts.old) (H.tells hosts.new) result
            (turn_for side stream number operation.now) OfPoll }
        ensures there { length self.new.streams ≡ length self.old.streams }
        ensures held { side ≡ Reading → (told_by (H.tells hosts.old) number).holds ≢ []
            → IsOk result }
    {
        match side {
            Side::Reading => self.produce(hosts, stream, number, operation),
            Side::Writing => self.consume(hosts, stream, number, operation),
        }
    }

    // What a read or write is answered once the host end across had its turn.
    #[inline(always)]
    fn answer(&mut self, stream: u32, side: Side) -> ReturnCode
        requires { stream < length self.old.streams }
        ensures does { (tells : Tells) → Does self.old self.new tells tells
            (Ok (replies.Code result)) (λ world. answers_at world stream side) }
        ensures fits { (tells : Tells) → Fits self.old tells → Fits self.new tells }
    {
        match self.tell(stream, side) {
            Some(code) => code,
            None => ReturnCode::Blocked,
        }
    }

    // A read or write with a host end across: it opens, and the host end has its turn at once.
    #[inline(never)]
    pub(crate) fn poll_across<H: HostEnds>(
        &mut self,
        hosts: &mut H,
        stream: u32,
        side: Side,
        number: u32,
        operation: Operation,
    ) -> Result<ReturnCode, StoreError>
        requires idle { (end_of side (stream_at self.old stream)).operation ≡ None }
        requires begun { operation ≡ begun operation.guest operation.address operation.left }
        requires there { stream < length self.old.streams }
        requires owner { (across self.old side stream).owner ≡ Host number }
        requires placed { IsPlacedOn self.old stream operation }
        requires fits { Fits self.old (H.tells hosts.old) }
        ensures part { IsPartAs replies.Code self.old self.new (H.tells hosts.old)
            (H.tells hosts.new) result (polls_for side stream number operation) OfPoll }
        ensures held { side ≡ Reading → (told_by (H.tells hosts.old) number).holds ≢ []
            → IsOk result }
    {
        self.open(stream, side, operation);
        self.host_turn(hosts, stream, side, number, &operation)?;
        Ok(self.answer(stream, side))
    }
}
