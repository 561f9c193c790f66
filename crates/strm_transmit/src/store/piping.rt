//! Pipes: the loose read end of a stream goes to a host reader.
//!
//! Meaning: `Attaching.antt` and `HostRefusals.antt` of `strm_host_machine`. Source: wasmtime,
//! `StreamReader::pipe` and `FutureReader::pipe`.

ghost use Rattle.std.specs.Prelude.{◌≡◌, ◌≢◌, ◌<◌, true, false, Err, length, Ok, Some};
ghost use Rattle.strm_machine.specs.State.{host_limit, consumer_at, stream_at, is_held, is_loose};
ghost use Rattle.strm_machine.specs.Refusals.{first_of, reader_reasons};
ghost use Rattle.strm_machine.specs.Reactions.{with_stream_at};
ghost use Rattle.strm_machine.specs.Soundness.{type_with};
ghost use Rattle.strm_machine.specs.declared.acts.Act.TheVariants.{OnHost};
ghost use Rattle.strm_machine.specs.declared.acts.HostAct.TheVariants.{Pipe};
ghost use Rattle.strm_machine.specs.declared.replies.Reply.TheVariants as replies;
ghost use Rattle.strm_machine.specs.declared.streams.Duty.TheVariants.{Unused, Serves};
ghost use Rattle.strm_machine.specs.Sides.{end_of};
ghost use Rattle.strm_machine.specs.declared.streams.Side.{Side};
ghost use Rattle.strm_host_machine.specs.Attaching.{is_dry, without_ends, pipes};
ghost use Rattle.strm_host_machine.specs.HostRefusals.{refusal_in};
ghost use Rattle.strm_host_machine.specs.Does.{Logs, world_of, Fits, Does};
ghost use Rattle.strm_transmit.specs.Meets.{as_reply, or_found};
ghost use Rattle.strm_transmit.specs.Hosted.{MeetsHosted};
ghost use Rattle.strm_transmit.specs.Piping.{PipeFits, report_withdrawn, handed_to, EndsPipe};

use crate::errors::StoreError;
use crate::host_ends::HostEnds;
use crate::places::set_owner;
use crate::store::hosting::is_unknown_host;
use crate::store::moves::same_kind;
use crate::store::{Store, type_with};
use strm_channels::channels::Channel;
use strm_codes::codes::TransmitIndex;
use strm_codes::refusals::Refusal;
use strm_machine::streams::{Consumer, Duty, Owner, Side};

// The report of a write that is open is withdrawn; what it moved stays.
fn withdraw(stream: &mut Channel)
    ensures { stream.new ≡ report_withdrawn stream.old }
{
    if let Some(write) = stream.operation(Side::Writing) {
        if write.is_open {
            stream.withdraw(Side::Writing);
        }
    }
}

impl Store {
    // Why the loose read end of a stream may not go to a reader of this type.
    fn reader_refusal(&self, stream: u32, ty: &TransmitIndex) -> Option<Refusal>
        ensures { result ≡ first_of (reader_reasons self.now stream ty.now) }
    {
        if self.is_unknown_reader(stream) {
            return Some(Refusal::UnknownReader);
        }
        let loose = self.stream(stream);
        if !same_kind(loose.kind(), ty.kind()) {
            return Some(Refusal::WrongKind);
        }
        if loose.payload() != ty.payload() {
            return Some(Refusal::WrongType);
        }
        None
    }

    // Whether the loose read end of a stream may go to a host reader.
    fn pipe_fits<H: HostEnds>(&self, hosts: &H, stream: u32, host: u32) -> Result<(), Refusal>
        ensures { (logs : Logs) → result ≡ or_found
            (refusal_in (world_of self.now (H.tells hosts.now) logs) (OnHost host (Pipe stream)))
            tt }
    {
        if is_unknown_host(hosts.count_readers(), host) {
            return Err(Refusal::UnknownHost);
        }
        let number = host as usize;
        if self.consumers[number].duty != Duty::Unused {
            return Err(Refusal::HostUsed);
        }
        let ty = type_with(hosts.reader_kind(number), hosts.reader_payload(number));
        match self.reader_refusal(stream, &ty) {
            Some(refusal) => Err(refusal),
            None => Ok(()),
        }
    }

    // The report of a stream's write is withdrawn, if that is open.
    fn withdraw_report(&mut self, stream: u32)
        requires { stream < length self.old.streams }
        ensures { self.new
            ≡ with_stream_at self.old stream (report_withdrawn (stream_at self.old stream)) }
    {
        let meeting = &mut self.streams[stream as usize];
        withdraw(meeting);
        self.ready.retell(&self.guests, stream, meeting);
    }

    // A stream has its read end at a host reader that was not used.
    fn hand_to(&mut self, stream: u32, host: u32)
        requires there { stream < length self.old.streams }
        requires loose { is_loose (stream_at self.old stream).reader.owner ≡ true }
        requires known { host < host_limit }
        requires unused { (consumer_at self.old host).duty ≡ Unused }
        ensures { self.new ≡ handed_to self.old stream host }
    {
        let (streams, places) = (&mut self.streams, &mut self.places);
        let owner = Owner::Host { number: host };
        set_owner(streams, places, stream, Side::Reading, owner);
        self.ready
            .retell(&self.guests, stream, &self.streams[stream as usize]);
        self.consumers[host as usize] = Consumer {
            duty: Duty::Serves { stream },
            since: 0,
            resting: false,
        };
    }

    // Whether nothing comes any more from a stream's write end.
    fn is_dry<H: HostEnds>(&self, hosts: &H, stream: u32) -> bool
        requires there { stream < length self.now.streams }
        requires fits { Fits self.now (H.tells hosts.now) }
        ensures { (logs : Logs) → result ≡ is_dry (world_of self.now (H.tells hosts.now) logs)
            (stream_at self.now stream).writer.owner }
    {
        self.served();
        match self.stream(stream).owner(Side::Writing) {
            Owner::Gone => true,
            Owner::Host { number } => {
                let number = number as usize;
                self.producers[number].over && hosts.writer_held(number) == 0
            }
            _ => false,
        }
    }

    // Both ends of a stream are gone.
    pub(crate) fn end_stream(&mut self, stream: u32)
        requires there { stream < length self.old.streams }
        requires unheld { (side : Side) → is_held (end_of side (stream_at self.old stream)).owner
            ≡ false }
        ensures { self.new
            ≡ with_stream_at self.old stream (without_ends (stream_at self.old stream)) }
    {
        self.lose(stream, Side::Reading);
        self.lose(stream, Side::Writing);
    }

    // A pipe ends: both ends of the stream are gone, and host ends are closed.
    pub(crate) fn end_pipe<H: HostEnds>(&mut self, hosts: &mut H, stream: u32, host: u32)
        requires there { stream < length self.old.streams }
        requires unheld { (side : Side) → is_held (end_of side (stream_at self.old stream)).owner
            ≡ false }
        requires serves { (consumer_at self.old host).duty ≡ Serves stream }
        requires fits { Fits self.old (H.tells hosts.old) }
        ensures { EndsPipe (stream_at self.old stream).writer.owner self.old self.new
            (H.tells hosts.old) (H.tells hosts.new) stream host }
    {
        self.served();
        let writer = self.stream(stream).owner(Side::Writing);
        self.end_stream(stream);
        self.retire_reader(stream, host);
        hosts.close_reader(host as usize);
        if let Owner::Host { number } = writer {
            self.retire(stream, number);
            hosts.close_writer(number as usize);
        }
    }

    // The loose read end of a stream goes to a host reader that was not used.
    fn attach<H: HostEnds>(&mut self, hosts: &mut H, stream: u32, host: u32)
        requires may { PipeFits self.old (H.tells hosts.old) stream host }
        requires fits { Fits self.old (H.tells hosts.old) }
        ensures does { Does self.old self.new (H.tells hosts.old) (H.tells hosts.new)
            (Ok replies.Done) (λ world. pipes world stream host) }
        ensures fits { Fits self.new (H.tells hosts.new) }
    {
        self.served();
        self.withdraw_report(stream);
        self.hand_to(stream, host);
        if self.is_dry(hosts, stream) {
            self.end_pipe(hosts, stream, host);
        }
    }

    /// Gives the loose read end of a stream or future to a host reader, by their numbers, and polls
    /// nothing. The report of a write that waits with items left is withdrawn; what it has moved counts
    /// on. Where nothing comes any more, both ends are gone at once. It takes no memory. Refused:
    /// UnknownHost, HostUsed, UnknownReader, WrongKind, WrongType.
    pub fn pipe<H: HostEnds>(
        &mut self,
        hosts: &mut H,
        reader: u32,
        host: u32,
    ) -> Result<(), StoreError>
        requires fits { Fits self.old (H.tells hosts.old) }
        ensures meets { MeetsHosted self.old self.new (H.tells hosts.old) (H.tells hosts.new)
            (as_reply (λ _. replies.Done) result) (OnHost host (Pipe reader)) }
        ensures takes_no_memory { result ≢ Err StoreError.OutOfMemory }
    {
        self.admit(self.pipe_fits(hosts, reader, host))?;
        self.attach(hosts, reader, host);
        Ok(())
    }
}
