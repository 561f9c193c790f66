//! Drive rounds: a turn for each stream whose host end has something to serve.
//!
//! Meaning: `Driving.antt` of `strm_host_machine`. Ours: wasmtime's event loop polls the futures of its host
//! ends.

ghost use Rattle.std.specs.Prelude.{◌≡◌, ◌<◌, ◌≤◌, true, length, None, Some, IfSome};
ghost use Rattle.strm_machine.specs.State.{stream_at, host_limit, producer_at, consumer_at};
ghost use Rattle.strm_machine.specs.Sides.{end_of};
ghost use Rattle.strm_machine.specs.declared.acts.Act.TheVariants.{Drive};
ghost use Rattle.strm_machine.specs.declared.replies.Reply.TheVariants as replies;
ghost use Rattle.strm_host_machine.specs.Driving.{drive_turn, driven, round_of};
ghost use Rattle.strm_host_machine.specs.Does.{Fits};
ghost use Rattle.strm_transmit.specs.Inside.{AreServed};
ghost use Rattle.strm_transmit.specs.Meets.{as_reply};
ghost use Rattle.strm_transmit.specs.Hosted.{IsPart, MeetsHosted};
ghost use Rattle.strm_transmit.specs.OutOfMemory.{OfTurn, OfDrive};
ghost use Rattle.strm_transmit.specs.Rounds.{pipe_ends};
ghost use Rattle.strm_transmit.specs.Turning.{due_on, least_of, next_for_duty, NextServed};

use crate::errors::StoreError;
use crate::host_ends::HostEnds;
use crate::store::Store;
use crate::store::hosting::MOST_HOSTS;
use strm_channels::sides::opposite;
use strm_machine::streams::{Duty, Operation, Owner, Side};

// The lesser of a number and another, if there is one.
fn least_of(number: u32, other: Option<u32>) -> Option<u32>
    ensures { result ≡ least_of number other }
{
    match other {
        Some(other) if other <= number => Some(other),
        _ => Some(number),
    }
}

// The least of some streams from a number on, and of the one that a duty is for.
fn next_of(duty: Duty, from: u32, least: Option<u32>) -> Option<u32>
    ensures { result ≡ next_for_duty duty from least }
{
    match duty {
        Duty::Serves { stream } if stream >= from => least_of(stream, least),
        _ => least,
    }
}

// Whether the least of some streams is this one.
fn is_least(least: Option<u32>, number: u32) -> bool
    ensures { result ≡ true → least ≡ Some number }
{
    match least {
        Some(stream) => stream == number,
        None => false,
    }
}

impl Store {
    // What a host writer does.
    fn writer_duty(&self, number: usize) -> Duty
        requires { number < host_limit }
        ensures { result ≡ (producer_at self.now number).duty }
    {
        self.producers[number].duty
    }

    // What a host reader does.
    fn reader_duty(&self, number: usize) -> Duty
        requires { number < host_limit }
        ensures { result ≡ (consumer_at self.now number).duty }
    {
        self.consumers[number].duty
    }

    // The least stream from a number on that a host end serves, one of those that there are.
    fn next_served<H: HostEnds>(&self, hosts: &H, from: u32) -> Option<u32>
        requires fits { Fits self.now (H.tells hosts.now) }
        ensures next { NextServed self.now from result }
        ensures served { AreServed self.now.producers self.now.consumers self.now.streams }
        ensures few { length self.now.streams ≤ 4294967295 }
    {
        let _ = &self.producers;
        let most = hosts.count_writers().max(hosts.count_readers());
        let mut least = None;
        for number in 0..most.min(MOST_HOSTS) {
            let of_writers = next_of(self.writer_duty(number), from, least);
            least = next_of(self.reader_duty(number), from, of_writers);
            if is_least(least, from) {
                // None is less.
                return least;
            }
        }
        least
    }

    // The host end across an end of a stream, and the open operation that it has to serve, if there are
    // both.
    fn due(&self, stream: u32, side: Side) -> Option<(u32, Operation)>
        requires { stream < length self.now.streams }
        ensures due { result ≡ due_on side (stream_at self.now stream) }
        ensures waiting { IfSome result (λ found.
            (end_of side (stream_at self.now stream)).operation ≡ Some found.1) }
        ensures open { IfSome result (λ found. found.1.is_open ≡ true) }
    {
        let served = self.stream(stream);
        let (mine, across) = (served.owner(side), served.owner(opposite(side)));
        match (across, mine, served.operation(side)) {
            (Owner::Host { .. }, Owner::Host { .. }, _) => None,
            (Owner::Host { number }, _, Some(operation)) if operation.is_open => Some((
                number, operation,
            )),
            _ => None,
        }
    }

    // The turn of a stream that is no pipe in a drive round: that of its host end, if it has one, for the
    // open operation of the other end.
    fn serve<H: HostEnds>(&mut self, hosts: &mut H, stream: u32) -> Result<(), StoreError>
        requires there { stream < length self.old.streams }
        requires unpiped { pipe_ends (stream_at self.old stream) ≡ None }
        requires fits { Fits self.old (H.tells hosts.old) }
        ensures part { IsPart self.old self.new (H.tells hosts.old) (H.tells hosts.new) result
            (λ world. drive_turn world stream) (OfTurn stream) }
        ensures there { length self.new.streams ≡ length self.old.streams }
    {
        self.sound();
        if let Some(read) = self.due(stream, Side::Reading) {
            return self.host_turn(hosts, stream, Side::Reading, read.0, &read.1);
        }
        match self.due(stream, Side::Writing) {
            Some(write) => self.host_turn(hosts, stream, Side::Writing, write.0, &write.1),
            None => Ok(()),
        }
    }

    /// The turn of one stream, as in a drive round: the host ends that serve it are polled or take, where an
    /// operation waits for them. Of a stream that no host end serves nothing changes. Whether the store was
    /// trapped is not looked at (`trapped`); after any error it is. HostFailed, HostBroke, BadItem, OutOfMemory.
    pub fn drive_stream<H: HostEnds>(
        &mut self,
        hosts: &mut H,
        stream: u32,
    ) -> Result<(), StoreError>
        requires there { stream < length self.old.streams }
        requires fits { Fits self.old (H.tells hosts.old) }
        ensures part { IsPart self.old self.new (H.tells hosts.old) (H.tells hosts.new) result
            (λ world. drive_turn world stream) (OfTurn stream) }
        ensures there { length self.new.streams ≡ length self.old.streams }
    {
        match self.pipe_ends(stream) {
            Some(ends) => self.pipe_round(hosts, stream, ends.0, ends.1),
            None => self.serve(hosts, stream),
        }
    }

    // The turns of all streams that a host end serves, by their numbers.
    fn drive_all<H: HostEnds>(&mut self, hosts: &mut H) -> Result<(), StoreError>
        requires fits { Fits self.old (H.tells hosts.old) }
        ensures { IsPart self.old self.new (H.tells hosts.old) (H.tells hosts.new) result
            (λ world. driven world (round_of world)) OfDrive }
    {
        let mut next = 0;
        while let Some(stream) = self.next_served(hosts, next) {
            self.drive_stream(hosts, stream)?;
            next = stream + 1;
        }
        Ok(())
    }

    /// Gives each host end that has an open read or write to serve its turn, and each pipe from a host
    /// writer to a host reader its round, by the streams' numbers. It costs nothing by all streams ever
    /// made, and is never refused. HostFailed, HostBroke, BadItem, OutOfMemory: each traps the store.
    pub fn drive_once<H: HostEnds>(&mut self, hosts: &mut H) -> Result<(), StoreError>
        requires fits { Fits self.old (H.tells hosts.old) }
        ensures meets { MeetsHosted self.old self.new (H.tells hosts.old) (H.tells hosts.new)
            (as_reply (λ _. replies.Done) result) Drive }
    {
        self.served();
        self.admit(Ok(()))?;
        self.drive_all(hosts)
    }
}
