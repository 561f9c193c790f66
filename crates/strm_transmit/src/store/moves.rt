//! Ends that change their owner: moves, lifts, lowers and closes.
//!
//! Meaning: `transfers`, `lifts`, `lowers` and `closes` of `Reactions.antt` of `strm_machine`. Source:
//! Canonical ABI, `lift_stream`, `lower_stream` and those of futures; wasmtime, `lift_from_index`,
//! `lower_to_index` and `close` of readers. Ours: a transfer as one call.

ghost use Rattle.std.specs.Prelude.{◌≡◌, ◌≢◌, ◌<◌, false, length, Err, None};
ghost use Rattle.strm_codes.specs.declared.codes.TransmitIndex.TheVariants as index;
ghost use Rattle.strm_machine.specs.Acts.{act_of};
ghost use Rattle.strm_machine.specs.State.{stream_at, is_held, is_host};
ghost use Rattle.strm_machine.specs.Sides.{end_of};
ghost use Rattle.strm_machine.specs.Tests.{named, stream_named, side_named, same_kind, is_unknown_reader};
ghost use Rattle.strm_machine.specs.Moves.{without_handle, next_in, with_owner};
ghost use Rattle.strm_machine.specs.Refusals.{refusal, first_of, last_reasons, given_reasons};
ghost use Rattle.strm_machine.specs.Reactions.{transfers, lowers, with_stream_at, react, reaction};
ghost use Rattle.strm_machine.specs.declared.acts.Act.TheVariants.{OnEnd, Transfer, OnLoose};
ghost use Rattle.strm_machine.specs.declared.acts.EndAct.TheVariants.{Lift};
ghost use Rattle.strm_machine.specs.declared.acts.LooseAct.TheVariants.{Lower, Close};
ghost use Rattle.strm_machine.specs.declared.replies.Reply.TheVariants as replies;
ghost use Rattle.strm_machine.specs.declared.steps.Step.TheVariants as steps;
ghost use Rattle.strm_machine.specs.declared.streams.Owner.TheVariants.{Gone};
ghost use Rattle.strm_machine.proofs.RefusalLemmas.{LeaveFits};
ghost use Rattle.strm_host_machine.specs.Does.{Fits};
ghost use Rattle.strm_transmit.specs.Meets.{Meets, as_reply, or_found};
ghost use Rattle.strm_transmit.specs.Hosted.{StillFits, MeetsHosted};

use crate::errors::StoreError;
use crate::host_ends::HostEnds;
use crate::places::set_owner;
use crate::store::Store;
use crate::telling::home_of;
use strm_channels::ends::{give_end, move_end, remove_end};
use strm_codes::codes::{TransmitIndex, TransmitKind};
use strm_codes::payloads::Payload;
use strm_codes::refusals::Refusal;
use strm_handles::entries::MAX_HANDLE;
use strm_machine::acts::{EndAct, NamedEnd};
use strm_machine::streams::{Owner, Side};

// Whether two kinds are the same.
pub(crate) fn same_kind(one: TransmitKind, other: TransmitKind) -> bool
    ensures { result ≡ same_kind one other }
{
    match (one, other) {
        (TransmitKind::Stream, TransmitKind::Stream)
        | (TransmitKind::Future, TransmitKind::Future) => true,
        _ => false,
    }
}

impl Store {
    // An end of a stream, which no guest has, is gone.
    pub(crate) fn lose(&mut self, stream: u32, side: Side)
        requires there { stream < length self.old.streams }
        requires unheld { is_held (end_of side (stream_at self.old stream)).owner ≡ false }
        ensures { self.new ≡ with_stream_at self.old stream
            (with_owner side (stream_at self.old stream) Gone) }
    {
        let (streams, places) = (&mut self.streams, &mut self.places);
        set_owner(streams, places, stream, side, Owner::Gone);
        self.ready
            .retell(&self.guests, stream, &self.streams[stream as usize]);
    }

    // A guest's handle is freed, and the end of a stream that it names has another owner.
    #[inline(always)]
    pub(crate) fn release(&mut self, side: Side, end: &NamedEnd, stream: u32, owner: Owner)
        requires fits { LeaveFits self.old side end.now }
        requires stream { stream ≡ stream_named (named self.old end.now) }
        requires owner { is_host owner ≡ false }
        requires given { is_held owner ≡ false }
        ensures { self.new ≡ with_stream_at (without_handle self.old end.now.guest end.now.handle)
            stream (with_owner side (stream_at self.old stream) owner) }
    {
        let home = home_of(&self.guests, end.guest as usize, end.handle);
        let (guests, counter) = (&mut self.guests, &mut self.counter);
        remove_end(guests, counter, end);
        let (streams, places) = (&mut self.streams, &mut self.places);
        set_owner(streams, places, stream, side, owner);
        self.ready.leave(end.guest as usize, home, end.handle);
        self.ready
            .retell(&self.guests, stream, &self.streams[stream as usize]);
    }

    // The number that an end gets in a guest's table, once its handle is freed.
    fn moved_index(&self, end: &NamedEnd, to: u32) -> u32
        requires from { end.now.guest < length self.now.guests }
        requires to { to < length self.now.guests }
        ensures { result ≡ next_in (without_handle self.now end.now.guest end.now.handle) to }
    {
        if end.guest == to {
            end.handle
        } else {
            self.guests[to as usize].table.next_index()
        }
    }

    // Why an end may not leave its guest, where nothing else speaks against it.
    fn lift_refusal(&self, end: &NamedEnd) -> Option<Refusal>
        requires { end.now.guest < length self.now.guests }
        ensures { result ≡ first_of (last_reasons self.now end.now Lift) }
    {
        if self.is_in_set(end.guest, end.handle) {
            return Some(Refusal::LiftInSet);
        }
        None
    }

    // Why it may not go to another guest.
    fn move_refusal(&self, end: &NamedEnd, to: u32) -> Option<Refusal>
        requires from { end.now.guest < length self.now.guests }
        requires to { to < length self.now.guests }
        ensures { result ≡ first_of (given_reasons self.now end.now to) }
    {
        match self.lift_refusal(end) {
            None if self.moved_index(end, to) >= MAX_HANDLE => Some(Refusal::IndexOverflow),
            refusal => refusal,
        }
    }

    // The stream and the side of the end that a handle of a guest names, where that end may go to another
    // guest.
    #[tactic(auto, unfolding(strm_machine::specs::Refusals::refusal))]
    fn move_found(&self, end: &NamedEnd, to: u32) -> Result<(u32, Side), Refusal>
        ensures { result ≡ or_found (refusal self.now (Transfer end.now to))
            (stream_named (named self.now end.now), side_named (named self.now end.now)) }
    {
        if self.is_unknown_guest(end.guest) || self.is_unknown_guest(to) {
            return Err(Refusal::UnknownGuest);
        }
        let named = self.leaving(end)?;
        match self.move_refusal(end, to) {
            Some(refusal) => Err(refusal),
            None => Ok(named),
        }
    }

    // The end that is named goes to a guest. After running out of memory nothing has changed.
    fn move_named(&mut self, found: (u32, Side), end: &NamedEnd, to: u32) -> Result<u32, StoreError>
        requires may { refusal self.old (Transfer end.now to) ≡ None }
        requires found { found
            ≡ (stream_named (named self.old end.now), side_named (named self.old end.now)) }
        requires untrapped { self.old.trapped ≡ false }
        ensures meets { Meets self.old self.new (as_reply replies.Number result)
            (transfers self.old found.0 found.1 end.now to) }
        ensures takes_no_memory { end.now.guest ≡ to → result ≢ Err StoreError.OutOfMemory }
    {
        let (stream, side) = found;
        let home = home_of(&self.guests, end.guest as usize, end.handle);
        let (guests, counter) = (&mut self.guests, &mut self.counter);
        let handle = move_end(guests, counter, side, end, to as usize, stream)?;
        let owner = Owner::Held { guest: to, handle };
        let (streams, places) = (&mut self.streams, &mut self.places);
        set_owner(streams, places, stream, side, owner);
        self.ready.leave(end.guest as usize, home, end.handle);
        self.ready
            .retell(&self.guests, stream, &self.streams[stream as usize]);
        Ok(handle)
    }

    /// The end that a handle names, whichever of the two it is, goes to another guest, or to the same:
    /// its handle is freed, and the answer is the one that it gets there.
    pub(crate) fn transfer(&mut self, end: &NamedEnd, to: u32) -> Result<u32, StoreError>
        ensures meets { Meets self.old self.new (as_reply replies.Number result)
            (reaction self.old (Transfer end.now to)) }
        ensures fits { StillFits self.old self.new }
        ensures takes_no_memory { end.now.guest ≡ to → result ≢ Err StoreError.OutOfMemory }
    {
        let found = self.admit(self.move_found(end, to))?;
        self.move_named(found, end, to)
    }

    /// Moves an end of a stream, the reading or the writing one, to another guest, or to the same: its
    /// handle is freed, and the answer is the one that it gets there. Refused: UnknownGuest (either),
    /// UnknownHandle, WrongKind, WrongType, Busy, LiftDropped, LiftInSet, IndexOverflow. OutOfMemory,
    /// where the two guests differ.
    pub fn stream_transfer(
        &mut self,
        guest: u32,
        payload: Payload,
        handle: u32,
        to: u32,
    ) -> Result<u32, StoreError>
        ensures meets { Meets self.old self.new (as_reply replies.Number result)
            (react self.old (steps.Move guest (index.Stream payload) handle to)) }
        ensures fits { StillFits self.old self.new }
        ensures takes_no_memory { guest ≡ to → result ≢ Err StoreError.OutOfMemory }
    {
        let ty = TransmitIndex::Stream(payload);
        let end = NamedEnd { guest, ty, handle };
        self.transfer(&end, to)
    }

    /// Moves an end of a future to another guest, or to the same. Refused: UnknownGuest (either),
    /// UnknownHandle, WrongKind, WrongType, Busy, LiftDropped (also once its value has passed),
    /// LiftInSet, IndexOverflow. OutOfMemory, where the two guests differ.
    pub fn future_transfer(
        &mut self,
        guest: u32,
        payload: Payload,
        handle: u32,
        to: u32,
    ) -> Result<u32, StoreError>
        ensures meets { Meets self.old self.new (as_reply replies.Number result)
            (react self.old (steps.Move guest (index.Future payload) handle to)) }
        ensures fits { StillFits self.old self.new }
        ensures takes_no_memory { guest ≡ to → result ≢ Err StoreError.OutOfMemory }
    {
        let ty = TransmitIndex::Future(payload);
        let end = NamedEnd { guest, ty, handle };
        self.transfer(&end, to)
    }

    // The stream whose end a handle of a guest names, where that end may leave its guest.
    #[tactic(auto, unfolding(strm_machine::specs::Refusals::refusal))]
    fn lift_found(&self, side: Side, end: &NamedEnd) -> Result<u32, Refusal>
        ensures { result ≡ or_found (refusal self.now (OnEnd side end.now Lift))
            (stream_named (named self.now end.now)) }
    {
        if self.is_unknown_guest(end.guest) {
            return Err(Refusal::UnknownGuest);
        }
        let stream = self.found(side, end, EndAct::Lift)?;
        match self.lift_refusal(end) {
            Some(refusal) => Err(refusal),
            None => Ok(stream),
        }
    }

    /// The end that a handle names leaves its guest, and its handle is freed: the answer is the
    /// number of its stream.
    pub(crate) fn lift_side(&mut self, side: Side, end: &NamedEnd) -> Result<u32, StoreError>
        ensures meets { Meets self.old self.new (as_reply replies.Number result)
            (reaction self.old (OnEnd side end.now Lift)) }
        ensures fits { StillFits self.old self.new }
        ensures takes_no_memory { result ≢ Err StoreError.OutOfMemory }
    {
        let stream = self.admit(self.lift_found(side, end))?;
        self.release(side, end, stream, Owner::Loose);
        Ok(stream)
    }

    /// Takes the read end of a stream or future out of a guest: its handle is freed, the end is loose,
    /// and the answer is the stream's number. Refused: UnknownGuest, UnknownHandle, WrongKind,
    /// WrongType, WrongEnd, Busy, LiftDropped, LiftInSet.
    pub fn lift(&mut self, guest: u32, ty: TransmitIndex, handle: u32) -> Result<u32, StoreError>
        ensures meets { Meets self.old self.new (as_reply replies.Number result)
            (react self.old (steps.Lift guest ty handle)) }
        ensures fits { StillFits self.old self.new }
        ensures takes_no_memory { result ≢ Err StoreError.OutOfMemory }
    {
        let end = NamedEnd { guest, ty, handle };
        self.lift_side(Side::Reading, &end)
    }

    // Whether no stream of this number has a loose read end.
    pub(crate) fn is_unknown_reader(&self, reader: u32) -> bool
        ensures { result ≡ is_unknown_reader self.now reader }
    {
        reader as usize >= self.streams.len()
            || self.stream(reader).owner(Side::Reading) != Owner::Loose
    }

    // Whether the loose read end of a stream may come into a guest.
    #[tactic(auto, unfolding(strm_machine::specs::Refusals::refusal))]
    fn lower_fits(&self, reader: u32, guest: u32, ty: &TransmitIndex) -> Result<(), Refusal>
        ensures { result ≡ or_found (refusal self.now (OnLoose reader (Lower guest ty.now))) tt }
    {
        if self.is_unknown_guest(guest) {
            return Err(Refusal::UnknownGuest);
        }
        if self.is_unknown_reader(reader) {
            return Err(Refusal::UnknownReader);
        }
        if !same_kind(self.stream(reader).kind(), ty.kind()) {
            return Err(Refusal::WrongKind);
        }
        if self.stream(reader).payload() != ty.payload() {
            return Err(Refusal::WrongType);
        }
        match self.handle_more_refusal(guest) {
            Some(refusal) => Err(refusal),
            None => Ok(()),
        }
    }

    // The loose read end of a stream comes into a guest. After running out of memory nothing has changed.
    fn lower_loose(&mut self, reader: u32, guest: u32, ty: TransmitIndex) -> Result<u32, StoreError>
        requires may { refusal self.old (OnLoose reader (Lower guest ty)) ≡ None }
        requires untrapped { self.old.trapped ≡ false }
        ensures { Meets self.old self.new (as_reply replies.Number result)
            (lowers self.old reader guest ty) }
    {
        let (guests, counter) = (&mut self.guests, &mut self.counter);
        let handle = give_end(guests, counter, guest as usize, Side::Reading, ty, reader)?;
        let owner = Owner::Held { guest, handle };
        let (streams, places) = (&mut self.streams, &mut self.places);
        set_owner(streams, places, reader, Side::Reading, owner);
        self.ready
            .retell(&self.guests, reader, &self.streams[reader as usize]);
        Ok(handle)
    }

    /// Gives a guest the loose read end of a stream or future, by the stream's number: the answer is
    /// its handle. Refused: UnknownGuest, UnknownReader, WrongKind, WrongType, IndexOverflow,
    /// HandleLimit. OutOfMemory.
    pub fn lower(&mut self, reader: u32, guest: u32, ty: TransmitIndex) -> Result<u32, StoreError>
        ensures meets { Meets self.old self.new (as_reply replies.Number result)
            (react self.old (steps.Lower reader guest ty)) }
        ensures fits { StillFits self.old self.new }
    {
        self.admit(self.lower_fits(reader, guest, &ty))?;
        self.lower_loose(reader, guest, ty)
    }

    // Whether the loose read end of a stream may be dropped.
    #[tactic(auto, unfolding(strm_machine::specs::Refusals::refusal))]
    fn close_fits(&self, reader: u32) -> Result<(), Refusal>
        ensures { result ≡ or_found (refusal self.now (OnLoose reader Close)) tt }
    {
        if self.is_unknown_reader(reader) {
            return Err(Refusal::UnknownReader);
        }
        Ok(())
    }

    /// Drops the loose read end of a stream or future, by the stream's number; a stream whose both ends
    /// are gone is removed at once. Refused: UnknownReader.
    pub fn close<H: HostEnds>(&mut self, hosts: &mut H, reader: u32) -> Result<(), StoreError>
        requires fits { Fits self.old (H.tells hosts.old) }
        ensures meets { MeetsHosted self.old self.new (H.tells hosts.old) (H.tells hosts.new)
            (as_reply (λ _. replies.Done) result) (act_of (steps.Close reader)) }
        ensures takes_no_memory { result ≢ Err StoreError.OutOfMemory }
    {
        self.sound();
        self.served();
        self.admit(self.close_fits(reader))?;
        self.lose(reader, Side::Reading);
        self.forsake(hosts, reader, Side::Reading);
        Ok(())
    }

    /// The same as the machine without host ends does it: a host writer of the stream stays. Refused:
    /// UnknownReader.
    pub fn close_alone(&mut self, reader: u32) -> Result<(), StoreError>
        ensures meets { Meets self.old self.new (as_reply (λ _. replies.Done) result)
            (react self.old (steps.Close reader)) }
        ensures fits { StillFits self.old self.new }
        ensures takes_no_memory { result ≢ Err StoreError.OutOfMemory }
    {
        self.admit(self.close_fits(reader))?;
        self.lose(reader, Side::Reading);
        Ok(())
    }
}
