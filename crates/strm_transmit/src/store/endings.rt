//! Events, the drop of ends, and cancels.
//!
//! Meaning: `tells`, `drops` and `cancels` of `Reactions.antt` of `strm_machine`. Source: Canonical
//! ABI, `canon waitable-set.poll`, `canon stream.drop-{readable,writable}`,
//! `canon stream.cancel-{read,write}` and those of `canon future`; wasmtime, `guest_drop_readable`,
//! `guest_drop_writable`, `guest_cancel_read` and `guest_cancel_write`.

ghost use Rattle.std.specs.Prelude.{◌≡◌, ◌≢◌, ◌<◌, true, length, Err, IfOk, IfErr, IsSome, is_some};
ghost use Rattle.std.specs.Option.{option_map};
ghost use Rattle.strm_codes.specs.declared.codes.TransmitIndex.TheVariants as index;
ghost use Rattle.strm_machine.specs.Acts.{act_of};
ghost use Rattle.strm_machine.specs.State.{stream_at};
ghost use Rattle.strm_machine.specs.Sides.{end_of};
ghost use Rattle.strm_machine.specs.Tests.{named, end_named, stream_named};
ghost use Rattle.strm_machine.specs.Refusals.{refusal, first_of, slot_reasons};
ghost use Rattle.strm_machine.specs.Reactions.{goes, tells, cancels, react, reaction};
ghost use Rattle.strm_machine.specs.declared.acts.Act.TheVariants.{OnEnd, Event};
ghost use Rattle.strm_machine.specs.declared.acts.EndAct.TheVariants.{Drop, Cancel};
ghost use Rattle.strm_machine.specs.declared.replies.Reply.TheVariants as replies;
ghost use Rattle.strm_machine.specs.declared.steps.Step.TheVariants as steps;
ghost use Rattle.strm_machine.proofs.NameLemmas.{IsEndError};
ghost use Rattle.strm_host_machine.specs.Does.{Fits};
ghost use Rattle.strm_transmit.specs.Celled.{cell_named, stream_side_named, IsOwn};
ghost use Rattle.strm_transmit.specs.Dropping.{DropsEnd};
ghost use Rattle.strm_transmit.specs.Meets.{Meets, as_reply, or_found};
ghost use Rattle.strm_transmit.specs.Hosted.{StillFits, MeetsHosted};

use crate::errors::StoreError;
use crate::host_ends::HostEnds;
use crate::store::refusals::{refusal_of, side_of};
use crate::store::{Store, number_type};
use strm_channels::endings::cancel_operation;
use strm_codes::codes::{ReturnCode, TransmitIndex};
use strm_codes::payloads::Payload;
use strm_codes::refusals::Refusal;
use strm_events::cells::EventCell;
use strm_handles::entries::TransmitLocalState;
use strm_handles::errors::HandleError;
use strm_machine::acts::{EndAct, NamedEnd};
use strm_machine::streams::{Owner, Side};

impl Store {
    // The stream and the end that a handle names, whatever its type.
    #[inline(always)]
    pub(crate) fn end_name(
        &self,
        guest: u32,
        handle: u32,
    ) -> Result<(u32, TransmitLocalState), HandleError>
        requires { guest < length self.now.guests }
        ensures answer { result ≡ end_named self.now guest handle }
        ensures there { IfOk result (λ name. name.0 < length self.now.streams) }
        ensures others { IfErr result IsEndError }
        ensures own { IfOk result (λ _. IsOwn self.now guest handle) }
    {
        self.guests[guest as usize].table.end_rep(handle)
    }

    // The same as a refusal or the stream and the side of the end.
    #[inline(always)]
    pub(crate) fn end_found(&self, guest: u32, handle: u32) -> Result<(u32, Side), Refusal>
        requires { guest < length self.now.guests }
        ensures exact { result ≡ or_found
            (first_of (slot_reasons (end_named self.now guest handle)))
            (stream_side_named self.now guest handle) }
        ensures there { IfOk result (λ found. found.0 < length self.now.streams) }
    {
        match self.end_name(guest, handle) {
            Ok(name) => Ok((name.0, side_of(name.1))),
            Err(error) => Err(refusal_of(error)),
        }
    }

    /// Lends the cell of the end that a handle names, which keeps what the end is to be told: none
    /// exactly where no such guest is there, or the handle is no end of a stream or future. It takes
    /// no memory.
    pub fn cell(&self, guest: u32, handle: u32) -> Option<&EventCell>
        ensures exact { option_map (λ cell. cell.now) result ≡ cell_named self.now guest handle }
        // And the end is this guest's, under this handle: none that was moved or dropped.
        ensures own { IsSome result → IsOwn self.now guest handle }
    {
        if self.is_unknown_guest(guest) {
            return None;
        }
        match self.end_name(guest, handle) {
            Ok(name) => Some(self.stream(name.0).cell(side_of(name.1))),
            Err(_) => None,
        }
    }

    // The end that is to be told what it has to be told.
    #[inline(always)]
    #[tactic(auto, unfolding(strm_machine::specs::Refusals::refusal))]
    fn event_found(&self, guest: u32, handle: u32) -> Result<(u32, Side), Refusal>
        ensures exact { result
            ≡ or_found (refusal self.now (Event guest handle)) (stream_side_named self.now guest handle) }
        ensures there { IfOk result (λ found. found.0 < length self.now.streams) }
    {
        if self.is_unknown_guest(guest) {
            return Err(Refusal::UnknownGuest);
        }
        self.end_found(guest, handle)
    }

    // An end of a stream is told its report, if it has one.
    #[inline(always)]
    pub(crate) fn tell(&mut self, stream: u32, side: Side) -> Option<ReturnCode>
        requires { stream < length self.old.streams }
        ensures { tells self.old stream side ≡ goes (replies.Event result) self.new }
    {
        let meeting = &mut self.streams[stream as usize];
        let told = meeting.deliver(side);
        self.ready.retell(&self.guests, stream, meeting);
        told
    }

    /// What the end that a handle names is to be told, if anything: the report of its read or write,
    /// which ends with it, or once that the other end is gone. Refused: UnknownGuest, UnknownHandle,
    /// WrongKind.
    #[inline(always)]
    pub fn take_event(&mut self, guest: u32, handle: u32) -> Result<Option<ReturnCode>, StoreError>
        ensures meets { Meets self.old self.new (as_reply replies.Event result)
            (react self.old (steps.Event guest handle)) }
        ensures fits { StillFits self.old self.new }
        ensures takes_no_memory { result ≢ Err StoreError.OutOfMemory }
    {
        match self.admit(self.event_found(guest, handle)) {
            Ok(found) => Ok(self.tell(found.0, found.1)),
            Err(error) => Err(error),
        }
    }

    // The stream whose end a handle of a guest names, where that end may be dropped.
    #[inline(always)]
    #[tactic(auto, unfolding(strm_machine::specs::Refusals::refusal))]
    fn drop_found(&self, side: Side, end: &NamedEnd) -> Result<u32, Refusal>
        ensures exact { result ≡ or_found (refusal self.now (OnEnd side end.now Drop))
            (stream_named (named self.now end.now)) }
        ensures there { IfOk result (λ stream. stream < length self.now.streams) }
    {
        if self.is_unknown_guest(end.guest) {
            return Err(Refusal::UnknownGuest);
        }
        self.found(side, end, EndAct::Drop)
    }

    /// Drops the end that a handle names, which is gone then; a stream whose both ends are gone is
    /// removed at once.
    #[inline(always)]
    pub(crate) fn drop_side<H: HostEnds>(
        &mut self,
        hosts: &mut H,
        side: Side,
        end: &NamedEnd,
    ) -> Result<(), StoreError>
        requires fits { Fits self.old (H.tells hosts.old) }
        ensures meets { MeetsHosted self.old self.new (H.tells hosts.old) (H.tells hosts.new)
            (as_reply (λ _. replies.Done) result) (OnEnd side end.now Drop) }
        ensures takes_no_memory { result ≢ Err StoreError.OutOfMemory }
    {
        self.sound();
        self.served();
        match self.drop_end(side, end) {
            Ok(stream) => {
                self.forsake(hosts, stream, side);
                Ok(())
            }
            Err(error) => Err(error),
        }
    }

    /// The same as the machine without host ends does it: a host end on the other side stays. Refused as
    /// the call of that side and type.
    #[inline(always)]
    pub fn drop_alone(&mut self, side: Side, end: &NamedEnd) -> Result<(), StoreError>
        ensures meets { Meets self.old self.new (as_reply (λ _. replies.Done) result)
            (reaction self.old (OnEnd side end.now Drop)) }
        ensures fits { StillFits self.old self.new }
        ensures takes_no_memory { result ≢ Err StoreError.OutOfMemory }
    {
        self.sound();
        self.served();
        match self.drop_end(side, end) {
            Ok(_stream) => Ok(()),
            Err(error) => Err(error),
        }
    }

    // The end that a handle names is gone, where it may be dropped: answers its stream.
    #[inline(always)]
    fn drop_end(&mut self, side: Side, end: &NamedEnd) -> Result<u32, StoreError>
        ensures drops { DropsEnd self.old self.new side end.now result }
    {
        match number_type(end.ty) {
            Some(ty) => {
                let end = NamedEnd { ty, ..*end };
                self.drop_here(side, &end)
            }
            None => self.drop_apart(side, *end),
        }
    }

    // The same of any payload, apart from the code for numbers.
    #[inline(never)]
    fn drop_apart(&mut self, side: Side, end: NamedEnd) -> Result<u32, StoreError>
        ensures drops { DropsEnd self.old self.new side end result }
    {
        self.drop_here(side, &end)
    }

    // The same, in the caller's code.
    #[inline(always)]
    fn drop_here(&mut self, side: Side, end: &NamedEnd) -> Result<u32, StoreError>
        ensures drops { DropsEnd self.old self.new side end.now result }
    {
        match self.admit(self.drop_found(side, end)) {
            Ok(stream) => {
                self.release(side, end, stream, Owner::Gone);
                Ok(stream)
            }
            Err(error) => Err(error),
        }
    }

    /// Drops the read end of a stream. `canon stream.drop-readable`. Refused: UnknownGuest,
    /// UnknownHandle, WrongKind, WrongType, WrongEnd, Busy.
    #[inline(always)]
    pub fn stream_drop_readable<H: HostEnds>(
        &mut self,
        hosts: &mut H,
        guest: u32,
        payload: Payload,
        handle: u32,
    ) -> Result<(), StoreError>
        requires fits { Fits self.old (H.tells hosts.old) }
        ensures meets { MeetsHosted self.old self.new (H.tells hosts.old) (H.tells hosts.new)
            (as_reply (λ _. replies.Done) result)
            (act_of (steps.DropRead guest (index.Stream payload) handle)) }
        ensures takes_no_memory { result ≢ Err StoreError.OutOfMemory }
    {
        let ty = TransmitIndex::Stream(payload);
        let end = NamedEnd { guest, ty, handle };
        self.drop_side(hosts, Side::Reading, &end)
    }

    /// Drops the write end of a stream. `canon stream.drop-writable`. Refused: UnknownGuest,
    /// UnknownHandle, WrongKind, WrongType, WrongEnd, Busy.
    #[inline(always)]
    pub fn stream_drop_writable<H: HostEnds>(
        &mut self,
        hosts: &mut H,
        guest: u32,
        payload: Payload,
        handle: u32,
    ) -> Result<(), StoreError>
        requires fits { Fits self.old (H.tells hosts.old) }
        ensures meets { MeetsHosted self.old self.new (H.tells hosts.old) (H.tells hosts.new)
            (as_reply (λ _. replies.Done) result)
            (act_of (steps.DropWrite guest (index.Stream payload) handle)) }
        ensures takes_no_memory { result ≢ Err StoreError.OutOfMemory }
    {
        let ty = TransmitIndex::Stream(payload);
        let end = NamedEnd { guest, ty, handle };
        self.drop_side(hosts, Side::Writing, &end)
    }

    /// Drops the read end of a future. `canon future.drop-readable`. Refused: UnknownGuest,
    /// UnknownHandle, WrongKind, WrongType, WrongEnd, Busy.
    #[inline(always)]
    pub fn future_drop_readable<H: HostEnds>(
        &mut self,
        hosts: &mut H,
        guest: u32,
        payload: Payload,
        handle: u32,
    ) -> Result<(), StoreError>
        requires fits { Fits self.old (H.tells hosts.old) }
        ensures meets { MeetsHosted self.old self.new (H.tells hosts.old) (H.tells hosts.new)
            (as_reply (λ _. replies.Done) result)
            (act_of (steps.DropRead guest (index.Future payload) handle)) }
        ensures takes_no_memory { result ≢ Err StoreError.OutOfMemory }
    {
        let ty = TransmitIndex::Future(payload);
        let end = NamedEnd { guest, ty, handle };
        self.drop_side(hosts, Side::Reading, &end)
    }

    /// Drops the write end of a future. `canon future.drop-writable`. Refused: UnknownGuest,
    /// UnknownHandle, WrongKind, WrongType, WrongEnd, Busy, FutureWithoutValue (its value has not
    /// passed, and it was not told that nobody reads it).
    #[inline(always)]
    pub fn future_drop_writable<H: HostEnds>(
        &mut self,
        hosts: &mut H,
        guest: u32,
        payload: Payload,
        handle: u32,
    ) -> Result<(), StoreError>
        requires fits { Fits self.old (H.tells hosts.old) }
        ensures meets { MeetsHosted self.old self.new (H.tells hosts.old) (H.tells hosts.new)
            (as_reply (λ _. replies.Done) result)
            (act_of (steps.DropWrite guest (index.Future payload) handle)) }
        ensures takes_no_memory { result ≢ Err StoreError.OutOfMemory }
    {
        let ty = TransmitIndex::Future(payload);
        let end = NamedEnd { guest, ty, handle };
        self.drop_side(hosts, Side::Writing, &end)
    }

    // The stream whose end a handle of a guest names, where that end has an operation.
    #[tactic(auto, unfolding(strm_machine::specs::Refusals::refusal))]
    fn cancel_found(&self, side: Side, end: &NamedEnd) -> Result<u32, Refusal>
        ensures exact { result ≡ or_found (refusal self.now (OnEnd side end.now Cancel))
            (stream_named (named self.now end.now)) }
        ensures there { IfOk result (λ stream. stream < length self.now.streams) }
        ensures busy { IfOk result (λ stream.
            is_some (end_of side (stream_at self.now stream)).operation ≡ true) }
    {
        if self.is_unknown_guest(end.guest) {
            return Err(Refusal::UnknownGuest);
        }
        self.found(side, end, EndAct::Cancel)
    }

    // The operation of an end of a stream is cancelled.
    pub(crate) fn cancel_on(&mut self, stream: u32, side: Side) -> ReturnCode
        requires there { stream < length self.old.streams }
        requires busy { is_some (end_of side (stream_at self.old stream)).operation ≡ true }
        ensures { cancels self.old stream side ≡ goes (replies.Code result) self.new }
    {
        let meeting = &mut self.streams[stream as usize];
        let code = cancel_operation(meeting, side);
        self.ready.retell(&self.guests, stream, meeting);
        code
    }

    /// Cancels the operation of the end that a handle names. It ends with what it was to be told, of
    /// which a stream's Completed is answered as Cancelled, or with Cancelled of no item. A read that
    /// waits for a host writer, and a write that waits for a host reader, with nothing to be told, is
    /// answered Blocked; further cancels are refused, also once the host end has answered, until its
    /// event is taken.
    pub(crate) fn cancel_side(
        &mut self,
        side: Side,
        end: &NamedEnd,
    ) -> Result<ReturnCode, StoreError>
        ensures meets { Meets self.old self.new (as_reply replies.Code result)
            (reaction self.old (OnEnd side end.now Cancel)) }
        ensures fits { StillFits self.old self.new }
        ensures takes_no_memory { result ≢ Err StoreError.OutOfMemory }
    {
        let stream = self.admit(self.cancel_found(side, end))?;
        Ok(self.cancel_on(stream, side))
    }

    /// Cancels the read of a stream. `canon stream.cancel-read`. Refused: UnknownGuest, UnknownHandle,
    /// WrongKind, WrongType, WrongEnd, NoPending, CancelUnderWay (of a host writer's stream).
    pub fn stream_cancel_read(
        &mut self,
        guest: u32,
        payload: Payload,
        handle: u32,
    ) -> Result<ReturnCode, StoreError>
        ensures meets { Meets self.old self.new (as_reply replies.Code result)
            (react self.old (steps.CancelRead guest (index.Stream payload) handle)) }
        ensures fits { StillFits self.old self.new }
        ensures takes_no_memory { result ≢ Err StoreError.OutOfMemory }
    {
        let ty = TransmitIndex::Stream(payload);
        let end = NamedEnd { guest, ty, handle };
        self.cancel_side(Side::Reading, &end)
    }

    /// Cancels the write of a stream. `canon stream.cancel-write`. Refused: UnknownGuest,
    /// UnknownHandle, WrongKind, WrongType, WrongEnd, NoPending, CancelUnderWay (of a host reader's
    /// stream).
    pub fn stream_cancel_write(
        &mut self,
        guest: u32,
        payload: Payload,
        handle: u32,
    ) -> Result<ReturnCode, StoreError>
        ensures meets { Meets self.old self.new (as_reply replies.Code result)
            (react self.old (steps.CancelWrite guest (index.Stream payload) handle)) }
        ensures fits { StillFits self.old self.new }
        ensures takes_no_memory { result ≢ Err StoreError.OutOfMemory }
    {
        let ty = TransmitIndex::Stream(payload);
        let end = NamedEnd { guest, ty, handle };
        self.cancel_side(Side::Writing, &end)
    }

    /// Cancels the read of a future; once its value has passed, the answer is Completed.
    /// `canon future.cancel-read`. Refused: UnknownGuest, UnknownHandle, WrongKind, WrongType,
    /// WrongEnd, NoPending, CancelUnderWay (of a host writer's future).
    pub fn future_cancel_read(
        &mut self,
        guest: u32,
        payload: Payload,
        handle: u32,
    ) -> Result<ReturnCode, StoreError>
        ensures meets { Meets self.old self.new (as_reply replies.Code result)
            (react self.old (steps.CancelRead guest (index.Future payload) handle)) }
        ensures fits { StillFits self.old self.new }
        ensures takes_no_memory { result ≢ Err StoreError.OutOfMemory }
    {
        let ty = TransmitIndex::Future(payload);
        let end = NamedEnd { guest, ty, handle };
        self.cancel_side(Side::Reading, &end)
    }

    /// Cancels the write of a future; once its value has passed, the answer is Completed.
    /// `canon future.cancel-write`. Refused: UnknownGuest, UnknownHandle, WrongKind, WrongType,
    /// WrongEnd, NoPending, CancelUnderWay (of a host reader's future).
    pub fn future_cancel_write(
        &mut self,
        guest: u32,
        payload: Payload,
        handle: u32,
    ) -> Result<ReturnCode, StoreError>
        ensures meets { Meets self.old self.new (as_reply replies.Code result)
            (react self.old (steps.CancelWrite guest (index.Future payload) handle)) }
        ensures fits { StillFits self.old self.new }
        ensures takes_no_memory { result ≢ Err StoreError.OutOfMemory }
    {
        let ty = TransmitIndex::Future(payload);
        let end = NamedEnd { guest, ty, handle };
        self.cancel_side(Side::Writing, &end)
    }
}
