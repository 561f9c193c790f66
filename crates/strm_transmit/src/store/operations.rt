//! Reads and writes of guests: what refuses them, and the calls. How they are done stands in
//! `operating.rt`.
//!
//! Meaning: `operates` of `Reactions.antt` of `strm_machine`. Source: Canonical ABI,
//! `canon stream.{read,write}` and `canon future.{read,write}`; wasmtime, `guest_read` and
//! `guest_write`.

ghost use Rattle.std.specs.Prelude.{◌≡◌, ◌<◌, ◌↔◌, length, true, false, None, IfOk, OnOk, IfSome, IfNone, IsErr};
ghost use Rattle.strm_codes.specs.Types.{payload_of};
ghost use Rattle.strm_codes.specs.declared.codes.TransmitIndex.TheVariants as index;
ghost use Rattle.strm_machine.specs.Acts.{act_of};
ghost use Rattle.strm_machine.specs.State.{stream_at, is_host};
ghost use Rattle.strm_machine.specs.Meetings.{begun};
ghost use Rattle.strm_machine.specs.Sides.{opposite, end_of};
ghost use Rattle.strm_machine.specs.Tests.{is_too_big, items_asked, named, stream_named};
ghost use Rattle.strm_machine.specs.Refusals.{first_of, region_reasons, refusal};
ghost use Rattle.strm_machine.specs.declared.acts.Act.TheVariants.{OnEnd};
ghost use Rattle.strm_machine.specs.declared.acts.EndAct.TheVariants.{Operate};
ghost use Rattle.strm_machine.specs.declared.steps.Step.TheVariants as steps;
ghost use Rattle.strm_machine.specs.declared.streams.Owner.TheVariants.{Host};
ghost use Rattle.strm_machine.specs.declared.streams.Side.TheVariants.{Writing, Reading};
ghost use Rattle.strm_host_machine.specs.Does.{Fits};
ghost use Rattle.strm_transmit.specs.Meets.{or_found};
ghost use Rattle.strm_transmit.specs.Hosted.{RunsOutOnlyPolling, RunsOutNoneHeld};
ghost use Rattle.strm_transmit.specs.Operating.{MeetsCode};
ghost use Rattle.strm_transmit.specs.Turning.{across, IsPlacedOn, IsNumberWithin};

use crate::errors::StoreError;
use crate::host_ends::HostEnds;
use crate::store::Store;
use strm_channels::guests::memory;
use strm_channels::sides::opposite;
use strm_codes::codes::{ReturnCode, TransmitIndex};
use strm_codes::counts::{ItemCount, StreamOpTooBig};
use strm_codes::payloads::Payload;
use strm_codes::refusals::Refusal;
use strm_machine::acts::{EndAct, NamedEnd};
use strm_machine::streams::{Owner, Side};
use strm_memory::memories::RegionError;

// The items that a call asks for: a future's is one.
#[inline(always)]
fn items_asked(ty: TransmitIndex, count: u32) -> Result<ItemCount, StreamOpTooBig>
    ensures ok { IfOk result (λ items. items ≡ items_asked ty count) }
    ensures fits { OnOk result (is_too_big ty count ≡ false) }
    ensures too_big { IsErr result ↔ (is_too_big ty count ≡ true) }
{
    match ty {
        TransmitIndex::Stream(_) => ItemCount::new(count),
        TransmitIndex::Future(_) => ItemCount::new(1),
    }
}

impl Store {
    // The items that a guest asks for, where its region may lie there.
    #[inline(always)]
    fn region(&self, end: &NamedEnd, address: u32, count: u32) -> Result<ItemCount, Refusal>
        ensures exact { result
            ≡ or_found (first_of (region_reasons self.now end.now.guest end.now.ty address count))
            (items_asked end.now.ty count) }
        ensures there { OnOk result (end.now.guest < length self.now.guests) }
    {
        if self.is_unknown_guest(end.guest) {
            return Err(Refusal::UnknownGuest);
        }
        let Ok(items) = items_asked(end.ty, count) else {
            return Err(Refusal::StreamOpTooBig);
        };
        let memory = memory(&self.guests, end.guest as usize);
        match memory.region(end.ty.payload(), address, items) {
            Ok(()) => Ok(items),
            Err(RegionError::OutOfBounds) => Err(Refusal::OutOfBounds),
            Err(RegionError::NotAligned) => Err(Refusal::NotAligned),
        }
    }

    // The stream and the items of a read or write that nothing refuses.
    #[inline(always)]
    #[tactic(auto, unfolding(strm_machine::specs::Refusals::refusal))]
    pub(crate) fn operation_found(
        &self,
        side: Side,
        end: &NamedEnd,
        address: u32,
        count: u32,
    ) -> Result<(u32, ItemCount), Refusal>
        ensures exact { result
            ≡ or_found (refusal self.now (OnEnd side end.now (Operate address count)))
            (stream_named (named self.now end.now), items_asked end.now.ty count) }
        ensures there { IfOk result (λ found. found.0 < length self.now.streams) }
        ensures idle { IfOk result (λ found.
            (end_of side (stream_at self.now found.0)).operation ≡ None) }
        ensures placed { IfOk result
            (λ found. IsPlacedOn self.now found.0 (begun end.now.guest address found.1)) }
        ensures payload { IfOk result (λ found.
            (stream_at self.now found.0).payload ≡ payload_of end.now.ty) }
        ensures numbers { IfOk result
            (λ found. IsNumberWithin self.now side found.0 end.now.guest) }
    {
        match self.region(end, address, count) {
            Ok(items) => match self.found(side, end, EndAct::Operate { address, count }) {
                Ok(stream) => Ok((stream, items)),
                Err(refusal) => Err(refusal),
            },
            Err(refusal) => Err(refusal),
        }
    }

    /// The number of the host end on the other side of an end of a stream, counted among the host writers or
    /// among the host readers: none where a guest has that end, or nobody.
    #[inline(always)]
    pub fn host_across(&self, side: Side, stream: u32) -> Option<u32>
        requires { stream < length self.now.streams }
        ensures some { IfSome result (λ number. (across self.now side stream).owner ≡ Host number) }
        ensures none { IfNone result (is_host (across self.now side stream).owner ≡ false) }
    {
        match self.stream(stream).owner(opposite(side)) {
            Owner::Host { number } => Some(number),
            _ => None,
        }
    }

    /// Reads `count` items from a stream, to `address` on in the guest's memory. `canon stream.read`.
    /// Refused: UnknownGuest, StreamOpTooBig, OutOfBounds, NotAligned, UnknownHandle, WrongKind,
    /// WrongType, ConcurrentFutureStreamOp, ReadFromDroppedStream, IntraComponent. BadItem; of a host
    /// writer that is polled HostFailed, HostBroke and OutOfMemory.
    pub fn stream_read<H: HostEnds>(
        &mut self,
        hosts: &mut H,
        guest: u32,
        payload: Payload,
        handle: u32,
        address: u32,
        count: u32,
    ) -> Result<ReturnCode, StoreError>
        requires fits { Fits self.old (H.tells hosts.old) }
        ensures meets { MeetsCode (steps.Read guest (index.Stream payload) handle address count)
            self.old self.new (H.tells hosts.old) (H.tells hosts.new) result }
        ensures takes_no_memory { RunsOutOnlyPolling self.old
            (act_of (steps.Read guest (index.Stream payload) handle address count)) result }
        ensures held { RunsOutNoneHeld self.old (H.tells hosts.old)
            (act_of (steps.Read guest (index.Stream payload) handle address count)) result }
    {
        let ty = TransmitIndex::Stream(payload);
        let end = NamedEnd { guest, ty, handle };
        self.operate(hosts, Side::Reading, &end, address, count)
    }

    /// Writes `count` items to a stream, from `address` on in the guest's memory. A write that waits
    /// leaves its items there until they move. `canon stream.write`. Refused: UnknownGuest,
    /// StreamOpTooBig, OutOfBounds, NotAligned, UnknownHandle, WrongKind, WrongType,
    /// ConcurrentFutureStreamOp, WriteToDroppedStream, IntraComponent. Errors as of `stream_read`, of a
    /// host reader.
    pub fn stream_write<H: HostEnds>(
        &mut self,
        hosts: &mut H,
        guest: u32,
        payload: Payload,
        handle: u32,
        address: u32,
        count: u32,
    ) -> Result<ReturnCode, StoreError>
        requires fits { Fits self.old (H.tells hosts.old) }
        ensures meets { MeetsCode (steps.Write guest (index.Stream payload) handle address count)
            self.old self.new (H.tells hosts.old) (H.tells hosts.new) result }
        ensures takes_no_memory { RunsOutOnlyPolling self.old
            (act_of (steps.Write guest (index.Stream payload) handle address count)) result }
    {
        let ty = TransmitIndex::Stream(payload);
        let end = NamedEnd { guest, ty, handle };
        self.operate(hosts, Side::Writing, &end, address, count)
    }

    /// Reads a future's value, to `address` in the guest's memory. `canon future.read`. Refused:
    /// UnknownGuest, OutOfBounds, NotAligned, UnknownHandle, WrongKind, WrongType,
    /// ConcurrentFutureStreamOp, FutureAlreadyRead, IntraComponent. Errors as of `stream_read`.
    pub fn future_read<H: HostEnds>(
        &mut self,
        hosts: &mut H,
        guest: u32,
        payload: Payload,
        handle: u32,
        address: u32,
    ) -> Result<ReturnCode, StoreError>
        requires fits { Fits self.old (H.tells hosts.old) }
        ensures meets { MeetsCode (steps.Read guest (index.Future payload) handle address 1)
            self.old self.new (H.tells hosts.old) (H.tells hosts.new) result }
        ensures takes_no_memory { RunsOutOnlyPolling self.old
            (act_of (steps.Read guest (index.Future payload) handle address 1)) result }
        ensures held { RunsOutNoneHeld self.old (H.tells hosts.old)
            (act_of (steps.Read guest (index.Future payload) handle address 1)) result }
    {
        let ty = TransmitIndex::Future(payload);
        let end = NamedEnd { guest, ty, handle };
        self.operate(hosts, Side::Reading, &end, address, 1)
    }

    /// Writes a future's value, from `address` in the guest's memory. `canon future.write`. Refused:
    /// UnknownGuest, OutOfBounds, NotAligned, UnknownHandle, WrongKind, WrongType,
    /// ConcurrentFutureStreamOp, WriteToDroppedFuture, IntraComponent. Errors as of `stream_write`.
    pub fn future_write<H: HostEnds>(
        &mut self,
        hosts: &mut H,
        guest: u32,
        payload: Payload,
        handle: u32,
        address: u32,
    ) -> Result<ReturnCode, StoreError>
        requires fits { Fits self.old (H.tells hosts.old) }
        ensures meets { MeetsCode (steps.Write guest (index.Future payload) handle address 1)
            self.old self.new (H.tells hosts.old) (H.tells hosts.new) result }
        ensures takes_no_memory { RunsOutOnlyPolling self.old
            (act_of (steps.Write guest (index.Future payload) handle address 1)) result }
    {
        let ty = TransmitIndex::Future(payload);
        let end = NamedEnd { guest, ty, handle };
        self.operate(hosts, Side::Writing, &end, address, 1)
    }
}
