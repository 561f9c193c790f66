//! Streams: written, read, cancelled and dropped, and what an end is told.
//!
//! Meaning: `Reactions.antt` of `strm_machine`. Source: Canonical ABI, `canon stream.write` and the others.

ghost use Rattle.std.specs.Prelude.{◌≢◌, Err};
ghost use Rattle.strm_codes.specs.declared.codes.TransmitIndex.TheVariants as index;
ghost use Rattle.strm_machine.specs.Bases.{BasesStay};
ghost use Rattle.strm_machine.specs.Reactions.{react};
ghost use Rattle.strm_machine.specs.declared.replies.Reply.TheVariants as replies;
ghost use Rattle.strm_machine.specs.declared.steps.Step.TheVariants as steps;
ghost use Rattle.strm_transmit.specs.Meets.{Meets, as_reply};
ghost use Rattle.strm_guest_store.specs.Operations.{MeetsOrTells};

use crate::guest_store::GuestStore;
use crate::operations::OperateError;
use strm_codes::codes::{ReturnCode, TransmitIndex};
use strm_codes::payloads::Payload;
use strm_machine::acts::NamedEnd;
use strm_machine::streams::Side;
use strm_transmit::errors::StoreError;

#[tactic(auto, using(crate::proofs::AmongLemmas::plain_among, crate::proofs::BaseLemmas::plain_stays))]
impl GuestStore {
    /// Writes items from an address of the guest's memory on. `canon stream.write`. Items of a write that
    /// waits are read from the memory when they move.
    #[inline(always)]
    pub fn stream_write(
        &mut self,
        guest: u32,
        payload: Payload,
        handle: u32,
        address: u32,
        count: u32,
    ) -> Result<ReturnCode, OperateError>
        ensures meets { MeetsOrTells self.old self.new result
            (steps.Write guest (index.Stream payload) handle address count) }
        ensures stays { BasesStay self.old.guests self.new.guests }
    {
        let ty = TransmitIndex::Stream(payload);
        let end = NamedEnd { guest, ty, handle };
        self.operate(Side::Writing, &end, address, count)
    }

    /// Reads items to an address of the guest's memory on. `canon stream.read`.
    #[inline(always)]
    pub fn stream_read(
        &mut self,
        guest: u32,
        payload: Payload,
        handle: u32,
        address: u32,
        count: u32,
    ) -> Result<ReturnCode, OperateError>
        ensures meets { MeetsOrTells self.old self.new result
            (steps.Read guest (index.Stream payload) handle address count) }
        ensures stays { BasesStay self.old.guests self.new.guests }
    {
        let ty = TransmitIndex::Stream(payload);
        let end = NamedEnd { guest, ty, handle };
        self.operate(Side::Reading, &end, address, count)
    }

    /// Cancels the write of a stream. `canon stream.cancel-write`.
    pub fn stream_cancel_write(
        &mut self,
        guest: u32,
        payload: Payload,
        handle: u32,
    ) -> Result<ReturnCode, StoreError>
        ensures meets { Meets self.old self.new (as_reply replies.Code result)
            (react self.old (steps.CancelWrite guest (index.Stream payload) handle)) }
        ensures stays { BasesStay self.old.guests self.new.guests }
        ensures takes_no_memory { result ≢ Err StoreError.OutOfMemory }
    {
        self.store.stream_cancel_write(guest, payload, handle)
    }

    /// Cancels the read of a stream. `canon stream.cancel-read`.
    pub fn stream_cancel_read(
        &mut self,
        guest: u32,
        payload: Payload,
        handle: u32,
    ) -> Result<ReturnCode, StoreError>
        ensures meets { Meets self.old self.new (as_reply replies.Code result)
            (react self.old (steps.CancelRead guest (index.Stream payload) handle)) }
        ensures stays { BasesStay self.old.guests self.new.guests }
        ensures takes_no_memory { result ≢ Err StoreError.OutOfMemory }
    {
        self.store.stream_cancel_read(guest, payload, handle)
    }

    /// What an end is to be told, of a stream or a future, if anything: an event of
    /// `canon waitable-set.poll` for one waitable.
    pub fn take_event(&mut self, guest: u32, handle: u32) -> Result<Option<ReturnCode>, StoreError>
        ensures meets { Meets self.old self.new (as_reply replies.Event result)
            (react self.old (steps.Event guest handle)) }
        ensures stays { BasesStay self.old.guests self.new.guests }
        ensures takes_no_memory { result ≢ Err StoreError.OutOfMemory }
    {
        self.store.take_event(guest, handle)
    }

    /// Drops the write end of a stream. `canon stream.drop-writable`.
    #[inline(always)]
    pub fn stream_drop_writable(
        &mut self,
        guest: u32,
        payload: Payload,
        handle: u32,
    ) -> Result<(), StoreError>
        ensures meets { Meets self.old self.new (as_reply (λ _. replies.Done) result)
            (react self.old (steps.DropWrite guest (index.Stream payload) handle)) }
        ensures stays { BasesStay self.old.guests self.new.guests }
        ensures takes_no_memory { result ≢ Err StoreError.OutOfMemory }
    {
        let ty = TransmitIndex::Stream(payload);
        let end = NamedEnd { guest, ty, handle };
        self.store.drop_alone(Side::Writing, &end)
    }

    /// Drops the read end of a stream. `canon stream.drop-readable`.
    #[inline(always)]
    pub fn stream_drop_readable(
        &mut self,
        guest: u32,
        payload: Payload,
        handle: u32,
    ) -> Result<(), StoreError>
        ensures meets { Meets self.old self.new (as_reply (λ _. replies.Done) result)
            (react self.old (steps.DropRead guest (index.Stream payload) handle)) }
        ensures stays { BasesStay self.old.guests self.new.guests }
        ensures takes_no_memory { result ≢ Err StoreError.OutOfMemory }
    {
        let ty = TransmitIndex::Stream(payload);
        let end = NamedEnd { guest, ty, handle };
        self.store.drop_alone(Side::Reading, &end)
    }
}
