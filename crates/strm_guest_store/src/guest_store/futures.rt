//! Futures, as streams of one value.
//!
//! Meaning: `Reactions.antt` of `strm_machine`. Source: Canonical ABI, `canon future.write` and the others.

ghost use Rattle.std.specs.Prelude.{◌≢◌, Err};
ghost use Rattle.strm_codes.specs.declared.codes.TransmitIndex.TheVariants as index;
ghost use Rattle.strm_machine.specs.Bases.{BasesStay};
ghost use Rattle.strm_machine.specs.Reactions.{react};
ghost use Rattle.strm_machine.specs.declared.replies.Reply.TheVariants as replies;
ghost use Rattle.strm_machine.specs.declared.steps.Step.TheVariants as steps;
ghost use Rattle.strm_transmit.specs.Meets.{Meets, as_reply};
ghost use Rattle.strm_guest_store.specs.Operations.{MeetsOrTells};

use crate::guest_store::GuestStore;
use crate::operations::OperateError;
use strm_codes::codes::{ReturnCode, TransmitIndex};
use strm_codes::payloads::Payload;
use strm_machine::acts::NamedEnd;
use strm_machine::streams::Side;
use strm_transmit::errors::StoreError;

#[tactic(auto, using(crate::proofs::AmongLemmas::plain_among, crate::proofs::BaseLemmas::plain_stays))]
impl GuestStore {
    /// Writes the value that lies at an address of the guest's memory. `canon future.write`.
    #[inline(always)]
    pub fn future_write(
        &mut self,
        guest: u32,
        payload: Payload,
        handle: u32,
        address: u32,
    ) -> Result<ReturnCode, OperateError>
        ensures meets { MeetsOrTells self.old self.new result
            (steps.Write guest (index.Future payload) handle address 1) }
        ensures stays { BasesStay self.old.guests self.new.guests }
    {
        let ty = TransmitIndex::Future(payload);
        let end = NamedEnd { guest, ty, handle };
        self.operate(Side::Writing, &end, address, 1)
    }

    /// Reads the value to an address of the guest's memory. `canon future.read`.
    #[inline(always)]
    pub fn future_read(
        &mut self,
        guest: u32,
        payload: Payload,
        handle: u32,
        address: u32,
    ) -> Result<ReturnCode, OperateError>
        ensures meets { MeetsOrTells self.old self.new result
            (steps.Read guest (index.Future payload) handle address 1) }
        ensures stays { BasesStay self.old.guests self.new.guests }
    {
        let ty = TransmitIndex::Future(payload);
        let end = NamedEnd { guest, ty, handle };
        self.operate(Side::Reading, &end, address, 1)
    }

    /// Cancels the write of a future. `canon future.cancel-write`.
    pub fn future_cancel_write(
        &mut self,
        guest: u32,
        payload: Payload,
        handle: u32,
    ) -> Result<ReturnCode, StoreError>
        ensures meets { Meets self.old self.new (as_reply replies.Code result)
            (react self.old (steps.CancelWrite guest (index.Future payload) handle)) }
        ensures stays { BasesStay self.old.guests self.new.guests }
        ensures takes_no_memory { result ≢ Err StoreError.OutOfMemory }
    {
        self.store.future_cancel_write(guest, payload, handle)
    }

    /// Cancels the read of a future. `canon future.cancel-read`.
    pub fn future_cancel_read(
        &mut self,
        guest: u32,
        payload: Payload,
        handle: u32,
    ) -> Result<ReturnCode, StoreError>
        ensures meets { Meets self.old self.new (as_reply replies.Code result)
            (react self.old (steps.CancelRead guest (index.Future payload) handle)) }
        ensures stays { BasesStay self.old.guests self.new.guests }
        ensures takes_no_memory { result ≢ Err StoreError.OutOfMemory }
    {
        self.store.future_cancel_read(guest, payload, handle)
    }

    /// Drops the write end of a future. `canon future.drop-writable`. It is refused (FutureWithoutValue)
    /// before the value has passed, or the end was told that nobody reads it.
    #[inline(always)]
    pub fn future_drop_writable(
        &mut self,
        guest: u32,
        payload: Payload,
        handle: u32,
    ) -> Result<(), StoreError>
        ensures meets { Meets self.old self.new (as_reply (λ _. replies.Done) result)
            (react self.old (steps.DropWrite guest (index.Future payload) handle)) }
        ensures stays { BasesStay self.old.guests self.new.guests }
        ensures takes_no_memory { result ≢ Err StoreError.OutOfMemory }
    {
        let ty = TransmitIndex::Future(payload);
        let end = NamedEnd { guest, ty, handle };
        self.store.drop_alone(Side::Writing, &end)
    }

    /// Drops the read end of a future. `canon future.drop-readable`.
    #[inline(always)]
    pub fn future_drop_readable(
        &mut self,
        guest: u32,
        payload: Payload,
        handle: u32,
    ) -> Result<(), StoreError>
        ensures meets { Meets self.old self.new (as_reply (λ _. replies.Done) result)
            (react self.old (steps.DropRead guest (index.Future payload) handle)) }
        ensures stays { BasesStay self.old.guests self.new.guests }
        ensures takes_no_memory { result ≢ Err StoreError.OutOfMemory }
    {
        let ty = TransmitIndex::Future(payload);
        let end = NamedEnd { guest, ty, handle };
        self.store.drop_alone(Side::Reading, &end)
    }
}
