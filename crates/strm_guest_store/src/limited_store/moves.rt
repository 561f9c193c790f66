//! Ends that come to a guest.
//!
//! Meaning: `Limited.antt`, and `Moves.antt` of `strm_machine`. Source: those of `GuestStore`'s calls.

ghost use Rattle.std.specs.Prelude.{◌≡◌, ◌≢◌, IfOk, Err};
ghost use Rattle.strm_codes.specs.declared.codes.TransmitIndex.TheVariants as index;
ghost use Rattle.strm_machine.specs.Bases.{BasesStay};
ghost use Rattle.strm_machine.specs.Reactions.{react};
ghost use Rattle.strm_machine.specs.declared.steps.Step.TheVariants as steps;
ghost use Rattle.strm_guest_store.specs.Limits.{is_past, is_move_past};
ghost use Rattle.strm_guest_store.specs.Limited.{KeepsLimits, GivesNumber};
ghost use Rattle.strm_guest_store.specs.declared.guest_limits.Gain.TheVariants.{Ends};

use crate::guest_limits::{Gain, PastLimit};
use crate::limited_store::LimitedStore;
use strm_codes::codes::TransmitIndex;
use strm_codes::payloads::Payload;
use strm_transmit::errors::StoreError;

impl LimitedStore {
    /// An end of a stream to another guest, as `GuestStore::stream_transfer`, if that may have an end more;
    /// to the same guest it may always be moved.
    pub fn stream_transfer(
        &mut self,
        guest: u32,
        payload: Payload,
        handle: u32,
        to: u32,
    ) -> Result<Result<u32, StoreError>, PastLimit>
        ensures within { KeepsLimits self.old self.new
            (is_move_past self.old.store self.old.limits guest to) result }
        ensures meets { GivesNumber self.old self.new result
            (react self.old.store (steps.Move guest (index.Stream payload) handle to)) }
        ensures stays { BasesStay self.old.store.guests self.new.store.guests }
        ensures takes_no_memory { IfOk result (λ answer.
            guest ≡ to → answer ≢ Err StoreError.OutOfMemory) }
    {
        if self.is_move_past(guest, to) {
            return Err(PastLimit);
        }
        Ok(self.store.stream_transfer(guest, payload, handle, to))
    }

    /// An end of a future to another guest, as `GuestStore::future_transfer`, if that may have an end more;
    /// to the same guest it may always be moved.
    pub fn future_transfer(
        &mut self,
        guest: u32,
        payload: Payload,
        handle: u32,
        to: u32,
    ) -> Result<Result<u32, StoreError>, PastLimit>
        ensures within { KeepsLimits self.old self.new
            (is_move_past self.old.store self.old.limits guest to) result }
        ensures meets { GivesNumber self.old self.new result
            (react self.old.store (steps.Move guest (index.Future payload) handle to)) }
        ensures stays { BasesStay self.old.store.guests self.new.store.guests }
        ensures takes_no_memory { IfOk result (λ answer.
            guest ≡ to → answer ≢ Err StoreError.OutOfMemory) }
    {
        if self.is_move_past(guest, to) {
            return Err(PastLimit);
        }
        Ok(self.store.future_transfer(guest, payload, handle, to))
    }

    /// The loose read end of a stream into a guest, as `GuestStore::lower`, if that may have an end more.
    pub fn lower(
        &mut self,
        reader: u32,
        guest: u32,
        ty: TransmitIndex,
    ) -> Result<Result<u32, StoreError>, PastLimit>
        ensures within { KeepsLimits self.old self.new
            (is_past self.old.store self.old.limits guest (Ends 1)) result }
        ensures meets { GivesNumber self.old self.new result
            (react self.old.store (steps.Lower reader guest ty)) }
        ensures stays { BasesStay self.old.store.guests self.new.store.guests }
    {
        if self.is_past(guest, Gain::Ends { count: 1 }) {
            return Err(PastLimit);
        }
        Ok(self.store.lower(reader, guest, ty))
    }
}
