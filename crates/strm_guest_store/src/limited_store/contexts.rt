//! Error contexts that come to a guest.
//!
//! Meaning: `Limited.antt`, and `Reactions.antt` of `strm_machine`. Source: those of `GuestStore`'s calls.

ghost use Rattle.std.specs.Prelude.{◌≡◌};
ghost use Rattle.strm_machine.specs.Bases.{BasesStay};
ghost use Rattle.strm_machine.specs.Reactions.{react, lowers_context};
ghost use Rattle.strm_machine.specs.declared.steps.Step.TheVariants as steps;
ghost use Rattle.strm_guest_store.specs.Limits.{is_past};
ghost use Rattle.strm_guest_store.specs.Limited.{KeepsLimits, GivesNumber};
ghost use Rattle.strm_guest_store.specs.declared.guest_limits.Gain.TheVariants.{Context};

use crate::guest_limits::{Gain, PastLimit};
use crate::limited_store::LimitedStore;
use strm_transmit::errors::StoreError;

impl LimitedStore {
    /// An error context of a guest's bytes, as `GuestStore::error_context_new`, if the guest may have one
    /// more.
    pub fn error_context_new(
        &mut self,
        guest: u32,
        address: u32,
        len: u32,
    ) -> Result<Result<u32, StoreError>, PastLimit>
        ensures within { KeepsLimits self.old self.new
            (is_past self.old.store self.old.limits guest Context) result }
        ensures meets { GivesNumber self.old self.new result
            (react self.old.store (steps.ErrNew guest address len)) }
        ensures stays { BasesStay self.old.store.guests self.new.store.guests }
    {
        if self.is_past(guest, Gain::Context) {
            return Err(PastLimit);
        }
        Ok(self.store.error_context_new(guest, address, len))
    }

    /// An error context to another guest, or to the same, as `GuestStore::error_context_transfer`, if that may
    /// have one more.
    pub fn error_context_transfer(
        &mut self,
        guest: u32,
        handle: u32,
        to: u32,
    ) -> Result<Result<u32, StoreError>, PastLimit>
        ensures within { KeepsLimits self.old self.new
            (is_past self.old.store self.old.limits to Context) result }
        ensures meets { GivesNumber self.old self.new result
            (react self.old.store (steps.ErrMove guest handle to)) }
        ensures stays { BasesStay self.old.store.guests self.new.store.guests }
    {
        if self.is_past(to, Gain::Context) {
            return Err(PastLimit);
        }
        Ok(self.store.error_context_transfer(guest, handle, to))
    }

    /// A handle to the error context of a number, as `GuestStore::error_context_lower`, if the guest may have
    /// one more.
    pub fn error_context_lower(
        &mut self,
        rep: u32,
        guest: u32,
    ) -> Result<Result<u32, StoreError>, PastLimit>
        ensures within { KeepsLimits self.old self.new
            (is_past self.old.store self.old.limits guest Context) result }
        ensures meets { GivesNumber self.old self.new result
            (lowers_context self.old.store rep guest) }
        ensures stays { BasesStay self.old.store.guests self.new.store.guests }
    {
        if self.is_past(guest, Gain::Context) {
            return Err(PastLimit);
        }
        Ok(self.store.error_context_lower(rep, guest))
    }
}
