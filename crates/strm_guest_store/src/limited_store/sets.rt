//! Waitable sets that are made.
//!
//! Meaning: `Limited.antt`, and `Reactions.antt` of `strm_machine`. Source: that of `GuestStore`'s call.

ghost use Rattle.std.specs.Prelude.{◌≡◌};
ghost use Rattle.strm_machine.specs.Bases.{BasesStay};
ghost use Rattle.strm_machine.specs.Reactions.{react};
ghost use Rattle.strm_machine.specs.declared.steps.Step.TheVariants as steps;
ghost use Rattle.strm_guest_store.specs.Limits.{is_past};
ghost use Rattle.strm_guest_store.specs.Limited.{KeepsLimits, GivesNumber};
ghost use Rattle.strm_guest_store.specs.declared.guest_limits.Gain.TheVariants.{Set};

use crate::guest_limits::{Gain, PastLimit};
use crate::limited_store::LimitedStore;
use strm_transmit::errors::StoreError;

impl LimitedStore {
    /// A new waitable set, as `GuestStore::set_new`, if the guest may have a handle more.
    pub fn set_new(&mut self, guest: u32) -> Result<Result<u32, StoreError>, PastLimit>
        ensures within { KeepsLimits self.old self.new
            (is_past self.old.store self.old.limits guest Set) result }
        ensures meets { GivesNumber self.old self.new result
            (react self.old.store (steps.SetNew guest)) }
        ensures stays { BasesStay self.old.store.guests self.new.store.guests }
    {
        if self.is_past(guest, Gain::Set) {
            return Err(PastLimit);
        }
        Ok(self.store.set_new(guest))
    }
}
