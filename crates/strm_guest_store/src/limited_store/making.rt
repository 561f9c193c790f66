//! Streams and futures that are made.
//!
//! Meaning: `Limited.antt`, and `Again.antt` of `strm_places`. Source: those of `GuestStore`'s calls.

ghost use Rattle.std.specs.Prelude.{◌≡◌, IfOk};
ghost use Rattle.strm_codes.specs.declared.codes.TransmitIndex.TheVariants as index;
ghost use Rattle.strm_machine.specs.Bases.{BasesStay};
ghost use Rattle.strm_machine.specs.declared.replies.Reply.TheVariants as replies;
ghost use Rattle.strm_machine.specs.declared.steps.Step.TheVariants as steps;
ghost use Rattle.strm_places.specs.Again.{reacts_at};
ghost use Rattle.strm_transmit.specs.Again.{MeetsAt};
ghost use Rattle.strm_transmit.specs.Meets.{as_reply};
ghost use Rattle.strm_guest_store.specs.Limits.{is_past, is_pair_past};
ghost use Rattle.strm_guest_store.specs.Limited.{KeepsLimits};
ghost use Rattle.strm_guest_store.specs.declared.guest_limits.Gain.TheVariants.{Ends};

use crate::guest_limits::{Gain, PastLimit};
use crate::limited_store::LimitedStore;
use strm_codes::codes::TransmitIndex;
use strm_codes::payloads::Payload;
use strm_machine::replies::Pair;
use strm_transmit::errors::StoreError;

impl LimitedStore {
    /// A new stream whose ends one guest gets, as `GuestStore::stream_new`, if it may have two ends more.
    pub fn stream_new(
        &mut self,
        guest: u32,
        payload: Payload,
    ) -> Result<Result<Pair, StoreError>, PastLimit>
        ensures within { KeepsLimits self.old self.new
            (is_past self.old.store self.old.limits guest (Ends 2)) result }
        ensures meets { IfOk result (λ answer.
            MeetsAt self.old.store self.new.store (as_reply replies.Pair answer)
            (λ n. reacts_at n self.old.store (steps.New guest (index.Stream payload)))) }
        ensures stays { BasesStay self.old.store.guests self.new.store.guests }
    {
        if self.is_past(guest, Gain::Ends { count: 2 }) {
            return Err(PastLimit);
        }
        Ok(self.store.stream_new(guest, payload))
    }

    /// A new future whose ends one guest gets, as `GuestStore::future_new`, if it may have two ends more.
    pub fn future_new(
        &mut self,
        guest: u32,
        payload: Payload,
    ) -> Result<Result<Pair, StoreError>, PastLimit>
        ensures within { KeepsLimits self.old self.new
            (is_past self.old.store self.old.limits guest (Ends 2)) result }
        ensures meets { IfOk result (λ answer.
            MeetsAt self.old.store self.new.store (as_reply replies.Pair answer)
            (λ n. reacts_at n self.old.store (steps.New guest (index.Future payload)))) }
        ensures stays { BasesStay self.old.store.guests self.new.store.guests }
    {
        if self.is_past(guest, Gain::Ends { count: 2 }) {
            return Err(PastLimit);
        }
        Ok(self.store.future_new(guest, payload))
    }

    /// A stream or future between two guests, as `GuestStore::new_between`, if each may have the end that it
    /// would get.
    #[inline(always)]
    pub fn new_between(
        &mut self,
        writer: u32,
        reader: u32,
        ty: TransmitIndex,
    ) -> Result<Result<Pair, StoreError>, PastLimit>
        ensures within { KeepsLimits self.old self.new
            (is_pair_past self.old.store self.old.limits writer reader) result }
        ensures meets { IfOk result (λ answer.
            MeetsAt self.old.store self.new.store (as_reply replies.Pair answer)
            (λ n. reacts_at n self.old.store (steps.Between writer reader ty))) }
        ensures stays { BasesStay self.old.store.guests self.new.store.guests }
    {
        if self.is_pair_past(writer, reader) {
            return Err(PastLimit);
        }
        Ok(self.store.new_between(writer, reader, ty))
    }
}
