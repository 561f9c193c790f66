//! A store whose guests have limits: what gives a guest a handle first tests that it may have it.
//!
//! Meaning: `Limits.antt` and `Limited.antt`. Ours.

ghost use Rattle.std.specs.Prelude.{◌≡◌, ◌≢◌, ◌<◌, ℕ, [], length, Ok, Err, OnOk, OnErr};
ghost use Rattle.strm_machine.specs.State.{empty};
ghost use Rattle.strm_transmit.specs.Meets.{as_answer};
ghost use Rattle.strm_transmit.specs.Queries.{of_guest};
ghost use Rattle.strm_guest_store.specs.Limits.{limits_of, limits_answer, is_past, is_pair_past, is_move_past};

mod contexts;
mod making;
mod moves;
mod sets;

use crate::guest_limits::{Gain, GuestLimits, LimitsByGuest};
use crate::guest_store::GuestStore;
use std::alloc::Global;
use strm_codes::refusals::Refusal;
use strm_machine::limits::Limits;
use strm_transmit::errors::StoreError;

/// Guests, the streams between them, and how much each guest may have at once. What gives a guest a handle is
/// a call of this struct, which tests no limit but that guest's; every other call is one of `store`.
#[derive(Drop)]
pub struct LimitedStore {
    pub store: GuestStore,
    pub limits: LimitsByGuest,
}

impl LimitedStore {
    /// A store without guests, of this tag, under these limits of all guests together. None of a guest are
    /// set. Takes no memory.
    pub fn new(alloc: Global, tag: u64, limits: Limits) -> LimitedStore
        ensures store { result.store ≡ empty tag limits }
        ensures limits { result.limits ≡ [] }
    {
        LimitedStore {
            store: GuestStore::new(alloc, tag, limits),
            limits: LimitsByGuest::new(alloc),
        }
    }

    /// How much a guest may have at once. Refused: UnknownGuest.
    pub fn guest_limits(&self, guest: u32) -> Result<GuestLimits, Refusal>
        ensures exact { result ≡ limits_answer self.now.store self.now.limits guest }
    {
        if !self.store.has_guest(guest) {
            return Err(Refusal::UnknownGuest);
        }
        Ok(self.limits.get(guest))
    }

    /// Sets how much a guest may have at once. What it has stays, also where that is more; it only gets no
    /// more of it. Takes 16 bytes for each guest up to it. Refused: UnknownGuest.
    pub fn set_guest_limits(&mut self, guest: u32, limits: GuestLimits) -> Result<(), StoreError>
        ensures set { OnOk result (limits_of self.new.limits guest ≡ limits) }
        ensures others { OnOk result
            ((g : ℕ) → g ≢ guest → limits_of self.new.limits g ≡ limits_of self.old.limits g) }
        ensures err { OnErr result (self.new ≡ self.old) }
        ensures store { self.new.store ≡ self.old.store }

        // Where memory is there, only a guest that is not is refused.
        ensures exact { result ≢ Err StoreError.OutOfMemory →
            result ≡ as_answer (of_guest self.old.store guest (Ok tt)) }
        ensures memory { result ≡ Err StoreError.OutOfMemory → guest < length self.old.store.guests }
    {
        if !self.store.has_guest(guest) {
            return Err(StoreError::Refused(Refusal::UnknownGuest));
        }
        match self.limits.set(guest, limits) {
            Ok(()) => Ok(()),
            Err(_) => Err(StoreError::OutOfMemory),
        }
    }

    /// Whether a call would give a guest more than its limits allow. Not so of a guest that is not there, of
    /// which the call itself tells.
    #[inline(always)]
    pub fn is_past(&self, guest: u32, gain: Gain) -> bool
        ensures { result ≡ is_past self.now.store self.now.limits guest gain }
    {
        match self.store.guest_counts(guest) {
            Ok(counts) => self.limits.get(guest).passes(&counts, gain),
            Err(_) => false,
        }
    }

    // Whether the making of a stream would give one of its two guests more than it may have.
    #[inline(always)]
    fn is_pair_past(&self, writer: u32, reader: u32) -> bool
        ensures { result ≡ is_pair_past self.now.store self.now.limits writer reader }
    {
        // Where none has a bound, none passes it.
        if self.limits.is_empty() {
            self.store.among_guests();
            return false;
        }
        if writer == reader {
            return self.is_past(writer, Gain::Ends { count: 2 });
        }
        let one = Gain::Ends { count: 1 };
        self.is_past(writer, one) || self.is_past(reader, one)
    }

    // Whether the move of an end would give a guest more than it may have.
    fn is_move_past(&self, guest: u32, to: u32) -> bool
        ensures { result ≡ is_move_past self.now.store self.now.limits guest to }
    {
        guest != to && self.is_past(to, Gain::Ends { count: 1 })
    }
}
