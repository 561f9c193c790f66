//! The limits of a guest: how much it may have at once.
//!
//! Meaning: `Limits.antt`. Ours.

ghost use Rattle.std.specs.Prelude.{◌≡◌, ◌≢◌, ◌<◌, ◌+◌, ◌*◌, ℕ, true, [], length, nat_lt, OnOk, OnErr};
ghost use Rattle.strm_machine.specs.ErrorContexts.{message_limit};
ghost use Rattle.strm_guest_store.specs.Limits.{unbounded, limits_of, passes_limits};

use std::alloc::Global;
use std::marker::Model;
use strm_codes::counts::OutOfMemory;
use strm_transmit::GuestCounts;
use thiserror::Error;

/// How much a guest may have at once.
#[derive(Clone, Copy, Debug, PartialEq, Eq)]
pub struct GuestLimits {
    /// Handles, of whatever kind.
    pub handles: u32,
    /// Ends of streams and futures among them, so it is at that many streams and futures at most.
    pub ends: u32,
    /// Bytes that the store keeps for it: 4,096 for each handle of an error context, the longest that a
    /// message can be. Those of its memory, which the embedder gives, are not among them.
    pub bytes: u64,
}

impl GuestLimits {
    /// No bound: what holds of a guest whose limits were never set.
    pub fn unbounded() -> GuestLimits
        ensures { result ≡ unbounded }
    {
        GuestLimits {
            handles: u32::MAX,
            ends: u32::MAX,
            bytes: u64::MAX,
        }
    }

    // Whether a guest that has so much would pass its limits by what a call would give.
    pub(crate) fn passes(&self, counts: &GuestCounts, gain: Gain) -> bool
        ensures { result ≡ passes_limits self.now counts.now gain }
    {
        match gain {
            Gain::Ends { count } => {
                is_above(self.handles, counts.handles, count)
                    || is_above(self.ends, counts.ends, count)
            }
            Gain::Set => is_above(self.handles, counts.handles, 1),
            Gain::Context => {
                is_above(self.handles, counts.handles, 1)
                    || bytes_with_one_more(counts.contexts) > self.bytes
            }
        }
    }
}

/// What a call would give a guest.
#[derive(Clone, Copy)]
pub enum Gain {
    /// So many handles of ends of streams and futures.
    Ends { count: u32 },
    /// A handle of a waitable set.
    Set,
    /// A handle of an error context.
    Context,
}

/// A call would give a guest more than its limits allow, and nothing has changed.
#[derive(Clone, Copy, Debug, PartialEq, Eq, Error)]
#[error("the guest's limit would be passed")]
pub struct PastLimit;

// Whether so many and so many more are above a limit.
fn is_above(limit: u32, count: u32, more: u32) -> bool
    ensures { result ≡ nat_lt limit (count + more) }
{
    u64::from(count) + u64::from(more) > u64::from(limit)
}

// The bytes that the store keeps for handles of error contexts, and for one more.
fn bytes_with_one_more(contexts: u32) -> u64
    ensures { result ≡ message_limit * (contexts + 1) }
{
    4096 * (u64::from(contexts) + 1)
}

/// The limits of each guest, by its number.
#[derive(Drop)]
pub struct LimitsByGuest {
    // Of guests past the last there is no bound.
    limits: Vec<GuestLimits>,
}

impl Model for LimitsByGuest {
    ghost use Rattle.std.specs.Prelude.{List};
    ghost use Rattle.strm_guest_store.specs.declared.guest_limits.GuestLimits.{GuestLimits};

    ghost Value = { List GuestLimits };

    ghost view = { λ l. l.limits.items };
}

impl LimitsByGuest {
    /// No guest has a bound. Takes no memory.
    pub fn new(alloc: Global) -> LimitsByGuest
        ensures { result ≡ [] }
    {
        LimitsByGuest {
            limits: Vec::new(alloc),
        }
    }

    /// Whether no guest's limits were ever set.
    #[inline(always)]
    pub fn is_empty(&self) -> bool
        ensures { result ≡ true → self.now ≡ [] }
    {
        self.limits.is_empty()
    }

    /// The limits of a guest.
    pub fn get(&self, guest: u32) -> GuestLimits
        ensures { result ≡ limits_of self.now guest }
    {
        if guest as usize >= self.limits.len() {
            return GuestLimits::unbounded();
        }
        self.limits[guest as usize]
    }

    // A place for the limits of a guest; those of no guest change.
    fn grow(&mut self, guest: u32) -> Result<(), OutOfMemory>
        ensures same { (g : ℕ) → limits_of self.new g ≡ limits_of self.old g }
        ensures there { OnOk result (guest < length self.new) }
        ensures err { OnErr result (self.new ≡ self.old) }
    {
        let count = guest as usize + 1;
        if count <= self.limits.len() {
            return Ok(());
        }
        match self.limits.resize(count, GuestLimits::unbounded()) {
            Ok(()) => Ok(()),
            Err(_) => Err(OutOfMemory),
        }
    }

    /// Sets the limits of a guest. Takes 16 bytes for each guest up to it.
    pub fn set(&mut self, guest: u32, limits: GuestLimits) -> Result<(), OutOfMemory>
        ensures set { OnOk result (limits_of self.new guest ≡ limits) }
        ensures others { OnOk result
            ((g : ℕ) → g ≢ guest → limits_of self.new g ≡ limits_of self.old g) }
        ensures err { OnErr result (self.new ≡ self.old) }
    {
        self.grow(guest)?;
        self.limits[guest as usize] = limits;
        Ok(())
    }
}
