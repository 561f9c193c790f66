//! Which members of waitable sets are ready, kept as ends get reports and lose them, so that a poll
//! asks no member. Nothing is kept until an end joins a set.
//!
//! Meaning: `Telling.antt`, and `Ready.antt` of `strm_waitable_sets`. Source: Component Model,
//! `Waitable.has_pending_event`. Ours: that it is kept. No memory is taken but by a join.

ghost use Rattle.std.specs.Prelude.{◌≡◌, ◌≢◌, ℕ, Bool, true, false, ◌<◌, length, [], slice_index_or, Some, is_some};
ghost use Rattle.strm_waitable_sets.specs.Sets.{set_of};
ghost use Rattle.strm_machine.specs.State.{sets_in};
ghost use Rattle.strm_machine.specs.Sides.{end_of};
ghost use Rattle.strm_machine.specs.declared.streams.Owner.TheVariants.{Held};
ghost use Rattle.strm_channels.specs.Guests.{guests_of};
ghost use Rattle.strm_transmit.specs.Telling.{SaysOf, member_of, has_report, Retells, Leaves};

use std::alloc::Global;
use strm_channels::channels::Channel;
use strm_channels::guests::Guest;
use strm_machine::streams::{Owner, Side};
use strm_waitable_sets::ready::ReadySets;

// The set that a guest's handle is in.
#[inline(always)]
pub(crate) fn home_of(guests: &Vec<Guest>, guest: usize, handle: u32) -> Option<u32>
    requires { guest < length guests.now.items }
    ensures { result ≡ set_of (sets_in (guests_of guests.now.items) guest) handle }
{
    guests[guest].sets.set_of(handle)
}

// A member of a guest's set is ready or not from now on.
#[inline(always)]
fn set_ready(ready: &mut Vec<ReadySets>, guest: usize, set: u32, handle: u32, is_ready: bool)
    ensures told { SaysOf ready.new.items guest set handle is_ready }
    ensures others { (g number other : ℕ) (b : Bool) → SaysOf ready.old.items g number other b
        → (g ≡ guest → number ≡ set → other ≡ handle → b ≡ is_ready)
        → SaysOf ready.new.items g number other b }
{
    if guest < ready.len() {
        ready[guest].set_ready(set, handle, is_ready);
    }
}

// What is known of the handle that a guest has an end under is whether the end has a report.
#[inline(always)]
fn retell_held(
    ready: &mut Vec<ReadySets>,
    guests: &Vec<Guest>,
    guest: usize,
    handle: u32,
    is_ready: bool,
)
    ensures told { (number : ℕ) → member_of (guests_of guests.now.items) guest number handle ≡ true
        → SaysOf ready.new.items guest number handle is_ready }
    ensures others { (g number other : ℕ) (b : Bool) → SaysOf ready.old.items g number other b → (g
        ≡ guest → other ≡ handle → member_of (guests_of guests.now.items) g number other ≡ true → b
        ≡ is_ready) → SaysOf ready.new.items g number other b }
{
    if guest >= guests.len() {
        return;
    }
    if let Some(set) = home_of(guests, guest, handle) {
        set_ready(ready, guest, set, handle, is_ready);
    }
}

// Whether nothing is known of the sets of a guest.
#[inline(always)]
fn knows_nothing(ready: &Vec<ReadySets>, guest: usize) -> bool
    ensures { result ≡ true → slice_index_or ready.now.items guest [] ≡ [] }
{
    guest >= ready.len() || ready[guest].is_empty()
}

// The same of the end on a side of a stream, if a guest has it.
#[inline(always)]
fn retell_end(ready: &mut Vec<ReadySets>, guests: &Vec<Guest>, stream: &Channel, side: Side)
    ensures told { (g number handle : ℕ) → (end_of side stream.now).owner ≡ Held g handle
        → member_of (guests_of guests.now.items) g number handle ≡ true
        → SaysOf ready.new.items g number handle (has_report side stream.now) }
    ensures others { (g number handle : ℕ) (b : Bool) → SaysOf ready.old.items g number handle b
        → ((end_of side stream.now).owner ≡ Held g handle
        → member_of (guests_of guests.now.items) g number handle ≡ true
        → b ≡ has_report side stream.now)
        → SaysOf ready.new.items g number handle b }
{
    let Owner::Held { guest, handle } = stream.owner(side) else {
        return;
    };
    if knows_nothing(ready, guest as usize) {
        return;
    }
    let is_ready = stream.report(side).is_some();
    retell_held(ready, guests, guest as usize, handle, is_ready);
}

/// What is known of the ends of a stream is as it is now. It takes no memory.
#[inline(always)]
pub(crate) fn retell(ready: &mut Vec<ReadySets>, guests: &Vec<Guest>, stream: &Channel)
    ensures { Retells (guests_of guests.now.items) stream.now ready.old.items ready.new.items }
{
    if !ready.is_empty() {
        retell_ends(ready, guests, stream);
    }
}

// The same where some guest knows of a set, apart from the code for none.
#[inline(never)]
fn retell_ends(ready: &mut Vec<ReadySets>, guests: &Vec<Guest>, stream: &Channel)
    ensures { Retells (guests_of guests.now.items) stream.now ready.old.items ready.new.items }
{
    retell_end(ready, guests, stream, Side::Writing);
    retell_end(ready, guests, stream, Side::Reading);
}

/// A handle of a guest leaves the set that it is in, if it is in one. It takes no memory.
#[inline(always)]
pub(crate) fn leave(ready: &mut Vec<ReadySets>, guest: usize, home: Option<u32>, handle: u32)
    ensures { Leaves guest handle home ready.old.items ready.new.items }
{
    let Some(set) = home else {
        return;
    };
    if guest < ready.len() {
        ready[guest].leave(set, handle);
    }
}

// Places up to that of a guest, where there is memory; nothing is known of the sets of new ones.
fn widen(ready: &mut Vec<ReadySets>, guest: usize, alloc: Global)
    ensures { (g : ℕ) → slice_index_or ready.new.items g [] ≡ slice_index_or ready.old.items g [] }
{
    while ready.len() <= guest {
        if ready.push(ReadySets::new(alloc)).is_err() {
            return;
        }
    }
}

// A set of a guest is to have one member more; whether it had none before.
fn make_place(ready: &mut Vec<ReadySets>, guest: usize, set: u32, is_empty: bool, alloc: Global)
    ensures { (g number other : ℕ) (b : Bool) → SaysOf ready.old.items g number other b
        → (g ≡ guest → number ≡ set → is_empty ≡ true → b ≡ false)
        → SaysOf ready.new.items g number other b }
{
    widen(ready, guest, alloc);
    if guest < ready.len() {
        ready[guest].join(set, is_empty);
    }
}

/// A handle of a guest joined a set, which had no member before or had some, and is ready or not.
/// Where there is no memory, the ready members of the set are not known any more.
pub(crate) fn join(
    ready: &mut Vec<ReadySets>,
    guest: usize,
    set: u32,
    is_empty: bool,
    handle: u32,
    is_ready: bool,
    alloc: Global,
)
    ensures told { SaysOf ready.new.items guest set handle is_ready }
    ensures others { (g number other : ℕ) (b : Bool) → SaysOf ready.old.items g number other b
        → (g ≡ guest → number ≡ set → other ≢ handle)
        → (g ≡ guest → number ≡ set → is_empty ≡ true → b ≡ false)
        → SaysOf ready.new.items g number other b }
{
    make_place(ready, guest, set, is_empty, alloc);
    set_ready(ready, guest, set, handle, is_ready);
}
