//! Whose the item is at which a read or write stops, and which of that write's items it is.
//!
//! Meaning: `BadItems.antt`, and `Asked.antt` of `strm_machine`. Source: Canonical ABI, `load` of a char
//! and of a variant, which trap. Ours: that it is asked, by which nothing changes.

ghost use Rattle.std.specs.Prelude.{◌≡◌, ◌+◌, ◌*◌, ◌^◌, ◌<◌, ◌≤◌, ℕ, true, length, drop, min, IfSome, IsNone, IsSome};
ghost use Rattle.strm_codes.specs.Layout.{item_type};
ghost use Rattle.strm_codes.specs.ItemTypes.{item_size};
ghost use Rattle.strm_memory.specs.Items.{items_at, IsFirstBadItem};
ghost use Rattle.strm_machine.specs.Asked.{HasBadItem};
ghost use Rattle.strm_machine.specs.Soundness.{sizes_of, IsPlaced};
ghost use Rattle.strm_machine.specs.State.{is_held, memory_in};
ghost use Rattle.strm_machine.specs.Sides.{write_of};
ghost use Rattle.strm_machine.specs.declared.streams.Owner.TheVariants.{Held};
ghost use Rattle.strm_machine.proofs.HeldLemmas.{StateIsHeld};
ghost use Rattle.strm_transmit.specs.BadItems.{operation_step, open_across, IsFirstBad, IsBadItem};
ghost use Rattle.strm_transmit.specs.Guests.{AreOfOwners};

use crate::store::Store;
use strm_channels::channels::Channel;
use strm_channels::guests::memory;
use strm_channels::meetings::begin;
use strm_channels::sides::opposite;
use strm_codes::counts::ItemCount;
use strm_codes::payloads::Payload;
use strm_machine::acts::NamedEnd;
use strm_machine::streams::{Operation, Owner, Side};
use strm_memory::good_items::count_good_items;

/// An item with a char that is no Unicode scalar value, or the number of a case that there is not, and
/// who writes it.
#[derive(Clone, Copy, Debug, PartialEq, Eq)]
pub struct BadItem {
    /// The guest that has the write end.
    pub guest: u32,
    /// Its handle of that end.
    pub handle: u32,
    /// The item's place among all items of the write, from 0.
    pub index: u32,
}

// The write, of a caller's operation on a side and the other side's.
fn write_of<'a>(side: Side, mine: &'a Operation, theirs: &'a Operation) -> &'a Operation
    ensures { result.now ≡ write_of side mine.now theirs.now }
{
    match side {
        Side::Writing => mine,
        Side::Reading => theirs,
    }
}

fn lesser(one: ItemCount, other: ItemCount) -> ItemCount
    ensures { result ≡ min one other }
{
    if one.as_u32() < other.as_u32() {
        one
    } else {
        other
    }
}

// The operation that is open across from the end on a side, which is there.
fn open_across(side: Side, stream: &Channel) -> Option<Operation>
    ensures { result ≡ open_across side stream.now }
{
    if stream.owner(opposite(side)) == Owner::Gone {
        return None;
    }
    match stream.operation(opposite(side)) {
        Some(theirs) if theirs.is_open => Some(theirs),
        _ => None,
    }
}

// The guest that has the write end, and its handle of it.
fn writer(stream: &Channel) -> (u32, u32)
    requires { is_held stream.now.writer.owner ≡ true }
    ensures { stream.now.writer.owner ≡ Held result.0 result.1 }
{
    match stream.owner(Side::Writing) {
        Owner::Held { guest, handle } => (guest, handle),
        _ => unreachable!(),
    }
}

// Which of so many items that lie from a place on is the first that is none.
fn first_bad(bytes: &[u8], from: usize, payload: &Payload, count: usize) -> Option<u32>
    requires holds { from + item_size (item_type payload.now) * count ≤ length bytes.now }
    requires few { count < 2 ^ 28 }
    ensures some { IfSome result (λ place.
        IsFirstBadItem (item_type payload.now) (drop from bytes.now) count place) }
    ensures none { IsNone result → IsSome (items_at (item_type payload.now) bytes.now from count) }
{
    let place = count_good_items(bytes, from, payload, count);
    if place < count {
        Some(place as u32)
    } else {
        None
    }
}

impl Store {
    // Handles and ends agree.
    #[inline(always)]
    pub(crate) fn held(&self)
        ensures { StateIsHeld self.now }
    {
        let _ = &self.contexts;
    }

    // Which of so many items of a write, some at all, is the first that is none.
    fn first_bad_of(&self, write: &Operation, payload: &Payload, count: ItemCount) -> Option<u32>
        requires placed { IsPlaced (sizes_of self.now.guests) payload.now write.now }
        requires left { count ≤ write.now.left }
        requires some { 0 < count }
        ensures some { IfSome result (λ place.
            IsFirstBad self.now payload.now write.now count place) }
        ensures none { IsNone result → IsSome (items_at (item_type payload.now)
            (memory_in self.now.guests write.now.guest) write.now.address count) }
    {
        if payload.size() == 0 {
            return None;
        }
        let memory = memory(&self.guests, write.guest as usize);
        let from = write.address as usize;
        first_bad(memory.bytes(), from, payload, count.as_usize())
    }

    /// The item at which a read or write would stop: whose it is, and its place; none where it would not.
    /// Nothing changes. It costs a look at the items up to that one.
    pub fn bad_item(&self, side: Side, end: &NamedEnd, address: u32, count: u32) -> Option<BadItem>
        requires owned { AreOfOwners self.now.streams }
        ensures some { IfSome result (IsBadItem self.now (operation_step side end.now address count)) }
        ensures none { IsNone result →
            (s : ℕ) → HasBadItem self.now (operation_step side end.now address count) s → ⊥ }
    {
        self.sound();
        self.held();
        let Ok(found) = self.operation_found(side, end, address, count) else {
            return None;
        };
        let stream = self.stream(found.0);
        let Some(theirs) = open_across(side, stream) else {
            return None;
        };
        let mine = begin(end.guest, address, found.1);
        let write = write_of(side, &mine, &theirs);
        let both = lesser(mine.left, theirs.left);
        if both.equals_u32(0) {
            return None;
        }
        let Some(place) = self.first_bad_of(write, &stream.payload(), both) else {
            return None;
        };
        let (guest, handle) = writer(stream);
        let index = write.moved.as_u32() + place;
        Some(BadItem {
            guest,
            handle,
            index,
        })
    }
}
