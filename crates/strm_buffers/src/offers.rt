//! The offer that a poll takes items from: a writer's own bytes, or a list between two host ends.
//!
//! Source: wasmtime, `futures_and_streams.rs`, `Source` and `DirectSource`. Ours: the offer owns the
//! items while the poll lasts, and gives them back unchanged.

ghost use Rattle.std.specs.Prelude.{◌≡◌, ◌+◌, ◌*◌, ◌-◌, ◌≤◌, min, [], length, false, None, IsTrue, IfSome};
ghost use Rattle.std.specs.Bool.{then_some};
ghost use Rattle.strm_codes.specs.Layout.{item_type};
ghost use Rattle.strm_codes.specs.ItemTypes.{item_size};
ghost use Rattle.strm_codes.specs.Begins.{FitsItem};
ghost use Rattle.strm_codes.specs.declared.payloads.Payload.TheVariants.{One};
ghost use Rattle.strm_codes.specs.declared.scalars.Scalar.TheVariants.{U8};
ghost use Rattle.strm_buffers.specs.declared.sources.Source.TheVariants.{Region, Listed};
ghost use Rattle.strm_buffers.specs.Listing.{LieIn, items_in};
ghost use Rattle.strm_buffers.specs.Tells.{first_lent};
ghost use Rattle.strm_buffers.specs.Offers.{items_lent, item_behind, good_lent, left_of, after_next, IsSource, IsBadNext, IsOffer, IsRegion, IsList, IsMemoryOf, IsItemsOf, Shows};

use crate::items::Items;
use crate::kept_bytes::are_bytes;
use crate::sources::Source;
use std::marker::Model;
use strm_codes::payloads::Payload;
use strm_codes::values::Value;
use strm_memory::good_items::count_good_items;
use strm_memory::items::lift_item_into;
use strm_memory::memories::GuestMemory;

/// Items to be taken from their front.
#[derive(Drop)]
pub struct Offer {
    payload: Payload,
    source: Source,
    since: u32,
    taken: u32,
    bad: bool,
}

impl Model for Offer {
    ghost use Rattle.strm_buffers.specs.Offers.{Offered, IsOffer};

    ghost Value = { Offered };

    ghost view = { λ o. record { payload = o.payload; source = o.source; since = o.since; taken = o.taken; bad = o.bad } };

    ghost invariant = { λ o. IsOffer o.payload o.source o.taken o.bad };
}

impl Offer {
    /// Lends so many items of a memory from an address on. `since` is how many were taken since the
    /// end was last ready.
    #[inline(always)]
    pub fn of_memory(
        memory: GuestMemory,
        payload: Payload,
        address: u32,
        remaining: u32,
        since: u32,
    ) -> Offer
        requires { address + item_size (item_type payload) * remaining ≤ length memory.bytes }
        ensures { result ≡ record {
          payload = payload;
          source = Region memory address remaining;
          since = since;
          taken = 0;
          bad = false;
        } }
    {
        Offer {
            payload,
            source: Source::Region {
                memory,
                address,
                count: remaining,
            },
            since,
            taken: 0,
            bad: false,
        }
    }

    /// Lends a list of items.
    pub fn of_items(items: Items, since: u32) -> Offer
        ensures { result ≡ record {
          payload = items.payload;
          source = Listed items;
          since = since;
          taken = 0;
          bad = false;
        } }
    {
        let _few = items.len();
        Offer {
            payload: items.payload(),
            source: Source::Listed { items },
            since,
            taken: 0,
            bad: false,
        }
    }

    /// Gives the memory back, and the number taken.
    #[inline(always)]
    pub fn into_memory(self) -> (GuestMemory, u32)
        requires { IsRegion self.source }
        ensures memory { IsMemoryOf self.source result.0 }
        ensures taken { result.1 ≡ self.taken }
    {
        let Offer { source, taken, .. } = self;
        match source {
            Source::Region { memory, .. } => (memory, taken),
            Source::Listed { .. } => unreachable!(),
        }
    }

    /// Gives the items back, those that were taken among them, and the number taken.
    pub fn into_items(self) -> (Items, u32)
        requires { IsList self.source }
        ensures items { IsItemsOf self.source result.0 }
        ensures taken { result.1 ≡ self.taken }
    {
        let Offer { source, taken, .. } = self;
        match source {
            Source::Listed { items } => (items, taken),
            Source::Region { .. } => unreachable!(),
        }
    }

    /// Takes so many items more, which were read from what `direct` lends.
    pub fn mark_read(&mut self, count: usize)
        requires payload { self.old.payload ≡ One U8 }
        requires there { self.old.taken + count ≤ items_lent self.old.source }
        ensures { self.new ≡ record self.old { taken = self.old.taken + count } }
    {
        self.taken = (self.taken as usize + count) as u32;
    }

    /// How many of the next so many items are good, up to the first bad one: those of a list are, and of a
    /// memory only characters are looked at.
    pub(crate) fn count_good(&self, count: u32) -> u32
        requires { self.now.taken + count ≤ items_lent self.now.source }
        ensures { result ≡ min count (length (left_of self.now)) }
    {
        match &self.source {
            Source::Region {
                memory,
                address,
                ..
            } => {
                let at = *address as usize + self.payload.size() as usize * self.taken as usize;
                count_good_items(memory.bytes(), at, &self.payload, count as usize) as u32
            }
            Source::Listed { .. } => count,
        }
    }

    /// Takes so many items more, without a look at them.
    pub(crate) fn pass(&mut self, count: u32)
        requires { self.old.taken + count
            ≤ length (good_lent (item_type self.old.payload) self.old.source) }
        ensures { self.new ≡ record self.old { taken = self.old.taken + count } }
    {
        self.taken = (self.taken as usize + count as usize) as u32;
    }

    /// The items that are left, as bytes.
    pub fn direct(&self) -> &[u8]
        requires { self.now.payload ≡ One U8 }
        ensures { Shows self.now.source self.now.taken result.now }
    {
        let taken = self.taken as usize;
        match &self.source {
            Source::Region {
                memory,
                address,
                count,
            } => {
                let (_, behind) = memory.bytes().split_at(*address as usize + taken);
                behind.split_at(*count as usize - taken).0
            }
            Source::Listed { items } => items.bytes().split_at(taken).1,
        }
    }

    /// The bytes of the items that were taken, one behind the other.
    pub fn taken_bytes(&self) -> &[u8]
        ensures lie { LieIn (item_type self.now.payload) result.now 0 self.now.taken }
        ensures items { items_in (item_type self.now.payload) result.now 0 self.now.taken
            ≡ first_lent (item_type self.now.payload) self.now.source self.now.taken }
        ensures all { length result.now
            ≡ item_size (item_type self.now.payload) * self.now.taken }
    {
        let taken = self.taken as usize;
        match &self.source {
            Source::Region {
                memory,
                address,
                ..
            } => {
                let bytes = memory.bytes();
                are_bytes(bytes);
                let (_, behind) = bytes.split_at(*address as usize);
                behind.split_at(self.payload.size() as usize * taken).0
            }
            Source::Listed { items } => items.bytes_of(0, taken),
        }
    }

    /// What one item is.
    pub fn payload(&self) -> Payload
        ensures { result ≡ self.now.payload }
    {
        self.payload
    }

    /// How many items are left.
    #[inline(always)]
    pub fn remaining(&self) -> u32
        ensures { result ≡ items_lent self.now.source - self.now.taken }
    {
        match &self.source {
            Source::Region { count, .. } => *count - self.taken,
            Source::Listed { items } => items.len() as u32 - self.taken,
        }
    }

    /// How many items were taken since the end was last ready, before this offer.
    #[inline(always)]
    pub fn since(&self) -> u32
        ensures { result ≡ self.now.since }
    {
        self.since
    }

    /// How many items are taken.
    #[inline(always)]
    pub fn taken(&self) -> u32
        ensures exact { result ≡ self.now.taken }
        ensures most { result ≤ items_lent self.now.source }
    {
        self.taken
    }

    /// Whether a bad item was asked for: it is the next one.
    #[inline(always)]
    pub fn bad(&self) -> bool
        ensures exact { result ≡ self.now.bad }
        ensures next { IsTrue result
            → IsBadNext (item_type self.now.payload) self.now.source self.now.taken }
    {
        self.bad
    }

    /// What is taken is good, and where a bad item was asked for, it is the next one: what a host end
    /// may have to know of an offer that it was lent. It does nothing.
    pub fn sound(&self)
        ensures { IsOffer self.now.payload self.now.source self.now.taken self.now.bad }
    {
        let _ = &self.source;
    }

    /// Takes the next item; none where none is left, or where it is bad: then it is not taken.
    pub fn next(&mut self) -> Option<Value>
        ensures exact { result ≡
            item_behind (item_type self.old.payload) self.old.source self.old.taken }
        ensures fits { IfSome result (λ x. FitsItem (item_type self.old.payload) x) }
        ensures after { self.new ≡ after_next self.old result }
    {
        let mut item = Value::empty();
        if behind_into(&self.source, &self.payload, self.taken, &mut item) {
            self.taken += 1;
            Some(item)
        } else {
            self.bad = self.bad || self.taken < lent(&self.source);
            None
        }
    }
}

// How many items were lent.
fn lent(source: &Source) -> u32
    requires { items_lent source.now ≤ 4294967295 }
    ensures { result ≡ items_lent source.now }
{
    match source {
        Source::Region { count, .. } => *count,
        Source::Listed { items } => items.len() as u32,
    }
}

// Puts the item behind so many into an empty one: whether there is one.
fn behind_into(source: &Source, payload: &Payload, taken: u32, item: &mut Value) -> bool
    requires source { IsSource payload.now source.now }
    requires empty { item.old ≡ [] }
    ensures exact { then_some result item.new ≡
        item_behind (item_type payload.now) source.now taken }
    ensures there { IsTrue result → taken + 1 ≤ items_lent source.now }
    ensures fits { IsTrue result → FitsItem (item_type payload.now) item.new }
{
    match source {
        Source::Region {
            memory,
            address,
            count,
        } => {
            if taken >= *count {
                return false;
            }
            let at = *address as usize + payload.size() as usize * taken as usize;
            let bytes = memory.bytes();
            are_bytes(bytes);
            lift_item_into(bytes, at, payload, item)
        }
        Source::Listed { items } => {
            if taken as usize >= items.len() {
                return false;
            }
            items.get_into(taken as usize, item);
            true
        }
    }
}
