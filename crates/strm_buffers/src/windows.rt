//! The window that a poll fills: a reader's own bytes, or a list between two host ends.
//!
//! Source: wasmtime, `futures_and_streams.rs`, `Destination` and `DirectDestination`. Ours: the
//! window owns the bytes while the poll lasts, and gives them back as they were but for the marked
//! items.

ghost use Rattle.std.specs.Prelude.{◌≡◌, ◌≢◌, ◌+◌, ◌*◌, ◌<◌, ◌≤◌, ◌∷◌, [], length, true, IfOk, OnOk, OnErr};
ghost use Rattle.strm_codes.specs.Layout.{item_type};
ghost use Rattle.strm_codes.specs.ItemTypes.{item_size};
ghost use Rattle.strm_codes.specs.Begins.{FitsItem};
ghost use Rattle.strm_codes.specs.declared.payloads.Payload.TheVariants.{One};
ghost use Rattle.strm_codes.specs.declared.scalars.Scalar.TheVariants.{U8};
ghost use Rattle.strm_memory.specs.Items.{byte_items};
ghost use Rattle.strm_buffers.specs.Listing.{LieIn, items_in};
ghost use Rattle.strm_buffers.specs.Windows.{Between, room_of, HasRoom, CanCount, IsBehind, to_keep, lent_memory, lent_between, with_items, with_marked, with_direct, given_back, standing, IsSoundPlace};

use crate::items::{Items, item_place, make_space, write_item, write_items};
use crate::kept_bytes::{Kept, are_bytes, end_of, keep, last_of, most_to_keep, put_back};
use smallvec::SmallVec;
use std::alloc::Global;
use std::marker::Model;
use strm_codes::counts::OutOfMemory;
use strm_codes::payloads::Payload;
use strm_codes::values::Value;
use strm_memory::memories::GuestMemory;

/// Room for items, filled from its front.
#[derive(Drop)]
pub struct Window {
    payload: Payload,
    // The whole memory; or between host ends one of the marked items and the bytes behind them.
    memory: GuestMemory,
    address: usize,
    room: Option<u32>,
    marked: u32,
    is_prepared: bool,
    // Once bytes of a memory were lent: the last ones of the room as they were before.
    kept: Kept,
}

impl Model for Window {
    ghost use Rattle.std.specs.Prelude.{◌≡◌};
    ghost use Rattle.strm_buffers.specs.Windows.{Lent, window_kept, lying, IsWindow, IsUntold};

    ghost Value = { Lent };

    ghost view = { λ w. lying w.memory.base
        (window_kept w.payload w.memory.bytes w.kept.items w.address w.room w.marked w.is_prepared) };

    ghost invariant = { λ w. IsWindow w.payload w.memory.bytes w.kept.items w.kept.capacity w.address w.room w.marked w.is_prepared
        × IsUntold w.room w.memory.base };
}

impl Window {
    ghost use Rattle.std.specs.Borrow.{sem};
    ghost use Rattle.strm_buffers.specs.Lending.{LendsUnmarked};

    /// Lends a memory from an address on, with room for so many items. Takes no memory.
    #[inline(always)]
    pub fn over(memory: GuestMemory, payload: Payload, address: u32, room: u32) -> Window
        requires { address + item_size (item_type payload) * room ≤ length memory.bytes }
        ensures { result ≡ lent_memory payload memory address room }
    {
        let alloc = memory.alloc();
        Window {
            payload,
            memory,
            address: address as usize,
            room: Some(room),
            marked: 0,
            is_prepared: false,
            kept: SmallVec::new(alloc),
        }
    }

    /// A window with as much room as is wanted. Takes no memory.
    pub fn unbounded(alloc: Global, payload: Payload) -> Window
        ensures { result ≡ lent_between payload }
    {
        Window {
            payload,
            memory: GuestMemory::empty(alloc),
            address: 0,
            room: None,
            marked: 0,
            is_prepared: true,
            kept: SmallVec::new(alloc),
        }
    }

    /// Takes the memory in which `unmarked` keeps what it lends: as much as the room of bytes in a
    /// guest's memory, where that is more than 64, else none. After `OutOfMemory` nothing has changed.
    #[inline(always)]
    pub fn prepare(&mut self) -> Result<(), OutOfMemory>
        ensures ok { OnOk result (self.new ≡ record self.old { prepared = true }) }
        ensures err { OnErr result (self.new ≡ self.old) }
        ensures out_of_memory { OnErr result ((self.old.payload ≡ One U8)
            × (64 < to_keep (room_of self.old.place))) }
    {
        let most = most_to_keep(self.payload, self.room);
        if most > self.kept.capacity() {
            self.kept.reserve_exact(most - self.kept.len())?;
        }
        self.is_prepared = true;
        Ok(())
    }

    /// The room lies in the memory, and between host ends nothing is to be prepared: what a host end
    /// may have to know of a window that it was lent. It does nothing.
    pub fn sound(&self)
        ensures { IsSoundPlace self.now.payload self.now.place self.now.prepared }
    {
        let _ = &self.room;
    }

    /// How many items there is room for in all; none between host ends.
    pub fn room(&self) -> Option<u32>
        ensures { result ≡ room_of self.now.place }
    {
        self.room
    }

    /// What one item is.
    pub fn payload(&self) -> Payload
        ensures { result ≡ self.now.payload }
    {
        self.payload
    }

    /// How many items are marked.
    pub fn marked(&self) -> u32
        ensures exact { result ≡ length self.now.marked }
        ensures room { HasRoom self.now.place result 0 }
    {
        self.marked
    }

    /// A copy of the marked items. After `OutOfMemory` nothing was kept.
    pub fn marked_items(&self) -> Result<Items, OutOfMemory>
        requires { length self.now.marked < 4294967295 }
        ensures payload { IfOk result (λ items. items.payload ≡ self.now.payload) }
        ensures items { IfOk result (λ items. items.items ≡ self.now.marked) }
    {
        // For the sum: how many bytes there can be.
        let _ = self.memory.len();
        let end = item_place(self.address, self.payload, self.marked);
        let mut bytes = Vec::new(self.memory.alloc());
        match bytes.extend_from_slice(&self.memory.bytes()[self.address..end]) {
            Ok(()) => Ok(Items::of_bytes(self.payload, bytes, self.marked as usize)),
            Err(_) => Err(OutOfMemory),
        }
    }

    /// Marks one item more; between host ends the unmarked bytes are given up. After `OutOfMemory`,
    /// which comes only there, nothing has changed.
    pub fn put(&mut self, item: &Value) -> Result<(), OutOfMemory>
        requires fits { FitsItem (item_type self.old.payload) item.now }
        requires room { HasRoom self.old.place (length self.old.marked) 1 }
        ensures ok { OnOk result (self.new ≡ with_items self.old (item.now ∷ [])) }
        ensures err { OnErr result (self.new ≡ self.old) }
        ensures out_of_memory { OnErr result (self.old.place ≡ Between) }
    {
        // For the sum: how many bytes there can be.
        let _ = self.memory.len();
        let at = item_place(self.address, self.payload, self.marked);
        make_space(&mut self.memory, self.room, at, self.payload, 1)?;
        write_item(&mut self.memory, at, item, self.payload);
        self.marked += 1;
        Ok(())
    }

    /// Marks so many items more, which these bytes begin with, all at once; between host ends the
    /// unmarked bytes are given up. After `OutOfMemory`, which comes only there, nothing has changed.
    pub fn put_all(&mut self, bytes: &[u8], count: u32) -> Result<(), OutOfMemory>
        requires lie { LieIn (item_type self.old.payload) bytes.now 0 count }
        requires room { HasRoom self.old.place (length self.old.marked) count }
        ensures ok { OnOk result (self.new ≡ with_items self.old
            (items_in (item_type self.old.payload) bytes.now 0 count)) }
        ensures err { OnErr result (self.new ≡ self.old) }
        ensures out_of_memory { OnErr result (self.old.place ≡ Between) }
    {
        // For the sum: how many bytes there can be.
        let _ = self.memory.len();
        let at = item_place(self.address, self.payload, self.marked);
        make_space(&mut self.memory, self.room, at, self.payload, count)?;
        write_items(&mut self.memory, at, bytes, self.payload, count);
        self.marked += count;
        Ok(())
    }

    /// Marks these bytes: what `direct`, `unmarked`, a copy and `mark` do, but that none of the bytes
    /// behind them is kept. After `OutOfMemory`, which comes only between host ends, nothing has changed.
    pub fn write(&mut self, bytes: &[u8]) -> Result<(), OutOfMemory>
        requires bytes { self.old.payload ≡ One U8 }
        requires room { HasRoom self.old.place (length self.old.marked) (length bytes.now) }
        ensures ok { OnOk result (self.new ≡ with_items self.old (byte_items bytes.now)) }
        ensures err { OnErr result (self.new ≡ self.old) }
        ensures out_of_memory { OnErr result (self.old.place ≡ Between) }
    {
        are_bytes(bytes);
        // For the count: a room is below 2^32.
        self.sound();
        self.put_all(bytes, bytes.len() as u32)
    }

    /// Between host ends gives up the unmarked bytes, and makes so many that are 0; a memory's room
    /// stays as it is. After `OutOfMemory`, which comes only between host ends, nothing has changed.
    pub fn direct(&mut self, capacity: usize) -> Result<(), OutOfMemory>
        requires bytes { self.old.payload ≡ One U8 }
        requires prepared { self.old.prepared ≡ true }
        requires few { CanCount self.old.place (length self.old.marked) capacity }
        ensures ok { OnOk result (self.new ≡ with_direct self.old capacity) }
        ensures err { OnErr result (self.new ≡ self.old) }
        ensures out_of_memory { OnErr result (self.old.place ≡ Between) }
    {
        match self.room {
            Some(_) => Ok(()),
            None => {
                self.memory.append_zeros(self.marked as usize, capacity)?;
                Ok(())
            }
        }
    }

    /// The bytes behind the marked items, to be written: the rest of the room, or what `direct` made.
    /// The first call keeps those of a memory, at the cost of copying them; it takes no memory.
    pub fn unmarked(&mut self) -> &mut [u8]
        requires bytes { self.old.payload ≡ One U8 }
        requires prepared { self.old.prepared ≡ true }
        ensures* lends { sem 𝓛 (LendsUnmarked self.entry result) }
        ensures value { result.now ≡ self.old.unmarked }
        ensures all { IsBehind self.old.place (length self.old.marked) (length result.now) }
    {
        let len = self.memory.len();
        let from = self.address + self.marked as usize;
        let to = end_of(self.address, self.room, len);
        keep(&mut self.kept, self.room, &self.memory.bytes()[from..to]);
        self.memory.range_mut(from, to)
    }

    /// Marks the first so many of the unmarked bytes, as they stand.
    pub fn mark(&mut self, count: usize)
        requires bytes { self.old.payload ≡ One U8 }
        requires there { count ≤ length self.old.unmarked }
        ensures { self.new ≡ with_marked self.old count }
    {
        are_bytes(self.memory.bytes());
        self.marked += count as u32;
    }

    /// The whole memory as it stands, with what was written to unmarked bytes. Takes no memory.
    pub fn lent(&self) -> &[u8]
        requires { self.now.place ≢ Between }
        ensures { result.now ≡ standing (item_type self.now.payload) self.now.place
            (length self.now.marked) self.now.unmarked }
    {
        self.memory.bytes()
    }

    /// Gives the memory back with the marked items in it, and their number. It lies where it lay, and all
    /// its other bytes are as they were lent.
    #[inline(always)]
    pub fn into_memory(self) -> (GuestMemory, u32)
        requires { self.place ≢ Between }
        ensures memory { result.0 ≡ given_back self }
        ensures marked { result.1 ≡ length self.marked }
    {
        let Window {
            payload,
            mut memory,
            address,
            room,
            marked,
            is_prepared: _,
            kept,
        } = self;
        match room {
            Some(room) => {
                // For the sum: how many bytes there can be.
                let _ = memory.len();
                let left = payload.size() as usize * (room - marked) as usize;
                let from = item_place(address, payload, marked);
                put_back(&mut memory, from, last_of(kept.as_slice(), left));
                (memory, marked)
            }
            None => unreachable!(),
        }
    }

    /// The marked items.
    pub fn into_items(self) -> Items
        requires { self.place ≡ Between }
        ensures payload { result.payload ≡ self.payload }
        ensures items { result.items ≡ self.marked }
    {
        let Window {
            payload,
            memory,
            address: _,
            room: _,
            marked,
            is_prepared: _,
            kept: _,
        } = self;
        let mut bytes = memory.into_bytes();
        bytes.truncate(payload.size() as usize * marked as usize);
        Items::of_bytes(payload, bytes, marked as usize)
    }
}
