//! Guests that end, and guests that begin under the number of one that ended.
//!
//! Meaning: `Lives.antt` of `strm_places`. Ours: wasmtime ends a store as a whole.

ghost use Rattle.std.specs.Prelude.{◌≡◌, ◌≢◌, ℕ, ◌<◌, false, length, Ok, Err, None, OnOk, OnErr, slice_set};
ghost use Rattle.std.specs.Vec.{vec_ptr};
ghost use Rattle.strm_handles.specs.Handles.{entry_at};
ghost use Rattle.strm_machine.specs.State.{no_guest, guest_in, stream_at, own_size};
ghost use Rattle.strm_machine.specs.Soundness.{type_of};
ghost use Rattle.strm_machine.specs.Growth.{guest_at};
ghost use Rattle.strm_machine.specs.Reactions.{goes};
ghost use Rattle.strm_machine.specs.Refusals.{first_of};
ghost use Rattle.strm_machine.specs.Tests.{end_named};
ghost use Rattle.strm_machine.specs.declared.replies.Reply.TheVariants as replies;
ghost use Rattle.strm_channels.specs.Guests.{guest_of, guests_of};
ghost use Rattle.strm_places.specs.Lives.{with_none_pending, end_given_up, ends_given_up, rest_given_up, all_given_up, numbers_given, left_over, emptied, ended, is_in_use, guest_with, with_guest_in, begin_reasons, begin_at_reasons, begins, begins_at, HasNoEnd, HasNoOperation, HasOnlyMade};
ghost use Rattle.strm_transmit.specs.Guests.{AreUnhosted, AreOfOwners};
ghost use Rattle.strm_transmit.specs.Hosted.{StillFits};
ghost use Rattle.strm_transmit.specs.Lives.{StaysAmong};
ghost use Rattle.strm_transmit.specs.Meets.{Meets, as_reply, or_found};
ghost use Rattle.strm_transmit.specs.Queries.{of_guest};

use crate::errors::StoreError;
use crate::store::memories::{MOST_BYTES, SIZE_LIMIT};
use crate::store::refusals::side_of;
use crate::store::{Store, type_with};
use std::alloc::Global;
use std_alloc::vec::Lodged;
use strm_channels::guests::{Guest, memory};
use strm_channels::sides::is_busy;
use strm_codes::codes::TransmitIndex;
use strm_codes::refusals::Refusal;
use strm_handles::entries::Entry;
use strm_handles::tables::HandleTable;
use strm_machine::acts::NamedEnd;
use strm_machine::streams::{Owner, Side};
use strm_memory::memories::GuestMemory;
use strm_waitable_sets::sets::WaitableSets;

// How many bytes of a guest's memory are the store's own: none of one that an engine lent.
fn own_size(guests: &Vec<Guest>, guest: usize) -> usize
    requires { guest < length guests.now.items }
    ensures { result ≡ own_size (guest_in (guests_of guests.now.items) guest) }
{
    let memory = memory(guests, guest);
    if memory.is_lent() { 0 } else { memory.len() }
}

// A guest gives up its memory, and its table and sets where it has no handle. Bytes that an engine lent are let
// go as they are.
fn clear(alloc: Global, holder: &mut Guest)
    ensures { guest_of holder.new ≡ left_over (guest_of holder.old) }
{
    holder.memory = GuestMemory::empty(alloc);
    if holder.table.is_empty() {
        holder.table = HandleTable::new(alloc);
        holder.sets = WaitableSets::new(alloc);
    }
}

// The same of one of these guests.
fn clear_guest(alloc: Global, guests: &mut Vec<Guest>, guest: usize)
    requires { guest < length guests.old.items }
    ensures guests { guests_of guests.new.items ≡ slice_set (guests_of guests.old.items) guest
        (left_over (guest_in (guests_of guests.old.items) guest)) }
    ensures count { length guests.new.items ≡ length guests.old.items }
{
    clear(alloc, &mut guests[guest]);
}

impl Store {
    // The operation of an end of a stream is cancelled, if it has one.
    fn end_operation(&mut self, stream: u32, side: Side)
        requires { stream < length self.old.streams }
        ensures { self.new ≡ with_none_pending self.old stream side }
    {
        if is_busy(side, self.stream(stream)) {
            let _ = self.cancel_on(stream, side);
        }
    }

    // The type of a stream.
    fn stream_type(&self, stream: u32) -> TransmitIndex
        requires { stream < length self.now.streams }
        ensures { result ≡ type_of (stream_at self.now stream) }
    {
        let stream = self.stream(stream);
        type_with(stream.kind(), stream.payload())
    }

    // The end that a handle of a guest is of is given up, if it is of one.
    fn give_up_end(&mut self, guest: u32, handle: u32)
        requires there { guest < length self.old.guests }
        requires unhosted { AreUnhosted self.old.streams }
        ensures { self.new ≡ end_given_up self.old guest handle (end_named self.old guest handle) }
    {
        match self.end_name(guest, handle) {
            Ok(name) => {
                let (stream, side) = (name.0, side_of(name.1));
                self.end_operation(stream, side);
                self.sound();
                let ty = self.stream_type(stream);
                let end = NamedEnd { guest, ty, handle };
                self.release(side, &end, stream, Owner::Gone);
            }
            Err(_) => {}
        }
    }

    // The ends that the first so many numbers of a guest's table name are.
    fn give_up_ends(&mut self, guest: u32, last: u32)
        requires there { guest < length self.old.guests }
        requires unhosted { AreUnhosted self.old.streams }
        requires owned { AreOfOwners self.old.streams }
        ensures { self.new ≡ ends_given_up self.old guest last }
    {
        for index in 0..last {
            self.give_up_end(guest, index + 1);
        }
    }

    // What a handle of a guest that has no end is of is given up, if it is of a set or an error context.
    fn give_up_other(&mut self, guest: u32, handle: u32)
        requires there { guest < length self.old.guests }
        requires none { HasNoEnd self.old guest }
        ensures { self.new ≡ rest_given_up self.old guest handle
            (entry_at (guest_in self.old.guests guest).handles handle) }
    {
        self.sound();
        let Some(entry) = self.entry(guest, handle) else {
            return;
        };
        match *entry {
            Entry::WaitableSet { rep } => self.drop_number(guest, handle, rep),
            Entry::ErrorContext { rep } => self.drop_context(guest, handle, rep),
            _ => {}
        }
    }

    // What the first so many numbers of its table stand for is.
    fn give_up_rest(&mut self, guest: u32, last: u32)
        requires there { guest < length self.old.guests }
        requires none { HasNoEnd self.old guest }
        ensures { self.new ≡ all_given_up self.old guest last }
    {
        for index in 0..last {
            self.give_up_other(guest, index + 1);
        }
    }

    // How many numbers a guest's table gave.
    fn numbers_given(&self, guest: u32) -> u32
        requires { guest < length self.now.guests }
        ensures { result ≡ numbers_given self.now guest }
    {
        self.guests[guest as usize].table.last()
    }

    // A guest that has no end gives up its memory.
    fn empty_guest(&mut self, guest: u32)
        requires there { guest < length self.old.guests }
        requires none { HasNoEnd self.old guest }
        requires owned { AreOfOwners self.old.streams }
        ensures { self.new ≡ emptied self.old guest }
    {
        self.bytes -= own_size(&self.guests, guest as usize) as u32;
        clear_guest(self.alloc, &mut self.guests, guest as usize);
    }

    /// Ends a guest of a store without host ends, also of one that was trapped: each of its ends, by rising
    /// handle, is cancelled (what moved stays moved) and dropped, and whoever has the other end is told so by its
    /// event; the reader of a future that never gets its value is told Dropped, with 0. Then its waitable sets and
    /// error contexts go, and its memory: of the store's own it counts no byte any more, and one that an engine
    /// lent is let go as it is. Its number stays that of a guest which has nothing, until `begin_guest`. Takes no
    /// memory. Refused: UnknownGuest.
    pub fn end_guest(&mut self, guest: u32) -> Result<(), Refusal>
        requires unhosted { AreUnhosted self.old.streams }
        requires owned { AreOfOwners self.old.streams }
        ensures exact { result ≡ of_guest self.old guest (Ok tt) }
        ensures ok { OnOk result (self.new ≡ ended self.old guest) }
        ensures err { OnErr result (self.new ≡ self.old) }
        ensures ends { OnOk result (HasNoEnd self.new guest) }
        ensures operations { OnOk result (HasNoOperation self.new guest) }
        ensures nothing { OnOk result
            (HasOnlyMade self.old guest → guest_in self.new.guests guest ≡ no_guest) }
        // Whoever has the other ends is told by their streams: no other guest's memory, handles or sets change.
        ensures others { OnOk result ((g : ℕ) → g ≢ guest
            → guest_in self.new.guests g ≡ guest_in self.old.guests g) }
        ensures stays { OnOk result (StaysAmong self.old self.new) }
        ensures fits { StillFits self.old self.new }
    {
        if self.is_unknown_guest(guest) {
            return Err(Refusal::UnknownGuest);
        }
        let last = self.numbers_given(guest);
        self.give_up_ends(guest, last);
        self.give_up_rest(guest, last);
        self.empty_guest(guest);
        self.sound();
        self.held();
        Ok(())
    }

    /// Whether a guest has bytes, handles, or a memory that an engine lent: it did not end, or began again.
    /// `has_guest` tells whether the guest is there.
    pub fn is_in_use(&self, guest: u32) -> bool
        requires { guest < length self.now.guests }
        ensures { result ≡ is_in_use self.now guest }
    {
        let holder = &self.guests[guest as usize];
        holder.memory.len() > 0 || holder.table.len() > 0 || holder.memory.is_lent()
    }

    // Whether a guest may begin with so many bytes of the store's own.
    fn begin_fits(&self, size: u32) -> Result<(), Refusal>
        ensures { result ≡ or_found (first_of (begin_reasons self.now size)) tt }
    {
        if u64::from(self.bytes) + u64::from(size) > MOST_BYTES {
            return Err(Refusal::MemoryTooBig);
        }
        Ok(())
    }

    // Whether one may begin over so many that an engine lends.
    fn begin_at_fits(&self, size: usize) -> Result<(), Refusal>
        ensures { result ≡ or_found (first_of (begin_at_reasons size)) tt }
    {
        if size >= SIZE_LIMIT {
            return Err(Refusal::MemoryTooBig);
        }
        Ok(())
    }

    // A guest that has nothing gets a memory of so many zero bytes. After running out of memory nothing has
    // changed.
    fn fill_guest(&mut self, guest: u32, size: u32) -> Result<(), StoreError>
        requires there { guest < length self.old.guests }
        requires unused { is_in_use self.old guest ≡ false }
        requires may { first_of (begin_reasons self.old size) ≡ None }
        ensures { Meets self.old self.new (as_reply (λ _. replies.Done) result)
            (goes replies.Done (with_guest_in self.old guest (guest_with size))) }
    {
        let memory = GuestMemory::new(self.alloc, size)?;
        self.guests[guest as usize] = Guest {
            memory,
            table: HandleTable::new(self.alloc),
            sets: WaitableSets::new(self.alloc),
        };
        self.bytes += size;
        Ok(())
    }

    // One gets these bytes, which an engine lends. Takes no memory.
    fn fill_guest_at(&mut self, guest: u32, bytes: Vec<u8, Lodged>)
        requires there { guest < length self.old.guests }
        requires unused { is_in_use self.old guest ≡ false }
        requires may { first_of (begin_at_reasons (length bytes.items)) ≡ None }
        ensures { self.new ≡ with_guest_in self.old guest (guest_at bytes.items (vec_ptr bytes)) }
    {
        self.guests[guest as usize] = Guest {
            memory: GuestMemory::lent(self.alloc, bytes),
            table: HandleTable::new(self.alloc),
            sets: WaitableSets::new(self.alloc),
        };
    }

    /// Gives a guest that has nothing, as one that ended, a memory of so many zero bytes, and so begins it again.
    /// `has_guest` and `is_in_use` tell whether it may. Refused: MemoryTooBig (268,435,456 bytes of all guests
    /// together, without those that an engine lent). OutOfMemory.
    pub fn begin_guest(&mut self, guest: u32, size: u32) -> Result<(), StoreError>
        requires there { guest < length self.old.guests }
        requires unused { is_in_use self.old guest ≡ false }
        ensures meets { Meets self.old self.new (as_reply (λ _. replies.Done) result)
            (begins self.old guest size) }
        ensures fits { StillFits self.old self.new }
    {
        self.admit(self.begin_fits(size))?;
        self.fill_guest(guest, size)
    }

    /// The same over these bytes, which an engine lends, where they lie: they are touched only as the guest's
    /// memory is, and never freed, also where the call is refused. Takes no memory. Refused: MemoryTooBig
    /// (4,294,967,296 bytes or more).
    pub fn begin_guest_at(&mut self, guest: u32, bytes: Vec<u8, Lodged>) -> Result<(), StoreError>
        requires there { guest < length self.old.guests }
        requires unused { is_in_use self.old guest ≡ false }
        ensures meets { Meets self.old self.new (as_reply (λ _. replies.Done) result)
            (begins_at self.old guest bytes.items (vec_ptr bytes)) }
        ensures fits { StillFits self.old self.new }
        ensures takes_no_memory { result ≢ Err StoreError.OutOfMemory }
    {
        self.admit(self.begin_at_fits(bytes.len()))?;
        self.fill_guest_at(guest, bytes);
        Ok(())
    }
}
