//! Guests and their memories.
//!
//! Meaning: the making of a guest, and `on_memory` of `Reactions.antt` of `strm_machine`. Ours.

ghost use Rattle.std.specs.Prelude.{◌≡◌, ◌≢◌, ◌+◌, ◌<◌, ◌≤◌, ◌↔◌, true, Err, None, Some, IsTrue, IfSome, length, take, drop};
ghost use denote.RawPtr.{◌+ₚ◌};
ghost use Rattle.std.specs.Vec.{vec_ptr};
ghost use Rattle.strm_machine.specs.State.{memory_in};
ghost use Rattle.strm_memory.specs.Linear.{lent_at};
ghost use Rattle.strm_machine.specs.Bases.{base_in, is_lent_in, with_base_in};
ghost use Rattle.strm_machine.specs.Growth.{with_guest_at, guest_at_reasons, adds_guest_at, grown, moved_to};
ghost use Rattle.strm_machine.specs.Refusals.{refusal, first_of, bytes_reasons};
ghost use Rattle.strm_machine.specs.Reactions.{react, performs, goes};
ghost use Rattle.strm_machine.specs.declared.acts.Act.TheVariants.{Make, OnMemory};
ghost use Rattle.strm_machine.specs.declared.acts.Making.TheVariants.{Guest as NewGuest};
ghost use Rattle.strm_machine.specs.declared.acts.MemoryAct.TheVariants.{Poke, Dump};
ghost use Rattle.strm_machine.specs.declared.replies.Reply.TheVariants as replies;
ghost use Rattle.strm_machine.specs.declared.steps.Step.TheVariants as steps;
ghost use Rattle.strm_transmit.specs.Meets.{Meets, as_reply, or_found};
ghost use Rattle.strm_transmit.specs.Hosted.{StillFits};

use crate::errors::StoreError;
use crate::store::Store;
use std_alloc::vec::Lodged;
use strm_channels::guests::{
    Guest, grow_memory, is_lent, move_memory, read_bytes, tell_base, write_bytes,
};
use strm_codes::refusals::Refusal;
use strm_handles::tables::HandleTable;
use strm_machine::chunks::Chunk;
use strm_memory::memories::GuestMemory;
use strm_waitable_sets::sets::WaitableSets;

/// The bytes of all memories of the store's own together, at most.
pub(crate) const MOST_BYTES: u64 = 268_435_456;

/// The bytes of a memory that an engine lends are fewer.
pub(crate) const SIZE_LIMIT: usize = 4_294_967_296;

/// The number of guests, at most.
const MOST_GUESTS: usize = 1_048_576;

impl Store {
    ghost use Rattle.std.specs.Borrow.{sem};
    ghost use Rattle.strm_transmit.specs.Lending.{LendsMemory};

    // Whether a guest may be added.
    #[tactic(auto, unfolding(strm_machine::specs::Refusals::refusal))]
    fn guest_fits(&self, size: u32) -> Result<(), Refusal>
        ensures { result ≡ or_found (refusal self.now (Make (NewGuest size))) tt }
    {
        if u64::from(self.bytes) + u64::from(size) > MOST_BYTES {
            return Err(Refusal::MemoryTooBig);
        }
        if self.guests.len() >= MOST_GUESTS {
            return Err(Refusal::Full);
        }
        Ok(())
    }

    // One guest more. After running out of memory nothing has changed.
    #[tactic(auto, unfolding(strm_machine::specs::Reactions::performs))]
    fn push_guest(&mut self, size: u32) -> Result<u32, StoreError>
        requires { refusal self.old (Make (NewGuest size)) ≡ None }
        ensures { Meets self.old self.new (as_reply replies.Number result)
            (performs self.old (Make (NewGuest size))) }
    {
        let number = self.guests.len() as u32;
        let memory = GuestMemory::new(self.alloc, size)?;
        self.guests.reserve(1)?;
        self.ready.add_guest()?;
        self.guests.push_reserved(Guest {
            memory,
            table: HandleTable::new(self.alloc),
            sets: WaitableSets::new(self.alloc),
        });
        self.bytes += size;
        Ok(number)
    }

    /// A guest with a memory of `size` zero bytes. Answers its number; the first is 0. Refused:
    /// MemoryTooBig (268,435,456 bytes of all guests together, without those that an engine lent), Full (1,048,576 guests). OutOfMemory.
    pub fn add_guest(&mut self, size: u32) -> Result<u32, StoreError>
        ensures meets { Meets self.old self.new (as_reply replies.Number result)
            (react self.old (steps.Guest size)) }
        ensures fits { StillFits self.old self.new }
    {
        self.admit(self.guest_fits(size))?;
        self.push_guest(size)
    }

    // Whether a guest may be added over so many bytes.
    fn guest_at_fits(&self, size: usize) -> Result<(), Refusal>
        ensures { result ≡ or_found (first_of (guest_at_reasons self.now size)) tt }
    {
        if size >= SIZE_LIMIT {
            return Err(Refusal::MemoryTooBig);
        }
        if self.guests.len() >= MOST_GUESTS {
            return Err(Refusal::Full);
        }
        Ok(())
    }

    // One guest more, over these bytes. After running out of memory nothing has changed.
    fn push_guest_at(&mut self, bytes: Vec<u8, Lodged>) -> Result<u32, StoreError>
        requires { first_of (guest_at_reasons self.old (length bytes.items)) ≡ None }
        ensures { Meets self.old self.new (as_reply replies.Number result)
            (goes (replies.Number (length self.old.guests))
            (with_guest_at self.old bytes.items (vec_ptr bytes))) }
    {
        let number = self.guests.len() as u32;
        let memory = GuestMemory::lent(self.alloc, bytes);
        self.guests.reserve(1)?;
        self.ready.add_guest()?;
        self.guests.push_reserved(Guest {
            memory,
            table: HandleTable::new(self.alloc),
            sets: WaitableSets::new(self.alloc),
        });
        Ok(number)
    }

    /// A guest whose memory is these bytes, which an engine lends, where they lie: they are touched only as the
    /// guest's memory is, and never freed, also where the call is refused. Answers its number. Refused:
    /// MemoryTooBig (4,294,967,296 bytes or more; there is no limit on those of all guests), Full
    /// (1,048,576 guests). OutOfMemory.
    pub fn add_guest_at(&mut self, bytes: Vec<u8, Lodged>) -> Result<u32, StoreError>
        ensures meets { Meets self.old self.new (as_reply replies.Number result)
            (adds_guest_at self.old bytes.items (vec_ptr bytes)) }
        ensures fits { StillFits self.old self.new }
    {
        self.admit(self.guest_at_fits(bytes.len()))?;
        self.push_guest_at(bytes)
    }

    /// Whether an engine lent a guest's memory. `has_guest` tells whether the guest is there.
    pub fn is_lent(&self, guest: u32) -> bool
        requires { guest < length self.now.guests }
        ensures { result ≡ is_lent_in self.now.guests guest }
    {
        is_lent(&self.guests, guest as usize)
    }

    /// A guest's memory, which an engine lent, has these bytes too, which lie behind its end; also of a store
    /// that was trapped. It lies where it lay, and so do the regions of reads and writes that wait. Takes no
    /// memory. `is_lent` tells whether an engine lent it.
    pub fn memory_grown(&mut self, guest: u32, more: Vec<u8, Lodged>)
        requires there { guest < length self.old.guests }
        requires lent { is_lent_in self.old.guests guest ≡ true }
        requires behind { IfSome (base_in self.old.guests guest)
            (λ base. vec_ptr more ≡ base.at +ₚ length (memory_in self.old.guests guest)) }
        requires small { length (memory_in self.old.guests guest) + length more.items < 4294967296 }
        ensures { self.new ≡ grown self.old guest more.items }
    {
        grow_memory(&mut self.guests, guest as usize, more);
    }

    /// A guest's memory, which an engine lent, goes on in these bytes, which begin with all of its own, at
    /// another place; also of a store that was trapped. Answers the bytes in which it was. Reads and writes
    /// that wait go on there. Takes no memory. `is_lent` tells whether an engine lent it.
    pub fn memory_moved(&mut self, guest: u32, bytes: Vec<u8, Lodged>) -> Vec<u8, Lodged>
        requires there { guest < length self.old.guests }
        requires lent { is_lent_in self.old.guests guest ≡ true }
        requires begins { take (length (memory_in self.old.guests guest)) bytes.items
            ≡ memory_in self.old.guests guest }
        requires small { length bytes.items < 4294967296 }
        ensures moved { self.new ≡ moved_to self.old guest
            (drop (length (memory_in self.old.guests guest)) bytes.items) (vec_ptr bytes) }
        ensures left { result.items ≡ memory_in self.old.guests guest }
        ensures lay { base_in self.old.guests guest ≡ Some (lent_at (vec_ptr result)) }
    {
        move_memory(&mut self.guests, guest as usize, bytes)
    }

    /// Whether there is a guest of this number.
    pub fn has_guest(&self, guest: u32) -> bool
        ensures { IsTrue result ↔ (guest < length self.now.guests) }
    {
        !self.is_unknown_guest(guest)
    }

    /// The bytes of a guest's memory, to read and write until the store is used again; also of a store that
    /// was trapped. `has_guest` tells whether the guest is there.
    pub fn memory_mut(&mut self, guest: u32) -> &mut [u8]
        requires { guest < length self.old.guests }
        ensures value { result.now ≡ memory_in self.old.guests guest }
        ensures* lends { sem 𝓛 (LendsMemory self.entry guest result) }
    {
        let guest = &mut self.guests[guest as usize];
        let memory = &mut guest.memory;
        memory.bytes_mut()
    }

    /// Where a guest's memory lies, which is told: from now on it lies there, whatever is done to the store,
    /// until the guest ends or the store is given up; also of a store that was trapped. Of a memory without bytes
    /// it is the address of nothing. `has_guest` tells whether the guest is there.
    pub fn memory_base(&mut self, guest: u32) -> *const u8
        requires { guest < length self.old.guests }
        ensures told { self.new ≡ with_base_in self.old guest result }
        ensures again { IfSome (base_in self.old.guests guest) (λ base. result ≡ base.at) }
    {
        tell_base(&mut self.guests, guest as usize)
    }

    // Whether so many bytes of a guest's memory may be looked at.
    fn bytes_fit(&self, guest: u32, address: u32, count: usize) -> Result<(), Refusal>
        ensures { result ≡ or_found (first_of (bytes_reasons self.now guest address count)) tt }
    {
        if self.is_unknown_guest(guest) {
            return Err(Refusal::UnknownGuest);
        }
        if self.is_outside(guest, address, count) {
            return Err(Refusal::OutOfBounds);
        }
        Ok(())
    }

    #[tactic(auto, unfolding(strm_machine::specs::Refusals::refusal))]
    fn write_fits(&self, guest: u32, address: u32, bytes: &[u8]) -> Result<(), Refusal>
        ensures { result
            ≡ or_found (refusal self.now (OnMemory guest (Poke address bytes.now))) tt }
    {
        self.bytes_fit(guest, address, bytes.len())
    }

    // Bytes put into a guest's memory.
    fn put_bytes(&mut self, guest: u32, address: u32, bytes: &[u8])
        requires { refusal self.old (OnMemory guest (Poke address bytes.now)) ≡ None }
        ensures { performs self.old (OnMemory guest (Poke address bytes.now))
            ≡ goes replies.Done self.new }
    {
        write_bytes(&mut self.guests, guest as usize, address, bytes);
    }

    /// Bytes put into a guest's memory, from an address on, as many as they are. Refused: UnknownGuest,
    /// OutOfBounds.
    pub fn write_memory(&mut self, guest: u32, address: u32, bytes: &[u8]) -> Result<(), StoreError>
        ensures meets { Meets self.old self.new (as_reply (λ _. replies.Done) result)
            (react self.old (steps.Poke guest address bytes.now)) }
        ensures fits { StillFits self.old self.new }
        ensures takes_no_memory { result ≢ Err StoreError.OutOfMemory }
    {
        self.admit(self.write_fits(guest, address, bytes))?;
        self.put_bytes(guest, address, bytes);
        Ok(())
    }

    /// Bytes put into a guest's memory, from an address on. Refused: UnknownGuest, OutOfBounds.
    pub fn poke(&mut self, guest: u32, address: u32, bytes: &Chunk) -> Result<(), StoreError>
        ensures meets { Meets self.old self.new (as_reply (λ _. replies.Done) result)
            (react self.old (steps.Poke guest address bytes.now)) }
        ensures fits { StillFits self.old self.new }
        ensures takes_no_memory { result ≢ Err StoreError.OutOfMemory }
    {
        self.write_memory(guest, address, bytes.as_slice())
    }

    #[tactic(auto, unfolding(strm_machine::specs::Refusals::refusal))]
    fn dump_fits(&self, guest: u32, address: u32, len: u32) -> Result<(), Refusal>
        requires { len ≤ 64 }
        ensures { result ≡ or_found (refusal self.now (OnMemory guest (Dump address len))) tt }
    {
        self.bytes_fit(guest, address, len as usize)
    }

    // So many bytes of a guest's memory.
    fn bytes(&self, guest: u32, address: u32, len: u32) -> Chunk
        requires few { len ≤ 64 }
        requires may { refusal self.now (OnMemory guest (Dump address len)) ≡ None }
        ensures { performs self.now (OnMemory guest (Dump address len))
            ≡ goes (replies.Bytes result) self.now }
    {
        Chunk::new(read_bytes(&self.guests, guest as usize, address, len)).unwrap()
    }

    /// So many bytes of a guest's memory, 64 at most, from an address on. Refused: UnknownGuest,
    /// OutOfBounds.
    pub fn dump(&self, guest: u32, address: u32, len: u32) -> Result<Chunk, StoreError>
        requires { len ≤ 64 }
        ensures meets { Meets self.now self.now (as_reply replies.Bytes result)
            (react self.now (steps.Dump guest address len)) }
        ensures takes_no_memory { result ≢ Err StoreError.OutOfMemory }
    {
        self.admit(self.dump_fits(guest, address, len))?;
        Ok(self.bytes(guest, address, len))
    }
}
