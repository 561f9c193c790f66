//! Guests and their memories.
//!
//! Meaning: `on_memory` of `Reactions.antt` of `strm_machine`. Ours.

ghost use Rattle.std.specs.Prelude.{◌≡◌, ◌≢◌, ◌+◌, ◌<◌, ◌↔◌, true, Err, Some, OnOk, OnErr, IfSome, IsTrue, length, take, drop};
ghost use denote.RawPtr.{◌+ₚ◌};
ghost use Rattle.strm_memory.specs.Linear.{lent_at};
ghost use Rattle.std.specs.Vec.{vec_ptr};
ghost use Rattle.strm_machine.specs.State.{memory_in};
ghost use Rattle.strm_machine.specs.Bases.{base_in, is_lent_in, with_base_in, BasesStay, BasesStayBut};
ghost use Rattle.strm_machine.specs.Growth.{adds_guest_at, grown, moved_to};
ghost use Rattle.strm_machine.specs.Reactions.{react};
ghost use Rattle.strm_machine.specs.Refusals.{first_of, bytes_reasons};
ghost use Rattle.strm_machine.specs.declared.replies.Reply.TheVariants as replies;
ghost use Rattle.strm_machine.specs.declared.steps.Step.TheVariants as steps;
ghost use Rattle.strm_transmit.specs.Meets.{Meets, as_reply, or_found};

use crate::guest_store::GuestStore;
use std_alloc::vec::Lodged;
use strm_codes::refusals::Refusal;
use strm_transmit::errors::StoreError;

impl GuestStore {
    ghost use Rattle.std.specs.Borrow.{sem};
    ghost use Rattle.strm_guest_store.specs.Lending.{LendsGuestMemory};

    /// Whether there is a guest of this number.
    pub fn has_guest(&self, guest: u32) -> bool
        ensures { IsTrue result ↔ (guest < length self.now.guests) }
    {
        self.store.has_guest(guest)
    }

    /// The bytes of a guest's memory, to read and write until the store is used again. `has_guest` tells
    /// whether the guest is there.
    pub fn memory_mut(&mut self, guest: u32) -> &mut [u8]
        requires { guest < length self.old.guests }
        ensures value { result.now ≡ memory_in self.old.guests guest }
        ensures* lends { sem 𝓛 (LendsGuestMemory self.entry guest result) }
    {
        self.store.memory_mut(guest)
    }

    /// Where a guest's memory lies, which is told: from now on it lies there, through every call
    /// (`stays`), until the guest ends or the store is given up. Of a memory without bytes it is the address of
    /// nothing. `has_guest` tells whether the guest is there. wasmtime, `VMMemoryDefinition::base`.
    pub fn memory_base(&mut self, guest: u32) -> *const u8
        requires { guest < length self.old.guests }
        ensures told { self.new ≡ with_base_in self.old guest result }
        ensures again { IfSome (base_in self.old.guests guest) (λ base. result ≡ base.at) }
    {
        self.store.memory_base(guest)
    }

    /// A guest whose memory is these bytes, which an engine lends, where they lie: they are touched only as the
    /// guest's memory is, and never freed, also where the call is refused. Answers its number; the first is 0.
    /// Refused, in this order, are 4,294,967,296 bytes or more, and the guest past 1,048,576; there is no limit
    /// on the bytes of all guests together.
    pub fn add_guest_at(&mut self, bytes: Vec<u8, Lodged>) -> Result<u32, StoreError>
        ensures meets { Meets self.old self.new (as_reply replies.Number result)
            (adds_guest_at self.old bytes.items (vec_ptr bytes)) }
        ensures stays { BasesStayBut (length self.old.guests) self.old.guests self.new.guests }
    {
        self.store.add_guest_at(bytes)
    }

    /// Whether an engine lent a guest's memory. `has_guest` tells whether the guest is there.
    pub fn is_lent(&self, guest: u32) -> bool
        requires { guest < length self.now.guests }
        ensures { result ≡ is_lent_in self.now.guests guest }
    {
        self.store.is_lent(guest)
    }

    /// A guest's memory, which an engine lent, has these bytes too, which lie behind its end. It lies where it
    /// lay, and so do the regions of reads and writes that wait. Takes no memory. `is_lent` tells whether an
    /// engine lent it. WebAssembly, `memory.grow`.
    pub fn memory_grown(&mut self, guest: u32, more: Vec<u8, Lodged>)
        requires there { guest < length self.old.guests }
        requires lent { is_lent_in self.old.guests guest ≡ true }
        requires behind { IfSome (base_in self.old.guests guest)
            (λ base. vec_ptr more ≡ base.at +ₚ length (memory_in self.old.guests guest)) }
        requires small { length (memory_in self.old.guests guest) + length more.items < 4294967296 }
        ensures grown { self.new ≡ grown self.old guest more.items }
        ensures stays { BasesStay self.old.guests self.new.guests }
    {
        self.store.memory_grown(guest, more)
    }

    /// A guest's memory, which an engine lent, goes on in these bytes, which begin with all of its own, at
    /// another place. Answers the bytes in which it was. Reads and writes that wait go on there. Takes no
    /// memory. `is_lent` tells whether an engine lent it. wasmtime, `Memory::grow`, which may move it.
    pub fn memory_moved(&mut self, guest: u32, bytes: Vec<u8, Lodged>) -> Vec<u8, Lodged>
        requires there { guest < length self.old.guests }
        requires lent { is_lent_in self.old.guests guest ≡ true }
        requires begins { take (length (memory_in self.old.guests guest)) bytes.items
            ≡ memory_in self.old.guests guest }
        requires small { length bytes.items < 4294967296 }
        ensures moved { self.new ≡ moved_to self.old guest
            (drop (length (memory_in self.old.guests guest)) bytes.items) (vec_ptr bytes) }
        ensures stays { BasesStayBut guest self.old.guests self.new.guests }
        ensures left { result.items ≡ memory_in self.old.guests guest }
        ensures lay { base_in self.old.guests guest ≡ Some (lent_at (vec_ptr result)) }
    {
        self.store.memory_moved(guest, bytes)
    }
}

#[tactic(auto, using(crate::proofs::AmongLemmas::plain_among, crate::proofs::BaseLemmas::plain_stays))]
impl GuestStore {
    /// A guest with a memory of so many zero bytes. Answers its number; the first is 0. Refused, in this
    /// order, are bytes past 268,435,456 of all guests together, without those that an engine lent, and the
    /// guest past 1,048,576.
    pub fn add_guest(&mut self, size: u32) -> Result<u32, StoreError>
        ensures meets { Meets self.old self.new (as_reply replies.Number result)
            (react self.old (steps.Guest size)) }
        ensures stays { BasesStay self.old.guests self.new.guests }
    {
        self.store.add_guest(size)
    }

    /// Bytes put into a guest's memory from an address on, as many as they are.
    pub fn write_memory(&mut self, guest: u32, address: u32, bytes: &[u8]) -> Result<(), StoreError>
        ensures meets { Meets self.old self.new (as_reply (λ _. replies.Done) result)
            (react self.old (steps.Poke guest address bytes.now)) }
        ensures stays { BasesStay self.old.guests self.new.guests }
        ensures takes_no_memory { result ≢ Err StoreError.OutOfMemory }
    {
        self.store.write_memory(guest, address, bytes)
    }

    /// Bytes of a guest's memory from an address on, as many as there is room for.
    pub fn read_memory(&self, guest: u32, address: u32, out: &mut [u8]) -> Result<(), Refusal>
        ensures exact { result
            ≡ or_found (first_of (bytes_reasons self.now guest address (length out.old))) tt }
        ensures ok { OnOk result (out.new
            ≡ take (length out.old) (drop address (memory_in self.now.guests guest))) }
        ensures err { OnErr result (out.new ≡ out.old) }
    {
        let Some(memory) = self.store.memory(guest) else {
            return Err(Refusal::UnknownGuest);
        };
        if out.is_empty() {
            return Ok(());
        }
        let from = address as usize;
        if out.len() > memory.len() || from > memory.len() - out.len() {
            return Err(Refusal::OutOfBounds);
        }
        out.copy_from_slice(&memory[from..from + out.len()]);
        Ok(())
    }
}
