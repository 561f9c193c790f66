//! Guests and their memories, guests that begin again, and how many handles each has.
//!
//! Meaning: `on_memory` of `Reactions.antt` and `Growth.antt` of `strm_machine`, `Lives.antt` of `strm_places`, and
//! `Counts.antt` of `strm_transmit`. Ours.

ghost use Rattle.std.specs.Prelude.{◌≡◌, ◌≢◌, ◌+◌, ◌<◌, ◌↔◌, true, false, Err, Some, OnOk, OnErr, IfSome, IsSome, IsTrue, length, take, drop};
ghost use denote.RawPtr.{◌+ₚ◌};
ghost use Rattle.std.specs.Vec.{vec_ptr};
ghost use Rattle.strm_memory.specs.Linear.{lent_at};
ghost use Rattle.strm_machine.specs.State.{memory_in};
ghost use Rattle.strm_machine.specs.Bases.{base_in, is_lent_in, with_base_in};
ghost use Rattle.strm_machine.specs.Growth.{adds_guest_at, grown, moved_to};
ghost use Rattle.strm_machine.specs.Reactions.{react};
ghost use Rattle.strm_machine.specs.Refusals.{first_of, bytes_reasons};
ghost use Rattle.strm_machine.specs.declared.replies.Reply.TheVariants as replies;
ghost use Rattle.strm_machine.specs.declared.steps.Step.TheVariants as steps;
ghost use Rattle.strm_places.specs.Lives.{is_in_use, begins, begins_at};
ghost use Rattle.strm_transmit.specs.Counts.{counts_answer};
ghost use Rattle.strm_transmit.specs.Meets.{as_reply, or_found};
ghost use Rattle.strm_host_store.specs.HostStates.{with_state};
ghost use Rattle.strm_host_store.specs.Calls.{MeetsBeside};

use crate::host_store::HostStore;
use std_alloc::vec::Lodged;
use strm_codes::refusals::Refusal;
use strm_transmit::GuestCounts;
use strm_transmit::errors::StoreError;

#[tactic(auto, using(crate::proofs::FitLemmas::beside_fits))]
impl HostStore {
    /// A guest with a memory of so many zero bytes. Answers its number; the first is 0. Refused, in this order, are
    /// bytes past 268,435,456 of all guests together, without those that an engine lent, and the guest past 1,048,576.
    pub fn add_guest(&mut self, size: u32) -> Result<u32, StoreError>
        ensures meets { MeetsBeside self.old self.new (as_reply replies.Number result)
            (react self.old.state (steps.Guest size)) }
    {
        self.store.add_guest(size)
    }

    /// A guest whose memory is these bytes, which an engine lends, where they lie: they are touched only as the guest's
    /// memory is, and never freed, also where the call is refused. Answers its number. Refused, in this order, are
    /// 4,294,967,296 bytes or more, and the guest past 1,048,576.
    pub fn add_guest_at(&mut self, bytes: Vec<u8, Lodged>) -> Result<u32, StoreError>
        ensures meets { MeetsBeside self.old self.new (as_reply replies.Number result)
            (adds_guest_at self.old.state bytes.items (vec_ptr bytes)) }
    {
        self.store.add_guest_at(bytes)
    }

    /// Gives a guest that has nothing a memory of so many zero bytes, and so begins it again. `has_guest` and
    /// `is_in_use` tell whether it may. Refused are bytes past 268,435,456 of all guests together, without those that
    /// an engine lent.
    pub fn begin_guest(&mut self, guest: u32, size: u32) -> Result<(), StoreError>
        requires there { guest < length self.old.state.guests }
        requires unused { is_in_use self.old.state guest ≡ false }
        ensures meets { MeetsBeside self.old self.new (as_reply (λ _. replies.Done) result)
            (begins self.old.state guest size) }
    {
        self.store.begin_guest(guest, size)
    }

    /// The same over these bytes, which an engine lends, as `add_guest_at`. Takes no memory. Refused are 4,294,967,296
    /// bytes or more.
    pub fn begin_guest_at(&mut self, guest: u32, bytes: Vec<u8, Lodged>) -> Result<(), StoreError>
        requires there { guest < length self.old.state.guests }
        requires unused { is_in_use self.old.state guest ≡ false }
        ensures meets { MeetsBeside self.old self.new (as_reply (λ _. replies.Done) result)
            (begins_at self.old.state guest bytes.items (vec_ptr bytes)) }
        ensures takes_no_memory { result ≢ Err StoreError.OutOfMemory }
    {
        self.store.begin_guest_at(guest, bytes)
    }

    /// Bytes put into a guest's memory from an address on, as many as they are.
    pub fn write_memory(&mut self, guest: u32, address: u32, bytes: &[u8]) -> Result<(), StoreError>
        ensures meets { MeetsBeside self.old self.new (as_reply (λ _. replies.Done) result)
            (react self.old.state (steps.Poke guest address bytes.now)) }
        ensures takes_no_memory { result ≢ Err StoreError.OutOfMemory }
    {
        self.store.write_memory(guest, address, bytes)
    }
}

impl HostStore {
    /// Whether there is a guest of this number.
    pub fn has_guest(&self, guest: u32) -> bool
        ensures { IsTrue result ↔ (guest < length self.now.state.guests) }
    {
        self.store.has_guest(guest)
    }

    /// Whether a guest has bytes, handles, or a memory that an engine lent. `has_guest` tells whether the guest is
    /// there.
    pub fn is_in_use(&self, guest: u32) -> bool
        requires { guest < length self.now.state.guests }
        ensures { result ≡ is_in_use self.now.state guest }
    {
        self.store.is_in_use(guest)
    }

    /// Whether an engine lent a guest's memory. `has_guest` tells whether the guest is there.
    pub fn is_lent(&self, guest: u32) -> bool
        requires { guest < length self.now.state.guests }
        ensures { result ≡ is_lent_in self.now.state.guests guest }
    {
        self.store.is_lent(guest)
    }

    /// How many handles a guest has, and of which kinds. It looks at none of them. Refused: UnknownGuest.
    pub fn guest_counts(&self, guest: u32) -> Result<GuestCounts, Refusal>
        ensures exact { result ≡ counts_answer self.now.state guest }
    {
        self.store.guest_counts(guest)
    }

    /// The bytes of a guest's memory, and none of a guest that is not there.
    pub fn memory(&self, guest: u32) -> Option<&[u8]>
        ensures there { IsSome result ↔ (guest < length self.now.state.guests) }
        ensures bytes { IfSome result (λ bytes.
            bytes.now ≡ memory_in self.now.state.guests guest) }
    {
        self.store.memory(guest)
    }

    /// Bytes of a guest's memory from an address on, as many as there is room for.
    pub fn read_memory(&self, guest: u32, address: u32, out: &mut [u8]) -> Result<(), Refusal>
        ensures exact { result
            ≡ or_found (first_of (bytes_reasons self.now.state guest address (length out.old))) tt }
        ensures ok { OnOk result (out.new
            ≡ take (length out.old) (drop address (memory_in self.now.state.guests guest))) }
        ensures err { OnErr result (out.new ≡ out.old) }
    {
        let Some(memory) = self.store.memory(guest) else {
            return Err(Refusal::UnknownGuest);
        };
        if out.is_empty() {
            return Ok(());
        }
        let from = address as usize;
        if out.len() > memory.len() || from > memory.len() - out.len() {
            return Err(Refusal::OutOfBounds);
        }
        out.copy_from_slice(&memory[from..from + out.len()]);
        Ok(())
    }
}

#[tactic(auto, using(crate::proofs::FitLemmas::guests_fit))]
impl HostStore {
    ghost use Rattle.std.specs.Borrow.{sem};
    ghost use Rattle.strm_host_store.specs.Lending.{LendsMemory};

    /// The bytes of a guest's memory, to read and write until the store is used again. `has_guest` tells whether the
    /// guest is there.
    pub fn memory_mut(&mut self, guest: u32) -> &mut [u8]
        requires { guest < length self.old.state.guests }
        ensures value { result.now ≡ memory_in self.old.state.guests guest }
        ensures* lends { sem 𝓛 (LendsMemory self.entry guest result) }
    {
        self.store.memory_mut(guest)
    }

    /// Where a guest's memory lies, which is told: as long as the state says so it lies there. Of a memory without
    /// bytes it is the address of nothing. `has_guest` tells whether the guest is there. wasmtime,
    /// `VMMemoryDefinition::base`.
    pub fn memory_base(&mut self, guest: u32) -> *const u8
        requires { guest < length self.old.state.guests }
        ensures told { self.new ≡ with_state self.old (with_base_in self.old.state guest result) }
        ensures again { IfSome (base_in self.old.state.guests guest) (λ base. result ≡ base.at) }
    {
        self.store.memory_base(guest)
    }

    /// A guest's memory, which an engine lent, has these bytes too, which lie behind its end. It lies where it lay, and
    /// so do the regions of reads and writes that wait. Takes no memory. `is_lent` tells whether an engine lent it.
    /// WebAssembly, `memory.grow`.
    pub fn memory_grown(&mut self, guest: u32, more: Vec<u8, Lodged>)
        requires there { guest < length self.old.state.guests }
        requires lent { is_lent_in self.old.state.guests guest ≡ true }
        requires behind { IfSome (base_in self.old.state.guests guest)
            (λ base. vec_ptr more ≡ base.at +ₚ length (memory_in self.old.state.guests guest)) }
        requires small { length (memory_in self.old.state.guests guest) + length more.items
            < 4294967296 }
        ensures { self.new ≡ with_state self.old (grown self.old.state guest more.items) }
    {
        self.store.memory_grown(guest, more)
    }

    /// A guest's memory, which an engine lent, goes on in these bytes, which begin with all of its own, at another
    /// place. Answers the bytes in which it was. Reads and writes that wait go on there. Takes no memory. `is_lent`
    /// tells whether an engine lent it. wasmtime, `Memory::grow`, which may move it.
    pub fn memory_moved(&mut self, guest: u32, bytes: Vec<u8, Lodged>) -> Vec<u8, Lodged>
        requires there { guest < length self.old.state.guests }
        requires lent { is_lent_in self.old.state.guests guest ≡ true }
        requires begins { take (length (memory_in self.old.state.guests guest)) bytes.items
            ≡ memory_in self.old.state.guests guest }
        requires small { length bytes.items < 4294967296 }
        ensures moved { self.new ≡ with_state self.old (moved_to self.old.state guest
            (drop (length (memory_in self.old.state.guests guest)) bytes.items) (vec_ptr bytes)) }
        ensures left { result.items ≡ memory_in self.old.state.guests guest }
        ensures lay { base_in self.old.state.guests guest ≡ Some (lent_at (vec_ptr result)) }
    {
        self.store.memory_moved(guest, bytes)
    }
}
