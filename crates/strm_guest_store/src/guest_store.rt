//! The store, and what it tells.
//!
//! Meaning: `State.antt` of `strm_machine`, and `Guests.antt` of `strm_transmit`. Source: wasmtime,
//! `futures_and_streams.rs`, `ConcurrentState`; that host ends stand apart is ours.

ghost use Rattle.std.specs.Prelude.{◌≡◌, ◌<◌, ◌≤◌, ◌↔◌, ◌*◌, false, length, IsSome, IfSome, IsTrue};
ghost use Rattle.strm_codes.specs.Types.{kind_of, payload_of};
ghost use Rattle.strm_machine.specs.State.{empty, is_live, stream_at, memory_in};

mod contexts;
mod counts;
mod futures;
mod lives;
mod making;
mod memories;
mod moves;
mod operating;
mod queries;
mod ready;
mod sets;
mod streams;

use std::alloc::Global;
use std::marker::Model;
use strm_codes::codes::TransmitIndex;
use strm_machine::limits::Limits;
use strm_transmit::store::Store;

/// Guests and the streams between them. No host end has an end of one.
#[derive(Drop)]
pub struct GuestStore {
    store: Store,
}

impl Model for GuestStore {
    ghost use Rattle.strm_machine.specs.State.{State};
    ghost use Rattle.std.specs.Coded.{codes};
    ghost use Rattle.strm_error_contexts.specs.Contexts.{contexts_code};
    ghost use Rattle.strm_waitable_sets.specs.Sets.{sets_code};

    ghost Value = { State };

    ghost coded = { Prim.hlevel (codes, sets_code, contexts_code) };

    ghost use Rattle.strm_guest_store.specs.Among.{IsAmongGuests};

    ghost view = { λ s. s.store };

    ghost invariant = { λ s. IsAmongGuests s.store };
}

impl GuestStore {
    /// A store without guests, of this tag, under these limits. Takes no memory.
    pub fn new(alloc: Global, tag: u64, limits: Limits) -> GuestStore
        ensures { result ≡ empty tag limits }
    {
        GuestStore {
            store: Store::new(alloc, tag, limits),
        }
    }

    /// The number that the store was made with, which no call changes.
    pub fn tag(&self) -> u64
        ensures { result ≡ self.now.tag }
    {
        self.store.tag()
    }

    /// Nothing traps it, and no call answers `StoreTrapped`. It does nothing.
    pub fn nothing_traps(&self)
        ensures { self.now.trapped ≡ false }
    {
        let _ = &self.store;
    }

    /// The numbers that streams and futures got so far: they are below this. One is given again once both ends
    /// of its stream are gone, so there are never more than there is room for at once under the limit on
    /// places.
    pub fn streams(&self) -> u32
        ensures count { result ≡ length self.now.streams }
        ensures few { 3 * length self.now.streams ≤ self.now.limits.places }
    {
        self.store.streams()
    }

    /// How many items were received on the stream that got this number last, from 0 on; it stays at
    /// 2^128 - 1 once there. None of a number that no stream got.
    pub fn moved(&self, stream: u32) -> Option<u128>
        ensures made { IsSome result ↔ (stream < length self.now.streams) }
        ensures count { IfSome result (λ count. count ≡ (stream_at self.now stream).received) }
    {
        self.store.moved(stream)
    }

    /// The type of the stream that has this number, while an end of it is there.
    pub fn transmit_index(&self, stream: u32) -> Option<TransmitIndex>
        ensures live { IsSome result ↔ IsTrue (is_live (stream_at self.now stream)) }
        ensures ty { IfSome result (λ ty.
            (kind_of ty ≡ (stream_at self.now stream).kind)
            × (payload_of ty ≡ (stream_at self.now stream).payload)) }
    {
        self.store.transmit_index(stream)
    }

    /// The bytes of a guest's memory, and none of a guest that is not there.
    pub fn memory(&self, guest: u32) -> Option<&[u8]>
        ensures there { IsSome result ↔ (guest < length self.now.guests) }
        ensures bytes { IfSome result (λ bytes. bytes.now ≡ memory_in self.now.guests guest) }
    {
        self.store.memory(guest)
    }
}
