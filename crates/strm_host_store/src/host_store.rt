//! The store, and what it tells.
//!
//! Meaning: `HostStates.antt`. Source: wasmtime, `futures_and_streams.rs`, `ConcurrentState`; that its host ends are
//! ready is ours.

ghost use Rattle.std.specs.Prelude.{◌≡◌, ◌<◌, ◌↔◌, [], length, IsSome, IfSome, IsTrue};
ghost use Rattle.strm_codes.specs.Types.{kind_of, payload_of};
ghost use Rattle.strm_machine.specs.State.{empty, is_live, stream_at};
ghost use Rattle.strm_host_store.specs.HostStates.{host_state};

mod asking;
mod cancels;
mod contexts;
mod driving;
mod drops;
mod feeding;
mod guests;
pub mod hosting;
mod making;
mod moves;
mod operating;
mod queries;
mod reading;
mod sets;

use crate::ready_ends::ReadyEnds;
use std::alloc::Global;
use std::marker::Model;
use strm_codes::codes::TransmitIndex;
use strm_machine::limits::Limits;
use strm_transmit::store::Store;

/// Guests, the streams between them, and host writers and host readers, which are numbered from 0 on, each kind by
/// itself.
#[derive(Drop)]
pub struct HostStore {
    store: Store,
    ends: ReadyEnds,
    alloc: Global,
}

impl Model for HostStore {
    ghost use Rattle.std.specs.Coded.{codes};
    ghost use Rattle.strm_error_contexts.specs.Contexts.{contexts_code};
    ghost use Rattle.strm_waitable_sets.specs.Sets.{sets_code};
    ghost use Rattle.strm_host_store.specs.HostStates.{HostState, IsAmongReady, host_state};

    ghost Value = { HostState };

    ghost coded = { Prim.hlevel (codes, sets_code, contexts_code) };

    ghost view = { λ s. host_state s.store s.ends.writers.items s.ends.readers.items };

    ghost invariant = { λ s. IsAmongReady (host_state s.store s.ends.writers.items s.ends.readers.items) };
}

#[tactic(auto, using(crate::proofs::FitLemmas::empty_fits))]
impl HostStore {
    /// A store without guests and host ends, of this tag, under these limits. Takes no memory.
    pub fn new(alloc: Global, tag: u64, limits: Limits) -> HostStore
        ensures { result ≡ host_state (empty tag limits) [] [] }
    {
        HostStore {
            store: Store::new(alloc, tag, limits),
            ends: ReadyEnds::new(alloc),
            alloc,
        }
    }

    /// The number that the store was made with, which no call changes.
    pub fn tag(&self) -> u64
        ensures { result ≡ self.now.state.tag }
    {
        self.store.tag()
    }

    /// Whether it answers nothing any more but `StoreTrapped`.
    pub fn trapped(&self) -> bool
        ensures { result ≡ self.now.state.trapped }
    {
        self.store.trapped()
    }

    /// How many host writers there are.
    pub fn writers(&self) -> usize
        ensures { result ≡ length self.now.writers }
    {
        self.ends.writers.len()
    }

    /// How many host readers there are.
    pub fn readers(&self) -> usize
        ensures { result ≡ length self.now.readers }
    {
        self.ends.readers.len()
    }

    /// How many streams and futures were made so far.
    pub fn streams(&self) -> u32
        ensures { result ≡ length self.now.state.streams }
    {
        self.store.streams()
    }

    /// How many items were received on a stream, from 0 on; it stays at 2^128 - 1 once there.
    pub fn moved(&self, stream: u32) -> Option<u128>
        ensures made { IsSome result ↔ (stream < length self.now.state.streams) }
        ensures count { IfSome result (λ count.
            count ≡ (stream_at self.now.state stream).received) }
    {
        self.store.moved(stream)
    }

    /// The type of a stream of which an end is there.
    pub fn transmit_index(&self, stream: u32) -> Option<TransmitIndex>
        ensures live { IsSome result ↔ IsTrue (is_live (stream_at self.now.state stream)) }
        ensures ty { IfSome result (λ ty.
            (kind_of ty ≡ (stream_at self.now.state stream).kind)
            × (payload_of ty ≡ (stream_at self.now.state stream).payload)) }
    {
        self.store.transmit_index(stream)
    }
}
