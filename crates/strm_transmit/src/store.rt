//! The store, and what it tells.
//!
//! Meaning: `State.antt` of `strm_machine`. Source: wasmtime, `futures_and_streams.rs`,
//! `ConcurrentState`; the tag and the limits but those on handles are ours.

ghost use Rattle.std.specs.Prelude.{◌≡◌, ◌≢◌, Err, ◌<◌, ◌↔◌, false, length, Some, None, IsSome, IfSome, IsTrue};
ghost use Rattle.strm_codes.specs.Types.{kind_of, payload_of};
ghost use Rattle.strm_machine.specs.State.{empty, is_live, stream_at, memory_in};
ghost use Rattle.strm_machine.specs.Soundness.{type_with};
ghost use Rattle.strm_machine.specs.Tests.{is_unknown_guest};

pub mod bad_items;
mod contexts;
pub mod counts;
mod driving;
mod endings;
mod hosting;
mod lives;
mod making;
mod memories;
mod moves;
mod operating;
mod operations;
mod piping;
pub mod queries;
mod refusals;
mod releasing;
mod rounds;
mod sets;
mod turning;

use crate::errors::StoreError;
use crate::places::StreamPlaces;
use crate::readiness::Readiness;
use std::alloc::Global;
use std::marker::Model;
use strm_buffers::items::Items;
use strm_channels::channels::Channel;
use strm_channels::guests::Guest;
use strm_channels::owners::is_live;
use strm_codes::codes::{TransmitIndex, TransmitKind};
use strm_codes::payloads::Payload;
use strm_codes::refusals::Refusal;
use strm_error_contexts::contexts::ErrorContexts;
use strm_handles::counters::HandleCounter;
use strm_machine::limits::Limits;
use strm_machine::streams::{Consumer, Duty, Producer};

/// A host writer that was never used.
const NO_PRODUCER: Producer = Producer {
    duty: Duty::Unused,
    over: false,
    holding: false,
};

/// A host reader that was never used.
const NO_CONSUMER: Consumer = Consumer {
    duty: Duty::Unused,
    since: 0,
    resting: false,
};

// The type of the streams of a kind and a payload.
pub(crate) fn type_with(kind: TransmitKind, payload: Payload) -> TransmitIndex
    ensures { result ≡ type_with kind payload }
{
    match kind {
        TransmitKind::Stream => TransmitIndex::Stream(payload),
        TransmitKind::Future => TransmitIndex::Future(payload),
    }
}

// A type of plain numbers, made anew from its scalar: then no more of its payload is loaded and kept.
#[inline(always)]
pub(crate) fn number_type(ty: TransmitIndex) -> Option<TransmitIndex>
    ensures { IfSome result (λ same. same ≡ ty) }
{
    let Payload::One(scalar) = ty.payload() else {
        return None;
    };
    if !scalar.is_numeric() {
        return None;
    }
    Some(type_with(ty.kind(), Payload::One(scalar)))
}

/// Guests, the streams between them, and what is kept of host ends.
#[derive(Drop)]
pub struct Store {
    tag: u64,
    limits: Limits,
    counter: HandleCounter,
    guests: Vec<Guest>,
    streams: Vec<Channel>,
    // What is kept of each host writer, by its number.
    producers: [Producer; 64],
    // Its items that a host reader, which reads its stream, did not take yet; of numbers past the last
    // there are none.
    kept: Vec<Items>,
    // What is kept of each host reader.
    consumers: [Consumer; 64],
    contexts: ErrorContexts,
    // Which of their places are free.
    places: StreamPlaces,
    // Waitable sets of all guests together.
    live_sets: u32,
    // The bytes of all memories of the store's own together.
    bytes: u32,
    is_trapped: bool,
    // What is known of ends that are to be told something.
    ready: Readiness,
    alloc: Global,
}

impl Model for Store {
    ghost use Rattle.strm_machine.specs.State.{State};
    ghost use Rattle.std.specs.Coded.{codes};
    ghost use Rattle.strm_error_contexts.specs.Contexts.{contexts_code};
    ghost use Rattle.strm_waitable_sets.specs.Sets.{sets_code};

    ghost Value = { State };

    ghost coded = { Prim.hlevel (codes, sets_code, contexts_code) };

    ghost use Rattle.strm_transmit.specs.Inside.{state_of, IsStore};

    ghost view = { state_of };

    ghost invariant = { IsStore };
}

impl Store {
    ghost use Rattle.strm_buffers.specs.Tells.{Tells};
    ghost use Rattle.strm_machine.specs.Soundness.{IsSound};
    ghost use Rattle.strm_host_machine.specs.Releasing.{KnowsHeld};
    ghost use Rattle.strm_host_machine.specs.Does.{Fits};
    ghost use Rattle.strm_transmit.specs.Inside.{AreServed};
    ghost use Rattle.strm_transmit.specs.Meets.{admitted};

    /// A store without guests. The tag is its name; it takes no memory.
    pub fn new(alloc: Global, tag: u64, limits: Limits) -> Store
        ensures exact { result ≡ empty tag limits }
        ensures fits { (tells : Tells) → Fits result tells }
        ensures known { (tells : Tells) → KnowsHeld result tells }
    {
        Store {
            tag,
            limits,
            counter: HandleCounter::new(limits.handles),
            guests: Vec::new(alloc),
            streams: Vec::new(alloc),
            producers: [NO_PRODUCER; 64],
            kept: Vec::new(alloc),
            consumers: [NO_CONSUMER; 64],
            contexts: ErrorContexts::new(alloc),
            places: StreamPlaces::new(alloc),
            live_sets: 0,
            bytes: 0,
            is_trapped: false,
            ready: Readiness::new(alloc),
            alloc,
        }
    }

    /// The name that it was made with.
    pub fn tag(&self) -> u64
        ensures { result ≡ self.now.tag }
    {
        self.tag
    }

    /// Whether it answers nothing any more but `StoreTrapped`.
    pub fn trapped(&self) -> bool
        ensures { result ≡ self.now.trapped }
    {
        self.is_trapped
    }

    /// How many streams were made so far.
    pub fn streams(&self) -> u32
        ensures { result ≡ length self.now.streams }
    {
        self.streams.len() as u32
    }

    /// How many items were received on a stream, from 0 on; it stays at 2^128 - 1 once there.
    pub fn moved(&self, stream: u32) -> Option<u128>
        ensures made { IsSome result ↔ (stream < length self.now.streams) }
        ensures count { IfSome result (λ count. count ≡ (stream_at self.now stream).received) }
    {
        if (stream as usize) < self.streams.len() {
            Some(self.streams[stream as usize].received())
        } else {
            None
        }
    }

    /// The type of a stream of which an end is there.
    pub fn transmit_index(&self, stream: u32) -> Option<TransmitIndex>
        ensures live { IsSome result ↔ IsTrue (is_live (stream_at self.now stream)) }
        ensures ty { IfSome result (λ ty.
            (kind_of ty ≡ (stream_at self.now stream).kind)
            × (payload_of ty ≡ (stream_at self.now stream).payload)) }
    {
        if stream as usize >= self.streams.len() || !is_live(&self.streams[stream as usize]) {
            return None;
        }
        let stream = &self.streams[stream as usize];
        Some(type_with(stream.kind(), stream.payload()))
    }

    /// The bytes of a guest's memory.
    pub fn memory(&self, guest: u32) -> Option<&[u8]>
        ensures there { IsSome result ↔ (guest < length self.now.guests) }
        ensures bytes { IfSome result (λ bytes. bytes.now ≡ memory_in self.now.guests guest) }
    {
        if (guest as usize) < self.guests.len() {
            let guest = &self.guests[guest as usize];
            Some(guest.memory.bytes())
        } else {
            None
        }
    }

    // Whether no guest has this number.
    #[inline(always)]
    fn is_unknown_guest(&self, guest: u32) -> bool
        ensures exact { result ≡ is_unknown_guest self.now guest }
        ensures there { result ≡ false → guest < length self.now.guests }
    {
        guest as usize >= self.guests.len()
    }

    // A stream.
    #[inline(always)]
    pub(crate) fn stream(&self, stream: u32) -> &Channel
        requires { stream < length self.now.streams }
        ensures { result.now ≡ stream_at self.now stream }
    {
        &self.streams[stream as usize]
    }

    // What was looked for, unless the store is trapped or a refusal was found, and what holds of every
    // store.
    #[inline(always)]
    fn admit<T: Copy>(&self, found: Result<T, Refusal>) -> Result<T, StoreError>
        ensures exact { result ≡ admitted self.now found }
        ensures sound { IsSound self.now }
        ensures served { AreServed self.now.producers self.now.consumers self.now.streams }
        ensures takes_no_memory { result ≢ Err StoreError.OutOfMemory }
    {
        match found {
            Ok(value) if !self.is_trapped => Ok(value),
            Err(refusal) if !self.is_trapped => Err(StoreError::Refused(refusal)),
            _ => Err(StoreError::StoreTrapped),
        }
    }
}
