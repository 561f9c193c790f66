//! The making of streams and futures.
//!
//! Meaning: the making of a stream between two guests, `Making.antt` of `strm_machine`. Source:
//! Canonical ABI, `canon stream.new` and `canon future.new`; two guests at once are ours.

ghost use Rattle.std.specs.Prelude.{◌≡◌, ◌<◌, ◌+◌, ◌*◌, nat_lt, ◌||◌, ◌++◌, ◌∷◌, [], false, length, vec_len, Err, None};
ghost use Rattle.std.specs.Vec.{vec_capacity};
ghost use Rattle.strm_codes.specs.declared.codes.TransmitIndex.{TransmitIndex};
ghost use Rattle.strm_codes.specs.declared.codes.TransmitIndex.TheVariants as index;
ghost use Rattle.strm_codes.specs.Types.{kind_of, payload_of};
ghost use Rattle.strm_handles.specs.Handles.{next_index};
ghost use Rattle.strm_machine.specs.State.{guest_in};
ghost use Rattle.strm_machine.specs.Making.{writer_index, made_stream};
ghost use Rattle.strm_machine.specs.Tests.{is_no_handle, are_handles_full, are_places_full, are_streams_full};
ghost use Rattle.strm_machine.specs.Refusals.{refusal};
ghost use Rattle.strm_machine.specs.Soundness.{IsSound};
ghost use Rattle.strm_machine.specs.Reactions.{react, performs};
ghost use Rattle.strm_machine.specs.declared.acts.Act.TheVariants.{Make};
ghost use Rattle.strm_machine.specs.declared.acts.Making.TheVariants.{Between};
ghost use Rattle.strm_machine.specs.declared.replies.Reply.TheVariants as replies;
ghost use Rattle.strm_machine.specs.declared.steps.Step.TheVariants as steps;
ghost use Rattle.strm_host_machine.specs.Does.{Fits};
ghost use Rattle.strm_places.specs.Again.{performs_at, reacts_at};
ghost use Rattle.strm_transmit.specs.Again.{MeetsAt, GrowsFull};
ghost use Rattle.strm_transmit.specs.Guests.{nobody};
ghost use Rattle.strm_transmit.specs.Meets.{Meets, as_reply, or_found};
ghost use Rattle.strm_transmit.specs.Hosted.{StillFits};

use crate::errors::StoreError;
use crate::places::{append, make_room, reuse};
use crate::store::Store;
use strm_channels::channels::Channel;
use strm_channels::ends::insert_ends;
use strm_codes::codes::{TransmitIndex, TransmitKind};
use strm_codes::payloads::Payload;
use strm_codes::refusals::Refusal;
use strm_handles::entries::MAX_HANDLE;
use strm_machine::replies::Pair;
use strm_machine::streams::Owner;

/// The streams of a store, at most.
const MOST_STREAMS: usize = 4_294_967_295;

// Whether so many places more would pass a limit, beside those of so many streams, sets and error
// contexts.
#[inline(always)]
fn pass_limit(limit: u32, streams: u32, sets: u32, contexts: usize, needed: u32) -> bool
    ensures { result ≡ nat_lt limit (3 * streams + sets + contexts + needed) }
{
    let taken = 3 * u64::from(streams) + u64::from(sets) + u64::from(needed);
    u64::from(limit) < taken.saturating_add(contexts as u64)
}

// The handles of a new stream's ends, the read end's first, and its number.
#[inline(always)]
fn pair_of(numbers: (u32, u32), stream: u32) -> Pair
    ensures { result ≡ record { read = numbers.0; write = numbers.1; stream = stream } }
{
    let (read, write) = numbers;
    Pair {
        read,
        write,
        stream,
    }
}

// A stream whose ends two guests have under these handles.
#[inline(always)]
fn stream_of(kind: TransmitKind, payload: Payload, writer: u32, reader: u32, pair: &Pair) -> Channel
    ensures { (ty : TransmitIndex) → kind ≡ kind_of ty → payload ≡ payload_of ty
        → result ≡ made_stream ty writer pair.now.write reader pair.now.read }
{
    let write = Owner::Held {
        guest: writer,
        handle: pair.write,
    };
    let read = Owner::Held {
        guest: reader,
        handle: pair.read,
    };
    Channel::new(kind, payload, write, read)
}

impl Store {
    // The number that the write end gets, where the read end's was inserted.
    #[inline(always)]
    fn writer_index(&self, writer: u32, reader: u32) -> u32
        requires writer { writer < length self.now.guests }
        requires reader { reader < length self.now.guests }
        ensures { (ty : TransmitIndex) → result ≡ writer_index self.now writer reader ty }
    {
        let table = &self.guests[writer as usize].table;
        if writer == reader {
            table.second_index()
        } else {
            table.next_index()
        }
    }

    // Whether a table would give a number that is no handle.
    #[inline(always)]
    fn is_number_missing(&self, writer: u32, reader: u32) -> bool
        requires writer { writer < length self.now.guests }
        requires reader { reader < length self.now.guests }
        ensures { (ty : TransmitIndex) → result ≡
            is_no_handle (next_index (guest_in self.now.guests reader).handles)
            || is_no_handle (writer_index self.now writer reader ty) }
    {
        let read = self.guests[reader as usize].table.next_index();
        read >= MAX_HANDLE || self.writer_index(writer, reader) >= MAX_HANDLE
    }

    // Whether so many handles more would pass the limit.
    #[inline(always)]
    pub(crate) fn are_handles_full(&self, needed: u32) -> bool
        ensures { result ≡ are_handles_full self.now needed }
    {
        // No more are live than may be.
        self.limits.handles - self.counter.live() < needed as usize
    }

    // Whether so many places more would pass the limit.
    #[inline(always)]
    pub(crate) fn are_places_full(&self, needed: u32) -> bool
        ensures { result ≡ are_places_full self.now needed }
    {
        pass_limit(
            self.limits.places,
            self.places.live(),
            self.live_sets,
            self.contexts.len(),
            needed,
        )
    }

    // Whether a stream more would pass the limit on places, or have no number.
    #[inline(always)]
    pub(crate) fn are_streams_full(&self) -> bool
        ensures { result ≡ are_places_full self.now 3 || are_streams_full self.now }
    {
        self.are_places_full(3) || self.streams.len() >= MOST_STREAMS
    }

    // Whether a stream may be made between two guests.
    #[inline(always)]
    #[tactic(auto, unfolding(strm_machine::specs::Refusals::refusal))]
    fn pair_fits(&self, writer: u32, reader: u32) -> Result<(), Refusal>
        ensures { (ty : TransmitIndex) → result
            ≡ or_found (refusal self.now (Make (Between writer reader ty))) tt }
    {
        if self.is_unknown_guest(writer) || self.is_unknown_guest(reader) {
            return Err(Refusal::UnknownGuest);
        }
        if self.is_number_missing(writer, reader) {
            return Err(Refusal::IndexOverflow);
        }
        if self.are_handles_full(2) {
            return Err(Refusal::HandleLimit);
        }
        if self.are_streams_full() {
            return Err(Refusal::Full);
        }
        Ok(())
    }

    // A stream more. After running out of memory nothing has changed.
    #[tactic(auto, unfolding(strm_machine::specs::Reactions::performs))]
    fn make(&mut self, writer: u32, reader: u32, ty: TransmitIndex) -> Result<Pair, StoreError>
        requires { refusal self.old (Make (Between writer reader ty)) ≡ None }
        ensures { Meets self.old self.new (as_reply replies.Pair result)
            (performs self.old (Make (Between writer reader ty))) }
    {
        let stream = self.streams.len() as u32;
        let (kind, payload) = (ty.kind(), ty.payload());
        make_room(&mut self.streams, &mut self.places)?;
        self.ready.reserve()?;
        let (guests, counter) = (&mut self.guests, &mut self.counter);
        let (from, to) = (writer as usize, reader as usize);
        let numbers = insert_ends(guests, counter, from, to, ty, stream)?;
        let pair = pair_of(numbers, stream);
        let joined = stream_of(kind, payload, writer, reader, &pair);
        self.ready.add_stream(&self.guests, &joined);
        append(&mut self.streams, &mut self.places, joined);
        Ok(pair)
    }

    // A stream in the free place that was freed last, or behind the last where none is free. After running
    // out of memory nothing has changed.
    #[inline(always)]
    fn make_again(
        &mut self,
        writer: u32,
        reader: u32,
        ty: TransmitIndex,
    ) -> Result<Pair, StoreError>
        requires may { refusal self.old (Make (Between writer reader ty)) ≡ None }
        requires unserved { Fits self.old nobody }
        ensures meets { MeetsAt self.old self.new (as_reply replies.Pair result)
            (λ n. performs_at n self.old (Make (Between writer reader ty))) }
        ensures grows { GrowsFull self.old.streams self.new.streams }
    {
        let Some(stream) = self.places.next() else {
            return self.make(writer, reader, ty);
        };
        let (kind, payload) = (ty.kind(), ty.payload());
        let (guests, counter) = (&mut self.guests, &mut self.counter);
        let (from, to) = (writer as usize, reader as usize);
        let numbers = insert_ends(guests, counter, from, to, ty, stream)?;
        let pair = pair_of(numbers, stream);
        let joined = stream_of(kind, payload, writer, reader, &pair);
        reuse(&mut self.streams, &mut self.places, stream, joined);
        let placed = &self.streams[stream as usize];
        self.ready.retell(&self.guests, stream, placed);
        Ok(pair)
    }

    /// A stream or future between two guests, which may be one: the read end's handle goes into the
    /// reader's table first, and then the write end's into the writer's. Its number is behind the last, and
    /// never one that was given. Refused: UnknownGuest (either), IndexOverflow, HandleLimit, Full.
    /// OutOfMemory.
    pub fn new_between(
        &mut self,
        writer: u32,
        reader: u32,
        ty: TransmitIndex,
    ) -> Result<Pair, StoreError>
        ensures meets { Meets self.old self.new (as_reply replies.Pair result)
            (react self.old (steps.Between writer reader ty)) }
        ensures fits { StillFits self.old self.new }
    {
        self.admit(self.pair_fits(writer, reader))?;
        self.make(writer, reader, ty)
    }

    /// The same for a store that needs no host end; but the number may be that of a stream both of whose
    /// ends are gone, and is a new one only where there is none. Refused: UnknownGuest (either),
    /// IndexOverflow, HandleLimit, Full. OutOfMemory. wasmtime, `ResourceTable::push`.
    #[inline(always)]
    pub fn new_between_again(
        &mut self,
        writer: u32,
        reader: u32,
        ty: TransmitIndex,
    ) -> Result<Pair, StoreError>
        requires unserved { Fits self.old nobody }
        ensures meets { MeetsAt self.old self.new (as_reply replies.Pair result)
            (λ n. reacts_at n self.old (steps.Between writer reader ty)) }
        ensures grows { GrowsFull self.old.streams self.new.streams }
        ensures sound { IsSound self.new }
        ensures fits { StillFits self.old self.new }
    {
        self.admit(self.pair_fits(writer, reader))?;
        let made = self.make_again(writer, reader, ty);
        self.sound();
        made
    }

    /// A stream whose ends one guest gets: their handles go into its table, the read end's first.
    /// `canon stream.new`. Refused: UnknownGuest, IndexOverflow, HandleLimit, Full. OutOfMemory.
    pub fn stream_new(&mut self, guest: u32, payload: Payload) -> Result<Pair, StoreError>
        ensures meets { Meets self.old self.new (as_reply replies.Pair result)
            (react self.old (steps.New guest (index.Stream payload))) }
        ensures fits { StillFits self.old self.new }
    {
        self.new_between(guest, guest, TransmitIndex::Stream(payload))
    }

    /// A future whose ends one guest gets: their handles go into its table, the read end's first.
    /// `canon future.new`. Refused: UnknownGuest, IndexOverflow, HandleLimit, Full. OutOfMemory.
    pub fn future_new(&mut self, guest: u32, payload: Payload) -> Result<Pair, StoreError>
        ensures meets { Meets self.old self.new (as_reply replies.Pair result)
            (react self.old (steps.New guest (index.Future payload))) }
        ensures fits { StillFits self.old self.new }
    {
        self.new_between(guest, guest, TransmitIndex::Future(payload))
    }
}
