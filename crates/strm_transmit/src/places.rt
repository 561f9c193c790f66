//! The places of the streams of a store: how many have an end left, and which are free, since both ends
//! of the stream there are gone. To free one takes no memory.
//!
//! Meaning: `Places.antt`. Source: wasmtime, `resource_table.rs`, `ResourceTable`, whose rows are given
//! again. Ours: each stream's making takes the room for its place to be freed.

ghost use Rattle.std.specs.Prelude.{◌≡◌, ◌+◌, ◌<◌, ◌≤◌, ◌++◌, ◌∷◌, [], true, false, length, vec_len, vec_capacity, OnOk, Some, slice_index_or, slice_set};
ghost use Rattle.strm_machine.specs.State.{is_live, no_stream};
ghost use Rattle.strm_machine.specs.Moves.{with_owner};
ghost use Rattle.strm_transmit.specs.Places.{no_places, ArePlaces, added_place, next_free, taken, settled};

use std::alloc::{AllocError, Global};
use std::marker::Model;
use strm_channels::channels::Channel;
use strm_channels::owners::is_live;
use strm_machine::streams::{Owner, Side};

/// Which places of streams are free, and how many are not.
#[derive(Drop)]
pub(crate) struct StreamPlaces {
    // Streams of which an end is there.
    live: u32,
    // The places of all others, the last freed at the end.
    free: Vec<u32>,
}

impl Model for StreamPlaces {
    ghost use Rattle.std.specs.Prelude.{reverse, vec_capacity};
    ghost use Rattle.strm_transmit.specs.Places.{Places};

    ghost Value = { Places };

    ghost view = { λ p. record {
      live = p.live;
      free = reverse p.free.items;
      room = vec_capacity p.free;
    } };
}

impl StreamPlaces {
    /// Of no streams. It takes no memory.
    pub(crate) fn new(alloc: Global) -> StreamPlaces
        ensures { result ≡ no_places }
    {
        StreamPlaces {
            live: 0,
            free: Vec::new(alloc),
        }
    }

    /// Streams of which an end is there.
    pub(crate) fn live(&self) -> u32
        ensures { result ≡ self.now.live }
    {
        self.live
    }

    /// Room for the places of so many streams to be freed.
    fn reserve(&mut self, streams: usize) -> Result<(), AllocError>
        requires { length self.old.free ≤ streams }
        ensures ok { OnOk result (streams ≤ self.new.room) }
        ensures room { self.old.room ≤ self.new.room }
        ensures same { self.new ≡ record self.old { room = self.new.room } }
    {
        self.free.reserve(streams - self.free.len())
    }

    /// A stream more, behind the last.
    fn add(&mut self)
        requires { self.old.live < 4294967295 }
        ensures { self.new ≡ added_place self.old }
    {
        self.live += 1;
    }

    /// The free place that a stream gets next, if there is one: the last freed.
    #[inline(always)]
    pub(crate) fn next(&self) -> Option<u32>
        ensures { result ≡ next_free self.now.free }
    {
        match self.free.last() {
            Some(place) => Some(*place),
            None => None,
        }
    }

    /// A stream more gets it.
    #[inline(always)]
    fn take(&mut self)
        requires some { 0 < length self.old.free }
        requires few { self.old.live < 4294967295 }
        ensures { self.new ≡ taken self.old }
    {
        let _ = self.free.take_last();
        self.live += 1;
    }

    /// A stream that had an end or not has one or not from now on.
    #[inline(always)]
    pub(crate) fn settle(&mut self, stream: u32, was_live: bool, is_live: bool)
        requires live { was_live ≡ true → 0 < self.old.live }
        requires room { was_live ≡ true → length self.old.free < self.old.room }
        ensures { self.new ≡ settled self.old stream was_live is_live }
    {
        if was_live && !is_live {
            self.live -= 1;
            self.free.push_reserved(stream);
        }
    }
}

/// Room for a stream more, and for its place to be freed.
pub(crate) fn make_room(
    streams: &mut Vec<Channel>,
    places: &mut StreamPlaces,
) -> Result<(), AllocError>
    requires { ArePlaces places.old streams.old.items }
    ensures ok { OnOk result (vec_len streams.new < vec_capacity streams.new) }
    ensures room { OnOk result (length streams.new.items + 1 ≤ places.new.room) }
    ensures streams { streams.new.items ≡ streams.old.items }
    ensures len { vec_len streams.new ≡ vec_len streams.old }
    ensures same { places.new ≡ record places.old { room = places.new.room } }
    ensures places { ArePlaces places.new streams.new.items }
{
    streams.reserve(1)?;
    places.reserve(streams.len() + 1)
}

/// A stream more, behind the last.
pub(crate) fn append(streams: &mut Vec<Channel>, places: &mut StreamPlaces, stream: Channel)
    requires live { is_live stream ≡ true }
    requires few { length streams.old.items < 4294967295 }
    requires fits { vec_len streams.old < vec_capacity streams.old }
    requires room { length streams.old.items + 1 ≤ places.old.room }
    requires places { ArePlaces places.old streams.old.items }
    ensures streams { streams.new.items ≡ streams.old.items ++ stream ∷ [] }
    ensures places { ArePlaces places.new streams.new.items }
{
    streams.push_reserved(stream);
    places.add();
}

/// A stream more, in the free place that was freed last.
#[inline(always)]
pub(crate) fn reuse(
    streams: &mut Vec<Channel>,
    places: &mut StreamPlaces,
    place: u32,
    stream: Channel,
)
    requires live { is_live stream ≡ true }
    requires few { length streams.old.items < 4294967295 }
    requires next { next_free places.old.free ≡ Some place }
    requires places { ArePlaces places.old streams.old.items }
    ensures streams { streams.new.items ≡ slice_set streams.old.items place stream }
    ensures places { ArePlaces places.new streams.new.items }
{
    streams[place as usize] = stream;
    places.take();
}

/// The end on a side of a stream has another owner from now on. A stream that is gone stays so.
#[inline(always)]
pub(crate) fn set_owner(
    streams: &mut Vec<Channel>,
    places: &mut StreamPlaces,
    stream: u32,
    side: Side,
    owner: Owner,
)
    requires there { stream < length streams.old.items }
    requires gone { is_live (slice_index_or streams.old.items stream no_stream) ≡ false
        → is_live (with_owner side (slice_index_or streams.old.items stream no_stream) owner)
        ≡ false }
    requires places { ArePlaces places.old streams.old.items }
    ensures streams { streams.new.items ≡ slice_set streams.old.items stream
        (with_owner side (slice_index_or streams.old.items stream no_stream) owner) }
    ensures places { ArePlaces places.new streams.new.items }
{
    let given = &mut streams[stream as usize];
    let was_live = is_live(given);
    given.set_owner(side, owner);
    places.settle(stream, was_live, is_live(given));
}
