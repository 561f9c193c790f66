//! Where a producer puts its items: straight into the window of the poll, or into a buffer.
//!
//! Source: wasmtime, `futures_and_streams.rs`, `Destination`.

ghost use Rattle.std.specs.Prelude.{◌≡◌, ◌+◌, ◌<◌, ◌-◌, [], true, length, IfOk, OnErr};
ghost use Rattle.std.specs.Borrow.{sem};
ghost use Rattle.strm_host.specs.Lending.{LendsDestination, LendsDirect};
ghost use Rattle.strm_codes.specs.declared.payloads.Payload.TheVariants.{One};
ghost use Rattle.strm_codes.specs.declared.scalars.Scalar.TheVariants.{U8};
ghost use Rattle.std.specs.Option.{option_map};
ghost use Rattle.strm_buffers.specs.Windows.{Between, room_of, CanCount, with_direct};

use crate::direct::DirectDestination;
use std::alloc::Global;
use std::marker::PhantomData;
use std::mem;
use strm_buffers::buffers::WriteBuffer;
use strm_buffers::items::MOST_ITEMS;
use strm_buffers::windows::Window;
use strm_codes::counts::OutOfMemory;
use strm_memory::payloaded::Payloaded;

/// What a poll has produced so far: the items marked in its window, and behind them those of a
/// buffer.
#[derive(Drop)]
pub struct Produced<B> {
    pub(crate) window: Window,
    pub(crate) buffer: B,
    pub(crate) alloc: Global,
}

/// Where a producer puts its items while a poll lasts.
#[derive(Drop)]
pub struct Destination<'a, T: Payloaded, B: WriteBuffer<T> + Drop> {
    pub produced: &'a mut Produced<B>,
    pub items: PhantomData<T>,
}

impl<'a, T: Payloaded, B: WriteBuffer<T> + Drop> Destination<'a, T, B> {
    /// The buffer; one without items stands in its place.
    pub fn take_buffer(&mut self) -> B
        ensures same_reference { self.new.produced.ghost_name ≡ self.old.produced.ghost_name }
        ensures taken { result ≡ self.old.produced.now.buffer }
        ensures window { self.new.produced.now.window ≡ self.old.produced.now.window }
        ensures buffer { B.items self.new.produced.now.buffer ≡ [] }
    {
        let empty = B::empty(self.produced.alloc);
        mem::replace(&mut self.produced.buffer, empty)
    }

    /// Puts this buffer in the place of the one before, whose items count as not produced.
    pub fn set_buffer(&mut self, buffer: B)
        requires few { length self.old.produced.now.window.marked + length (B.items buffer)
            < 4294967295 }
        ensures same_reference { self.new.produced.ghost_name ≡ self.old.produced.ghost_name }
        ensures window { self.new.produced.now.window ≡ self.old.produced.now.window }
        ensures buffer { self.new.produced.now.buffer ≡ buffer }
    {
        self.produced.buffer = buffer;
    }

    /// How many items more there is room for in the window; none where there is as much as is wanted.
    pub fn remaining(&self) -> Option<usize>
        ensures { result ≡ option_map (λ room. room - length self.now.produced.now.window.marked)
            (room_of self.now.produced.now.window.place) }
    {
        let marked = self.produced.window.marked();
        match self.produced.window.room() {
            Some(room) => Some((room - marked) as usize),
            None => None,
        }
    }

    /// How many items more a poll may produce.
    pub fn spare(&self) -> usize
        requires few { length self.now.produced.now.window.marked + length
            (B.items self.now.produced.now.buffer) < 4294967295 }
        ensures { result ≡ 4294967294 - (length self.now.produced.now.window.marked + length
            (B.items self.now.produced.now.buffer)) }
    {
        MOST_ITEMS as usize - (self.produced.window.marked() as usize + self.produced.buffer.len())
    }

    /// Another one, for as long as this one is lent.
    pub fn reborrow(&mut self) -> Destination<'_, T, B>
        ensures* lends { sem 𝓛 (LendsDestination T.row B.row self.entry result.produced) }
        ensures value { result.produced.now ≡ self.old.produced.now }
    {
        Destination {
            produced: &mut *self.produced,
            items: PhantomData,
        }
    }
}

impl<'a, B: WriteBuffer<u8> + Drop> Destination<'a, u8, B> {
    /// The bytes of the window, to be written where they are read: the rest of a stated room, or else
    /// so many new ones. After `OutOfMemory`, which comes only between host ends, nothing has changed.
    pub fn as_direct(self, capacity: usize) -> Result<DirectDestination<'a, B>, OutOfMemory>
        requires payload { self.produced.now.window.payload ≡ One U8 }
        requires prepared { self.produced.now.window.prepared ≡ true }
        requires few { CanCount self.produced.now.window.place
            (length self.produced.now.window.marked) capacity }
        ensures* lends { sem 𝓛 (LendsDirect B.row self.entry.produced result) }
        ensures same_reference { IfOk result
            (λ direct. direct.produced.ghost_name ≡ self.entry.produced.ghost_name) }
        ensures window { IfOk result (λ direct. direct.produced.now.window
            ≡ with_direct self.entry.produced.now.window capacity) }
        ensures buffer { IfOk result
            (λ direct. direct.produced.now.buffer ≡ self.entry.produced.now.buffer) }
        ensures out_of_memory { OnErr result (self.entry.produced.now.window.place ≡ Between) }
    {
        let Destination { produced, items: _ } = self;
        produced.window.direct(capacity)?;
        Ok(DirectDestination { produced })
    }
}
