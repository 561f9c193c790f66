//! Lists of items as producers of streams: the first poll gives them all.
//!
//! Source: wasmtime, `futures_and_streams.rs`, `StreamProducer` for `Vec` and `Box<[T]>`. That a list
//! may be too long for one poll is ours.

ghost use Rattle.std.specs.Prelude.{◌≡◌, [], drop};

use crate::destinations::Destination;
use crate::producers::StreamProducer;
use std::boxed::BoxedSlice;
use std::mem;
use strm_buffers::answers::{HostTurn, StreamResult, Turn};
use strm_buffers::items::MOST_ITEMS;
use strm_buffers::vec_buffer::VecBuffer;
use strm_memory::payloaded::Payloaded;

impl<T: Payloaded> StreamProducer for Vec<T> {
    ghost use Rattle.strm_host.specs.Lists.{list_faults, list_plan, list_turn, list_gives, list_keeps};

    type Item = T;

    type Buffer = VecBuffer<T>;

    ghost faults = { λ list. list_faults list.items };

    ghost plan = { λ list. list_plan T.item list.items };

    ghost leaves = { λ old room finish new. new.items ≡ list_keeps old.items };

    fn poll_produce(
        &mut self,
        destination: Destination<'_, T, VecBuffer<T>>,
        _finish: bool,
    ) -> HostTurn
        requires nothing_marked { destination.produced.now.window.marked ≡ [] }
        requires nothing_buffered { drop destination.produced.now.buffer.first
            destination.produced.now.buffer.buffer.items ≡ [] }
        ensures turn { result ≡ list_turn self.old.items }
        ensures window { destination.exit.0.now.window ≡ destination.entry.produced.now.window }
        ensures given { drop destination.exit.0.now.buffer.first
            destination.exit.0.now.buffer.buffer.items ≡ list_gives self.old.items }
        ensures kept { self.new.items ≡ list_keeps self.old.items }
    {
        let Destination { produced, items } = destination;
        let mut destination = Destination { produced, items };
        if self.len() > MOST_ITEMS as usize {
            return Turn::Failed;
        }
        let none = Vec::new(*self.allocator());
        destination.set_buffer(VecBuffer::from_vec(mem::replace(self, none)));
        Turn::Ready(StreamResult::Dropped)
    }
}

impl<T: Payloaded> StreamProducer for BoxedSlice<T> {
    ghost use Rattle.std.specs.Box.{boxed_slice_items};
    ghost use Rattle.strm_host.specs.Lists.{list_faults, list_plan, list_turn, list_gives, list_keeps};

    type Item = T;

    type Buffer = VecBuffer<T>;

    ghost faults = { λ list. list_faults (boxed_slice_items list) };

    ghost plan = { λ list. list_plan T.item (boxed_slice_items list) };

    ghost leaves = { λ old room finish new. boxed_slice_items new ≡ list_keeps (boxed_slice_items old) };

    fn poll_produce(
        &mut self,
        destination: Destination<'_, T, VecBuffer<T>>,
        _finish: bool,
    ) -> HostTurn
        requires nothing_marked { destination.produced.now.window.marked ≡ [] }
        requires nothing_buffered { drop destination.produced.now.buffer.first
            destination.produced.now.buffer.buffer.items ≡ [] }
        ensures turn { result ≡ list_turn (boxed_slice_items self.old) }
        ensures window { destination.exit.0.now.window ≡ destination.entry.produced.now.window }
        ensures given { drop destination.exit.0.now.buffer.first
            destination.exit.0.now.buffer.buffer.items ≡ list_gives (boxed_slice_items self.old) }
        ensures kept { boxed_slice_items self.new ≡ list_keeps (boxed_slice_items self.old) }
    {
        let Destination { produced, items } = destination;
        let none = Vec::new(produced.alloc).into_boxed_slice();
        let mut destination = Destination { produced, items };
        if self.as_slice().len() > MOST_ITEMS as usize {
            return Turn::Failed;
        }
        destination.set_buffer(VecBuffer::from_vec(mem::replace(self, none).into_vec()));
        Turn::Ready(StreamResult::Dropped)
    }
}
