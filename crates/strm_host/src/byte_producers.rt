//! The buffers of `bytes` as producers of streams of bytes: the first poll gives them all, without a
//! copy: what is recorded and what is held are parts of the block that was given.
//!
//! Source: wasmtime, `futures_and_streams.rs`, `StreamProducer` for `Bytes` and `BytesMut`. That one
//! may be too long for one poll is ours.

ghost use Rattle.std.specs.Prelude.{◌≡◌, ◌<◌, [], length, IfOk};
ghost use Rattle.strm_codes.specs.declared.payloads.Payload.TheVariants.{One};
ghost use Rattle.strm_codes.specs.declared.scalars.Scalar.TheVariants.{U8};
ghost use Rattle.strm_memory.specs.Items.{byte_items};

use crate::destinations::Destination;
use crate::producers::StreamProducer;
use bytes::{Bytes, BytesMut};
use std::alloc::Global;
use std::mem;
use strm_buffers::answers::{HostTurn, StreamResult, Turn};
use strm_buffers::items::{Items, MOST_ITEMS};
use strm_codes::counts::OutOfMemory;
use strm_memory::payloaded::Payloaded;

impl StreamProducer for Bytes {
    ghost use Rattle.strm_host.specs.Lists.{list_faults, list_plan, list_turn, list_gives, list_keeps};

    type Item = u8;

    type Buffer = Bytes;

    ghost faults = { λ bytes. list_faults bytes };

    ghost plan = { λ bytes. list_plan ⟦<u8 as Payloaded>⟧.item bytes };

    ghost leaves = { λ old room finish new. new ≡ list_keeps old };

    fn poll_produce(&mut self, destination: Destination<'_, u8, Bytes>, _finish: bool) -> HostTurn
        requires nothing_marked { destination.produced.now.window.marked ≡ [] }
        requires nothing_buffered { destination.produced.now.buffer ≡ [] }
        ensures turn { result ≡ list_turn self.old }
        ensures window { destination.exit.0.now.window ≡ destination.entry.produced.now.window }
        ensures given { destination.exit.0.now.buffer ≡ list_gives self.old }
        ensures kept { self.new ≡ list_keeps self.old }
    {
        let Destination { produced, items } = destination;
        let mut destination = Destination { produced, items };
        if self.len() > MOST_ITEMS as usize {
            return Turn::Failed;
        }
        destination.set_buffer(mem::replace(self, Bytes::new()));
        Turn::Ready(StreamResult::Dropped)
    }

    fn items_of(alloc: Global, buffer: Bytes) -> Result<Items, OutOfMemory>
        requires { length buffer < 4294967295 }
        ensures payload { IfOk result (λ items. items.payload ≡ One U8) }
        ensures items { IfOk result (λ items. items.items ≡ byte_items buffer) }
    {
        Ok(Items::of_shared(alloc, buffer))
    }
}

impl StreamProducer for BytesMut {
    ghost use Rattle.strm_host.specs.Lists.{list_faults, list_plan, list_turn, list_gives, list_keeps};

    type Item = u8;

    type Buffer = BytesMut;

    ghost faults = { λ bytes. list_faults bytes.items };

    ghost plan = { λ bytes. list_plan ⟦<u8 as Payloaded>⟧.item bytes.items };

    ghost leaves = { λ old room finish new. new.items ≡ list_keeps old.items };

    fn poll_produce(
        &mut self,
        destination: Destination<'_, u8, BytesMut>,
        _finish: bool,
    ) -> HostTurn
        requires nothing_marked { destination.produced.now.window.marked ≡ [] }
        requires nothing_buffered { destination.produced.now.buffer.items ≡ [] }
        ensures turn { result ≡ list_turn self.old.items }
        ensures window { destination.exit.0.now.window ≡ destination.entry.produced.now.window }
        ensures given { destination.exit.0.now.buffer.items ≡ list_gives self.old.items }
        ensures kept { self.new.items ≡ list_keeps self.old.items }
    {
        let Destination { produced, items } = destination;
        let none = BytesMut::new(produced.alloc);
        let mut destination = Destination { produced, items };
        if self.len() > MOST_ITEMS as usize {
            return Turn::Failed;
        }
        destination.set_buffer(mem::replace(self, none));
        Turn::Ready(StreamResult::Dropped)
    }

    fn items_of(alloc: Global, buffer: BytesMut) -> Result<Items, OutOfMemory>
        requires { length buffer.items < 4294967295 }
        ensures payload { IfOk result (λ items. items.payload ≡ One U8) }
        ensures items { IfOk result (λ items. items.items ≡ byte_items buffer.items) }
    {
        let bytes = buffer.freeze()?;
        Ok(Items::of_shared(alloc, bytes))
    }
}
