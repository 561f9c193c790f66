//! A producer that writes bytes straight to where they are read, and leaves more in a buffer.

ghost use Rattle.std.specs.Prelude.{◌≡◌, ◌<◌, [], length, drop};
ghost use Rattle.strm_codes.specs.declared.payloads.Payload.TheVariants.{One};
ghost use Rattle.strm_codes.specs.declared.scalars.Scalar.TheVariants.{U8};
ghost use Rattle.strm_host.specs.Producing.{IsFreshWindow};
ghost use Rattle.strm_host_tests.specs.Greetings.{Greets, NeverFails};

use std::alloc::Global;
use strm_buffers::answers::{HostTurn, StreamResult, Turn};
use strm_buffers::vec_buffer::VecBuffer;
use strm_host::destinations::Destination;
use strm_host::producers::StreamProducer;

/// At each poll it writes two bytes, and leaves three more in its buffer.
#[derive(Drop)]
pub struct Greeting {
    pub alloc: Global,
}

impl StreamProducer for Greeting {
    type Item = u8;

    type Buffer = VecBuffer<u8>;

    ghost faults = { λ g. 0 };

    fn poll_produce(
        &mut self,
        destination: Destination<'_, u8, VecBuffer<u8>>,
        _finish: bool,
    ) -> HostTurn
        requires fresh { IsFreshWindow (One U8) destination.produced.now.window }
        requires nothing_buffered { drop destination.produced.now.buffer.first
            destination.produced.now.buffer.buffer.items ≡ [] }
        ensures greets { Greets destination.entry.produced.now.window
            destination.exit.0.now.window }
        ensures few { length
            (drop destination.exit.0.now.buffer.first destination.exit.0.now.buffer.buffer.items)
            < 4 }
        ensures turn { NeverFails result }
    {
        let Destination { produced, items } = destination;
        let inner = Destination {
            produced: &mut *produced,
            items,
        };
        match inner.as_direct(2) {
            Ok(mut direct) => {
                let _ = direct.write([7u8, 8].as_slice());
            }
            Err(_) => return Turn::NoMemory,
        }
        let more = match [9u8, 10, 11].to_vec(self.alloc) {
            Ok(more) => more,
            Err(_) => return Turn::NoMemory,
        };
        let mut destination = Destination { produced, items };
        destination.set_buffer(VecBuffer::from_vec(more));
        Turn::Ready(StreamResult::Completed)
    }
}
