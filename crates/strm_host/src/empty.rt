//! A producer of no items.
//!
//! Source: wasmtime, `futures_and_streams.rs`, `StreamProducer` for `iter::Empty` and `stream::Empty`.

ghost use Rattle.std.specs.Prelude.{◌≡◌};
ghost use Rattle.strm_codes.specs.declared.codes.StreamResult.TheVariants.{Dropped};
ghost use Rattle.strm_buffers.specs.declared.answers.Turn.TheVariants.{Ready};

use crate::destinations::Destination;
use crate::producers::StreamProducer;
use std::marker::PhantomData;
use strm_buffers::answers::{HostTurn, StreamResult, Turn};
use strm_memory::payloaded::Payloaded;

/// A stream that is over before its first item.
#[derive(Clone, Copy)]
pub struct Empty<T> {
    items: PhantomData<T>,
}

impl<T> Empty<T> {
    /// No items. There is one such producer of a type.
    pub fn new() -> Empty<T>
        ensures { (other : Empty T) → other ≡ result }
    {
        Empty { items: PhantomData }
    }
}

impl<T: Payloaded> StreamProducer for Empty<T> {
    ghost use Rattle.std.specs.Prelude.{[], Some};
    ghost use Rattle.strm_buffers.specs.declared.answers.Answer.TheVariants as answer;

    type Item = T;

    type Buffer = Option<T>;

    ghost faults = { λ _. 0 };

    ghost plan = { λ _. Some (λ room finish. record { items = []; answer = answer.Dropped }) };

    ghost leaves = { λ old room finish new. new ≡ old };

    fn poll_produce(
        &mut self,
        destination: Destination<'_, T, Option<T>>,
        _finish: bool,
    ) -> HostTurn
        ensures turn { result ≡ Ready Dropped }
        ensures nothing { destination.exit.0.now ≡ destination.entry.produced.now }
        ensures same { self.new ≡ self.old }
    {
        let Destination {
            produced: _,
            items: _,
        } = destination;
        Turn::Ready(StreamResult::Dropped)
    }
}
