//! Where the value of a future comes from.
//!
//! Source: wasmtime, `futures_and_streams.rs`, `FutureProducer`. `faults`, `plan` and `leaves` are ours.

ghost use Rattle.std.specs.Prelude.{◌≡◌, ◌≤◌, [], IfSome};
ghost use Rattle.strm_host.specs.Futures.{IfFailed, IfPolled, IsPlanned};
ghost use Rattle.strm_codes.specs.Counters.{Rose};

use crate::destinations::Destination;
use crate::producers::StreamProducer;
use strm_buffers::answers::{HostTurn, StreamResult, Turn};
use strm_memory::payloaded::Payloaded;

/// A source of one value, which is polled until it gives it.
pub trait FutureProducer: Drop {
    ghost use Rattle.std.specs.Prelude.{ℕ, Bool, Option, None, ⊤};
    ghost use Rattle.strm_host.specs.Futures.{FuturePlan};

    /// The type of the value.
    type Item: Payloaded;

    // How often it failed; it stands still at 2^64 - 1.
    ghost faults: { Self → ℕ };

    // What its next poll answers, asked to finish or not, where it tells.
    ghost plan: { Self → Option (FuturePlan Self.Item) } = { λ _. None };

    // What a poll leaves of it, unless memory had run out: the producer before, whether it is asked to
    // finish, and the producer after.
    ghost leaves: { Self → Bool → Self → Type 0 } = { λ _ _ _. ⊤ };

    /// The value, `Pending` while there is none yet, or none where it was asked to finish and gave up.
    ///
    /// It is called once for a read that waits, and once again in each drive while the read waits, until
    /// it gives the value; after that it is not called.
    ///
    /// # What to answer
    ///
    /// - `Ready(Some(value))`: the value. Also where the read is of no items, and with `finish`.
    /// - `Pending`: it is not there yet, and the read waits. With `finish` only where the value may still
    ///   come and cannot be taken back.
    /// - `Ready(None)`: it gave up. Only where `finish` is set, since the guest has asked to cancel its
    ///   read; a later read of the guest polls it again.
    /// - `Failed`: it will never give a value. A future has no other end than its value.
    /// - `NoMemory`: memory had run out.
    ///
    /// # What a breach does
    ///
    /// `Ready(None)` where `finish` is not set traps the store that polled by `HostBroke`, for good.
    /// `Failed` traps it by `HostFailed`, and `NoMemory` by running out of memory.
    fn poll_produce(&mut self, finish: bool) -> Turn<Option<Self::Item>>
        ensures later { faults self.old ≤ faults self.new }
        ensures failed { IfFailed result (Rose (faults self.old) (faults self.new)) }
        ensures planned { IsPlanned (plan self.old) finish result }
        ensures leaves { IfPolled result (leaves self.old finish self.new) };
}

/// A producer of a future as one of a stream: it gives the value as its one item.
#[derive(Drop)]
pub struct Producer<F> {
    future: F,
}

impl<F> Producer<F> {
    /// Takes the producer of a future.
    pub(crate) fn new(future: F) -> Producer<F>
        ensures { result.future ≡ future }
    {
        Producer { future }
    }
}

impl<F: FutureProducer> StreamProducer for Producer<F> {
    ghost use Rattle.strm_buffers.specs.Buffers.{option_items};
    ghost use Rattle.strm_buffers.specs.Said.{IfAnswered};
    ghost use Rattle.strm_host.specs.Faults.{CountsFaults};
    ghost use Rattle.strm_host.specs.Producing.{polled};
    ghost use Rattle.strm_host.specs.Futures.{stream_plan, future_poll, IsValued};

    type Item = F::Item;

    type Buffer = Option<F::Item>;

    ghost faults = { λ producer. F.faults producer.future };

    ghost plan = { λ producer. stream_plan F.Item.item (F.plan producer.future) };

    ghost leaves = { λ old room finish new. F.leaves old.future finish new.future };

    fn poll_produce(
        &mut self,
        destination: Destination<'_, F::Item, Option<F::Item>>,
        finish: bool,
    ) -> HostTurn
        requires nothing_buffered { option_items destination.produced.now.buffer ≡ [] }
        ensures window { destination.exit.0.now.window ≡ destination.entry.produced.now.window }
        ensures valued { IsValued result destination.exit.0.now.buffer }
        ensures faults { CountsFaults result (F.faults self.old.future) (F.faults self.new.future) }
        ensures plan { IfSome (F.plan self.old.future) (λ next. IfAnswered result
            (λ answer. future_poll F.Item.item (next finish)
            ≡ polled F.Item.item [] (option_items destination.exit.0.now.buffer) answer)) }

        // The future was polled once.
        ensures leaves { IfAnswered result (λ _. F.leaves self.old.future finish self.new.future) }
    {
        let Destination { produced, items: _ } = destination;
        match self.future.poll_produce(finish) {
            Turn::Pending => Turn::Pending,
            Turn::Ready(Some(value)) => {
                produced.buffer = Some(value);
                Turn::Ready(StreamResult::Completed)
            }
            Turn::Ready(None) => Turn::Ready(StreamResult::Cancelled),
            Turn::Failed => Turn::Failed,
            Turn::NoMemory => Turn::NoMemory,
        }
    }
}
