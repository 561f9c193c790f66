//! Where the value of a future goes.
//!
//! Source: wasmtime, `futures_and_streams.rs`, `FutureConsumer`. `faults`, `took`, `plan` and `leaves`
//! are ours.

ghost use Rattle.std.specs.Prelude.{◌≡◌, ◌==◌, ◌≤◌, IfSome};
ghost use Rattle.strm_codes.specs.Counters.{Rose};
ghost use Rattle.strm_buffers.specs.Tells.{SameOffer};
ghost use Rattle.strm_host.specs.Futures.{IfFailed, IfPolled};
ghost use Rattle.strm_host.specs.Consuming.{IsFreshOffer, offering_of, took_more};
ghost use Rattle.strm_host.specs.FutureConsuming.{KeepsTaking, IfTurnOutOfMemory, stream_turn};

use crate::consumers::StreamConsumer;
use crate::sources::Source;
use strm_buffers::answers::{HostTurn, StreamResult, Turn};
use strm_memory::payloaded::Payloaded;

/// A sink of one value, which is polled until it is done.
pub trait FutureConsumer: Drop {
    ghost use Rattle.std.specs.Prelude.{ℕ, Bool, None, ⊤};
    ghost use Rattle.strm_host.specs.Consuming.{ItemOffer, Took};
    ghost use Rattle.strm_host.specs.FutureConsuming.{FutureConsumerPlan};

    /// The type of the value.
    type Item: Payloaded;

    // How often it failed; it stands still at 2^64 - 1.
    ghost faults: { Self → ℕ };

    // The value that it took, where it tells it.
    ghost took: { Self → Took } = { λ _. None };

    // Its next poll, where it tells that.
    ghost plan: { Self → FutureConsumerPlan } = { λ _. None };

    // What a poll leaves of it, unless memory had run out: the consumer before, what it is offered,
    // whether it is asked to finish, and the consumer after.
    ghost leaves: { Self → ItemOffer → Bool → Self → Type 0 } = { λ _ _ _ _. ⊤ };

    /// Takes the value, or answers `Pending`. It is done with the value taken, or without it where it
    /// was asked to finish. Where it answers `NoMemory`, it took none.
    ///
    /// It is called once for a write that waits, and once again in each drive while the write waits.
    ///
    /// # What to answer
    ///
    /// - `Ready(())`: the value was taken, in this poll or in an earlier one that answered `Pending`. Or it
    ///   was not and will not be, where `finish` is set.
    /// - `Pending`: it is not done. It may have taken the value: the next poll is then offered none.
    /// - `Failed`: it cannot go on.
    /// - `NoMemory`: memory had run out. What memory it needs it should take before it reads.
    ///
    /// With `finish` the guest has asked to cancel its write, and waits for the answer. Then it should not
    /// answer `Pending`, unless the value was taken. A value that is a bad item is as for
    /// `StreamConsumer::poll_consume`.
    ///
    /// # What a breach does
    ///
    /// `Ready(())` without the value, where `finish` is not set, traps the store that polled by
    /// `HostBroke`, for good. `Failed` traps it by `HostFailed`, and `NoMemory` by running out of memory.
    fn poll_consume(&mut self, source: Source<'_, Self::Item>, finish: bool) -> Turn<()>
        requires fresh { IsFreshOffer Self.Item.payload source.offer.now }
        ensures same { SameOffer source.entry.offer.now source.exit.0.now }
        ensures untaken { IfTurnOutOfMemory result (source.exit.0.now.taken ≡ 0) }
        ensures later { faults self.old ≤ faults self.new }
        ensures failed { IfFailed result (Rose (faults self.old) (faults self.new)) }
        ensures took { IfPolled result (took self.new ≡ took_more (took self.old)
            source.exit.0.now.taken (offering_of source.entry.offer.now)) }
        ensures kept { IfTurnOutOfMemory result (took self.new ≡ took self.old) }
        ensures planned { KeepsTaking (plan self.old) (offering_of source.entry.offer.now) finish
            source.exit.0.now.taken result }
        ensures leaves { IfPolled result
            (leaves self.old (offering_of source.entry.offer.now) finish self.new) };
}

/// A consumer of a future as one of a stream: it is done with its first answer.
#[derive(Drop)]
pub struct Consumer<F> {
    future: F,
}

impl<F> Consumer<F> {
    /// Takes the consumer of a future.
    pub(crate) fn new(future: F) -> Consumer<F>
        ensures { result.future ≡ future }
    {
        Consumer { future }
    }
}

impl<F: FutureConsumer> StreamConsumer for Consumer<F> {
    ghost use Rattle.std.specs.Prelude.{◌-◌};
    ghost use Rattle.strm_buffers.specs.Offers.{items_lent};
    ghost use Rattle.strm_buffers.specs.Said.{IfAnswered, IfNoMemory};
    ghost use Rattle.strm_host.specs.Faults.{CountsFaults};
    ghost use Rattle.strm_host.specs.Consuming.{ConsumerPlan};
    ghost use Rattle.strm_host.specs.FutureConsuming.{consumer_plan, IsSettled};

    type Item = F::Item;

    ghost faults = { λ consumer. F.faults consumer.future };

    ghost took = { λ consumer. F.took consumer.future };

    ghost plan = { λ consumer. consumer_plan (F.plan consumer.future) };

    ghost leaves = { λ old offering finish new. F.leaves old.future offering finish new.future };

    fn poll_consume(&mut self, source: Source<'_, F::Item>, finish: bool) -> HostTurn
        requires fresh { IsFreshOffer F.Item.payload source.offer.now }
        ensures same { SameOffer source.entry.offer.now source.exit.0.now }
        ensures untaken { IfNoMemory result (source.exit.0.now.taken ≡ 0) }
        ensures faults { CountsFaults result (F.faults self.old.future) (F.faults self.new.future) }
        ensures took { IfAnswered result (λ _. F.took self.new.future ≡ took_more
            (F.took self.old.future) source.exit.0.now.taken (offering_of source.entry.offer.now)) }
        ensures kept { IfNoMemory result (F.took self.new.future ≡ F.took self.old.future) }
        ensures plan { IfSome (consumer_plan (F.plan self.old.future)) (λ next. IfAnswered result
            (λ answer. next (offering_of source.entry.offer.now) finish
            ≡ record { taken = source.exit.0.now.taken; answer = answer })) }

        // Where it is done, it answers Completed exactly where nothing is left.
        ensures settled { IsSettled result
            (items_lent source.entry.offer.now.source - source.exit.0.now.taken) }

        // The future was polled once.
        ensures leaves { IfAnswered result (λ _.
            F.leaves self.old.future (offering_of source.entry.offer.now) finish self.new.future) }
    {
        let Source { offer, items } = source;
        let inner = Source {
            offer: &mut *offer,
            items,
        };
        let turn = self.future.poll_consume(inner, finish);
        offer.sound();
        let left = offer.remaining();
        turn_of_future(turn, left)
    }
}

// The turn of a stream whose consumer answered so, with so many items left.
fn turn_of_future(turn: Turn<()>, left: u32) -> HostTurn
    ensures { result ≡ stream_turn turn (left == 0) }
{
    match turn {
        Turn::Pending => Turn::Pending,
        Turn::Ready(()) => {
            if left == 0 {
                Turn::Ready(StreamResult::Completed)
            } else {
                Turn::Ready(StreamResult::Cancelled)
            }
        }
        Turn::Failed => Turn::Failed,
        Turn::NoMemory => Turn::NoMemory,
    }
}
