//! What a typed sink of a stream's items is.
//!
//! Source: wasmtime, `futures_and_streams.rs`, `StreamConsumer`. `faults`, `took`, `plan` and `leaves`
//! are ours.

ghost use Rattle.std.specs.Prelude.{◌≡◌, IfSome};

use crate::sources::Source;
use strm_buffers::answers::HostTurn;
use strm_memory::payloaded::Payloaded;

/// A sink of items, polled with those that wait.
pub trait StreamConsumer: Drop {
    ghost use Rattle.std.specs.Prelude.{ℕ, Bool, None, ⊤};
    ghost use Rattle.strm_buffers.specs.Said.{IfAnswered, IfNoMemory};
    ghost use Rattle.strm_buffers.specs.Tells.{SameOffer};
    ghost use Rattle.strm_host.specs.Faults.{CountsFaults};
    ghost use Rattle.strm_host.specs.Consuming.{IsFreshOffer, ItemOffer, ConsumerPlan, Took, offering_of, took_more};

    /// One item.
    type Item: Payloaded;

    // How often it failed.
    ghost faults: { Self → ℕ };

    // The items that it took, where it tells them.
    ghost took: { Self → Took } = { λ _. None };

    // Its next poll, where it tells that.
    ghost plan: { Self → ConsumerPlan } = { λ _. None };

    // What a poll that answers leaves of it: the consumer before, what it is offered, whether it is
    // asked to finish, and the consumer after.
    ghost leaves: { Self → ItemOffer → Bool → Self → Type 0 } = { λ _ _ _ _. ⊤ };

    /// Takes items off the source's front. Where it answers `NoMemory`, it took none. Each item that was
    /// read from the source, or marked as read, counts as taken, whatever the answer.
    ///
    /// It is called once for a write that waits, with the items that are left of it, and once again in
    /// each drive while the write waits. It need not take all of them.
    ///
    /// # What to answer
    ///
    /// - `Ready(Completed)`: one or more items were taken, in this poll or since it was last ready, and it
    ///   may take more later. The write is done, with the items that were taken of it.
    /// - `Ready(Dropped)`: it takes no more, now or later, but what it took in this poll counts. It is not
    ///   polled again.
    /// - `Pending`: the write is not done. Items may be taken all the same: they are moved, and the next
    ///   poll is offered those behind them, if any.
    /// - `Ready(Cancelled)`: it is done with this write before its end. Only where `finish` is set; items
    ///   may be taken.
    /// - `Failed`: it cannot go on.
    /// - `NoMemory`: memory had run out. What memory it needs it should take before it reads, since
    ///   an item that was taken cannot be put back.
    ///
    /// # A write of no items
    ///
    /// `Source::remaining` may answer 0. Either the guest waits for the consumer to be ready: then
    /// `Ready(Completed)` says that it is, or that nobody can tell, and `Pending` that it is not yet. Or
    /// earlier polls of this write took all of it and answered `Pending`: then `Ready(Completed)` ends it.
    ///
    /// # Cancellation
    ///
    /// With `finish` the guest has asked to cancel its write, and waits for the answer. Then the consumer
    /// should not answer `Pending`, unless what it took is on a way that cannot be left: it takes what it
    /// can and answers `Ready(Completed)`, or answers `Ready(Cancelled)`.
    ///
    /// # A bad item
    ///
    /// Where the next item is none of its type, as a char that is no Unicode scalar value, `Source::read`
    /// stops before it and answers `BadItem`. The store is trapped by that, and not by what the consumer answers. A consumer
    /// that does not ask for the item does not meet it.
    ///
    /// # What a breach does
    ///
    /// The store that polled is trapped by `HostBroke`, for good, where the answer is
    ///
    /// - `Ready(Cancelled)` where `finish` is not set;
    /// - `Ready(Completed)` where items were offered, none was taken, and none had been since the consumer
    ///   was last ready.
    ///
    /// `Failed` traps it by `HostFailed`, and `NoMemory` by running out of memory.
    fn poll_consume(&mut self, source: Source<'_, Self::Item>, finish: bool) -> HostTurn
        requires fresh { IsFreshOffer Self.Item.payload source.offer.now }
        ensures same { SameOffer source.entry.offer.now source.exit.0.now }
        ensures untaken { IfNoMemory result (source.exit.0.now.taken ≡ 0) }
        ensures faults { CountsFaults result (faults self.old) (faults self.new) }
        ensures took { IfAnswered result (λ _. took self.new ≡ took_more (took self.old)
            source.exit.0.now.taken (offering_of source.entry.offer.now)) }
        ensures kept { IfNoMemory result (took self.new ≡ took self.old) }
        ensures plan { IfSome (plan self.old) (λ next. IfAnswered result (λ answer.
            next (offering_of source.entry.offer.now) finish
            ≡ record { taken = source.exit.0.now.taken; answer = answer })) }
        ensures leaves { IfAnswered result (λ _.
            leaves self.old (offering_of source.entry.offer.now) finish self.new) };
}
