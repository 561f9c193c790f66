//! What a typed source of a stream's items is.
//!
//! Source: wasmtime, `futures_and_streams.rs`, `StreamProducer`. `faults`, `plan` and `leaves` are ours.

ghost use Rattle.std.specs.Prelude.{◌≡◌, ◌+◌, ◌<◌, [], length, map, IfSome, IfOk};

use crate::destinations::Destination;
use std::alloc::Global;
use strm_buffers::answers::HostTurn;
use strm_buffers::buffers::WriteBuffer;
use strm_buffers::items::Items;
use strm_codes::counts::OutOfMemory;
use strm_memory::payloaded::Payloaded;

/// A source of items, polled for as many as there is room for, or more.
pub trait StreamProducer: Drop {
    ghost use Rattle.std.specs.Prelude.{ℕ, Bool, Option, None, ⊤};
    ghost use Rattle.strm_buffers.specs.Said.{IfAnswered};
    ghost use Rattle.strm_buffers.specs.Windows.{room_of};
    ghost use Rattle.strm_buffers.specs.Tells.{Fills};
    ghost use Rattle.strm_host.specs.Faults.{CountsFaults};
    ghost use Rattle.strm_host.specs.Producing.{IsFreshWindow, Plan, polled};

    /// One item.
    type Item: Payloaded;

    /// What items that are not put straight into the window are left in.
    type Buffer: WriteBuffer<Self::Item> + Drop;

    // How often it failed.
    ghost faults: { Self → ℕ };

    // Its next poll, where it tells that.
    ghost plan: { Self → Plan } = { λ _. None };

    // What a poll that answers leaves of it: the producer before, how many items there is room for,
    // whether it is asked to finish, and the producer after.
    ghost leaves: { Self → Option ℕ → Bool → Self → Type 0 } = { λ _ _ _ _. ⊤ };

    /// Produces items: those marked in the window, and behind them those of the buffer, both of which
    /// are empty before. Each item in one or the other counts as produced, whatever the answer.
    ///
    /// It is called once for a read that waits and finds no item held of earlier polls, and once again
    /// in each drive while the read waits. It may produce more items than there is room for: those are
    /// held, given to later reads, and it is not called until all of them are gone.
    ///
    /// # What to answer
    ///
    /// - `Ready(Completed)`: one or more items were produced, and there may be more.
    /// - `Ready(Dropped)`: there is no more, now or later, but for the items produced in this poll. It is
    ///   not polled again.
    /// - `Pending`: no item for now. Nothing was produced, and the read waits.
    /// - `Ready(Cancelled)`: nothing was produced, and nothing will be for this read. Only where `finish`
    ///   is set.
    /// - `Failed`: it cannot go on.
    /// - `NoMemory`: memory had run out.
    ///
    /// # A read of no items
    ///
    /// `Destination::remaining` may answer `Some(0)`: the guest waits for an item to be there, and does
    /// not take it yet. Then `Ready(Completed)` without an item says that one is there, or that nobody
    /// can tell; `Pending`, that there is none yet. An item that was made already may be put into the
    /// buffer, and is held for the read that follows.
    ///
    /// # Cancellation
    ///
    /// With `finish` the guest has asked to cancel its read, and waits for the answer. Then the producer
    /// should not answer `Pending`, unless an item that cannot be taken back is on its way: it produces
    /// what it has and answers `Ready(Completed)`, or produces nothing and answers `Ready(Cancelled)`.
    ///
    /// # What a breach does
    ///
    /// The store that polled is trapped by `HostBroke`, for good, where the answer is
    ///
    /// - `Pending` with an item produced;
    /// - `Ready(Cancelled)` with an item produced, or where `finish` is not set;
    /// - `Ready(Completed)` without an item where there is room for two or more. (With room for one it is
    ///   allowed, as with room for none.)
    ///
    /// `Failed` traps it by `HostFailed`, and `NoMemory` by running out of memory; what was produced is lost.
    fn poll_produce(
        &mut self,
        destination: Destination<'_, Self::Item, Self::Buffer>,
        finish: bool,
    ) -> HostTurn
        requires fresh { IsFreshWindow Self.Item.payload destination.produced.now.window }
        requires nothing_buffered { Self.Buffer.items destination.produced.now.buffer ≡ [] }
        ensures fills { Fills destination.entry.produced.now.window destination.exit.0.now.window }
        ensures few { length destination.exit.0.now.window.marked
            + length (Self.Buffer.items destination.exit.0.now.buffer) < 4294967295 }
        ensures faults { CountsFaults result (faults self.old) (faults self.new) }
        ensures plan { IfSome (plan self.old) (λ next. IfAnswered result (λ answer.
            next (room_of destination.entry.produced.now.window.place) finish
            ≡ polled Self.Item.item destination.exit.0.now.window.marked
            (Self.Buffer.items destination.exit.0.now.buffer) answer)) }
        ensures leaves { IfAnswered result (λ _. leaves self.old
            (room_of destination.entry.produced.now.window.place) finish self.new) };

    /// What a poll left in its buffer, as items. After `OutOfMemory` it is lost. A producer whose buffer
    /// has bytes of a block gives them without a copy; others leave it as it is here.
    fn items_of(alloc: Global, mut buffer: Self::Buffer) -> Result<Items, OutOfMemory>
        requires { length (Self.Buffer.items buffer) < 4294967295 }
        ensures payload { IfOk result (λ items. items.payload ≡ Self.Item.payload) }
        ensures items { IfOk result
            (λ items. items.items ≡ map Self.Item.item (Self.Buffer.items buffer)) }
    {
        let values = buffer.take_all(alloc)?;
        Items::of_values::<Self::Item>(alloc, values)
    }
}
