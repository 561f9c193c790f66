//! What a host reader is: a sink of items that is polled.
//!
//! Source: wasmtime, `futures_and_streams.rs`, `StreamConsumer`. `grant`, `records` and what an end
//! tells are ours.

ghost use Rattle.std.specs.Prelude.{◌≡◌, ◌<◌, true, false, length, slice_get, Some, OnOk, OnErr};
ghost use Rattle.strm_codes.specs.Layout.{item_type};

use crate::answers::{HostTurn, ReaderSaid};
use crate::offers::Offer;
use strm_codes::codes::TransmitKind;
use strm_codes::counts::OutOfMemory;
use strm_codes::payloads::Payload;

/// A sink of items. Its kind and its payload are fixed.
pub trait HostReader: Drop {
    ghost use Rattle.strm_buffers.specs.Offers.{IsBadNext};
    ghost use Rattle.strm_buffers.specs.Said.{IfAnswered, IfNoMemory};
    ghost use Rattle.strm_buffers.specs.Tells.{ReaderTells, PollsReader, KeepsReader, SameOffer, reader_record, first_lent, reader_tells_closed, reader_granted};

    // What it tells of itself.
    ghost reader_tells: { Self → ReaderTells };

    /// Of a stream or of a future.
    fn kind(&self) -> TransmitKind
        ensures { result ≡ (reader_tells self.now).kind };

    /// What one item is.
    fn payload(&self) -> Payload
        ensures { result ≡ (reader_tells self.now).payload };

    /// Takes items off the offer's front. One record is added; after `NoMemory` none, and nothing was
    /// taken. Where a bad item was asked for, it is the next one, and the store is trapped by BadItem.
    ///
    /// The store polls once in the call of a write, with the items that are left of it, and once in each
    /// drive while the write waits. `finish` says that the guest has asked to cancel its write. Where
    /// nothing is offered, the guest waits for the reader to be ready, or earlier polls took all and
    /// answered Pending. Items that it takes count whatever it answers, `NoMemory` excepted.
    ///
    /// The rules of its answer cannot be clauses, since the store judges them by the record
    /// (`ReaderSaid::breaks_rules`). It is trapped by `HostBroke`, for good, where the answer is
    ///
    /// - Cancelled where `finish` is not set;
    /// - of a stream, Completed where items were offered, none was taken, and none had been since it was
    ///   last ready;
    /// - of a future, Completed where the value was not taken, now or since it was last ready;
    /// - of a future, Cancelled where the value was taken, now or since it was last ready;
    /// - of a future, Dropped: it ends by its value alone.
    ///
    /// `Failed` traps it by `HostFailed`, and `NoMemory` by running out of memory. Where several of these
    /// fall in one poll, the first of `HostFailed`, running out of memory, BadItem and `HostBroke` is told.
    fn poll(&mut self, offer: &mut Offer, finish: bool) -> HostTurn
        requires payload { offer.old.payload ≡ (reader_tells self.old).payload }
        requires nothing_taken { offer.old.taken ≡ 0 }
        requires not_bad { offer.old.bad ≡ false }
        ensures polls { IfAnswered result (λ answer. PollsReader (reader_tells self.old)
            (reader_tells self.new) (reader_record offer.old offer.new finish answer)
            (first_lent (item_type offer.old.payload) offer.old.source offer.new.taken)) }
        ensures no_memory { IfNoMemory result
            (KeepsReader (reader_tells self.old) (reader_tells self.new)) }
        ensures untaken { IfNoMemory result (offer.new.taken ≡ 0) }
        ensures next { offer.new.bad ≡ true →
            IsBadNext (item_type offer.old.payload) offer.old.source offer.new.taken }
        ensures same { SameOffer offer.old offer.new };

    /// Lets it take so many items more. `OutOfMemory` changes nothing.
    fn grant(&mut self, count: u32) -> Result<(), OutOfMemory>
        ensures ok { OnOk result
            (reader_tells self.new ≡ reader_granted (reader_tells self.old) count) }
        ensures err { OnErr result (reader_tells self.new ≡ reader_tells self.old) };

    /// Its stream is gone.
    fn close(&mut self)
        ensures { reader_tells self.new ≡ reader_tells_closed (reader_tells self.old) };

    /// How many records there are.
    fn records(&self) -> usize
        ensures { result ≡ length (reader_tells self.now).said };

    /// A record, from 0.
    fn record_at(&self, index: usize) -> ReaderSaid
        requires { index < length (reader_tells self.now).said }
        ensures { slice_get (reader_tells self.now).said index ≡ Some result };
}
