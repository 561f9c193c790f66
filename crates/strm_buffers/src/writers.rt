//! What a host writer is: a source of items that is polled.
//!
//! Source: wasmtime, `futures_and_streams.rs`, `StreamProducer`. `feed`, `records` and what an end
//! tells are ours.

ghost use Rattle.std.specs.Prelude.{◌≡◌, ◌<◌, [], true, length, slice_get, Some, OnOk, OnErr, IfOk};

use crate::answers::HostTurn;
use crate::said::WriterSaid;
use crate::windows::Window;
use strm_codes::codes::TransmitKind;
use strm_codes::counts::OutOfMemory;
use strm_codes::payloads::Payload;

/// A source of items. Its kind and its payload are fixed.
pub trait HostWriter: Drop {
    ghost use Rattle.strm_buffers.specs.Windows.{Between, room_of};
    ghost use Rattle.strm_buffers.specs.Said.{in_room, IfAnswered, IfNoMemory};
    ghost use Rattle.strm_buffers.specs.Tells.{WriterTells, HoldsItems, PollsWriter, KeepsWriter, ClosesWriter, Fills, writer_record, writer_given, writer_fed};

    // What it tells of itself.
    ghost writer_tells: { Self → WriterTells };

    /// Of a stream or of a future.
    fn kind(&self) -> TransmitKind
        ensures { result ≡ (writer_tells self.now).kind };

    /// What one item is.
    fn payload(&self) -> Payload
        ensures { result ≡ (writer_tells self.now).payload };

    /// Marks items, as many as there is room for, and holds the others that it produced. One record
    /// is added; after `NoMemory` none.
    ///
    /// The store polls once in the call of a read that finds nothing held, and once in each drive while
    /// the read waits. `finish` says that the guest has asked to cancel its read. Where the window's room
    /// is 0, the guest waits for an item to be there: one that is made is held. Room none stands between
    /// two host ends, where all items are marked.
    ///
    /// The rules of its answer cannot be clauses, since the store judges them by the record
    /// (`Answer::breaks_as_writer`). It is trapped by `HostBroke`, for good, where the answer is
    ///
    /// - Pending with an item produced;
    /// - Cancelled with an item produced, or where `finish` is not set;
    /// - of a stream, Completed without an item where the room is stated and is two or more;
    /// - of a future, Completed with a number of items other than one;
    /// - of a future, Dropped: it ends by its value alone.
    ///
    /// `Failed` traps it by `HostFailed`, and `NoMemory` by running out of memory. After Dropped it is not
    /// polled again, and what it holds is given first.
    fn poll(&mut self, window: &mut Window, finish: bool) -> HostTurn
        requires payload { window.old.payload ≡ (writer_tells self.old).payload }
        requires nothing_held { (writer_tells self.old).holds ≡ [] }
        requires nothing_marked { window.old.marked ≡ [] }
        requires prepared { window.old.prepared ≡ true }
        ensures polls { IfAnswered result (λ answer. PollsWriter (writer_tells self.old)
            (writer_tells self.new)
            (writer_record window.old finish window.new.marked (writer_tells self.new).holds answer)
            window.new.marked) }
        ensures no_memory { IfNoMemory result
            (KeepsWriter (writer_tells self.old) (writer_tells self.new)) }
        ensures fills { Fills window.old window.new };

    /// How many items it holds: items of its payload.
    fn held(&self) -> usize
        ensures exact { result ≡ length (writer_tells self.now).holds }
        ensures most { result < 4294967295 }
        ensures fit { HoldsItems (writer_tells self.now) };

    /// Marks the first items that it holds, as many as there is room for. `OutOfMemory` comes only
    /// between host ends, and then nothing has changed.
    fn give(&mut self, window: &mut Window) -> Result<(), OutOfMemory>
        requires payload { window.old.payload ≡ (writer_tells self.old).payload }
        requires nothing_marked { window.old.marked ≡ [] }
        ensures marked { OnOk result (window.new.marked ≡
            in_room (room_of window.old.place) (writer_tells self.old).holds) }
        ensures ok { OnOk result (writer_tells self.new
            ≡ writer_given (writer_tells self.old) (room_of window.old.place)) }
        ensures unmarked { OnErr result (window.new.marked ≡ []) }
        ensures err { OnErr result (writer_tells self.new ≡ writer_tells self.old) }
        ensures out_of_memory { OnErr result (window.old.place ≡ Between) }
        ensures fills { Fills window.old window.new };

    /// Passes on bytes from outside. `OutOfMemory` changes nothing.
    fn feed(&mut self, bytes: &[u8]) -> Result<(), OutOfMemory>
        ensures ok { OnOk result
            (writer_tells self.new ≡ writer_fed (writer_tells self.old) bytes.now) }
        ensures err { OnErr result (writer_tells self.new ≡ writer_tells self.old) };

    /// Its stream is gone.
    fn close(&mut self)
        ensures { ClosesWriter (writer_tells self.old) (writer_tells self.new) };

    /// How many records there are.
    fn records(&self) -> usize
        ensures { result ≡ length (writer_tells self.now).said };

    /// A record, from 0; its items are of the writer's payload. After `OutOfMemory` nothing was kept.
    fn record_at(&self, index: usize) -> Result<WriterSaid, OutOfMemory>
        requires { index < length (writer_tells self.now).said }
        ensures exact { IfOk result
            (λ said. slice_get (writer_tells self.now).said index ≡ Some said) }
        ensures payload { IfOk result (λ said. said.payload ≡ (writer_tells self.now).payload) };
}
