//! A host writer that is fed before it is asked.
//!
//! Meaning: `SendQueues.antt`. Source: ours; what it holds is given without a poll, as wasmtime gives what a
//! producer left in its buffer.

ghost use Rattle.std.specs.Prelude.{◌≡◌, ℕ, ◌<◌, ◌≤◌, List, [], length, take, drop, IsOk, IfOk, OnOk, OnErr};
ghost use Rattle.strm_buffers.specs.Listing.{Item};
ghost use Rattle.strm_buffers.specs.Said.{in_room, past_room};
ghost use Rattle.strm_buffers.specs.Windows.{room_of, HasRoom};
ghost use Rattle.strm_ready_ends.specs.SendQueues.{unfed, is_shut, is_wrong_count, Feeds, with_end, empty_answer, polled, forgotten};

use crate::errors::FeedError;
use crate::item_queues::ItemQueue;
use crate::polls::EmptyPoll;
use crate::records::Records;
use crate::wholes::are_whole;
use std::alloc::Global;
use std::marker::Model;
use strm_buffers::answers::{Answer, HostTurn, Turn};
use strm_buffers::items::{Items, MOST_ITEMS};
use strm_buffers::said::WriterSaid;
use strm_buffers::windows::Window;
use strm_buffers::writers::HostWriter;
use strm_codes::codes::TransmitKind;
use strm_codes::counts::OutOfMemory;
use strm_codes::payloads::Payload;

/// A writer that holds the items that it is fed, and gives them in order. It is polled only where it holds none, and
/// produces none in a poll; it fails in none, and keeps the rules of host writers.
///
/// What is passed on to it by `feed` it does not hear: `feed_items` is how it gets items.
#[derive(Drop)]
pub struct ReadyWriter {
    kind: TransmitKind,
    held: ItemQueue,
    is_ended: bool,
    is_closed: bool,
    polls: Records<EmptyPoll>,
    alloc: Global,
}

impl Model for ReadyWriter {
    ghost use Rattle.strm_ready_ends.specs.SendQueues.{SendQueue, said_kept};

    ghost Value = { SendQueue };

    ghost view = { λ w. record { kind = w.kind; payload = w.held.payload; items = w.held.items; ended = w.is_ended; closed = w.is_closed; said = said_kept w.held.payload w.polls.items } };
}

// Whether so many items may not be fed behind so many that are held.
fn is_wrong_count(kind: TransmitKind, held: usize, count: u32) -> bool
    requires { held < 4294967295 }
    ensures { result ≡ is_wrong_count kind held count }
{
    match kind {
        TransmitKind::Stream => held + count as usize > MOST_ITEMS as usize,
        TransmitKind::Future => held != 0 || count != 1,
    }
}

// What it answers where it holds nothing.
fn empty_answer(kind: TransmitKind, is_ended: bool, finish: bool) -> Answer
    ensures { result ≡ empty_answer kind is_ended finish }
{
    if kind == TransmitKind::Stream && is_ended {
        Answer::Dropped
    } else if finish {
        Answer::Cancelled
    } else {
        Answer::Pending
    }
}

// Of so many items, how many a window has room for, where none is marked.
fn count_in_room(window: &Window, held: usize) -> usize
    requires { held < 4294967295 }
    ensures within { result ≤ held }
    ensures room { HasRoom window.now.place 0 result }
    ensures first { (items : List Item) → length items ≡ held →
        take result items ≡ in_room (room_of window.now.place) items }
    ensures behind { (items : List Item) → length items ≡ held →
        drop result items ≡ past_room (room_of window.now.place) items }
{
    match window.room() {
        Some(room) => held.min(room as usize),
        None => held,
    }
}

impl ReadyWriter {
    /// A writer of streams or of futures that was fed nothing. Takes no memory.
    pub fn new(alloc: Global, kind: TransmitKind, payload: Payload) -> ReadyWriter
        ensures { result ≡ unfed kind payload }
    {
        ReadyWriter {
            kind,
            held: ItemQueue::new(alloc, payload),
            is_ended: false,
            is_closed: false,
            polls: Records::new(alloc),
            alloc,
        }
    }

    /// Feeds it so many items, in the layout of the Canonical ABI, one behind the other: they lie behind those that
    /// it holds.
    pub fn feed_items(&mut self, bytes: &[u8], count: u32) -> Result<(), FeedError>
        ensures { Feeds self.old self.new bytes.now count result }
    {
        if self.is_ended || self.is_closed {
            return Err(FeedError::Ended);
        }
        if is_wrong_count(self.kind, self.held.len(), count) {
            return Err(FeedError::WrongCount);
        }
        if !are_whole(bytes, &self.held.payload(), count) {
            return Err(FeedError::BadItems);
        }
        match self.held.push(bytes, count) {
            Ok(()) => {}
            Err(_) => return Err(FeedError::OutOfMemory),
        }
        self.is_ended = self.kind == TransmitKind::Future;
        Ok(())
    }

    /// No more will come: a read is told so once it has all. A future ends by its item alone: where it was fed none,
    /// nothing changes. Answers whether it is ended.
    pub fn end(&mut self) -> bool
        ensures ends { self.new ≡ with_end self.old }
        ensures answer { result ≡ self.new.ended }
    {
        self.is_ended = self.is_ended || self.kind == TransmitKind::Stream;
        self.is_ended
    }

    /// Whether no more may be fed.
    pub fn is_shut(&self) -> bool
        ensures { result ≡ is_shut self.now }
    {
        self.is_ended || self.is_closed
    }

    /// One poll without a window, since it produces nothing: what it answers to one with this room, where it holds
    /// nothing. It takes no memory where its record before was forgotten; after `OutOfMemory` nothing has changed.
    pub fn poll_empty(&mut self, room: Option<u32>, finish: bool) -> Result<Answer, OutOfMemory>
        ensures answer { IfOk result
            (λ answer. answer ≡ empty_answer self.old.kind self.old.ended finish) }
        ensures polled { OnOk result (self.new ≡ polled self.old room finish) }
        ensures err { OnErr result (self.new ≡ self.old) }
        ensures takes_no_memory { self.old.said ≡ [] → IsOk result }
    {
        self.polls.reserve()?;
        let answer = empty_answer(self.kind, self.is_ended, finish);
        self.polls.push_reserved(EmptyPoll {
            room,
            finish,
            answer,
        });
        Ok(answer)
    }

    /// Its records are forgotten. No memory is given back.
    pub fn forget(&mut self)
        ensures { self.new ≡ forgotten self.old }
    {
        self.polls.clear();
    }
}

impl HostWriter for ReadyWriter {
    ghost use Rattle.std.specs.Prelude.{◌≢◌, true};
    ghost use Rattle.strm_buffers.specs.Windows.{Between};
    ghost use Rattle.strm_buffers.specs.Said.{IfAnswered, IfNoMemory};
    ghost use Rattle.strm_buffers.specs.Tells.{PollsWriter, KeepsWriter, ClosesWriter, Fills, writer_record, writer_given, writer_fed};
    ghost use Rattle.strm_ready_ends.specs.SendQueues.{ready_tells, given, shut};

    ghost writer_tells = { ready_tells };

    fn kind(&self) -> TransmitKind {
        self.kind
    }

    fn payload(&self) -> Payload {
        self.held.payload()
    }

    fn poll(&mut self, window: &mut Window, finish: bool) -> HostTurn
        requires payload { window.old.payload ≡ (ready_tells self.old).payload }
        requires nothing_held { (ready_tells self.old).holds ≡ [] }
        requires nothing_marked { window.old.marked ≡ [] }
        requires prepared { window.old.prepared ≡ true }
        ensures polls { IfAnswered result (λ answer.
            PollsWriter (ready_tells self.old) (ready_tells self.new)
            (writer_record window.old finish window.new.marked
            (ready_tells self.new).holds answer) window.new.marked) }
        ensures no_memory { IfNoMemory result
            (KeepsWriter (ready_tells self.old) (ready_tells self.new)) }
        ensures fills { Fills window.old window.new }

        // It marks nothing, and answers by whether it was ended and whether it was asked to finish. It takes no memory
        // where its record before was forgotten.
        ensures answers { IfAnswered result (λ _.
            self.new ≡ polled self.old (room_of window.old.place) finish) }
        ensures unmarked { window.new ≡ window.old }
        ensures same { IfNoMemory result (self.new ≡ self.old) }
        ensures answered { IfNoMemory result (self.old.said ≢ []) }
    {
        match self.poll_empty(window.room(), finish) {
            Ok(answer) => answer.turn(),
            Err(_) => Turn::NoMemory,
        }
    }

    fn held(&self) -> usize {
        self.held.len()
    }

    fn give(&mut self, window: &mut Window) -> Result<(), OutOfMemory>
        requires payload { window.old.payload ≡ (ready_tells self.old).payload }
        requires nothing_marked { window.old.marked ≡ [] }
        ensures marked { OnOk result (window.new.marked ≡
            in_room (room_of window.old.place) (ready_tells self.old).holds) }
        ensures ok { OnOk result (ready_tells self.new ≡
            writer_given (ready_tells self.old) (room_of window.old.place)) }
        ensures unmarked { OnErr result (window.new.marked ≡ []) }
        ensures err { OnErr result (ready_tells self.new ≡ ready_tells self.old) }
        ensures out_of_memory { OnErr result (window.old.place ≡ Between) }
        ensures fills { Fills window.old window.new }

        // And nothing else changes.
        ensures gives { OnOk result (self.new ≡ given self.old (room_of window.old.place)) }
        ensures same { OnErr result (self.new ≡ self.old) }
    {
        let count = count_in_room(window, self.held.len());
        self.held.mark_first(window, count)?;
        self.held.skip(count);
        Ok(())
    }

    fn feed(&mut self, _bytes: &[u8]) -> Result<(), OutOfMemory>
        ensures ok { OnOk result
            (ready_tells self.new ≡ writer_fed (ready_tells self.old) _bytes.now) }
        ensures err { OnErr result (ready_tells self.new ≡ ready_tells self.old) }

        // It does not hear it.
        ensures same { self.new ≡ self.old }
    {
        Ok(())
    }

    fn close(&mut self)
        ensures closes { ClosesWriter (ready_tells self.old) (ready_tells self.new) }

        // What it held is given up, and its memory given back.
        ensures shuts { self.new ≡ shut self.old }
    {
        self.is_closed = true;
        self.held = ItemQueue::new(self.alloc, self.held.payload());
    }

    fn records(&self) -> usize {
        self.polls.len()
    }

    fn record_at(&self, index: usize) -> Result<WriterSaid, OutOfMemory> {
        let poll = self.polls.get(index);
        Ok(WriterSaid {
            room: poll.room,
            finish: poll.finish,
            items: Items::new(self.alloc, self.held.payload()),
            answer: poll.answer,
        })
    }
}
