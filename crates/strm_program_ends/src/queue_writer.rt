//! A host writer that gives what it is fed.
//!
//! Meaning: `Queues.antt`. Source: ours.

ghost use Rattle.std.specs.Prelude.{◌≡◌, ◌<◌, ◌≤◌, All, length};
ghost use Rattle.strm_program_ends.specs.Queues.{most_given};
ghost use Rattle.strm_program_ends.specs.Polls.{IsPoll};

use crate::feeds::Feeds;
use crate::polls::Poll;
use std::alloc::Global;
use strm_buffers::answers::{Answer, HostTurn, Turn};
use strm_buffers::items::MOST_ITEMS;
use strm_buffers::said::WriterSaid;
use strm_buffers::windows::Window;
use strm_buffers::writers::HostWriter;
use strm_codes::codes::TransmitKind;
use strm_codes::counts::OutOfMemory;
use strm_codes::payloads::Payload;

/// A writer that gives the items that it is fed, in order. A feed of no bytes tells that no more will
/// come; on a stream it is then dropped with its last item. It never holds items and never fails.
///
/// It keeps all that it was fed: what every poll gave, since its records tell it, what is still queued,
/// and the bytes that were no items, since it tells what it heard. Each byte is kept once, and a record
/// or the queue has none of its own: both are a place and a number in the bytes that were fed.
#[derive(Drop)]
pub struct QueueWriter {
    kind: TransmitKind,
    fed: Feeds,
    // How many of the items fed it has given.
    given: usize,
    is_ended: bool,
    polls: Vec<Poll>,
    closed: bool,
    ghost counted: { given ≤ length fed.items },
    ghost polled: { All (IsPoll fed.items) polls.items },
}

impl QueueWriter {
    ghost use Rattle.std.specs.Prelude.{[], false};
    ghost use Rattle.strm_program_ends.specs.QueueTells.{queue_tells, unfed_writer, queue_of};

    /// A writer with an empty queue. Takes no memory.
    pub fn new(alloc: Global, kind: TransmitKind, payload: Payload) -> QueueWriter
        ensures queue { queue_of result ≡ record { items = []; ended = false } }
        ensures tells { queue_tells result ≡ unfed_writer kind payload }
    {
        QueueWriter {
            kind,
            fed: Feeds::new(alloc, payload),
            given: 0,
            is_ended: false,
            polls: Vec::new(alloc),
            closed: false,
        }
    }
}

impl HostWriter for QueueWriter {
    ghost use Rattle.std.specs.Prelude.{[], true, OnOk, OnErr};
    ghost use Rattle.strm_buffers.specs.Windows.{Between, room_of};
    ghost use Rattle.strm_buffers.specs.Said.{in_room, IfAnswered, IfNoMemory};
    ghost use Rattle.strm_buffers.specs.Tells.{PollsWriter, KeepsWriter, ClosesWriter, Fills, writer_record, writer_given, writer_fed};
    ghost use Rattle.strm_program_ends.specs.Queues.{queue_fed};
    ghost use Rattle.strm_program_ends.specs.QueueTells.{queue_tells, queue_of, GivesNext};

    ghost writer_tells = { queue_tells };

    fn kind(&self) -> TransmitKind {
        self.kind
    }

    fn payload(&self) -> Payload {
        self.fed.payload()
    }

    fn poll(&mut self, window: &mut Window, finish: bool) -> HostTurn
        requires payload { window.old.payload ≡ (queue_tells self.old).payload }
        requires nothing_held { (queue_tells self.old).holds ≡ [] }
        requires nothing_marked { window.old.marked ≡ [] }
        requires prepared { window.old.prepared ≡ true }
        ensures polls { IfAnswered result (λ answer.
            PollsWriter (queue_tells self.old) (queue_tells self.new)
            (writer_record window.old finish window.new.marked
            (queue_tells self.new).holds answer) window.new.marked) }
        ensures no_memory { IfNoMemory result
            (KeepsWriter (queue_tells self.old) (queue_tells self.new)) }
        ensures fills { Fills window.old window.new }

        // It gives and answers what its queue, the room and `finish` say.
        ensures gives { IfAnswered result
            (GivesNext self.old self.new window.old window.new finish) }
        ensures same_queue { IfNoMemory result (queue_of self.new ≡ queue_of self.old) }
    {
        match self.give_next(window, finish) {
            Ok(answer) => answer.turn(),
            Err(_) => Turn::NoMemory,
        }
    }

    fn held(&self) -> usize {
        0
    }

    fn give(&mut self, _window: &mut Window) -> Result<(), OutOfMemory>
        requires payload { _window.old.payload ≡ (queue_tells self.old).payload }
        requires nothing_marked { _window.old.marked ≡ [] }
        ensures marked { OnOk result (_window.new.marked ≡
            in_room (room_of _window.old.place) (queue_tells self.old).holds) }
        ensures ok { OnOk result (queue_tells self.new ≡
            writer_given (queue_tells self.old) (room_of _window.old.place)) }
        ensures unmarked { OnErr result (_window.new.marked ≡ []) }
        ensures err { OnErr result (queue_tells self.new ≡ queue_tells self.old) }
        ensures out_of_memory { OnErr result (_window.old.place ≡ Between) }
        ensures fills { Fills _window.old _window.new }

        // Its queue stays.
        ensures same_queue { queue_of self.new ≡ queue_of self.old }
    {
        // There is never anything held.
        Ok(())
    }

    fn feed(&mut self, bytes: &[u8]) -> Result<(), OutOfMemory>
        ensures ok { OnOk result
            (queue_tells self.new ≡ writer_fed (queue_tells self.old) bytes.now) }
        ensures err { OnErr result (queue_tells self.new ≡ queue_tells self.old) }

        // Its items go to the end of the queue.
        ensures queue { OnOk result (queue_of self.new
            ≡ queue_fed (queue_tells self.old).payload (queue_of self.old) bytes.now) }
        ensures same_queue { OnErr result (queue_of self.new ≡ queue_of self.old) }
    {
        self.fed.feed(self.polls.len(), bytes)?;
        self.is_ended |= bytes.is_empty();
        Ok(())
    }

    fn close(&mut self)
        ensures closes { ClosesWriter (queue_tells self.old) (queue_tells self.new) }

        // Its queue stays.
        ensures same_queue { queue_of self.new ≡ queue_of self.old }
    {
        self.closed = true;
    }

    fn records(&self) -> usize {
        self.polls.len()
    }

    fn record_at(&self, index: usize) -> Result<WriterSaid, OutOfMemory> {
        let poll = self.polls[index];
        let items = self.fed.copy(poll.start, poll.count)?;
        Ok(WriterSaid {
            room: poll.room,
            finish: poll.finish,
            items,
            answer: poll.answer,
        })
    }
}

impl QueueWriter {
    ghost use Rattle.std.specs.Prelude.{◌+◌, [], ◌∷◌, ◌++◌, true, IfOk, OnOk, OnErr};
    ghost use Rattle.strm_codes.specs.Layout.{item_type};
    ghost use Rattle.strm_memory.specs.Items.{AreItems};
    ghost use Rattle.strm_buffers.specs.Tells.{Fills, writer_record};
    ghost use Rattle.strm_program_ends.specs.Queues.{is_over, answer_by};
    ghost use Rattle.strm_program_ends.specs.QueueTells.{queue_tells, queue_of, GivesNext, SameFed};

    // Gives the next items, and adds the record. After `OutOfMemory`, which comes with a full list of
    // records or between host ends, none is given and none is added.
    fn give_next(&mut self, window: &mut Window, finish: bool) -> Result<Answer, OutOfMemory>
        requires payload { window.old.payload ≡ self.old.fed.payload }
        requires nothing_marked { window.old.marked ≡ [] }
        ensures gives { IfOk result (GivesNext self.old self.new window.old window.new finish) }
        ensures said { IfOk result (λ answer. (queue_tells self.new).said
            ≡ (queue_tells self.old).said
            ++ writer_record window.old finish window.new.marked [] answer ∷ []) }
        ensures fit { OnOk result (AreItems (item_type self.old.fed.payload) window.new.marked) }
        ensures err { OnErr result (self.new.polls.items ≡ self.old.polls.items) }
        ensures same_queue { OnErr result (queue_of self.new ≡ queue_of self.old) }
        ensures same_fed { SameFed self.old self.new }
        ensures fills { Fills window.old window.new }
    {
        self.polls.reserve(1)?;
        self.fed.sound();
        let room = window.room();
        let queued = self.fed.len() - self.given;
        let count = (most_given(self.kind, room) as usize).min(queued);
        self.fed.mark(window, self.given, count as u32)?;
        let answer = self.answer(finish, queued, queued - count);
        self.polls.push_reserved(Poll {
            room,
            finish,
            start: self.given,
            count: count as u32,
            answer,
        });
        self.given += count;
        Ok(answer)
    }

    // The answer of a poll that met so many items and left so many.
    fn answer(&self, finish: bool, queued: usize, left: usize) -> Answer
        requires { left ≤ queued }
        ensures { result ≡ answer_by (is_over self.now.kind self.now.is_ended) finish queued left }
    {
        let is_over = self.kind == TransmitKind::Stream && self.is_ended;
        if left > 0 {
            Answer::Completed
        } else if is_over {
            Answer::Dropped
        } else if queued > 0 {
            Answer::Completed
        } else if finish {
            Answer::Cancelled
        } else {
            Answer::Pending
        }
    }
}

// How many items a poll gives at most, by its room.
fn most_given(kind: TransmitKind, room: Option<u32>) -> u32
    ensures exact { result ≡ most_given kind room }
    ensures few { result < 4294967295 }
{
    match (kind, room) {
        (TransmitKind::Stream, Some(room)) => room.min(MOST_ITEMS),
        (TransmitKind::Stream, None) => MOST_ITEMS,
        (TransmitKind::Future, Some(room)) => room.min(1),
        (TransmitKind::Future, None) => 1,
    }
}
