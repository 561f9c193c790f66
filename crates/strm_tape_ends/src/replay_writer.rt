//! A host writer that follows a tape.
//!
//! Meaning: `Replays.antt`. Source: ours.

ghost use Rattle.std.specs.Prelude.{◌≡◌, ◌<◌, [], length, IfOk, OnOk, OnErr};
ghost use Rattle.strm_codes.specs.Types.{kind_of, payload_of};
ghost use Rattle.strm_program_ends.specs.Scripts.{unpolled_writer};

use std::alloc::Global;
use strm_buffers::answers::{HostTurn, Turn};
use strm_buffers::said::WriterSaid;
use strm_buffers::windows::Window;
use strm_buffers::writers::HostWriter;
use strm_codes::codes::TransmitKind;
use strm_codes::counts::OutOfMemory;
use strm_codes::payloads::Payload;
use strm_program_ends::scripted_writer::{ScriptedWriter, WriterTurn};
use strm_tape::tape::{Tape, WriterTape};

/// A writer whose polls are the records of a host writer of a tape, in order: each produces the items of
/// the next record, and answers what that says. After the last it answers Pending without items. It
/// ignores what it is fed.
#[derive(Drop)]
pub struct ReplayWriter {
    // Its script is the record that it follows at its next poll, if that is known yet.
    end: ScriptedWriter,
    // The records behind that.
    coming: WriterTape,
    alloc: Global,
    ghost typed: { payload_of coming.ty ≡ end.payload },
}

impl ReplayWriter {
    ghost use Rattle.std.specs.Prelude.{Some, slice_get};
    ghost use Rattle.strm_tape.specs.Spelling.{WriterTape};
    ghost use Rattle.strm_tape_ends.specs.Replays.{plan_of, replay_tells, IsNextKnown, SamePlan};

    /// A writer that follows the records of this host writer of a tape. After `OutOfMemory` nothing was
    /// kept.
    pub fn new(alloc: Global, tape: &Tape, number: u32) -> Result<ReplayWriter, OutOfMemory>
        requires { number < length tape.now.writers }
        ensures tells { (t : WriterTape) → slice_get tape.now.writers number ≡ Some t →
            IfOk result (λ w. replay_tells w ≡ unpolled_writer (kind_of t.ty) (payload_of t.ty)) }
        ensures plan { (t : WriterTape) → slice_get tape.now.writers number ≡ Some t →
            IfOk result (λ w. plan_of w ≡ t.said) }
    {
        let coming = tape.writer(number).copy()?;
        let ty = coming.ty();
        Ok(ReplayWriter {
            end: ScriptedWriter::new(alloc, ty.kind(), ty.payload(), Vec::new(alloc)),
            coming,
            alloc,
        })
    }

    // Sees that the script has the record to follow, unless all were followed.
    fn find_next(&mut self) -> Result<(), OutOfMemory>
        ensures known { OnOk result (IsNextKnown self.new) }
        ensures plan { SamePlan (plan_of self.old) (plan_of self.new) }
        ensures tells { replay_tells self.new ≡ replay_tells self.old }
    {
        if self.end.turns_left() > 0 {
            return Ok(());
        }
        if self.coming.len() == 0 {
            return Ok(());
        }
        self.end.reserve_turn()?;
        self.coming.sound();
        let WriterSaid { items, answer, .. } = self.coming.take_first(self.alloc)?;
        self.end.push_turn(WriterTurn { items, answer });
        Ok(())
    }
}

impl HostWriter for ReplayWriter {
    ghost use Rattle.std.specs.Prelude.{true};
    ghost use Rattle.strm_buffers.specs.Windows.{Between, room_of};
    ghost use Rattle.strm_buffers.specs.Said.{in_room, IfAnswered, IfNoMemory};
    ghost use Rattle.strm_buffers.specs.Tells.{PollsWriter, KeepsWriter, ClosesWriter, Fills, writer_record, writer_given, writer_fed};
    ghost use Rattle.strm_tape_ends.specs.Replays.{plan_of, replay_tells, FollowsNext, SamePlan};

    ghost writer_tells = { replay_tells };

    fn kind(&self) -> TransmitKind {
        self.end.kind()
    }

    fn payload(&self) -> Payload {
        self.end.payload()
    }

    fn poll(&mut self, window: &mut Window, finish: bool) -> HostTurn
        requires payload { window.old.payload ≡ (replay_tells self.old).payload }
        requires nothing_held { (replay_tells self.old).holds ≡ [] }
        requires nothing_marked { window.old.marked ≡ [] }
        requires prepared { window.old.prepared ≡ true }
        ensures polls { IfAnswered result (λ answer.
            PollsWriter (replay_tells self.old) (replay_tells self.new)
            (writer_record window.old finish window.new.marked
            (replay_tells self.new).holds answer) window.new.marked) }
        ensures no_memory { IfNoMemory result
            (KeepsWriter (replay_tells self.old) (replay_tells self.new)) }
        ensures fills { Fills window.old window.new }

        // It follows the next record of its plan; without memory its plan says what it said.
        ensures follows { IfAnswered result (FollowsNext self.old self.new window.new) }
        ensures same_plan { IfNoMemory result (SamePlan (plan_of self.old) (plan_of self.new)) }
    {
        match self.find_next() {
            Ok(()) => self.end.poll(window, finish),
            Err(_) => Turn::NoMemory,
        }
    }

    fn held(&self) -> usize {
        self.end.held()
    }

    fn give(&mut self, window: &mut Window) -> Result<(), OutOfMemory>
        requires payload { window.old.payload ≡ (replay_tells self.old).payload }
        requires nothing_marked { window.old.marked ≡ [] }
        ensures marked { OnOk result (window.new.marked ≡
            in_room (room_of window.old.place) (replay_tells self.old).holds) }
        ensures ok { OnOk result (replay_tells self.new ≡
            writer_given (replay_tells self.old) (room_of window.old.place)) }
        ensures unmarked { OnErr result (window.new.marked ≡ []) }
        ensures err { OnErr result (replay_tells self.new ≡ replay_tells self.old) }
        ensures out_of_memory { OnErr result (window.old.place ≡ Between) }
        ensures fills { Fills window.old window.new }

        // Its plan stays.
        ensures plan { plan_of self.new ≡ plan_of self.old }
    {
        self.end.give(window)
    }

    fn feed(&mut self, bytes: &[u8]) -> Result<(), OutOfMemory>
        ensures ok { OnOk result
            (replay_tells self.new ≡ writer_fed (replay_tells self.old) bytes.now) }
        ensures err { OnErr result (replay_tells self.new ≡ replay_tells self.old) }

        // Its plan stays.
        ensures plan { plan_of self.new ≡ plan_of self.old }
    {
        self.end.feed(bytes)
    }

    fn close(&mut self)
        ensures closes { ClosesWriter (replay_tells self.old) (replay_tells self.new) }

        // Its plan stays.
        ensures plan { plan_of self.new ≡ plan_of self.old }
    {
        self.end.close();
    }

    fn records(&self) -> usize {
        self.end.records()
    }

    fn record_at(&self, index: usize) -> Result<WriterSaid, OutOfMemory> {
        self.end.record_at(index)
    }
}
