//! A host writer that follows a script.

ghost use Rattle.std.specs.Prelude.{◌≡◌, ◌≤◌, All, length, drop, IfOk};

use crate::byte_scripts::{ByteTurn, turns_of_bytes};
use std::alloc::Global;
use strm_buffers::answers::{Answer, HostTurn, Turn};
use strm_buffers::items::Items;
use strm_buffers::polling::mark_in_room;
use strm_buffers::said::WriterSaid;
use strm_buffers::windows::Window;
use strm_buffers::writers::HostWriter;
use strm_codes::codes::TransmitKind;
use strm_codes::counts::OutOfMemory;
use strm_codes::payloads::Payload;
use strm_codes::scalars::Scalar;

/// What one poll produces, and what it answers.
#[derive(Drop)]
pub struct WriterTurn {
    pub items: Items,
    pub answer: Answer,
}

/// A writer that does so many turns, and after the last answers Pending without items. It ignores
/// what it is fed.
#[derive(Drop)]
pub struct ScriptedWriter {
    kind: TransmitKind,
    payload: Payload,
    turns: Vec<WriterTurn>,
    held: Items,
    said: Vec<WriterSaid>,
    closed: bool,
    alloc: Global,
    ghost typed: { All (λ turn. turn.items.payload ≡ payload) turns.items },
    ghost holding: { held.payload ≡ payload },
    ghost recorded: { All (λ said. said.payload ≡ payload) said.items },
}

impl ScriptedWriter {
    ghost use Rattle.std.specs.Prelude.{map};
    ghost use Rattle.strm_codes.specs.declared.payloads.Payload.TheVariants.{One};
    ghost use Rattle.strm_codes.specs.declared.scalars.Scalar.TheVariants.{U8};
    ghost use Rattle.strm_program_ends.specs.Scripts.{scripted_tells, unpolled_writer, turn_of_bytes};

    /// A writer of these turns. Takes no memory.
    pub fn new(
        alloc: Global,
        kind: TransmitKind,
        payload: Payload,
        turns: Vec<WriterTurn>,
    ) -> ScriptedWriter
        requires { All (λ turn. turn.items.payload ≡ payload) turns.items }
        ensures turns { result.turns ≡ turns }
        ensures tells { scripted_tells result ≡ unpolled_writer kind payload }
    {
        let held = Items::new(alloc, payload);
        let payload = held.payload();
        ScriptedWriter {
            kind,
            payload,
            turns,
            held,
            said: Vec::new(alloc),
            closed: false,
            alloc,
        }
    }

    /// A writer of bytes that does these turns. After `OutOfMemory`, which comes also where one poll is to
    /// produce more than `MOST_ITEMS` bytes, nothing was kept.
    pub fn of_bytes(
        alloc: Global,
        kind: TransmitKind,
        turns: &[ByteTurn],
    ) -> Result<ScriptedWriter, OutOfMemory>
        ensures turns { IfOk result (λ writer.
            writer.turns.items ≡ map (λ turn. turn_of_bytes turn.0.now turn.1) turns.now) }
        ensures tells { IfOk result (λ writer.
            scripted_tells writer ≡ unpolled_writer kind (One U8)) }
    {
        let turns = turns_of_bytes(alloc, turns)?;
        Ok(ScriptedWriter::new(alloc, kind, Payload::One(Scalar::U8), turns))
    }
}

impl HostWriter for ScriptedWriter {
    ghost use Rattle.std.specs.Prelude.{[], true, OnOk, OnErr};
    ghost use Rattle.strm_buffers.specs.Windows.{Between, room_of};
    ghost use Rattle.strm_buffers.specs.Said.{in_room, IfAnswered, IfNoMemory};
    ghost use Rattle.strm_buffers.specs.Tells.{PollsWriter, KeepsWriter, ClosesWriter, Fills, writer_record, writer_given, writer_fed};
    ghost use Rattle.strm_program_ends.specs.Scripts.{scripted_tells, DoesNextTurn};

    ghost writer_tells = { scripted_tells };

    fn kind(&self) -> TransmitKind {
        self.kind
    }

    fn payload(&self) -> Payload {
        self.payload
    }

    fn poll(&mut self, window: &mut Window, finish: bool) -> HostTurn
        requires payload { window.old.payload ≡ self.old.payload }
        requires nothing_held { self.old.held.items ≡ [] }
        requires nothing_marked { window.old.marked ≡ [] }
        requires prepared { window.old.prepared ≡ true }
        ensures polls { IfAnswered result (λ answer.
            PollsWriter (scripted_tells self.old) (scripted_tells self.new)
            (writer_record window.old finish window.new.marked
            (scripted_tells self.new).holds answer) window.new.marked) }
        ensures no_memory { IfNoMemory result
            (KeepsWriter (scripted_tells self.old) (scripted_tells self.new)) }
        ensures fills { Fills window.old window.new }

        // It does its next turn; without memory its turns stay.
        ensures does_turn { IfAnswered result (DoesNextTurn self.old self.new window.new) }
        ensures same_turns { IfNoMemory result (self.new.turns.items ≡ self.old.turns.items) }
    {
        match self.play(window, finish) {
            Ok(answer) => answer.turn(),
            Err(_) => Turn::NoMemory,
        }
    }

    fn held(&self) -> usize {
        self.held.sound();
        self.held.len()
    }

    fn give(&mut self, window: &mut Window) -> Result<(), OutOfMemory>
        requires payload { window.old.payload ≡ self.old.payload }
        requires nothing_marked { window.old.marked ≡ [] }
        ensures marked { OnOk result (window.new.marked ≡
            in_room (room_of window.old.place) self.old.held.items) }
        ensures ok { OnOk result (scripted_tells self.new ≡
            writer_given (scripted_tells self.old) (room_of window.old.place)) }
        ensures unmarked { OnErr result (window.new.marked ≡ []) }
        ensures err { OnErr result (scripted_tells self.new ≡ scripted_tells self.old) }
        ensures out_of_memory { OnErr result (window.old.place ≡ Between) }
        ensures fills { Fills window.old window.new }

        // Its turns stay.
        ensures turns { self.new.turns.items ≡ self.old.turns.items }
    {
        let count = mark_in_room(window, &self.held)?;
        self.held.skip(count);
        Ok(())
    }

    fn feed(&mut self, _bytes: &[u8]) -> Result<(), OutOfMemory>
        ensures ok { OnOk result
            (scripted_tells self.new ≡ writer_fed (scripted_tells self.old) _bytes.now) }
        ensures err { OnErr result (scripted_tells self.new ≡ scripted_tells self.old) }

        // Its turns stay.
        ensures turns { self.new.turns.items ≡ self.old.turns.items }
    {
        // What it is fed is ignored.
        Ok(())
    }

    fn close(&mut self)
        ensures closes { ClosesWriter (scripted_tells self.old) (scripted_tells self.new) }

        // Its turns stay.
        ensures turns { self.new.turns.items ≡ self.old.turns.items }
    {
        self.closed = true;
    }

    fn records(&self) -> usize {
        self.said.len()
    }

    fn record_at(&self, index: usize) -> Result<WriterSaid, OutOfMemory> {
        self.said[index].copy()
    }
}

impl ScriptedWriter {
    ghost use Rattle.std.specs.Prelude.{◌<◌, [], ◌∷◌, ◌++◌, length, vec_len, vec_capacity, IfOk, OnOk, OnErr};
    ghost use Rattle.strm_buffers.specs.Windows.{room_of};
    ghost use Rattle.strm_buffers.specs.Said.{in_room, past_room};
    ghost use Rattle.strm_buffers.specs.Tells.{Fills};
    ghost use Rattle.strm_program_ends.specs.Scripts.{scripted_tells, next_items, next_turn_answer, PlaysTurn, PlaysNone, SameType};

    /// How many turns it has yet to do.
    pub fn turns_left(&self) -> usize
        ensures { result ≡ length self.now.turns.items }
    {
        self.turns.len()
    }

    /// Makes room for a turn more. After `OutOfMemory` nothing has changed.
    pub fn reserve_turn(&mut self) -> Result<(), OutOfMemory>
        ensures room { OnOk result (vec_len self.new.turns < vec_capacity self.new.turns) }
        ensures turns { self.new.turns.items ≡ self.old.turns.items }
        ensures tells { scripted_tells self.new ≡ scripted_tells self.old }
    {
        self.turns.reserve(1)?;
        Ok(())
    }

    /// A turn more, behind the others, where there is room for it. Takes no memory.
    pub fn push_turn(&mut self, turn: WriterTurn)
        requires payload { turn.items.payload ≡ self.old.payload }
        requires room { vec_len self.old.turns < vec_capacity self.old.turns }
        ensures turns { self.new.turns.items ≡ self.old.turns.items ++ turn ∷ [] }
        ensures tells { scripted_tells self.new ≡ scripted_tells self.old }
    {
        self.turns.push_reserved(turn);
    }

    // Does the next turn: what there is room for is marked, and the rest is held.
    fn play(&mut self, window: &mut Window, finish: bool) -> Result<Answer, OutOfMemory>
        requires payload { window.old.payload ≡ self.old.payload }
        requires nothing_marked { window.old.marked ≡ [] }
        ensures plays { IfOk result (PlaysTurn self.old self.new window.old window.new finish) }
        ensures err { OnErr result (PlaysNone self.old self.new) }
        ensures same_type { SameType self.old self.new }
        ensures fills { Fills window.old window.new }
    {
        let room = window.room();
        self.said.reserve(1)?;
        let held = self.mark_next(window)?;
        let turn = ScriptedWriter::take_next(self.alloc, self.payload, &mut self.turns);
        turn.items.sound();
        let WriterTurn { items, answer } = turn;
        self.held = held;
        self.said.push_reserved(WriterSaid {
            room,
            finish,
            items,
            answer,
        });
        Ok(answer)
    }

    // Marks what there is room for of what the next turn produces: the others.
    fn mark_next(&self, window: &mut Window) -> Result<Items, OutOfMemory>
        requires payload { window.old.payload ≡ self.now.payload }
        requires nothing_marked { window.old.marked ≡ [] }
        ensures marked { OnOk result (window.new.marked
            ≡ in_room (room_of window.old.place) (next_items self.now.turns.items)) }
        ensures payload { IfOk result (λ held. held.payload ≡ self.now.payload) }
        ensures held { IfOk result (λ held. held.items
            ≡ past_room (room_of window.old.place) (next_items self.now.turns.items)) }
        ensures fills { Fills window.old window.new }
    {
        if self.turns.is_empty() {
            return Ok(Items::new(self.alloc, self.payload));
        }
        let next = &self.turns[0].items;
        let count = mark_in_room(window, next)?;
        rest_of(self.alloc, next, count)
    }

    // Takes the next turn off: behind the last, one without items, which answers Pending.
    fn take_next(alloc: Global, payload: Payload, turns: &mut Vec<WriterTurn>) -> WriterTurn
        requires typed { All (λ turn. turn.items.payload ≡ payload) turns.old.items }
        ensures typed { All (λ turn. turn.items.payload ≡ payload) turns.new.items }
        ensures payload { result.items.payload ≡ payload }
        ensures items { result.items.items ≡ next_items turns.old.items }
        ensures answer { result.answer ≡ next_turn_answer turns.old.items }
        ensures behind { turns.new.items ≡ drop 1 turns.old.items }
    {
        if turns.is_empty() {
            return WriterTurn {
                items: Items::new(alloc, payload),
                answer: Answer::Pending,
            };
        }
        turns.remove(0)
    }
}

// A copy of the items behind so many.
fn rest_of(alloc: Global, items: &Items, count: usize) -> Result<Items, OutOfMemory>
    requires { count ≤ length items.now.items }
    ensures payload { IfOk result (λ rest. rest.payload ≡ items.now.payload) }
    ensures items { IfOk result (λ rest. rest.items ≡ drop count items.now.items) }
{
    if count == items.len() {
        return Ok(Items::new(alloc, items.payload()));
    }
    let mut rest = items.copy()?;
    rest.skip(count);
    Ok(rest)
}
