//! A host reader that follows a tape.
//!
//! Meaning: `ReaderPlans.antt`. Source: ours.

ghost use Rattle.std.specs.Prelude.{◌≡◌, ◌<◌, ◌++◌, ◌∷◌, [], length, map, IfOk, OnOk, Some, slice_get};
ghost use Rattle.strm_codes.specs.Types.{kind_of, payload_of};
ghost use Rattle.strm_program_ends.specs.Takings.{unpolled_discarding};
ghost use Rattle.strm_tape_ends.specs.ReaderPlans.{scripted_turn_for};

use std::alloc::Global;
use strm_buffers::answers::{HostTurn, ReaderSaid};
use strm_buffers::offers::Offer;
use strm_buffers::readers::HostReader;
use strm_codes::codes::TransmitKind;
use strm_codes::counts::OutOfMemory;
use strm_codes::payloads::Payload;
use strm_program_ends::scripted_reader::{ReaderTurn, ScriptedReader};
use strm_tape::tape::Tape;

/// A host reader whose polls are the records of a host reader of a tape, in order: each takes as many items
/// as the next record says, asks for one more where it says that one was none, and answers what it says.
/// After the last it answers Pending and takes none. It discards what it takes, and ignores grants.
#[derive(Drop)]
pub struct ReplayReader {
    end: ScriptedReader,
}

impl ReplayReader {
    ghost use Rattle.strm_tape.specs.Spelling.{ReaderTape};
    ghost use Rattle.strm_tape_ends.specs.ReaderPlans.{plan_of_reader, replay_reader_tells};

    /// A reader that follows the records of this host reader of a tape. After `OutOfMemory` nothing was
    /// kept.
    pub fn new(alloc: Global, tape: &Tape, number: u32) -> Result<ReplayReader, OutOfMemory>
        requires { number < length tape.now.readers }
        ensures tells { (t : ReaderTape) → slice_get tape.now.readers number ≡ Some t →
            IfOk result (λ r.
            replay_reader_tells r ≡ unpolled_discarding (kind_of t.ty) (payload_of t.ty)) }
        ensures plan { (t : ReaderTape) → slice_get tape.now.readers number ≡ Some t →
            IfOk result (λ r. plan_of_reader r ≡ map scripted_turn_for t.said) }
    {
        let reader = tape.reader(number);
        let turns = turns_of(alloc, &reader.said)?;
        Ok(ReplayReader {
            end: ScriptedReader::discarding(alloc, reader.ty.kind(), reader.ty.payload(), turns),
        })
    }
}

// The turn that makes such a record.
fn turn_for(said: &ReaderSaid) -> ReaderTurn
    ensures { result ≡ scripted_turn_for said.now }
{
    let more = if said.bad { 1 } else { 0 };
    ReaderTurn {
        take: said.taken.saturating_add(more),
        answer: said.answer,
    }
}

// Adds a turn at the end.
fn push_turn(turns: &mut Vec<ReaderTurn>, turn: ReaderTurn) -> Result<(), OutOfMemory>
    ensures { OnOk result (turns.new.items ≡ turns.old.items ++ turn ∷ []) }
{
    turns.push(turn)?;
    Ok(())
}

// The turns that make such records.
fn turns_of(alloc: Global, said: &[ReaderSaid]) -> Result<Vec<ReaderTurn>, OutOfMemory>
    ensures { IfOk result (λ turns. turns.items ≡ map scripted_turn_for said.now) }
{
    let mut turns = Vec::new(alloc);
    for k in 0..said.len() {
        push_turn(&mut turns, turn_for(&said[k]))?;
    }
    Ok(turns)
}

impl HostReader for ReplayReader {
    ghost use Rattle.std.specs.Prelude.{true, false, OnErr};
    ghost use Rattle.strm_codes.specs.Layout.{item_type};
    ghost use Rattle.strm_buffers.specs.Offers.{IsBadNext};
    ghost use Rattle.strm_buffers.specs.Said.{IfAnswered, IfNoMemory};
    ghost use Rattle.strm_buffers.specs.Tells.{PollsReader, KeepsReader, SameOffer, reader_record, first_lent, reader_tells_closed, reader_granted};
    ghost use Rattle.strm_tape_ends.specs.ReaderPlans.{plan_of_reader, replay_reader_tells, FollowsTurn};

    ghost reader_tells = { replay_reader_tells };

    fn kind(&self) -> TransmitKind {
        self.end.kind()
    }

    fn payload(&self) -> Payload {
        self.end.payload()
    }

    fn poll(&mut self, offer: &mut Offer, finish: bool) -> HostTurn
        requires payload { offer.old.payload ≡ (replay_reader_tells self.old).payload }
        requires nothing_taken { offer.old.taken ≡ 0 }
        requires not_bad { offer.old.bad ≡ false }
        ensures polls { IfAnswered result (λ answer.
            PollsReader (replay_reader_tells self.old) (replay_reader_tells self.new)
            (reader_record offer.old offer.new finish answer)
            (first_lent (item_type offer.old.payload) offer.old.source offer.new.taken)) }
        ensures no_memory { IfNoMemory result
            (KeepsReader (replay_reader_tells self.old) (replay_reader_tells self.new)) }
        ensures untaken { IfNoMemory result (offer.new.taken ≡ 0) }
        ensures next { offer.new.bad ≡ true →
            IsBadNext (item_type offer.old.payload) offer.old.source offer.new.taken }
        ensures same { SameOffer offer.old offer.new }

        // It follows the record of its place among the polls.
        ensures follows { FollowsTurn self.old self.new offer.old offer.new result }
    {
        self.end.poll(offer, finish)
    }

    fn grant(&mut self, count: u32) -> Result<(), OutOfMemory>
        ensures ok { OnOk result
            (replay_reader_tells self.new ≡ reader_granted (replay_reader_tells self.old) count) }
        ensures err { OnErr result (replay_reader_tells self.new ≡ replay_reader_tells self.old) }

        // Its plan stays.
        ensures plan { plan_of_reader self.new ≡ plan_of_reader self.old }
    {
        self.end.grant(count)
    }

    fn close(&mut self)
        ensures closes { replay_reader_tells self.new
            ≡ reader_tells_closed (replay_reader_tells self.old) }

        // Its plan stays.
        ensures plan { plan_of_reader self.new ≡ plan_of_reader self.old }
    {
        self.end.close();
    }

    fn records(&self) -> usize {
        self.end.records()
    }

    fn record_at(&self, index: usize) -> ReaderSaid {
        self.end.record_at(index)
    }
}
