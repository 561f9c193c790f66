//! A host reader that follows a script.

ghost use Rattle.std.specs.Prelude.{◌≡◌, ◌+◌, ◌≤◌, ◌++◌, true, length, vec_len, vec_capacity, OnOk};
ghost use Rattle.strm_memory.specs.Bytes.{IsBytes};
ghost use Rattle.strm_program_ends.specs.Kept.{AreTaken};

use std::alloc::Global;
use strm_buffers::answers::{Answer, HostTurn, ReaderSaid, Turn};
use strm_buffers::offers::Offer;
use strm_buffers::polling::take_up_to;
use strm_buffers::readers::HostReader;
use strm_codes::codes::TransmitKind;
use strm_codes::counts::OutOfMemory;
use strm_codes::payloads::Payload;

/// How many items one poll takes at most, and what it answers.
#[derive(Clone, Copy, Debug)]
pub struct ReaderTurn {
    pub take: u32,
    pub answer: Answer,
}

/// A host reader that does so many turns, one a poll, and after the last answers Pending and takes
/// none. It keeps the items that it takes, unless it discards them, and ignores grants.
#[derive(Drop)]
pub struct ScriptedReader {
    kind: TransmitKind,
    payload: Payload,
    turns: Vec<ReaderTurn>,
    // Whether it keeps the items that it takes; and the bytes of those.
    keeps: bool,
    kept: Vec<u8>,
    said: Vec<ReaderSaid>,
    closed: bool,
    ghost taken: { keeps ≡ true → AreTaken payload kept.items said.items },
}

impl ScriptedReader {
    ghost use Rattle.strm_program_ends.specs.Kept.{items_kept};
    ghost use Rattle.strm_program_ends.specs.Takings.{scripted_reader_tells, unpolled_reader, unpolled_discarding};

    /// A host reader of these turns, which keeps what it takes. Takes no memory.
    pub fn new(
        alloc: Global,
        kind: TransmitKind,
        payload: Payload,
        turns: Vec<ReaderTurn>,
    ) -> ScriptedReader
        ensures turns { result.turns ≡ turns }
        ensures tells { scripted_reader_tells result ≡ unpolled_reader kind payload }
    {
        ScriptedReader {
            kind,
            payload,
            turns,
            keeps: true,
            kept: Vec::new(alloc),
            said: Vec::new(alloc),
            closed: false,
        }
    }

    /// A host reader of these turns, which discards what it takes, and so tells none of it. Takes no
    /// memory.
    pub fn discarding(
        alloc: Global,
        kind: TransmitKind,
        payload: Payload,
        turns: Vec<ReaderTurn>,
    ) -> ScriptedReader
        ensures turns { result.turns ≡ turns }
        ensures tells { scripted_reader_tells result ≡ unpolled_discarding kind payload }
    {
        ScriptedReader {
            kind,
            payload,
            turns,
            keeps: false,
            kept: Vec::new(alloc),
            said: Vec::new(alloc),
            closed: false,
        }
    }

    /// The bytes of all items that it took, one behind the other, where it keeps them.
    pub fn taken_bytes(&self) -> &[u8]
        ensures { (scripted_reader_tells self.now).holds ≡
            items_kept self.now.keeps self.now.payload result.now self.now.said.items }
    {
        &self.kept
    }
}

impl HostReader for ScriptedReader {
    ghost use Rattle.std.specs.Prelude.{false, OnErr};
    ghost use Rattle.strm_codes.specs.Layout.{item_type};
    ghost use Rattle.strm_buffers.specs.Offers.{IsBadNext};
    ghost use Rattle.strm_buffers.specs.Said.{IfAnswered, IfNoMemory};
    ghost use Rattle.strm_buffers.specs.Tells.{PollsReader, KeepsReader, SameOffer, reader_record, first_lent, reader_tells_closed, reader_granted};
    ghost use Rattle.strm_program_ends.specs.Takings.{scripted_reader_tells, DoesTurn};

    ghost reader_tells = { scripted_reader_tells };

    fn kind(&self) -> TransmitKind {
        self.kind
    }

    fn payload(&self) -> Payload {
        self.payload
    }

    fn poll(&mut self, offer: &mut Offer, finish: bool) -> HostTurn
        requires payload { offer.old.payload ≡ self.old.payload }
        requires nothing_taken { offer.old.taken ≡ 0 }
        requires not_bad { offer.old.bad ≡ false }
        ensures polls { IfAnswered result (λ answer.
            PollsReader (scripted_reader_tells self.old) (scripted_reader_tells self.new)
            (reader_record offer.old offer.new finish answer)
            (first_lent (item_type offer.old.payload) offer.old.source offer.new.taken)) }
        ensures no_memory { IfNoMemory result
            (KeepsReader (scripted_reader_tells self.old) (scripted_reader_tells self.new)) }
        ensures untaken { IfNoMemory result (offer.new.taken ≡ 0) }
        ensures next { offer.new.bad ≡ true →
            IsBadNext (item_type offer.old.payload) offer.old.source offer.new.taken }
        ensures same { SameOffer offer.old offer.new }

        // It does the turn of its place among the polls.
        ensures does_turn { DoesTurn self.old self.new offer.old offer.new result }
    {
        match self.said.reserve(1) {
            Ok(()) => {}
            Err(_) => return Turn::NoMemory,
        }
        let offered = offer.remaining();
        let since = offer.since();
        let turn = self.next_turn();
        let most = self.payload.size() as usize * turn.take.min(offered) as usize;
        match make_room(&mut self.kept, self.keeps, most) {
            Ok(()) => {}
            Err(_) => return Turn::NoMemory,
        }
        take_up_to(offer, turn.take);
        keep(&mut self.kept, self.keeps, offer.taken_bytes());
        self.said.push_reserved(ReaderSaid {
            offered,
            since,
            finish,
            taken: offer.taken(),
            bad: offer.bad(),
            answer: turn.answer,
        });
        turn.answer.turn()
    }

    fn grant(&mut self, _count: u32) -> Result<(), OutOfMemory>
        ensures ok { OnOk result
            (scripted_reader_tells self.new
            ≡ reader_granted (scripted_reader_tells self.old) _count) }
        ensures err { OnErr result
            (scripted_reader_tells self.new ≡ scripted_reader_tells self.old) }

        // It is ignored: also its turns stay.
        ensures ignored { self.new ≡ self.old }
    {
        // What it is granted is ignored.
        Ok(())
    }

    fn close(&mut self)
        ensures closes { scripted_reader_tells self.new
            ≡ reader_tells_closed (scripted_reader_tells self.old) }

        // Its turns stay.
        ensures turns { self.new.turns ≡ self.old.turns }
    {
        self.closed = true;
    }

    fn records(&self) -> usize {
        self.said.len()
    }

    fn record_at(&self, index: usize) -> ReaderSaid {
        self.said[index]
    }
}

// Makes room for so many bytes more, where they are to be kept. Those that are kept stay.
fn make_room(kept: &mut Vec<u8>, keeps: bool, more: usize) -> Result<(), OutOfMemory>
    ensures items { kept.new.items ≡ kept.old.items }
    ensures bytes { IsBytes kept.old.items }
    ensures room { keeps ≡ true → OnOk result (vec_len kept.new + more ≤ vec_capacity kept.new) }
{
    if !keeps {
        return Ok(());
    }
    kept.reserve(more)?;
    Ok(())
}

// Puts bytes behind others, where they are to be kept.
fn keep(kept: &mut Vec<u8>, keeps: bool, more: &[u8])
    requires { keeps ≡ true → vec_len kept.old + length more.now ≤ vec_capacity kept.old }
    ensures { keeps ≡ true → kept.new.items ≡ kept.old.items ++ more.now }
{
    if !keeps {
        return;
    }
    match kept.extend_from_slice(more) {
        Ok(()) => {}
        Err(_) => unreachable!(),
    }
}

impl ScriptedReader {
    ghost use Rattle.strm_program_ends.specs.Takings.{turn_due};

    // The turn of the next poll.
    fn next_turn(&self) -> ReaderTurn
        ensures { result ≡ turn_due self.now }
    {
        let done = self.said.len();
        if done < self.turns.len() {
            self.turns[done]
        } else {
            ReaderTurn {
                take: 0,
                answer: Answer::Pending,
            }
        }
    }
}
