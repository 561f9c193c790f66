//! A host reader that takes what it has credit for.

ghost use Rattle.std.specs.Prelude.{◌≡◌, false};

use crate::taking::take_credit;
use std::alloc::Global;
use strm_buffers::answers::{Answer, HostTurn, ReaderSaid, Turn};
use strm_buffers::offers::Offer;
use strm_buffers::readers::HostReader;
use strm_codes::codes::TransmitKind;
use strm_codes::counts::OutOfMemory;
use strm_codes::payloads::Payload;

/// A grant: how many records there were, and for how many items it was.
#[derive(Clone, Copy, Debug)]
pub struct Grant {
    pub records: usize,
    pub count: u32,
}

/// A host reader that takes items as long as it has credit. A grant adds to that; one of 0 ends it.
#[derive(Drop)]
pub struct CreditReader {
    kind: TransmitKind,
    payload: Payload,
    // How many items it may take yet; it stops at the greatest number.
    credit: u64,
    // A grant of 0 was heard.
    is_ended: bool,
    said: Vec<ReaderSaid>,
    heard: Vec<Grant>,
    closed: bool,
}

impl CreditReader {
    ghost use Rattle.strm_program_ends.specs.Credits.{credit_tells, ungranted};

    /// A host reader without credit. Takes no memory.
    pub fn new(alloc: Global, kind: TransmitKind, payload: Payload) -> CreditReader
        ensures credit { result.credit ≡ 0 }
        ensures ended { result.is_ended ≡ false }
        ensures tells { credit_tells result ≡ ungranted kind payload }
    {
        CreditReader {
            kind,
            payload,
            credit: 0,
            is_ended: false,
            said: Vec::new(alloc),
            heard: Vec::new(alloc),
            closed: false,
        }
    }
}

impl HostReader for CreditReader {
    ghost use Rattle.std.specs.Prelude.{◌==◌, ◌||◌, true, OnOk, OnErr};
    ghost use Rattle.strm_codes.specs.Layout.{item_type};
    ghost use Rattle.strm_buffers.specs.Offers.{IsBadNext};
    ghost use Rattle.strm_buffers.specs.Said.{IfAnswered, IfNoMemory};
    ghost use Rattle.strm_buffers.specs.Tells.{PollsReader, KeepsReader, SameOffer, reader_record, first_lent, reader_tells_closed, reader_granted};
    ghost use Rattle.strm_program_ends.specs.Credits.{credit_tells, with_credit, TakesByCredit};

    ghost reader_tells = { credit_tells };

    fn kind(&self) -> TransmitKind {
        self.kind
    }

    fn payload(&self) -> Payload {
        self.payload
    }

    fn poll(&mut self, offer: &mut Offer, finish: bool) -> HostTurn
        requires payload { offer.old.payload ≡ self.old.payload }
        requires nothing_taken { offer.old.taken ≡ 0 }
        requires not_bad { offer.old.bad ≡ false }
        ensures polls { IfAnswered result (λ answer.
            PollsReader (credit_tells self.old) (credit_tells self.new)
            (reader_record offer.old offer.new finish answer)
            (first_lent (item_type offer.old.payload) offer.old.source offer.new.taken)) }
        ensures no_memory { IfNoMemory result
            (KeepsReader (credit_tells self.old) (credit_tells self.new)) }
        ensures untaken { IfNoMemory result (offer.new.taken ≡ 0) }
        ensures next { offer.new.bad ≡ true →
            IsBadNext (item_type offer.old.payload) offer.old.source offer.new.taken }
        ensures same { SameOffer offer.old offer.new }

        // It takes what it has credit for, up to a bad item, and answers by what is left of it.
        ensures by_credit { TakesByCredit self.old self.new offer.old offer.new finish result }
    {
        match self.said.reserve(1) {
            Ok(()) => {}
            Err(_) => return Turn::NoMemory,
        }
        let offered = offer.remaining();
        let since = offer.since();
        take_credit(offer, self.credit);
        let taken = offer.taken();
        self.credit -= taken as u64;
        let answer = self.answer(offered, taken, finish);
        self.said.push_reserved(ReaderSaid {
            offered,
            since,
            finish,
            taken,
            bad: offer.bad(),
            answer,
        });
        answer.turn()
    }

    fn grant(&mut self, count: u32) -> Result<(), OutOfMemory>
        ensures ok { OnOk result
            (credit_tells self.new ≡ reader_granted (credit_tells self.old) count) }
        ensures err { OnErr result (credit_tells self.new ≡ credit_tells self.old) }

        // It adds to the credit, and a grant of 0 ends it.
        ensures credit { OnOk result (self.new.credit ≡ with_credit self.old.credit count) }
        ensures ended { OnOk result (self.new.is_ended ≡ (self.old.is_ended || (count == 0))) }
        ensures same_credit { OnErr result (self.new.credit ≡ self.old.credit) }
        ensures same_ended { OnErr result (self.new.is_ended ≡ self.old.is_ended) }
    {
        let grant = Grant {
            records: self.said.len(),
            count,
        };
        self.heard.push(grant)?;
        self.credit = self.credit.saturating_add(count as u64);
        self.is_ended = self.is_ended || count == 0;
        Ok(())
    }

    fn close(&mut self)
        ensures closes { credit_tells self.new ≡ reader_tells_closed (credit_tells self.old) }

        // Its credit stays.
        ensures credit { self.new.credit ≡ self.old.credit }
        ensures ended { self.new.is_ended ≡ self.old.is_ended }
    {
        self.closed = true;
    }

    fn records(&self) -> usize {
        self.said.len()
    }

    fn record_at(&self, index: usize) -> ReaderSaid {
        self.said[index]
    }
}

impl CreditReader {
    ghost use Rattle.strm_program_ends.specs.Credits.{credit_answer};

    // What it answers where it was offered so many items and took so many.
    fn answer(&self, offered: u32, taken: u32, finish: bool) -> Answer
        ensures { result
            ≡ credit_answer self.now.kind self.now.credit self.now.is_ended offered taken finish }
    {
        let is_stream = self.kind == TransmitKind::Stream;
        if is_stream && self.credit == 0 && self.is_ended {
            Answer::Dropped
        } else if taken > 0 || is_stream && offered == 0 && self.credit > 0 {
            Answer::Completed
        } else if finish {
            Answer::Cancelled
        } else {
            Answer::Pending
        }
    }
}
