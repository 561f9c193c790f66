//! A host reader whose items are collected after they came.
//!
//! Meaning: `ReceiveQueues.antt`. Ours.

ghost use Rattle.std.specs.Prelude.{◌≡◌, ◌+◌, ◌-◌, ◌*◌, ◌<◌, ◌≤◌, min, true, false, [], ◌++◌, length, take, IsOk, IfOk, OnOk, OnErr};
ghost use Rattle.strm_codes.specs.Layout.{item_type};
ghost use Rattle.strm_codes.specs.ItemTypes.{item_size};
ghost use Rattle.strm_memory.specs.Items.{stored, AreItems};
ghost use Rattle.strm_buffers.specs.Listing.{LieIn, items_in};
ghost use Rattle.strm_buffers.specs.Offers.{items_lent, IsBadNext};
ghost use Rattle.strm_buffers.specs.Tells.{first_lent, reader_record};
ghost use Rattle.strm_ready_ends.specs.SendQueues.{is_future};
ghost use Rattle.strm_ready_ends.specs.ReceiveQueues.{ungranted, Grants, owed, finished, taking_answer, taking_record, Takes, TakesGood, collected, reader_forgotten};

use crate::errors::GrantError;
use crate::item_queues::ItemQueue;
use crate::records::Records;
use crate::wholes::good_front;
use std::alloc::Global;
use std::marker::Model;
use strm_buffers::answers::{Answer, HostTurn, ReaderSaid, Turn};
use strm_buffers::items::MOST_ITEMS;
use strm_buffers::offers::Offer;
use strm_buffers::polling::take_up_to;
use strm_buffers::readers::HostReader;
use strm_codes::codes::TransmitKind;
use strm_codes::counts::OutOfMemory;
use strm_codes::payloads::Payload;

/// A reader that takes as many items as it was granted, and keeps them until they are collected. Memory is taken by a
/// grant alone, so a poll of which the record before was forgotten takes none. It fails in no poll, and keeps the rules
/// of host readers.
///
/// What is passed on to it by `grant` it does not hear: `grant_items` is how it is granted items.
#[derive(Drop)]
pub struct ReadyReader {
    kind: TransmitKind,
    taken: ItemQueue,
    // How many items it may take yet.
    credit: u32,
    is_ended: bool,
    is_closed: bool,
    said: Records<ReaderSaid>,
}

impl Model for ReadyReader {
    ghost use Rattle.strm_ready_ends.specs.ReceiveQueues.{ReceiveQueue, HasRoomFor};

    ghost Value = { ReceiveQueue };

    ghost view = { λ r. record { kind = r.kind; payload = r.taken.payload; items = r.taken.items; credit = r.credit; ended = r.is_ended; closed = r.is_closed; said = r.said.items } };

    ghost invariant = { λ r. HasRoomFor r.taken r.credit };
}

// What it answers with so much credit left, where so many items were offered and so many taken.
fn taking_answer(
    kind: TransmitKind,
    is_ended: bool,
    credit: u32,
    offered: u32,
    taken: u32,
    finish: bool,
) -> Answer
    ensures { result ≡ taking_answer kind is_ended credit offered taken finish }
{
    let is_stream = kind == TransmitKind::Stream;
    if is_stream && credit == 0 && is_ended {
        Answer::Dropped
    } else if taken > 0 || is_stream && offered == 0 && credit > 0 {
        Answer::Completed
    } else if finish {
        Answer::Cancelled
    } else {
        Answer::Pending
    }
}

impl ReadyReader {
    /// A reader of streams or of futures that was granted nothing. Takes no memory.
    pub fn new(alloc: Global, kind: TransmitKind, payload: Payload) -> ReadyReader
        ensures { result ≡ ungranted kind payload }
    {
        ReadyReader {
            kind,
            taken: ItemQueue::new(alloc, payload),
            credit: 0,
            is_ended: false,
            is_closed: false,
            said: Records::new(alloc),
        }
    }

    /// How many items it keeps. Each fits its payload.
    pub fn kept(&self) -> usize
        ensures exact { result ≡ length self.now.items }
        ensures most { result < 4294967295 }
        ensures fit { AreItems (item_type self.now.payload) self.now.items }
    {
        self.taken.len()
    }

    /// How many items it may take yet.
    pub fn credit(&self) -> u32
        ensures { result ≡ self.now.credit }
    {
        self.credit
    }

    /// Whether its stream is gone: it takes no item more.
    pub fn is_closed(&self) -> bool
        ensures { result ≡ self.now.closed }
    {
        self.is_closed
    }

    /// The bytes of the first so many items that it keeps, one behind the other: no byte is copied.
    pub fn first_bytes(&self, count: usize) -> &[u8]
        requires { count ≤ length self.now.items }
        ensures lie { LieIn (item_type self.now.payload) result.now 0 count }
        ensures items { items_in (item_type self.now.payload) result.now 0 count
            ≡ take count self.now.items }
        ensures all { length result.now ≡ item_size (item_type self.now.payload) * count }
    {
        self.taken.first(count)
    }

    /// Gives up the first so many items that it keeps.
    pub fn discard(&mut self, count: usize)
        requires { count ≤ length self.old.items }
        ensures { self.new ≡ collected self.old count }
    {
        self.taken.skip(count);
    }

    /// Writes the first items that it keeps over bytes from their front on, one behind the other, at most so many, and
    /// gives them up: how many. Padding stays as it was.
    pub fn collect(&mut self, bytes: &mut [u8], most: u32) -> u32
        requires { item_size (item_type self.old.payload) * most ≤ length bytes.old }
        ensures count { result ≡ min most (length self.old.items) }
        ensures bytes { bytes.new
            ≡ stored (item_type self.old.payload) bytes.old (take result self.old.items) }
        ensures left { self.new ≡ collected self.old result }
    {
        let count = most.min(self.taken.len() as u32);
        self.taken.write_first(count as usize, bytes);
        self.taken.skip(count as usize);
        count
    }

    /// Lets it take so many items more, and takes the memory for them.
    pub fn grant_items(&mut self, count: u32) -> Result<(), GrantError>
        ensures { Grants self.old self.new count result }
    {
        if self.is_ended || self.is_closed {
            return Err(GrantError::Ended);
        }
        let most = self.taken.len() + self.credit as usize + count as usize;
        if most > MOST_ITEMS as usize {
            return Err(GrantError::TooMany);
        }
        match self.taken.reserve(self.credit + count) {
            Ok(()) => {}
            Err(_) => return Err(GrantError::OutOfMemory),
        }
        self.credit += count;
        Ok(())
    }

    // Lets it take one item, where it has none. After `OutOfMemory` nothing has changed.
    fn owe_one(&mut self) -> Result<(), OutOfMemory>
        ensures ok { OnOk result (self.new ≡ record self.old { credit = owed self.old }) }
        ensures err { OnErr result (self.new ≡ self.old) }
    {
        if self.taken.len() > 0 {
            return Ok(());
        }
        let credit = self.credit.max(1);
        self.taken.reserve(credit)?;
        self.credit = credit;
        Ok(())
    }

    /// It wants no more. A stream's reader takes none from then on, and answers the next poll by Dropped; that of a
    /// future takes the one item that is owed to it. After `OutOfMemory`, which comes of a future alone, nothing has
    /// changed.
    pub fn finish(&mut self) -> Result<(), OutOfMemory>
        ensures ok { OnOk result (self.new ≡ finished self.old) }
        ensures err { OnErr result (self.new ≡ self.old) }
        ensures out_of_memory { OnErr result (is_future self.old.kind ≡ true) }
    {
        match self.kind {
            TransmitKind::Stream => self.credit = 0,
            TransmitKind::Future => self.owe_one()?,
        }
        self.is_ended = true;
        Ok(())
    }

    // The record of a poll that takes so many items: it answers by what is then left of its credit.
    fn record(&self, offered: u32, since: u32, finish: bool, taken: u32, bad: bool) -> ReaderSaid
        requires { taken ≤ self.now.credit }
        ensures { result ≡ taking_record self.now offered since finish taken bad }
    {
        let credit = self.credit - taken;
        ReaderSaid {
            offered,
            since,
            finish,
            taken,
            bad,
            answer: taking_answer(self.kind, self.is_ended, credit, offered, taken, finish),
        }
    }

    // Keeps so many items that these bytes are, of those that it may take.
    fn keep(&mut self, bytes: &[u8], taken: u32)
        requires all { length bytes.now ≡ item_size (item_type self.old.payload) * taken }
        requires lie { LieIn (item_type self.old.payload) bytes.now 0 taken }
        requires few { taken ≤ self.old.credit }
        ensures { self.new ≡ record self.old {
          items = self.old.items ++ items_in (item_type self.old.payload) bytes.now 0 taken;
          credit = self.old.credit - taken;
        } }
    {
        self.taken.push_reserved(bytes, taken);
        self.credit -= taken;
    }

    /// One poll: its record. It takes what it was granted, up to an item that is none. It takes no memory where its
    /// record before was forgotten; after `OutOfMemory` nothing has changed.
    pub fn take_from(&mut self, offer: &mut Offer, finish: bool) -> Result<ReaderSaid, OutOfMemory>
        requires payload { offer.old.payload ≡ self.old.payload }
        requires nothing_taken { offer.old.taken ≡ 0 }
        requires not_bad { offer.old.bad ≡ false }
        ensures takes { IfOk result
            (λ said. Takes self.old self.new offer.old offer.new finish said.answer) }
        ensures said { IfOk result
            (λ said. said ≡ reader_record offer.old offer.new finish said.answer) }
        ensures counted { OnOk result (offer.new.taken ≡ length
            (first_lent (item_type offer.old.payload) offer.old.source offer.new.taken)) }
        ensures most { OnOk result (offer.new.taken ≤ items_lent offer.old.source) }
        ensures next { OnOk result (offer.new.bad ≡ true →
            IsBadNext (item_type offer.old.payload) offer.old.source offer.new.taken) }
        ensures err { OnErr result (self.new ≡ self.old) }
        ensures untaken { OnErr result (offer.new ≡ offer.old) }
        ensures takes_no_memory { self.old.said ≡ [] → IsOk result }
    {
        self.said.reserve()?;
        let (offered, since) = (offer.remaining(), offer.since());
        take_up_to(offer, self.credit);
        let taken = offer.taken();
        let said = self.record(offered, since, finish, taken, offer.bad());
        self.said.push_reserved(said);
        self.keep(offer.taken_bytes(), taken);
        Ok(said)
    }

    /// One poll of so many items that lie in a write's own bytes from a place on, so many being taken since it was
    /// ready: its record. It takes what it was granted of the good ones at the front, by one copy, and asks for none
    /// that is bad. It takes no memory where its record before was forgotten; after `OutOfMemory` nothing has changed.
    pub fn take_good(
        &mut self,
        bytes: &[u8],
        from: usize,
        offered: u32,
        since: u32,
        finish: bool,
    ) -> Result<ReaderSaid, OutOfMemory>
        requires { from + item_size (item_type self.old.payload) * offered ≤ length bytes.now }
        ensures takes { IfOk result
            (TakesGood self.old self.new bytes.now from offered since finish) }
        ensures counted { IfOk result (λ said. said.taken
            ≡ length (items_in (item_type self.old.payload) bytes.now from said.taken)) }
        ensures most { IfOk result (λ said. said.taken ≤ offered) }
        ensures err { OnErr result (self.new ≡ self.old) }
        ensures takes_no_memory { self.old.said ≡ [] → IsOk result }
    {
        self.said.reserve()?;
        let most = offered.min(self.credit);
        let (front, taken) = good_front(bytes, from, &self.taken.payload(), most);
        let said = self.record(offered, since, finish, taken, false);
        self.said.push_reserved(said);
        self.keep(front, taken);
        Ok(said)
    }

    /// Its records are forgotten. No memory is given back.
    pub fn forget(&mut self)
        ensures { self.new ≡ reader_forgotten self.old }
    {
        self.said.clear();
    }
}

impl HostReader for ReadyReader {
    ghost use Rattle.std.specs.Prelude.{◌≢◌};
    ghost use Rattle.strm_buffers.specs.Said.{IfAnswered, IfNoMemory};
    ghost use Rattle.strm_buffers.specs.Tells.{PollsReader, KeepsReader, SameOffer, reader_tells_closed, reader_granted};
    ghost use Rattle.strm_ready_ends.specs.ReceiveQueues.{ready_reader_tells, reader_shut};

    ghost reader_tells = { ready_reader_tells };

    fn kind(&self) -> TransmitKind {
        self.kind
    }

    fn payload(&self) -> Payload {
        self.taken.payload()
    }

    fn poll(&mut self, offer: &mut Offer, finish: bool) -> HostTurn
        requires payload { offer.old.payload ≡ (ready_reader_tells self.old).payload }
        requires nothing_taken { offer.old.taken ≡ 0 }
        requires not_bad { offer.old.bad ≡ false }
        ensures polls { IfAnswered result (λ answer.
            PollsReader (ready_reader_tells self.old) (ready_reader_tells self.new)
            (reader_record offer.old offer.new finish answer)
            (first_lent (item_type offer.old.payload) offer.old.source offer.new.taken)) }
        ensures no_memory { IfNoMemory result
            (KeepsReader (ready_reader_tells self.old) (ready_reader_tells self.new)) }
        ensures untaken { IfNoMemory result (offer.new.taken ≡ 0) }
        ensures next { offer.new.bad ≡ true →
            IsBadNext (item_type offer.old.payload) offer.old.source offer.new.taken }
        ensures same { SameOffer offer.old offer.new }

        // It takes what it was granted, up to an item that is none, and answers by what is left of that. It takes no
        // memory where its record before was forgotten.
        ensures takes { IfAnswered result (Takes self.old self.new offer.old offer.new finish) }
        ensures same_queue { IfNoMemory result (self.new ≡ self.old) }
        ensures answered { IfNoMemory result (self.old.said ≢ []) }
    {
        match self.take_from(offer, finish) {
            Ok(said) => said.answer.turn(),
            Err(_) => Turn::NoMemory,
        }
    }

    fn grant(&mut self, _count: u32) -> Result<(), OutOfMemory>
        ensures ok { OnOk result
            (ready_reader_tells self.new ≡ reader_granted (ready_reader_tells self.old) _count) }
        ensures err { OnErr result (ready_reader_tells self.new ≡ ready_reader_tells self.old) }

        // It does not hear it.
        ensures same_queue { self.new ≡ self.old }
    {
        Ok(())
    }

    fn close(&mut self)
        ensures closes { ready_reader_tells self.new
            ≡ reader_tells_closed (ready_reader_tells self.old) }

        // What it took stays, to be collected.
        ensures shuts { self.new ≡ reader_shut self.old }
    {
        self.is_closed = true;
    }

    fn records(&self) -> usize {
        self.said.len()
    }

    fn record_at(&self, index: usize) -> ReaderSaid {
        self.said.get(index)
    }
}
