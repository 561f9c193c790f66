//! A stream as the store keeps it: each end's part of it is who has the end, where the next item of
//! its operation lies, and its cell.
//!
//! Meaning: `Channels.antt`, and `Sides.antt`, `Meetings.antt` and `Endings.antt` of `strm_machine`.
//! Source: wasmtime, `futures_and_streams.rs`, `TransmitState`. A clause sees a channel as the
//! machine's stream, of which the cells are no part of their own.

ghost use Rattle.std.specs.Prelude.{◌≡◌, ◌+◌, ◌-◌, ◌*◌, ◌^◌, ◌<◌, ◌≤◌, ◌||◌, true, false, None, Some, is_some, IsSomeAnd};
ghost use Rattle.std.specs.Option.{option_map};
ghost use Rattle.strm_codes.specs.Counts.{count_limit};
ghost use Rattle.strm_codes.specs.Layout.{item_type};
ghost use Rattle.strm_codes.specs.ItemTypes.{item_size};
ghost use Rattle.strm_machine.specs.State.{is_gone, idle_end};
ghost use Rattle.strm_machine.specs.Sides.{end_of, with_end, with_operation};
ghost use Rattle.strm_machine.specs.Meetings.{begun, advanced};
ghost use Rattle.strm_machine.specs.Moves.{with_owner};
ghost use Rattle.strm_machine.specs.Operating.{is_future, with_received};
ghost use Rattle.strm_machine.specs.Endings.{report_on, delivered, cancelled_end, told_end};
ghost use Rattle.strm_codes.specs.declared.codes.ReturnCode.TheVariants.{Blocked};
ghost use Rattle.strm_events.specs.Cells.{new_cell, kept_report, may_meet, moved_so_far};
ghost use Rattle.strm_channels.specs.Channels.{end_of_part, cell_of, IsKeptIn, operation_gone_on, came_out, without_report};

use std::marker::Model;
use strm_codes::codes::{ReturnCode, StreamResult, TransmitKind};
use strm_codes::counts::ItemCount;
use strm_codes::payloads::Payload;
use strm_events::cells::EventCell;
use strm_events::reports::Pending;
use strm_machine::streams::{Operation, Owner, Side};

/// Where the next item of an operation lies, or is to lie, and how many are still to move.
#[derive(Clone, Copy)]
pub(crate) struct Place {
    pub(crate) guest: u32,
    pub(crate) address: u32,
    pub(crate) left: ItemCount,
}

/// One end of a channel. Without an operation its place says nothing.
#[derive(Drop)]
pub(crate) struct Part {
    pub(crate) owner: Owner,
    pub(crate) place: Place,
    pub(crate) cell: EventCell,
}

/// A stream, or what is left of one whose both ends are gone.
#[derive(Drop)]
pub struct Channel {
    payload: Payload,
    writer: Part,
    reader: Part,
    received: u128,
}

impl Model for Channel {
    ghost use Rattle.strm_machine.specs.declared.streams.Stream.{Stream};

    ghost Value = { Stream };

    ghost use Rattle.strm_channels.specs.Channels.{stream_of, AreCellsTied};

    ghost view = { stream_of };

    ghost invariant = { λ c. AreCellsTied c.writer c.reader };
}

// An end that has no operation and was not told.
#[inline(always)]
fn idle_part(kind: TransmitKind, owner: Owner) -> Part
    ensures owner { result.owner ≡ owner }
    ensures cell { result.cell ≡ new_cell kind }
{
    Part {
        owner,
        place: Place {
            guest: 0,
            address: 0,
            left: ItemCount::ZERO,
        },
        cell: EventCell::new(kind),
    }
}

// The operation of an end.
#[inline(always)]
fn operation_in(part: &Part) -> Option<Operation>
    ensures { result ≡ (end_of_part part.now).operation }
{
    match part.cell.pending() {
        Some(pending) => Some(Operation {
            guest: part.place.guest,
            address: part.place.address,
            left: part.place.left,
            moved: pending.moved,
            is_open: pending.is_open,
            met: pending.met,
            asked: pending.asked,
            outcome: pending.outcome,
        }),
        None => None,
    }
}

// A read or write of an end is called.
#[inline(always)]
fn begin_in(part: &mut Part, guest: u32, address: u32, count: ItemCount)
    requires idle { part.old.cell.pending ≡ None }
    ensures end { end_of_part part.new ≡ record (end_of_part part.old) {
      operation = Some (begun guest address count);
    } }
    ensures kept { IsKeptIn part.old part.new }
{
    part.place = Place {
        guest,
        address,
        left: count,
    };
    part.cell.begin();
}

// So many items of an open operation moved: its place is behind them.
#[inline(always)]
fn advance_place(place: &mut Place, payload: Payload, count: ItemCount)
    requires left { count ≤ place.old.left }
    requires room { place.old.address + item_size (item_type payload) * count < 2 ^ 32 }
    ensures { place.new ≡ record place.old {
      address = place.old.address + item_size (item_type payload) * count;
      left = place.old.left - count;
    } }
{
    place.address += payload.size() * count.as_u32();
    place.left = place.left.sub(count);
}

// The waiting operation of an end met the other side.
#[inline(always)]
fn advance_in(part: &mut Part, payload: Payload, count: ItemCount)
    requires open { may_meet part.old.cell.pending ≡ true }
    requires left { count ≤ part.old.place.left }
    requires counted { moved_so_far part.old.cell.pending + count < count_limit }
    requires room { part.old.place.address + item_size (item_type payload) * count < 2 ^ 32 }
    ensures end { end_of_part part.new ≡ record (end_of_part part.old) {
      operation = option_map (λ operation. advanced payload operation count)
          (end_of_part part.old).operation;
    } }
    ensures kept { IsKeptIn part.old part.new }
{
    advance_place(&mut part.place, payload, count);
    let is_open = part.place.left.as_u32() > 0;
    part.cell.met(count, is_open);
}

// So many items of the open operation of an end came from a host end, or went to it.
#[inline(always)]
fn progress_in(part: &mut Part, payload: Payload, count: ItemCount)
    requires open { may_meet part.old.cell.pending ≡ true }
    requires left { count ≤ part.old.place.left }
    requires counted { moved_so_far part.old.cell.pending + count < count_limit }
    requires room { part.old.place.address + item_size (item_type payload) * count < 2 ^ 32 }
    ensures end { end_of_part part.new ≡ record (end_of_part part.old) {
      operation = option_map (λ operation. operation_gone_on payload operation count)
          (end_of_part part.old).operation;
    } }
    ensures kept { IsKeptIn part.old part.new }
{
    advance_place(&mut part.place, payload, count);
    part.cell.progress(count);
}

// An end is told its report, if it has one.
#[inline(always)]
fn take_in(part: &mut Part) -> Option<ReturnCode>
    ensures code { result ≡ kept_report part.old.cell }
    ensures end { end_of_part part.new
        ≡ told_end (kept_report part.old.cell) (end_of_part part.old) }
    ensures kept { IsKeptIn part.old part.new }
{
    part.cell.take()
}

// The end of a part has another owner, which the other end's cell knows.
#[inline(always)]
fn own_in(part: &mut Part, other: &mut EventCell, owner: Owner)
    ensures part { part.new ≡ record part.old { owner = owner } }
    ensures other { other.new ≡ record other.old { other_gone = is_gone owner } }
{
    part.owner = owner;
    other.set_other_gone(owner == Owner::Gone);
}

impl Channel {
    /// A stream that has just been made; both ends are there.
    #[inline(always)]
    pub fn new(kind: TransmitKind, payload: Payload, writer: Owner, reader: Owner) -> Channel
        requires writer { is_gone writer ≡ false }
        requires reader { is_gone reader ≡ false }
        ensures { result ≡ record {
          kind = kind;
          payload = payload;
          passed = false;
          writer = idle_end writer;
          reader = idle_end reader;
          received = 0;
        } }
    {
        Channel {
            payload,
            writer: idle_part(kind, writer),
            reader: idle_part(kind, reader),
            received: 0,
        }
    }

    /// Whether it is a stream or a future.
    #[inline(always)]
    pub fn kind(&self) -> TransmitKind
        ensures { result ≡ self.now.kind }
    {
        self.writer.cell.kind()
    }

    /// What its items are.
    #[inline(always)]
    pub fn payload(&self) -> Payload
        ensures { result ≡ self.now.payload }
    {
        self.payload
    }

    /// Whether a future's value passed.
    #[inline(always)]
    pub fn passed(&self) -> bool
        ensures { result ≡ self.now.passed }
    {
        self.writer.cell.passed()
    }

    /// Items received since it was made; it stays at 2^128 - 1 once there.
    #[inline(always)]
    pub fn received(&self) -> u128
        ensures { result ≡ self.now.received }
    {
        self.received
    }

    /// Who has the end on a side.
    #[inline(always)]
    pub fn owner(&self, side: Side) -> Owner
        ensures { result ≡ (end_of side self.now).owner }
    {
        match side {
            Side::Writing => self.writer.owner,
            Side::Reading => self.reader.owner,
        }
    }

    /// Whether the end on a side was told that the other one is gone.
    #[inline(always)]
    pub fn told(&self, side: Side) -> bool
        ensures { result ≡ (end_of side self.now).told }
    {
        match side {
            Side::Writing => self.writer.cell.told(),
            Side::Reading => self.reader.cell.told(),
        }
    }

    /// The operation of the end on a side.
    #[inline(always)]
    pub fn operation(&self, side: Side) -> Option<Operation>
        ensures { result ≡ (end_of side self.now).operation }
    {
        match side {
            Side::Writing => operation_in(&self.writer),
            Side::Reading => operation_in(&self.reader),
        }
    }

    /// Lends the cell of the end on a side.
    #[inline(always)]
    pub fn cell(&self, side: Side) -> &EventCell
        ensures { result.now ≡ cell_of side self.now }
    {
        match side {
            Side::Writing => &self.writer.cell,
            Side::Reading => &self.reader.cell,
        }
    }

    /// What the end on a side is to be told, if anything.
    #[inline(always)]
    pub fn report(&self, side: Side) -> Option<ReturnCode>
        ensures { result ≡ report_on side self.now }
    {
        self.cell(side).code().copied()
    }

    /// A read or write is called at the end on a side.
    #[inline(always)]
    pub fn begin(&mut self, side: Side, guest: u32, address: u32, count: ItemCount)
        requires idle { (end_of side self.old).operation ≡ None }
        ensures { self.new ≡ with_operation side self.old (begun guest address count) }
    {
        match side {
            Side::Writing => begin_in(&mut self.writer, guest, address, count),
            Side::Reading => begin_in(&mut self.reader, guest, address, count),
        }
    }

    /// The waiting operation of the end on a side met the other side, and so many items, which are of
    /// the stream's payload, moved. Apart, since it stands for both sides: what is inlined with it would
    /// grow past what the compiler inlines.
    #[inline(never)]
    pub fn advance(&mut self, side: Side, payload: &Payload, count: ItemCount)
        requires payload { payload.now ≡ self.old.payload }
        requires open { IsSomeAnd (end_of side self.old).operation (λ operation.
            operation.is_open ≡ true) }
        requires left { IsSomeAnd (end_of side self.old).operation (λ operation.
            count ≤ operation.left) }
        requires counted { IsSomeAnd (end_of side self.old).operation (λ operation.
            operation.moved + count < count_limit) }
        requires room { IsSomeAnd (end_of side self.old).operation (λ operation.
            operation.address + item_size (item_type self.old.payload) * count < 2 ^ 32) }
        ensures { self.new ≡ with_end side self.old (record (end_of side self.old) {
          operation = option_map (λ operation. advanced self.old.payload operation count)
              (end_of side self.old).operation;
        }) }
    {
        match side {
            Side::Writing => advance_in(&mut self.writer, *payload, count),
            Side::Reading => advance_in(&mut self.reader, *payload, count),
        }
    }

    /// The waiting operation of the end on a side met the other side, and no item moved. Apart from the
    /// code of those where some do.
    #[inline(never)]
    pub(crate) fn advance_by_none(&mut self, side: Side)
        requires open { IsSomeAnd (end_of side self.old).operation (λ operation.
            operation.is_open ≡ true) }
        requires counted { IsSomeAnd (end_of side self.old).operation (λ operation.
            operation.moved < count_limit) }
        requires room { IsSomeAnd (end_of side self.old).operation (λ operation.
            operation.address < 2 ^ 32) }
        ensures { self.new ≡ with_end side self.old (record (end_of side self.old) {
          operation = option_map (λ operation. advanced self.old.payload operation 0)
              (end_of side self.old).operation;
        }) }
    {
        let payload = self.payload;
        self.advance(side, &payload, ItemCount::ZERO);
    }

    /// So many items of the open operation on a side came from a host end, or went to it.
    #[inline(always)]
    pub fn progress(&mut self, side: Side, count: ItemCount)
        requires open { IsSomeAnd (end_of side self.old).operation (λ operation.
            operation.is_open ≡ true) }
        requires left { IsSomeAnd (end_of side self.old).operation (λ operation.
            count ≤ operation.left) }
        requires counted { IsSomeAnd (end_of side self.old).operation (λ operation.
            operation.moved + count < count_limit) }
        requires room { IsSomeAnd (end_of side self.old).operation (λ operation.
            operation.address + item_size (item_type self.old.payload) * count < 2 ^ 32) }
        ensures { self.new ≡ with_end side self.old (record (end_of side self.old) {
          operation = option_map (λ operation. operation_gone_on self.old.payload operation count)
              (end_of side self.old).operation;
        }) }
    {
        let payload = self.payload;
        match side {
            Side::Writing => progress_in(&mut self.writer, payload, count),
            Side::Reading => progress_in(&mut self.reader, payload, count),
        }
    }

    /// The open operation on a side came out so.
    #[inline(always)]
    pub fn settle(&mut self, side: Side, outcome: StreamResult)
        requires open { IsSomeAnd (end_of side self.old).operation (λ operation.
            operation.is_open ≡ true) }
        ensures { self.new ≡ with_end side self.old (record (end_of side self.old) {
          operation = option_map (came_out outcome) (end_of side self.old).operation;
        }) }
    {
        match side {
            Side::Writing => self.writer.cell.settle(outcome),
            Side::Reading => self.reader.cell.settle(outcome),
        }
    }

    /// The operation on a side waits from now on for the host end on the other side to finish.
    #[inline(always)]
    pub fn ask(&mut self, side: Side)
        requires busy { is_some (end_of side self.old).operation ≡ true }
        ensures { self.new
            ≡ with_end side self.old (cancelled_end true Blocked (end_of side self.old)) }
    {
        match side {
            Side::Writing => self.writer.cell.ask(),
            Side::Reading => self.reader.cell.ask(),
        }
    }

    /// The report of the operation on a side is withdrawn; what was moved stays.
    #[inline(always)]
    pub fn withdraw(&mut self, side: Side)
        requires busy { is_some (end_of side self.old).operation ≡ true }
        ensures { self.new ≡ with_end side self.old (record (end_of side self.old) {
          operation = option_map without_report (end_of side self.old).operation;
        }) }
    {
        match side {
            Side::Writing => self.writer.cell.withdraw(),
            Side::Reading => self.reader.cell.withdraw(),
        }
    }

    /// The operation on a side ends.
    #[inline(always)]
    pub fn end(&mut self, side: Side)
        ensures { self.new ≡ with_end side self.old (record (end_of side self.old) {
          operation = None;
        }) }
    {
        match side {
            Side::Writing => self.writer.cell.end(),
            Side::Reading => self.reader.cell.end(),
        }
    }

    /// The end on a side learns that the other one is gone.
    #[inline(never)]
    pub fn learn(&mut self, side: Side)
        ensures { self.new
            ≡ with_end side self.old (record (end_of side self.old) { told = true }) }
    {
        match side {
            Side::Writing => self.writer.cell.tell(),
            Side::Reading => self.reader.cell.tell(),
        }
    }

    /// Tells the end on a side its report, if it has one; its operation has ended then.
    #[inline(always)]
    #[tactic(auto, unfolding(strm_machine::specs::Endings::delivered))]
    pub fn deliver(&mut self, side: Side) -> Option<ReturnCode>
        ensures code { result ≡ report_on side self.old }
        ensures stream { self.new ≡ delivered side self.old }
    {
        match side {
            Side::Writing => take_in(&mut self.writer),
            Side::Reading => take_in(&mut self.reader),
        }
    }

    // A future's value has passed. Apart from the code of streams.
    #[inline(never)]
    fn pass(&mut self)
        ensures { self.new ≡ record self.old { passed = true } }
    {
        self.writer.cell.pass();
        self.reader.cell.pass();
    }

    /// So many items more were received; a future's value has passed then.
    #[inline(always)]
    pub fn receive(&mut self, count: u32)
        ensures { self.new ≡ with_received self.old count }
    {
        if self.kind() == TransmitKind::Future {
            self.pass();
        }
        self.received = self.received.saturating_add(u128::from(count));
    }

    /// The end on a side has another owner from now on.
    #[inline(always)]
    pub fn set_owner(&mut self, side: Side, owner: Owner)
        ensures { self.new ≡ with_owner side self.old owner }
    {
        match side {
            Side::Writing => own_in(&mut self.writer, &mut self.reader.cell, owner),
            Side::Reading => own_in(&mut self.reader, &mut self.writer.cell, owner),
        }
    }
}
