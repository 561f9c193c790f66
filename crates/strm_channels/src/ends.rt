//! The handles of a stream's ends, given and freed.
//!
//! Meaning: `Making.antt` and `Moves.antt` of `strm_machine`. Source: Canonical ABI,
//! `canon stream.new`, `lift_stream` and `lower_stream`; the room that is taken before the first
//! insert is ours.

ghost use Rattle.std.specs.Prelude.{◌≡◌, ◌≢◌, Ok, ◌+◌, ◌^◌, ◌<◌, ◌≤◌, ℕ, length, IsOk, IfOk, OnOk, OnErr};
ghost use Rattle.strm_handles.specs.Handles.{next_index, inserted, live_of};
ghost use Rattle.strm_handles.specs.Changes.{Inserts};
ghost use Rattle.strm_handles.specs.Counters.{counted};
ghost use Rattle.strm_handles.specs.Lookups.{end_rep_of};
ghost use Rattle.strm_machine.specs.State.{guest_in};
ghost use Rattle.strm_machine.specs.Making.{end_entry, with_read_end, with_ends};
ghost use Rattle.strm_channels.specs.Changes.{AddsHandle, GivesHandle, GivesEnds, FreesHandle, MovesEnd, without_end};
ghost use Rattle.strm_channels.specs.Guests.{guests_of, room_in_table, live_in, with_end_in, without_handle_in, removable};

use crate::guests::Guest;
use strm_codes::codes::TransmitIndex;
use strm_codes::counts::OutOfMemory;
use strm_handles::counters::HandleCounter;
use strm_handles::errors::HandleError;
use strm_handles::tables::HandleTable;
use strm_machine::acts::NamedEnd;
use strm_machine::streams::Side;

#[inline(always)]
fn try_insert(
    table: &mut HandleTable,
    counter: &mut HandleCounter,
    side: Side,
    ty: TransmitIndex,
    stream: u32,
) -> Result<u32, HandleError>
    ensures { Inserts table.old table.new counter.old counter.new (end_entry side ty stream)
        result }
{
    match (side, ty) {
        (Side::Writing, TransmitIndex::Stream(payload)) => {
            table.stream_insert_write(counter, payload, stream)
        }
        (Side::Reading, TransmitIndex::Stream(payload)) => {
            table.stream_insert_read(counter, payload, stream)
        }
        (Side::Writing, TransmitIndex::Future(payload)) => {
            table.future_insert_write(counter, payload, stream)
        }
        (Side::Reading, TransmitIndex::Future(payload)) => {
            table.future_insert_read(counter, payload, stream)
        }
    }
}

// An end's handle, in a table that has room for it.
#[inline(always)]
fn insert(
    table: &mut HandleTable,
    counter: &mut HandleCounter,
    side: Side,
    ty: TransmitIndex,
    stream: u32,
) -> u32
    requires room { 0 < table.old.room }
    requires small { next_index table.old.handles < 2 ^ 28 }
    requires below { counter.old.live < counter.old.limit }
    ensures number { result ≡ next_index table.old.handles }
    ensures handles { table.new.handles ≡ inserted table.old.handles (end_entry side ty stream) }
    ensures counter { counter.new ≡ counted counter.old }
    ensures room { table.old.room ≤ table.new.room + 1 }
    ensures live { live_of table.new.handles ≡ live_of table.old.handles + 1 }
{
    table.sound();
    try_insert(table, counter, side, ty, stream).unwrap()
}

// Room for so many handles in a guest's table.
#[inline(always)]
pub(crate) fn reserve(guests: &mut Vec<Guest>, guest: usize, needed: u32) -> Result<(), OutOfMemory>
    requires { guest < length guests.old.items }
    ensures seen { guests_of guests.new.items ≡ guests_of guests.old.items }
    ensures count { length guests.new.items ≡ length guests.old.items }
    ensures room { OnOk result (needed ≤ room_in_table guests.new.items guest) }
    ensures rooms { (n : ℕ) → room_in_table guests.old.items n ≤ room_in_table guests.new.items n }
{
    match guests[guest].table.reserve(needed) {
        Ok(()) => Ok(()),
        Err(_) => Err(OutOfMemory),
    }
}

// An end's handle, in the table of a guest that has room for it.
#[inline(always)]
fn insert_end(
    guests: &mut Vec<Guest>,
    counter: &mut HandleCounter,
    guest: usize,
    side: Side,
    ty: TransmitIndex,
    stream: u32,
) -> u32
    requires there { guest < length guests.old.items }
    requires room { 0 < room_in_table guests.old.items guest }
    requires small { next_index (guest_in (guests_of guests.old.items) guest).handles < 2 ^ 28 }
    requires below { counter.old.live < counter.old.limit }
    ensures adds { AddsHandle (guests_of guests.old.items) (guests_of guests.new.items)
        (with_end_in (guests_of guests.old.items) guest side ty stream) guest
        counter.old counter.new result }
    ensures rooms { (n : ℕ) →
        room_in_table guests.old.items n ≤ room_in_table guests.new.items n + 1 }
    ensures others { (n : ℕ) → n ≢ guest
        → room_in_table guests.new.items n ≡ room_in_table guests.old.items n }
    ensures count { length guests.new.items ≡ length guests.old.items }
{
    insert(&mut guests[guest].table, counter, side, ty, stream)
}

// How many handles of a new stream's ends each guest gets: both, where it is one guest.
#[inline(always)]
fn handles_each(writer: usize, reader: usize) -> u32
    ensures both { writer ≡ reader → 2 ≤ result }
    ensures some { 1 ≤ result }
{
    if writer == reader { 2 } else { 1 }
}

/// The handles of a new stream's ends in two guests' tables, the read end's first: answers their
/// numbers, the read end's first. After running out of memory nothing has changed.
#[inline(always)]
pub fn insert_ends(
    guests: &mut Vec<Guest>,
    counter: &mut HandleCounter,
    writer: usize,
    reader: usize,
    ty: TransmitIndex,
    stream: u32,
) -> Result<(u32, u32), OutOfMemory>
    requires writer { writer < length guests.old.items }
    requires reader { reader < length guests.old.items }
    requires read { next_index (guest_in (guests_of guests.old.items) reader).handles < 2 ^ 28 }
    requires write { next_index
        (guest_in (with_read_end (guests_of guests.old.items) reader ty stream) writer).handles
        < 2 ^ 28 }
    requires below { counter.old.live + 2 ≤ counter.old.limit }
    ensures gives { GivesEnds (guests_of guests.old.items) (guests_of guests.new.items)
        writer reader ty stream counter.old counter.new result }
    ensures count { length guests.new.items ≡ length guests.old.items }
{
    // The borrow checker takes a type but once.
    let same = ty;
    let each = handles_each(writer, reader);
    reserve(guests, reader, each)?;
    reserve(guests, writer, each)?;
    let read = insert_end(guests, counter, reader, Side::Reading, ty, stream);
    let write = insert_end(guests, counter, writer, Side::Writing, same, stream);
    Ok((read, write))
}

/// Frees the handle of an end in its guest's table; it leaves the set that it is in.
#[inline(always)]
pub fn remove_end(guests: &mut Vec<Guest>, counter: &mut HandleCounter, end: &NamedEnd)
    requires there { end.now.guest < length guests.old.items }
    requires end { IsOk (end_rep_of
        (guest_in (guests_of guests.old.items) end.now.guest).handles end.now.handle) }
    requires live { live_in (guests_of guests.old.items) ≤ counter.old.live }
    ensures frees { FreesHandle (guests_of guests.old.items) (guests_of guests.new.items)
        (without_end (guests_of guests.old.items) end.now) counter.old counter.new }
    ensures room { 0 < room_in_table guests.new.items end.now.guest }
    ensures rooms { (n : ℕ) → room_in_table guests.old.items n ≤ room_in_table guests.new.items n }
    ensures count { length guests.new.items ≡ length guests.old.items }
{
    let guest = &mut guests[end.guest as usize];
    guest.table.end_remove(counter, end.handle);
    guest.sets.leave(end.handle);
}

/// The handle of an end in a guest's table: answers its number. After running out of memory nothing has
/// changed.
pub fn give_end(
    guests: &mut Vec<Guest>,
    counter: &mut HandleCounter,
    guest: usize,
    side: Side,
    ty: TransmitIndex,
    stream: u32,
) -> Result<u32, OutOfMemory>
    requires there { guest < length guests.old.items }
    requires small { next_index (guest_in (guests_of guests.old.items) guest).handles < 2 ^ 28 }
    requires below { counter.old.live < counter.old.limit }
    ensures gives { GivesHandle (guests_of guests.old.items) (guests_of guests.new.items)
        (with_end_in (guests_of guests.old.items) guest side ty stream) guest
        counter.old counter.new result }
    ensures count { length guests.new.items ≡ length guests.old.items }
{
    reserve(guests, guest, 1)?;
    Ok(insert_end(guests, counter, guest, side, ty, stream))
}

// Room for a handle that one guest gives up and another gets; within one guest the room that is given
// up serves.
fn reserve_move(guests: &mut Vec<Guest>, from: usize, to: usize) -> Result<(), OutOfMemory>
    requires { to < length guests.old.items }
    ensures seen { guests_of guests.new.items ≡ guests_of guests.old.items }
    ensures count { length guests.new.items ≡ length guests.old.items }
    ensures room { OnOk result (from ≢ to → 0 < room_in_table guests.new.items to) }
    ensures within { from ≡ to → result ≡ Ok tt }
{
    if from == to {
        return Ok(());
    }
    reserve(guests, to, 1)
}

/// Frees the handle of an end that its guest's table shows idle, and gives the end one in another
/// guest's table, or in the same: answers its number. As many handles are live as before. After
/// running out of memory, which cannot be within one guest, nothing has changed.
pub fn move_end(
    guests: &mut Vec<Guest>,
    counter: &mut HandleCounter,
    side: Side,
    end: &NamedEnd,
    to: usize,
    stream: u32,
) -> Result<u32, OutOfMemory>
    requires from { end.now.guest < length guests.old.items }
    requires to { to < length guests.old.items }
    requires idle { removable side end.now.ty
        (guest_in (guests_of guests.old.items) end.now.guest).handles end.now.handle ≡ Ok tt }
    requires small { next_index
        (guest_in (without_end (guests_of guests.old.items) end.now) to).handles < 2 ^ 28 }
    requires live { live_in (guests_of guests.old.items) ≤ counter.old.live }
    requires limit { counter.old.live ≤ counter.old.limit }
    ensures moves { MovesEnd (guests_of guests.old.items) (guests_of guests.new.items)
        side end.now to stream counter.old counter.new result }
    ensures within { end.now.guest ≡ to → IsOk result }
    ensures count { length guests.new.items ≡ length guests.old.items }
{
    reserve_move(guests, end.guest as usize, to)?;
    remove_end(guests, counter, end);
    Ok(insert_end(guests, counter, to, side, end.ty, stream))
}
