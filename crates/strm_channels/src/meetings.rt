//! What one read or write does to its stream and to the guests.
//!
//! Meaning: `Turns.antt` and `Meetings.antt` of `strm_machine`. Source: Component Model, "Stream
//! Readiness"; wasmtime, `guest_write` and `guest_read`, which are one function here.

ghost use Rattle.std.specs.Prelude.{◌≡◌, ◌≢◌, ◌+◌, ◌-◌, ◌*◌, ◌^◌, ◌<◌, ◌≤◌, List, true, length, min, Some, None, Ok, OnOk, OnErr};
ghost use Rattle.strm_codes.specs.Layout.{item_type};
ghost use Rattle.strm_codes.specs.ItemTypes.{item_size};
ghost use Rattle.strm_machine.specs.Sides.{opposite, end_of, with_end, with_operation, write_of, read_of};
ghost use Rattle.strm_machine.specs.Tests.{is_open_of};
ghost use Rattle.strm_machine.specs.State as machine;
ghost use Rattle.strm_machine.specs.State.{memory_in};
ghost use Rattle.strm_memory.specs.Linear.{with_contents};
ghost use Rattle.strm_memory.specs.Region.{is_out_of_bounds};
ghost use Rattle.strm_memory.specs.Items.{items_at, stored_at, is_number_or_none};
ghost use Rattle.std.specs.Prelude.{IsTrue, IsSomeAnd};
ghost use Rattle.std.specs.Prelude.{false};
ghost use Rattle.strm_machine.specs.Meetings.{begun, advanced, meeting_of, carried};
ghost use Rattle.strm_machine.specs.Operating.{with_received, answers, completes_alone, moves, rendezvous, operate};
ghost use Rattle.strm_machine.specs.Soundness.{sizes_of, AreSmall, IsPlaced, StreamIsPlaced};
ghost use Rattle.strm_channels.specs.Guests.{guests_of};
ghost use Rattle.strm_channels.specs.Meetings.{Waits, Carries, meeting_answered};

use crate::channels::Channel;
use crate::guests::{Guest, put_memory, receive_between, take_memory};
use crate::sides::{opposite, read_of, same_side, write_of};
use std::alloc::Global;
use strm_codes::codes::{ReturnCode, StreamResult};
use strm_codes::counts::ItemCount;
use strm_codes::payloads::Payload;
use strm_machine::streams::{Meeting, Operation, Owner, Side};
use strm_memory::copies::BadItem;
use strm_memory::memories::GuestMemory;
use strm_memory::moves::copy_within_items;

/// A read or write of so many items that is just called.
#[inline(always)]
pub fn begin(guest: u32, address: u32, count: ItemCount) -> Operation
    ensures { result ≡ begun guest address count }
{
    Operation {
        guest,
        address,
        left: count,
        moved: ItemCount::ZERO,
        is_open: true,
        met: false,
        asked: false,
        outcome: StreamResult::Completed,
    }
}

#[inline(always)]
fn meeting(write: ItemCount, read: ItemCount) -> Meeting
    ensures { result ≡ meeting_of write read }
{
    if write.equals_u32(0) {
        Meeting::WriteCompletes
    } else if read.equals_u32(0) {
        Meeting::ReadCompletes
    } else {
        Meeting::BothComplete
    }
}

// A read or write begins behind one that completed alone, apart from the code of those that wait at once.
#[inline(never)]
fn begin_behind(stream: &mut Channel, side: Side, guest: u32, address: u32, count: ItemCount)
    requires idle { (end_of side stream.old).operation ≡ None }
    ensures { stream.new ≡ with_operation side stream.old (begun guest address count) }
{
    stream.begin(side, guest, address, count);
}

// A side completes alone. Inlined, as what follows, so that operations stay in registers.
#[inline(always)]
fn complete_alone(
    stream: &mut Channel,
    who: Side,
    side: Side,
    mine: Operation,
    theirs: Operation,
) -> ReturnCode
    requires idle { (end_of side stream.old).operation ≡ None }
    requires begun { mine ≡ begun mine.guest mine.address mine.left }
    requires waits { Waits (opposite side) stream.old theirs }
    requires counted { theirs.moved < 2 ^ 28 }
    requires room { theirs.address < 2 ^ 32 }
    ensures { (guests : List machine.Guest) →
        completes_alone who side guests stream.old mine theirs ≡ answers result guests stream.new }
{
    if same_side(who, side) {
        return ReturnCode::completed(stream.kind(), ItemCount::ZERO);
    }
    stream.advance_by_none(opposite(side));
    begin_behind(stream, side, mine.guest, mine.address, mine.left);
    ReturnCode::Blocked
}

#[inline(always)]
fn lesser(one: ItemCount, other: ItemCount) -> ItemCount
    ensures { result ≡ min one other }
{
    if one.as_u32() < other.as_u32() {
        one
    } else {
        other
    }
}

// Items move within the memory of one guest.
#[inline(always)]
fn carry_within(
    alloc: Global,
    guests: &mut Vec<Guest>,
    payload: Payload,
    write: &Operation,
    read: &Operation,
    count: ItemCount,
)
    requires same { write.now.guest ≡ read.now.guest }
    requires there { read.now.guest < length guests.old.items }
    requires numbers { IsTrue (is_number_or_none payload) }
    requires source { write.now.address + item_size (item_type payload) * count
        ≤ length (memory_in (guests_of guests.old.items) read.now.guest) }
    requires target { read.now.address + item_size (item_type payload) * count
        ≤ length (memory_in (guests_of guests.old.items) read.now.guest) }
    ensures carried { carried (guests_of guests.old.items) payload write.now read.now count
        ≡ Some (guests_of guests.new.items) }
    ensures length { length guests.new.items ≡ length guests.old.items }
{
    let to = read.guest as usize;
    let mut memory = take_memory(alloc, guests, to);
    move_within(&mut memory, write.address, read.address, payload, count);
    put_memory(guests, to, memory);
}

fn move_within(memory: &mut GuestMemory, from: u32, to: u32, payload: Payload, count: ItemCount)
    requires numbers { IsTrue (is_number_or_none payload) }
    requires source { from + item_size (item_type payload) * count ≤ length memory.old.bytes }
    requires target { to + item_size (item_type payload) * count ≤ length memory.old.bytes }
    ensures { IsSomeAnd (items_at (item_type payload) memory.old.bytes from count)
        (λ xs. memory.new
        ≡ with_contents memory.old (stored_at (item_type payload) memory.old.bytes to xs)) }
{
    copy_within_items(memory.bytes_mut(), from, to, payload, count);
}

// Items move from the memory of one guest to another's.
#[inline(always)]
fn carry_between(
    guests: &mut Vec<Guest>,
    payload: Payload,
    write: &Operation,
    read: &Operation,
    count: ItemCount,
) -> Result<(), BadItem>
    requires apart { write.now.guest ≢ read.now.guest }
    requires writer { write.now.guest < length guests.old.items }
    requires reader { read.now.guest < length guests.old.items }
    requires source { write.now.address + item_size (item_type payload) * count
        ≤ length (memory_in (guests_of guests.old.items) write.now.guest) }
    requires target { read.now.address + item_size (item_type payload) * count
        ≤ length (memory_in (guests_of guests.old.items) read.now.guest) }
    ensures carries { Carries (guests_of guests.old.items) (guests_of guests.new.items)
        payload write.now read.now count result }
    ensures length { length guests.new.items ≡ length guests.old.items }
{
    let (from, to) = (write.guest as usize, read.guest as usize);
    receive_between(
        guests,
        from,
        write.address,
        to,
        read.address,
        payload,
        count,
    )
}

// Items move from where the write's next ones lie to where the read's are to lie.
#[inline(always)]
fn carry(
    alloc: Global,
    guests: &mut Vec<Guest>,
    payload: Payload,
    write: &Operation,
    read: &Operation,
    count: ItemCount,
) -> Result<(), BadItem>
    requires writer { write.now.guest < length guests.old.items }
    requires reader { read.now.guest < length guests.old.items }
    requires numbers { write.now.guest ≡ read.now.guest → IsTrue (is_number_or_none payload) }
    requires source { is_out_of_bounds
        (length (memory_in (guests_of guests.old.items) write.now.guest)) (item_type payload)
        write.now.address count ≡ false }
    requires target { is_out_of_bounds
        (length (memory_in (guests_of guests.old.items) read.now.guest)) (item_type payload)
        read.now.address count ≡ false }
    requires some { 0 < count }
    ensures carries { Carries (guests_of guests.old.items) (guests_of guests.new.items)
        payload write.now read.now count result }
    ensures length { length guests.new.items ≡ length guests.old.items }
{
    if payload.size() == 0 {
        return Ok(());
    }
    if write.guest == read.guest {
        carry_within(alloc, guests, payload, write, read, count);
        return Ok(());
    }
    carry_between(guests, payload, write, read, count)
}

// Items move from the side that writes to the one that reads.
#[inline(always)]
fn carry_from(
    alloc: Global,
    guests: &mut Vec<Guest>,
    payload: Payload,
    side: Side,
    mine: &Operation,
    theirs: &Operation,
    count: ItemCount,
) -> Result<(), BadItem>
    requires mine { IsPlaced (sizes_of (guests_of guests.old.items)) payload mine.now }
    requires theirs { IsPlaced (sizes_of (guests_of guests.old.items)) payload theirs.now }
    requires numbers { mine.now.guest ≡ theirs.now.guest → IsTrue (is_number_or_none payload) }
    requires mine_left { count ≤ mine.now.left }
    requires theirs_left { count ≤ theirs.now.left }
    requires some { 0 < count }
    ensures carries { Carries (guests_of guests.old.items) (guests_of guests.new.items) payload
        (write_of side mine.now theirs.now) (read_of side mine.now theirs.now) count result }
{
    let write = write_of(side, mine, theirs);
    let read = read_of(side, mine, theirs);
    carry(alloc, guests, payload, write, read, count)
}

// Both complete: items move, the caller completes, and the waiting side has met.
#[inline(always)]
fn exchange(
    alloc: Global,
    guests: &mut Vec<Guest>,
    stream: &mut Channel,
    payload: &Payload,
    side: Side,
    mine: &Operation,
    theirs: &Operation,
) -> Result<ReturnCode, BadItem>
    requires payload { payload.now ≡ stream.old.payload }
    requires waits { Waits (opposite side) stream.old theirs.now }
    requires mine { IsPlaced (sizes_of (guests_of guests.old.items)) stream.old.payload mine.now }
    requires theirs { IsPlaced (sizes_of (guests_of guests.old.items)) stream.old.payload
        theirs.now }
    requires numbers { mine.now.guest ≡ theirs.now.guest
        → IsTrue (is_number_or_none stream.old.payload) }
    requires some { 0 < min mine.now.left theirs.now.left }
    requires room { theirs.now.address
        + item_size (item_type stream.old.payload) * min mine.now.left theirs.now.left < 2 ^ 32 }
    ensures { moves side (guests_of guests.old.items) stream.old mine.now theirs.now
        (min mine.now.left theirs.now.left)
        (carried (guests_of guests.old.items) stream.old.payload (write_of side mine.now theirs.now)
        (read_of side mine.now theirs.now) (min mine.now.left theirs.now.left))
        ≡ meeting_answered result guests.new.items stream.new }
{
    let count = lesser(mine.left, theirs.left);
    carry_from(alloc, guests, *payload, side, mine, theirs, count)?;
    stream.receive(count.as_u32());
    stream.advance(opposite(side), payload, count);
    Ok(ReturnCode::completed(stream.kind(), count))
}

// Mine is called where theirs is open.
#[inline(always)]
fn meet(
    alloc: Global,
    guests: &mut Vec<Guest>,
    stream: &mut Channel,
    payload: &Payload,
    side: Side,
    mine: Operation,
    theirs: Operation,
) -> Result<ReturnCode, BadItem>
    requires payload { payload.now ≡ stream.old.payload }
    requires idle { (end_of side stream.old).operation ≡ None }
    requires begun { mine ≡ begun mine.guest mine.address mine.left }
    requires waits { Waits (opposite side) stream.old theirs }
    requires mine { IsPlaced (sizes_of (guests_of guests.old.items)) stream.old.payload mine }
    requires theirs { IsPlaced (sizes_of (guests_of guests.old.items)) stream.old.payload theirs }
    requires numbers { mine.guest ≡ theirs.guest → IsTrue (is_number_or_none stream.old.payload) }
    requires sizes { AreSmall (sizes_of (guests_of guests.old.items)) }
    ensures { rendezvous side (guests_of guests.old.items) stream.old mine theirs
        ≡ meeting_answered result guests.new.items stream.new }
{
    let met = match side {
        Side::Writing => meeting(mine.left, theirs.left),
        Side::Reading => meeting(theirs.left, mine.left),
    };
    match met {
        Meeting::BothComplete => exchange(alloc, guests, stream, payload, side, &mine, &theirs),
        Meeting::WriteCompletes => Ok(complete_alone(stream, Side::Writing, side, mine, theirs)),
        Meeting::ReadCompletes => Ok(complete_alone(stream, Side::Reading, side, mine, theirs)),
    }
}

/// A read or write of a guest, by what it finds on the other side. After a bad item nothing has
/// changed. The payload is the stream's: who knows it already, or some of it, has less code here.
#[inline(always)]
#[tactic(auto, unfolding(strm_machine::specs::Operating::operate))]
pub fn meet_or_wait(
    alloc: Global,
    guests: &mut Vec<Guest>,
    stream: &mut Channel,
    payload: &Payload,
    side: Side,
    mine: Operation,
) -> Result<ReturnCode, BadItem>
    requires payload { payload.now ≡ stream.old.payload }
    requires idle { (end_of side stream.old).operation ≡ None }
    requires begun { mine ≡ begun mine.guest mine.address mine.left }
    requires placed { StreamIsPlaced (sizes_of (guests_of guests.old.items)) stream.old }
    requires mine { IsPlaced (sizes_of (guests_of guests.old.items)) stream.old.payload mine }
    requires sizes { AreSmall (sizes_of (guests_of guests.old.items)) }
    requires numbers { IsTrue (is_open_of mine.guest (end_of (opposite side) stream.old).operation)
        → IsTrue (is_number_or_none stream.old.payload) }
    ensures { operate side (guests_of guests.old.items) stream.old mine
        ≡ meeting_answered result guests.new.items stream.new }
{
    if stream.owner(opposite(side)) == Owner::Gone {
        stream.learn(side);
        return Ok(ReturnCode::Dropped(ItemCount::ZERO));
    }
    match stream.operation(opposite(side)) {
        Some(theirs) if theirs.is_open => {
            meet(alloc, guests, stream, payload, side, mine, theirs)
        }
        _ => {
            stream.begin(side, mine.guest, mine.address, mine.left);
            Ok(ReturnCode::Blocked)
        }
    }
}
