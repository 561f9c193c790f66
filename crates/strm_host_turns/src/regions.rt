//! The region of a guest's memory where a read's next items are to lie, lent to a window and taken
//! back; and that where a write's next items lie, lent to an offer.
//!
//! Source: wasmtime, `futures_and_streams.rs`, `Destination` of a guest's read and `Source` of a guest's
//! write. Ours: the window or the offer owns the guest's memory meanwhile; nothing is copied.

ghost use Rattle.std.specs.Prelude.{◌≡◌, ◌≢◌, ◌*◌, ◌<◌, [], length};
ghost use Rattle.strm_memory.specs.Linear.{LinearMemory, untold};
ghost use Rattle.strm_machine.specs.Soundness.{sizes_of, IsPlaced};
ghost use Rattle.strm_buffers.specs.Windows.{Between, HasRoom, lent_memory, given_back};
ghost use Rattle.strm_buffers.specs.Offers.{IsRegion, IsMemoryOf};
ghost use Rattle.strm_channels.specs.Guests.{guests_of, linear_in, with_linear};
ghost use Rattle.strm_host_turns.specs.Regions.{region_address, lent_items};

use std::alloc::Global;
use strm_buffers::offers::Offer;
use strm_buffers::windows::Window;
use strm_channels::guests::{Guest, put_memory, take_memory};
use strm_codes::payloads::Payload;
use strm_machine::streams::Operation;

/// Where the next items of a read or write lie. Those that take no bytes lie anywhere, so at the front.
#[inline(always)]
pub fn region_address(payload: &Payload, operation: &Operation) -> u32
    ensures { result ≡ region_address payload.now operation.now }
{
    if payload.size() == 0 || operation.left.equals_u32(0) {
        0
    } else {
        operation.address
    }
}

/// Lends the region of a read's next items. The guest has no bytes until it is returned. Takes no
/// memory.
#[inline(always)]
pub fn lend_region(
    alloc: Global,
    guests: &mut Vec<Guest>,
    payload: &Payload,
    read: &Operation,
) -> Window
    requires placed { IsPlaced (sizes_of (guests_of guests.old.items)) payload.now read.now }
    ensures window { result ≡ lent_memory payload.now
        (linear_in (guests_of guests.old.items) read.now.guest)
        (region_address payload.now read.now) read.now.left }
    ensures guests { guests_of guests.new.items
        ≡ with_linear (guests_of guests.old.items) read.now.guest (untold []) }
    ensures count { length guests.new.items ≡ length guests.old.items }
{
    let memory = take_memory(alloc, guests, read.guest as usize);
    let address = region_address(payload, read);
    Window::over(memory, *payload, address, read.left.as_u32())
}

/// Gives a guest its memory back, with the marked items: their number.
#[inline(always)]
pub fn return_region(guests: &mut Vec<Guest>, guest: u32, window: Window) -> u32
    requires there { guest < length guests.old.items }
    requires memory { window.place ≢ Between }
    ensures marked { result ≡ length window.marked }
    ensures room { HasRoom window.place result 0 }
    ensures guests { guests_of guests.new.items ≡
        with_linear (guests_of guests.old.items) guest (given_back window) }
{
    // For the clause `room`: the marked items are within the room.
    let _ = window.marked();
    let (memory, marked) = window.into_memory();
    put_memory(guests, guest as usize, memory);
    marked
}

/// Lends the items that a write has left, so many being taken since the host reader was last ready. The
/// guest has no bytes until they are returned. Takes no memory.
#[inline(always)]
pub fn lend_items(
    alloc: Global,
    guests: &mut Vec<Guest>,
    payload: &Payload,
    write: &Operation,
    since: u32,
) -> Offer
    requires placed { IsPlaced (sizes_of (guests_of guests.old.items)) payload.now write.now }
    ensures offer { result ≡ lent_items (guests_of guests.old.items) payload.now write.now since }
    ensures guests { guests_of guests.new.items
        ≡ with_linear (guests_of guests.old.items) write.now.guest (untold []) }
    ensures count { length guests.new.items ≡ length guests.old.items }
{
    let memory = take_memory(alloc, guests, write.guest as usize);
    let address = region_address(payload, write);
    Offer::of_memory(memory, *payload, address, write.left.as_u32(), since)
}

/// Gives a guest its memory back, as it was lent: how many items were taken.
#[inline(always)]
pub fn return_items(guests: &mut Vec<Guest>, guest: u32, offer: Offer) -> u32
    requires there { guest < length guests.old.items }
    requires memory { IsRegion offer.source }
    ensures taken { result ≡ offer.taken }
    ensures guests { (memory : LinearMemory) → IsMemoryOf offer.source memory →
        guests_of guests.new.items ≡ with_linear (guests_of guests.old.items) guest memory }
{
    let (memory, taken) = offer.into_memory();
    put_memory(guests, guest as usize, memory);
    taken
}
