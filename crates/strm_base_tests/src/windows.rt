//! Windows and offers.

use crate::answers::{is, memory, vector};
use std::alloc::Global;
use std::process::Abort;
use strm_buffers::offers::Offer;
use strm_buffers::windows::Window;
use strm_codes::payloads::Payload;
use strm_codes::scalars::Scalar;
use strm_memory::memories::GuestMemory;
use strm_memory::payloaded::Payloaded;

const BYTES: Payload = Payload::One(Scalar::U8);

// The room of a window over these bytes is filled, and so many bytes of it are marked: the bytes afterwards.
fn fills(
    rt: &impl Abort,
    alloc: Global,
    bytes: &[u8],
    address: u32,
    room: u32,
    count: u32,
    wanted: &[u8],
) {
    let memory = GuestMemory::of_bytes(vector(rt, alloc, bytes));
    assert!(rt; count <= room && address as usize + room as usize <= memory.len());
    let mut window = Window::over(memory, BYTES, address, room);
    is(rt, window.prepare(), Ok(()));
    window.unmarked().fill(9);
    window.mark(count as usize);
    let (memory, marked) = window.into_memory();
    is(rt, memory.bytes(), wanted);
    is(rt, marked, count);
}

// 100 bytes, of which the two at 10 are others.
const MARKED: [u8; 100] = [
    7, 7, 7, 7, 7, 7, 7, 7, 7, 7, 9, 9, 7, 7, 7, 7, 7, 7, 7, 7, 7, 7, 7, 7, 7, 7, 7, 7, 7, 7, 7, 7,
    7, 7, 7, 7, 7, 7, 7, 7, 7, 7, 7, 7, 7, 7, 7, 7, 7, 7, 7, 7, 7, 7, 7, 7, 7, 7, 7, 7, 7, 7, 7, 7,
    7, 7, 7, 7, 7, 7, 7, 7, 7, 7, 7, 7, 7, 7, 7, 7, 7, 7, 7, 7, 7, 7, 7, 7, 7, 7, 7, 7, 7, 7, 7, 7,
    7, 7, 7, 7,
];

/// Also of more than a window keeps in itself, and of no room at all.
#[test]
fn bytes_that_are_not_marked_are_put_back(rt: HostRuntime) {
    fills(&rt, rt.alloc(), &[1, 2, 3, 4], 1, 2, 1, &[1, 9, 3, 4]);
    fills(&rt, rt.alloc(), &[7; 100], 10, 80, 2, &MARKED);
    fills(&rt, rt.alloc(), &[1, 2], 2, 0, 0, &[1, 2]);
}

#[test]
fn all_of_a_room_is_marked(rt: HostRuntime) {
    let mut window = Window::over(memory(&rt, rt.alloc(), 3), BYTES, 0, 3);
    is(&rt, window.prepare(), Ok(()));
    window.unmarked().copy_from_slice([7, 8, 9].as_slice());
    window.mark(2);
    is(&rt, window.lent(), [7, 8, 9].as_slice());
    is(&rt, window.put(&6u8.lower()), Ok(()));
    let (memory, _) = window.into_memory();
    is(&rt, memory.bytes(), [7, 8, 6].as_slice());
}

#[test]
fn marked_bytes_stay_where_more_are_asked_for(rt: HostRuntime) {
    let mut window = Window::unbounded(rt.alloc(), BYTES);
    is(&rt, window.direct(2), Ok(()));
    window.unmarked().fill(5);
    window.mark(1);
    is(&rt, window.direct(3), Ok(()));
    is(&rt, window.unmarked().len(), 3);
    window.mark(1);
    let offer = Offer::of_items(window.into_items(), 0);
    is(&rt, offer.direct(), [5, 0].as_slice());
}

#[test]
fn what_an_offer_lends_comes_back(rt: HostRuntime) {
    let memory = GuestMemory::of_bytes(vector(&rt, rt.alloc(), &[1, 2, 3, 4]));
    let mut offer = Offer::of_memory(memory, BYTES, 1, 3, 2);
    is(&rt, offer.direct(), [2, 3, 4].as_slice());
    offer.mark_read(2);
    is(&rt, offer.remaining(), 1);
    is(&rt, offer.since(), 2);
    is(&rt, offer.taken(), 2);
    let (memory, _) = offer.into_memory();
    is(&rt, memory.bytes(), [1, 2, 3, 4].as_slice());
}
