//! Polls of boxed writers.

ghost use Rattle.std.specs.Prelude.{◌≡◌, ◌≢◌, [], length};
ghost use Rattle.strm_codes.specs.declared.payloads.Payload.TheVariants.{One};
ghost use Rattle.strm_codes.specs.declared.scalars.Scalar.TheVariants.{U8};
ghost use Rattle.strm_buffers.specs.Windows.{Between};

use crate::answers::is;
use std::alloc::Global;
use std::process::Abort;
use strm_buffers::answers::{HostTurn, StreamResult, Turn};
use strm_buffers::boxes::{give, poll_writer, writer_payload};
use strm_buffers::items::Items;
use strm_buffers::windows::Window;
use strm_buffers::writers::HostWriter;
use strm_codes::payloads::Payload;
use strm_codes::scalars::Scalar;
use strm_memory::memories::GuestMemory;

/// The payload of bytes.
pub const BYTES: Payload = Payload::One(Scalar::U8);

/// Completed.
pub const COMPLETED: HostTurn = Turn::Ready(StreamResult::Completed);

/// Dropped.
pub const DROPPED: HostTurn = Turn::Ready(StreamResult::Dropped);

/// A memory of so many bytes.
pub(crate) fn memory(rt: &impl Abort, alloc: Global, size: u32) -> GuestMemory
    ensures { length result.bytes ≡ size }
{
    GuestMemory::new(alloc, size).expect(rt, "memory")
}

// Items of one field each, by their numbers.
fn are_numbers(rt: &impl Abort, items: &Items, numbers: &[i128]) {
    is(rt, items.len(), numbers.len());
    for (index, number) in numbers.iter().enumerate() {
        is(rt, items.get(index).as_slice(), [*number].as_slice());
    }
}

/// What a writer holds is given to another host end: its items.
pub(crate) fn give_rest(
    rt: &impl Abort,
    alloc: Global,
    writer: &mut Box<dyn HostWriter>,
    numbers: &[i128],
) {
    let mut window = Window::unbounded(alloc, writer_payload(writer));
    is(rt, give(writer, &mut window), Ok(()));
    let _ = window.marked();
    are_numbers(rt, &window.into_items(), numbers);
}

/// A writer has one record: how many items that tells.
pub(crate) fn items_told(rt: &impl Abort, writer: &Box<dyn HostWriter>) -> usize {
    assert!(rt; writer.records() == 1);
    writer.record_at(0).expect(rt, "memory").items.len()
}

/// A writer gives what it holds, and is polled for another host end: its turn, and its items.
pub(crate) fn poll(
    rt: &impl Abort,
    alloc: Global,
    writer: &mut Box<dyn HostWriter>,
    finish: bool,
    turn: HostTurn,
    numbers: &[i128],
) {
    let mut held = Window::unbounded(alloc, writer_payload(writer));
    is(rt, give(writer, &mut held), Ok(()));
    let mut window = Window::unbounded(alloc, writer_payload(writer));
    is(rt, poll_writer(writer, &mut window, finish), turn);
    let _ = window.marked();
    are_numbers(rt, &window.into_items(), numbers);
}

/// A writer of bytes gives what it holds, and is polled through a window over a memory: its turn,
/// how many items it marked, and the memory afterwards.
pub(crate) fn poll_over(
    rt: &impl Abort,
    alloc: Global,
    writer: &mut Box<dyn HostWriter>,
    window: Window,
    turn: HostTurn,
    count: u32,
    bytes: &[u8],
)
    requires payload { window.payload ≡ One U8 }
    requires unmarked { window.marked ≡ [] }
    requires over { window.place ≢ Between }
{
    let mut window = window;
    is(rt, writer_payload(writer), BYTES);
    let mut held = Window::unbounded(alloc, BYTES);
    is(rt, give(writer, &mut held), Ok(()));
    is(rt, window.prepare(), Ok(()));
    is(rt, poll_writer(writer, &mut window, false), turn);
    let (memory, marked) = window.into_memory();
    is(rt, marked, count);
    is(rt, memory.bytes(), bytes);
}
